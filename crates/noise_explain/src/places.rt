//! The places of a pattern's template.

ghost use Rattle.std.specs.Prelude.{◌≡◌, ◌≤◌, ◌+◌, ◌++◌, IfOk, OnOk, length, map};
ghost use Rattle.noise_explain.specs.KeyLines.{dh_place, dh_places, key_place, key_places, pattern_places};
ghost use Rattle.noise_explain.specs.Template.{speakers, writers};
ghost use Rattle.noise_explain.specs.declared.values.Place.TheVariants.{Payload, Psk};

use crate::needs::mixes;
use crate::values::Place;
use noise_keys::{Own, sends, token_of};
use noise_names::{Message, Pattern, Role, Token};
use std::alloc::{AllocError, Global};

/// The places that the template of a pattern has, in the order in which a wrong line names them.
pub(crate) fn pattern_places(alloc: Global, pattern: &Pattern) -> Result<Vec<Place>, AllocError>
    ensures { IfOk result (λ places. places.items ≡ pattern_places pattern.now) }
{
    let mut places = Vec::new(alloc);
    places.push(Place::Prologue)?;
    push_keys(pattern, Role::Initiator, &mut places)?;
    push_keys(pattern, Role::Responder, &mut places)?;
    push_dhs(pattern, &mut places)?;
    push_psks(pattern.places().numbers(), &mut places)?;
    push_payloads(pattern.messages(), &mut places)?;
    Ok(places)
}

// Appends those of a party's public keys.
fn push_keys(pattern: &Pattern, role: Role, places: &mut Vec<Place>) -> Result<(), AllocError>
    ensures { OnOk result (places.new.items ≡ places.old.items ++ key_places pattern.now role) }
{
    push_key(pattern, role, Own::Ephemeral, places)?;
    push_key(pattern, role, Own::Static, places)
}

fn push_key(
    pattern: &Pattern,
    role: Role,
    own: Own,
    places: &mut Vec<Place>,
) -> Result<(), AllocError>
    ensures { OnOk result (places.new.items ≡ places.old.items ++ key_place pattern.now role own) }
{
    if sends(pattern, role, token_of(own)) {
        places.push(Place::Key(role, own))?;
    }
    Ok(())
}

// Appends those of the DH results.
fn push_dhs(pattern: &Pattern, places: &mut Vec<Place>) -> Result<(), AllocError>
    ensures { OnOk result (places.new.items ≡ places.old.items ++ dh_places pattern.now) }
{
    push_dh(pattern, Token::Ee, places)?;
    push_dh(pattern, Token::Es, places)?;
    push_dh(pattern, Token::Se, places)?;
    push_dh(pattern, Token::Ss, places)
}

fn push_dh(pattern: &Pattern, dh: Token, places: &mut Vec<Place>) -> Result<(), AllocError>
    ensures { OnOk result (places.new.items ≡ places.old.items ++ dh_place pattern.now dh) }
{
    if mixes(pattern.messages(), dh) {
        places.push(Place::Dh(dh))?;
    }
    Ok(())
}

// Appends those of the psks.
fn push_psks(indices: &[u8], places: &mut Vec<Place>) -> Result<(), AllocError>
    ensures { OnOk result (places.new.items ≡ places.old.items ++ map (λ index. Psk index) indices.now) }
{
    let Some((index, later)) = indices.split_first() else {
        return Ok(());
    };
    places.push(Place::Psk(*index))?;
    push_psks(later, places)
}

// Appends those of the payloads: of the handshake's messages, and of a transport message of each party that may send
// one.
fn push_payloads(messages: &[Message], places: &mut Vec<Place>) -> Result<(), AllocError>
    requires few { length messages.now ≤ 8 }
    ensures appended { OnOk result
        (places.new.items ≡ places.old.items ++ map (λ turn. Payload turn.0) (speakers messages.now)) }
{
    push_turns(messages, 1, Role::Initiator, places)?;
    let count = messages.len() as u64;
    places.push(Place::Payload(count + 1))?;
    if messages.len() == 1 {
        return Ok(());
    }
    places.push(Place::Payload(count + 2))?;
    Ok(())
}

// Appends those of these messages, the first of which has this number and is the party's.
fn push_turns(
    messages: &[Message],
    number: u64,
    party: Role,
    places: &mut Vec<Place>,
) -> Result<(), AllocError>
    requires few { number + length messages.now ≤ 9 }
    ensures appended { OnOk result
        (places.new.items ≡ places.old.items ++ map (λ turn. Payload turn.0) (writers number party messages.now)) }
{
    let Some((_, later)) = messages.split_first() else {
        return Ok(());
    };
    places.push(Place::Payload(number))?;
    push_turns(later, number + 1, party.other(), places)
}
