//! The places of a template that have a placeholder, and what is given for them.

ghost use Rattle.std.specs.Prelude.{◌≡◌, IfOk, option_map, string_bytes};
ghost use Rattle.noise_keys.specs.Table.{same_own};
ghost use Rattle.noise_names.specs.Tokens.{same_role, same_token};
ghost use Rattle.noise_vectors.specs.VectorText.{own_word};
ghost use Rattle.noise_explain.specs.Values.{given_for, place_name, same_place, takes_key};

use noise_keys::Own;
use noise_lines::{role_word, token_word};
use noise_names::{Role, Token};
use std::alloc::{AllocError, Global};

/// A place of a template that has a placeholder.
#[derive(Clone, Copy, Debug, PartialEq, Eq)]
pub enum Place {
    /// The prologue.
    Prologue,
    /// A public key of a party.
    Key(Role, Own),
    /// The result of a DH token.
    Dh(Token),
    /// The psk of an index.
    Psk(u8),
    /// The payload of a message, counted from 1: those of the handshake, and then those of the transport.
    Payload(u64),
}

/// What is given for a place.
#[derive(Debug, Drop, PartialEq, Eq)]
pub struct Given {
    /// The place.
    pub place: Place,
    /// What stands there.
    pub value: Vec<u8>,
}

// What is given for a place first, if anything is.
pub(crate) fn given_for(place: Place, given: &[Given]) -> Option<&[u8]>
    ensures { option_map (λ value. value.now) result ≡ option_map (λ g. g.value.items) (given_for place given.now) }
{
    for g in given {
        if is_same(g.place, place) {
            return Some(&g.value);
        }
    }
    None
}

// Whether they are one place.
pub(crate) fn is_same(place: Place, other: Place) -> bool
    ensures { result ≡ same_place place other }
{
    match (place, other) {
        (Place::Prologue, Place::Prologue) => true,
        (Place::Key(role, own), Place::Key(party, key)) => is_role(role, party) && is_own(own, key),
        (Place::Dh(token), Place::Dh(dh)) => is_token(token, dh),
        (Place::Psk(index), Place::Psk(number)) => index == number,
        (Place::Payload(index), Place::Payload(number)) => index == number,
        _ => false,
    }
}

pub(crate) fn is_role(role: Role, other: Role) -> bool
    ensures { result ≡ same_role role other }
{
    role == other
}

fn is_own(own: Own, other: Own) -> bool
    ensures { result ≡ same_own own other }
{
    own == other
}

fn is_token(token: Token, other: Token) -> bool
    ensures { result ≡ same_token token other }
{
    token == other
}

// Whether a key, a DH result or a psk stands there.
pub(crate) fn takes_key(place: Place) -> bool
    ensures { result ≡ takes_key place }
{
    !matches!(place, Place::Prologue | Place::Payload(_))
}

// The name of a place.
pub(crate) fn place_name(alloc: Global, place: Place) -> Result<String, AllocError>
    ensures { IfOk result (λ name. string_bytes name ≡ place_name place) }
{
    match place {
        Place::Prologue => String::from_str(alloc, "prologue"),
        Place::Key(role, own) => {
            let (role, own) = (role_word(role), own_word(own));
            Ok(format!(in alloc; "{role} {own}")?)
        }
        Place::Dh(token) => {
            let token = token_word(token);
            Ok(format!(in alloc; "dh {token}")?)
        }
        Place::Psk(index) => Ok(format!(in alloc; "psk {index}")?),
        Place::Payload(number) => Ok(format!(in alloc; "payload {number}")?),
    }
}

// The word of a key pair.
pub(crate) fn own_word(own: Own) -> &'static str
    ensures { result.now ≡ own_word own }
{
    match own {
        Own::Ephemeral => "e",
        Own::Static => "s",
    }
}
