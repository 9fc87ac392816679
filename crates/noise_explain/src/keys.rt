//! The lines of keys, with what is given, and else placeholders.

ghost use Rattle.std.specs.Prelude.{◌≡◌, ◌≤◌, ◌++◌, ◌∷◌, [], true, IsTrue, OnOk, nat_le};
ghost use Rattle.std.specs.List.{list_all};
ghost use Rattle.hex.specs.Hex.{encode_lower};
ghost use Rattle.noise_vectors.specs.VectorText.{answer_words, key_word, lines_of, psk_words};
ghost use Rattle.noise_explain.specs.Template.{entries_for, entry, keys_line, keys_text, psk_at, psks_text, template_key};
ghost use Rattle.noise_explain.specs.Values.{AreRight, dh_byte, key_byte, placeholder, placeholder_of, takes_key, value_in};

use crate::needs::mixes;
use crate::values::{Given, Place, given_for, own_word};
use noise_keys::{Own, own_at, sends, token_of};
use noise_lines::role_word;
use noise_names::{Pattern, Role, Token};
use noise_vectors::hex_word;
use std::alloc::AllocError;

// Appends a line for the psk of each index.
pub(crate) fn push_psks(
    places: &[u8],
    given: &[Given],
    text: &mut Vec<u8>,
) -> Result<(), AllocError>
    requires right { AreRight given.now }
    requires low { IsTrue (list_all (λ n. nat_le n 8) places.now) }
    ensures appended { OnOk result (text.new.items ≡ text.old.items ++ psks_text given.now places.now) }
{
    let Some((place, later)) = places.split_first() else {
        return Ok(());
    };
    push_psk(*place, given, text)?;
    push_psks(later, given, text)
}

// Appends the line of a psk.
fn push_psk(place: u8, given: &[Given], text: &mut Vec<u8>) -> Result<(), AllocError>
    requires right { AreRight given.now }
    requires low { place ≤ 8 }
    ensures appended { OnOk result (text.new.items
        ≡ text.old.items ++ (psk_words (psk_at given.now place) ++ 10 ∷ [])) }
{
    text.extend_from_slice(b"psk ".as_slice())?;
    push_key(Place::Psk(place), 160 + place, given, text)?;
    text.push(b'\n')?;
    Ok(())
}

// Appends the line of a party's keys, and those of its DH results.
pub(crate) fn push_party(
    pattern: &Pattern,
    role: Role,
    given: &[Given],
    text: &mut Vec<u8>,
) -> Result<(), AllocError>
    requires right { AreRight given.now }
    ensures appended { OnOk result (text.new.items ≡ text.old.items ++ keys_text given.now pattern.now role) }
{
    push_keys(pattern, role, given, text)?;
    push_answer(pattern, role, Token::Ee, given, text)?;
    push_answer(pattern, role, Token::Es, given, text)?;
    push_answer(pattern, role, Token::Se, given, text)?;
    push_answer(pattern, role, Token::Ss, given, text)
}

// Appends the line of a party's keys.
fn push_keys(
    pattern: &Pattern,
    role: Role,
    given: &[Given],
    text: &mut Vec<u8>,
) -> Result<(), AllocError>
    requires right { AreRight given.now }
    ensures appended { OnOk result (text.new.items ≡ text.old.items ++ keys_line given.now pattern.now role) }
{
    text.extend_from_slice(role_word(role).as_bytes())?;
    text.extend_from_slice(b" table ".as_slice())?;
    push_own(pattern, role, Own::Ephemeral, given, text)?;
    text.push(b' ')?;
    push_own(pattern, role, Own::Static, given, text)?;
    text.push(b'\n')?;
    Ok(())
}

// Appends a party's key, or a hyphen where it needs none.
fn push_own(
    pattern: &Pattern,
    role: Role,
    own: Own,
    given: &[Given],
    text: &mut Vec<u8>,
) -> Result<(), AllocError>
    requires right { AreRight given.now }
    ensures appended { OnOk result (text.new.items
        ≡ text.old.items ++ key_word (template_key given.now pattern.now role own)) }
{
    if sends(pattern, role, token_of(own)) {
        return push_public(role, own, given, text);
    }
    text.push(b'-')?;
    Ok(())
}

// Appends a party's DH result at a DH token, where a message has the token.
fn push_answer(
    pattern: &Pattern,
    role: Role,
    dh: Token,
    given: &[Given],
    text: &mut Vec<u8>,
) -> Result<(), AllocError>
    requires right { AreRight given.now }
    ensures appended { OnOk result (text.new.items ≡ text.old.items
        ++ lines_of answer_words (entries_for given.now pattern.now role dh) []) }
{
    if mixes(pattern.messages(), dh) {
        return push_entry(role, dh, given, text);
    }
    Ok(())
}

// Appends the line of a DH result.
fn push_entry(role: Role, dh: Token, given: &[Given], text: &mut Vec<u8>) -> Result<(), AllocError>
    requires right { AreRight given.now }
    ensures appended { OnOk result (text.new.items
        ≡ text.old.items ++ (answer_words (entry given.now role dh) ++ 10 ∷ [])) }
{
    text.extend_from_slice(b"answer ".as_slice())?;
    text.extend_from_slice(own_word(own_at(role, dh)).as_bytes())?;
    text.push(b' ')?;
    push_public(role.other(), own_at(role.other(), dh), given, text)?;
    text.push(b' ')?;
    push_key(Place::Dh(dh), dh_byte(dh), given, text)?;
    text.push(b'\n')?;
    Ok(())
}

// Appends a party's public key.
fn push_public(role: Role, own: Own, given: &[Given], text: &mut Vec<u8>) -> Result<(), AllocError>
    requires right { AreRight given.now }
    ensures appended { OnOk result (text.new.items
        ≡ text.old.items ++ encode_lower (value_in given.now (Place.Key role own))) }
{
    push_key(Place::Key(role, own), key_byte(role, own), given, text)
}

// Appends what is given for a key, a DH result or a psk, or else its placeholder of this byte.
fn push_key(place: Place, byte: u8, given: &[Given], text: &mut Vec<u8>) -> Result<(), AllocError>
    requires key { takes_key place ≡ true }
    requires placeholder { placeholder_of place ≡ placeholder byte }
    requires right { AreRight given.now }
    ensures appended { OnOk result (text.new.items ≡ text.old.items ++ encode_lower (value_in given.now place)) }
{
    match given_for(place, given) {
        Some(value) => hex_word(value, text),
        None => hex_word(&[byte; 32], text),
    }
}

// The placeholder of a party's public key.
fn key_byte(role: Role, own: Own) -> u8
    ensures { result ≡ key_byte role own }
{
    match (role, own) {
        (Role::Initiator, Own::Ephemeral) => 0xe1,
        (Role::Initiator, Own::Static) => 0x51,
        (Role::Responder, Own::Ephemeral) => 0xe2,
        (Role::Responder, Own::Static) => 0x52,
    }
}

// The placeholder of the result of a DH token.
fn dh_byte(dh: Token) -> u8
    ensures { result ≡ dh_byte dh }
{
    match dh {
        Token::Ee => 0xee,
        Token::Es => 0xe5,
        Token::Se => 0x5e,
        Token::Ss => 0x55,
        _ => 0,
    }
}
