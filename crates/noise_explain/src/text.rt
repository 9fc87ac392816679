//! The text of the vector file that a handshake of a pattern needs.

ghost use Rattle.std.specs.Prelude.{◌≡◌, ◌≤◌, ◌+◌, ◌++◌, ◌∷◌, [], IfOk, OnOk, length};
ghost use Rattle.noise_names.specs.Fundamental.{fundamental_of};
ghost use Rattle.noise_vectors.specs.VectorText.{block_text, lines_of};
ghost use Rattle.noise_vectors.specs.HexWord.{hex_of};
ghost use Rattle.noise_explain.specs.Template.{IsTemplateText, head_text, say_words, speakers, template_text, unless_known, writers};
ghost use Rattle.noise_explain.specs.Values.{AreRight, placeholder_of, value_in};

use crate::keys::{push_party, push_psks};
use crate::values::{Given, Place, given_for};
use noise_lines::role_word;
use noise_names::{Message, Pattern, Role, fundamental};
use noise_vectors::hex_word;
use std::alloc::{AllocError, Global};

/// The text of a vector file for a handshake of this pattern, and a transport message of each party that may send one.
/// Where nothing is given for a key, it is a placeholder, of one byte: of the initiator `e1` the ephemeral and `51` the
/// static key, of the responder `e2` and `52`; `ee`, `e5`, `5e` and `55` the DH results of `ee`, `es`, `se` and `ss`;
/// `a0` to `a8` the psk of that index. The prologue and a payload are empty then.
pub fn template(alloc: Global, pattern: &Pattern, given: &[Given]) -> Result<Vec<u8>, AllocError>
    requires right { AreRight given.now }
    ensures text { IfOk result (λ text. text.items ≡ template_text given.now pattern.now) }
    ensures file { IfOk result (λ text. IsTemplateText given.now pattern.now text.items) }
{
    let mut text = Vec::new(alloc);
    push_head(pattern, given, &mut text)?;
    push_psks(pattern.places().numbers(), given, &mut text)?;
    push_party(pattern, Role::Initiator, given, &mut text)?;
    push_party(pattern, Role::Responder, given, &mut text)?;
    push_says(pattern.messages(), given, &mut text)?;
    Ok(text)
}

// Appends the lines before the psks.
fn push_head(pattern: &Pattern, given: &[Given], text: &mut Vec<u8>) -> Result<(), AllocError>
    ensures { OnOk result (text.new.items ≡ text.old.items ++ head_text given.now pattern.now) }
{
    text.extend_from_slice(b"vector 1\nprotocol ".as_slice())?;
    text.extend_from_slice(&pattern.name().write())?;
    text.push(b'\n')?;
    push_block(pattern, text)?;
    text.extend_from_slice(b"prologue ".as_slice())?;
    push_bytes(given, Place::Prologue, text)?;
    text.extend_from_slice(b"\ninterval 0\n".as_slice())
}

// Appends the pattern's text and the line after it, unless it is the fundamental one of its base.
fn push_block(pattern: &Pattern, text: &mut Vec<u8>) -> Result<(), AllocError>
    ensures { OnOk result (text.new.items
        ≡ text.old.items ++ block_text (unless_known (fundamental_of pattern.now.base) pattern.now) []) }
{
    match fundamental(pattern.base()) {
        Some(_) => Ok(()),
        None => {
            pattern.write_text(text)?;
            text.extend_from_slice(b"end\n".as_slice())
        }
    }
}

// Appends what is given for the prologue or a payload, which is empty else.
fn push_bytes(given: &[Given], place: Place, text: &mut Vec<u8>) -> Result<(), AllocError>
    requires placeholder { placeholder_of place ≡ [] }
    ensures appended { OnOk result (text.new.items ≡ text.old.items ++ hex_of (value_in given.now place)) }
{
    match given_for(place, given) {
        Some(value) => hex_word(value, text),
        None => hex_word(&[], text),
    }
}

// Appends a line for each message of the handshake, and for a transport message of each party that may send one.
fn push_says(messages: &[Message], given: &[Given], text: &mut Vec<u8>) -> Result<(), AllocError>
    requires few { length messages.now ≤ 8 }
    ensures appended { OnOk result (text.new.items
        ≡ text.old.items ++ lines_of (say_words given.now) (speakers messages.now) []) }
{
    push_turns(messages, 1, Role::Initiator, given, text)?;
    let count = messages.len() as u64;
    push_say(count + 1, Role::Initiator, given, text)?;
    if messages.len() == 1 {
        return Ok(());
    }
    push_say(count + 2, Role::Responder, given, text)
}

// Appends a line for each of these messages, the first of which has this number and is the party's.
fn push_turns(
    messages: &[Message],
    number: u64,
    party: Role,
    given: &[Given],
    text: &mut Vec<u8>,
) -> Result<(), AllocError>
    requires few { number + length messages.now ≤ 9 }
    ensures appended { OnOk result (text.new.items
        ≡ text.old.items ++ lines_of (say_words given.now) (writers number party messages.now) []) }
{
    let Some((_, later)) = messages.split_first() else {
        return Ok(());
    };
    push_say(number, party, given, text)?;
    push_turns(later, number + 1, party.other(), given, text)
}

// Appends a line for a message with the payload of this number.
fn push_say(number: u64, role: Role, given: &[Given], text: &mut Vec<u8>) -> Result<(), AllocError>
    ensures { OnOk result (text.new.items ≡ text.old.items ++ (say_words given.now (number, role) ++ 10 ∷ [])) }
{
    text.extend_from_slice(b"say ".as_slice())?;
    text.extend_from_slice(role_word(role).as_bytes())?;
    text.push(b' ')?;
    push_bytes(given, Place::Payload(number), text)?;
    text.extend_from_slice(b" -\n".as_slice())
}
