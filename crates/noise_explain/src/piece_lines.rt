//! The lines of a message and of its pieces.

ghost use Rattle.std.specs.Prelude.{◌≡◌, ◌≤◌, ◌<◌, ◌++◌, OnOk, length};
ghost use Rattle.noise_names.specs.Pieces.{tokens_of};
ghost use Rattle.noise_explain.specs.FactLines.{key_how, key_line, message_line, payload_how, payload_line};

use crate::excerpt::push_number;
use crate::fact_words::push;
use crate::known::sender_of;
use noise_lines::{role_word, token_word};
use noise_names::{Token, ValidPattern};
use std::alloc::{AllocError, Global};

// The tokens of a message, counted from 1.
pub(crate) fn tokens_of<'a>(pattern: &'a ValidPattern, message: u8) -> &'a [Token]
    requires first { 1 ≤ message }
    requires last { message ≤ length pattern.now.messages }
    ensures value { result.now ≡ tokens_of pattern.now message }
    ensures few { length result.now ≤ 10 }
{
    pattern.pattern().messages()[usize::from(message) - 1].tokens()
}

pub(crate) fn push_message_line(
    alloc: Global,
    pattern: &ValidPattern,
    message: u8,
    text: &mut Vec<u8>,
) -> Result<(), AllocError>
    requires first { 1 ≤ message }
    requires last { message ≤ length pattern.now.messages }
    ensures appended { OnOk result (text.new.items ≡ text.old.items ++ message_line pattern.now message) }
{
    push(&["  message "], text)?;
    push_number(alloc, usize::from(message), text)?;
    let role = role_word(sender_of(usize::from(message)));
    push(&[", of the ", role, ", is "], text)?;
    push_number(alloc, usize::from(pattern.overhead(message)), text)?;
    push(&[" bytes longer than its payload\n"], text)
}

// The line of a key that is sent: its bytes, counted from 0, and whether it is encrypted.
pub(crate) fn push_key_line(
    alloc: Global,
    pattern: &ValidPattern,
    message: u8,
    token: u8,
    key: Token,
    text: &mut Vec<u8>,
) -> Result<(), AllocError>
    requires first { 1 ≤ message }
    requires last { message ≤ length pattern.now.messages }
    requires token { token < length (tokens_of pattern.now message) }
    requires few { token < 10 }
    ensures appended { OnOk result (text.new.items ≡ text.old.items ++ key_line pattern.now message token key) }
{
    let from = usize::from(pattern.bytes_before(message, token));
    let next = usize::from(pattern.bytes_before(message, token + 1));
    push(&["    ", token_word(key), ": bytes "], text)?;
    push_number(alloc, from, text)?;
    push(&[" to "], text)?;
    push_number(alloc, next.saturating_sub(1), text)?;
    push(
        &[key_how(key, pattern.has_key_before(message, token))],
        text,
    )
}

fn key_how(key: Token, has_key: bool) -> &'static str
    ensures { result.now ≡ key_how key has_key }
{
    match key {
        Token::S if has_key => ", encrypted, the last 16 its tag\n",
        Token::S => ", in the clear: everybody sees it\n",
        _ => ", in the clear\n",
    }
}

// The line of a payload after so many tokens.
pub(crate) fn push_payload_line(
    alloc: Global,
    pattern: &ValidPattern,
    message: u8,
    count: u8,
    text: &mut Vec<u8>,
) -> Result<(), AllocError>
    requires first { 1 ≤ message }
    requires last { message ≤ length pattern.now.messages }
    requires token { count ≤ length (tokens_of pattern.now message) }
    ensures appended { OnOk result (text.new.items ≡ text.old.items ++ payload_line pattern.now message count) }
{
    push(&["    payload: from byte "], text)?;
    push_number(
        alloc,
        usize::from(pattern.bytes_before(message, count)),
        text,
    )?;
    push(&[payload_how(pattern.has_key_before(message, count))], text)
}

fn payload_how(has_key: bool) -> &'static str
    ensures { result.now ≡ payload_how has_key }
{
    if has_key {
        " on, encrypted, and 16 bytes of tag after it\n"
    } else {
        " on, in the clear: everybody sees it\n"
    }
}
