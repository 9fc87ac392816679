//! What a valid pattern's messages have in them, and what their tokens show.

ghost use Rattle.std.specs.Prelude.{◌≡◌, ◌≤◌, ◌<◌, ◌++◌, IfOk, OnOk, codes, length};
ghost use Rattle.noise_names.specs.Overhead.{has_key};
ghost use Rattle.noise_names.specs.Pieces.{places_to, tokens_of};
ghost use Rattle.noise_explain.specs.Facts.{computed_text, facts_text, if_keyed, key_text, message_text, origin_text, payload_text, responder_messages_text, rest_of, tagged_text, token_text, tokens_text, transport_line, transport_text, unmixed_text};

use crate::excerpt::{push_sentence, push_sentences};
use crate::fact_words::{mixed_words, push, push_again, push_enough, push_writer};
use crate::known::sender_of;
use crate::mixed::{Mixed, mixed_by};
use crate::parties::{Part, chooses, is_fresh, is_unmixed, own_part};
use crate::piece_lines::{push_key_line, push_message_line, push_payload_line, tokens_of};
use noise_names::{Role, Token, ValidPattern};
use std::alloc::{AllocError, Global};

/// The messages, each with its pieces, who can compute the keys of these, who can have written it, and whether a
/// recording of it is accepted; the same of the transport.
#[tactic(auto, unfolding(crate::specs::Facts::facts_text, crate::specs::Facts::messages_text))]
pub fn fact_lines(alloc: Global, pattern: &ValidPattern) -> Result<Vec<u8>, AllocError>
    ensures { IfOk result (λ text. text.items ≡ facts_text pattern.now) }
{
    let mut text = Vec::new(alloc);
    for index in 0..pattern.pattern().messages().len() {
        push_message(alloc, pattern, index as u8 + 1, &mut text)?;
    }
    push_transport(alloc, pattern, &mut text)?;
    push_unmixed(pattern, Role::Initiator, &mut text)?;
    push_unmixed(pattern, Role::Responder, &mut text)?;
    push_sentences(&NOTES, &mut text)?;
    Ok(text)
}

// What these lines mean, and what they don't say.
#[rattlefmt::skip]
pub(crate) static NOTES: [&str; 4] = [
    "Private keys are meant, and all public keys count as known; e is made for one handshake, s is kept.",
    "\"Or\" parts ways of which each is enough. Where an s comes in a message, the application has to compare it.",
    "These are facts of tokens. Not judged: how well payloads are authenticated and kept secret, and how well identities are hidden.",
    "Sections 7.7 and 7.8 of the standard grade the fundamental patterns; Noise Explorer grades and analyses one's own.",
];

#[tactic(auto, unfolding(crate::specs::Facts::message_text))]
fn push_message(
    alloc: Global,
    pattern: &ValidPattern,
    message: u8,
    text: &mut Vec<u8>,
) -> Result<(), AllocError>
    requires first { 1 ≤ message }
    requires last { message ≤ length pattern.now.messages }
    ensures appended { OnOk result (text.new.items ≡ text.old.items ++ message_text pattern.now message) }
{
    push_message_line(alloc, pattern, message, text)?;
    push_tokens(alloc, pattern, message, text)?;
    let count = tokens_of(pattern, message).len();
    push_payload(alloc, pattern, message, count as u8, text)?;
    push_origin(alloc, pattern, message, text)
}

// The keys that are sent.
#[tactic(auto, unfolding(crate::specs::Facts::tokens_text))]
fn push_tokens(
    alloc: Global,
    pattern: &ValidPattern,
    message: u8,
    text: &mut Vec<u8>,
) -> Result<(), AllocError>
    requires first { 1 ≤ message }
    requires last { message ≤ length pattern.now.messages }
    ensures appended { OnOk result (text.new.items
        ≡ text.old.items ++ tokens_text pattern.now message (length (tokens_of pattern.now message))) }
{
    let tokens = tokens_of(pattern, message);
    for index in 0..tokens.len() {
        push_token(alloc, pattern, message, index as u8, tokens[index], text)?;
    }
    Ok(())
}

// A key that is sent, and who can compute the key that encrypts it.
#[tactic(auto, unfolding(crate::specs::Facts::token_text))]
fn push_token(
    alloc: Global,
    pattern: &ValidPattern,
    message: u8,
    token: u8,
    key: Token,
    text: &mut Vec<u8>,
) -> Result<(), AllocError>
    requires first { 1 ≤ message }
    requires last { message ≤ length pattern.now.messages }
    requires token { token < length (tokens_of pattern.now message) }
    requires few { token < 10 }
    ensures appended { OnOk result (text.new.items ≡ text.old.items ++ token_text pattern.now message token key) }
{
    match key {
        Token::E => push_key_line(alloc, pattern, message, token, key, text),
        Token::S => {
            push_key_line(alloc, pattern, message, token, key, text)?;
            push_keyed(alloc, pattern, message, token, "    key of s: ", text)
        }
        Token::Ee | Token::Es | Token::Se | Token::Ss | Token::Psk => Ok(()),
    }
}

// What is mixed into the key before a token of a message, and who can compute it, where there is one.
#[tactic(auto, unfolding(crate::specs::Facts::if_keyed, crate::specs::Facts::computed_text))]
fn push_keyed(
    alloc: Global,
    pattern: &ValidPattern,
    message: u8,
    token: u8,
    front: &str,
    text: &mut Vec<u8>,
) -> Result<(), AllocError>
    requires first { 1 ≤ message }
    requires last { message ≤ length pattern.now.messages }
    requires token { token ≤ length (tokens_of pattern.now message) }
    ensures appended { OnOk result (text.new.items ≡ text.old.items
        ++ if_keyed (has_key pattern.now (places_to pattern.now message token)) front.now
        (computed_text pattern.now message token)) }
{
    if !pattern.has_key_before(message, token) {
        return Ok(());
    }
    let passed = usize::from(message) - 1;
    let mixed = mixed_by(pattern.pattern(), passed, usize::from(token));
    let reader = sender_of(usize::from(message)).other();
    let part = own_part(pattern.pattern(), reader, passed, mixed);
    push(&[front], text)?;
    push_key(alloc, mixed, reader, part, text)
}

// The payload after so many tokens, and who can compute the key that encrypts it.
#[tactic(auto, unfolding(crate::specs::Facts::payload_text))]
fn push_payload(
    alloc: Global,
    pattern: &ValidPattern,
    message: u8,
    count: u8,
    text: &mut Vec<u8>,
) -> Result<(), AllocError>
    requires first { 1 ≤ message }
    requires last { message ≤ length pattern.now.messages }
    requires token { count ≤ length (tokens_of pattern.now message) }
    ensures appended { OnOk result (text.new.items ≡ text.old.items ++ payload_text pattern.now message count) }
{
    push_payload_line(alloc, pattern, message, count, text)?;
    push_keyed(alloc, pattern, message, count, "    key of payload: ", text)
}

// What is mixed into a key, and who can compute it.
#[tactic(auto, unfolding(crate::specs::Facts::key_text))]
fn push_key(
    alloc: Global,
    mixed: Mixed,
    reader: Role,
    part: Part,
    text: &mut Vec<u8>,
) -> Result<(), AllocError>
    ensures { OnOk result (text.new.items ≡ text.old.items ++ key_text mixed reader part) }
{
    text.extend_from_slice(&mixed_words(alloc, mixed)?)?;
    push(&[" mixed in. "], text)?;
    push_enough(alloc, mixed, reader, part, text)?;
    push(&["\n"], text)
}

// Who can have written a message, and whether a recording of it is accepted.
#[tactic(auto, unfolding(crate::specs::Facts::origin_text))]
fn push_origin(
    alloc: Global,
    pattern: &ValidPattern,
    message: u8,
    text: &mut Vec<u8>,
) -> Result<(), AllocError>
    requires first { 1 ≤ message }
    requires last { message ≤ length pattern.now.messages }
    ensures appended { OnOk result (text.new.items ≡ text.old.items ++ origin_text pattern.now message) }
{
    let number = usize::from(message);
    push(&["    it can be written by "], text)?;
    if pattern.has_key(message) {
        push_tagged(alloc, pattern, sender_of(number), number, text)
    } else {
        push(&[UNTAGGED], text)
    }
}

pub(crate) const UNTAGGED: &str =
    "anyone: it has no tag.\n    a recording of it is accepted again: it has no tag.\n";

// The same of what has a tag, after so many messages.
#[tactic(auto, unfolding(crate::specs::Facts::tagged_text))]
fn push_tagged(
    alloc: Global,
    pattern: &ValidPattern,
    writer: Role,
    passed: usize,
    text: &mut Vec<u8>,
) -> Result<(), AllocError>
    ensures { OnOk result (text.new.items ≡ text.old.items ++ tagged_text pattern.now writer passed) }
{
    let mixed = mixed_by(pattern.pattern(), passed, 0);
    let rest = rest_of(pattern, writer, passed, mixed);
    let reader = writer.other();
    push_writer(alloc, mixed, rest, text)?;
    push(&["\n    a recording of it is "], text)?;
    push_again(reader, is_fresh(pattern.pattern(), reader, passed), text)?;
    push(&["\n"], text)
}

// The DHs that an ephemeral key of the writer's choice isn't enough for.
fn rest_of(pattern: &ValidPattern, writer: Role, passed: usize, mixed: Mixed) -> Mixed
    ensures { result ≡ rest_of pattern.now writer passed mixed }
{
    if chooses(pattern.pattern(), writer, Token::E, passed) {
        mixed.without_e(writer)
    } else {
        mixed
    }
}

// The transport: who can compute its keys later, and the same for each party that sends.
#[tactic(auto, unfolding(crate::specs::Facts::transport_text))]
fn push_transport(
    alloc: Global,
    pattern: &ValidPattern,
    text: &mut Vec<u8>,
) -> Result<(), AllocError>
    ensures { OnOk result (text.new.items ≡ text.old.items ++ transport_text pattern.now) }
{
    let count = pattern.pattern().messages().len();
    push(&[transport_line(pattern.one_way())], text)?;
    push_key(
        alloc,
        mixed_by(pattern.pattern(), count, 0),
        Role::Responder,
        Part::Neither,
        text,
    )?;
    push(&["    the initiator's can be written by "], text)?;
    push_tagged(alloc, pattern, Role::Initiator, count, text)?;
    push_responder_messages(alloc, pattern, pattern.one_way(), text)
}

fn transport_line(one_way: bool) -> &'static str
    ensures { result.now ≡ transport_line one_way }
{
    if one_way {
        "  transport, of the initiator alone\n    key of a recording: "
    } else {
        "  transport, of both parties\n    key of a recording: "
    }
}

// The responder's, after all messages.
#[tactic(auto, unfolding(crate::specs::Facts::responder_messages_text))]
fn push_responder_messages(
    alloc: Global,
    pattern: &ValidPattern,
    one_way: bool,
    text: &mut Vec<u8>,
) -> Result<(), AllocError>
    ensures { OnOk result (text.new.items ≡ text.old.items ++ responder_messages_text one_way pattern.now) }
{
    if one_way {
        Ok(())
    } else {
        let count = pattern.pattern().messages().len();
        push(&["    the responder's can be written by "], text)?;
        push_tagged(alloc, pattern, Role::Responder, count, text)
    }
}

// A static key that no DH mixes.
#[tactic(auto, unfolding(crate::specs::Facts::unmixed_text))]
fn push_unmixed(pattern: &ValidPattern, party: Role, text: &mut Vec<u8>) -> Result<(), AllocError>
    ensures { OnOk result (text.new.items ≡ text.old.items ++ unmixed_text pattern.now party) }
{
    let all = mixed_by(pattern.pattern(), pattern.pattern().messages().len(), 0);
    if !is_unmixed(pattern.pattern(), party, all) {
        return Ok(());
    }
    match party {
        Role::Initiator => push(&[INITIATOR_UNMIXED], text),
        Role::Responder => push(&[RESPONDER_UNMIXED], text),
    }
}

#[rattlefmt::skip]
pub(crate) const INITIATOR_UNMIXED: &str =
    "  Warning: the initiator's s is named, and no DH mixes it: nothing shows that the initiator has its private key.\n";

#[rattlefmt::skip]
pub(crate) const RESPONDER_UNMIXED: &str =
    "  Warning: the responder's s is named, and no DH mixes it: nothing shows that the responder has its private key.\n";

/// Appends a line of four spaces and a fact of the message or the transport above.
pub fn push_fact(fact: &str, text: &mut Vec<u8>) -> Result<(), AllocError>
    ensures { OnOk result (text.new.items ≡ text.old.items ++ (codes "    " ++ fact.now ++ codes "\n")) }
{
    text.extend_from_slice(b"  ".as_slice())?;
    push_sentence(fact, text)
}
