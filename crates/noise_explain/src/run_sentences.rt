//! The sentences on what the events of a vector file come to.

use crate::excerpt::push_sentence;
use crate::facts::push_fact;
use crate::known::{Spot, token_at};
use crate::run_counts::{Refusal, RunCounts};
use noise_lines::{role_word, token_word};
use noise_names::Pattern;
use std::alloc::{AllocError, Global};

// What the events come to, by what was counted in their run.
pub(crate) fn run_lines(
    alloc: Global,
    pattern: &Pattern,
    counts: &RunCounts,
) -> Result<Vec<u8>, AllocError> {
    let mut text = count_lines(alloc, counts)?;
    for refusal in &counts.refusals {
        push_refusal(alloc, pattern, *refusal, &mut text)?;
    }
    push_fact(
        session_says(counts.initiator.is_open, counts.responder.is_open),
        &mut text,
    )?;
    Ok(text)
}

fn count_lines(alloc: Global, counts: &RunCounts) -> Result<Vec<u8>, AllocError> {
    let (one, other) = (counts.initiator, counts.responder);
    let mut text = Vec::new(alloc);
    push_sentence("what its events come to", &mut text)?;
    let (first, second) = (
        (one.wrote, one.accepted, 0),
        (other.wrote, other.accepted, 0),
    );
    push_counts(
        alloc,
        ("handshake messages", "wrote"),
        first,
        second,
        &mut text,
    )?;
    let first = (one.sent, one.received, one.dropped);
    let second = (other.sent, other.received, other.dropped);
    push_counts(
        alloc,
        ("transport messages", "wrote"),
        first,
        second,
        &mut text,
    )?;
    if counts.has_datagrams {
        let first = (one.sealed, one.opened, one.rejected);
        let second = (other.sealed, other.opened, other.rejected);
        push_counts(alloc, ("datagrams", "sealed"), first, second, &mut text)?;
    }
    Ok(text)
}

// How many of these each party made and accepted, and how many it refused, where any.
fn push_counts(
    alloc: Global,
    (what, verb): (&str, &str),
    (first, second, third): (usize, usize, usize),
    (fourth, fifth, sixth): (usize, usize, usize),
    text: &mut Vec<u8>,
) -> Result<(), AllocError> {
    let line = format!(in alloc;
        "{what}: the initiator {verb} {first} and accepted {second}, the responder {verb} {fourth} and accepted {fifth}"
    )?;
    push_fact(line.as_str(), text)?;
    if third == 0 && sixth == 0 {
        return Ok(());
    }
    let line = format!(in alloc; "{what}: the initiator refused {third}, the responder {sixth}")?;
    push_fact(line.as_str(), text)
}

// What a party refused of the handshake.
fn push_refusal(
    alloc: Global,
    pattern: &Pattern,
    refusal: Refusal,
    text: &mut Vec<u8>,
) -> Result<(), AllocError> {
    let Refusal {
        role,
        message,
        token,
        cause,
    } = refusal;
    let who = role_word(role);
    let token_spot = Spot {
        message,
        token: usize::from(token),
    };
    let piece = match token_at(pattern.messages(), token_spot) {
        Some(token) => token_word(token),
        None => "its payload",
    };
    let line = format!(in alloc;
        "The {who} refused message {message} at token {token}, {piece}: {cause}"
    )?;
    push_fact(line.as_str(), text)
}

fn session_says(initiator: bool, responder: bool) -> &'static str {
    match (initiator, responder) {
        (true, true) => "The session is open for both parties.",
        (true, false) => "The session is open for the initiator alone.",
        (false, true) => "The session is open for the responder alone.",
        (false, false) => "The session is open for neither party.",
    }
}
