//! The part in which two states of a party differ.

ghost use Rattle.std.specs.Prelude.{◌≡◌, ◌≢◌, ◌<◌, ◌≤◌, ℕ, IfNone, IfOk, IfSome, length, string_bytes, take};
ghost use Rattle.noise_explain.specs.StateParts.{HasNoState, HaveNoState, SaysState, SaysStateOf, spaces, state_front, state_part, state_text};

use crate::frame_piece::{first_difference, word_after};
use noise_lines::role_word;
use noise_names::Role;
use std::alloc::{AllocError, Global};

// Of two lines that differ, where both are the state of one party: a line of the part in which the states differ.
pub(crate) fn state_difference(
    alloc: Global,
    expected: &[u8],
    printed: &[u8],
) -> Result<Option<Vec<u8>>, AllocError>
    ensures some { IfOk result (λ found. IfSome found (λ line. SaysState expected.now printed.now line.items)) }
    ensures none { IfOk result (λ found. IfNone found (HaveNoState expected.now printed.now)) }
{
    match role_difference(alloc, Role::Initiator, expected, printed)? {
        Some(line) => Ok(Some(line)),
        None => role_difference(alloc, Role::Responder, expected, printed),
    }
}

// The same of this party.
fn role_difference(
    alloc: Global,
    role: Role,
    expected: &[u8],
    printed: &[u8],
) -> Result<Option<Vec<u8>>, AllocError>
    ensures some { IfOk result (λ found. IfSome found
        (λ line. SaysStateOf role expected.now printed.now line.items)) }
    ensures none { IfOk result (λ found. IfNone found (HasNoState role expected.now printed.now)) }
{
    let front = state_front(alloc, role)?;
    let Some(yours) = word_after(front.as_bytes(), expected) else {
        return Ok(None);
    };
    let Some(right) = word_after(front.as_bytes(), printed) else {
        return Ok(None);
    };
    match first_difference(yours, right) {
        Some(at) => Ok(Some(state_text(alloc, role, part_at(yours, at))?.into_bytes())),
        None => Ok(None),
    }
}

// What stands before the words of a party's state.
fn state_front(alloc: Global, role: Role) -> Result<String, AllocError>
    ensures { IfOk result (λ front. string_bytes front ≡ state_front role) }
{
    let role = role_word(role);
    format!(in alloc; "state {role} ")
}

// The part in which a state differs that has the same bytes before this one.
fn part_at(yours: &[u8], at: usize) -> &'static str
    ensures { result.now ≡ state_part yours.now (spaces (take at yours.now)) }
{
    let (same, _) = yours.split_at(at.min(yours.len()));
    state_part(yours, same.iter().filter(|b| **b == b' ').count())
}

// The part of a state before which there are so many spaces.
fn state_part(state: &[u8], spaces: usize) -> &'static str
    ensures { result.now ≡ state_part state.now spaces }
{
    if spaces == 0 {
        "stage"
    } else if spaces == 1 {
        if state.starts_with(b"handshake ".as_slice()) {
            "count of messages"
        } else {
            "nonce for sending"
        }
    } else if spaces == 2 {
        "nonce for receiving"
    } else {
        "handshake hash"
    }
}

// The line of two states of a party that differ in this part.
fn state_text(alloc: Global, role: Role, part: &str) -> Result<String, AllocError>
    ensures { IfOk result (λ text. string_bytes text ≡ state_text role part.now) }
{
    let role = role_word(role);
    format!(in alloc; "all frames agree: the state of the {role} differs in its {part}")
}
