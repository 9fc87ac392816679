//! The step of a right line, among the right lines.

ghost use Rattle.std.specs.Prelude.{◌≡◌, IfOk, OnOk, ◌++◌};
ghost use Rattle.noise_compare.specs.Steps.{count_before, hashes_in, hashes_of, is_alike, is_of_key, is_same_line, key_of_line, last_state, one_key, states_before, states_in, state_of_party, transport_keys};

use crate::line::Line;
use crate::state::{Kind, State};
use crate::values::{key_in, kind_in, state_in};
use std::alloc::{AllocError, Global};

/// Whether a line is this one of the right lines.
pub(crate) fn is_same_line(line: &Line<'_>, other: &Line<'_>) -> bool
    ensures { result ≡ is_same_line line.now other.now }
{
    line.is_of_place(other) && other.is_of_place(line) && is_alike(line, other)
}

fn is_alike(line: &Line<'_>, other: &Line<'_>) -> bool
    ensures { result ≡ is_alike line.now other.now }
{
    line.number == other.number && line.has_values(other) && line.word(3) == other.word(3)
}

/// The states after the lines of the party of this line before it, in their order.
pub(crate) fn states_before(
    alloc: Global,
    right: &[Line<'_>],
    expected: &Line<'_>,
) -> Result<Vec<State>, AllocError>
    ensures { IfOk result (λ states. states.items ≡ states_before right.now expected.now) }
{
    let count = count_before(right, expected);
    states_in(alloc, expected, &right[..count])
}

/// How many of these lines stand before this one.
pub(crate) fn count_before(right: &[Line<'_>], expected: &Line<'_>) -> usize
    ensures { result ≡ count_before right.now expected.now }
{
    right
        .iter()
        .take_while(|line| !is_same_line(line, expected))
        .count()
}

fn states_in(alloc: Global, of: &Line<'_>, lines: &[Line<'_>]) -> Result<Vec<State>, AllocError>
    ensures { IfOk result (λ states. states.items ≡ states_in of.now lines.now) }
{
    let mut states = Vec::new(alloc);
    for line in lines {
        push_state(of, line, &mut states)?;
    }
    Ok(states)
}

fn push_state(of: &Line<'_>, line: &Line<'_>, states: &mut Vec<State>) -> Result<(), AllocError>
    ensures { OnOk result (states.new.items ≡ states.old.items ++ state_of_party of.now line.now) }
{
    if line.word(1) == of.word(1) {
        states.push(state_in(line))?;
    }
    Ok(())
}

/// The last of these states, or another where there is none.
pub(crate) fn last_state(states: &[State], other: State) -> State
    ensures { result ≡ last_state states.now other }
{
    match states.last() {
        Some(state) => *state,
        None => other,
    }
}

/// The hashes of these states but the last one's.
pub(crate) fn hashes_in(alloc: Global, states: &[State]) -> Result<Vec<[u8; 32]>, AllocError>
    ensures { IfOk result (λ hashes. hashes.items ≡ hashes_in states.now) }
{
    let end = states.len().saturating_sub(1);
    hashes_of(alloc, &states[..end])
}

fn hashes_of(alloc: Global, states: &[State]) -> Result<Vec<[u8; 32]>, AllocError>
    ensures { IfOk result (λ hashes. hashes.items ≡ hashes_of states.now) }
{
    let mut hashes = Vec::new(alloc);
    for state in states {
        hashes.push(state.hash)?;
    }
    Ok(hashes)
}

/// The keys of the transport: those of Split and those after a Rekey.
pub(crate) fn transport_keys(alloc: Global, right: &[Line<'_>]) -> Result<Vec<[u8; 32]>, AllocError>
    ensures { IfOk result (λ keys. keys.items ≡ transport_keys right.now) }
{
    let mut keys = Vec::new(alloc);
    for line in right {
        push_key(line, &mut keys)?;
    }
    Ok(keys)
}

fn push_key(line: &Line<'_>, keys: &mut Vec<[u8; 32]>) -> Result<(), AllocError>
    ensures { OnOk result (keys.new.items ≡ keys.old.items ++ key_of_line line.now) }
{
    if is_of_key(kind_in(line)) {
        return push_one(key_in(line.word(10)), keys);
    }
    Ok(())
}

fn push_one(key: Option<[u8; 32]>, keys: &mut Vec<[u8; 32]>) -> Result<(), AllocError>
    ensures { OnOk result (keys.new.items ≡ keys.old.items ++ one_key key) }
{
    if let Some(key) = key {
        keys.push(key)?;
    }
    Ok(())
}

#[tactic(auto, unfolding(crate::specs::Steps::is_of_key))]
fn is_of_key(kind: Kind) -> bool
    ensures { result ≡ is_of_key kind }
{
    matches!(kind, Kind::Opening | Kind::Rekeyed)
}
