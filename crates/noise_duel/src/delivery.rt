//! Bytes come to a party.

ghost use Rattle.std.specs.Prelude.{◌≡◌, ◌≤◌, ℕ, List, ◌++◌, length, OnOk, IfOk, IfSome};
ghost use Rattle.noise_session.specs.Ends.{EndMatches};
ghost use Rattle.noise_session.specs.Steps.{step_value};
ghost use Rattle.noise_duel.specs.Entries.{notes_of};
ghost use Rattle.noise_duel.specs.Notes.{noted_by, held_note};
ghost use Rattle.noise_duel.specs.OneEnd.{HasReceived};
ghost use Rattle.noise_duel.specs.Receiving.{step_note, left_of, note_of_left, HasStopped};
ghost use Rattle.noise_duel.specs.Sides.{Side};

use crate::entry::{Entry, Idle};
use noise_events::Cuts;
use noise_handshake::Keys;
use noise_names::Role;
use noise_session::{End, Step};
use std::alloc::{AllocError, Global};

/// Hands bytes over to a party in these pieces, until they have ended or the party takes none, and returns what they
/// came to.
pub(crate) fn receive<K: Keys>(
    alloc: Global,
    role: Role,
    end: &mut End<K>,
    bytes: &[u8],
    cuts: &Cuts,
    entries: &mut Vec<(Role, Entry)>,
) -> Result<(), AllocError>
    ensures { (s : Side) → EndMatches K.pairs end.old s.state
        → OnOk result
        (HasReceived K.pairs s role bytes.now end.new entries.old.items entries.new.items) }
{
    let left = receive_chunks(alloc, role, end, bytes, cuts, entries)?;
    report_left(role, left, entries)?;
    report_partial(role, end.held(), entries)
}

// Hands bytes over in these pieces, and returns how many are left, and why, where the party takes none of them.
fn receive_chunks<K: Keys>(
    alloc: Global,
    role: Role,
    end: &mut End<K>,
    bytes: &[u8],
    cuts: &Cuts,
    entries: &mut Vec<(Role, Entry)>,
) -> Result<Option<(Idle, usize)>, AllocError>
    ensures { (s : Side) → EndMatches K.pairs end.old s.state → IfOk result (λ left.
        HasStopped K.pairs s role bytes.now left end.new entries.old.items entries.new.items) }
{
    let mut rest = bytes;
    let mut index = 0;
    while !rest.is_empty() {
        let (piece, after) = rest.split_at(cuts.piece_len(index, rest.len()));
        if let Some((why, left)) = receive_chunk(alloc, role, end, piece, entries)? {
            return Ok(Some((why, left + after.len())));
        }
        rest = after;
        index += 1;
    }
    Ok(None)
}

// Hands one piece over, and returns how many of its bytes are left, and why, where the party takes none of them.
fn receive_chunk<K: Keys>(
    alloc: Global,
    role: Role,
    end: &mut End<K>,
    piece: &[u8],
    entries: &mut Vec<(Role, Entry)>,
) -> Result<Option<(Idle, usize)>, AllocError>
    ensures most { IfOk result (λ left. IfSome left (λ l. l.1 ≤ length piece.now)) }
    ensures left { (s : Side) → EndMatches K.pairs end.old s.state → IfOk result (λ left.
        HasStopped K.pairs s role piece.now left end.new entries.old.items entries.new.items) }
{
    let mut rest = piece;
    while !rest.is_empty() {
        let (count, step) = end.take(rest);
        if count == 0 {
            return Ok(left_at(step, rest.len()));
        }
        report_step(alloc, role, step, entries)?;
        let (_, after) = rest.split_at(count);
        rest = after;
    }
    Ok(None)
}

// So many bytes, and why a party takes none of them, if that is its step.
fn left_at(step: Step<'_>, count: usize) -> Option<(Idle, usize)>
    ensures { result ≡ left_of (step_value step.entry) count }
{
    match step {
        Step::YourTurn => Some((Idle::YourTurn, count)),
        Step::Silent => Some((Idle::Silent, count)),
        Step::Ended => Some((Idle::Ended, count)),
        _ => None,
    }
}

// Reports what a frame came to.
fn report_step(
    alloc: Global,
    role: Role,
    step: Step<'_>,
    entries: &mut Vec<(Role, Entry)>,
) -> Result<(), AllocError>
    ensures { OnOk result (notes_of entries.new.items
        ≡ notes_of entries.old.items ++ noted_by role (step_note (step_value step.entry))) }
{
    let entry = match step {
        Step::Payload(payload) => Entry::Payload(Vec::from_slice(alloc, payload)?),
        Step::Dropped(cause) => Entry::Dropped(cause),
        Step::Refused { token, cause } => Entry::Refused { token, cause },
        Step::Exhausted => Entry::Exhausted,
        _ => return Ok(()),
    };
    entries.push((role, entry))?;
    Ok(())
}

// Reports bytes that are left.
fn report_left(
    role: Role,
    left: Option<(Idle, usize)>,
    entries: &mut Vec<(Role, Entry)>,
) -> Result<(), AllocError>
    ensures { OnOk result
        (notes_of entries.new.items ≡ notes_of entries.old.items ++ noted_by role (note_of_left left)) }
{
    if let Some((why, count)) = left {
        entries.push((role, Entry::Left(why, count)))?;
    }
    Ok(())
}

// Reports bytes that are held.
fn report_partial(
    role: Role,
    count: usize,
    entries: &mut Vec<(Role, Entry)>,
) -> Result<(), AllocError>
    ensures { OnOk result (notes_of entries.new.items ≡ notes_of entries.old.items ++ noted_by role (held_note count)) }
{
    if count != 0 {
        entries.push((role, Entry::Held(count)))?;
    }
    Ok(())
}
