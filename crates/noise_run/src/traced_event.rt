//! The lines that follow the entries of an event.

ghost use Rattle.std.specs.Prelude.{◌≡◌, ℕ, List, MatchOption, None, Some, slice_get};
ghost use Rattle.noise_names.specs.Lists.{bytes_of};
ghost use Rattle.noise_duel.specs.Entries.{note_of};
ghost use Rattle.noise_duel.specs.DuelValue.{HasFrames};
ghost use Rattle.noise_duel.specs.Sides.{Sides, side};
ghost use Rattle.noise_events.specs.Events.{Say, event_of};
ghost use Rattle.noise_run.specs.TracedEnds.{entry_frame};
ghost use Rattle.noise_run.specs.TracedEvents.{TracesBytes, TracesEntry, TracesEvent, TracesWriteOf};

use crate::key_use_lines::Selection;
use crate::report::frame_numbered;
use crate::traced_ends::TracedEnds;
use noise_duel::{Entry, Event, Report};
use noise_names::Role;
use std::alloc::{AllocError, Global};

/// Appends the lines that follow each of these entries, which report what came of an event; the report has them.
pub fn trace_event(
    alloc: Global,
    selection: Selection,
    event: &Event,
    report: &Report,
    entries: &[(Role, Entry)],
    ends: &mut TracedEnds,
    traces: &mut Vec<Vec<Vec<u8>>>,
) -> Result<(), AllocError>
    ensures { TracesEvent selection (event_of event.now) report.now entries.now ends.old ends.new
        traces.old.items traces.new.items result }
{
    match event {
        Event::Write(role, _) => match entries.split_first() {
            Some((first, _)) => trace_write(
                alloc, selection, *role, report, &first.1, ends, traces,
            ),
            None => Ok(()),
        },
        Event::Say(role, _, _) => trace_say(alloc, selection, *role, report, entries, ends, traces),
        Event::Deliver(role, number, _) => match delivered(report, role.other(), *number) {
            Some(frame) => trace_bytes(alloc, selection, *role, frame, entries, ends, traces),
            None => {
                traces.push(Vec::new(alloc))?;
                Ok(())
            }
        },
        Event::Raw(role, bytes) => trace_bytes(
            alloc, selection, *role, bytes, entries, ends, traces,
        ),
    }
}

// The same of a payload that this role was to write, and whose frame came to the other.
fn trace_say(
    alloc: Global,
    selection: Selection,
    role: Role,
    report: &Report,
    entries: &[(Role, Entry)],
    ends: &mut TracedEnds,
    traces: &mut Vec<Vec<Vec<u8>>>,
) -> Result<(), AllocError>
    ensures { (payload : List ℕ) → TracesEvent selection (Say role payload) report.now entries.now ends.old ends.new
        traces.old.items traces.new.items result }
{
    let Some((first, later)) = entries.split_first() else {
        return Ok(());
    };
    trace_write(alloc, selection, role, report, &first.1, ends, traces)?;
    match &first.1 {
        Entry::Wrote(number) => {
            let frame = frame_numbered(report, role, *number);
            trace_bytes(alloc, selection, role.other(), frame, later, ends, traces)
        }
        _ => Ok(()),
    }
}

// The frames that this role wrote.
fn frames_of(report: &Report, role: Role) -> &[Vec<u8>]
    ensures { (d : Sides) → HasFrames report.now d → bytes_of result.now ≡ (side d role).frames }
{
    match role {
        Role::Initiator => report.initiator.as_slice(),
        Role::Responder => report.responder.as_slice(),
    }
}

// The frame of this number that this role wrote, if there is one.
fn delivered(report: &Report, role: Role, number: usize) -> Option<&[u8]>
    ensures { (d : Sides) → HasFrames report.now d → MatchOption result (slice_get (side d role).frames number ≡ None)
        (λ frame. slice_get (side d role).frames number ≡ Some frame.now) }
{
    match frames_of(report, role).get(number) {
        Some(frame) => Some(frame.as_slice()),
        None => None,
    }
}

// The frame that an entry of this role says was written, or nothing.
fn frame_of<'a>(report: &'a Report, role: Role, entry: &Entry) -> &'a [u8]
    ensures { (d : Sides) → HasFrames report.now d → result.now ≡ entry_frame (side d role) (note_of entry.now) }
{
    match entry {
        Entry::Wrote(number) => frame_numbered(report, role, *number),
        _ => &[],
    }
}

// Appends the lines of what came of a payload that this role was to write, by its entry.
fn trace_write(
    alloc: Global,
    selection: Selection,
    role: Role,
    report: &Report,
    entry: &Entry,
    ends: &mut TracedEnds,
    traces: &mut Vec<Vec<Vec<u8>>>,
) -> Result<(), AllocError>
    ensures { TracesEntry selection role report.now (note_of entry.now) ends.old ends.new
        traces.old.items traces.new.items result }
{
    let frame = frame_of(report, role, entry);
    let lines = write_at(alloc, selection, role, frame, entry, ends)?;
    traces.push(lines)?;
    Ok(())
}

// The lines of what came of it, with the frame that was written, or nothing.
fn write_at(
    alloc: Global,
    selection: Selection,
    role: Role,
    frame: &[u8],
    entry: &Entry,
    ends: &mut TracedEnds,
) -> Result<Vec<Vec<u8>>, AllocError>
    ensures { TracesWriteOf selection role frame.now (note_of entry.now) ends.old ends.new result }
{
    match role {
        Role::Initiator => ends.initiator.write(alloc, selection, frame, entry),
        Role::Responder => ends.responder.write(alloc, selection, frame, entry),
    }
}

// Appends the lines that follow each of these entries, which report what came of bytes that came to this role.
fn trace_bytes(
    alloc: Global,
    selection: Selection,
    role: Role,
    bytes: &[u8],
    entries: &[(Role, Entry)],
    ends: &mut TracedEnds,
    traces: &mut Vec<Vec<Vec<u8>>>,
) -> Result<(), AllocError>
    ensures { TracesBytes selection role bytes.now entries.now ends.old ends.new
        traces.old.items traces.new.items result }
{
    match role {
        Role::Initiator => ends
            .initiator
            .receive(alloc, selection, bytes, entries, traces),
        Role::Responder => ends
            .responder
            .receive(alloc, selection, bytes, entries, traces),
    }
}
