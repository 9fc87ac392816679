//! The run of a vector file with the key schedules of both parties beside it.

ghost use Rattle.std.specs.Prelude.{◌≡◌, ◌&&◌, ◌++◌, [], ℕ, List, IfErr, IfOk, OnOk, drop, is_some, length};
ghost use Rattle.noise_duel.specs.Sides.{Sides};
ghost use Rattle.noise_events.specs.Events.{events_of};
ghost use Rattle.noise_names.specs.declared.token.Role.TheVariants.{Initiator, Responder};
ghost use Rattle.noise_session.specs.Ends.{EndState};
ghost use Rattle.noise_names.specs.Lists.{bytes_of};
ghost use Rattle.noise_vectors.specs.SameFile.{SaySame};
ghost use Rattle.noise_lines.specs.TracedLines.{traces_of};
ghost use Rattle.noise_run.specs.Ends.{FileDuelMatches, IsStartFault};
ghost use Rattle.noise_run.specs.Printed.{Appended};
ghost use Rattle.noise_run.specs.Running.{AreLast, are_ready, datagrams_of_version, expected_in};
ghost use Rattle.noise_run.specs.TracedEnds.{AreOver, EndsTraced, HasRunTraced, IsNewSides, ShowsEnd};
ghost use Rattle.noise_run.specs.Tracing.{HasTraces, datagram_keys_of, last_traces};

use crate::key_use_lines::Selection;
use crate::report::entry_lines;
use crate::run::{Outcome, close};
use crate::trace_lines::push_datagram_key_lines;
use crate::traced_end::TracedEnd;
use crate::traced_ends::{TracedEnds, TracedStart, make_traced_ends};
use crate::traced_event::trace_event;
use noise_duel::{Duel, Entry, Event, Report};
use noise_lines::Fault;
use noise_names::Role;
use noise_session::laws::end_is_reported;
use noise_vectors::{FileKeys, VectorFile, Version};
use std::alloc::{AllocError, Global};

/// What comes of a run that is traced.
#[derive(Drop)]
pub struct Traced {
    pub outcome: Outcome,
    /// The lines of the start.
    pub start: Vec<Vec<u8>>,
    /// For each line of the run, as far as there are some, the lines that follow it.
    pub traces: Vec<Vec<Vec<u8>>>,
}

/// Runs a file as `replay` does, and follows the key schedules of both parties. `again` says what `file` says.
///
/// Where there are no such ends, the fault is that of `make_ends`.
pub fn trace(
    alloc: Global,
    selection: Selection,
    file: VectorFile,
    again: VectorFile,
) -> Result<Traced, Fault>
    requires same { SaySame file again }
    ensures lines { IfOk result (λ traced. HasTraces selection file (bytes_of traced.outcome.lines.items)
        (bytes_of traced.start.items) (traces_of traced.traces.items)) }
    ensures expected { IfOk result (λ traced. bytes_of traced.outcome.expected.items ≡ expected_in file.version) }
    ensures fault { IfErr result (λ fault. IsStartFault file fault) }
{
    let TracedStart {
        duel,
        mut ends,
        lines: start,
        events,
        version,
    } = make_traced_ends(alloc, selection, file, again)?;
    let mut traces = Vec::new(alloc);
    let (duel, report) = run_traced(alloc, selection, duel, &events, &mut ends, &mut traces)?;
    push_datagram_trace(alloc, selection, &duel, &version, &ends, &mut traces)?;
    let lines = entry_lines(alloc, &report)?;
    let outcome = close(alloc, duel, lines, version)?;
    Ok(Traced {
        outcome,
        start,
        traces,
    })
}

// Appends the lines of the keys of datagrams, if both parties go over to them.
fn push_datagram_trace(
    alloc: Global,
    selection: Selection,
    duel: &Duel<FileKeys, FileKeys>,
    version: &Version,
    ends: &TracedEnds,
    traces: &mut Vec<Vec<Vec<u8>>>,
) -> Result<(), AllocError>
    ensures { (d : Sides) → FileDuelMatches duel.now d → EndsTraced ends.now d → (after : List (List ℕ))
        (last : AreLast (datagrams_of_version version.now) d after) → OnOk result (traces_of traces.new.items
        ≡ traces_of traces.old.items ++ last_traces selection (datagrams_of_version version.now) d after last) }
{
    if goes_over(duel, version) {
        traces.push(datagram_keys(alloc, selection, ends)?)?;
    }
    Ok(())
}

// Whether both parties go over to datagrams.
fn goes_over(duel: &Duel<FileKeys, FileKeys>, version: &Version) -> bool
    ensures { (d : Sides) → FileDuelMatches duel.now d
        → result ≡ (is_some (datagrams_of_version version.now) && are_ready d) }
{
    end_is_reported::<FileKeys>();
    match version {
        Version::One => false,
        Version::Two(additions) => {
            additions.datagrams.is_some()
                && duel.initiator().datagram_ready()
                && duel.responder().datagram_ready()
        }
    }
}

// The lines of the keys of datagrams.
fn datagram_keys(
    alloc: Global,
    selection: Selection,
    ends: &TracedEnds,
) -> Result<Vec<Vec<u8>>, AllocError>
    ensures { (d : Sides) → EndsTraced ends.now d → AreOver d → IfOk result
        (λ lines. bytes_of lines.items ≡ datagram_keys_of selection Initiator d.initiator.state
        ++ datagram_keys_of selection Responder d.responder.state) }
{
    let mut lines = Vec::new(alloc);
    push_datagram_keys(alloc, selection, &ends.initiator, &mut lines)?;
    push_datagram_keys(alloc, selection, &ends.responder, &mut lines)?;
    Ok(lines)
}

fn push_datagram_keys(
    alloc: Global,
    selection: Selection,
    traced: &TracedEnd,
    lines: &mut Vec<Vec<u8>>,
) -> Result<(), AllocError>
    ensures { (v : EndState) → ShowsEnd traced.now v → v.party.passed ≡ length v.party.pattern.messages
        → OnOk result (Appended lines.old lines.new (datagram_keys_of selection traced.now.role v)) }
{
    if !selection.selects_transport(traced.role) {
        return Ok(());
    }
    match traced.end.keys() {
        Some(keys) => push_datagram_key_lines(alloc, traced.role, &keys.0, &keys.1, lines),
        None => Ok(()),
    }
}

// Runs events, and appends the lines that follow each entry of the report.
fn run_traced(
    alloc: Global,
    selection: Selection,
    mut duel: Duel<FileKeys, FileKeys>,
    events: &[Event],
    ends: &mut TracedEnds,
    traces: &mut Vec<Vec<Vec<u8>>>,
) -> Result<(Duel<FileKeys, FileKeys>, Report), AllocError>
    ensures { (d : Sides) → FileDuelMatches duel d → IsNewSides d → EndsTraced ends.old d
        → traces_of traces.old.items ≡ [] → IfOk result
        (λ r. HasRunTraced selection d (events_of events.now) r.0 r.1 ends.new (traces_of traces.new.items)) }
{
    let mut report = Report::new(alloc);
    for event in events {
        let from = report.entries.len();
        duel.apply(alloc, event, &mut report)?;
        let entries = entries_from(&report, from);
        trace_event(alloc, selection, event, &report, entries, ends, traces)?;
    }
    Ok((duel, report))
}

// The entries of a report from this place on.
fn entries_from(report: &Report, from: usize) -> &[(Role, Entry)]
    ensures { result.now ≡ drop from report.now.entries.items }
{
    let (_, later) = report.entries.split_at(from.min(report.entries.len()));
    later
}
