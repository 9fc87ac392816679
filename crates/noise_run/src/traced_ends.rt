//! The two parties that a vector file describes, with the key schedule of each beside it.

ghost use Rattle.std.specs.Prelude.{◌≡◌, ℕ, None, IfErr, IfOk, OnOk};
ghost use Rattle.noise_handshake.specs.Setup.{setup_fault};
ghost use Rattle.noise_handshake.specs.Party.{Party};
ghost use Rattle.noise_names.specs.declared.token.Role.{Role};
ghost use Rattle.noise_session.specs.Ends.{end_of};
ghost use Rattle.noise_names.specs.Lists.{bytes_of};
ghost use Rattle.noise_vectors.specs.FileKeys.{agreement_of, public_of};
ghost use Rattle.noise_vectors.specs.SameFile.{SaySame};
ghost use Rattle.noise_run.specs.Ends.{FileMatches, IsStartFault, setup_of};
ghost use Rattle.noise_handshake.specs.Matching.{IsSupplied};
ghost use Rattle.noise_run.specs.Printed.{Appended};
ghost use Rattle.noise_run.specs.Selection.{heading_lines};
ghost use Rattle.noise_run.specs.TracedEnds.{AreTracedEnds, TracedMatches};
ghost use Rattle.noise_run.specs.Tracing.{start_lines_of, start_traces};

use crate::ends::{Beginning, begin, duel_of};
use crate::key_use_lines::Selection;
use crate::trace_lines::push_start_lines;
use crate::traced_end::TracedEnd;
use noise_duel::{Duel, Event};
use noise_handshake::own_keys::shown_before;
use noise_handshake::{Handshake, Remote};
use noise_lines::Fault;
use noise_names::{Role, ValidPattern};
use noise_trace::{EndTrace, Following, start_steps};
use noise_vectors::{FileKeys, VectorFile, Version};
use std::alloc::{AllocError, Global};

/// The key schedules of both parties.
#[derive(Drop)]
pub struct TracedEnds {
    pub initiator: TracedEnd,
    pub responder: TracedEnd,
}

/// The two parties that a file describes, and what is traced of them.
#[derive(Drop)]
pub struct TracedStart {
    pub duel: Duel<FileKeys, FileKeys>,
    pub ends: TracedEnds,
    /// The lines of the start of both parties.
    pub lines: Vec<Vec<u8>>,
    /// The file's events, and its version.
    pub events: Vec<Event>,
    pub version: Version,
}

/// The two parties that the file describes, before the first message, each with its key schedule. `again` says what
/// `file` says: its keys are those of the key schedules.
///
/// At `Err` the fault is that of `make_ends`.
pub fn make_traced_ends(
    alloc: Global,
    selection: Selection,
    file: VectorFile,
    again: VectorFile,
) -> Result<TracedStart, Fault>
    requires same { SaySame file again }
    ensures ends { IfOk result (λ made. AreTracedEnds selection file made) }
    ensures fault { IfErr result (λ fault. IsStartFault file fault) }
{
    let Beginning {
        initiator,
        responder,
        interval,
        events,
        version,
    } = begin(file)?;
    let lines = start_lines(alloc, selection, initiator.pattern(), &again)?;
    let VectorFile {
        initiator: initiator_keys,
        responder: responder_keys,
        ..
    } = again;
    let ends = TracedEnds {
        initiator: follow(alloc, &initiator, initiator_keys, interval),
        responder: follow(alloc, &responder, responder_keys, interval),
    };
    let duel = duel_of(alloc, initiator, responder, interval)?;
    Ok(TracedStart {
        duel,
        ends,
        lines,
        events,
        version,
    })
}

// The key schedule of a handshake before its first message, with keys that are those of the handshake.
fn follow(
    alloc: Global,
    handshake: &Handshake<FileKeys>,
    keys: FileKeys,
    interval: u64,
) -> TracedEnd
    requires supplied { IsSupplied handshake.now }
    ensures traced { (v : Party) → FileMatches handshake.now v → public_of keys ≡ v.own → agreement_of keys ≡ v.agree
        → (result.role ≡ v.role) × TracedMatches result (end_of v interval) }
{
    TracedEnd {
        role: handshake.role(),
        psks: !handshake.pattern().pattern().is_plain(),
        end: EndTrace::new(Following::new(handshake, keys), interval),
        partial: Vec::new(alloc),
    }
}

// The lines of the start of both parties of a file, by this pattern.
fn start_lines(
    alloc: Global,
    selection: Selection,
    pattern: &ValidPattern,
    file: &VectorFile,
) -> Result<Vec<Vec<u8>>, AllocError>
    ensures { ((role : Role) → setup_of file.now pattern.now role ≡ None)
        → IfOk result (λ lines. bytes_of lines.items ≡ start_traces selection file.now pattern.now) }
{
    let of_initiator = shown_before(pattern, Role::Initiator, &file.initiator);
    let of_responder = shown_before(pattern, Role::Responder, &file.responder);
    let mut lines = Vec::new(alloc);
    push_heading(alloc, selection, &mut lines)?;
    push_start(
        alloc,
        selection,
        pattern,
        Role::Initiator,
        &file.prologue,
        &file.initiator,
        &of_responder,
        &mut lines,
    )?;
    push_start(
        alloc,
        selection,
        pattern,
        Role::Responder,
        &file.prologue,
        &file.responder,
        &of_initiator,
        &mut lines,
    )?;
    Ok(lines)
}

// Appends the line that names the words of the others, where it is wanted.
fn push_heading(
    alloc: Global,
    selection: Selection,
    lines: &mut Vec<Vec<u8>>,
) -> Result<(), AllocError>
    ensures { OnOk result (Appended lines.old lines.new (heading_lines selection)) }
{
    if selection.heading {
        let line = b"trace ROLE PART NUMBER NAME CALL FROM BYTES HASH CHAINING-KEY KEY NONCE";
        lines.push(Vec::from_slice(alloc, line.as_slice())?)?;
    }
    Ok(())
}

// Appends the lines of the start of one party.
fn push_start(
    alloc: Global,
    selection: Selection,
    pattern: &ValidPattern,
    role: Role,
    prologue: &[u8],
    keys: &FileKeys,
    remote: &Remote,
    lines: &mut Vec<Vec<u8>>,
) -> Result<(), AllocError>
    ensures { (psks : ℕ) → setup_fault pattern.now role (public_of keys.now) remote.now psks ≡ None
        → OnOk result (Appended lines.old lines.new
        (start_lines_of selection role pattern.now prologue.now keys.now remote.now)) }
{
    if !selection.selects_handshake(role) {
        return Ok(());
    }
    let psks = !pattern.pattern().is_plain();
    let steps = start_steps(pattern, role, prologue, keys, remote);
    push_start_lines(alloc, role, psks, &steps, lines)
}
