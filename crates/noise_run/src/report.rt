//! The lines of a run.

ghost use Rattle.std.specs.Prelude.{◌≡◌, ◌∷◌, ◌++◌, [], map, IfOk, IsTrue, OnOk};
ghost use Rattle.std.specs.List.{join_with_byte};
ghost use Rattle.noise_session.specs.Ends.{EndState, EndMatches};
ghost use Rattle.noise_duel.specs.Entries.{note_of, notes_of, step_of};
ghost use Rattle.noise_duel.specs.Notes.{WriteFault};
ghost use Rattle.noise_duel.specs.DuelValue.{HasFrames};
ghost use Rattle.noise_duel.specs.Sides.{Sides, side};
ghost use Rattle.noise_names.specs.Lists.{bytes_of};
ghost use Rattle.noise_vectors.specs.FileKeys.{pairs_of};
ghost use Rattle.noise_lines.specs.Lines.{text_in};
ghost use Rattle.noise_run.specs.Ends.{FileDuelMatches};
ghost use Rattle.noise_run.specs.Printed as print;
ghost use Rattle.noise_lines.specs.PrintedWords.{AreExpected, is_printed};
ghost use Rattle.noise_vectors.specs.VectorText as text;

use noise_duel::{Duel, Entry, Idle, Report};
use noise_handshake::Cause;
use noise_lines::{Line, role_word};
use noise_names::Role;
use noise_session::laws::end_is_reported;
use noise_session::{End, SendFault, Stage};
use noise_vectors::FileKeys;
use std::alloc::{AllocError, Global};

/// A line for each entry, in order.
pub fn entry_lines(alloc: Global, report: &Report) -> Result<Vec<Vec<u8>>, AllocError>
    ensures lines { (d : Sides) → HasFrames report.now d
        → IfOk result (λ lines. bytes_of lines.items ≡ map (print.note_line d) (notes_of report.now.entries.items)) }
    ensures printed { IfOk result (λ lines. AreExpected lines.items) }
{
    let mut lines = Vec::new(alloc);
    for (role, entry) in &report.entries {
        let line = entry_line(alloc, report, *role, entry)?;
        lines.push(line.into_bytes())?;
    }
    Ok(lines)
}

/// Appends the states of the initiator's end and of the responder's.
pub fn push_state_lines(
    alloc: Global,
    duel: &Duel<FileKeys, FileKeys>,
    lines: &mut Vec<Vec<u8>>,
) -> Result<(), AllocError>
    ensures lines { (d : Sides) → FileDuelMatches duel.now d
        → OnOk result (print.Appended lines.old lines.new (print.state_lines d)) }
    ensures printed { AreExpected lines.old.items → OnOk result (AreExpected lines.new.items) }
{
    let first = state_line(alloc, Role::Initiator, duel.initiator())?;
    lines.push(first.into_bytes())?;
    let second = state_line(alloc, Role::Responder, duel.responder())?;
    lines.push(second.into_bytes())?;
    Ok(())
}

/// The line of an entry that is about this role.
pub fn entry_line(
    alloc: Global,
    report: &Report,
    role: Role,
    entry: &Entry,
) -> Result<Line, AllocError>
    ensures { (d : Sides) → HasFrames report.now d
        → IfOk result (λ line. text_in line ≡ join_with_byte 32
        (print.note_words (side d role) role (note_of entry.now))) }
{
    match entry {
        Entry::Wrote(number) => begun_line(alloc, "wrote", role)?
            .number(*number as u64)?
            .hex(frame_numbered(report, role, *number)),
        Entry::WriteFault(fault) => fault_line(alloc, "unwritten", role, *fault),
        Entry::Payload(payload) => begun_line(alloc, "payload", role)?.hex(payload),
        Entry::Dropped(cause) => begun_line(alloc, "dropped", role)?.word(cause_word(*cause)),
        Entry::Refused { token, cause } => begun_line(alloc, "refused", role)?
            .number(u64::from(*token))?
            .word(cause_word(*cause)),
        Entry::Exhausted => begun_line(alloc, "exhausted", role),
        Entry::Left(why, count) => begun_line(alloc, "left", role)?
            .word(idle_word(*why))?
            .number(*count as u64),
        Entry::Missing(number) => begun_line(alloc, "missing", role)?.number(*number as u64),
        Entry::Held(count) => begun_line(alloc, "held", role)?.number(*count as u64),
    }
}

// The frame of this number that this role wrote; it is in the report wherever an entry reports it.
pub(crate) fn frame_numbered(report: &Report, role: Role, number: usize) -> &[u8]
    ensures { (d : Sides) → HasFrames report.now d → result.now ≡ print.frame_numbered (side d role) number }
{
    let frames = match role {
        Role::Initiator => report.initiator.as_slice(),
        Role::Responder => report.responder.as_slice(),
    };
    match frames.get(number) {
        Some(frame) => frame,
        None => &[],
    }
}

/// Why this role wrote nothing, after this word.
pub fn fault_line(
    alloc: Global,
    word: &str,
    role: Role,
    fault: SendFault,
) -> Result<Line, AllocError>
    requires printed { IsTrue (is_printed word.now) }
    ensures text { IfOk result (λ line. text_in line
        ≡ join_with_byte 32 (word.now ∷ text.role_word role ∷ print.send_fault_words fault)) }
{
    let line = begun_line(alloc, word, role)?;
    match fault {
        SendFault::NotYourTurn => line.word("not-your-turn"),
        SendFault::TooLong => line.word("too-long"),
        SendFault::Agreement { token } => line.word("agreement")?.number(u64::from(token)),
        SendFault::Ended => line.word("ended"),
        SendFault::OneWay => line.word("one-way"),
        SendFault::Exhausted => line.word("exhausted"),
        SendFault::Output { written } => line.word("output")?.number(written as u64),
    }
}

// The state of a party.
fn state_line(alloc: Global, role: Role, end: &End<FileKeys>) -> Result<Line, AllocError>
    ensures { (v : EndState) → EndMatches pairs_of end.now v
        → IfOk result (λ line. text_in line ≡ print.state_line role v) }
{
    end_is_reported::<FileKeys>();
    let line = begun_line(alloc, "state", role)?;
    // A party that is open shows its hash, and no other stage shows one.
    add_stage(line, end.stage(), end.hash().unwrap_or([0; 32]))
}

fn add_stage(line: Line, stage: Stage, hash: [u8; 32]) -> Result<Line, AllocError>
    ensures { IfOk result (λ made. text_in made
        ≡ text_in line ++ 32 ∷ join_with_byte 32 (print.stage_words stage hash)) }
{
    match stage {
        Stage::Handshake { done, ours: _ } => line.word("handshake")?.number(u64::from(done)),
        Stage::Transport { send, receive } => line
            .word("transport")?
            .number(send)?
            .number(receive)?
            .hex(&hash),
        Stage::Ended => line.word("ended"),
    }
}

/// The front of a line: what it reports, and of which role.
pub fn begun_line(alloc: Global, word: &str, role: Role) -> Result<Line, AllocError>
    requires printed { IsTrue (is_printed word.now) }
    ensures text { IfOk result (λ line. text_in line ≡ join_with_byte 32 (word.now ∷ text.role_word role ∷ [])) }
{
    Line::new(alloc, word)?.word(role_word(role))
}

/// The word for a cause.
pub fn cause_word(cause: Cause) -> &'static str
    ensures text { result.now ≡ print.cause_word cause }
    ensures printed { IsTrue (is_printed result.now) }
{
    match cause {
        Cause::Short => "short",
        Cause::Tag => "tag",
        Cause::Agreement => "agreement",
    }
}

fn idle_word(why: Idle) -> &'static str
    ensures text { result.now ≡ print.idle_word (step_of why) }
    ensures printed { IsTrue (is_printed result.now) }
{
    match why {
        Idle::YourTurn => "your-turn",
        Idle::Silent => "silent",
        Idle::Ended => "ended",
    }
}
