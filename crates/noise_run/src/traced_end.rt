//! The key schedule of one party of a run, and the lines of what comes of its messages.

ghost use Rattle.std.specs.Prelude.{◌≡◌, ◌≤◌, ◌-◌, ◌++◌, ℕ, List, [], IfOk, drop, if◌then◌else◌, length, take};
ghost use Rattle.noise_duel.specs.Entries.{note_of};
ghost use Rattle.noise_duel.specs.Notes.{Held, Judged, Left, Note, WriteFault};
ghost use Rattle.noise_duel.specs.Runs.{SideReads, SideWrites};
ghost use Rattle.noise_duel.specs.Sides.{Side};
ghost use Rattle.noise_handshake.specs.Party.{Refuses};
ghost use Rattle.noise_handshake.specs.declared.faults.Cause.{Cause};
ghost use Rattle.noise_session.specs.Ends.{EndState};
ghost use Rattle.noise_session.specs.Frames.{frame};
ghost use Rattle.noise_session.specs.Steps.{StepValue};
ghost use Rattle.noise_trace.specs.KeyUses.{use_value, stopped_use};
ghost use Rattle.noise_trace.specs.KeyUses.KeyUseValue.{Nothing};
ghost use Rattle.noise_names.specs.Lists.{bytes_of};
ghost use Rattle.noise_run.specs.KeyUseLines.{RenewsBeforeLastNonce, key_use_lines};
ghost use Rattle.noise_run.specs.TracedEnds.{Follow, IsOfNoFrame, ShowsEnd, Used, note_ends};
ghost use Rattle.noise_run.specs.TracedEvents.{TracesRead, TracesReads, TracesReceived, TracesWrite};
ghost use Rattle.noise_run.specs.Tracing.{about, act_of, read_use, written_message, written_use};

use crate::key_use_lines::{Selection, push_key_use};
use crate::trace_lines::{About, Act};
use byteorder::{BigEndian, ByteOrder};
use noise_duel::Entry;
use noise_names::Role;
use noise_session::SendFault;
use noise_trace::laws::end_is_followed;
use noise_trace::{EndTrace, KeyUse};
use noise_vectors::FileKeys;
use std::alloc::{AllocError, Global};

/// The key schedule of one party of a run, and the bytes of its next frame.
#[derive(Drop)]
pub struct TracedEnd {
    pub role: Role,
    /// Whether the pattern has psk tokens.
    pub psks: bool,
    pub end: EndTrace<FileKeys>,
    pub partial: Vec<u8>,
}

impl TracedEnd {
    // A message of this party.
    fn about(&self, act: Act) -> About
        ensures { (v : EndState) → ShowsEnd self.now v → result ≡ about self.now.role v act }
    {
        About {
            role: self.role,
            psks: self.psks,
            act,
            number: u64::from(self.end.messages_passed()) + 1,
        }
    }

    /// The lines of what came of a payload that the party was to write, by its entry and the frame that it wrote, if
    /// any.
    pub fn write(
        &mut self,
        alloc: Global,
        selection: Selection,
        frame: &[u8],
        entry: &Entry,
    ) -> Result<Vec<Vec<u8>>, AllocError>
        ensures role { self.new.role ≡ self.old.role }
        ensures lines { TracesWrite selection self.old self.new frame.now (note_of entry.now) result }
    {
        let about = self.about(Act::Writes);
        let message = message_in(frame);
        let key_use = written_use(&mut self.end, message, entry);
        self.let_go(alloc, entry);
        lines_of_use(alloc, selection, about, message, &key_use)
    }

    // Drops the bytes of the next frame, if the session has ended with what an entry says of a write.
    fn let_go(&mut self, alloc: Global, entry: &Entry)
        ensures role { self.new.role ≡ self.old.role }
        ensures psks { self.new.psks ≡ self.old.psks }
        ensures end { self.new.end ≡ self.old.end }
        ensures partial { self.new.partial.items ≡ (if note_ends
            (note_of entry.now) then [] else self.old.partial.items) }
    {
        if ends_session(entry) {
            self.partial = Vec::new(alloc);
        }
    }

    /// Appends the lines that follow each of these entries, which report what came of bytes that came to the party.
    pub fn receive(
        &mut self,
        alloc: Global,
        selection: Selection,
        bytes: &[u8],
        entries: &[(Role, Entry)],
        traces: &mut Vec<Vec<Vec<u8>>>,
    ) -> Result<(), AllocError>
        ensures role { self.new.role ≡ self.old.role }
        ensures lines { TracesReceived selection self.old self.new bytes.now entries.now
            traces.old.items traces.new.items result }
    {
        let mut came = Vec::from_slice(alloc, &self.partial)?;
        came.extend_from_slice(bytes)?;
        let left = self.read_all(alloc, selection, &came, entries, traces)?;
        self.partial = left;
        Ok(())
    }

    // The same of these bytes: the bytes of the next frame that are left of them.
    fn read_all(
        &mut self,
        alloc: Global,
        selection: Selection,
        came: &[u8],
        entries: &[(Role, Entry)],
        traces: &mut Vec<Vec<Vec<u8>>>,
    ) -> Result<Vec<u8>, AllocError>
        ensures role { self.new.role ≡ self.old.role }
        ensures lines { TracesReads selection self.old self.new came.now entries.now
            traces.old.items traces.new.items result }
    {
        end_is_followed::<FileKeys>();
        let mut rest = came;
        for (_, entry) in entries {
            let (message, after) = split_entry(rest, entry);
            let lines = self.read(alloc, selection, message, entry)?;
            traces.push(lines)?;
            rest = after;
        }
        Ok(Vec::from_slice(alloc, rest)?)
    }

    // The lines of a message that came, by its entry; of an entry that is about no message, none.
    fn read(
        &mut self,
        alloc: Global,
        selection: Selection,
        message: &[u8],
        entry: &Entry,
    ) -> Result<Vec<Vec<u8>>, AllocError>
        ensures role { self.new.role ≡ self.old.role }
        ensures lines { TracesRead selection self.old self.new message.now (note_of entry.now) result }
        ensures none { (v : EndState) → ShowsEnd self.old v → IsOfNoFrame (note_of entry.now)
            → IfOk result (λ lines. (bytes_of lines.items ≡ []) × ShowsEnd self.new v) }
    {
        let about = self.about(act_of(entry));
        let key_use = read_use(&mut self.end, message, entry);
        lines_of_use(alloc, selection, about, message, &key_use)
    }
}

// What a party makes of a message that came, by its entry.
fn act_of(entry: &Entry) -> Act
    ensures { (step : StepValue) → note_of entry.now ≡ Judged step → result ≡ act_of step }
{
    match entry {
        Entry::Payload(_) => Act::Accepts,
        _ => Act::Refuses,
    }
}

// The lines of what is shown of a message.
fn lines_of_use(
    alloc: Global,
    selection: Selection,
    about: About,
    message: &[u8],
    key_use: &KeyUse,
) -> Result<Vec<Vec<u8>>, AllocError>
    ensures { RenewsBeforeLastNonce (use_value key_use.now) → IfOk result
        (λ lines. bytes_of lines.items ≡ key_use_lines selection about message.now (use_value key_use.now)) }
{
    let mut lines = Vec::new(alloc);
    push_key_use(alloc, selection, about, message, key_use, &mut lines)?;
    Ok(lines)
}

// Whether a session has ended with what an entry says of a write.
fn ends_session(entry: &Entry) -> bool
    ensures { result ≡ note_ends (note_of entry.now) }
{
    matches!(
        entry,
        Entry::WriteFault(
            SendFault::Agreement { .. } | SendFault::Exhausted | SendFault::Output { .. }
        )
    )
}

// The message in a frame.
fn message_in(frame: &[u8]) -> &[u8]
    ensures { result.now ≡ drop 2 frame.now }
{
    let (_, message) = frame.split_at(frame.len().min(2));
    message
}

// What is shown of what came of a payload, by its entry.
fn written_use(end: &mut EndTrace<FileKeys>, message: &[u8], entry: &Entry) -> KeyUse
    ensures { (s : Side) (payload : List ℕ) (next : Side) (note : Note) (w : SideWrites s payload note next)
        → Follow end.old s.state → note_of entry.now ≡ note → message.now ≡ written_message s payload next note w
        → Used (use_value result) (written_use s payload next note w) end.new next.state }
{
    end_is_followed::<FileKeys>();
    match entry {
        Entry::Wrote(_) => end.wrote(message),
        Entry::WriteFault(fault) => unsent_use(end, *fault),
        _ => KeyUse::Nothing,
    }
}

// What is shown of a payload that wasn't written.
fn unsent_use(end: &EndTrace<FileKeys>, fault: SendFault) -> KeyUse
    ensures { (s : Side) (payload : List ℕ) (next : Side) (note : Note) (w : SideWrites s payload note next)
        → Follow end.now s.state → WriteFault fault ≡ note
        → Used (use_value result) (written_use s payload next note w) end.now next.state }
{
    end_is_followed::<FileKeys>();
    match fault {
        SendFault::Agreement { token } => end.withheld(token),
        SendFault::NotYourTurn
        | SendFault::TooLong
        | SendFault::Ended
        | SendFault::OneWay
        | SendFault::Exhausted
        | SendFault::Output { .. } => KeyUse::Nothing,
    }
}

// What is shown of a message that was refused at this token.
fn refused_use(end: &EndTrace<FileKeys>, message: &[u8], token: u8) -> KeyUse
    ensures { (v : EndState) (cause : Cause) → Follow end.now v → (refused : Refuses v.party message.now token cause)
        → use_value result ≡ stopped_use v token refused.stops.carried }
{
    end.refused(message, token)
}

// What is shown of a message that came, by its entry.
fn read_use(end: &mut EndTrace<FileKeys>, message: &[u8], entry: &Entry) -> KeyUse
    ensures frame { (s next : Side) (text : List ℕ) (step : StepValue) (r : SideReads s text step next)
        → Follow end.old s.state → message.now ≡ text → note_of entry.now ≡ Judged step
        → Used (use_value result) (read_use s next text step r) end.new next.state }
    ensures none { IsOfNoFrame (note_of entry.now) → (use_value result ≡ Nothing) × (end.new ≡ end.old) }
{
    end_is_followed::<FileKeys>();
    match entry {
        Entry::Payload(_) => end.took(message),
        Entry::Dropped(_) => end.tried(),
        Entry::Refused { token, .. } => refused_use(end, message, *token),
        _ => KeyUse::Nothing,
    }
}

// The message of the first frame in these bytes, and the bytes after it.
fn split_frame(bytes: &[u8]) -> (&[u8], &[u8])
    ensures { (message rest : List ℕ) → bytes.now ≡ frame message ++ rest → length message ≤ 65535
        → (result.0.now ≡ message) × (result.1.now ≡ rest) }
{
    if bytes.len() < 2 {
        return (&[], bytes);
    }
    let (front, after) = bytes.split_at(2);
    let count = usize::from(BigEndian::read_u16(front));
    after.split_at(count.min(after.len()))
}

// The message that an entry is about, or nothing, and the bytes that are left then of these.
fn split_entry<'a>(rest: &'a [u8], entry: &Entry) -> (&'a [u8], &'a [u8])
    ensures frame { (message more : List ℕ) (step : StepValue) → note_of entry.now ≡ Judged step
        → rest.now ≡ frame message ++ more → length message ≤ 65535 → (result.0.now ≡ message) × (result.1.now ≡ more) }
    ensures left { (step : StepValue) (n : ℕ) → note_of entry.now ≡ Left step n
        → result.1.now ≡ take (length rest.now - n) rest.now }
    ensures partial { (n : ℕ) → note_of entry.now ≡ Held n → result.1.now ≡ rest.now }
{
    match entry {
        Entry::Payload(_) | Entry::Dropped(_) | Entry::Refused { .. } | Entry::Exhausted => {
            split_frame(rest)
        }
        Entry::Left(_, count) => {
            let (front, _) = rest.split_at(rest.len().saturating_sub(*count));
            (&[], front)
        }
        _ => (&[], rest),
    }
}
