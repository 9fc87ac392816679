//! The state of an `End`: its party, and what has come of the next frame.

ghost use Rattle.std.specs.Prelude.{◌≡◌, ◌≤◌, ℕ, [], length, drop, true, None, Err, IsTrue, IsSome, IfOk, IfErr, IfSome};
ghost use Rattle.std.specs.Option.{ForSome};
ghost use Rattle.std.specs.Io.KnownBytes.{IsAtEnd};
ghost use Rattle.noise_session.specs.Counting.{inner_of, failures_of};
ghost use Rattle.noise_session.specs.Ends.{EndState, PhaseMatches, progress_in, is_ended};
ghost use Rattle.noise_session.specs.Frames.{IsPartial, IsWhole, frame};
ghost use Rattle.noise_session.specs.Inputs.{EndReceives, is_end, after_receiving};
ghost use Rattle.noise_session.specs.Outputs.{after_output};
ghost use Rattle.noise_session.specs.Progress.{idle_step, frame_len_of};
ghost use Rattle.noise_session.specs.Sending.{WritesInto};
ghost use Rattle.noise_session.specs.Taking.{EndTakes, Judges};
ghost use Rattle.noise_session.specs.inner.Partial.{partial_of};
ghost use Rattle.noise_session.specs.inner.Places.{reported_in, received_in, MatchesIn};
ghost use Rattle.noise_session.specs.inner.Phases.{ended_in, is_due};

use crate::counted::Filling;
use crate::frame::Frame;
use crate::framing::frame_message;
use crate::phase::Phase;
use crate::step::Outcome;
use crate::{Counted, ReceiveFault, SendFault, Step};
use noise_handshake::laws::psks_suffice;
use noise_handshake::{Keys, WriteFault};
use std::alloc::{AllocError, Global};
use std::io::Read;

// What the party of an `End` goes through, and what has come of the next frame: less than a whole one, and nothing once
// the session has ended. Messages are to come of its handshake.
#[derive(Drop)]
pub(crate) struct State<K: Keys> {
    pub(crate) phase: Phase<K>,
    pub(crate) incoming: Frame,
    ghost due: { IsTrue (is_due phase) },
    ghost partial: { IsPartial (partial_of incoming) },
    ghost ended: { is_ended phase ≡ true → partial_of incoming ≡ [] },
}

impl<K: Keys> State<K> {
    ghost use Rattle.noise_session.specs.inner.States.{end_in, message_in};

    // That of a new `End` in this phase.
    pub(crate) fn new(alloc: Global, phase: Phase<K>) -> Result<State<K>, AllocError>
        requires due { IsTrue (is_due phase) }
        ensures state { IfOk result (λ state. end_in state ≡ record { phase = phase; partial = [] }) }
    {
        let incoming = Frame::new(alloc)?;
        Ok(State { phase, incoming })
    }

    // Ends the session.
    pub(crate) fn end(&mut self)
        ensures { end_in self.new ≡ record { phase = ended_in self.old.phase; partial = [] } }
    {
        self.phase.end();
        self.incoming.clear();
    }

    // Takes bytes of a piece, and reads the message of a frame that is whole with them.
    pub(crate) fn take(&mut self, piece: &[u8]) -> (usize, Outcome)
        ensures partial { IsPartial (partial_of self.old.incoming) }
        ensures count { result.0 ≤ length piece.now }
        ensures place { MatchesIn (message_in self.new) result.1 }
        ensures takes { EndTakes K.pairs (end_in self.old) piece.now result.0
            (reported_in (message_in self.new) result.1) (end_in self.new) }
    {
        if let Some(step) = self.phase.idle() {
            return (0, Err(step));
        }
        match self.incoming.fill(piece) {
            None => (piece.len(), Err(Step::More)),
            Some(count) => (count, read(&mut self.phase, &mut self.incoming)),
        }
    }

    // Reads the missing bytes of a frame, and then its message; None where the input ends between frames.
    pub(crate) fn receive<R: Read>(
        &mut self,
        from: &mut Counted<R>,
    ) -> Result<Option<Outcome>, ReceiveFault>
        ensures place { IfOk result (λ o. IfSome o (λ outcome. MatchesIn (message_in self.new) outcome)) }
        ensures unread { IsSome (idle_step (progress_in self.old.phase)) → from.new ≡ from.old }
        ensures end { is_end result ≡ true → IsAtEnd (R.remaining (inner_of from.new)) }
        ensures failures { failures_of from.new ≡ after_receiving (failures_of from.old) result }
        ensures receives { EndReceives K.pairs (end_in self.old) (R.remaining (inner_of from.old))
            (received_in (message_in self.new) result) (R.remaining (inner_of from.new)) (end_in self.new) }
    {
        if let Some(step) = self.phase.idle() {
            return Ok(Some(Err(step)));
        }
        match self.incoming.fill_from(from) {
            Filling::Filled => Ok(Some(read(&mut self.phase, &mut self.incoming))),
            Filling::End => {
                if self.incoming.held() == 0 {
                    Ok(None)
                } else {
                    Err(ReceiveFault::CutShort)
                }
            }
            Filling::Failed => Err(ReceiveFault::Input),
        }
    }

    // Writes a payload as a frame into the first bytes of `out`, and returns how many.
    pub(crate) fn send(&mut self, payload: &[u8], out: &mut [u8]) -> Result<usize, SendFault>
        requires room { ForSome (frame_len_of (progress_in self.old.phase) (length payload.now))
            (λ n. n ≤ length out.old) }
        ensures failures { IfErr result (λ fault. (failures : ℕ) → after_output failures (Err fault) ≡ failures) }
        ensures writes { WritesInto K.pairs (end_in self.old) payload.now out.old result out.new
            (end_in self.new) }
    {
        psks_suffice::<K>();
        let start = out.len().min(2);
        match &mut self.phase {
            Phase::Handshaking { handshake, .. } => {
                match handshake.write(payload, &mut out[start..]) {
                    Ok(len) => {
                        self.phase.settle();
                        Ok(frame_message(out, len))
                    }
                    Err(WriteFault::NotYourTurn) => Err(SendFault::NotYourTurn),
                    Err(WriteFault::TooLong) => Err(SendFault::TooLong),
                    Err(WriteFault::Agreement { token }) => {
                        self.phase.end();
                        self.incoming.clear();
                        Err(SendFault::Agreement { token })
                    }
                    Err(_) => unreachable!(),
                }
            }
            Phase::Open(transport) => match transport.seal(payload, &mut out[start..]) {
                Ok(len) => Ok(frame_message(out, len)),
                Err(SendFault::Exhausted) => {
                    self.end();
                    Err(SendFault::Exhausted)
                }
                Err(SendFault::OneWay) => Err(SendFault::OneWay),
                Err(SendFault::TooLong) => Err(SendFault::TooLong),
                Err(_) => unreachable!(),
            },
            Phase::Ended { .. } => Err(SendFault::Ended),
        }
    }
}

// Reads the message of a whole frame. Nothing is held after it.
fn read<K: Keys>(phase: &mut Phase<K>, incoming: &mut Frame) -> Outcome
    requires due { IsTrue (is_due phase.old) }
    requires listens { idle_step (progress_in phase.old) ≡ None }
    requires whole { IsWhole (partial_of incoming.old) }
    ensures due { IsTrue (is_due phase.new) }
    ensures empty { partial_of incoming.new ≡ [] }
    ensures place { MatchesIn (drop 2 incoming.new.buffer.items) result }
    ensures spelled { partial_of incoming.old ≡ frame (drop 2 (partial_of incoming.old)) }
    ensures short { length (drop 2 (partial_of incoming.old)) ≤ 65535 }
    ensures judges { (v : EndState) → PhaseMatches K.pairs phase.old v → (next : EndState)
        × Judges v (drop 2 (partial_of incoming.old)) (reported_in (drop 2 incoming.new.buffer.items) result) next
        × PhaseMatches K.pairs phase.new next × (next.partial ≡ []) }
{
    let end = incoming.clear();
    phase.read(&mut incoming.buffer[2..end])
}
