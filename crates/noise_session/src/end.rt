//! One party of a session.

ghost use Rattle.std.specs.Prelude.{◌≡◌, ◌≤◌, [], length, true, false, IsSome, IsTrue, IfOk, IfSome};
ghost use Rattle.std.specs.Option.{ForSome};
ghost use Rattle.noise_handshake.specs.Party.{Party};
ghost use Rattle.noise_handshake.specs.Matching.{Matches};
ghost use Rattle.noise_session.specs.Frames.{IsPartial};
ghost use Rattle.noise_session.specs.Progress.{role_of, stage_of, idle_step, frame_len_of};
ghost use Rattle.noise_session.specs.Steps.{step_value, step_value_of};
ghost use Rattle.noise_session.specs.Counting.{inner_of, failures_of};
ghost use Rattle.std.specs.Io.KnownBytes.{IsAtEnd};

use crate::counted::write_out;
use crate::frame::zeros;
use crate::phase::Phase;
use crate::state::State;
use crate::step::step_in;
use crate::{Counted, Datagrams, ReceiveFault, SendFault, Stage, Step, Transport, Window};
use noise_handshake::{Handshake, Keys};
use noise_names::Role;
use std::alloc::{AllocError, Global};
use std::io::{Read, Write};
use std::marker::Model;

/// One party of a session: it takes the bytes of the other party's frames, and writes its own.
///
/// A frame is a message after its length in 2 big-endian bytes (Noise, 3 and 13), handshake messages too: at most 65537
/// bytes. It opens by itself once the last handshake message has passed; the handshake with its keys is gone then.
#[derive(Drop)]
pub struct End<K: Keys> {
    state: State<K>,
    outgoing: Vec<u8>, // for a frame on its way to a writer
}

impl<K: Keys> Model for End<K> {
    ghost use Rattle.std.specs.Prelude.{◌≡◌, length, vec_capacity};
    ghost use Rattle.noise_session.specs.Ends.{EndValue};
    ghost use Rattle.noise_session.specs.inner.States.{end_in};

    ghost Value = { EndValue K };

    ghost view = { λ e. end_in e.state };

    ghost invariant = { λ e. record {
      room : length e.outgoing.items ≡ 65537;
      fixed : vec_capacity e.outgoing ≡ 65537;
    } };
}

impl<K: Keys> End<K> {
    ghost use Rattle.std.specs.Borrow.{sem};
    ghost use Rattle.noise_session.specs.Ends.{EndState, EndMatches, end_of, progress, hash_in, remote_static_in, is_ended};
    ghost use Rattle.noise_session.specs.declared.phase.Phase.TheVariants as phases;
    ghost use Rattle.noise_session.specs.Lending.{Lends};
    ghost use Rattle.noise_session.specs.Taking.{EndTakes};
    ghost use Rattle.noise_session.specs.Sending.{WritesInto};
    ghost use Rattle.noise_session.specs.Inputs.{EndReceives, is_end, after_receiving};
    ghost use Rattle.noise_session.specs.Outputs.{EndPuts, after_output};
    ghost use Rattle.noise_session.specs.Datagrams.{DatagramsMatch, datagrams_of};
    ghost use Rattle.noise_session.specs.EndDatagrams.{is_datagram_ready};
    ghost use Rattle.noise_session.specs.inner.Phases.{is_due};

    /// A party of a session that begins with this handshake, which hasn't ended; it is open at once where all its
    /// messages have passed. In transport the key is rekeyed after each `interval` messages of a direction; 0 means
    /// never.
    ///
    /// It reserves two buffers of 65537 bytes, which no later call grows. At Err the handshake is gone.
    pub fn new(alloc: Global, handshake: Handshake<K>, interval: u64) -> Result<End<K>, AllocError>
        requires going { handshake.ended ≡ false }
        ensures matches { (v : Party) → Matches K.pairs handshake v
            → IfOk result (λ end. EndMatches K.pairs end (end_of v interval)) }
    {
        let phase = Phase::after(handshake, interval);
        End::begin(alloc, phase)
    }

    /// A party of a session that is open with this transport.
    ///
    /// It reserves two buffers of 65537 bytes, which no later call grows. At Err the transport is gone.
    pub fn from_transport(alloc: Global, transport: Transport) -> Result<End<K>, AllocError>
        ensures { IfOk result (λ end. end ≡ record { phase = phases.Open transport; partial = [] }) }
    {
        let phase = Phase::Open(transport);
        End::begin(alloc, phase)
    }

    // A new `End` in this phase.
    fn begin(alloc: Global, phase: Phase<K>) -> Result<End<K>, AllocError>
        requires due { IsTrue (is_due phase) }
        ensures state { IfOk result (λ end. end ≡ record { phase = phase; partial = [] }) }
    {
        let state = State::new(alloc, phase)?;
        let outgoing = zeros(alloc)?;
        Ok(End { state, outgoing })
    }

    /// Which party of the handshake it is, also after the session's end.
    pub fn role(&self) -> Role
        ensures { result ≡ role_of (progress self.now) }
    {
        self.state.phase.role()
    }

    /// Where the session stands.
    pub fn stage(&self) -> Stage
        ensures { result ≡ stage_of (progress self.now) }
    {
        self.state.phase.stage()
    }

    /// The hash of the whole handshake (Noise, 11.2), 32 bytes, once the session has opened, also after its end.
    pub fn hash(&self) -> Option<[u8; 32]>
        ensures { result ≡ hash_in self.now.phase }
    {
        self.state.phase.hash()
    }

    /// The other party's static public key, 32 bytes, as far as its pre-message and the messages that passed show it;
    /// none after the session's end.
    pub fn remote_static(&self) -> Option<[u8; 32]>
        ensures { result ≡ remote_static_in self.now.phase }
    {
        self.state.phase.remote_static()
    }

    /// How many bytes of an unfinished frame it holds: at most 65536, and none after the session's end.
    pub fn held(&self) -> usize
        ensures count { result ≡ length self.now.partial }
        ensures partial { IsPartial self.now.partial }
        ensures most { result ≤ 65536 }
        ensures ended { is_ended self.now.phase ≡ true → result ≡ 0 }
    {
        self.state.incoming.held()
    }

    /// Takes bytes of at most one frame, and returns how many and what they came to.
    ///
    /// Only the bytes that it holds, with the piece after them, count: where a frame is divided into chunks makes no
    /// difference.
    pub fn take<'a>(&'a mut self, piece: &[u8]) -> (usize, Step<'a>)
        ensures partial { IsPartial self.old.partial }
        ensures count { result.0 ≤ length piece.now }
        ensures* takes { sem 𝓛 (Lends K.row K.Keys self.entry (λ next.
            EndTakes K.pairs self.old piece.now result.0 (step_value result.1) next)) }
    {
        let (count, outcome) = self.state.take(piece);
        (count, step_in(self.state.incoming.message(), outcome))
    }

    /// Reads the missing bytes of one frame from a reader, and no more, and returns what the frame came to. Where this
    /// party doesn't listen it reads nothing; `Ok(None)` is an end of the input between frames.
    ///
    /// At a fault the bytes that came are kept, and a later call goes on with them.
    pub fn receive<R: Read>(
        &mut self,
        from: &mut Counted<R>,
    ) -> Result<Option<Step<'_>>, ReceiveFault>
        ensures unread { IsSome (idle_step (progress self.old)) → from.new ≡ from.old }
        ensures end { is_end result ≡ true → IsAtEnd (R.remaining (inner_of from.new)) }
        ensures failures { failures_of from.new ≡ after_receiving (failures_of from.old) result }
        ensures* receives { sem 𝓛 (Lends K.row K.Keys self.entry (λ next.
            EndReceives K.pairs self.old (R.remaining (inner_of from.old)) (step_value_of result)
            (R.remaining (inner_of from.new)) next)) }
    {
        match self.state.receive(from)? {
            None => Ok(None),
            Some(outcome) => Ok(Some(step_in(self.state.incoming.message(), outcome))),
        }
    }

    /// The length of the frame that `write_into` would write now; None where it would be refused before any DH.
    pub fn frame_len(&self, payload_len: usize) -> Option<usize>
        ensures value { result ≡ frame_len_of (progress self.now) payload_len }
        ensures most { IfSome result (λ n. n ≤ 65537) }
    {
        self.state.phase.frame_len(payload_len)
    }

    /// Writes a payload as a frame, into the first bytes of `out`, and returns how many.
    ///
    /// Where `frame_len` gives a length, `out` holds it. A DH of the handshake without a DH result ends the session,
    /// and leaves open what `out` holds; an exhausted nonce ends the session; the other faults change nothing.
    pub fn write_into(&mut self, payload: &[u8], out: &mut [u8]) -> Result<usize, SendFault>
        requires room { ForSome (frame_len_of (progress self.old) (length payload.now)) (λ n. n ≤ length out.old) }
        ensures writes { WritesInto K.pairs self.old payload.now out.old result out.new self.new }
    {
        self.state.send(payload, out)
    }

    /// Writes a payload as a frame to a writer, by as many writes as it takes, and returns the frame's length. It
    /// doesn't flush.
    ///
    /// Where a write fails, or takes none of the bytes that are left, the session has ended; so it has after a DH of
    /// the handshake without a DH result, and an exhausted nonce. The other faults change nothing.
    pub fn write_to<W: Write>(
        &mut self,
        payload: &[u8],
        out: &mut Counted<W>,
    ) -> Result<usize, SendFault>
        ensures failures { failures_of out.new ≡ after_output (failures_of out.old) result }
        ensures writes { EndPuts K.pairs self.old payload.now (W.contents (inner_of out.old)) result
            (W.contents (inner_of out.new)) self.new }
    {
        let len = self.state.send(payload, &mut self.outgoing)?;
        match write_out(out, &self.outgoing[..len]) {
            Ok(()) => Ok(len),
            Err(written) => {
                self.state.end();
                Err(SendFault::Output { written })
            }
        }
    }

    /// Whether it may go over to datagrams: the session is open, no transport message was written or taken, and no byte
    /// of a frame has come.
    pub fn datagram_ready(&self) -> bool
        ensures { result ≡ is_datagram_ready self.now }
    {
        match &self.state.phase {
            Phase::Open(transport) => {
                let untouched = transport.send_nonce() == 0 && transport.receive_nonce() == 0;
                untouched && self.state.incoming.held() == 0
            }
            _ => false,
        }
    }

    /// The datagrams of its party, with this window (Noise, 11.4), where `datagram_ready` holds. Their keys are never
    /// rekeyed, whatever its interval is.
    pub fn into_datagrams(self, window: Window) -> Datagrams
        requires ready { is_datagram_ready self ≡ true }
        ensures matches { (v : EndState) → EndMatches K.pairs self v
            → DatagramsMatch result (datagrams_of v.party window) }
    {
        let state = self.state;
        let phase = state.phase;
        match phase {
            Phase::Open(transport) => Datagrams::after(transport, window),
            _ => unreachable!(),
        }
    }
}
