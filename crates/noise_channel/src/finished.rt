//! The programs of two parties that have finished a handshake: the halves of their stream, and what one reads of it.

ghost use Rattle.std.specs.Prelude.{◌≡◌, ◌<◌, ◌+◌, ◌↔◌, ◌⊎◌, List, length, vec_len, vec_capacity, false, Ok, IfOk, IsSome, IfSome, OnErr};
ghost use Rattle.noise_names.specs.Plan.{Plan};
ghost use Rattle.noise_handshake.specs.Matching.{Matches};
ghost use Rattle.noise_handshake.specs.Party.{Party};
ghost use Rattle.noise_session.specs.TransportValue.{TransportState, transport_of};
ghost use Rattle.noise_channel.specs.Halves.{StreamReceiverMatches, StreamSenderMatches};
ghost use Rattle.noise_channel.specs.Reading.StreamReceiverState.{Listens};
ghost use Rattle.noise_channel.specs.Writing.StreamSenderState.{Speaks};
ghost use Rattle.noise_duel.specs.Messages.{HandshakeMessage, Start};
ghost use Rattle.noise_channel.specs.Finished.{ForgedOrTwice, HaveFinished};
ghost use Rattle.noise_channel.specs.Receiving.{HandsOut, HandsOutAll};
ghost use Rattle.noise_channel.specs.Streams.{incoming, outgoing};

use crate::laws::finished_agree;
use crate::{StreamReceiver, StreamSender, read_to_end};
use noise_handshake::{Handshake, Keys};
use noise_session::Transport;
use std::alloc::AllocError;

/// Both halves of the stream that a finished handshake leaves; none of one that isn't finished.
pub fn streams<K: Keys>(
    handshake: Handshake<K>,
    interval: u64,
) -> Option<(StreamSender, StreamReceiver)>
    ensures when { IsSome result
        ↔ ((handshake.ended ≡ false) × (handshake.passed ≡ length handshake.pattern.messages)) }
    ensures matches { (v : Party) → Matches K.pairs handshake v → IfSome result
        (λ r. StreamSenderMatches r.0 (transport_of v interval) (Speaks 0)
        × StreamReceiverMatches r.1 (transport_of v interval) (Listens 0)) }
{
    match handshake.finish() {
        Ok(opened) => {
            let (sending, receiving) = Transport::new(opened, interval).split();
            Some((StreamSender::new(sending), StreamReceiver::new(receiving)))
        }
        Err(unfinished) => {
            drop(unfinished);
            None
        }
    }
}

/// One party's program after its handshake: reads all that came of the other party's stream, appends the payloads to
/// `out`, and returns whether that is the whole stream. Of a handshake that isn't finished it reads nothing.
///
/// With the other party of the same handshake, `out` gets the first bytes that this one wrote, and all of
/// them where it's the whole stream; or a message is forged, or a sealed text opens twice, or two hashed texts collide.
/// Where all came that the other party put out, unaltered, `out` gets all that it wrote.
pub fn read_after<K: Keys>(
    handshake: Handshake<K>,
    interval: u64,
    came: &mut [u8],
    out: &mut Vec<u8>,
) -> Result<bool, AllocError>
    ensures full { OnErr result (vec_capacity out.old < vec_len out.old + length came.old) }
    ensures unchanged { OnErr result ((came.new ≡ came.old) × (out.new.items ≡ out.old.items)) }
    ensures unfinished { ((handshake.ended ≡ false) × (handshake.passed ≡ length handshake.pattern.messages) → ⊥)
        → (result ≡ Ok false) × (came.new ≡ came.old) × (out.new.items ≡ out.old.items) }
    ensures responder { (p : Plan) (a b : Start) (ps qs : List HandshakeMessage) (v w : Party)
        → HaveFinished p a b ps qs v w → Matches K.pairs handshake w → IfOk result
        (λ whole. HandsOut (transport_of v interval) came.old out.old.items out.new.items whole
        ⊎ ForgedOrTwice p a b ps qs) }
    ensures initiator { (p : Plan) (a b : Start) (ps qs : List HandshakeMessage) (v w : Party)
        → HaveFinished p a b ps qs v w → Matches K.pairs handshake v → IfOk result
        (λ whole. HandsOut (transport_of w interval) came.old out.old.items out.new.items whole
        ⊎ ForgedOrTwice p a b ps qs) }
    ensures all { (handshake.ended ≡ false) × (handshake.passed ≡ length handshake.pattern.messages)
        → (u : Party) (v : TransportState) → Matches K.pairs handshake u
        → outgoing v ≡ incoming (transport_of u interval)
        → IfOk result (λ whole. HandsOutAll v came.old out.old.items out.new.items whole) }
{
    finished_agree();
    match streams(handshake, interval) {
        Some((sender, mut receiver)) => {
            drop(sender);
            read_to_end(&mut receiver, came, out)
        }
        None => Ok(false),
    }
}
