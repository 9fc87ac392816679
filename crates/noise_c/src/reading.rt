//! A caller of the exports of streams, as each program has one: it reads what came, hands out the payloads, and says
//! whether the stream is whole. No export calls it, and the static library has none of it.

ghost use Rattle.std.specs.Prelude.{◌≡◌, ◌↔◌, ◌≤◌, ◌<◌, ◌+◌, ◌-◌, ◌⊎◌, ℕ, List, length, drop, vec_len, vec_capacity, true, false, Ok, IfOk, OnErr};
ghost use Rattle.noise_names.specs.Plan.{Plan};
ghost use Rattle.noise_handshake.specs.Party.{Party};
ghost use Rattle.noise_session.specs.TransportValue.{TransportState, transport_of};
ghost use Rattle.noise_channel.specs.Halves.{StreamReceiverMatches};
ghost use Rattle.noise_channel.specs.declared.next.StreamState.TheVariants as states;
ghost use Rattle.noise_channel.specs.Streams.{incoming, outgoing};
ghost use Rattle.noise_channel.specs.Reading.{StreamReceiverState};
ghost use Rattle.noise_channel.specs.Reading.StreamReceiverState.{Listens};
ghost use Rattle.noise_duel.specs.Messages.{HandshakeMessage, Start};
ghost use Rattle.noise_channel.specs.Finished.{ForgedOrTwice, HaveFinished};
ghost use Rattle.noise_channel.specs.Receiving.{HandsOut, HandsOutAll, ReadsOnce, ReadsTo, ReadsToEnd};
ghost use Rattle.noise_channel.specs.Agreement.{IsWholeOrForged};
ghost use Rattle.noise_c.specs.declared.codes.numbers.TheConstants.{OK};
ghost use Rattle.noise_c.specs.DhResults.{DhResults, with_dh_results};
ghost use Rattle.noise_c.specs.Finishing.{Finishes, UsesUp};
ghost use Rattle.noise_c.specs.FinishedPrograms.{ReadsAfter};
ghost use Rattle.noise_c.specs.HandshakeStructs.{KeepsParty};
ghost use Rattle.noise_c.specs.StreamStructs.{is_stream_receiver, stream_receiver_from_c};

use crate::codes::numbers::{END, OK};
use crate::split::noise_finish_stream;
use crate::streams::{noise_stream_is_cut, noise_stream_read};
use crate::structs::{
    NoiseHalf, NoiseHandshake, NoiseStreamReceiver, NoiseStreamResult, NoiseStreamSender,
};
use noise_channel::laws::{calls_join, finished_agree, read_is_front};
use std::alloc::AllocError;

// Reads the frame at the start of the buffer, appends its payload to `out`, and returns how many bytes are used: none
// where more are wanted, and where nothing more is read.
fn read_frame_to(stream: &mut NoiseStreamReceiver, buffer: &mut [u8], out: &mut Vec<u8>) -> usize
    requires room { vec_len out.old + length buffer.old ≤ vec_capacity out.old }
    requires known { is_stream_receiver stream.old ≡ true }
    ensures known { is_stream_receiver stream.new ≡ true }
    ensures used { result ≤ length buffer.old }
    ensures rest { drop result buffer.new ≡ drop result buffer.old }
    ensures room { vec_len out.new + (length buffer.old - result) ≤ vec_capacity out.new }
    ensures reads { (v : TransportState) (s : StreamReceiverState)
        → StreamReceiverMatches (stream_receiver_from_c stream.old) v s
        → ReadsOnce v s buffer.old result out.old.items out.new.items (stream_receiver_from_c stream.new) }
{
    let mut results = NoiseStreamResult {
        from: 0,
        len: 0,
        used: 0,
        wanted: 0,
    };
    let code = noise_stream_read(stream, buffer, &mut results);
    let NoiseStreamResult {
        from,
        len,
        used,
        wanted: _,
    } = results;
    match code {
        OK => match out.extend_from_slice(&buffer[from..from + len]) {
            Ok(()) => used,
            Err(_) => unreachable!(),
        },
        END => used,
        _ => 0,
    }
}

/// Reads the frames that came, one after another, by `noise_stream_read`, appends their payloads to `out`, and returns
/// how many bytes are left at the end of `came`, as they came: less than a frame, or all that came after the end or
/// from a refused frame on.
///
/// Where memory is lacking for as many bytes as came, nothing is read.
pub fn read_stream_to(
    stream: &mut NoiseStreamReceiver,
    came: &mut [u8],
    out: &mut Vec<u8>,
) -> Result<usize, AllocError>
    requires known { is_stream_receiver stream.old ≡ true }
    ensures known { is_stream_receiver stream.new ≡ true }
    ensures left { IfOk result (λ left. left ≤ length came.old) }
    ensures rest { IfOk result
        (λ left. drop (length came.old - left) came.new ≡ drop (length came.old - left) came.old) }
    ensures full { OnErr result (vec_capacity out.old < vec_len out.old + length came.old) }
    ensures unchanged { OnErr result
        ((stream.new ≡ stream.old) × (came.new ≡ came.old) × (out.new.items ≡ out.old.items)) }
    ensures reads { (v : TransportState) (s : StreamReceiverState)
        → StreamReceiverMatches (stream_receiver_from_c stream.old) v s
        → IfOk result (λ left. ReadsTo v s came.old (length came.old - left) out.old.items out.new.items
        (stream_receiver_from_c stream.new)) }
{
    out.reserve(came.len())?;
    calls_join();
    let mut at = 0;
    'frames: loop {
        let used = read_frame_to(stream, &mut came[at..], out);
        if used == 0 {
            return Ok(came.len() - at);
        }
        at += used;
    }
}

/// Reads all that came of a stream, appends the payloads to `out`, and returns whether that is the whole stream: the
/// other party has ended it, and nothing came after its end (`noise_stream_is_cut`).
///
/// Where memory is lacking for as many bytes as came, nothing is read.
pub fn read_stream_to_end(
    stream: &mut NoiseStreamReceiver,
    came: &mut [u8],
    out: &mut Vec<u8>,
) -> Result<bool, AllocError>
    requires known { is_stream_receiver stream.old ≡ true }
    ensures full { OnErr result (vec_capacity out.old < vec_len out.old + length came.old) }
    ensures unchanged { OnErr result
        ((stream.new ≡ stream.old) × (came.new ≡ came.old) × (out.new.items ≡ out.old.items)) }
    ensures reads { (v : TransportState) (s : StreamReceiverState)
        → StreamReceiverMatches (stream_receiver_from_c stream.old) v s
        → IfOk result (λ whole. ReadsToEnd v s came.old out.old.items out.new.items
        (stream_receiver_from_c stream.new) whole) }
    ensures front { (v w : TransportState) → IsWholeOrForged v w
        → StreamReceiverMatches (stream_receiver_from_c stream.old) w (Listens 0)
        → IfOk result (λ whole. HandsOut v came.old out.old.items out.new.items whole) }
    ensures all { (v w : TransportState) → outgoing v ≡ incoming w
        → StreamReceiverMatches (stream_receiver_from_c stream.old) w (Listens 0)
        → IfOk result (λ whole. HandsOutAll v came.old out.old.items out.new.items whole) }
{
    read_is_front();
    let left = read_stream_to(stream, came, out)?;
    Ok(is_whole(stream, left))
}

// Whether a reader has met the end, and nothing is left after it.
pub(crate) fn is_whole(stream: &NoiseStreamReceiver, left: usize) -> bool
    requires known { is_stream_receiver stream.now ≡ true }
    ensures whole { (result ≡ true) ↔ (((stream_receiver_from_c stream.now).state ≡ states.Ended) × (left ≡ 0)) }
{
    noise_stream_is_cut(stream, left) == OK
}

/// One party's program after its handshake: finishes it by `noise_finish_stream`, reads all that came of the other
/// party's stream, appends the payloads to `out`, and returns whether that is the whole stream (`noise_stream_is_cut`).
/// Of a handshake that isn't finished it reads nothing.
///
/// With the other party of the same handshake, `out` gets the first bytes that this one wrote, and all of
/// them where it's the whole stream; or a message is forged, or a sealed text opens twice, or two hashed texts collide.
/// Where all came that the other party put out, unaltered, `out` gets all that it wrote.
pub fn read_after_finish(
    handshake: &mut NoiseHandshake,
    interval: u64,
    came: &mut [u8],
    out: &mut Vec<u8>,
) -> Result<bool, AllocError>
    ensures full { OnErr result (vec_capacity out.old < vec_len out.old + length came.old) }
    ensures unchanged { OnErr result ((came.new ≡ came.old) × (out.new.items ≡ out.old.items)) }
    ensures uses { (code : ℕ) × UsesUp handshake.old handshake.new code }
    ensures unfinished { (Finishes handshake.old OK → ⊥) → (result ≡ Ok false) × (came.new ≡ came.old)
        × (out.new.items ≡ out.old.items) }
    ensures reads { Finishes handshake.old OK → IfOk result
        (λ whole. ReadsAfter handshake.old interval came.old out.old.items out.new.items whole) }
    ensures responder { (p : Plan) (a b : Start) (ps qs : List HandshakeMessage) (v w : Party) (handed_in : DhResults)
        → HaveFinished p a b ps qs v w → KeepsParty handshake.old p (with_dh_results w handed_in) → IfOk result
        (λ whole. HandsOut (transport_of v interval) came.old out.old.items out.new.items whole
        ⊎ ForgedOrTwice p a b ps qs) }
    ensures initiator { (p : Plan) (a b : Start) (ps qs : List HandshakeMessage) (v w : Party) (handed_in : DhResults)
        → HaveFinished p a b ps qs v w → KeepsParty handshake.old p (with_dh_results v handed_in) → IfOk result
        (λ whole. HandsOut (transport_of w interval) came.old out.old.items out.new.items whole
        ⊎ ForgedOrTwice p a b ps qs) }
    ensures all { Finishes handshake.old OK → (p : Plan) (u : Party) (v : TransportState) → KeepsParty handshake.old p u
        → outgoing v ≡ incoming (transport_of u interval) → IfOk result
        (λ whole. HandsOutAll v came.old out.old.items out.new.items whole) }
{
    finished_agree();
    let mut sender = NO_SENDER;
    let mut receiver = NO_RECEIVER;
    if noise_finish_stream(handshake, interval, &mut sender, &mut receiver) != OK {
        return Ok(false);
    }
    read_stream_to_end(&mut receiver, came, out)
}

// Memory for a half.
pub(crate) const NO_HALF: NoiseHalf = NoiseHalf {
    mark: 0,
    party: 0,
    one_way: 0,
    key: [0; 32],
    interval: 0,
    nonce: 0,
};

// Memory for the halves of a stream.
pub(crate) const NO_SENDER: NoiseStreamSender = NoiseStreamSender {
    half: NO_HALF,
    ended: 0,
};

pub(crate) const NO_RECEIVER: NoiseStreamReceiver = NoiseStreamReceiver {
    half: NO_HALF,
    state: 0,
};
