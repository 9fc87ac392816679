//! A caller that reads what came of a stream, hands out the payloads, and says whether the stream is whole.

ghost use Rattle.std.specs.Prelude.{◌≡◌, ◌↔◌, ◌≤◌, ◌<◌, ◌+◌, ◌-◌, ℕ, length, drop, vec_len, vec_capacity, true, IfOk, OnErr};
ghost use Rattle.noise_session.specs.TransportValue.{TransportState};
ghost use Rattle.noise_channel.specs.Streams.{incoming, outgoing};
ghost use Rattle.noise_channel.specs.Reading.{StreamReceiverState};
ghost use Rattle.noise_channel.specs.Reading.StreamReceiverState.{Listens};
ghost use Rattle.noise_channel.specs.Halves.{StreamReceiverMatches};
ghost use Rattle.noise_channel.specs.declared.next.StreamState.TheVariants as states;
ghost use Rattle.noise_channel.specs.Agreement.{IsWholeOrForged};
ghost use Rattle.noise_channel.specs.Receiving.{HandsOut, HandsOutAll, ReadsOnce, ReadsTo, ReadsToEnd};

use crate::laws::read_is_front;
use crate::{Next, StreamReceiver};
use std::alloc::AllocError;

// Reads the frame at the start of the buffer, appends its payload to `out`, and returns how many bytes are used: none
// where more are wanted, and where nothing more is read.
fn read_frame_to(receiver: &mut StreamReceiver, buffer: &mut [u8], out: &mut Vec<u8>) -> usize
    requires room { vec_len out.old + length buffer.old ≤ vec_capacity out.old }
    ensures used { result ≤ length buffer.old }
    ensures rest { drop result buffer.new ≡ drop result buffer.old }
    ensures room { vec_len out.new + (length buffer.old - result) ≤ vec_capacity out.new }
    ensures reads { (v : TransportState) (s : StreamReceiverState) → StreamReceiverMatches receiver.old v s
        → ReadsOnce v s buffer.old result out.old.items out.new.items receiver.new }
{
    match receiver.read(buffer) {
        Next::Payload { from, to, used } => match out.extend_from_slice(&buffer[from..to]) {
            Ok(()) => used,
            Err(_) => unreachable!(),
        },
        Next::End { used } => used,
        _ => 0,
    }
}

/// Reads the frames that came, one after another, appends their payloads to `out`, and returns how many bytes are left
/// at the end of `came`, as they came: less than a frame, or all that came after the end or from a refused frame on.
/// More bytes go behind them.
///
/// Where memory is lacking for as many bytes as came, nothing is read.
pub fn read_to(
    receiver: &mut StreamReceiver,
    came: &mut [u8],
    out: &mut Vec<u8>,
) -> Result<usize, AllocError>
    ensures left { IfOk result (λ left. left ≤ length came.old) }
    ensures rest { IfOk result
        (λ left. drop (length came.old - left) came.new ≡ drop (length came.old - left) came.old) }
    ensures full { OnErr result (vec_capacity out.old < vec_len out.old + length came.old) }
    ensures unchanged { OnErr result
        ((receiver.new ≡ receiver.old) × (came.new ≡ came.old) × (out.new.items ≡ out.old.items)) }
    ensures reads { (v : TransportState) (s : StreamReceiverState) → StreamReceiverMatches receiver.old v s
        → IfOk result (λ left. ReadsTo v s came.old (length came.old - left) out.old.items out.new.items receiver.new) }
{
    out.reserve(came.len())?;
    let mut at = 0;
    'frames: loop {
        let used = read_frame_to(receiver, &mut came[at..], out);
        if used == 0 {
            return Ok(came.len() - at);
        }
        at += used;
    }
}

/// Reads all that came of a stream, appends the payloads to `out`, and returns whether that is the whole stream: the
/// other party has ended it, and nothing came after its end.
///
/// Where memory is lacking for as many bytes as came, nothing is read.
pub fn read_to_end(
    receiver: &mut StreamReceiver,
    came: &mut [u8],
    out: &mut Vec<u8>,
) -> Result<bool, AllocError>
    ensures full { OnErr result (vec_capacity out.old < vec_len out.old + length came.old) }
    ensures unchanged { OnErr result
        ((receiver.new ≡ receiver.old) × (came.new ≡ came.old) × (out.new.items ≡ out.old.items)) }
    ensures reads { (v : TransportState) (s : StreamReceiverState) → StreamReceiverMatches receiver.old v s
        → IfOk result (λ whole. ReadsToEnd v s came.old out.old.items out.new.items receiver.new whole) }
    ensures front { (v w : TransportState) → IsWholeOrForged v w → StreamReceiverMatches receiver.old w (Listens 0)
        → IfOk result (λ whole. HandsOut v came.old out.old.items out.new.items whole) }
    ensures all { (v w : TransportState) → outgoing v ≡ incoming w → StreamReceiverMatches receiver.old w (Listens 0)
        → IfOk result (λ whole. HandsOutAll v came.old out.old.items out.new.items whole) }
{
    read_is_front();
    let left = read_to(receiver, came, out)?;
    Ok(is_whole(receiver, left))
}

// Whether a reader has met the end, and nothing is left after it.
fn is_whole(receiver: &StreamReceiver, left: usize) -> bool
    ensures { (result ≡ true) ↔ ((receiver.now.state ≡ states.Ended) × (left ≡ 0)) }
{
    !receiver.is_cut(left)
}
