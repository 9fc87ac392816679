//! Exports: the two halves of a stream of bytes that has an end, and frames, for the messages of a handshake over a
//! stream.

ghost use Rattle.std.specs.Prelude.{◌≡◌};
ghost use Rattle.noise_c.specs.StreamStructs.{frame_of, FindsFrame, FramesMessage, JudgesCut, ReadsFrame, WritesEnd, WritesFrame};

use crate::codes::numbers::*;
use crate::codes::{ok_or, open_code, some_or, stream_code};
use crate::halves_from_c::*;
use crate::structs::{NoiseStreamReceiver, NoiseStreamResult, NoiseStreamSender};
use noise_channel::{Framed, Next, next_frame};
use noise_session::frame_message;
use noise_session::limits::PAYLOAD_MAX;
use noise_state::limits::MAX_LEN;

/// Writes the first bytes of a payload, 65519 at most, as a frame into the first bytes of `out`, and reports how many
/// bytes of each. Of an empty payload nothing is written. EXHAUSTED where only the nonce of the end is left.
#[unsafe(no_mangle)]
pub extern "C" fn noise_stream_write(
    stream: &mut NoiseStreamSender,
    payload: &[u8],
    out: &mut [u8],
    results: &mut NoiseStreamResult,
) -> u32
    ensures { WritesFrame payload.now stream.old stream.new out.old out.new results.old results.new result }
{
    let mut sender = some_or!(stream_sender_from_c(stream), STRUCT);
    if out.len() < frame_len(payload.len()) {
        return ROOM;
    }
    let (taken, written) = ok_or!(sender.write(payload, out), stream_code);
    results.len = written;
    results.used = taken;
    *stream = stream_sender_to_c(sender);
    OK
}

// How many bytes the frame has that is written of a payload of so many.
fn frame_len(payload_len: usize) -> usize
    ensures { result ≡ frame_of payload_len }
{
    if payload_len == 0 {
        0
    } else {
        payload_len.min(PAYLOAD_MAX) + FRAME_OVERHEAD
    }
}

/// Ends the stream: writes the end, a frame of 18 bytes, into the first bytes of `out`.
#[unsafe(no_mangle)]
pub extern "C" fn noise_stream_end(
    stream: &mut NoiseStreamSender,
    out: &mut [u8],
    results: &mut NoiseStreamResult,
) -> u32
    ensures { WritesEnd stream.old stream.new out.old out.new results.old results.new result }
{
    let mut sender = some_or!(stream_sender_from_c(stream), STRUCT);
    if out.len() < FRAME_OVERHEAD {
        return ROOM;
    }
    results.len = ok_or!(sender.end(out), stream_code);
    *stream = stream_sender_to_c(sender);
    OK
}

/// Reads the frame at the start of `buffer`, which begins with the first byte that isn't used yet, and opens its
/// message in place: OK, MORE, or END where the other party has ended the stream. SHORT, TAG, ONE_WAY and EXHAUSTED
/// break the stream for good. After END and these each call returns CLOSED.
#[unsafe(no_mangle)]
pub extern "C" fn noise_stream_read(
    stream: &mut NoiseStreamReceiver,
    buffer: &mut [u8],
    results: &mut NoiseStreamResult,
) -> u32
    ensures { ReadsFrame stream.old stream.new buffer.old buffer.new results.old results.new result }
{
    let mut receiver = some_or!(stream_receiver_from_c(stream), STRUCT);
    match receiver.read(buffer) {
        Next::Wants(count) => {
            results.wanted = count;
            MORE
        }
        Next::Payload { from, to, used } => {
            results.from = from;
            results.len = to - from;
            results.used = used;
            *stream = stream_receiver_to_c(receiver);
            OK
        }
        Next::End { used } => {
            results.used = used;
            *stream = stream_receiver_to_c(receiver);
            END
        }
        Next::Refused(cause) => {
            *stream = stream_receiver_to_c(receiver);
            open_code(cause)
        }
        Next::Closed => CLOSED,
    }
}

/// Whether the connection's end truncates the stream, with so many bytes left: OK only where the end has come and none
/// are.
#[unsafe(no_mangle)]
pub extern "C" fn noise_stream_is_cut(stream: &NoiseStreamReceiver, left: usize) -> u32
    ensures { JudgesCut stream.now left result }
{
    let receiver = some_or!(stream_receiver_from_c(stream), STRUCT);
    if receiver.is_cut(left) { CUT } else { OK }
}

/// Makes a frame of the message in the `message_len` bytes of `buffer` from the third on: puts its length in front, in
/// two bytes, the higher first (Noise, 13).
#[unsafe(no_mangle)]
pub extern "C" fn noise_frame_message(
    buffer: &mut [u8],
    message_len: usize,
    results: &mut NoiseStreamResult,
) -> u32
    ensures { FramesMessage message_len buffer.old buffer.new results.old results.new result }
{
    if message_len > MAX_LEN {
        return LENGTH;
    }
    if buffer.len() < HEAD_LEN || buffer.len() - HEAD_LEN < message_len {
        return ROOM;
    }
    results.len = frame_message(buffer, message_len);
    OK
}

/// Looks at the frame that a buffer begins with. MORE reports how many bytes more it wants: first the rest of its
/// length, then that of the message.
#[unsafe(no_mangle)]
pub extern "C" fn noise_frame_find(buffer: &[u8], results: &mut NoiseStreamResult) -> u32
    ensures { FindsFrame buffer.now results.old results.new result }
{
    match next_frame(buffer) {
        Framed::Wants(count) => {
            results.wanted = count;
            MORE
        }
        Framed::Message { from, to } => {
            results.from = from;
            results.len = to - from;
            results.used = to;
            OK
        }
    }
}
