//! Two programs that write and read streams by the C calls, turn by turn, over a network that brings any bytes. No
//! export calls it, and the static library has none of it.

ghost use Rattle.std.specs.Prelude.{◌≡◌, ◌⊎◌, List, true, IfOk, IfSome, IsSome, MatchOption};
ghost use Rattle.noise_names.specs.Plan.{Plan};
ghost use Rattle.noise_handshake.specs.Party.{Party};
ghost use Rattle.noise_duel.specs.Messages.{HandshakeMessage, Start};
ghost use Rattle.noise_channel.specs.Finished.{ForgedOrTwice, HaveFinished};
ghost use Rattle.noise_c.specs.declared.codes.numbers.TheConstants.{OK};
ghost use Rattle.noise_c.specs.DhResults.{DhResults, with_dh_results};
ghost use Rattle.noise_c.specs.Finishing.{Finishes};
ghost use Rattle.noise_c.specs.HandshakeStructs.{KeepsParty};
ghost use Rattle.noise_c.specs.StreamStructs.{is_stream_receiver};
ghost use Rattle.noise_c.specs.StreamSteps.{Begins, BothBegin, EndsStream, ReadsStream, StreamsAreMade, TakesTurn, WritesStream};
ghost use Rattle.noise_c.specs.TwoStreams.{FaceInStreams, StreamsRight};

use crate::codes::numbers::{FRAME_OVERHEAD, OK};
use crate::reading::{NO_RECEIVER, NO_SENDER, is_whole, read_stream_to};
use crate::split::noise_finish_stream;
use crate::streams::{noise_stream_end, noise_stream_write};
use crate::structs::{NoiseHandshake, NoiseStreamResult};
pub use crate::structs::{NoiseStreamReceiver, NoiseStreamSender};
use noise_channel::laws::{calls_make_stream, finished_is_one, prefix_or_forged, stream_arrives};
use noise_duel::laws::history_follows;
use noise_session::limits::PAYLOAD_MAX;
use std::alloc::{AllocError, Global};

/// What a program does in its turn: it writes this payload, ends its stream, or takes these bytes from the network and
/// reads all that it can.
#[derive(Drop)]
pub enum StreamTurn {
    Write(Vec<u8>),
    End,
    Read(Vec<u8>),
}

/// One direction. Of its writer: the half as it began and as it is, what its calls took, whether they ended the stream,
/// and the bytes that they put on the network. Of its reader: the half as it began and as it is, the bytes that came
/// from the network, those of them that aren't used yet, what it handed out, and whether that is said to be the whole
/// stream (`noise_stream_is_cut`).
#[derive(Drop)]
pub struct Stream {
    pub first_sender: NoiseStreamSender,
    pub sender: NoiseStreamSender,
    pub written: Vec<u8>,
    pub ended: bool,
    pub put: Vec<u8>,
    pub first_receiver: NoiseStreamReceiver,
    pub receiver: NoiseStreamReceiver,
    pub came: Vec<u8>,
    pub left: Vec<u8>,
    pub handed_out: Vec<u8>,
    pub whole: bool,
}

/// Both directions: `there` is that from the initiator to the responder.
#[derive(Drop)]
pub struct Streams {
    pub there: Stream,
    pub back: Stream,
}

const NO_STREAM_RESULT: NoiseStreamResult = NoiseStreamResult {
    from: 0,
    len: 0,
    used: 0,
    wanted: 0,
};

// A direction between two halves, in which nothing is written or read yet.
fn new_stream(alloc: Global, sender: &NoiseStreamSender, receiver: &NoiseStreamReceiver) -> Stream
    ensures { Begins sender.now receiver.now result }
{
    Stream {
        first_sender: *sender,
        sender: *sender,
        written: Vec::new(alloc),
        ended: false,
        put: Vec::new(alloc),
        first_receiver: *receiver,
        receiver: *receiver,
        came: Vec::new(alloc),
        left: Vec::new(alloc),
        handed_out: Vec::new(alloc),
        whole: false,
    }
}

// The directions between two handshakes, if both finish.
fn begin_streams(
    alloc: Global,
    a: &mut NoiseHandshake,
    b: &mut NoiseHandshake,
    interval: u64,
) -> Option<(Stream, Stream)>
    ensures { MatchOption result (Finishes a.old OK → Finishes b.old OK → ⊥)
        (λ r. BothBegin a.old a.new b.old b.new interval r.0 r.1) }
{
    let mut sender = NO_SENDER;
    let mut receiver = NO_RECEIVER;
    let mut their_sender = NO_SENDER;
    let mut their_receiver = NO_RECEIVER;
    if noise_finish_stream(a, interval, &mut sender, &mut receiver) != OK {
        return None;
    }
    if noise_finish_stream(b, interval, &mut their_sender, &mut their_receiver) != OK {
        return None;
    }
    let there = new_stream(alloc, &sender, &their_receiver);
    let back = new_stream(alloc, &their_sender, &receiver);
    Some((there, back))
}

// Writes the first bytes of a payload, as one call does, and puts their frame on the network.
fn write(alloc: Global, stream: &mut Stream, payload: &[u8]) -> Result<(), AllocError>
    ensures { IfOk result (λ _. WritesStream payload.now stream.old stream.new) }
{
    let mut out = vec![in alloc; 0u8; payload.len().min(PAYLOAD_MAX) + FRAME_OVERHEAD]?;
    let mut results = NO_STREAM_RESULT;
    if noise_stream_write(&mut stream.sender, payload, &mut out, &mut results) == OK {
        stream.put.extend_from_slice(&out[..results.len])?;
        stream.written.extend_from_slice(&payload[..results.used])?;
    }
    Ok(())
}

// Ends the stream, and puts the end on the network.
fn end(stream: &mut Stream) -> Result<(), AllocError>
    ensures { IfOk result (λ _. EndsStream stream.old stream.new) }
{
    let mut out = [0; 18];
    let mut results = NO_STREAM_RESULT;
    if noise_stream_end(&mut stream.sender, &mut out, &mut results) == OK {
        stream.put.extend_from_slice(&out)?;
        stream.ended = true;
    }
    Ok(())
}

// Reads all that can be read once these bytes have come.
fn read(alloc: Global, stream: &mut Stream, bytes: &[u8]) -> Result<(), AllocError>
    requires known { is_stream_receiver stream.old.receiver ≡ true }
    ensures { IfOk result (λ _. ReadsStream bytes.now stream.old stream.new) }
{
    let mut buffer = Vec::from_slice(alloc, &stream.left)?;
    buffer.extend_from_slice(bytes)?;
    let left = read_stream_to(&mut stream.receiver, &mut buffer, &mut stream.handed_out)?;
    stream.came.extend_from_slice(bytes)?;
    stream.left = Vec::from_slice(alloc, &buffer[buffer.len() - left..])?;
    stream.whole = is_whole(&stream.receiver, left);
    Ok(())
}

// Takes a turn of the program that writes in the one direction and reads in the other.
fn take_turn(
    alloc: Global,
    out: &mut Stream,
    into: &mut Stream,
    turn: &StreamTurn,
) -> Result<(), AllocError>
    requires known { is_stream_receiver into.old.receiver ≡ true }
    ensures { IfOk result (λ _. TakesTurn turn.now out.old out.new into.old into.new) }
{
    match turn {
        StreamTurn::Write(payload) => write(alloc, out, payload),
        StreamTurn::End => end(out),
        StreamTurn::Read(bytes) => read(alloc, into, bytes),
    }
}

/// Runs two programs whose handshakes have finished, turn by turn, in which they write and read streams: the initiator
/// takes the turns whose flag is `false`. None where a handshake doesn't finish.
///
/// Whatever bytes come: what each hands out is a front of what the other wrote, and all of it where that is said to be
/// the whole stream; or a frame was forged at a named place. Where all came that the other put on the network,
/// unaltered, it is all.
pub fn run_streams(
    alloc: Global,
    initiator: &mut NoiseHandshake,
    responder: &mut NoiseHandshake,
    interval: u64,
    turns: &[(bool, StreamTurn)],
) -> Result<Option<Streams>, AllocError>
    ensures made { IfOk result (λ one. IfSome one
        (StreamsAreMade initiator.old initiator.new responder.old responder.new interval turns.now)) }
    ensures finishes { Finishes initiator.old OK → Finishes responder.old OK → IfOk result (λ one. IsSome one) }
    ensures finished { (p : Plan) (a b : Start) (ps qs : List HandshakeMessage) (v w : Party)
        (handed_in handed_in_too : DhResults)
        → HaveFinished p a b ps qs v w → KeepsParty initiator.old p (with_dh_results v handed_in)
        → KeepsParty responder.old p (with_dh_results w handed_in_too)
        → IfOk result (λ one. IfSome one (λ r. FaceInStreams r ⊎ ForgedOrTwice p a b ps qs)) }
    ensures right { StreamsRight interval result }
{
    calls_make_stream();
    prefix_or_forged();
    stream_arrives();
    finished_is_one();
    history_follows();
    let Some((mut there, mut back)) = begin_streams(alloc, initiator, responder, interval) else {
        return Ok(None);
    };
    'turns: for (is_responder, turn) in turns {
        if *is_responder {
            take_turn(alloc, &mut back, &mut there, turn)?;
        } else {
            take_turn(alloc, &mut there, &mut back, turn)?;
        }
    }
    Ok(Some(Streams { there, back }))
}
