//! Exports: the two halves of a session whose messages are datagrams.

ghost use Rattle.std.specs.Prelude.{length, take, drop};
ghost use Rattle.noise_c.specs.HalfStructs.{ReportsNonce};
ghost use Rattle.noise_c.specs.DatagramStructs.{is_datagram_sender, OpensDatagramInPlace, SealsInto};

use crate::codes::numbers::*;
use crate::codes::{datagram_code, ok_or, seal_code, some_or};
use crate::halves::report_nonce;
use crate::halves_from_c::*;
use crate::structs::{NoiseDatagramReceiver, NoiseDatagramSender, NoiseResult};
use noise_session::limits::{DATAGRAM_OVERHEAD, NONCE_LEN};

/// Seals a payload into the first bytes of `out`, 24 more than it has: the nonce in 8 bytes, the highest first, and the
/// transport message of that nonce (Noise, 11.4).
#[unsafe(no_mangle)]
pub extern "C" fn noise_datagram_seal(
    half: &mut NoiseDatagramSender,
    payload: &[u8],
    out: &mut [u8],
    results: &mut NoiseResult,
) -> u32
    ensures { SealsInto (length payload.now) payload.now
        half.old half.new out.old out.new results.old results.new result }
{
    let mut sender = some_or!(datagram_sender_from_c(half), STRUCT);
    if out.len() < DATAGRAM_OVERHEAD || out.len() - DATAGRAM_OVERHEAD < payload.len() {
        return ROOM;
    }
    let len = ok_or!(sender.seal(payload, out), seal_code);
    results.from = 0;
    results.len = len;
    *half = datagram_sender_to_c(sender);
    OK
}

/// Seals the payload in the `payload_len` bytes of `buffer` from the ninth on, in place (Noise, 11.4).
#[unsafe(no_mangle)]
pub extern "C" fn noise_datagram_seal_in_place(
    half: &mut NoiseDatagramSender,
    buffer: &mut [u8],
    payload_len: usize,
    results: &mut NoiseResult,
) -> u32
    ensures { SealsInto payload_len (take payload_len (drop 8 buffer.old))
        half.old half.new buffer.old buffer.new results.old results.new result }
{
    let mut sender = some_or!(datagram_sender_from_c(half), STRUCT);
    if buffer.len() < DATAGRAM_OVERHEAD || buffer.len() - DATAGRAM_OVERHEAD < payload_len {
        return ROOM;
    }
    let len = ok_or!(sender.seal_in_place(buffer, payload_len), seal_code);
    results.from = 0;
    results.len = len;
    *half = datagram_sender_to_c(sender);
    OK
}

/// Opens a datagram in place: its payload is from the ninth byte on. ONE_WAY, SHORT, TOO_LONG, RESERVED (the nonce that
/// no message has: Noise, 5.1), OLD, REPEATED and TAG are looked for in this order.
#[unsafe(no_mangle)]
pub extern "C" fn noise_datagram_open(
    half: &mut NoiseDatagramReceiver,
    datagram: &mut [u8],
    results: &mut NoiseResult,
) -> u32
    ensures { OpensDatagramInPlace half.old half.new datagram.old datagram.new results.old results.new result }
{
    let mut receiver = some_or!(datagram_receiver_from_c(half), STRUCT);
    let len = ok_or!(receiver.open_within(datagram), datagram_code);
    results.from = NONCE_LEN;
    results.len = len;
    *half = datagram_receiver_to_c(receiver);
    OK
}

/// Reports the nonce of the next datagram that is sealed.
#[unsafe(no_mangle)]
pub extern "C" fn noise_datagram_sender_nonce(half: &NoiseDatagramSender, nonce: &mut u64) -> u32
    ensures { ReportsNonce (is_datagram_sender half.now) half.now.nonce nonce.old nonce.new result }
{
    report_nonce(datagram_sender_from_c(half).is_some(), half.nonce, nonce)
}
