//! Exports: the two halves of a session whose messages come in order.

ghost use Rattle.std.specs.Prelude.{length, take};
ghost use Rattle.noise_c.specs.HalfStructs.{is_half, HalfOpensInPlace, ReportsNonce, Seals};
ghost use Rattle.noise_c.specs.declared.codes.numbers.TheConstants.{RECEIVER, SENDER};

use crate::codes::numbers::{LENGTH, OK, RECEIVER, ROOM, SENDER, STRUCT};
use crate::codes::{ok_or, open_code, seal_code, some_or};
use crate::halves_from_c::{half_from_c, half_to_c};
use crate::structs::{NoiseHalf, NoiseResult};
use noise_session::{Receiver, Sender};
use noise_state::limits::{MAX_LEN, TAG_LEN};

/// Seals a payload into the first bytes of `out`, 16 more than it has (Noise, 5.2). STRUCT at a receiving half too.
#[unsafe(no_mangle)]
pub extern "C" fn noise_seal(
    half: &mut NoiseHalf,
    payload: &[u8],
    out: &mut [u8],
    results: &mut NoiseResult,
) -> u32
    ensures { Seals (length payload.now) payload.now half.old half.new out.old out.new results.old results.new result }
{
    let parts = some_or!(half_from_c(half, SENDER), STRUCT);
    if out.len() < TAG_LEN || out.len() - TAG_LEN < payload.len() {
        return ROOM;
    }
    let mut sender = Sender::from_parts(parts);
    let len = ok_or!(sender.seal(payload, out), seal_code);
    results.from = 0;
    results.len = len;
    *half = half_to_c(sender.into_parts(), SENDER);
    OK
}

/// Seals the payload in the first `payload_len` bytes of `buffer` in place (Noise, 5.2).
#[unsafe(no_mangle)]
pub extern "C" fn noise_seal_in_place(
    half: &mut NoiseHalf,
    buffer: &mut [u8],
    payload_len: usize,
    results: &mut NoiseResult,
) -> u32
    ensures { Seals payload_len (take payload_len buffer.old)
        half.old half.new buffer.old buffer.new results.old results.new result }
{
    let parts = some_or!(half_from_c(half, SENDER), STRUCT);
    if buffer.len() < TAG_LEN || buffer.len() - TAG_LEN < payload_len {
        return ROOM;
    }
    let mut sender = Sender::from_parts(parts);
    let len = ok_or!(sender.seal_in_place(buffer, payload_len), seal_code);
    results.from = 0;
    results.len = len;
    *half = half_to_c(sender.into_parts(), SENDER);
    OK
}

/// Opens a message in place: its first bytes are then the payload (Noise, 5.2). STRUCT at a sending half too; LENGTH,
/// ONE_WAY, EXHAUSTED, SHORT and TAG are looked for in this order.
#[unsafe(no_mangle)]
pub extern "C" fn noise_open(
    half: &mut NoiseHalf,
    message: &mut [u8],
    results: &mut NoiseResult,
) -> u32
    ensures { HalfOpensInPlace half.old half.new message.old message.new results.old results.new result }
{
    let parts = some_or!(half_from_c(half, RECEIVER), STRUCT);
    if message.len() > MAX_LEN {
        return LENGTH;
    }
    let mut receiver = Receiver::from_parts(parts);
    let len = ok_or!(receiver.open_within(message), open_code);
    results.from = 0;
    results.len = len;
    *half = half_to_c(receiver.into_parts(), RECEIVER);
    OK
}

// Reports the nonce, if the struct is one that a call has left.
pub(crate) fn report_nonce(known: bool, next: u64, nonce: &mut u64) -> u32
    ensures { ReportsNonce known next nonce.old nonce.new result }
{
    if !known {
        return STRUCT;
    }
    *nonce = next;
    OK
}

/// Reports the nonce of the next message that is sealed.
#[unsafe(no_mangle)]
pub extern "C" fn noise_sender_nonce(half: &NoiseHalf, nonce: &mut u64) -> u32
    ensures { ReportsNonce (is_half SENDER half.now) half.now.nonce nonce.old nonce.new result }
{
    report_nonce(half_from_c(half, SENDER).is_some(), half.nonce, nonce)
}

/// Reports the nonce of the next message that is opened.
#[unsafe(no_mangle)]
pub extern "C" fn noise_receiver_nonce(half: &NoiseHalf, nonce: &mut u64) -> u32
    ensures { ReportsNonce (is_half RECEIVER half.now) half.now.nonce nonce.old nonce.new result }
{
    report_nonce(half_from_c(half, RECEIVER).is_some(), half.nonce, nonce)
}
