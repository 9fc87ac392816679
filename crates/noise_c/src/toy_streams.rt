//! Two programs in one function, with keys for tests: after their handshake the one writes a stream, and the other reads
//! it. So what the theorem on streams asks for can be met. No export calls it, and the static library has none of it.

ghost use Rattle.std.specs.Prelude.{◌≡◌, ◌≤◌, ◌<◌, ◌+◌, ◌++◌, IfOk, IfSome, MatchOption, OnErr, length, take, vec_capacity, vec_len, true};
ghost use Rattle.noise_session.specs.TransportValue.{transport_of};
ghost use Rattle.noise_c.specs.FinishedPrograms.{HaveBothFinished, IsDone, IsStreamOf};
ghost use Rattle.noise_c.specs.HandshakeStructs.{ForParty};

use crate::codes::numbers::OK;
use crate::patterns::pattern_of_name;
use crate::progress::noise_stage;
use crate::reading::{NO_RECEIVER, NO_SENDER, read_after_finish};
use crate::split::noise_finish_stream;
use crate::streams::{noise_stream_end, noise_stream_write};
use crate::structs::{NoiseHandshake, NoiseStageResult, NoiseStreamResult};
use crate::toys::{begin, pass};
use crate::two_programs::{programs_finish, two_programs_agree};
use noise_channel::laws::outgoing_is_incoming;
use noise_handshake::laws::{setup_is_whole, xor_keys_agree};
use noise_handshake::{Keys, XorKeys, psk_total};
use std::alloc::AllocError;

// Whether all messages of a handshake have passed, and left a key.
fn is_done(handshake: &NoiseHandshake) -> bool
    ensures { result ≡ true → IsDone handshake.now }
{
    let mut stage = NoiseStageResult {
        messages: 0,
        passed: 0,
        ended: 0,
        writes_next: 0,
    };
    if noise_stage(handshake, &mut stage) != OK || stage.passed != stage.messages {
        return false;
    }
    stage.passed >= 1 && handshake.cipher.present >= 1
}

/// Both programs of the pattern XX once all messages have passed, the initiator first; nothing where the buffer was too
/// short, or a key is missing.
pub fn finish_both(
    initiator: &XorKeys,
    responder: &XorKeys,
    buffer: &mut [u8],
) -> Option<(NoiseHandshake, NoiseHandshake)>
    ensures { IfSome result (λ r. HaveBothFinished r.0 r.1) }
{
    two_programs_agree();
    programs_finish();
    setup_is_whole();
    xor_keys_agree();
    let name = b"Noise_XX_25519_ChaChaPoly_SHA256";
    let pattern = pattern_of_name(name)?;
    if psk_total(pattern.messages()) != 0 {
        return None;
    }
    let mut a = begin(name, 0, initiator)?;
    let mut b = begin(name, 1, responder)?;
    pass(&mut a, initiator, &mut b, responder, &[], buffer)?;
    pass(&mut b, responder, &mut a, initiator, &[], buffer)?;
    pass(&mut a, initiator, &mut b, responder, &[], buffer)?;
    if !is_done(&a) || !is_done(&b) {
        return None;
    }
    Some((a, b))
}

// Finishes a handshake, writes this text and the end of the stream to the front of the buffer, and returns how many
// bytes that is. The text has to fit into one frame.
fn write_stream(
    handshake: &mut NoiseHandshake,
    text: &[u8],
    interval: u64,
    buffer: &mut [u8],
) -> Option<usize>
    ensures { IfSome result (λ n. (n ≤ length buffer.new)
        × ForParty handshake.old (λ _ v. IsStreamOf (transport_of v interval) text.now (take n buffer.new))) }
{
    let mut sender = NO_SENDER;
    let mut receiver = NO_RECEIVER;
    if noise_finish_stream(handshake, interval, &mut sender, &mut receiver) != OK {
        return None;
    }
    let mut results = NoiseStreamResult {
        from: 0,
        len: 0,
        used: 0,
        wanted: 0,
    };
    if noise_stream_write(&mut sender, text, buffer, &mut results) != OK
        || results.used != text.len()
    {
        return None;
    }
    let written = results.len;
    if written > buffer.len() {
        return None;
    }
    if noise_stream_end(&mut sender, &mut buffer[written..], &mut results) != OK {
        return None;
    }
    Some(written + results.len)
}

/// Both programs of the pattern XX, in one function, with keys for tests: after the handshake the initiator writes this
/// text as a stream and ends it, and the responder appends to `out` what it reads (`read_after_finish`): all of the
/// text. Returns whether that is said to be the whole stream, which it is; nothing where the buffer was too short, or a
/// key is missing.
pub fn send_stream(
    initiator: &XorKeys,
    responder: &XorKeys,
    text: &[u8],
    interval: u64,
    buffer: &mut [u8],
    out: &mut Vec<u8>,
) -> Result<Option<bool>, AllocError>
    ensures sent { IfOk result (λ o. MatchOption o (out.new.items ≡ out.old.items)
        (λ whole. (out.new.items ≡ out.old.items ++ text.now) × (whole ≡ true))) }
    ensures full { OnErr result (vec_capacity out.old < vec_len out.old + length buffer.old) }
    ensures unchanged { OnErr result (out.new.items ≡ out.old.items) }
{
    outgoing_is_incoming();
    let Some((mut a, mut b)) = finish_both(initiator, responder, buffer) else {
        return Ok(None);
    };
    let Some(len) = write_stream(&mut a, text, interval, buffer) else {
        return Ok(None);
    };
    let whole = read_after_finish(&mut b, interval, &mut buffer[..len], out)?;
    Ok(Some(whole))
}
