//! Two programs in one function, with keys for tests: what the law of two programs asks for can be met. No export calls
//! it, and the static library has none of it.

ghost use Rattle.std.specs.Prelude.{◌≡◌, ◌+◌, ◌∷◌, [], ◌≤◌, Option, IfSome, None, slice_range, take, true, length};
ghost use Rattle.noise_names.specs.Plan.{Plan};
ghost use Rattle.noise_names.specs.Validity.{IsValid};
ghost use Rattle.noise_c.specs.HandshakeStructs.{fault_in, IsPatternOf, IsStarted};
ghost use Rattle.noise_c.specs.Finishing.{AreHalvesOf};
ghost use Rattle.noise_c.specs.Toys.{Leads, Passes, toy_setup};
ghost use Rattle.noise_c.specs.TwoPrograms.{Face};

use crate::codes::numbers::{OK, WANTED};
use crate::late::noise_answer;
use crate::messages::{noise_read, noise_write};
use crate::reading::NO_HALF;
use crate::split::noise_finish;
use crate::start::noise_start;
use crate::structs::{NoiseAnswer, NoiseHalf, NoiseHandshake, NoiseKey, NoiseResult, NoiseSetup};
use crate::supplied_keys::{NO_DH_RESULT, key_to_c, own_of};
use crate::two_programs::two_programs_agree;
use noise_handshake::laws::{setup_is_whole, xor_keys_agree};
use noise_handshake::{Keys, XorKeys};

// Memory for a key, and for a handshake.
pub(crate) const NO_KEY: NoiseKey = NoiseKey {
    present: 0,
    bytes: [0; 32],
};

pub(crate) const NO_HANDSHAKE: NoiseHandshake = NoiseHandshake {
    mark: 0,
    text: [0; 416],
    text_len: 0,
    responder: 0,
    ended: 0,
    passed: 0,
    e: NO_KEY,
    s: NO_KEY,
    remote_e: NO_KEY,
    remote_s: NO_KEY,
    psk_count: 0,
    psks: [[0; 32]; 9],
    answer_count: 0,
    answers: [NO_DH_RESULT; 8],
    chaining_key: [0; 32],
    hash: [0; 32],
    cipher: NO_KEY,
    nonce: 0,
};

// Starts the handshake of a program with these keys, without a prologue, psks or keys of the other party.
pub(crate) fn begin(name: &[u8], responder: u8, keys: &XorKeys) -> Option<NoiseHandshake>
    ensures started { IfSome result (λ k. IsStarted name.now [] (toy_setup responder keys.now) k) }
    ensures fault { IfSome result (λ _. (p : Plan) → IsPatternOf name.now p → IsValid p
        → fault_in p (toy_setup responder keys.now) ≡ None) }
{
    let setup = NoiseSetup {
        responder,
        e: key_to_c(keys.e),
        s: key_to_c(keys.s),
        remote_e: key_to_c(None),
        remote_s: key_to_c(None),
        psk_count: 0,
        psks: [[0; 32]; 9],
    };
    let mut handshake = NO_HANDSHAKE;
    if noise_start(&mut handshake, name, &[], &setup) != OK {
        return None;
    }
    Some(handshake)
}

// Hands in the DH result that a call wants, if there is room for it.
fn answer(handshake: &mut NoiseHandshake, keys: &XorKeys, results: &NoiseResult) -> bool
    ensures { result ≡ true → Leads keys.now handshake.old [] [] handshake.new }
{
    if handshake.answer_count >= 8 {
        return false;
    }
    let Some(result) = keys.agree(own_of(results.of_static), &results.remote) else {
        return false;
    };
    noise_answer(handshake, results.of_static, &results.remote, &result) == OK
}

// Writes a message with this payload to the front of `out`, and returns its length.
fn write(
    handshake: &mut NoiseHandshake,
    keys: &XorKeys,
    payload: &[u8],
    out: &mut [u8],
) -> Option<usize>
    ensures { IfSome result (λ n. (n ≤ length out.new) × Leads keys.now handshake.old
        (record { message = take n out.new; payload = payload.now } ∷ []) [] handshake.new) }
{
    let mut results = NO_RESULT;
    'asked: for _ in 0..9 {
        match noise_write(handshake, payload, out, &mut results) {
            OK => return Some(results.len),
            WANTED if answer(handshake, keys, &results) => {}
            _ => return None,
        }
    }
    None
}

// Reads a message in place, and returns where its payload begins and how long it is.
fn read(
    handshake: &mut NoiseHandshake,
    keys: &XorKeys,
    message: &mut [u8],
) -> Option<(usize, usize)>
    ensures { IfSome result (λ r. (r.0 + r.1 ≤ length message.new) × Leads keys.now handshake.old []
        (record { message = message.old; payload = slice_range message.new r.0 (r.0 + r.1) } ∷ []) handshake.new) }
{
    let mut results = NO_RESULT;
    'asked: for _ in 0..9 {
        match noise_read(handshake, message, &mut results) {
            OK => return Some((results.from, results.len)),
            WANTED if answer(handshake, keys, &results) => {}
            _ => return None,
        }
    }
    None
}

// Memory for what a call reports.
pub(crate) const NO_RESULT: NoiseResult = NoiseResult {
    from: 0,
    len: 0,
    token: 0,
    of_static: 0,
    remote: [0; 32],
    remote_known: 0,
};

// Passes one message with this payload from one program to the other, and returns where its payload then is.
pub(crate) fn pass(
    from: &mut NoiseHandshake,
    keys: &XorKeys,
    to: &mut NoiseHandshake,
    their_keys: &XorKeys,
    payload: &[u8],
    buffer: &mut [u8],
) -> Option<(usize, usize)>
    ensures { IfSome result (λ r. Passes keys.now their_keys.now payload.now
        (slice_range buffer.new r.0 (r.0 + r.1)) from.old from.new to.old to.new) }
{
    let len = write(from, keys, payload, buffer)?;
    let place = read(to, their_keys, &mut buffer[..len])?;
    Some(place)
}

/// What two programs have at the end: where the last payload is in the buffer, the handshake hash of each, and the
/// halves of each, the sending one first.
#[derive(Drop)]
pub struct Talked {
    pub from: usize,
    pub len: usize,
    pub hash: [u8; 32],
    pub their_hash: [u8; 32],
    pub sender: NoiseHalf,
    pub receiver: NoiseHalf,
    pub their_sender: NoiseHalf,
    pub their_receiver: NoiseHalf,
}

/// Both programs of the pattern XX, in one function, with keys for tests: each message has this payload, and is written
/// to the buffer, where the other program reads it. Where nothing is returned the buffer was too short, or a key is
/// missing.
pub fn talk(
    initiator: &XorKeys,
    responder: &XorKeys,
    payload: &[u8],
    interval: u64,
    buffer: &mut [u8],
) -> Option<Talked>
    ensures payload { IfSome result (λ t. slice_range buffer.new t.from (t.from + t.len) ≡ payload.now) }
    ensures hash { IfSome result (λ t. t.hash ≡ t.their_hash) }
    ensures halves { IfSome result (λ t. Face t.sender t.receiver t.their_sender t.their_receiver) }
{
    two_programs_agree();
    setup_is_whole();
    xor_keys_agree();
    let name = b"Noise_XX_25519_ChaChaPoly_SHA256";
    let mut a = begin(name, 0, initiator)?;
    let mut b = begin(name, 1, responder)?;
    pass(&mut a, initiator, &mut b, responder, payload, buffer)?;
    pass(&mut b, responder, &mut a, initiator, payload, buffer)?;
    let (from, len) = pass(&mut a, initiator, &mut b, responder, payload, buffer)?;
    if a.passed != b.passed {
        return None;
    }
    let (hash, their_hash) = (a.hash, b.hash);
    let (sender, receiver) = halves_of(&mut a, interval)?;
    let (their_sender, their_receiver) = halves_of(&mut b, interval)?;
    Some(Talked {
        from,
        len,
        hash,
        their_hash,
        sender,
        receiver,
        their_sender,
        their_receiver,
    })
}

// Finishes a handshake, and returns its halves, the sending one first.
fn halves_of(handshake: &mut NoiseHandshake, interval: u64) -> Option<(NoiseHalf, NoiseHalf)>
    ensures { IfSome result (λ r. AreHalvesOf handshake.old interval r.0 r.1) }
{
    let mut sender = NO_HALF;
    let mut receiver = NO_HALF;
    if noise_finish(handshake, interval, &mut sender, &mut receiver) != OK {
        return None;
    }
    Some((sender, receiver))
}
