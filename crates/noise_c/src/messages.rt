//! Exports: writing and reading the messages of a handshake.

ghost use Rattle.std.specs.Prelude.{◌≡◌, ◌≤◌, ◌<◌, ◌⊎◌, ◌↔◌, length, true, false};
ghost use Rattle.noise_c.specs.HandshakeStructs.{IsUsable, KeepsPsks, KeepsRest, ReportsDhResult, ReportsRemote, ReportsWant};
ghost use Rattle.noise_c.specs.Outcomes.{AsksToRead, AsksToWrite, ReadOutcome, RefusesRoom, WriteOutcome};
ghost use Rattle.noise_c.specs.declared.codes.numbers.TheConstants.{ENDED, LENGTH, OK, STRUCT, WANTED, WANTED_PSK};

use crate::codes::numbers::{LENGTH, OK, ROOM, SHORT, STRUCT, TAG, WANTED, WANTED_PSK};
use crate::codes::{read_code, some_or, write_code};
use crate::from_c::{handshake_from_c, store_progress};
use crate::structs::{NoiseHandshake, NoiseResult};
use crate::supplied_keys::{key_to_c, own_to_c};
use noise_handshake::{ReadFault, Unread, Unwritten, Want};
use noise_state::limits::MAX_LEN;

// Reports what is wanted, and returns the number of that.
fn report_want(want: Want, results: &mut NoiseResult) -> u32
    ensures want { ReportsWant want results.new result }
    ensures answer { result ≡ WANTED → ReportsDhResult results.old results.new }
    ensures remote { result ≡ WANTED_PSK → ReportsRemote results.old results.new }
{
    match want {
        Want::DhResult { own, key } => {
            results.of_static = own_to_c(own);
            results.remote = key;
            WANTED
        }
        Want::Psk { remote } => {
            let key = key_to_c(remote);
            let bytes = key.bytes;
            results.remote = bytes;
            results.remote_known = key.present;
            WANTED_PSK
        }
    }
}

/// Writes a message to the front of `out`, and reports its length. ROOM reports the length that `out` is too short for,
/// WANTED the DH result that is lacking, and WANTED_PSK the other party's static key where a psk is lacking: hand in
/// what is wanted, and call again. After each number but OK `out` is as it was.
#[unsafe(no_mangle)]
pub extern "C" fn noise_write(
    handshake: &mut NoiseHandshake,
    payload: &[u8],
    out: &mut [u8],
    results: &mut NoiseResult,
) -> u32
    ensures unusable { result ≡ STRUCT ↔ (IsUsable handshake.old → ⊥) }
    ensures outcome { WriteOutcome handshake.old payload.now out.old results.old
        handshake.new out.new results.new result }
    ensures held { result ≡ OK → KeepsPsks handshake.old handshake.new }
    ensures rest { result ≡ OK → KeepsRest handshake.old handshake.new }
    ensures short { RefusesRoom handshake.old (length payload.now) (length out.old) result }
    ensures asked { AsksToWrite handshake.old (length payload.now) (length out.old) result }
{
    let mut state = some_or!(handshake_from_c(handshake), STRUCT);
    if let Some(needed) = state.message_len(payload.len()) {
        if needed > out.len() {
            results.len = needed;
            return ROOM;
        }
    }
    match state.write_or_ask(payload, out) {
        Ok(len) => {
            results.from = 0;
            results.len = len;
            let left = state.psks().len() as u8;
            store_progress(&state.progress(), left, handshake);
            OK
        }
        Err(Unwritten::Wants(want)) => report_want(want, results),
        Err(Unwritten::Withheld(fault)) => write_code(fault),
    }
}

/// Reads a message in place, and reports where its payload is. WANTED and WANTED_PSK are as for `noise_write`; the
/// static key is reported as it is known before the psk token, also from this message. A refusal ends the handshake.
#[unsafe(no_mangle)]
pub extern "C" fn noise_read(
    handshake: &mut NoiseHandshake,
    message: &mut [u8],
    results: &mut NoiseResult,
) -> u32
    ensures unusable { result ≡ STRUCT ↔ (IsUsable handshake.old → ⊥) }
    ensures length { result ≡ LENGTH ↔ ((65535 < length message.old) × IsUsable handshake.old) }
    ensures outcome { ReadOutcome true handshake.old message.old results.old
        handshake.new message.new results.new result }
    ensures held { result ≡ OK → KeepsPsks handshake.old handshake.new }
    ensures rest { result ≡ OK → KeepsRest handshake.old handshake.new }
    ensures left { (result ≤ ENDED) ⊎ (WANTED ≤ result) → OK < result → handshake.new ≡ handshake.old }
    ensures asked { AsksToRead handshake.old message.old results.new result }
{
    let code = read_next(handshake, message, results);
    if SHORT <= code && code <= TAG {
        handshake.ended = 1;
    }
    code
}

/// Reads a message as `noise_read` does, but a refusal leaves the handshake and the message as they were: for messages
/// that a stranger can send.
#[unsafe(no_mangle)]
pub extern "C" fn noise_try_read(
    handshake: &mut NoiseHandshake,
    message: &mut [u8],
    results: &mut NoiseResult,
) -> u32
    ensures unusable { result ≡ STRUCT ↔ (IsUsable handshake.old → ⊥) }
    ensures length { result ≡ LENGTH ↔ ((65535 < length message.old) × IsUsable handshake.old) }
    ensures outcome { ReadOutcome false handshake.old message.old results.old
        handshake.new message.new results.new result }
    ensures held { result ≡ OK → KeepsPsks handshake.old handshake.new }
    ensures rest { result ≡ OK → KeepsRest handshake.old handshake.new }
    ensures unchanged { OK < result → (handshake.new ≡ handshake.old) × (message.new ≡ message.old) }
    ensures asked { AsksToRead handshake.old message.old results.new result }
{
    read_next(handshake, message, results)
}

// Reads a message. What isn't accepted leaves the handshake and the message as they were.
fn read_next(handshake: &mut NoiseHandshake, message: &mut [u8], results: &mut NoiseResult) -> u32
    ensures unusable { result ≡ STRUCT ↔ (IsUsable handshake.old → ⊥) }
    ensures length { result ≡ LENGTH ↔ ((65535 < length message.old) × IsUsable handshake.old) }
    ensures outcome { ReadOutcome false handshake.old message.old results.old
        handshake.new message.new results.new result }
    ensures held { result ≡ OK → KeepsPsks handshake.old handshake.new }
    ensures rest { result ≡ OK → KeepsRest handshake.old handshake.new }
    ensures unchanged { OK < result → (handshake.new ≡ handshake.old) × (message.new ≡ message.old) }
    ensures asked { AsksToRead handshake.old message.old results.new result }
{
    let mut state = some_or!(handshake_from_c(handshake), STRUCT);
    if message.len() > MAX_LEN {
        return LENGTH;
    }
    match state.read_or_ask(message) {
        Ok((start, end)) => {
            results.from = start;
            results.len = end - start;
            let held = state.psks().len() as u8;
            store_progress(&state.progress(), held, handshake);
            OK
        }
        Err(Unread::Wants(want)) => report_want(want, results),
        Err(Unread::Declined(fault)) => {
            let code = read_code(fault);
            if let ReadFault::Refused { token, .. } = fault {
                results.token = token;
            }
            code
        }
    }
}
