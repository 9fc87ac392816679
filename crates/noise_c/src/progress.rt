//! Exports: what a handshake reports of itself.

ghost use Rattle.std.specs.Prelude.{◌≡◌};
ghost use Rattle.noise_c.specs.HandshakeStructs.{key_from_c, key_to_c, handshake_from_c, ForPattern, ForParty, IsQuery, IsUsable, ReportsMessageLen, ReportsStage};

use crate::codes::numbers::{NOT_DUE, OK, STRUCT};
use crate::codes::some_or;
use crate::from_c::handshake_from_c;
use crate::structs::{NoiseHandshake, NoiseKey, NoiseStageResult};
use crate::supplied_keys::key_to_c;

/// Reports how long the next message is with a payload of this length, both in bytes: NOT_DUE where none would be
/// written.
#[unsafe(no_mangle)]
pub extern "C" fn noise_message_len(
    handshake: &NoiseHandshake,
    payload_len: usize,
    len: &mut usize,
) -> u32
    ensures { ReportsMessageLen handshake.now payload_len len.old len.new result }
{
    let state = some_or!(handshake_from_c(handshake), STRUCT);
    *len = some_or!(state.message_len(payload_len), NOT_DUE);
    OK
}

/// Gives the handshake hash (Noise, 11.2), of the start and the messages that passed.
#[unsafe(no_mangle)]
pub extern "C" fn noise_hash(handshake: &NoiseHandshake, out: &mut [u8; 32]) -> u32
    ensures code { IsQuery (IsUsable handshake.now) result (out.new ≡ out.old) }
    ensures value { result ≡ OK → out.new ≡ handshake.now.hash }
    ensures hash { result ≡ OK → ForParty handshake.now (λ _ v. out.new ≡ v.state.hash) }
{
    if handshake_from_c(handshake).is_none() {
        return STRUCT;
    }
    *out = handshake.hash;
    OK
}

/// Gives the other party's static public key, if its pre-message or the messages that passed have it.
#[unsafe(no_mangle)]
pub extern "C" fn noise_remote_static(handshake: &NoiseHandshake, key: &mut NoiseKey) -> u32
    ensures code { IsQuery (IsUsable handshake.now) result (key.new ≡ key.old) }
    ensures value { result ≡ OK → key.new ≡ key_to_c (key_from_c handshake.now.remote_s) }
    ensures key { result ≡ OK → ForParty handshake.now (λ _ v. key.new ≡ key_to_c v.remote.s) }
{
    let state = some_or!(handshake_from_c(handshake), STRUCT);
    *key = key_to_c(state.remote_static());
    OK
}

/// Reports how many messages the pattern has and how many have passed, if it has ended, and whose turn it is.
#[unsafe(no_mangle)]
pub extern "C" fn noise_stage(handshake: &NoiseHandshake, results: &mut NoiseStageResult) -> u32
    ensures code { IsQuery (IsUsable handshake.now) result (results.new ≡ results.old) }
    ensures reported { result ≡ OK
        → ForPattern handshake.now (λ p. ReportsStage (handshake_from_c p handshake.now) results.new) }
{
    let state = some_or!(handshake_from_c(handshake), STRUCT);
    results.messages = state.pattern().pattern().messages().len() as u8;
    results.passed = state.done();
    results.ended = u8::from(state.ended());
    results.writes_next = u8::from(state.writes_next());
    OK
}
