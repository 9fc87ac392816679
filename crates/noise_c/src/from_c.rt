//! From C's struct to a handshake, and back.

ghost use Rattle.std.specs.Prelude.{◌≡◌, ◌≤◌, ◌-◌, ◌↔◌, length, drop, IfSome, IsSome};
ghost use Rattle.noise_handshake.specs.Parts.{held_of};
ghost use Rattle.noise_handshake.specs.Late.{IsLateWhole};
ghost use Rattle.noise_names.specs.Plan.{Plan};
ghost use Rattle.noise_c.specs.HandshakeStructs.{pairs_in, role_in, text_from_c, handshake_from_c, IsPatternOf, IsUsable, StoresProgress};

use crate::codes::numbers::HANDSHAKE;
use crate::patterns::pattern_of;
use crate::structs::NoiseHandshake;
use crate::supplied_keys::{SuppliedKeys, key_of, key_to_c};
use noise_handshake::{Handshake, Parts, Progress, Remote};
use noise_names::{Role, ValidPattern};
use noise_state::StateParts;

pub(crate) fn role_of(responder: u8) -> Role
    ensures { result ≡ role_in responder }
{
    if responder == 0 {
        Role::Initiator
    } else {
        Role::Responder
    }
}

// The handshake's parts, of this pattern.
fn parts_of<'a>(handshake: &'a NoiseHandshake, pattern: ValidPattern) -> Parts<SuppliedKeys<'a>>
    requires answers { handshake.now.answer_count ≤ 8 }
    ensures value { held_of result (drop (9 - handshake.now.psk_count) handshake.now.psks)
        ≡ handshake_from_c pattern handshake.now }
{
    Parts {
        pattern,
        role: role_of(handshake.responder),
        keys: SuppliedKeys {
            e: &handshake.e,
            s: &handshake.s,
            answers: &handshake.answers[..handshake.answer_count as usize],
        },
        progress: Progress {
            remote: Remote {
                e: key_of(&handshake.remote_e),
                s: key_of(&handshake.remote_s),
            },
            passed: handshake.passed,
            ended: handshake.ended != 0,
            state: StateParts {
                chaining_key: handshake.chaining_key,
                hash: handshake.hash,
                key: key_of(&handshake.cipher),
                nonce: handshake.nonce,
            },
        },
    }
}

// The handshake of this pattern, if its parts are those of one. It needs most of the stack, so `pattern_of` isn't
// called beneath it.
#[inline(never)]
fn restored<'a>(
    handshake: &'a NoiseHandshake,
    pattern: ValidPattern,
) -> Option<Handshake<SuppliedKeys<'a>>>
    requires answers { handshake.now.answer_count ≤ 8 }
    requires psks { handshake.now.psk_count ≤ 9 }
    ensures whole { IsSome result ↔ IsLateWhole pairs_in (handshake_from_c pattern handshake.now) }
    ensures value { IfSome result (λ h. h ≡ handshake_from_c pattern handshake.now) }
    ensures count { IfSome result (λ h. length h.psks ≡ handshake.now.psk_count) }
{
    let psks = &handshake.psks[9 - handshake.psk_count as usize..];
    Handshake::from_parts(parts_of(handshake, pattern), psks)
}

// The handshake of the struct, if a call has left it.
pub(crate) fn handshake_from_c<'a>(
    handshake: &'a NoiseHandshake,
) -> Option<Handshake<SuppliedKeys<'a>>>
    ensures usable { IsSome result ↔ IsUsable handshake.now }
    ensures named { IfSome result (λ h. IsPatternOf (text_from_c handshake.now) h.pattern) }
    ensures one { IfSome result (λ h. (q : Plan) → IsPatternOf (text_from_c handshake.now) q → q ≡ h.pattern) }
    ensures value { IfSome result (λ h. h ≡ handshake_from_c h.pattern handshake.now) }
    ensures count { IfSome result (λ h. length h.psks ≡ handshake.now.psk_count) }
{
    if handshake.mark != HANDSHAKE || handshake.text_len > 416 {
        return None;
    }
    if handshake.answer_count > 8 || handshake.psk_count > 9 {
        return None;
    }
    let Ok(pattern) = pattern_of(&handshake.text[..handshake.text_len as usize]) else {
        return None;
    };
    restored(handshake, pattern)
}

// Stores what messages have changed, and how many psks are left.
pub(crate) fn store_progress(progress: &Progress, left: u8, handshake: &mut NoiseHandshake)
    ensures { StoresProgress progress.now left handshake.old handshake.new }
{
    handshake.remote_e = key_to_c(progress.remote.e);
    handshake.remote_s = key_to_c(progress.remote.s);
    handshake.psk_count = left;
    handshake.passed = progress.passed;
    handshake.ended = u8::from(progress.ended);
    handshake.chaining_key = progress.state.chaining_key;
    handshake.hash = progress.state.hash;
    handshake.cipher = key_to_c(progress.state.key);
    handshake.nonce = progress.state.nonce;
}
