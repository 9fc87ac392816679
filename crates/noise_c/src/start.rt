//! Exports: the start of a handshake.

ghost use Rattle.std.specs.Prelude.{◌≡◌, ◌≤◌, ◌<◌, ◌↔◌, ◌⊎◌, ℕ, List, length, MatchOption, IsOk, IfOk, Err};
ghost use Rattle.noise_names.specs.Plan.{Plan};
ghost use Rattle.noise_names.specs.Validity.{IsValid};
ghost use Rattle.noise_handshake.specs.Matching.{IsParty};
ghost use Rattle.noise_handshake.specs.Late.{with_later};
ghost use Rattle.noise_c.specs.HandshakeStructs.{role_in, pairs_in, table_of, psks_in, begun_in, fault_in, start_code, IsBlank, IsNoName, IsNoText, IsNotValid, IsPatternOf, IsStartCode, IsStarted, StoresStart, held_psks};
ghost use Rattle.noise_c.specs.declared.codes.numbers.TheConstants.{NAME, OK, PATTERN};

use crate::codes::numbers::{HANDSHAKE, LENGTH, OK, PSK_COUNT};
use crate::codes::{ok_or, setup_code};
use crate::from_c::{role_of, store_progress};
use crate::patterns::pattern_of;
use crate::structs::{NoiseHandshake, NoiseSetup};
use crate::supplied_keys::{NO_DH_RESULT, SuppliedKeys, key_of};
use noise_handshake::{Handshake, Remote, SetupFault};
use noise_names::ValidPattern;
use noise_state::limits::MAX_LEN;

// The handshake that starts from this.
fn begin<'a>(
    pattern: ValidPattern,
    prologue: &[u8],
    setup: &'a NoiseSetup,
) -> Result<Handshake<SuppliedKeys<'a>>, SetupFault>
    requires len { length prologue.now ≤ 65535 }
    requires count { setup.now.psk_count ≤ 9 }
    ensures fault { MatchOption (fault_in pattern setup.now) (IsOk result) (λ fault. result ≡ Err fault) }
    ensures matches { IfOk result (λ h. (later : List (List ℕ)) → IsParty pairs_in (with_later h later)
        (begun_in pattern prologue.now setup.now later)) }
    ensures pattern { IfOk result (λ h. h.pattern ≡ pattern) }
    ensures role { IfOk result (λ h. h.role ≡ role_in setup.now.responder) }
    ensures keys { IfOk result (λ h. h.keys ≡ table_of setup.now) }
    ensures psks { IfOk result (λ h. h.psks ≡ psks_in setup.now) }
{
    let remote = Remote {
        e: key_of(&setup.remote_e),
        s: key_of(&setup.remote_s),
    };
    let keys = SuppliedKeys {
        e: &setup.e,
        s: &setup.s,
        answers: &[],
    };
    let role = role_of(setup.responder);
    let psks = &setup.psks[..setup.psk_count as usize];
    Handshake::with_fewer_psks(pattern, role, prologue, keys, remote, psks)
}

// Stores what a handshake doesn't change: the text, the role, the keys of its own, with no DH result yet, and the psks.
fn store_start(handshake: &mut NoiseHandshake, text: &[u8], setup: &NoiseSetup)
    requires short { length text.now ≤ 413 }
    requires count { setup.now.psk_count ≤ 9 }
    ensures stores { StoresStart text.now setup.now handshake.new }
    ensures blank { IsBlank setup.now handshake.new }
{
    let count = setup.psk_count as usize;
    handshake.mark = HANDSHAKE;
    handshake.psks = [[0; 32]; 9];
    handshake.psks[9 - count..].copy_from_slice(&setup.psks[..count]);
    handshake.text[..text.len()].copy_from_slice(text);
    handshake.text_len = text.len() as u16;
    handshake.responder = setup.responder;
    handshake.e = setup.e;
    handshake.s = setup.s;
    handshake.answer_count = 0;
    handshake.answers = [NO_DH_RESULT; 8];
}

/// Starts the handshake of one party, in a struct that may hold anything before. The pattern is a protocol name, or a
/// pattern text, whose last byte is a line feed. The psks may be fewer than the psk tokens.
#[unsafe(no_mangle)]
pub extern "C" fn noise_start(
    handshake: &mut NoiseHandshake,
    pattern: &[u8],
    prologue: &[u8],
    setup: &NoiseSetup,
) -> u32
    ensures name { result ≡ NAME ↔ IsNoName pattern.now }
    ensures pattern { result ≡ PATTERN ↔ (IsNoText pattern.now ⊎ IsNotValid pattern.now) }
    ensures valid { (p : Plan) → IsPatternOf pattern.now p → IsValid p
        → result ≡ start_code p prologue.now setup.now }
    ensures started { result ≡ OK → IsStarted pattern.now prologue.now setup.now handshake.new }
    ensures held { result ≡ OK → held_psks handshake.new ≡ psks_in setup.now }
    ensures unchanged { OK < result → handshake.new ≡ handshake.old }
    ensures codes { IsStartCode result }
{
    let valid = ok_or!(pattern_of(pattern));
    if prologue.len() > MAX_LEN {
        return LENGTH;
    }
    if setup.psk_count > 9 {
        return PSK_COUNT;
    }
    let state = ok_or!(begin(valid, prologue, setup), setup_code);
    store_start(handshake, pattern, setup);
    store_progress(&state.progress(), setup.psk_count, handshake);
    OK
}
