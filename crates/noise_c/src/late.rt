//! Exports: the DH results and the psks that a handshake wasn't started with.

ghost use Rattle.std.specs.Prelude.{◌≡◌, ◌<◌, ◌≤◌, ◌∷◌, ◌++◌, [], drop, replicate, take};
ghost use Rattle.noise_names.specs.Plan.{Plan};
ghost use Rattle.noise_handshake.specs.Party.{Party};
ghost use Rattle.noise_c.specs.HandshakeStructs.{own_in, supplied, GoesOn, IsUsable, KeepsParty, SetsPsk, StoresPsk, Supplies, TakesPskBack, UnsetsPsk};
ghost use Rattle.noise_c.specs.declared.codes.numbers.TheConstants.{OK};

use crate::codes::numbers::{HANDSHAKE, OK, PSK_COUNT, STRUCT};
use crate::codes::some_or;
use crate::from_c::handshake_from_c;
use crate::structs::{NoiseAnswer, NoiseHandshake};

/// Hands in the DH result of a key pair of this party and a public key of the other: that of X25519, 32 bytes. There is
/// room for 8, twice what a message wants: the oldest gives way to a ninth. STRUCT where the struct isn't that of a
/// handshake.
#[unsafe(no_mangle)]
pub extern "C" fn noise_answer(
    handshake: &mut NoiseHandshake,
    of_static: u8,
    remote: &[u8; 32],
    answer: &[u8; 32],
) -> u32
    ensures supplies { Supplies handshake.old handshake.new
        (record { own = own_in of_static; remote = remote.now; answer = answer.now }) result }
    ensures value { result ≡ OK → handshake.new
        ≡ supplied handshake.old (record { of_static = of_static; remote = remote.now; answer = answer.now }) }
{
    if handshake.mark != HANDSHAKE || handshake.answer_count > 8 {
        return STRUCT;
    }
    let last = NoiseAnswer {
        of_static,
        remote: *remote,
        answer: *answer,
    };
    let count = handshake.answer_count as usize;
    if count == 8 {
        put_result_last(&mut handshake.answers, last);
        return OK;
    }
    handshake.answers[count] = last;
    handshake.answer_count += 1;
    OK
}

// Moves the DH results one place to the front, and puts this one at the end.
#[tactic(auto, using(crate::proofs::Moved::moved))]
fn put_result_last(results: &mut [NoiseAnswer; 8], last: NoiseAnswer)
    ensures { results.new ≡ drop 1 results.old ++ last ∷ [] }
{
    results.copy_within(1.., 0);
    results[7] = last;
}

// Moves the psks one place to the front, and puts this one at the end.
#[tactic(auto, using(crate::proofs::Moved::moved))]
fn put_last(psks: &mut [[u8; 32]; 9], psk: &[u8; 32])
    ensures { psks.new ≡ drop 1 psks.old ++ psk.now ∷ [] }
{
    psks.copy_within(1.., 0);
    psks[8] = *psk;
}

// Stores this psk after the others.
fn store_psk(handshake: &mut NoiseHandshake, psk: &[u8; 32])
    requires room { handshake.old.psk_count < 9 }
    ensures stores { StoresPsk handshake.old handshake.new psk.now }
{
    put_last(&mut handshake.psks, psk);
    handshake.psk_count += 1;
}

/// Hands in the psk of the first psk token that lacks one, 32 bytes: from then on all is as if the handshake had
/// been started with it too. PSK_COUNT where no psk token that is still to come lacks its psk.
#[unsafe(no_mangle)]
pub extern "C" fn noise_set_psk(handshake: &mut NoiseHandshake, psk: &[u8; 32]) -> u32
    ensures sets { SetsPsk handshake.old handshake.new psk.now result }
    ensures matches { result ≡ OK → GoesOn handshake.old handshake.new psk.now }
    ensures stays { IsUsable handshake.old → IsUsable handshake.new }
{
    let mut state = some_or!(handshake_from_c(handshake), STRUCT);
    if !state.put_psk(*psk) {
        return PSK_COUNT;
    }
    store_psk(handshake, psk);
    OK
}

// Moves the psks one place to the back, over the last, and puts zeros at the front.
#[tactic(auto, using(crate::proofs::Unset::moved_back))]
fn put_zeros_first(psks: &mut [[u8; 32]; 9])
    ensures { psks.new ≡ replicate 32 0 ∷ take 8 psks.old }
{
    psks.copy_within(..8, 1);
    psks[0] = [0; 32];
}

// Takes back the last psk, if there is one.
fn take_psk_back(handshake: &mut NoiseHandshake)
    requires psks { handshake.old.psk_count ≤ 9 }
    ensures takes { TakesPskBack handshake.old handshake.new }
{
    if handshake.psk_count > 0 {
        put_zeros_first(&mut handshake.psks);
        handshake.psk_count -= 1;
    }
}

/// Takes back the last psk that no message has used yet, if there is one: then all is as it was before that psk was
/// handed in. It is for a psk that a refused message asked for, which `noise_try_read` leaves in the handshake.
#[unsafe(no_mangle)]
pub extern "C" fn noise_unset_psk(handshake: &mut NoiseHandshake) -> u32
    ensures unsets { UnsetsPsk handshake.old handshake.new result }
    ensures matches { (p : Plan) (v : Party) → KeepsParty handshake.old p v → KeepsParty handshake.new p v }
    ensures stays { IsUsable handshake.old → IsUsable handshake.new }
{
    if handshake_from_c(handshake).is_none() {
        return STRUCT;
    }
    take_psk_back(handshake);
    OK
}
