//! Two parties of equal setup.

ghost use Rattle.std.specs.Prelude.{◌≡◌, ◌≤◌, length, IfOk, MatchResult, None};
ghost use Rattle.noise_names.specs.Limits.{IsPattern};
ghost use Rattle.noise_names.specs.Validity.{IsValid};
ghost use Rattle.noise_handshake.specs.Setup.{party_at_start, setup_fault};
ghost use Rattle.noise_session.specs.Ends.{EndMatches, end_of, progress};
ghost use Rattle.noise_session.specs.Progress.{role_of};
ghost use Rattle.noise_theorems.specs.Setup.{IsReportedFault, starts};
ghost use Rattle.noise_theorems.specs.inner.NewEnds.{MakesEnds};

use crate::ConversationFault;
use noise_duel::Duel;
use noise_handshake::own_keys::shown_before;
use noise_handshake::{Agreeing, Handshake, Keys, Remote};
use noise_names::{Role, ValidPattern};
use noise_session::End;
use noise_session::laws::end_is_reported;
use std::alloc::{AllocError, Global};

// Both parties of this pattern, with equal prologue, psks and interval, each of which knows the keys of the other's
// pre-message.
pub(crate) fn make_ends<K: Agreeing>(
    alloc: Global,
    pattern: ValidPattern,
    prologue: &[u8],
    initiator: K,
    responder: K,
    psks: &[[u8; 32]],
    interval: u64,
) -> Result<Duel<K, K>, ConversationFault>
    requires short { length prologue.now ≤ 65535 }
    ensures made { MakesEnds K.pairs pattern
        (starts K.pairs pattern prologue.now psks.now initiator responder) interval result }
{
    let of_initiator = shown_before(&pattern, Role::Initiator, &initiator);
    let of_responder = shown_before(&pattern, Role::Responder, &responder);
    let same = copy(&pattern)?;
    let first = make_end(
        alloc,
        pattern,
        Role::Initiator,
        prologue,
        initiator,
        of_responder,
        psks,
        interval,
    )?;
    let second = make_end(
        alloc,
        same,
        Role::Responder,
        prologue,
        responder,
        of_initiator,
        psks,
        interval,
    )?;
    Ok(Duel::new(first, second))
}

// One party.
fn make_end<K: Keys>(
    alloc: Global,
    pattern: ValidPattern,
    role: Role,
    prologue: &[u8],
    keys: K,
    remote: Remote,
    psks: &[[u8; 32]],
    interval: u64,
) -> Result<End<K>, ConversationFault>
    requires short { length prologue.now ≤ 65535 }
    ensures fault { let found = setup_fault pattern role (K.pairs keys).public remote (length psks.now) in
        MatchResult result (λ _. found ≡ None) (λ fault. IsReportedFault found fault) }
    ensures matches { IfOk result (λ end. EndMatches K.pairs end
        (end_of (party_at_start pattern role prologue.now (K.pairs keys).public
        (K.pairs keys).agree remote psks.now) interval)) }
    ensures role { IfOk result (λ end. role_of (progress end) ≡ role) }
    ensures valid { IfOk result (λ _. IsPattern pattern × IsValid pattern) }
{
    let handshake = match Handshake::new(pattern, role, prologue, keys, remote, psks) {
        Ok(handshake) => handshake,
        Err(fault) => return Err(ConversationFault::Setup(fault)),
    };
    end_is_reported::<K>();
    match End::new(alloc, handshake, interval) {
        Ok(end) => Ok(end),
        Err(_) => Err(ConversationFault::Memory),
    }
}

// The pattern once more.
fn copy(pattern: &ValidPattern) -> Result<ValidPattern, AllocError>
    ensures { IfOk result (λ same. same ≡ pattern.now) }
{
    let same = pattern.clone()?;
    Ok(same)
}
