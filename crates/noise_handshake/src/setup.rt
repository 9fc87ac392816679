//! How a handshake starts, and what is wrong with a setup (Noise, 5.3 and 9.2).

ghost use Rattle.std.specs.Prelude.{◌≡◌, ◌≤◌, ◌*◌, ◌||◌, ◌&&◌, true, not, length, is_some, is_none, None};
ghost use Rattle.std.specs.List.{list_any};
ghost use Rattle.noise_names.specs.Limits.{IsPattern};
ghost use Rattle.noise_names.specs.Tokens.{same_token};
ghost use Rattle.noise_names.specs.Overhead.{has_key};
ghost use Rattle.noise_names.specs.declared.token.Token.TheVariants.{E, S};
ghost use Rattle.noise_state.specs.Standing.{keyed, nonce_now};
ghost use Rattle.noise_state.specs.Symmetric.{mix_hash};
ghost use Rattle.noise_handshake.specs.Party.{with_premessage};
ghost use Rattle.noise_keys.specs.KeyTokens.{token_of};
ghost use Rattle.noise_handshake.specs.Setup.{psks_of, setup_fault, keys_of, lacks_own, start_of};
ghost use Rattle.noise_handshake.specs.inner.PreMessage.{HasPre};
ghost use Rattle.noise_handshake.specs.Passed.{passed_places};

use crate::own_keys::keys_of;
use crate::tokens::{mix_ephemeral, psk_count};
use crate::{Keys, Own, Remote, SetupFault};
use noise_keys::{has_token, sends, token_of};
use noise_names::{Message, Pattern, Role, Token};
use noise_state::SymmetricState;

/// How many psks the messages take: one for each psk token (Noise, 9.2).
pub fn psk_total(messages: &[Message]) -> usize
    requires few { length messages.now ≤ 8 }
    ensures total { result ≡ psks_of messages.now }
    ensures bound { result ≤ 10 * length messages.now }
{
    let Some((message, later)) = messages.split_first() else {
        return 0;
    };
    psk_count(message.tokens()) + psk_total(later)
}

// Whether the role has such a key's token in the pattern, and not the key.
pub(crate) fn lacks_own<K: Keys>(pattern: &Pattern, role: Role, keys: &K, own: Own) -> bool
    ensures { result ≡ lacks_own pattern.now role (token_of own) ((K.pairs keys.now).public own) }
{
    sends(pattern, role, token_of(own)) && keys.public(own).is_none()
}

// Whether a key of this pre-message isn't there.
fn lacks_key(pre: &[Token], remote: &Remote) -> bool
    ensures { result ≡ ((list_any (λ t. same_token t E) pre.now && is_none remote.now.e)
        || (list_any (λ t. same_token t S) pre.now && is_none remote.now.s)) }
{
    (has_token(pre, Token::E) && remote.e.is_none())
        || (has_token(pre, Token::S) && remote.s.is_none())
}

// Whether a key is there that isn't in this pre-message.
fn has_other_key(pre: &[Token], remote: &Remote) -> bool
    ensures { result ≡ ((is_some remote.now.e && not (list_any (λ t. same_token t E) pre.now))
        || (is_some remote.now.s && not (list_any (λ t. same_token t S) pre.now))) }
{
    (remote.e.is_some() && !has_token(pre, Token::E))
        || (remote.s.is_some() && !has_token(pre, Token::S))
}

// What is wrong with a setup.
pub(crate) fn setup_fault<K: Keys>(
    pattern: &Pattern,
    role: Role,
    keys: &K,
    remote: &Remote,
    psks: usize,
) -> Option<SetupFault>
    ensures fault { result ≡ setup_fault pattern.now role (K.pairs keys.now).public remote.now psks }
    ensures few { result ≡ None → psks ≤ 9 }
    ensures limits { IsPattern pattern.now }
{
    let pre = pattern.pre(role.other());
    let total = psk_total(pattern.messages());
    if lacks_own(pattern, role, keys, Own::Ephemeral) {
        return Some(SetupFault::EphemeralMissing);
    }
    if lacks_own(pattern, role, keys, Own::Static) {
        return Some(SetupFault::StaticMissing);
    }
    if lacks_key(pre, remote) {
        return Some(SetupFault::RemoteMissing);
    }
    if has_other_key(pre, remote) {
        return Some(SetupFault::RemoteUnexpected);
    }
    if psks == total {
        None
    } else {
        Some(SetupFault::PskCount)
    }
}

// Mixes the keys of a pre-message.
pub(crate) fn mix_premessage(
    state: &mut SymmetricState,
    has_psks: bool,
    keys: &Remote,
    tokens: &[Token],
)
    requires e { list_any (λ t. same_token t (token_of Own.Ephemeral)) tokens.now ≡ true → is_some keys.now.e ≡ true }
    requires s { list_any (λ t. same_token t (token_of Own.Static)) tokens.now ≡ true → is_some keys.now.s ≡ true }
    ensures nonce { nonce_now state.new ≤ nonce_now state.old }
    ensures mixed { state.new ≡ with_premessage has_psks keys.now tokens.now state.old }
{
    let Some((token, later)) = tokens.split_first() else {
        return;
    };
    match (*token, keys.e, keys.s) {
        (Token::E, Some(key), _) => mix_ephemeral(state, has_psks, &key),
        (Token::S, _, Some(key)) => state.mix_hash(&key),
        (Token::E, None, _) | (Token::S, _, None) => unreachable!(),
        _ => {}
    }
    mix_premessage(state, has_psks, keys, later)
}

// Mixes the prologue, an empty one too.
fn mix_prologue(state: &mut SymmetricState, prologue: &[u8])
    ensures { state.new ≡ mix_hash state.old prologue.now }
{
    state.mix_hash(prologue);
}

// The state at the start.
pub(crate) fn start(
    pattern: &Pattern,
    role: Role,
    prologue: &[u8],
    own: &Remote,
    remote: &Remote,
) -> SymmetricState
    requires initiator { HasPre pattern.now Role.Initiator (keys_of Role.Initiator role own.now remote.now) }
    requires responder { HasPre pattern.now Role.Responder (keys_of Role.Responder role own.now remote.now) }
    ensures matches { result ≡ start_of pattern.now role prologue.now own.now remote.now }
    ensures key { keyed result ≡ has_key pattern.now (passed_places pattern.now 0) }
    ensures nonce { nonce_now result ≡ 0 }
{
    let with_psks = !pattern.is_plain();
    let initiator = keys_of(Role::Initiator, role, own, remote);
    let responder = keys_of(Role::Responder, role, own, remote);
    let first = pattern.pre(Role::Initiator);
    let second = pattern.pre(Role::Responder);
    let name = pattern.name().write();
    let mut state = SymmetricState::new(&name);
    mix_prologue(&mut state, prologue);
    mix_premessage(&mut state, with_psks, &initiator, first);
    mix_premessage(&mut state, with_psks, &responder, second);
    state
}
