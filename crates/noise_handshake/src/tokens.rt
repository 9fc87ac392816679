//! What a token asks of a party, whether it writes or reads it (Noise, 5.3 and 9.2).

ghost use Rattle.std.specs.Prelude.{◌≡◌, ◌<◌, ◌≤◌, length, count_by, Some, None, MatchOption};
ghost use Rattle.noise_names.specs.declared.token.Token.{Token};
ghost use Rattle.noise_names.specs.Tokens.{is_psk};
ghost use Rattle.noise_state.specs.Standing.{keyed, nonce_now};
ghost use Rattle.noise_handshake.specs.Nonces.{nonce_after};
ghost use Rattle.noise_handshake.specs.Length.{keyed_after};
ghost use Rattle.noise_handshake.specs.Message.{with_ephemeral};
ghost use Rattle.noise_keys.specs.KeyTokens.{own_at};
ghost use Rattle.noise_handshake.specs.Party.{dh_result_of, remote_at, psks_after};

use crate::{Keys, Own, Remote};
use noise_keys::own_at;
use noise_names::{Role, Token};
use noise_state::SymmetricState;

// What a message is read or written with, but for what changes along its tokens.
#[derive(Drop)]
pub(crate) struct Means<K> {
    pub(crate) keys: K,
    pub(crate) role: Role,
    pub(crate) has_psks: bool,
}

// Which remote key a DH token takes (the table of Noise, 5.3), if it is known.
fn remote_at(role: Role, known: &Remote, token: Token) -> Option<[u8; 32]>
    ensures { result ≡ remote_at role known.now token }
{
    match (role, token) {
        (Role::Initiator, Token::Es | Token::Ss) => known.s,
        (Role::Responder, Token::Se | Token::Ss) => known.s,
        _ => known.e,
    }
}

// Of which own key a DH token asks the DH result, and to which remote key, if that is known.
pub(crate) fn asked_at(role: Role, known: &Remote, token: Token) -> Option<(Own, [u8; 32])>
    ensures { MatchOption result (remote_at role known.now token ≡ None)
        (λ want. (want.0 ≡ own_at role token) × (remote_at role known.now token ≡ Some want.1)) }
{
    let key = remote_at(role, known, token)?;
    Some((own_at(role, token), key))
}

/// The DH result at a DH token, where there is one.
pub fn dh_result_at<K: Keys>(keys: &K, role: Role, known: &Remote, token: Token) -> Option<[u8; 32]>
    ensures { result ≡ dh_result_of (K.pairs keys.now).agree (own_at role token) (remote_at role known.now token) }
{
    match remote_at(role, known, token) {
        Some(key) => keys.agree(own_at(role, token), &key),
        None => None,
    }
}

/// Mixes an ephemeral public key; in a psk pattern it is a key input too (Noise, 9.2).
pub fn mix_ephemeral(state: &mut SymmetricState, has_psks: bool, key: &[u8; 32])
    ensures mixed { state.new ≡ with_ephemeral has_psks state.old key.now }
    ensures keyed { keyed state.new ≡ keyed_after has_psks (keyed state.old) Token.E }
    ensures used { nonce_now state.new ≤ nonce_now state.old }
    ensures counted { nonce_now state.new ≡ nonce_after has_psks (keyed state.old) (nonce_now state.old) Token.E }
{
    state.mix_hash(key);
    if has_psks {
        state.mix_key(key);
    }
}

/// The psks still to come after a token.
pub fn psks_after(psks: &[[u8; 32]], token: Token) -> &[[u8; 32]]
    requires psk { token ≡ Token.Psk → 0 < length psks.now }
    ensures value { result.now ≡ psks_after psks.now token }
{
    match token {
        Token::Psk => &psks[1..],
        _ => psks,
    }
}

/// How many psks the tokens take.
pub fn psk_count(tokens: &[Token]) -> usize
    ensures { result ≡ count_by is_psk tokens.now }
{
    tokens
        .iter()
        .filter(|token| matches!(**token, Token::Psk))
        .count()
}
