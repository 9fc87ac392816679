//! Writing the tokens of a message.

ghost use Rattle.std.specs.Prelude.{◌≡◌, ◌≤◌, ◌<◌, ◌+◌, ◌-◌, ◌^◌, ℕ, length, take, drop, count_by, IsTrue, MatchResult, IfSome, IfOk, is_some, None};
ghost use Rattle.std.specs.List.{list_all};
ghost use Rattle.noise_state.specs.Standing.{keyed, nonce_now};
ghost use Rattle.noise_state.specs.Symmetric.{after_ciphertext, ciphertext};
ghost use Rattle.noise_handshake.specs.Message.{with_ephemeral};
ghost use Rattle.noise_handshake.specs.inner.Known.{is_known, remote_known};
ghost use Rattle.noise_handshake.specs.Length.{tag_width, token_width, tokens_width, added_width};
ghost use Rattle.noise_handshake.specs.inner.Means.{writer_of};
ghost use Rattle.noise_handshake.specs.inner.Speaking.{has_own, WriterWants};
ghost use Rattle.noise_handshake.specs.inner.Writing.{GivesOrNone, WritesMessage, WritesToken, WritesTokens};
ghost use Rattle.noise_names.specs.declared.token.Token.{Token};
ghost use Rattle.noise_handshake.specs.inner.Layout.{tokens_of, ArePlaced};
ghost use Rattle.noise_handshake.specs.inner.Stepping.{TellsWritten};
ghost use Rattle.noise_names.specs.Tokens.{is_psk};

use crate::layout::PlacedToken;
use crate::steps::{NoSteps, Steps};
use crate::tokens::{Means, asked_at, dh_result_at, mix_ephemeral, psks_after};
use crate::{Keys, Own, Remote};
use noise_names::Token;
use noise_state::SymmetricState;

// Copies a text to the front of a buffer, and returns how many bytes it takes.
fn put(text: &[u8], out: &mut [u8]) -> usize
    requires room { length text.now ≤ length out.old }
    ensures width { result ≡ length text.now }
    ensures beyond { drop result out.new ≡ drop result out.old }
    ensures copied { take result out.new ≡ text.now }
{
    let width = text.len();
    out[..width].copy_from_slice(text);
    width
}

// How many bytes a tag takes here.
fn tag_width(state: &SymmetricState) -> usize
    ensures { result ≡ tag_width (keyed state.now) }
{
    if state.has_key() { 16 } else { 0 }
}

// Writes a text to the front of a buffer as it travels from here, and returns in how many bytes.
fn write_part(state: &mut SymmetricState, text: &[u8], out: &mut [u8]) -> usize
    requires room { length text.now + tag_width (keyed state.old) ≤ length out.old }
    requires most { length text.now + tag_width (keyed state.old) ≤ 65535 }
    requires nonces { nonce_now state.old < 2 ^ 64 - 1 }
    ensures width { result ≡ length text.now + tag_width (keyed state.old) }
    ensures beyond { drop result out.new ≡ drop result out.old }
    ensures written { (take result out.new ≡ ciphertext state.old text.now)
        × (state.new ≡ after_ciphertext state.old (ciphertext state.old text.now)) }
{
    let len = put(text, out);
    let width = len + tag_width(state);
    match state.encrypt_and_hash(&mut out[..width], len) {
        Ok(width) => width,
        Err(_) => unreachable!(),
    }
}

// Writes an ephemeral public key to the front of a buffer.
fn write_e(state: &mut SymmetricState, has_psks: bool, key: &[u8; 32], out: &mut [u8]) -> usize
    requires room { 32 ≤ length out.old }
    ensures width { result ≡ 32 }
    ensures beyond { drop result out.new ≡ drop result out.old }
    ensures written { (take result out.new ≡ key.now) × (state.new ≡ with_ephemeral has_psks state.old key.now) }
{
    mix_ephemeral(state, has_psks, key);
    put(key, out)
}

// Writes one token, and returns in how many bytes, if it is no DH without a result.
fn write_token<K: Keys>(
    state: &mut SymmetricState,
    known: &Remote,
    means: &Means<K>,
    psks: &[[u8; 32]],
    token: Token,
    out: &mut [u8],
) -> Option<usize>
    requires psk { token ≡ Token.Psk → 0 < length psks.now }
    requires own { IsTrue (has_own (K.pairs means.now.keys).public token) }
    requires room { token_width (keyed state.old) token ≤ length out.old }
    requires nonces { nonce_now state.old < 2 ^ 64 - 1 }
    ensures width { IfSome result (λ n. n ≡ token_width (keyed state.old) token) }
    ensures beyond { IfSome result (λ n. drop n out.new ≡ drop n out.old) }
    ensures written { WritesToken (writer_of K.pairs means.now) state.old state.new known.now psks.now token out.new
        result }
{
    match token {
        Token::E => match means.keys.public(Own::Ephemeral) {
            Some(key) => Some(write_e(state, means.has_psks, &key, out)),
            None => unreachable!(),
        },
        Token::S => match means.keys.public(Own::Static) {
            Some(key) => Some(write_part(state, &key, out)),
            None => unreachable!(),
        },
        Token::Psk => {
            state.mix_key_and_hash(&psks[0]);
            Some(0)
        }
        _ => {
            let dh_result = dh_result_at(&means.keys, means.role, known, token)?;
            state.mix_key(&dh_result);
            Some(0)
        }
    }
}

// Writes tokens to the front of a buffer, tells of each, and returns in how many bytes, or which is the first DH
// without a result.
pub(crate) fn write_tokens<K: Keys, S: Steps>(
    state: &mut SymmetricState,
    known: &Remote,
    means: &Means<K>,
    psks: &[[u8; 32]],
    placed: &[PlacedToken],
    out: &mut [u8],
    steps: &mut S,
) -> Result<usize, usize>
    requires psks { count_by is_psk (tokens_of placed.now) ≤ length psks.now }
    requires own { IsTrue (list_all (has_own (K.pairs means.now.keys).public) (tokens_of placed.now)) }
    requires room { tokens_width means.now.has_psks (keyed state.old) (tokens_of placed.now) ≤ length out.old }
    requires nonces { nonce_now state.old + length (tokens_of placed.now) < 2 ^ 64 - 1 }
    ensures width { MatchResult result (λ n. n ≡ tokens_width means.now.has_psks (keyed state.old)
        (tokens_of placed.now))
        (λ k. k < length (tokens_of placed.now)) }
    ensures beyond { IfOk result (λ n. drop n out.new ≡ drop n out.old) }
    ensures written { WritesTokens (writer_of K.pairs means.now) state.old state.new known.now psks.now
        (tokens_of placed.now) out.new result }
    ensures told { (place : ℕ) → ArePlaced means.now.has_psks (keyed state.old) place placed.now
        → TellsWritten S.after (writer_of K.pairs means.now) state.old known.now psks.now (tokens_of placed.now) place
        result steps.old steps.new }
{
    let Some((first, later)) = placed.split_first() else {
        return Ok(0);
    };
    let Some(n) = write_token(state, known, means, psks, first.token, out) else {
        return Err(0);
    };
    let from = first.place as usize;
    steps.step(first.token, from, from + n, state);
    let others = psks_after(psks, first.token);
    match write_tokens(state, known, means, others, later, &mut out[n..], steps) {
        Ok(more) => Ok(n + more),
        Err(k) => Err(k + 1),
    }
}

// What a token of the party's own carries, where the party has it: its public key, the psk, or the DH result.
fn text_at<K: Keys>(
    known: &Remote,
    means: &Means<K>,
    psks: &[[u8; 32]],
    token: Token,
) -> Option<[u8; 32]>
    requires psk { token ≡ Token.Psk → 0 < length psks.now }
    requires own { IsTrue (has_own (K.pairs means.now.keys).public token) }
    requires known { IsTrue (is_known means.now.role (is_some known.now.e) (is_some known.now.s) token) }
    ensures text { GivesOrNone (writer_of K.pairs means.now) known.now psks.now token result }
    ensures dh { result ≡ None
        → IsTrue (remote_known means.now.role (is_some known.now.e) (is_some known.now.s) token) }
{
    match token {
        Token::E => means.keys.public(Own::Ephemeral),
        Token::S => means.keys.public(Own::Static),
        Token::Psk => Some(psks[0]),
        _ => dh_result_at(&means.keys, means.role, known, token),
    }
}

// The key pair and the remote key of the first DH without a result among the tokens, if there is one.
pub(crate) fn write_lacking<K: Keys>(
    known: &Remote,
    means: &Means<K>,
    psks: &[[u8; 32]],
    placed: &[PlacedToken],
) -> Option<(Own, [u8; 32])>
    requires psks { count_by is_psk (tokens_of placed.now) ≤ length psks.now }
    requires own { IsTrue (list_all (has_own (K.pairs means.now.keys).public) (tokens_of placed.now)) }
    requires known { IsTrue (list_all (is_known means.now.role (is_some known.now.e) (is_some known.now.s))
        (tokens_of placed.now)) }
    ensures wants { WriterWants (writer_of K.pairs means.now) known.now psks.now (tokens_of placed.now)
        result }
{
    let (first, later) = placed.split_first()?;
    match text_at(known, means, psks, first.token) {
        Some(_) => {
            let others = psks_after(psks, first.token);
            write_lacking(known, means, others, later)
        }
        None => asked_at(means.role, known, first.token),
    }
}

// The key pair and the remote key of the first DH without a result among the tokens before token k, if there is one.
pub(crate) fn write_lacking_before<K: Keys>(
    known: &Remote,
    means: &Means<K>,
    psks: &[[u8; 32]],
    placed: &[PlacedToken],
    k: usize,
) -> Option<(Own, [u8; 32])>
    requires psks { count_by is_psk (take k (tokens_of placed.now)) ≤ length psks.now }
    requires own { IsTrue (list_all (has_own (K.pairs means.now.keys).public) (tokens_of placed.now)) }
    requires known { IsTrue (list_all (is_known means.now.role (is_some known.now.e) (is_some known.now.s))
        (tokens_of placed.now)) }
    requires within { k ≤ length placed.now }
    ensures wants { WriterWants (writer_of K.pairs means.now) known.now psks.now
        (take k (tokens_of placed.now)) result }
{
    write_lacking(known, means, psks, &placed[..k])
}

// Writes a message to the front of a buffer, and returns how long it is, or which token is the first DH without a
// result. What the buffer and the state hold is open in that case.
pub(crate) fn write_message<K: Keys>(
    state: &mut SymmetricState,
    known: &Remote,
    means: &Means<K>,
    psks: &[[u8; 32]],
    placed: &[PlacedToken],
    payload: &[u8],
    out: &mut [u8],
) -> Result<usize, usize>
    requires psks { count_by is_psk (tokens_of placed.now) ≤ length psks.now }
    requires own { IsTrue (list_all (has_own (K.pairs means.now.keys).public) (tokens_of placed.now)) }
    requires room { added_width means.now.has_psks (keyed state.old) (tokens_of placed.now) + length payload.now
        ≤ length out.old }
    requires most { added_width means.now.has_psks (keyed state.old)
        (tokens_of placed.now) + length payload.now ≤ 65535 }
    requires nonces { nonce_now state.old + length (tokens_of placed.now) < 2 ^ 64 - 1 }
    ensures width { MatchResult result
        (λ n. n ≡ added_width means.now.has_psks (keyed state.old) (tokens_of placed.now) + length payload.now)
        (λ k. k < length (tokens_of placed.now)) }
    ensures beyond { IfOk result (λ n. drop n out.new ≡ drop n out.old) }
    ensures written { WritesMessage (writer_of K.pairs means.now) state.old state.new known.now psks.now
        (tokens_of placed.now) payload.now out.new result }
{
    let from = match write_tokens(state, known, means, psks, placed, out, &mut NoSteps) {
        Ok(from) => from,
        Err(k) => return Err(k),
    };
    Ok(from + write_part(state, payload, &mut out[from..]))
}
