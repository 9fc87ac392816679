//! Reading the tokens of a message.

ghost use Rattle.std.specs.Prelude.{◌≡◌, ◌≤◌, ◌<◌, ◌+◌, ◌-◌, ◌*◌, ◌^◌, ℕ, length, take, drop, count_by, is_some, Option, Some, None, IfOk, IfErr, OnErr, slice_index_or, nat_lt, if◌then◌else◌, IsTrue};
ghost use Rattle.noise_state.specs.Standing.{keyed, nonce_now};
ghost use Rattle.noise_handshake.specs.inner.Known.{are_known};
ghost use Rattle.noise_handshake.specs.Length.{token_width};
ghost use Rattle.noise_handshake.specs.Party.{remote_after, psks_after};
ghost use Rattle.noise_handshake.specs.Calls.{IsPlaceIn, IsSameAround};
ghost use Rattle.noise_handshake.specs.inner.Means.{reader_of};
ghost use Rattle.noise_handshake.specs.inner.Listening.{ReaderWants, width_of_key};
ghost use Rattle.noise_names.specs.declared.token.Token.{Token};
ghost use Rattle.noise_handshake.specs.inner.Layout.{tokens_of, ArePlaced};
ghost use Rattle.noise_handshake.specs.inner.Stepping.{TellsRead};
ghost use Rattle.noise_handshake.specs.inner.Reading.{IsWantAt, OpensKey, ReadsBefore, ReadsE, ReadsMessage, ReadsS, ReadsToken, ReadsTokens};
ghost use Rattle.noise_names.specs.Tokens.{is_psk};
ghost use Rattle.noise_handshake.specs.declared.faults.Cause.TheVariants.{Short, Tag, Agreement};

use crate::layout::PlacedToken;
use crate::steps::{NoSteps, Steps};
use crate::stop::Stop;
use crate::tokens::{Means, asked_at, dh_result_at, mix_ephemeral, psks_after};
use crate::{Cause, Keys, Own, Remote};
use noise_names::{Role, Token};
use noise_state::{CipherFault, SymmetricState};

// Takes a public key in the clear.
fn read_e(
    state: &mut SymmetricState,
    has_psks: bool,
    known: &mut Remote,
    message: &[u8],
) -> Result<usize, Cause>
    ensures width { IfOk result (λ n. n ≡ 32) }
    ensures range { IfOk result (λ n. n ≤ length message.now) }
    ensures unchanged { OnErr result (known.new ≡ known.old) }
    ensures read { ReadsE has_psks state.old state.new known.old known.new message.now result }
{
    let Some((key, _)) = message.split_first_chunk::<32>() else {
        return Err(Cause::Short);
    };
    mix_ephemeral(state, has_psks, key);
    known.e = Some(*key);
    Ok(32)
}

// Opens a static key that fills the buffer.
fn open_key(state: &mut SymmetricState, buffer: &mut [u8]) -> Option<[u8; 32]>
    requires low { 32 ≤ length buffer.old }
    requires high { length buffer.old ≤ 65535 }
    requires nonces { nonce_now state.old < 2 ^ 64 - 1 }
    ensures opened { length buffer.old ≡ width_of_key state.old → OpensKey state.old state.new buffer.old result }
{
    match state.decrypt_and_hash(buffer) {
        Ok(_) => Some(first_32(buffer)),
        Err(CipherFault::Short | CipherFault::Tag) => None,
        Err(CipherFault::Exhausted | CipherFault::TooLong) => unreachable!(),
    }
}

fn first_32(text: &[u8]) -> [u8; 32]
    requires low { 32 ≤ length text.now }
    ensures value { result ≡ take 32 text.now }
{
    let mut key = [0; 32];
    key.copy_from_slice(&text[..32]);
    key
}

// Takes a static key and opens it.
fn read_s(
    state: &mut SymmetricState,
    known: &mut Remote,
    width: usize,
    message: &[u8],
) -> Result<usize, Cause>
    requires nonces { nonce_now state.old < 2 ^ 64 - 1 }
    requires width { width ≡ token_width (keyed state.old) Token.S }
    ensures width { IfOk result (λ n. n ≡ width) }
    ensures range { IfOk result (λ n. n ≤ length message.now) }
    ensures unchanged { OnErr result (known.new ≡ known.old) }
    ensures read { ReadsS state.old state.new known.old known.new message.now result }
{
    if message.len() < width {
        return Err(Cause::Short);
    }
    let mut buffer = [0; 48];
    let part = &mut buffer[..width];
    part.copy_from_slice(&message[..width]);
    match open_key(state, part) {
        Some(key) => {
            known.s = Some(key);
            Ok(width)
        }
        None => Err(Cause::Tag),
    }
}

// Reads one token, and returns how many bytes it took.
fn read_token<K: Keys>(
    state: &mut SymmetricState,
    known: &mut Remote,
    means: &Means<K>,
    psks: &[[u8; 32]],
    placed: PlacedToken,
    message: &[u8],
) -> Result<usize, Cause>
    requires psk { placed.token ≡ Token.Psk → 0 < length psks.now }
    requires width { placed.width ≡ token_width (keyed state.old) placed.token }
    requires nonces { nonce_now state.old < 2 ^ 64 - 1 }
    ensures width { IfOk result (λ n. n ≡ token_width (keyed state.old) placed.token) }
    ensures range { IfOk result (λ n. n ≤ length message.now) }
    ensures unchanged { OnErr result (known.new ≡ known.old) }
    ensures read { ReadsToken (reader_of K.pairs means.now) state.old state.new known.old known.new psks.now
        placed.token
        message.now result }
{
    match placed.token {
        Token::E => read_e(state, means.has_psks, known, message),
        Token::S => read_s(state, known, placed.width as usize, message),
        Token::Psk => {
            state.mix_key_and_hash(&psks[0]);
            Ok(0)
        }
        token => match dh_result_at(&means.keys, means.role, known, token) {
            Some(dh_result) => {
                state.mix_key(&dh_result);
                Ok(0)
            }
            None => Err(Cause::Agreement),
        },
    }
}

// The bytes of a message from a place on.
fn bytes_from(message: &[u8], place: u16) -> &[u8]
    requires within { place ≤ length message.now }
    ensures value { result.now ≡ drop place message.now }
{
    &message[place as usize..]
}

// Reads tokens at their places in a message, tells of each, and returns how many bytes they took.
pub(crate) fn read_tokens<K: Keys, S: Steps>(
    state: &mut SymmetricState,
    known: &mut Remote,
    means: &Means<K>,
    psks: &[[u8; 32]],
    placed: &[PlacedToken],
    message: &[u8],
    steps: &mut S,
) -> Result<usize, (usize, Cause)>
    requires placed { (place : ℕ) × (place ≤ length message.now)
        × ArePlaced means.now.has_psks (keyed state.old) place placed.now }
    requires psks { count_by is_psk (tokens_of placed.now) ≤ length psks.now }
    requires nonces { nonce_now state.old + length (tokens_of placed.now) < 2 ^ 64 - 1 }
    ensures within { IfOk result (λ n. n ≤ length message.now) }
    ensures range { (place : ℕ) → place ≤ length message.now
        → ArePlaced means.now.has_psks (keyed state.old) place placed.now
        → IfOk result (λ n. place + n ≤ length message.now) }
    ensures stop { IfErr result (λ stop. stop.0 < length (tokens_of placed.now)) }
    ensures read { (place : ℕ) → place ≤ length message.now
        → ArePlaced means.now.has_psks (keyed state.old) place placed.now
        → ReadsTokens (reader_of K.pairs means.now) state.old state.new known.old known.new psks.now
        (tokens_of placed.now) message.now place result }
    ensures told { (place : ℕ) → place ≤ length message.now
        → ArePlaced means.now.has_psks (keyed state.old) place placed.now
        → TellsRead S.after (reader_of K.pairs means.now) state.old known.old psks.now (tokens_of placed.now)
        message.now place result steps.old steps.new }
{
    let Some((first, later)) = placed.split_first() else {
        return Ok(0);
    };
    let rest = bytes_from(message, first.place);
    let n = match read_token(state, known, means, psks, *first, rest) {
        Ok(n) => n,
        Err(cause) => return Err((0, cause)),
    };
    let from = first.place as usize;
    steps.step(first.token, from, from + n, state);
    let others = psks_after(psks, first.token);
    match read_tokens(state, known, means, others, later, message, steps) {
        Ok(more) => Ok(n + more),
        Err((k, cause)) => Err((k + 1, cause)),
    }
}

// A token by its number.
fn token_at(placed: &[PlacedToken], k: usize) -> Token
    requires within { k < length placed.now }
    ensures token { result ≡ slice_index_or (tokens_of placed.now) k result }
{
    placed[k].token
}

// The key pair and the remote key of the DH at which reading stopped, if it stopped at token k because a DH has no
// result.
pub(crate) fn lacked(
    role: Role,
    known: &Remote,
    placed: &[PlacedToken],
    k: usize,
    cause: Cause,
) -> Option<(Own, [u8; 32])>
    ensures { IsWantAt role known.now (tokens_of placed.now) k cause result }
{
    match cause {
        Cause::Agreement => {
            if k < placed.len() {
                asked_at(role, known, token_at(placed, k))
            } else {
                None
            }
        }
        Cause::Short => None,
        Cause::Tag => None,
    }
}

// The key pair and the remote key of the DH without a result at which reading a message's tokens stops, if it stops at
// one.
pub(crate) fn read_lacking<K: Keys>(
    state: &SymmetricState,
    known: &Remote,
    means: &Means<K>,
    psks: &[[u8; 32]],
    placed: &[PlacedToken],
    message: &[u8],
) -> Option<(Own, [u8; 32])>
    requires placed { ArePlaced means.now.has_psks (keyed state.now) 0 placed.now }
    requires psks { count_by is_psk (tokens_of placed.now) ≤ length psks.now }
    requires nonces { nonce_now state.now + length (tokens_of placed.now) < 2 ^ 64 - 1 }
    requires known { IsTrue (are_known means.now.role (is_some known.now.e) (is_some known.now.s)
        (tokens_of placed.now)) }
    ensures wants { ReaderWants (reader_of K.pairs means.now) known.now psks.now state.now (tokens_of placed.now)
        message.now result }
{
    let mut trial = state.for_trial();
    let mut remote_after = *known;
    match read_tokens(
        &mut trial,
        &mut remote_after,
        means,
        psks,
        placed,
        message,
        &mut NoSteps,
    ) {
        Ok(_) => None,
        Err((k, cause)) => lacked(means.role, &remote_after, placed, k, cause),
    }
}

// Reads the tokens before token k, and returns the other party's static key as it is known there; or where reading
// stops before, and which DH result it lacks there.
pub(crate) fn read_before<K: Keys>(
    state: &SymmetricState,
    known: &Remote,
    means: &Means<K>,
    psks: &[[u8; 32]],
    placed: &[PlacedToken],
    k: usize,
    message: &[u8],
) -> Result<Option<[u8; 32]>, Stop>
    requires placed { ArePlaced means.now.has_psks (keyed state.now) 0 placed.now }
    requires psks { count_by is_psk (take k (tokens_of placed.now)) ≤ length psks.now }
    requires nonces { nonce_now state.now + length (tokens_of placed.now) < 2 ^ 64 - 1 }
    requires known { IsTrue (are_known means.now.role (is_some known.now.e) (is_some known.now.s)
        (tokens_of placed.now)) }
    requires within { k ≤ length placed.now }
    requires few { length placed.now ≤ 10 }
    ensures read { ReadsBefore (reader_of K.pairs means.now) state.now known.now psks.now (tokens_of placed.now) k
        message.now result }
{
    let mut trial = state.for_trial();
    let mut remote_after = *known;
    match read_tokens(
        &mut trial,
        &mut remote_after,
        means,
        psks,
        &placed[..k],
        message,
        &mut NoSteps,
    ) {
        Ok(_) => Ok(remote_after.s),
        Err((token, cause)) => Err(Stop {
            token: token as u8,
            cause,
            want: lacked(means.role, &remote_after, placed, token, cause),
        }),
    }
}

// Reads a message in place, and returns where its payload is.
pub(crate) fn read_message<K: Keys>(
    state: &mut SymmetricState,
    known: &mut Remote,
    means: &Means<K>,
    psks: &[[u8; 32]],
    placed: &[PlacedToken],
    message: &mut [u8],
) -> Result<(usize, usize), (usize, Cause)>
    requires placed { ArePlaced means.now.has_psks (keyed state.old) 0 placed.now }
    requires psks { count_by is_psk (tokens_of placed.now) ≤ length psks.now }
    requires fits { length message.old ≤ 65535 }
    requires nonces { nonce_now state.old + length (tokens_of placed.now) < 2 ^ 64 - 1 }
    ensures range { IfOk result (IsPlaceIn message.new) }
    ensures beyond { IfOk result (IsSameAround message.old message.new) }
    ensures stop { IfErr result (λ stop. stop.0 ≤ length (tokens_of placed.now)) }
    ensures read { ReadsMessage (reader_of K.pairs means.now) state.old state.new known.old known.new psks.now
        (tokens_of placed.now) message.old message.new result }
    ensures unchanged { OnErr result (message.new ≡ message.old) }
{
    let from = match read_tokens(state, known, means, psks, placed, message, &mut NoSteps) {
        Ok(from) => from,
        Err(stop) => return Err(stop),
    };
    let left = message.len() - from;
    match state.decrypt_and_hash(&mut message[from..]) {
        Ok(len) => Ok((from, from + len)),
        Err(CipherFault::Short | CipherFault::Tag) => Err((placed.len(), end_cause(left))),
        Err(CipherFault::Exhausted | CipherFault::TooLong) => unreachable!(),
    }
}

// Why a payload is refused that travels in so many bytes.
fn end_cause(len: usize) -> Cause
    ensures { result ≡ (if nat_lt len 16 then Short else Tag) }
{
    if len < 16 { Cause::Short } else { Cause::Tag }
}
