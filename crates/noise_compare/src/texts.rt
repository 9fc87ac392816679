//! Mistakes of `s` and of a payload.

ghost use Rattle.std.specs.Prelude.{◌≡◌, ◌≤◌, ◌++◌, IfOk, length};
ghost use Rattle.sha2.specs.Sha256.{sha256};
ghost use Rattle.noise_aead.specs.Sealing.{nonce_of};
ghost use Rattle.noise_compare.specs.Mixing.{with_hash};
ghost use Rattle.noise_compare.specs.States.{fits};
ghost use Rattle.noise_compare.specs.Texts.{big_endian, big_endian_first_bytes, bytes_fit, earlier_hash_explains, first_bytes, hashed_before, nonce_fits_text, one_more, other_key_explains, raised, sealed_by_zero, sealed_fits, sealed_under, text_explains, text_state, without_steps_explains, without_tag, zero_fits};

use crate::mistake::TextMistake;
use crate::mixing::{
    hashed, length_in_front_explains, length_mixed_explains, mixed, redone, with_hash,
};
use crate::secrets::with_nonce;
use crate::sources::joined;
use crate::state::{Logged, Situation, State};
use byteorder::{BigEndian, ByteOrder, LittleEndian};
use noise_aead::{nonce, seal_in_place};
use std::alloc::{AllocError, Global};

/// Whether a mistake gives the logged values.
#[tactic(auto, unfolding(crate::specs::Texts::text_explains))]
pub(crate) fn text_explains(
    alloc: Global,
    mistake: TextMistake,
    at: &Situation<'_>,
    logged: &Logged,
) -> Result<bool, AllocError>
    ensures { IfOk result (λ b. b ≡ text_explains mistake at.now logged.now) }
{
    let (n, text) = (at.before.nonce, at.text);
    match mistake {
        TextMistake::Clear => Ok(clear_fits(at, logged, at.text)),
        TextMistake::OtherKey => other_key_explains(alloc, at, logged),
        TextMistake::TagLeftOff => Ok(clear_fits(at, logged, without_tag(at.bytes))),
        TextMistake::TagAdded => joined_fits(alloc, at, logged, at.text, &[0; 16]),
        TextMistake::TagInFront => {
            let (front, tag) = at.bytes.split_at(at.bytes.len().saturating_sub(16));
            joined_fits(alloc, at, logged, tag, front)
        }
        TextMistake::BigEndian => big_endian_explains(alloc, at, logged),
        TextMistake::FirstBytes => nonce_fits_text(alloc, at, logged, &first_bytes(n)),
        TextMistake::BigEndianFirstBytes => {
            nonce_fits_text(alloc, at, logged, &big_endian_first_bytes(n))
        }
        TextMistake::NonceFromOne => next_nonce_explains(alloc, at, logged),
        TextMistake::NonceOfZero => zero_nonce_explains(alloc, at, logged),
        TextMistake::NoAssociatedData => sealed_fits(alloc, at, logged, n, &[], text),
        TextMistake::ChainingKeyAsData => {
            sealed_fits(alloc, at, logged, n, &at.before.chaining_key, text)
        }
        TextMistake::EarlierHash => earlier_hash_explains(alloc, at, logged),
        TextMistake::LaterHash => sealed_fits(alloc, at, logged, n, &at.right.hash, text),
        TextMistake::TextHashedBefore => hashed_before(alloc, at, logged),
        TextMistake::StepsLeftOut => without_steps_explains(alloc, at, logged),
        TextMistake::LengthHashed => Ok(length_in_front_explains(at, logged)),
        TextMistake::LengthMixed => Ok(length_mixed_explains(at, logged)),
        _ => Ok(logged.fits(at.bytes, &text_state(mistake, at))),
    }
}

// The state with a mistake after which the bytes are right.
#[tactic(auto, unfolding(crate::specs::Texts::text_state))]
fn text_state(mistake: TextMistake, at: &Situation<'_>) -> State
    ensures { result ≡ text_state mistake at.now }
{
    match mistake {
        TextMistake::HashLeftOut => with_hash(&at.right, at.before.hash),
        TextMistake::TextHashed => hashed(at, at.text),
        TextMistake::TagNotHashed => hashed(at, without_tag(at.bytes)),
        TextMistake::NonceKept => with_nonce(&at.right, at.before.nonce),
        TextMistake::NonceRaised => with_nonce(&at.right, one_more(at.right.nonce)),
        _ => at.right,
    }
}

// Whether these bytes in the clear, and MixHash of them, are what was logged.
fn clear_fits(at: &Situation<'_>, logged: &Logged, bytes: &[u8]) -> bool
    ensures { result ≡ fits logged.now bytes.now (with_hash at.now.before (sha256 (at.now.before.hash ++ bytes.now))) }
{
    let hash = mixed(&at.before.hash, bytes);
    logged.fits(bytes, &with_hash(&at.before, hash))
}

// Whether these bytes, one behind the other, give the logged values.
fn joined_fits(
    alloc: Global,
    at: &Situation<'_>,
    logged: &Logged,
    first: &[u8],
    second: &[u8],
) -> Result<bool, AllocError>
    ensures { IfOk result (λ b. b ≡ bytes_fit at.now logged.now (first.now ++ second.now)) }
{
    let bytes = joined(alloc, first, second)?;
    Ok(bytes_fit(at, logged, &bytes))
}

fn big_endian_explains(
    alloc: Global,
    at: &Situation<'_>,
    logged: &Logged,
) -> Result<bool, AllocError>
    ensures { IfOk result (λ b. b ≡ nonce_fits_text at.now logged.now (big_endian at.now.before.nonce)) }
{
    let nonce = big_endian(at.before.nonce);
    nonce_fits_text(alloc, at, logged, &nonce)
}

fn next_nonce_explains(
    alloc: Global,
    at: &Situation<'_>,
    logged: &Logged,
) -> Result<bool, AllocError>
    ensures { IfOk result (λ b. b ≡ nonce_fits_text at.now logged.now (nonce_of (one_more at.now.before.nonce))) }
{
    let next = nonce(one_more(at.before.nonce));
    nonce_fits_text(alloc, at, logged, &next)
}

fn zero_nonce_explains(
    alloc: Global,
    at: &Situation<'_>,
    logged: &Logged,
) -> Result<bool, AllocError>
    ensures { IfOk result (λ b. b ≡ zero_fits at.now logged.now (sealed_by_zero at.now)) }
{
    let bytes = sealed_by(alloc, &at.before.key, 0, &at.before.hash, at.text)?;
    let state = with_nonce(&hashed(at, &bytes), raised(&at.before.key, 0));
    Ok(bytes_fit(at, logged, &bytes) || logged.fits(&bytes, &state))
}

// Whether the text and its state, without the steps since the last line that agrees, are what was logged.
fn without_steps_explains(
    alloc: Global,
    at: &Situation<'_>,
    logged: &Logged,
) -> Result<bool, AllocError>
    ensures { IfOk result (λ b. b ≡ without_steps_explains at.now logged.now) }
{
    let agreed = &at.agreed;
    let bytes = sealed_by(alloc, &agreed.key, agreed.nonce, &agreed.hash, at.text)?;
    let hashed = with_hash(agreed, mixed(&agreed.hash, &bytes));
    let state = with_nonce(&hashed, raised(&agreed.key, agreed.nonce));
    Ok(logged.fits(&bytes, &state) || logged.fits(at.bytes, &redone(at)))
}

// The nonce after a text: raised, if there is a key.
fn raised(key: &Option<[u8; 32]>, n: u64) -> u64
    ensures { result ≡ raised key.now n }
{
    match key {
        None => n,
        Some(_) => one_more(n),
    }
}

fn hashed_before(alloc: Global, at: &Situation<'_>, logged: &Logged) -> Result<bool, AllocError>
    ensures { IfOk result (λ b. b ≡ hashed_before at.now logged.now) }
{
    let hash = mixed(&at.before.hash, at.text);
    let bytes = sealed_by(alloc, &at.before.key, at.before.nonce, &hash, at.text)?;
    Ok(logged.fits(&bytes, &hashed(at, at.text)))
}

fn earlier_hash_explains(
    alloc: Global,
    at: &Situation<'_>,
    logged: &Logged,
) -> Result<bool, AllocError>
    ensures { IfOk result (λ b. b ≡ earlier_hash_explains at.now logged.now) }
{
    let mut found = false;
    for hash in at.hashes {
        if sealed_fits(alloc, at, logged, at.before.nonce, hash, at.text)? {
            found = true;
        }
    }
    Ok(found)
}

// Whether a public key of the file, as the text, gives the logged values.
fn other_key_explains(
    alloc: Global,
    at: &Situation<'_>,
    logged: &Logged,
) -> Result<bool, AllocError>
    ensures { IfOk result (λ b. b ≡ other_key_explains at.now logged.now) }
{
    let mut found = false;
    for key in at.publics {
        if sealed_fits(alloc, at, logged, at.before.nonce, &at.before.hash, key)? {
            found = true;
        }
    }
    Ok(found)
}

fn nonce_fits_text(
    alloc: Global,
    at: &Situation<'_>,
    logged: &Logged,
    nonce: &[u8; 12],
) -> Result<bool, AllocError>
    ensures { IfOk result (λ b. b ≡ nonce_fits_text at.now logged.now nonce.now) }
{
    let bytes = sealed_under(alloc, &at.before.key, nonce, &at.before.hash, at.text)?;
    Ok(bytes_fit(at, logged, &bytes))
}

// Whether a text under this nonce and with this associated data gives the logged values.
fn sealed_fits(
    alloc: Global,
    at: &Situation<'_>,
    logged: &Logged,
    number: u64,
    ad: &[u8],
    text: &[u8],
) -> Result<bool, AllocError>
    requires ad_fits { length ad.now ≤ 65535 }
    requires text_fits { length text.now ≤ 65535 }
    ensures value { IfOk result (λ b. b ≡ sealed_fits at.now logged.now number ad.now text.now) }
{
    let bytes = sealed_by(alloc, &at.before.key, number, ad, text)?;
    Ok(bytes_fit(at, logged, &bytes))
}

fn bytes_fit(at: &Situation<'_>, logged: &Logged, bytes: &[u8]) -> bool
    ensures { result ≡ bytes_fit at.now logged.now bytes.now }
{
    logged.fits(bytes, &hashed(at, bytes))
}

pub(crate) fn without_tag(bytes: &[u8]) -> &[u8]
    ensures { result.now ≡ without_tag bytes.now }
{
    let end = bytes.len().saturating_sub(16);
    &bytes[..end]
}

/// A text under a key and a nonce, if there is a key.
pub(crate) fn sealed_by(
    alloc: Global,
    key: &Option<[u8; 32]>,
    number: u64,
    ad: &[u8],
    text: &[u8],
) -> Result<Vec<u8>, AllocError>
    requires ad_fits { length ad.now ≤ 65535 }
    requires text_fits { length text.now ≤ 65535 }
    ensures bytes { IfOk result (λ v. v.items ≡ sealed_under key.now (nonce_of number) ad.now text.now) }
{
    let nonce = nonce(number);
    sealed_under(alloc, key, &nonce, ad, text)
}

/// The same with the bytes of a nonce.
pub(crate) fn sealed_under(
    alloc: Global,
    key: &Option<[u8; 32]>,
    nonce: &[u8; 12],
    ad: &[u8],
    text: &[u8],
) -> Result<Vec<u8>, AllocError>
    requires ad_fits { length ad.now ≤ 65535 }
    requires buf_fits { length text.now ≤ 65535 }
    ensures bytes { IfOk result (λ v. v.items ≡ sealed_under key.now nonce.now ad.now text.now) }
{
    let mut bytes = Vec::from_slice(alloc, text)?;
    match key {
        None => Ok(bytes),
        Some(key) => {
            let tag = seal_in_place(key, nonce, ad, &mut bytes);
            bytes.extend_from_slice(&tag)?;
            Ok(bytes)
        }
    }
}

fn big_endian(n: u64) -> [u8; 12]
    ensures { result ≡ big_endian n }
{
    let mut nonce = [0; 12];
    BigEndian::write_u64(&mut nonce[4..], n);
    nonce
}

fn first_bytes(n: u64) -> [u8; 12]
    ensures { result ≡ first_bytes n }
{
    let mut nonce = [0; 12];
    LittleEndian::write_u64(&mut nonce, n);
    nonce
}

fn big_endian_first_bytes(n: u64) -> [u8; 12]
    ensures { result ≡ big_endian_first_bytes n }
{
    let mut nonce = [0; 12];
    BigEndian::write_u64(&mut nonce, n);
    nonce
}

pub(crate) fn one_more(n: u64) -> u64
    ensures { result ≡ one_more n }
{
    if n < u64::MAX { n + 1 } else { n }
}
