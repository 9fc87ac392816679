//! Mistakes of Split and of Rekey.

ghost use Rattle.std.specs.Prelude.{◌≡◌, IfOk};
ghost use Rattle.noise_aead.specs.Sealing.{nonce_of};
ghost use Rattle.noise_compare.specs.Keys.{earlier_hash_fits, fits_with_key, is_key, key_before_explains, key_explains, other_key_explains, precedes, rekey_explains, split_explains};

use crate::mistake::KeyMistake;
use crate::mixing::with_hash;
use crate::secrets::with_nonce;
use crate::sources::bytes_from;
use crate::state::{Logged, Situation, has, nonce_fits};
use crate::texts::{one_more, sealed_under};
use noise_aead::{nonce, rekey};
use noise_kdf::{expand2, expand3};
use std::alloc::{AllocError, Global};

/// Whether a mistake gives the logged values.
#[tactic(auto, unfolding(crate::specs::Keys::key_explains))]
pub(crate) fn key_explains(
    alloc: Global,
    mistake: KeyMistake,
    at: &Situation<'_>,
    logged: &Logged,
) -> Result<bool, AllocError>
    ensures { IfOk result (λ b. b ≡ key_explains mistake at.now logged.now) }
{
    match mistake {
        KeyMistake::SplitLater => {
            let (_, second, third) = expand3(&at.right.chaining_key, &[]);
            Ok(fits_with_key(at, logged, &second) || fits_with_key(at, logged, &third))
        }
        KeyMistake::SplitOfHash => {
            Ok(split_explains(at, logged, &at.right.chaining_key, &at.right.hash))
        }
        KeyMistake::SplitOfZeros => {
            Ok(split_explains(at, logged, &at.right.chaining_key, &[0; 32]))
        }
        KeyMistake::SplitInputs => {
            Ok(split_explains(at, logged, &[0; 32], &at.right.chaining_key))
        }
        KeyMistake::Exchanged => Ok(other_key_explains(at, logged)),
        KeyMistake::EarlierHash => Ok(earlier_hash_fits(at, logged)),
        KeyMistake::NonceFromOne | KeyMistake::NonceRaised => {
            Ok(logged.fits(at.bytes, &with_nonce(&at.right, one_more(at.right.nonce))))
        }
        KeyMistake::NonceSetBack => Ok(logged.fits(at.bytes, &with_nonce(&at.right, 0))),
        KeyMistake::RekeyLater => Ok(key_before_explains(at, logged)),
        KeyMistake::RekeyLeftOut => {
            Ok(logged.fits(at.bytes, &at.before) || key_before_explains(at, logged))
        }
        KeyMistake::RekeyByNonce => rekey_explains(alloc, at, logged, at.right.nonce, 0),
        KeyMistake::RekeyByZero => rekey_explains(alloc, at, logged, 0, 0),
        KeyMistake::RekeyByOnes => renewed_fits(alloc, at, logged, &[255; 12], 0),
        KeyMistake::RekeyLastBytes => rekey_explains(alloc, at, logged, u64::MAX, 16),
    }
}

fn fits_with_key(at: &Situation<'_>, logged: &Logged, key: &[u8]) -> bool
    ensures { result ≡ fits_with_key at.now logged.now key.now }
{
    has(&logged.bytes, at.bytes)
        && has(&logged.hash, &at.right.hash)
        && has(&logged.chaining_key, &at.right.chaining_key)
        && has(&logged.key, key)
        && nonce_fits(&logged.nonce, at.right.nonce)
}

// Whether Split gives the logged values where HKDF takes this key and this input.
fn split_explains(at: &Situation<'_>, logged: &Logged, key: &[u8; 32], input: &[u8]) -> bool
    ensures { result ≡ split_explains at.now logged.now key.now input.now }
{
    let (first, second) = expand2(key, input);
    fits_with_key(at, logged, &first) || fits_with_key(at, logged, &second)
}

// Whether another key of the transport gives them.
fn other_key_explains(at: &Situation<'_>, logged: &Logged) -> bool
    ensures { result ≡ other_key_explains at.now logged.now }
{
    0 < at
        .keys
        .iter()
        .filter(|key| fits_with_key(at, logged, *key) && !precedes(at, *key))
        .count()
}

// Whether the hash before some step gives them.
fn earlier_hash_fits(at: &Situation<'_>, logged: &Logged) -> bool
    ensures { result ≡ earlier_hash_fits at.now logged.now }
{
    0 < at
        .hashes
        .iter()
        .filter(|hash| logged.fits(at.bytes, &with_hash(&at.right, **hash)))
        .count()
}

// Whether the key before Rekey gives them.
fn key_before_explains(at: &Situation<'_>, logged: &Logged) -> bool
    ensures { result ≡ key_before_explains at.now logged.now }
{
    0 < at
        .keys
        .iter()
        .filter(|key| fits_with_key(at, logged, *key) && precedes(at, *key))
        .count()
}

// Whether the right key is the one after Rekey of this one.
fn precedes(at: &Situation<'_>, key: &[u8; 32]) -> bool
    ensures { result ≡ precedes at.now key.now }
{
    is_key(&at.right.key, &rekey(key))
}

fn is_key(key: &Option<[u8; 32]>, other: &[u8]) -> bool
    ensures { result ≡ is_key key.now other.now }
{
    match key {
        None => false,
        Some(key) => key.as_slice() == other,
    }
}

// Whether Rekey by this nonce gives them, of whose output the key is 32 bytes from this place on.
fn rekey_explains(
    alloc: Global,
    at: &Situation<'_>,
    logged: &Logged,
    number: u64,
    from: usize,
) -> Result<bool, AllocError>
    ensures { IfOk result (λ b. b ≡ rekey_explains at.now logged.now (nonce_of number) from) }
{
    let nonce = nonce(number);
    renewed_fits(alloc, at, logged, &nonce, from)
}

// Likewise with the bytes of a nonce.
fn renewed_fits(
    alloc: Global,
    at: &Situation<'_>,
    logged: &Logged,
    nonce: &[u8; 12],
    from: usize,
) -> Result<bool, AllocError>
    ensures { IfOk result (λ b. b ≡ rekey_explains at.now logged.now nonce.now from) }
{
    let bytes = sealed_under(alloc, &at.before.key, nonce, &[], &[0; 32])?;
    let mut key = bytes_from(alloc, &bytes, from)?;
    key.truncate(32);
    Ok(fits_with_key(at, logged, &key))
}
