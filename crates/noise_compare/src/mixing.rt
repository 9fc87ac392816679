//! Mistakes of the start, and of steps that call MixHash.

ghost use Rattle.std.specs.Prelude.{◌≡◌, ◌++◌, IfOk, map};
ghost use Rattle.std.specs.Char.{to_ascii_lowercase};
ghost use Rattle.sha2.specs.Sha256.{sha256};
ghost use Rattle.noise_compare.specs.Mixing.{first_hash, hash_explains, hash_state, hashed, length_in_front, length_in_front_explains, length_mixed, length_mixed_explains, name_explains, padded, redone, start_fits, with_hash, with_key};

use crate::mistake::{HashMistake, NameMistake};
use crate::state::{Logged, Situation, State, has, key_fits, nonce_fits};
use noise_kdf::expand2;
use sha2::{Digest, Sha256};
use std::alloc::{AllocError, Global};

/// Whether a mistake at the start gives the logged values.
#[tactic(auto, unfolding(crate::specs::Mixing::name_explains))]
pub(crate) fn name_explains(
    alloc: Global,
    mistake: NameMistake,
    at: &Situation<'_>,
    logged: &Logged,
) -> Result<bool, AllocError>
    ensures { IfOk result (λ b. b ≡ name_explains mistake at.now logged.now) }
{
    match mistake {
        NameMistake::Hashed => {
            let hash: [u8; 32] = Sha256::digest(at.name);
            Ok(start_fits(at, logged, &hash, &hash))
        }
        NameMistake::Padded => {
            let hash = padded(alloc, at.name)?;
            Ok(start_fits(at, logged, &hash, &hash))
        }
        NameMistake::LowerCase => {
            let name = lower_case(alloc, at.name)?;
            let hash = first_hash(alloc, &name)?;
            Ok(start_fits(at, logged, &hash, &hash))
        }
        NameMistake::ChainingKeyOfZeros => { Ok(start_fits(at, logged, &at.right.hash, &[0; 32])) }
    }
}

fn start_fits(at: &Situation<'_>, logged: &Logged, hash: &[u8], chaining_key: &[u8]) -> bool
    ensures { result ≡ start_fits at.now logged.now hash.now chaining_key.now }
{
    has(&logged.bytes, at.bytes)
        && has(&logged.hash, hash)
        && has(&logged.chaining_key, chaining_key)
        && key_fits(&logged.key, &at.right.key)
        && nonce_fits(&logged.nonce, at.right.nonce)
}

// 32 bytes: cut, or with zeros after them.
fn padded(alloc: Global, text: &[u8]) -> Result<Vec<u8>, AllocError>
    ensures { IfOk result (λ v. v.items ≡ padded text.now) }
{
    let mut padded = Vec::from_slice(alloc, text)?;
    padded.resize(32, 0)?;
    Ok(padded)
}

fn first_hash(alloc: Global, name: &[u8]) -> Result<Vec<u8>, AllocError>
    ensures { IfOk result (λ v. v.items ≡ first_hash name.now) }
{
    if name.len() <= 32 {
        return padded(alloc, name);
    }
    let hash: [u8; 32] = Sha256::digest(name);
    Vec::from_slice(alloc, &hash)
}

fn lower_case(alloc: Global, text: &[u8]) -> Result<Vec<u8>, AllocError>
    ensures { IfOk result (λ v. v.items ≡ map to_ascii_lowercase text.now) }
{
    text.iter().map(|b| b.to_ascii_lowercase()).collect(alloc)
}

/// Whether a mistake at a step that calls MixHash gives the logged values.
#[tactic(auto, unfolding(crate::specs::Mixing::hash_explains))]
pub(crate) fn hash_explains(
    alloc: Global,
    mistake: HashMistake,
    at: &Situation<'_>,
    logged: &Logged,
) -> Result<bool, AllocError>
    ensures { IfOk result (λ b. b ≡ hash_explains mistake at.now logged.now) }
{
    match mistake {
        HashMistake::LengthInFront => Ok(length_in_front_explains(at, logged)),
        HashMistake::LengthMixed => Ok(length_mixed_explains(at, logged)),
        HashMistake::OtherKey => Ok(
            0 < at
                .publics
                .iter()
                .filter(|key| logged.fits(at.bytes, &hashed(at, *key)))
                .count(),
        ),
        HashMistake::HexDigits => {
            let digits = hex::encode(alloc, at.data)?;
            Ok(logged.fits(at.bytes, &hashed(at, digits.as_bytes())))
        }
        _ => Ok(logged.fits(at.bytes, &hash_state(mistake, at))),
    }
}

/// The right state, with the hash of these bytes.
pub(crate) fn hashed(at: &Situation<'_>, bytes: &[u8]) -> State
    ensures { result ≡ hashed at.now bytes.now }
{
    with_hash(&at.right, mixed(&at.before.hash, bytes))
}

#[tactic(auto, unfolding(crate::specs::Mixing::hash_state))]
fn hash_state(mistake: HashMistake, at: &Situation<'_>) -> State
    ensures { result ≡ hash_state mistake at.now }
{
    match mistake {
        HashMistake::LeftOut => with_hash(&at.right, at.before.hash),
        HashMistake::LengthInFront | HashMistake::LengthMixed => at.right,
        HashMistake::OtherKey | HashMistake::HexDigits => at.right,
        HashMistake::DataFirst => with_hash(&at.right, mixed(at.data, &at.before.hash)),
        HashMistake::KeyLeftOut => with_hash(&at.before, at.right.hash),
        HashMistake::KeyMixed => with_key(&at.right, &at.before.chaining_key, at.data),
        HashMistake::StepsLeftOut => redone(at),
    }
}

pub(crate) fn redone(at: &Situation<'_>) -> State
    ensures { result ≡ redone at.now }
{
    let hashed = with_hash(&at.agreed, mixed(&at.agreed.hash, at.data));
    if at.right.chaining_key.as_slice() == at.before.chaining_key.as_slice() {
        hashed
    } else {
        with_key(&hashed, &at.agreed.chaining_key, at.data)
    }
}

pub(crate) fn with_hash(state: &State, hash: [u8; 32]) -> State
    ensures { result ≡ with_hash state.now hash }
{
    State { hash, ..*state }
}

// MixKey, from this chaining key.
pub(crate) fn with_key(state: &State, chaining_key: &[u8; 32], input: &[u8]) -> State
    ensures { result ≡ with_key state.now chaining_key.now input.now }
{
    let (chaining_key, key) = expand2(chaining_key, input);
    State {
        hash: state.hash,
        chaining_key,
        key: Some(key),
        nonce: 0,
    }
}

// The hash of both.
pub(crate) fn mixed(hash: &[u8], text: &[u8]) -> [u8; 32]
    ensures { result ≡ sha256 (hash.now ++ text.now) }
{
    let mut hasher = Sha256::new();
    hasher.update(hash);
    hasher.update(text);
    hasher.finalize()
}

/// Whether MixHash of a length and the bytes gives the logged values.
pub(crate) fn length_in_front_explains(at: &Situation<'_>, logged: &Logged) -> bool
    ensures { result ≡ length_in_front_explains at.now logged.now }
{
    let (short, long) = (at.data.len() as u16, at.data.len() as u32);
    logged.fits(at.bytes, &length_in_front(at, &short.to_be_bytes()))
        || logged.fits(at.bytes, &length_in_front(at, &short.to_le_bytes()))
        || logged.fits(at.bytes, &length_in_front(at, &long.to_be_bytes()))
        || logged.fits(at.bytes, &length_in_front(at, &long.to_le_bytes()))
}

/// Whether MixHash of a length, and then of the bytes, gives the logged values.
pub(crate) fn length_mixed_explains(at: &Situation<'_>, logged: &Logged) -> bool
    ensures { result ≡ length_mixed_explains at.now logged.now }
{
    let (short, long) = (at.data.len() as u16, at.data.len() as u32);
    logged.fits(at.bytes, &length_mixed(at, &short.to_be_bytes()))
        || logged.fits(at.bytes, &length_mixed(at, &short.to_le_bytes()))
        || logged.fits(at.bytes, &length_mixed(at, &long.to_be_bytes()))
        || logged.fits(at.bytes, &length_mixed(at, &long.to_le_bytes()))
}

fn length_in_front(at: &Situation<'_>, front: &[u8]) -> State
    ensures { result ≡ length_in_front at.now front.now }
{
    let mut hasher = Sha256::new();
    hasher.update(at.before.hash);
    hasher.update(front);
    hasher.update(at.data);
    with_hash(&at.right, hasher.finalize())
}

fn length_mixed(at: &Situation<'_>, front: &[u8]) -> State
    ensures { result ≡ length_mixed at.now front.now }
{
    let hash = mixed(&at.before.hash, front);
    with_hash(&at.right, mixed(&hash, at.data))
}
