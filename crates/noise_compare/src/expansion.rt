//! HMAC and HKDF in other forms.

ghost use Rattle.std.specs.Prelude.{◌≡◌, ◌≤◌, ◌++◌, ◌∷◌, [], IfOk};
ghost use Rattle.noise_compare.specs.Holding.{block, code_of, info_of, output_of, temporary_of};

use crate::equation::{Derivation, Expansion, Output};
use crate::mixing::mixed;
use noise_kdf::hmac;
use sha2::{Digest, Sha256};
use std::alloc::{AllocError, Global};

/// HMAC of a text under a key of any length.
pub(crate) fn code_of(key: &[u8], text: &[u8]) -> [u8; 32]
    ensures { result ≡ code_of key.now text.now }
{
    if key.len() <= 64 {
        hmac(key, &[text])
    } else {
        let key: [u8; 32] = Sha256::digest(key);
        hmac(&key, &[text])
    }
}

/// An output of HKDF in another form, of this temporary key, and with this info in front of the counter.
#[tactic(auto, unfolding(crate::specs::Holding::output_of))]
pub(crate) fn output_of(
    alloc: Global,
    expansion: Expansion,
    temporary: &[u8; 32],
    info: &[u8],
    output: Output,
) -> Result<[u8; 32], AllocError>
    ensures { IfOk result (λ o. o ≡ output_of expansion temporary.now info.now output) }
{
    let first = block(alloc, expansion, temporary, info, &[], 1)?;
    match output {
        Output::First => Ok(first),
        Output::Second => block(alloc, expansion, temporary, info, &first, 2),
        Output::Third => {
            let second = block(alloc, expansion, temporary, info, &first, 2)?;
            block(alloc, expansion, temporary, info, &second, 3)
        }
    }
}

// The output of this number, after another.
#[tactic(auto, unfolding(crate::specs::Holding::block))]
fn block(
    alloc: Global,
    expansion: Expansion,
    temporary: &[u8; 32],
    info: &[u8],
    before: &[u8],
    number: u8,
) -> Result<[u8; 32], AllocError>
    requires few { number ≤ 3 }
    ensures value { IfOk result (λ o. o ≡ block expansion temporary.now info.now before.now number) }
{
    match expansion {
        Expansion::Standard => Ok(hmac(temporary, &[before, info, &[number]])),
        Expansion::FromZero => Ok(hmac(temporary, &[before, &[number.saturating_sub(1)]])),
        Expansion::Digits => Ok(hmac(temporary, &[before, &[number + 48]])),
        Expansion::BigCounter => Ok(hmac(temporary, &[before, &[0, 0, 0, number]])),
        Expansion::LittleCounter => Ok(hmac(temporary, &[before, &[number, 0, 0, 0]])),
        Expansion::CounterInFront => Ok(hmac(temporary, &[&[number], before])),
        Expansion::NoCounter => Ok(hmac(temporary, &[before])),
        Expansion::Unchained => Ok(hmac(temporary, &[&[number]])),
        Expansion::Exchanged => exchanged_block(alloc, temporary, before, number),
    }
}

fn exchanged_block(
    alloc: Global,
    temporary: &[u8; 32],
    before: &[u8],
    number: u8,
) -> Result<[u8; 32], AllocError>
    ensures { IfOk result (λ o. o ≡ code_of (before.now ++ number ∷ []) temporary.now) }
{
    let mut key = Vec::from_slice(alloc, before)?;
    key.push(number)?;
    Ok(code_of(&key, temporary))
}

/// The temporary key of HKDF in another way.
#[tactic(auto, unfolding(crate::specs::Holding::temporary_of))]
pub(crate) fn temporary_of(
    derivation: Derivation,
    chaining_key: &[u8; 32],
    input: &[u8],
) -> [u8; 32]
    ensures { result ≡ temporary_of derivation chaining_key.now input.now }
{
    match derivation {
        Derivation::DigestFirst => mixed(chaining_key, input),
        Derivation::KeysHashed => {
            let key: [u8; 32] = Sha256::digest(chaining_key);
            Sha256::digest(&hmac(&key, &[input]))
        }
        Derivation::NameAsInfo => hmac(chaining_key, &[input]),
        Derivation::ExpandAlone => *chaining_key,
    }
}

/// What each of its outputs takes before the counter.
#[tactic(auto, unfolding(crate::specs::Holding::info_of))]
pub(crate) fn info_of<'a>(derivation: Derivation, name: &'a [u8], input: &'a [u8]) -> &'a [u8]
    ensures { result.now ≡ info_of derivation name.now input.now }
{
    match derivation {
        Derivation::NameAsInfo => name,
        Derivation::ExpandAlone => input,
        Derivation::DigestFirst | Derivation::KeysHashed => &[],
    }
}
