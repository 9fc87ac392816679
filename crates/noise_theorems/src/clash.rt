//! Where the texts that two parties hashed clash.

ghost use Rattle.std.specs.Prelude.{◌≡◌, IfOk, MatchOption, None};
ghost use Rattle.noise_state.specs.History.{History};
ghost use Rattle.noise_duel.specs.Clash.{clash, clash_position, first_clash};
ghost use Rattle.noise_duel.specs.HashedTexts.{hash_texts};
ghost use Rattle.noise_names.specs.Lists.{bytes_of};
ghost use Rattle.noise_theorems.specs.Mixed.{HasMixed, IsHashClash};

use noise_duel::laws::clash_reported;
use noise_state::SymmetricState;
use sha2::{Digest, Sha256};
use std::alloc::{AllocError, Global};

/// Two different texts with one SHA-256 digest, which two parties hashed at the same position.
#[derive(Debug, Drop, PartialEq, Eq)]
pub struct HashClash {
    /// The position among the texts that each party hashed, counted from 0.
    pub position: usize,
    /// The text of the first party: its hash before that position, and what it mixed there.
    pub left: Vec<u8>,
    /// The text of the second party.
    pub right: Vec<u8>,
}

// Whether two texts are different ones with one digest.
fn is_clash(left: &[u8], right: &[u8]) -> bool
    ensures { result ≡ clash left.now right.now }
{
    left != right && Sha256::digest(left) == Sha256::digest(right)
}

/// The first position, counted from 0, at which two lists have different texts with one SHA-256 digest. None where
/// there is none.
///
/// It is the position that `run_apart` speaks of, where the lists are those of the texts whose digests were the
/// handshake hash of each party, the first one first (MixHash; Noise, 5.2).
pub fn find_clash(left: &[Vec<u8>], right: &[Vec<u8>]) -> Option<usize>
    ensures { result ≡ first_clash 0 (bytes_of left.now) (bytes_of right.now) }
{
    let count = left.len().min(right.len());
    for position in 0..count {
        if is_clash(&left[position], &right[position]) {
            return Some(position);
        }
    }
    None
}

/// Two parties of one protocol name mixed these texts into their hashes, each the first one first: the first two of the
/// texts that they hashed so which differ with one SHA-256 digest. None where there are none.
///
/// What a party mixes is what MixHash, EncryptAndHash and DecryptAndHash add to `h`: the prologue, public keys and
/// payloads as they travel; and of each psk the second output of HKDF, a secret (Noise, 5.2).
pub fn find_mix_hash_clash(
    alloc: Global,
    name: &[u8],
    left: &[Vec<u8>],
    right: &[Vec<u8>],
) -> Result<Option<HashClash>, AllocError>
    ensures found { (r s : History) → HasMixed r name.now (bytes_of left.now) → HasMixed s name.now (bytes_of right.now)
        → IfOk result (λ found. MatchOption found (clash_position r s ≡ None) (λ reported. IsHashClash r s reported)) }
{
    clash_reported();
    let mut first = texts_hashed(alloc, name, left)?;
    let mut second = texts_hashed(alloc, name, right)?;
    match find_clash(&first, &second) {
        Some(position) => Ok(Some(HashClash {
            position,
            left: first.swap_remove(position),
            right: second.swap_remove(position),
        })),
        None => Ok(None),
    }
}

// The texts that a party of this protocol name hashes as it mixes these, the first one first: each is the hash before
// it and what is mixed.
fn texts_hashed(alloc: Global, name: &[u8], mixed: &[Vec<u8>]) -> Result<Vec<Vec<u8>>, AllocError>
    ensures { (r : History) → HasMixed r name.now (bytes_of mixed.now)
        → IfOk result (λ texts. bytes_of texts.items ≡ hash_texts r) }
{
    let mut state = SymmetricState::new(name);
    let mut texts = Vec::new(alloc);
    for piece in mixed {
        let mut text = Vec::from_slice(alloc, &state.hash())?;
        text.extend_from_slice(piece)?;
        texts.push(text)?;
        state.mix_hash(piece);
    }
    Ok(texts)
}
