//! HMAC under one key, made ready once for several texts.

ghost use Rattle.std.specs.Prelude.{◌≡◌, ◌≤◌, ◌++◌, ℕ, List, length, map, bit_xor};
ghost use Rattle.std.specs.List.{flat_map};
ghost use Rattle.sha2.specs.Hashers.{Holds256};
ghost use Rattle.noise_kdf.specs.Hkdf.{block_key, hmac_of};

use sha2::{Digest, Sha256};

const BLOCK_LEN: usize = 64;

const INNER_PAD: u8 = 0x36;

const OUTER_PAD: u8 = 0x5c;

// The key with zeros up to a block.
fn key_block(key: &[u8]) -> [u8; 64]
    requires short { length key.now ≤ 64 }
    ensures value { result ≡ block_key key.now }
{
    let mut block = [0; BLOCK_LEN];
    block[..key.len()].copy_from_slice(key);
    block
}

fn padded(mut block: [u8; 64], pad: u8) -> [u8; 64]
    ensures { result ≡ map (λ b. bit_xor b pad) block }
{
    for i in 0..BLOCK_LEN {
        block[i] ^= pad;
    }
    block
}

fn add_parts(hasher: &mut Sha256, parts: &[&[u8]])
    ensures { (m : List ℕ) → Holds256 hasher.old m
        → Holds256 hasher.new (m ++ flat_map (λ p. p.now) parts.now) }
{
    for part in parts {
        hasher.update(*part);
    }
}

// The two hashers of a key, each after the padded key. Every text starts from copies of them, so
// the key's two blocks are hashed once.
#[derive(Drop)]
pub struct Hmac {
    inner: Sha256,
    outer: Sha256,
}

impl Hmac {
    ghost use Rattle.noise_kdf.specs.Keyed.{HasHmacKey};

    pub fn new(key: &[u8]) -> Hmac
        requires short { length key.now ≤ 64 }
        ensures keyed { HasHmacKey result key.now }
    {
        let block = key_block(key);
        Hmac {
            inner: Sha256::new_with_prefix(padded(block, INNER_PAD)),
            outer: Sha256::new_with_prefix(padded(block, OUTER_PAD)),
        }
    }

    // The code of the parts joined.
    pub fn code(&self, parts: &[&[u8]]) -> [u8; 32]
        ensures { (key : List ℕ) → HasHmacKey self.now key
            → result ≡ hmac_of key (flat_map (λ p. p.now) parts.now) }
    {
        let mut inner = self.inner.clone().unwrap();
        add_parts(&mut inner, parts);
        let mut outer = self.outer.clone().unwrap();
        outer.update(inner.finalize());
        outer.finalize()
    }
}
