//! HMAC with SHA-256 (RFC 2104), and the key derivation of the Noise Protocol Framework
//! (revision 34, section 4.3) over it.
//!
//! ```rust
//! use noise_kdf::{expand2, hmac};
//!
//! let code: [u8; 32] = hmac(b"Jefe", &[b"what do ya want ", b"for nothing?"]);
//! let (chaining_key, cipher_key) = expand2(&code, b"input key material");
//! ```
#![tactic(auto)]

ghost use Rattle.std.specs.Prelude.{◌≡◌, ◌≤◌, ◌++◌, ℕ, List, [], ◌∷◌, length};
ghost use Rattle.std.specs.List.{flat_map};
ghost use Rattle.noise_kdf.specs.Hkdf.{hmac_of, first_output, second_output, third_output};
ghost use Rattle.noise_kdf.specs.Keyed.{HasHmacKey};

use keyed::Hmac;

mod keyed;

/// HMAC-SHA256 (RFC 2104) of the parts joined, under a key of at most 64 bytes, which is SHA-256's
/// block. A text in several parts, empty ones too, has the code of the text in one.
pub fn hmac(key: &[u8], parts: &[&[u8]]) -> [u8; 32]
    requires short { length key.now ≤ 64 }
    ensures value { result ≡ hmac_of key.now (flat_map (λ p. p.now) parts.now) }
{
    Hmac::new(key).code(parts)
}

// The two outputs that follow from HKDF's temporary key.
fn two_outputs(temporary: &Hmac) -> ([u8; 32], [u8; 32])
    ensures { (key : List ℕ) → HasHmacKey temporary.now key →
        (result.0 ≡ hmac_of key (1 ∷ [])) × (result.1 ≡ hmac_of key (result.0 ++ 2 ∷ [])) }
{
    let first = temporary.code(&[&[1]]);
    let second = temporary.code(&[&first, &[2]]);
    (first, second)
}

/// The first two outputs of HKDF (Noise 4.3) of a chaining key and input key material of any
/// length.
pub fn expand2(ck: &[u8; 32], ikm: &[u8]) -> ([u8; 32], [u8; 32])
    ensures first { result.0 ≡ first_output ck.now ikm.now }
    ensures second { result.1 ≡ second_output ck.now ikm.now }
{
    let temporary = Hmac::new(&hmac(ck, &[ikm]));
    two_outputs(&temporary)
}

/// The three outputs of HKDF (Noise 4.3) of a chaining key and input key material of any length.
/// The first two are those of [`expand2`].
pub fn expand3(ck: &[u8; 32], ikm: &[u8]) -> ([u8; 32], [u8; 32], [u8; 32])
    ensures first { result.0 ≡ first_output ck.now ikm.now }
    ensures second { result.1 ≡ second_output ck.now ikm.now }
    ensures third { result.2 ≡ third_output ck.now ikm.now }
{
    let temporary = Hmac::new(&hmac(ck, &[ikm]));
    let (first, second) = two_outputs(&temporary);
    let third = temporary.code(&[&second, &[3]]);
    (first, second, third)
}
