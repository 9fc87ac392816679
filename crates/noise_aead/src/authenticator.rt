//! The tag of a ciphertext and its associated data (RFC 8439, 2.8).
ghost use Rattle.std.specs.Prelude.{◌≡◌, ◌↔◌, ◌++◌, length, IsTrue};
ghost use Rattle.std.specs.Int.{w64, to_le_bytes};
ghost use Rattle.noise_poly.specs.Poly.{tag_of};
ghost use Rattle.noise_aead.specs.Sealing.{padding, authenticated};

use noise_poly::Poly1305;

/// The tag over both texts, each padded with zeros to a multiple of 16 bytes, and their lengths.
pub fn tag(one_time_key: &[u8; 32], ad: &[u8], ciphertext: &[u8]) -> [u8; 16]
    ensures { result ≡ tag_of one_time_key.now (authenticated ad.now ciphertext.now) }
{
    let mut state = Poly1305::new(one_time_key);
    state.update(ad);
    state.update(zeros_after(ad));
    state.update(ciphertext);
    state.update(zeros_after(ciphertext));
    state.update(&lengths(ad, ciphertext));
    state.finish()
}

// The lengths of both texts, 8 bytes each, the lowest byte first.
fn lengths(ad: &[u8], ciphertext: &[u8]) -> [u8; 16]
    ensures { result ≡ to_le_bytes w64 (length ad.now) ++ to_le_bytes w64 (length ciphertext.now) }
{
    let mut lengths = [0; 16];
    lengths[..8].copy_from_slice(&(ad.len() as u64).to_le_bytes());
    lengths[8..].copy_from_slice(&(ciphertext.len() as u64).to_le_bytes());
    lengths
}

// The zeros that make a text's length a multiple of 16.
fn zeros_after(text: &[u8]) -> &'static [u8]
    ensures { result.now ≡ padding text.now }
{
    let zeros: &[u8; 15] = &[0; 15];
    &zeros[..(16 - text.len() % 16) % 16]
}

/// Whether two tags are the same. All 16 bytes are compared at once, as numbers.
pub fn is_same(a: &[u8; 16], b: &[u8; 16]) -> bool
    ensures { IsTrue result ↔ (a.now ≡ b.now) }
{
    u128::from_le_bytes(*a) == u128::from_le_bytes(*b)
}
