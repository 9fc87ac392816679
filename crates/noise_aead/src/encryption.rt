//! Encryption with a tag (RFC 8439, 2.8), the nonces of a counter and the rekeying (Noise 12.3 and 4.2).
ghost use Rattle.std.specs.Prelude.{◌≡◌, ◌≤◌, ◌++◌, length};
ghost use Rattle.noise_aead.specs.Sealing.{sealed, nonce_of, rekeyed};

use crate::{authenticator, keystream};
use byteorder::{ByteOrder, LittleEndian};

/// The nonce of a counter (Noise 12.3): four zero bytes, and the counter, its lowest byte first.
pub fn nonce(counter: u64) -> [u8; 12]
    ensures { result ≡ nonce_of counter }
{
    let mut nonce = [0; 12];
    LittleEndian::write_u64(&mut nonce[4..], counter);
    nonce
}

/// Encrypts the text in `buf` in place, and returns the tag of the ciphertext and the associated
/// data (RFC 8439, 2.8).
pub fn seal_in_place(key: &[u8; 32], nonce: &[u8; 12], ad: &[u8], buf: &mut [u8]) -> [u8; 16]
    requires ad_fits { length ad.now ≤ 65535 }
    requires buf_fits { length buf.old ≤ 65535 }
    ensures sealed { buf.new ++ result ≡ sealed key.now nonce.now ad.now buf.old }
{
    let mut words = keystream::generator(key, nonce, 0);
    let one_time_key = keystream::half_block(&mut words);
    keystream::apply(&mut words, buf);
    authenticator::tag(&one_time_key, ad, buf)
}

/// The key that follows a key (Noise 4.2): the first 32 bytes of 32 sealed zeros, with the nonce of
/// the last counter, `2^64 - 1`, and no associated data.
///
/// Sealed zeros are the keystream's own bytes from block 1 on, and their tag is not computed.
pub fn rekey(key: &[u8; 32]) -> [u8; 32]
    ensures { result ≡ rekeyed key.now }
{
    let mut words = keystream::generator_apart(key, &nonce(u64::MAX), 16);
    keystream::half_block(&mut words)
}
