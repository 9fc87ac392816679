//! Decryption of what has the right tag (RFC 8439, 2.8).
ghost use Rattle.std.specs.Prelude.{◌≡◌, ◌↔◌, ◌≤◌, ℕ, List, ◌++◌, length, IsOk, OnOk, OnErr};
ghost use Rattle.noise_aead.specs.Sealing.{sealed};

use crate::{authenticator, keystream};

/// A tag that is not the tag of the ciphertext, the nonce and the associated data under the key.
///
/// It doesn't say which of them differs.
#[derive(Debug, Clone, Copy, PartialEq, Eq)]
pub struct TagFault;

/// Decrypts the ciphertext in `buf` in place, if the tag is its tag under the key, the nonce and
/// the associated data (RFC 8439, 2.8).
///
/// The tag is compared before a byte is changed, all 16 bytes of it. A wrong one is a `TagFault`,
/// which leaves `buf` as it was.
pub fn open_in_place(
    key: &[u8; 32],
    nonce: &[u8; 12],
    ad: &[u8],
    buf: &mut [u8],
    tag: &[u8; 16],
) -> Result<(), TagFault>
    requires ad_fits { length ad.now ≤ 65535 }
    requires buf_fits { length buf.old ≤ 65535 }

    // Ok exactly if buffer and tag are what sealing gives for some text, which the buffer then holds.
    ensures accepts { IsOk result
        ↔ ((text : List ℕ) × (buf.old ++ tag.now ≡ sealed key.now nonce.now ad.now text)) }
    ensures ok { OnOk result (buf.old ++ tag.now ≡ sealed key.now nonce.now ad.now buf.new) }
    ensures err { OnErr result (buf.new ≡ buf.old) }
{
    let mut words = keystream::generator(key, nonce, 0);
    let one_time_key = keystream::half_block(&mut words);
    let expected = authenticator::tag(&one_time_key, ad, buf);
    if authenticator::is_same(&expected, tag) {
        keystream::apply(&mut words, buf);
        Ok(())
    } else {
        Err(TagFault)
    }
}
