//! A toy whose two parties agree.

ghost use Rattle.std.specs.Prelude.{◌≡◌};
ghost use Rattle.noise_keys.specs.Keys.{xored_bytes};

use crate::{Agreeing, Keys, Own};

/// Keys for tests and examples, whose DH is the xor of bytes. **A toy, not secure at all:** the bytes that it stores
/// are sent as the public key, and whoever reads them has every DH result.
///
/// The public key of a key pair is the stored bytes, and the DH result to a remote public key is the xor of the two,
/// byte by byte. There is no DH result only where there is no such key pair.
#[derive(Clone, Copy, Debug, Drop, PartialEq, Eq)]
pub struct XorKeys {
    pub e: Option<[u8; 32]>,
    pub s: Option<[u8; 32]>,
}

impl Keys for XorKeys {
    ghost use Rattle.noise_keys.specs.Keys.{key_of, xor_dh_result};

    ghost pairs = { λ keys. record {
      public = λ own. key_of own keys.e keys.s;
      agree = λ own remote. xor_dh_result (key_of own keys.e keys.s) remote;
    } };

    fn public(&self, own: Own) -> Option<[u8; 32]> {
        match own {
            Own::Ephemeral => self.e,
            Own::Static => self.s,
        }
    }

    fn agree(&self, own: Own, remote: &[u8; 32]) -> Option<[u8; 32]> {
        match self.public(own) {
            Some(key) => Some(xor(&key, remote)),
            None => None,
        }
    }
}

impl Agreeing for XorKeys {
    ghost use Rattle.noise_keys.specs.Keys.{key_of, xor_dh_result-same};

    ghost commutes = { λ a b x y p q r s ep eq er es.
        xor_dh_result-same (key_of x a.e a.s) (key_of y b.e b.s) p q r s ep eq er es };
}

// The xor of two keys, byte by byte.
fn xor(key: &[u8; 32], other: &[u8; 32]) -> [u8; 32]
    ensures { result ≡ xored_bytes key.now other.now }
{
    let mut answer = *key;
    for i in 0..32 {
        answer[i] ^= other[i];
    }
    answer
}
