//! The keys that a vector file gives to a party.

use noise_keys::{Keys, Own, TableKeys, XorKeys};

/// The keys of a party: those whose DH is the xor of bytes, or those whose DH results are in the file.
#[derive(Drop)]
pub enum FileKeys {
    Xor(XorKeys),
    Table(TableKeys),
}

impl Keys for FileKeys {
    ghost use Rattle.noise_vectors.specs.FileKeys.{pairs_of};

    ghost pairs = { pairs_of };

    fn public(&self, own: Own) -> Option<[u8; 32]> {
        match self {
            FileKeys::Xor(keys) => keys.public(own),
            FileKeys::Table(keys) => keys.public(own),
        }
    }

    fn agree(&self, own: Own, remote: &[u8; 32]) -> Option<[u8; 32]> {
        match self {
            FileKeys::Xor(keys) => keys.agree(own, remote),
            FileKeys::Table(keys) => keys.agree(own, remote),
        }
    }
}
