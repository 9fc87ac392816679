//! The keys that one call of a party uses.

use crate::{Opening, Step};
use arrayvec::ArrayVec;

/// The keys that one call of a party uses.
#[derive(Drop)]
pub enum KeyUse {
    /// No key was used.
    Nothing,
    /// The steps of a handshake message, and the transport keys if it was the last one.
    Message {
        steps: ArrayVec<Step, 11>,
        opening: Option<Opening>,
    },
    /// A transport message's nonce and key, and the key of the messages after it if it is rekeyed then (Noise, 11.3).
    Transport {
        nonce: u64,
        key: [u8; 32],
        renewed: Option<[u8; 32]>,
    },
}
