//! ChaCha20-Poly1305 (RFC 8439, 2.8) in place, with the nonces and the rekeying of Noise (12.3, 4.2).
//!
//! No call allocates. A key has 32 bytes, a nonce 12 and a tag 16; associated data and text have at
//! most 65535 bytes each, as the messages of Noise.
#![tactic(auto)]

mod authenticator;
mod decryption;
mod encryption;
mod keystream;

pub use decryption::{TagFault, open_in_place};
pub use encryption::{nonce, rekey, seal_in_place};
pub use keystream::xor64;

pub mod laws;
