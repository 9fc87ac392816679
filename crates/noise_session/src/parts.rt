//! What the halves of a transport hold, for a caller that keeps them itself, as one in another language.

use crate::Window;
use noise_names::Role;

/// What the sending or the receiving half of a transport holds between two messages.
#[derive(Drop)]
pub struct HalfParts {
    pub role: Role,
    /// Whether only the initiator writes (Noise, 7.4).
    pub one_way: bool,
    /// After how many messages the key is renewed; 0 for never.
    pub interval: u64,
    pub key: [u8; 32],
    pub nonce: u64,
}

/// What the sending half of datagrams holds between two of them.
#[derive(Drop)]
pub struct DatagramSenderParts {
    pub role: Role,
    /// Whether only the initiator writes (Noise, 7.4).
    pub one_way: bool,
    pub key: [u8; 32],
    pub nonce: u64,
}

/// What the receiving half of datagrams holds between two of them.
#[derive(Drop)]
pub struct DatagramReceiverParts {
    pub role: Role,
    /// Whether only the initiator writes (Noise, 7.4).
    pub one_way: bool,
    pub key: [u8; 32],
    pub window: Window,
    /// The greatest nonce that was opened, 0 where there is none.
    pub greatest: u64,
    /// A bit for each nonce near it.
    pub words: [u64; 17],
}
