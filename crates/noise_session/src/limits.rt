//! Limits of messages, datagrams and nonces (Noise, 3, 5.1 and 11.4).

/// The longest payload of a transport message or a datagram, in bytes: the message has 16 more, and at most 65535.
pub const PAYLOAD_MAX: usize = 65519;

// The most bytes of a frame: a length of 2 bytes, and a message of 65535.
pub(crate) const FRAME_MAX: usize = 65537;

/// The bytes of a datagram's nonce, which come first.
pub const NONCE_LEN: usize = 8;

/// The bytes of a datagram beside its payload: those of its nonce, and the 16 of its tag.
pub const DATAGRAM_OVERHEAD: usize = 24;

/// The longest datagram, in bytes: a nonce and the longest message.
pub const DATAGRAM_MAX: usize = 65543;

/// The nonce that no message has.
pub const LAST_NONCE: u64 = u64::MAX;
