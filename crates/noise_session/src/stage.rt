//! Where a session stands.

/// Where a session stands.
#[derive(Clone, Copy, Debug, PartialEq, Eq)]
pub enum Stage {
    /// So many handshake messages have passed, and more are to come; `ours`: this party writes the next.
    Handshake { done: u8, ours: bool },
    /// The session is open, with the nonces of the next transport messages.
    Transport { send: u64, receive: u64 },
    /// The session has ended.
    Ended,
}
