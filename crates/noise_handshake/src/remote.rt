//! Public keys of the other party.

/// Public keys of the other party, as far as they are known.
#[derive(Clone, Copy, Debug, PartialEq, Eq)]
pub struct Remote {
    /// Its ephemeral key.
    pub e: Option<[u8; 32]>,
    /// Its static key.
    pub s: Option<[u8; 32]>,
}
