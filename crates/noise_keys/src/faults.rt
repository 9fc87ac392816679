//! Why a handshake can't be made with the keys that it is given.

/// Why a handshake isn't made. Of several faults the first is reported.
#[derive(Clone, Copy, Debug, PartialEq, Eq)]
pub enum SetupFault {
    /// This party has an `e` in the pattern, and no ephemeral key.
    EphemeralMissing,
    /// This party has an `s` in the pattern, and no static key.
    StaticMissing,
    /// A key of the other party's pre-message isn't given.
    RemoteMissing,
    /// A key of the other party is given that isn't in its pre-message.
    RemoteUnexpected,
    /// The number of psks isn't that of the pattern's `psk` tokens.
    PskCount,
}
