//! Why a datagram isn't opened.

/// Why a datagram isn't opened. Looked for in this order.
#[derive(Clone, Copy, Debug, PartialEq, Eq)]
pub enum DatagramFault {
    /// This party is the initiator of a one-way session: nothing comes to it.
    OneWay,
    /// It has fewer than the 24 bytes of a nonce and a tag.
    Short,
    /// It has more than 65543 bytes.
    TooLong,
    /// Its nonce is 2^64 - 1, which no message has (Noise, 5.1).
    Reserved,
    /// A datagram was opened whose nonce is at least the window's width above its own.
    Old,
    /// A datagram of this nonce was opened.
    Repeated,
    /// Its tag is wrong.
    Tag,
}
