//! Why a message isn't written or read.

use crate::Own;

/// Why a message isn't written. Looked for in the order Ended, Done, NotYourTurn, TooLong, Agreement.
#[derive(Clone, Copy, Debug, PartialEq, Eq)]
pub enum WriteFault {
    /// The other party writes the next message.
    NotYourTurn,
    /// The message would have more than 65535 bytes.
    TooLong,
    /// All messages have passed.
    Done,
    /// The keys give no DH result at this DH token, counted from 0, or the psk of this psk token isn't there. The
    /// handshake has ended.
    Agreement { token: u8 },
    /// The handshake has ended.
    Ended,
}

/// Why a message isn't read. Looked for in the order Ended, Done, NotYourTurn, Refused.
#[derive(Clone, Copy, Debug, PartialEq, Eq)]
pub enum ReadFault {
    /// This party writes the next message.
    NotYourTurn,
    /// All messages have passed.
    Done,
    /// The handshake has ended.
    Ended,
    /// Reading stopped at this token, counted from 0; the payload is after the last. The handshake has ended.
    Refused { token: u8, cause: Cause },
}

/// What the next message lacks of what a caller hands in.
#[derive(Clone, Copy, Debug, PartialEq, Eq)]
pub enum Want {
    /// The DH result of this key pair of the party to this public key of the other.
    DhResult { own: Own, key: [u8; 32] },
    /// The psk of a psk token. `remote` is the other party's static key as it is known before that token: the
    /// message that is read may have shown it.
    Psk { remote: Option<[u8; 32]> },
}

/// Why a message isn't read, where what is lacking is asked for.
#[derive(Clone, Copy, Debug, PartialEq, Eq)]
pub enum Unread {
    /// Reading lacks this. Nothing has changed.
    Wants(Want),
    /// The message isn't read for this fault, which is never `Refused` with the cause `Agreement`.
    Declined(ReadFault),
}

/// Why a message isn't written, where what is lacking is asked for.
#[derive(Clone, Copy, Debug, PartialEq, Eq)]
pub enum Unwritten {
    /// Writing lacks this. Nothing has changed.
    Wants(Want),
    /// The message isn't written for this fault.
    Withheld(WriteFault),
}

/// Why reading stopped at a token.
#[derive(Clone, Copy, Debug, PartialEq, Eq)]
pub enum Cause {
    /// Too few bytes are left.
    Short,
    /// The tag is wrong.
    Tag,
    /// The keys give no DH result, or the psk isn't there.
    Agreement,
}
