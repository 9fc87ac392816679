//! Why a payload isn't written, a transport message isn't opened, and nothing is received.

/// Why a payload isn't written. Looked for in the order Ended, OneWay, NotYourTurn, TooLong, Exhausted, Agreement,
/// Output.
#[derive(Clone, Copy, Debug, PartialEq, Eq)]
pub enum SendFault {
    /// The other party writes the next handshake message.
    NotYourTurn,
    /// The message would have more than 65535 bytes.
    TooLong,
    /// The keys give no DH result at this DH token of the handshake message, counted from 0. The session has ended.
    Agreement { token: u8 },
    /// The session has ended.
    Ended,
    /// This party is the responder of a one-way session that is open: it writes nothing.
    OneWay,
    /// The sending nonce is 2^64 - 1, which no message has. The session has ended.
    Exhausted,
    /// A write to the output failed after so many first bytes of the frame. The session has ended.
    Output { written: usize },
}

/// Why a transport message isn't opened. Looked for in the order OneWay, Exhausted, Short, Tag.
#[derive(Clone, Copy, Debug, PartialEq, Eq)]
pub enum OpenFault {
    /// It has fewer than the 16 bytes of a tag.
    Short,
    /// Its tag is wrong.
    Tag,
    /// The receiving nonce is 2^64 - 1, which no message has.
    Exhausted,
    /// This party is the initiator of a one-way session: nothing comes to it.
    OneWay,
}

/// Why nothing was received. The bytes that came so far are kept, and a later call goes on with them.
#[derive(Clone, Copy, Debug, PartialEq, Eq)]
pub enum ReceiveFault {
    /// A read of the input failed.
    Input,
    /// The input ended inside a frame.
    CutShort,
}
