//! The entries of a report.

use noise_handshake::Cause;
use noise_session::SendFault;

/// What came of an event, which has one entry or more.
#[derive(Debug, Drop, PartialEq, Eq)]
pub enum Entry {
    /// This role wrote its frame of this number, counted from 0 over those that it wrote in this run.
    Wrote(usize),
    /// This role wrote nothing.
    WriteFault(SendFault),
    /// A frame came to this role and was accepted, with this payload.
    Payload(Vec<u8>),
    /// A transport frame came to this role and was refused; the session goes on as before it.
    Dropped(Cause),
    /// A handshake frame came to this role and was refused, at this token, counted from 0, or at the payload after the
    /// last. The session has ended.
    Refused { token: u8, cause: Cause },
    /// A transport frame came to this role at nonce 2^64 - 1, which no message has. The session has ended.
    Exhausted,
    /// So many bytes came to this role while it took none; they are lost. Never 0.
    Left(Idle, usize),
    /// The other role has written no frame of this number in this run.
    Missing(usize),
    /// After the bytes that came, this role holds so many bytes of an unfinished frame. Never 0.
    Held(usize),
}

/// Why a party takes no bytes.
#[derive(Clone, Copy, Debug, PartialEq, Eq)]
pub enum Idle {
    /// It writes the next handshake message.
    YourTurn,
    /// It is the initiator of a one-way session that is open: nothing comes to it.
    Silent,
    /// The session has ended.
    Ended,
}
