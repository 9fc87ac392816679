//! The numbers of the interface, and the codes of faults.

ghost use Rattle.std.specs.Prelude.{◌≡◌};
ghost use Rattle.noise_c.specs.Codes.{read_code, write_code, setup_code, text_code};
ghost use Rattle.noise_c.specs.TransportCodes.{cipher_code, datagram_code, open_code, seal_code, stream_code};

use crate::codes::numbers::*;
use noise_channel::StreamFault;
use noise_handshake::{Cause, ReadFault, SetupFault, WriteFault};
use noise_names::TextFaultKind;
use noise_session::{DatagramFault, OpenFault, SendFault};
use noise_state::CipherFault;

// What an export returns, with the numbers that `include/noise.h` has, the marks of the structs, and the lengths of a
// frame. No export returns OVERLAP: the functions of the header do, which see addresses.
#[rattlefmt::skip]
pub(crate) mod numbers {
    pub(crate) const OK: u32 = 0;
    pub(crate) const NAME: u32 = 1;
    pub(crate) const PATTERN: u32 = 2;
    pub(crate) const EPHEMERAL_MISSING: u32 = 4;
    pub(crate) const STATIC_MISSING: u32 = 5;
    pub(crate) const REMOTE_MISSING: u32 = 6;
    pub(crate) const REMOTE_UNEXPECTED: u32 = 7;
    pub(crate) const PSK_COUNT: u32 = 8;
    pub(crate) const NOT_YOUR_TURN: u32 = 10;
    pub(crate) const TOO_LONG: u32 = 11;
    pub(crate) const DONE: u32 = 12;
    pub(crate) const ENDED: u32 = 13;
    pub(crate) const AGREEMENT: u32 = 14;
    pub(crate) const SHORT: u32 = 15;
    pub(crate) const TAG: u32 = 16;
    pub(crate) const EXHAUSTED: u32 = 17;
    pub(crate) const ROOM: u32 = 18;
    pub(crate) const NOT_DONE: u32 = 19;
    pub(crate) const WANTED: u32 = 20;
    pub(crate) const ONE_WAY: u32 = 22;
    pub(crate) const STRUCT: u32 = 23;
    pub(crate) const LENGTH: u32 = 24;
    pub(crate) const WINDOW: u32 = 25;
    pub(crate) const RESERVED: u32 = 26;
    pub(crate) const OLD: u32 = 27;
    pub(crate) const REPEATED: u32 = 28;
    pub(crate) const NOT_DUE: u32 = 29;
    pub(crate) const HEADING: u32 = 30;
    pub(crate) const ARROW: u32 = 31;
    pub(crate) const TOKEN: u32 = 32;
    pub(crate) const PRE_MESSAGE: u32 = 33;
    pub(crate) const TURN: u32 = 34;
    pub(crate) const PSK_PLACE: u32 = 35;
    pub(crate) const NAME_TAKEN: u32 = 36;
    pub(crate) const LIMIT: u32 = 37;
    pub(crate) const ENDING: u32 = 38;
    pub(crate) const RULE: u32 = 39;
    pub(crate) const WANTED_PSK: u32 = 40;
    pub(crate) const END: u32 = 41;
    pub(crate) const MORE: u32 = 42;
    pub(crate) const CLOSED: u32 = 43;
    pub(crate) const CUT: u32 = 44;
    pub(crate) const OVERLAP: u32 = 45;

    // A struct begins with its mark: which kind of struct it is, in the second byte, and which version of its layout,
    // in the first. A change of a layout gives its mark another version.
    pub(crate) const HANDSHAKE: u32 = 0x4e6f_0101;
    pub(crate) const SENDER: u32 = 0x4e6f_0301;
    pub(crate) const RECEIVER: u32 = 0x4e6f_0401;
    pub(crate) const DATAGRAM_SENDER: u32 = 0x4e6f_0601;
    pub(crate) const DATAGRAM_RECEIVER: u32 = 0x4e6f_0701;
    pub(crate) const SENDING_CIPHER: u32 = 0x4e6f_0801;
    pub(crate) const RECEIVING_CIPHER: u32 = 0x4e6f_0901;
    pub(crate) const STREAM_SENDER: u32 = 0x4e6f_0a01;
    pub(crate) const STREAM_RECEIVER: u32 = 0x4e6f_0b01;

    // The length before a message in a frame, in bytes, and that with a tag.
    pub(crate) const HEAD_LEN: usize = 2;
    pub(crate) const FRAME_OVERHEAD: usize = 18;
}

// The value, or else a return of this code from the function around.
macro_rules! some_or {
    ($option:expr, $code:expr) => {
        match $option {
            Some(value) => value,
            None => return $code,
        }
    };
}

// The value, or else a return of the fault's code from the function around.
macro_rules! ok_or {
    ($result:expr, $code_of:expr) => {
        match $result {
            Ok(value) => value,
            Err(fault) => return $code_of(fault),
        }
    };
    ($result:expr) => {
        match $result {
            Ok(value) => value,
            Err(code) => return code,
        }
    };
}

pub(crate) use ok_or;
pub(crate) use some_or;

// The number of a fault of a setup.
pub(crate) fn setup_code(fault: SetupFault) -> u32
    ensures { result ≡ setup_code fault }
{
    match fault {
        SetupFault::EphemeralMissing => EPHEMERAL_MISSING,
        SetupFault::StaticMissing => STATIC_MISSING,
        SetupFault::RemoteMissing => REMOTE_MISSING,
        SetupFault::RemoteUnexpected => REMOTE_UNEXPECTED,
        SetupFault::PskCount => PSK_COUNT,
    }
}

// The number of a fault of reading.
pub(crate) fn read_code(fault: ReadFault) -> u32
    ensures { result ≡ read_code fault }
{
    match fault {
        ReadFault::NotYourTurn => NOT_YOUR_TURN,
        ReadFault::Done => DONE,
        ReadFault::Ended => ENDED,
        ReadFault::Refused { cause, .. } => match cause {
            Cause::Short => SHORT,
            Cause::Tag => TAG,
            Cause::Agreement => AGREEMENT,
        },
    }
}

// The number of a fault of writing.
pub(crate) fn write_code(fault: WriteFault) -> u32
    ensures { result ≡ write_code fault }
{
    match fault {
        WriteFault::NotYourTurn => NOT_YOUR_TURN,
        WriteFault::TooLong => TOO_LONG,
        WriteFault::Done => DONE,
        WriteFault::Agreement { token: _ } => AGREEMENT,
        WriteFault::Ended => ENDED,
    }
}

// The number of a fault of a pattern text.
pub(crate) fn text_code(kind: TextFaultKind) -> u32
    ensures { result ≡ text_code kind }
{
    match kind {
        TextFaultKind::Heading => HEADING,
        TextFaultKind::Arrow => ARROW,
        TextFaultKind::Token => TOKEN,
        TextFaultKind::PreMessage => PRE_MESSAGE,
        TextFaultKind::Turn => TURN,
        TextFaultKind::PskPlace => PSK_PLACE,
        TextFaultKind::NameTaken => NAME_TAKEN,
        TextFaultKind::Limit => LIMIT,
        TextFaultKind::Ending => ENDING,
    }
}

// The number of a fault of sealing: that of AGREEMENT where only a session has it.
pub(crate) fn seal_code(fault: SendFault) -> u32
    ensures { result ≡ seal_code fault }
{
    match fault {
        SendFault::TooLong => TOO_LONG,
        SendFault::Exhausted => EXHAUSTED,
        SendFault::OneWay => ONE_WAY,
        _ => AGREEMENT,
    }
}

// The number of a fault of opening a message.
pub(crate) fn open_code(fault: OpenFault) -> u32
    ensures { result ≡ open_code fault }
{
    match fault {
        OpenFault::Short => SHORT,
        OpenFault::Tag => TAG,
        OpenFault::Exhausted => EXHAUSTED,
        OpenFault::OneWay => ONE_WAY,
    }
}

// The number of a fault of opening a datagram.
pub(crate) fn datagram_code(fault: DatagramFault) -> u32
    ensures { result ≡ datagram_code fault }
{
    match fault {
        DatagramFault::TooLong => TOO_LONG,
        DatagramFault::Short => SHORT,
        DatagramFault::Tag => TAG,
        DatagramFault::OneWay => ONE_WAY,
        DatagramFault::Reserved => RESERVED,
        DatagramFault::Old => OLD,
        DatagramFault::Repeated => REPEATED,
    }
}

// The number of a fault of a cipher state.
pub(crate) fn cipher_code(fault: CipherFault) -> u32
    ensures { result ≡ cipher_code fault }
{
    match fault {
        CipherFault::TooLong => TOO_LONG,
        CipherFault::Short => SHORT,
        CipherFault::Tag => TAG,
        CipherFault::Exhausted => EXHAUSTED,
    }
}

// The number of a fault of writing a stream.
pub(crate) fn stream_code(fault: StreamFault) -> u32
    ensures { result ≡ stream_code fault }
{
    match fault {
        StreamFault::Ended => CLOSED,
        StreamFault::OneWay => ONE_WAY,
        StreamFault::Exhausted => EXHAUSTED,
    }
}
