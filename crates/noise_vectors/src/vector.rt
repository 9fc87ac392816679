//! What a vector file says.

ghost use Rattle.std.specs.Prelude.{◌≤◌, vec_len};

use crate::file_keys::FileKeys;
use arrayvec::ArrayVec;
use noise_events::{DatagramEvent, Event, Window};
use noise_names::{Pattern, ProtocolName};

/// What a vector file says.
#[derive(Drop)]
pub struct VectorFile {
    pub protocol: ProtocolName,
    /// The pattern that the file spells itself: there exactly where the protocol's base isn't that of a fundamental
    /// pattern.
    pub block: Option<Pattern>,
    pub prologue: Vec<u8>,
    /// After how many transport messages a key is rekeyed, 0 for never.
    pub interval: u64,
    /// The pre-shared keys, in their order.
    pub psks: ArrayVec<[u8; 32], 9>,
    pub initiator: FileKeys,
    pub responder: FileKeys,
    pub events: Vec<Event>,
    /// The file's version, and what only that version has.
    pub version: Version,
    pub ghost short: { vec_len prologue ≤ 65535 },
}

/// The version of a vector file, and what only that version has, which follows the events.
#[derive(Drop)]
pub enum Version {
    One,
    Two(Additions),
}

/// What version 2 adds.
#[derive(Drop)]
pub struct Additions {
    /// Where both parties go over to datagrams after the events.
    pub datagrams: Option<FileDatagrams>,
    /// The lines of output that are expected, each without its LF; none where nothing is expected.
    pub expected: Vec<Vec<u8>>,
}

/// How both parties go over to datagrams, and what happens then.
#[derive(Drop)]
pub struct FileDatagrams {
    pub window: Window,
    pub events: Vec<DatagramEvent>,
}

/// What a file may have.
#[derive(Clone, Copy, PartialEq, Eq)]
pub enum AllowedEvents {
    /// The event `say` alone, and no datagrams; either version.
    SayOnly,
    /// All that either version has.
    Any,
    /// All that version 1 has, and that version alone.
    VersionOne,
}
