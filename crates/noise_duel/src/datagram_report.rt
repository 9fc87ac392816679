//! The report of a run of datagrams.

ghost use Rattle.std.specs.Prelude.{◌≡◌, []};

use noise_names::Role;
use noise_session::{DatagramFault, SendFault};
use std::alloc::Global;

/// What came of an event.
#[derive(Debug, Drop, PartialEq, Eq)]
pub enum DatagramEntry {
    /// This role sealed its datagram of this number, counted from 0 over those that it sealed in this run.
    Sealed(usize, Vec<u8>),
    /// This role sealed nothing.
    SealFault(SendFault),
    /// A datagram came to this role and was opened, with this payload.
    Payload(Vec<u8>),
    /// A datagram came to this role and was refused, which changes nothing.
    Rejected(DatagramFault),
    /// The other role has sealed no datagram of this number in this run.
    Missing(usize),
}

/// What came of the events of a run.
#[derive(Debug, Drop, PartialEq, Eq)]
pub struct DatagramReport {
    /// One entry for each event, in order, with the role that it is about.
    pub entries: Vec<(Role, DatagramEntry)>,
}

impl DatagramReport {
    // Before the first event.
    pub(crate) fn new(alloc: Global) -> DatagramReport
        ensures { result.entries.items ≡ [] }
    {
        DatagramReport {
            entries: Vec::new(alloc),
        }
    }
}
