//! The report of a run.

ghost use Rattle.std.specs.Prelude.{◌≡◌, []};

use crate::entry::Entry;
use noise_names::Role;
use std::alloc::Global;

/// What two parties wrote in a run, and what came of its events.
#[derive(Debug, Drop, PartialEq, Eq)]
pub struct Report {
    /// The frames that the initiator wrote, in order.
    pub initiator: Vec<Vec<u8>>,
    /// The frames that the responder wrote, in order.
    pub responder: Vec<Vec<u8>>,
    /// What came of the events, in order: each entry with the role that it is about.
    pub entries: Vec<(Role, Entry)>,
}

impl Report {
    /// The report before the first event: no frame, and no entry.
    pub fn new(alloc: Global) -> Report
        ensures initiator { result.initiator.items ≡ [] }
        ensures responder { result.responder.items ≡ [] }
        ensures entries { result.entries.items ≡ [] }
    {
        Report {
            initiator: Vec::new(alloc),
            responder: Vec::new(alloc),
            entries: Vec::new(alloc),
        }
    }
}
