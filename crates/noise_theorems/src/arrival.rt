//! Frames of one party that come joined, and cut anywhere.

ghost use Rattle.noise_events.specs.Events.{events_of};
ghost use Rattle.noise_duel.specs.Reports.{ReportsRun};
ghost use Rattle.noise_theorems.specs.Joined.{ChunksArrive};

use crate::laws::joined_frames_come;
use noise_duel::{Duel, Event, Report};
use noise_handshake::Keys;
use std::alloc::{AllocError, Global};

/// Runs any events between any two ends, as `Duel::run` does.
///
/// Where bytes come to one role in pieces, and they are the frames that the other party has written since both had come
/// equally far, joined and cut anywhere, all payloads are accepted, in order, and nothing is refused or lost.
pub fn run_chunks<A: Keys, B: Keys>(
    alloc: Global,
    duel: Duel<A, B>,
    events: &[Event],
) -> Result<(Duel<A, B>, Report), AllocError>
    ensures reports { ReportsRun A.pairs B.pairs
        (events_of events.now) duel result }
    ensures come { ChunksArrive A.pairs B.pairs
        (events_of events.now) duel result }
{
    joined_frames_come();
    let made = duel.run(alloc, events)?;
    Ok(made)
}
