//! Two parties whose prologues differ, over any network.

ghost use Rattle.noise_events.specs.Events.{events_of};
ghost use Rattle.noise_duel.specs.Reports.{ReportsRun};
ghost use Rattle.noise_theorems.specs.Clash.{ClashesInRun};

use crate::laws::hash_is_reported;
use noise_duel::laws::clash_reported;
use noise_duel::{Duel, Event, Report};
use noise_handshake::Keys;
use std::alloc::{AllocError, Global};

/// Runs any events between any two parties, as `Duel::run` does.
///
/// Where they are new parties of one pattern with different prologues, and both then report one hash, there is a first
/// position at which two texts that they hashed differ with one digest.
pub fn run_apart<A: Keys, B: Keys>(
    alloc: Global,
    duel: Duel<A, B>,
    events: &[Event],
) -> Result<(Duel<A, B>, Report), AllocError>
    ensures reports { ReportsRun A.pairs B.pairs
        (events_of events.now) duel result }
    ensures clash { ClashesInRun A.pairs B.pairs
        (events_of events.now) duel result }
{
    hash_is_reported::<A, B>();
    clash_reported();
    let made = duel.run(alloc, events)?;
    Ok(made)
}
