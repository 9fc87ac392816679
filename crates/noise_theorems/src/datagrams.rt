//! Datagrams between two parties, over any network.

ghost use Rattle.std.specs.Prelude.{◌≡◌, true};
ghost use Rattle.noise_session.specs.Ends.{EndState};
ghost use Rattle.noise_session.specs.EndDatagrams.{is_datagram_ready};
ghost use Rattle.noise_events.specs.DatagramEvents.{datagram_events_of};
ghost use Rattle.noise_duel.specs.DatagramReports.{DatagramDuelMatches, datagram_sides_of};
ghost use Rattle.noise_duel.specs.DuelValue.{DuelMatches, both_sides};
ghost use Rattle.noise_theorems.specs.Datagrams.{OneHashAgrees, OneHistoryAgrees, ReportsDatagramRun};

use crate::laws::{datagram_entries_agree, hash_is_reported};
use noise_duel::laws::{clash_reported, datagrams_agree, ends_agree};
use noise_duel::{DatagramDuel, DatagramEvent, DatagramReport, Duel};
use noise_handshake::Keys;
use noise_session::Window;
use std::alloc::{AllocError, Global};

/// Both parties go over to datagrams, with this window, and any events run between them: datagrams get lost,
/// come twice or in another order, or were sealed by nobody.
///
/// Where a run over frames left the two parties with one history, each payload that by the report a role opened at a
/// nonce is the one that the other sealed as its datagram of that number, or the datagram is forged; and no nonce is
/// opened at two places (Noise, 11.4). So it is where both parties report one hash and
/// have the same psks, or the texts that they hashed clash at `clash_position`.
///
/// At Err, for lack of memory, the parties are gone.
pub fn run_datagrams<A: Keys, B: Keys>(
    alloc: Global,
    duel: Duel<A, B>,
    window: Window,
    events: &[DatagramEvent],
) -> Result<(DatagramDuel, DatagramReport), AllocError>
    requires initiator { is_datagram_ready duel.initiator ≡ true }
    requires responder { is_datagram_ready duel.responder ≡ true }
    ensures reports { ReportsDatagramRun A.pairs B.pairs
        window (datagram_events_of events.now) duel result }
    ensures agrees { OneHistoryAgrees A.pairs B.pairs
        window (datagram_events_of events.now) duel result }
    ensures hashes { OneHashAgrees A.pairs B.pairs
        window (datagram_events_of events.now) duel result }
{
    hash_is_reported::<A, B>();
    ends_agree();
    clash_reported();
    let parties = go_over(duel, window);
    datagrams_agree();
    datagram_entries_agree();
    let made = parties.run(alloc, events)?;
    Ok(made)
}

// The datagrams of both parties.
fn go_over<A: Keys, B: Keys>(duel: Duel<A, B>, window: Window) -> DatagramDuel
    requires initiator { is_datagram_ready duel.initiator ≡ true }
    requires responder { is_datagram_ready duel.responder ≡ true }
    ensures matches { (v w : EndState) → DuelMatches A.pairs B.pairs duel (both_sides v w)
        → DatagramDuelMatches result (datagram_sides_of v w window) }
{
    match duel.into_datagrams(window) {
        Ok(parties) => parties,
        Err(_) => unreachable!(),
    }
}
