//! Datagrams after a session that opened over frames. The caller has no `requires`, so two parties can be as the
//! property on datagrams wants them.

ghost use Rattle.std.specs.Prelude.{◌≡◌, ◌⊎◌, IfSome, Some, true};
ghost use Rattle.noise_events.specs.DatagramEvents.{datagram_events_of};
ghost use Rattle.noise_events.specs.declared.window.Window.TheVariants.{W64};
ghost use Rattle.noise_names.specs.Plan.{Plan};
ghost use Rattle.noise_session.specs.Datagrams.{datagrams_of};
ghost use Rattle.noise_session.specs.EndDatagrams.{is_datagram_ready};
ghost use Rattle.noise_session.specs.Ends.{hash_in};
ghost use Rattle.noise_duel.specs.Clash.{HistoriesClash};
ghost use Rattle.noise_duel.specs.Messages.{Start};
ghost use Rattle.noise_duel.specs.Sides.{Sides};
ghost use Rattle.noise_theorems.specs.Datagrams.{DatagramsOverNetwork};

use super::conversations::{both_keys, pattern};
use noise_duel::{Cuts, DatagramDuel, DatagramEvent, DatagramReport, Duel, Event};
use noise_handshake::XorKeys;
use noise_names::{Role, ValidPattern};
use noise_session::Window;
use noise_theorems::{run_datagrams, run_events};
use std::alloc::Global;

// Any events between two parties of equal setup, and then datagrams, where both report one hash and may go over.
fn over_datagrams(
    alloc: Global,
    pattern: ValidPattern,
    events: &[Event],
    datagrams: &[DatagramEvent],
) -> Option<(DatagramDuel, DatagramReport)>
    ensures { IfSome result (λ r. (p : Plan) × (a : Start) × (b : Start) × (d : Sides)
        × (DatagramsOverNetwork (datagrams_of d.initiator.state.party W64) (datagrams_of d.responder.state.party W64)
        (datagram_events_of datagrams.now) r.0 r.1 ⊎ HistoriesClash p a b d)) }
{
    let initiator = both_keys(0x11, 0x22);
    let responder = both_keys(0x33, 0x44);
    let made = run_events(
        alloc,
        pattern,
        b"tests",
        initiator,
        responder,
        &[],
        0,
        events,
    );
    let Ok((duel, _)) = made else {
        return None;
    };
    let Some(_hash) = common_hash(&duel) else {
        return None;
    };
    match run_datagrams(alloc, duel, Window::W64, datagrams) {
        Ok(ran) => Some(ran),
        Err(_) => None,
    }
}

// The hash that both parties report, where it is one and both may go over to datagrams.
fn common_hash(duel: &Duel<XorKeys, XorKeys>) -> Option<[u8; 32]>
    ensures first { IfSome result (λ hash. hash_in duel.now.initiator.phase ≡ Some hash) }
    ensures second { IfSome result (λ hash. hash_in duel.now.responder.phase ≡ Some hash) }
    ensures ready { IfSome result
        (λ _. (is_datagram_ready duel.now.initiator ≡ true) × (is_datagram_ready duel.now.responder ≡ true)) }
{
    let first = duel.initiator().hash()?;
    let second = duel.responder().hash()?;
    let ready = duel.initiator().datagram_ready() && duel.responder().datagram_ready();
    if ready && first == second {
        Some(first)
    } else {
        None
    }
}

#[test]
fn come_after_the_handshake(rt: HostRuntime) {
    let pattern = pattern(&rt, b"NN", &[]);
    let events = [
        Event::Say(Role::Initiator, Vec::new(rt.alloc()), Cuts::whole()),
        Event::Say(Role::Responder, Vec::new(rt.alloc()), Cuts::whole()),
    ];
    let datagrams = [
        DatagramEvent::Seal(Role::Initiator, Vec::new(rt.alloc())),
        DatagramEvent::Open(Role::Responder, 0),
        DatagramEvent::Open(Role::Responder, 0),
    ];
    let ran = over_datagrams(rt.alloc(), pattern, &events, &datagrams);
    let (_, report) = ran.expect(&rt, "datagrams");
    let reported = report.entries.len();
    assert!(rt; reported == 3);
}
