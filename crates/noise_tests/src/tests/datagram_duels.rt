//! Runs of datagrams between two parties. The bytes were worked out by a program in another language.

use super::duels::{Ends, between};
use super::support::opened;
use noise_duel::{DatagramDuel, DatagramEvent};
use noise_names::Role;
use noise_session::{End, Transport, Window};
use noise_theorems::run_datagrams;
use std::alloc::{AllocError, Global};
use std::process::Abort;

// Both parties of an open session of NN.
fn open_ends(rt: &impl Abort, alloc: Global) -> Result<Ends, AllocError> {
    let (first, second) = opened(rt);
    let first = End::from_transport(alloc, Transport::new(first, 0))?;
    let second = End::from_transport(alloc, Transport::new(second, 0))?;
    Ok(between(rt, first, second))
}

// Their datagrams.
fn open_nn(rt: &impl Abort, alloc: Global) -> Result<DatagramDuel, AllocError> {
    let duel = open_ends(rt, alloc)?;
    let went_over = duel.into_datagrams(Window::W64).ok();
    Ok(went_over.expect(rt, "both ends are open"))
}

// Payloads of one byte that are sealed, and the datagrams, by their numbers, that come to each role then.
const SEALED: [(Role, u8); 3] = [
    (Role::Initiator, 1),
    (Role::Initiator, 2),
    (Role::Responder, 3),
];

const OPENED: [(Role, usize); 4] = [
    (Role::Responder, 1),
    (Role::Responder, 0),
    (Role::Responder, 1),
    (Role::Initiator, 0),
];

const TOLD: &str = "[(Initiator, Sealed(0, [0, 0, 0, 0, 0, 0, 0, 0, \
13, 29, 132, 208, 219, 172, 39, 116, 47, 97, 240, 204, 60, 193, 205, 216, 244])), \
(Initiator, Sealed(1, [0, 0, 0, 0, 0, 0, 0, 1, \
75, 157, 177, 201, 111, 189, 177, 221, 167, 191, 3, 56, 138, 157, 174, 131, 21])), \
(Responder, Sealed(0, [0, 0, 0, 0, 0, 0, 0, 0, \
74, 89, 86, 222, 37, 182, 104, 64, 108, 209, 187, 180, 69, 107, 168, 161, 101])), \
(Responder, Payload([2])), (Responder, Payload([1])), (Responder, Rejected(Repeated)), (Initiator, Payload([3]))]";

// The events of which that is reported.
fn events(rt: &impl Abort, alloc: Global) -> Vec<DatagramEvent> {
    let mut events = Vec::new(alloc);
    for (role, byte) in &SEALED {
        let payload = vec![in alloc; *byte; 1].expect(rt, "memory");
        let event = DatagramEvent::Seal(*role, payload);
        events.push(event).expect(rt, "memory");
    }
    for (role, number) in &OPENED {
        let event = DatagramEvent::Open(*role, *number);
        events.push(event).expect(rt, "memory");
    }
    events
}

#[test]
fn reports_of_each_datagram(rt: HostRuntime) {
    let alloc = rt.alloc();
    let events = events(&rt, alloc);
    let duel = open_ends(&rt, alloc).expect(&rt, "memory");
    let initiator_ready = duel.initiator().datagram_ready();
    assert!(rt; initiator_ready);
    let responder_ready = duel.responder().datagram_ready();
    assert!(rt; responder_ready);
    let ran = run_datagrams(alloc, duel, Window::W64, &events);
    let (_, report) = ran.expect(&rt, "memory");
    let text = format!(in alloc; "{:?}", report.entries).expect(&rt, "memory");
    assert!(rt; text.as_str() == TOLD);
}

// It passes whichever allocation fails: see `rt try --test --fail-alloc N`.
#[test]
fn datagrams_or_no_memory(rt: HostRuntime) {
    let alloc = rt.alloc();
    let Ok(duel) = open_nn(&rt, alloc) else {
        return;
    };
    let Ok(payload) = b"hi".to_vec(alloc) else {
        return;
    };
    let seal = DatagramEvent::Seal(Role::Initiator, payload);
    let open = DatagramEvent::Open(Role::Responder, 0);
    if let Ok((duel, report)) = duel.run(alloc, &[seal, open]) {
        assert!(rt; report.entries.len() == 2);
        assert!(rt; duel.initiator().send_nonce() == 1);
    }
}
