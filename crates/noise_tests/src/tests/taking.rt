//! A frame and a message that come as a payload. In the first message of NN, whose payload is in clear, both are worked
//! out by hand.

use super::support::{end, first_frame, party};
use noise_names::Role;
use noise_theorems::{comes_as, reads_as};

#[test]
fn a_frame_comes_as_its_payload(rt: HostRuntime) {
    let mut responder = end(&rt, rt.alloc(), Role::Responder, &[]);
    assert!(rt; comes_as(&mut responder, &first_frame(), b"hi"));
    assert!(rt; !comes_as(&mut responder, &first_frame(), b"hi"));
}

#[test]
fn a_message_comes_as_its_payload(rt: HostRuntime) {
    let mut responder = party(&rt, Role::Responder, &[]);
    let mut frame = first_frame();
    assert!(rt; reads_as(&mut responder, &mut frame[2..], b"hi"));
    assert!(rt; !reads_as(&mut responder, &mut frame[2..], b"hi"));
}
