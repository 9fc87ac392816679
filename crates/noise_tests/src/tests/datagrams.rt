//! A datagram that has changed on the way.

use super::support::opened;
use noise_session::{DatagramFault, Datagrams, Window};

#[test]
fn a_refused_datagram_is_unchanged(rt: HostRuntime) {
    let (initiator, responder) = opened(&rt);
    let mut sender = Datagrams::new(initiator);
    let mut receiver = Datagrams::with_window(responder, Window::W256);
    let mut bytes = [0; 26];
    assert!(rt; sender.seal(b"hi", &mut bytes) == Ok(26));
    let mut wrong = bytes;
    wrong[25] ^= 1;
    let sent = wrong;
    assert!(rt; receiver.open(&mut wrong).err() == Some(DatagramFault::Tag));
    assert!(rt; wrong == sent);
    let payload = receiver.open(&mut bytes).expect(&rt, "a payload");
    assert!(rt; &*payload == b"hi".as_slice());
}
