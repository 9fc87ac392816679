//! The first frame of NN, worked by hand.

use super::support::{end, first_frame};
use noise_names::Role;
use noise_session::Step;

#[test]
fn the_first_frame_is_written_and_taken(rt: HostRuntime) {
    let mut initiator = end(&rt, rt.alloc(), Role::Initiator, &[]);
    let payload = b"hi".as_slice();
    let mut frame = [0; 36];
    let len = initiator.frame_len(payload.len()).expect(&rt, "a length");
    assert!(rt; len == 36);
    assert!(rt; initiator.write_into(payload, &mut frame) == Ok(36));
    assert!(rt; frame == first_frame());
    let mut responder = end(&rt, rt.alloc(), Role::Responder, &[]);
    let (taken, reported) = responder.take(&frame);
    assert!(rt; taken == 36);
    assert!(rt; reported == Step::Payload(payload));
}
