//! The two parties of NN with the toy keys, and what their handshake leaves.

ghost use Rattle.std.specs.Prelude.{◌≡◌, false};

use noise_handshake::{Handshake, Opened, Remote, XorKeys};
use noise_names::{Role, ValidPattern};
use noise_session::End;
use std::alloc::Global;
use std::process::Abort;

/// A party of NN, whose key has one byte throughout.
pub fn party(rt: &impl Abort, role: Role, prologue: &[u8]) -> Handshake<XorKeys>
    ensures { result.ended ≡ false }
{
    let byte = match role {
        Role::Initiator => 0x11,
        Role::Responder => 0x22,
    };
    let keys = XorKeys {
        e: Some([byte; 32]),
        s: None,
    };
    let pattern = ValidPattern::fundamental(b"NN").expect(rt, "a fundamental pattern");
    let nobody = Remote { e: None, s: None };
    assert!(rt; prologue.len() <= 65535);
    Handshake::new(pattern, role, prologue, keys, nobody, &[]).expect(rt, "a handshake")
}

// A handshake message without a payload goes from one party to the other.
fn pass(rt: &impl Abort, from: &mut Handshake<XorKeys>, to: &mut Handshake<XorKeys>) {
    let mut message = [0; 48];
    let room = from.message_len(0).unwrap_or(0);
    assert!(rt; room <= message.len());
    let len = from.write(&[], &mut message).expect(rt, "a message");
    assert!(rt; to.read(&mut message[..len]).is_ok());
}

/// What the handshake leaves to the two parties.
pub fn opened(rt: &impl Abort) -> (Opened, Opened) {
    let mut initiator = party(rt, Role::Initiator, &[]);
    let mut responder = party(rt, Role::Responder, &[]);
    pass(rt, &mut initiator, &mut responder);
    pass(rt, &mut responder, &mut initiator);
    let initiator = initiator.finish().ok().expect(rt, "opened");
    (initiator, responder.finish().ok().expect(rt, "opened"))
}

/// A new end of this party.
pub fn end(rt: &impl Abort, alloc: Global, role: Role, prologue: &[u8]) -> End<XorKeys> {
    End::new(alloc, party(rt, role, prologue), 0).expect(rt, "memory")
}

/// The first frame of NN with the payload `hi`.
pub fn first_frame() -> [u8; 36] {
    let mut frame = [0x11; 36];
    frame[0] = 0x00;
    frame[1] = 0x22;
    frame[34] = b'h';
    frame[35] = b'i';
    frame
}
