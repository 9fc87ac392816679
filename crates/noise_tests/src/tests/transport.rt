//! Transport messages, by keys worked out beside the program.

use super::support::opened;
use noise_aead::{nonce, rekey, seal_in_place};
use noise_session::{OpenFault, Transport};
use std::process::Abort;

/// The key of the initiator's messages in NN: the first output of HKDF of the chaining key, with no input. That is the
/// first output of HKDF of the protocol's name, which has 32 bytes, and 32 bytes `33`, the xor of the ephemeral keys.
pub const KEY: [u8; 32] = [
    0x39, 0x03, 0x14, 0x6d, 0x7b, 0x4e, 0x86, 0xa4, 0xa6, 0x4c, 0x1b, 0xbe, 0x19, 0xeb, 0xe4, 0xa4,
    0xa1, 0x71, 0xae, 0x0c, 0x8f, 0x03, 0xdf, 0x47, 0x14, 0x79, 0x41, 0xa8, 0x12, 0x25, 0x6c, 0x83,
];

/// Message n with the payload `hi`, under this key.
pub fn sealed(key: &[u8; 32], n: u64) -> [u8; 18] {
    let mut message = [0; 18];
    message[..2].copy_from_slice(b"hi");
    let tag = seal_in_place(key, &nonce(n), &[], &mut message[..2]);
    message[2..].copy_from_slice(&tag);
    message
}

// The message is refused with a bit of its tag flipped, and is unchanged; as it came, it is opened.
fn opens(rt: &impl Abort, receiver: &mut Transport, mut message: [u8; 18]) {
    let mut wrong = message;
    wrong[17] ^= 1;
    let sent = wrong;
    assert!(rt; receiver.open(&mut wrong).err() == Some(OpenFault::Tag));
    assert!(rt; wrong == sent);
    let payload = receiver.open(&mut message).expect(rt, "a payload");
    assert!(rt; &*payload == b"hi".as_slice());
}

#[test]
fn renews_at_each_multiple(rt: HostRuntime) {
    let (initiator, responder) = opened(&rt);
    let mut sender = Transport::new(initiator, 2);
    let mut receiver = Transport::new(responder, 2);
    let mut key = KEY;
    for n in 0..6 {
        if n > 0 && n % 2 == 0 {
            key = rekey(&key);
        }
        let mut message = [0; 18];
        assert!(rt; sender.seal(b"hi", &mut message) == Ok(18));
        assert!(rt; message == sealed(&key, n), "at {n}");
        opens(&rt, &mut receiver, message);
    }
}
