//! A run of two parties of unequal prologues, which no vector file describes.

use super::support::end;
use noise_duel::{Cuts, Duel, Event};
use noise_handshake::XorKeys;
use noise_names::Role;
use noise_session::End;
use noise_theorems::{find_clash, find_mix_hash_clash, run_apart};
use sha2::{Digest, Sha256};
use std::alloc::Global;
use std::process::Abort;

/// Two parties with the toy keys.
pub type Ends = Duel<XorKeys, XorKeys>;

/// These two parties.
pub fn between(rt: &impl Abort, first: End<XorKeys>, second: End<XorKeys>) -> Ends {
    assert!(rt; first.role() == Role::Initiator);
    assert!(rt; second.role() == Role::Responder);
    Duel::new(first, second)
}

// This role says a payload of one byte, whose frame comes in pieces of 1, 2 and then 5 bytes.
fn say(rt: &impl Abort, alloc: Global, role: Role) -> Event {
    let cuts = Cuts::new(&[1, 2, 5]).expect(rt, "cuts");
    Event::Say(role, vec![in alloc; 7u8; 1].expect(rt, "memory"), cuts)
}

const TOLD: &str = "[(Initiator, Wrote(0)), (Responder, Payload([7])), (Responder, Wrote(0)), \
(Initiator, Refused { token: 2, cause: Tag })]";

#[test]
fn refuses_another_prologue(rt: HostRuntime) {
    let alloc = rt.alloc();
    let first = end(&rt, alloc, Role::Initiator, &[]);
    let second = end(&rt, alloc, Role::Responder, b"other");
    let events = [
        say(&rt, alloc, Role::Initiator),
        say(&rt, alloc, Role::Responder),
    ];
    let ran = run_apart(alloc, between(&rt, first, second), &events);
    let (_, report) = ran.expect(&rt, "memory");
    let text = format!(in alloc; "{:?}", report.entries).expect(&rt, "memory");
    assert!(rt; text.as_str() == TOLD);
}

const NAME: [u8; 32] = *b"Noise_NN_25519_ChaChaPoly_SHA256";

// The texts that a party of NN hashes as it mixes these pieces, the first one first (MixHash; Noise, 5.2).
fn hashed(rt: &impl Abort, alloc: Global, pieces: &[&[u8]]) -> Vec<Vec<u8>> {
    let mut hash = NAME;
    let mut texts = Vec::new(alloc);
    for piece in pieces {
        let mut text = Vec::from_slice(alloc, &hash).expect(rt, "memory");
        text.extend_from_slice(piece).expect(rt, "memory");
        hash = Sha256::digest(&text);
        texts.push(text).expect(rt, "memory");
    }
    texts
}

// Each text of one of the two differs from that of the other, and so does each digest.
#[test]
fn no_clash_is_known(rt: HostRuntime) {
    let alloc = rt.alloc();
    let first = hashed(&rt, alloc, &[b"", &[0x11; 32], b"\x07"]);
    let second = hashed(&rt, alloc, &[b"other", &[0x11; 32], b"\x07"]);
    assert!(rt; find_clash(&first, &second).is_none());
    assert!(rt; find_clash(&first, &first).is_none());
}

// These pieces, each on its own.
fn mixed(rt: &impl Abort, alloc: Global, pieces: &[&[u8]]) -> Vec<Vec<u8>> {
    let mut texts = Vec::new(alloc);
    for piece in pieces {
        let text = Vec::from_slice(alloc, piece).expect(rt, "memory");
        texts.push(text).expect(rt, "memory");
    }
    texts
}

// The same of what is mixed: no two different texts with one SHA-256 digest are known.
#[test]
fn what_is_mixed_does_not_clash(rt: HostRuntime) {
    let alloc = rt.alloc();
    let first = mixed(&rt, alloc, &[b"", &[0x11; 32], b"\x07"]);
    let second = mixed(&rt, alloc, &[b"other", &[0x11; 32], b"\x07"]);
    let found = find_mix_hash_clash(alloc, &NAME, &first, &second).expect(&rt, "memory");
    assert!(rt; found.is_none());
    let found = find_mix_hash_clash(alloc, &NAME, &first, &first).expect(&rt, "memory");
    assert!(rt; found.is_none());
}
