//! The listings of `docs/RATTLE.md`, each called once. `checks/listings` compares the marked part with that page.

use super::support::opened;
use std::test::Fail;

// The listings of `docs/RATTLE.md` begin.
use noise_handshake::{Handshake, Keys, Remote, SetupFault, XorKeys};
use noise_names::{
    Pattern, PlaceFault, PskPlaces, Role, RuleFault, TextFault, ValidPattern, fundamental,
};
use noise_session::{Counted, Datagrams, End, ReceiveFault, SendFault, Stage, Step, Transport};
use std::alloc::{AllocError, Global};
use std::io::{Read, Write};

/// Why a session of this program fails.
#[derive(Debug, Drop)]
pub enum Failure {
    NoPattern,
    Text(TextFault),
    Place(PlaceFault),
    Rule(RuleFault),
    Setup(SetupFault),
    Send(SendFault),
    Receive(ReceiveFault),
    Refused,
    Closed,
    Memory,
}

impl From<AllocError> for Failure {
    fn from(_error: AllocError) -> Failure {
        Failure::Memory
    }
}

/// One party of a session by the pattern XX. Its transport keys are never rekeyed.
pub fn new_end<K: Keys>(alloc: Global, role: Role, keys: K) -> Result<End<K>, Failure> {
    let Some(plain) = fundamental(b"XX") else {
        return Err(Failure::NoPattern);
    };
    let pattern = plain.check().map_err(Failure::Rule)?;
    let remote = Remote { e: None, s: None };
    match Handshake::new(pattern, role, b"my program 1", keys, remote, &[]) {
        Ok(handshake) => Ok(End::new(alloc, handshake, 0)?),
        Err(fault) => Err(Failure::Setup(fault)),
    }
}

/// Takes one frame, and appends its payload.
pub fn take_frame<K: Keys, R: Read>(
    end: &mut End<K>,
    from: &mut Counted<R>,
    payloads: &mut Vec<u8>,
) -> Result<(), Failure> {
    match end.receive(from) {
        Ok(Some(Step::Payload(payload))) => Ok(payloads.extend_from_slice(payload)?),
        Ok(Some(_)) => Err(Failure::Refused),
        Ok(None) => Err(Failure::Closed),
        Err(fault) => Err(Failure::Receive(fault)),
    }
}

/// Passes one frame from one party to the other, through memory, and appends its payload.
pub fn pass<K: Keys>(
    alloc: Global,
    from: &mut End<K>,
    to: &mut End<K>,
    payload: &[u8],
    payloads: &mut Vec<u8>,
) -> Result<(), Failure> {
    let mut out = Counted::new(Vec::new(alloc));
    from.write_to(payload, &mut out).map_err(Failure::Send)?;
    let frame = out.into_inner();
    let mut input = Counted::new(frame.as_slice());
    take_frame(to, &mut input, payloads)
}

/// Both parties of XX with the toy keys, and what the responder received.
pub fn say_hello(alloc: Global) -> Result<Vec<u8>, Failure> {
    let first = XorKeys {
        e: Some([0x11; 32]),
        s: Some([0x33; 32]),
    };
    let second = XorKeys {
        e: Some([0x22; 32]),
        s: Some([0x44; 32]),
    };
    let mut initiator = new_end(alloc, Role::Initiator, first)?;
    let mut responder = new_end(alloc, Role::Responder, second)?;
    let mut texts = Vec::new(alloc);
    pass(alloc, &mut initiator, &mut responder, b"", &mut texts)?;
    pass(alloc, &mut responder, &mut initiator, b"", &mut texts)?;
    pass(alloc, &mut initiator, &mut responder, b"", &mut texts)?;
    pass(alloc, &mut initiator, &mut responder, b"hello", &mut texts)?;
    Ok(texts)
}

/// The pattern IK with a pre-shared key at the end of its second message.
pub fn ikpsk2() -> Result<ValidPattern, Failure> {
    let Some(plain) = fundamental(b"IK") else {
        return Err(Failure::NoPattern);
    };
    let Some(places) = PskPlaces::new(&[2]) else {
        return Err(Failure::NoPattern);
    };
    match Pattern::with_psks(&plain, &places) {
        Ok(pattern) => pattern.check().map_err(Failure::Rule),
        Err(fault) => Err(Failure::Place(fault)),
    }
}

/// The pattern that a text spells.
pub fn own_pattern(text: &[u8]) -> Result<ValidPattern, Failure> {
    let pattern = Pattern::parse_text(text).map_err(Failure::Text)?;
    pattern.check().map_err(Failure::Rule)
}

/// Passes the handshake's messages, without payloads, until the session is open. A pattern has at most 8 messages.
pub fn open_session<K: Keys, R: Read, W: Write>(
    alloc: Global,
    end: &mut End<K>,
    from: &mut Counted<R>,
    out: &mut Counted<W>,
) -> Result<(), Failure> {
    let mut payloads = Vec::new(alloc);
    for _ in 0..9 {
        match end.stage() {
            Stage::Handshake { ours: true, .. } => {
                end.write_to(b"", out).map_err(Failure::Send)?;
            }
            Stage::Handshake { ours: false, .. } => take_frame(end, from, &mut payloads)?,
            Stage::Transport { .. } => return Ok(()),
            Stage::Ended => return Err(Failure::Refused),
        }
    }
    Err(Failure::Refused)
}

/// Takes bytes as they come, and appends the payloads of the frames that are whole with them. It gives the bytes that
/// weren't taken.
pub fn take_bytes<'a, K: Keys>(
    end: &mut End<K>,
    bytes: &'a [u8],
    payloads: &mut Vec<u8>,
) -> Result<&'a [u8], Failure> {
    let mut rest = bytes;
    for _ in 0..bytes.len() {
        if rest.is_empty() {
            break;
        }
        let (count, step) = end.take(rest);
        match step {
            Step::More | Step::Dropped(_) => (),
            Step::Payload(payload) => payloads.extend_from_slice(payload)?,
            Step::YourTurn | Step::Silent => break,
            Step::Ended | Step::Exhausted | Step::Refused { .. } => return Err(Failure::Refused),
        }
        rest = &rest[count..];
    }
    Ok(rest)
}

/// The frame of a payload, in memory of its own.
pub fn frame_of<K: Keys>(
    alloc: Global,
    end: &mut End<K>,
    payload: &[u8],
) -> Result<Vec<u8>, Failure> {
    let room = end.frame_len(payload.len()).unwrap_or(0);
    let mut frame = vec![in alloc; 0u8; room]?;
    match end.write_into(payload, frame.as_mut_slice()) {
        Ok(_) => Ok(frame),
        Err(fault) => Err(Failure::Send(fault)),
    }
}

/// Seals a payload as one message, without a frame.
pub fn seal_hello(transport: &mut Transport, message: &mut [u8; 21]) -> Result<usize, SendFault> {
    transport.seal(b"hello", message)
}

/// The payload of a datagram that has come, or none where it is refused: such a datagram is dropped, and the next one
/// is waited for.
pub fn datagram_payload<'a>(
    datagrams: &mut Datagrams,
    bytes: &'a mut [u8],
) -> Option<&'a mut [u8]> {
    datagrams.open(bytes).ok()
}

// The listings end.

const FIRST: XorKeys = XorKeys {
    e: Some([0x11; 32]),
    s: Some([0x33; 32]),
};

const SECOND: XorKeys = XorKeys {
    e: Some([0x22; 32]),
    s: Some([0x44; 32]),
};

#[test]
fn makes_patterns() -> Result<(), Fail> {
    ikpsk2()?;
    own_pattern(b"A:\n  -> e\n")?;
    Ok(())
}

#[test]
fn hello_comes_through(rt: HostRuntime) -> Result<(), Fail> {
    let texts = say_hello(rt.alloc())?;
    assert!(rt; texts.as_slice() == b"hello".as_slice());
    Ok(())
}

// The message with which the responder replies to the first one of an initiator.
fn answer(alloc: Global) -> Result<Vec<u8>, Failure> {
    let mut first = new_end(alloc, Role::Initiator, FIRST)?;
    let mut second = new_end(alloc, Role::Responder, SECOND)?;
    let frame = frame_of(alloc, &mut first, b"")?;
    take_bytes(&mut second, &frame, &mut Vec::new(alloc))?;
    frame_of(alloc, &mut second, b"")
}

#[test]
fn a_session_opens(rt: HostRuntime) -> Result<(), Fail> {
    let answer = answer(rt.alloc())?;
    let mut end = new_end(rt.alloc(), Role::Initiator, FIRST)?;
    let mut from = Counted::new(answer.as_slice());
    let mut out = Counted::new(Vec::new(rt.alloc()));
    open_session(rt.alloc(), &mut end, &mut from, &mut out)?;
    assert!(rt; end.hash().is_some());
    Ok(())
}

#[test]
fn a_datagram_is_a_message_after_its_nonce(rt: HostRuntime) {
    let (first, second) = opened(&rt);
    let mut message = [0; 21];
    assert!(rt; seal_hello(&mut Transport::new(first, 0), &mut message) == Ok(21));
    let mut bytes = [0; 29];
    bytes[8..].copy_from_slice(&message);
    let mut datagrams = Datagrams::new(second);
    let payload = datagram_payload(&mut datagrams, &mut bytes).expect(&rt, "a payload");
    assert!(rt; &*payload == b"hello".as_slice());
}

// The shortest way from a pattern's name to a frame: the frame of the first message.
fn first_frame(alloc: Global, keys: XorKeys) -> Result<(usize, Vec<u8>), Fail> {
    let mut out = Counted::new(Vec::new(alloc));
    let pattern = fundamental(b"XX").ok_or("no pattern")?.check()?;
    let remote = Remote { e: None, s: None };
    let handshake = Handshake::new(pattern, Role::Initiator, b"my program 1", keys, remote, &[])?;
    let mut end = End::new(alloc, handshake, 0)?;
    let length = end.write_to(b"", &mut out)?;
    Ok((length, out.into_inner()))
}

#[test]
fn the_first_message_is_a_frame(rt: HostRuntime) -> Result<(), Fail> {
    let (length, frame) = first_frame(rt.alloc(), FIRST)?;
    assert!(rt; length == 34);
    assert!(rt; frame.starts_with(&[0x00, 0x20, 0x11]));
    Ok(())
}
