//! A stream with an end, beside bytes that another program worked out.

ghost use Rattle.std.specs.Prelude.{◌≡◌};

use noise_channel::{
    Framed, Next, StreamFault, StreamReceiver, StreamSender, StreamState, next_frame, read_to,
    read_to_end,
};
use noise_names::Role;
use noise_session::{HalfParts, OpenFault, Receiver, Sender, frame_message};

// The frames of `hi`, `you` and the end, by the ChaCha20Poly1305 of Python's `cryptography`: with a key of 32 bytes
// `07` at nonces 0 and 1, and with that key rekeyed (the first 32 bytes of 32 zeros sealed at nonce 2^64 - 1) at nonce
// 2.
const HI: [u8; 20] = [
    0x00, 0x12, 0x5f, 0xed, 0x6b, 0xec, 0x0b, 0x3e, 0xb0, 0x8e, 0x44, 0xc5, 0x71, 0x48, 0x2c, 0xcc,
    0x45, 0x4c, 0x87, 0x6b,
];

const YOU: [u8; 21] = [
    0x00, 0x13, 0xc3, 0x3c, 0x45, 0xa1, 0x0d, 0xaf, 0x56, 0x56, 0xa0, 0x1b, 0x7f, 0x52, 0xa3, 0x5f,
    0x79, 0x8f, 0x01, 0xda, 0x0c,
];

const END: [u8; 18] = [
    0x00, 0x10, 0x62, 0xdc, 0x92, 0xec, 0xb3, 0x61, 0xef, 0x9a, 0x01, 0xc2, 0x3b, 0xa2, 0x53, 0x23,
    0x5f, 0xad,
];

// A half of the initiator's direction, whose key is rekeyed after two messages.
fn half(role: Role) -> HalfParts
    ensures { result.nonce ≡ 0 }
{
    HalfParts {
        role,
        one_way: false,
        interval: 2,
        key: [7; 32],
        nonce: 0,
    }
}

#[test]
fn a_stream_is_written(rt: HostRuntime) {
    let mut sender = StreamSender::new(Sender::from_parts(half(Role::Initiator)));
    let mut out = [0u8; 21];
    assert!(rt; sender.write(b"", &mut out) == Ok((0, 0)));
    assert!(rt; sender.write(b"hi", &mut out) == Ok((2, 20)));
    assert!(rt; &out[..20] == HI.as_slice());
    assert!(rt; sender.write(b"you", &mut out) == Ok((3, 21)));
    assert!(rt; out == YOU);
    assert!(rt; sender.end(&mut out) == Ok(18));
    assert!(rt; &out[..18] == END.as_slice());
    assert!(rt; sender.ended());
    assert!(rt; sender.write(b"", &mut out) == Err(StreamFault::Ended));
}

#[test]
fn a_stream_is_read(rt: HostRuntime) {
    let mut receiver = StreamReceiver::new(Receiver::from_parts(half(Role::Responder)));
    let (mut hi, mut you, mut end) = (HI, YOU, END);
    let (from, used) = (2, 20);
    assert!(rt; receiver.read(&mut hi[..1]) == Next::Wants(1));
    assert!(rt; receiver.read(&mut hi[..2]) == Next::Wants(18));
    assert!(rt; receiver.read(&mut hi) == Next::Payload { from, to: 4, used });
    assert!(rt; &hi[2..4] == b"hi".as_slice());
    let used = 21;
    assert!(rt; receiver.read(&mut you) == Next::Payload { from, to: 5, used });
    assert!(rt; &you[2..5] == b"you".as_slice());
    assert!(rt; receiver.is_cut(0));
    assert!(rt; receiver.read(&mut end) == Next::End { used: 18 });
    assert!(rt; receiver.state() == StreamState::Ended);
    assert!(rt; !receiver.is_cut(0) && receiver.is_cut(1));
    assert!(rt; receiver.read(&mut end) == Next::Closed);
}

// The frames of `hi`, `you` and the end, one after another.
fn came() -> [u8; 59] {
    let mut came = [0; 59];
    came[..20].copy_from_slice(&HI);
    came[20..41].copy_from_slice(&YOU);
    came[41..].copy_from_slice(&END);
    came
}

#[test]
fn a_stream_is_read_to_its_end(rt: HostRuntime) {
    let mut receiver = StreamReceiver::new(Receiver::from_parts(half(Role::Responder)));
    let mut out = Vec::new(rt.alloc());
    let whole = read_to_end(&mut receiver, &mut came(), &mut out).expect(&rt, "memory");
    assert!(rt; whole);
    assert!(rt; out.as_slice() == b"hiyou".as_slice());
}

#[test]
fn a_stream_is_read_in_pieces(rt: HostRuntime) {
    let mut receiver = StreamReceiver::new(Receiver::from_parts(half(Role::Responder)));
    let mut out = Vec::new(rt.alloc());
    let mut first = [0; 30];
    first[..20].copy_from_slice(&HI);
    first[20..].copy_from_slice(&YOU[..10]);
    let left = read_to(&mut receiver, &mut first, &mut out).expect(&rt, "memory");
    assert!(rt; left == 10);
    assert!(rt; out.as_slice() == b"hi".as_slice());
    let mut rest = [0; 39];
    rest[..21].copy_from_slice(&YOU);
    rest[21..].copy_from_slice(&END);
    let whole = read_to_end(&mut receiver, &mut rest, &mut out).expect(&rt, "memory");
    assert!(rt; whole);
    assert!(rt; out.as_slice() == b"hiyou".as_slice());
}

#[test]
fn a_stream_that_is_cut_is_not_whole(rt: HostRuntime) {
    let mut receiver = StreamReceiver::new(Receiver::from_parts(half(Role::Responder)));
    let mut out = Vec::new(rt.alloc());
    let mut cut = [0; 41];
    cut[..20].copy_from_slice(&HI);
    cut[20..].copy_from_slice(&YOU);
    let whole = read_to_end(&mut receiver, &mut cut, &mut out).expect(&rt, "memory");
    assert!(rt; !whole);
    assert!(rt; out.as_slice() == b"hiyou".as_slice());
}

#[test]
fn an_end_in_place_of_a_payload_is_refused(rt: HostRuntime) {
    let mut receiver = StreamReceiver::new(Receiver::from_parts(half(Role::Responder)));
    let mut end = END;
    assert!(rt; receiver.read(&mut end) == Next::Refused(OpenFault::Tag));
    assert!(rt; end == END);
    let mut hi = HI;
    assert!(rt; receiver.read(&mut hi) == Next::Closed);
    assert!(rt; receiver.is_cut(0));
}

#[test]
fn a_handshake_message_lies_in_its_frame(rt: HostRuntime) {
    let mut buffer = [9u8; 6];
    assert!(rt; frame_message(&mut buffer, 3) == 5);
    assert!(rt; buffer == [0, 3, 9, 9, 9, 9]);
    assert!(rt; next_frame(&buffer) == Framed::Message { from: 2, to: 5 });
    assert!(rt; next_frame(&buffer[..4]) == Framed::Wants(1));
    assert!(rt; next_frame(&buffer[..0]) == Framed::Wants(2));
}
