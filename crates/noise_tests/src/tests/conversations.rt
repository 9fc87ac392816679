//! Conversations that nothing is asked for: each caller here has no condition, so what `converse` requires can be met.

ghost use Rattle.std.specs.Prelude.{IsSome};

use super::transport::{KEY, sealed};
use noise_aead::rekey;
use noise_duel::{Cuts, Duel, Event, Report};
use noise_handshake::XorKeys;
use noise_names::{Pattern, PskPlaces, Role, ValidPattern, fundamental};
use noise_theorems::laws::xor_keys_have_dh_results;
use noise_theorems::{converse, messages_fit, run_chunks, run_events};
use std::alloc::{AllocError, Global};
use std::process::Abort;

/// Messages that two parties say.
type Lines = Vec<(Role, Vec<u8>, Cuts)>;

// Lines for both parties in turn through the handshake.
fn handshake_lines(alloc: Global, pattern: &ValidPattern) -> Result<Lines, AllocError> {
    let mut lines = Vec::new(alloc);
    let mut turn = Role::Initiator;
    for _ in pattern.pattern().messages() {
        let payload = Vec::from_slice(alloc, b"hello")?;
        lines.push((turn, payload, Cuts::whole()))?;
        turn = turn.other();
    }
    Ok(lines)
}

// So many more lines of the initiator's, each with the payload `hi`.
fn say_more(alloc: Global, count: usize, lines: &mut Lines) -> Result<(), AllocError> {
    for _ in 0..count {
        let payload = Vec::from_slice(alloc, b"hi")?;
        lines.push((Role::Initiator, payload, Cuts::whole()))?;
    }
    Ok(())
}

// Both key pairs, each key of one byte throughout.
pub fn both_keys(ephemeral: u8, fixed: u8) -> XorKeys
    ensures e { IsSome result.e }
    ensures s { IsSome result.s }
{
    XorKeys {
        e: Some([ephemeral; 32]),
        s: Some([fixed; 32]),
    }
}

// Two parties with both key pairs each, whose transport key is rekeyed after each message, say these lines. The lines
// have to fit.
fn conversed(
    rt: &impl Abort,
    alloc: Global,
    pattern: ValidPattern,
    psks: &[[u8; 32]],
    lines: &[(Role, Vec<u8>, Cuts)],
) -> (Duel<XorKeys, XorKeys>, Report) {
    let fit = messages_fit(&pattern, lines);
    assert!(rt; fit);
    let initiator = both_keys(0x11, 0x33);
    let responder = both_keys(0x22, 0x44);
    xor_keys_have_dh_results();
    let made = converse(
        alloc, pattern, b"tests", initiator, responder, psks, 1, lines,
    );
    made.expect(rt, "a conversation")
}

// They say all messages of the handshake, and three more.
fn comes_through(rt: &impl Abort, alloc: Global, pattern: ValidPattern, psks: &[[u8; 32]]) {
    let mut lines = handshake_lines(alloc, &pattern).expect(rt, "memory");
    say_more(alloc, 3, &mut lines).expect(rt, "memory");
    let (duel, report) = conversed(rt, alloc, pattern, psks, &lines);
    let open = duel.responder().hash().is_some();
    assert!(rt; open);
    let reported = report.entries.len() / 2;
    assert!(rt; reported == lines.len());
}

// A fundamental pattern with psk tokens at these places.
pub fn pattern(rt: &impl Abort, base: &[u8], places: &[u8]) -> ValidPattern {
    let plain = fundamental(base).expect(rt, "a fundamental pattern");
    let places = PskPlaces::new(places).expect(rt, "places");
    let is_plain = plain.is_plain();
    assert!(rt; is_plain);
    let pattern = Pattern::with_psks(&plain, &places).expect(rt, "a pattern");
    pattern.check().expect(rt, "a valid pattern")
}

#[test]
fn without_keys_before(rt: HostRuntime) {
    let pattern = pattern(&rt, b"NN", &[]);
    comes_through(&rt, rt.alloc(), pattern, &[]);
}

#[test]
fn with_a_pre_message(rt: HostRuntime) {
    let pattern = pattern(&rt, b"IK", &[]);
    comes_through(&rt, rt.alloc(), pattern, &[]);
}

#[test]
fn with_two_psks(rt: HostRuntime) {
    let pattern = pattern(&rt, b"XX", &[0, 3]);
    comes_through(&rt, rt.alloc(), pattern, &[[0x55; 32], [0x66; 32]]);
}

#[test]
fn one_way(rt: HostRuntime) {
    let pattern = pattern(&rt, b"X", &[]);
    comes_through(&rt, rt.alloc(), pattern, &[]);
}

#[test]
fn of_an_own_text(rt: HostRuntime) {
    let text = b"MYKX:\n  -> s\n  ...\n  -> e\n  <- e, ee, se, s, es\n";
    let pattern = Pattern::parse_text(text).expect(&rt, "a pattern");
    let pattern = pattern.check().expect(&rt, "a valid pattern");
    comes_through(&rt, rt.alloc(), pattern, &[]);
}

// The frame of a transport message of 18 bytes.
fn framed(message: [u8; 18]) -> [u8; 20] {
    let mut frame = [0; 20];
    frame[1] = 18;
    frame[2..].copy_from_slice(&message);
    frame
}

// The parties of a conversation that is the handshake alone rekey at their interval: here before each message
// but the first.
#[test]
fn renews_after_the_handshake(rt: HostRuntime) {
    let alloc = rt.alloc();
    let pattern = pattern(&rt, b"NN", &[]);
    let lines = handshake_lines(alloc, &pattern).expect(&rt, "memory");
    let (duel, _) = conversed(&rt, alloc, pattern, &[], &lines);
    let mut more = Vec::new(alloc);
    say_more(alloc, 2, &mut more).expect(&rt, "memory");
    let (_, report) = duel.converse(alloc, &more).expect(&rt, "memory");
    let entries = format!(in alloc; "{:?}", report.entries).expect(&rt, "memory");
    assert!(rt;
        entries.as_str()
            == "[(Initiator, Wrote(0)), (Responder, Payload([104, 105])), \
(Initiator, Wrote(1)), (Responder, Payload([104, 105]))]"
    );
    let frames = format!(in alloc; "{:?}", report.initiator).expect(&rt, "memory");
    let wanted = [framed(sealed(&KEY, 0)), framed(sealed(&rekey(&KEY), 1))];
    let wanted = format!(in alloc; "{:?}", wanted).expect(&rt, "memory");
    assert!(rt; frames.as_str() == wanted.as_str());
}

// The frames of two messages come joined: the first with 3 bytes of the second, and then the rest.
#[test]
fn frames_joined_and_cut(rt: HostRuntime) {
    let alloc = rt.alloc();
    let pattern = pattern(&rt, b"NN", &[]);
    let lines = handshake_lines(alloc, &pattern).expect(&rt, "memory");
    let (duel, _) = conversed(&rt, alloc, pattern, &[], &lines);
    let second = framed(sealed(&rekey(&KEY), 1));
    let mut piece = Vec::from_slice(alloc, &framed(sealed(&KEY, 0))).expect(&rt, "memory");
    piece.extend_from_slice(&second[..3]).expect(&rt, "memory");
    let rest = Vec::from_slice(alloc, &second[3..]).expect(&rt, "memory");
    let mut writes = Vec::new(alloc);
    for _ in 0..2 {
        let payload = Vec::from_slice(alloc, b"hi").expect(&rt, "memory");
        writes
            .push(Event::Write(Role::Initiator, payload))
            .expect(&rt, "memory");
    }
    let (duel, _) = duel.run(alloc, &writes).expect(&rt, "memory");
    let pieces = [
        Event::Raw(Role::Responder, piece),
        Event::Raw(Role::Responder, rest),
    ];
    let (_, report) = run_chunks(alloc, duel, &pieces).expect(&rt, "memory");
    let entries = format!(in alloc; "{:?}", report.entries).expect(&rt, "memory");
    assert!(rt;
        entries.as_str()
            == "[(Responder, Payload([104, 105])), (Responder, Held(3)), (Responder, Payload([104, 105]))]"
    );
}

#[test]
fn over_a_network(rt: HostRuntime) {
    let pattern = pattern(&rt, b"NN", &[]);
    let events = [
        Event::Say(Role::Initiator, Vec::new(rt.alloc()), Cuts::whole()),
        Event::Say(Role::Responder, Vec::new(rt.alloc()), Cuts::whole()),
        Event::Write(Role::Initiator, Vec::new(rt.alloc())),
        Event::Deliver(Role::Responder, 1, Cuts::whole()),
        Event::Deliver(Role::Responder, 1, Cuts::whole()),
    ];
    let made = run_events(
        rt.alloc(),
        pattern,
        b"tests",
        both_keys(0x11, 0x22),
        both_keys(0x33, 0x44),
        &[],
        0,
        &events,
    );
    let (duel, report) = made.expect(&rt, "a run");
    let reported = report.entries.len();
    assert!(rt; reported == 7);
    let hash = duel.initiator().hash();
    assert!(rt; hash.is_some());
    assert!(rt; hash == duel.responder().hash());
}
