//! The sentences on wrong lines of vector files.

use crate::advice::{Advice, Sentences};
use crate::line_column::{first_word, word_from, wrong_at};
use crate::line_place::{is_after_datagrams, is_first_version, needed_role};
use crate::line_shapes::shapes_of;
use crate::text_advice::slip;
use crate::word_faults::wrong_word;
use noise_names::Role;
use noise_vectors::LineKind;

// What is wrong with a line of a text, which has to be of this kind.
#[rattlefmt::skip]
pub(crate) fn line_reported(kind: LineKind, text: &[u8], number: usize, line: &[u8]) -> Sentences {
    if line.starts_with(b"#".as_slice()) {
        return ("A vector file has no comments, and this line begins as one.", "Leave it out.");
    }
    if let Some(advice) = slip(line) {
        return if line == b"expect ".as_slice() { EXPECT_EMPTY } else { advice.sentences() };
    }
    let first = first_word(line);
    let shapes = shapes_of(kind, first);
    if shapes.is_empty() {
        return first_reported(kind, text, number, line);
    }
    if let Some(fault) = wrong_word(kind, line) {
        return fault.sentences();
    }
    match wrong_at(shapes, line) {
        Some(at) => place_reported(line, at),
        None => whole_reported(kind, text, number, line),
    }
}

// After `expect` a space may be all that is there.
const EXPECT_EMPTY: Sentences = (
    "LINE has at least one byte, and none stands here.",
    "Write the line that is expected, or leave this one out.",
);

// What is wrong after so many bytes of a line, where no word stands that has a shape.
#[rattlefmt::skip]
fn place_reported(line: &[u8], at: usize) -> Sentences {
    if at >= line.len() {
        ("A word is missing at the end of the line.", "Write it after a space.")
    } else if word_from(line, at).is_empty() {
        ("One space stands between two words, and here is another one.", "Take it out.")
    } else {
        ("The line has a word too many.", "Leave it out.")
    }
}

// What is wrong with a line that begins as no line of its kind does.
#[rattlefmt::skip]
fn first_reported(kind: LineKind, text: &[u8], number: usize, line: &[u8]) -> Sentences {
    if line.starts_with(b" ".as_slice()) {
        return ("A line begins with its first word, and a space stands before it.", "Take it out.");
    }
    match kind {
        LineKind::Header => ("The first line says that it is a vector file, and its version.",
            "Write vector 1 or vector 2."),
        LineKind::Protocol => ("The protocol's line has to stand here, and another one does.",
            "Put it above this one, for example: protocol Noise_XX_25519_ChaChaPoly_SHA256"),
        LineKind::Prologue if line.ends_with(b":".as_slice()) => ("The prologue's line has to stand here: the pattern of this name is a fundamental one, which no file spells.",
            "Leave the lines of the pattern and the line end out if they are those of this name, or write their own name."),
        LineKind::Prologue => ("The prologue's line has to stand here, and another one does.",
            "Put it above this one. Without a prologue it is: prologue -"),
        LineKind::Interval => ("The interval's line has to stand here, and another one does.",
            "Put it above this one. Where no key is rekeyed it is: interval 0"),
        LineKind::Keys => keys_reported(needed_role(text, number), first_word(line)),
        LineKind::Event => event_reported(text, number, line),
        LineKind::Expect => expect_reported(line),
        LineKind::Pattern | LineKind::Psk | LineKind::Answer | LineKind::Ending => OTHER,
    }
}

const OTHER: Sentences = (
    "Another line has to stand here.",
    "The lines and their order are those of the format.",
);

#[rattlefmt::skip]
fn keys_reported(role: Role, first: &[u8]) -> Sentences {
    if first == b"answer".as_slice() {
        return ("DH results stand below a line of keys of the kind table alone, and above this one no such line stands.",
            "Write table in place of xor, or leave the DH results out.");
    }
    match role {
        Role::Initiator if first == b"psk".as_slice() => ("A psk's line has a key, and none stands here.",
            "Write it after a space."),
        Role::Initiator => ("The initiator's line has to stand here, and another one does.",
            "Put it above this one, for example: initiator xor - -"),
        Role::Responder => ("The responder's line has to stand here, and another one does.",
            "Put it above this one, for example: responder xor - -"),
    }
}

#[rattlefmt::skip]
fn event_reported(text: &[u8], number: usize, line: &[u8]) -> Sentences {
    let first = first_word(line);
    if first == b"expect".as_slice() {
        return if is_first_version(text) { FIRST_VERSION } else { expect_reported(line) };
    }
    if first == b"psk".as_slice() {
        return ("An event has to stand here, and a line of this name stands above the events.", "Move it up.");
    }
    if UPPER.contains(&first) {
        return ("An event has to stand here, and a line of this name stands above the events.",
            "Move it up, or leave it out.");
    }
    if is_after_datagrams(text, number) {
        return ("An event of datagrams has to stand here, and none has this name.",
            "The names are seal, open and foreign.");
    }
    ("An event has to stand here, and none has this name.",
        "The names are say, write, deliver and raw, and after the line of datagrams seal, open and foreign.")
}

const FIRST_VERSION: Sentences = (
    "Version 1 has no datagrams and no expected output.",
    "Write vector 2 in the first line.",
);

// The first words of the lines above the events.
#[rattlefmt::skip]
const UPPER: [&[u8]; 8] =
    [b"vector", b"protocol", b"prologue", b"interval", b"psk", b"initiator", b"responder", b"answer"];

#[rattlefmt::skip]
fn expect_reported(line: &[u8]) -> Sentences {
    if line == b"expect".as_slice() {
        return EXPECT_EMPTY;
    }
    if line.starts_with(b"expect ".as_slice()) {
        return ("LINE has bytes from 32 (a space) to 126 (~) alone, and another one stands in this.",
            "Take it out: no line of output has it.");
    }
    ("After the first line of expected output only such lines stand, and this is none.",
        "Move it above them, or leave it out.")
}

// What is wrong with a line whose words are each of their shape.
#[rattlefmt::skip]
fn whole_reported(kind: LineKind, text: &[u8], number: usize, line: &[u8]) -> Sentences {
    match kind {
        LineKind::Psk => ("A file has at most 9 psk lines, and this is one more.",
            "Write one psk line for each psk token, in the order of the tokens."),
        LineKind::Keys => match needed_role(text, number) {
            Role::Initiator => ("The initiator's line has to stand here, and this is the responder's.",
                "Put the initiator's above this one, for example: initiator xor - -"),
            Role::Responder => ("The responder's line has to stand here, and this is the initiator's.",
                "Put the responder's here, for example: responder xor - -"),
        },
        LineKind::Answer => ("A table has at most 8 DH results, and this is one more.", "Leave it out."),
        LineKind::Event => whole_event_reported(text, number, line),
        _ => OTHER,
    }
}

// An event that may not stand there.
#[rattlefmt::skip]
fn whole_event_reported(text: &[u8], number: usize, line: &[u8]) -> Sentences {
    let first = first_word(line);
    let is_datagrams = first == b"datagrams".as_slice();
    let is_of_datagrams = DATAGRAM_EVENTS.contains(&first);
    let is_after = is_after_datagrams(text, number);
    if (is_datagrams || is_of_datagrams) && is_first_version(text) {
        FIRST_VERSION
    } else if is_datagrams {
        ("The line of datagrams stands once, and this is another one.", "Leave it out.")
    } else if is_of_datagrams && !is_after {
        ("An event of datagrams stands below the line of datagrams, and above this one no such line stands.",
            "Put it above this one, for example: datagrams 64")
    } else if is_after && !is_of_datagrams {
        ("Below the line of datagrams only seal, open and foreign stand, and this is another event.",
            "Move it above that line, or leave it out.")
    } else {
        OTHER
    }
}

const DATAGRAM_EVENTS: [&[u8]; 3] = [b"seal", b"open", b"foreign"];
