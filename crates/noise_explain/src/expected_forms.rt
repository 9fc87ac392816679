//! What a line of a vector file has to be.

use crate::line_place::needed_role;
use noise_names::Role;
use noise_vectors::LineKind;

// The form of a line of this kind that begins with this word, or nothing where it isn't reported.
pub(crate) fn expected_form(
    kind: LineKind,
    text: &[u8],
    number: usize,
    first: &[u8],
) -> &'static str {
    match kind {
        LineKind::Header => "vector 1 or vector 2",
        LineKind::Protocol => "protocol NAME",
        LineKind::Prologue => "prologue HEX",
        LineKind::Interval => "interval NUM",
        LineKind::Psk => "psk KEY",
        LineKind::Keys => match needed_role(text, number) {
            Role::Initiator => "initiator xor KEY? KEY?, or initiator table KEY? KEY?",
            Role::Responder => "responder xor KEY? KEY?, or responder table KEY? KEY?",
        },
        LineKind::Answer => "answer OWN KEY KEY",
        LineKind::Event => event_form(first),
        LineKind::Expect => "expect LINE",
        LineKind::Pattern | LineKind::Ending => "",
    }
}

fn event_form(first: &[u8]) -> &'static str {
    for (word, form) in &EVENTS {
        if first == *word {
            return form;
        }
    }
    ""
}

#[rattlefmt::skip]
static EVENTS: [(&[u8], &str); 9] = [
    (b"say", "say ROLE HEX CUTS"),
    (b"write", "write ROLE HEX"),
    (b"deliver", "deliver ROLE NUM CUTS"),
    (b"raw", "raw ROLE HEX"),
    (b"seal", "seal ROLE HEX"),
    (b"open", "open ROLE NUM"),
    (b"foreign", "foreign ROLE HEX"),
    (b"datagrams", "datagrams W"),
    (b"expect", "expect LINE"),
];
