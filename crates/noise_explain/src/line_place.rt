//! What stands above a line of a vector file.

use crate::position::{after_line, line_at};
use noise_names::{ProtocolName, Role, fundamental};

// The party whose keys have to stand in the line of this number.
pub(crate) fn needed_role(text: &[u8], number: usize) -> Role {
    if has_above(text, number, b"initiator ".as_slice()) {
        Role::Responder
    } else {
        Role::Initiator
    }
}

pub(crate) fn is_after_datagrams(text: &[u8], number: usize) -> bool {
    has_above(text, number, b"datagrams ".as_slice())
}

// Whether a line above the one of this number begins so.
fn has_above(text: &[u8], number: usize, front: &[u8]) -> bool {
    let mut rest = text;
    for _ in 1..number {
        if rest.starts_with(front) {
            return true;
        }
        if rest.is_empty() {
            return false;
        }
        rest = after_line(rest);
    }
    false
}

pub(crate) fn is_first_version(text: &[u8]) -> bool {
    line_at(text, 1) == b"vector 1".as_slice()
}

// Whether the protocol's pattern isn't fundamental, so that the file has to spell it.
pub(crate) fn is_own(text: &[u8]) -> bool {
    let Some(name) = line_at(text, 2).strip_prefix(b"protocol ".as_slice()) else {
        return false;
    };
    match ProtocolName::parse(name) {
        Ok(name) => fundamental(name.base()).is_none(),
        Err(_) => false,
    }
}

pub(crate) fn has_end(text: &[u8]) -> bool {
    text.split(|b| *b == b'\n')
        .any(|line| line == b"end".as_slice())
}
