//! What is said below the line of a fault: why a file can't be read, and what may be meant.

use crate::seen::{Seen, Unread};
use noise_explain::names_protocol;
use noise_lines::{named_pattern, push_shown};
use noise_names::{NAME_PREFIX, Pattern, ProtocolName};
use noise_tool::{Chosen, Documented, Order, whole_name};
use std::alloc::{AllocError, Global};
use std::io::ErrorKind;

/// What is said below `no expect lines` of a file of version 1. It takes no memory.
pub const VERSION_ONE: &[u8] =
    b"  A vector file of version 1 expects nothing: noise convert FILE makes one of version 2 that does.\n";

/// The lines below that of a fault, by what was asked for, what was seen of the files, and the exit status.
pub fn lines_below(
    alloc: Global,
    order: &Order,
    seen: &Seen,
    status: u8,
) -> Result<Vec<u8>, AllocError> {
    match order {
        Order::Command(chosen) => match shown_name(chosen) {
            Some(name) if status < 3 => unnamed_line(alloc, name.as_bytes()),
            _ => unread_lines(alloc, seen, takes_pattern(chosen), None),
        },
        Order::Test(_) if status == 3 => Ok(Vec::new(alloc)),
        Order::Test(_) => unread_lines(alloc, seen, false, None),
        Order::Explain(_) => unread_lines(alloc, seen, true, None),
        Order::Compare(names) if status == 2 && seen.is_first_alone_vector() => {
            exchanged_line(alloc, names.log.as_str(), names.file.as_str())
        }
        Order::Compare(_) => unread_lines(alloc, seen, false, None),
        Order::Document(_) if status < 3 => Ok(Vec::new(alloc)),
        Order::Document(Documented::Compare(_)) => unread_lines(alloc, seen, false, None),
        Order::Fill(names) if status < 3 && names_protocol(names.pattern.as_str()) => {
            unnamed_line(alloc, names.pattern.as_bytes())
        }
        Order::Fill(names) => unread_lines(alloc, seen, false, Some(names.pattern.as_str())),
    }
}

// The name of a pattern that is shown, or whose template is printed, where no file is read for it.
fn shown_name(chosen: &Chosen) -> Option<&str> {
    match chosen {
        Chosen::Show(word) => Some(word.as_str()),
        Chosen::Template(word) if names_protocol(word.as_str()) => Some(word.as_str()),
        _ => None,
    }
}

// Whether a command takes the name of a pattern in place of a file's.
fn takes_pattern(chosen: &Chosen) -> bool {
    matches!(chosen, Chosen::Check(_) | Chosen::Template(_))
}

// The lines of the files that can't be read. The name of a pattern is taken for each, or for this one.
fn unread_lines(
    alloc: Global,
    seen: &Seen,
    take_all: bool,
    taken: Option<&str>,
) -> Result<Vec<u8>, AllocError> {
    let mut lines = Vec::new(alloc);
    for file in &seen.take_unread(alloc) {
        let takes = take_all || taken == Some(file.name.as_str());
        lines.extend_from_slice(&unread_line(alloc, file, takes)?)?;
    }
    Ok(lines)
}

// Why a file can't be read.
fn reason(kind: ErrorKind) -> &'static str {
    match kind {
        ErrorKind::NotFound => "there is no such file",
        ErrorKind::NotADirectory => "a part of its name is a file, and no folder",
        ErrorKind::IsADirectory => "it is a folder",
        ErrorKind::PermissionDenied => "it may not be read",
        ErrorKind::InvalidInput | ErrorKind::InvalidFilename => "no file can have this name",
        _ => "reading it fails",
    }
}

// The line that says why this file can't be read, and where the name of a pattern is taken too, what may be meant.
// There is none where it is the name of a pattern.
fn unread_line(alloc: Global, file: &Unread, takes_pattern: bool) -> Result<Vec<u8>, AllocError> {
    let name = file.name.as_bytes();
    let mut line = Vec::new(alloc);
    if takes_pattern && pattern_of(alloc, name)?.is_some() {
        return Ok(line);
    }
    line.extend_from_slice(b"  ".as_slice())?;
    push_shown(name, &mut line)?;
    line.extend_from_slice(b": ".as_slice())?;
    line.extend_from_slice(reason(file.kind).as_bytes())?;
    if takes_pattern && file.kind == ErrorKind::NotFound {
        line.extend_from_slice(b", and no pattern of this name.".as_slice())?;
        push_meant(alloc, name, false, &mut line)?;
    } else {
        line.push(b'.')?;
    }
    line.push(b'\n')?;
    Ok(line)
}

// The line that says that no pattern has this name, and what may be meant. There is none where it is a right name.
fn unnamed_line(alloc: Global, name: &[u8]) -> Result<Vec<u8>, AllocError> {
    let mut line = Vec::new(alloc);
    let is_protocol = begins_as_protocol(name);
    if is_protocol && pattern_in(name).is_some() {
        return Ok(line);
    }
    line.extend_from_slice(b"  ".as_slice())?;
    push_shown(name, &mut line)?;
    line.extend_from_slice(if is_protocol {
        b": this library has no protocol of this name.".as_slice()
    } else {
        b": this library has no pattern of this name.".as_slice()
    })?;
    push_meant(alloc, name, is_protocol, &mut line)?;
    line.push(b'\n')?;
    Ok(line)
}

// The line that says that the files of `compare` come in the other order.
fn exchanged_line(alloc: Global, log: &str, file: &str) -> Result<Vec<u8>, AllocError> {
    let mut line = Vec::new(alloc);
    line.extend_from_slice(
        b"  The log comes first, and then the vector file: noise compare ".as_slice(),
    )?;
    push_shown(file.as_bytes(), &mut line)?;
    line.push(b' ')?;
    push_shown(log.as_bytes(), &mut line)?;
    line.push(b'\n')?;
    Ok(line)
}

// The pattern of this name, if there is one.
fn pattern_of(alloc: Global, name: &[u8]) -> Result<Option<Pattern>, AllocError> {
    Ok(pattern_in(&whole_name(alloc, name)?))
}

// The pattern in the name of a protocol, if there is one.
fn pattern_in(name: &[u8]) -> Option<Pattern> {
    match ProtocolName::parse(name) {
        Ok(protocol) => named_pattern(&protocol).ok(),
        Err(_) => None,
    }
}

// Appends which pattern, or which protocol, may be meant by a name; or which psks the pattern of its base has.
fn push_meant(
    alloc: Global,
    name: &[u8],
    is_protocol: bool,
    line: &mut Vec<u8>,
) -> Result<(), AllocError> {
    let section = section_of(name);
    let (front, rest) = section.split_at(base_len(section).min(section.len()));
    let base = mapped(alloc, front, true)?;
    let psks = mapped(alloc, rest, false)?;
    let mut whole = mapped(alloc, front, true)?;
    whole.extend_from_slice(&psks)?;
    if pattern_of(alloc, &whole)?.is_some() {
        return push_question(alloc, &whole, is_protocol, line);
    }
    let plain = without_other(&base);
    let Some(pattern) = pattern_of(alloc, plain)? else {
        return Ok(());
    };
    if rest.is_empty() {
        push_question(alloc, plain, is_protocol, line)
    } else if psks.starts_with(b"psk".as_slice()) {
        push_psks(alloc, plain, pattern.messages().len(), line)
    } else {
        Ok(())
    }
}

fn push_question(
    alloc: Global,
    name: &[u8],
    is_protocol: bool,
    line: &mut Vec<u8>,
) -> Result<(), AllocError> {
    line.extend_from_slice(b" Did you mean ".as_slice())?;
    if is_protocol {
        line.extend_from_slice(&whole_name(alloc, name)?)?;
    } else {
        line.extend_from_slice(name)?;
    }
    line.push(b'?')?;
    Ok(())
}

// Appends which psk modifiers a pattern of so many messages can have.
fn push_psks(
    alloc: Global,
    base: &[u8],
    count: usize,
    line: &mut Vec<u8>,
) -> Result<(), AllocError> {
    line.push(b' ')?;
    line.extend_from_slice(base)?;
    let words = format!(in alloc;
        " can have psk0 to psk{count}, each once and in rising order, with + between two."
    )?;
    line.extend_from_slice(words.as_bytes())
}

// Whether a name begins as that of a protocol.
fn begins_as_protocol(name: &[u8]) -> bool {
    name.starts_with(NAME_PREFIX) || name.starts_with(b"noise_".as_slice())
}

// What stands between `Noise_` and the next low line, without a colon at its end.
fn section_of(name: &[u8]) -> &[u8] {
    let rest = if let Some(rest) = name.strip_prefix(NAME_PREFIX) {
        rest
    } else if let Some(rest) = name.strip_prefix(b"noise_") {
        rest
    } else {
        name
    };
    let len = rest.iter().take_while(|b| **b != b'_').count();
    let (section, _) = rest.split_at(len.min(rest.len()));
    match section.strip_suffix(b":") {
        Some(words) => words,
        None => section,
    }
}

// How many letters and digits stand before a psk modifier.
fn base_len(section: &[u8]) -> usize {
    for len in 0..section.len() {
        let (_, rest) = section.split_at(len.min(section.len()));
        let is_alphanumeric = match rest.first() {
            Some(byte) => byte.is_ascii_alphanumeric(),
            None => false,
        };
        if !is_alphanumeric
            || rest.starts_with(b"psk".as_slice())
            || rest.starts_with(b"PSK".as_slice())
        {
            return len;
        }
    }
    section.len()
}

// These bytes in upper case, or in lower case.
fn mapped(alloc: Global, bytes: &[u8], is_upper: bool) -> Result<Vec<u8>, AllocError> {
    let mut made = Vec::new(alloc);
    for byte in bytes {
        made.push(if is_upper {
            byte.to_ascii_uppercase()
        } else {
            byte.to_ascii_lowercase()
        })?;
    }
    Ok(made)
}

// A base without a modifier that this library hasn't.
fn without_other(base: &[u8]) -> &[u8] {
    if let Some(plain) = base.strip_suffix(b"FALLBACK") {
        plain
    } else if let Some(plain) = base.strip_suffix(b"HFS") {
        plain
    } else if let Some(plain) = base.strip_suffix(b"NOPSK") {
        plain
    } else {
        base
    }
}
