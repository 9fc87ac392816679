//! Lines as the format has them: their arrows, spaces, commas and letters.

use crate::text_advice::without_spaces;
use std::alloc::{AllocError, Global};

// A line as the format has it, where it is nearly so: the first one is the heading, unless it has an arrow. What can't
// be read stays as it is.
pub(crate) fn tidy_line(alloc: Global, line: &[u8], is_first: bool) -> Result<Vec<u8>, AllocError> {
    let bare = plain(alloc, line)?;
    let words = trimmed(&bare);
    if words.is_empty() {
        return Ok(Vec::new(alloc));
    }
    if words.starts_with(b"..".as_slice()) || words.starts_with(b"\xe2\x80\xa6".as_slice()) {
        return Vec::from_slice(alloc, b"  ...");
    }
    match after_arrow(words) {
        Some((arrow, list)) => listed(alloc, arrow, list),
        None if is_first => heading(alloc, words),
        None => Vec::from_slice(alloc, words),
    }
}

// The line without a byte-order mark and a comment, and with spaces in place of tabs and of a carriage return.
fn plain(alloc: Global, line: &[u8]) -> Result<Vec<u8>, AllocError> {
    let mut bare = Vec::new(alloc);
    let rest = match line.strip_prefix(b"\xef\xbb\xbf") {
        Some(after) => after,
        None => line,
    };
    for byte in rest {
        if *byte == b'#' {
            return Ok(bare);
        }
        bare.push(if *byte == b'\t' || *byte == b'\r' {
            b' '
        } else {
            *byte
        })?;
    }
    Ok(bare)
}

fn trimmed(line: &[u8]) -> &[u8] {
    let words = without_spaces(line);
    let back = words.iter().rev().take_while(|b| **b == b' ').count();
    let (kept, _) = words.split_at(words.len().saturating_sub(back));
    kept
}

// These pieces, one after the other.
pub(crate) fn joined(alloc: Global, pieces: &[&[u8]]) -> Result<Vec<u8>, AllocError> {
    let mut all = Vec::new(alloc);
    for piece in pieces {
        all.extend_from_slice(piece)?;
    }
    Ok(all)
}

// The arrow that is meant at the front, and what follows it.
fn after_arrow(words: &[u8]) -> Option<(&'static [u8], &[u8])> {
    for (written, meant) in &ARROWS {
        if let Some(list) = words.strip_prefix(*written) {
            return Some((*meant, list));
        }
    }
    None
}

#[rattlefmt::skip]
static ARROWS: [(&[u8], &[u8]); 6] = [
    (b"->", b"  -> "), (b"=>", b"  -> "), (b"\xe2\x86\x92", b"  -> "),
    (b"<-", b"  <- "), (b"<=", b"  <- "), (b"\xe2\x86\x90", b"  <- "),
];

// The line of an arrow and these words, in small letters, with a comma and a space between two.
fn listed(alloc: Global, arrow: &[u8], list: &[u8]) -> Result<Vec<u8>, AllocError> {
    let mut line = Vec::from_slice(alloc, arrow)?;
    let mut is_between = false;
    let mut has_word = false;
    for byte in list {
        if *byte == b' ' || *byte == b',' || *byte == b';' {
            is_between = has_word;
        } else {
            if is_between {
                line.extend_from_slice(b", ".as_slice())?;
                is_between = false;
            }
            line.push(byte.to_ascii_lowercase())?;
            has_word = true;
        }
    }
    Ok(line)
}

// The heading that is meant by these words: a name in upper case, and the psk modifiers in order.
fn heading(alloc: Global, words: &[u8]) -> Result<Vec<u8>, AllocError> {
    let (front, rest) = words.split_at(name_len(words).min(words.len()));
    let mut line = Vec::new(alloc);
    push_name(front, &mut line)?;
    push_modifiers(rest, &mut line)?;
    line.push(b':')?;
    Ok(line)
}

// Appends a name in upper case, of at most 8 bytes; one of one's own where these words are none.
fn push_name(words: &[u8], line: &mut Vec<u8>) -> Result<(), AllocError> {
    let has_small = words.iter().any(|b| b.is_ascii_lowercase());
    let Some(first) = words.first() else {
        return line.extend_from_slice(b"MINE".as_slice());
    };
    if has_small && words.len() > 8 {
        return line.extend_from_slice(b"MINE".as_slice());
    }
    if first.is_ascii_digit() {
        line.push(b'M')?;
    }
    for byte in words {
        if line.len() < 8 {
            line.push(byte.to_ascii_uppercase())?;
        }
    }
    Ok(())
}

// How many letters and digits stand at the front, before a psk modifier.
fn name_len(words: &[u8]) -> usize {
    let len = words
        .iter()
        .take_while(|b| b.is_ascii_alphanumeric())
        .count();
    match words.windows(3).position(|word| word == b"psk".as_slice()) {
        Some(at) => len.min(at),
        None => len,
    }
}

// Appends the psk modifiers that stand somewhere in a text, in rising order.
pub(crate) fn push_modifiers(text: &[u8], line: &mut Vec<u8>) -> Result<(), AllocError> {
    let mut front: &[u8] = b"psk";
    for digit in b'0'..b'9' {
        let modifier = [b'p', b's', b'k', digit];
        if text.windows(4).any(|word| word == modifier.as_slice()) {
            line.extend_from_slice(front)?;
            line.push(digit)?;
            front = b"+psk";
        }
    }
    Ok(())
}

// Whether psk stands somewhere in a line, in small letters or not.
pub(crate) fn has_psk(line: &[u8]) -> bool {
    line.windows(3)
        .any(|word| word.eq_ignore_ascii_case(b"psk"))
}
