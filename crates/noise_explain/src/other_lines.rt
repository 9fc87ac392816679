//! The lines of a wrong text that can't be read besides the first one.

use crate::advice::Advice;
use crate::column::{after_arrow, column_of, piece_column};
use crate::excerpt::push_number;
use crate::position::{after_line, line_at};
use crate::text_advice::fault_advice;
use noise_names::{TextFault, TextFaultKind, Token};
use std::alloc::{AllocError, Global};

// How many lines are read after the first wrong one: a pattern has at most 12.
const MOST: usize = 40;

// What is wrong with each later line that can't be read alone. What was said of the first one isn't said again, and
// nothing is where all lines are indented, or are those of a vector file.
pub(crate) fn other_lines(
    alloc: Global,
    text: &[u8],
    first: usize,
    first_advice: Advice,
) -> Result<Vec<u8>, AllocError> {
    let mut said = Vec::new(alloc);
    if first_advice == Advice::HeadingIndented || first_advice == Advice::VectorHeading {
        return Ok(said);
    }
    let mut rest = text;
    for number in 1..first.saturating_add(MOST) {
        if rest.is_empty() {
            return Ok(said);
        }
        if number > first {
            push_line(
                alloc,
                text,
                number,
                line_at(rest, 1),
                first_advice,
                &mut said,
            )?;
        }
        rest = after_line(rest);
    }
    Ok(said)
}

fn push_line(
    alloc: Global,
    text: &[u8],
    number: usize,
    line: &[u8],
    first_advice: Advice,
    said: &mut Vec<u8>,
) -> Result<(), AllocError> {
    let Some(kind) = kind_of(line) else {
        return Ok(());
    };
    let fault = TextFault { line: number, kind };
    let advice = fault_advice(text, fault, column_of(kind, number, line));
    if advice == first_advice {
        return Ok(());
    }
    said.extend_from_slice(b"  Line ".as_slice())?;
    push_number(alloc, number, said)?;
    said.extend_from_slice(b": ".as_slice())?;
    said.extend_from_slice(advice.sentences().0.as_bytes())?;
    said.push(b'\n')?;
    Ok(())
}

// What is wrong with a line of tokens, whatever stands around it.
fn kind_of(line: &[u8]) -> Option<TextFaultKind> {
    let has_arrow = line.starts_with(b"  -> ".as_slice()) || line.starts_with(b"  <- ".as_slice());
    if line == b"  ...".as_slice() {
        None
    } else if !has_arrow {
        Some(TextFaultKind::Arrow)
    } else if has_words(after_arrow(line)) {
        None
    } else {
        Some(TextFaultKind::Token)
    }
}

// Whether a list is one of tokens: so is what stands after its last comma.
fn has_words(list: &[u8]) -> bool {
    let before = piece_column(list).saturating_sub(6);
    let (_, last) = list.split_at(before.min(list.len()));
    matches!(Token::parse_first(last), Some((_, [])))
}
