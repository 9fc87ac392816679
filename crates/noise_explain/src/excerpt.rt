//! The first line of an explanation, and a line of the text with a caret below it.

ghost use Rattle.std.specs.Prelude.{◌≡◌, ◌++◌, IfOk, OnOk, decimal, replicate};
ghost use Rattle.std.specs.List.{flat_map};
ghost use Rattle.noise_names.specs.Names.{section_bytes};
ghost use Rattle.noise_explain.specs.Shown.{caret_text, right_head, sentence_line, shown_end, shown_start, unread_head, wrong_head};

use crate::position::Position;
use noise_lines::{Fault, fault_line, push_shown};
use noise_names::Pattern;
use std::alloc::{AllocError, Global};

/// The first line of what is said of a wrong text.
pub fn wrong_head(
    alloc: Global,
    name: &str,
    position: Position,
    fault: Fault,
) -> Result<Vec<u8>, AllocError>
    ensures { IfOk result (λ text. text.items ≡ wrong_head name.now position fault) }
{
    let mut text = Vec::new(alloc);
    push_shown(name.as_bytes(), &mut text)?;
    text.push(b':')?;
    push_number(alloc, position.line, &mut text)?;
    text.push(b':')?;
    push_number(alloc, position.column, &mut text)?;
    text.extend_from_slice(b": ".as_slice())?;
    text.extend_from_slice(&fault_line(alloc, fault)?.into_bytes())?;
    text.push(b'\n')?;
    Ok(text)
}

// The first line of what is said of a right pattern text.
pub(crate) fn right_head(
    alloc: Global,
    name: &str,
    pattern: &Pattern,
) -> Result<Vec<u8>, AllocError>
    ensures { IfOk result (λ text. text.items ≡ right_head name.now pattern.now) }
{
    let mut text = Vec::new(alloc);
    push_shown(name.as_bytes(), &mut text)?;
    text.extend_from_slice(b": valid ".as_slice())?;
    push_section(pattern, &mut text)?;
    text.push(b'\n')?;
    Ok(text)
}

/// The first line of what is said of a file that isn't read.
pub fn unread_head(alloc: Global, name: &str, fault: Fault) -> Result<Vec<u8>, AllocError>
    ensures { IfOk result (λ text. text.items ≡ unread_head name.now fault) }
{
    let mut text = Vec::new(alloc);
    push_shown(name.as_bytes(), &mut text)?;
    text.extend_from_slice(b": ".as_slice())?;
    text.extend_from_slice(&fault_line(alloc, fault)?.into_bytes())?;
    text.push(b'\n')?;
    Ok(text)
}

// Appends the pattern section: what is between `Noise_` and `_25519_ChaChaPoly_SHA256` in the pattern's name.
fn push_section(pattern: &Pattern, text: &mut Vec<u8>) -> Result<(), AllocError>
    ensures { OnOk result (text.new.items ≡ text.old.items ++ section_bytes pattern.now.base pattern.now.places) }
{
    let name = pattern.name().write();
    text.extend_from_slice(&name[6..name.len() - 24])
}

pub(crate) fn push_number(
    alloc: Global,
    number: usize,
    text: &mut Vec<u8>,
) -> Result<(), AllocError>
    ensures { OnOk result (text.new.items ≡ text.old.items ++ decimal number) }
{
    let digits = format!(in alloc; "{number}")?;
    text.extend_from_slice(digits.as_bytes())
}

// How much of a line is shown before and after a column.
const SHOWN: usize = 64;

/// A line, or the part of a long one round this column, and a caret below the column.
pub fn caret_lines(alloc: Global, line: &[u8], column: usize) -> Result<Vec<u8>, AllocError>
    ensures { IfOk result (λ text. text.items ≡ caret_text line.now column) }
{
    let (before, after) = line.split_at(column.saturating_sub(1).min(line.len()));
    let mut text = Vec::new(alloc);
    push_end(before, &mut text)?;
    let width = text.len();
    push_start(after, &mut text)?;
    text.push(b'\n')?;
    push_spaces(width, &mut text)?;
    text.extend_from_slice(b"^\n".as_slice())?;
    Ok(text)
}

fn push_spaces(count: usize, text: &mut Vec<u8>) -> Result<(), AllocError>
    ensures { OnOk result (text.new.items ≡ text.old.items ++ replicate count 32) }
{
    let mut done: usize = 0;
    while done < count {
        text.push(b' ')?;
        done += 1;
    }
    Ok(())
}

// Appends two spaces and the last bytes.
fn push_end(bytes: &[u8], text: &mut Vec<u8>) -> Result<(), AllocError>
    ensures { OnOk result (text.new.items ≡ text.old.items ++ shown_end bytes.now) }
{
    text.extend_from_slice(b"  ".as_slice())?;
    let (left_out, last) = bytes.split_at(bytes.len().saturating_sub(SHOWN));
    if !left_out.is_empty() {
        text.extend_from_slice(b"[..]".as_slice())?;
    }
    push_shown(last, text)
}

// Appends the first bytes.
fn push_start(bytes: &[u8], text: &mut Vec<u8>) -> Result<(), AllocError>
    ensures { OnOk result (text.new.items ≡ text.old.items ++ shown_start bytes.now) }
{
    let (first, left_out) = bytes.split_at(bytes.len().min(SHOWN));
    push_shown(first, text)?;
    if left_out.is_empty() {
        return Ok(());
    }
    text.extend_from_slice(b"[..]".as_slice())
}

// Appends such a line for each sentence.
pub(crate) fn push_sentences(sentences: &[&str], text: &mut Vec<u8>) -> Result<(), AllocError>
    ensures { OnOk result (text.new.items ≡ text.old.items ++ flat_map (λ s. sentence_line s.now) sentences.now) }
{
    for sentence in sentences {
        push_sentence(sentence, text)?;
    }
    Ok(())
}

/// Appends a line of two spaces and a sentence.
pub fn push_sentence(sentence: &str, text: &mut Vec<u8>) -> Result<(), AllocError>
    ensures { OnOk result (text.new.items ≡ text.old.items ++ sentence_line sentence.now) }
{
    text.extend_from_slice(b"  ".as_slice())?;
    text.extend_from_slice(sentence.as_bytes())?;
    text.push(b'\n')?;
    Ok(())
}
