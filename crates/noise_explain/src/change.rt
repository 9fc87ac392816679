//! Changes of a text's lines.

ghost use Rattle.std.specs.Prelude.{◌≡◌, ◌++◌, ◌∷◌, [], IfOk, OnOk, codes, flat_map, nat_eq, if◌then◌else◌};
ghost use Rattle.noise_lines.specs.Shown.{shown_text};
ghost use Rattle.noise_explain.specs.Corrections.{before_line, change_row, change_rows, changed, corrected, without_byte};

use crate::excerpt::push_number;
use crate::fact_words::push;
use crate::position::{after_line, from_line};
use noise_lines::push_shown;
use std::alloc::{AllocError, Global};

/// A change of a text. Its lines count from 1, and a new line has no line feed here.
#[derive(Drop)]
pub(crate) enum Change {
    /// This line is written anew.
    Write(usize, Vec<u8>),
    /// A line is put in before the one of this number, or after the last one.
    Put(usize, Vec<u8>),
    /// This line is left out.
    Out(usize),
    /// A line feed is put at the end.
    LineFeed,
    /// All carriage returns are left out.
    NoReturns,
}

// The text after these changes, one after another.
pub(crate) fn corrected(
    alloc: Global,
    text: &[u8],
    changes: &[Change],
) -> Result<Vec<u8>, AllocError>
    ensures { IfOk result (λ made. made.items ≡ corrected changes.now text.now) }
{
    let Some((first, later)) = changes.split_first() else {
        return Vec::from_slice(alloc, text);
    };
    corrected(alloc, &changed(alloc, text, first)?, later)
}

#[tactic(auto, unfolding(crate::specs::Corrections::changed))]
fn changed(alloc: Global, text: &[u8], change: &Change) -> Result<Vec<u8>, AllocError>
    ensures { IfOk result (λ made. made.items ≡ changed change.now text.now) }
{
    match change {
        Change::Write(number, line) => {
            let mut made = before_line(alloc, text, *number)?;
            push_line(line, after_line(from_line(text, *number)), &mut made)?;
            Ok(made)
        }
        Change::Put(number, line) => {
            let mut made = before_line(alloc, text, *number)?;
            push_line(line, from_line(text, *number), &mut made)?;
            Ok(made)
        }
        Change::Out(number) => {
            let mut made = before_line(alloc, text, *number)?;
            made.extend_from_slice(after_line(from_line(text, *number)))?;
            Ok(made)
        }
        Change::LineFeed => {
            let mut made = Vec::new(alloc);
            push_line(text, &[], &mut made)?;
            Ok(made)
        }
        Change::NoReturns => without_byte(alloc, text, b'\r'),
    }
}

fn before_line(alloc: Global, text: &[u8], number: usize) -> Result<Vec<u8>, AllocError>
    ensures { IfOk result (λ made. made.items ≡ before_line number text.now) }
{
    let count = text.len().saturating_sub(from_line(text, number).len());
    let (before, _) = text.split_at(count);
    Vec::from_slice(alloc, before)
}

// Appends a line with its line feed, and what follows it.
fn push_line(line: &[u8], after: &[u8], text: &mut Vec<u8>) -> Result<(), AllocError>
    ensures { OnOk result (text.new.items ≡ text.old.items ++ line.now ++ 10 ∷ after.now) }
{
    text.extend_from_slice(line)?;
    text.push(b'\n')?;
    text.extend_from_slice(after)
}

fn without_byte(alloc: Global, text: &[u8], byte: u8) -> Result<Vec<u8>, AllocError>
    ensures { IfOk result (λ made. made.items ≡ without_byte byte text.now) }
{
    let mut made = Vec::new(alloc);
    for it in text {
        push_unless(byte, *it, &mut made)?;
    }
    Ok(made)
}

fn push_unless(byte: u8, it: u8, text: &mut Vec<u8>) -> Result<(), AllocError>
    ensures { OnOk result (text.new.items ≡ text.old.items ++ (if nat_eq it byte then [] else it ∷ [])) }
{
    if it == byte {
        return Ok(());
    }
    text.push(it)?;
    Ok(())
}

// Appends the lines that tell these changes.
pub(crate) fn push_changes(
    alloc: Global,
    changes: &[Change],
    text: &mut Vec<u8>,
) -> Result<(), AllocError>
    ensures { OnOk result (text.new.items ≡ text.old.items ++ change_rows changes.now) }
{
    if changes.len() > 1 {
        push(&[ORDER], text)?;
    }
    push_rows(alloc, changes, text)
}

#[rattlefmt::skip]
pub(crate) const ORDER: &str =
    "  Make these changes one after another, each on the text that the one before leaves.\n";

// Appends a line for each change.
fn push_rows(alloc: Global, changes: &[Change], text: &mut Vec<u8>) -> Result<(), AllocError>
    ensures { OnOk result (text.new.items ≡ text.old.items ++ flat_map change_row changes.now) }
{
    for change in changes {
        push_row(alloc, change, text)?;
    }
    Ok(())
}

fn push_row(alloc: Global, change: &Change, text: &mut Vec<u8>) -> Result<(), AllocError>
    ensures { OnOk result (text.new.items ≡ text.old.items ++ change_row change.now) }
{
    match change {
        Change::Write(number, line) => {
            push(&["  Write line "], text)?;
            push_number(alloc, *number, text)?;
            push(&[" so: \""], text)?;
            push_quoted(line, text)
        }
        Change::Put(number, line) => {
            push(&["  Put in as line "], text)?;
            push_number(alloc, *number, text)?;
            push(&[": \""], text)?;
            push_quoted(line, text)
        }
        Change::Out(number) => {
            push(&["  Leave line "], text)?;
            push_number(alloc, *number, text)?;
            push(&[" out.\n"], text)
        }
        Change::LineFeed => push(&["  End the last line with a line feed.\n"], text),
        Change::NoReturns => push(&["  End each line with a line feed alone.\n"], text),
    }
}

// Appends a line, the mark that ends it, and a full stop.
fn push_quoted(line: &[u8], text: &mut Vec<u8>) -> Result<(), AllocError>
    ensures { OnOk result (text.new.items ≡ text.old.items ++ shown_text line.now ++ codes "\".\n") }
{
    push_shown(line, text)?;
    push(&["\".\n"], text)
}
