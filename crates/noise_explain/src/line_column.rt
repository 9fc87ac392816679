//! The column of a fault of a vector file.

ghost use Rattle.std.specs.Prelude.{◌≡◌, ◌⊎◌, ◌+◌, ◌-◌, ◌≤◌, ℕ, List, length, IfSome, MatchOption};
ghost use Rattle.noise_explain.specs.VectorColumns.{HasNoBlockFault, IsBlock, IsBlockColumn, IsBlockFault, IsLineColumn, IsWordColumn, first_word, IsShortLine, IsWholeLine, IsWrongWord, word_from};

use crate::column::column_of;
use crate::line_shapes::shapes_of;
use crate::position::{after_line, line_at};
use crate::shapes::{Shape, has_shape};
use noise_names::{Pattern, TextFault};
use noise_vectors::{LineKind, lines_before_end};

// The column of a fault of this kind in the line of this number.
pub(crate) fn line_column(kind: LineKind, text: &[u8], number: usize) -> usize
    ensures { IsLineColumn kind text.now number result }
{
    let line = line_at(text, number);
    match kind {
        LineKind::Pattern => block_column(text, number),
        LineKind::Ending => line.len() + 1,
        LineKind::Header
        | LineKind::Protocol
        | LineKind::Prologue
        | LineKind::Interval
        | LineKind::Psk
        | LineKind::Keys
        | LineKind::Answer
        | LineKind::Event
        | LineKind::Expect => word_column(kind, line),
    }
}

// The column of the word at fault.
fn word_column(kind: LineKind, line: &[u8]) -> usize
    ensures { IsWordColumn kind line.now result }
{
    match wrong_at(shapes_of(kind, first_word(line)), line) {
        Some(at) => at + 1,
        None => 1,
    }
}

// How many bytes stand before the word at fault, or before the end of a line that lacks a word. None: all words are of
// their shapes.
pub(crate) fn wrong_at(shapes: &[Shape], line: &[u8]) -> Option<usize>
    ensures value { MatchOption result (IsWholeLine shapes.now line.now 1)
        (λ at. IsWrongWord shapes.now line.now (at + 1) ⊎ IsShortLine shapes.now line.now (at + 1)) }
    ensures within { IfSome result (λ at. at ≤ length line.now) }
{
    let len = line.len();
    let mut at: usize = 0;
    for shape in shapes {
        if at > len {
            return Some(len);
        }
        if !has_shape(*shape, word_from(line, at)) {
            return Some(at);
        }
        at += word_from(line, at).len() + 1;
    }
    if at > len { None } else { Some(at) }
}

// The word that begins so many bytes after the line's begin.
pub(crate) fn word_from(line: &[u8], at: usize) -> &[u8]
    ensures value { result.now ≡ word_from line.now at }
    ensures few { length result.now ≤ length line.now - at }
{
    let (_, rest) = line.split_at(at.min(line.len()));
    first_word(rest)
}

// What stands before the first space.
pub(crate) fn first_word(text: &[u8]) -> &[u8]
    ensures value { result.now ≡ first_word text.now }
    ensures few { length result.now ≤ length text.now }
{
    let (word, _) = text.split_at(word_len(text));
    word
}

fn word_len(text: &[u8]) -> usize
    ensures { result ≡ length (first_word text.now) }
{
    text.iter().take_while(|b| **b != b' ').count()
}

// The column in a line of the pattern that a file spells.
fn block_column(text: &[u8], number: usize) -> usize
    ensures { IsBlockColumn text.now number result }
{
    let Some(fault) = block_fault(text) else {
        return 1;
    };
    if fault.line == number.saturating_sub(2) {
        column_of(fault.kind, fault.line, line_at(text, number))
    } else {
        1
    }
}

// The fault that the lines of that pattern have as a pattern text.
pub(crate) fn block_fault(text: &[u8]) -> Option<TextFault>
    ensures { MatchOption result (HasNoBlockFault text.now) (IsBlockFault text.now) }
{
    let block = block_of(text)?;
    match Pattern::parse_text(block) {
        Ok(_) => None,
        Err(fault) => Some(fault),
    }
}

// The lines after the first two, up to a line `end`.
pub(crate) fn block_of(text: &[u8]) -> Option<&[u8]>
    ensures { MatchOption result ((block : List ℕ) → ¬ IsBlock text.now block) (λ found. IsBlock text.now found.now) }
{
    let rest = after_line(after_line(text));
    lines_before_end(rest)
}
