//! Which sentences are said of a wrong word of a vector file.

ghost use Rattle.std.specs.Prelude.{◌≡◌, ◌≤◌, ◌==◌, count_by, length, slice_get, IfSome};
ghost use Rattle.std.specs.Char.{is_ascii_digit, is_ascii_hexdigit, is_ascii_uppercase};
ghost use Rattle.std.specs.List.{list_all, list_any};
ghost use Rattle.noise_explain.specs.WordFaults.{IsSaidOf, IsSlip, IsWrong, WordAsserts};
ghost use Rattle.noise_explain.specs.WordFaults.{spaces_before};

use crate::line_column::{first_word, word_from, wrong_at};
use crate::line_shapes::shapes_of;
use crate::shapes::Shape;
use crate::word_sentences::WordFault;
use noise_names::ProtocolName;
use noise_vectors::LineKind;

// What is wrong with the wrong word of a line that has to be of this kind, if it has one.
pub(crate) fn wrong_word(kind: LineKind, line: &[u8]) -> Option<WordFault>
    ensures { IfSome result (IsSaidOf kind line.now) }
{
    let shapes = shapes_of(kind, first_word(line));
    let at = wrong_at(shapes, line)?;
    let shape = shape_at(shapes, line, at)?;
    let word = word_from(line, at);
    if word.is_empty() {
        return None;
    }
    Some(word_fault(shape, word))
}

// The shape of the word that so many bytes of the line stand before.
fn shape_at(shapes: &[Shape], line: &[u8], at: usize) -> Option<Shape>
    ensures { at ≤ length line.now → result ≡ slice_get shapes.now (spaces_before line.now at) }
{
    let (before, _) = line.split_at(at.min(line.len()));
    shapes.get(spaces_in(before)).copied()
}

fn spaces_in(text: &[u8]) -> usize
    ensures { result ≡ count_by (λ b. b == 32) text.now }
{
    text.iter().filter(|b| **b == b' ').count()
}

// What is wrong with a word that isn't of this shape.
fn word_fault(shape: Shape, word: &[u8]) -> WordFault
    ensures { IsWrong shape word.now → WordAsserts result shape word.now }
{
    match shape {
        Shape::First | Shape::Name => name_fault(word),
        Shape::Version => WordFault::Version,
        Shape::Kind => WordFault::Kind,
        Shape::Role => WordFault::Role,
        Shape::Own => WordFault::Own,
        Shape::Window => WordFault::Window,
        Shape::Hex(most) => hex_fault(word, most),
        Shape::Key => key_fault(word),
        Shape::MaybeKey => maybe_key_fault(word),
        Shape::Number(most) => number_fault(word, most),
        Shape::Cuts => WordFault::Cuts,
    }
}

fn hex_fault(word: &[u8], most: usize) -> WordFault
    ensures { IsWrong (Shape.Hex most) word.now → WordAsserts result (Shape.Hex most) word.now }
{
    if word.starts_with(b"0x".as_slice()) {
        return WordFault::HexFront;
    }
    match slip_of(word) {
        Slip::UpperCase => WordFault::HexCase,
        Slip::Other => WordFault::HexCharacter,
        Slip::Count if word.len() % 2 == 1 => WordFault::HexOdd,
        Slip::Count if most > 65535 => WordFault::HexLonger,
        Slip::Count => WordFault::HexLong,
    }
}

fn key_fault(word: &[u8]) -> WordFault
    ensures { IsWrong Shape.Key word.now → WordAsserts result Shape.Key word.now }
{
    if word == b"-".as_slice() {
        return WordFault::KeyHyphen;
    }
    match slip_of(word) {
        Slip::UpperCase => WordFault::KeyCase,
        Slip::Other => WordFault::KeyCharacter,
        Slip::Count => WordFault::KeyCount,
    }
}

fn maybe_key_fault(word: &[u8]) -> WordFault
    ensures { IsWrong Shape.MaybeKey word.now → WordAsserts result Shape.MaybeKey word.now }
{
    match slip_of(word) {
        Slip::UpperCase => WordFault::MaybeKeyCase,
        Slip::Other => WordFault::MaybeKeyCharacter,
        Slip::Count => WordFault::KeyCount,
    }
}

// What is wrong with digits.
#[derive(Clone, Copy)]
pub(crate) enum Slip {
    UpperCase,
    Other,
    Count,
}

fn slip_of(word: &[u8]) -> Slip
    ensures { IsSlip result word.now }
{
    if !are_hex_digits(word) {
        return Slip::Other;
    }
    if has_upper_case(word) {
        return Slip::UpperCase;
    }
    Slip::Count
}

// Whether each byte is a hex digit, of either case.
fn are_hex_digits(word: &[u8]) -> bool
    ensures { result ≡ list_all is_ascii_hexdigit word.now }
{
    word.iter().all(|b| b.is_ascii_hexdigit())
}

fn has_upper_case(word: &[u8]) -> bool
    ensures { result ≡ list_any is_ascii_uppercase word.now }
{
    word.iter().any(|b| b.is_ascii_uppercase())
}

fn number_fault(word: &[u8], most: u64) -> WordFault
    ensures { IsWrong (Shape.Number most) word.now
        → WordAsserts result (Shape.Number most) word.now }
{
    if word.starts_with(b"+".as_slice()) || word.starts_with(b"-".as_slice()) {
        WordFault::NumberSign
    } else if word.starts_with(b"0".as_slice()) {
        WordFault::NumberZero
    } else if !are_digits(word) {
        WordFault::NumberCharacter
    } else if most > 4294967295 {
        WordFault::NumberLarger
    } else {
        WordFault::NumberLarge
    }
}

fn are_digits(word: &[u8]) -> bool
    ensures { result ≡ list_all is_ascii_digit word.now }
{
    word.iter().all(|b| b.is_ascii_digit())
}

// What is wrong with a protocol's name.
fn name_fault(name: &[u8]) -> WordFault
    ensures { WordAsserts result Shape.Name name.now }
{
    match ProtocolName::parse(name) {
        Ok(_) => WordFault::NameRight,
        Err(fault) => WordFault::Name(fault),
    }
}
