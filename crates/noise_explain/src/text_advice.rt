//! Which sentences are said of a fault of a pattern text.

ghost use Rattle.std.specs.Prelude.{◌≡◌, ◌==◌, ◌-◌, ◌||◌, ◌&&◌, ◌⊎◌, ℕ, IfSome, List, codes, length, slice_get, take_while};
ghost use Rattle.std.specs.List.{list_any};
ghost use Rattle.noise_names.specs.Names.{is_digit, is_upper};
ghost use Rattle.noise_explain.specs.AdviceFacts.{ArrowSays, Asserts, HeadingSays, LimitSays, LineSays, PieceSays, TurnSays, after_spaces, begins, first_is, has, is_dotted, is_keys, letters, own_count, piece_at, vector_words};
ghost use Rattle.noise_explain.specs.Slips.{end_slip, slip_in};

use crate::advice::Advice;
use crate::column::after_arrow;
use crate::position::line_at;
use noise_names::{TextFault, TextFaultKind, base_len};

/// What is wrong with the line of the fault, which has this column.
pub fn fault_advice(text: &[u8], fault: TextFault, column: usize) -> Advice
    ensures asserts { Asserts result text.now fault column }
{
    let line = line_at(text, fault.line);
    match fault.kind {
        TextFaultKind::Heading if text.is_empty() => Advice::Heading,
        TextFaultKind::Heading | TextFaultKind::Arrow | TextFaultKind::Token
            if line.contains(&b'#') => { Advice::Comment }
        TextFaultKind::Heading => slip_or(line, heading_advice(line, column)),
        TextFaultKind::Arrow => slip_or(line, arrow_advice(line)),
        TextFaultKind::Token => slip_or(line, token_advice(line, column)),
        TextFaultKind::PreMessage if line == b"  ...".as_slice() => Advice::DotsAlone,
        TextFaultKind::PreMessage => Advice::PreMessage,
        TextFaultKind::Turn => turn_advice(text, fault.line),
        TextFaultKind::PskPlace if fault.line == 1 => Advice::PskBeyond,
        TextFaultKind::PskPlace => Advice::PskTokens,
        TextFaultKind::NameTaken => Advice::NameTaken,
        TextFaultKind::Limit => limit_advice(after_arrow(line)),
        TextFaultKind::Ending if line.is_empty() => Advice::MessageMissing,
        TextFaultKind::Ending => Advice::LineFeedMissing,
    }
}

/// What is wrong in characters that aren't seen.
pub fn slip(line: &[u8]) -> Option<Advice>
    ensures which { result ≡ slip_in line.now }
    ensures says { IfSome result (λ advice. LineSays advice line.now) }
{
    if line.starts_with(b"\xef\xbb\xbf".as_slice()) {
        return Some(Advice::ByteOrderMark);
    }
    if line.contains(&b'\t') {
        return Some(Advice::Tab);
    }
    end_slip(line.last().copied())
}

// The same by the last byte of a line.
fn end_slip(last: Option<u8>) -> Option<Advice>
    ensures which { result ≡ end_slip last }
    ensures says { (line : List ℕ) → last ≡ slice_get line (length line - 1)
        → IfSome result (λ advice. LineSays advice line) }
{
    match last {
        None => Some(Advice::Empty),
        Some(b'\r') => Some(Advice::CarriageReturn),
        Some(b' ') => Some(Advice::SpaceAtEnd),
        Some(_) => None,
    }
}

// The same, or the other advice where nothing is.
fn slip_or(line: &[u8], other: Advice) -> Advice
    ensures { LineSays result line.now ⊎ (result ≡ other) }
{
    match slip(line) {
        Some(advice) => advice,
        None => other,
    }
}

// What a line has from a column on.
fn piece_at(line: &[u8], column: usize) -> &[u8]
    ensures { result.now ≡ piece_at line.now column }
{
    let (_, piece) = line.split_at(column.saturating_sub(1).min(line.len()));
    piece
}

// What is wrong with a first line, whose fault has this column.
fn heading_advice(line: &[u8], column: usize) -> Advice
    ensures { HeadingSays result line.now column }
{
    if is_of_vector(line) {
        return Advice::VectorHeading;
    }
    let words = without_spaces(line);
    if words.starts_with(b"->".as_slice()) || words.starts_with(b"<-".as_slice()) {
        return Advice::HeadingMissing;
    }
    if words.len() < line.len() {
        return Advice::HeadingIndented;
    }
    name_advice(line, piece_at(line, column))
}

// The same by the piece of it at the fault, where it is neither indented nor another line.
fn name_advice(line: &[u8], piece: &[u8]) -> Advice
    ensures { (column : ℕ) → piece.now ≡ piece_at line.now column
        → HeadingSays result line.now column }
{
    if piece.is_empty() || piece.starts_with(b"psk".as_slice()) {
        return if has_colon(piece) {
            Advice::Modifiers
        } else {
            Advice::ColonMissing
        };
    }
    if is_digit_first(line, piece) {
        return Advice::NameFirst;
    }
    if base_len(piece) > 0 {
        return Advice::NameLength;
    }
    if piece.len() < line.len() && is_other_modifier(piece) {
        return Advice::Modifier;
    }
    match piece.first().copied() {
        Some(b'a'..=b'z') => Advice::NameCase,
        _ => Advice::Heading,
    }
}

fn has_colon(piece: &[u8]) -> bool
    ensures { result ≡ has piece.now 58 }
{
    piece.contains(&b':')
}

// Whether the piece is the whole line, and begins with a digit.
fn is_digit_first(line: &[u8], piece: &[u8]) -> bool
    ensures { result ≡ (first_is is_digit piece.now && length piece.now == length line.now) }
{
    match piece.first().copied() {
        Some(b'0'..=b'9') => piece.len() == line.len(),
        _ => false,
    }
}

// Whether the line is one of a vector file, below its first.
fn is_of_vector(line: &[u8]) -> bool
    ensures { result ≡ list_any (begins line.now) vector_words }
{
    line.starts_with(b"protocol ".as_slice())
        || line.starts_with(b"prologue ".as_slice())
        || line.starts_with(b"interval ".as_slice())
        || line.starts_with(b"initiator ".as_slice())
        || line.starts_with(b"responder ".as_slice())
}

// Whether a modifier other than psk stands at the front.
fn is_other_modifier(piece: &[u8]) -> bool
    ensures { result ≡ (begins piece.now (codes "fallback") || begins piece.now (codes "hfs")) }
{
    piece.starts_with(b"fallback".as_slice()) || piece.starts_with(b"hfs".as_slice())
}

// What is wrong with a line of no arrow.
fn arrow_advice(line: &[u8]) -> Advice
    ensures { ArrowSays result line.now }
{
    match without_spaces(line).first().copied() {
        Some(b'.') => Advice::Dots,
        Some(0xe2) => Advice::ArrowCharacter,
        _ => Advice::Arrow,
    }
}

pub(crate) fn without_spaces(line: &[u8]) -> &[u8]
    ensures { result.now ≡ after_spaces line.now }
{
    let (_, words) = line.split_at(space_count(line));
    words
}

fn space_count(line: &[u8]) -> usize
    ensures { result ≡ length (take_while (λ b. b == 32) line.now) }
{
    line.iter().take_while(|b| **b == b' ').count()
}

// What is wrong with the piece of a list that has this column.
fn token_advice(line: &[u8], column: usize) -> Advice
    ensures { PieceSays result line.now column }
{
    let piece = piece_at(line, column);
    let (word, after) = piece.split_at(letter_count(piece));
    if word.is_empty() {
        return Advice::TokenMissing;
    }
    if has_upper(word) {
        return Advice::TokenCase;
    }
    if after.starts_with(b", ".as_slice()) {
        return Advice::Token;
    }
    match after.first().copied() {
        Some(b' ') | Some(b',') => Advice::TokensJoined,
        _ => Advice::Token,
    }
}

// How many letters stand at the front.
fn letter_count(piece: &[u8]) -> usize
    ensures { result ≡ length (letters piece.now) }
{
    piece.iter().take_while(|b| b.is_ascii_alphabetic()).count()
}

fn has_upper(word: &[u8]) -> bool
    ensures { result ≡ list_any is_upper word.now }
{
    word.iter().any(|b| b.is_ascii_uppercase())
}

// Whether the line below the keys that are known before was forgotten, or an arrow is wrong. Keys of the initiator in
// line 2 are those of a message, and stay so.
fn turn_advice(text: &[u8], number: usize) -> Advice
    ensures { TurnSays result text.now number }
{
    let first = line_at(text, 2);
    let is_known = number == 2 && is_keys(first);
    if is_known && (has_dots(line_at(text, 3)) || has_dots(line_at(text, 4))) {
        Advice::Dots
    } else if is_known {
        Advice::DotsMissing
    } else {
        Advice::Turn
    }
}

// Whether a line is nearly the one between pre-messages and messages.
fn has_dots(line: &[u8]) -> bool
    ensures { result ≡ is_dotted line.now }
{
    without_spaces(line).starts_with(b"..".as_slice())
}

// Whether a line has a static key alone, or both keys of a party.
pub(crate) fn is_keys(line: &[u8]) -> bool
    ensures { result ≡ is_keys line.now }
{
    let list = after_arrow(line);
    list == b"s".as_slice() || list == b"e, s".as_slice()
}

// What is wrong with the number of a message, or that of its tokens: it has from 1 to 8 besides psk,
// and a pattern has at most 8 messages.
fn limit_advice(list: &[u8]) -> Advice
    ensures { LimitSays result list.now }
{
    match own_count(list) {
        0 => Advice::PskAlone,
        1..=8 => Advice::NinthMessage,
        _ => Advice::ManyTokens,
    }
}

// How many tokens of a list aren't psk.
fn own_count(list: &[u8]) -> usize
    ensures { result ≡ own_count list.now }
{
    list.split(|b| *b == b' ')
        .filter(|word| !word.starts_with(b"psk".as_slice()))
        .count()
}
