//! The lines that people log, as `trace` prints them.

ghost use Rattle.std.specs.Prelude.{◌≡◌, ◌≤◌, ◌++◌, IfOk, OnOk, drop, length};
ghost use Rattle.noise_compare.specs.Plain.{add_word, bare_word, begins_schedule, begins_with, from_trace, is_none, is_written, place_or, skipped_line, skipped_text, plain_byte, plain_bytes, plain_line, plain_text, plain_word, plain_words, without, written_lines};

use crate::line::parts;
use std::alloc::{AllocError, Global};

/// The lines of a log, each as `trace` prints it: from the last `trace initiator` or `trace responder` on, with single
/// spaces, in lower case, without `0x` and the quotes of `b'..'`, and with `-` for `none`, `null`, `nil` and `(none)`.
pub fn plain_text(alloc: Global, text: &[u8]) -> Result<Vec<u8>, AllocError>
    ensures { IfOk result (λ plain. plain.items ≡ plain_text text.now) }
{
    let texts = parts(alloc, text, b'\n')?;
    let mut plain = Vec::new(alloc);
    for text in texts.iter() {
        let line = plain_line(alloc, *text)?;
        plain.extend_from_slice(&line)?;
        plain.push(b'\n')?;
    }
    Ok(plain)
}

/// Likewise of one line.
pub(crate) fn plain_line(alloc: Global, text: &[u8]) -> Result<Vec<u8>, AllocError>
    ensures { IfOk result (λ line. line.items ≡ plain_line text.now) }
{
    let line = plain_words(alloc, text)?;
    Vec::from_slice(alloc, from_trace(&line))
}

// A line of plain words, with single spaces.
fn plain_words(alloc: Global, text: &[u8]) -> Result<Vec<u8>, AllocError>
    ensures { IfOk result (λ line. line.items ≡ plain_words text.now) }
{
    let text = plain_bytes(alloc, text)?;
    let words = parts(alloc, &text, b' ')?;
    let mut line = Vec::new(alloc);
    for word in words.iter() {
        add_word(alloc, *word, &mut line)?;
    }
    Ok(line)
}

/// The text in lower case, with spaces for tabs and carriage returns, and full stops for bytes that aren't printed.
pub(crate) fn plain_bytes(alloc: Global, text: &[u8]) -> Result<Vec<u8>, AllocError>
    ensures { IfOk result (λ v. v.items ≡ plain_bytes text.now) }
{
    text.iter().map(|b| plain_byte(*b)).collect(alloc)
}

fn plain_byte(b: u8) -> u8
    ensures { result ≡ plain_byte b }
{
    if b == 9 || b == 13 {
        32
    } else if b < 32 || 126 < b {
        46
    } else {
        b.to_ascii_lowercase()
    }
}

// The text from the last `trace initiator ` or `trace responder ` on, or nothing where it has none.
fn from_trace(text: &[u8]) -> &[u8]
    ensures { result.now ≡ from_trace text.now }
{
    let mut found: &[u8] = &[];
    for i in 0..text.len() {
        found = place_or(text, i, found);
    }
    found
}

// The text from this place on, if a line of a key schedule begins there, or else this.
fn place_or<'a>(text: &'a [u8], i: usize, found: &'a [u8]) -> &'a [u8]
    requires within { i ≤ length text.now }
    ensures value { result.now ≡ place_or (drop i text.now) found.now }
{
    let here = &text[i..];
    if begins_schedule(here) { here } else { found }
}

#[tactic(auto, unfolding(crate::specs::Plain::begins_schedule))]
fn begins_schedule(text: &[u8]) -> bool
    ensures { result ≡ begins_schedule text.now }
{
    begins_with(text, b"trace initiator ") || begins_with(text, b"trace responder ")
}

fn begins_with(text: &[u8], front: &[u8]) -> bool
    ensures { result ≡ begins_with text.now front.now }
{
    front.len() <= text.len() && &text[..front.len()] == front
}

fn without<'a>(word: &'a [u8], front: &[u8]) -> &'a [u8]
    ensures { result.now ≡ without word.now front.now }
{
    if begins_with(word, front) {
        &word[front.len()..]
    } else {
        word
    }
}

fn add_word(alloc: Global, word: &[u8], line: &mut Vec<u8>) -> Result<(), AllocError>
    ensures { OnOk result (line.new.items ≡ add_word line.old.items word.now) }
{
    if word.is_empty() {
        return Ok(());
    }
    let plain = plain_word(alloc, word)?;
    if !line.is_empty() {
        line.push(b' ')?;
    }
    line.extend_from_slice(&plain)
}

// A word without `b'`, `0x` and quotes, and `-` for one that stands for no bytes.
fn plain_word(alloc: Global, word: &[u8]) -> Result<Vec<u8>, AllocError>
    ensures { IfOk result (λ v. v.items ≡ plain_word word.now) }
{
    let bare = bare_word(alloc, word)?;
    if is_none(&bare) {
        return Vec::from_slice(alloc, b"-".as_slice());
    }
    Ok(bare)
}

#[tactic(auto, unfolding(crate::specs::Plain::is_none))]
fn is_none(word: &[u8]) -> bool
    ensures { result ≡ is_none word.now }
{
    word == b"none".as_slice()
        || word == b"null".as_slice()
        || word == b"nil".as_slice()
        || word == b"(none)".as_slice()
}

// A word without `b'`, `0x` and quotes.
fn bare_word(alloc: Global, word: &[u8]) -> Result<Vec<u8>, AllocError>
    ensures { IfOk result (λ v. v.items ≡ bare_word word.now) }
{
    let bare = without(without(word, b"b'"), b"0x");
    bare.iter().copied().filter(|b| *b != 39).collect(alloc)
}

/// Appends how many lines of a log are passed over, if any are.
pub fn push_skipped(alloc: Global, count: usize, text: &mut Vec<u8>) -> Result<(), AllocError>
    ensures { OnOk result (text.new.items ≡ text.old.items ++ skipped_text count) }
{
    let line = skipped_text(alloc, count)?;
    text.extend_from_slice(&line)
}

fn skipped_text(alloc: Global, count: usize) -> Result<Vec<u8>, AllocError>
    ensures { IfOk result (λ text. text.items ≡ skipped_text count) }
{
    if count == 0 {
        Ok(Vec::new(alloc))
    } else {
        skipped_line(alloc, count)
    }
}

#[tactic(auto, unfolding(crate::specs::Plain::skipped_line))]
fn skipped_line(alloc: Global, count: usize) -> Result<Vec<u8>, AllocError>
    ensures { IfOk result (λ text. text.items ≡ skipped_line count) }
{
    let line = format!(in alloc; "lines passed over: {count}\n")?;
    Vec::from_slice(alloc, line.as_bytes())
}

/// How many lines of a text aren't blank.
pub fn written_lines(alloc: Global, text: &[u8]) -> Result<usize, AllocError>
    ensures { IfOk result (λ n. n ≡ written_lines text.now) }
{
    let texts = parts(alloc, text, b'\n')?;
    Ok(texts.iter().filter(|text| is_written(**text)).count())
}

fn is_written(text: &[u8]) -> bool
    ensures { result ≡ is_written text.now }
{
    0 < text
        .iter()
        .filter(|b| **b != 32 && **b != 9 && **b != 13)
        .count()
}
