//! A log that is cut off in its last line.

ghost use Rattle.std.specs.Prelude.{◌≡◌, ◌++◌, ◌==◌, IfOk, OnOk, length};
ghost use Rattle.std.specs.List.{slice_split};
ghost use Rattle.noise_compare.specs.Cut.{cut_line, cut_nonce_line, cut_text, has_cut_nonce, is_cut, is_whole_line, last_line, last_of, last_word, line_count, whole_lines, without_last};
ghost use Rattle.noise_compare.specs.Reading.{is_wrong};

use crate::line::{Line, parts};
use crate::log::WORDS;
use crate::plain::{plain_bytes, plain_line};
use std::alloc::{AllocError, Global};

/// A log without its last line, if that is cut off: it has no LF, begins as a line of a key schedule, and has more or
/// fewer than twelve words. If it has twelve, and nothing follows the last one, the nonce may be cut off: `?` stands in
/// its place.
#[tactic(auto, unfolding(crate::specs::Cut::whole_lines))]
pub fn whole_lines(alloc: Global, text: &[u8]) -> Result<Vec<u8>, AllocError>
    ensures { IfOk result (λ whole. whole.items ≡ whole_lines text.now) }
{
    if is_cut(alloc, text)? {
        let last = last_line(alloc, text)?;
        return Vec::from_slice(alloc, without_last(text, last.len()));
    }
    if has_cut_nonce(alloc, text)? {
        let len = last_word_len(alloc, text)?;
        let mut whole = Vec::from_slice(alloc, without_last(text, len))?;
        whole.push(b'?')?;
        return Ok(whole);
    }
    Vec::from_slice(alloc, text)
}

// A text without so many bytes at its end.
fn without_last(text: &[u8], len: usize) -> &[u8]
    ensures { result.now ≡ without_last text.now len }
{
    &text[..text.len().saturating_sub(len)]
}

// What follows the last LF.
fn last_line(alloc: Global, text: &[u8]) -> Result<&[u8], AllocError>
    ensures { IfOk result (λ line. line.now ≡ last_line text.now) }
{
    last_of(alloc, text, b'\n')
}

// What follows the last byte of this value.
fn last_of(alloc: Global, text: &[u8], separator: u8) -> Result<&[u8], AllocError>
    ensures { IfOk result (λ part. part.now ≡ last_of (slice_split (λ b. b == separator) text.now)) }
{
    let parts = parts(alloc, text, separator)?;
    match parts.get(parts.len().saturating_sub(1)) {
        Some(part) => Ok(*part),
        None => Ok(&[]),
    }
}

fn is_cut(alloc: Global, text: &[u8]) -> Result<bool, AllocError>
    ensures { IfOk result (λ cut. cut ≡ is_cut text.now) }
{
    let last = last_line(alloc, text)?;
    let plain = plain_line(alloc, last)?;
    is_wrong(alloc, &plain)
}

fn is_wrong(alloc: Global, text: &[u8]) -> Result<bool, AllocError>
    ensures { IfOk result (λ wrong. wrong ≡ is_wrong text.now) }
{
    let line = Line::new(alloc, 1, text)?;
    Ok(line.is_of_schedule() && line.len() != WORDS)
}

// Whether the last line has twelve words, and may be cut off in the twelfth.
fn has_cut_nonce(alloc: Global, text: &[u8]) -> Result<bool, AllocError>
    ensures { IfOk result (λ cut. cut ≡ has_cut_nonce text.now) }
{
    let last = last_line(alloc, text)?;
    let plain = plain_line(alloc, last)?;
    let whole = is_whole_line(alloc, &plain)?;
    let len = last_word_len(alloc, text)?;
    Ok(whole && len != 0)
}

fn is_whole_line(alloc: Global, text: &[u8]) -> Result<bool, AllocError>
    ensures { IfOk result (λ whole. whole ≡ is_whole_line text.now) }
{
    let line = Line::new(alloc, 1, text)?;
    Ok(line.is_of_schedule() && line.len() == WORDS)
}

// How many bytes follow the last space of the last line.
fn last_word_len(alloc: Global, text: &[u8]) -> Result<usize, AllocError>
    ensures { IfOk result (λ len. len ≡ length (last_word text.now)) }
{
    let last = last_line(alloc, text)?;
    let plain = plain_bytes(alloc, last)?;
    let word = last_of(alloc, &plain, b' ')?;
    Ok(word.len())
}

/// Appends that the last line of a log is cut off, if it is, with its number, or that its nonce may be.
#[tactic(auto, unfolding(crate::specs::Cut::cut_text))]
pub fn push_cut(alloc: Global, log: &[u8], text: &mut Vec<u8>) -> Result<(), AllocError>
    ensures { OnOk result (text.new.items ≡ text.old.items ++ cut_text log.now) }
{
    let count = line_count(alloc, log)?;
    if is_cut(alloc, log)? {
        let line = cut_line(alloc, count)?;
        return text.extend_from_slice(&line);
    }
    if has_cut_nonce(alloc, log)? {
        let line = cut_nonce_line(alloc, count)?;
        return text.extend_from_slice(&line);
    }
    Ok(())
}

fn line_count(alloc: Global, text: &[u8]) -> Result<usize, AllocError>
    ensures { IfOk result (λ count. count ≡ line_count text.now) }
{
    let lines = parts(alloc, text, b'\n')?;
    Ok(lines.len())
}

#[tactic(auto, unfolding(crate::specs::Cut::cut_line))]
fn cut_line(alloc: Global, number: usize) -> Result<Vec<u8>, AllocError>
    ensures { IfOk result (λ text. text.items ≡ cut_line number) }
{
    let line = format!(in alloc; "the last line, {number}, is cut off\n")?;
    Vec::from_slice(alloc, line.as_bytes())
}

#[tactic(auto, unfolding(crate::specs::Cut::cut_nonce_line))]
fn cut_nonce_line(alloc: Global, number: usize) -> Result<Vec<u8>, AllocError>
    ensures { IfOk result (λ text. text.items ≡ cut_nonce_line number) }
{
    let line = format!(in alloc;
        "the last line, {number}, has no LF: its nonce may be cut off, and isn't compared\n"
    )?;
    Vec::from_slice(alloc, line.as_bytes())
}
