//! What is said of the likely mistakes.

ghost use Rattle.std.specs.Prelude.{◌≡◌, ◌++◌, IfOk, OnOk, map};
ghost use Rattle.noise_compare.specs.Finding.{found_mistakes, said};
ghost use Rattle.noise_compare.specs.Advice.{advice_text, bytes_text, form_text, gap_text, has_known, has_other_bytes, has_state, hashed_text, is_hashed, is_known, is_known_number, unknown_text, wrong_text, lacks_state, lacks_value, mistakes_text, refusing_text, sentences};
ghost use Rattle.noise_compare.specs.Report.{ended};
ghost use Rattle.noise_compare.specs.Shown.{shown_text};

use crate::finding::{is_right, mistakes};
use crate::line::Line;
use crate::mistake_tables::Row;
use crate::report::push_line;
use crate::shown::push_shown;
use crate::state::{Logged, Situation};
use crate::values::{has_bytes, logged_in};
use crate::words::number_in;
use std::alloc::{AllocError, Global};

/// Appends what is said of a logged line at this step, which is that of the right line `expected`.
pub(crate) fn push_advice(
    alloc: Global,
    at: &Situation<'_>,
    logged: &Logged,
    line: &Line<'_>,
    expected: &Line<'_>,
    gap: bool,
    text: &mut Vec<u8>,
) -> Result<(), AllocError>
    ensures { OnOk result (text.new.items ≡ text.old.items ++ advice_text gap at.now logged.now line.now expected.now) }
{
    let known = has_known(alloc, line)?;
    push_unknown(known, text)?;
    if is_right(at, logged) {
        return push_form(line, expected, known, text);
    }
    push_wrong(alloc, at, logged, line, expected, gap, text)
}

// Whether all values of a line are hex digits, `-` or `?`.
fn has_known(alloc: Global, line: &Line<'_>) -> Result<bool, AllocError>
    ensures { IfOk result (λ known. known ≡ has_known line.now) }
{
    let known = is_known(alloc, line.word(7))?
        && is_known(alloc, line.word(8))?
        && is_known(alloc, line.word(9))?
        && is_known(alloc, line.word(10))?;
    Ok(known && is_known_number(line.word(11)))
}

fn is_known(alloc: Global, word: &[u8]) -> Result<bool, AllocError>
    ensures { IfOk result (λ known. known ≡ is_known word.now) }
{
    match logged_in(alloc, word)? {
        Some(_) => Ok(true),
        None => Ok(word == b"?".as_slice()),
    }
}

fn is_known_number(word: &[u8]) -> bool
    ensures { result ≡ is_known_number word.now }
{
    word == b"?".as_slice() || number_in(word).is_some()
}

#[tactic(auto, unfolding(crate::specs::Advice::unknown_text))]
fn push_unknown(known: bool, text: &mut Vec<u8>) -> Result<(), AllocError>
    ensures { OnOk result (text.new.items ≡ text.old.items ++ unknown_text known) }
{
    if known {
        return Ok(());
    }
    push_line(
        "words that aren't hex digits aren't compared: write hex digits, - for none, or ? for what you don't have",
        text,
    )
}

// Appends what is said of values that aren't right.
#[tactic(auto, unfolding(crate::specs::Advice::gap_text, crate::specs::Advice::hashed_text))]
fn push_wrong(
    alloc: Global,
    at: &Situation<'_>,
    logged: &Logged,
    line: &Line<'_>,
    expected: &Line<'_>,
    gap: bool,
    text: &mut Vec<u8>,
) -> Result<(), AllocError>
    ensures { OnOk result (text.new.items ≡ text.old.items ++ wrong_text gap at.now logged.now line.now expected.now) }
{
    if is_hashed(at, logged) {
        return push_line(
            "only the bytes differ, and h is that of the right ones: log the bytes as they are in the message",
            text,
        );
    }
    push_bytes(line, expected, text)?;
    if gap {
        return push_line(
            "no mistake is named: your log passes over lines of this name before this one, or its n is another",
            text,
        );
    }
    push_found(alloc, at, logged, text)
}

// Whether the state is right with its hash, which is that of the right bytes.
fn is_hashed(at: &Situation<'_>, logged: &Logged) -> bool
    ensures { result ≡ is_hashed at.now logged.now }
{
    logged.hash.is_some() && logged.state_fits(&at.right)
}

#[tactic(auto, unfolding(crate::specs::Advice::form_text))]
fn push_form(
    line: &Line<'_>,
    expected: &Line<'_>,
    known: bool,
    text: &mut Vec<u8>,
) -> Result<(), AllocError>
    ensures { OnOk result (text.new.items ≡ text.old.items ++ form_text known line.now expected.now) }
{
    if lacks_state(line, expected) {
        return push_line(
            "your log has - for a hash or a chaining key that this step has: log it, or ? if your log lacks it; all else here is right",
            text,
        );
    }
    if !known {
        return push_line("all else that your log has here is right", text);
    }
    if has_other_bytes(line, expected) && has_state(line, expected) {
        return push_line(
            "only your log's bytes differ: this step has none, so log -",
            text,
        );
    }
    push_line(
        "what your log has here is right: write each value above as the right one is, or ? if you don't have it",
        text,
    )
}

// Whether the log has `-` for the hash or the chaining key of a step of the handshake.
fn lacks_state(line: &Line<'_>, expected: &Line<'_>) -> bool
    ensures { result ≡ lacks_state line.now expected.now }
{
    lacks_value(line, expected, 8) || lacks_value(line, expected, 9)
}

fn lacks_value(line: &Line<'_>, expected: &Line<'_>, place: usize) -> bool
    ensures { result ≡ lacks_value line.now expected.now place }
{
    line.word(place) == b"-".as_slice()
        && !expected.is_same(line, place)
        && !(expected.word(2) == b"open".as_slice())
}

// Whether the log has bytes, and the step none.
fn has_other_bytes(line: &Line<'_>, expected: &Line<'_>) -> bool
    ensures { result ≡ has_other_bytes line.now expected.now }
{
    !has_bytes(expected) && !expected.is_same(line, 7)
}

/// Whether the hash, the chaining key, the key and the nonce are written as the right ones.
pub(crate) fn has_state(line: &Line<'_>, expected: &Line<'_>) -> bool
    ensures { result ≡ has_state line.now expected.now }
{
    expected.is_same(line, 8)
        && expected.is_same(line, 9)
        && expected.is_same(line, 10)
        && expected.is_same(line, 11)
}

/// Appends that a step has no bytes, where the log has some.
#[tactic(auto, unfolding(crate::specs::Advice::bytes_text))]
pub(crate) fn push_bytes(
    line: &Line<'_>,
    expected: &Line<'_>,
    text: &mut Vec<u8>,
) -> Result<(), AllocError>
    ensures { OnOk result (text.new.items ≡ text.old.items ++ bytes_text line.now expected.now) }
{
    if has_other_bytes(line, expected) {
        return push_line("this step has no bytes: log - for them", text);
    }
    Ok(())
}

// Appends what is said of the mistakes that give the logged values.
fn push_found(
    alloc: Global,
    at: &Situation<'_>,
    logged: &Logged,
    text: &mut Vec<u8>,
) -> Result<(), AllocError>
    ensures { OnOk result (text.new.items
        ≡ text.old.items ++ mistakes_text at.now logged.now (found_mistakes at.now logged.now)) }
{
    let found = mistakes(alloc, at, logged)?;
    push_mistakes(alloc, at, logged, &found, text)
}

fn push_mistakes(
    alloc: Global,
    at: &Situation<'_>,
    logged: &Logged,
    found: &[Row],
    text: &mut Vec<u8>,
) -> Result<(), AllocError>
    ensures { OnOk result (text.new.items ≡ text.old.items ++ mistakes_text at.now logged.now (map said found.now)) }
{
    match found {
        [] => push_unnamed(
            alloc,
            "none of the mistakes that are tried gives your values",
            at,
            logged,
            text,
        ),
        [_] => push_headed("the mistake that gives your values:", found, text),
        [_, _, ..] => push_headed("each of these mistakes gives your values:", found, text),
    }
}

// Appends this line, and what the logged values show.
fn push_unnamed(
    alloc: Global,
    head: &str,
    at: &Situation<'_>,
    logged: &Logged,
    text: &mut Vec<u8>,
) -> Result<(), AllocError>
    ensures { OnOk result (text.new.items ≡ text.old.items ++ (ended head.now ++ shown_text at.now logged.now)) }
{
    push_line(head, text)?;
    push_shown(alloc, at, logged, text)
}

/// Appends what is said of the mistakes with which a party refuses what is right.
pub(crate) fn push_refusing(found: &[Row], text: &mut Vec<u8>) -> Result<(), AllocError>
    ensures { OnOk result (text.new.items ≡ text.old.items ++ refusing_text (map said found.now)) }
{
    push_headed(
        "if your end refused this message, and got the bytes that are right here, each of these mistakes does it:",
        found,
        text,
    )?;
    push_line(
        "or it decrypts with another key than k, or with other associated data than h: log the key and the associated data that your AEAD takes",
        text,
    )?;
    push_line("or the AEAD itself: try RFC 8439, 2.8.2", text)
}

fn push_headed(head: &str, rows: &[Row], text: &mut Vec<u8>) -> Result<(), AllocError>
    ensures { OnOk result (text.new.items ≡ text.old.items ++ (ended head.now ++ sentences (map said rows.now))) }
{
    push_line(head, text)?;
    push_sentences(rows, text)
}

#[tactic(auto, unfolding(crate::specs::Advice::sentences))]
fn push_sentences(rows: &[Row], text: &mut Vec<u8>) -> Result<(), AllocError>
    ensures { OnOk result (text.new.items ≡ text.old.items ++ sentences (map said rows.now)) }
{
    for row in rows {
        push_line(row.1, text)?;
    }
    Ok(())
}
