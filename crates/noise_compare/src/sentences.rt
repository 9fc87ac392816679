//! What is said of a line of a log that doesn't agree, or before which a log ends.

ghost use Rattle.std.specs.Prelude.{◌≡◌, ◌≤◌, ◌++◌, IfOk, OnOk, find, length, option_copied};
ghost use Rattle.noise_compare.specs.Advice.{HasBytesAlone, IsAdvice, IsDropped, IsEndAdvice, IsNextAdvice, IsPlaceAdvice, dropped_advice, due_text, end_text, has_gap, is_dropped, is_due_for, keyed_text, keyless_text, lacking_line, lacking_lines, lacking_text, next_for, none_left_text, nonce_text, sealed_otherwise_text};
ghost use Rattle.noise_compare.specs.Values.{is_text};

use crate::advice::{push_advice, push_bytes, push_refusing};
use crate::difference::{Difference, count_of_place};
use crate::facts::Facts;
use crate::finding::{is_right, refusing_mistakes};
use crate::line::Line;
use crate::parts::Parts;
use crate::report::{push_line, push_place, push_value};
use crate::state::{Logged, Situation};
use crate::steps::count_before;
use crate::values::{is_text, values_in};
use std::alloc::{AllocError, Global};

/// What is said of the line `logged` of the log, which differs from the line `expected` of its place.
pub(crate) fn of_values(
    alloc: Global,
    facts: &Facts,
    log: &[Line<'_>],
    right: &[Line<'_>],
    found: &Difference<'_, '_>,
    logged: &Line<'_>,
    expected: &Line<'_>,
) -> Result<Vec<u8>, AllocError>
    requires index { found.now.index ≤ length log.now }
    requires left { found.now.left ≤ length right.now }
    ensures text { IfOk result (λ text. IsAdvice facts.now right.now log.now found.now.index found.now.left logged.now
        expected.now text.items) }
{
    let mut text = Vec::new(alloc);
    push_lacking(right, found.left, expected, &mut text)?;
    let parts = Parts::of(alloc, facts, right, expected, found.left)?;
    let values = values_in(alloc, logged, expected)?;
    let at = parts.situation(facts);
    let gap = has_gap(log, right, found.index, expected);
    push_advice(alloc, &at, &values, logged, expected, gap, &mut text)?;
    Ok(text)
}

// Whether the log passes over lines of this right line's place, before the line at this index.
fn has_gap(log: &[Line<'_>], right: &[Line<'_>], index: usize, expected: &Line<'_>) -> bool
    requires within { index ≤ length log.now }
    ensures value { result ≡ has_gap right.now log.now index expected.now }
{
    let before = count_before(right, expected);
    let same = count_of_place(&right[..before], expected)
        == count_of_place(&log[..index], expected);
    !same
}

// Appends the right lines from this place on that stand before a line: the log has none for them there.
fn push_lacking(
    right: &[Line<'_>],
    left: usize,
    expected: &Line<'_>,
    text: &mut Vec<u8>,
) -> Result<(), AllocError>
    requires within { left ≤ length right.now }
    ensures text { OnOk result (text.new.items ≡ text.old.items ++ lacking_text right.now left expected.now) }
{
    let lines = &right[left..];
    push_lacking_lines(expected, &lines[..count_before(lines, expected)], text)
}

fn push_lacking_lines(
    expected: &Line<'_>,
    lines: &[Line<'_>],
    text: &mut Vec<u8>,
) -> Result<(), AllocError>
    ensures { OnOk result (text.new.items ≡ text.old.items ++ lacking_lines expected.now lines.now) }
{
    for line in lines {
        push_lacking_line(expected, line, text)?;
    }
    Ok(())
}

fn push_lacking_line(
    expected: &Line<'_>,
    line: &Line<'_>,
    text: &mut Vec<u8>,
) -> Result<(), AllocError>
    ensures { OnOk result (text.new.items ≡ text.old.items ++ lacking_line expected.now line.now) }
{
    if line.word(1) == expected.word(1) {
        return push_place("your log has no line here for ", line, text);
    }
    Ok(())
}

/// What is said of the line `logged` of the log, where no right line of its place is left.
#[tactic(auto, unfolding(crate::specs::Advice::none_left_text))]
pub(crate) fn of_place(
    alloc: Global,
    facts: &Facts,
    log: &[Line<'_>],
    right: &[Line<'_>],
    found: &Difference<'_, '_>,
    logged: &Line<'_>,
) -> Result<Vec<u8>, AllocError>
    requires index { found.now.index ≤ length log.now }
    requires left { found.now.left ≤ length right.now }
    ensures text { IfOk result (λ text. IsPlaceAdvice facts.now right.now log.now found.now.index found.now.left
        logged.now text.items) }
{
    match next_for(right, found.left, logged) {
        Some(next) => {
            let dropped = is_dropped(logged, next);
            of_next(alloc, facts, log, right, found.index, logged, next, dropped)
        }
        None => {
            let mut text = Vec::new(alloc);
            push_line(
                "no line of the schedule is left: a message that the file lacks, or a step too many",
                &mut text,
            )?;
            Ok(text)
        }
    }
}

// The next right line that is due for a logged one, from this place on.
fn next_for<'a, 'b>(right: &'a [Line<'b>], left: usize, logged: &Line<'_>) -> Option<&'a Line<'b>>
    requires within { left ≤ length right.now }
    ensures value { option_copied result ≡ next_for right.now left logged.now }
{
    first_due(&right[left..], logged)
}

fn first_due<'a, 'b>(right: &'a [Line<'b>], logged: &Line<'_>) -> Option<&'a Line<'b>>
    ensures { option_copied result ≡ find (is_due_for logged.now) right.now }
{
    right.iter().find(|line| is_due_for(line, logged))
}

// Whether a right line is of the party of a logged one. A Rekey isn't what is due for a message that is dropped.
fn is_due_for(right: &Line<'_>, logged: &Line<'_>) -> bool
    ensures { result ≡ is_due_for logged.now right.now }
{
    right.word(1) == logged.word(1)
        && !(logged.word(4) == b"dropped".as_slice() && right.word(4) == b"renewed".as_slice())
}

fn is_dropped(logged: &Line<'_>, next: &Line<'_>) -> bool
    ensures { result ≡ is_dropped logged.now next.now }
{
    logged.word(4) == b"dropped".as_slice() && next.word(4) == b"opened".as_slice()
}

// What is said of a logged line where this right line is due.
fn of_next(
    alloc: Global,
    facts: &Facts,
    log: &[Line<'_>],
    right: &[Line<'_>],
    index: usize,
    logged: &Line<'_>,
    next: &Line<'_>,
    is_dropped: bool,
) -> Result<Vec<u8>, AllocError>
    requires within { index ≤ length log.now }
    ensures text { IfOk result (λ text. IsNextAdvice facts.now right.now log.now index logged.now next.now is_dropped
        text.items) }
{
    match is_dropped {
        true => of_dropped(alloc, facts, log, right, index, logged, next),
        false => due(alloc, next),
    }
}

#[tactic(auto, unfolding(crate::specs::Advice::due_text))]
fn due(alloc: Global, next: &Line<'_>) -> Result<Vec<u8>, AllocError>
    ensures { IfOk result (λ text. text.items ≡ due_text next.now) }
{
    let mut text = Vec::new(alloc);
    push_place("due is ", next, &mut text)?;
    push_line(
        "a step out of order, or too many, or under another name",
        &mut text,
    )?;
    Ok(text)
}

// A transport message is dropped that is right: the key or the nonce is another, or else the tag is made in another way.
fn of_dropped(
    alloc: Global,
    facts: &Facts,
    log: &[Line<'_>],
    right: &[Line<'_>],
    index: usize,
    logged: &Line<'_>,
    next: &Line<'_>,
) -> Result<Vec<u8>, AllocError>
    requires within { index ≤ length log.now }
    ensures text { IfOk result (λ text. IsDropped facts.now right.now log.now index logged.now next.now text.items) }
{
    let mut text = Vec::new(alloc);
    push_value("key", 10, logged, next, &mut text)?;
    push_value("nonce", 11, logged, next, &mut text)?;
    let parts = Parts::of(alloc, facts, right, next, 0)?;
    let values = values_in(alloc, logged, next)?;
    let at = parts.situation(facts);
    let gap = has_gap(log, right, index, next);
    push_dropped(alloc, &at, &values, logged, next, gap, &mut text)?;
    Ok(text)
}

// Appends what is said of a message that is dropped, with these values.
fn push_dropped(
    alloc: Global,
    at: &Situation<'_>,
    values: &Logged,
    logged: &Line<'_>,
    next: &Line<'_>,
    gap: bool,
    text: &mut Vec<u8>,
) -> Result<(), AllocError>
    ensures { OnOk result (text.new.items ≡ text.old.items ++ dropped_advice gap at.now values.now logged.now next.now) }
{
    if is_right(at, values) {
        push_bytes(logged, next, text)?;
        return push_sealed_otherwise(next, text);
    }
    push_advice(alloc, at, values, logged, next, gap, text)
}

#[tactic(auto, unfolding(crate::specs::Advice::sealed_otherwise_text))]
fn push_sealed_otherwise(next: &Line<'_>, text: &mut Vec<u8>) -> Result<(), AllocError>
    ensures { OnOk result (text.new.items ≡ text.old.items ++ sealed_otherwise_text next.now) }
{
    push_line(
        "your end refused a right message with the right key and n: its associated data isn't empty (5)",
        text,
    )?;
    push_nonce(next, text)?;
    push_line("or the AEAD itself: try RFC 8439, 2.8.2", text)
}

fn push_nonce(next: &Line<'_>, text: &mut Vec<u8>) -> Result<(), AllocError>
    ensures { OnOk result (text.new.items ≡ text.old.items ++ nonce_text next.now) }
{
    if next.word(11) == b"0".as_slice() {
        return Ok(());
    }
    push_line(
        "or its nonce isn't 4 zero bytes and 8 little-endian ones (12.3)",
        text,
    )
}

/// What is said of a log that ends before this step.
pub(crate) fn of_end(
    alloc: Global,
    facts: &Facts,
    right: &[Line<'_>],
    next: &Line<'_>,
) -> Result<Vec<u8>, AllocError>
    ensures { IfOk result (λ text. IsEndAdvice facts.now right.now next.now text.items) }
{
    let mut text = Vec::new(alloc);
    let parts = Parts::of(alloc, facts, right, next, 0)?;
    let values = bytes_alone(alloc, &parts.bytes)?;
    let at = parts.situation(facts);
    push_end(alloc, &at, &at.before.key, &values, &mut text)?;
    Ok(text)
}

// These bytes, and no other value.
fn bytes_alone(alloc: Global, bytes: &[u8]) -> Result<Logged, AllocError>
    ensures { IfOk result (HasBytesAlone bytes.now) }
{
    let bytes = Vec::from_slice(alloc, bytes)?;
    Ok(Logged {
        bytes: Some(bytes),
        hash: None,
        chaining_key: None,
        key: None,
        nonce: None,
    })
}

// Appends what is said of a log that ends before this step, with this key.
fn push_end(
    alloc: Global,
    at: &Situation<'_>,
    key: &Option<[u8; 32]>,
    values: &Logged,
    text: &mut Vec<u8>,
) -> Result<(), AllocError>
    ensures { OnOk result (text.new.items ≡ text.old.items ++ end_text at.now key.now values.now) }
{
    match key {
        None => push_keyless(is_text(at.kind), text),
        Some(_) => push_keyed(alloc, at, values, text),
    }
}

fn push_keyed(
    alloc: Global,
    at: &Situation<'_>,
    values: &Logged,
    text: &mut Vec<u8>,
) -> Result<(), AllocError>
    ensures { OnOk result (text.new.items ≡ text.old.items ++ keyed_text at.now values.now) }
{
    if is_text(at.kind) {
        let found = refusing_mistakes(alloc, at, values)?;
        return push_refusing(&found, text);
    }
    push_keyless(false, text)
}

fn push_keyless(is_text: bool, text: &mut Vec<u8>) -> Result<(), AllocError>
    ensures { OnOk result (text.new.items ≡ text.old.items ++ keyless_text is_text) }
{
    if is_text {
        return push_line(
            "your end takes another length here: without a key a text has no tag; or of the frame (13)",
            text,
        );
    }
    push_line(
        "your end stopped there: give its frame by raw, and see what the right end makes of it",
        text,
    )
}
