//! What is printed of a log.

ghost use Rattle.std.specs.Prelude.{◌≡◌, ◌++◌, ◌∷◌, IfOk, OnOk, count_by, option_copied};
ghost use Rattle.noise_compare.specs.Report.{agreement_text, difference_text, ended, ending_text, is_number, is_of_split, part_name, place_line, right_text, value_text, values_text};

use crate::line::Line;
use std::alloc::{AllocError, Global};

/// That all lines of a log agree, so many, and how many of them are of Split.
#[tactic(auto, unfolding(crate::specs::Report::agreement_text))]
pub fn agreement_text(alloc: Global, log: &[Line<'_>]) -> Result<Vec<u8>, AllocError>
    ensures { IfOk result (λ text. text.items ≡ agreement_text log.now) }
{
    let count = log.len();
    let split = split_lines(log);
    let line = format!(in alloc;
        "agrees in {count} lines\nlines of Split compared: {split}\ndecrypted texts compared: none\n"
    )?;
    Vec::from_slice(alloc, line.as_bytes())
}

fn split_lines(log: &[Line<'_>]) -> usize
    ensures { result ≡ count_by is_of_split log.now }
{
    log.iter().filter(|line| is_of_split(line)).count()
}

#[tactic(auto, unfolding(crate::specs::Report::is_of_split))]
fn is_of_split(line: &Line<'_>) -> bool
    ensures { result ≡ is_of_split line.now }
{
    line.word(2) == b"open".as_slice()
}

/// That a log ends before this step, and lines of advice.
#[tactic(auto, unfolding(crate::specs::Report::ending_text))]
pub fn ending_text(alloc: Global, next: &Line<'_>, advice: &[u8]) -> Result<Vec<u8>, AllocError>
    ensures { IfOk result (λ text. text.items ≡ ending_text next.now advice.now) }
{
    let mut text = Vec::new(alloc);
    push_place("ends before ", next, &mut text)?;
    text.extend_from_slice(advice)?;
    Ok(text)
}

/// The line of a log that differs, each value that does, right and logged, and lines of advice.
#[tactic(auto, unfolding(crate::specs::Report::difference_text))]
pub fn difference_text(
    alloc: Global,
    logged: &Line<'_>,
    right: Option<&Line<'_>>,
    advice: &[u8],
) -> Result<Vec<u8>, AllocError>
    ensures { IfOk result (λ text. text.items ≡ difference_text logged.now (option_copied right.entry) advice.now) }
{
    let number = logged.number;
    let front = format!(in alloc; "differs at line {number}: ")?;
    let mut text = Vec::new(alloc);
    push_place(front.as_str(), logged, &mut text)?;
    push_right(logged, right, &mut text)?;
    text.extend_from_slice(advice)?;
    Ok(text)
}

/// Appends a line.
pub(crate) fn push_line(line: &str, text: &mut Vec<u8>) -> Result<(), AllocError>
    ensures { OnOk result (text.new.items ≡ text.old.items ++ ended line.now) }
{
    text.extend_from_slice(line.as_bytes())?;
    text.push(b'\n')?;
    Ok(())
}

/// Appends a line: a front, and then the role, the part and the name of a line of a key schedule.
#[tactic(auto, unfolding(crate::specs::Report::place_line))]
pub(crate) fn push_place(front: &str, of: &Line<'_>, text: &mut Vec<u8>) -> Result<(), AllocError>
    ensures { OnOk result (text.new.items ≡ text.old.items ++ place_line front.now of.now) }
{
    text.extend_from_slice(front.as_bytes())?;
    text.extend_from_slice(of.word(1))?;
    text.extend_from_slice(b", ".as_slice())?;
    push_part(of.word(2), text)?;
    text.extend_from_slice(b", ".as_slice())?;
    text.extend_from_slice(of.word(4))?;
    text.push(b'\n')?;
    Ok(())
}

fn push_part(part: &[u8], text: &mut Vec<u8>) -> Result<(), AllocError>
    ensures { OnOk result (text.new.items ≡ text.old.items ++ part_name part.now) }
{
    if is_number(part) {
        text.extend_from_slice(b"message ".as_slice())?;
    }
    text.extend_from_slice(part)
}

#[tactic(auto, unfolding(crate::specs::Report::is_number))]
fn is_number(part: &[u8]) -> bool
    ensures { result ≡ is_number part.now }
{
    match part.first() {
        Some(byte) => *byte < b':',
        None => false,
    }
}

fn push_right(
    logged: &Line<'_>,
    right: Option<&Line<'_>>,
    text: &mut Vec<u8>,
) -> Result<(), AllocError>
    ensures { OnOk result (text.new.items ≡ text.old.items ++ right_text logged.now (option_copied right.entry)) }
{
    match right {
        Some(right) => push_values(logged, right, text),
        None => Ok(()),
    }
}

fn push_values(logged: &Line<'_>, right: &Line<'_>, text: &mut Vec<u8>) -> Result<(), AllocError>
    ensures { OnOk result (text.new.items ≡ text.old.items ++ values_text logged.now right.now) }
{
    push_value("bytes", 7, logged, right, text)?;
    push_value("hash", 8, logged, right, text)?;
    push_value("chaining-key", 9, logged, right, text)?;
    push_value("key", 10, logged, right, text)?;
    push_value("nonce", 11, logged, right, text)?;
    Ok(())
}

/// Appends a value of a line that differs, right and logged.
#[tactic(auto, unfolding(crate::specs::Report::value_text))]
pub(crate) fn push_value(
    name: &str,
    place: usize,
    logged: &Line<'_>,
    right: &Line<'_>,
    text: &mut Vec<u8>,
) -> Result<(), AllocError>
    ensures { OnOk result (text.new.items ≡ text.old.items ++ value_text name.now place logged.now right.now) }
{
    if right.is_same(logged, place) {
        return Ok(());
    }
    push_named("right ", name, right.word(place), text)?;
    push_named("yours ", name, logged.word(place), text)
}

fn push_named(front: &str, name: &str, value: &[u8], text: &mut Vec<u8>) -> Result<(), AllocError>
    ensures { OnOk result (text.new.items ≡ text.old.items ++ ended (front.now ++ (name.now ++ 32 ∷ value.now))) }
{
    text.extend_from_slice(front.as_bytes())?;
    text.extend_from_slice(name.as_bytes())?;
    text.push(b' ')?;
    text.extend_from_slice(value)?;
    text.push(b'\n')?;
    Ok(())
}
