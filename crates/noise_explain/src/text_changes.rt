//! Corrections that a text which can't be read may have. Each is tried before one is told.

use crate::change::{Change, corrected};
use crate::judged::Correction;
use crate::line_column::first_word;
use crate::position::{after_line, from_line, line_at};
use crate::text_advice::is_keys;
use crate::tidy::{has_psk, joined, push_modifiers, tidy_line};
use noise_names::{TextFault, TextFaultKind, base_len};
use std::alloc::{AllocError, Global};

// The changes that one correction makes. In a table each comes where it is told first.
#[derive(Clone, Copy)]
enum Repair {
    // A line feed at the end.
    LineFeed,
    // No carriage returns.
    NoReturns,
    // The line as the format has it, or left out where nothing stands in it.
    Tidy,
    // The same of all lines.
    AllTidy,
    // The heading with the places of the psks of the messages.
    Placed,
    // The heading with a name of one's own.
    Named,
    // A heading above.
    HeadingAbove,
    // The line left out, unless it has a psk.
    Out,
    // The line and the one before it in the other order.
    Swapped,
    // "..." below the line, where it may be one of keys that are known before.
    DotsBelow,
    // A first message.
    Message,
    // A first message, and a heading of one's own.
    NamedMessage,
    // The line written so.
    Line(Rewriting),
    // The line written so, and then the heading with the places of the psks.
    LineAndPlaces(Rewriting),
}

// How a line of tokens is written.
#[rattlefmt::skip]
#[derive(Clone, Copy)]
enum Rewriting { Tidy, ArrowTurned, WithE, AfterE, OnceEach, PsksMoved, PieceLeftOut }

#[rattlefmt::skip]
const ALWAYS: [Repair; 4] = [Repair::LineFeed, Repair::NoReturns, Repair::Tidy, Repair::AllTidy];

// Those that only a fault of this kind may need.
#[rattlefmt::skip]
fn repairs_of(kind: TextFaultKind) -> &'static [Repair] {
    match kind {
        TextFaultKind::Heading | TextFaultKind::NameTaken => &[Repair::Placed, Repair::Named, Repair::HeadingAbove],
        TextFaultKind::PskPlace => &[
            Repair::Placed, Repair::Named, Repair::HeadingAbove,
            Repair::Line(Rewriting::PsksMoved), Repair::LineAndPlaces(Rewriting::PsksMoved),
        ],
        TextFaultKind::Arrow => &[Repair::Out],
        TextFaultKind::Token => &[
            Repair::Line(Rewriting::Tidy), Repair::LineAndPlaces(Rewriting::Tidy),
            Repair::Line(Rewriting::PieceLeftOut), Repair::LineAndPlaces(Rewriting::PieceLeftOut),
        ],
        TextFaultKind::PreMessage => &[Repair::Swapped, Repair::Out],
        TextFaultKind::Turn => &[Repair::DotsBelow, Repair::Line(Rewriting::ArrowTurned)],
        TextFaultKind::Limit => &[
            Repair::Line(Rewriting::OnceEach), Repair::LineAndPlaces(Rewriting::OnceEach),
            Repair::Line(Rewriting::WithE), Repair::LineAndPlaces(Rewriting::WithE),
            Repair::Line(Rewriting::AfterE), Repair::LineAndPlaces(Rewriting::AfterE),
        ],
        TextFaultKind::Ending => &[Repair::Message, Repair::NamedMessage],
    }
}

// A text, and the line and the column of its fault.
#[derive(Clone, Copy)]
struct Wrong<'a> {
    alloc: Global,
    text: &'a [u8],
    number: usize,
    line: &'a [u8],
    column: usize,
}

// The corrections to try of a text with this fault at this column, those first that are told first.
#[rattlefmt::skip]
pub(crate) fn text_candidates(
    alloc: Global,
    text: &[u8],
    fault: TextFault,
    column: usize,
) -> Result<Vec<Correction>, AllocError> {
    let (number, line) = (fault.line, line_at(text, fault.line));
    let at = Wrong { alloc, text, number, line, column };
    let mut found = Vec::new(alloc);
    push_repairs(at, &ALWAYS, &mut found)?;
    push_repairs(at, repairs_of(fault.kind), &mut found)?;
    Ok(found)
}

fn push_repairs(
    at: Wrong<'_>,
    repairs: &[Repair],
    found: &mut Vec<Correction>,
) -> Result<(), AllocError> {
    for repair in repairs {
        let mut changes = Vec::new(at.alloc);
        push_changes(at, *repair, &mut changes)?;
        found.push(Correction { changes })?;
    }
    Ok(())
}

// Appends the changes of a correction; none where it can't be made.
fn push_changes(at: Wrong<'_>, by: Repair, changes: &mut Vec<Change>) -> Result<(), AllocError> {
    let number = at.number;
    match by {
        Repair::LineFeed if at.text.last() != Some(&b'\n') => changes.push(Change::LineFeed)?,
        Repair::NoReturns if at.text.contains(&b'\r') => changes.push(Change::NoReturns)?,
        Repair::Tidy => push_tidy(at, number, 1, changes)?,
        Repair::AllTidy => push_tidy(at, 1, 40, changes)?,
        Repair::Placed => changes.push(placed(at.alloc, at.text)?)?,
        Repair::Named => changes.push(named(at)?)?,
        Repair::HeadingAbove => changes.push(put(at, 1, b"MINE:")?)?,
        Repair::Out if !has_psk(at.line) => changes.push(Change::Out(number))?,
        Repair::Swapped if number > 2 => push_swapped(at, changes)?,
        Repair::DotsBelow if number == 2 && is_keys(at.line) => {
            changes.push(put(at, 3, b"  ...")?)?;
        }
        Repair::Message => changes.push(put(at, number, b"  -> e")?)?,
        Repair::NamedMessage => {
            changes.push(named(at)?)?;
            changes.push(put(at, number, b"  -> e")?)?;
        }
        Repair::Line(words) => push_line(at, words, changes)?,
        Repair::LineAndPlaces(words) => {
            push_line(at, words, changes)?;
            push_places_of(at, changes)?;
        }
        _ => {}
    }
    Ok(())
}

fn put(at: Wrong<'_>, number: usize, line: &[u8]) -> Result<Change, AllocError> {
    Ok(Change::Put(number, Vec::from_slice(at.alloc, line)?))
}

// Appends the changes of those of so many lines from this one on that aren't as the format has them. A pattern has at
// most 12.
fn push_tidy(
    at: Wrong<'_>,
    first: usize,
    count: usize,
    changes: &mut Vec<Change>,
) -> Result<(), AllocError> {
    let mut rest = from_line(at.text, first);
    let mut number = first;
    for _ in 0..count {
        if rest.is_empty() {
            return Ok(());
        }
        let line = line_at(rest, 1);
        let made = tidy_line(at.alloc, line, number == 1)?;
        rest = after_line(rest);
        if made.is_empty() {
            changes.push(Change::Out(number))?;
            continue;
        }
        if made.as_slice() != line {
            changes.push(Change::Write(number, made))?;
        }
        number = number.saturating_add(1);
    }
    Ok(())
}

// The heading with a name of one's own.
fn named(at: Wrong<'_>) -> Result<Change, AllocError> {
    let mut line = Vec::from_slice(at.alloc, b"MINE")?;
    push_modifiers(line_at(at.text, 1), &mut line)?;
    line.push(b':')?;
    Ok(Change::Write(1, line))
}

// The heading with the places of the psks of the messages.
fn placed(alloc: Global, text: &[u8]) -> Result<Change, AllocError> {
    let heading = line_at(text, 1);
    let (base, _) = heading.split_at(base_len(heading).min(heading.len()));
    let mut line = Vec::from_slice(alloc, base)?;
    push_places(text, &mut line)?;
    line.push(b':')?;
    Ok(Change::Write(1, line))
}

// Appends a modifier for each message with a psk at its end, and for a first one with one at its front.
fn push_places(text: &[u8], line: &mut Vec<u8>) -> Result<(), AllocError> {
    let mut rest = first_message(text);
    let mut front: &[u8] = b"psk";
    if line_at(rest, 1).get(5..8) == Some(b"psk".as_slice()) {
        line.extend_from_slice(b"psk0")?;
        front = b"+psk";
    }
    for digit in b'1'..b'9' {
        if line_at(rest, 1).ends_with(b", psk") {
            line.extend_from_slice(front)?;
            line.push(digit)?;
            front = b"+psk";
        }
        rest = after_line(rest);
    }
    Ok(())
}

// The text from the first message on.
fn first_message(text: &[u8]) -> &[u8] {
    for number in 2..5 {
        if line_at(text, number) == b"  ...".as_slice() {
            return after_line(from_line(text, number));
        }
    }
    from_line(text, 2)
}

fn push_swapped(at: Wrong<'_>, changes: &mut Vec<Change>) -> Result<(), AllocError> {
    let number = at.number.saturating_sub(1);
    let above = line_at(at.text, number);
    changes.push(Change::Write(number, Vec::from_slice(at.alloc, at.line)?))?;
    changes.push(Change::Write(at.number, Vec::from_slice(at.alloc, above)?))?;
    Ok(())
}

fn push_line(at: Wrong<'_>, by: Rewriting, changes: &mut Vec<Change>) -> Result<(), AllocError> {
    if let Some(line) = rewritten(at, by)? {
        changes.push(Change::Write(at.number, line))?;
    }
    Ok(())
}

// Puts the heading with the places of the psks that the changes leave before them, where there are some.
fn push_places_of(at: Wrong<'_>, changes: &mut Vec<Change>) -> Result<(), AllocError> {
    if !changes.is_empty() {
        let made = corrected(at.alloc, at.text, changes)?;
        changes.insert(0, placed(at.alloc, &made)?)?;
    }
    Ok(())
}

// The line of the fault, written so, if it can be.
fn rewritten(at: Wrong<'_>, by: Rewriting) -> Result<Option<Vec<u8>>, AllocError> {
    let alloc = at.alloc;
    let (arrow, list) = at.line.split_at(at.line.len().min(5));
    let is_right = arrow == b"  -> ".as_slice();
    let other: &[u8] = if is_right { b"  <- " } else { b"  -> " };
    let made = match by {
        Rewriting::Tidy => tidy_line(alloc, at.line, false)?,
        Rewriting::ArrowTurned => joined(alloc, &[other, list])?,
        Rewriting::WithE => joined(alloc, &[at.line, b", e"])?,
        Rewriting::AfterE => joined(alloc, &[arrow, b"e, ", list])?,
        Rewriting::OnceEach => once_each(alloc, arrow, list)?,
        Rewriting::PsksMoved => return psks_moved(alloc, arrow, list),
        Rewriting::PieceLeftOut => return piece_left_out(at),
    };
    Ok(Some(made))
}

// The words of a list, each without the space that stands before it.
fn names_in(alloc: Global, list: &[u8]) -> Result<Vec<&[u8]>, AllocError> {
    let mut names = Vec::new(alloc);
    for word in list.split(|b| *b == b',') {
        names.push(word.strip_prefix(b" ").unwrap_or(word))?;
    }
    Ok(names)
}

// The line of an arrow and these words, with a comma and a space between two.
fn listed(alloc: Global, arrow: &[u8], names: &[&[u8]]) -> Result<Vec<u8>, AllocError> {
    let mut line = Vec::from_slice(alloc, arrow)?;
    let mut between: &[u8] = b"";
    for name in names {
        line.extend_from_slice(between)?;
        line.extend_from_slice(name)?;
        between = b", ";
    }
    Ok(line)
}

// The line with its psk at the end; one of two at the front.
fn psks_moved(alloc: Global, arrow: &[u8], list: &[u8]) -> Result<Option<Vec<u8>>, AllocError> {
    let psk: &[u8] = b"psk";
    let names = names_in(alloc, list)?;
    let mut moved = Vec::new(alloc);
    for name in &names {
        if *name != psk {
            moved.push(*name)?;
        }
    }
    match names.len().saturating_sub(moved.len()) {
        1 => {}
        2 => moved.insert(0, psk)?,
        _ => return Ok(None),
    }
    moved.push(psk)?;
    Ok(Some(listed(alloc, arrow, &moved)?))
}

// The line without the piece at the column, and without the space or the comma between, unless a psk stands in it.
fn piece_left_out(at: Wrong<'_>) -> Result<Option<Vec<u8>>, AllocError> {
    let (front, rest) = at
        .line
        .split_at(at.column.saturating_sub(1).min(at.line.len()));
    let (piece, after) = rest.split_at(first_word(rest).len().min(rest.len()));
    if has_psk(piece) {
        return Ok(None);
    }
    let mut left = Vec::from_slice(at.alloc, front)?;
    match after.split_first() {
        Some((_, next)) if !next.is_empty() => left.extend_from_slice(next)?,
        _ => {
            let kept = left.len().saturating_sub(2);
            left.truncate(kept);
        }
    }
    Ok(Some(left))
}

// The line with each of its tokens once, by its first place; no psk is taken away.
fn once_each(alloc: Global, arrow: &[u8], list: &[u8]) -> Result<Vec<u8>, AllocError> {
    let psk: &[u8] = b"psk";
    let mut kept = Vec::new(alloc);
    for name in &names_in(alloc, list)? {
        if *name == psk || !kept.contains(name) {
            kept.push(*name)?;
        }
    }
    listed(alloc, arrow, &kept)
}
