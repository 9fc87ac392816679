//! Which of some corrections of a pattern text is told: they are tried by the judge that `check` has.

ghost use Rattle.std.specs.Prelude.{◌≡◌, ◌<◌, IfOk, IfSome, IsTrue, MatchOption, length};
ghost use Rattle.noise_lines.specs.Output.{IsCheckFault};
ghost use Rattle.noise_lines.specs.declared.faults.Fault.TheVariants.{Text};
ghost use Rattle.noise_names.specs.Text.{Spells};
ghost use Rattle.noise_explain.specs.Corrections.{Holds, IsBehind, IsFirst, IsLater, IsRight, left_from};

use crate::change::{Change, corrected};
use crate::column::column_of;
use crate::position::{Position, from_line, line_at};
use crate::rule_place::rule_place;
use noise_lines::Fault;
use noise_names::{Pattern, TextFault};
use std::alloc::{AllocError, Global};

/// A fault, and its position in the text.
#[derive(Clone, Copy)]
pub(crate) struct Found {
    pub fault: Fault,
    pub position: Position,
}

/// Changes that correct a text together.
#[derive(Drop)]
pub(crate) struct Correction {
    pub changes: Vec<Change>,
}

// The first fault of a text, if it isn't that of a valid pattern.
pub(crate) fn first_fault(text: &[u8]) -> Result<Option<Found>, AllocError>
    ensures { IfOk result (λ found. MatchOption found (IsRight text.now)
        (λ it. IsFirst text.now it.fault it.position)) }
{
    match Pattern::parse_text(text) {
        Ok(pattern) => first_rule(text, pattern),
        Err(fault) => Ok(Some(Found {
            fault: Fault::Text(fault),
            position: text_position(text, fault),
        })),
    }
}

// Where this fault stands, by which the text is no pattern's.
pub(crate) fn text_position(text: &[u8], fault: TextFault) -> Position
    requires wrong { IsCheckFault text.now (Text fault) }
    ensures first { IsFirst text.now (Text fault) result }
{
    Position {
        line: fault.line,
        column: column_of(fault.kind, fault.line, line_at(text, fault.line)),
    }
}

// The first place where the pattern of this text breaks a rule.
fn first_rule(text: &[u8], pattern: Pattern) -> Result<Option<Found>, AllocError>
    requires spells { Spells text.now pattern }
    ensures found { IfOk result (λ found. MatchOption found (IsRight text.now)
        (λ it. IsFirst text.now it.fault it.position)) }
{
    let same = pattern.clone()?;
    match pattern.check() {
        Ok(_) => Ok(None),
        Err(fault) => Ok(Some(Found {
            fault: Fault::Rule(fault),
            position: rule_place(&same, fault),
        })),
    }
}

// What is left of a text from a position on.
fn left_from(text: &[u8], position: Position) -> &[u8]
    ensures { result.now ≡ left_from position text.now }
{
    let rest = from_line(text, position.line);
    let passed = position.column.saturating_sub(1);
    let (_, left) = rest.split_at(passed.min(rest.len()));
    left
}

// How much is left after these changes, 0 of a valid text, where they correct the text.
fn left_after(
    alloc: Global,
    text: &[u8],
    found: Found,
    changes: &[Change],
) -> Result<Option<usize>, AllocError>
    requires first { IsFirst text.now found.fault found.position }
    ensures holds { IfOk result (λ left. IfSome left (λ _. Holds text.now changes.now)) }
{
    let made = corrected(alloc, text, changes)?;
    match first_fault(&made)? {
        None => Ok(Some(0)),
        Some(other) => Ok(left_if_later(text, found, &made, other)),
    }
}

// Whether the one position stands in a later line, or farther on in the line.
fn is_behind(later: Position, position: Position) -> bool
    ensures { IsTrue result → IsBehind later position }
{
    if later.line == position.line {
        later.column > position.column
    } else {
        later.line > position.line
    }
}

// Whether the one has fewer bytes than the other.
fn is_shorter(left: &[u8], had: &[u8]) -> bool
    ensures { IsTrue result → length left.now < length had.now }
{
    left.len() < had.len()
}

// How many bytes of the other text are left from its first fault on, and one more, where that comes later.
fn left_if_later(text: &[u8], found: Found, other: &[u8], later: Found) -> Option<usize>
    requires first { IsFirst text.now found.fault found.position }
    requires other_first { IsFirst other.now later.fault later.position }
    ensures later { IfSome result (λ _. IsLater text.now other.now) }
{
    let had = left_from(text, found.position);
    let left = left_from(other, later.position);
    if later.fault.status() > found.fault.status() {
        return None;
    }
    if !is_shorter(left, had) {
        return None;
    }
    if is_behind(later.position, found.position) || had.ends_with(left) {
        return Some(left.len().saturating_add(1));
    }
    None
}

// Of these corrections the first one after which the text is valid, or else the one whose first fault is latest; none
// where none corrects the text.
pub(crate) fn chosen(
    alloc: Global,
    text: &[u8],
    found: Found,
    candidates: Vec<Correction>,
) -> Result<Option<Correction>, AllocError>
    requires first { IsFirst text.now found.fault found.position }
    ensures holds { IfOk result (λ best. IfSome best (λ it. Holds text.now it.changes.items)) }
{
    let mut best: Option<Correction> = None;
    let mut least = usize::MAX;
    for candidate in candidates {
        if let Some(left) = left_after(alloc, text, found, &candidate.changes)?
            && left < least
        {
            least = left;
            best = Some(candidate);
        }
    }
    Ok(best)
}
