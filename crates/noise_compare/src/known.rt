//! The mistakes that are known at a step.

ghost use Rattle.std.specs.Prelude.{◌≡◌, ◌++◌, Some, IfOk, OnOk, map, option_copied};
ghost use Rattle.noise_compare.specs.Finding.{said};
ghost use Rattle.noise_compare.specs.Known.{AreKnown, AreKnownAt, indented, indented_sentences, known_text};

use crate::difference::first_difference;
use crate::facts::Facts;
use crate::finding::tried_mistakes;
use crate::line::Line;
use crate::mistake_tables::Row;
use crate::parts::Parts;
use crate::report::push_line;
use crate::state::Situation;
use std::alloc::{AllocError, Global};

/// A line for each mistake that is known at the step of the first difference, and none where all lines agree or no
/// right line is of the place of the one that differs.
pub fn known_lines(
    alloc: Global,
    facts: &Facts,
    log: &[Line<'_>],
    right: &[Line<'_>],
) -> Result<Vec<u8>, AllocError>
    ensures { IfOk result (λ text. AreKnown facts.now right.now log.now text.items) }
{
    match first_difference(log, right) {
        Some(found) => known_at(alloc, facts, right, found.left, found.right),
        None => Ok(Vec::new(alloc)),
    }
}

// Likewise at the step of this right line, if there is one.
fn known_at(
    alloc: Global,
    facts: &Facts,
    right: &[Line<'_>],
    left: usize,
    expected: Option<&Line<'_>>,
) -> Result<Vec<u8>, AllocError>
    ensures { IfOk result (λ text. AreKnownAt facts.now right.now left (option_copied expected.entry) text.items) }
{
    match expected {
        Some(line) => known_of(alloc, facts, right, left, line),
        None => Ok(Vec::new(alloc)),
    }
}

fn known_of(
    alloc: Global,
    facts: &Facts,
    right: &[Line<'_>],
    left: usize,
    expected: &Line<'_>,
) -> Result<Vec<u8>, AllocError>
    ensures { IfOk result (λ text. AreKnownAt facts.now right.now left (Some expected.now) text.items) }
{
    let parts = Parts::of(alloc, facts, right, expected, left)?;
    let at = parts.situation(facts);
    let text = known_text(alloc, &at)?;
    Ok(text)
}

fn known_text(alloc: Global, at: &Situation<'_>) -> Result<Vec<u8>, AllocError>
    ensures { IfOk result (λ text. text.items ≡ known_text at.now) }
{
    let known = tried_mistakes(alloc, at)?;
    let mut text = Vec::new(alloc);
    push_line("mistakes known at this step:", &mut text)?;
    push_indented(&known, &mut text)?;
    Ok(text)
}

#[tactic(auto, unfolding(crate::specs::Known::indented_sentences))]
fn push_indented(rows: &[Row], text: &mut Vec<u8>) -> Result<(), AllocError>
    ensures { OnOk result (text.new.items ≡ text.old.items ++ indented_sentences (map said rows.now)) }
{
    for row in rows {
        push_one_indented(row, text)?;
    }
    Ok(())
}

fn push_one_indented(row: &Row, text: &mut Vec<u8>) -> Result<(), AllocError>
    ensures { OnOk result (text.new.items ≡ text.old.items ++ indented (said row.now)) }
{
    text.extend_from_slice(b"    ".as_slice())?;
    push_line(row.1, text)
}
