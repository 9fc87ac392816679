//! Comparing a log with a key schedule.

ghost use Rattle.std.specs.Prelude.{◌≡◌, ◌<◌, ◌≤◌, IfOk, length, option_copied};
ghost use Rattle.noise_compare.specs.Differences.{Agrees, IsFirstDifference};
ghost use Rattle.noise_compare.specs.Findings.{IsReport, IsSaid, step_after};

use crate::difference::{Difference, first_difference, next_step};
use crate::facts::Facts;
use crate::line::Line;
use crate::report::{agreement_text, difference_text, ending_text};
use crate::sentences::{of_end, of_place, of_values};
use std::alloc::{AllocError, Global};

/// What comes of a log that is compared.
#[derive(Clone, Copy, PartialEq, Eq)]
pub enum Finding {
    /// Each of its lines agrees.
    Agrees,
    /// Each of its lines agrees, and the key schedule of its last line's party has a further step of the handshake.
    Ends,
    /// A line doesn't agree.
    Differs,
}

/// What comes of a log, and the lines that are printed of it.
#[derive(Drop)]
pub struct LogReport {
    /// Whether all its lines agree.
    pub finding: Finding,
    /// The lines that are printed, each with its LF. They have values of the log and of the key schedule: secrets.
    pub text: Vec<u8>,
}

/// Compares the lines of a log with those of a key schedule, that of a run which these facts begin.
pub fn compare_lines(
    alloc: Global,
    facts: &Facts,
    log: &[Line<'_>],
    right: &[Line<'_>],
) -> Result<LogReport, AllocError>
    ensures { IfOk result (λ report. IsReport facts.now right.now log.now report.finding report.text.items) }
{
    match first_difference(log, right) {
        Some(found) => differing(alloc, facts, log, right, found),
        None => agreeing(alloc, facts, log, right),
    }
}

// The report on a log whose first difference this is.
fn differing(
    alloc: Global,
    facts: &Facts,
    log: &[Line<'_>],
    right: &[Line<'_>],
    found: Difference<'_, '_>,
) -> Result<LogReport, AllocError>
    requires index { found.index < length log.now }
    requires left { found.left ≤ length right.now }
    ensures first { IsFirstDifference right.now log.now found.entry.index found.entry.left
        (option_copied found.entry.right) → IfOk result (λ report. IsReport facts.now right.now log.now report.finding report.text.items) }
{
    let line = &log[found.index];
    let advice = advice(alloc, facts, log, right, &found, line, found.right)?;
    Ok(LogReport {
        finding: Finding::Differs,
        text: difference_text(alloc, line, found.right, &advice)?,
    })
}

// What is said of a line of the log that differs, and of the right line of its place, if there is one.
fn advice(
    alloc: Global,
    facts: &Facts,
    log: &[Line<'_>],
    right: &[Line<'_>],
    found: &Difference<'_, '_>,
    logged: &Line<'_>,
    expected: Option<&Line<'_>>,
) -> Result<Vec<u8>, AllocError>
    requires index { found.now.index ≤ length log.now }
    requires left { found.now.left ≤ length right.now }
    ensures text { IfOk result (λ text. IsSaid facts.now right.now log.now found.now.index found.now.left logged.now
        (option_copied expected.entry) text.items) }
{
    match expected {
        Some(expected) => of_values(alloc, facts, log, right, found, logged, expected),
        None => of_place(alloc, facts, log, right, found, logged),
    }
}

// The report on a log whose lines agree.
fn agreeing(
    alloc: Global,
    facts: &Facts,
    log: &[Line<'_>],
    right: &[Line<'_>],
) -> Result<LogReport, AllocError>
    requires same { Agrees right.now log.now }
    ensures reported { IfOk result (λ report. IsReport facts.now right.now log.now report.finding report.text.items) }
{
    match step_after(log, right) {
        Some(next) => Ok(LogReport {
            finding: Finding::Ends,
            text: ending_text(alloc, next, &of_end(alloc, facts, right, next)?)?,
        }),
        None => Ok(LogReport {
            finding: Finding::Agrees,
            text: agreement_text(alloc, log)?,
        }),
    }
}

// The next right line of the handshake after the one that matches the last of a log.
fn step_after<'a, 'b>(log: &[Line<'_>], right: &'a [Line<'b>]) -> Option<&'a Line<'b>>
    ensures { option_copied result ≡ step_after right.now log.now }
{
    next_step(right, log.last()?)
}
