//! Corrections of the pattern that a vector file spells, where it breaks a rule.

use crate::change::{Change, push_changes};
use crate::judged::{chosen, first_fault};
use crate::rule_changes::rule_candidates;
use noise_names::{Pattern, RuleFault};
use std::alloc::{AllocError, Global};

// How many lines stand before the pattern.
const ABOVE: usize = 2;

// The changes of the file's lines that correct its pattern, if some do, a line each. They are tried on the pattern's
// text alone.
pub(crate) fn block_change_lines(
    alloc: Global,
    pattern: &Pattern,
    fault: RuleFault,
) -> Result<Vec<u8>, AllocError> {
    let mut rows = Vec::new(alloc);
    let mut text = Vec::new(alloc);
    pattern.write_text(&mut text)?;
    let Some(found) = first_fault(&text)? else {
        return Ok(rows);
    };
    let candidates = rule_candidates(alloc, pattern, fault)?;
    if let Some(correction) = chosen(alloc, &text, found, candidates)? {
        push_changes(alloc, &lowered(alloc, correction.changes)?, &mut rows)?;
    }
    Ok(rows)
}

// The same changes of a text with more lines above.
fn lowered(alloc: Global, changes: Vec<Change>) -> Result<Vec<Change>, AllocError> {
    let mut all = Vec::new(alloc);
    for change in changes {
        all.push(match change {
            Change::Write(number, line) => Change::Write(number.saturating_add(ABOVE), line),
            Change::Put(number, line) => Change::Put(number.saturating_add(ABOVE), line),
            Change::Out(number) => Change::Out(number.saturating_add(ABOVE)),
            Change::LineFeed => Change::LineFeed,
            Change::NoReturns => Change::NoReturns,
        })?;
    }
    Ok(all)
}
