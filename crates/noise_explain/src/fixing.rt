//! The text of a pattern with all changes that correct it.

ghost use Rattle.std.specs.Prelude.{◌≡◌, ◌≤◌, IfOk, IfSome, List};
ghost use Rattle.noise_explain.specs.Corrections.{Holds, corrected};
ghost use Rattle.noise_explain.specs.Fixed.{HasStatus, IsFixed, IsFixedText};
ghost use Rattle.noise_explain.specs.declared.change.Change.{Change};

use crate::advice::Advice;
use crate::change::corrected;
use crate::explanation::Explained;
use crate::judged::{Correction, Found, chosen, first_fault};
use crate::rule_changes::rule_candidates;
use crate::text_advice::fault_advice;
use crate::text_changes::text_candidates;
use noise_lines::Fault;
use noise_names::Pattern;
use std::alloc::{AllocError, Global};

// How many corrections are made, one after another, at most.
const MOST: usize = 64;

/// The text of a pattern with the changes that correct it, and with those that correct this one, and so on, until it is
/// valid or no change that is tried corrects it. The status is 0 if it is valid, and else that of its first fault.
pub fn fixed(alloc: Global, text: &[u8]) -> Result<Explained, AllocError>
    ensures fixed { IfOk result (IsFixed text.now) }
    ensures bound { IfOk result (λ e. e.status ≤ 2) }
{
    let made = fixed_text(alloc, text)?;
    let status = text_status(&made)?;
    Ok(Explained { text: made, status })
}

fn fixed_text(alloc: Global, text: &[u8]) -> Result<Vec<u8>, AllocError>
    ensures { IfOk result (λ made. IsFixedText text.now made.items) }
{
    let mut made = Vec::new(alloc);
    made.extend_from_slice(text)?;
    for step in 0..MOST {
        match next_text(alloc, &made)? {
            Some(next) => made = next,
            None => return Ok(made),
        }
    }
    Ok(made)
}

// The text after changes that correct it, if some do.
fn next_text(alloc: Global, text: &[u8]) -> Result<Option<Vec<u8>>, AllocError>
    ensures { IfOk result (λ next. IfSome next
        (λ made. (changes : List Change) × Holds text.now changes × (made.items ≡ corrected changes text.now))) }
{
    let Some(found) = first_fault(text)? else {
        return Ok(None);
    };
    let candidates = candidates_of(alloc, text, found)?;
    match chosen(alloc, text, found, candidates)? {
        Some(correction) => Ok(Some(corrected(alloc, text, &correction.changes)?)),
        None => Ok(None),
    }
}

// The corrections to try of a text with this first fault.
fn candidates_of(alloc: Global, text: &[u8], found: Found) -> Result<Vec<Correction>, AllocError> {
    let column = found.position.column;
    match found.fault {
        Fault::Text(fault) => {
            if fault_advice(text, fault, column) == Advice::VectorHeading {
                return Ok(Vec::new(alloc));
            }
            text_candidates(alloc, text, fault, column)
        }
        Fault::Rule(fault) => match Pattern::parse_text(text) {
            Ok(pattern) => rule_candidates(alloc, &pattern, fault),
            Err(_) => Ok(Vec::new(alloc)),
        },
        _ => Ok(Vec::new(alloc)),
    }
}

// The exit status of a text: 0 of a valid one, and else that of its first fault.
fn text_status(text: &[u8]) -> Result<u8, AllocError>
    ensures status { IfOk result (HasStatus text.now) }
    ensures bound { IfOk result (λ status. status ≤ 2) }
{
    match first_fault(text)? {
        None => Ok(0),
        Some(found) => Ok(found.fault.status()),
    }
}
