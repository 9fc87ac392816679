//! What is said of a text.

ghost use Rattle.std.specs.Prelude.{◌≡◌, ◌≤◌, ◌++◌, List, IfOk, flat_map};
ghost use Rattle.noise_lines.specs.Output.{IsCheckFault};
ghost use Rattle.noise_lines.specs.declared.faults.Fault.TheVariants.{Rule, Text};
ghost use Rattle.noise_names.specs.Text.{Spells};
ghost use Rattle.noise_explain.specs.Corrections.{AreCorrection, IsFirst};
ghost use Rattle.noise_explain.specs.Explained.{AreTwo, IsExplained, IsRuleTold, IsTextTold, SaysLong, SaysWrong};
ghost use Rattle.noise_explain.specs.Facts.{facts_text};
ghost use Rattle.noise_explain.specs.RuleWords.{rule_lines};
ghost use Rattle.noise_explain.specs.Shown.{right_head};
ghost use Rattle.noise_names.specs.declared.faults.RuleFault.{RuleFault};

use crate::advice::Advice;
use crate::all_rules::other_rules;
use crate::change::push_changes;
use crate::excerpt::{caret_lines, push_sentence, right_head, unread_head, wrong_head};
use crate::facts::fact_lines;
use crate::judged::{Correction, Found, chosen, text_position};
use crate::other_lines::other_lines;
use crate::position::{Position, line_at};
use crate::rule_changes::rule_candidates;
use crate::rule_place::rule_place;
use crate::rule_sentences::{fault_words, place_words};
use crate::text_advice::fault_advice;
use crate::text_changes::text_candidates;
use noise_lines::Fault;
use noise_names::{Pattern, RuleFault, TextFault, ValidPattern};
use std::alloc::{AllocError, Global};

/// What is said of a text.
#[derive(Drop)]
pub struct Explained {
    /// Lines of ASCII, each with a line feed.
    pub text: Vec<u8>,
    /// 0 for a right text, 1 for a pattern that breaks a rule of validity, 2 for a wrong text.
    pub status: u8,
}

/// Explains a pattern text, from the file of this name: a valid pattern by its messages and what follows from its
/// tokens; else the fault that `check` reports, with its line and its column, and changes that correct it, if some of
/// those that are tried do.
pub fn explain(alloc: Global, name: &str, text: &[u8]) -> Result<Explained, AllocError>
    ensures explained { IfOk result (IsExplained name.now text.now) }
    ensures bound { IfOk result (λ e. e.status ≤ 2) }
{
    match Pattern::parse_text(text) {
        Ok(pattern) => explain_spelled(alloc, name, text, pattern),
        Err(fault) => explain_text(alloc, name, text, fault),
    }
}

// Explains the text of this pattern.
fn explain_spelled(
    alloc: Global,
    name: &str,
    text: &[u8],
    pattern: Pattern,
) -> Result<Explained, AllocError>
    requires spells { Spells text.now pattern }
    ensures explained { IfOk result (IsExplained name.now text.now) }
    ensures bound { IfOk result (λ e. e.status ≤ 2) }
{
    let same = pattern.clone()?;
    match pattern.check() {
        Ok(valid) => explain_valid(alloc, name, &valid),
        Err(fault) => explain_rule(alloc, name, text, &same, fault),
    }
}

/// Says of the file of this name that it has too many bytes.
pub fn explain_long(alloc: Global, name: &str) -> Result<Explained, AllocError>
    ensures explained { IfOk result (SaysLong name.now) }
    ensures bound { IfOk result (λ e. e.status ≤ 2) }
{
    let fault = Fault::TooLong;
    let mut text = unread_head(alloc, name, fault)?;
    text.extend_from_slice(&advice_lines(alloc, Advice::TooLong)?)?;
    Ok(Explained {
        text,
        status: fault.status(),
    })
}

// Explains a valid pattern.
pub(crate) fn explain_valid(
    alloc: Global,
    name: &str,
    pattern: &ValidPattern,
) -> Result<Explained, AllocError>
    ensures status { IfOk result (λ e. e.status ≡ 0) }
    ensures text { IfOk result (λ e. e.text.items ≡ right_head name.now pattern.now ++ facts_text pattern.now) }
{
    let mut text = right_head(alloc, name, pattern.pattern())?;
    text.extend_from_slice(&fact_lines(alloc, pattern)?)?;
    Ok(Explained { text, status: 0 })
}

// Explains a wrong text.
fn explain_text(
    alloc: Global,
    name: &str,
    text: &[u8],
    fault: TextFault,
) -> Result<Explained, AllocError>
    requires fault { IsCheckFault text.now (Text fault) }
    ensures said { IfOk result (SaysWrong name.now text.now) }
    ensures bound { IfOk result (λ e. e.status ≤ 2) }
{
    let position = text_position(text, fault);
    let mut reported = wrong_head(alloc, name, position, Fault::Text(fault))?;
    reported.extend_from_slice(&caret_lines(
        alloc,
        line_at(text, position.line),
        position.column,
    )?)?;
    reported.extend_from_slice(&told_lines(alloc, text, fault, position)?)?;
    Ok(Explained {
        text: reported,
        status: 2,
    })
}

// Explains a pattern that breaks a rule.
fn explain_rule(
    alloc: Global,
    name: &str,
    text: &[u8],
    pattern: &Pattern,
    fault: RuleFault,
) -> Result<Explained, AllocError>
    requires spells { Spells text.now pattern.now }
    requires fault { IsCheckFault text.now (Rule fault) }
    ensures said { IfOk result (SaysWrong name.now text.now) }
    ensures bound { IfOk result (λ e. e.status ≤ 2) }
{
    let position = rule_place(pattern, fault);
    let mut reported = wrong_head(alloc, name, position, Fault::Rule(fault))?;
    reported.extend_from_slice(&caret_lines(
        alloc,
        line_at(text, position.line),
        position.column,
    )?)?;
    reported.extend_from_slice(&all_rule_lines(alloc, text, pattern, fault, position)?)?;
    Ok(Explained {
        text: reported,
        status: 1,
    })
}

// What is wrong with a text at this fault, what corrects it, and what is wrong with its later lines.
fn told_lines(
    alloc: Global,
    text: &[u8],
    fault: TextFault,
    position: Position,
) -> Result<Vec<u8>, AllocError>
    requires first { IsFirst text.now (Text fault) position }
    ensures told { IfOk result (λ told. IsTextTold text.now told.items) }
{
    let advice = fault_advice(text, fault, position.column);
    let (says, _) = advice.sentences();
    let mut said = Vec::new(alloc);
    push_sentence(says, &mut said)?;
    let found = Found {
        fault: Fault::Text(fault),
        position,
    };
    let candidates = if advice == Advice::VectorHeading {
        Vec::new(alloc)
    } else {
        text_candidates(alloc, text, fault, position.column)?
    };
    said.extend_from_slice(&correction_lines(alloc, text, found, candidates)?)?;
    said.extend_from_slice(&other_lines(alloc, text, fault.line, advice)?)?;
    Ok(said)
}

// The same of a rule, and then of the others that are broken.
fn all_rule_lines(
    alloc: Global,
    text: &[u8],
    pattern: &Pattern,
    fault: RuleFault,
    position: Position,
) -> Result<Vec<u8>, AllocError>
    requires first { IsFirst text.now (Rule fault) position }
    requires spells { Spells text.now pattern.now }
    ensures told { IfOk result (λ told. IsRuleTold text.now fault told.items) }
{
    let mut said = rule_lines(alloc, pattern, fault)?;
    let found = Found {
        fault: Fault::Rule(fault),
        position,
    };
    let candidates = rule_candidates(alloc, pattern, fault)?;
    said.extend_from_slice(&correction_lines(alloc, text, found, candidates)?)?;
    said.extend_from_slice(&other_rule_lines(alloc, pattern, fault)?)?;
    Ok(said)
}

// What corrects a text with this first fault, by one of these, if one does.
fn correction_lines(
    alloc: Global,
    text: &[u8],
    found: Found,
    candidates: Vec<Correction>,
) -> Result<Vec<u8>, AllocError>
    requires first { IsFirst text.now found.fault found.position }
    ensures correct { IfOk result (λ rows. AreCorrection text.now rows.items) }
{
    let mut rows = Vec::new(alloc);
    if let Some(correction) = chosen(alloc, text, found, candidates)? {
        push_changes(alloc, &correction.changes, &mut rows)?;
    }
    Ok(rows)
}

fn other_rule_lines(
    alloc: Global,
    pattern: &Pattern,
    fault: RuleFault,
) -> Result<Vec<u8>, AllocError>
    ensures { IfOk result
        (λ text. (others : List RuleFault) × (text.items ≡ flat_map (rule_lines pattern.now) others)) }
{
    let others = other_rules(alloc, pattern, fault)?;
    let mut text = Vec::new(alloc);
    for other in &others {
        text.extend_from_slice(&rule_lines(alloc, pattern, *other)?)?;
    }
    Ok(text)
}

// What is wrong with a file, and what mends it.
fn advice_lines(alloc: Global, advice: Advice) -> Result<Vec<u8>, AllocError>
    ensures { IfOk result (λ text. AreTwo text.items) }
{
    let (says, mends) = advice.sentences();
    let mut text = Vec::new(alloc);
    push_sentence(says, &mut text)?;
    push_sentence(mends, &mut text)?;
    Ok(text)
}

/// Which rule is broken where, and what is wrong there.
pub fn rule_lines(alloc: Global, pattern: &Pattern, fault: RuleFault) -> Result<Vec<u8>, AllocError>
    ensures { IfOk result (λ text. text.items ≡ rule_lines pattern.now fault) }
{
    let mut text = Vec::new(alloc);
    push_sentence(place_words(alloc, pattern, fault)?.as_str(), &mut text)?;
    push_sentence(fault_words(alloc, pattern, fault)?.as_str(), &mut text)?;
    Ok(text)
}
