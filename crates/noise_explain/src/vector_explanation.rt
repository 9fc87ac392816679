//! What is said of a vector file.

ghost use Rattle.std.specs.Prelude.{◌≡◌, ◌++◌, IfOk, MatchOption, OnOk};
ghost use Rattle.noise_names.specs.Names.{name_bytes};
ghost use Rattle.noise_explain.specs.VectorExplained.{IsPatternIn, LacksPattern, ReportsFault, ExplainsLine, ReportsVector, is_vector_text, vector_head, without_mark};

use crate::block_changes::block_change_lines;
use crate::block_sentences::{block_reported, ending_reported};
use crate::excerpt::{caret_lines, push_sentence, push_sentences, unread_head, wrong_head};
use crate::expected_forms::expected_form;
use crate::explanation::{Explained, rule_lines};
use crate::facts::fact_lines;
use crate::line_column::{first_word, line_column};
use crate::line_sentences::line_reported;
use crate::position::{Position, line_at};
use crate::run_counts::RunCounts;
use crate::run_sentences::run_lines;
use crate::setup_sentences::setup_lines;
use noise_lines::{Fault, named_pattern, push_shown};
use noise_names::{Pattern, ProtocolName};
use noise_vectors::LineKind;
use std::alloc::{AllocError, Global};

/// Whether a text is taken as that of a vector file: its first word is `vector`. A byte-order mark may stand before it,
/// which makes the file a wrong one.
pub fn is_vector_text(text: &[u8]) -> bool
    ensures { result ≡ is_vector_text text.now }
{
    without_mark(text).starts_with(b"vector ".as_slice())
}

fn without_mark(text: &[u8]) -> &[u8]
    ensures { result.now ≡ without_mark text.now }
{
    if text.starts_with(b"\xef\xbb\xbf".as_slice()) {
        let (_, rest) = text.split_at(text.len().min(3));
        rest
    } else {
        text
    }
}

/// Explains the fault that a line of a vector file isn't as it has to be: its position, the line with a caret below the
/// position, what has to stand there, and what mends it.
pub fn explain_line(
    alloc: Global,
    name: &str,
    text: &[u8],
    number: usize,
    kind: LineKind,
) -> Result<Explained, AllocError>
    ensures { IfOk result (ExplainsLine name.now text.now number kind) }
{
    let position = Position {
        line: number,
        column: line_column(kind, text, number),
    };
    let mut sentences = wrong_head(alloc, name, position, Fault::Line(number, kind))?;
    sentences.extend_from_slice(&line_lines(alloc, text, position, kind)?)?;
    Ok(Explained {
        text: sentences,
        status: 2,
    })
}

// The line with its caret, its form, what is wrong with it, and what mends it.
fn line_lines(
    alloc: Global,
    text: &[u8],
    position: Position,
    kind: LineKind,
) -> Result<Vec<u8>, AllocError> {
    let line = line_at(text, position.line);
    let mut lines = caret_lines(alloc, line, position.column)?;
    let form = expected_form(kind, text, position.line, first_word(line));
    let may_match = kind != LineKind::Event || position.column > 1;
    if may_match && !form.is_empty() {
        let expected = format!(in alloc; "expected: {form}")?;
        push_sentence(expected.as_str(), &mut lines)?;
    }
    let (says, mends) = match kind {
        LineKind::Pattern => block_reported(text, position.line, position.column),
        LineKind::Ending => ending_reported(text, position.line, line),
        _ => line_reported(kind, text, position.line, line),
    };
    push_sentences(&[says, mends], &mut lines)?;
    Ok(lines)
}

/// Explains why the two parties of a vector file can't be made. `pattern` is the file's, where it has one.
pub fn explain_start(
    alloc: Global,
    name: &str,
    fault: Fault,
    pattern: Option<&Pattern>,
) -> Result<Explained, AllocError>
    ensures { IfOk result (ReportsFault name.now fault) }
{
    let mut text = unread_head(alloc, name, fault)?;
    text.extend_from_slice(&start_lines(alloc, fault, pattern)?)?;
    Ok(Explained {
        text,
        status: fault.status(),
    })
}

// What is wrong with the file, and what mends it, or corrects its pattern.
fn start_lines(
    alloc: Global,
    fault: Fault,
    pattern: Option<&Pattern>,
) -> Result<Vec<u8>, AllocError> {
    match (fault, pattern) {
        (Fault::Rule(broken), Some(pattern)) => {
            let mut lines = rule_lines(alloc, pattern, broken)?;
            lines.extend_from_slice(&block_change_lines(alloc, pattern, broken)?)?;
            Ok(lines)
        }
        (Fault::Setup(role, why), _) => setup_lines(alloc, role, why),
        (Fault::Place(_), _) => {
            let mut lines = Vec::new(alloc);
            push_sentences(&NO_PLACE, &mut lines)?;
            Ok(lines)
        }
        _ => Ok(Vec::new(alloc)),
    }
}

const NO_PLACE: [&str; 2] = [
    "The protocol's name has this index of a psk, and the pattern has fewer messages.",
    "Write another one: psk0 is before message 1, pskN at the end of message N.",
];

/// The pattern of a vector file: the one that it spells, or else that of its protocol's name, if there is one.
pub fn pattern_in(
    protocol: &ProtocolName,
    block: &Option<Pattern>,
) -> Result<Option<Pattern>, AllocError>
    ensures { IfOk result (λ found. MatchOption found (LacksPattern block.now protocol.now)
        (IsPatternIn block.now protocol.now)) }
{
    match block {
        Some(pattern) => {
            let same = pattern.clone()?;
            Ok(Some(same))
        }
        None => match named_pattern(protocol) {
            Ok(pattern) => Ok(Some(pattern)),
            Err(_) => Ok(None),
        },
    }
}

/// Explains a right vector file: its protocol, what follows from the tokens of its pattern, and what its run came to, by
/// what was counted in it.
pub fn explain_vector(
    alloc: Global,
    name: &str,
    protocol: &ProtocolName,
    pattern: Option<Pattern>,
    counts: &RunCounts,
) -> Result<Explained, AllocError>
    ensures { IfOk result (ReportsVector name.now protocol.now) }
{
    let mut text = vector_head(alloc, name, protocol)?;
    text.extend_from_slice(&vector_lines(alloc, pattern, counts)?)?;
    Ok(Explained { text, status: 0 })
}

fn vector_head(alloc: Global, name: &str, protocol: &ProtocolName) -> Result<Vec<u8>, AllocError>
    ensures { IfOk result (λ text. text.items ≡ vector_head name.now protocol.now) }
{
    let mut text = Vec::new(alloc);
    push_shown(name.as_bytes(), &mut text)?;
    text.extend_from_slice(b": valid vector file\n".as_slice())?;
    text.extend_from_slice(b"  protocol ".as_slice())?;
    text.extend_from_slice(&protocol.write())?;
    text.push(b'\n')?;
    Ok(text)
}

// What follows from the pattern's tokens, and what the run came to.
fn vector_lines(
    alloc: Global,
    pattern: Option<Pattern>,
    counts: &RunCounts,
) -> Result<Vec<u8>, AllocError> {
    let mut text = Vec::new(alloc);
    if let Some(pattern) = pattern
        && let Ok(valid) = pattern.check()
    {
        text.extend_from_slice(&fact_lines(alloc, &valid)?)?;
        text.extend_from_slice(&run_lines(alloc, valid.pattern(), counts)?)?;
    }
    Ok(text)
}
