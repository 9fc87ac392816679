//! The command `explain`: what is wrong with pattern texts and vector files, in sentences, or what follows from the
//! tokens of their patterns.

ghost use Rattle.std.specs.Prelude.{◌≡◌, ◌≤◌, ℕ, List, IfErr, IfNone, IfOk, IfSome, map, string_bytes};
ghost use Rattle.noise_tool.specs.Answers.{answer_value};
ghost use Rattle.noise_tool.specs.Explaining.{IsExplainAnswer, IsExplainedAt, IsExplainedPattern, IsExplainedRun, IsExplainedText, IsExplainedVector, IsUnreadName, SaysNamed, worse};
ghost use Rattle.noise_tool.specs.PatternNames.{NamesText};
ghost use Rattle.noise_tool.specs.Testing.{EndsTest};

use crate::answers::Answer;
use crate::counted_run::counted_run;
use crate::pattern_names::pattern_text;
use crate::printing::text_of;
use crate::testing::FilesByName;
use noise_explain::{
    Explained, explain, explain_line, explain_long, explain_start, explain_vector, fixed,
    is_vector_text, pattern_in, unread_head,
};
use noise_lines::Fault;
use noise_vectors::{AllowedEvents, VectorFault, VectorFile, read_vector};
use std::alloc::{AllocError, Global};

/// Explains the file of each name, one after the other. The exit status is the greatest of theirs: 0 of a right file, 1
/// of a pattern that breaks a rule or of parties that can't be made, 2 of a wrong text. Where a file can't be read and
/// its name is that of a pattern, this pattern is explained. Where it can't be read, which is told with its name after
/// what is said of the files before, the output can't be written or memory runs out, the status is 3.
///
/// Where `fixes` is true, the text of a pattern is printed with all changes that correct it, and nothing is said of it;
/// the status is 0 if it is valid then. Of a vector file the same is said as else.
pub fn explain_files<F: FilesByName>(
    alloc: Global,
    names: &[String],
    fixes: bool,
    files: &F,
) -> Result<Answer, Fault>
    ensures made { IfOk result (λ answer. IsExplainAnswer fixes (F.bytes_at files.now) (F.unreadable files.now)
        (map string_bytes names.now) (answer_value answer)) }
    ensures fault { IfErr result EndsTest }
{
    let mut status = 0;
    let mut text = Vec::new(alloc);
    for name in names {
        let Some(explained) = explain_named(alloc, name.as_str(), fixes, files)? else {
            let out = text_of(alloc, text);
            let err = unread_head(alloc, name.as_str(), Fault::Unreadable)?;
            return Ok(Answer::new(out, err, 3));
        };
        text.extend_from_slice(&explained.text)?;
        status = worse(status, explained.status);
    }
    Ok(Answer::output(alloc, text, status))
}

fn worse(first: u8, second: u8) -> u8
    ensures { result ≡ worse first second }
{
    if first <= second { second } else { first }
}

// What is said of the file of this name, if it can be read, or of the pattern of this name.
fn explain_named<F: FilesByName>(
    alloc: Global,
    name: &str,
    fixes: bool,
    files: &F,
) -> Result<Option<Explained>, Fault>
    ensures explained { IfOk result
        (λ found. IfSome found (IsExplainedAt fixes (F.bytes_at files.now) (F.unreadable files.now) name.now)) }
    ensures unread { IfOk result (λ found. IfNone found (IsUnreadName (F.unreadable files.now) name.now)) }
    ensures bound { IfOk result (λ found. IfSome found (λ e. e.status ≤ 2)) }
    ensures fault { IfErr result EndsTest }
{
    match files.read(alloc, name) {
        Ok(text) => {
            let explained = explain_bytes(alloc, name, fixes, &text)?;
            Ok(Some(explained))
        }
        Err(Fault::TooLong) => Ok(Some(explain_long(alloc, name)?)),
        Err(Fault::Unreadable) => explain_pattern(alloc, name, fixes),
        Err(fault) => Err(fault),
    }
}

// What is said of the pattern of this name, if there is one.
fn explain_pattern(alloc: Global, name: &str, fixes: bool) -> Result<Option<Explained>, Fault>
    ensures explained { IfOk result (λ found. IfSome found (SaysNamed fixes name.now)) }
    ensures none { IfOk result (λ found. IfNone found ((text : List ℕ) → NamesText name.now text → ⊥)) }
    ensures bound { IfOk result (λ found. IfSome found (λ e. e.status ≤ 2)) }
    ensures fault { IfErr result EndsTest }
{
    match pattern_text(alloc, name)? {
        Some(text) => Ok(Some(explain_or_fix(alloc, name, fixes, &text)?)),
        None => Ok(None),
    }
}

// What is said of a text, by whether it is that of a vector file.
fn explain_bytes(alloc: Global, name: &str, fixes: bool, text: &[u8]) -> Result<Explained, Fault>
    ensures explained { IfOk result (IsExplainedText fixes name.now text.now) }
    ensures bound { IfOk result (λ e. e.status ≤ 2) }
    ensures fault { IfErr result EndsTest }
{
    if is_vector_text(text) {
        explain_vector_text(alloc, name, text)
    } else {
        Ok(explain_or_fix(alloc, name, fixes, text)?)
    }
}

// What is said of the text of a pattern, or the text with the changes that correct it.
fn explain_or_fix(
    alloc: Global,
    name: &str,
    fixes: bool,
    text: &[u8],
) -> Result<Explained, AllocError>
    ensures explained { IfOk result (IsExplainedPattern fixes name.now text.now) }
    ensures bound { IfOk result (λ e. e.status ≤ 2) }
{
    if fixes {
        fixed(alloc, text)
    } else {
        explain(alloc, name, text)
    }
}

// What is said of the text of a vector file.
fn explain_vector_text(alloc: Global, name: &str, text: &[u8]) -> Result<Explained, Fault>
    ensures explained { IfOk result (IsExplainedVector name.now text.now) }
    ensures bound { IfOk result (λ e. e.status ≤ 2) }
    ensures fault { IfErr result EndsTest }
{
    match read_vector(alloc, text, AllowedEvents::Any) {
        Ok(file) => explain_file(alloc, name, file),
        Err(VectorFault::Line(number, kind)) => Ok(explain_line(alloc, name, text, number, kind)?),
        Err(VectorFault::Memory) => Err(Fault::Memory),
    }
}

// What is said of a vector file that is read: what its run comes to, or why it has no ends.
fn explain_file(alloc: Global, name: &str, file: VectorFile) -> Result<Explained, Fault>
    ensures explained { IfOk result (IsExplainedRun name.now file) }
    ensures bound { IfOk result (λ e. e.status ≤ 2) }
    ensures fault { IfErr result EndsTest }
{
    let protocol = file.protocol.clone()?;
    let pattern = pattern_in(&file.protocol, &file.block)?;
    let messages = match &pattern {
        Some(pattern) => pattern.messages().len(),
        None => 0,
    };
    match counted_run(alloc, file, messages) {
        Ok(counts) => Ok(explain_vector(alloc, name, &protocol, pattern, &counts)?),
        Err(fault) if fault.status() < 3 => Ok(explain_start(
            alloc,
            name,
            fault,
            pattern.as_ref(),
        )?),
        Err(fault) => Err(fault),
    }
}
