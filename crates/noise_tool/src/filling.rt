//! The command `template` with a file of values: they stand in the vector file in the place of its placeholders.

ghost use Rattle.std.specs.Prelude.{◌≡◌, ◌⊎◌, ◌<◌, IfErr, IfOk, IfSome, Some, length, string_bytes};
ghost use Rattle.noise_lines.specs.Faults.{status_of};
ghost use Rattle.noise_lines.specs.declared.faults.Fault.TheVariants.{Memory, TooLong};
ghost use Rattle.noise_names.specs.Validity.{IsValid};
ghost use Rattle.noise_tool.specs.Answers.{IsOutput, IsSilent, answer_value};
ghost use Rattle.noise_tool.specs.Filling.{IsFillAnswer, IsFilledBy, IsUnreadKeys, IsWordFault, IsWordPattern, IsWordText, IsWrongKeys};

use crate::answers::Answer;
use crate::pattern_names::pattern_text;
use crate::testing::{FilesByName, is_input};
use noise_explain::{KeyFileFault, names_protocol, read_given, template, wrong_line_text};
use noise_lines::{
    Fault, Verdict, named_fault, named_valid_pattern, spelled_valid_pattern, verdict_lines,
};
use noise_names::ValidPattern;
use noise_words::Filled;
use std::alloc::Global;

/// The vector file of a pattern with the values of a file. The exit status is 0 without a fault; that of `template`
/// where the pattern has one; 2 where the file of values is wrong or too long; 3 where it can't be read, the output
/// can't be written, or memory runs out. What is wrong with the file of values is told with its name.
pub fn fill_template<F: FilesByName>(
    alloc: Global,
    names: &Filled,
    files: &F,
) -> Result<Answer, Fault>
    ensures made { IfOk result (λ answer. IsFillAnswer names.now (F.bytes_at files.now) (F.unreadable files.now)
        (answer_value answer)) }
    ensures fault { IfErr result (λ fault. (status_of fault ≡ 3)
        ⊎ IsWordFault (string_bytes names.now.pattern) (F.bytes_at files.now) (F.unreadable files.now) fault) }
    ensures silent { IfOk result IsSilent }
{
    let (word, keys) = (names.pattern.as_str(), names.keys.as_str());
    if is_input(word) && is_input(keys) {
        let line = verdict_lines(alloc, "-", &Verdict::NamedTwice)?;
        return Ok(Answer::refusal(alloc, line, 2));
    }
    let pattern = word_pattern(alloc, word, files)?;
    match files.read(alloc, keys) {
        Ok(text) => fill(alloc, &pattern, keys, &text),
        Err(fault) => refuse_keys(alloc, keys, fault),
    }
}

// That a file of values isn't read; memory that runs out is handed on.
fn refuse_keys(alloc: Global, keys: &str, fault: Fault) -> Result<Answer, Fault>
    ensures refused { IfOk result (λ answer. IsUnreadKeys keys.now fault (answer_value answer)) }
    ensures fault { IfErr result (λ other. (status_of fault ≡ 3) ⊎ (fault ≡ TooLong) → status_of other ≡ 3) }
    ensures silent { IfOk result IsSilent }
{
    match fault {
        Fault::TooLong | Fault::Unreadable => {
            let line = verdict_lines(alloc, keys, &Verdict::CannotRun(fault))?;
            Ok(Answer::refusal(alloc, line, fault.status()))
        }
        other => Err(other),
    }
}

// The valid pattern that a word names: that of a protocol name, that of the file of this name, or where this can't be
// read that of a pattern name.
fn word_pattern<F: FilesByName>(alloc: Global, word: &str, files: &F) -> Result<ValidPattern, Fault>
    ensures named { IfOk result (λ p. IsWordPattern word.now (F.bytes_at files.now) (F.unreadable files.now) p) }
    ensures fault { IfErr result (λ fault. (status_of fault ≡ 3)
        ⊎ IsWordFault word.now (F.bytes_at files.now) (F.unreadable files.now) fault) }
{
    if names_protocol(word) {
        return named_valid_pattern(word.as_bytes());
    }
    let text = word_text(alloc, word, files)?;
    spelled_valid_pattern(&text)
}

// The text of the file of this name, or where it can't be read of the pattern of this name.
fn word_text<F: FilesByName>(alloc: Global, word: &str, files: &F) -> Result<Vec<u8>, Fault>
    ensures text { IfOk result (λ text. IsWordText word.now (F.bytes_at files.now) (F.unreadable files.now) text.items) }
    ensures fault { IfErr result (λ fault. (status_of fault ≡ 3)
        ⊎ ((fault ≡ TooLong) × IfSome (F.bytes_at files.now word.now) (λ bytes. 4194304 < length bytes))) }
{
    match files.read(alloc, word) {
        Ok(text) => Ok(text),
        Err(Fault::Unreadable) => match pattern_text(alloc, word)? {
            Some(text) => Ok(text),
            None => Err(Fault::Unreadable),
        },
        Err(fault) => Err(fault),
    }
}

// What is answered of a pattern and a file of values of this name and text.
fn fill(alloc: Global, valid: &ValidPattern, keys: &str, text: &[u8]) -> Result<Answer, Fault>
    ensures made { IfOk result (λ answer. (IsValid valid.now × IsFilledBy valid.now (Some text.now)
        (answer_value answer).out × IsOutput (answer_value answer) 0)
        ⊎ IsWrongKeys valid.now keys.now (Some text.now) (answer_value answer)) }
    ensures fault { IfErr result (λ fault. fault ≡ Memory) }
    ensures silent { IfOk result IsSilent }
{
    let pattern = valid.pattern();
    match read_given(alloc, pattern, text) {
        Ok(given) => Ok(Answer::output(alloc, template(alloc, pattern, &given)?, 0)),
        Err(KeyFileFault::Memory) => Err(Fault::Memory),
        Err(KeyFileFault::Line(number, why)) => {
            let why = wrong_line_text(alloc, pattern, number, why)?;
            let line = named_fault(alloc, keys, why.as_str())?;
            Ok(Answer::refusal(alloc, line, 2))
        }
    }
}
