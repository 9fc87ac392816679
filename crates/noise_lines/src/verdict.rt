//! What comes of a vector file that is tested.

ghost use Rattle.std.specs.Prelude.{◌≡◌, ◌<◌, ◌++◌, IfErr, IfOk, OnOk, slice_get};
ghost use Rattle.noise_names.specs.Lists.{bytes_of};
ghost use Rattle.noise_lines.specs.declared.verdict.Verdict.TheVariants.{Differs};
ghost use Rattle.noise_lines.specs.Verdicts.{IsJudged, IsMet, ReportsUnmet, bytes_in, is_met, named_fault, named_line, shown_line, verdict_text};

use crate::fault_report::fault_line;
use crate::faults::Fault;
use crate::shown::push_shown;
use noise_vectors::first_unmet;
use std::alloc::{AllocError, Global};

/// Where the lines of a run first differ from those that its file expects.
#[derive(Drop)]
pub struct Difference {
    /// The number of the line, from 1 on.
    pub number: usize,
    /// The line that is expected, without its LF; None where no more are expected.
    pub expected: Option<Vec<u8>>,
    /// The line of the run, without its LF; None where the run has no more.
    pub printed: Option<Vec<u8>>,
}

/// What comes of a vector file that is tested.
#[derive(Drop)]
pub enum Verdict {
    /// The lines of its run are those that it expects.
    Met,
    /// The lines of its run are others.
    Differs(Difference),
    /// It can't be read or run.
    CannotRun(Fault),
    /// It expects no lines.
    ExpectsNothing,
    /// It is standard input, which was named before and is read once.
    NamedTwice,
}

impl Verdict {
    /// Whether the file passes.
    pub fn is_met(&self) -> bool
        ensures { result ≡ is_met self.now }
    {
        match self {
            Verdict::Met => true,
            Verdict::Differs(_)
            | Verdict::CannotRun(_)
            | Verdict::ExpectsNothing
            | Verdict::NamedTwice => false,
        }
    }
}

/// The verdict on the lines of a run, by those that are expected.
pub fn judge(lines: &[Vec<u8>], expected: &[Vec<u8>]) -> Result<Verdict, AllocError>
    ensures { IfOk result (IsJudged (bytes_of lines.now) (bytes_of expected.now)) }
{
    if expected.is_empty() {
        return Ok(Verdict::ExpectsNothing);
    }
    match first_unmet(lines, expected) {
        Some(number) => {
            let printed = line_at(lines, number - 1)?;
            let expected = line_at(expected, number - 1)?;
            Ok(Verdict::Differs(Difference {
                number,
                expected,
                printed,
            }))
        }
        None => Ok(Verdict::Met),
    }
}

/// Whether the lines of a run are those that its file expects, where it expects any. The fault reports the number of
/// the first line that differs.
pub fn compare(lines: &[Vec<u8>], expected: &[Vec<u8>]) -> Result<(), Fault>
    ensures met { OnOk result (IsMet (bytes_of expected.now) (bytes_of lines.now)) }
    ensures unmet { IfErr result (ReportsUnmet (bytes_of expected.now) (bytes_of lines.now)) }
{
    if expected.is_empty() {
        return Ok(());
    }
    match first_unmet(lines, expected) {
        Some(number) => Err(Fault::Unmet(number)),
        None => Ok(()),
    }
}

// The line at a place, counted from 0, if there is one.
fn line_at(lines: &[Vec<u8>], place: usize) -> Result<Option<Vec<u8>>, AllocError>
    ensures { IfOk result (λ line. bytes_in line ≡ slice_get (bytes_of lines.now) place) }
{
    match lines.get(place) {
        Some(line) => Ok(Some(line.clone()?)),
        None => Ok(None),
    }
}

/// What is printed of a file of this name: its bytes that aren't printed ASCII as `\x` and two hex digits.
pub fn verdict_lines(alloc: Global, name: &str, verdict: &Verdict) -> Result<Vec<u8>, AllocError>
    ensures { IfOk result (λ text. text.items ≡ verdict_text name.now verdict.now) }
{
    let mut text = Vec::new(alloc);
    match verdict {
        Verdict::Met => push_named("ok", name, b"".as_slice(), &mut text)?,
        Verdict::Differs(difference) => push_difference(alloc, name, difference, &mut text)?,
        Verdict::CannotRun(fault) => {
            let why = fault_line(alloc, *fault)?.into_bytes();
            push_fault(alloc, name, &why, &mut text)?
        }
        Verdict::ExpectsNothing => {
            push_fault(alloc, name, b"no expect lines".as_slice(), &mut text)?
        }
        Verdict::NamedTwice => {
            let why = b"standard input is named twice".as_slice();
            push_fault(alloc, name, why, &mut text)?
        }
    }
    Ok(text)
}

/// The line of what is wrong with a file of this name, which is shown as in `verdict_lines`.
pub fn named_fault(alloc: Global, name: &str, why: &str) -> Result<Vec<u8>, AllocError>
    ensures { IfOk result (λ text. text.items ≡ named_fault name.now why.now) }
{
    let mut text = Vec::new(alloc);
    push_fault(alloc, name, why.as_bytes(), &mut text)?;
    Ok(text)
}

fn push_difference(
    alloc: Global,
    name: &str,
    difference: &Difference,
    text: &mut Vec<u8>,
) -> Result<(), AllocError>
    ensures { OnOk result (text.new.items ≡ text.old.items ++ verdict_text name.now (Differs difference.now)) }
{
    let number = difference.number;
    let rest = format!(in alloc; " at {number}")?;
    push_named("differs", name, rest.as_bytes(), text)?;
    push_shown_line("expected", &difference.expected, text)?;
    push_shown_line("printed", &difference.printed, text)
}

fn push_fault(alloc: Global, name: &str, why: &[u8], text: &mut Vec<u8>) -> Result<(), AllocError>
    ensures { OnOk result (text.new.items ≡ text.old.items ++ named_fault name.now why.now) }
{
    let mut rest = Vec::new(alloc);
    rest.extend_from_slice(b": ".as_slice())?;
    rest.extend_from_slice(why)?;
    push_named("fault", name, &rest, text)
}

// Appends a line of a word, the name, and the rest.
fn push_named(word: &str, name: &str, rest: &[u8], text: &mut Vec<u8>) -> Result<(), AllocError>
    ensures { OnOk result (text.new.items ≡ text.old.items ++ named_line word.now name.now rest.now) }
{
    text.extend_from_slice(word.as_bytes())?;
    text.push(b' ')?;
    push_shown(name.as_bytes(), text)?;
    text.extend_from_slice(rest)?;
    text.push(b'\n')?;
    Ok(())
}

// Appends a line of a word, and the line that it shows, if there is one.
fn push_shown_line(
    word: &str,
    shown: &Option<Vec<u8>>,
    text: &mut Vec<u8>,
) -> Result<(), AllocError>
    ensures { OnOk result (text.new.items ≡ text.old.items ++ shown_line word.now (bytes_in shown.now)) }
{
    text.extend_from_slice(word.as_bytes())?;
    if let Some(line) = shown {
        text.push(b' ')?;
        text.extend_from_slice(line)?;
    }
    text.push(b'\n')?;
    Ok(())
}
