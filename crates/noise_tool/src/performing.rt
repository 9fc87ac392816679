//! Doing what the command line asks for.

ghost use Rattle.std.specs.Prelude.{◌≡◌, ◌⊎◌, ◌≤◌, List, Some, true, IfErr, IfOk, option_map, vec_len};
ghost use Rattle.noise_lines.specs.Faults.{status_of};
ghost use Rattle.noise_vectors.specs.declared.vector.AllowedEvents.TheVariants.{VersionOne};
ghost use Rattle.noise_tool.specs.Answers.{IsSilent, answer_value, fault_value};
ghost use Rattle.noise_tool.specs.Performing.{AreMet, Converts, DifferAt, GivesText, IfCommand, IfCompare, IfDocument, IfExplain, IfFill, IfTest, IsCommandAnswer, IsDone, IsFault, IsKnownAs, IsLongFile, IsPlain, IsReadVector, IsRunFault, IsRunText, IsTooLongConverted, IsUnmet, LeavesAtTwo, OfAsked, file_of, takes_pattern};
ghost use Rattle.noise_tool.specs.Templating.{IsTemplateFault, IsTemplated};
ghost use Rattle.noise_tool.specs.Outcomes.{CommandOutcome, CompareOutcome, DocumentOutcome, ExplainOutcome, FillOutcome, TestOutcome};
ghost use Rattle.noise_lines.specs.declared.faults.Fault.TheVariants.{TooLong};
ghost use Rattle.noise_tool.specs.PatternNames.{NamesText};

use crate::answers::Answer;
use crate::compared_document::document_answer;
use crate::comparison::compare_log;
use crate::explanation::explain_files;
use crate::filling::fill_template;
use crate::pattern_names::{pattern_text, show_word};
use crate::printing::print;
use crate::testing::{FilesByName, test, untraced};
use crate::trace_file::{run_answer, trace_chosen};
use noise_explain::{named_template, names_protocol, spelled_template};
use noise_lines::{Fault, check, convert, list};
use noise_run::{conversions_meet_themselves, replay};
use noise_vectors::{AllowedEvents, VectorFile, read_vector};
use noise_words::{Chosen, Order};
use std::alloc::Global;
use std::io::Write;

/// Does what the words of the command line ask for, and gives the exit status: `test`, `explain`, `compare` or
/// `template` with a file of values, or a command on at most one file, on the bytes of the file that the words name.
/// `list` and `show` read no file, nor does `template` of a protocol name. Where the file of `check` or `template` can't
/// be read and its name is that of a pattern, the command is done on this pattern's text.
///
/// Of a command on at most one file the status is 0 without a fault; 1 where a pattern breaks a rule of validity or has
/// fewer messages than a psk place needs, the parties of a vector file can't be made, or the lines of its run aren't
/// those that it expects; 2 where the name is none, is of no fundamental pattern, or the file isn't a pattern text or a
/// vector file, or what it is converted to is too long; 3 where the file can't be read, the output can't be written, or
/// memory runs out. A refused write to `err` leaves the status. At each status what comes to the output is a prefix of a
/// text that is right for status 0 or 1, and what comes to `err` is a prefix of the line of the fault.
pub fn perform<F: FilesByName, O: Write, E: Write>(
    alloc: Global,
    order: &Order,
    files: &F,
    out: &mut O,
    err: &mut E,
) -> u8
    ensures status { result ≤ 3 }
    ensures done { IfCommand order.now (λ chosen. CommandOutcome O.contents E.contents (F.bytes_at files.now)
        (F.unreadable files.now) chosen out.old out.new err.old err.new result) }
    ensures tested { IfTest order.now (λ asked. TestOutcome O.contents E.contents (F.bytes_at files.now)
        (F.unreadable files.now) asked out.old out.new err.old err.new result) }
    ensures explained { IfExplain order.now (λ asked. ExplainOutcome O.contents E.contents (F.bytes_at files.now)
        (F.unreadable files.now) asked out.old out.new err.old err.new result) }
    ensures compared { IfCompare order.now (λ names. CompareOutcome O.contents E.contents (F.bytes_at files.now)
        (F.unreadable files.now) names out.old out.new err.old err.new result) }
    ensures documented { IfDocument order.now (λ asked. DocumentOutcome O.contents E.contents (F.bytes_at files.now)
        (F.unreadable files.now) asked out.old out.new err.old err.new result) }
    ensures filled { IfFill order.now (λ names. FillOutcome O.contents E.contents (F.bytes_at files.now)
        (F.unreadable files.now) names out.old out.new err.old err.new result) }
    ensures unwritten { result ≡ 2 → LeavesAtTwo order.now out.old out.new }
    ensures quiet { result ≡ 0 → err.new ≡ err.old }
{
    match order {
        Order::Command(chosen) => print(alloc, command_answer(alloc, chosen, files), out, err),
        Order::Test(asked) => test(alloc, &asked.files, asked.traces, files, out, err),
        Order::Explain(asked) => {
            let made = explain_files(alloc, &asked.files, asked.fixes, files);
            print(alloc, made, out, err)
        }
        Order::Compare(names) => print(alloc, compare_log(alloc, names, files), out, err),
        Order::Document(asked) => print(alloc, document_answer(alloc, asked, files), out, err),
        Order::Fill(names) => print(alloc, fill_template(alloc, names, files), out, err),
    }
}

// What a command on at most one file answers.
fn command_answer<F: FilesByName>(
    alloc: Global,
    chosen: &Chosen,
    files: &F,
) -> Result<Answer, Fault>
    ensures made { IfOk result (λ answer. IsCommandAnswer (F.bytes_at files.now) (F.unreadable files.now) chosen.now
        (answer_value answer)) }
    ensures fault { IfErr result (λ fault. IsCommandAnswer (F.bytes_at files.now) (F.unreadable files.now) chosen.now
        (fault_value fault)) }
    ensures silent { IfOk result IsSilent }
{
    let text = asked_text(alloc, chosen, files)?;
    answer_on(alloc, chosen, &text)
}

// The bytes that a command is done on: those of the file that it names, if it names one, or of a pattern's text.
fn asked_text<F: FilesByName>(alloc: Global, chosen: &Chosen, files: &F) -> Result<Vec<u8>, Fault>
    ensures text { IfOk result (λ text. OfAsked (F.bytes_at files.now) (F.unreadable files.now) chosen.now
        (IsKnownAs text.items)) }
    ensures bound { IfOk result (λ text. vec_len text ≤ 4194304) }
    ensures fault { IfErr result (λ fault. (status_of fault ≡ 3) ⊎ ((fault ≡ TooLong)
        × OfAsked (F.bytes_at files.now) (F.unreadable files.now) chosen.now (IsLongFile chosen.now))) }
{
    let Some(name) = asked_file(chosen) else {
        return Ok(Vec::new(alloc));
    };
    match files.read(alloc, name) {
        Ok(text) => Ok(text),
        Err(Fault::Unreadable) => named_text(alloc, chosen, name),
        Err(fault) => Err(fault),
    }
}

// The text of the pattern that has the name of a file that can't be read, where the command takes one.
fn named_text(alloc: Global, chosen: &Chosen, name: &str) -> Result<Vec<u8>, Fault>
    ensures text { IfOk result (λ text. (takes_pattern chosen.now ≡ true) × NamesText name.now text.items) }
    ensures bound { IfOk result (λ text. vec_len text ≤ 4194304) }
    ensures fault { IfErr result (λ fault. status_of fault ≡ 3) }
{
    if !takes_pattern(chosen) {
        return Err(Fault::Unreadable);
    }
    match pattern_text(alloc, name)? {
        Some(text) => Ok(text),
        None => Err(Fault::Unreadable),
    }
}

// The name of the file that a command reads, if it reads one.
fn asked_file(chosen: &Chosen) -> Option<&str>
    ensures { option_map (λ name. name.now) result ≡ file_of chosen.now }
{
    match chosen {
        Chosen::List | Chosen::Show(_) => None,
        Chosen::Template(word) if names_protocol(word.as_str()) => None,
        Chosen::Check(name)
        | Chosen::Template(name)
        | Chosen::Talk(name)
        | Chosen::Replay(name)
        | Chosen::Convert(name) => Some(name.as_str()),
        Chosen::Trace(traced) => Some(traced.file.as_str()),
    }
}

// Whether a command takes the name of a pattern, too.
fn takes_pattern(chosen: &Chosen) -> bool
    ensures { result ≡ takes_pattern chosen.now }
{
    matches!(chosen, Chosen::Check(_) | Chosen::Template(_))
}

// What a command answers on these bytes: those of the file that it names, or of a pattern's text. `list`, `show` and
// `template` of a protocol name read none of them.
fn answer_on(alloc: Global, chosen: &Chosen, text: &[u8]) -> Result<Answer, Fault>
    ensures made { IfOk result (λ answer. GivesText (IsDone chosen.now (Some text.now))
        (IsUnmet chosen.now (Some text.now)) (answer_value answer)) }
    ensures fault { IfErr result (λ fault. (status_of fault ≡ 3) ⊎ IsFault chosen.now (Some text.now) fault) }
    ensures silent { IfOk result IsSilent }
{
    match chosen {
        Chosen::List => Ok(Answer::output(alloc, list(alloc)?, 0)),
        Chosen::Show(word) => Ok(Answer::output(alloc, show_word(alloc, word.as_str())?, 0)),
        Chosen::Check(_) => Ok(Answer::output(alloc, check(alloc, text)?, 0)),
        Chosen::Template(word) => Ok(Answer::output(
            alloc,
            template_text(alloc, word.as_str(), text)?,
            0,
        )),
        Chosen::Talk(_) => run_file(alloc, AllowedEvents::SayOnly, text),
        Chosen::Replay(_) => run_file(alloc, AllowedEvents::Any, text),
        Chosen::Convert(_) => Ok(Answer::output(alloc, converted_file(alloc, text)?, 0)),
        Chosen::Trace(traced) => trace_chosen(alloc, traced, text),
    }
}

// The template of the pattern that has this protocol name, or else of the one that the file spells.
fn template_text(alloc: Global, word: &str, text: &[u8]) -> Result<Vec<u8>, Fault>
    ensures made { IfOk result (λ template. IsTemplated word.now (Some text.now) template.items) }
    ensures fault { IfErr result (λ fault. IsTemplateFault word.now (Some text.now) fault) }
{
    if names_protocol(word) {
        named_template(alloc, word.as_bytes())
    } else {
        spelled_template(alloc, text)
    }
}

// What the text of a vector file of what is allowed says.
pub(crate) fn vector_of(
    alloc: Global,
    allowed: AllowedEvents,
    text: &[u8],
) -> Result<VectorFile, Fault>
    ensures read { IfOk result (λ file. IsReadVector allowed text.now file) }
    ensures fault { IfErr result (λ fault. (status_of fault ≡ 3) ⊎ IsRunFault allowed text.now fault) }
{
    Ok(read_vector(alloc, text, allowed)?)
}

// The lines of two parties on a vector file, and whether they are what the file expects.
fn run_file(alloc: Global, allowed: AllowedEvents, text: &[u8]) -> Result<Answer, Fault>
    ensures made { IfOk result (λ answer. GivesText (IsRunText IsPlain AreMet text.now)
        (λ number. IsRunText IsPlain (DifferAt number) text.now) (answer_value answer)) }
    ensures fault { IfErr result (λ fault. (status_of fault ≡ 3) ⊎ IsRunFault allowed text.now fault) }
    ensures silent { IfOk result IsSilent }
{
    let vector = vector_of(alloc, allowed, text)?;
    let traced = untraced(alloc, vector)?;
    Ok(run_answer(alloc, traced)?)
}

// A version 1 vector file as one of version 2.
fn converted_file(alloc: Global, text: &[u8]) -> Result<Vec<u8>, Fault>
    ensures converted { IfOk result (λ converted. Converts text.now converted.items) }
    ensures fault { IfErr result
        (λ fault. (status_of fault ≡ 3) ⊎ IsRunFault VersionOne text.now fault ⊎ IsTooLongConverted text.now fault) }
{
    let vector = vector_of(alloc, AllowedEvents::VersionOne, text)?;
    let outcome = replay(alloc, vector)?;
    conversions_meet_themselves();
    convert(alloc, text, &outcome.lines)
}
