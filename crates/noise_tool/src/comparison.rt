//! The command `compare`: a key schedule that was logged is compared with that of a vector file.

ghost use Rattle.std.specs.Prelude.{◌≡◌, ◌++◌, ◌≤◌, ℕ, List, true, IfErr, IfOk, IfSome, IsTrue, map, string_bytes};
ghost use Rattle.noise_compare.specs.Cut.{cut_text};
ghost use Rattle.noise_compare.specs.Lines.{words_in, line_words};
ghost use Rattle.noise_compare.specs.Plain.{skipped_text};
ghost use Rattle.noise_lines.specs.Faults.{status_of};
ghost use Rattle.noise_lines.specs.Reported.{fault_line};
ghost use Rattle.noise_lines.specs.Verdicts.{named_fault};
ghost use Rattle.noise_lines.specs.declared.faults.Fault.TheVariants.{Unreadable};
ghost use Rattle.noise_lines.specs.TracedLines.{traces_of};
ghost use Rattle.noise_names.specs.Lists.{bytes_of};
ghost use Rattle.noise_tool.specs.Comparing.{Compares, HasFacts, IfFacts, IfMade, IfUnread, IfWrong, IsCompareAnswer, IsListed, IsUncompared, IsWrongLog, NamesInputTwice, compared_name, finding_status, schedule_of, uncompared_line};
ghost use Rattle.noise_tool.specs.Answers.{IsSilent, answer_value};
ghost use Rattle.noise_tool.specs.FileFacts.{AreFactsOfText};
ghost use Rattle.noise_tool.specs.Testing.{EndsTest, RunsTo};
ghost use Rattle.noise_tool.specs.declared.comparison.Comparison.TheVariants.{Wrong};
ghost use Rattle.noise_tool.specs.declared.comparison.Uncompared.TheVariants.{NamedTwice, WrongFile};

use crate::answers::Answer;
use crate::testing::{FilesByName, is_input, run_named};
use noise_compare::{
    Facts, Finding, Line, LogFault, LogReport, compare_lines, known_lines, plain_text, push_cut,
    push_schedule, push_skipped, read_log, whole_lines, written_lines,
};
use noise_documents::found_facts;
use noise_json::Object;
use noise_lines::{Fault, Verdict, named_fault, verdict_lines};
use noise_run::Traced;
use noise_words::Compared;
use std::alloc::{AllocError, Global};

/// What comes of a log and a vector file.
#[derive(Drop)]
pub enum Comparison {
    /// They are compared. These facts of it stand in a document.
    Made(LogReport, Object),
    /// One of them is wrong.
    Wrong(Uncompared),
    /// One of them can't be read.
    Unread(ComparedFile),
}

/// One of the two files that are compared.
#[derive(Clone, Copy)]
pub enum ComparedFile {
    /// The log.
    Log,
    /// The vector file.
    Vector,
}

/// Why a log isn't compared with a vector file.
#[derive(Clone, Copy)]
pub enum Uncompared {
    /// Both are standard input, which is read once.
    NamedTwice,
    /// The log has more bytes than are read.
    LongLog,
    /// The vector file isn't run.
    WrongFile(Fault),
    /// The log has no line of a key schedule.
    NoLine,
    /// The line of this number of the log, from 1 on, is the first that begins as one of a key schedule and has more or
    /// fewer than twelve words.
    WrongLine(usize),
}

/// Compares the log of a key schedule with the key schedule of a vector file, as `trace` prints it: the first
/// difference, and the mistakes that give its values or what these show. These lines are secrets. The exit status is 0
/// where all lines of the log agree; 1 where one differs, or the log ends before a step of its party's handshake; 2
/// where the log or the file is wrong, which is told on the error output; 3 where a file can't be read, which is told
/// there with its name, the output can't be written, or memory runs out.
pub fn compare_log<F: FilesByName>(
    alloc: Global,
    names: &Compared,
    files: &F,
) -> Result<Answer, Fault>
    ensures made { IfOk result (λ answer. IsCompareAnswer names.now (F.bytes_at files.now) (F.unreadable files.now)
        (answer_value answer)) }
    ensures fault { IfErr result EndsTest }
    ensures silent { IfOk result IsSilent }
{
    match compare_named(alloc, names, files)? {
        Comparison::Made(report, _) => {
            let status = finding_status(report.finding);
            Ok(Answer::output(alloc, report.text, status))
        }
        Comparison::Wrong(why) => Ok(Answer::refusal(
            alloc,
            uncompared_line(alloc, names, why)?,
            2,
        )),
        Comparison::Unread(which) => Ok(Answer::refusal(
            alloc,
            unread_line(alloc, names, which)?,
            3,
        )),
    }
}

/// The status for what was found.
pub(crate) fn finding_status(finding: Finding) -> u8
    ensures status { result ≡ finding_status finding }
    ensures few { result ≤ 1 }
{
    match finding {
        Finding::Agrees => 0,
        Finding::Ends | Finding::Differs => 1,
    }
}

/// What comes of the log and the vector file of these names.
pub(crate) fn compare_named<F: FilesByName>(
    alloc: Global,
    names: &Compared,
    files: &F,
) -> Result<Comparison, Fault>
    ensures made { IfOk result (λ made. IfMade made
        (λ report. IfSome (F.bytes_at files.now (string_bytes names.now.log))
        (λ log. IfSome (F.bytes_at files.now (string_bytes names.now.file)) (λ file. Compares names.now.all log file report)))) }
    ensures facts { IfOk result (λ made. IfFacts made
        (λ report facts. IfSome (F.bytes_at files.now (string_bytes names.now.log))
        (λ log. IfSome (F.bytes_at files.now (string_bytes names.now.file)) (λ file. HasFacts log file report facts)))) }
    ensures wrong { IfOk result (λ made. IfWrong made
        (IsUncompared names.now (F.bytes_at files.now (string_bytes names.now.log)) (F.bytes_at files.now
        (string_bytes names.now.file)))) }
    ensures unread { IfOk result (λ made. IfUnread made
        (λ which. IsTrue (F.unreadable files.now (compared_name names.now which)))) }
    ensures twice { IfOk result (λ made. NamesInputTwice names.now → made ≡ Wrong NamedTwice) }
    ensures fault { IfErr result EndsTest }
{
    let (log_name, file_name) = (names.log.as_str(), names.file.as_str());
    if is_input(log_name) && is_input(file_name) {
        return Ok(Comparison::Wrong(Uncompared::NamedTwice));
    }
    let log = match files.read(alloc, log_name) {
        Ok(log) => log,
        Err(Fault::TooLong) => return Ok(Comparison::Wrong(Uncompared::LongLog)),
        Err(Fault::Unreadable) => return Ok(Comparison::Unread(ComparedFile::Log)),
        Err(fault) => return Err(fault),
    };
    match run_named(alloc, file_name, true, files) {
        Ok(run) => compare_traced(alloc, names.all, &log, &run.facts, &run.traced),
        Err(Fault::Unreadable) => Ok(Comparison::Unread(ComparedFile::Vector)),
        Err(fault) => wrong_file(fault),
    }
}

// What comes of the log of this text and a run that is traced.
fn compare_traced(
    alloc: Global,
    all: bool,
    log: &[u8],
    facts: &Facts,
    traced: &Traced,
) -> Result<Comparison, Fault>
    ensures made { (file : List ℕ) → RunsTo true file traced.now → AreFactsOfText file facts.now
        → IfOk result (λ made. IfMade made (Compares all log.now file)) }
    ensures facts { (file : List ℕ) → RunsTo true file traced.now
        → IfOk result (λ made. IfFacts made (HasFacts log.now file)) }
    ensures wrong { IfOk result (λ made. IfWrong made (IsWrongLog log.now)) }
    ensures read { IfOk result (λ made. IfUnread made (λ which. ⊥)) }
    ensures fault { IfErr result EndsTest }
{
    let right = schedule(alloc, traced)?;
    let whole = whole_lines(alloc, log)?;
    let plain = plain_text(alloc, &whole)?;
    match read_log(alloc, &plain) {
        Ok(lines) => {
            if lines.is_empty() {
                return Ok(Comparison::Wrong(Uncompared::NoLine));
            }
            let report = compare_lines(alloc, facts, &lines, &right)?;
            let others = written_lines(alloc, &whole)?.saturating_sub(lines.len());
            let known = listed(alloc, all, facts, &lines, &right)?;
            let found = found_facts(alloc, report.finding, &lines, &right)?;
            Ok(Comparison::Made(with_others(alloc, report, others, log, &known)?, found))
        }
        Err(LogFault::Line(number)) => Ok(Comparison::Wrong(Uncompared::WrongLine(number))),
        Err(LogFault::Memory) => Err(Fault::Memory),
    }
}

// The mistakes that are known at the step of the first difference, where all are wanted.
fn listed(
    alloc: Global,
    all: bool,
    facts: &Facts,
    log: &[Line<'_>],
    right: &[Line<'_>],
) -> Result<Vec<u8>, AllocError>
    ensures { IfOk result (λ text. IsListed all facts.now right.now log.now text.items) }
{
    match all {
        true => known_lines(alloc, facts, log, right),
        false => Ok(Vec::new(alloc)),
    }
}

// A report, with the number of the lines of its log that are passed over, that its last line is cut off or its last
// nonce may be, and the mistakes that are known.
fn with_others(
    alloc: Global,
    report: LogReport,
    others: usize,
    log: &[u8],
    known: &[u8],
) -> Result<LogReport, AllocError>
    ensures finding { IfOk result (λ more. more.finding ≡ report.finding) }
    ensures text { IfOk result (λ more. more.text.items
        ≡ ((report.text.items ++ skipped_text others) ++ cut_text log.now) ++ known.now) }
{
    let LogReport { finding, mut text } = report;
    push_skipped(alloc, others, &mut text)?;
    push_cut(alloc, log, &mut text)?;
    text.extend_from_slice(known)?;
    Ok(LogReport { finding, text })
}

// The lines of the key schedule of a run.
fn schedule(alloc: Global, traced: &Traced) -> Result<Vec<Line<'_>>, AllocError>
    ensures { IfOk result (λ lines. map words_in lines.items
        ≡ map line_words (schedule_of (bytes_of traced.now.start.items) (traces_of traced.now.traces.items))) }
{
    let mut lines = Vec::new(alloc);
    push_schedule(alloc, &traced.start, &mut lines)?;
    for trace in &traced.traces {
        push_schedule(alloc, trace, &mut lines)?;
    }
    Ok(lines)
}

// That a vector file isn't run; memory that runs out is handed on.
fn wrong_file(fault: Fault) -> Result<Comparison, Fault>
    ensures wrong { IfOk result (λ made. (made ≡ Wrong (WrongFile fault)) × (status_of fault ≤ 2)) }
    ensures fault { IfErr result (λ other. (other ≡ fault) × (status_of other ≡ 3)) }
{
    if fault.status() == 3 {
        return Err(fault);
    }
    Ok(Comparison::Wrong(Uncompared::WrongFile(fault)))
}

/// The line that says which file can't be read.
pub(crate) fn unread_line(
    alloc: Global,
    names: &Compared,
    which: ComparedFile,
) -> Result<Vec<u8>, AllocError>
    ensures { IfOk result
        (λ line. line.items ≡ named_fault (compared_name names.now which) (fault_line Unreadable)) }
{
    let name = match which {
        ComparedFile::Log => names.log.as_str(),
        ComparedFile::Vector => names.file.as_str(),
    };
    verdict_lines(alloc, name, &Verdict::CannotRun(Fault::Unreadable))
}

/// The line that says why a log isn't compared.
pub(crate) fn uncompared_line(
    alloc: Global,
    names: &Compared,
    why: Uncompared,
) -> Result<Vec<u8>, AllocError>
    ensures { IfOk result (λ line. line.items ≡ uncompared_line names.now why) }
{
    let (log, file) = (names.log.as_str(), names.file.as_str());
    match why {
        Uncompared::NamedTwice => verdict_lines(alloc, "-", &Verdict::NamedTwice),
        Uncompared::LongLog => verdict_lines(alloc, log, &Verdict::CannotRun(Fault::TooLong)),
        Uncompared::WrongFile(fault) => verdict_lines(alloc, file, &Verdict::CannotRun(fault)),
        Uncompared::NoLine => named_fault(alloc, log, "no line of a key schedule"),
        Uncompared::WrongLine(number) => {
            let why = format!(in alloc; "line {number} trace")?;
            named_fault(alloc, log, why.as_str())
        }
    }
}
