//! The command `test`: vector files are run, and each run is compared with what its file expects.

ghost use Rattle.std.specs.Prelude.{◌≡◌, ◌⊎◌, ◌<◌, ◌≤◌, ◌++◌, ◌&&◌, ◌||◌, ℕ, Bool, List, Option, false, IfErr, IfOk, IfSome, IsTrue, OnOk, length, map, string_bytes, vec_len};
ghost use Rattle.noise_lines.specs.Faults.{status_of};
ghost use Rattle.noise_lines.specs.Prefixes.{AppendsPrefix};
ghost use Rattle.noise_lines.specs.Reported.{error_text};
ghost use Rattle.noise_lines.specs.declared.faults.Fault.{Fault};
ghost use Rattle.noise_lines.specs.declared.faults.Fault.TheVariants.{TooLong, Unreadable};
ghost use Rattle.noise_names.specs.Lists.{bytes_of};
ghost use Rattle.noise_vectors.specs.declared.vector.AllowedEvents.TheVariants.{Any};
ghost use Rattle.noise_run.specs.Ends.{IsFilePattern, IsStartFault};
ghost use Rattle.noise_tool.specs.FileFacts.{AreFactsOfText};
ghost use Rattle.noise_tool.specs.Performing.{IsRunFault};
ghost use Rattle.noise_run.specs.Running.{IsRunOf, expected_in};
ghost use Rattle.noise_tool.specs.Testing.{ComesOf, EndsTest, HaveTested, IsPatternOfText, IsTested, IsTestedFile, RunsTo, SayPiece, TestsPrefix, tested_names, is_input, listed, tally_line, unexpected_lines};
ghost use Rattle.noise_lines.specs.Lines.{lines_text};
ghost use Rattle.noise_lines.specs.Verdicts.{bytes_in, verdict_text};
ghost use Rattle.noise_lines.specs.declared.verdict.Verdict.TheVariants.{CannotRun};
ghost use Rattle.noise_vectors.specs.VectorFile.{IsVectorFile};
ghost use Rattle.noise_vectors.specs.VectorText.{file_text};
ghost use Rattle.noise_tool.specs.Answers.{printed_text};
ghost use Rattle.noise_tool.specs.TracedText.{trace_lines};

use crate::answers::Text;
use crate::file_facts::facts_of;
use crate::printing::{print, text_of, write_text};
use crate::trace_file::{trace_text, with_front};
use noise_compare::Facts;
use noise_explain::difference_line;
use noise_lines::{Difference, Fault, Verdict, flush, judge, verdict_lines, write};
use noise_names::{Pattern, ValidPattern};
use noise_run::{ALL_LINES, Traced, replay, valid_pattern};
use noise_vectors::{AllowedEvents, VectorFile, read_vector};
use std::alloc::{AllocError, Global};
use std::io::Write;

/// Files that are read by their names.
pub trait FilesByName {
    /// The bytes of the file of each name, where they are known.
    ghost bytes_at: { Self → List ℕ → Option (List ℕ) };

    /// Whether it may be that the file of each name can't be read.
    ghost unreadable: { Self → List ℕ → Bool };

    /// The bytes of the file of this name. A file of more than 4194304 bytes is too long.
    fn read(&self, alloc: Global, name: &str) -> Result<Vec<u8>, Fault>
        ensures bytes { IfOk result (λ text. IfSome (bytes_at self.now name.now) (λ bytes. text.items ≡ bytes)) }
        ensures bound { IfOk result (λ text. vec_len text ≤ 4194304) }
        ensures failed { IfErr result (λ fault. fault ≡ Unreadable → IsTrue (unreadable self.now name.now)) }
        ensures fault { IfErr result (λ fault. (status_of fault ≡ 3)
            ⊎ ((fault ≡ TooLong) × IfSome (bytes_at self.now name.now) (λ bytes. 4194304 < length bytes))) };
}

/// What comes of the run of a file, its pattern, and what it gives for a log that is compared.
#[derive(Drop)]
pub(crate) struct TestedRun {
    pub traced: Traced,
    pub pattern: ValidPattern,
    pub facts: Facts,
}

/// Runs the vector file of each name, one after the other, and writes what comes of it, and last how many passed and
/// failed. The exit status is 0 if all passed, and else 1. A file that can't be read or run fails, and the others are
/// still run; 3 where memory runs out or the output can't be written, after which no more files are run. Standard
/// input, `-`, is read once: named again it fails.
///
/// Where the frame of a handshake message differs from what a file expects, a line names the piece of the message that
/// differs first; where all frames agree and a party's state differs, the part of the state. Where traces are wanted,
/// the text of each file whose run differs goes on with the trace of this run, up to the first line that differs and
/// what is shown of the key schedules there. These lines are secrets.
pub fn test<F: FilesByName, O: Write, E: Write>(
    alloc: Global,
    names: &[String],
    traces: bool,
    files: &F,
    out: &mut O,
    err: &mut E,
) -> u8
    ensures status { (result ≤ 1) ⊎ (result ≡ 3) }
    ensures tested { (result ≡ 3) ⊎ IsTested traces (F.bytes_at files.now) (F.unreadable files.now)
        (map string_bytes names.now) (O.contents out.old) (O.contents out.new) result }
    ensures quiet { (result ≡ 3) ⊎ (err.new ≡ err.old) }
    ensures outside { result ≡ 3 → (fault : Fault) × EndsTest fault
        × AppendsPrefix (E.contents err.old) (E.contents err.new) (error_text fault) }

    // However it ends, what comes to the output is a prefix of what it prints of these files.
    ensures prefix { TestsPrefix traces (F.bytes_at files.now) (F.unreadable files.now)
        (map string_bytes names.now) (O.contents out.old) (O.contents out.new) }
{
    match test_all(alloc, names, traces, files, out) {
        Ok(status) => status,
        Err(fault) => print(alloc, Err(fault), out, err),
    }
}

fn test_all<F: FilesByName, O: Write>(
    alloc: Global,
    names: &[String],
    traces: bool,
    files: &F,
    out: &mut O,
) -> Result<u8, Fault>
    ensures status { IfOk result (λ status. status ≤ 1) }
    ensures tested { IfOk result (λ status. IsTested traces (F.bytes_at files.now) (F.unreadable files.now)
        (map string_bytes names.now) (O.contents out.old) (O.contents out.new) status) }
    ensures prefix { IfErr result (λ fault. TestsPrefix traces (F.bytes_at files.now) (F.unreadable files.now)
        (map string_bytes names.now) (O.contents out.old) (O.contents out.new)) }
    ensures fault { IfErr result EndsTest }
{
    let (passed, failed) = test_each(alloc, names, traces, files, out)?;
    let tally = tally(alloc, passed, failed)?;
    write(tally.as_bytes(), out)?;
    flush(out)?;
    Ok(if failed == 0 { 0 } else { 1 })
}

// Tests one file after the other, and counts those that passed, and those that failed. The text of each is written
// before the next file is read.
fn test_each<F: FilesByName, O: Write>(
    alloc: Global,
    names: &[String],
    traces: bool,
    files: &F,
    out: &mut O,
) -> Result<(usize, usize), Fault>
    ensures tested { IfOk result (λ counts. HaveTested traces (F.bytes_at files.now) (F.unreadable files.now)
        (tested_names (map string_bytes names.now)) (O.contents out.old) (O.contents out.new) counts.0 counts.1) }
    ensures prefix { IfErr result (λ fault. TestsPrefix traces (F.bytes_at files.now) (F.unreadable files.now)
        (map string_bytes names.now) (O.contents out.old) (O.contents out.new)) }
    ensures fault { IfErr result EndsTest }
{
    let mut passed: usize = 0;
    let mut failed: usize = 0;
    let mut named = false;
    for name in names {
        let name = name.as_str();
        let again = is_again(name, named);
        named = is_named(name, named);
        let (text, met) = tested_file(alloc, name, again, traces, files)?;
        write_text(&text, out)?;
        if met {
            passed += 1;
        } else {
            failed += 1;
        }
    }
    Ok((passed, failed))
}

/// Whether standard input has this name.
pub(crate) fn is_input(name: &str) -> bool
    ensures { result ≡ is_input name.now }
{
    name == "-"
}

// Whether standard input has this name, and was named before.
fn is_again(name: &str, named: bool) -> bool
    ensures { result ≡ (is_input name.now && named) }
{
    is_input(name) && named
}

// Whether it has this name, or was named before.
fn is_named(name: &str, named: bool) -> bool
    ensures { result ≡ (named || is_input name.now) }
{
    named || is_input(name)
}

// Runs the file of this name, if it isn't standard input again: what is printed of it, and whether it passed.
fn tested_file<F: FilesByName>(
    alloc: Global,
    name: &str,
    again: bool,
    traces: bool,
    files: &F,
) -> Result<(Text, bool), Fault>
    ensures tested { IfOk result (λ tested. IsTestedFile again traces (F.bytes_at files.now name.now)
        (F.unreadable files.now name.now) name.now (printed_text tested.0) tested.1) }
    ensures fault { IfErr result EndsTest }
{
    if again {
        return Ok(unrun(alloc, name, &Verdict::NamedTwice)?);
    }
    match run_named(alloc, name, traces, files) {
        Ok(run) => Ok(tested_run(alloc, name, traces, run)?),
        Err(fault) => Ok(unrun(alloc, name, &fault_verdict(fault)?)?),
    }
}

// What is printed of a run, and whether the file passed.
fn tested_run(
    alloc: Global,
    name: &str,
    traces: bool,
    run: TestedRun,
) -> Result<(Text, bool), AllocError>
    ensures { (known : Option (List ℕ)) (unreadable : Bool) → ComesOf traces known run
        → IfOk result (λ tested. IsTestedFile false traces known unreadable name.now (printed_text tested.0) tested.1) }
{
    let TestedRun {
        traced,
        pattern,
        ..
    } = run;
    let verdict = judge(&traced.outcome.lines, &traced.outcome.expected)?;
    let text = verdict_lines(alloc, name, &verdict)?;
    let Verdict::Differs(difference) = &verdict else {
        return Ok((text_of(alloc, text), verdict.is_met()));
    };
    let line = piece_line(alloc, &pattern, difference)?;
    let head = with_line(text, line)?;
    Ok((
        with_front(alloc, head, traces, traced, difference.number),
        false,
    ))
}

// A text with this line after it, if there is one.
fn with_line(mut text: Vec<u8>, line: Option<Vec<u8>>) -> Result<Vec<u8>, AllocError>
    ensures { IfOk result (λ more. more.items ≡ text.items ++ lines_text (listed (bytes_in line))) }
{
    let Some(line) = line else {
        return Ok(text);
    };
    text.extend_from_slice(&line)?;
    text.push(b'\n')?;
    Ok(text)
}

// The line of the piece of a message at which the frame of a run differs, or of the part of a state, if one does.
fn piece_line(
    alloc: Global,
    pattern: &ValidPattern,
    difference: &Difference,
) -> Result<Option<Vec<u8>>, AllocError>
    ensures { IfOk result (λ line. SayPiece pattern.now (bytes_in difference.now.expected)
        (bytes_in difference.now.printed) (listed (bytes_in line))) }
{
    let Some(printed) = &difference.printed else {
        return Ok(None);
    };
    match &difference.expected {
        Some(expected) => difference_line(alloc, pattern, expected, printed),
        None => unexpected_line(alloc, printed),
    }
}

// What is said of a line of the run where no more are expected.
fn unexpected_line(alloc: Global, printed: &[u8]) -> Result<Option<Vec<u8>>, AllocError>
    ensures { IfOk result (λ line. listed (bytes_in line) ≡ unexpected_lines printed.now) }
{
    if !printed.starts_with(b"state ".as_slice()) {
        return Ok(None);
    }
    let text = b"all frames agree: the file doesn't expect this state".as_slice();
    Ok(Some(Vec::from_slice(alloc, text)?))
}

// What is printed of a file that isn't run, and that it failed.
fn unrun(alloc: Global, name: &str, verdict: &Verdict) -> Result<(Text, bool), AllocError>
    ensures { IfOk result (λ tested. (printed_text tested.0 ≡ verdict_text name.now verdict.now) × (tested.1 ≡ false)) }
{
    let text = verdict_lines(alloc, name, verdict)?;
    Ok((text_of(alloc, text), false))
}

// The verdict on a file that has this fault.
fn fault_verdict(fault: Fault) -> Result<Verdict, Fault>
    ensures unrun { IfOk result (λ verdict. verdict ≡ CannotRun fault) }
    ensures other { OnOk result (¬ EndsTest fault) }
    ensures fault { IfErr result EndsTest }
{
    match fault {
        Fault::Memory | Fault::Unwritable => Err(fault),
        fault => Ok(Verdict::CannotRun(fault)),
    }
}

/// What comes of the run of the file of this name, with its trace where traces are wanted, and its pattern.
pub(crate) fn run_named<F: FilesByName>(
    alloc: Global,
    name: &str,
    traces: bool,
    files: &F,
) -> Result<TestedRun, Fault>
    ensures runs { IfOk result (λ run. IfSome (F.bytes_at files.now name.now) (λ text. RunsTo traces text run.traced)) }
    ensures pattern { IfOk result (λ run. IfSome (F.bytes_at files.now name.now)
        (λ text. IsPatternOfText text run.pattern)) }
    ensures facts { IfOk result
        (λ run. IfSome (F.bytes_at files.now name.now) (λ text. AreFactsOfText text run.facts)) }
    ensures failed { IfErr result (λ fault. fault ≡ Unreadable → IsTrue (F.unreadable files.now name.now)) }
    ensures fault { IfErr result (λ fault. (status_of fault ≡ 3)
        ⊎ IfSome (F.bytes_at files.now name.now) (λ text. IsRunFault Any text fault)) }
{
    let text = files.read(alloc, name)?;
    run_text(alloc, &text, traces)
}

// The same of the file of this text.
fn run_text(alloc: Global, text: &[u8], traces: bool) -> Result<TestedRun, Fault>
    ensures runs { length text.now ≤ 4194304 → IfOk result (λ run. RunsTo traces text.now run.traced) }
    ensures pattern { IfOk result (λ run. IsPatternOfText text.now run.pattern) }
    ensures facts { IfOk result (λ run. AreFactsOfText text.now run.facts) }
    ensures read { IfErr result (λ fault. ¬ (fault ≡ Unreadable)) }
    ensures fault { IfErr result (λ fault. (status_of fault ≡ 3) ⊎ IsRunFault Any text.now fault) }
{
    let vector = read_vector(alloc, text, AllowedEvents::Any)?;
    let pattern = match file_pattern(&vector) {
        Ok(pattern) => pattern,
        Err(fault) => return Err(fault),
    };
    let facts = facts_of(alloc, &vector)?;
    let traced = run_read(alloc, text, vector, traces)?;
    Ok(TestedRun {
        traced,
        pattern,
        facts,
    })
}

// The pattern of a file.
fn file_pattern(file: &VectorFile) -> Result<ValidPattern, Fault>
    ensures pattern { IfOk result (λ pattern. IsFilePattern file.now.block file.now.protocol pattern) }
    ensures fault { IfErr result (λ fault. IsStartFault file.now fault) }
{
    let block = same_block(&file.block)?;
    valid_pattern(block, &file.protocol)
}

// A clone of the pattern that a file spells, if it spells one.
fn same_block(block: &Option<Pattern>) -> Result<Option<Pattern>, AllocError>
    ensures { IfOk result (λ same. same ≡ block.now) }
{
    match block {
        Some(block) => {
            let same = block.clone()?;
            Ok(Some(same))
        }
        None => Ok(None),
    }
}

// What comes of the run of the file that this text is of.
fn run_read(alloc: Global, text: &[u8], vector: VectorFile, traces: bool) -> Result<Traced, Fault>
    requires right { IsVectorFile vector }
    requires text { text.now ≡ file_text vector }
    ensures runs { length text.now ≤ 4194304 → IfOk result (RunsTo traces text.now) }
    ensures read { IfErr result (λ fault. ¬ (fault ≡ Unreadable)) }
    ensures fault { IfErr result (λ fault. (status_of fault ≡ 3) ⊎ IsRunFault Any text.now fault) }
{
    if traces {
        trace_text(alloc, ALL_LINES, text, vector)
    } else {
        untraced(alloc, vector)
    }
}

/// What comes of the run of a file, without a trace.
pub(crate) fn untraced(alloc: Global, file: VectorFile) -> Result<Traced, Fault>
    ensures lines { IfOk result (λ traced. IsRunOf file (bytes_of traced.outcome.lines.items)) }
    ensures plain { IfOk result (λ traced. trace_lines traced ≡ bytes_of traced.outcome.lines.items) }
    ensures expected { IfOk result (λ traced. bytes_of traced.outcome.expected.items ≡ expected_in file.version) }
    ensures fault { IfErr result (λ fault. IsStartFault file fault) }
{
    let outcome = replay(alloc, file)?;
    Ok(Traced {
        outcome,
        start: Vec::new(alloc),
        traces: Vec::new(alloc),
    })
}

// The last line.
fn tally(alloc: Global, passed: usize, failed: usize) -> Result<String, AllocError>
    ensures { IfOk result (λ text. string_bytes text ≡ tally_line passed failed) }
{
    let mut text = format!(in alloc; "{passed} passed, ")?;
    let rest = format!(in alloc; "{failed} failed\n")?;
    text.push_str(rest.as_str())?;
    Ok(text)
}
