//! Printing what a command answers.

ghost use Rattle.std.specs.Prelude.{◌≡◌, ◌≤◌, ◌==◌, ◌&&◌, ◌++◌, ◌∷◌, [], IfErr, IfOk, OnOk, length};
ghost use Rattle.std.specs.Io.KnownBytes.{Appends};
ghost use Rattle.noise_lines.specs.Prefixes.{AppendsPrefix};
ghost use Rattle.noise_lines.specs.Reported.{fault_line};
ghost use Rattle.noise_lines.specs.declared.faults.Fault.TheVariants.{Unwritable};
ghost use Rattle.noise_tool.specs.Answers.{AnswerValue, IsPrinted, IsSilent, IsToldOf, answer_value, fault_value, printed_text};

use crate::answers::{Answer, Text};
use noise_lines::{Fault, fault_line, flush, write, write_traced};
use std::alloc::{AllocError, Global};
use std::io::Write;

impl Answer {
    /// The answer of these parts.
    pub fn new(out: Text, err: Vec<u8>, status: u8) -> Answer
        requires few { status ≤ 3 }
        requires quiet { status ≡ 0 → err.items ≡ [] }
        ensures out { result.out ≡ out }
        ensures err { result.err ≡ err }
        ensures status { result.status ≡ status }
    {
        Answer { out, err, status }
    }

    /// A text on the output.
    pub fn output(alloc: Global, text: Vec<u8>, status: u8) -> Answer
        requires few { status ≤ 3 }
        ensures out { printed_text result.out ≡ text.items }
        ensures err { result.err.items ≡ [] }
        ensures status { result.status ≡ status }
    {
        Answer {
            out: text_of(alloc, text),
            err: Vec::new(alloc),
            status,
        }
    }

    /// A line on the error output.
    pub fn refusal(alloc: Global, line: Vec<u8>, status: u8) -> Answer
        requires some { 1 ≤ status }
        requires few { status ≤ 3 }
        ensures out { printed_text result.out ≡ [] }
        ensures err { result.err.items ≡ line.items }
        ensures status { result.status ≡ status }
    {
        Answer {
            out: text_of(alloc, Vec::new(alloc)),
            err: line,
            status,
        }
    }
}

/// The text of these bytes.
pub fn text_of(alloc: Global, head: Vec<u8>) -> Text
    ensures { printed_text result ≡ head.items }
{
    Text {
        head,
        start: Vec::new(alloc),
        lines: Vec::new(alloc),
        traces: Vec::new(alloc),
    }
}

/// Prints what comes of a command, and gives the exit status: that of the answer, or of the fault, whose line is
/// printed, a broken rule's to `out` and any other to `err`; 3 where memory for that line runs out, or where a write to
/// `out` is refused. A refused write to `err` leaves the status.
pub fn print<O: Write, E: Write>(
    alloc: Global,
    made: Result<Answer, Fault>,
    out: &mut O,
    err: &mut E,
) -> u8
    ensures status { result ≤ 3 }
    ensures told { (told : AnswerValue) × IsToldOf made told
        × IsPrinted O.contents E.contents told out.old out.new err.old err.new result }
    ensures unwritten { IfOk made IsSilent → result ≡ 2 → out.new ≡ out.old }
    ensures quiet { result ≡ 0 → err.new ≡ err.old }
{
    match made {
        Ok(answer) => print_answer(&answer, out, err),
        Err(fault) => match fault_answer(alloc, fault) {
            Ok(answer) => print_answer(&answer, out, err),
            Err(_) => {
                let _ = write(b"out of memory\n".as_slice(), err);
                3
            }
        },
    }
}

// What is told of a fault.
fn fault_answer(alloc: Global, fault: Fault) -> Result<Answer, AllocError>
    ensures { IfOk result (λ answer. answer_value answer ≡ fault_value fault) }
{
    let line = line_of(alloc, fault)?;
    match fault {
        Fault::Rule(_) => Ok(Answer::output(alloc, line, fault.status())),
        _ => Ok(Answer::refusal(alloc, line, fault.status())),
    }
}

/// The line of a fault, with an LF after it.
pub fn line_of(alloc: Global, fault: Fault) -> Result<Vec<u8>, AllocError>
    ensures { IfOk result (λ line. line.items ≡ fault_line fault ++ 10 ∷ []) }
{
    let mut line = fault_line(alloc, fault)?.into_bytes();
    line.push(b'\n')?;
    Ok(line)
}

fn print_answer<O: Write, E: Write>(answer: &Answer, out: &mut O, err: &mut E) -> u8
    ensures status { result ≤ 3 }
    ensures printed { IsPrinted O.contents E.contents (answer_value answer.now) out.old out.new err.old err.new result }
    ensures unwritten { IsSilent answer.now → result ≡ 2 → out.new ≡ out.old }
    ensures quiet { result ≡ 0 → err.new ≡ err.old }
{
    match print_text(&answer.out, out) {
        Ok(()) => {
            print_line(&answer.err, err);
            answer.status
        }
        Err(_) => {
            let _ = write(b"cannot write\n".as_slice(), err);
            3
        }
    }
}

// Prints a text, if it isn't empty.
fn print_text<O: Write>(text: &Text, out: &mut O) -> Result<(), Fault>
    ensures written { OnOk result (Appends (O.contents out.old) (O.contents out.new) (printed_text text.now)) }
    ensures prefix { AppendsPrefix (O.contents out.old) (O.contents out.new) (printed_text text.now) }
    ensures unwritten { printed_text text.now ≡ [] → out.new ≡ out.old }
{
    if is_empty(text) {
        return Ok(());
    }
    write_text(text, out)?;
    flush(out)
}

fn is_empty(text: &Text) -> bool
    ensures { result ≡ (length text.now.head.items == 0 && length text.now.start.items == 0
        && length text.now.lines.items == 0) }
{
    text.head.as_slice().is_empty()
        && text.start.as_slice().is_empty()
        && text.lines.as_slice().is_empty()
}

/// Writes a text. A buffer in front of the output may hold it back.
pub fn write_text<O: Write>(text: &Text, out: &mut O) -> Result<(), Fault>
    ensures written { OnOk result (Appends (O.contents out.old) (O.contents out.new) (printed_text text.now)) }
    ensures prefix { AppendsPrefix (O.contents out.old) (O.contents out.new) (printed_text text.now) }
    ensures fault { IfErr result (λ fault. fault ≡ Unwritable) }
{
    write(&text.head, out)?;
    write_traced(&text.start, &text.lines, &text.traces, out)
}

fn print_line<E: Write>(line: &[u8], err: &mut E)
    ensures prefix { AppendsPrefix (E.contents err.old) (E.contents err.new) line.now }
    ensures unwritten { line.now ≡ [] → err.new ≡ err.old }
{
    if !line.is_empty() {
        let _ = write(line, err);
    }
}
