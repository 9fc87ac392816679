//! The answer of a run, with its trace.

ghost use Rattle.std.specs.Prelude.{◌≡◌, ◌⊎◌, ◌≤◌, ◌++◌, [], IfErr, IfOk};
ghost use Rattle.noise_lines.specs.Faults.{status_of};
ghost use Rattle.noise_lines.specs.Lines.{lines_text};
ghost use Rattle.noise_lines.specs.TracedLines.{traces_of};
ghost use Rattle.noise_lines.specs.declared.faults.Fault.TheVariants.{Unreadable};
ghost use Rattle.noise_names.specs.Lists.{bytes_of};
ghost use Rattle.noise_vectors.specs.VectorFile.{IsVectorFile};
ghost use Rattle.noise_vectors.specs.VectorText.{file_text};
ghost use Rattle.noise_vectors.specs.declared.vector.AllowedEvents.TheVariants.{Any};
ghost use Rattle.noise_tool.specs.Answers.{IsSilent, answer_value, printed_text};
ghost use Rattle.noise_tool.specs.Performing.{AreMet, DifferAt, GivesText, IsRunFault, IsRunText};
ghost use Rattle.noise_run.specs.Selection.{selection_of};
ghost use Rattle.noise_tool.specs.TracedText.{IsOfTrace, TellsUnmet, front_if};
ghost use Rattle.noise_run.specs.Running.{expected_in};
ghost use Rattle.noise_run.specs.Tracing.{HasTraces, IsTraceOf};

use crate::answers::{Answer, Text};
use crate::performing::vector_of;
use crate::printing::{line_of, text_of};
use noise_lines::{Fault, compare};
use noise_run::{Outcome, Selection, Traced, trace};
use noise_vectors::{AllowedEvents, VectorFile, read_vector, vector_texts_are_unique};
use noise_words::{Traced as ChosenTrace, TracedPart, TracedRole};
use std::alloc::{AllocError, Global};

/// The lines of two parties on a vector file and the selected lines of their key schedules, and whether the lines of
/// the run are what the file expects.
pub(crate) fn trace_chosen(
    alloc: Global,
    chosen: &ChosenTrace,
    text: &[u8],
) -> Result<Answer, Fault>
    ensures made { IfOk result (λ answer. GivesText (IsRunText (IsTraceOf (selection_of chosen.now)) AreMet text.now)
        (λ number. IsRunText (IsTraceOf (selection_of chosen.now)) (DifferAt number) text.now) (answer_value answer)) }
    ensures fault { IfErr result (λ fault. (status_of fault ≡ 3) ⊎ IsRunFault Any text.now fault) }
    ensures silent { IfOk result IsSilent }
{
    let vector = vector_of(alloc, AllowedEvents::Any, text)?;
    let traced = trace_text(alloc, selection(chosen), text, vector)?;
    Ok(run_answer(alloc, traced)?)
}

/// Runs a file that was read of this text as `trace` does; its keys are read again.
pub(crate) fn trace_text(
    alloc: Global,
    selection: Selection,
    text: &[u8],
    file: VectorFile,
) -> Result<Traced, Fault>
    requires right { IsVectorFile file }
    requires text { text.now ≡ file_text file }
    ensures lines { IfOk result (λ traced. HasTraces selection file (bytes_of traced.outcome.lines.items)
        (bytes_of traced.start.items) (traces_of traced.traces.items)) }
    ensures expected { IfOk result (λ traced. bytes_of traced.outcome.expected.items ≡ expected_in file.version) }
    ensures read { IfErr result (λ fault. ¬ (fault ≡ Unreadable)) }
    ensures fault { IfErr result (λ fault. (status_of fault ≡ 3) ⊎ IsRunFault Any text.now fault) }
{
    let again = read_vector(alloc, text, AllowedEvents::Any)?;
    vector_texts_are_unique();
    trace(alloc, selection, file, again)
}

// The lines that are asked for.
fn selection(chosen: &ChosenTrace) -> Selection
    ensures { result ≡ selection_of chosen.now }
{
    Selection {
        heading: chosen.heading,
        handshake: !matches!(chosen.only, Some(TracedPart::Transport)),
        transport: !matches!(chosen.only, Some(TracedPart::Handshake)),
        initiator: !matches!(chosen.role, Some(TracedRole::Responder)),
        responder: !matches!(chosen.role, Some(TracedRole::Initiator)),
    }
}

/// The lines of a trace, and whether those of the run are what is expected, if any are.
pub(crate) fn run_answer(alloc: Global, traced: Traced) -> Result<Answer, AllocError>
    ensures made { IfOk result (λ answer. IsOfTrace traced (answer_value answer)) }
    ensures silent { IfOk result IsSilent }
{
    let Traced {
        outcome,
        start,
        traces,
    } = traced;
    let Outcome { lines, expected } = outcome;
    let (err, status) = line_of_unmet(alloc, &lines, &expected)?;
    let head = Vec::new(alloc);
    let out = Text {
        head,
        start,
        lines,
        traces,
    };
    Ok(Answer::new(out, err, status))
}

// Whether the lines of a run are those that are expected: no line and status 0, or the line of the fault and 1.
fn line_of_unmet(
    alloc: Global,
    lines: &[Vec<u8>],
    expected: &[Vec<u8>],
) -> Result<(Vec<u8>, u8), AllocError>
    ensures told { IfOk result
        (λ told. TellsUnmet (bytes_of expected.now) (bytes_of lines.now) told.0.items told.1) }
    ensures few { IfOk result (λ told. told.1 ≤ 1) }
    ensures quiet { IfOk result (λ told. told.1 ≡ 0 → told.0.items ≡ []) }
{
    match compare(lines, expected) {
        Ok(()) => Ok((Vec::new(alloc), 0)),
        Err(fault) => Ok((line_of(alloc, fault)?, 1)),
    }
}

/// A text, and after it, where a trace is wanted, its front: up to the line of the run of this number, from 1 on, and
/// those that follow that one. Where there are fewer lines it is all.
pub(crate) fn with_front(
    alloc: Global,
    head: Vec<u8>,
    wanted: bool,
    traced: Traced,
    number: usize,
) -> Text
    ensures { printed_text result ≡ head.items ++ lines_text (front_if wanted traced number) }
{
    if !wanted {
        return text_of(alloc, head);
    }
    let Traced {
        outcome,
        start,
        mut traces,
    } = traced;
    let Outcome { mut lines, .. } = outcome;
    lines.truncate(number);
    traces.truncate(number);
    Text {
        head,
        start,
        lines,
        traces,
    }
}
