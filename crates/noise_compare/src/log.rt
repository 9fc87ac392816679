//! Reading the lines of a log, and those of a key schedule.

ghost use Rattle.std.specs.Prelude.{◌≡◌, ◌++◌, false, None, IfErr, IfOk, OnOk, map};
ghost use Rattle.noise_compare.specs.Lines.{words_in, line_words};
ghost use Rattle.noise_compare.specs.Reading.{IsLineFault, IsLogFault, first_wrong, is_wrong, schedule_line, schedule_lines, views};
ghost use Rattle.noise_compare.specs.declared.log.LogFault.TheVariants.{Memory};

use crate::line::{Line, parts};
use std::alloc::{AllocError, Global};

/// How many words a line of a key schedule has.
pub(crate) const WORDS: usize = 12;

/// Why a log isn't read.
#[derive(Clone, Copy, PartialEq, Eq)]
pub enum LogFault {
    /// The line of this number, from 1 on, begins as a line of a key schedule, and has more or fewer than twelve
    /// words.
    Line(usize),
    /// Memory ran out.
    Memory,
}

impl From<AllocError> for LogFault {
    ghost from_gives = { λ _ fault. fault ≡ Memory };

    fn from(_error: AllocError) -> LogFault {
        LogFault::Memory
    }
}

/// The lines of a log that are of a party's key schedule: those that begin with `trace initiator` or `trace
/// responder`. All others are passed over.
pub fn read_log(alloc: Global, text: &[u8]) -> Result<Vec<Line<'_>>, LogFault>
    ensures lines { IfOk result (λ lines. views lines.items ≡ schedule_lines text.now) }
    ensures right { IfOk result (λ _. first_wrong text.now ≡ None) }
    ensures fault { IfErr result (IsLogFault text.now) }
{
    let texts = parts(alloc, text, b'\n')?;
    let mut lines = Vec::new(alloc);
    for (index, text) in texts.iter().enumerate() {
        push_line(alloc, index + 1, *text, &mut lines)?;
    }
    Ok(lines)
}

// Appends a line of a text, if it is one of a key schedule.
fn push_line<'a>(
    alloc: Global,
    number: usize,
    text: &'a [u8],
    lines: &mut Vec<Line<'a>>,
) -> Result<(), LogFault>
    ensures lines { OnOk result (views lines.new.items ≡ views lines.old.items ++ schedule_line number text.now) }
    ensures right { OnOk result (is_wrong text.now ≡ false) }
    ensures fault { IfErr result (IsLineFault number text.now) }
{
    let line = Line::new(alloc, number, text)?;
    if !line.is_of_schedule() {
        return Ok(());
    }
    if line.len() != WORDS {
        return Err(LogFault::Line(number));
    }
    lines.push(line).map_err(AllocError::from)?;
    Ok(())
}

/// Appends the lines of these texts.
pub fn push_schedule<'a>(
    alloc: Global,
    texts: &'a [Vec<u8>],
    lines: &mut Vec<Line<'a>>,
) -> Result<(), AllocError>
    ensures { OnOk result (map words_in lines.new.items
        ≡ map words_in lines.old.items ++ map line_words (map (λ text. text.items) texts.now)) }
{
    for (index, text) in texts.iter().enumerate() {
        lines.push(Line::new(alloc, index + 1, text)?)?;
    }
    Ok(())
}
