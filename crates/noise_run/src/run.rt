//! The run of a vector file.

ghost use Rattle.std.specs.Prelude.{◌≡◌, ◌++◌, ◌∷◌, [], ℕ, List, Option, IfErr, IfOk, OnOk, codes};
ghost use Rattle.noise_duel.specs.DatagramReports.{DatagramDuelMatches};
ghost use Rattle.noise_duel.specs.DatagramSides.{datagram_sides};
ghost use Rattle.noise_duel.specs.Sides.{Sides};
ghost use Rattle.noise_session.specs.Datagrams.{DatagramState};
ghost use Rattle.noise_names.specs.Lists.{bytes_of};
ghost use Rattle.noise_vectors.specs.VectorText.{window_words};
ghost use Rattle.noise_run.specs.Ends.{FileDuelMatches, IsStartFault};
ghost use Rattle.noise_lines.specs.PrintedWords.{AreExpected};
ghost use Rattle.noise_run.specs.Printed.{Appended, state_lines};
ghost use Rattle.noise_run.specs.Running.{AppendsDatagrams, AreLast, IsRunOf, datagrams_of_version, expected_in};

use crate::datagram_report::{push_datagram_lines, push_datagram_states};
use crate::ends::make_ends;
use crate::report::{entry_lines, push_state_lines};
use noise_duel::{DatagramDuel, Duel};
use noise_lines::{Fault, Line};
use noise_session::Window;
use noise_session::laws::end_is_reported;
use noise_vectors::{FileDatagrams, FileKeys, VectorFile, Version};
use std::alloc::{AllocError, Global};

/// What comes of the run of a file.
#[derive(Drop)]
pub struct Outcome {
    /// The lines of the run, each without its LF.
    pub lines: Vec<Vec<u8>>,
    /// The lines that the file expects; none where it expects nothing.
    pub expected: Vec<Vec<u8>>,
}

/// Makes the two parties that the file describes, and runs its events, and its datagrams.
///
/// Where there are no such ends, the fault is that of `make_ends`.
pub fn replay(alloc: Global, file: VectorFile) -> Result<Outcome, Fault>
    ensures lines { IfOk result (λ outcome. IsRunOf file (bytes_of outcome.lines.items)) }
    ensures printed { IfOk result (λ outcome. AreExpected outcome.lines.items) }
    ensures expected { IfOk result (λ outcome. bytes_of outcome.expected.items ≡ expected_in file.version) }
    ensures fault { IfErr result (λ fault. IsStartFault file fault) }
{
    let (duel, events, version) = make_ends(alloc, file)?;
    let (duel, report) = duel.run(alloc, &events)?;
    let lines = entry_lines(alloc, &report)?;
    Ok(close(alloc, duel, lines, version)?)
}

// What comes of a run whose events have left these lines and these parties.
pub(crate) fn close(
    alloc: Global,
    duel: Duel<FileKeys, FileKeys>,
    mut lines: Vec<Vec<u8>>,
    version: Version,
) -> Result<Outcome, AllocError>
    ensures after { (d : Sides) → FileDuelMatches duel d
        → IfOk result (λ outcome. (after : List (List ℕ)) × AreLast (datagrams_of_version version) d after
        × (bytes_of outcome.lines.items ≡ bytes_of lines.items ++ after)) }
    ensures printed { AreExpected lines.items → IfOk result (λ outcome. AreExpected outcome.lines.items) }
    ensures expected { IfOk result (λ outcome. bytes_of outcome.expected.items ≡ expected_in version) }
{
    let (datagrams, expected) = split_version(alloc, version);
    go_over(alloc, duel, datagrams, &mut lines)?;
    Ok(Outcome { lines, expected })
}

// The datagrams of a version, and the lines that it expects.
fn split_version(alloc: Global, version: Version) -> (Option<FileDatagrams>, Vec<Vec<u8>>)
    ensures value { result.0 ≡ datagrams_of_version version }
    ensures expected { bytes_of result.1.items ≡ expected_in version }
{
    match version {
        Version::One => (None, Vec::new(alloc)),
        Version::Two(additions) => (additions.datagrams, additions.expected),
    }
}

// Appends the lines after those of the events: of datagrams, where there are some, and the states of both parties.
fn go_over(
    alloc: Global,
    duel: Duel<FileKeys, FileKeys>,
    datagrams: Option<FileDatagrams>,
    lines: &mut Vec<Vec<u8>>,
) -> Result<(), AllocError>
    ensures after { (d : Sides) → FileDuelMatches duel d
        → OnOk result ((after : List (List ℕ)) × AreLast datagrams d after × Appended lines.old lines.new after) }
    ensures printed { AreExpected lines.old.items → OnOk result (AreExpected lines.new.items) }
{
    end_is_reported::<FileKeys>();
    let Some(datagrams) = datagrams else {
        return push_state_lines(alloc, &duel, lines);
    };
    match duel.into_datagrams(datagrams.window) {
        Ok(duel) => push_datagrams(alloc, duel, &datagrams, lines),
        Err(duel) => push_without_datagrams(alloc, &duel, lines),
    }
}

// Appends the line of two parties that go over to datagrams, the lines of those, and the states after them.
fn push_datagrams(
    alloc: Global,
    duel: DatagramDuel,
    datagrams: &FileDatagrams,
    lines: &mut Vec<Vec<u8>>,
) -> Result<(), AllocError>
    ensures after { (v w : DatagramState) → DatagramDuelMatches duel (datagram_sides v w)
        → OnOk result (AppendsDatagrams (datagram_sides v w) datagrams.now lines.old lines.new) }
    ensures printed { AreExpected lines.old.items → OnOk result (AreExpected lines.new.items) }
{
    push_window(alloc, datagrams.window, lines)?;
    let (duel, report) = duel.run(alloc, &datagrams.events)?;
    push_datagram_lines(alloc, &report, lines)?;
    push_datagram_states(alloc, &duel, lines)
}

// Appends the line of two parties that go over to datagrams with this window.
fn push_window(alloc: Global, window: Window, lines: &mut Vec<Vec<u8>>) -> Result<(), AllocError>
    ensures lines { OnOk result (Appended lines.old lines.new (window_words window ∷ [])) }
    ensures printed { AreExpected lines.old.items → OnOk result (AreExpected lines.new.items) }
{
    let line = Line::new(alloc, "datagrams")?.number(window.width())?;
    Ok(lines.push(line.into_bytes())?)
}

// Appends the line of two parties that don't go over, and their states.
fn push_without_datagrams(
    alloc: Global,
    duel: &Duel<FileKeys, FileKeys>,
    lines: &mut Vec<Vec<u8>>,
) -> Result<(), AllocError>
    ensures after { (d : Sides) → FileDuelMatches duel.now d
        → OnOk result (Appended lines.old lines.new (codes "no-datagrams" ∷ state_lines d)) }
    ensures printed { AreExpected lines.old.items → OnOk result (AreExpected lines.new.items) }
{
    lines.push(Line::new(alloc, "no-datagrams")?.into_bytes())?;
    push_state_lines(alloc, duel, lines)
}
