//! What the parties of a vector file do in its run, counted.

ghost use Rattle.std.specs.Prelude.{◌≡◌, ◌+◌, ◌-◌, ◌<◌, ◌^◌, ◌∷◌, ◌++◌, [], ℕ, List, IfErr, IfOk, OnOk, length};
ghost use Rattle.noise_duel.specs.DatagramNotes.{DatagramNote};
ghost use Rattle.noise_duel.specs.DatagramReports.{DatagramDuelMatches, datagram_note_of, datagram_notes_of};
ghost use Rattle.noise_duel.specs.DatagramRuns.{DatagramRun};
ghost use Rattle.noise_duel.specs.DatagramSides.{DatagramSides, datagram_sides};
ghost use Rattle.noise_duel.specs.Entries.{note_of, notes_of};
ghost use Rattle.noise_duel.specs.Sides.{Sides};
ghost use Rattle.noise_events.specs.DatagramEvents.{datagram_events_of};
ghost use Rattle.noise_explain.specs.RunCounts.{CountsRun};
ghost use Rattle.noise_session.specs.Datagrams.{DatagramState};
ghost use Rattle.noise_tool.specs.Counting.{AreDatagramNotes, IsCountOf, acts_in, datagram_acts_in};
ghost use Rattle.noise_run.specs.Ends.{FileDuelMatches, IsStartFault};
ghost use Rattle.noise_run.specs.Running.{AreLast, IsRunOf, datagrams_of_version};

use noise_duel::{DatagramDuel, DatagramEntry, DatagramReport, Duel, Entry, Report};
use noise_explain::{Act, RunCounts};
use noise_lines::Fault;
use noise_names::Role;
use noise_run::{cause_word, make_ends};
use noise_session::laws::end_is_reported;
use noise_session::{End, Stage};
use noise_vectors::{FileDatagrams, FileKeys, VectorFile, Version};
use std::alloc::{AllocError, Global};

/// Makes the two parties that the file describes, runs its events, and its datagrams, and counts what each party does.
/// A handshake of the file's pattern has so many messages.
///
/// Where there are no such parties, the fault is that of `make_ends`.
pub(crate) fn counted_run(
    alloc: Global,
    file: VectorFile,
    messages: usize,
) -> Result<RunCounts, Fault>
    ensures run { IfOk result (λ counts. (lines : List (List ℕ)) × IsRunOf file lines) }
    ensures counted { IfOk result (IsCountOf file messages) }
    ensures fault { IfErr result (λ fault. IsStartFault file fault) }
{
    let (duel, events, version) = make_ends(alloc, file)?;
    let (duel, report) = duel.run(alloc, &events)?;
    let mut counts = RunCounts::new(alloc, messages);
    count_entries(&report, &mut counts)?;
    count_last(alloc, duel, version, &mut counts)?;
    Ok(counts)
}

fn count_entries(report: &Report, counts: &mut RunCounts) -> Result<(), AllocError>
    ensures counted { (messages : ℕ) (acts : List (Role × Act))
        → length acts + length report.now.entries.items < 2 ^ 64 → CountsRun messages acts counts.old
        → OnOk result (CountsRun messages (acts ++ acts_in (notes_of report.now.entries.items)) counts.new) }
{
    for (role, entry) in &report.entries {
        count_entry(*role, entry, counts)?;
    }
    Ok(())
}

// Counts what an entry says of the party of this role.
fn count_entry(role: Role, entry: &Entry, counts: &mut RunCounts) -> Result<(), AllocError>
    ensures counted { (messages : ℕ) (acts : List (Role × Act)) → length acts < 2 ^ 64 - 1
        → CountsRun messages acts counts.old
        → OnOk result (CountsRun messages (acts ++ acts_in ((role, note_of entry.now) ∷ [])) counts.new) }
{
    match entry {
        Entry::Wrote(_) => counts.count(role, Act::Wrote),
        Entry::Payload(_) => counts.count(role, Act::Accepted),
        Entry::Dropped(_) => counts.count(role, Act::Dropped),
        Entry::Refused { token, cause } => counts.refuse(role, *token, cause_word(*cause))?,
        Entry::WriteFault(_) => {}
        Entry::Exhausted => {}
        Entry::Left(_, _) => {}
        Entry::Missing(_) => {}
        Entry::Held(_) => {}
    }
    Ok(())
}

// Counts what comes after the events: the datagrams of a version, where there are some, and whose session is open.
fn count_last(
    alloc: Global,
    duel: Duel<FileKeys, FileKeys>,
    version: Version,
    counts: &mut RunCounts,
) -> Result<(), AllocError>
    ensures run { (d : Sides) → FileDuelMatches duel d
        → OnOk result ((after : List (List ℕ)) × AreLast (datagrams_of_version version) d after) }
    ensures counted { (d : Sides) (messages : ℕ) (acts : List (Role × Act)) → FileDuelMatches duel d
        → length acts < 2 ^ 63 → CountsRun messages acts counts.old
        → OnOk result ((notes : List (Role × DatagramNote)) × AreDatagramNotes (datagrams_of_version version) d notes
        × CountsRun messages (acts ++ datagram_acts_in notes) counts.new) }
{
    end_is_reported::<FileKeys>();
    let Some(datagrams) = datagrams_in(version) else {
        count_ends(&duel, counts);
        return Ok(());
    };
    match duel.into_datagrams(datagrams.window) {
        Ok(duel) => count_datagrams(alloc, duel, &datagrams, counts),
        Err(duel) => {
            count_ends(&duel, counts);
            Ok(())
        }
    }
}

fn datagrams_in(version: Version) -> Option<FileDatagrams>
    ensures { result ≡ datagrams_of_version version }
{
    match version {
        Version::One => None,
        Version::Two(additions) => additions.datagrams,
    }
}

fn count_ends(duel: &Duel<FileKeys, FileKeys>, counts: &mut RunCounts)
    ensures counted { (messages : ℕ) (acts : List (Role × Act)) → CountsRun messages acts counts.old
        → CountsRun messages acts counts.new }
{
    counts.end(is_open(duel.initiator()), is_open(duel.responder()));
}

fn is_open(end: &End<FileKeys>) -> bool {
    match end.stage() {
        Stage::Transport { .. } => true,
        Stage::Handshake { .. } | Stage::Ended => false,
    }
}

// Counts what two parties do with datagrams, to which they have gone over.
fn count_datagrams(
    alloc: Global,
    duel: DatagramDuel,
    datagrams: &FileDatagrams,
    counts: &mut RunCounts,
) -> Result<(), AllocError>
    ensures run { (v w : DatagramState) → DatagramDuelMatches duel (datagram_sides v w)
        → OnOk result ((notes : List (Role × DatagramNote)) × (last : DatagramSides)
        × DatagramRun (datagram_sides v w) (datagram_events_of datagrams.now.events.items) notes last) }
    ensures counted { (v w : DatagramState) (messages : ℕ) (acts : List (Role × Act))
        → DatagramDuelMatches duel (datagram_sides v w) → length acts < 2 ^ 63 → CountsRun messages acts counts.old
        → OnOk result ((notes : List (Role × DatagramNote)) × (last : DatagramSides)
        × DatagramRun (datagram_sides v w) (datagram_events_of datagrams.now.events.items) notes last
        × CountsRun messages (acts ++ datagram_acts_in notes) counts.new) }
{
    counts.go_over();
    let (_, report) = duel.run(alloc, &datagrams.events)?;
    count_datagram_entries(&report, counts);
    Ok(())
}

fn count_datagram_entries(report: &DatagramReport, counts: &mut RunCounts)
    ensures counted { (messages : ℕ) (acts : List (Role × Act))
        → length acts + length report.now.entries.items < 2 ^ 64 → CountsRun messages acts counts.old
        → CountsRun messages (acts ++ datagram_acts_in (datagram_notes_of report.now.entries.items)) counts.new }
{
    for (role, entry) in &report.entries {
        count_datagram_entry(*role, entry, counts);
    }
}

// Counts what an entry of datagrams says of the party of this role.
fn count_datagram_entry(role: Role, entry: &DatagramEntry, counts: &mut RunCounts)
    ensures counted { (messages : ℕ) (acts : List (Role × Act)) → length acts < 2 ^ 64 - 1
        → CountsRun messages acts counts.old
        → CountsRun messages (acts ++ datagram_acts_in ((role, datagram_note_of entry.now) ∷ [])) counts.new }
{
    match entry {
        DatagramEntry::Sealed(_, _) => counts.count(role, Act::Sealed),
        DatagramEntry::Payload(_) => counts.count(role, Act::Opened),
        DatagramEntry::Rejected(_) => counts.count(role, Act::Rejected),
        DatagramEntry::SealFault(_) => {}
        DatagramEntry::Missing(_) => {}
    }
}
