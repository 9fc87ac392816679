//! The lines of a run of datagrams.

ghost use Rattle.std.specs.Prelude.{◌≡◌, map, IfOk, IsTrue, OnOk};
ghost use Rattle.noise_session.specs.Datagrams.{DatagramState, DatagramsMatch};
ghost use Rattle.noise_duel.specs.DatagramReports.{DatagramDuelMatches, datagram_note_of, datagram_notes_of};
ghost use Rattle.noise_duel.specs.DatagramSides.{DatagramSides};
ghost use Rattle.noise_lines.specs.Lines.{line_of, text_in};
ghost use Rattle.noise_run.specs.Printed.{Appended};
ghost use Rattle.noise_run.specs.PrintedDatagrams as print;
ghost use Rattle.noise_lines.specs.PrintedWords.{AreExpected, is_printed};

use crate::report::{begun_line, fault_line};
use noise_duel::{DatagramDuel, DatagramEntry, DatagramReport};
use noise_lines::Line;
use noise_names::Role;
use noise_session::{DatagramFault, Datagrams};
use std::alloc::{AllocError, Global};

/// Appends a line for each entry, in order.
pub fn push_datagram_lines(
    alloc: Global,
    report: &DatagramReport,
    lines: &mut Vec<Vec<u8>>,
) -> Result<(), AllocError>
    ensures lines { OnOk result
        (Appended lines.old lines.new (map print.datagram_line (datagram_notes_of report.now.entries.items))) }
    ensures printed { AreExpected lines.old.items → OnOk result (AreExpected lines.new.items) }
{
    for (role, entry) in &report.entries {
        let line = datagram_line(alloc, *role, entry)?;
        lines.push(line.into_bytes())?;
    }
    Ok(())
}

// The line of an entry that is about this role.
fn datagram_line(alloc: Global, role: Role, entry: &DatagramEntry) -> Result<Line, AllocError>
    ensures { IfOk result (λ line. text_in line ≡ line_of (print.datagram_words role (datagram_note_of entry.now))) }
{
    match entry {
        DatagramEntry::Sealed(number, datagram) => begun_line(alloc, "sealed", role)?
            .number(*number as u64)?
            .hex(datagram),
        DatagramEntry::SealFault(fault) => fault_line(alloc, "unsealed", role, *fault),
        DatagramEntry::Payload(payload) => begun_line(alloc, "payload", role)?.hex(payload),
        DatagramEntry::Rejected(fault) => {
            begun_line(alloc, "rejected", role)?.word(rejection_word(*fault))
        }
        DatagramEntry::Missing(number) => begun_line(alloc, "missing", role)?.number(
            *number as u64,
        ),
    }
}

fn rejection_word(fault: DatagramFault) -> &'static str
    ensures text { result.now ≡ print.rejection_word fault }
    ensures printed { IsTrue (is_printed result.now) }
{
    match fault {
        DatagramFault::OneWay => "one-way",
        DatagramFault::Short => "short",
        DatagramFault::TooLong => "too-long",
        DatagramFault::Reserved => "reserved",
        DatagramFault::Old => "old",
        DatagramFault::Repeated => "repeated",
        DatagramFault::Tag => "tag",
    }
}

/// Appends the states of the initiator and of the responder.
pub fn push_datagram_states(
    alloc: Global,
    duel: &DatagramDuel,
    lines: &mut Vec<Vec<u8>>,
) -> Result<(), AllocError>
    ensures lines { (d : DatagramSides) → DatagramDuelMatches duel.now d
        → OnOk result (Appended lines.old lines.new (print.datagram_state_lines d)) }
    ensures printed { AreExpected lines.old.items → OnOk result (AreExpected lines.new.items) }
{
    let first = datagram_state(alloc, Role::Initiator, duel.initiator())?;
    lines.push(first.into_bytes())?;
    let second = datagram_state(alloc, Role::Responder, duel.responder())?;
    lines.push(second.into_bytes())?;
    Ok(())
}

// The state of a party.
fn datagram_state(alloc: Global, role: Role, datagrams: &Datagrams) -> Result<Line, AllocError>
    ensures { (v : DatagramState) → DatagramsMatch datagrams.now v
        → IfOk result (λ line. text_in line ≡ print.datagram_state_line role v) }
{
    begun_line(alloc, "state", role)?
        .word("datagrams")?
        .number(datagrams.send_nonce())
}
