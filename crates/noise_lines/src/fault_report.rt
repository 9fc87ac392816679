//! The texts of faults.

ghost use Rattle.std.specs.Prelude.{◌≡◌, ◌∷◌, [], decimal, codes, IfOk, IsTrue};
ghost use Rattle.std.specs.List.{join_with_byte};
ghost use Rattle.noise_lines.specs.PrintedWords.{is_printed};
ghost use Rattle.noise_lines.specs.Reported as reported;

use crate::faults::Fault;
use crate::line::{Line, role_word};
use noise_keys::SetupFault;
use noise_names::{NameFault, TextFaultKind};
use noise_vectors::LineKind;
use std::alloc::{AllocError, Global};

/// The line that says what the fault is.
pub fn fault_line(alloc: Global, fault: Fault) -> Result<Line, AllocError>
    ensures { IfOk result (λ line. line.text.items ≡ reported.fault_line fault) }
{
    match fault {
        Fault::Rule(broken) => counted_line(alloc, "rule", u64::from(broken.rule))?
            .word("message")?
            .number(u64::from(broken.message))?
            .word("token")?
            .number(u64::from(broken.token)),
        Fault::Place(fault) => Line::new(alloc, "psk place")?.number(u64::from(fault.place)),
        Fault::Setup(role, fault) => Line::new(alloc, "setup")?
            .word(role_word(role))?
            .word(setup_word(fault)),
        Fault::Name(fault) => Line::new(alloc, "name")?.word(name_word(fault)),
        Fault::UnknownPattern => Line::new(alloc, "unknown pattern"),
        Fault::Text(fault) => line_fault(alloc, fault.line, text_word(fault.kind)),
        Fault::Line(number, kind) => line_fault(alloc, number, line_word(kind)),
        Fault::Unmet(number) => Line::new(alloc, "unmet")?.number(number as u64),
        Fault::TooLong => Line::new(alloc, "file too long"),
        Fault::Unreadable => Line::new(alloc, "cannot read"),
        Fault::Unwritable => Line::new(alloc, "cannot write"),
        Fault::Memory => Line::new(alloc, "out of memory"),
    }
}

// A word and a number.
fn counted_line(alloc: Global, word: &str, number: u64) -> Result<Line, AllocError>
    requires printed { IsTrue (is_printed word.now) }
    ensures text { IfOk result (λ line. line.text.items ≡ join_with_byte 32 (word.now ∷ decimal number ∷ [])) }
{
    Line::new(alloc, word)?.number(number)
}

fn line_fault(alloc: Global, number: usize, word: &str) -> Result<Line, AllocError>
    requires printed { IsTrue (is_printed word.now) }
    ensures text { IfOk result
        (λ line. line.text.items ≡ join_with_byte 32 (codes "line" ∷ decimal number ∷ word.now ∷ [])) }
{
    Line::new(alloc, "line")?.number(number as u64)?.word(word)
}

fn line_word(kind: LineKind) -> &'static str
    ensures text { result.now ≡ reported.line_word kind }
    ensures printed { IsTrue (is_printed result.now) }
{
    match kind {
        LineKind::Header => "header",
        LineKind::Protocol => "protocol",
        LineKind::Pattern => "pattern",
        LineKind::Prologue => "prologue",
        LineKind::Interval => "interval",
        LineKind::Psk => "psk",
        LineKind::Keys => "keys",
        LineKind::Answer => "answer",
        LineKind::Event => "event",
        LineKind::Expect => "expect",
        LineKind::Ending => "ending",
    }
}

fn text_word(kind: TextFaultKind) -> &'static str
    ensures text { result.now ≡ reported.text_word kind }
    ensures printed { IsTrue (is_printed result.now) }
{
    match kind {
        TextFaultKind::Heading => "heading",
        TextFaultKind::Arrow => "arrow",
        TextFaultKind::Token => "token",
        TextFaultKind::PreMessage => "pre-message",
        TextFaultKind::Turn => "turn",
        TextFaultKind::PskPlace => "psk-place",
        TextFaultKind::NameTaken => "name-taken",
        TextFaultKind::Limit => "limit",
        TextFaultKind::Ending => "ending",
    }
}

// The word that its `Display` writes, about which no clause says anything.
fn name_word(fault: NameFault) -> &'static str
    ensures text { result.now ≡ reported.name_word fault }
    ensures printed { IsTrue (is_printed result.now) }
{
    match fault {
        NameFault::Length => "length",
        NameFault::Prefix => "prefix",
        NameFault::Base => "base",
        NameFault::Modifier => "modifier",
        NameFault::ModifierOrder => "modifier-order",
        NameFault::Algorithm => "algorithm",
    }
}

fn setup_word(fault: SetupFault) -> &'static str
    ensures text { result.now ≡ reported.setup_word fault }
    ensures printed { IsTrue (is_printed result.now) }
{
    match fault {
        SetupFault::EphemeralMissing => "ephemeral-missing",
        SetupFault::StaticMissing => "static-missing",
        SetupFault::RemoteMissing => "remote-missing",
        SetupFault::RemoteUnexpected => "remote-unexpected",
        SetupFault::PskCount => "psk-count",
    }
}
