//! The lines of events after `datagrams`.

ghost use Rattle.std.specs.Prelude.{◌≡◌, ◌∷◌, ◌++◌, ◌↔◌, ℕ, List, IfErr, IfOk, IfSome, IsSome, IsTrue, MatchOption, MatchResult};
ghost use Rattle.std.specs.List.{All};
ghost use Rattle.noise_names.specs.declared.token.Role.{Role};
ghost use Rattle.noise_events.specs.declared.datagram_event.DatagramEvent.{DatagramEvent};
ghost use Rattle.noise_vectors.specs.Lines.{last_number};
ghost use Rattle.noise_vectors.specs.VectorFile.{IsDatagramEvent};
ghost use Rattle.noise_vectors.specs.ReaderFaults.{ReportsAfter, datagram_lines};
ghost use Rattle.noise_vectors.specs.VectorText.{AfterDatagrams, datagram_event_words, datagram_kind_word, lines_of, role_word};
ghost use Rattle.noise_vectors.specs.declared.faults.VectorFault.TheVariants.{Memory};
ghost use Rattle.noise_vectors.specs.declared.words.DatagramKind.{DatagramKind};

use crate::faults::{LineKind, VectorFault};
use crate::lines::Lines;
use crate::words::{
    DatagramKind, read_bytes, read_datagram_kind, read_frame_number, read_role, split_once,
};
use noise_events::DatagramEvent;
use noise_names::Role;
use std::alloc::{AllocError, Global};

/// The events that the lines are, as far as those of what is expected, or the text's end.
pub(crate) fn read_datagram_events(
    alloc: Global,
    lines: &mut Lines<'_>,
) -> Result<Vec<DatagramEvent>, VectorFault>
    ensures text { IfOk result
        (λ events. lines.old.rest.now ≡ lines_of datagram_event_words events.items lines.new.rest.now) }
    ensures right { IfOk result (λ events. All IsDatagramEvent events.items) }
    ensures ended { IfOk result (λ events. AfterDatagrams lines.new.rest.now) }
    ensures counted { IfOk result (λ events. last_number lines.new ≡ last_number lines.old) }
    ensures reported { IfErr result (ReportsAfter datagram_lines lines.old.rest.now (last_number lines.old)) }
    ensures every { (events : List DatagramEvent) (rest : List ℕ) → All IsDatagramEvent events → AfterDatagrams rest
        → lines.old.rest.now ≡ lines_of datagram_event_words events rest
        → MatchResult result (λ read. lines.new.rest.now ≡ rest) (λ fault. fault ≡ Memory) }
{
    let mut events = Vec::new(alloc);
    while !is_after_datagrams(lines.rest) {
        let line = lines.next()?;
        let Some(event) = read_datagram_event(alloc, line)? else {
            return Err(lines.fault(LineKind::Event));
        };
        lines.end()?;
        if events.push(event).is_err() {
            return Err(VectorFault::Memory);
        }
    }
    Ok(events)
}

// Whether no event of a datagram comes next.
fn is_after_datagrams(rest: &[u8]) -> bool
    ensures { IsTrue result ↔ AfterDatagrams rest.now }
{
    rest.is_empty() || rest.starts_with(b"expect ".as_slice())
}

// The event that a line is.
fn read_datagram_event(alloc: Global, text: &[u8]) -> Result<Option<DatagramEvent>, AllocError>
    ensures text { IfOk result (λ found. IfSome found (λ event. text.now ≡ datagram_event_words event)) }
    ensures right { IfOk result (λ found. IfSome found IsDatagramEvent) }
    ensures every { (event : DatagramEvent) → IsDatagramEvent event → text.now ≡ datagram_event_words event
        → IfOk result (λ found. IsSome found) }
{
    let Some((kind, role, operand)) = split_datagram_event(text) else {
        return Ok(None);
    };
    match kind {
        DatagramKind::Seal => match read_bytes(alloc, operand, 65535)? {
            Some(payload) => Ok(Some(DatagramEvent::Seal(role, payload))),
            None => Ok(None),
        },
        DatagramKind::Open => match read_frame_number(operand) {
            Some(number) => Ok(Some(DatagramEvent::Open(role, number))),
            None => Ok(None),
        },
        DatagramKind::Foreign => match read_bytes(alloc, operand, 131072)? {
            Some(bytes) => Ok(Some(DatagramEvent::Raw(role, bytes))),
            None => Ok(None),
        },
    }
}

// The kind of event, its role, and what follows them.
fn split_datagram_event(text: &[u8]) -> Option<(DatagramKind, Role, &[u8])>
    ensures text { IfSome result
        (λ parts. text.now ≡ datagram_kind_word parts.0 ++ 32 ∷ (role_word parts.1 ++ 32 ∷ parts.2.now)) }
    ensures every { (kind : DatagramKind) (role : Role) (operand : List ℕ)
        → text.now ≡ datagram_kind_word kind ++ 32 ∷ (role_word role ++ 32 ∷ operand)
        → MatchOption result (Unit {0} → ⊥) (λ parts. (parts.0 ≡ kind) × (parts.1 ≡ role) × (parts.2.now ≡ operand)) }
{
    let (kind, rest) = split_once(text, b' ')?;
    let (role, operand) = split_once(rest, b' ')?;
    Some((read_datagram_kind(kind)?, read_role(role)?, operand))
}
