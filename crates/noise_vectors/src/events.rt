//! The lines of events.

ghost use Rattle.std.specs.Prelude.{◌≡◌, ◌<◌, ◌^◌, ◌∷◌, ◌++◌, ◌↔◌, ℕ, List, IfErr, IfOk, IfSome, IsSome, IsTrue, MatchOption, MatchResult, decimal};
ghost use Rattle.std.specs.List.{All};
ghost use Rattle.noise_names.specs.declared.token.Role.{Role};
ghost use Rattle.noise_events.specs.declared.event.Event.{Event};
ghost use Rattle.noise_vectors.specs.Lines.{last_number};
ghost use Rattle.noise_vectors.specs.Cuts.{AreCuts};
ghost use Rattle.noise_vectors.specs.HexWord.{hex_of};
ghost use Rattle.noise_vectors.specs.VectorFile.{IsAllowed, IsEvent, IsShort};
ghost use Rattle.noise_vectors.specs.ReaderFaults.{ReportsAfter, event_lines};
ghost use Rattle.noise_vectors.specs.VectorText.{AfterEvents, event_words, kind_word, lengths_word, lines_of, role_word};
ghost use Rattle.noise_vectors.specs.declared.words.EventKind.{EventKind};
ghost use Rattle.noise_vectors.specs.declared.faults.VectorFault.TheVariants.{Memory};

use crate::cuts::read_cuts;
use crate::faults::{LineKind, VectorFault};
use crate::lines::Lines;
use crate::vector::AllowedEvents;
use crate::words::{EventKind, read_bytes, read_frame_number, read_kind, read_role, split_once};
use noise_events::{Cuts, Event};
use noise_names::Role;
use std::alloc::{AllocError, Global};

/// The events that the lines are, as far as those of the datagrams, those of what is expected, or the text's end. One
/// that isn't allowed is a fault.
pub(crate) fn read_events(
    alloc: Global,
    lines: &mut Lines<'_>,
    allowed: AllowedEvents,
) -> Result<Vec<Event>, VectorFault>
    ensures text { IfOk result (λ events. lines.old.rest.now ≡ lines_of event_words events.items lines.new.rest.now) }
    ensures right { IfOk result (λ events. All IsEvent events.items) }
    ensures allowed { IfOk result (λ events. All (IsAllowed allowed) events.items) }
    ensures ended { IfOk result (λ events. AfterEvents lines.new.rest.now) }
    ensures counted { IfOk result (λ events. last_number lines.new ≡ last_number lines.old) }
    ensures reported { IfErr result (ReportsAfter (event_lines allowed) lines.old.rest.now (last_number lines.old)) }
    ensures every { (events : List Event) (rest : List ℕ) → All IsEvent events → All (IsAllowed allowed) events
        → AfterEvents rest → lines.old.rest.now ≡ lines_of event_words events rest
        → MatchResult result (λ read. lines.new.rest.now ≡ rest) (λ fault. fault ≡ Memory) }
{
    let mut events = Vec::new(alloc);
    while !is_after_events(lines.rest) {
        let line = lines.next()?;
        let Some(event) = read_event(alloc, line, allowed)? else {
            return Err(lines.fault(LineKind::Event));
        };
        lines.end()?;
        if events.push(event).is_err() {
            return Err(VectorFault::Memory);
        }
    }
    Ok(events)
}

// Whether no event comes next.
fn is_after_events(rest: &[u8]) -> bool
    ensures { IsTrue result ↔ AfterEvents rest.now }
{
    rest.is_empty()
        || rest.starts_with(b"datagrams ".as_slice())
        || rest.starts_with(b"expect ".as_slice())
}

// The event that a line is, where it is allowed.
fn read_event(
    alloc: Global,
    text: &[u8],
    allowed: AllowedEvents,
) -> Result<Option<Event>, AllocError>
    ensures text { IfOk result (λ found. IfSome found (λ event. text.now ≡ event_words event)) }
    ensures right { IfOk result (λ found. IfSome found IsEvent) }
    ensures allowed { IfOk result (λ found. IfSome found (IsAllowed allowed)) }
    ensures every { (event : Event) → IsEvent event → IsAllowed allowed event → text.now ≡ event_words event
        → IfOk result (λ found. IsSome found) }
{
    let Some((kind, role, operands)) = split_event(text) else {
        return Ok(None);
    };
    match kind {
        EventKind::Say => match read_say(alloc, operands)? {
            Some((payload, cuts)) => Ok(Some(Event::Say(role, payload, cuts))),
            None => Ok(None),
        },
        _ if allowed == AllowedEvents::SayOnly => Ok(None),
        EventKind::Write => match read_bytes(alloc, operands, 65535)? {
            Some(payload) => Ok(Some(Event::Write(role, payload))),
            None => Ok(None),
        },
        EventKind::Deliver => match read_delivery(operands) {
            Some((number, cuts)) => Ok(Some(Event::Deliver(role, number, cuts))),
            None => Ok(None),
        },
        EventKind::Raw => match read_bytes(alloc, operands, 131072)? {
            Some(bytes) => Ok(Some(Event::Raw(role, bytes))),
            None => Ok(None),
        },
    }
}

// The kind of event, its role, and what follows them.
fn split_event(text: &[u8]) -> Option<(EventKind, Role, &[u8])>
    ensures text { IfSome result
        (λ parts. text.now ≡ kind_word parts.0 ++ 32 ∷ (role_word parts.1 ++ 32 ∷ parts.2.now)) }
    ensures every { (kind : EventKind) (role : Role) (operands : List ℕ)
        → text.now ≡ kind_word kind ++ 32 ∷ (role_word role ++ 32 ∷ operands)
        → MatchOption result (Unit {0} → ⊥) (λ parts. (parts.0 ≡ kind) × (parts.1 ≡ role) × (parts.2.now ≡ operands)) }
{
    let (kind, rest) = split_once(text, b' ')?;
    let (role, operands) = split_once(rest, b' ')?;
    Some((read_kind(kind)?, read_role(role)?, operands))
}

// A payload and the chunks of its frame.
fn read_say(alloc: Global, words: &[u8]) -> Result<Option<(Vec<u8>, Cuts)>, AllocError>
    ensures text { IfOk result
        (λ found. IfSome found (λ say. words.now ≡ hex_of say.0.items ++ 32 ∷ lengths_word say.1)) }
    ensures right { IfOk result (λ found. IfSome found (λ say. IsShort say.0.items × AreCuts say.1)) }
    ensures every { (payload cuts : List ℕ) → IsShort payload → AreCuts cuts
        → words.now ≡ hex_of payload ++ 32 ∷ lengths_word cuts
        → IfOk result (λ found. IsSome found) }
{
    let Some((payload, cuts)) = split_once(words, b' ') else {
        return Ok(None);
    };
    let Some(cuts) = read_cuts(cuts) else {
        return Ok(None);
    };
    let Some(payload) = read_bytes(alloc, payload, 65535)? else {
        return Ok(None);
    };
    Ok(Some((payload, cuts)))
}

// A frame's number and its chunks.
fn read_delivery(words: &[u8]) -> Option<(usize, Cuts)>
    ensures text { IfSome result (λ delivery. words.now ≡ decimal delivery.0 ++ 32 ∷ lengths_word delivery.1) }
    ensures right { IfSome result (λ delivery. (delivery.0 < 2 ^ 32) × AreCuts delivery.1) }
    ensures every { (number : ℕ) (cuts : List ℕ) → number < 2 ^ 32 → AreCuts cuts
        → words.now ≡ decimal number ++ 32 ∷ lengths_word cuts
        → IsSome result }
{
    let (number, cuts) = split_once(words, b' ')?;
    Some((read_frame_number(number)?, read_cuts(cuts)?))
}
