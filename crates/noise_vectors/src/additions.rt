//! What version 2 adds, after the events.

ghost use Rattle.std.specs.Prelude.{◌≡◌, ℕ, List, Option, Some, None, false, IfErr, IfOk, IfSome, MatchResult};
ghost use Rattle.std.specs.List.{All};
ghost use Rattle.noise_events.specs.declared.window.Window.{Window};
ghost use Rattle.noise_vectors.specs.Lines.{last_number};
ghost use Rattle.noise_vectors.specs.VectorFile.{IsAllowedVersion, IsDatagramEvent, IsVersion};
ghost use Rattle.noise_vectors.specs.ReaderFaults.{ReportsDatagrams, ReportsVersion};
ghost use Rattle.noise_vectors.specs.VectorText.{AfterDatagrams, AfterEvents, datagrams_text, is_second, version_text, window_words};
ghost use Rattle.noise_vectors.specs.declared.faults.VectorFault.TheVariants.{Memory};
ghost use Rattle.noise_vectors.specs.declared.vector.AllowedEvents.TheVariants.{SayOnly, VersionOne};
ghost use Rattle.noise_vectors.specs.declared.vector.FileDatagrams.{FileDatagrams};
ghost use Rattle.noise_vectors.specs.declared.vector.Version.{Version};

use crate::datagram_events::read_datagram_events;
use crate::expected::read_expected;
use crate::faults::{LineKind, VectorFault};
use crate::lines::Lines;
use crate::vector::{Additions, AllowedEvents, FileDatagrams, Version};
use crate::words::read_number;
use noise_events::Window;
use std::alloc::Global;

/// The version, of which the header says whether it is the second, with all that follows the events.
pub(crate) fn read_version(
    alloc: Global,
    lines: &mut Lines<'_>,
    second: bool,
    allowed: AllowedEvents,
) -> Result<Version, VectorFault>
    requires allowed { allowed ≡ VersionOne → second ≡ false }
    ensures text { IfOk result (λ version. lines.old.rest.now ≡ version_text version) }
    ensures which { IfOk result (λ version. is_second version ≡ second) }
    ensures right { IfOk result IsVersion }
    ensures allowed { IfOk result (IsAllowedVersion allowed) }
    ensures reported { AfterEvents lines.old.rest.now
        → IfErr result (ReportsVersion allowed second lines.old.rest.now (last_number lines.old)) }
    ensures every { (version : Version) → IsVersion version → IsAllowedVersion allowed version
        → is_second version ≡ second → lines.old.rest.now ≡ version_text version
        → IfErr result (λ fault. fault ≡ Memory) }
{
    if !second {
        if lines.is_empty() {
            return Ok(Version::One);
        }
        lines.next()?;
        return Err(lines.fault(LineKind::Event));
    }
    let datagrams = read_datagrams(alloc, lines, allowed)?;
    let expected = read_expected(alloc, lines)?;
    Ok(Version::Two(Additions {
        datagrams,
        expected,
    }))
}

// The datagrams, where their first line comes next.
fn read_datagrams(
    alloc: Global,
    lines: &mut Lines<'_>,
    allowed: AllowedEvents,
) -> Result<Option<FileDatagrams>, VectorFault>
    ensures text { IfOk result (λ found. lines.old.rest.now ≡ datagrams_text found lines.new.rest.now) }
    ensures right { IfOk result (λ found. IfSome found (λ datagrams. All IsDatagramEvent datagrams.events.items)) }
    ensures allowed { IfOk result (λ found. allowed ≡ SayOnly → found ≡ None) }
    ensures ended { AfterEvents lines.old.rest.now → IfOk result (λ found. AfterDatagrams lines.new.rest.now) }
    ensures counted { IfOk result (λ found. last_number lines.new ≡ last_number lines.old) }
    ensures reported { IfErr result (ReportsDatagrams allowed lines.old.rest.now (last_number lines.old)) }
    ensures every { (d : Option FileDatagrams) (rest : List ℕ) → IfSome d (λ f. All IsDatagramEvent f.events.items)
        → (allowed ≡ SayOnly → d ≡ None) → AfterDatagrams rest → lines.old.rest.now ≡ datagrams_text d rest
        → MatchResult result (λ found. lines.new.rest.now ≡ rest) (λ fault. fault ≡ Memory) }
{
    if !lines.rest.starts_with(b"datagrams ".as_slice()) {
        return Ok(None);
    }
    let line = lines.next()?;
    let Some(window) = read_window(line) else {
        return Err(lines.fault(LineKind::Event));
    };
    if allowed == AllowedEvents::SayOnly {
        return Err(lines.fault(LineKind::Event));
    }
    lines.end()?;
    let events = read_datagram_events(alloc, lines)?;
    Ok(Some(FileDatagrams { window, events }))
}

// The window that both parties go over with.
fn read_window(text: &[u8]) -> Option<Window>
    ensures text { IfSome result (λ window. text.now ≡ window_words window) }
    ensures every { (window : Window) → text.now ≡ window_words window → result ≡ Some window }
{
    match read_number(text.strip_prefix(b"datagrams ".as_slice())?)? {
        64 => Some(Window::W64),
        256 => Some(Window::W256),
        1024 => Some(Window::W1024),
        _ => None,
    }
}
