//! Reading a vector file: the order of its lines.

ghost use Rattle.std.specs.Prelude.{◌≡◌, ◌<◌, ◌≤◌, ◌^◌, ◌++◌, ℕ, List, Option, Some, None, Bool, false, codes, decimal, vec_len, IfErr, IfOk, IfSome, IsFalse, IsOk, IsSome, MatchResult};
ghost use Rattle.std.specs.Bool.{nat_eq};
ghost use Rattle.std.specs.List.{starts_with};
ghost use Rattle.noise_names.specs.Names.{IsSection, Section, name_bytes};
ghost use Rattle.noise_names.specs.Plan.{Plan};
ghost use Rattle.noise_names.specs.Fundamental.{fundamental_of};
ghost use Rattle.noise_vectors.specs.Lines.{last_number};
ghost use Rattle.noise_vectors.specs.HexWord.{hex_of};
ghost use Rattle.noise_vectors.specs.ReaderFaults.{IsHeaderLine, IsIntervalLine, IsPrologueLine, IsProtocolLine, ReportsAfter, ReportsBlock, ReportsLine, psk_lines};
ghost use Rattle.noise_vectors.specs.VectorText.{block_text, header_words, line_then, lines_of, psk_words, file_text};
ghost use Rattle.noise_vectors.specs.WrongLine.{IsReported};
ghost use Rattle.noise_vectors.specs.VectorFile.{ArePsks, IsAllowedFile, IsOwn, IsShort, IsVectorFile};
ghost use Rattle.noise_vectors.specs.Words.{IsKey};
ghost use Rattle.noise_vectors.specs.declared.faults.VectorFault.TheVariants.{Memory};
ghost use Rattle.noise_vectors.specs.declared.vector.AllowedEvents.TheVariants.{VersionOne};

use crate::additions::read_version;
use crate::block::read_block;
use crate::events::read_events;
use crate::faults::{LineKind, VectorFault};
use crate::lines::Lines;
use crate::parties::read_party;
use crate::vector::{AllowedEvents, VectorFile};
use crate::words::{read_bytes, read_key, read_number};
use arrayvec::ArrayVec;
use noise_names::{Pattern, ProtocolName, Role, fundamental};
use std::alloc::{AllocError, Global};

/// What this text says, or the first line of it that isn't as it has to be.
pub fn read_vector(
    alloc: Global,
    text: &[u8],
    allowed: AllowedEvents,
) -> Result<VectorFile, VectorFault>
    ensures text { IfOk result (λ file. text.now ≡ file_text file) }
    ensures right { IfOk result IsVectorFile }
    ensures allowed { IfOk result (IsAllowedFile allowed) }

    // The line that is reported is the first that isn't as it has to be.
    ensures reported { IfErr result (IsReported allowed text.now) }

    // The text of a right file is refused only for lack of memory.
    ensures every { (file : VectorFile) → IsVectorFile file → IsAllowedFile allowed file → text.now ≡ file_text file
        → IfErr result (λ fault. fault ≡ Memory) }
{
    let mut lines = Lines::new(text);
    let second = read_header(&mut lines, allowed)?;
    let protocol = read_protocol(&mut lines)?;
    let block = read_own_pattern(&mut lines, &protocol)?;
    let prologue = read_prologue(alloc, &mut lines)?;
    let interval = read_interval(&mut lines)?;
    let psks = read_psks(&mut lines)?;
    let initiator = read_party(&mut lines, Role::Initiator)?;
    let responder = read_party(&mut lines, Role::Responder)?;
    let events = read_events(alloc, &mut lines, allowed)?;
    let version = read_version(alloc, &mut lines, second, allowed)?;
    Ok(VectorFile {
        protocol,
        block,
        prologue,
        interval,
        psks,
        initiator,
        responder,
        events,
        version,
    })
}

// Whether the file is of version 2.
fn read_header(lines: &mut Lines<'_>, allowed: AllowedEvents) -> Result<bool, VectorFault>
    ensures text { IfOk result (λ second. lines.old.rest.now ≡ line_then (header_words second) lines.new.rest.now) }
    ensures allowed { IfOk result (λ second. allowed ≡ VersionOne → second ≡ false) }
    ensures counted { IfOk result (λ second. last_number lines.new ≡ last_number lines.old) }
    ensures reported { IfErr result
        (ReportsLine (IsHeaderLine allowed) lines.old.rest.now (last_number lines.old) LineKind.Header) }
    ensures every { (second : Bool) (rest : List ℕ) → (allowed ≡ VersionOne → second ≡ false)
        → lines.old.rest.now ≡ line_then (header_words second) rest
        → MatchResult result (λ read. (read ≡ second) × (lines.new.rest.now ≡ rest)) (λ fault. ⊥) }
{
    let line = lines.next()?;
    let Some(second) = is_second(line) else {
        return Err(lines.fault(LineKind::Header));
    };
    if second && allowed == AllowedEvents::VersionOne {
        return Err(lines.fault(LineKind::Header));
    }
    lines.end()?;
    Ok(second)
}

// Whether the line is the header of version 2, where it is a header.
fn is_second(line: &[u8]) -> Option<bool>
    ensures text { IfSome result (λ second. line.now ≡ header_words second) }
    ensures every { (second : Bool) → line.now ≡ header_words second → result ≡ Some second }
{
    if line == b"vector 1".as_slice() {
        Some(false)
    } else if line == b"vector 2".as_slice() {
        Some(true)
    } else {
        None
    }
}

fn read_protocol(lines: &mut Lines<'_>) -> Result<ProtocolName, VectorFault>
    ensures text { IfOk result
        (λ name. lines.old.rest.now ≡ line_then (codes "protocol " ++ name_bytes name) lines.new.rest.now) }
    ensures right { IfOk result IsSection }
    ensures counted { IfOk result (λ name. last_number lines.new ≡ last_number lines.old) }
    ensures reported { IfErr result
        (ReportsLine IsProtocolLine lines.old.rest.now (last_number lines.old) LineKind.Protocol) }
    ensures every { (name : Section) (rest : List ℕ) → IsSection name
        → lines.old.rest.now ≡ line_then (codes "protocol " ++ name_bytes name) rest
        → MatchResult result (λ read. (read ≡ name) × (lines.new.rest.now ≡ rest)) (λ fault. ⊥) }
{
    let line = lines.next()?;
    let Some(name) = protocol_of(line) else {
        return Err(lines.fault(LineKind::Protocol));
    };
    lines.end()?;
    Ok(name)
}

// The name in the line.
fn protocol_of(line: &[u8]) -> Option<ProtocolName>
    ensures text { IfSome result (λ name. line.now ≡ codes "protocol " ++ name_bytes name) }
    ensures right { IfSome result IsSection }
    ensures every { (name : Section) → IsSection name → line.now ≡ codes "protocol " ++ name_bytes name
        → result ≡ Some name }
{
    ProtocolName::parse(line.strip_prefix(b"protocol ".as_slice())?).ok()
}

// The pattern that the file spells itself, where no fundamental one has this name's base.
fn read_own_pattern(
    lines: &mut Lines<'_>,
    protocol: &ProtocolName,
) -> Result<Option<Pattern>, VectorFault>
    ensures text { IfOk result (λ block. lines.old.rest.now ≡ block_text block lines.new.rest.now) }
    ensures right { IfOk result (IsOwn protocol.now) }
    ensures counted { IfOk result (λ block. last_number lines.new ≡ last_number lines.old) }
    ensures reported { IsSection protocol.now
        → IfErr result (ReportsBlock protocol.now lines.old.rest.now (last_number lines.old)) }
    ensures own { IfErr result (λ fault. fundamental_of protocol.now.base ≡ None) }
    ensures every { (block : Option Plan) (rest : List ℕ) → IsOwn protocol.now block
        → lines.old.rest.now ≡ block_text block rest
        → MatchResult result (λ found. (found ≡ block) × (lines.new.rest.now ≡ rest)) (λ fault. ⊥) }
{
    match fundamental(protocol.base()) {
        Some(_) => Ok(None),
        None => Ok(Some(read_block(lines, protocol)?)),
    }
}

fn read_prologue(alloc: Global, lines: &mut Lines<'_>) -> Result<Vec<u8>, VectorFault>
    ensures text { IfOk result
        (λ bytes. lines.old.rest.now ≡ line_then (codes "prologue " ++ hex_of bytes.items) lines.new.rest.now) }
    ensures bound { IfOk result (λ bytes. vec_len bytes ≤ 65535) }
    ensures right { IfOk result (λ bytes. IsShort bytes.items) }
    ensures counted { IfOk result (λ bytes. last_number lines.new ≡ last_number lines.old) }
    ensures reported { IfErr result
        (ReportsLine IsPrologueLine lines.old.rest.now (last_number lines.old) LineKind.Prologue) }
    ensures every { (bytes rest : List ℕ) → IsShort bytes
        → lines.old.rest.now ≡ line_then (codes "prologue " ++ hex_of bytes) rest
        → MatchResult result (λ read. lines.new.rest.now ≡ rest) (λ fault. fault ≡ Memory) }
{
    let line = lines.next()?;
    let Some(prologue) = prologue_of(alloc, line)? else {
        return Err(lines.fault(LineKind::Prologue));
    };
    lines.end()?;
    Ok(prologue)
}

// The bytes in the line.
fn prologue_of(alloc: Global, line: &[u8]) -> Result<Option<Vec<u8>>, AllocError>
    ensures text { IfOk result (λ found. IfSome found (λ bytes. line.now ≡ codes "prologue " ++ hex_of bytes.items)) }
    ensures bound { IfOk result (λ found. IfSome found (λ bytes. vec_len bytes ≤ 65535)) }
    ensures right { IfOk result (λ found. IfSome found (λ bytes. IsShort bytes.items)) }
    ensures every { (bytes : List ℕ) → IsShort bytes → line.now ≡ codes "prologue " ++ hex_of bytes
        → IfOk result (λ found. IsSome found) }
{
    match line.strip_prefix(b"prologue ".as_slice()) {
        Some(word) => read_bytes(alloc, word, 65535),
        None => Ok(None),
    }
}

fn read_interval(lines: &mut Lines<'_>) -> Result<u64, VectorFault>
    ensures text { IfOk result
        (λ interval. lines.old.rest.now ≡ line_then (codes "interval " ++ decimal interval) lines.new.rest.now) }
    ensures counted { IfOk result (λ interval. last_number lines.new ≡ last_number lines.old) }
    ensures reported { IfErr result
        (ReportsLine IsIntervalLine lines.old.rest.now (last_number lines.old) LineKind.Interval) }
    ensures every { (interval : ℕ) (rest : List ℕ) → interval < 2 ^ 64
        → lines.old.rest.now ≡ line_then (codes "interval " ++ decimal interval) rest
        → IsOk result × (lines.new.rest.now ≡ rest) }
{
    let line = lines.next()?;
    let Some(interval) = interval_of(line) else {
        return Err(lines.fault(LineKind::Interval));
    };
    lines.end()?;
    Ok(interval)
}

// The number in the line.
fn interval_of(line: &[u8]) -> Option<u64>
    ensures text { IfSome result (λ interval. line.now ≡ codes "interval " ++ decimal interval) }
    ensures every { (interval : ℕ) → interval < 2 ^ 64 → line.now ≡ codes "interval " ++ decimal interval
        → result ≡ Some interval }
{
    read_number(line.strip_prefix(b"interval ".as_slice())?)
}

fn read_psks(lines: &mut Lines<'_>) -> Result<ArrayVec<[u8; 32], 9>, VectorFault>
    ensures text { IfOk result (λ psks. lines.old.rest.now ≡ lines_of psk_words psks.items lines.new.rest.now) }
    ensures right { IfOk result (λ psks. ArePsks psks.items) }
    ensures ended { IfOk result (λ psks. IsFalse (starts_with nat_eq lines.new.rest.now (codes "psk "))) }
    ensures counted { IfOk result (λ psks. last_number lines.new ≡ last_number lines.old) }
    ensures reported { IfErr result (ReportsAfter psk_lines lines.old.rest.now (last_number lines.old)) }
    ensures every { (psks : List (List ℕ)) (rest : List ℕ) → ArePsks psks
        → IsFalse (starts_with nat_eq rest (codes "psk ")) → lines.old.rest.now ≡ lines_of psk_words psks rest
        → IsOk result × (lines.new.rest.now ≡ rest) }
{
    let mut psks = ArrayVec::new();
    while lines.rest.starts_with(b"psk ".as_slice()) {
        let line = lines.next()?;
        let Some(psk) = read_psk(line) else {
            return Err(lines.fault(LineKind::Psk));
        };
        if psks.try_push(psk).is_err() {
            return Err(lines.fault(LineKind::Psk));
        }
        lines.end()?;
    }
    Ok(psks)
}

fn read_psk(line: &[u8]) -> Option<[u8; 32]>
    ensures text { IfSome result (λ psk. line.now ≡ psk_words psk) }
    ensures right { IfSome result IsKey }
    ensures every { (psk : List ℕ) → IsKey psk → line.now ≡ psk_words psk → IsSome result }
{
    read_key(line.strip_prefix(b"psk ".as_slice())?)
}
