//! The pattern that a file spells itself.

ghost use Rattle.std.specs.Prelude.{◌≡◌, ◌↔◌, ◌+◌, ◌++◌, [], ℕ, List, None, IfErr, IfOk, IfSome, IsFalse, IsTrue, MatchResult, Ok, codes};
ghost use Rattle.std.specs.List.{All};
ghost use Rattle.noise_names.specs.Limits.{IsPattern};
ghost use Rattle.noise_names.specs.Names.{IsSection};
ghost use Rattle.noise_names.specs.Plan.{Plan};
ghost use Rattle.noise_names.specs.Text.{text_of as pattern_text};
ghost use Rattle.noise_vectors.specs.Lines.{last_number};
ghost use Rattle.noise_vectors.specs.Block.{IsInner, itself};
ghost use Rattle.noise_vectors.specs.ReaderFaults.{ReportsBlock, ReportsOpen};
ghost use Rattle.noise_vectors.specs.VectorText.{line_then, lines_of};
ghost use Rattle.noise_vectors.specs.WrongLine.{Block, HasHeading, IsWrongIn};
ghost use Rattle.noise_vectors.specs.OwnPattern.{HasName};

use crate::faults::{LineKind, VectorFault};
use crate::lines::Lines;
use crate::words::split_once;
use noise_names::{Pattern, ProtocolName};

/// The pattern of this name that the lines before the next line `end` spell, and that line.
pub(crate) fn read_block(
    lines: &mut Lines<'_>,
    protocol: &ProtocolName,
) -> Result<Pattern, VectorFault>
    ensures text { IfOk result
        (λ pattern. lines.old.rest.now ≡ pattern_text pattern ++ line_then (codes "end") lines.new.rest.now) }
    ensures right { IfOk result IsPattern }
    ensures named { IfOk result (λ pattern. HasName pattern protocol.now) }
    ensures counted { IfOk result (λ pattern. last_number lines.new ≡ last_number lines.old) }
    ensures reported { IsSection protocol.now
        → IfErr result (ReportsBlock protocol.now lines.old.rest.now (last_number lines.old)) }
    ensures every { (pattern : Plan) (rest : List ℕ) → IsPattern pattern → HasName pattern protocol.now
        → lines.old.rest.now ≡ pattern_text pattern ++ line_then (codes "end") rest
        → MatchResult result (λ read. (read ≡ pattern) × (lines.new.rest.now ≡ rest)) (λ fault. ⊥) }
{
    let before = lines.number;
    let text = take_block(lines)?;
    match pattern_of(text, protocol) {
        Ok(pattern) => {
            lines.end()?;
            Ok(pattern)
        }
        Err(number) => Err(VectorFault::Line(before.saturating_add(number), LineKind::Pattern)),
    }
}

/// The lines of a text before the next line `end`, if there is one.
pub fn lines_before_end(text: &[u8]) -> Option<&[u8]>
    ensures block { IfSome result (λ found. (block : Block text.now) × (found.now ≡ lines_of itself block.lines [])) }
    ensures none { result ≡ None → ¬ Block text.now }
{
    let mut lines = Lines::new(text);
    match take_block(&mut lines) {
        Ok(found) => Some(found),
        Err(_) => None,
    }
}

// The lines before the next line `end`, which is read too.
fn take_block<'a>(lines: &mut Lines<'a>) -> Result<&'a [u8], VectorFault>
    ensures text { IfOk result
        (λ text. IsTrue lines.new.is_ended
        → lines.old.rest.now ≡ text.now ++ line_then (codes "end") lines.new.rest.now) }
    ensures block { IfOk result
        (λ text. (block : Block lines.old.rest.now) × (text.now ≡ lines_of itself block.lines [])) }
    ensures counted { IfOk result (λ text. IsTrue lines.new.is_ended → last_number lines.new ≡ last_number lines.old) }
    ensures last { IfOk result (λ text. IsFalse lines.new.is_ended → lines.new.number ≡ last_number lines.old + 1) }
    ensures reported { IfErr result (ReportsOpen lines.old.rest.now (last_number lines.old)) }
    ensures every { (before : List (List ℕ)) (rest : List ℕ) → All IsInner before
        → lines.old.rest.now ≡ lines_of itself before (line_then (codes "end") rest) → MatchResult result (λ text.
        (text.now ≡ lines_of itself before []) × (lines.new.rest.now ≡ rest) × IsTrue lines.new.is_ended) (λ fault. ⊥) }
{
    let text = lines.rest;
    loop {
        let left = lines.rest.len();
        if lines.next()? == b"end".as_slice() {
            return Ok(&text[..text.len() - left]);
        }
        lines.end()?;
    }
}

// The pattern of this name that the text spells, or the number of the line in it that is wrong, counted from 1.
fn pattern_of(text: &[u8], protocol: &ProtocolName) -> Result<Pattern, usize>
    ensures spelled { IfOk result (λ pattern. text.now ≡ pattern_text pattern) }
    ensures right { IfOk result IsPattern }
    ensures named { IfOk result (λ pattern. HasName pattern protocol.now) }
    ensures every { (pattern : Plan) → IsPattern pattern → HasName pattern protocol.now
        → text.now ≡ pattern_text pattern
        → result ≡ Ok pattern }
    ensures reported { IsSection protocol.now → IfErr result (IsWrongIn protocol.now text.now) }
{
    match Pattern::parse_text(text) {
        Ok(pattern) if pattern.name() == *protocol => Ok(pattern),
        Err(fault) if has_heading(text, protocol) => Err(fault.line),
        _ => Err(1),
    }
}

// Whether the first line is the pattern section of this name, which stands between its first two `_`, and a colon.
fn has_heading(text: &[u8], protocol: &ProtocolName) -> bool
    ensures { IsSection protocol.now → IsTrue result ↔ HasHeading protocol.now text.now }
{
    let name = protocol.write();
    let Some((_, after)) = split_once(&name, b'_') else {
        return false;
    };
    let Some((section, _)) = split_once(after, b'_') else {
        return false;
    };
    match text.strip_prefix(section) {
        Some(after) => after.starts_with(b":\n".as_slice()),
        None => false,
    }
}
