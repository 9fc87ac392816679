//! The lines of a text.

ghost use Rattle.std.specs.Prelude.{◌+◌, ◌<◌, ◌^◌, length};

use crate::faults::{LineKind, VectorFault};
use crate::words::split_once;

/// A text that is read line by line.
#[derive(Drop)]
pub(crate) struct Lines<'a> {
    /// What is still to be read.
    pub rest: &'a [u8],
    /// The number of the line that was read last, 0 before the first.
    pub number: usize,
    /// Whether that line has an LF after it.
    pub is_ended: bool,
    // Each line has at least one byte of the text.
    pub ghost few: { number + length rest.now < 2 ^ 63 },
}

impl<'a> Lines<'a> {
    ghost use Rattle.std.specs.Prelude.{◌≡◌, ◌↔◌, [], List, ℕ, IsTrue, IsFalse, IsOk, IfOk, IfErr, OnErr, MatchResult};
    ghost use Rattle.noise_vectors.specs.Lines.{IsRead, last_number};
    ghost use Rattle.noise_vectors.specs.VectorText.{line_then};
    ghost use Rattle.noise_vectors.specs.Words.{lacks};

    /// The text from its first line on.
    pub fn new(text: &'a [u8]) -> Lines<'a>
        ensures { (result.rest.now ≡ text.now) × (result.number ≡ 0) }
    {
        Lines {
            rest: text,
            number: 0,
            is_ended: true,
        }
    }

    /// The next line without its LF, or the fault that there is none.
    pub fn next(&mut self) -> Result<&'a [u8], VectorFault>
        ensures read { IfOk result (λ text. IsRead self.old text.now self.new) }
        ensures every { (words after : List ℕ) → IsTrue (lacks 10 words) → self.old.rest.now ≡ line_then words after
            → MatchResult result (λ text. (text.now ≡ words) × (self.new.rest.now ≡ after) × IsTrue self.new.is_ended)
            (λ fault. ⊥) }
        ensures shorter { IfOk result (λ text. length self.new.rest.now < length self.old.rest.now) }
        ensures missing { IfErr result
            (λ fault. (self.old.rest.now ≡ [])
            × (fault ≡ VectorFault.Line (last_number self.old + 1) LineKind.Ending)) }
        ensures unchanged { OnErr result (self.new ≡ self.old) }
    {
        let rest = self.rest;
        if rest.is_empty() {
            return Err(VectorFault::Line(self.number + 1, LineKind::Ending));
        }
        match split_once(rest, b'\n') {
            Some((line, after)) => {
                self.rest = after;
                self.number += 1;
                self.is_ended = true;
                Ok(line)
            }
            None => {
                self.rest = &rest[rest.len()..];
                self.number += 1;
                self.is_ended = false;
                Ok(rest)
            }
        }
    }

    /// Whether all lines were read.
    pub fn is_empty(&self) -> bool
        ensures { IsTrue result ↔ (self.now.rest.now ≡ []) }
    {
        self.rest.is_empty()
    }

    /// The fault that the line that was read last isn't as it has to be.
    pub fn fault(&self, kind: LineKind) -> VectorFault
        ensures { result ≡ VectorFault.Line self.now.number kind }
    {
        VectorFault::Line(self.number, kind)
    }

    /// The fault that the line that was read last has no LF after it, if it hasn't.
    pub fn end(&self) -> Result<(), VectorFault>
        ensures ended { IsOk result ↔ IsTrue self.now.is_ended }
        ensures fault { IfErr result
            (λ fault. IsFalse self.now.is_ended × (fault ≡ VectorFault.Line self.now.number LineKind.Ending)) }
    {
        if self.is_ended {
            Ok(())
        } else {
            Err(self.fault(LineKind::Ending))
        }
    }
}
