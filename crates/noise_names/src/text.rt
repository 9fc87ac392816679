//! The text of a pattern, which is written and read.

mod fault;
mod read;
mod write;

use crate::{Pattern, TextFault};
use std::alloc::AllocError;

impl Pattern {
    ghost use Rattle.std.specs.Prelude.{◌≡◌, ◌≤◌, ◌<◌, ◌+◌, ◌++◌, ℕ, List, length, vec_len, vec_capacity, OnOk, OnErr, IfOk, IfErr, Ok};
    ghost use Rattle.noise_names.specs.Plan.{Plan};
    ghost use Rattle.noise_names.specs.Text.{text_of, Spells};
    ghost use Rattle.noise_names.specs.WrongText.{IsTextFault};

    /// The pattern that the text spells, within the limits of [`Pattern`]. A pattern has exactly one text. Else the
    /// first line with a fault is reported, counted from 1, and what is wrong in it.
    pub fn parse_text(text: &[u8]) -> Result<Pattern, TextFault>
        ensures spelled { IfOk result (λ pattern. Spells text.now pattern) }
        ensures every { (pattern : Plan) → Spells text.now pattern → result ≡ Ok pattern }
        ensures reported { IfErr result (IsTextFault text.now) }
    {
        match read::read(text) {
            Some(pattern) => Ok(pattern),
            None => Err(fault::first_fault(text)),
        }
    }

    /// Appends the pattern's text: its heading, its pre-messages and its messages, each line with a line feed after it.
    /// It appends at most 413 bytes. Without memory for them `out` stays as it was.
    pub fn write_text(&self, out: &mut Vec<u8>) -> Result<(), AllocError>
        ensures written { OnOk result (out.new.items ≡ out.old.items ++ text_of self.now) }
        ensures bound { length (text_of self.now) ≤ 413 }
        ensures unchanged { OnErr result (out.new.items ≡ out.old.items) }

        // It asks for memory only where the capacity is too small.
        ensures full { OnErr result (vec_capacity out.old < vec_len out.old + length (text_of self.now)) }
    {
        out.extend_from_slice(&write::text(self))
    }
}
