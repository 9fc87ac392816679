//! The lines of what is expected.

ghost use Rattle.std.specs.Prelude.{◌≡◌, ◌++◌, ◌↔◌, [], ℕ, List, Vec, IfErr, IfOk, IfSome, IsTrue, MatchOption, codes};
ghost use Rattle.std.specs.Global.{Global};
ghost use Rattle.std.specs.List.{All};
ghost use Rattle.noise_vectors.specs.Lines.{last_number};
ghost use Rattle.noise_vectors.specs.VectorFile.{IsExpected};
ghost use Rattle.noise_vectors.specs.ReaderFaults.{ReportsAfter, expect_lines};
ghost use Rattle.noise_vectors.specs.VectorText.{expect_words, lines_of};
ghost use Rattle.noise_vectors.specs.declared.faults.VectorFault.TheVariants.{Memory};

use crate::faults::{LineKind, VectorFault};
use crate::lines::Lines;
use std::alloc::Global;

/// The lines of output that are expected, as far as the text's end. A line that is no such one is a fault of the events
/// where it is the first.
pub(crate) fn read_expected(
    alloc: Global,
    lines: &mut Lines<'_>,
) -> Result<Vec<Vec<u8>>, VectorFault>
    ensures text { IfOk result (λ expected. lines.old.rest.now ≡ lines_of expect_words expected.items []) }
    ensures right { IfOk result (λ expected. All (λ words. IsExpected words.items) expected.items) }
    ensures reported { IfErr result (ReportsAfter expect_lines lines.old.rest.now (last_number lines.old)) }
    ensures every { (expected : List (Vec ℕ Global)) → All (λ words. IsExpected words.items) expected
        → lines.old.rest.now ≡ lines_of expect_words expected []
        → IfErr result (λ fault. fault ≡ Memory) }
{
    let mut expected = Vec::new(alloc);
    let mut kind = LineKind::Event;
    while !lines.is_empty() {
        let line = lines.next()?;
        let Some(words) = read_expectation(line) else {
            return Err(lines.fault(kind));
        };
        lines.end()?;
        let words = Vec::from_slice(alloc, words)?;
        if expected.push(words).is_err() {
            return Err(VectorFault::Memory);
        }
        kind = LineKind::Expect;
    }
    Ok(expected)
}

// The line of output that a line expects.
fn read_expectation(text: &[u8]) -> Option<&[u8]>
    ensures text { IfSome result (λ words. text.now ≡ codes "expect " ++ words.now) }
    ensures right { IfSome result (λ words. IsExpected words.now) }
    ensures every { (words : List ℕ) → IsExpected words → text.now ≡ codes "expect " ++ words
        → MatchOption result (Unit {0} → ⊥) (λ found. found.now ≡ words) }
{
    let words = text.strip_prefix(b"expect ".as_slice())?;
    if !is_printed(words) {
        return None;
    }
    Some(words)
}

// Whether it is at least one byte, and each one is printed.
fn is_printed(words: &[u8]) -> bool
    ensures { IsTrue result ↔ IsExpected words.now }
{
    !words.is_empty() && words.iter().all(|b| (b' '..=b'~').contains(b))
}
