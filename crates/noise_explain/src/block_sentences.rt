//! The sentences on the pattern that a vector file spells, and on a file that ends too early.

use crate::advice::{Advice, Sentences};
use crate::line_column::{block_fault, block_of, first_word};
use crate::line_place::{has_end, is_own, needed_role};
use crate::position::line_at;
use crate::text_advice::fault_advice;
use noise_names::Role;

// What is wrong with a line of that pattern.
#[rattlefmt::skip]
pub(crate) fn block_reported(text: &[u8], number: usize, column: usize) -> Sentences {
    if lacks_block(text) {
        return NO_BLOCK;
    }
    match (block_of(text), block_fault(text)) {
        (Some(block), Some(fault)) if fault.line == number.saturating_sub(2) => {
            fault_advice(block, fault, column).sentences()
        }
        _ => ("The pattern's first line has the base and the psk modifiers of the protocol's name, and a colon, and this one doesn't.",
            "Write it so, or change the name in the line above."),
    }
}

const NO_BLOCK: Sentences = (
    "The pattern of this protocol isn't a fundamental one, so its text has to stand below line 2, and it doesn't.",
    "Put it there, and after it the line end.",
);

// Whether the prologue's line stands where the pattern has to.
fn lacks_block(text: &[u8]) -> bool {
    line_at(text, 3).starts_with(b"prologue".as_slice())
}

// What is missing after the last line.
pub(crate) fn ending_reported(text: &[u8], number: usize, line: &[u8]) -> Sentences {
    if !line.is_empty() {
        return Advice::LineFeedMissing.sentences();
    }
    if is_own(text) && !has_end(text) {
        return if lacks_block(text) { NO_BLOCK } else { NO_END };
    }
    next_reported(first_word(line_at(text, number.saturating_sub(1))), text)
}

const NO_END: Sentences = (
    "The line end has to stand after the pattern that the file spells, and the file ends before it.",
    "Put it after the pattern's last line.",
);

// Which line has to follow the one that begins with this word.
#[rattlefmt::skip]
fn next_reported(last: &[u8], text: &[u8]) -> Sentences {
    if last == b"vector".as_slice() {
        ("The file ends before the protocol's line.",
            "Add it, for example: protocol Noise_XX_25519_ChaChaPoly_SHA256")
    } else if last == b"protocol".as_slice() || last == b"end".as_slice() {
        ("The file ends before the prologue's line.", "Add it. Without a prologue it is: prologue -")
    } else if last == b"prologue".as_slice() {
        ("The file ends before the interval's line.", "Add it. Where no key is rekeyed it is: interval 0")
    } else if needed_role(text, usize::MAX) == Role::Responder {
        ("The file ends before the responder's line.", "Add it, for example: responder xor - -")
    } else {
        ("The file ends before the initiator's line.", "Add it, for example: initiator xor - -")
    }
}
