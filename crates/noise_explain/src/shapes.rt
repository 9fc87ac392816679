//! What the words of a vector file's lines have to be.

ghost use Rattle.std.specs.Prelude.{◌≡◌, ◌≤◌, ◌↔◌, ℕ, IsTrue, decimal};
ghost use Rattle.noise_explain.specs.VectorColumns.{HasShape};

use noise_names::ProtocolName;
use noise_vectors::{
    is_hex_word, read_cuts, read_key, read_number, read_optional_key, read_own, read_role,
};

/// What a word has to be: its shape is told in `WordFault`.
#[rattlefmt::skip]
#[derive(Clone, Copy)]
pub(crate) enum Shape {
    // `First` is the first word of the line, by which the others are reported; the numbers are the greatest.
    First, Name, Version, Kind, Role, Own, Window, Hex(usize), Key, MaybeKey, Number(u64), Cuts,
}

// Whether a word is what this shape says.
pub(crate) fn has_shape(shape: Shape, word: &[u8]) -> bool
    ensures { IsTrue result ↔ HasShape shape word.now }
{
    match shape {
        Shape::First => true,
        Shape::Name => is_name(word),
        Shape::Version => word == b"1".as_slice() || word == b"2".as_slice(),
        Shape::Kind => word == b"xor".as_slice() || word == b"table".as_slice(),
        Shape::Role => is_role(word),
        Shape::Own => is_own_word(word),
        Shape::Window => is_window(word),
        Shape::Hex(most) => is_hex_word(word, most),
        Shape::Key => is_key(word),
        Shape::MaybeKey => is_optional_key(word),
        Shape::Number(most) => is_number(word, most),
        Shape::Cuts => are_cuts(word),
    }
}

fn is_name(word: &[u8]) -> bool
    ensures { IsTrue result ↔ HasShape Shape.Name word.now }
{
    ProtocolName::parse(word).is_ok()
}

fn is_role(word: &[u8]) -> bool
    ensures { IsTrue result ↔ HasShape Shape.Role word.now }
{
    read_role(word).is_some()
}

fn is_own_word(word: &[u8]) -> bool
    ensures { IsTrue result ↔ HasShape Shape.Own word.now }
{
    read_own(word).is_some()
}

fn is_window(word: &[u8]) -> bool
    ensures { IsTrue result ↔ HasShape Shape.Window word.now }
{
    word == b"64".as_slice() || (word == b"256".as_slice() || word == b"1024".as_slice())
}

fn is_key(word: &[u8]) -> bool
    ensures { IsTrue result ↔ HasShape Shape.Key word.now }
{
    read_key(word).is_some()
}

fn is_optional_key(word: &[u8]) -> bool
    ensures { IsTrue result ↔ HasShape Shape.MaybeKey word.now }
{
    read_optional_key(word).is_some()
}

fn is_number(word: &[u8], most: u64) -> bool
    ensures { IsTrue result ↔ (n : ℕ) × (n ≤ most) × (word.now ≡ decimal n) }
{
    match read_number(word) {
        Some(number) => number <= most,
        None => false,
    }
}

fn are_cuts(word: &[u8]) -> bool
    ensures { IsTrue result ↔ HasShape Shape.Cuts word.now }
{
    read_cuts(word).is_some()
}
