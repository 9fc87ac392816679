//! Bytes as words of hex digits.

ghost use Rattle.std.specs.Prelude.{◌≡◌, ◌↔◌, ◌+◌, ◌<◌, ◌++◌, ℕ, List, length, vec_len, vec_capacity, IfOk, IfSome, IsSome, IsTrue, OnOk, OnErr, Ok, None};
ghost use Rattle.noise_vectors.specs.HexWord.{hex_of, is_lower_digit, IsDigits, IsHexWord};
ghost use Rattle.noise_vectors.specs.VectorFile.{AreBytes};

use std::alloc::{AllocError, Global};

/// Appends the word of these bytes: two lower-case hex digits for each, and `-` for none.
pub fn hex_word(bytes: &[u8], out: &mut Vec<u8>) -> Result<(), AllocError>
    ensures appended { OnOk result (out.new.items ≡ out.old.items ++ hex_of bytes.now) }
    ensures unchanged { OnErr result (out.new.items ≡ out.old.items) }

    // It asks for memory only where the capacity is too small.
    ensures full { OnErr result (vec_capacity out.old < vec_len out.old + length (hex_of bytes.now)) }
{
    if bytes.is_empty() {
        out.push(b'-')?;
        return Ok(());
    }
    let start = out.len();
    let Some(end) = start.checked_add(bytes.len().saturating_mul(2)) else {
        return Err(AllocError);
    };
    out.resize(end, 0)?;
    hex::encode_to_slice(bytes, &mut out[start..]).unwrap();
    Ok(())
}

/// The bytes that a word stands for, or None where it is no word of any bytes: `-` is no bytes, and upper-case digits
/// are not taken.
pub fn read_hex(alloc: Global, word: &[u8]) -> Result<Option<Vec<u8>>, AllocError>
    ensures value { IfOk result (λ found. IfSome found (λ bytes. word.now ≡ hex_of bytes.items)) }
    ensures found { IfOk result (λ found. IsSome found ↔ IsHexWord word.now) }

    // A word that is none asks for no memory.
    ensures none { ¬ IsHexWord word.now → result ≡ Ok None }
{
    if word == b"-".as_slice() {
        return Ok(Some(Vec::new(alloc)));
    }
    if !is_digits(word) {
        return Ok(None);
    }
    match hex::decode(alloc, word) {
        Ok(bytes) => Ok(Some(bytes)),
        Err(_) => Err(AllocError),
    }
}

/// Whether it is the word of at most so many bytes.
pub fn is_hex_word(word: &[u8], most: usize) -> bool
    ensures { IsTrue result ↔ (bytes : List ℕ) × AreBytes most bytes × (word.now ≡ hex_of bytes) }
{
    if word == b"-".as_slice() {
        return true;
    }
    if word.len() / 2 > most {
        return false;
    }
    is_digits(word)
}

/// Whether it is the lower-case hex digits of one byte or more.
pub(crate) fn is_digits(word: &[u8]) -> bool
    ensures { IsTrue result ↔ IsDigits word.now }
{
    !word.is_empty() && word.len() % 2 == 0 && word.iter().all(|digit| is_lower_digit(*digit))
}

// Whether it is a lower-case hex digit.
fn is_lower_digit(byte: u8) -> bool
    ensures { result ≡ is_lower_digit byte }
{
    matches!(byte, b'0'..=b'9' | b'a'..=b'f')
}
