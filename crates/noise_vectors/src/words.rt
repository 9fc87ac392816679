//! The words in the lines of a vector file.

ghost use Rattle.std.specs.Prelude.{◌≡◌, ◌↔◌, ◌<◌, ◌≤◌, ◌^◌, ◌==◌, ℕ, List, ◌∷◌, ◌++◌, Option, Some, None, decimal, length, position, slice_index, vec_len, IfOk, IfSome, IsSome, IsTrue, MatchOption};
ghost use Rattle.noise_vectors.specs.HexWord.{hex_of};
ghost use Rattle.hex.specs.Hex.{encode_lower};
ghost use Rattle.noise_keys.specs.declared.keys.Own.{Own};
ghost use Rattle.noise_names.specs.declared.token.Role.{Role};
ghost use Rattle.noise_vectors.specs.VectorFile.{AreBytes};
ghost use Rattle.noise_vectors.specs.VectorText.{datagram_kind_word, key_word, kind_word, own_word, role_word};
ghost use Rattle.noise_vectors.specs.declared.words.DatagramKind.{DatagramKind};
ghost use Rattle.noise_vectors.specs.declared.words.EventKind.{EventKind};
ghost use Rattle.noise_vectors.specs.Words.{IsKey, lacks};

use crate::hex_words::{is_digits, read_hex};
use noise_keys::Own;
use noise_names::Role;
use std::alloc::{AllocError, Global};
use std::str;

/// The kinds of events.
#[derive(Clone, Copy)]
pub(crate) enum EventKind {
    Say,
    Write,
    Deliver,
    Raw,
}

/// The kinds of events after `datagrams`.
#[derive(Clone, Copy)]
pub(crate) enum DatagramKind {
    Seal,
    Open,
    Foreign,
}

/// What comes before the first such byte, and what follows it.
pub(crate) fn split_once(text: &[u8], separator: u8) -> Option<(&[u8], &[u8])>
    ensures parts { IfSome result (λ parts. text.now ≡ parts.0.now ++ separator ∷ parts.1.now) }
    ensures first { IfSome result (λ parts. IsTrue (lacks separator parts.0.now)) }
    ensures none { result ≡ None → IsTrue (lacks separator text.now) }
    ensures every { (before after : List ℕ) → IsTrue (lacks separator before) → text.now ≡ before ++ separator ∷ after
        → MatchOption result (Unit {0} → ⊥) (λ parts. (parts.0.now ≡ before) × (parts.1.now ≡ after)) }
{
    let place = place_of(text, separator)?;
    Some((&text[..place], &text[place + 1..]))
}

// Where the first such byte is.
fn place_of(text: &[u8], byte: u8) -> Option<usize>
    ensures { result ≡ position (λ b. b == byte) text.now }
{
    text.iter().position(|b| *b == byte)
}

/// A decimal number below 2^64, without sign or leading zeros.
pub fn read_number(word: &[u8]) -> Option<u64>
    ensures value { IfSome result (λ number. word.now ≡ decimal number) }
    ensures every { (number : ℕ) → number < 2 ^ 64 → word.now ≡ decimal number → result ≡ Some number }
{
    if !is_led(word) {
        return None;
    }
    match str::from_utf8(word).ok()?.parse() {
        Ok(number) => Some(number),
        Err(_) => None,
    }
}

// Whether it begins as a number does: with a digit that is no leading zero.
fn is_led(word: &[u8]) -> bool
    ensures { IsTrue result ↔ (48 ≤ slice_index word.now 0) × (slice_index word.now 0 ≤ 57)
        × (slice_index word.now 0 ≡ 48 → length word.now ≡ 1) }
{
    match word {
        [b'0'] => true,
        [b'1'..=b'9', ..] => true,
        _ => false,
    }
}

/// A number below 65536.
pub(crate) fn read_length(word: &[u8]) -> Option<u16>
    ensures value { IfSome result (λ length. word.now ≡ decimal length) }
    ensures every { (length : ℕ) → length < 65536 → word.now ≡ decimal length → result ≡ Some length }
{
    u16::try_from(read_number(word)?).ok()
}

/// A key of 64 lower-case hex digits.
pub fn read_key(word: &[u8]) -> Option<[u8; 32]>
    ensures value { IfSome result (λ key. word.now ≡ encode_lower key) }
    ensures right { IfSome result IsKey }
    ensures every { (key : List ℕ) → IsKey key → word.now ≡ encode_lower key → result ≡ Some key }
{
    if !is_digits(word) {
        return None;
    }
    let mut key = [0; 32];
    hex::decode_to_slice(word, &mut key).ok()?;
    Some(key)
}

/// A key, or `-` for none.
pub fn read_optional_key(word: &[u8]) -> Option<Option<[u8; 32]>>
    ensures value { IfSome result (λ key. word.now ≡ key_word key) }
    ensures right { IfSome result (λ key. IfSome key IsKey) }
    ensures every { (key : Option (List ℕ)) → IfSome key IsKey → word.now ≡ key_word key → result ≡ Some key }
{
    if word == b"-".as_slice() {
        return Some(None);
    }
    Some(Some(read_key(word)?))
}

/// `initiator` or `responder`.
pub fn read_role(word: &[u8]) -> Option<Role>
    ensures value { IfSome result (λ role. word.now ≡ role_word role) }
    ensures every { (role : Role) → word.now ≡ role_word role → result ≡ Some role }
{
    if word == b"initiator".as_slice() {
        Some(Role::Initiator)
    } else if word == b"responder".as_slice() {
        Some(Role::Responder)
    } else {
        None
    }
}

/// `say`, `write`, `deliver` or `raw`.
pub(crate) fn read_kind(word: &[u8]) -> Option<EventKind>
    ensures value { IfSome result (λ kind. word.now ≡ kind_word kind) }
    ensures every { (kind : EventKind) → word.now ≡ kind_word kind → result ≡ Some kind }
{
    if word == b"say".as_slice() {
        Some(EventKind::Say)
    } else if word == b"write".as_slice() {
        Some(EventKind::Write)
    } else if word == b"deliver".as_slice() {
        Some(EventKind::Deliver)
    } else if word == b"raw".as_slice() {
        Some(EventKind::Raw)
    } else {
        None
    }
}

/// `seal`, `open` or `foreign`.
pub(crate) fn read_datagram_kind(word: &[u8]) -> Option<DatagramKind>
    ensures value { IfSome result (λ kind. word.now ≡ datagram_kind_word kind) }
    ensures every { (kind : DatagramKind) → word.now ≡ datagram_kind_word kind → result ≡ Some kind }
{
    if word == b"seal".as_slice() {
        Some(DatagramKind::Seal)
    } else if word == b"open".as_slice() {
        Some(DatagramKind::Open)
    } else if word == b"foreign".as_slice() {
        Some(DatagramKind::Foreign)
    } else {
        None
    }
}

/// `e` for the ephemeral key pair, or `s` for the static one.
pub fn read_own(word: &[u8]) -> Option<Own>
    ensures value { IfSome result (λ own. word.now ≡ own_word own) }
    ensures every { (own : Own) → word.now ≡ own_word own → result ≡ Some own }
{
    match word {
        b"e" => Some(Own::Ephemeral),
        b"s" => Some(Own::Static),
        _ => None,
    }
}

/// A number below 2^32.
pub(crate) fn read_frame_number(word: &[u8]) -> Option<usize>
    ensures value { IfSome result (λ number. word.now ≡ decimal number) }
    ensures right { IfSome result (λ number. number < 2 ^ 32) }
    ensures every { (number : ℕ) → number < 2 ^ 32 → word.now ≡ decimal number → result ≡ Some number }
{
    match u32::try_from(read_number(word)?) {
        Ok(number) => Some(number as usize),
        Err(_) => None,
    }
}

/// The bytes of a hex word, at most so many.
pub(crate) fn read_bytes(
    alloc: Global,
    word: &[u8],
    most: usize,
) -> Result<Option<Vec<u8>>, AllocError>
    ensures text { IfOk result (λ found. IfSome found (λ bytes. word.now ≡ hex_of bytes.items)) }
    ensures bound { IfOk result (λ found. IfSome found (λ bytes. vec_len bytes ≤ most)) }
    ensures right { IfOk result (λ found. IfSome found (λ bytes. AreBytes most bytes.items)) }
    ensures every { (bytes : List ℕ) → AreBytes most bytes → word.now ≡ hex_of bytes → IfOk result
        (λ found. IsSome found) }
{
    if word.len() / 2 > most {
        return Ok(None);
    }
    match read_hex(alloc, word)? {
        Some(bytes) => Ok(Some(bytes)),
        None => Ok(None),
    }
}
