//! The values that the words of a line stand for.

ghost use Rattle.std.specs.Prelude.{◌≡◌, IfOk};
ghost use Rattle.noise_compare.specs.Values.{AreLogged, agreement_or_text, has_bytes, is_none, is_text, items_of, kind_by, kind_in, logged_bytes, logged_if_any, logged_key, logged_word, start_kind, state_in, token_kind, transport_kind, word_array, word_bytes, word_key};

use crate::line::Line;
use crate::state::{Kind, Logged, State};
use crate::words::{is_zero_for_none, number_in};
use hex::FromHexError;
use std::alloc::{AllocError, Global};

/// The bytes of a word of hex digits, and none of `-`; of any other word the word's own.
pub(crate) fn bytes_in(alloc: Global, word: &[u8]) -> Result<Vec<u8>, AllocError>
    ensures { IfOk result (λ bytes. bytes.items ≡ word_bytes word.now) }
{
    if word == b"-".as_slice() {
        return Ok(Vec::new(alloc));
    }
    match hex::decode(alloc, word) {
        Ok(bytes) => Ok(bytes),
        Err(FromHexError::OutOfMemory) => Err(AllocError),
        Err(_) => Vec::from_slice(alloc, word),
    }
}

// The 32 bytes of a word of hex digits; of any other word zeros.
fn array_in(word: &[u8]) -> [u8; 32]
    ensures { result ≡ word_array word.now }
{
    let mut bytes = [0; 32];
    match hex::decode_to_slice(word, &mut bytes) {
        Ok(()) => bytes,
        Err(_) => [0; 32],
    }
}

/// What a word of a log stands for; None where that isn't compared.
pub(crate) fn logged_in(alloc: Global, word: &[u8]) -> Result<Option<Vec<u8>>, AllocError>
    ensures { IfOk result (λ value. items_of value ≡ logged_word word.now) }
{
    if is_none(word) {
        return Ok(Some(Vec::new(alloc)));
    }
    match hex::decode(alloc, word) {
        Ok(bytes) => Ok(Some(bytes)),
        Err(FromHexError::OutOfMemory) => Err(AllocError),
        Err(_) => Ok(None),
    }
}

// Whether it is the word for no bytes.
#[tactic(auto, unfolding(crate::specs::Values::is_none))]
fn is_none(word: &[u8]) -> bool
    ensures { result ≡ is_none word.now }
{
    word == b"-".as_slice()
}

// Likewise of a key, where this is the right one: 32 zero bytes may stand for none.
fn logged_key(alloc: Global, right: &[u8], word: &[u8]) -> Result<Option<Vec<u8>>, AllocError>
    ensures { IfOk result (λ value. items_of value ≡ logged_key right.now word.now) }
{
    if is_zero_for_none(right, word) {
        Ok(None)
    } else {
        logged_in(alloc, word)
    }
}

// Likewise of a hash or a chaining key, where this is the right one: a line of the transport has none.
fn logged_if_any(alloc: Global, right: &[u8], word: &[u8]) -> Result<Option<Vec<u8>>, AllocError>
    ensures { IfOk result (λ value. items_of value ≡ logged_if_any right.now word.now) }
{
    if right == b"-".as_slice() || is_none(word) {
        Ok(None)
    } else {
        logged_in(alloc, word)
    }
}

// Likewise of bytes, where the step of the right line has some.
fn logged_bytes(
    alloc: Global,
    expected: &Line<'_>,
    word: &[u8],
) -> Result<Option<Vec<u8>>, AllocError>
    ensures { IfOk result (λ value. items_of value ≡ logged_bytes expected.now word.now) }
{
    if has_bytes(expected) {
        logged_in(alloc, word)
    } else {
        Ok(None)
    }
}

/// Whether the step of a right line has bytes in its message.
pub(crate) fn has_bytes(expected: &Line<'_>) -> bool
    ensures { result ≡ has_bytes expected.now }
{
    is_text(kind_in(expected)) || expected.word(7) != b"-".as_slice()
}

/// Whether it is `s` or a payload.
pub(crate) fn is_text(kind: Kind) -> bool
    ensures { result ≡ is_text kind }
{
    matches!(kind, Kind::Text)
}

/// The state of a right line.
pub(crate) fn state_in(line: &Line<'_>) -> State
    ensures { result ≡ state_in line.now }
{
    State {
        hash: array_in(line.word(8)),
        chaining_key: array_in(line.word(9)),
        key: key_in(line.word(10)),
        nonce: number_in(line.word(11)).unwrap_or(0),
    }
}

pub(crate) fn key_in(word: &[u8]) -> Option<[u8; 32]>
    ensures { result ≡ word_key word.now }
{
    if word == b"-".as_slice() {
        None
    } else {
        Some(array_in(word))
    }
}

/// The values of a logged line, at the step of this right one.
pub(crate) fn values_in(
    alloc: Global,
    line: &Line<'_>,
    expected: &Line<'_>,
) -> Result<Logged, AllocError>
    ensures { IfOk result (λ logged. AreLogged line.now expected.now logged) }
{
    let bytes = logged_bytes(alloc, expected, line.word(7))?;
    let hash = logged_if_any(alloc, expected.word(8), line.word(8))?;
    let chaining_key = logged_if_any(alloc, expected.word(9), line.word(9))?;
    let key = logged_key(alloc, expected.word(10), line.word(10))?;
    Ok(Logged {
        bytes,
        hash,
        chaining_key,
        key,
        nonce: number_in(line.word(11)),
    })
}

/// What the step of a right line is.
pub(crate) fn kind_in(line: &Line<'_>) -> Kind
    ensures { result ≡ kind_in line.now }
{
    kind_by(line.word(2), line.word(4))
}

fn kind_by(part: &[u8], name: &[u8]) -> Kind
    ensures { result ≡ kind_by part.now name.now }
{
    if part == b"start".as_slice() {
        of_start(name)
    } else if part == b"open".as_slice() {
        Kind::Opening
    } else if part == b"transport".as_slice() || part == b"datagrams".as_slice() {
        of_transport(name)
    } else {
        of_token(name)
    }
}

fn of_start(name: &[u8]) -> Kind
    ensures { result ≡ start_kind name.now }
{
    if name == b"name".as_slice() {
        Kind::Name
    } else if name == b"prologue".as_slice() {
        Kind::Prologue
    } else if name == b"initiator-e".as_slice() || name == b"responder-e".as_slice() {
        Kind::Ephemeral
    } else {
        Kind::Data
    }
}

fn of_transport(name: &[u8]) -> Kind
    ensures { result ≡ transport_kind name.now }
{
    if name == b"renewed".as_slice() {
        Kind::Rekeyed
    } else {
        Kind::Transport
    }
}

fn of_token(name: &[u8]) -> Kind
    ensures { result ≡ token_kind name.now }
{
    if name == b"e".as_slice() {
        Kind::Ephemeral
    } else if name == b"psk".as_slice() {
        Kind::Secret
    } else {
        of_agreement(name)
    }
}

fn of_agreement(name: &[u8]) -> Kind
    ensures { result ≡ agreement_or_text name.now }
{
    if name == b"ee".as_slice() || name == b"es".as_slice() {
        Kind::Agreement
    } else if name == b"se".as_slice() || name == b"ss".as_slice() {
        Kind::Agreement
    } else {
        Kind::Text
    }
}
