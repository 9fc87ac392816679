//! Reads a file with what is given for the places of a template: a line `NAME = HEX` for each.

ghost use Rattle.std.specs.Prelude.{◌≡◌, ◌++◌, ◌∷◌, [], IfErr, IfOk, OnOk, drop, map};
ghost use Rattle.noise_explain.specs.KeyLines.{IfLine, IsGivenBy, IsRead, IsValueIn, IsWrongFile, front_of, is_given, is_skipped, is_space, lines_in, place_in, plain_line, word_after};
ghost use Rattle.noise_explain.specs.Values.{AreRight, fits};
ghost use Rattle.noise_explain.specs.declared.key_lines.KeyFileFault.TheVariants.{Memory};

use crate::places::pattern_places;
use crate::values::{Given, Place, is_same, place_name, takes_key};
use noise_names::Pattern;
use noise_vectors::read_hex;
use std::alloc::{AllocError, Global};

/// What is wrong with a line.
#[derive(Clone, Copy, Debug, PartialEq, Eq)]
pub enum LineFault {
    /// It names no place of the pattern.
    Unknown,
    /// A line before it gives the same place.
    Twice(Place),
    /// What it gives is no value of the place.
    NoValue(Place),
}

/// Why a file gives nothing.
#[derive(Clone, Copy, Debug, PartialEq, Eq)]
pub enum KeyFileFault {
    /// Memory ran out.
    Memory,
    /// The line of this number, counted from 1, is the first that is wrong.
    Line(u64, LineFault),
}

impl From<AllocError> for KeyFileFault {
    ghost from_gives = { λ _ fault. fault ≡ Memory };

    fn from(_error: AllocError) -> KeyFileFault {
        KeyFileFault::Memory
    }
}

/// What comes of a line.
#[derive(Drop)]
pub(crate) enum Reading {
    /// It is blank or a comment.
    Nothing,
    /// It gives this.
    Value(Given),
    /// It is wrong.
    Wrong(LineFault),
}

/// What a file of this text gives for the places of a pattern's template. The spaces and the case of a line count for
/// nothing; a blank line, and one that begins with `#`, says nothing.
pub fn read_given(alloc: Global, pattern: &Pattern, text: &[u8]) -> Result<Vec<Given>, KeyFileFault>
    ensures given { IfOk result (λ given. IsGivenBy pattern.now text.now given.items) }
    ensures right { IfOk result (λ given. AreRight given.items) }
    ensures fault { IfErr result (λ fault. IfLine fault (IsWrongFile pattern.now text.now)) }
{
    let places = pattern_places(alloc, pattern)?;
    let lines = lines_in(alloc, text)?;
    let mut given = Vec::new(alloc);
    for i in 0..lines.len() {
        match read_line(alloc, &places, lines[i], &given)? {
            Reading::Nothing => {}
            Reading::Value(one) => push_given(one, &mut given)?,
            Reading::Wrong(why) => return Err(KeyFileFault::Line(i as u64 + 1, why)),
        }
    }
    Ok(given)
}

fn push_given(one: Given, given: &mut Vec<Given>) -> Result<(), AllocError>
    ensures { OnOk result (given.new.items ≡ given.old.items ++ one ∷ []) }
{
    given.push(one).map_err(AllocError::from)?;
    Ok(())
}

// What comes of a line after lines that give this.
fn read_line(
    alloc: Global,
    places: &[Place],
    line: &[u8],
    given: &[Given],
) -> Result<Reading, AllocError>
    ensures { IfOk result (λ reading. IsRead places.now given.now line.now reading) }
{
    let plain = plain_line(alloc, line)?;
    if is_skipped(&plain) {
        return Ok(Reading::Nothing);
    }
    let Some(place) = place_in(alloc, places, &plain)? else {
        return Ok(Reading::Wrong(LineFault::Unknown));
    };
    if is_given(given, place) {
        return Ok(Reading::Wrong(LineFault::Twice(place)));
    }
    match value_after(alloc, place, &plain)? {
        Some(value) => Ok(Reading::Value(Given { place, value })),
        None => Ok(Reading::Wrong(LineFault::NoValue(place))),
    }
}

// The lines of a text.
fn lines_in(alloc: Global, text: &[u8]) -> Result<Vec<&[u8]>, AllocError>
    ensures { IfOk result (λ lines. map (λ line. line.now) lines.items ≡ lines_in text.now) }
{
    text.split(|b| *b == b'\n').collect(alloc)
}

// A line without its spaces, in lower case.
fn plain_line(alloc: Global, line: &[u8]) -> Result<Vec<u8>, AllocError>
    ensures { IfOk result (λ plain. plain.items ≡ plain_line line.now) }
{
    let written: Vec<u8> = line
        .iter()
        .copied()
        .filter(|b| !is_space(*b))
        .collect(alloc)?;
    written
        .iter()
        .map(|b| b.to_ascii_lowercase())
        .collect(alloc)
}

fn is_space(b: u8) -> bool
    ensures { result ≡ is_space b }
{
    b == 32 || b == 9 || b == 13
}

// Whether a line says nothing.
fn is_skipped(plain: &[u8]) -> bool
    ensures { result ≡ is_skipped plain.now }
{
    match plain.first() {
        None => true,
        Some(b) => *b == b'#',
    }
}

// Which of these places a line names, if it names one.
fn place_in(alloc: Global, places: &[Place], plain: &[u8]) -> Result<Option<Place>, AllocError>
    ensures { IfOk result (λ found. found ≡ place_in places.now plain.now) }
{
    for place in places {
        let front = front_of(alloc, *place)?;
        if plain.starts_with(&front) {
            return Ok(Some(*place));
        }
    }
    Ok(None)
}

// What a line for a place begins with.
fn front_of(alloc: Global, place: Place) -> Result<Vec<u8>, AllocError>
    ensures { IfOk result (λ front. front.items ≡ front_of place) }
{
    let mut name = place_name(alloc, place)?;
    name.push('=')?;
    plain_line(alloc, name.as_bytes())
}

// Whether a place is given.
fn is_given(given: &[Given], place: Place) -> bool
    ensures { result ≡ is_given given.now place }
{
    for g in given {
        if is_same(g.place, place) {
            return true;
        }
    }
    false
}

// The value that a line gives for the place that it names, if it is one.
fn value_after(alloc: Global, place: Place, plain: &[u8]) -> Result<Option<Vec<u8>>, AllocError>
    ensures { IfOk result (λ found. IsValueIn place (word_after place plain.now) found) }
{
    let front = front_of(alloc, place)?;
    read_value(alloc, place, after(plain, front.len()))
}

// The text after so many bytes.
fn after(text: &[u8], count: usize) -> &[u8]
    ensures { result.now ≡ drop count text.now }
{
    if count < text.len() {
        &text[count..]
    } else {
        &[]
    }
}

// The value of a place that a word stands for, if it stands for one.
fn read_value(alloc: Global, place: Place, word: &[u8]) -> Result<Option<Vec<u8>>, AllocError>
    ensures { IfOk result (λ found. IsValueIn place word.now found) }
{
    let Some(value) = read_hex(alloc, word)? else {
        return Ok(None);
    };
    if fits(place, &value) {
        return Ok(Some(value));
    }
    Ok(None)
}

// Whether a value has a length that the place takes.
fn fits(place: Place, value: &[u8]) -> bool
    ensures { result ≡ fits place value.now }
{
    if takes_key(place) {
        value.len() == 32
    } else {
        value.len() <= 65535
    }
}
