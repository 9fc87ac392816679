//! A line of a key schedule, by its words.

ghost use Rattle.std.specs.Prelude.{◌≡◌, ◌==◌, IfOk, length, map};
ghost use Rattle.std.specs.List.{slice_split};
ghost use Rattle.noise_compare.specs.Lines.{has_values, is_of_place, is_of_schedule, is_same_word, word_at, words_in, line_words};

use crate::words::is_same_in_form;
use std::alloc::{AllocError, Global};

/// A line of a key schedule, in the words of `trace`: `trace`, role, part, number, name, call, place and bytes in the
/// message, hash, chaining key, key and nonce.
#[derive(Drop)]
pub struct Line<'a> {
    /// Its number in its text, from 1 on.
    pub number: usize,
    words: Vec<&'a [u8]>,
}

impl<'a> Line<'a> {
    /// The line of this text, which has no LF.
    pub fn new(alloc: Global, number: usize, text: &'a [u8]) -> Result<Line<'a>, AllocError>
        ensures counted { IfOk result (λ line. line.number ≡ number) }
        ensures words { IfOk result (λ line. words_in line ≡ line_words text.now) }
    {
        let words = parts(alloc, text, b' ')?;
        Ok(Line { number, words })
    }

    /// How many words it has.
    pub fn len(&self) -> usize
        ensures { result ≡ length (words_in self.now) }
    {
        self.words.len()
    }

    /// Word `place`, from 0 on, or nothing where it has fewer.
    pub fn word(&self, place: usize) -> &'a [u8]
        ensures { result.now ≡ word_at (words_in self.now) place }
    {
        match self.words.get(place) {
            Some(word) => *word,
            None => &[],
        }
    }

    /// Whether it is a line of a party's key schedule, by its first two words.
    #[tactic(auto, unfolding(crate::specs::Lines::is_of_schedule))]
    pub fn is_of_schedule(&self) -> bool
        ensures { result ≡ is_of_schedule (words_in self.now) }
    {
        self.word(0) == b"trace".as_slice()
            && (self.word(1) == b"initiator".as_slice() || self.word(1) == b"responder".as_slice())
    }

    /// Whether its role, part and name are those of a logged line.
    #[tactic(auto, unfolding(crate::specs::Lines::is_of_place))]
    pub fn is_of_place(&self, logged: &Line<'_>) -> bool
        ensures { result ≡ is_of_place logged.now self.now }
    {
        self.word(1) == logged.word(1)
            && self.word(2) == logged.word(2)
            && self.word(4) == logged.word(4)
    }

    /// Whether a logged line has this word, in any of its forms, or `?` in its place.
    pub fn is_same(&self, logged: &Line<'_>, place: usize) -> bool
        ensures { result ≡ is_same_word logged.now self.now place }
    {
        logged.word(place) == b"?".as_slice()
            || self.word(place) == logged.word(place)
            || is_same_in_form(place, self.word(place), logged.word(place))
    }

    /// Whether its bytes, hash, chaining key, key and nonce are those of a logged line.
    #[tactic(auto, unfolding(crate::specs::Lines::has_values))]
    pub fn has_values(&self, logged: &Line<'_>) -> bool
        ensures { result ≡ has_values logged.now self.now }
    {
        self.is_same(logged, 7)
            && self.is_same(logged, 8)
            && self.is_same(logged, 9)
            && self.is_same(logged, 10)
            && self.is_same(logged, 11)
    }
}

/// What stands between these bytes in a text.
pub(crate) fn parts(alloc: Global, text: &[u8], separator: u8) -> Result<Vec<&[u8]>, AllocError>
    ensures { IfOk result (λ v. map (λ part. part.now) v.items ≡ slice_split (λ b. b == separator) text.now) }
{
    text.split(|b| *b == separator).collect(alloc)
}
