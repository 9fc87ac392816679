//! The pieces that bytes are handed over in.

ghost use Rattle.std.specs.Prelude.{◌≡◌, ◌<◌, ◌≤◌, [], Some, None, if◌then◌else◌};
ghost use Rattle.noise_events.specs.Cuts.{are_cuts, piece_len_of};

use arrayvec::ArrayVec;
use std::marker::Model;

/// The lengths in bytes of the pieces that a frame is handed over in, one after another; the last one is repeated to
/// the frame's end. No lengths mean one piece.
#[derive(Debug, Drop, PartialEq, Eq)]
pub struct Cuts {
    lengths: ArrayVec<u16, 8>,
}

impl Model for Cuts {
    ghost use Rattle.std.specs.Prelude.{ℕ, List, ◌<◌, ◌-◌, length, slice_index_or};

    ghost Value = { List ℕ };

    ghost view = { λ c. c.lengths.items };

    ghost invariant = { λ c. 0 < slice_index_or c.lengths.items (length c.lengths.items - 1) 1 };

    ghost inverse = { λ ns. record { lengths = record { items = ns } } };
}

impl Cuts {
    /// None for more than 8 lengths, or a last length of 0.
    pub fn new(lengths: &[u16]) -> Option<Cuts>
        ensures { result ≡ (if are_cuts lengths.now then Some lengths.now else None) }
    {
        if lengths.last() == Some(&0) {
            return None;
        }
        let mut copy = ArrayVec::new();
        copy.try_extend_from_slice(lengths).ok()?;
        Some(Cuts { lengths: copy })
    }

    /// One piece.
    pub fn whole() -> Cuts
        ensures { result ≡ [] }
    {
        Cuts {
            lengths: ArrayVec::new(),
        }
    }

    /// The length in bytes of the piece of this index, where so many bytes are left: at most that many. It is 0 where
    /// none are left, or for a length of 0 before the last.
    pub fn piece_len(&self, index: usize, left: usize) -> usize
        ensures value { result ≡ piece_len_of self.now index left }
        ensures bound { result ≤ left }
        ensures some { 8 ≤ index → 0 < left → 0 < result }
    {
        let length = match self.lengths.get(index) {
            Some(length) => Some(length),
            None => self.lengths.last(),
        };
        match length {
            Some(length) => left.min(*length as usize),
            None => left,
        }
    }
}
