ghost use Rattle.std.specs.Prelude.{◌≡◌, ◌≤◌, ◌↔◌, [], length, IsTrue, IsSome, IfSome};
ghost use Rattle.noise_names.specs.Names.{are_places};

use arrayvec::ArrayVec;
use std::marker::Model;

/// Where the psk tokens of a pattern are (Noise, 9.4): strictly rising numbers from 0 to 8. Place 0 is in front of the
/// first message, place n at the end of message n.
#[derive(Clone, Debug, Drop, PartialEq, Eq)]
pub struct PskPlaces {
    numbers: ArrayVec<u8, 9>,
}

impl Model for PskPlaces {
    ghost use Rattle.std.specs.Prelude.{ℕ, List, IsTrue};
    ghost use Rattle.noise_names.specs.Names.{are_places};

    ghost Value = { List ℕ };

    ghost view = { λ p. p.numbers.items };

    ghost invariant = { λ p. IsTrue (are_places p.numbers.items) };

    ghost inverse = { λ ns. record { numbers = record { items = ns } } };
}

impl PskPlaces {
    /// These numbers as places, the empty list too. None if they do not rise strictly or one is above 8.
    pub fn new(numbers: &[u8]) -> Option<PskPlaces>
        ensures some { IsSome result ↔ IsTrue (are_places numbers.now) }
        ensures value { IfSome result (λ places. places ≡ numbers.now) }
    {
        let mut copy: ArrayVec<u8, 9> = ArrayVec::new();
        let mut low = 0;
        for n in numbers {
            if *n < low || *n > 8 {
                return None;
            }
            copy.push(*n);
            low = *n + 1;
        }
        Some(PskPlaces { numbers: copy })
    }

    /// The numbers, at most 9.
    pub fn numbers(&self) -> &[u8]
        ensures value { result.now ≡ self.now }
        ensures few { length self.now ≤ 9 }
        ensures rising { IsTrue (are_places self.now) }
    {
        &self.numbers
    }

    // The same places, which takes no memory.
    pub(crate) fn copy(&self) -> PskPlaces
        ensures { result ≡ self.now }
    {
        self.clone().unwrap()
    }

    // No places.
    pub(crate) fn none() -> PskPlaces
        ensures { result ≡ [] }
    {
        PskPlaces {
            numbers: ArrayVec::new(),
        }
    }
}
