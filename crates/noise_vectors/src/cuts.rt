//! The pieces that a frame is handed over in.

ghost use Rattle.std.specs.Prelude.{◌≡◌, ◌<◌, ℕ, List, ◌∷◌, Some, IfSome, MatchOption};
ghost use Rattle.arrayvec.specs.ArrayVec.{array_vec_len};
ghost use Rattle.noise_vectors.specs.VectorText.{lengths_word};
ghost use Rattle.noise_vectors.specs.Cuts.{AreCuts, AreLengths};

use crate::words::{read_length, split_once};
use arrayvec::ArrayVec;
use noise_events::Cuts;

/// `-` for one piece, or 1 to 8 numbers below 65536, joined by commas, the last not 0.
pub fn read_cuts(word: &[u8]) -> Option<Cuts>
    ensures value { IfSome result (λ cuts. word.now ≡ lengths_word cuts) }
    ensures right { IfSome result AreCuts }
    ensures every { (cuts : List ℕ) → AreCuts cuts → word.now ≡ lengths_word cuts → result ≡ Some cuts }
{
    if word == b"-".as_slice() {
        return Cuts::new(&[]);
    }
    let lengths = read_lengths(word)?;
    Cuts::new(&lengths)
}

// 1 to 8 numbers below 65536, joined by commas.
fn read_lengths(word: &[u8]) -> Option<ArrayVec<u16, 8>>
    ensures value { IfSome result (λ lengths. (0 < array_vec_len lengths) × (word.now ≡ lengths_word lengths.items)) }
    ensures right { IfSome result (λ lengths. AreLengths lengths.items) }
    ensures every { (n : ℕ) (ns : List ℕ) → AreLengths (n ∷ ns) → word.now ≡ lengths_word (n ∷ ns)
        → MatchOption result (Unit {0} → ⊥) (λ lengths. lengths.items ≡ n ∷ ns) }
{
    let mut lengths = ArrayVec::new();
    let mut rest = word;
    while let Some((first, more)) = split_once(rest, b',') {
        lengths.try_push(read_length(first)?).ok()?;
        rest = more;
    }
    lengths.try_push(read_length(rest)?).ok()?;
    Some(lengths)
}
