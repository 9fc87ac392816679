//! Where lines of output differ from those that are expected.

ghost use Rattle.std.specs.Prelude.{◌≡◌, ◌≢◌, ◌<◌, ◌≤◌, ℕ, MatchOption, length, slice_get};
ghost use Rattle.noise_names.specs.Lists.{bytes_of};
ghost use Rattle.noise_vectors.specs.Expectations.{IsFirstUnmet};

/// The number of the first line, from 1 on, at which the two lists differ or one has ended, or None where they are
/// equal.
pub fn first_unmet(lines: &[Vec<u8>], expected: &[Vec<u8>]) -> Option<usize>
    ensures { MatchOption result (bytes_of lines.now ≡ bytes_of expected.now)
        (λ n. IsFirstUnmet (bytes_of lines.now) (bytes_of expected.now) n) }
{
    let same = same_lines(lines, expected);
    if same == lines.len() && same == expected.len() {
        None
    } else {
        Some(same + 1)
    }
}

// How many lines both lists begin with.
fn same_lines(lines: &[Vec<u8>], expected: &[Vec<u8>]) -> usize
    ensures within { (result ≤ length lines.now) × (result ≤ length expected.now) }
    ensures value { (i : ℕ) → i < result → slice_get (bytes_of lines.now) i ≡ slice_get (bytes_of expected.now) i }
    ensures differ { result < length lines.now → result < length expected.now
        → slice_get (bytes_of lines.now) result ≢ slice_get (bytes_of expected.now) result }
{
    let mut same = 0;
    while same < lines.len() && same < expected.len() && lines[same] == expected[same] {
        same += 1;
    }
    same
}
