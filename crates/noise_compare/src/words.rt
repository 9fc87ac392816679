//! The forms of a value in a log, and numbers.

ghost use Rattle.std.specs.Prelude.{◌≡◌};
ghost use Rattle.noise_compare.specs.Words.{add_digit, are_same_number, is_same_in_form, is_zero_for_none, word_number};

// A key of zeros.
const ZERO_DIGITS: &[u8; 64] = b"0000000000000000000000000000000000000000000000000000000000000000";

/// Whether a word of a log, at this place of its line, is another form of the right one: a key of zeros where there is
/// no key, or a number with zeros in front.
#[tactic(auto, unfolding(crate::specs::Words::is_same_in_form))]
pub(crate) fn is_same_in_form(place: usize, right: &[u8], logged: &[u8]) -> bool
    ensures { result ≡ is_same_in_form place right.now logged.now }
{
    (place == 10 && is_zero_for_none(right, logged))
        || (place == 11 && are_same_number(number_in(right), number_in(logged)))
}

/// Whether a key of 32 zero bytes is logged where there is no key.
#[tactic(auto, unfolding(crate::specs::Words::is_zero_for_none))]
pub(crate) fn is_zero_for_none(right: &[u8], logged: &[u8]) -> bool
    ensures { result ≡ is_zero_for_none right.now logged.now }
{
    right == b"-".as_slice() && logged == ZERO_DIGITS.as_slice()
}

fn are_same_number(right: Option<u64>, logged: Option<u64>) -> bool
    ensures { result ≡ are_same_number right logged }
{
    match (right, logged) {
        (Some(right), Some(logged)) => right == logged,
        _ => false,
    }
}

pub(crate) fn number_in(word: &[u8]) -> Option<u64>
    ensures { result ≡ word_number word.now }
{
    if word.len() == 0 {
        return None;
    }
    let mut number = Some(0);
    for digit in word {
        number = add_digit(number, *digit);
    }
    number
}

// A number with a further digit, if 8 bytes hold it.
#[tactic(auto, unfolding(crate::specs::Words::add_digit))]
fn add_digit(number: Option<u64>, digit: u8) -> Option<u64>
    ensures { result ≡ add_digit number digit }
{
    match number {
        None => None,
        Some(number) => {
            if digit < 48 || 57 < digit {
                return None;
            }
            let next = u128::from(number) * 10 + u128::from(digit - 48);
            if next <= 0xffff_ffff_ffff_ffff {
                Some(next as u64)
            } else {
                None
            }
        }
    }
}
