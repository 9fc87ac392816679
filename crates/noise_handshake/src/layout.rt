//! The layout of a message (Noise, 5.3): where each token and the payload stand, made once for each message.

ghost use Rattle.std.specs.Prelude.{◌≡◌, ◌≤◌, ◌+◌, ◌*◌, ◌++◌, length, count_by, MatchOption};
ghost use Rattle.noise_names.specs.Limits.{IsPattern};
ghost use Rattle.noise_names.specs.Tokens.{is_psk};
ghost use Rattle.noise_names.specs.Plan.{has_psk};
ghost use Rattle.noise_names.specs.Overhead.{has_key};
ghost use Rattle.noise_handshake.specs.Passed.{passed_places};
ghost use Rattle.noise_handshake.specs.Late.{IsPskAfter};
ghost use Rattle.noise_handshake.specs.Length.{keyed_after, keyed_after_tokens, token_width, tokens_width};
ghost use Rattle.noise_handshake.specs.inner.Layout.{placed_from, tokens_of, IsLaid, LaysNext};

use crate::tokens::psk_count;
use arrayvec::ArrayVec;
use noise_names::{Pattern, Token};

// A token of a message: its width and its place in the message, in bytes.
#[derive(Clone, Copy, Default)]
pub(crate) struct PlacedToken {
    pub(crate) token: Token,
    pub(crate) width: u8,
    pub(crate) place: u16,
}

// A message: its tokens, how much longer than its payload it is, in bytes, and how many psks it takes.
#[derive(Default, Drop)]
pub(crate) struct MessageLayout {
    pub(crate) tokens: ArrayVec<PlacedToken, 10>,
    pub(crate) overhead: u16,
    pub(crate) psks: u8,
}

// How many bytes a token travels as.
fn token_width(keyed: bool, token: Token) -> u8
    ensures value { result ≡ token_width keyed token }
    ensures most { result ≤ 48 }
{
    match (token, keyed) {
        (Token::E, _) => 32,
        (Token::S, false) => 32,
        (Token::S, true) => 48,
        _ => 0,
    }
}

// Whether there is a key after a token.
pub(crate) fn keyed_after(has_psks: bool, keyed: bool, token: Token) -> bool
    ensures { result ≡ keyed_after has_psks keyed token }
{
    match token {
        Token::E => has_psks || keyed,
        Token::S => keyed,
        _ => true,
    }
}

// Places tokens one after another, and returns where the bytes after them start, and whether there is a key there.
fn place_tokens(
    tokens: &[Token],
    has_psks: bool,
    keyed: bool,
    place: u16,
    placed: &mut ArrayVec<PlacedToken, 10>,
) -> (u16, bool)
    requires room { length placed.old.items + length tokens.now ≤ 10 }
    requires small { place ≤ 48 * length placed.old.items }
    ensures place { result.0 ≡ place + tokens_width has_psks keyed tokens.now }
    ensures small { result.0 ≤ 480 }
    ensures key { result.1 ≡ keyed_after_tokens has_psks keyed tokens.now }
    ensures placed { placed.new.items ≡ placed.old.items ++ placed_from has_psks keyed place tokens.now }
{
    let Some((token, later)) = tokens.split_first() else {
        return (place, keyed);
    };
    let width = token_width(keyed, *token);
    placed.push(PlacedToken {
        token: *token,
        width,
        place,
    });
    let after = keyed_after(has_psks, keyed, *token);
    place_tokens(later, has_psks, after, place + u16::from(width), placed)
}

// The layout of a message.
fn lay_message(tokens: &[Token], has_psks: bool, keyed: bool) -> MessageLayout
    requires few { length tokens.now ≤ 10 }
    ensures laid { IsLaid has_psks keyed tokens.now result }
{
    let mut placed = ArrayVec::new();
    let (payload, after) = place_tokens(tokens, has_psks, keyed, 0, &mut placed);
    let tag = if after { 16 } else { 0 };
    MessageLayout {
        tokens: placed,
        overhead: payload + tag,
        psks: psk_count(tokens) as u8,
    }
}

// The layout of the message after so many, where there is a key before it or not. After the last message there is none,
// and the result is empty.
pub(crate) fn lay_next(pattern: &Pattern, has_psks: bool, keyed: bool, passed: u8) -> MessageLayout
    requires has_psks { has_psks ≡ has_psk pattern.now }
    requires key { keyed ≡ has_key pattern.now (passed_places pattern.now passed) }
    ensures laid { LaysNext pattern.now passed result }
    ensures limits { IsPattern pattern.now }
{
    match pattern.messages().get(passed as usize) {
        Some(message) => lay_message(message.tokens(), has_psks, keyed),
        None => MessageLayout::default(),
    }
}

// The place of the psk token after so many others, if there is one.
pub(crate) fn psk_after(placed: &[PlacedToken], count: usize) -> Option<usize>
    requires few { length placed.now ≤ 10 }
    ensures place { MatchOption result (count_by is_psk (tokens_of placed.now) ≤ count)
        (λ k. IsPskAfter (tokens_of placed.now) count k) }
{
    let (first, later) = placed.split_first()?;
    match (first.token, count) {
        (Token::Psk, 0) => Some(0),
        (Token::Psk, _) => {
            let k = psk_after(later, count - 1)?;
            Some(k + 1)
        }
        _ => {
            let k = psk_after(later, count)?;
            Some(k + 1)
        }
    }
}
