//! The key and the nonce that messages leave (Noise, 5.1 and 5.2).

ghost use Rattle.std.specs.Prelude.{◌≡◌, ◌≤◌, ◌<◌, ◌+◌, ◌-◌, ◌*◌, ◌^◌, length};
ghost use Rattle.noise_names.specs.Overhead.{has_key};
ghost use Rattle.noise_state.specs.Cipher.{next_nonce};
ghost use Rattle.noise_handshake.specs.Length.{keyed_after_tokens};
ghost use Rattle.noise_handshake.specs.Nonces.{nonce_after, nonce_after_tokens, nonce_after_messages, nonce_due};
ghost use Rattle.noise_handshake.specs.Passed.{passed_places};
ghost use Rattle.noise_handshake.specs.inner.Keyed.{keyed_after_messages};

use crate::layout::keyed_after;
use noise_names::{Message, Pattern, Token, ValidPattern};

// Whether there is a key, and its nonce.
#[derive(Clone, Copy)]
pub(crate) struct Count {
    pub(crate) keyed: bool,
    pub(crate) nonce: u64,
}

// The nonce after a text that is encrypted where there is a key.
fn next_nonce(keyed: bool, nonce: u64) -> u64
    requires nonces { nonce < 2 ^ 64 - 1 }
    ensures value { result ≡ next_nonce keyed nonce }
    ensures bound { result ≤ nonce + 1 }
{
    if keyed { nonce + 1 } else { nonce }
}

// The nonce after a token.
fn nonce_after(has_psks: bool, count: Count, token: Token) -> u64
    requires nonces { count.nonce < 2 ^ 64 - 1 }
    ensures value { result ≡ nonce_after has_psks count.keyed count.nonce token }
    ensures bound { result ≤ count.nonce + 1 }
{
    match token {
        Token::E => { if has_psks { 0 } else { count.nonce } }
        Token::S => next_nonce(count.keyed, count.nonce),
        _ => 0,
    }
}

fn after_tokens(has_psks: bool, count: Count, tokens: &[Token]) -> Count
    requires nonces { count.nonce + length tokens.now < 2 ^ 64 - 1 }
    ensures keyed { result.keyed ≡ keyed_after_tokens has_psks count.keyed tokens.now }
    ensures nonce { result.nonce ≡ nonce_after_tokens has_psks count.keyed count.nonce tokens.now }
    ensures bound { result.nonce ≤ count.nonce + length tokens.now }
{
    let Some((token, later)) = tokens.split_first() else {
        return count;
    };
    let after = Count {
        keyed: keyed_after(has_psks, count.keyed, *token),
        nonce: nonce_after(has_psks, count, *token),
    };
    after_tokens(has_psks, after, later)
}

fn after_messages(has_psks: bool, count: Count, messages: &[Message]) -> Count
    requires small { count.nonce ≤ 88 - 11 * length messages.now }
    requires few { length messages.now ≤ 8 }
    ensures keyed { result.keyed ≡ keyed_after_messages has_psks count.keyed messages.now }
    ensures nonce { result.nonce ≡ nonce_after_messages has_psks count.keyed count.nonce messages.now }
    ensures bound { result.nonce ≤ count.nonce + 11 * length messages.now }
{
    let Some((message, later)) = messages.split_first() else {
        return count;
    };
    let after = after_tokens(has_psks, count, message.tokens());
    let next = Count {
        keyed: after.keyed,
        nonce: next_nonce(after.keyed, after.nonce),
    };
    after_messages(has_psks, next, later)
}

// Whether there is a key in a handshake in which so many messages have passed, and its nonce.
pub(crate) fn count_due(valid: &ValidPattern, passed: u8) -> Count
    requires within { passed ≤ length valid.now.messages }
    ensures keyed { result.keyed ≡ has_key valid.now (passed_places valid.now passed) }
    ensures nonce { result.nonce ≡ nonce_due valid.now passed }
    ensures bound { result.nonce ≤ 11 * passed }
{
    let pattern: &Pattern = valid.pattern();
    let has_psks = !pattern.is_plain();
    let count = Count {
        keyed: valid.has_key(0),
        nonce: 0,
    };
    after_messages(has_psks, count, &pattern.messages()[..passed as usize])
}
