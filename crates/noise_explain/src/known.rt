//! Which keys and DHs of a pattern stand where.

ghost use Rattle.std.specs.Prelude.{◌≡◌, ◌-◌, [], slice_get, unwrap_or};
ghost use Rattle.noise_explain.specs.FramePieces.{sender_of};
ghost use Rattle.noise_explain.specs.RuleWords.{dh_keys};

use crate::rule_place::tokens_at;
use noise_names::{Message, Pattern, Role, Token};

/// A place among the tokens: a message, from 1, and how many of its tokens stand before.
#[derive(Clone, Copy)]
pub struct Spot {
    pub message: usize,
    pub token: usize,
}

// Who sends the message of this number, from 1 on.
pub(crate) fn sender_of(message: usize) -> Role
    ensures { result ≡ sender_of message }
{
    if message % 2 == 0 {
        Role::Responder
    } else {
        Role::Initiator
    }
}

// The initiator's key of a DH, and the responder's. Other tokens have none.
pub(crate) fn keys_of(dh: Token) -> (Token, Token)
    ensures { result ≡ dh_keys dh }
{
    match dh {
        Token::Es => (Token::E, Token::S),
        Token::Se => (Token::S, Token::E),
        Token::Ss => (Token::S, Token::S),
        _ => (Token::E, Token::E),
    }
}

/// The token at a place, if one stands there.
pub fn token_at(messages: &[Message], spot: Spot) -> Option<Token>
    ensures { result ≡ slice_get (unwrap_or (slice_get messages.now (spot.message - 1)) []) spot.token }
{
    let tokens = tokens_at(messages, spot.message.saturating_sub(1));
    tokens.get(spot.token).copied()
}

// Where a party's key is known from: the place after its token, or the first one where it is known before.
pub(crate) fn key_spot(pattern: &Pattern, role: Role, key: Token) -> Option<Spot> {
    if pattern.pre(role).contains(&key) {
        return Some(Spot {
            message: 1,
            token: 0,
        });
    }
    let mut message: usize = 0;
    for tokens in pattern.messages() {
        message = message.saturating_add(1);
        if sender_of(message) != role {
            continue;
        }
        if let Some(at) = tokens.tokens().iter().position(|t| *t == key) {
            return Some(Spot {
                message,
                token: at.saturating_add(1),
            });
        }
    }
    None
}
