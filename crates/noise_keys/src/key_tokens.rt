//! Which tokens a party has in a pattern (Noise, 7.1), and which of its keys a DH token takes (5.3).

ghost use Rattle.std.specs.Prelude.{◌≡◌, ◌&&◌, ℕ};
ghost use Rattle.std.specs.List.{list_any};
ghost use Rattle.noise_names.specs.Tokens.{same_role, same_token};
ghost use Rattle.noise_names.specs.Plan.{places_of, message_places};
ghost use Rattle.noise_names.specs.Validity.{is_among};
ghost use Rattle.noise_keys.specs.KeyTokens.{own_at, token_of};

use crate::Own;
use noise_names::{Message, Pattern, Role, Token};

/// The token that sends such a key.
pub fn token_of(own: Own) -> Token
    ensures { result ≡ token_of own }
{
    match own {
        Own::Ephemeral => Token::E,
        Own::Static => Token::S,
    }
}

// Whether they are one token.
fn is_token(token: Token, other: Token) -> bool
    ensures { result ≡ same_token token other }
{
    token == other
}

/// Whether a token is among these.
pub fn has_token(tokens: &[Token], token: Token) -> bool
    ensures { result ≡ list_any (λ t. same_token t token) tokens.now }
{
    tokens.iter().any(|t| is_token(*t, token))
}

// Whether they are one role.
fn is_same(party: Role, role: Role) -> bool
    ensures { result ≡ same_role party role }
{
    party == role
}

// Whether the party is this role, and has the token.
fn sends_as(tokens: &[Token], party: Role, role: Role, token: Token) -> bool
    ensures { result ≡ (same_role party role && list_any (λ t. same_token t token) tokens.now) }
{
    is_same(party, role) && has_token(tokens, token)
}

/// Whether a role has the token in one of these messages, the first of which the party writes.
pub fn sends_in(messages: &[Message], party: Role, role: Role, token: Token) -> bool
    ensures { (n : ℕ) → result ≡ is_among role token (message_places party n messages.now) }
{
    let Some((message, later)) = messages.split_first() else {
        return false;
    };
    if sends_as(message.tokens(), party, role, token) {
        return true;
    }
    sends_in(later, party.other(), role, token)
}

/// Whether a role has the token in its pre-message or a message.
pub fn sends(pattern: &Pattern, role: Role, token: Token) -> bool
    ensures { result ≡ is_among role token (places_of pattern.now) }
{
    let before = has_token(pattern.pre(role), token);
    if before {
        return true;
    }
    sends_in(pattern.messages(), Role::Initiator, role, token)
}

/// Which own key a DH token takes (the table of Noise, 5.3).
pub fn own_at(role: Role, token: Token) -> Own
    ensures { result ≡ own_at role token }
{
    match (role, token) {
        (Role::Initiator, Token::Se | Token::Ss) => Own::Static,
        (Role::Responder, Token::Es | Token::Ss) => Own::Static,
        _ => Own::Ephemeral,
    }
}
