//! What a party has sent, and what somebody who takes its part has to have.

ghost use Rattle.std.specs.Prelude.{◌≡◌, ◌&&◌, take};
ghost use Rattle.noise_names.specs.Plan.{pre_of};
ghost use Rattle.noise_names.specs.Tokens.{same_role};
ghost use Rattle.noise_explain.specs.MixedKeys.{tokens_after};
ghost use Rattle.noise_explain.specs.RuleWords.{is_known};
ghost use Rattle.noise_explain.specs.Parties.{chooses, has_sent, has_token, is_fresh, is_mixed, is_unmixed, own_part, sender_after};

use crate::mixed::{Keys, Mixed};
use crate::rule_place::tokens_at;
use crate::values::is_role;
use noise_names::{Pattern, Role, Token};

// Who sends the message after so many.
fn sender_after(passed: usize) -> Role
    ensures { result ≡ sender_after passed }
{
    if passed % 2 == 0 {
        Role::Initiator
    } else {
        Role::Responder
    }
}

// Whether the message after so many has this key.
fn has_key_after(pattern: &Pattern, key: Token, passed: usize) -> bool
    ensures { result ≡ has_token key (tokens_after pattern.now passed) }
{
    tokens_at(pattern.messages(), passed).contains(&key)
}

// Whether a party sends this key in the message after so many.
fn sends_after(pattern: &Pattern, party: Role, key: Token, passed: usize) -> bool
    ensures { result ≡ (same_role (sender_after passed) party && has_token key (tokens_after pattern.now passed)) }
{
    is_role(sender_after(passed), party) && has_key_after(pattern, key, passed)
}

// Whether a party sends this key in one of the first messages.
pub(crate) fn has_sent(pattern: &Pattern, party: Role, key: Token, passed: usize) -> bool
    ensures { result ≡ has_sent pattern.now party key passed }
{
    let mut has = false;
    for index in 0..passed {
        has = has || sends_after(pattern, party, key, index);
    }
    has
}

// Whether a party sends a key that the other one doesn't know before.
pub(crate) fn chooses(pattern: &Pattern, party: Role, key: Token, passed: usize) -> bool
    ensures { result ≡ chooses pattern.now party key passed }
{
    !pattern.pre(party).contains(&key) && has_sent(pattern, party, key, passed)
}

// Whether a party's key is known before a place: after so many messages, and so many tokens of the next one.
pub(crate) fn is_known(
    pattern: &Pattern,
    party: Role,
    key: Token,
    passed: usize,
    count: usize,
) -> bool
    ensures { result ≡ is_known pattern.now party key passed count }
{
    is_named(pattern, party, key)
        || has_sent(pattern, party, key, passed)
        || sends_in_front(pattern, party, key, passed, count)
}

// Whether a party's key is known before the first message.
pub(crate) fn is_named(pattern: &Pattern, party: Role, key: Token) -> bool
    ensures { result ≡ has_token key (pre_of party pattern.now) }
{
    pattern.pre(party).contains(&key)
}

// Whether a party sends this key among the first tokens of the message after so many.
fn sends_in_front(pattern: &Pattern, party: Role, key: Token, passed: usize, count: usize) -> bool
    ensures { result
        ≡ (same_role (sender_after passed) party && has_token key (take count (tokens_after pattern.now passed))) }
{
    is_role(sender_after(passed), party) && has_key_in_front(pattern, key, passed, count)
}

// Whether this key is among the first tokens of the message after so many.
fn has_key_in_front(pattern: &Pattern, key: Token, passed: usize, count: usize) -> bool
    ensures { result ≡ has_token key (take count (tokens_after pattern.now passed)) }
{
    front(tokens_at(pattern.messages(), passed), count).contains(&key)
}

// The first tokens of a list, so many where it has more.
fn front(tokens: &[Token], count: usize) -> &[Token]
    ensures { result.now ≡ take count tokens.now }
{
    let (front, _) = tokens.split_at(count.min(tokens.len()));
    front
}

// Whether a party has put in an ephemeral key.
pub(crate) fn is_fresh(pattern: &Pattern, party: Role, passed: usize) -> bool
    ensures { result ≡ is_fresh pattern.now party passed }
{
    pattern.pre(party).contains(&Token::E) || has_sent(pattern, party, Token::E, passed)
}

/// Which keys of its own are enough for somebody who takes the part of a party.
#[derive(Clone, Copy)]
pub(crate) enum Part {
    Neither,
    Ephemeral,
    Static,
    Both,
}

// The fewest keys that the party chooses, and that are enough for these DHs.
pub(crate) fn own_part(pattern: &Pattern, party: Role, passed: usize, mixed: Mixed) -> Part
    ensures { result ≡ own_part pattern.now party passed mixed }
{
    let has_s = chooses(pattern, party, Token::S, passed);
    if !chooses(pattern, party, Token::E, passed) {
        if has_s && mixed.is_by(Keys::static_of(party)) {
            Part::Static
        } else {
            Part::Neither
        }
    } else if mixed.is_by(Keys::of(party, false)) {
        Part::Ephemeral
    } else if has_s && mixed.is_by(Keys::of(party, true)) {
        Part::Both
    } else {
        Part::Neither
    }
}

// Whether a static key of this party is named, and no DH mixes it.
pub(crate) fn is_unmixed(pattern: &Pattern, party: Role, mixed: Mixed) -> bool
    ensures { result ≡ is_unmixed pattern.now party mixed }
{
    let is_mixed = match party {
        Role::Initiator => mixed.se || mixed.ss,
        Role::Responder => mixed.es || mixed.ss,
    };
    let is_named = pattern.pre(party).contains(&Token::S)
        || has_sent(pattern, party, Token::S, pattern.messages().len());
    is_named && !is_mixed
}
