//! Where a broken rule stands in the text of its pattern.

ghost use Rattle.std.specs.Prelude.{◌≡◌, ◌≤◌, [], length, nat_le, slice_get, unwrap_or, if◌then◌else◌};
ghost use Rattle.noise_names.specs.Text.{pre_lines};
ghost use Rattle.noise_names.specs.WrongText.{line_feeds};
ghost use Rattle.noise_explain.specs.RulePlaces.{IsRulePlace, list_before};

use crate::position::Position;
use noise_lines::token_word;
use noise_names::{Message, Pattern, Role, RuleFault, Token};

// Where this fault stands.
pub(crate) fn rule_place(pattern: &Pattern, fault: RuleFault) -> Position
    ensures { IsRulePlace pattern.now fault result }
{
    let messages = pattern.messages();
    let (message, token) = spot(messages.len(), fault);
    let tokens = tokens_at(messages, message.saturating_sub(1));
    Position {
        line: message.saturating_sub(1) + pre_line_count(pattern) + 2,
        column: list_len(tokens, token) + 6,
    }
}

// The message and the token: of the transport the place after the last token of the last message. A message has at most
// 10 tokens.
fn spot(count: usize, fault: RuleFault) -> (usize, usize)
    ensures message { result.0 ≡ (if nat_le fault.message count then fault.message else count) }
    ensures token { result.1 ≡ (if nat_le fault.message count then fault.token else 10) }
{
    if usize::from(fault.message) <= count {
        (usize::from(fault.message), usize::from(fault.token))
    } else {
        (count, 10)
    }
}

// The tokens of the message at this place, from 0.
pub(crate) fn tokens_at(messages: &[Message], index: usize) -> &[Token]
    ensures value { result.now ≡ unwrap_or (slice_get messages.now index) [] }
    ensures few { length result.now ≤ 10 }
{
    match messages.get(index) {
        Some(message) => message.tokens(),
        None => &[],
    }
}

// How many lines the pre-messages have, with the one after them.
pub(crate) fn pre_line_count(pattern: &Pattern) -> usize
    ensures lines { result ≡ line_feeds (pre_lines pattern.now.initiator pattern.now.responder) }
    ensures few { result ≤ 3 }
{
    let initiator = pattern.pre(Role::Initiator);
    let responder = pattern.pre(Role::Responder);
    match (initiator.is_empty(), responder.is_empty()) {
        (true, true) => 0,
        (false, false) => 3,
        _ => 2,
    }
}

// How many bytes of the list of these tokens stand before this one, or of the whole list where there are no more.
fn list_len(tokens: &[Token], token: usize) -> usize
    requires short { length tokens.now ≤ 10 }
    ensures value { result ≡ length (list_before tokens.now token) }
    ensures few { result ≤ 50 }
{
    let mut count: usize = 0;
    for (index, named) in tokens.iter().enumerate() {
        if index == token {
            return count;
        }
        count += token_word(*named).len() + 2;
    }
    count.saturating_sub(2)
}
