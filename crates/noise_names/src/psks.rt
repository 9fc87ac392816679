ghost use Rattle.std.specs.Prelude.{◌≡◌, ◌≤◌, ℕ, [], length, find, nat_lt, slice_index_or, IsFalse, IfOk, IfErr, Some};
ghost use Rattle.noise_names.specs.Limits.{with_psk_tokens, with_psks_from};

use crate::{Message, Pattern, PlaceFault, PskPlaces, Role, Token};
use arrayvec::ArrayVec;

impl Pattern {
    ghost use Rattle.noise_names.specs.Plan.{has_psk};
    ghost use Rattle.noise_names.specs.Limits.{Placed, first_beyond};

    /// The pattern with psk tokens at these places (Noise, 9.4): place 0 is in front of the first message, and place n
    /// at the end of message n. A place greater than the number of messages is refused, and the first such place is
    /// reported.
    pub fn with_psks(base: &Pattern, places: &PskPlaces) -> Result<Pattern, PlaceFault>
        requires plain { IsFalse (has_psk base.now) }
        ensures placed { IfOk result (λ pattern. Placed base.now places.now pattern) }
        ensures fault { IfErr result (λ fault. first_beyond base.now places.now ≡ Some fault.place) }
    {
        let numbers = places.numbers();
        let messages = base.messages();
        if let Some(place) = first_beyond(messages.len(), numbers) {
            return Err(PlaceFault { place });
        }
        let messages = with_psks(messages, numbers);
        let places = places.copy();
        let initiator = base.pre(Role::Initiator);
        let responder = base.pre(Role::Responder);
        Ok(Pattern::of(base.base(), places, initiator, responder, messages))
    }
}

// The first place beyond so many messages.
fn first_beyond(count: usize, places: &[u8]) -> Option<u8>
    ensures { result ≡ find (λ n. nat_lt count n) places.now }
{
    places.iter().copied().find(|n| usize::from(*n) > count)
}

// The messages with their psk tokens.
fn with_psks(messages: &[Message], places: &[u8]) -> ArrayVec<Message, 8>
    requires few { length messages.now ≤ 8 }
    requires short { (i : ℕ) → length (slice_index_or messages.now i []) ≤ 8 }
    ensures value { result.items ≡ with_psks_from places.now 1 messages.now }
{
    let mut psked = ArrayVec::new();
    let mut number: u8 = 1;
    for message in messages {
        psked.push(message_with_psks(message.tokens(), number, places));
        number += 1;
    }
    psked
}

// A message with its psk tokens.
pub(crate) fn message_with_psks(tokens: &[Token], number: u8, places: &[u8]) -> Message
    requires short { length tokens.now ≤ 8 }
    ensures value { result ≡ with_psk_tokens places.now number tokens.now }
{
    let mut all: ArrayVec<Token, 10> = ArrayVec::new();
    if number == 1 && places.contains(&0) {
        all.push(Token::Psk);
    }
    all.try_extend_from_slice(tokens).unwrap();
    if places.contains(&number) {
        all.push(Token::Psk);
    }
    Message::new(all)
}
