ghost use Rattle.std.specs.Prelude.{◌≡◌, ◌≤◌, length, IsTrue, IsFalse, ◌↔◌};

use crate::{ProtocolName, PskPlaces, Role, Token};
use arrayvec::ArrayVec;
use std::marker::Model;

/// The tokens of a message, at most 10: 1 to 8 and its psk tokens.
#[derive(Clone, Debug, Default, Drop, PartialEq, Eq)]
pub struct Message {
    tokens: ArrayVec<Token, 10>,
}

impl Model for Message {
    ghost use Rattle.std.specs.Prelude.{List, ◌≤◌, length, IsTrue, IsFalse, ◌↔◌};
    ghost use Rattle.noise_names.specs.declared.token.Token.{Token};

    ghost Value = { List Token };

    ghost view = { λ m. m.tokens.items };

    ghost invariant = { λ m. length m.tokens.items ≤ 10 };

    ghost inverse = { λ ts. record { tokens = record { items = ts } } };
}

impl Message {
    ghost use Rattle.std.specs.List.{list_any};
    ghost use Rattle.noise_names.specs.Tokens.{is_psk};

    // The message that holds these tokens.
    pub(crate) fn new(tokens: ArrayVec<Token, 10>) -> Message
        ensures { result ≡ tokens.items }
    {
        Message { tokens }
    }

    // The message of these tokens.
    pub(crate) fn of(tokens: &[Token]) -> Message
        requires few { length tokens.now ≤ 10 }
        ensures value { result ≡ tokens.now }
    {
        let mut copy = ArrayVec::new();
        copy.try_extend_from_slice(tokens).unwrap();
        Message { tokens: copy }
    }

    /// The tokens, in order.
    pub fn tokens(&self) -> &[Token]
        ensures value { result.now ≡ self.now }
        ensures few { length self.now ≤ 10 }
    {
        &self.tokens
    }

    // Whether it has a psk token.
    fn has_psk(&self) -> bool
        ensures { result ≡ list_any is_psk self.now }
    {
        for token in self.tokens() {
            if let Token::Psk = token {
                return true;
            }
        }
        false
    }
}

/// A handshake pattern (Noise, 7.1) within the limits of this library: a base of 1 to 8 bytes, pre-messages that are
/// empty, `e`, `s` or `e, s`, 1 to 8 messages of 1 to 8 tokens other than psk, and psk tokens exactly where its places
/// say. One whose base is that of a fundamental pattern is that pattern, psk tokens aside. It need not be valid: see
/// [`Pattern::check`].
#[derive(Clone, Debug, Drop, PartialEq, Eq)]
pub struct Pattern {
    base: ArrayVec<u8, 8>,
    places: PskPlaces,
    initiator: ArrayVec<Token, 2>,
    responder: ArrayVec<Token, 2>,
    messages: ArrayVec<Message, 8>,
}

impl Model for Pattern {
    ghost use Rattle.noise_names.specs.Plan.{Plan, plan_of};
    ghost use Rattle.noise_names.specs.Limits.{IsPattern};

    ghost Value = { Plan };

    ghost view = { λ p. record {
      base = p.base.items;
      places = p.places;
      initiator = p.initiator.items;
      responder = p.responder.items;
      messages = p.messages.items;
    } };

    ghost invariant = { λ p. IsPattern
        (plan_of p.base.items p.places p.initiator.items p.responder.items p.messages.items) };

    ghost inverse = { λ p. record {
      base = record { items = p.base };
      places = p.places;
      initiator = record { items = p.initiator };
      responder = record { items = p.responder };
      messages = record { items = p.messages };
    } };
}

impl Pattern {
    ghost use Rattle.noise_names.specs.Plan.{Plan, has_psk, plan_of, pre_of};
    ghost use Rattle.noise_names.specs.Limits.{IsPattern, is_pre_message};

    // The pattern of these parts.
    pub(crate) fn of(
        base: &[u8],
        places: PskPlaces,
        initiator: &[Token],
        responder: &[Token],
        messages: ArrayVec<Message, 8>,
    ) -> Pattern
        requires within { IsPattern (plan_of base.now places initiator.now responder.now messages.items) }
        ensures value { result ≡ plan_of base.now places initiator.now responder.now messages.items }
    {
        let mut name = ArrayVec::new();
        name.try_extend_from_slice(base).unwrap();
        let mut first = ArrayVec::new();
        first.try_extend_from_slice(initiator).unwrap();
        let mut second = ArrayVec::new();
        second.try_extend_from_slice(responder).unwrap();
        Pattern {
            base: name,
            places,
            initiator: first,
            responder: second,
            messages,
        }
    }

    /// The base of its name, 1 to 8 bytes.
    pub fn base(&self) -> &[u8]
        ensures value { result.now ≡ self.now.base }
    {
        &self.base
    }

    /// The places of its psk tokens.
    pub fn places(&self) -> &PskPlaces
        ensures value { result.now ≡ self.now.places }
    {
        &self.places
    }

    /// The pre-message of a party: nothing, `e`, `s`, or `e` and `s`.
    pub fn pre(&self, role: Role) -> &[Token]
        ensures value { result.now ≡ pre_of role self.now }
        ensures kinds { IsTrue (is_pre_message (pre_of role self.now)) }
    {
        match role {
            Role::Initiator => &self.initiator,
            Role::Responder => &self.responder,
        }
    }

    /// The messages, 1 to 8, the initiator's first.
    pub fn messages(&self) -> &[Message]
        ensures value { result.now ≡ self.now.messages }
        ensures limits { IsPattern self.now }
    {
        &self.messages
    }

    /// Whether it has no psk token.
    pub fn is_plain(&self) -> bool
        ensures { IsTrue result ↔ IsFalse (has_psk self.now) }
    {
        !self.has_psk()
    }

    // Whether it has a psk token.
    pub(crate) fn has_psk(&self) -> bool
        ensures { result ≡ has_psk self.now }
    {
        for message in self.messages() {
            if message.has_psk() {
                return true;
            }
        }
        false
    }

    /// Its protocol name (Noise, 8).
    pub fn name(&self) -> ProtocolName
        ensures { result ≡ record { base = self.now.base; places = self.now.places } }
    {
        ProtocolName::of(&self.base, self.places.copy())
    }
}
