ghost use Rattle.std.specs.Prelude.{◌≡◌, ◌↔◌, ◌≤◌, ◌==◌, length, IsOk, IfOk, IfErr, MatchResult, IfSome, [], Some, None};

use crate::seen::Seen;
use crate::table::{place_of, row};
use crate::{Pattern, Role, RuleFault};
use std::marker::Model;

/// A pattern that keeps the five rules of validity (Noise, 7.3 and 9.3), which [`RuleFault`] lists.
#[derive(Clone, Debug, Drop, PartialEq, Eq)]
pub struct ValidPattern {
    pattern: Pattern,
}

impl Model for ValidPattern {
    ghost use Rattle.noise_names.specs.Plan.{Plan};
    ghost use Rattle.noise_names.specs.Validity.{IsValid};

    ghost Value = { Plan };

    ghost view = { λ v. v.pattern };

    ghost invariant = { λ v. IsValid v.pattern };

    ghost inverse = { λ p. record { pattern = p } };
}

impl ValidPattern {
    ghost use Rattle.noise_names.specs.Plan.{is_one_way, first_places};
    ghost use Rattle.noise_names.specs.Overhead.{has_key, overhead_of};
    ghost use Rattle.noise_names.specs.Pieces.{bytes_before, places_to, tokens_of};
    ghost use Rattle.noise_names.specs.Validity.{IsValid};
    ghost use Rattle.noise_names.specs.Checking.{seen_of};
    ghost use Rattle.noise_names.specs.Tokens.{turn_from};
    ghost use Rattle.noise_names.specs.Limits.{Placed};
    ghost use Rattle.noise_names.specs.Fundamental.{fundamental_of};

    /// The fundamental pattern of this base, such as `XX` (Noise, 7.4 and 7.5), which is valid. None if the base is
    /// none of the fifteen. It has no psk tokens.
    pub fn fundamental(base: &[u8]) -> Option<ValidPattern>
        ensures value { result ≡ fundamental_of base.now }
        ensures valid { IfSome result (λ pattern. IsValid pattern) }
        ensures placed { IfSome result (λ pattern. Placed pattern [] pattern) }
    {
        let place = place_of(base)?;
        if place < 15 {
            Some(ValidPattern {
                pattern: row(place),
            })
        } else {
            None
        }
    }

    /// The pattern.
    pub fn pattern(&self) -> &Pattern
        ensures value { result.now ≡ self.now }
        ensures valid { IsValid self.now }
    {
        &self.pattern
    }

    /// Whether it is one-way (Noise, 7.4): one message alone.
    pub fn one_way(&self) -> bool
        ensures { result ≡ is_one_way self.now }
    {
        self.pattern.messages().len() == 1
    }

    // What comes before the message after so many, and whose turn it is then.
    fn seen_after(&self, passed: usize) -> (Seen, Role)
        requires last { passed ≤ length self.now.messages }
        ensures seen { result.0 ≡ seen_of (first_places self.now passed) }
        ensures turn { result.1 ≡ turn_from Role.Initiator passed }
    {
        let mut seen = Seen::new();
        seen.add_tokens(Role::Initiator, self.pattern.pre(Role::Initiator));
        seen.add_tokens(Role::Responder, self.pattern.pre(Role::Responder));
        let party = seen.add_messages(&self.pattern.messages()[..passed]);
        (seen, party)
    }

    /// How many bytes longer a message is than its payload (Noise, 5.3 and 9.2). Messages count from 1.
    pub fn overhead(&self, message: u8) -> u16
        requires first { 1 ≤ message }
        requires last { message ≤ length self.now.messages }
        ensures value { result ≡ overhead_of self.now message }
    {
        let index = usize::from(message) - 1;
        let (seen, party) = self.seen_after(index);
        let mut seen = seen;
        seen.overhead(
            self.pattern.has_psk(),
            party,
            &self.pattern.messages()[index],
        )
    }

    // What comes before a token of a message, and how many bytes of the message stand before it.
    fn seen_before(&self, message: u8, token: u8) -> (Seen, u16)
        requires first { 1 ≤ message }
        requires last { message ≤ length self.now.messages }
        requires token { token ≤ length (tokens_of self.now message) }
        ensures seen { result.0 ≡ seen_of (places_to self.now message token) }
        ensures bytes { result.1 ≡ bytes_before self.now message token }
    {
        let index = usize::from(message) - 1;
        let (seen, party) = self.seen_after(index);
        let mut seen = seen;
        let tokens = self.pattern.messages()[index].tokens();
        let front = &tokens[..usize::from(token)];
        let bytes = seen.tokens_len(self.pattern.has_psk(), party, front);
        (seen, bytes)
    }

    /// How many bytes of a message stand before one of its tokens (Noise, 5.3). Messages count from 1 and tokens from
    /// 0; the payload counts as the token after the last.
    pub fn bytes_before(&self, message: u8, token: u8) -> u16
        requires first { 1 ≤ message }
        requires last { message ≤ length self.now.messages }
        requires token { token ≤ length (tokens_of self.now message) }
        ensures value { result ≡ bytes_before self.now message token }
    {
        let (_, bytes) = self.seen_before(message, token);
        bytes
    }

    /// Whether there is a cipher key before such a token (Noise, 5.2 and 9.2): a static key or a payload there is
    /// encrypted.
    pub fn has_key_before(&self, message: u8, token: u8) -> bool
        requires first { 1 ≤ message }
        requires last { message ≤ length self.now.messages }
        requires token { token ≤ length (tokens_of self.now message) }
        ensures value { result ≡ has_key self.now (places_to self.now message token) }
    {
        let (seen, _) = self.seen_before(message, token);
        seen.has_key(self.pattern.has_psk())
    }

    /// Whether there is a cipher key after the pre-messages and so many messages (Noise, 5.2 and 9.2).
    pub fn has_key(&self, passed: u8) -> bool
        requires last { passed ≤ length self.now.messages }
        ensures value { result ≡ has_key self.now (first_places self.now passed) }
    {
        let (seen, _) = self.seen_after(usize::from(passed));
        seen.has_key(self.pattern.has_psk())
    }
}

impl Pattern {
    ghost use Rattle.noise_names.specs.Validity.{IsValid, IsFirstFault, first_fault};

    /// The pattern as a valid one, or the first place that breaks a rule, with the lowest rule that it breaks. At a
    /// fault the pattern is gone: keep a clone where it is needed again.
    pub fn check(self) -> Result<ValidPattern, RuleFault>
        ensures first { MatchResult result (λ _. first_fault self ≡ None) (λ fault. first_fault self ≡ Some fault) }
        ensures value { IfOk result (λ checked. checked ≡ self) }
        ensures valid { IsOk result ↔ IsValid self }
        ensures fault { IfErr result (λ fault. IsFirstFault self fault) }
    {
        if let Err(fault) = self.walk() {
            return Err(fault);
        }
        Ok(ValidPattern { pattern: self })
    }

    // Walks over the places as far as the first fault.
    fn walk(&self) -> Result<(), RuleFault>
        ensures { MatchResult result (λ _. first_fault self.now ≡ None) (λ fault. first_fault self.now ≡ Some fault) }
    {
        let messages = self.messages();
        let transport = messages.len() as u8 + 1;
        let mut seen = Seen::new();
        seen.walk_tokens(Role::Initiator, 0, self.pre(Role::Initiator))?;
        seen.walk_tokens(Role::Responder, 0, self.pre(Role::Responder))?;
        seen.walk_messages(messages)?;
        seen.walk_end(Role::Initiator, transport, 0)?;
        if messages.len() != 1 {
            seen.walk_end(Role::Responder, transport, 1)?;
        }
        Ok(())
    }
}
