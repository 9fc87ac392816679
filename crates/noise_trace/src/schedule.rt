//! The key schedule of one party, message after message.

ghost use Rattle.std.specs.Prelude.{◌≡◌, ◌≤◌, [], ℕ, List, length, Some, IsSome};
ghost use Rattle.noise_state.specs.Cipher.{key_in};
ghost use Rattle.noise_state.specs.Symmetric.{initiator_key, responder_key};
ghost use Rattle.noise_handshake.specs.Party.{Party, Accepts, Refuses, tokens_at};
ghost use Rattle.noise_handshake.specs.Writing.{LacksDhResult, Writes};
ghost use Rattle.noise_handshake.specs.Matching.{Matches, after_message, after_own};
ghost use Rattle.noise_handshake.specs.declared.faults.Cause.{Cause};
ghost use Rattle.noise_trace.specs.Values.{values_of};

use crate::step_list::StepList;
use crate::values::values_in;
use crate::{Part, StateValues, Step};
use arrayvec::ArrayVec;
use noise_handshake::{Handshake, Keys, Parts};
use noise_names::{Role, ValidPattern};
use noise_state::{CipherState, SymmetricState};

/// The key schedule of one party, which follows the messages of its handshake as they are written and accepted.
///
/// It has the party's keys and psks, and the cipher key with its nonce: it shows what is mixed, and sends nothing.
#[derive(Drop)]
pub struct Following<K: Keys> {
    // None of keys with which there is no such handshake.
    handshake: Option<Handshake<K>>,
}

// The pattern once more, which takes no memory.
fn copy(pattern: &ValidPattern) -> ValidPattern
    ensures { result ≡ pattern.now }
{
    pattern.clone().unwrap()
}

// The key of a cipher state that has one.
fn key_of(cipher: CipherState) -> [u8; 32]
    requires keyed { IsSome (key_in cipher) }
    ensures value { key_in cipher ≡ Some result }
{
    let (key, _) = cipher.into_parts();
    key.unwrap()
}

// An empty list, with room for the steps of each message of a handshake.
fn list_for<K: Keys>(handshake: &Handshake<K>) -> StepList
    ensures empty { result.steps.items ≡ [] }
    ensures few { (i : ℕ) → length (tokens_at handshake.now.pattern.messages i) ≤ 10 }
{
    let _pattern = handshake.pattern();
    StepList::new()
}

impl<K: Keys> Following<K> {
    ghost use Rattle.noise_trace.specs.Following.{Follows, is_complete};
    ghost use Rattle.noise_trace.specs.Steps.{next_steps, steps_before};

    /// The key schedule of a handshake before its next message, with the same keys once more.
    ///
    /// Of other keys, and of a handshake that lacks psks, it shows something else or nothing.
    pub fn new(handshake: &Handshake<K>, keys: K) -> Following<K>
        ensures matches { (v : Party) → Matches K.pairs handshake.now v → (K.pairs keys).public ≡ v.own
            → (K.pairs keys).agree ≡ v.agree → Follows K.pairs result v }
    {
        let mut progress = handshake.progress();
        progress.ended = false;
        let parts = Parts {
            pattern: copy(handshake.pattern()),
            role: handshake.role(),
            keys,
            progress,
        };
        Following {
            handshake: Handshake::from_parts(parts, handshake.psks()),
        }
    }

    // Follows the next message. One whose tokens don't fit leaves everything as it was, and so does one after the last.
    fn advance(&mut self, message: &[u8]) -> ArrayVec<Step, 11>
        ensures accepted { (v : Party) (xs : List (List ℕ)) (payload : List ℕ) → Follows K.pairs self.old v
            → Accepts v message.now xs payload → (result.items ≡ next_steps v xs payload)
            × Follows K.pairs self.new (after_message v xs payload) }
        ensures written { (v : Party) (xs : List (List ℕ)) (payload : List ℕ) → Follows K.pairs self.old v
            → Writes v payload xs message.now → (result.items ≡ next_steps v xs payload)
            × Follows K.pairs self.new (after_own v xs payload) }
    {
        let Some(handshake) = &mut self.handshake else {
            return ArrayVec::new();
        };
        let mut list = list_for(handshake);
        let Some(from) = handshake.follow(message, &mut list) else {
            return list.steps;
        };
        list.add(Step {
            part: Part::Payload,
            from,
            to: message.len(),
            state: values_in(handshake.progress().state),
        });
        list.steps
    }

    /// The steps of a message that the party wrote: one for each of its tokens, and one for the payload. The key
    /// schedule is then that after the message.
    ///
    /// Of another message the steps may end early.
    pub fn written(&mut self, message: &[u8]) -> ArrayVec<Step, 11>
        ensures { (v : Party) (xs : List (List ℕ)) (payload : List ℕ) → Follows K.pairs self.old v
            → Writes v payload xs message.now → (result.items ≡ next_steps v xs payload)
            × Follows K.pairs self.new (after_own v xs payload) }
    {
        self.advance(message)
    }

    /// The same of a message that the party accepted. `message` is as it was sent, so a copy of one that was read in
    /// place.
    ///
    /// Of another message the steps may end early.
    pub fn accepted(&mut self, message: &[u8]) -> ArrayVec<Step, 11>
        ensures { (v : Party) (xs : List (List ℕ)) (payload : List ℕ) → Follows K.pairs self.old v
            → Accepts v message.now xs payload → (result.items ≡ next_steps v xs payload)
            × Follows K.pairs self.new (after_message v xs payload) }
    {
        self.advance(message)
    }

    // The steps of the tokens before this one, of a message that stopped at it.
    fn stopped(&self, message: &[u8], token: u8) -> ArrayVec<Step, 11>
        ensures refused { (v : Party) (cause : Cause) → Follows K.pairs self.now v
            → (refused : Refuses v message.now token cause)
            → result.items ≡ steps_before v token refused.stops.carried }
        ensures withheld { (v : Party) → Follows K.pairs self.now v → (lacks : LacksDhResult v token)
            → result.items ≡ steps_before v token lacks.lacks.before }
    {
        let Some(handshake) = &self.handshake else {
            return ArrayVec::new();
        };
        let mut list = list_for(handshake);
        handshake.follow_before(message, token, &mut list);
        list.steps
    }

    /// The steps of the tokens before this one, counted from 0, of a message that the party refused at it. The payload
    /// counts as the token after the last.
    ///
    /// Of another message or token the steps may end early.
    pub fn refused(&self, message: &[u8], token: u8) -> ArrayVec<Step, 11>
        ensures { (v : Party) (cause : Cause) → Follows K.pairs self.now v
            → (refused : Refuses v message.now token cause)
            → result.items ≡ steps_before v token refused.stops.carried }
    {
        self.stopped(message, token)
    }

    /// The steps of the tokens before this one, counted from 0, of a message that the party didn't write for want of
    /// its DH result. They are at the places that they would have had.
    ///
    /// Of another token the steps may end early.
    pub fn withheld(&self, token: u8) -> ArrayVec<Step, 11>
        ensures { (v : Party) → Follows K.pairs self.now v → (lacks : LacksDhResult v token)
            → result.items ≡ steps_before v token lacks.lacks.before }
    {
        self.stopped(&[], token)
    }

    /// Whether all messages have passed.
    pub fn is_complete(&self) -> bool
        ensures { (v : Party) → Follows K.pairs self.now v → result ≡ is_complete v }
    {
        match &self.handshake {
            Some(handshake) => {
                handshake.done() as usize == handshake.pattern().pattern().messages().len()
            }
            None => false,
        }
    }

    /// The two keys of the transport, if all messages have passed, the initiator's first (Split).
    pub fn transport_keys(&self) -> ([u8; 32], [u8; 32])
        ensures { (v : Party) → Follows K.pairs self.now v
            → result ≡ (initiator_key v.state, responder_key v.state) }
    {
        let Some(handshake) = &self.handshake else {
            return ([0; 32], [0; 32]);
        };
        let (initiator, responder) = SymmetricState::from_parts(handshake.progress().state).split();
        (key_of(initiator), key_of(responder))
    }

    /// The hash, the chaining key, the key and the nonce after the messages that have passed.
    pub fn values(&self) -> StateValues
        ensures { (v : Party) → Follows K.pairs self.now v → result ≡ values_of v.state }
    {
        match &self.handshake {
            Some(handshake) => values_in(handshake.progress().state),
            None => StateValues::default(),
        }
    }

    /// How many messages have passed.
    pub fn passed(&self) -> u8
        ensures { (v : Party) → Follows K.pairs self.now v → result ≡ v.passed }
    {
        match &self.handshake {
            Some(handshake) => handshake.done(),
            None => 0,
        }
    }

    /// The role of the party.
    pub fn role(&self) -> Role
        ensures { (v : Party) → Follows K.pairs self.now v → result ≡ v.role }
    {
        match &self.handshake {
            Some(handshake) => handshake.role(),
            None => Role::Initiator,
        }
    }
}
