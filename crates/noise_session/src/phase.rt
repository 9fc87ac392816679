//! What an `End` goes through: its handshake, its transport, and the end of the session.

ghost use Rattle.std.specs.Prelude.{◌≡◌, ◌≤◌, ℕ, List, [], length, false, Some, None, IsTrue, MatchOption};
ghost use Rattle.noise_session.specs.inner.Phases.{is_due};

use crate::step::Outcome;
use crate::{OpenFault, Stage, Step, Transport};
use noise_handshake::laws::psks_suffice;
use noise_handshake::{Cause, Handshake, Keys, ReadFault};
use noise_names::Role;
use std::mem;

// What a party goes through. A handshake is one that hasn't ended, and of which messages are to come.
#[derive(Drop)]
pub(crate) enum Phase<K: Keys> {
    Handshaking {
        handshake: Handshake<K>,
        interval: u64,
    },
    Open(Transport),
    Ended {
        role: Role,
        hash: Option<[u8; 32]>,
    },
}

impl<K: Keys> Phase<K> {
    ghost use Rattle.noise_handshake.specs.Matching.{Matches};
    ghost use Rattle.noise_session.specs.Progress.{role_of, stage_of, idle_step, frame_len_of};
    ghost use Rattle.noise_session.specs.Ends.{EndState, PhaseMatches, progress_in, hash_in, remote_static_in, is_ended};
    ghost use Rattle.noise_session.specs.Steps.{step_value};
    ghost use Rattle.noise_session.specs.Taking.{Judges};
    ghost use Rattle.noise_session.specs.inner.Places.{reported_in, MatchesIn};
    ghost use Rattle.noise_session.specs.inner.Phases.{IsHandshake, GoesOnAs, ended_in};

    // The phase after messages of a handshake: its transport, once all of them have passed.
    pub(crate) fn after(handshake: Handshake<K>, interval: u64) -> Phase<K>
        requires going { handshake.ended ≡ false }
        ensures due { IsTrue (is_due result) }
        ensures going { is_ended result ≡ false }
        ensures matches { (v : EndState) → Matches K.pairs handshake v.party → interval ≡ v.interval
            → v.sent ≡ 0 → v.received ≡ 0
            → PhaseMatches K.pairs result v }
    {
        match handshake.finish() {
            Ok(opened) => Phase::Open(Transport::new(opened, interval)),
            Err(handshake) => Phase::Handshaking {
                handshake,
                interval,
            },
        }
    }

    // Goes on after a message of its handshake.
    pub(crate) fn settle(&mut self)
        requires handshake { IsHandshake self.old }
        ensures due { IsTrue (is_due self.new) }
        ensures going { is_ended self.new ≡ false }
        ensures matches { (v : EndState) → GoesOnAs K.pairs self.old v
            → PhaseMatches K.pairs self.new v }
    {
        let ended = self.ended();
        match mem::replace(self, ended) {
            Phase::Handshaking {
                handshake,
                interval,
            } => *self = Phase::after(handshake, interval),
            _ => unreachable!(),
        }
    }

    // What is left of it where the session ends.
    fn ended(&self) -> Phase<K>
        ensures { result ≡ ended_in self.now }
    {
        Phase::Ended {
            role: self.role(),
            hash: self.hash(),
        }
    }

    // Ends the session.
    pub(crate) fn end(&mut self)
        ensures { self.new ≡ ended_in self.old }
    {
        *self = self.ended();
    }

    pub(crate) fn role(&self) -> Role
        ensures { result ≡ role_of (progress_in self.now) }
    {
        match self {
            Phase::Handshaking { handshake, .. } => handshake.role(),
            Phase::Open(transport) => transport.role(),
            Phase::Ended { role, .. } => *role,
        }
    }

    pub(crate) fn hash(&self) -> Option<[u8; 32]>
        ensures { result ≡ hash_in self.now }
    {
        match self {
            Phase::Handshaking { .. } => None,
            Phase::Open(transport) => Some(transport.hash()),
            Phase::Ended { hash, .. } => *hash,
        }
    }

    pub(crate) fn remote_static(&self) -> Option<[u8; 32]>
        ensures { result ≡ remote_static_in self.now }
    {
        match self {
            Phase::Handshaking { handshake, .. } => handshake.remote_static(),
            Phase::Open(transport) => transport.remote_static(),
            Phase::Ended { .. } => None,
        }
    }

    pub(crate) fn stage(&self) -> Stage
        ensures { result ≡ stage_of (progress_in self.now) }
    {
        match self {
            Phase::Handshaking { handshake, .. } => Stage::Handshake {
                done: handshake.done(),
                ours: handshake.writes_next(),
            },
            Phase::Open(transport) => Stage::Transport {
                send: transport.send_nonce(),
                receive: transport.receive_nonce(),
            },
            Phase::Ended { .. } => Stage::Ended,
        }
    }

    // The step of a party that takes no bytes now; None where it listens.
    pub(crate) fn idle(&self) -> Option<Step<'static>>
        ensures { MatchOption result (idle_step (progress_in self.now) ≡ None)
            (λ step. idle_step (progress_in self.now) ≡ Some (step_value step)) }
    {
        match self {
            Phase::Handshaking { handshake, .. } => {
                handshake.writes_next().then_some(Step::YourTurn)
            }
            Phase::Open(transport) => transport.hears_nothing().then_some(Step::Silent),
            Phase::Ended { .. } => Some(Step::Ended),
        }
    }

    // The length of the frame that would be written now.
    pub(crate) fn frame_len(&self, payload_len: usize) -> Option<usize>
        requires due { IsTrue (is_due self.now) }
        ensures len { result ≡ frame_len_of (progress_in self.now) payload_len }
    {
        match self {
            Phase::Handshaking { handshake, .. } => Some(2 + handshake.message_len(payload_len)?),
            Phase::Open(transport) => match transport.refusal(payload_len) {
                Some(_) => None,
                None => Some(payload_len + 18),
            },
            Phase::Ended { .. } => None,
        }
    }

    // Reads a message in place, in a phase that listens.
    pub(crate) fn read(&mut self, message: &mut [u8]) -> Outcome
        requires due { IsTrue (is_due self.old) }
        requires listens { idle_step (progress_in self.old) ≡ None }
        requires short { length message.old ≤ 65535 }
        ensures due { IsTrue (is_due self.new) }
        ensures place { MatchesIn message.new result }
        ensures judges { (v : EndState) → PhaseMatches K.pairs self.old v
            → (next : EndState) × Judges v message.old (reported_in message.new result) next
            × PhaseMatches K.pairs self.new next × (next.partial ≡ []) }
    {
        psks_suffice::<K>();
        match self {
            Phase::Handshaking { handshake, .. } => match handshake.read_within(message) {
                Ok(place) => {
                    self.settle();
                    Ok(place)
                }
                Err(ReadFault::Refused { token, cause }) => {
                    self.end();
                    Err(Step::Refused { token, cause })
                }
                Err(_) => unreachable!(),
            },
            Phase::Open(transport) => match transport.open_within(message) {
                Ok(to) => Ok((0, to)),
                Err(OpenFault::Short) => Err(Step::Dropped(Cause::Short)),
                Err(OpenFault::Tag) => Err(Step::Dropped(Cause::Tag)),
                Err(OpenFault::Exhausted) => {
                    self.end();
                    Err(Step::Exhausted)
                }
                Err(OpenFault::OneWay) => unreachable!(),
            },
            Phase::Ended { .. } => unreachable!(),
        }
    }
}
