//! The key schedule of one party of a session.

ghost use Rattle.std.specs.Prelude.{◌≡◌, ◌≢◌, ◌+◌, ℕ, List, [], length, IsTrue, None};
ghost use Rattle.noise_handshake.specs.declared.faults.Cause.{Cause};
ghost use Rattle.noise_handshake.specs.Party.{Party, Accepts, Refuses};
ghost use Rattle.noise_handshake.specs.Writing.{Writes, LacksDhResult};
ghost use Rattle.noise_session.specs.Transport.{last_nonce};
ghost use Rattle.noise_session.specs.Progress.{is_open, refusal};
ghost use Rattle.noise_session.specs.Ends.{EndState, end_of, progress_of};

use crate::directions::Directions;
use crate::{Following, KeyUse, Opening, Step};
use arrayvec::ArrayVec;
use noise_handshake::Keys;

/// The key schedule of one party of a session, which follows the messages that the party writes and takes.
///
/// It is given each message with what came of it at the party. It encrypts nothing and checks nothing: of other
/// messages than those of the party it shows something else.
#[derive(Drop)]
pub struct EndTrace<K: Keys> {
    following: Following<K>,
    interval: u64,
    directions: Option<Directions>,
}

impl<K: Keys> EndTrace<K> {
    ghost use Rattle.noise_trace.specs.Following.{Follows};
    ghost use Rattle.noise_trace.specs.KeyUses.KeyUseValue.{Message, Nothing};
    ghost use Rattle.noise_trace.specs.EndFollowing.{EndFollows, IsShown, accepted_view, directions_in, written_view};
    ghost use Rattle.noise_trace.specs.KeyUses.{use_value, opening_in, message_use, stopped_use, sent_use, opened_use, tried_use, keys_in};

    /// The key schedule of a new party, whose handshake is at the place of this one; `interval` is that of the party.
    pub fn new(following: Following<K>, interval: u64) -> EndTrace<K>
        ensures { (party : Party) → Follows K.pairs following party
            → EndFollows K.pairs result (end_of party interval) }
    {
        let directions = match Opening::after(&following) {
            Some(opening) => Some(Directions::new(following.role(), &opening)),
            None => None,
        };
        EndTrace {
            following,
            interval,
            directions,
        }
    }

    /// A message that the party wrote: of the handshake, or of the transport once the session is open. At nonce 2^64 -
    /// 1, which no message has, nothing is shown and nothing changes.
    pub fn wrote(&mut self, message: &[u8]) -> KeyUse
        ensures handshake { (v : EndState) (xs : List (List ℕ)) (payload : List ℕ)
            → EndFollows K.pairs self.old v → Writes v.party payload xs message.now
            → IsShown K.pairs self.new result (message_use v xs payload) (written_view v xs payload) }
        ensures transport { (v : EndState) (payload : List ℕ) → EndFollows K.pairs self.old v
            → refusal (progress_of v) (length payload) ≡ None → IsTrue (is_open (progress_of v))
            → IsShown K.pairs self.new result (sent_use v) (record v { sent = v.sent + 1 }) }
        ensures exhausted { (v : EndState) → EndFollows K.pairs self.old v
            → IsTrue (is_open (progress_of v)) → v.sent ≡ last_nonce
            → IsShown K.pairs self.new result Nothing v }
    {
        if let Some(directions) = &mut self.directions {
            return directions.sending.pass(self.interval);
        }
        let steps = self.following.written(message);
        self.passed(steps)
    }

    /// A message that the party accepted or opened, as it came: a copy of one that is read in place. At nonce 2^64 - 1,
    /// which no message has, nothing is shown and nothing changes.
    pub fn took(&mut self, message: &[u8]) -> KeyUse
        ensures handshake { (v : EndState) (xs : List (List ℕ)) (payload : List ℕ)
            → EndFollows K.pairs self.old v → Accepts v.party message.now xs payload
            → IsShown K.pairs self.new result (message_use v xs payload) (accepted_view v xs payload) }
        ensures transport { (v : EndState) → EndFollows K.pairs self.old v
            → IsTrue (is_open (progress_of v)) → v.received ≢ last_nonce → IsShown K.pairs
            self.new result (opened_use v) (record v { received = v.received + 1; partial = [] }) }
        ensures exhausted { (v : EndState) → EndFollows K.pairs self.old v
            → IsTrue (is_open (progress_of v)) → v.received ≡ last_nonce
            → IsShown K.pairs self.new result Nothing v }
    {
        if let Some(directions) = &mut self.directions {
            return directions.receiving.pass(self.interval);
        }
        let steps = self.following.accepted(message);
        self.passed(steps)
    }

    // What is shown of a handshake message that has passed. After the last one the session is open.
    fn passed(&mut self, steps: ArrayVec<Step, 11>) -> KeyUse
        ensures value { self.new.following ≡ self.old.following }
        ensures interval { self.new.interval ≡ self.old.interval }
        ensures shown { (v : Party) → Follows K.pairs self.old.following v
            → use_value result ≡ Message steps.items (opening_in v) }
        ensures opened { (v : EndState) → Follows K.pairs self.old.following v.party
            → self.old.directions ≡ None → v.sent ≡ 0 → v.received ≡ 0 → self.new.directions ≡ directions_in v }
    {
        let opening = Opening::after(&self.following);
        if let Some(opening) = &opening {
            self.directions = Some(Directions::new(self.following.role(), opening));
        }
        KeyUse::Message { steps, opening }
    }

    /// A handshake message that the party didn't write for want of a DH result at this token, counted from 0: the steps
    /// of the tokens before it.
    pub fn withheld(&self, token: u8) -> KeyUse
        ensures { (v : EndState) → EndFollows K.pairs self.now v → (lacks : LacksDhResult v.party token)
            → use_value result ≡ stopped_use v token lacks.lacks.before }
    {
        KeyUse::Message {
            steps: self.following.withheld(token),
            opening: None,
        }
    }

    /// A handshake message that the party refused at this token, counted from 0: the steps of the tokens before it.
    pub fn refused(&self, message: &[u8], token: u8) -> KeyUse
        ensures { (v : EndState) (cause : Cause) → EndFollows K.pairs self.now v
            → (refused : Refuses v.party message.now token cause)
            → use_value result ≡ stopped_use v token refused.stops.carried }
    {
        KeyUse::Message {
            steps: self.following.refused(message, token),
            opening: None,
        }
    }

    /// A transport message that the party dropped: the nonce and the key that it was tried with. Before the opening
    /// nothing.
    pub fn tried(&self) -> KeyUse
        ensures opened { (v : EndState) → EndFollows K.pairs self.now v
            → IsTrue (is_open (progress_of v)) → use_value result ≡ tried_use v }
        ensures before { (v : EndState) → EndFollows K.pairs self.now v
            → v.party.passed ≢ length v.party.pattern.messages → use_value result ≡ Nothing }
    {
        match &self.directions {
            Some(directions) => directions.receiving.now(),
            None => KeyUse::Nothing,
        }
    }

    /// The two keys that the session opened with, the initiator's first, once it has: those of datagrams too.
    pub fn keys(&self) -> Option<([u8; 32], [u8; 32])>
        ensures { (v : EndState) → EndFollows K.pairs self.now v → result ≡ keys_in v.party }
    {
        let Opening {
            initiator,
            responder,
            ..
        } = Opening::after(&self.following)?;
        Some((initiator, responder))
    }

    /// How many handshake messages have passed.
    pub fn messages_passed(&self) -> u8
        ensures { (v : EndState) → EndFollows K.pairs self.now v → result ≡ v.party.passed }
    {
        self.following.passed()
    }
}
