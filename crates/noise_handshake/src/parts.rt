//! What a handshake holds, for a caller that keeps it itself.

ghost use Rattle.std.specs.Prelude.{◌≡◌, ◌≤◌, ◌<◌, ◌*◌, ◌↔◌, ℕ, List, not, ◌&&◌, length, drop, IsTrue, MatchOption};
ghost use Rattle.noise_names.specs.declared.token.Token.TheVariants.{E, S};
ghost use Rattle.noise_names.specs.Tokens.{other};
ghost use Rattle.noise_handshake.specs.Setup.{lacks_own, psks_of};
ghost use Rattle.noise_handshake.specs.Parts.{held_of, IsWholeValue};
ghost use Rattle.noise_handshake.specs.inner.Parts.{HasDueState, HasShownKeys};

use crate::nonces::count_due;
use crate::own_keys::was_sent;
use crate::setup::{lacks_own, psk_total};
use crate::{Keys, Own, Remote};
use noise_names::{Role, Token, ValidPattern};
use noise_state::StateParts;

/// What messages change of a handshake, its psks aside.
#[derive(Drop)]
pub struct Progress {
    /// The public keys of the other party that are known: those of its pre-message and of the messages that passed, and
    /// no others.
    pub remote: Remote,
    /// How many messages have passed.
    pub passed: u8,
    /// Whether a message was refused, or had no DH result.
    pub ended: bool,
    pub state: StateParts,
}

/// What a handshake holds between two messages, its psks aside, for a caller that keeps it itself, as one in another
/// language.
#[derive(Drop)]
pub struct Parts<K> {
    pub pattern: ValidPattern,
    pub role: Role,
    pub keys: K,
    pub progress: Progress,
}

impl<K: Keys> Parts<K> {
    // Whether the party has each key of its own that the pattern has a token for.
    fn has_own(&self) -> bool
        ensures { result ≡ (not (lacks_own self.now.pattern self.now.role E
            ((K.pairs self.now.keys).public Own.Ephemeral))
            && not (lacks_own self.now.pattern self.now.role S ((K.pairs self.now.keys).public Own.Static))) }
    {
        let pattern = self.pattern.pattern();
        !lacks_own(pattern, self.role, &self.keys, Own::Ephemeral)
            && !lacks_own(pattern, self.role, &self.keys, Own::Static)
    }

    // Whether exactly those keys of the other party are there whose tokens stand in its pre-message or in a message
    // that has passed.
    fn has_remote(&self) -> bool
        requires within { self.now.progress.passed ≤ length self.now.pattern.messages }
        ensures whole { IsTrue result ↔ HasShownKeys self.now }
    {
        let pattern = self.pattern.pattern();
        let passed = self.progress.passed as usize;
        let other = self.role.other();
        self.progress.remote.e.is_some() == was_sent(pattern, passed, other, Token::E)
            && self.progress.remote.s.is_some() == was_sent(pattern, passed, other, Token::S)
    }

    // Whether there is a cipher key exactly where the pattern says so, and the nonce counts what was encrypted under
    // it.
    fn has_state(&self) -> bool
        requires within { self.now.progress.passed ≤ length self.now.pattern.messages }
        ensures whole { IsTrue result ↔ HasDueState self.now }
        ensures bound { IsTrue result → self.now.progress.state.nonce ≤ 11 * self.now.progress.passed }
    {
        let due = count_due(&self.pattern, self.progress.passed);
        self.progress.state.key.is_some() == due.keyed && self.progress.state.nonce == due.nonce
    }

    // How many psk tokens are still to come; None where more messages have passed than there are.
    fn due(&self) -> Option<usize>
        ensures { MatchOption result (length self.now.pattern.messages < self.now.progress.passed)
            (λ n. (self.now.progress.passed ≤ length self.now.pattern.messages)
            × (n ≡ psks_of (drop self.now.progress.passed self.now.pattern.messages)) × (n ≤ 9)) }
    {
        let messages = self.pattern.pattern().messages();
        let passed = self.progress.passed as usize;
        if passed > messages.len() {
            return None;
        }
        Some(psk_total(&messages[passed..]))
    }

    // How many psks a handshake that holds them has; None where none holds them.
    pub(crate) fn psks_due(&self) -> Option<usize>
        ensures { MatchOption result ((psks : List (List ℕ)) → IsWholeValue K.pairs (held_of self.now psks) → ⊥)
            (λ n. (n ≤ 9) × (self.now.progress.state.nonce ≤ 11 * self.now.progress.passed)
            × ((psks : List (List ℕ)) → IsWholeValue K.pairs (held_of self.now psks) ↔ (length psks ≡ n))) }
    {
        let due = self.due()?;
        if !self.has_own() {
            return None;
        }
        if !self.has_remote() {
            return None;
        }
        if !self.has_state() {
            return None;
        }
        Some(due)
    }
}
