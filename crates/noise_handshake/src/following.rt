//! Following the messages that have passed between the parties, for what their tokens make of the state.

ghost use Rattle.std.specs.Prelude.{◌≡◌, ◌≤◌, ◌<◌, ◌-◌, ◌^◌, ℕ, List, length, take, None, Some, IfSome, true};
ghost use Rattle.noise_names.specs.Plan.{has_psk};
ghost use Rattle.noise_state.specs.Standing.{nonce_now};
ghost use Rattle.noise_state.specs.Symmetric.{after_ciphertext};

use crate::reader::read_tokens;
use crate::steps::Steps;
use crate::writer::write_tokens;
use crate::{Handshake, Keys, Remote};
use noise_state::SymmetricState;

// What tokens of a message leave: where the bytes after them begin, the state, and the keys of the other party that are
// known then.
#[derive(Drop)]
pub(crate) struct Front {
    from: usize,
    state: SymmetricState,
    remote: Remote,
}

// Mixes a ciphertext of a message as it travelled, and counts its nonce (EncryptAndHash and DecryptAndHash).
fn mix_ciphertext(state: &mut SymmetricState, ciphertext: &[u8])
    requires nonces { nonce_now state.old < 2 ^ 64 - 1 }
    ensures mixed { state.new ≡ after_ciphertext state.old ciphertext.now }
{
    state.mix_hash(ciphertext);
    let mut parts = state.for_trial().into_parts();
    if parts.key.is_some() {
        parts.nonce += 1;
    }
    *state = SymmetricState::from_parts(parts);
}

impl<K: Keys> Handshake<K> {
    ghost use Rattle.noise_handshake.specs.declared.faults.Cause.{Cause};
    ghost use Rattle.noise_handshake.specs.Calls.{speaks_now};
    ghost use Rattle.noise_handshake.specs.HandshakeValue.{HasPsks, read_fault, tokens_due};
    ghost use Rattle.noise_handshake.specs.Matching.{IsSupplied, after_message, after_own, party_of};
    ghost use Rattle.noise_handshake.specs.Past.{GoesPast};
    ghost use Rattle.noise_handshake.specs.Party.{Accepts, BeginsAs, Listens, Refuses, Speaks, reader, remote_after, tokens_now};
    ghost use Rattle.noise_handshake.specs.Steps.{after_steps};
    ghost use Rattle.noise_handshake.specs.Writing.{Given, LacksDhResult, Writes, writer};
    ghost use Rattle.noise_handshake.specs.inner.Following.{Fronts, TokensLeave};

    // Reads the first so many tokens of a due message of the other party in a trial.
    fn read_front<S: Steps>(&self, message: &[u8], count: usize, steps: &mut S) -> Option<Front>
        requires due { read_fault self.now ≡ None }
        requires more { self.now.passed < length self.now.pattern.messages }
        ensures nonces { IfSome result (λ f. nonce_now f.state < 2 ^ 64 - 1) }
        ensures psks { IfSome result (λ _. HasPsks self.now) }
        ensures leaves { count ≡ length (tokens_due self.now) → IfSome result (TokensLeave self.now) }
        ensures front { (xs : List (List ℕ)) (rest : List ℕ) → IsSupplied self.now
            → let v = party_of K.pairs self.now in
            count ≤ length (tokens_now v) → let ts = take count (tokens_now v) in
            BeginsAs (reader v) v.remote v.psks v.state ts xs message.now rest
            → Fronts S.after result (has_psk v.pattern) v.state ts xs (remote_after v.remote ts xs) steps.old
            steps.new }
    {
        if let Some(_) = self.lacks_psk() {
            return None;
        }
        if count > self.next.tokens.len() {
            return None;
        }
        let psks = &self.psks[self.used..];
        let placed = &self.next.tokens[..count];
        let mut state = self.state.for_trial();
        let mut remote = self.remote;
        match read_tokens(
            &mut state,
            &mut remote,
            &self.means,
            psks,
            placed,
            message,
            steps,
        ) {
            Ok(from) => Some(Front {
                from,
                state,
                remote,
            }),
            Err(_) => None,
        }
    }

    // Writes the first so many tokens of a due message of its own in a trial, and lets their bytes go.
    fn write_front<S: Steps>(&self, count: usize, steps: &mut S) -> Option<Front>
        requires due { speaks_now self.now ≡ true }
        requires more { self.now.passed < length self.now.pattern.messages }
        ensures nonces { IfSome result (λ f. nonce_now f.state < 2 ^ 64 - 1) }
        ensures psks { IfSome result (λ _. HasPsks self.now) }
        ensures leaves { count ≡ length (tokens_due self.now) → IfSome result (TokensLeave self.now) }
        ensures front { (xs : List (List ℕ)) → IsSupplied self.now → let v = party_of K.pairs self.now in
            count ≤ length (tokens_now v) → let ts = take count (tokens_now v) in
            Given (writer v) v.remote v.psks ts xs
            → Fronts S.after result (has_psk v.pattern) v.state ts xs v.remote steps.old steps.new }
    {
        if let Some(_) = self.lacks_psk() {
            return None;
        }
        if count > self.next.tokens.len() {
            return None;
        }
        let psks = &self.psks[self.used..];
        let placed = &self.next.tokens[..count];
        let mut state = self.state.for_trial();
        let mut buffer = [0; 480];
        match write_tokens(
            &mut state,
            &self.remote,
            &self.means,
            psks,
            placed,
            &mut buffer,
            steps,
        ) {
            Ok(from) => Some(Front {
                from,
                state,
                remote: self.remote,
            }),
            Err(_) => None,
        }
    }

    // The first so many tokens of the next message, read again, or written again if it is one of its own. None where no
    // message is due, where a psk is lacking, and where the tokens don't fit.
    fn front<S: Steps>(&self, message: &[u8], count: usize, steps: &mut S) -> Option<Front>
        ensures nonces { IfSome result (λ f. nonce_now f.state < 2 ^ 64 - 1) }
        ensures more { IfSome result (λ _. self.now.passed < length self.now.pattern.messages) }
        ensures psks { IfSome result (λ _. HasPsks self.now) }
        ensures leaves { count ≡ length (tokens_due self.now) → IfSome result (TokensLeave self.now) }
        ensures read { (xs : List (List ℕ)) (rest : List ℕ) → IsSupplied self.now
            → let v = party_of K.pairs self.now in
            Listens v → count ≤ length (tokens_now v) → let ts = take count (tokens_now v) in
            BeginsAs (reader v) v.remote v.psks v.state ts xs message.now rest
            → Fronts S.after result (has_psk v.pattern) v.state ts xs (remote_after v.remote ts xs) steps.old
            steps.new }
        ensures written { (xs : List (List ℕ)) → IsSupplied self.now → let v = party_of K.pairs self.now in
            Speaks v → count ≤ length (tokens_now v) → let ts = take count (tokens_now v) in
            Given (writer v) v.remote v.psks ts xs
            → Fronts S.after result (has_psk v.pattern) v.state ts xs v.remote steps.old steps.new }
    {
        if self.speaks() {
            return self.write_front(count, steps);
        }
        match self.read_fault() {
            None => self.read_front(message, count, steps),
            Some(_) => None,
        }
    }

    /// Goes past the next message, which has passed between the parties: this one wrote it, or read and accepted it.
    /// `steps` is told of each of its tokens. Returned is where its payload begins, in bytes, and the handshake is then
    /// that after the message.
    ///
    /// `message` is as it was sent, so a copy of one that was read in place. Its payload isn't decrypted, and of a
    /// message of its own nothing is compared: after a message that hasn't passed the handshake matches no party.
    /// None where no message is due, where a psk is lacking, and where the tokens don't fit; then the handshake is as
    /// it was, and some tokens may have been told.
    ///
    /// The handshake is one beside that of the party, put together of what `progress` gives: two that go on with one
    /// key would encrypt at the same nonce.
    pub fn follow<S: Steps>(&mut self, message: &[u8], steps: &mut S) -> Option<usize>
        ensures accepted { (xs : List (List ℕ)) (payload : List ℕ) → IsSupplied self.old
            → let v = party_of K.pairs self.old in Accepts v message.now xs payload
            → GoesPast S.after K.pairs v xs result steps.old steps.new self.new (after_message v xs payload) }
        ensures written { (xs : List (List ℕ)) (payload : List ℕ) → IsSupplied self.old
            → let v = party_of K.pairs self.old in Writes v payload xs message.now
            → GoesPast S.after K.pairs v xs result steps.old steps.new self.new (after_own v xs payload) }
        ensures unchanged { result ≡ None → self.new ≡ self.old }
    {
        let count = self.next.tokens.len();
        let Some(front) = self.front(message, count, steps) else {
            return None;
        };
        let Front {
            from,
            mut state,
            remote,
        } = front;
        if from > message.len() {
            return None;
        }
        mix_ciphertext(&mut state, &message[from..]);
        self.go_on(state, remote);
        Some(from)
    }

    /// Tells of the tokens before this one, counted from 0, of a message that the party refused at it, or didn't write
    /// for want of its DH result. The payload counts as the token after the last. Of a message of its own `message`
    /// isn't looked at.
    pub fn follow_before<S: Steps>(&self, message: &[u8], token: u8, steps: &mut S)
        ensures refused { (cause : Cause) → IsSupplied self.now → let v = party_of K.pairs self.now in
            (refused : Refuses v message.now token cause) → steps.new ≡ after_steps S.after (has_psk v.pattern)
            v.state 0 (take token (tokens_now v)) refused.stops.carried steps.old }
        ensures lacks { IsSupplied self.now → let v = party_of K.pairs self.now in (lacks : LacksDhResult v token)
            → steps.new ≡ after_steps S.after (has_psk v.pattern) v.state 0 (take token (tokens_now v))
            lacks.lacks.before steps.old }
    {
        let _ = self.front(message, token as usize, steps);
    }
}
