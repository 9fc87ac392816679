//! A handshake of one party.

ghost use Rattle.std.specs.Prelude.{◌≡◌, ◌≤◌, ◌<◌, ◌+◌, ◌-◌, ◌*◌, ◌∷◌, ◌++◌, [], true, false, ℕ, List, ◌↔◌, length, take, drop, slice_range, Some, None, IsOk, IfOk, IfErr, MatchResult, MatchOption, IsSome, IfSome, IsTrue, count_by};
ghost use Rattle.noise_names.specs.Tokens.{is_psk};
ghost use Rattle.std.specs.Option.{ForSome};

use crate::layout::{MessageLayout, lay_next, psk_after};
use crate::own_keys::public_keys;
use crate::reader::{lacked, read_before, read_lacking, read_message};
use crate::setup::{psk_total, setup_fault, start};
use crate::stop::Stop;
use crate::tokens::Means;
use crate::writer::{write_lacking, write_lacking_before, write_message};
use crate::{Cause, Keys, Opened, Own, Parts, Progress, ReadFault, Remote, SetupFault, WriteFault};
use arrayvec::ArrayVec;
use noise_names::{Role, ValidPattern};
use noise_state::SymmetricState;
use noise_state::limits::MAX_LEN;
use std::marker::Model;

/// One party of a handshake (Noise, 5.3), in either role of any valid pattern. It asks for no memory.
///
/// Messages are written and read in turn, the initiator's first. A message goes on in a trial of the symmetric state,
/// so that a fault leaves what the messages before it made. Each message is laid out once, when the one before it has
/// passed.
///
/// It may have fewer psks than psk tokens are to come (Noise, 9): `read_or_ask` and `write_or_ask` ask for the others
/// when their tokens come, and `put_psk` hands them in. So a responder can choose the psk when it knows the other
/// party. It runs as a handshake that had all psks from the start: what its calls do holds for each party whose psks
/// begin with those that were handed in. No message is read or written whose psk tokens lack a psk.
#[derive(Drop)]
pub struct Handshake<K: Keys> {
    pattern: ValidPattern,
    pub(crate) means: Means<K>,
    pub(crate) remote: Remote,
    pub(crate) psks: ArrayVec<[u8; 32], 9>,
    pub(crate) used: usize,
    passed: u8,
    ended: bool,
    pub(crate) next: MessageLayout,
    pub(crate) state: SymmetricState,
}

impl<K: Keys> Model for Handshake<K> {
    ghost use Rattle.noise_handshake.specs.HandshakeValue.{HandshakeValue};

    ghost Value = { HandshakeValue K };

    ghost use Rattle.noise_handshake.specs.inner.Kept.{held_in, IsKept};

    ghost view = { held_in };

    ghost invariant = { IsKept K.pairs };
}

impl<K: Keys> Handshake<K> {
    ghost use Rattle.noise_names.specs.Limits.{IsPattern};
    ghost use Rattle.noise_names.specs.Validity.{IsValid};
    ghost use Rattle.noise_names.specs.Plan.{has_psk};
    ghost use Rattle.noise_names.specs.Overhead.{has_key, overhead_of};
    ghost use Rattle.noise_handshake.specs.declared.faults.Cause.{Cause};
    ghost use Rattle.noise_handshake.specs.declared.faults.ReadFault.{ReadFault};
    ghost use Rattle.noise_handshake.specs.declared.faults.WriteFault.{WriteFault};
    ghost use Rattle.noise_handshake.specs.Passed.{passed_places};
    ghost use Rattle.noise_handshake.specs.Party.{Refuses, Speaks, reader, tokens_at, tokens_now};
    ghost use Rattle.noise_handshake.specs.HandshakeValue.{HasPsks, ended_as, gone_on, is_turn, message_len_of, read_fault, write_fault};
    ghost use Rattle.noise_handshake.specs.Calls.{HandshakeReads, HandshakeWrites, HasBegun, HasNotRead, HasRead, IsPayloadIn, ReadingWants, WritingWants, speaks_now};
    ghost use Rattle.noise_handshake.specs.Late.{IsLateWhole, LacksPskAt, late_fault, party_with, with_later};
    ghost use Rattle.noise_handshake.specs.Matching.{IsParty, IsSupplied, Matches, party_of};
    ghost use Rattle.noise_handshake.specs.Opening.{IsOpenedOf};
    ghost use Rattle.noise_handshake.specs.Parts.{held_of, HasProgress};
    ghost use Rattle.noise_handshake.specs.Setup.{party_at_start, psks_of, setup_fault};
    ghost use Rattle.noise_handshake.specs.Writing.{writer};
    ghost use Rattle.noise_handshake.specs.inner.Following.{Leaves};
    ghost use Rattle.noise_handshake.specs.inner.Layout.{IsLaid};
    ghost use Rattle.noise_handshake.specs.inner.Listening.{BeginsBefore, StopsBefore};
    ghost use Rattle.noise_handshake.specs.inner.Speaking.{WriterWants};

    /// The handshake of one party before its first message.
    ///
    /// The prologue has at most 65535 bytes. `remote` has the keys of the other party's pre-message and no others, and
    /// `psks` a psk for each `psk` token, in their order. At an `Err` what was handed in is gone.
    pub fn new(
        pattern: ValidPattern,
        role: Role,
        prologue: &[u8],
        keys: K,
        remote: Remote,
        psks: &[[u8; 32]],
    ) -> Result<Handshake<K>, SetupFault>
        requires len { length prologue.now ≤ 65535 }
        ensures fault { MatchOption (setup_fault pattern role (K.pairs keys).public remote (length psks.now))
            (IsOk result) (λ fault. result ≡ Err fault) }
        ensures matches { IfOk result
            (λ h. Matches K.pairs h (party_at_start pattern role prologue.now (K.pairs keys).public
            (K.pairs keys).agree remote psks.now)) }
        ensures parts { IfOk result (HasBegun pattern role keys) }
        ensures valid { IsPattern pattern × IsValid pattern }
    {
        let plan = pattern.pattern();
        if let Some(fault) = setup_fault(plan, role, &keys, &remote, psks.len()) {
            return Err(fault);
        }
        let mut due = ArrayVec::new();
        due.try_extend_from_slice(psks).unwrap();
        Ok(Handshake::begin(pattern, role, prologue, keys, remote, due))
    }

    /// The same, where `psks` has the psks of the first psk tokens, in their order, and may have fewer than there are
    /// psk tokens.
    pub fn with_fewer_psks(
        pattern: ValidPattern,
        role: Role,
        prologue: &[u8],
        keys: K,
        remote: Remote,
        psks: &[[u8; 32]],
    ) -> Result<Handshake<K>, SetupFault>
        requires len { length prologue.now ≤ 65535 }
        ensures fault { MatchOption (late_fault pattern role (K.pairs keys).public remote (length psks.now))
            (IsOk result)
            (λ fault. result ≡ Err fault) }
        ensures matches { IfOk result (λ h. (later : List (List ℕ)) → party_with K.pairs later h
            ≡ party_at_start pattern role prologue.now (K.pairs keys).public (K.pairs keys).agree
            remote (psks.now ++ later)) }
        ensures parts { IfOk result (HasBegun pattern role keys) }
        ensures psks { IfOk result (λ h. h.psks ≡ psks.now) }
        ensures valid { IsPattern pattern × IsValid pattern }
    {
        let plan = pattern.pattern();
        let count = psks.len().max(psk_total(plan.messages()));
        if let Some(fault) = setup_fault(plan, role, &keys, &remote, count) {
            return Err(fault);
        }
        let mut given = ArrayVec::new();
        given.try_extend_from_slice(psks).unwrap();
        Ok(Handshake::begin(pattern, role, prologue, keys, remote, given))
    }

    // The handshake before its first message, of a setup without a fault but that psks may be missing.
    fn begin(
        pattern: ValidPattern,
        role: Role,
        prologue: &[u8],
        keys: K,
        remote: Remote,
        psks: ArrayVec<[u8; 32], 9>,
    ) -> Handshake<K>
        requires len { length prologue.now ≤ 65535 }
        requires right { setup_fault pattern role (K.pairs keys).public remote (psks_of pattern.messages) ≡ None }
        requires few { length psks.items ≤ psks_of pattern.messages }
        ensures matches { party_of K.pairs result
            ≡ party_at_start pattern role prologue.now (K.pairs keys).public (K.pairs keys).agree remote psks.items }
        ensures parts { HasBegun pattern role keys result }
        ensures psks { result.psks ≡ psks.items }
    {
        let plan = pattern.pattern();
        let has_psks = !plan.is_plain();
        let state = start(plan, role, prologue, &public_keys(&keys), &remote);
        let next = lay_next(plan, has_psks, state.has_key(), 0);
        Handshake {
            pattern,
            means: Means {
                keys,
                role,
                has_psks,
            },
            remote,
            psks,
            used: 0,
            passed: 0,
            ended: false,
            next,
            state,
        }
    }

    /// The psks that were handed in for psk tokens that are still to come, in their order.
    pub fn psks(&self) -> &[[u8; 32]]
        ensures value { result.now ≡ self.now.psks }
        ensures few { length result.now ≤ 9 }
    {
        &self.psks[self.used..]
    }

    // How many psk tokens are still to come.
    fn psks_to_come(&self) -> usize
        ensures count { result ≡ psks_of (drop self.now.passed self.now.pattern.messages) }
        ensures few { result ≤ 9 }
    {
        psk_total(&self.pattern.pattern().messages()[self.passed as usize..])
    }

    /// Hands in the psk of the first psk token that lacks one. False where none does; then nothing changes.
    pub fn put_psk(&mut self, psk: [u8; 32]) -> bool
        ensures lacks { IsTrue result
            ↔ (length self.old.psks < psks_of (drop self.old.passed self.old.pattern.messages)) }
        ensures put { IsTrue result → self.new ≡ with_later self.old (psk ∷ []) }
        ensures few { length self.new.psks ≤ 9 }
        ensures unchanged { result ≡ false → self.new ≡ self.old }
        ensures matches { IsTrue result → (later : List (List ℕ))
            → party_with K.pairs later self.new ≡ party_with K.pairs (psk ∷ later) self.old }
    {
        let due = self.psks_to_come();
        let mut psks = ArrayVec::new();
        psks.try_extend_from_slice(self.psks()).unwrap();
        if psks.len() == due {
            return false;
        }
        psks.push(psk);
        self.psks = psks;
        self.used = 0;
        true
    }

    /// A copy of what messages have changed so far, the psks aside, for a caller that keeps it itself until the next
    /// message. It has the cipher key with its nonce, and nothing prevents going on both with this handshake and with
    /// one that is put together of the copy: the two would encrypt at the same nonce. So take it when this handshake is
    /// given up.
    pub fn progress(&self) -> Progress
        ensures value { HasProgress self.now result }
        ensures whole { IsLateWhole K.pairs self.now }
        ensures valid { IsValid self.now.pattern }
    {
        Progress {
            remote: self.remote,
            passed: self.passed,
            ended: self.ended,
            state: self.state.for_trial().into_parts(),
        }
    }

    /// What it holds, for a caller that keeps it itself until the next message. Its psks are gone: `psks` reports
    /// them before.
    pub fn into_parts(self) -> Parts<K>
        ensures value { held_of result self.psks ≡ self }
        ensures whole { IsLateWhole K.pairs self }
    {
        let progress = self.progress();
        Parts {
            pattern: self.pattern,
            role: self.means.role,
            keys: self.means.keys,
            progress,
        }
    }

    /// The handshake that holds these parts, and these psks for the first psk tokens that are still to come, in their
    /// order; or None for what no handshake holds. It matches what the handshake stood for that was taken apart; at
    /// None the parts are gone. What doesn't show in the parts isn't tested, as whether the keys and the hash come
    /// of messages: of other parts it may be a handshake that matches no party. The nonce has to be the number of
    /// texts that the pattern's tokens encrypt under the present key.
    ///
    /// A handshake that was taken apart is put together once: two of them would encrypt at the same nonce.
    pub fn from_parts(parts: Parts<K>, psks: &[[u8; 32]]) -> Option<Handshake<K>>
        ensures whole { IsSome result ↔ IsLateWhole K.pairs (held_of parts psks.now) }
        ensures value { IfSome result (λ h. h ≡ held_of parts psks.now) }
    {
        if psks.len() > parts.psks_due()? {
            return None;
        }
        let mut given = ArrayVec::new();
        given.try_extend_from_slice(psks).unwrap();
        Some(Handshake::of_parts(parts, given))
    }

    // The handshake that holds these parts and psks.
    fn of_parts(parts: Parts<K>, psks: ArrayVec<[u8; 32], 9>) -> Handshake<K>
        requires whole { IsLateWhole K.pairs (held_of parts psks.items) }
        requires bound { parts.progress.state.nonce ≤ 11 * parts.progress.passed }
        ensures value { result ≡ held_of parts psks.items }
    {
        let progress = parts.progress;
        let plan = parts.pattern.pattern();
        let has_psks = !plan.is_plain();
        let next = lay_next(
            plan,
            has_psks,
            progress.state.key.is_some(),
            progress.passed,
        );
        Handshake {
            pattern: parts.pattern,
            means: Means {
                keys: parts.keys,
                role: parts.role,
                has_psks,
            },
            remote: progress.remote,
            psks,
            used: 0,
            passed: progress.passed,
            ended: progress.ended,
            next,
            state: SymmetricState::from_parts(progress.state),
        }
    }

    /// The pattern, with the tokens of its messages.
    pub fn pattern(&self) -> &ValidPattern
        ensures value { result.now ≡ self.now.pattern }
        ensures valid { IsValid self.now.pattern }
        ensures limits { IsPattern self.now.pattern }
    {
        &self.pattern
    }

    /// The role of this party.
    pub fn role(&self) -> Role
        ensures { result ≡ self.now.role }
    {
        self.means.role
    }

    /// How many messages have passed, of both parties together, also after the handshake has ended.
    pub fn done(&self) -> u8
        ensures count { result ≡ self.now.passed }
        ensures within { self.now.passed ≤ length self.now.pattern.messages }
    {
        self.passed
    }

    /// Whether it has ended: a message was refused, or had no DH result. It then neither reads nor writes any more.
    pub fn ended(&self) -> bool
        ensures { result ≡ self.now.ended }
    {
        self.ended
    }

    /// Whether this party writes the next message, if there is one.
    pub fn writes_next(&self) -> bool
        ensures { result ≡ is_turn self.now.role self.now.passed }
    {
        match self.means.role {
            Role::Initiator => self.passed % 2 == 0,
            Role::Responder => self.passed % 2 == 1,
        }
    }

    /// The other party's static public key, 32 bytes, as far as its pre-message and the messages that passed show it,
    /// also after the handshake has ended.
    pub fn remote_static(&self) -> Option<[u8; 32]>
        ensures { result ≡ self.now.remote.s }
    {
        self.remote.s
    }

    // The layout of the next message.
    fn next_layout(&self) -> &MessageLayout
        requires due { self.now.passed < length self.now.pattern.messages }
        ensures laid { let p = self.now.pattern in let n = self.now.passed in
            IsLaid (has_psk p) (has_key p (passed_places p n)) (tokens_at p.messages n) result.now }
        ensures valid { IsValid self.now.pattern }
    {
        &self.next
    }

    // How much longer the next message is than its payload.
    fn overhead(&self) -> usize
        requires due { self.now.passed < length self.now.pattern.messages }
        ensures value { result ≡ overhead_of self.now.pattern (self.now.passed + 1) }
        ensures most { result ≤ 65535 }
    {
        self.next_layout().overhead as usize
    }

    // Why no message is read now.
    pub(crate) fn read_fault(&self) -> Option<ReadFault>
        ensures value { result ≡ read_fault self.now }
        ensures due { result ≡ None → self.now.passed < length self.now.pattern.messages }
        ensures within { self.now.passed ≤ length self.now.pattern.messages }
    {
        if self.ended {
            Some(ReadFault::Ended)
        } else if self.passed as usize == self.pattern.pattern().messages().len() {
            Some(ReadFault::Done)
        } else if self.writes_next() {
            Some(ReadFault::NotYourTurn)
        } else {
            None
        }
    }

    // The first token of the next message, counted from 0, that is a psk token without a psk, if there is one.
    pub(crate) fn lacks_psk(&self) -> Option<u8>
        requires due { self.now.passed < length self.now.pattern.messages }
        ensures lacks { MatchOption result (HasPsks self.now) (LacksPskAt self.now) }
        ensures first { (k : ℕ) → LacksPskAt self.now k → result ≡ Some k }
    {
        match psk_after(&self.next.tokens, self.psks.len() - self.used) {
            Some(k) => Some(k as u8),
            None => None,
        }
    }

    // Reads a message that is due, and for which no psk is lacking. Where reading stops nothing has changed.
    pub(crate) fn attempt(&mut self, message: &mut [u8]) -> Result<(usize, usize), Stop>
        requires fits { length message.old ≤ 65535 }
        requires due { read_fault self.old ≡ None }
        requires psks { HasPsks self.old }
        ensures reads { let v = party_of K.pairs self.old in MatchResult result
            (λ place. IsPayloadIn message.old message.new place
            × HasRead v self.old message.old (slice_range message.new place.0 place.1) self.new)
            (λ stop. Refuses v message.old stop.token stop.cause × ReadingWants v message.old stop.want
            × (self.new ≡ self.old)
            × (message.new ≡ message.old)) }
    {
        let psks = &self.psks[self.used..];
        let placed = &self.next.tokens[..];
        let mut state = self.state.for_trial();
        let mut remote = self.remote;
        match read_message(&mut state, &mut remote, &self.means, psks, placed, message) {
            Ok(place) => {
                self.go_on(state, remote);
                Ok(place)
            }
            Err((token, cause)) => Err(Stop {
                token: token as u8,
                cause,
                want: lacked(self.means.role, &remote, placed, token, cause),
            }),
        }
    }

    /// Reads a message in place, and returns from where to where its payload then is in it, in bytes. The bytes in
    /// front of the payload and after it stay as they are: an encrypted static key isn't decrypted there.
    ///
    /// The message has at most 65535 bytes. At an `Err` its bytes are unchanged. `Refused` ends the handshake, and the
    /// other faults leave it as it was. A message for which a psk is lacking is refused at its token, as one for which
    /// a DH has no result.
    pub fn read_within(&mut self, message: &mut [u8]) -> Result<(usize, usize), ReadFault>
        requires fits { length message.old ≤ 65535 }
        ensures reads { HandshakeReads K.pairs self.old message.old result self.new message.new }
    {
        if let Some(fault) = self.read_fault() {
            return Err(fault);
        }
        if let Some(token) = self.lacks_psk() {
            self.ended = true;
            return Err(ReadFault::Refused {
                token,
                cause: Cause::Agreement,
            });
        }
        match self.attempt(message) {
            Ok(place) => Ok(place),
            Err(stop) => {
                self.ended = true;
                Err(stop.fault())
            }
        }
    }

    /// Reads a message in place, and gives its payload, a part of the message's own bytes.
    ///
    /// The message has at most 65535 bytes. At an `Err` its bytes are unchanged. `Refused` ends the handshake, and the
    /// other faults leave it as it was.
    pub fn read<'a>(&mut self, message: &'a mut [u8]) -> Result<&'a mut [u8], ReadFault>
        requires fits { length message.old ≤ 65535 }
        ensures part { IfOk result
            (λ payload. (from : ℕ) × (payload.ref_ptr ≡ (message.entry.ref_ptr.0, message.entry.ref_ptr.1 + from))
            × (from + length payload.now ≤ length message.old)) }
        ensures reads { MatchResult result
            (λ payload. HasRead (party_of K.pairs self.old) self.old message.old payload.now self.new)
            (λ fault. HasNotRead K.pairs self.old message.old fault self.new) }
    {
        let (from, to) = self.read_within(message)?;
        Ok(&mut message[from..to])
    }

    // The key pair of this party and the public key of the other of the DH whose result reading a due message lacks,
    // for which no psk is lacking. None where the message wouldn't be refused for that.
    pub(crate) fn read_lacking(&self, message: &[u8]) -> Option<(Own, [u8; 32])>
        requires due { read_fault self.now ≡ None }
        requires psks { HasPsks self.now }
        ensures wants { ReadingWants (party_of K.pairs self.now) message.now result }
    {
        let psks = &self.psks[self.used..];
        read_lacking(
            &self.state,
            &self.remote,
            &self.means,
            psks,
            &self.next.tokens,
            message,
        )
    }

    /// The handshake hash (Noise, 11.2), 32 bytes, of the start and the messages that passed, also after the handshake
    /// has ended.
    pub fn hash(&self) -> [u8; 32]
        ensures { result ≡ self.now.state.hash }
    {
        self.state.hash()
    }

    // Why no message with a payload of this length is written now, whatever the DH results are.
    pub(crate) fn write_fault(&self, payload_len: usize) -> Option<WriteFault>
        ensures value { result ≡ write_fault self.now payload_len }
        ensures due { result ≡ None → self.now.passed < length self.now.pattern.messages }
        ensures within { self.now.passed ≤ length self.now.pattern.messages }
    {
        if self.ended {
            Some(WriteFault::Ended)
        } else if self.passed as usize == self.pattern.pattern().messages().len() {
            Some(WriteFault::Done)
        } else if !self.writes_next() {
            Some(WriteFault::NotYourTurn)
        } else if payload_len > MAX_LEN - self.overhead() {
            Some(WriteFault::TooLong)
        } else {
            None
        }
    }

    /// The length of the message that `write` would give for a payload of this length, both in bytes. None where it
    /// would be refused before any DH.
    pub fn message_len(&self, payload_len: usize) -> Option<usize>
        ensures { result ≡ message_len_of self.now payload_len }
    {
        match self.write_fault(payload_len) {
            Some(_) => None,
            None => Some(self.overhead() + payload_len),
        }
    }

    /// Writes a message to the front of `out`, and returns its length in bytes.
    ///
    /// Where `message_len` gives a length, `out` holds it. `Agreement` ends the handshake and leaves open what `out`
    /// holds; the other faults change nothing. A psk that is lacking is as a DH without a result.
    pub fn write(&mut self, payload: &[u8], out: &mut [u8]) -> Result<usize, WriteFault>
        requires room { ForSome (message_len_of self.old (length payload.now)) (λ n. n ≤ length out.old) }
        ensures writes { HandshakeWrites K.pairs self.old payload.now out.old result self.new out.new }
    {
        if let Some(fault) = self.write_fault(payload.len()) {
            return Err(fault);
        }
        if let Some(token) = self.lacks_psk() {
            self.ended = true;
            return Err(WriteFault::Agreement { token });
        }
        self.write_due(payload, out)
    }

    // The same of a message that is due, and for which no psk is lacking.
    pub(crate) fn write_due(&mut self, payload: &[u8], out: &mut [u8]) -> Result<usize, WriteFault>
        requires room { ForSome (message_len_of self.old (length payload.now)) (λ n. n ≤ length out.old) }
        requires due { write_fault self.old (length payload.now) ≡ None }
        requires psks { HasPsks self.old }
        ensures writes { HandshakeWrites K.pairs self.old payload.now out.old result self.new out.new }
    {
        let psks = &self.psks[self.used..];
        let mut state = self.state.for_trial();
        let remote = self.remote;
        match write_message(
            &mut state,
            &remote,
            &self.means,
            psks,
            &self.next.tokens,
            payload,
            out,
        ) {
            Ok(len) => {
                self.go_on(state, remote);
                Ok(len)
            }
            Err(token) => {
                self.ended = true;
                Err(WriteFault::Agreement { token: token as u8 })
            }
        }
    }

    // Whether a message of this party is due.
    pub(crate) fn speaks(&self) -> bool
        ensures value { result ≡ speaks_now self.now }
        ensures due { IsTrue result → self.now.passed < length self.now.pattern.messages }
    {
        !self.ended
            && self.passed as usize != self.pattern.pattern().messages().len()
            && self.writes_next()
    }

    // The key pair of this party and the public key of the other of the DH whose result writing a due message lacks,
    // for which no psk is lacking.
    pub(crate) fn write_lacking(&self) -> Option<(Own, [u8; 32])>
        requires due { speaks_now self.now ≡ true }
        requires psks { HasPsks self.now }
        ensures wants { WritingWants (party_of K.pairs self.now) result }
    {
        let psks = &self.psks[self.used..];
        write_lacking(&self.remote, &self.means, psks, &self.next.tokens)
    }

    // Goes on after the next message, which leaves this state and these keys of the other party.
    pub(crate) fn go_on(&mut self, state: SymmetricState, remote: Remote)
        requires more { self.old.passed < length self.old.pattern.messages }
        requires psks { HasPsks self.old }
        requires leaves { Leaves self.old state remote }
        ensures value { self.new ≡ gone_on self.old state remote }
    {
        let left = &self.psks[self.used + self.next.psks as usize..];
        self.used = self.psks.len() - left.len();
        self.passed += 1;
        let plan = self.pattern.pattern();
        self.next = lay_next(plan, self.means.has_psks, state.has_key(), self.passed);
        self.state = state;
        self.remote = remote;
    }

    // Ends it.
    pub(crate) fn end(&mut self)
        ensures ended { self.new ≡ ended_as self.old }
    {
        self.ended = true;
    }

    // Reads a due message before token k, and returns the other party's static key as it is known there; or where
    // reading stops before.
    pub(crate) fn read_before(&self, k: usize, message: &[u8]) -> Result<Option<[u8; 32]>, Stop>
        requires due { read_fault self.now ≡ None }
        requires within { k ≤ length (tokens_at self.now.pattern.messages self.now.passed) }
        requires psks { count_by is_psk (take k (tokens_at self.now.pattern.messages self.now.passed))
            ≤ length self.now.psks }
        ensures reads { let v = party_of K.pairs self.now in MatchResult result
            (BeginsBefore (reader v) v.remote v.psks v.state (tokens_now v) message.now k)
            (StopsBefore v message.now k) }
    {
        let psks = &self.psks[self.used..];
        read_before(
            &self.state,
            &self.remote,
            &self.means,
            psks,
            &self.next.tokens,
            k,
            message,
        )
    }

    // The DH result before token k without which no message can be written now, if there is one.
    pub(crate) fn wants_before(&self, k: usize) -> Option<(Own, [u8; 32])>
        requires due { speaks_now self.now ≡ true }
        requires within { k ≤ length (tokens_at self.now.pattern.messages self.now.passed) }
        requires psks { count_by is_psk (take k (tokens_at self.now.pattern.messages self.now.passed))
            ≤ length self.now.psks }
        ensures wants { let v = party_of K.pairs self.now in
            Speaks v × WriterWants (writer v) v.remote v.psks (take k (tokens_now v)) result }
    {
        let psks = &self.psks[self.used..];
        write_lacking_before(&self.remote, &self.means, psks, &self.next.tokens, k)
    }

    /// What the handshake leaves once all messages have passed and it hasn't ended; else it comes back as it was.
    pub fn finish(self) -> Result<Opened, Handshake<K>>
        ensures when { IsOk result ↔ ((self.ended ≡ false) × (self.passed ≡ length self.pattern.messages)) }
        ensures opened { IfOk result (λ o. IsOpenedOf o (party_of K.pairs self)) }
        ensures back { IfErr result (λ h. h ≡ self) }
    {
        if self.ended || (self.passed as usize) < self.pattern.pattern().messages().len() {
            return Err(self);
        }
        let hash = self.state.hash();
        let (initiator, responder) = self.state.split();
        Ok(Opened {
            role: self.means.role,
            one_way: self.pattern.one_way(),
            hash,
            remote_static: self.remote.s,
            initiator,
            responder,
        })
    }
}
