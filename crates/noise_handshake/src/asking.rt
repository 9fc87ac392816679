//! Reading and writing the messages of a handshake that asks for what it lacks: DH results and psks.

ghost use Rattle.std.specs.Prelude.{◌≡◌, ◌≤◌, ℕ, List, length, drop, true, None, Some, IfOk, IfErr, OnErr, MatchResult, MatchOption, Option};
ghost use Rattle.std.specs.Option.{ForSome};

use crate::stop::Stop;
use crate::{Handshake, Keys, Unread, Unwritten, Want};

impl<K: Keys> Handshake<K> {
    ghost use Rattle.noise_handshake.specs.Party.{Refuses};
    ghost use Rattle.noise_handshake.specs.declared.faults.Cause.TheVariants.{Agreement};
    ghost use Rattle.noise_handshake.specs.declared.faults.ReadFault.TheVariants.{Refused};
    ghost use Rattle.noise_handshake.specs.declared.faults.Want.{Want};
    ghost use Rattle.noise_handshake.specs.declared.faults.Unread.{Unread};
    ghost use Rattle.noise_handshake.specs.declared.faults.Unwritten.{Unwritten};
    ghost use Rattle.noise_handshake.specs.Asking.{IsWantedToRead, IsWantedToWrite, WantsPskToRead, WantsPskToWrite};
    ghost use Rattle.noise_handshake.specs.Calls.{IsUnread, ReadsOrAsks, WritesOrAsks, speaks_now};
    ghost use Rattle.noise_handshake.specs.HandshakeValue.{read_fault, write_fault, message_len_of, HasPsks};
    ghost use Rattle.noise_handshake.specs.Late.{LacksPskAt, party_with};
    ghost use Rattle.noise_handshake.specs.Writing.{LacksDhResult};

    // What reading a due message lacks at or before token k, its first psk token without a psk; or where it is refused
    // before.
    fn read_to_psk(&self, k: usize, message: &[u8]) -> Result<Want, Stop>
        requires due { read_fault self.now ≡ None }
        requires within { self.now.passed ≤ length self.now.pattern.messages }
        requires psk { LacksPskAt self.now k }
        ensures wants { (later : List (List ℕ)) → let why = IsUnread K.pairs later self.now message.now in
            MatchResult result (λ want. why (Unread.Wants want))
            (λ s. why (Unread.Declined (Refused s.token s.cause))) }
        ensures asked { (later : List (List ℕ)) (remote : Option (List ℕ))
            → WantsPskToRead (party_with K.pairs later self.now) (length self.now.psks) message.now remote
            → result ≡ Ok (Want.Psk remote) }
    {
        match self.read_before(k, message) {
            Ok(remote) => Ok(Want::Psk { remote }),
            Err(stop) => match stop.want {
                Some(want) => {
                    let (own, key) = want;
                    Ok(Want::DhResult { own, key })
                }
                None => Err(stop),
            },
        }
    }

    /// Reads a message in place, and returns from where to where its payload then is in it, as `read_within` does; but
    /// where reading lacks a DH result or a psk, this returns which, and changes nothing.
    ///
    /// The message has at most 65535 bytes. At an `Err` its bytes are unchanged. `Declined` with `Refused` ends the
    /// handshake, and everything else leaves it as it was: hand in what is wanted, and read the message again. So a
    /// caller whose private keys lie elsewhere has the DH result made, puts it to its keys, and goes on.
    pub fn read_or_ask(&mut self, message: &mut [u8]) -> Result<(usize, usize), Unread>
        requires fits { length message.old ≤ 65535 }
        ensures reads { (later : List (List ℕ))
            → ReadsOrAsks K.pairs later self.old message.old result self.new message.new }
        ensures asked { (later : List (List ℕ)) (remote : Option (List ℕ))
            → WantsPskToRead (party_with K.pairs later self.old) (length self.old.psks) message.old remote
            → result ≡ Err (Unread.Wants (Want.Psk remote)) }
    {
        if let Some(fault) = self.read_fault() {
            return Err(Unread::Declined(fault));
        }
        match self.lacks_psk() {
            None => match self.attempt(message) {
                Ok(place) => Ok(place),
                Err(stop) => match stop.want {
                    Some(want) => {
                        let (own, key) = want;
                        Err(Unread::Wants(Want::DhResult { own, key }))
                    }
                    None => {
                        self.end();
                        Err(Unread::Declined(stop.fault()))
                    }
                },
            },
            Some(k) => match self.read_to_psk(k as usize, message) {
                Ok(want) => Err(Unread::Wants(want)),
                Err(stop) => {
                    self.end();
                    Err(Unread::Declined(stop.fault()))
                }
            },
        }
    }

    /// The DH result or psk that reading this message lacks now, as `read_or_ask` returns it. None where it lacks
    /// neither, and where no message is due. Nothing changes.
    pub fn wants_to_read(&self, message: &[u8]) -> Option<Want>
        ensures wants { (later : List (List ℕ)) → let v = party_with K.pairs later self.now in
            MatchOption result ((token : ℕ) → Refuses v message.now token Agreement → ⊥)
            (IsWantedToRead v (length self.now.psks) message.now) }
        ensures asked { (later : List (List ℕ)) (remote : Option (List ℕ))
            → WantsPskToRead (party_with K.pairs later self.now) (length self.now.psks) message.now remote
            → result ≡ Some (Want.Psk remote) }
    {
        if let Some(_) = self.read_fault() {
            return None;
        }
        match self.lacks_psk() {
            None => match self.read_lacking(message) {
                Some(want) => {
                    let (own, key) = want;
                    Some(Want::DhResult { own, key })
                }
                None => None,
            },
            Some(k) => match self.read_to_psk(k as usize, message) {
                Ok(want) => Some(want),
                Err(_) => None,
            },
        }
    }

    /// The DH result or psk that writing a message lacks now. None where a message is due and lacks neither, and
    /// where none is due. Nothing changes.
    pub fn wants_to_write(&self) -> Option<Want>
        ensures wants { (later : List (List ℕ)) → let v = party_with K.pairs later self.now in
            MatchOption result ((token : ℕ) → LacksDhResult v token → ⊥)
            (IsWantedToWrite v (length self.now.psks)) }
        ensures asked { (later : List (List ℕ))
            → WantsPskToWrite (party_with K.pairs later self.now) (length self.now.psks)
            → result ≡ Some (Want.Psk self.now.remote.s) }
        ensures psks { speaks_now self.now ≡ true → result ≡ None → HasPsks self.now }
    {
        if !self.speaks() {
            return None;
        }
        match self.lacks_psk() {
            None => match self.write_lacking() {
                Some(want) => {
                    let (own, key) = want;
                    Some(Want::DhResult { own, key })
                }
                None => None,
            },
            Some(k) => match self.wants_before(k as usize) {
                Some(want) => {
                    let (own, key) = want;
                    Some(Want::DhResult { own, key })
                }
                None => Some(Want::Psk {
                    remote: self.remote_static(),
                }),
            },
        }
    }

    /// Writes a message to the front of `out`, and returns its length in bytes, as `write` does; but where writing
    /// lacks a DH result or a psk, this returns which, and changes nothing.
    ///
    /// Where `message_len` gives a length, `out` holds it. At an `Err` nothing changes: hand in what is wanted, and
    /// write again.
    pub fn write_or_ask(&mut self, payload: &[u8], out: &mut [u8]) -> Result<usize, Unwritten>
        requires room { ForSome (message_len_of self.old (length payload.now)) (λ n. n ≤ length out.old) }
        ensures writes { (later : List (List ℕ))
            → WritesOrAsks K.pairs later self.old payload.now out.old result self.new out.new }
        ensures asked { write_fault self.old (length payload.now) ≡ None → (later : List (List ℕ))
            → WantsPskToWrite (party_with K.pairs later self.old) (length self.old.psks)
            → result ≡ Err (Unwritten.Wants (Want.Psk self.old.remote.s)) }
    {
        if let Some(fault) = self.write_fault(payload.len()) {
            return Err(Unwritten::Withheld(fault));
        }
        if let Some(want) = self.wants_to_write() {
            return Err(Unwritten::Wants(want));
        }
        match self.write_due(payload, out) {
            Ok(len) => Ok(len),
            Err(fault) => Err(Unwritten::Withheld(fault)),
        }
    }
}
