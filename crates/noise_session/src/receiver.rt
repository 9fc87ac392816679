//! The receiving half of a transport (Noise, 5.2 and 11.3).

ghost use Rattle.std.specs.Prelude.{◌≡◌, ◌≤◌, ◌+◌, length, take, IfOk};
ghost use Rattle.noise_session.specs.Halves.{hears_nothing};
ghost use Rattle.noise_session.specs.HalfCalls.{OpensInPlace, ReceiverOpens};
ghost use Rattle.noise_session.specs.Parts.{half_in};
ghost use Rattle.noise_session.specs.inner.Halves.{half_value};

use crate::half::Half;
use crate::rekeying::rekey_if_due;
use crate::{HalfParts, OpenFault};
use noise_names::Role;
use noise_state::CipherFault;
use std::marker::Model;

/// The receiving half of a transport: it opens the messages of the other party, as the whole transport does.
///
/// `Transport::split` makes it, for a thread of its own. That of the initiator of a one-way session returns OneWay for
/// every message. No call takes memory, and a fault changes nothing.
#[derive(Drop)]
pub struct Receiver {
    pub(crate) half: Half,
}

impl Model for Receiver {
    ghost use Rattle.noise_session.specs.Halves.{HalfValue};
    ghost use Rattle.noise_session.specs.inner.Halves.{half_value};

    ghost Value = { HalfValue };

    ghost view = { λ r. half_value r.half };
}

impl Receiver {
    pub(crate) fn new(half: Half) -> Receiver
        ensures { result ≡ half_value half }
    {
        Receiver { half }
    }

    /// What it holds, for a caller that keeps it itself until the next message.
    pub fn into_parts(self) -> HalfParts
        ensures { half_in result ≡ self }
    {
        self.half.into_parts()
    }

    /// The receiving half that holds these parts. Any parts make one: a key and a nonce don't show of which half they
    /// are.
    pub fn from_parts(parts: HalfParts) -> Receiver
        ensures { result ≡ half_in parts }
    {
        Receiver::new(Half::from_parts(parts))
    }

    /// The role of this party.
    pub fn role(&self) -> Role
        ensures { result ≡ self.now.role }
    {
        self.half.role
    }

    /// Whether only the initiator writes (Noise, 7.4).
    pub fn one_way(&self) -> bool
        ensures { result ≡ self.now.one_way }
    {
        self.half.one_way
    }

    /// The nonce of the next message that is opened.
    pub fn nonce(&self) -> u64
        ensures { result ≡ self.now.nonce }
    {
        self.half.cipher.nonce()
    }

    /// Whether nothing comes in its direction: that of the initiator of a one-way session (Noise, 7.4).
    pub fn hears_nothing(&self) -> bool
        ensures { result ≡ hears_nothing self.now }
    {
        self.half.one_way && self.half.role == Role::Initiator
    }

    // Sets the nonce of the next message.
    pub(crate) fn set_nonce(&mut self, nonce: u64)
        ensures { self.new ≡ record self.old { nonce = nonce } }
    {
        self.half.cipher.set_nonce(nonce);
    }

    /// Opens a message in place, and returns how many first bytes of it are then the payload. The 16 of the tag after
    /// them stay as they are.
    ///
    /// The message has at most 65535 bytes. At an `Err` its bytes are unchanged.
    pub fn open_within(&mut self, message: &mut [u8]) -> Result<usize, OpenFault>
        requires short { length message.old ≤ 65535 }
        ensures opens { ReceiverOpens self.old self.new message.old result (λ n. take n message.new) }
        ensures place { OpensInPlace message.old message.new result }
    {
        if self.hears_nothing() {
            return Err(OpenFault::OneWay);
        }
        match self.half.cipher.decrypt(&[], message) {
            Ok(len) => {
                rekey_if_due(&mut self.half.cipher, self.half.interval);
                Ok(len)
            }
            Err(CipherFault::Exhausted) => Err(OpenFault::Exhausted),
            Err(CipherFault::Short) => Err(OpenFault::Short),
            Err(CipherFault::Tag) => Err(OpenFault::Tag),
            Err(CipherFault::TooLong) => unreachable!(),
        }
    }

    /// Opens a message in place, and gives its payload, a part of the message's own bytes.
    ///
    /// The message has at most 65535 bytes. At an `Err` its bytes are unchanged.
    pub fn open<'a>(&mut self, message: &'a mut [u8]) -> Result<&'a mut [u8], OpenFault>
        requires short { length message.old ≤ 65535 }
        ensures opens { ReceiverOpens self.old self.new message.old result (λ payload. payload.now) }
        ensures part { IfOk result
            (λ payload. (payload.ref_ptr ≡ message.entry.ref_ptr) × (length payload.now + 16 ≡ length message.old)) }
    {
        let len = self.open_within(message)?;
        Ok(&mut message[..len])
    }
}
