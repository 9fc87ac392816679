//! The sending half of a transport (Noise, 5.2 and 11.3).

ghost use Rattle.std.specs.Prelude.{◌≡◌, ◌≤◌, ◌<◌, ◌+◌, length, take, None, Ok};
ghost use Rattle.noise_session.specs.Halves.{sender_fault, writes_nothing};
ghost use Rattle.noise_session.specs.HalfCalls.{SenderSeals, SenderSealsFrame};
ghost use Rattle.noise_session.specs.Parts.{half_in};
ghost use Rattle.noise_session.specs.Transport.{last_nonce};
ghost use Rattle.noise_session.specs.inner.Halves.{half_value};

use crate::framing::frame_message;
use crate::half::Half;
use crate::limits::{LAST_NONCE, PAYLOAD_MAX};
use crate::rekeying::rekey_if_due;
use crate::{HalfParts, SendFault};
use noise_names::Role;
use std::marker::Model;

/// The sending half of a transport: it seals this party's payloads, as the whole transport does.
///
/// `Transport::split` makes it, for a thread of its own. That of the responder of a one-way session returns OneWay for
/// every payload. No call takes memory, and a fault changes nothing.
#[derive(Drop)]
pub struct Sender {
    pub(crate) half: Half,
}

impl Model for Sender {
    ghost use Rattle.noise_session.specs.Halves.{HalfValue};
    ghost use Rattle.noise_session.specs.inner.Halves.{half_value};

    ghost Value = { HalfValue };

    ghost view = { λ s. half_value s.half };
}

impl Sender {
    pub(crate) fn new(half: Half) -> Sender
        ensures { result ≡ half_value half }
    {
        Sender { half }
    }

    /// What it holds, for a caller that keeps it itself until the next message.
    pub fn into_parts(self) -> HalfParts
        ensures { half_in result ≡ self }
    {
        self.half.into_parts()
    }

    /// The sending half that holds these parts. Any parts make one: a key and a nonce don't show of which half they
    /// are.
    ///
    /// A half that was taken apart is put together once: two of them would seal at the same nonce.
    pub fn from_parts(parts: HalfParts) -> Sender
        ensures { result ≡ half_in parts }
    {
        Sender::new(Half::from_parts(parts))
    }

    /// The role of this party.
    pub fn role(&self) -> Role
        ensures { result ≡ self.now.role }
    {
        self.half.role
    }

    /// Whether only the initiator writes (Noise, 7.4).
    pub fn one_way(&self) -> bool
        ensures { result ≡ self.now.one_way }
    {
        self.half.one_way
    }

    /// The nonce of the next message that is sealed.
    pub fn nonce(&self) -> u64
        ensures { result ≡ self.now.nonce }
    {
        self.half.cipher.nonce()
    }

    /// Whether nothing is written in its direction: the responder of a one-way session writes nothing (Noise, 7.4).
    pub fn writes_nothing(&self) -> bool
        ensures { result ≡ writes_nothing self.now }
    {
        self.half.one_way && self.half.role == Role::Responder
    }

    // Sets the nonce of the next message.
    pub(crate) fn set_nonce(&mut self, nonce: u64)
        ensures { self.new ≡ record self.old { nonce = nonce } }
    {
        self.half.cipher.set_nonce(nonce);
    }

    // Why a payload of this length isn't sealed now.
    pub(crate) fn refusal(&self, payload_len: usize) -> Option<SendFault>
        ensures fault { result ≡ sender_fault self.now payload_len }
        ensures nonce { result ≡ None → self.now.nonce < last_nonce }
    {
        if self.writes_nothing() {
            return Some(SendFault::OneWay);
        }
        if payload_len > PAYLOAD_MAX {
            return Some(SendFault::TooLong);
        }
        if self.half.cipher.nonce() == LAST_NONCE {
            return Some(SendFault::Exhausted);
        }
        None
    }

    /// Seals a payload into the first bytes of `out`, 16 more than it has, and returns how many.
    ///
    /// `out` holds them where the payload has at most 65519 bytes. The faults are OneWay, TooLong and Exhausted, looked
    /// for in this order.
    pub fn seal(&mut self, payload: &[u8], out: &mut [u8]) -> Result<usize, SendFault>
        requires room { sender_fault self.old (length payload.now) ≡ None → length payload.now + 16 ≤ length out.old }
        ensures seals { SenderSeals self.old self.new (length payload.now) payload.now out.old out.new result }
    {
        if let Some(fault) = self.refusal(payload.len()) {
            return Err(fault);
        }
        out[..payload.len()].copy_from_slice(payload);
        Ok(self.seal_due(out, payload.len()))
    }

    /// Seals the payload in the first `payload_len` bytes of `buffer` in place: the message is in the first bytes, 16
    /// more, and it returns how many.
    ///
    /// `buffer` holds them where the payload has at most 65519 bytes. The faults are those of `seal`.
    pub fn seal_in_place(
        &mut self,
        buffer: &mut [u8],
        payload_len: usize,
    ) -> Result<usize, SendFault>
        requires room { sender_fault self.old payload_len ≡ None → payload_len + 16 ≤ length buffer.old }
        ensures seals { SenderSeals self.old self.new payload_len (take payload_len buffer.old) buffer.old buffer.new result }
    {
        if let Some(fault) = self.refusal(payload_len) {
            return Err(fault);
        }
        Ok(self.seal_due(buffer, payload_len))
    }

    /// Seals a payload as a frame into the first bytes of `out`, 18 more than it has: the message after its length in 2
    /// big-endian bytes (Noise, 3 and 13). Returns how many.
    ///
    /// `out` holds them where the payload has at most 65519 bytes. The faults are those of `seal`.
    pub fn seal_frame(&mut self, payload: &[u8], out: &mut [u8]) -> Result<usize, SendFault>
        requires room { sender_fault self.old (length payload.now) ≡ None → length payload.now + 18 ≤ length out.old }
        ensures seals { SenderSealsFrame self.old self.new (length payload.now) payload.now out.old out.new result }
    {
        if let Some(fault) = self.refusal(payload.len()) {
            return Err(fault);
        }
        let message = &mut out[2..];
        message[..payload.len()].copy_from_slice(payload);
        let len = self.seal_due(message, payload.len());
        Ok(frame_message(out, len))
    }

    // Seals the payload at the front of `buffer` in place, for which there is no fault.
    fn seal_due(&mut self, buffer: &mut [u8], payload_len: usize) -> usize
        requires due { sender_fault self.old payload_len ≡ None }
        requires room { payload_len + 16 ≤ length buffer.old }
        ensures seals { SenderSeals self.old self.new payload_len (take payload_len buffer.old) buffer.old buffer.new (Ok result) }
    {
        match self.half.cipher.encrypt(&[], buffer, payload_len) {
            Ok(len) => {
                rekey_if_due(&mut self.half.cipher, self.half.interval);
                len
            }
            Err(_) => unreachable!(),
        }
    }
}
