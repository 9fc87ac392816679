//! The sending half of datagrams (Noise, 11.4).

ghost use Rattle.std.specs.Prelude.{◌≡◌, ◌≤◌, ◌+◌, ◌++◌, length, take, drop, None};
ghost use Rattle.std.specs.Int.{w64, to_be_bytes};
ghost use Rattle.noise_session.specs.Datagrams.{unsealed};
ghost use Rattle.noise_session.specs.DatagramCalls.{DatagramSenderSeals};
ghost use Rattle.noise_session.specs.Parts.{datagram_sender_in};

use crate::limits::NONCE_LEN;
use crate::{DatagramSenderParts, HalfParts, SendFault, Sender};
use std::marker::Model;

/// The sending half of datagrams: it seals this party's payloads, as the whole `Datagrams` does.
///
/// `Datagrams::split` makes it, for a thread of its own. That of the responder of a one-way session returns OneWay for
/// every payload. No call takes memory, and a fault changes nothing.
#[derive(Drop)]
pub struct DatagramSender {
    sender: Sender,
}

impl Model for DatagramSender {
    ghost use Rattle.std.specs.Prelude.{◌≡◌};
    ghost use Rattle.noise_session.specs.inner.Halves.{datagram_sender_value};
    ghost use Rattle.noise_session.specs.Datagrams.{DatagramSenderValue};

    ghost Value = { DatagramSenderValue };

    ghost view = { λ d. datagram_sender_value d.sender };

    // Its key is never rekeyed.
    ghost invariant = { λ d. d.sender.interval ≡ 0 };
}

impl DatagramSender {
    ghost use Rattle.noise_session.specs.inner.Halves.{datagram_sender_value};

    // The half that seals as this one does, and never rekeys.
    pub(crate) fn new(mut sender: Sender) -> DatagramSender
        ensures { result ≡ datagram_sender_value sender }
    {
        sender.half.interval = 0;
        DatagramSender { sender }
    }

    /// What it holds, for a caller that keeps it itself until the next datagram.
    pub fn into_parts(self) -> DatagramSenderParts
        ensures { datagram_sender_in result ≡ self }
    {
        let half = self.sender.into_parts();
        let key = half.key;
        DatagramSenderParts {
            role: half.role,
            one_way: half.one_way,
            key,
            nonce: half.nonce,
        }
    }

    /// The sending half that holds these parts. Any parts make one: a key and a nonce don't show of which half they
    /// are.
    ///
    /// A half that was taken apart is put together once: two of them would seal at the same nonce.
    pub fn from_parts(parts: DatagramSenderParts) -> DatagramSender
        ensures { result ≡ datagram_sender_in parts }
    {
        let key = parts.key;
        DatagramSender {
            sender: Sender::from_parts(HalfParts {
                role: parts.role,
                one_way: parts.one_way,
                interval: 0,
                key,
                nonce: parts.nonce,
            }),
        }
    }

    /// The nonce of the next datagram that is sealed.
    pub fn nonce(&self) -> u64
        ensures { result ≡ self.now.nonce }
    {
        self.sender.nonce()
    }

    /// Seals a payload into the first bytes of `out`, 24 more than it has, and returns how many.
    ///
    /// `out` holds them where the payload has at most 65519 bytes. The faults are OneWay, TooLong and Exhausted, looked
    /// for in this order.
    pub fn seal(&mut self, payload: &[u8], out: &mut [u8]) -> Result<usize, SendFault>
        requires room { unsealed self.old.role self.old.one_way self.old.nonce (length payload.now) ≡ None
            → length payload.now + 24 ≤ length out.old }
        ensures seals { DatagramSenderSeals self.old self.new (length payload.now) payload.now out.old out.new result }
    {
        let nonce = self.sender.nonce();
        if let Some(fault) = self.sender.refusal(payload.len()) {
            return Err(fault);
        }
        match self.sender.seal(payload, &mut out[NONCE_LEN..]) {
            Ok(len) => Ok(put_nonce(out, nonce, len)),
            Err(_) => unreachable!(),
        }
    }

    /// Seals the payload that is in `payload_len` bytes of `buffer`, from the ninth byte on, in place: the datagram is
    /// in the first bytes, 24 more, and it returns how many.
    ///
    /// `buffer` holds them where the payload has at most 65519 bytes. The faults are those of `seal`.
    pub fn seal_in_place(
        &mut self,
        buffer: &mut [u8],
        payload_len: usize,
    ) -> Result<usize, SendFault>
        requires room { unsealed self.old.role self.old.one_way self.old.nonce payload_len ≡ None
            → payload_len + 24 ≤ length buffer.old }
        ensures seals { DatagramSenderSeals self.old self.new payload_len (take payload_len (drop 8 buffer.old))
            buffer.old buffer.new result }
    {
        let nonce = self.sender.nonce();
        if let Some(fault) = self.sender.refusal(payload_len) {
            return Err(fault);
        }
        match self
            .sender
            .seal_in_place(&mut buffer[NONCE_LEN..], payload_len)
        {
            Ok(len) => Ok(put_nonce(buffer, nonce, len)),
            Err(_) => unreachable!(),
        }
    }
}

// Makes a datagram of the message of `len` bytes that stands in `out` behind the first 8 bytes: puts its nonce there,
// and returns how many bytes the datagram has.
fn put_nonce(out: &mut [u8], nonce: u64, len: usize) -> usize
    requires short { len ≤ 65535 }
    requires room { 8 + len ≤ length out.old }
    ensures len { (result ≡ 8 + len) × (result ≤ length out.new) }
    ensures front { take result out.new ≡ to_be_bytes w64 nonce ++ take len (drop 8 out.old) }
    ensures beyond { drop 8 out.new ≡ drop 8 out.old }
{
    out[..NONCE_LEN].copy_from_slice(&nonce.to_be_bytes());
    NONCE_LEN + len
}
