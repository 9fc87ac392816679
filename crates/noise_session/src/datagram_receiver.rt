//! The receiving half of datagrams (Noise, 11.4).

ghost use Rattle.std.specs.Prelude.{◌≡◌, ◌≢◌, ◌≤◌, ◌<◌, ◌+◌, length, take, drop, is_some, true, IfSome, IfOk, IfNone};
ghost use Rattle.noise_events.specs.Windows.{width_of};
ghost use Rattle.noise_session.specs.Transport.{last_nonce};
ghost use Rattle.noise_session.specs.Windows.{is_ring};
ghost use Rattle.noise_session.specs.Datagrams.{nonce_named, datagram_receiver_fault};
ghost use Rattle.noise_session.specs.DatagramCalls.{DatagramReceiverOpens, OpensAfterNonce};
ghost use Rattle.noise_session.specs.Parts.{datagram_receiver_in};

use crate::limits::{DATAGRAM_MAX, DATAGRAM_OVERHEAD, LAST_NONCE, NONCE_LEN};
use crate::window::Ring;
use crate::{DatagramFault, DatagramReceiverParts, HalfParts, Receiver};
use std::marker::Model;

/// The receiving half of datagrams: it opens those of the other party, each nonce at most once, as the whole
/// `Datagrams` does.
///
/// `Datagrams::split` makes it, for a thread of its own. That of the initiator of a one-way session returns OneWay for
/// every datagram. No call takes memory, and a fault changes nothing.
#[derive(Drop)]
pub struct DatagramReceiver {
    receiver: Receiver, // its nonce is set for each datagram
    recent: Ring, // of the nonces that were opened
}

impl Model for DatagramReceiver {
    ghost use Rattle.std.specs.Prelude.{◌≡◌, true};
    ghost use Rattle.noise_session.specs.inner.Halves.{datagram_receiver_value};
    ghost use Rattle.noise_session.specs.Windows.{is_ring};
    ghost use Rattle.noise_session.specs.Datagrams.{DatagramReceiverValue};

    ghost Value = { DatagramReceiverValue };

    ghost view = { λ d. datagram_receiver_value d.receiver d.recent };

    // Its key is never rekeyed, and some accepted nonces have the ring.
    ghost invariant = { λ d. record {
      interval : d.receiver.interval ≡ 0;
      ring : is_ring d.recent ≡ true;
    } };
}

impl DatagramReceiver {
    ghost use Rattle.noise_session.specs.inner.Halves.{datagram_receiver_value};

    // The half that opens by the key of this one, and never rekeys.
    pub(crate) fn new(mut receiver: Receiver, recent: Ring) -> DatagramReceiver
        requires ring { is_ring recent ≡ true }
        ensures value { result ≡ datagram_receiver_value receiver recent }
    {
        receiver.half.interval = 0;
        DatagramReceiver { receiver, recent }
    }

    /// What it holds, for a caller that keeps it itself until the next datagram.
    pub fn into_parts(self) -> DatagramReceiverParts
        ensures value { datagram_receiver_in result ≡ self }
        ensures whole { is_ring (datagram_receiver_in result).recent ≡ true }
    {
        let half = self.receiver.into_parts();
        let key = half.key;
        let (window, greatest, words) = self.recent.into_parts();
        DatagramReceiverParts {
            role: half.role,
            one_way: half.one_way,
            key,
            window,
            greatest,
            words,
        }
    }

    /// The receiving half that holds these parts: none where no opened nonces leave them, as parts with a bit above the
    /// greatest nonce.
    ///
    /// Every half that was taken apart comes back. A key doesn't show of which half it is.
    pub fn from_parts(parts: DatagramReceiverParts) -> Option<DatagramReceiver>
        ensures whole { is_some result ≡ is_ring (datagram_receiver_in parts).recent }
        ensures value { IfSome result (λ receiver. receiver ≡ datagram_receiver_in parts) }
    {
        let words = parts.words;
        let recent = Ring::from_parts(parts.window, parts.greatest, words)?;
        let key = parts.key;
        let receiver = Receiver::from_parts(HalfParts {
            role: parts.role,
            one_way: parts.one_way,
            interval: 0,
            key,
            nonce: 0,
        });
        Some(DatagramReceiver { receiver, recent })
    }

    // Why such bytes aren't opened, whatever message they have.
    fn refusal(&self, datagram: &[u8]) -> Option<DatagramFault>
        ensures value { result ≡ datagram_receiver_fault self.now datagram.now }
        ensures bound { IfNone result ((24 ≤ length datagram.now) × (length datagram.now ≤ 65543)
            × (nonce_named datagram.now ≢ last_nonce)) }
        ensures window { IfNone result
            (self.now.recent.greatest < nonce_named datagram.now + width_of self.now.recent.window) }
    {
        if self.receiver.hears_nothing() {
            return Some(DatagramFault::OneWay);
        }
        if datagram.len() < DATAGRAM_OVERHEAD {
            return Some(DatagramFault::Short);
        }
        if datagram.len() > DATAGRAM_MAX {
            return Some(DatagramFault::TooLong);
        }
        let nonce = nonce_of(datagram);
        if nonce == LAST_NONCE {
            return Some(DatagramFault::Reserved);
        }
        self.recent.refusal(nonce)
    }

    /// Opens a datagram in place, and returns how many of its bytes from the ninth on are then the payload. The 8 of
    /// the nonce in front of them and the 16 of the tag after them stay as they are.
    ///
    /// At an `Err` its bytes are unchanged.
    pub fn open_within(&mut self, datagram: &mut [u8]) -> Result<usize, DatagramFault>
        ensures opens { DatagramReceiverOpens self.old self.new datagram.old result
            (λ n. take n (drop 8 datagram.new)) }
        ensures place { OpensAfterNonce datagram.old datagram.new result }
    {
        if let Some(fault) = self.refusal(datagram) {
            return Err(fault);
        }
        let nonce = nonce_of(datagram);
        self.receiver.set_nonce(nonce);
        match self.receiver.open_within(&mut datagram[NONCE_LEN..]) {
            Ok(len) => {
                self.recent.insert(nonce);
                Ok(len)
            }
            Err(_) => Err(DatagramFault::Tag),
        }
    }

    /// Opens a datagram in place, and gives its payload, a part of the datagram's own bytes.
    ///
    /// At an `Err` its bytes are unchanged.
    pub fn open<'a>(&mut self, datagram: &'a mut [u8]) -> Result<&'a mut [u8], DatagramFault>
        ensures opens { DatagramReceiverOpens self.old self.new datagram.old result (λ payload. payload.now) }
        ensures part { IfOk result (λ payload.
            (payload.ref_ptr ≡ (datagram.entry.ref_ptr.0, datagram.entry.ref_ptr.1 + 8))
            × (length payload.now + 24 ≡ length datagram.old)) }
    {
        let len = self.open_within(datagram)?;
        Ok(&mut datagram[NONCE_LEN..NONCE_LEN + len])
    }
}

// The nonce that a datagram names.
fn nonce_of(datagram: &[u8]) -> u64
    requires long { 8 ≤ length datagram.now }
    ensures value { result ≡ nonce_named datagram.now }
{
    let mut bytes = [0; NONCE_LEN];
    bytes.copy_from_slice(&datagram[..NONCE_LEN]);
    u64::from_be_bytes(bytes)
}
