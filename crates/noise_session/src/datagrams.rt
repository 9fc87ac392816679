//! Datagrams of one party (Noise, 11.4).

ghost use Rattle.std.specs.Prelude.{◌≡◌, ◌≤◌, ◌+◌, length, take, drop, None, IfOk};
ghost use Rattle.noise_handshake.specs.Party.{Party};
ghost use Rattle.noise_handshake.specs.Opening.{IsOpenedOf};
ghost use Rattle.noise_session.specs.TransportValue.{TransportState, TransportMatches};
ghost use Rattle.noise_session.specs.EndDatagrams.{datagrams_after};
ghost use Rattle.noise_session.specs.Datagrams.{DatagramState, DatagramsMatch, DatagramSenderMatches, DatagramReceiverMatches, datagrams_of, unsealed, datagram_sending_half, datagram_receiving_half};
ghost use Rattle.noise_session.specs.DatagramCalls.{DatagramsOpen, DatagramsSeal, OpensAfterNonce};

use crate::limits::NONCE_LEN;
use crate::window::Ring;
use crate::{DatagramFault, DatagramReceiver, DatagramSender, SendFault, Transport, Window};
use noise_handshake::Opened;
use std::marker::Model;

/// The transport of one party over a network that loses, reorders and repeats: it seals this party's payloads as
/// datagrams and opens those of the other, each nonce at most once.
///
/// A datagram is its nonce in 8 bytes, the highest first, and the transport message of that nonce, together at most
/// 65543 bytes. The keys are never rekeyed. No call takes memory, and a fault changes nothing.
#[derive(Drop)]
pub struct Datagrams {
    sender: DatagramSender,
    receiver: DatagramReceiver,
}

impl Model for Datagrams {
    ghost use Rattle.std.specs.Prelude.{◌≡◌};
    ghost use Rattle.noise_session.specs.Datagrams.{DatagramsValue};

    ghost Value = { DatagramsValue };

    ghost view = { λ d. record {
      role = d.sender.role;
      one_way = d.sender.one_way;
      send_key = d.sender.key;
      send_nonce = d.sender.nonce;
      receive_key = d.receiver.key;
      recent = d.receiver.recent;
    } };

    // Both halves are of one party.
    ghost invariant = { λ d. record {
      role : d.receiver.role ≡ d.sender.role;
      one_way : d.receiver.one_way ≡ d.sender.one_way;
    } };
}

impl Datagrams {
    /// The datagrams after a handshake, with a window of 64 nonces: none is sealed or opened yet.
    pub fn new(opened: Opened) -> Datagrams
        ensures { (v : Party) → IsOpenedOf opened v → DatagramsMatch result (datagrams_of v Window.W64) }
    {
        Datagrams::with_window(opened, Window::W64)
    }

    /// The datagrams after a handshake, with this window: none is sealed or opened yet.
    pub fn with_window(opened: Opened, window: Window) -> Datagrams
        ensures { (v : Party) → IsOpenedOf opened v → DatagramsMatch result (datagrams_of v window) }
    {
        Datagrams::after(Transport::new(opened, 0), window)
    }

    // The datagrams of a transport that has sealed and opened nothing.
    pub(crate) fn after(transport: Transport, window: Window) -> Datagrams
        requires fresh { (transport.send_nonce ≡ 0) × (transport.receive_nonce ≡ 0) }
        ensures matches { (v : TransportState) → TransportMatches transport v
            → DatagramsMatch result (datagrams_after v window) }
    {
        let (sender, receiver) = transport.split();
        Datagrams {
            sender: DatagramSender::new(sender),
            receiver: DatagramReceiver::new(receiver, Ring::new(window)),
        }
    }

    /// The half that seals and the half that opens, as for two threads. Each does what these datagrams do in its
    /// direction.
    #[tactic(auto, using(crate::proofs::DatagramSplitting::same_party))]
    pub fn split(self) -> (DatagramSender, DatagramReceiver)
        ensures sender { result.0 ≡ datagram_sending_half self }
        ensures receiver { result.1 ≡ datagram_receiving_half self }
        ensures matches { (v : DatagramState) → DatagramsMatch self v → DatagramSenderMatches result.0 v
            × DatagramReceiverMatches result.1 v }
    {
        (self.sender, self.receiver)
    }

    /// The nonce of the next datagram that is sealed.
    pub fn send_nonce(&self) -> u64
        ensures { result ≡ self.now.send_nonce }
    {
        self.sender.nonce()
    }

    /// Seals a payload into the first bytes of `out`, 24 more than it has, and returns how many.
    ///
    /// `out` holds them where the payload has at most 65519 bytes. The faults are OneWay, TooLong and Exhausted, looked
    /// for in this order.
    #[tactic(auto, using(crate::proofs::DatagramSplitting::datagrams_seal))]
    pub fn seal(&mut self, payload: &[u8], out: &mut [u8]) -> Result<usize, SendFault>
        requires room { unsealed self.old.role self.old.one_way self.old.send_nonce (length payload.now) ≡ None
            → length payload.now + 24 ≤ length out.old }
        ensures seals { DatagramsSeal self.old self.new (length payload.now) payload.now out.old out.new result }
    {
        self.sender.seal(payload, out)
    }

    /// Seals the payload that is in `payload_len` bytes of `buffer`, from the ninth byte on, in place: the datagram is
    /// in the first bytes, 24 more, and it returns how many.
    ///
    /// `buffer` holds them where the payload has at most 65519 bytes. The faults are those of `seal`.
    #[tactic(auto, using(crate::proofs::DatagramSplitting::datagrams_seal))]
    pub fn seal_in_place(
        &mut self,
        buffer: &mut [u8],
        payload_len: usize,
    ) -> Result<usize, SendFault>
        requires room { unsealed self.old.role self.old.one_way self.old.send_nonce payload_len ≡ None
            → payload_len + 24 ≤ length buffer.old }
        ensures seals { DatagramsSeal self.old self.new payload_len (take payload_len (drop 8 buffer.old))
            buffer.old buffer.new result }
    {
        self.sender.seal_in_place(buffer, payload_len)
    }

    /// Opens a datagram in place, and returns how many of its bytes from the ninth on are then the payload. The 8 of
    /// the nonce in front of them and the 16 of the tag after them stay as they are.
    ///
    /// At an `Err` its bytes are unchanged.
    #[tactic(auto, using(crate::proofs::DatagramSplitting::datagrams_open))]
    pub fn open_within(&mut self, datagram: &mut [u8]) -> Result<usize, DatagramFault>
        ensures opens { DatagramsOpen self.old self.new datagram.old result (λ n. take n (drop 8 datagram.new)) }
        ensures place { OpensAfterNonce datagram.old datagram.new result }
    {
        self.receiver.open_within(datagram)
    }

    /// Opens a datagram in place, and gives its payload, a part of the datagram's own bytes.
    ///
    /// At an `Err` its bytes are unchanged.
    pub fn open<'a>(&mut self, datagram: &'a mut [u8]) -> Result<&'a mut [u8], DatagramFault>
        ensures opens { DatagramsOpen self.old self.new datagram.old result (λ payload. payload.now) }
        ensures part { IfOk result (λ payload.
            (payload.ref_ptr ≡ (datagram.entry.ref_ptr.0, datagram.entry.ref_ptr.1 + 8))
            × (length payload.now + 24 ≡ length datagram.old)) }
    {
        let len = self.open_within(datagram)?;
        Ok(&mut datagram[NONCE_LEN..NONCE_LEN + len])
    }
}
