//! Transport messages of one party (Noise, 5.2 and 11.3).

ghost use Rattle.std.specs.Prelude.{◌≡◌, ◌≤◌, ◌+◌, length, take, None, IfOk};
ghost use Rattle.noise_handshake.specs.Party.{Party};
ghost use Rattle.noise_handshake.specs.Opening.{IsOpenedOf};
ghost use Rattle.noise_session.specs.Halves.{hears_nothing};
ghost use Rattle.noise_session.specs.HalfCalls.{OpensInPlace, TransportOpens, TransportSeals};
ghost use Rattle.noise_session.specs.TransportValue.{TransportState, TransportMatches, SenderMatches, ReceiverMatches, transport_of, sending_half, receiving_half, seal_fault};

use crate::half::Half;
use crate::{OpenFault, Receiver, SendFault, Sender};
use noise_handshake::Opened;
use noise_names::Role;
use std::marker::Model;

/// The transport of one party: it seals this party's payloads and opens the messages of the other.
///
/// In transport the key of a direction is rekeyed after each `interval` messages; 0 means never. Its nonces go on then.
/// No call takes memory, and a fault changes nothing.
#[derive(Drop)]
pub struct Transport {
    hash: [u8; 32],
    remote_static: Option<[u8; 32]>,
    sender: Sender,
    receiver: Receiver,
}

impl Model for Transport {
    ghost use Rattle.std.specs.Prelude.{◌≡◌};
    ghost use Rattle.noise_session.specs.TransportValue.{TransportValue};

    ghost Value = { TransportValue };

    ghost view = { λ t. record {
      role = t.sender.role;
      one_way = t.sender.one_way;
      hash = t.hash;
      remote_static = t.remote_static;
      interval = t.sender.interval;
      send_key = t.sender.key;
      send_nonce = t.sender.nonce;
      receive_key = t.receiver.key;
      receive_nonce = t.receiver.nonce;
    } };

    // Both halves are of one party.
    ghost invariant = { λ t. record {
      role : t.receiver.role ≡ t.sender.role;
      one_way : t.receiver.one_way ≡ t.sender.one_way;
      interval : t.receiver.interval ≡ t.sender.interval;
    } };
}

impl Transport {
    /// The transport after a handshake, at nonces 0.
    pub fn new(opened: Opened, interval: u64) -> Transport
        ensures parts { (result.role ≡ opened.role) × (result.one_way ≡ opened.one_way) × (result.hash ≡ opened.hash)
            × (result.remote_static ≡ opened.remote_static) × (result.interval ≡ interval) × (result.send_nonce ≡ 0)
            × (result.receive_nonce ≡ 0) }
        ensures matches { (v : Party) → IsOpenedOf opened v → TransportMatches result (transport_of v interval) }
    {
        let role = opened.role();
        let one_way = opened.one_way();
        let hash = opened.hash();
        let remote_static = opened.remote_static();
        let (initiator, responder) = opened.into_ciphers();
        let (sending, receiving) = match role {
            Role::Initiator => (initiator, responder),
            Role::Responder => (responder, initiator),
        };
        Transport {
            hash,
            remote_static,
            sender: Sender::new(Half::new(role, one_way, interval, sending)),
            receiver: Receiver::new(Half::new(role, one_way, interval, receiving)),
        }
    }

    /// The half that seals and the half that opens, as for two threads. Each does what this transport does in its
    /// direction; neither has the hash and the other party's static key.
    #[tactic(auto, using(crate::proofs::Splitting::same_party))]
    pub fn split(self) -> (Sender, Receiver)
        ensures sender { result.0 ≡ sending_half self }
        ensures receiver { result.1 ≡ receiving_half self }
        ensures matches { (v : TransportState) → TransportMatches self v → SenderMatches result.0 v
            × ReceiverMatches result.1 v }
    {
        (self.sender, self.receiver)
    }

    /// The role of this party.
    pub fn role(&self) -> Role
        ensures { result ≡ self.now.role }
    {
        self.sender.role()
    }

    /// Whether only the initiator writes (Noise, 7.4).
    pub fn one_way(&self) -> bool
        ensures { result ≡ self.now.one_way }
    {
        self.sender.one_way()
    }

    /// The hash of the whole handshake (Noise, 11.2), 32 bytes.
    pub fn hash(&self) -> [u8; 32]
        ensures { result ≡ self.now.hash }
    {
        self.hash
    }

    /// The other party's static public key, 32 bytes, where the handshake showed it.
    pub fn remote_static(&self) -> Option<[u8; 32]>
        ensures { result ≡ self.now.remote_static }
    {
        self.remote_static
    }

    /// After how many messages of a direction its key is rekeyed; 0 for never.
    pub fn interval(&self) -> u64
        ensures { result ≡ self.now.interval }
    {
        self.sender.half.interval
    }

    /// The nonce of the next message that is sealed.
    pub fn send_nonce(&self) -> u64
        ensures { result ≡ self.now.send_nonce }
    {
        self.sender.nonce()
    }

    /// The nonce of the next message that is opened.
    pub fn receive_nonce(&self) -> u64
        ensures { result ≡ self.now.receive_nonce }
    {
        self.receiver.nonce()
    }

    // Whether nothing comes in the direction of its receiver.
    pub(crate) fn hears_nothing(&self) -> bool
        ensures { result ≡ hears_nothing (receiving_half self.now) }
    {
        self.receiver.hears_nothing()
    }

    // Why a payload of this length isn't sealed now.
    pub(crate) fn refusal(&self, payload_len: usize) -> Option<SendFault>
        ensures { result ≡ seal_fault self.now payload_len }
    {
        self.sender.refusal(payload_len)
    }

    /// Sets the nonces of the next messages, where no key is ever rekeyed.
    ///
    /// A nonce at which a message was sealed must not be set again for sealing.
    pub fn set_nonces(&mut self, send: u64, receive: u64)
        requires interval { self.old.interval ≡ 0 }
        ensures state { self.new ≡ record self.old { send_nonce = send; receive_nonce = receive } }
        ensures matches { (v : TransportState) → TransportMatches self.old v
            → TransportMatches self.new (record v { sent = send; received = receive }) }
    {
        self.sender.set_nonce(send);
        self.receiver.set_nonce(receive);
    }

    /// Seals a payload into the first bytes of `out`, 16 more than it has, and returns how many.
    ///
    /// `out` holds them where the payload has at most 65519 bytes. The faults are OneWay, TooLong and Exhausted, looked
    /// for in this order.
    #[tactic(auto, using(crate::proofs::Splitting::transport_seals))]
    pub fn seal(&mut self, payload: &[u8], out: &mut [u8]) -> Result<usize, SendFault>
        requires room { seal_fault self.old (length payload.now) ≡ None → length payload.now + 16 ≤ length out.old }
        ensures seals { TransportSeals self.old self.new (length payload.now) payload.now out.old out.new result }
    {
        self.sender.seal(payload, out)
    }

    /// Seals the payload in the first `payload_len` bytes of `buffer` in place: the message is in the first bytes, 16
    /// more, and it returns how many.
    ///
    /// `buffer` holds them where the payload has at most 65519 bytes. The faults are those of `seal`.
    #[tactic(auto, using(crate::proofs::Splitting::transport_seals))]
    pub fn seal_in_place(
        &mut self,
        buffer: &mut [u8],
        payload_len: usize,
    ) -> Result<usize, SendFault>
        requires room { seal_fault self.old payload_len ≡ None → payload_len + 16 ≤ length buffer.old }
        ensures seals { TransportSeals self.old self.new payload_len (take payload_len buffer.old)
            buffer.old buffer.new result }
    {
        self.sender.seal_in_place(buffer, payload_len)
    }

    /// Opens a message in place, and returns how many first bytes of it are then the payload. The 16 of the tag after
    /// them stay as they are.
    ///
    /// The message has at most 65535 bytes. At an `Err` its bytes are unchanged.
    #[tactic(auto, using(crate::proofs::Splitting::transport_opens))]
    pub fn open_within(&mut self, message: &mut [u8]) -> Result<usize, OpenFault>
        requires short { length message.old ≤ 65535 }
        ensures opens { TransportOpens self.old self.new message.old result (λ n. take n message.new) }
        ensures place { OpensInPlace message.old message.new result }
    {
        self.receiver.open_within(message)
    }

    /// Opens a message in place, and gives its payload, a part of the message's own bytes.
    ///
    /// The message has at most 65535 bytes. At an `Err` its bytes are unchanged.
    pub fn open<'a>(&mut self, message: &'a mut [u8]) -> Result<&'a mut [u8], OpenFault>
        requires short { length message.old ≤ 65535 }
        ensures opens { TransportOpens self.old self.new message.old result (λ payload. payload.now) }
        ensures part { IfOk result
            (λ payload. (payload.ref_ptr ≡ message.entry.ref_ptr) × (length payload.now + 16 ≡ length message.old)) }
    {
        let len = self.open_within(message)?;
        Ok(&mut message[..len])
    }
}
