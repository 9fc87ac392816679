//! What a handshake leaves once all its messages have passed.

ghost use Rattle.std.specs.Prelude.{◌≡◌};

use noise_names::Role;
use noise_state::CipherState;
use std::marker::Model;

/// The end of a handshake: its hash, and the two cipher states of the transport (Noise, 5.2).
#[derive(Drop)]
pub struct Opened {
    pub(crate) role: Role,
    pub(crate) one_way: bool,
    pub(crate) hash: [u8; 32],
    pub(crate) remote_static: Option<[u8; 32]>,
    pub(crate) initiator: CipherState,
    pub(crate) responder: CipherState,
}

impl Model for Opened {
    ghost use Rattle.noise_handshake.specs.Opening.{OpenedValue, IsFresh};

    ghost Value = { OpenedValue };

    ghost view = { λ o. record {
      role = o.role;
      one_way = o.one_way;
      hash = o.hash;
      remote_static = o.remote_static;
      initiator = o.initiator;
      responder = o.responder;
    } };

    ghost invariant = { λ o. IsFresh o.initiator × IsFresh o.responder };
}

impl Opened {
    ghost use Rattle.noise_handshake.specs.Opening.{IsFresh};

    /// The role of this party.
    pub fn role(&self) -> Role
        ensures { result ≡ self.now.role }
    {
        self.role
    }

    /// Whether the pattern has one message, so that only the initiator writes transport messages (Noise, 7.4).
    pub fn one_way(&self) -> bool
        ensures { result ≡ self.now.one_way }
    {
        self.one_way
    }

    /// The handshake hash (Noise, 11.2), 32 bytes.
    pub fn hash(&self) -> [u8; 32]
        ensures { result ≡ self.now.hash }
    {
        self.hash
    }

    /// The other party's static public key, if it was in its pre-message or in a message.
    pub fn remote_static(&self) -> Option<[u8; 32]>
        ensures { result ≡ self.now.remote_static }
    {
        self.remote_static
    }

    /// The cipher states, that of the initiator's messages first.
    pub fn into_ciphers(self) -> (CipherState, CipherState)
        ensures value { (result.0 ≡ self.initiator) × (result.1 ≡ self.responder) }
        ensures fresh { IsFresh result.0 × IsFresh result.1 }
    {
        (self.initiator, self.responder)
    }
}
