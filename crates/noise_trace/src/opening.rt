//! The opening of a session.

ghost use Rattle.std.specs.Prelude.{◌≡◌};
ghost use Rattle.noise_handshake.specs.Party.{Party};
ghost use Rattle.noise_trace.specs.Following.{Follows};

use crate::{Following, StateValues};
use noise_handshake::Keys;

/// The two keys at the opening of a session (Split; Noise, 5.2), each used from nonce 0 on.
#[derive(Clone, Copy, Debug, PartialEq, Eq)]
pub struct Opening {
    /// The state after the last handshake message, of which the keys are made.
    pub state: StateValues,
    /// The key of the messages from the initiator to the responder.
    pub initiator: [u8; 32],
    /// The key of the messages from the responder to the initiator.
    pub responder: [u8; 32],
}

impl Opening {
    ghost use Rattle.noise_trace.specs.KeyUses.{opening_in};

    // Once all handshake messages of a party have passed.
    pub(crate) fn after<K: Keys>(following: &Following<K>) -> Option<Opening>
        ensures { (v : Party) → Follows K.pairs following.now v → result ≡ opening_in v }
    {
        if !following.is_complete() {
            return None;
        }
        let (initiator, responder) = following.transport_keys();
        Some(Opening {
            state: following.values(),
            initiator,
            responder,
        })
    }
}
