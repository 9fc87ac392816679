//! Whether a handshake message is one of a given payload.

ghost use Rattle.std.specs.Prelude.{◌≡◌, ◌≤◌, ◌↔◌, ℕ, List, length, true};
ghost use Rattle.noise_handshake.specs.HandshakeValue.{HasPsks};
ghost use Rattle.noise_handshake.specs.Matching.{party_of};
ghost use Rattle.noise_handshake.specs.Party.{Accepts, Listens};
ghost use Rattle.noise_theorems.specs.Taking.{IsReadAs, LeavesMessage};

use crate::laws::read_exactly;
use noise_handshake::laws::psks_suffice;
use noise_handshake::{Handshake, Keys};

/// Reads a message in place, of at most 65535 bytes, and returns whether its payload is this one.
///
/// Where the other party's message is due, that is so exactly if the party accepts the message as one of the payload.
/// The handshake and the message are left as `Handshake::read` leaves them.
pub fn reads_as<K: Keys>(handshake: &mut Handshake<K>, message: &mut [u8], payload: &[u8]) -> bool
    requires short { length message.old ≤ 65535 }
    ensures exactly { HasPsks handshake.old → let v = party_of K.pairs handshake.old in
        Listens v → (result ≡ true ↔ ((xs : List (List ℕ)) × Accepts v message.old xs payload.now)) }
    ensures reads { IsReadAs K.pairs handshake.old message.old payload.now handshake.new result }
    ensures message { LeavesMessage message.old message.new payload.now result }
{
    read_exactly();
    psks_suffice::<K>();
    match handshake.read_within(message) {
        Ok((from, to)) => is_same(&message[from..to], payload),
        Err(_) => false,
    }
}

// Whether two payloads are the same.
fn is_same(given: &[u8], payload: &[u8]) -> bool
    ensures { result ≡ true ↔ given.now ≡ payload.now }
{
    given == payload
}
