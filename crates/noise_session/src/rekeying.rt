//! Rekeying after so many messages (Noise, 11.3).

ghost use Rattle.std.specs.Prelude.{◌≡◌, ◌+◌, ℕ, List, Some, IsSome};
ghost use Rattle.noise_state.specs.Cipher.{key_in, nonce_in};
ghost use Rattle.noise_state.specs.Cipher.{rekeyed_times};
ghost use Rattle.noise_session.specs.Transport.{rekeys};
ghost use Rattle.noise_session.specs.TransportValue.{rekeyed_if_due};

use noise_state::CipherState;

// Rekeys where the nonce has come to a multiple of the interval.
pub(crate) fn rekey_if_due(cipher: &mut CipherState, interval: u64)
    requires keyed { IsSome (key_in cipher.old) }
    ensures nonce { nonce_in cipher.new ≡ nonce_in cipher.old }
    ensures keyed { IsSome (key_in cipher.new) }
    ensures renewed { key_in cipher.new ≡ rekeyed_if_due interval (nonce_in cipher.old) (key_in cipher.old) }
    ensures key { (first : List ℕ) (n : ℕ) → nonce_in cipher.old ≡ n + 1
        → key_in cipher.old ≡ Some (rekeyed_times (rekeys interval n) first)
        → key_in cipher.new ≡ Some (rekeyed_times (rekeys interval (n + 1)) first) }
{
    if interval != 0 && cipher.nonce() % interval == 0 {
        cipher.rekey();
    }
}
