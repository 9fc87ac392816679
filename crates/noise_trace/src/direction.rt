//! The key of one direction in transport, message by message (Noise, 11.3).

ghost use Rattle.std.specs.Prelude.{◌≡◌, ◌≢◌, ◌+◌, ℕ};
ghost use Rattle.noise_names.specs.declared.token.Role.{Role};
ghost use Rattle.noise_state.specs.declared.symmetric.SymmetricState.{SymmetricState};
ghost use Rattle.noise_session.specs.Transport.{last_nonce, transport_key};
ghost use Rattle.noise_trace.specs.Directions.{direction};
ghost use Rattle.noise_trace.specs.KeyUses.{use_value, counted_use, uncounted_use, rekeyed_after};
ghost use Rattle.noise_trace.specs.KeyUses.KeyUseValue.{Nothing};

use crate::KeyUse;
use noise_aead::rekey;

// A direction before a message: its nonce and its key.
#[derive(Clone, Copy)]
pub(crate) struct Direction {
    pub(crate) nonce: u64,
    pub(crate) key: [u8; 32],
}

// The key from this nonce on, if it is rekeyed before it.
fn rekeyed_at(nonce: u64, key: &[u8; 32], interval: u64) -> Option<[u8; 32]>
    ensures { (r : SymmetricState) (writer : Role) (n : ℕ) → key.now ≡ transport_key r writer interval n → nonce ≡ n + 1
        → result ≡ rekeyed_after r writer interval n }
{
    if interval != 0 && nonce % interval == 0 {
        Some(rekey(key))
    } else {
        None
    }
}

impl Direction {
    // Before the first message.
    pub(crate) fn new(key: [u8; 32]) -> Direction
        ensures { result ≡ record { nonce = 0; key = key } }
    {
        Direction { nonce: 0, key }
    }

    // Counts a message, and shows its key; at the last nonce, which no message has, nothing.
    pub(crate) fn pass(&mut self, interval: u64) -> KeyUse
        ensures shown { (r : SymmetricState) (writer : Role) (n : ℕ) → self.old ≡ direction r writer interval n
            → n ≢ last_nonce → use_value result ≡ counted_use r writer interval n }
        ensures next { (r : SymmetricState) (writer : Role) (n : ℕ) → self.old ≡ direction r writer interval n
            → n ≢ last_nonce
            → self.new ≡ direction r writer interval (n + 1) }
        ensures last { self.old.nonce ≡ last_nonce → (use_value result ≡ Nothing) × (self.new ≡ self.old) }
    {
        let Direction { nonce, key } = *self;
        if nonce == u64::MAX {
            return KeyUse::Nothing;
        }
        let renewed = rekeyed_at(nonce + 1, &key, interval);
        *self = Direction {
            nonce: nonce + 1,
            key: renewed.unwrap_or(key),
        };
        KeyUse::Transport {
            nonce,
            key,
            renewed,
        }
    }

    // The nonce and the key of the next message, of which nothing is counted.
    pub(crate) fn now(&self) -> KeyUse
        ensures { (r : SymmetricState) (writer : Role) (interval n : ℕ) → self.now ≡ direction r writer interval n
            → use_value result ≡ uncounted_use r writer interval n }
    {
        KeyUse::Transport {
            nonce: self.nonce,
            key: self.key,
            renewed: None,
        }
    }
}
