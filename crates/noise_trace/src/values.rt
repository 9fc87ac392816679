//! What a symmetric state holds, as plain values.

ghost use Rattle.std.specs.Prelude.{◌≡◌};
ghost use Rattle.noise_state.specs.Standing.{state_of};
ghost use Rattle.noise_trace.specs.Values.{values_of};

use noise_state::{StateParts, SymmetricState};

/// The values of a symmetric state (Noise, 5.2).
#[derive(Clone, Copy, Debug, Default, PartialEq, Eq)]
pub struct StateValues {
    /// The handshake hash.
    pub hash: [u8; 32],
    pub chaining_key: [u8; 32],
    /// The cipher key, if there is one.
    pub key: Option<[u8; 32]>,
    /// The nonce of the next use of the key; 0 without a key.
    pub nonce: u64,
}

// The values of a state's parts.
pub(crate) fn values_in(parts: StateParts) -> StateValues
    ensures { result ≡ values_of (state_of parts) }
{
    let StateParts {
        chaining_key,
        hash,
        key,
        nonce,
    } = parts;
    StateValues {
        hash,
        chaining_key,
        key,
        nonce,
    }
}

// The values of a state.
pub(crate) fn values_of(state: &SymmetricState) -> StateValues
    ensures { result ≡ values_of state.now }
{
    values_in(state.for_trial().into_parts())
}
