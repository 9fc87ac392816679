//! What a party holds of one direction of its transport.

ghost use Rattle.std.specs.Prelude.{◌≡◌, Some, IsSome};
ghost use Rattle.noise_state.specs.Cipher.{key_in, nonce_in};

use crate::HalfParts;
use noise_names::Role;
use noise_state::CipherState;

// One direction of a party's transport; of its datagrams where the interval is 0.
#[derive(Drop)]
pub(crate) struct Half {
    pub(crate) role: Role,
    pub(crate) one_way: bool,
    pub(crate) interval: u64,
    pub(crate) cipher: CipherState,
    ghost keyed: { IsSome (key_in cipher) },
}

impl Half {
    ghost use Rattle.noise_session.specs.Parts.{half_in};
    ghost use Rattle.noise_session.specs.inner.Halves.{half_value};

    pub(crate) fn new(role: Role, one_way: bool, interval: u64, cipher: CipherState) -> Half
        requires keyed { IsSome (key_in cipher) }
        ensures value { half_value result ≡ record
            { role = role; one_way = one_way; interval = interval; key = key_in cipher; nonce = nonce_in cipher } }
    {
        Half {
            role,
            one_way,
            interval,
            cipher,
        }
    }

    pub(crate) fn into_parts(self) -> HalfParts
        ensures { half_in result ≡ half_value self }
    {
        match self.cipher.into_parts() {
            (Some(key), nonce) => HalfParts {
                role: self.role,
                one_way: self.one_way,
                interval: self.interval,
                key,
                nonce,
            },
            (None, _) => unreachable!(),
        }
    }

    pub(crate) fn from_parts(parts: HalfParts) -> Half
        ensures { half_value result ≡ half_in parts }
    {
        let cipher = CipherState::from_parts(Some(parts.key), parts.nonce);
        Half::new(parts.role, parts.one_way, parts.interval, cipher)
    }
}
