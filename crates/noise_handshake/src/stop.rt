//! Where reading a message stops.

ghost use Rattle.std.specs.Prelude.{◌≡◌};
ghost use Rattle.noise_handshake.specs.declared.faults.ReadFault.TheVariants.{Refused};

use crate::{Cause, Own, ReadFault};

// The token at which reading stopped, counted from 0, and why; and the key pair and the remote key of its DH, if that
// has no result.
#[derive(Clone, Copy)]
pub(crate) struct Stop {
    pub(crate) token: u8,
    pub(crate) cause: Cause,
    pub(crate) want: Option<(Own, [u8; 32])>,
}

impl Stop {
    // The refusal.
    pub(crate) fn fault(&self) -> ReadFault
        ensures { result ≡ Refused self.now.token self.now.cause }
    {
        ReadFault::Refused {
            token: self.token,
            cause: self.cause,
        }
    }
}
