//! Why there is no conversation.

ghost use Rattle.noise_theorems.specs.declared.fault.ConversationFault.TheVariants.{Memory};
ghost use Rattle.std.specs.Prelude.{◌≡◌};

use noise_handshake::SetupFault;
use std::alloc::AllocError;

/// Why two parties don't converse.
#[derive(Clone, Copy, Debug, Drop, PartialEq, Eq)]
pub enum ConversationFault {
    /// The setup lacks something, or has something that the pattern doesn't ask for: the initiator's fault first.
    Setup(SetupFault),
    /// Lack of memory.
    Memory,
}

impl From<AllocError> for ConversationFault {
    ghost from_gives = { λ _ fault. fault ≡ Memory };

    fn from(_error: AllocError) -> ConversationFault {
        ConversationFault::Memory
    }
}
