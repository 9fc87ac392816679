//! Why a text isn't read as a vector file.

ghost use Rattle.std.specs.Prelude.{◌≡◌};
ghost use Rattle.noise_vectors.specs.declared.faults.VectorFault.TheVariants.{Memory};

use std::alloc::AllocError;

/// Which line of a vector file isn't as it has to be.
#[derive(Clone, Copy, Debug, PartialEq, Eq)]
pub enum LineKind {
    Header,
    Protocol,
    Pattern,
    Prologue,
    Interval,
    Psk,
    Keys,
    Answer,
    Event,
    Expect,
    Ending,
}

/// Why a text isn't read as a vector file.
#[derive(Clone, Copy, Debug, PartialEq, Eq)]
pub enum VectorFault {
    /// The line of this number, from 1 on, isn't as it has to be.
    Line(usize, LineKind),
    /// Memory ran out.
    Memory,
}

impl From<AllocError> for VectorFault {
    ghost from_gives = { λ _ fault. fault ≡ Memory };

    fn from(_error: AllocError) -> VectorFault {
        VectorFault::Memory
    }
}
