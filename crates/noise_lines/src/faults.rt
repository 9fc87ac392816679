//! Why a command ends before its work is done.

ghost use Rattle.std.specs.Prelude.{◌≡◌};
ghost use Rattle.noise_lines.specs.Faults.{of_vector, status_of};
ghost use Rattle.noise_lines.specs.declared.faults.Fault.TheVariants.{Memory};

use noise_keys::SetupFault;
use noise_names::{NameFault, PlaceFault, Role, RuleFault, TextFault};
use noise_vectors::{LineKind, VectorFault};
use std::alloc::AllocError;

/// Why a command ends before its work is done.
#[derive(Clone, Copy)]
pub enum Fault {
    /// The pattern breaks a rule of validity.
    Rule(RuleFault),
    /// A psk place is greater than the number of messages.
    Place(PlaceFault),
    /// A party can't be made of what the file gives it.
    Setup(Role, SetupFault),
    /// A protocol name isn't one.
    Name(NameFault),
    /// The base of a protocol name isn't that of a fundamental pattern.
    UnknownPattern,
    /// A text isn't that of a pattern.
    Text(TextFault),
    /// The line of this number of a vector file, from 1 on, isn't as it has to be.
    Line(usize, LineKind),
    /// The lines of a run aren't those that the file expects: the number of the first that differs, from 1 on.
    Unmet(usize),
    /// The file has more bytes than are read.
    TooLong,
    /// The file can't be opened or read.
    Unreadable,
    /// The output can't be written.
    Unwritable,
    /// Memory ran out.
    Memory,
}

impl Fault {
    /// The exit status of a command that ends with it.
    pub fn status(&self) -> u8
        ensures { result ≡ status_of self.now }
    {
        match self {
            Fault::Rule(_) | Fault::Place(_) | Fault::Setup(_, _) | Fault::Unmet(_) => 1,
            Fault::Name(_)
            | Fault::UnknownPattern
            | Fault::Text(_)
            | Fault::Line(_, _)
            | Fault::TooLong => 2,
            Fault::Unreadable | Fault::Unwritable | Fault::Memory => 3,
        }
    }
}

impl From<AllocError> for Fault {
    ghost from_gives = { λ _ fault. fault ≡ Memory };

    fn from(_error: AllocError) -> Fault {
        Fault::Memory
    }
}

impl From<VectorFault> for Fault {
    ghost from_gives = { λ why fault. fault ≡ of_vector why };

    fn from(why: VectorFault) -> Fault {
        match why {
            VectorFault::Line(number, kind) => Fault::Line(number, kind),
            VectorFault::Memory => Fault::Memory,
        }
    }
}
