//! The files that a command line names: `-` is standard input.

ghost use Rattle.std.specs.Prelude.{◌≡◌, ◌⊎◌, ◌<◌, ◌≤◌, ◌||◌, ℕ, Bool, List, Option, IfErr, IfOk, IfSome, IsTrue, if◌then◌else◌, length, vec_len};
ghost use Rattle.noise_lines.specs.Faults.{status_of};
ghost use Rattle.noise_lines.specs.declared.faults.Fault.TheVariants.{TooLong, Unreadable};
ghost use Rattle.noise_tool.specs.Testing.{is_input};

use crate::testing::{FilesByName, is_input};
use noise_lines::Fault;
use std::alloc::Global;

/// A system with files and standard input.
pub trait System {
    /// The bytes of the file of each name, where they are known.
    ghost file_at: { Self → List ℕ → Option (List ℕ) };

    /// Whether it may be that the file of each name can't be read.
    ghost unreadable: { Self → List ℕ → Bool };

    /// The bytes of standard input, where they are known.
    ghost input: { Self → Option (List ℕ) };

    /// The bytes of the file of this name. A file of more than 4194304 bytes is too long.
    fn read_file(&self, alloc: Global, name: &str) -> Result<Vec<u8>, Fault>
        ensures bytes { IfOk result (λ text. IfSome (file_at self.now name.now) (λ bytes. text.items ≡ bytes)) }
        ensures bound { IfOk result (λ text. vec_len text ≤ 4194304) }
        ensures failed { IfErr result (λ fault. fault ≡ Unreadable → IsTrue (unreadable self.now name.now)) }
        ensures fault { IfErr result (λ fault. (status_of fault ≡ 3)
            ⊎ ((fault ≡ TooLong) × IfSome (file_at self.now name.now) (λ bytes. 4194304 < length bytes))) };

    /// The bytes of standard input.
    fn read_input(&self, alloc: Global) -> Result<Vec<u8>, Fault>
        ensures bytes { IfOk result (λ text. IfSome (input self.now) (λ bytes. text.items ≡ bytes)) }
        ensures bound { IfOk result (λ text. vec_len text ≤ 4194304) }
        ensures fault { IfErr result (λ fault. (status_of fault ≡ 3)
            ⊎ ((fault ≡ TooLong) × IfSome (input self.now) (λ bytes. 4194304 < length bytes))) };
}

/// The files of a system by the names of a command line, and its standard input as `-`.
#[derive(Clone, Copy)]
pub struct NamedFiles<'a, S> {
    /// The system.
    pub system: &'a S,
}

impl<S: System> FilesByName for NamedFiles<'_, S> {
    ghost bytes_at = { λ files name. if is_input name then S.input files.system.now else S.file_at files.system.now name };

    ghost unreadable = { λ files name. is_input name || S.unreadable files.system.now name };

    fn read(&self, alloc: Global, name: &str) -> Result<Vec<u8>, Fault> {
        if is_input(name) {
            self.system.read_input(alloc)
        } else {
            self.system.read_file(alloc, name)
        }
    }
}
