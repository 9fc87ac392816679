//! Reading a whole file.

ghost use Rattle.std.specs.Prelude.{◌≡◌, ◌⊎◌, ◌<◌, ◌≤◌, ℕ, List, IfErr, IfOk, IfSome, length, vec_len};
ghost use Rattle.std.specs.Io.{ReadsAtMost};
ghost use Rattle.std.specs.Io.KnownBytes.{Consumes, ReadConsumes};
ghost use Rattle.noise_lines.specs.Faults.{status_of};
ghost use Rattle.noise_lines.specs.declared.faults.Fault.TheVariants.{TooLong};

use crate::faults::Fault;
use std::alloc::Global;
use std::io::{ErrorKind, Read};

/// How many bytes a file may have.
pub const LIMIT: usize = 4194304;

// How many bytes one read asks for, at most.
const PIECE: usize = 65536;

/// The bytes of a file, up to its end. A file of more than 4194304 bytes is read no further than the first byte beyond.
pub fn read_file<R: Read>(alloc: Global, file: &mut R) -> Result<Vec<u8>, Fault>
    // Of a file whose bytes are known.
    ensures bytes { IfOk result (λ text. IfSome (R.remaining file.old) (λ bytes. text.items ≡ bytes)) }
    ensures fault { IfErr result (λ fault. (status_of fault ≡ 3)
        ⊎ ((fault ≡ TooLong) × IfSome (R.remaining file.old) (λ bytes. 4194304 < length bytes))) }
    ensures bound { IfOk result (λ text. vec_len text ≤ 4194304) }

    // However it ends, the bytes that it took of the file are no more than one beyond the limit.
    ensures taken { (taken : List ℕ) × Consumes (R.remaining file.old) (R.remaining file.new) taken
        × (length taken ≤ 4194305) }
{
    let mut text = Vec::new(alloc);
    let mut piece = vec![in alloc; 0; PIECE]?;
    for _ in 0..u64::MAX {
        let most = PIECE.min(LIMIT + 1 - text.len());
        let room = &mut piece[..most];
        let count = read_some(file, room)?;
        if count == 0 {
            return Ok(text);
        }
        text.extend_from_slice(&room[..count])?;
        if text.len() > LIMIT {
            return Err(Fault::TooLong);
        }
    }
    Err(Fault::Unreadable)
}

// One read, made again where it was interrupted.
fn read_some<R: Read>(file: &mut R, piece: &mut [u8]) -> Result<usize, Fault>
    ensures bound { ReadsAtMost result piece.new }
    ensures bytes { ReadConsumes (R.remaining file.old) (R.remaining file.new) result piece.new }
    ensures fault { IfErr result (λ fault. status_of fault ≡ 3) }
{
    for _ in 0..u64::MAX {
        match file.read(piece) {
            Ok(count) => return Ok(count),
            Err(error) if error.kind() == ErrorKind::Interrupted => {}
            Err(error) if error.kind() == ErrorKind::OutOfMemory => return Err(Fault::Memory),
            Err(_) => return Err(Fault::Unreadable),
        }
    }
    Err(Fault::Unreadable)
}
