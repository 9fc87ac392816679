//! A version 1 vector file as one of version 2.

ghost use Rattle.std.specs.Prelude.{◌≡◌, ◌⊎◌, ◌<◌, ◌≤◌, ◌++◌, [], IfErr, IfOk, OnOk, length};
ghost use Rattle.noise_names.specs.Lists.{bytes_of};
ghost use Rattle.noise_vectors.specs.VectorText.{expect_line, lines_of, file_text};
ghost use Rattle.noise_vectors.specs.declared.vector.VectorFile.{VectorFile};
ghost use Rattle.noise_vectors.specs.declared.vector.Version.TheVariants.{One};
ghost use Rattle.noise_lines.specs.Converted.{converted_text};
ghost use Rattle.noise_lines.specs.declared.faults.Fault.TheVariants.{Memory, TooLong};

use crate::faults::Fault;
use crate::input::LIMIT;
use std::alloc::{AllocError, Global};

/// The text of a version 1 file with the header of version 2 and, after it, lines that expect these. `TooLong` is for a
/// result of more than 4194304 bytes.
pub fn convert(alloc: Global, text: &[u8], lines: &[Vec<u8>]) -> Result<Vec<u8>, Fault>
    requires text { (file : VectorFile) × (file.version ≡ One) × (text.now ≡ file_text file) }
    ensures converted { (file : VectorFile) → file.version ≡ One → text.now ≡ file_text file
        → IfOk result (λ converted. converted.items ≡ converted_text file (bytes_of lines.now)) }
    ensures short { IfOk result (λ converted. length converted.items ≤ 4194304) }
    ensures fault { IfErr result (λ fault. (fault ≡ Memory)
        ⊎ ((fault ≡ TooLong) × ((file : VectorFile) → file.version ≡ One → text.now ≡ file_text file
        → 4194304 < length (converted_text file (bytes_of lines.now))))) }
{
    let mut converted = Vec::new(alloc);
    converted.extend_from_slice(b"vector 2\n".as_slice())?;
    match text.strip_prefix(b"vector 1\n".as_slice()) {
        Some(after) => converted.extend_from_slice(after)?,
        None => unreachable!(),
    }
    push_expectations(lines, &mut converted)?;
    if converted.len() > LIMIT {
        return Err(Fault::TooLong);
    }
    Ok(converted)
}

// Appends the line that expects each of these.
fn push_expectations(lines: &[Vec<u8>], text: &mut Vec<u8>) -> Result<(), AllocError>
    ensures { OnOk result (text.new.items ≡ text.old.items ++ lines_of expect_line (bytes_of lines.now) []) }
{
    for line in lines {
        text.extend_from_slice(b"expect ".as_slice())?;
        text.extend_from_slice(line)?;
        text.push(b'\n')?;
    }
    Ok(())
}
