//! Writing to an output.

ghost use Rattle.std.specs.Prelude.{◌≡◌, IfErr, OnOk};
ghost use Rattle.noise_names.specs.Lists.{bytes_of};
ghost use Rattle.std.specs.Io.{WritesAtMost};
ghost use Rattle.std.specs.Io.KnownBytes.{Appends, Keeps, WriteAppends};
ghost use Rattle.noise_lines.specs.Lines.{lines_text};
ghost use Rattle.noise_lines.specs.Prefixes.{AppendsPrefix};
ghost use Rattle.noise_lines.specs.declared.faults.Fault.TheVariants.{Unwritable};

use crate::faults::Fault;
use std::io::{ErrorKind, Write};

/// Writes a text. A buffer in front of the output may hold it back. Where a write is refused, a prefix of the text was
/// written.
pub fn write<O: Write>(text: &[u8], out: &mut O) -> Result<(), Fault>
    ensures written { OnOk result (Appends (O.contents out.old) (O.contents out.new) text.now) }
    ensures prefix { AppendsPrefix (O.contents out.old) (O.contents out.new) text.now }
    ensures fault { IfErr result (λ fault. fault ≡ Unwritable) }
{
    let mut at = 0;
    while at < text.len() {
        let count = write_some(&text[at..], out)?;
        if count == 0 {
            return Err(Fault::Unwritable);
        }
        at += count;
    }
    Ok(())
}

// One write, made again where it was interrupted: how many bytes it took.
fn write_some<O: Write>(text: &[u8], out: &mut O) -> Result<usize, Fault>
    ensures bound { WritesAtMost result text.now }
    ensures bytes { WriteAppends (O.contents out.old) (O.contents out.new) result text.now }
    ensures fault { IfErr result (λ fault. fault ≡ Unwritable) }
{
    for _ in 0..u64::MAX {
        match out.write(text) {
            Ok(count) => return Ok(count),
            Err(error) if error.kind() == ErrorKind::Interrupted => {}
            Err(_) => return Err(Fault::Unwritable),
        }
    }
    Err(Fault::Unwritable)
}

/// Writes what a buffer in front of the output holds back.
pub fn flush<O: Write>(out: &mut O) -> Result<(), Fault>
    ensures unchanged { Keeps (O.contents out.old) (O.contents out.new) }
    ensures fault { IfErr result (λ fault. fault ≡ Unwritable) }
{
    match out.flush() {
        Ok(()) => Ok(()),
        Err(_) => Err(Fault::Unwritable),
    }
}

/// Writes lines, with an LF after each. Where a write is refused, a prefix of their text was written.
pub fn write_lines<O: Write>(lines: &[Vec<u8>], out: &mut O) -> Result<(), Fault>
    ensures written { OnOk result
        (Appends (O.contents out.old) (O.contents out.new) (lines_text (bytes_of lines.now))) }
    ensures prefix { AppendsPrefix (O.contents out.old) (O.contents out.new) (lines_text (bytes_of lines.now)) }
    ensures fault { IfErr result (λ fault. fault ≡ Unwritable) }
{
    for line in lines {
        write(line, out)?;
        write(b"\n".as_slice(), out)?;
    }
    Ok(())
}
