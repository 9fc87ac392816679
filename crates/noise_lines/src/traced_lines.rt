//! Lines, each with those that follow it.

ghost use Rattle.std.specs.Prelude.{◌≡◌, ◌∷◌, ◌++◌, [], IfErr, OnOk, slice_get, unwrap_or};
ghost use Rattle.std.specs.Io.KnownBytes.{Appends};
ghost use Rattle.noise_names.specs.Lists.{bytes_of};
ghost use Rattle.noise_lines.specs.Lines.{lines_text};
ghost use Rattle.noise_lines.specs.Prefixes.{AppendsPrefix};
ghost use Rattle.noise_lines.specs.TracedLines.{traces_of, with_traces};
ghost use Rattle.noise_lines.specs.declared.faults.Fault.TheVariants.{Unwritable};

use crate::faults::Fault;
use crate::output::{write, write_lines};
use std::io::Write;

/// Writes the lines of a start, and then each of these lines and those that follow it. Where a write is refused, a
/// prefix of their text was written.
pub fn write_traced<O: Write>(
    start: &[Vec<u8>],
    lines: &[Vec<u8>],
    traces: &[Vec<Vec<u8>>],
    out: &mut O,
) -> Result<(), Fault>
    ensures written { OnOk result (Appends (O.contents out.old) (O.contents out.new)
        (lines_text (bytes_of start.now ++ with_traces (bytes_of lines.now) (traces_of traces.now)))) }
    ensures prefix { AppendsPrefix (O.contents out.old) (O.contents out.new)
        (lines_text (bytes_of start.now ++ with_traces (bytes_of lines.now) (traces_of traces.now))) }
    ensures fault { IfErr result (λ fault. fault ≡ Unwritable) }
{
    write_lines(start, out)?;
    write_each(lines, traces, out)
}

// Writes each of these lines, and those that follow it.
fn write_each<O: Write>(
    lines: &[Vec<u8>],
    traces: &[Vec<Vec<u8>>],
    out: &mut O,
) -> Result<(), Fault>
    ensures written { OnOk result (Appends (O.contents out.old) (O.contents out.new)
        (lines_text (with_traces (bytes_of lines.now) (traces_of traces.now)))) }
    ensures prefix { AppendsPrefix (O.contents out.old) (O.contents out.new)
        (lines_text (with_traces (bytes_of lines.now) (traces_of traces.now))) }
    ensures fault { IfErr result (λ fault. fault ≡ Unwritable) }
{
    for (index, line) in lines.iter().enumerate() {
        write_one(line, trace_at(traces, index), out)?;
    }
    Ok(())
}

// Writes a line, and those that follow it.
fn write_one<O: Write>(line: &[u8], trace: &[Vec<u8>], out: &mut O) -> Result<(), Fault>
    ensures written { OnOk result (Appends (O.contents out.old) (O.contents out.new)
        (lines_text (line.now ∷ bytes_of trace.now))) }
    ensures prefix { AppendsPrefix (O.contents out.old) (O.contents out.new)
        (lines_text (line.now ∷ bytes_of trace.now)) }
    ensures fault { IfErr result (λ fault. fault ≡ Unwritable) }
{
    write(line, out)?;
    write(b"\n".as_slice(), out)?;
    write_lines(trace, out)
}

// The lines that follow this line of the run, if there are some.
fn trace_at(traces: &[Vec<Vec<u8>>], index: usize) -> &[Vec<u8>]
    ensures { bytes_of result.now ≡ unwrap_or (slice_get (traces_of traces.now) index) [] }
{
    match traces.get(index) {
        Some(trace) => trace,
        None => &[],
    }
}
