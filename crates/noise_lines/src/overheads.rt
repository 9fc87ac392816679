//! What the messages of a pattern add to their payloads.

ghost use Rattle.std.specs.Prelude.{◌≡◌, ◌≤◌, ◌++◌, OnOk, length};
ghost use Rattle.noise_lines.specs.Output.{overhead_line, overhead_lines};

use noise_names::ValidPattern;
use std::alloc::{AllocError, Global};

/// Appends a line for each message: its number, from 1 on, and how many bytes longer it is than its payload.
pub fn push_overheads(
    alloc: Global,
    pattern: &ValidPattern,
    text: &mut Vec<u8>,
) -> Result<(), AllocError>
    ensures { OnOk result (text.new.items ≡ text.old.items ++ overhead_lines pattern.now) }
{
    for index in 0..pattern.pattern().messages().len() {
        push_overhead(alloc, pattern, index as u8 + 1, text)?;
    }
    Ok(())
}

// Appends the line of one message.
fn push_overhead(
    alloc: Global,
    pattern: &ValidPattern,
    message: u8,
    text: &mut Vec<u8>,
) -> Result<(), AllocError>
    requires first { 1 ≤ message }
    requires last { message ≤ length pattern.now.messages }
    ensures appended { OnOk result (text.new.items ≡ text.old.items ++ overhead_line pattern.now message) }
{
    let overhead = pattern.overhead(message);
    let line = format!(in alloc; "overhead {message} {overhead}\n")?;
    text.extend_from_slice(line.as_bytes())
}
