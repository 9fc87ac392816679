//! The command `show`: the pattern of a protocol name.

ghost use Rattle.std.specs.Prelude.{◌≡◌, IfOk, IfErr};
ghost use Rattle.noise_names.specs.Plan.{Plan};
ghost use Rattle.noise_lines.specs.Output.{IsShowFault, NamesPattern, show_text};

use crate::faults::Fault;
use crate::overheads::push_overheads;
use crate::valid::named_valid_pattern;
use std::alloc::Global;

/// The text of the pattern that has this protocol name, and after it the overhead of each message. The faults are
/// looked for in this order: those of the name, a base that isn't of a fundamental pattern, a psk place beyond the
/// messages.
pub fn show(alloc: Global, name: &[u8]) -> Result<Vec<u8>, Fault>
    ensures shown { IfOk result (λ text. (p : Plan) × NamesPattern name.now p × (text.items ≡ show_text p)) }
    ensures fault { IfErr result (λ fault. IsShowFault name.now fault) }
{
    let valid = named_valid_pattern(name)?;
    let mut text = Vec::new(alloc);
    valid.pattern().write_text(&mut text)?;
    push_overheads(alloc, &valid, &mut text)?;
    Ok(text)
}
