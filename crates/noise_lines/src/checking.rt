//! The command `check`: whether the pattern of a text is valid.

ghost use Rattle.std.specs.Prelude.{◌≡◌, ◌++◌, IfOk, IfErr, OnOk, codes};
ghost use Rattle.noise_names.specs.Plan.{Plan};
ghost use Rattle.noise_names.specs.Names.{section_bytes};
ghost use Rattle.noise_names.specs.Text.{Spells, line};
ghost use Rattle.noise_names.specs.Validity.{IsValid};
ghost use Rattle.noise_lines.specs.Output.{IsCheckFault, check_text};

use crate::faults::Fault;
use crate::overheads::push_overheads;
use crate::valid::spelled_valid_pattern;
use noise_names::Pattern;
use std::alloc::{AllocError, Global};

/// The pattern section of the pattern that the text spells, if it is valid, and the overhead of each message. Of a
/// wrong text the first fault is reported, and of a pattern that isn't valid the first place that breaks a rule.
pub fn check(alloc: Global, text: &[u8]) -> Result<Vec<u8>, Fault>
    ensures valid { IfOk result (λ reported. (p : Plan) × Spells text.now p × IsValid p
        × (reported.items ≡ check_text p)) }
    ensures fault { IfErr result (λ fault. IsCheckFault text.now fault) }
{
    let valid = spelled_valid_pattern(text)?;
    let mut reported = Vec::new(alloc);
    push_section(valid.pattern(), &mut reported)?;
    push_overheads(alloc, &valid, &mut reported)?;
    Ok(reported)
}

// Appends the line that says that the pattern is valid.
fn push_section(pattern: &Pattern, reported: &mut Vec<u8>) -> Result<(), AllocError>
    ensures { OnOk result (reported.new.items
        ≡ reported.old.items ++ line (codes "valid " ++ section_bytes pattern.now.base pattern.now.places)) }
{
    let name = pattern.name().write();
    reported.extend_from_slice(b"valid ")?;
    // What is between `Noise_` and `_25519_ChaChaPoly_SHA256`.
    reported.extend_from_slice(&name[6..name.len() - 24])?;
    reported.push(b'\n')?;
    Ok(())
}
