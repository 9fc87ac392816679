//! The pattern that a template is of: that of a protocol name, or that of a text.

ghost use Rattle.std.specs.Prelude.{◌≡◌, [], IfErr, IfOk};
ghost use Rattle.noise_lines.specs.Output.{IsCheckFault, IsShowFault, NamesPattern};
ghost use Rattle.noise_names.specs.Plan.{Plan};
ghost use Rattle.noise_names.specs.Text.{Spells};
ghost use Rattle.noise_names.specs.Validity.{IsValid};
ghost use Rattle.noise_explain.specs.Template.{IsTemplateText, names_protocol};

use crate::text::template;
use noise_lines::{Fault, named_valid_pattern, spelled_valid_pattern};
use std::alloc::Global;

/// Whether a word of the command line is a protocol name, and no file's.
pub fn names_protocol(word: &str) -> bool
    ensures { result ≡ names_protocol word.now }
{
    word.as_bytes().starts_with(b"Noise_".as_slice())
}

/// The template of the pattern that has this protocol name. The faults are those of `show`, in its order.
pub fn named_template(alloc: Global, name: &[u8]) -> Result<Vec<u8>, Fault>
    ensures made { IfOk result (λ text. (p : Plan) × NamesPattern name.now p × IsValid p
        × IsTemplateText [] p text.items) }
    ensures fault { IfErr result (λ fault. IsShowFault name.now fault) }
{
    let valid = named_valid_pattern(name)?;
    Ok(template(alloc, valid.pattern(), &[])?)
}

/// The template of the pattern that the text spells. The faults are those of `check`.
pub fn spelled_template(alloc: Global, text: &[u8]) -> Result<Vec<u8>, Fault>
    ensures made { IfOk result (λ reported. (p : Plan) × Spells text.now p × IsValid p
        × IsTemplateText [] p reported.items) }
    ensures fault { IfErr result (λ fault. IsCheckFault text.now fault) }
{
    let valid = spelled_valid_pattern(text)?;
    Ok(template(alloc, valid.pattern(), &[])?)
}
