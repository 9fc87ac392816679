//! Valid patterns: that of a protocol name, and that of a text.

ghost use Rattle.std.specs.Prelude.{IfErr, IfOk};
ghost use Rattle.noise_lines.specs.Output.{IsCheckFault, IsShowFault, NamesPattern};
ghost use Rattle.noise_names.specs.Text.{Spells};
ghost use Rattle.noise_names.specs.Validity.{IsValid};

use crate::faults::Fault;
use crate::named::named_pattern;
use noise_names::{Pattern, ProtocolName, ValidPattern};

/// The valid pattern that has this protocol name. The faults are looked for in this order: those of the name, a base
/// that isn't of a fundamental pattern, a psk place beyond the messages.
pub fn named_valid_pattern(name: &[u8]) -> Result<ValidPattern, Fault>
    ensures named { IfOk result (λ pattern. NamesPattern name.now pattern) }
    ensures fault { IfErr result (λ fault. IsShowFault name.now fault) }
{
    let name = ProtocolName::parse(name).map_err(Fault::Name)?;
    named_pattern(&name)?.check().map_err(Fault::Rule)
}

/// The valid pattern that the text spells. Of a wrong text the first fault is reported, and of a pattern that isn't
/// valid the first place that breaks a rule.
pub fn spelled_valid_pattern(text: &[u8]) -> Result<ValidPattern, Fault>
    ensures valid { IfOk result (λ p. Spells text.now p × IsValid p) }
    ensures fault { IfErr result (λ fault. IsCheckFault text.now fault) }
{
    let pattern = match Pattern::parse_text(text) {
        Ok(pattern) => pattern,
        Err(fault) => return Err(Fault::Text(fault)),
    };
    match pattern.check() {
        Ok(valid) => Ok(valid),
        Err(fault) => Err(Fault::Rule(fault)),
    }
}
