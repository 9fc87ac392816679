//! Patterns by their texts and protocol names, and an export: whether a text is that of a valid pattern.

ghost use Rattle.std.specs.Prelude.{◌≡◌, ◌↔◌, length, IsOk, IfErr, IfNone, IfOk, IfSome, OnErr, OnOk};
ghost use Rattle.noise_names.specs.Plan.{Plan};
ghost use Rattle.noise_names.specs.Text.{Spells};
ghost use Rattle.noise_names.specs.Validity.{IsValid};
ghost use Rattle.noise_c.specs.HandshakeStructs.{FindsPattern, IsPatternOfName, IsNameFault, IsPatternFault, IsPatternOf, IsSpellingFault};
ghost use Rattle.noise_c.specs.Checked.{ChecksPattern, IsTextCode, ReportsRuleFault, ReportsText};
ghost use Rattle.noise_c.specs.declared.codes.numbers.TheConstants.{RULE};

use crate::codes::numbers::{NAME, OK, PATTERN, RULE};
use crate::codes::{ok_or, text_code};
use crate::structs::NoisePatternResult;
use noise_names::laws::{names_are_short, texts_are_short, texts_are_unique};
use noise_names::{Pattern, ProtocolName, ValidPattern, fundamental};

// The pattern of a protocol name, if it is valid. Else the number of the fault: NAME or PATTERN.
fn named(name: &[u8]) -> Result<ValidPattern, u32>
    ensures { FindsPattern (IsPatternOfName name.now) 82 (length name.now) (IsNameFault name.now) result }
{
    names_are_short();
    let Ok(name) = ProtocolName::parse(name) else {
        return Err(NAME);
    };
    if name.places().numbers().is_empty() {
        return match ValidPattern::fundamental(name.base()) {
            Some(valid) => Ok(valid),
            None => Err(NAME),
        };
    }
    let Some(plain) = fundamental(name.base()) else {
        return Err(NAME);
    };
    match Pattern::with_psks(&plain, name.places()) {
        Ok(pattern) => match pattern.check() {
            Ok(valid) => Ok(valid),
            Err(_) => Err(PATTERN),
        },
        Err(_) => Err(NAME),
    }
}

// The pattern of a pattern text, if it is valid. Else the number of the fault: PATTERN.
fn spelled(text: &[u8]) -> Result<ValidPattern, u32>
    ensures { FindsPattern (Spells text.now) 413 (length text.now) (IsSpellingFault text.now) result }
{
    texts_are_short();
    texts_are_unique();
    match Pattern::parse_text(text) {
        Ok(pattern) => match pattern.check() {
            Ok(valid) => Ok(valid),
            Err(_) => Err(PATTERN),
        },
        Err(_) => Err(PATTERN),
    }
}

// The pattern of a pattern text, whose last byte is a line feed, or of a protocol name, if it is valid. Else the number
// of the fault: NAME or PATTERN.
pub(crate) fn pattern_of(bytes: &[u8]) -> Result<ValidPattern, u32>
    ensures { FindsPattern (IsPatternOf bytes.now) 413 (length bytes.now) (IsPatternFault bytes.now) result }
{
    if bytes.ends_with(b"\n") {
        spelled(bytes)
    } else {
        named(bytes)
    }
}

// The pattern of a protocol name, which may break a rule of validity.
pub(crate) fn pattern_of_name(name: &[u8]) -> Option<Pattern>
    ensures named { IfSome result (λ p. IsPatternOfName name.now p) }
    ensures one { IfSome result (λ p. (q : Plan) → IsPatternOfName name.now q → q ≡ p) }
    ensures none { IfNone result ((q : Plan) → IsPatternOfName name.now q → ⊥) }
{
    let Ok(name) = ProtocolName::parse(name) else {
        return None;
    };
    let plain = fundamental(name.base())?;
    match Pattern::with_psks(&plain, name.places()) {
        Ok(pattern) => Some(pattern),
        Err(_) => None,
    }
}

// The pattern of a pattern text, which may break a rule of validity. Else the number of its fault, whose line is
// reported.
pub(crate) fn pattern_of_text(text: &[u8], results: &mut NoisePatternResult) -> Result<Pattern, u32>
    ensures spelled { IfOk result (λ p. Spells text.now p) }
    ensures one { IfOk result (λ p. (q : Plan) → Spells text.now q → q ≡ p) }
    ensures unchanged { OnOk result (results.new ≡ results.old) }
    ensures none { OnErr result ((q : Plan) → Spells text.now q → ⊥) }
    ensures code { IfErr result (λ code. IsTextCode code) }
    ensures reported { IfErr result (λ code. ReportsText text.now code results.new.line) }
    ensures line { OnErr result (results.new ≡ record results.old { line = results.new.line }) }
{
    texts_are_unique();
    match Pattern::parse_text(text) {
        Ok(pattern) => Ok(pattern),
        Err(fault) => {
            results.line = fault.line;
            Err(text_code(fault.kind))
        }
    }
}

// The pattern, if it is valid. Else the number RULE, and the first place that breaks a rule is reported.
pub(crate) fn checked(
    pattern: Pattern,
    results: &mut NoisePatternResult,
) -> Result<ValidPattern, u32>
    ensures value { IfOk result (λ valid. valid ≡ pattern) }
    ensures valid { IsOk result ↔ IsValid pattern }
    ensures unchanged { OnOk result (results.new ≡ results.old) }
    ensures code { IfErr result (λ code. code ≡ RULE) }
    ensures fault { OnErr result (ReportsRuleFault pattern results.old results.new) }
{
    match pattern.check() {
        Ok(valid) => Ok(valid),
        Err(fault) => {
            results.rule = fault.rule;
            results.message = fault.message;
            results.token = fault.token;
            Err(RULE)
        }
    }
}

/// Whether these bytes are the text of a valid pattern. OK reports how many messages it has, RULE the first place that
/// breaks a rule of validity, and the codes from HEADING to ENDING the first line with a fault.
#[unsafe(no_mangle)]
pub extern "C" fn noise_check_pattern(text: &[u8], results: &mut NoisePatternResult) -> u32
    ensures { ChecksPattern text.now results.old results.new result }
{
    let pattern = ok_or!(pattern_of_text(text, results));
    let valid = ok_or!(checked(pattern, results));
    results.messages = valid.pattern().messages().len() as u8;
    OK
}
