//! The words of an equation.

ghost use Rattle.std.specs.Prelude.{◌≡◌, ◌++◌, IfOk, OnOk, flat_map, map};
ghost use Rattle.noise_compare.specs.Shown.{back_words, derivation_word, digit, equation_text, expansion_word, form_words, front_words, nonce_word, source_word, taken_word, value_word};

use crate::equation::{
    Derivation, Equation, Expansion, Form, Operation, Output, RekeyNonce, Source, Value,
};
use crate::state::Kind;
use std::alloc::{AllocError, Global};

/// The text of an equation at a step of this kind.
#[tactic(auto, unfolding(crate::specs::Shown::equation_text))]
pub(crate) fn equation_text(
    alloc: Global,
    kind: Kind,
    equation: Equation,
) -> Result<Vec<u8>, AllocError>
    ensures { IfOk result (λ text. text.items ≡ equation_text kind equation) }
{
    let Equation {
        value,
        operation,
        input,
    } = equation;
    let (before, behind) = form_words(input.form);
    let source = source_word(kind, input.source);
    let mut text = Vec::new(alloc);
    push_words(&[value_word(value), " = "], &mut text)?;
    push_words(&front_words(kind, operation), &mut text)?;
    push_words(&[before, source, behind], &mut text)?;
    push_words(&back_words(kind, operation), &mut text)?;
    Ok(text)
}

// Appends words.
fn push_words(words: &[&str], text: &mut Vec<u8>) -> Result<(), AllocError>
    ensures { OnOk result (text.new.items ≡ text.old.items ++ flat_map (λ word. word.now) words.now) }
{
    for word in words {
        text.extend_from_slice(word.as_bytes())?;
    }
    Ok(())
}

/// Appends parts.
pub(crate) fn push_parts(parts: &[&[u8]], text: &mut Vec<u8>) -> Result<(), AllocError>
    ensures { OnOk result (text.new.items ≡ text.old.items ++ flat_map (λ part. part.now) parts.now) }
{
    for part in parts {
        text.extend_from_slice(*part)?;
    }
    Ok(())
}

// What stands before the input of an operation.
#[tactic(auto, unfolding(crate::specs::Shown::front_words))]
fn front_words(kind: Kind, operation: Operation) -> [&'static str; 3]
    ensures { map (λ word. word.now) result ≡ front_words kind operation }
{
    match operation {
        Operation::Same | Operation::ButTag => ["", "", ""],
        Operation::Digest | Operation::DigestBefore(_) => ["SHA256(", "", ""],
        Operation::DigestAfter(source) => ["SHA256(", source_word(kind, source), " + "],
        Operation::MixedTwice => ["MixHash, twice, of ", "", ""],
        Operation::MixedFirst => ["MixHash of what is right, after MixHash of ", "", ""],
        Operation::MixedOutput(output) => ["SHA256(h + output ", digit(output), " of HKDF(ck, "],
        Operation::Code(source) => ["HMAC(", source_word(kind, source), ", "],
        Operation::CodeUnder(_) => ["HMAC(", "", ""],
        Operation::Expanded(source, _, _) => ["HKDF(", source_word(kind, source), ", "],
        Operation::ExpandedBy(_, _) => ["HKDF(", "", ""],
        Operation::Derived(Derivation::ExpandAlone, _) => ["HKDF-Expand(", "ck", ", "],
        Operation::Derived(_, _) => ["HKDF(", "ck", ", "],
        Operation::Sealed => ["AEAD(k, n, h, ", "", ""],
        Operation::SealedAlone => ["AEAD(k, n, nothing, ", "", ""],
        Operation::SealedWith => ["AEAD(k, n, ", "", ""],
        Operation::SealedUnder => ["AEAD(", "", ""],
        Operation::Renewed(nonce) => [
            "the first 32 bytes of AEAD(k, ",
            nonce_word(nonce),
            ", nothing, ",
        ],
        Operation::RenewedWith => ["the first 32 bytes of AEAD(k, 2^64 - 1, ", "", ""],
    }
}

// What stands after it.
#[tactic(auto, unfolding(crate::specs::Shown::back_words))]
fn back_words(kind: Kind, operation: Operation) -> [&'static str; 4]
    ensures { map (λ word. word.now) result ≡ back_words kind operation }
{
    match operation {
        Operation::Same | Operation::MixedTwice | Operation::MixedFirst => ["", "", "", ""],
        Operation::DigestBefore(source) => [" + ", source_word(kind, source), ")", ""],
        Operation::CodeUnder(source) => [", ", source_word(kind, source), ")", ""],
        Operation::MixedOutput(_) => ["))", "", "", ""],
        Operation::Expanded(_, expansion, output) => {
            [")", expansion_word(expansion), ", output ", digit(output)]
        }
        Operation::ExpandedBy(source, output) => {
            [", ", source_word(kind, source), "), output ", digit(output)]
        }
        Operation::Derived(derivation, output) => {
            [")", derivation_word(derivation), ", output ", digit(output)]
        }
        Operation::SealedWith => [", text)", "", "", ""],
        Operation::SealedUnder => [", n, h, text)", "", "", ""],
        Operation::RenewedWith => [", 32 zeros)", "", "", ""],
        Operation::ButTag => [" but for the last 16 bytes", "", "", ""],
        Operation::Digest
        | Operation::DigestAfter(_)
        | Operation::Code(_)
        | Operation::Sealed
        | Operation::SealedAlone
        | Operation::Renewed(_) => [")", "", "", ""],
    }
}

#[tactic(auto, unfolding(crate::specs::Shown::nonce_word))]
fn nonce_word(nonce: RekeyNonce) -> &'static str
    ensures { result.now ≡ nonce_word nonce }
{
    match nonce {
        RekeyNonce::Standard => "2^64 - 1",
        RekeyNonce::Signed => "2^63 - 1",
        RekeyNonce::Short => "2^32 - 1",
        RekeyNonce::Zero => "0",
    }
}

/// The standard's name of a value.
#[tactic(auto, unfolding(crate::specs::Shown::value_word))]
pub(crate) fn value_word(value: Value) -> &'static str
    ensures { result.now ≡ value_word value }
{
    match value {
        Value::Bytes => "bytes",
        Value::Hash => "h",
        Value::ChainingKey => "ck",
        Value::Key => "k",
    }
}

#[tactic(auto, unfolding(crate::specs::Shown::taken_word))]
fn taken_word(kind: Kind) -> &'static str
    ensures { result.now ≡ taken_word kind }
{
    match kind {
        Kind::Name => "name",
        Kind::Prologue => "prologue",
        Kind::Data => "public key",
        Kind::Ephemeral => "e",
        Kind::Agreement => "DH result",
        Kind::Secret => "psk",
        Kind::Text => "text",
        _ => "nothing",
    }
}

#[tactic(auto, unfolding(crate::specs::Shown::source_word))]
fn source_word(kind: Kind, source: Source) -> &'static str
    ensures { result.now ≡ source_word kind source }
{
    match source {
        Source::Nothing => "nothing",
        Source::Zeros => "32 zeros",
        Source::Hash => "h",
        Source::ChainingKey => "ck",
        Source::Key => "k",
        Source::RightHash => "right h",
        Source::RightChainingKey => "right ck",
        Source::RightKey => "right k",
        Source::Name => "name",
        Source::Taken => taken_word(kind),
        Source::RightBytes => "right bytes",
        Source::LoggedBytes => "your bytes",
        Source::LoggedHash => "your h",
        Source::LoggedChainingKey => "your ck",
    }
}

// What stands before and after it in a form.
#[tactic(auto, unfolding(crate::specs::Shown::form_words))]
fn form_words(form: Form) -> (&'static str, &'static str)
    ensures { (result.0.now, result.1.now) ≡ form_words form }
{
    match form {
        Form::Plain => ("", ""),
        Form::Reversed => ("reversed(", ")"),
        Form::Digested => ("SHA256(", ")"),
        Form::HexDigits => ("hex digits(", ")"),
        Form::Doubled => ("twice(", ")"),
        Form::WithoutFirst => ("", " without its first byte"),
        Form::WithoutLast => ("", " without its last byte"),
        Form::WithoutTag => ("", " without its last 16 bytes"),
        Form::ZeroInFront => ("a zero byte + ", ""),
        Form::ZeroBehind => ("", " + a zero byte"),
        Form::LineFeedBehind => ("", " + a line feed"),
        Form::TagBehind => ("", " + 16 zero bytes"),
        Form::LengthByte => ("1-byte length + ", ""),
        Form::BigLength2 => ("2-byte big-endian length + ", ""),
        Form::LittleLength2 => ("2-byte little-endian length + ", ""),
        Form::BigLength4 => ("4-byte big-endian length + ", ""),
        Form::LittleLength4 => ("4-byte little-endian length + ", ""),
        Form::BigLength8 => ("8-byte big-endian length + ", ""),
        Form::LittleLength8 => ("8-byte little-endian length + ", ""),
        Form::TypeInFront => ("a byte 05 + ", ""),
        Form::HalfZeroed => ("the first 16 bytes of ", " + 16 zero bytes"),
    }
}

#[tactic(auto, unfolding(crate::specs::Shown::expansion_word))]
fn expansion_word(expansion: Expansion) -> &'static str
    ensures { result.now ≡ expansion_word expansion }
{
    match expansion {
        Expansion::Standard => "",
        Expansion::FromZero => " counted from 0",
        Expansion::Digits => " counted by ASCII digits",
        Expansion::BigCounter => " with a big-endian counter of 4 bytes",
        Expansion::LittleCounter => " with a little-endian counter of 4 bytes",
        Expansion::CounterInFront => " with the counter in front",
        Expansion::NoCounter => " without a counter",
        Expansion::Unchained => " without the output before",
        Expansion::Exchanged => " with key and text of its last HMACs exchanged",
    }
}

#[tactic(auto, unfolding(crate::specs::Shown::derivation_word))]
fn derivation_word(derivation: Derivation) -> &'static str
    ensures { result.now ≡ derivation_word derivation }
{
    match derivation {
        Derivation::DigestFirst => " with SHA256 for its first HMAC",
        Derivation::KeysHashed => " whose HMAC hashes each key",
        Derivation::NameAsInfo => " with the name as info",
        Derivation::ExpandAlone => "",
    }
}

#[tactic(auto, unfolding(crate::specs::Shown::digit))]
fn digit(output: Output) -> &'static str
    ensures { result.now ≡ digit output }
{
    match output {
        Output::First => "1",
        Output::Second => "2",
        Output::Third => "3",
    }
}
