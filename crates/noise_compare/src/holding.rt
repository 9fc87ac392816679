//! Whether an equation holds of what was logged.

ghost use Rattle.std.specs.Prelude.{◌≡◌, IfOk, option_copied, take};
ghost use Rattle.noise_aead.specs.Sealing.{nonce_of};
ghost use Rattle.noise_compare.specs.Holding.{digest_by, found_equations, gives, holds, is_but_tag, is_made, is_renewed, is_sealed, is_value_right, key_of, other_source, rekey_number, sealed_if_short};
ghost use Rattle.noise_compare.specs.Values.{items_of};

use crate::equation::{Equation, Expansion, Operation, RekeyNonce, Source, Value, equations};
use crate::expansion::{code_of, info_of, output_of, temporary_of};
use crate::mixing::mixed;
use crate::sources::{in_form, logged_value, source_bytes};
use crate::state::{Logged, Situation, has, key_fits};
use crate::texts::{sealed_by, without_tag};
use sha2::{Digest, Sha256};
use std::alloc::{AllocError, Global};

/// The equations of a value that hold of what was logged, of those that are tried, in their order.
pub(crate) fn found_equations(
    alloc: Global,
    value: Value,
    at: &Situation<'_>,
    logged: &Logged,
) -> Result<Vec<Equation>, AllocError>
    ensures { IfOk result (λ found. found.items ≡ found_equations value at.now logged.now) }
{
    let tried = equations(alloc, value)?;
    let mut found = Vec::new(alloc);
    for equation in &tried {
        if holds(alloc, *equation, at, logged)? {
            found.push(*equation)?;
        }
    }
    Ok(found)
}

/// Whether a value is right, or wasn't logged.
#[tactic(auto, unfolding(crate::specs::Holding::is_value_right))]
pub(crate) fn is_value_right(value: Value, at: &Situation<'_>, logged: &Logged) -> bool
    ensures { result ≡ is_value_right value at.now logged.now }
{
    match value {
        Value::Bytes => has(&logged.bytes, at.bytes),
        Value::Hash => has(&logged.hash, &at.right.hash),
        Value::ChainingKey => has(&logged.chaining_key, &at.right.chaining_key),
        Value::Key => key_fits(&logged.key, &at.right.key),
    }
}

// Whether the operation of an equation gives the logged value of its source in its form.
#[tactic(auto, unfolding(crate::specs::Holding::holds))]
fn holds(
    alloc: Global,
    equation: Equation,
    at: &Situation<'_>,
    logged: &Logged,
) -> Result<bool, AllocError>
    ensures { IfOk result (λ b. b ≡ holds equation at.now logged.now) }
{
    let Some(value) = logged_value(equation.value, logged) else {
        return Ok(false);
    };
    let Some(bytes) = source_bytes(equation.input.source, at, logged) else {
        return Ok(false);
    };
    if bytes.len() > 65535 {
        return Ok(false);
    }
    let input = in_form(alloc, equation.input.form, bytes)?;
    gives(alloc, equation.operation, at, logged, &input, value)
}

// Whether an operation gives this value of an input.
#[tactic(auto, unfolding(crate::specs::Holding::gives))]
fn gives(
    alloc: Global,
    operation: Operation,
    at: &Situation<'_>,
    logged: &Logged,
    input: &[u8],
    value: &[u8],
) -> Result<bool, AllocError>
    ensures { IfOk result (λ b. b ≡ gives operation at.now logged.now input.now value.now) }
{
    let (key, n, hash) = (&at.before.key, at.before.nonce, &at.before.hash);
    match operation {
        Operation::Same => Ok(value == input),
        Operation::ButTag => Ok(is_but_tag(input, value)),
        Operation::Sealed => is_sealed(alloc, key, n, hash, input, value),
        Operation::SealedAlone => is_sealed(alloc, key, n, &[], input, value),
        Operation::SealedWith => is_sealed(alloc, key, n, input, at.text, value),
        Operation::SealedUnder => is_sealed(alloc, &key_of(input), n, hash, at.text, value),
        Operation::Renewed(number) => is_renewed(alloc, number, key, &[], input, value),
        Operation::RenewedWith => {
            is_renewed(alloc, RekeyNonce::Standard, key, input, &[0; 32], value)
        }
        _ => {
            let other = source_bytes(other_source(operation), at, logged);
            is_digest(alloc, operation, at, other, input, value)
        }
    }
}

// What an operation takes besides its input.
#[tactic(auto, unfolding(crate::specs::Holding::other_source))]
fn other_source(operation: Operation) -> Source
    ensures { result ≡ other_source operation }
{
    match operation {
        Operation::DigestAfter(source)
        | Operation::DigestBefore(source)
        | Operation::Code(source)
        | Operation::CodeUnder(source)
        | Operation::Expanded(source, _, _)
        | Operation::ExpandedBy(source, _) => source,
        Operation::MixedTwice | Operation::MixedFirst | Operation::MixedOutput(_) => Source::Hash,
        Operation::Derived(_, _) => Source::ChainingKey,
        _ => Source::Nothing,
    }
}

// Whether a value is what an operation gives of an input and of this, if it is there.
fn is_digest(
    alloc: Global,
    operation: Operation,
    at: &Situation<'_>,
    other: Option<&[u8]>,
    input: &[u8],
    value: &[u8],
) -> Result<bool, AllocError>
    ensures { IfOk result (λ b. b ≡ is_made (option_copied other.entry)
        (λ other. digest_by operation at.now other input.now) value.now) }
{
    match other {
        None => Ok(false),
        Some(other) => {
            let digest = digest_by(alloc, operation, at, other, input)?;
            Ok(value == digest.as_slice())
        }
    }
}

// The 32 bytes that an operation gives of an input and another value.
#[tactic(auto, unfolding(crate::specs::Holding::digest_by))]
fn digest_by(
    alloc: Global,
    operation: Operation,
    at: &Situation<'_>,
    other: &[u8],
    input: &[u8],
) -> Result<[u8; 32], AllocError>
    ensures { IfOk result (λ digest. digest ≡ digest_by operation at.now other.now input.now) }
{
    match operation {
        Operation::DigestAfter(_) => Ok(mixed(other, input)),
        Operation::DigestBefore(_) => Ok(mixed(input, other)),
        Operation::MixedTwice => Ok(mixed(&mixed(other, input), input)),
        Operation::MixedFirst => Ok(mixed(&mixed(other, input), at.data)),
        Operation::MixedOutput(output) => {
            let temporary = code_of(&at.before.chaining_key, input);
            let made = output_of(alloc, Expansion::Standard, &temporary, &[], output)?;
            Ok(mixed(other, &made))
        }
        Operation::Code(_) => Ok(code_of(other, input)),
        Operation::CodeUnder(_) => Ok(code_of(input, other)),
        Operation::Expanded(_, expansion, output) => {
            output_of(alloc, expansion, &code_of(other, input), &[], output)
        }
        Operation::ExpandedBy(_, output) => {
            let temporary = code_of(input, other);
            output_of(alloc, Expansion::Standard, &temporary, &[], output)
        }
        Operation::Derived(derivation, output) => {
            let temporary = temporary_of(derivation, &at.before.chaining_key, input);
            let info = info_of(derivation, at.name, input);
            output_of(alloc, Expansion::Standard, &temporary, info, output)
        }
        _ => Ok(Sha256::digest(input)),
    }
}

fn key_of(input: &[u8]) -> Option<[u8; 32]>
    ensures { result ≡ key_of input.now }
{
    if input.len() != 32 {
        return None;
    }
    let mut key = [0; 32];
    key.copy_from_slice(input);
    Some(key)
}

// Whether a value is a text that is encrypted.
fn is_sealed(
    alloc: Global,
    key: &Option<[u8; 32]>,
    number: u64,
    ad: &[u8],
    text: &[u8],
    value: &[u8],
) -> Result<bool, AllocError>
    ensures { IfOk result (λ b. b ≡ is_sealed key.now (nonce_of number) ad.now text.now value.now) }
{
    match sealed_if_short(alloc, key, number, ad, text)? {
        Some(sealed) => Ok(value == sealed.as_slice()),
        None => Ok(false),
    }
}

// Whether a value is the first 32 bytes of a text that is encrypted as by Rekey.
fn is_renewed(
    alloc: Global,
    number: RekeyNonce,
    key: &Option<[u8; 32]>,
    ad: &[u8],
    text: &[u8],
    value: &[u8],
) -> Result<bool, AllocError>
    ensures { IfOk result (λ b. b ≡ is_renewed number key.now ad.now text.now value.now) }
{
    let sealed = sealed_if_short(alloc, key, rekey_number(number), ad, text)?;
    Ok(is_front(sealed, value))
}

fn is_front(sealed: Option<Vec<u8>>, value: &[u8]) -> bool
    ensures { result ≡ is_made (items_of sealed) (λ sealed. take 32 sealed) value.now }
{
    match sealed {
        Some(mut sealed) => {
            sealed.truncate(32);
            value == sealed.as_slice()
        }
        None => false,
    }
}

#[tactic(auto, unfolding(crate::specs::Holding::rekey_number))]
fn rekey_number(number: RekeyNonce) -> u64
    ensures { result ≡ rekey_number number }
{
    match number {
        RekeyNonce::Standard => u64::MAX,
        RekeyNonce::Signed => 0x7fff_ffff_ffff_ffff,
        RekeyNonce::Short => 0xffff_ffff,
        RekeyNonce::Zero => 0,
    }
}

// A text that is encrypted, if there is a key, and both have at most 65535 bytes.
fn sealed_if_short(
    alloc: Global,
    key: &Option<[u8; 32]>,
    number: u64,
    ad: &[u8],
    text: &[u8],
) -> Result<Option<Vec<u8>>, AllocError>
    ensures { IfOk result (λ v. items_of v ≡ sealed_if_short key.now (nonce_of number) ad.now text.now) }
{
    if key.is_none() || 65535 < ad.len() || 65535 < text.len() {
        return Ok(None);
    }
    Ok(Some(sealed_by(alloc, key, number, ad, text)?))
}

fn is_but_tag(input: &[u8], value: &[u8]) -> bool
    ensures { result ≡ is_but_tag input.now value.now }
{
    16 <= value.len() && input.len() == value.len() && without_tag(input) == without_tag(value)
}
