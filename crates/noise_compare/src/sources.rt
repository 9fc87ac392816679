//! What an operation of an equation takes.

ghost use Rattle.std.specs.Prelude.{◌≡◌, ◌++◌, None, Some, IfOk, drop, if◌then◌else◌, option_copied, replicate, reverse, take};
ghost use Rattle.noise_compare.specs.Values.{items_of};
ghost use Rattle.noise_compare.specs.Holding.{has_after, has_before, in_form, is_after_name, logged_value, source_bytes, taken};

use crate::equation::{Form, Source, Value};
use crate::state::{Kind, Logged, Situation};
use crate::texts::without_tag;
use crate::values::is_text;
use sha2::{Digest, Sha256};
use std::alloc::{AllocError, Global};

static ZEROS: [u8; 32] = [0; 32];

/// The value of a source, if the step has it.
#[tactic(auto, unfolding(crate::specs::Holding::source_bytes))]
pub(crate) fn source_bytes<'a>(
    source: Source,
    at: &'a Situation<'_>,
    logged: &'a Logged,
) -> Option<&'a [u8]>
    ensures { option_copied result ≡ source_bytes source at.now logged.now }
{
    match source {
        Source::Nothing => when(true, &[]),
        Source::Zeros => when(true, &ZEROS),
        Source::Hash => when(has_before(at.kind), &at.before.hash),
        Source::ChainingKey => when(has_before(at.kind), &at.before.chaining_key),
        Source::Key if is_after_name(at.kind) => key_bytes(&at.before.key),
        Source::Key => None,
        Source::RightHash => when(has_after(at.kind), &at.right.hash),
        Source::RightChainingKey => when(has_after(at.kind), &at.right.chaining_key),
        Source::RightKey => key_bytes(&at.right.key),
        Source::Name => when(is_after_name(at.kind), at.name),
        Source::Taken => taken(at.kind, at),
        Source::RightBytes => when(is_text(at.kind), at.bytes),
        Source::LoggedBytes => bytes_of(&logged.bytes),
        Source::LoggedHash => bytes_of(&logged.hash),
        Source::LoggedChainingKey => bytes_of(&logged.chaining_key),
    }
}

fn when<'a>(is: bool, bytes: &'a [u8]) -> Option<&'a [u8]>
    ensures { option_copied result ≡ (if is then Some bytes.now else None) }
{
    if is { Some(bytes) } else { None }
}

fn bytes_of<'a>(value: &'a Option<Vec<u8>>) -> Option<&'a [u8]>
    ensures { option_copied result ≡ items_of value.now }
{
    match value {
        Some(bytes) => Some(bytes.as_slice()),
        None => None,
    }
}

fn key_bytes<'a>(key: &'a Option<[u8; 32]>) -> Option<&'a [u8]>
    ensures { option_copied result ≡ key.now }
{
    match key {
        Some(key) => when(true, key),
        None => None,
    }
}

#[tactic(auto, unfolding(crate::specs::Holding::taken))]
fn taken<'a>(kind: Kind, at: &'a Situation<'_>) -> Option<&'a [u8]>
    ensures { option_copied result ≡ taken kind at.now }
{
    match kind {
        Kind::Name => Some(at.name),
        Kind::Prologue | Kind::Data | Kind::Ephemeral => Some(at.data),
        Kind::Agreement | Kind::Secret => when(true, &at.secret),
        Kind::Text => Some(at.text),
        Kind::Opening | Kind::Rekeyed | Kind::Transport => None,
    }
}

#[tactic(auto, unfolding(crate::specs::Holding::has_before))]
pub(crate) fn has_before(kind: Kind) -> bool
    ensures { result ≡ has_before kind }
{
    !matches!(kind, Kind::Name | Kind::Rekeyed | Kind::Transport)
}

#[tactic(auto, unfolding(crate::specs::Holding::has_after))]
fn has_after(kind: Kind) -> bool
    ensures { result ≡ has_after kind }
{
    !matches!(kind, Kind::Opening | Kind::Rekeyed | Kind::Transport)
}

#[tactic(auto, unfolding(crate::specs::Holding::is_after_name))]
fn is_after_name(kind: Kind) -> bool
    ensures { result ≡ is_after_name kind }
{
    !matches!(kind, Kind::Name)
}

/// The logged value of this kind.
#[tactic(auto, unfolding(crate::specs::Holding::logged_value))]
pub(crate) fn logged_value(value: Value, logged: &Logged) -> Option<&[u8]>
    ensures { option_copied result ≡ logged_value value logged.now }
{
    match value {
        Value::Bytes => bytes_of(&logged.bytes),
        Value::Hash => bytes_of(&logged.hash),
        Value::ChainingKey => bytes_of(&logged.chaining_key),
        Value::Key => bytes_of(&logged.key),
    }
}

/// Bytes in a form.
#[tactic(auto, unfolding(crate::specs::Holding::in_form))]
pub(crate) fn in_form(alloc: Global, form: Form, bytes: &[u8]) -> Result<Vec<u8>, AllocError>
    ensures { IfOk result (λ v. v.items ≡ in_form form bytes.now) }
{
    let big = (bytes.len() as u64).to_be_bytes();
    let little = (bytes.len() as u64).to_le_bytes();
    match form {
        Form::Plain => Vec::from_slice(alloc, bytes),
        Form::Reversed => reversed(alloc, bytes),
        Form::Digested => {
            let digest: [u8; 32] = Sha256::digest(bytes);
            Vec::from_slice(alloc, &digest)
        }
        Form::HexDigits => Ok(hex::encode(alloc, bytes)?.into_bytes()),
        Form::Doubled => joined(alloc, bytes, bytes),
        Form::WithoutFirst => bytes_from(alloc, bytes, 1),
        Form::WithoutLast => Vec::from_slice(alloc, &bytes[..bytes.len().saturating_sub(1)]),
        Form::WithoutTag => Vec::from_slice(alloc, without_tag(bytes)),
        Form::ZeroInFront => joined(alloc, &[0], bytes),
        Form::ZeroBehind => joined(alloc, bytes, &[0]),
        Form::LineFeedBehind => joined(alloc, bytes, &[10]),
        Form::TagBehind => joined(alloc, bytes, &[0; 16]),
        Form::LengthByte => joined(alloc, &little[..1], bytes),
        Form::BigLength2 => joined(alloc, &big[6..], bytes),
        Form::LittleLength2 => joined(alloc, &little[..2], bytes),
        Form::BigLength4 => joined(alloc, &big[4..], bytes),
        Form::LittleLength4 => joined(alloc, &little[..4], bytes),
        Form::BigLength8 => joined(alloc, &big, bytes),
        Form::LittleLength8 => joined(alloc, &little, bytes),
        Form::TypeInFront => joined(alloc, &[5], bytes),
        Form::HalfZeroed => half_zeroed(alloc, bytes),
    }
}

fn reversed(alloc: Global, bytes: &[u8]) -> Result<Vec<u8>, AllocError>
    ensures { IfOk result (λ v. v.items ≡ reverse bytes.now) }
{
    let mut reversed = Vec::from_slice(alloc, bytes)?;
    reversed.reverse();
    Ok(reversed)
}

/// The bytes from this place on.
pub(crate) fn bytes_from(alloc: Global, bytes: &[u8], from: usize) -> Result<Vec<u8>, AllocError>
    ensures { IfOk result (λ v. v.items ≡ drop from bytes.now) }
{
    bytes.iter().skip(from).copied().collect(alloc)
}

fn half_zeroed(alloc: Global, bytes: &[u8]) -> Result<Vec<u8>, AllocError>
    ensures { IfOk result (λ v. v.items ≡ take 16 bytes.now ++ replicate 16 0) }
{
    let mut half = Vec::from_slice(alloc, bytes)?;
    half.truncate(16);
    half.extend_from_slice(&[0; 16])?;
    Ok(half)
}

pub(crate) fn joined(alloc: Global, first: &[u8], second: &[u8]) -> Result<Vec<u8>, AllocError>
    ensures { IfOk result (λ v. v.items ≡ first.now ++ second.now) }
{
    let mut bytes = Vec::from_slice(alloc, first)?;
    bytes.extend_from_slice(second)?;
    Ok(bytes)
}
