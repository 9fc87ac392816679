//! The equations that are tried.

ghost use Rattle.std.specs.Prelude.{◌≡◌, ◌++◌, IfOk, OnOk, map};
ghost use Rattle.noise_compare.specs.Equations.{equations, formed, formed_sources, inputs, operations, other_operations, paired, pairs, plain_input, plain_inputs, sources};

use crate::equation_tables::{
    FORMED_OF_BYTES, FORMED_OF_CHAINING_KEY, FORMED_OF_HASH, FORMED_OF_KEY, FORMS, OF_BYTES,
    OF_CHAINING_KEY, OF_HASH, OF_KEY, ON_BYTES, ON_HASH, ON_KEYS, OTHER_ON_BYTES, OTHER_ON_HASH,
    OTHER_ON_KEYS,
};
use std::alloc::{AllocError, Global};

/// A value of a logged line.
#[derive(Clone, Copy)]
pub enum Value {
    Bytes,
    Hash,
    ChainingKey,
    Key,
}

/// What an operation may take.
#[derive(Clone, Copy)]
pub enum Source {
    /// No bytes.
    Nothing,
    /// 32 zero bytes.
    Zeros,
    /// The hash before the step.
    Hash,
    /// The chaining key before the step.
    ChainingKey,
    /// The key before the step.
    Key,
    /// The right hash after the step.
    RightHash,
    /// The right chaining key after the step.
    RightChainingKey,
    /// The right key after the step.
    RightKey,
    /// The protocol name.
    Name,
    /// What the step takes: a prologue, a public key, a DH result, a psk, or the text of `s` or of a payload.
    Taken,
    /// The right bytes of a text.
    RightBytes,
    /// The logged bytes.
    LoggedBytes,
    /// The logged hash.
    LoggedHash,
    /// The logged chaining key.
    LoggedChainingKey,
}

/// A form of what an operation takes.
#[derive(Clone, Copy)]
pub enum Form {
    /// As it is.
    Plain,
    Reversed,
    /// SHA256 of it.
    Digested,
    /// Its hex digits as text.
    HexDigits,
    /// Twice in a row.
    Doubled,
    /// Without its first byte.
    WithoutFirst,
    /// Without its last byte.
    WithoutLast,
    /// Without its last 16 bytes.
    WithoutTag,
    /// A zero byte in front.
    ZeroInFront,
    /// A zero byte behind it.
    ZeroBehind,
    /// A line feed behind it.
    LineFeedBehind,
    /// 16 zero bytes behind it.
    TagBehind,
    /// Its length in 1 byte in front.
    LengthByte,
    /// Its length in 2 bytes in front.
    BigLength2,
    LittleLength2,
    /// Its length in 4 bytes in front.
    BigLength4,
    LittleLength4,
    /// Its length in 8 bytes in front.
    BigLength8,
    LittleLength8,
    /// A byte 05 in front: the type byte of a public key in 33 bytes, as of Signal.
    TypeInFront,
    /// Its first 16 bytes, and 16 zeros.
    HalfZeroed,
}

/// What an operation takes, in a form.
#[derive(Clone, Copy)]
pub struct Input {
    pub form: Form,
    pub source: Source,
}

/// How HKDF makes its outputs of its temporary key.
#[derive(Clone, Copy)]
pub enum Expansion {
    /// As in 4.3.
    Standard,
    /// The counter begins at 0.
    FromZero,
    /// The counter is an ASCII digit.
    Digits,
    /// The counter has 4 bytes, the greatest first.
    BigCounter,
    /// The counter has 4 bytes, the least first.
    LittleCounter,
    /// The counter is in front of the output before.
    CounterInFront,
    /// There is no counter.
    NoCounter,
    /// No output takes the one before it.
    Unchained,
    /// HMAC's key and text are exchanged.
    Exchanged,
}

/// An output of HKDF.
#[derive(Clone, Copy)]
pub enum Output {
    First,
    Second,
    Third,
}

/// HKDF of the chaining key and an input, with another temporary key, or with an info (RFC 5869).
#[derive(Clone, Copy)]
pub enum Derivation {
    /// The temporary key is SHA256 of both.
    DigestFirst,
    /// HMAC hashes each of its keys first.
    KeysHashed,
    /// The protocol name is the info.
    NameAsInfo,
    /// The temporary key is the chaining key, and the input is the info.
    ExpandAlone,
}

/// The nonce of Rekey.
#[derive(Clone, Copy)]
pub enum RekeyNonce {
    /// 2^64 - 1, as in 4.2.
    Standard,
    /// 2^63 - 1.
    Signed,
    /// 2^32 - 1.
    Short,
    Zero,
}

/// What is done with an input.
#[derive(Clone, Copy)]
pub enum Operation {
    /// Nothing.
    Same,
    /// SHA256 of it.
    Digest,
    /// SHA256 of another value and it.
    DigestAfter(Source),
    /// SHA256 of it and another value.
    DigestBefore(Source),
    /// MixHash of it, and again.
    MixedTwice,
    /// MixHash of it, and then of what is right.
    MixedFirst,
    /// MixHash of an output of HKDF of it.
    MixedOutput(Output),
    /// HMAC of it under another value.
    Code(Source),
    /// HMAC of another value under it.
    CodeUnder(Source),
    /// An output of HKDF of another value and it.
    Expanded(Source, Expansion, Output),
    /// An output of HKDF of it and another value.
    ExpandedBy(Source, Output),
    /// An output of HKDF in another way.
    Derived(Derivation, Output),
    /// It is encrypted.
    Sealed,
    /// It is encrypted without associated data.
    SealedAlone,
    /// The text is encrypted with it as the associated data.
    SealedWith,
    /// The text is encrypted under it.
    SealedUnder,
    /// Rekey by a nonce, with it as the text.
    Renewed(RekeyNonce),
    /// Rekey, with it as the associated data.
    RenewedWith,
    /// It, but for the last 16 bytes.
    ButTag,
}

/// That a value is what an operation gives of an input.
#[derive(Clone, Copy)]
pub struct Equation {
    pub value: Value,
    pub operation: Operation,
    pub input: Input,
}

/// All equations of a value that are tried.
#[tactic(auto, unfolding(crate::specs::Equations::equations))]
pub fn equations(alloc: Global, value: Value) -> Result<Vec<Equation>, AllocError>
    ensures { IfOk result (λ e. e.items ≡ equations value) }
{
    let all = inputs(alloc, value)?;
    let plain = plain_inputs(alloc, value)?;
    let mut equations = Vec::new(alloc);
    push_pairs(value, operations(value), &all, &mut equations)?;
    push_pairs(value, other_operations(value), &plain, &mut equations)?;
    Ok(equations)
}

// Appends the equations of each of these operations and each of these inputs.
fn push_pairs(
    value: Value,
    operations: &[Operation],
    inputs: &[Input],
    equations: &mut Vec<Equation>,
) -> Result<(), AllocError>
    ensures { OnOk result (equations.new.items ≡ equations.old.items ++ pairs value operations.now inputs.now) }
{
    for operation in operations {
        push_paired(value, *operation, inputs, equations)?;
    }
    Ok(())
}

fn push_paired(
    value: Value,
    operation: Operation,
    inputs: &[Input],
    equations: &mut Vec<Equation>,
) -> Result<(), AllocError>
    ensures { OnOk result (equations.new.items ≡ equations.old.items ++ map (paired value operation) inputs.now) }
{
    for input in inputs {
        equations.push(Equation {
            value,
            operation,
            input: *input,
        })?;
    }
    Ok(())
}

// Each source as it is, and then some in each other form.
fn inputs(alloc: Global, value: Value) -> Result<Vec<Input>, AllocError>
    ensures { IfOk result (λ v. v.items ≡ inputs value) }
{
    let mut inputs = plain_inputs(alloc, value)?;
    for source in formed_sources(value) {
        push_formed(*source, &mut inputs)?;
    }
    Ok(inputs)
}

fn push_formed(source: Source, inputs: &mut Vec<Input>) -> Result<(), AllocError>
    ensures { OnOk result (inputs.new.items ≡ inputs.old.items ++ formed source) }
{
    for form in forms() {
        inputs.push(Input {
            form: *form,
            source,
        })?;
    }
    Ok(())
}

fn plain_inputs(alloc: Global, value: Value) -> Result<Vec<Input>, AllocError>
    ensures { IfOk result (λ v. v.items ≡ plain_inputs value) }
{
    sources(value)
        .iter()
        .map(|source| plain_input(*source))
        .collect(alloc)
}

fn plain_input(source: Source) -> Input
    ensures { result ≡ plain_input source }
{
    Input {
        form: Form::Plain,
        source,
    }
}

// ---- the tables of each value

fn forms() -> &'static [Form]
    ensures { result.now ≡ FORMS }
{
    &FORMS
}

#[tactic(auto, unfolding(crate::specs::Equations::sources))]
fn sources(value: Value) -> &'static [Source]
    ensures { result.now ≡ sources value }
{
    match value {
        Value::Bytes => &OF_BYTES,
        Value::Hash => &OF_HASH,
        Value::ChainingKey => &OF_CHAINING_KEY,
        Value::Key => &OF_KEY,
    }
}

#[tactic(auto, unfolding(crate::specs::Equations::formed_sources))]
fn formed_sources(value: Value) -> &'static [Source]
    ensures { result.now ≡ formed_sources value }
{
    match value {
        Value::Bytes => &FORMED_OF_BYTES,
        Value::Hash => &FORMED_OF_HASH,
        Value::ChainingKey => &FORMED_OF_CHAINING_KEY,
        Value::Key => &FORMED_OF_KEY,
    }
}

#[tactic(auto, unfolding(crate::specs::Equations::operations))]
fn operations(value: Value) -> &'static [Operation]
    ensures { result.now ≡ operations value }
{
    match value {
        Value::Bytes => &ON_BYTES,
        Value::Hash => &ON_HASH,
        Value::ChainingKey | Value::Key => &ON_KEYS,
    }
}

#[tactic(auto, unfolding(crate::specs::Equations::other_operations))]
fn other_operations(value: Value) -> &'static [Operation]
    ensures { result.now ≡ other_operations value }
{
    match value {
        Value::Bytes => &OTHER_ON_BYTES,
        Value::Hash => &OTHER_ON_HASH,
        Value::ChainingKey | Value::Key => &OTHER_ON_KEYS,
    }
}
