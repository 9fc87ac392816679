//! What is tried in equations: forms, sources and operations, in their order.

use crate::equation::Derivation::{DigestFirst, ExpandAlone, KeysHashed, NameAsInfo};
use crate::equation::Expansion::{
    BigCounter, CounterInFront, Digits, Exchanged, FromZero, LittleCounter, NoCounter, Standard,
    Unchained,
};
use crate::equation::Operation::{
    ButTag, Code, CodeUnder, Derived, Digest, DigestAfter, DigestBefore, Expanded, ExpandedBy,
    MixedFirst, MixedOutput, MixedTwice, Renewed, RenewedWith, Same, Sealed, SealedAlone,
    SealedUnder, SealedWith,
};
use crate::equation::Output::{First, Second, Third};
use crate::equation::Source::{
    ChainingKey, Hash, Key, LoggedBytes, LoggedChainingKey, LoggedHash, Name, Nothing, RightBytes,
    RightChainingKey, RightHash, RightKey, Taken, Zeros,
};
use crate::equation::{Form, Operation, RekeyNonce, Source};

#[rattlefmt::skip]
pub(crate) static FORMS: [Form; 20] = [
    Form::Reversed, Form::Digested, Form::HexDigits, Form::Doubled, Form::WithoutFirst,
    Form::WithoutLast, Form::WithoutTag, Form::ZeroInFront, Form::ZeroBehind, Form::LineFeedBehind,
    Form::TagBehind, Form::LengthByte, Form::BigLength2, Form::LittleLength2, Form::BigLength4,
    Form::LittleLength4, Form::BigLength8, Form::LittleLength8, Form::TypeInFront, Form::HalfZeroed,
];

#[rattlefmt::skip]
pub(crate) static OF_BYTES: [Source; 10] = [
    Nothing, Zeros, Hash, ChainingKey, Key, RightHash, RightChainingKey, Name, Taken, RightBytes,
];

#[rattlefmt::skip]
pub(crate) static OF_HASH: [Source; 10] = [
    Nothing, Zeros, Hash, ChainingKey, Key, RightHash, RightChainingKey, Name, Taken, LoggedBytes,
];

#[rattlefmt::skip]
pub(crate) static OF_CHAINING_KEY: [Source; 10] = [
    Nothing, Zeros, Hash, ChainingKey, Key, RightHash, RightChainingKey, Name, Taken, LoggedHash,
];

#[rattlefmt::skip]
pub(crate) static OF_KEY: [Source; 11] = [
    Nothing, Zeros, Hash, ChainingKey, Key, RightHash, RightChainingKey, Name, Taken, LoggedHash,
    LoggedChainingKey,
];

pub(crate) static FORMED_OF_BYTES: [Source; 2] = [Taken, RightBytes];

pub(crate) static FORMED_OF_HASH: [Source; 2] = [Taken, LoggedBytes];

pub(crate) static FORMED_OF_CHAINING_KEY: [Source; 1] = [Taken];

pub(crate) static FORMED_OF_KEY: [Source; 2] = [Taken, RightKey];

pub(crate) static ON_BYTES: [Operation; 2] = [Same, Sealed];

pub(crate) static OTHER_ON_BYTES: [Operation; 4] = [ButTag, SealedAlone, SealedWith, SealedUnder];

pub(crate) static ON_HASH: [Operation; 3] = [Same, Digest, DigestAfter(Hash)];

#[rattlefmt::skip]
pub(crate) static OTHER_ON_HASH: [Operation; 10] = [
    DigestBefore(Hash), DigestAfter(ChainingKey), DigestAfter(RightHash), MixedTwice, MixedFirst,
    MixedOutput(First), MixedOutput(Second), MixedOutput(Third), Code(Hash), CodeUnder(Hash),
];

#[rattlefmt::skip]
pub(crate) static ON_KEYS: [Operation; 5] = [
    Same, Digest, Expanded(ChainingKey, Standard, First), Expanded(ChainingKey, Standard, Second),
    Expanded(ChainingKey, Standard, Third),
];

#[rattlefmt::skip]
pub(crate) static OTHER_ON_KEYS: [Operation; 66] = [
    DigestAfter(ChainingKey), DigestBefore(ChainingKey), Code(ChainingKey), CodeUnder(ChainingKey),
    Expanded(Nothing, Standard, First), Expanded(Nothing, Standard, Second),
    Expanded(Nothing, Standard, Third), Expanded(Hash, Standard, First),
    Expanded(Hash, Standard, Second), Expanded(Hash, Standard, Third),
    Expanded(Key, Standard, First), Expanded(Key, Standard, Second), Expanded(Key, Standard, Third),
    Expanded(RightChainingKey, Standard, First), Expanded(RightChainingKey, Standard, Second),
    Expanded(RightChainingKey, Standard, Third), ExpandedBy(Nothing, First),
    ExpandedBy(Nothing, Second), ExpandedBy(Nothing, Third), ExpandedBy(ChainingKey, First),
    ExpandedBy(ChainingKey, Second), ExpandedBy(ChainingKey, Third), ExpandedBy(Hash, First),
    ExpandedBy(Hash, Second), ExpandedBy(Hash, Third), Expanded(ChainingKey, FromZero, First),
    Expanded(ChainingKey, FromZero, Second), Expanded(ChainingKey, FromZero, Third),
    Expanded(ChainingKey, Digits, First), Expanded(ChainingKey, Digits, Second),
    Expanded(ChainingKey, Digits, Third), Expanded(ChainingKey, BigCounter, First),
    Expanded(ChainingKey, BigCounter, Second), Expanded(ChainingKey, BigCounter, Third),
    Expanded(ChainingKey, LittleCounter, First), Expanded(ChainingKey, LittleCounter, Second),
    Expanded(ChainingKey, LittleCounter, Third), Expanded(ChainingKey, CounterInFront, First),
    Expanded(ChainingKey, CounterInFront, Second), Expanded(ChainingKey, CounterInFront, Third),
    Expanded(ChainingKey, NoCounter, First), Expanded(ChainingKey, NoCounter, Second),
    Expanded(ChainingKey, NoCounter, Third), Expanded(ChainingKey, Unchained, First),
    Expanded(ChainingKey, Unchained, Second), Expanded(ChainingKey, Unchained, Third),
    Expanded(ChainingKey, Exchanged, First), Expanded(ChainingKey, Exchanged, Second),
    Expanded(ChainingKey, Exchanged, Third), Derived(DigestFirst, First),
    Derived(DigestFirst, Second), Derived(DigestFirst, Third), Derived(KeysHashed, First),
    Derived(KeysHashed, Second), Derived(KeysHashed, Third), Derived(NameAsInfo, First),
    Derived(NameAsInfo, Second), Derived(NameAsInfo, Third), Derived(ExpandAlone, First),
    Derived(ExpandAlone, Second), Derived(ExpandAlone, Third), Renewed(RekeyNonce::Standard),
    Renewed(RekeyNonce::Signed), Renewed(RekeyNonce::Short), Renewed(RekeyNonce::Zero), RenewedWith,
];
