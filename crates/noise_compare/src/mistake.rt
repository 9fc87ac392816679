//! The mistakes that are tried: `mistake_tables.rt` says of each what it is, and what is right.

/// A mistake at the start with the protocol name.
#[derive(Clone, Copy)]
pub enum NameMistake {
    Hashed,
    Padded,
    LowerCase,
    ChainingKeyOfZeros,
}

/// A mistake of a step that calls MixHash on data.
#[derive(Clone, Copy)]
pub enum HashMistake {
    LeftOut,
    LengthInFront,
    LengthMixed,
    DataFirst,
    KeyLeftOut,
    KeyMixed,
    OtherKey,
    HexDigits,
    StepsLeftOut,
}

/// A mistake of a step that mixes a secret: a DH result or a psk.
#[derive(Clone, Copy)]
pub enum SecretMistake {
    InputsExchanged,
    OutputsExchanged,
    Reversed,
    Digested,
    CountedFromZero,
    Unchained,
    ShortBlocks,
    ChainingKeyKept,
    NonceKept,
    NonceFromOne,
    LeftOut,
    HashedToo,
    KeyAlone,
    HashLeftOut,
    Other,
    StepsLeftOut,
}

/// A mistake of `s` or of a payload.
#[derive(Clone, Copy)]
pub enum TextMistake {
    Clear,
    OtherKey,
    TagLeftOff,
    TagAdded,
    TagInFront,
    BigEndian,
    FirstBytes,
    BigEndianFirstBytes,
    NonceFromOne,
    NonceOfZero,
    NoAssociatedData,
    ChainingKeyAsData,
    EarlierHash,
    LaterHash,
    TextHashedBefore,
    HashLeftOut,
    TextHashed,
    TagNotHashed,
    LengthHashed,
    LengthMixed,
    NonceKept,
    NonceRaised,
    StepsLeftOut,
}

/// A mistake of a key of the transport.
#[derive(Clone, Copy)]
pub enum KeyMistake {
    SplitLater,
    SplitOfHash,
    SplitOfZeros,
    SplitInputs,
    Exchanged,
    NonceFromOne,
    EarlierHash,
    NonceRaised,
    NonceSetBack,
    RekeyLater,
    RekeyLeftOut,
    RekeyByNonce,
    RekeyByZero,
    RekeyByOnes,
    RekeyLastBytes,
}

/// A mistake.
#[derive(Clone, Copy)]
pub enum Mistake {
    Name(NameMistake),
    Hash(HashMistake),
    Secret(SecretMistake),
    Text(TextMistake),
    Key(KeyMistake),
}
