//! The mistakes that are tried, and what is said of each: what it is, and what is right, with the section of the standard.

use crate::mistake::{HashMistake, KeyMistake, Mistake, NameMistake, SecretMistake, TextMistake};

/// A mistake, and what is said of it.
pub(crate) type Row = (Mistake, &'static str);

// ---- those of several steps

const LENGTH_IN_FRONT_TEXT: &str =
    "MixHash takes a length in front: a length is no part of what is hashed (5.2, 13)";

const LENGTH_MIXED_TEXT: &str =
    "a MixHash of its own takes a length: a length is no part of what is hashed (5.2, 13)";

const STEPS_LEFT_OUT_TEXT: &str =
    "the steps for which your log has no line here are left out, or come later";

const HASH_LEFT_OUT: Row = (
    Mistake::Hash(HashMistake::LeftOut),
    "MixHash is left out: it is called at this step, for no bytes too (5.3)",
);

const LENGTH_IN_FRONT: Row = (
    Mistake::Hash(HashMistake::LengthInFront),
    LENGTH_IN_FRONT_TEXT,
);

const LENGTH_MIXED: Row = (Mistake::Hash(HashMistake::LengthMixed), LENGTH_MIXED_TEXT);

const DATA_FIRST: Row = (
    Mistake::Hash(HashMistake::DataFirst),
    "MixHash takes the bytes before h: h comes first (5.2)",
);

const HASH_STEPS_LEFT_OUT: Row = (
    Mistake::Hash(HashMistake::StepsLeftOut),
    STEPS_LEFT_OUT_TEXT,
);

const OTHER_KEY: Row = (
    Mistake::Hash(HashMistake::OtherKey),
    "MixHash takes another public key of the file: both parties hash the e that is sent, and at \
    responder-s the responder's (5.3)",
);

const INPUTS_EXCHANGED: Row = (
    Mistake::Secret(SecretMistake::InputsExchanged),
    "HKDF's inputs are exchanged: ck is the key of its first HMAC (4.3)",
);

const OUTPUTS_EXCHANGED: Row = (
    Mistake::Secret(SecretMistake::OutputsExchanged),
    "HKDF's outputs are exchanged: the first is ck, the second k, but of a psk the third, where \
    the second goes into h (5.2)",
);

const REVERSED: Row = (
    Mistake::Secret(SecretMistake::Reversed),
    "the bytes of the DH result or psk are reversed",
);

const DIGESTED: Row = (
    Mistake::Secret(SecretMistake::Digested),
    "HKDF takes SHA256 of the DH result or psk: it takes the DH result or psk itself (5.2)",
);

const COUNTED_FROM_ZERO: Row = (
    Mistake::Secret(SecretMistake::CountedFromZero),
    "HKDF counts its outputs from 0: they are counted from 1 (4.3)",
);

const UNCHAINED: Row = (
    Mistake::Secret(SecretMistake::Unchained),
    "HKDF's second output doesn't take the first: it is HMAC of the first output and 2 (4.3)",
);

const SHORT_BLOCKS: Row = (
    Mistake::Secret(SecretMistake::ShortBlocks),
    "HMAC pads its keys to 32 bytes: SHA256's blocks have 64 bytes (4.3)",
);

const CHAINING_KEY_KEPT: Row = (
    Mistake::Secret(SecretMistake::ChainingKeyKept),
    "ck stays as it was: HKDF's first output is the new ck (5.2)",
);

const NONCE_KEPT: Row = (
    Mistake::Secret(SecretMistake::NonceKept),
    "n stays as it was: each new key sets it to 0 (5.1, 5.2)",
);

const NONCE_FROM_ONE: Row = (
    Mistake::Secret(SecretMistake::NonceFromOne),
    "n begins at 1: each new key sets it to 0 (5.1, 5.2)",
);

const MIX_LEFT_OUT: Row = (
    Mistake::Secret(SecretMistake::LeftOut),
    "nothing is mixed at this token",
);

const OTHER: Row = (
    Mistake::Secret(SecretMistake::Other),
    "HKDF takes another DH result or psk of the run: the first letter is the initiator's key, \
    whoever writes (7.1)",
);

const MIX_STEPS_LEFT_OUT: Row = (
    Mistake::Secret(SecretMistake::StepsLeftOut),
    STEPS_LEFT_OUT_TEXT,
);

const TAG_IN_FRONT: Row = (
    Mistake::Text(TextMistake::TagInFront),
    "the tag is in front: it follows the encrypted text (4.2)",
);

const BIG_ENDIAN: Row = (
    Mistake::Text(TextMistake::BigEndian),
    "the nonce is big-endian: 4 zero bytes come first, then 8 little-endian ones (12.3)",
);

const FIRST_BYTES: Row = (
    Mistake::Text(TextMistake::FirstBytes),
    "the nonce is in the first 8 bytes: 4 zero bytes come first, then 8 little-endian ones (12.3)",
);

const BIG_ENDIAN_FIRST_BYTES: Row = (
    Mistake::Text(TextMistake::BigEndianFirstBytes),
    "the nonce is big-endian, in the first 8 bytes: 4 zero bytes come first, then 8 \
    little-endian ones (12.3)",
);

const NONCE_OF_ZERO: Row = (
    Mistake::Text(TextMistake::NonceOfZero),
    "n is 0 here: only a new key sets it to 0; both parties' texts and all messages raise the \
    same n (5.1, 5.2)",
);

const NO_ASSOCIATED_DATA: Row = (
    Mistake::Text(TextMistake::NoAssociatedData),
    "there is no associated data: it is h before this text (5.2)",
);

const CHAINING_KEY_AS_DATA: Row = (
    Mistake::Text(TextMistake::ChainingKeyAsData),
    "the associated data is ck: it is h before this text (5.2)",
);

const EARLIER_HASH: Row = (
    Mistake::Text(TextMistake::EarlierHash),
    "the associated data is an earlier h: it is h before this text, after all tokens before it \
    (5.2)",
);

const EXCHANGED: Row = (
    Mistake::Key(KeyMistake::Exchanged),
    "it is another key of the transport: Split's first is for what the initiator sends (5.2)",
);

const NONCE_SET_BACK: Row = (
    Mistake::Key(KeyMistake::NonceSetBack),
    "n is set to 0: Rekey keeps n (11.3)",
);

// ---- the mistakes of each step, in the order in which they are tried

#[rattlefmt::skip]
pub(crate) static NAME: [Row; 4] = [
    (Mistake::Name(NameMistake::Hashed),
        "the name is hashed: up to 32 bytes are padded with zeros, and only more are hashed (5.2)"),
    (Mistake::Name(NameMistake::Padded),
        "the name is cut to 32 bytes: more than 32 are hashed (5.2)"),
    (Mistake::Name(NameMistake::LowerCase),
        "the name has lower-case letters: it is spelled as in 8"),
    (Mistake::Name(NameMistake::ChainingKeyOfZeros), "ck begins as zeros: it begins as h (5.2)"),
];

#[rattlefmt::skip]
pub(crate) static PROLOGUE: [Row; 6] = [
    HASH_LEFT_OUT, LENGTH_IN_FRONT, LENGTH_MIXED, DATA_FIRST,
    (Mistake::Hash(HashMistake::HexDigits),
        "MixHash takes the hex digits as text: it takes the bytes"),
    HASH_STEPS_LEFT_OUT,
];

#[rattlefmt::skip]
pub(crate) static DATA: [Row; 6] = [
    HASH_LEFT_OUT, LENGTH_IN_FRONT, LENGTH_MIXED, DATA_FIRST, OTHER_KEY, HASH_STEPS_LEFT_OUT,
];

#[rattlefmt::skip]
pub(crate) static EPHEMERAL: [Row; 8] = [
    HASH_LEFT_OUT, LENGTH_IN_FRONT, LENGTH_MIXED, DATA_FIRST,
    (Mistake::Hash(HashMistake::KeyLeftOut),
        "MixKey of e is left out: with a psk it follows MixHash at each e, written, read or of a \
        pre-message (9.2)"),
    (Mistake::Hash(HashMistake::KeyMixed),
        "MixKey of e is called: only a pattern with a psk has it (9.2)"),
    OTHER_KEY, HASH_STEPS_LEFT_OUT,
];

#[rattlefmt::skip]
pub(crate) static AGREEMENT: [Row; 14] = [
    INPUTS_EXCHANGED, OUTPUTS_EXCHANGED, REVERSED, DIGESTED, COUNTED_FROM_ZERO, UNCHAINED,
    SHORT_BLOCKS, CHAINING_KEY_KEPT, NONCE_KEPT, NONCE_FROM_ONE, MIX_LEFT_OUT,
    (Mistake::Secret(SecretMistake::HashedToo),
        "MixHash takes the DH result, besides MixKey: a DH result goes into MixKey alone (5.3)"),
    OTHER, MIX_STEPS_LEFT_OUT,
];

#[rattlefmt::skip]
pub(crate) static PSK: [Row; 15] = [
    INPUTS_EXCHANGED, OUTPUTS_EXCHANGED, REVERSED, DIGESTED, COUNTED_FROM_ZERO, UNCHAINED,
    SHORT_BLOCKS, CHAINING_KEY_KEPT, NONCE_KEPT, NONCE_FROM_ONE, MIX_LEFT_OUT,
    (Mistake::Secret(SecretMistake::KeyAlone), "MixKey stands in place of MixKeyAndHash (9.2)"),
    (Mistake::Secret(SecretMistake::HashLeftOut),
        "MixKeyAndHash doesn't hash: HKDF's second output goes into h (5.2)"),
    OTHER, MIX_STEPS_LEFT_OUT,
];

#[rattlefmt::skip]
pub(crate) static TEXT: [Row; 22] = [
    (Mistake::Text(TextMistake::Clear),
        "the text is in the clear: there is a key, so it is encrypted, an empty text too (5.2)"),
    (Mistake::Text(TextMistake::OtherKey),
        "the text is another public key of the file: the token s sends the static key (5.3)"),
    (Mistake::Text(TextMistake::TagLeftOff),
        "the bytes are taken in the clear: there is a key, so 16 bytes of a tag follow the text \
        (5.2)"),
    (Mistake::Text(TextMistake::TagAdded),
        "16 bytes follow the text: without a key a text has no tag (5.2)"),
    TAG_IN_FRONT, BIG_ENDIAN, FIRST_BYTES, BIG_ENDIAN_FIRST_BYTES,
    (Mistake::Text(TextMistake::NonceFromOne),
        "n is one too great: a new key sets it to 0 (5.1, 5.2)"),
    NONCE_OF_ZERO, NO_ASSOCIATED_DATA, CHAINING_KEY_AS_DATA, EARLIER_HASH,
    (Mistake::Text(TextMistake::TextHashedBefore),
        "MixHash of the plain text comes before encryption: h before this text is the associated \
        data, then MixHash takes the encrypted bytes (5.2)"),
    (Mistake::Text(TextMistake::HashLeftOut),
        "MixHash of this text is left out: it takes all bytes that are sent, of the last payload \
        too (5.2)"),
    (Mistake::Text(TextMistake::TextHashed),
        "MixHash takes the plain text: it takes the encrypted bytes (5.2)"),
    (Mistake::Text(TextMistake::TagNotHashed),
        "MixHash takes the bytes without the tag: it takes all encrypted bytes and the tag (5.2)"),
    (Mistake::Text(TextMistake::LengthHashed), LENGTH_IN_FRONT_TEXT),
    (Mistake::Text(TextMistake::LengthMixed), LENGTH_MIXED_TEXT),
    (Mistake::Text(TextMistake::NonceKept),
        "n isn't raised: each encrypted text raises it by 1 (5.1)"),
    (Mistake::Text(TextMistake::NonceRaised),
        "n is one too great: each encrypted text raises it by 1, and without a key it stays (5.1)"),
    (Mistake::Text(TextMistake::StepsLeftOut), STEPS_LEFT_OUT_TEXT),
];

#[rattlefmt::skip]
pub(crate) static OPENING: [Row; 7] = [
    EXCHANGED,
    (Mistake::Key(KeyMistake::SplitLater),
        "Split takes the second and the third output of HKDF: it takes the first and the second \
        (5.2)"),
    (Mistake::Key(KeyMistake::SplitOfHash),
        "Split's HKDF takes ck and h: it takes ck and no bytes (5.2)"),
    (Mistake::Key(KeyMistake::SplitOfZeros),
        "Split's HKDF takes ck and 32 zero bytes: it takes ck and no bytes (5.2)"),
    (Mistake::Key(KeyMistake::SplitInputs),
        "Split's HKDF has its inputs exchanged: ck is the key of its first HMAC (4.3)"),
    (Mistake::Key(KeyMistake::NonceFromOne),
        "n is one too great: Split's keys begin with 0, and each message raises n by 1 (5.1, 5.2)"),
    (Mistake::Key(KeyMistake::EarlierHash),
        "h is that of an earlier step: it is h after the last payload (5.2)"),
];

#[rattlefmt::skip]
pub(crate) static RENEWAL: [Row; 7] = [
    NONCE_SET_BACK,
    (Mistake::Key(KeyMistake::RekeyLeftOut), "Rekey is left out at this interval"),
    (Mistake::Key(KeyMistake::RekeyByNonce), "Rekey's nonce is n: it is 2^64 - 1 (4.2)"),
    (Mistake::Key(KeyMistake::RekeyByZero), "Rekey's nonce is 0: it is 2^64 - 1 (4.2)"),
    (Mistake::Key(KeyMistake::RekeyByOnes),
        "Rekey's nonce has 12 bytes ff: 2^64 - 1 is 4 zero bytes and 8 of ff (4.2, 12.3)"),
    (Mistake::Key(KeyMistake::RekeyLastBytes),
        "Rekey takes the last 32 of 48 bytes: it takes the first 32 (4.2)"),
    EXCHANGED,
];

#[rattlefmt::skip]
pub(crate) static TRANSPORT: [Row; 4] = [
    EXCHANGED,
    (Mistake::Key(KeyMistake::RekeyLater),
        "Rekey hasn't come yet: it follows each interval-th message of its direction (11.3)"),
    NONCE_SET_BACK,
    (Mistake::Key(KeyMistake::NonceRaised),
        "n is one too great: each direction has its own n, from 0, and only its own messages \
        raise it; or your log has n after the message (5.1, 5.2)"),
];

// Those with which a party refuses right bytes.
#[rattlefmt::skip]
pub(crate) static REFUSAL: [Row; 9] = [
    NO_ASSOCIATED_DATA, CHAINING_KEY_AS_DATA, EARLIER_HASH,
    (Mistake::Text(TextMistake::LaterHash),
        "the associated data is h after this text: MixHash of it follows decryption (5.2)"),
    TAG_IN_FRONT, BIG_ENDIAN, FIRST_BYTES, BIG_ENDIAN_FIRST_BYTES, NONCE_OF_ZERO,
];
