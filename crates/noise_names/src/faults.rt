use thiserror::Error;

/// Why bytes are no protocol name (Noise, 8). The first fault in this order is reported, and its text is one word.
#[derive(Clone, Copy, Debug, PartialEq, Eq, Error)]
pub enum NameFault {
    /// The name has more than 255 bytes.
    #[error("length")]
    Length,
    /// It does not begin with `Noise_`.
    #[error("prefix")]
    Prefix,
    /// The pattern section, which ends at the next `_` or at the end of the name, has a longest front of upper-case
    /// letters and digits that is no base: a base has 1 to 8 of them, the first a letter.
    #[error("base")]
    Base,
    /// Something follows the base, and one of its pieces, cut at each `+`, is not `psk` and a digit from 0 to 8.
    #[error("modifier")]
    Modifier,
    /// The digits of the modifiers do not rise strictly.
    #[error("modifier-order")]
    ModifierOrder,
    /// What follows the pattern section is not `_25519_ChaChaPoly_SHA256`.
    #[error("algorithm")]
    Algorithm,
}

/// A psk place beyond the last message (Noise, 9.4).
#[derive(Clone, Copy, Debug, PartialEq, Eq)]
pub struct PlaceFault {
    /// The first of the places, in their order, that is greater than the number of messages.
    pub place: u8,
}

/// What is wrong in a line of a pattern text.
#[derive(Clone, Copy, Debug, PartialEq, Eq)]
pub enum TextFaultKind {
    /// The first line is not a base, its modifiers in order, and `:`.
    Heading,
    /// A line does not begin with two spaces, `->` or `<-`, and a space.
    Arrow,
    /// A piece of a line, cut at each comma that a space follows, is no token.
    Token,
    /// A pre-message line has other tokens than `e`, `s` or `e, s`, or is where none may be, or the line of two
    /// spaces and `...` has no pre-message line before it or occurs a second time.
    PreMessage,
    /// The arrow of a message is not that of its turn.
    Turn,
    /// A message has other psk tokens than the heading says, or the heading names a place beyond the messages.
    PskPlace,
    /// The base is that of a fundamental pattern, and the pattern without its psk tokens is another.
    NameTaken,
    /// A ninth message, or a message with no token but psk, or with more than 8 other tokens.
    Limit,
    /// A line does not end with a line feed, or there is no message.
    Ending,
}

/// Why a text is no pattern text.
#[derive(Clone, Copy, Debug, PartialEq, Eq)]
pub struct TextFault {
    /// The line, counted from 1.
    pub line: usize,
    /// What is wrong there.
    pub kind: TextFaultKind,
}

/// The first place of a pattern that breaks a rule of validity (Noise, 7.3 and 9.3).
///
/// The rules are: 1, both public keys of a DH token come earlier; 2, a party has one `e` and one `s`; 3, a DH token
/// stands once; 4, a party encrypts after a DH of its static key only if the DH of its ephemeral key with the same key
/// of the other party comes earlier; 5, a party encrypts after a psk only if an `e` of its own comes earlier.
#[derive(Clone, Copy, Debug, PartialEq, Eq)]
pub struct RuleFault {
    /// The lowest rule that is broken there, 1 to 5.
    pub rule: u8,
    /// The message, counted from 1. The transport after the last message counts as one message more.
    pub message: u8,
    /// The token of the message, counted from 0. Its payload counts as the token after the last. The initiator's
    /// transport is token 0, the responder's 1.
    pub token: u8,
}
