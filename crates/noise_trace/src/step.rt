//! A step of a message.

use crate::StateValues;
use noise_names::Token;

/// A part of a message (Noise, 5.3).
#[derive(Clone, Copy, Debug, Default, PartialEq, Eq)]
pub enum Part {
    Token(Token),
    #[default]
    Payload,
}

/// What a part of a message makes of the key schedule.
#[derive(Clone, Copy, Debug, Default, PartialEq, Eq)]
pub struct Step {
    pub part: Part,
    /// The bytes of the message that the part travels as: those from `from` up to `to`. A DH or psk token takes none.
    pub from: usize,
    pub to: usize,
    /// The state after it.
    pub state: StateValues,
}
