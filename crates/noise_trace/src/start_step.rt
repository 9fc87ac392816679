//! A step of the start.

use crate::StateValues;
use noise_names::{Role, Token};

/// What is mixed before the first message (Noise, 5.3).
#[derive(Clone, Copy, Debug, Default, PartialEq, Eq)]
pub enum StartPart {
    /// The protocol name.
    #[default]
    Name,
    Prologue,
    /// A public key of a party's pre-message: `e` or `s`.
    Key(Role, Token),
}

/// What a part of the start makes of the key schedule.
#[derive(Clone, Copy, Debug, Default, PartialEq, Eq)]
pub struct StartStep {
    pub part: StartPart,
    /// The state after it.
    pub state: StateValues,
}
