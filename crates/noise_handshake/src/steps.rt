//! What is told of the tokens of a message while it is read or written.

ghost use Rattle.std.specs.Prelude.{◌≡◌, ℕ};
ghost use Rattle.noise_names.specs.declared.token.Token.{Token};
ghost use Rattle.noise_state.specs.declared.symmetric.SymmetricState.{SymmetricState};

use noise_names::Token;
use noise_state::SymmetricState;

/// Takes the tokens of a message one after another, as they are read or written.
pub trait Steps {
    /// What it is after one token: that one, from where and up to where its bytes stand in the message, and the state
    /// after it.
    ghost after: { Self → Token → ℕ → ℕ → SymmetricState → Self };

    /// Takes the next token, which travels as the bytes of the message from `from` up to `to`; a DH or psk token
    /// travels as none. `state` is that after it.
    fn step(&mut self, token: Token, from: usize, to: usize, state: &SymmetricState)
        ensures { self.new ≡ after self.old token from to state.now };
}

// Keeps nothing of the tokens.
#[derive(Drop)]
pub(crate) struct NoSteps;

impl Steps for NoSteps {
    ghost after = { λ steps token from to state. steps };

    fn step(&mut self, _token: Token, _from: usize, _to: usize, _state: &SymmetricState) {}
}
