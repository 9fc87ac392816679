//! Collecting the steps of a message.

ghost use Rattle.std.specs.Prelude.{◌≡◌, []};
ghost use Rattle.noise_trace.specs.inner.StepLists.{with_step, with_token};

use crate::values::values_of;
use crate::{Part, Step};
use arrayvec::ArrayVec;
use noise_handshake::Steps;
use noise_names::Token;
use noise_state::SymmetricState;

// The steps of a message so far.
#[derive(Drop)]
pub(crate) struct StepList {
    pub(crate) steps: ArrayVec<Step, 11>,
}

impl StepList {
    // No steps.
    pub(crate) fn new() -> StepList
        ensures empty { result.steps.items ≡ [] }
    {
        StepList {
            steps: ArrayVec::new(),
        }
    }

    // Adds a step, if there is room.
    pub(crate) fn add(&mut self, step: Step)
        ensures value { self.new ≡ with_step self.old step }
    {
        if self.steps.len() < 11 {
            self.steps.push(step);
        }
    }
}

impl Steps for StepList {
    ghost after = { with_token };

    fn step(&mut self, token: Token, from: usize, to: usize, state: &SymmetricState) {
        self.add(Step {
            part: Part::Token(token),
            from,
            to,
            state: values_of(state),
        });
    }
}
