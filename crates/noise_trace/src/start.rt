//! The steps before the first message.

ghost use Rattle.std.specs.Prelude.{◌≡◌, ◌≤◌, ◌+◌, ◌++◌, ◌<◌, ◌∷◌, [], true, ℕ, length, is_some, None};
ghost use Rattle.noise_names.specs.declared.token.Token.TheVariants.{E, S};
ghost use Rattle.noise_handshake.specs.Setup.{keys_of, public_keys, setup_fault};
ghost use Rattle.noise_trace.specs.inner.PreMessages.{HasKeysFor, Mixes};
ghost use Rattle.noise_trace.specs.Start.{start_step, start_steps};

use crate::values::values_of;
use crate::{StartPart, StartStep};
use arrayvec::ArrayVec;
use noise_handshake::laws::{setup_is_whole, tokens_match};
use noise_handshake::own_keys::{keys_of, public_keys};
use noise_handshake::tokens::mix_ephemeral;
use noise_handshake::{Keys, Remote};
use noise_names::{Role, Token, ValidPattern};
use noise_state::SymmetricState;

// Adds the step of a part.
fn add_step(steps: &mut ArrayVec<StartStep, 6>, part: StartPart, state: &SymmetricState)
    requires room { length steps.old.items < 6 }
    ensures len { length steps.new.items ≡ length steps.old.items + 1 }
    ensures after { steps.new.items ≡ steps.old.items ++ start_step part state.now ∷ [] }
{
    steps.push(StartStep {
        part,
        state: values_of(state),
    });
}

// Mixes the key of a pre-message's token, if it is there, and adds its step.
fn mix_one(
    state: &mut SymmetricState,
    has_psks: bool,
    party: Role,
    keys: &Remote,
    token: Token,
    steps: &mut ArrayVec<StartStep, 6>,
)
    requires room { length steps.old.items < 6 }
    ensures many { length steps.new.items ≤ length steps.old.items + 1 }
    ensures mixed { (token ≡ E → is_some keys.now.e ≡ true) → (token ≡ S → is_some keys.now.s ≡ true)
        → Mixes has_psks party keys.now (token ∷ []) state.old state.new steps.old.items steps.new.items }
{
    match (token, keys.e, keys.s) {
        (Token::E, Some(key), _) => {
            mix_ephemeral(state, has_psks, &key);
            add_step(steps, StartPart::Key(party, token), state);
        }
        (Token::S, _, Some(key)) => {
            state.mix_hash(&key);
            add_step(steps, StartPart::Key(party, token), state);
        }
        _ => {}
    }
}

// Mixes the keys of a party's pre-message, and adds a step for each.
fn mix_keys(
    state: &mut SymmetricState,
    has_psks: bool,
    party: Role,
    keys: &Remote,
    tokens: &[Token],
    steps: &mut ArrayVec<StartStep, 6>,
)
    requires room { length steps.old.items + length tokens.now ≤ 6 }
    ensures many { length steps.new.items ≤ length steps.old.items + length tokens.now }
    ensures mixed { HasKeysFor keys.now tokens.now
        → Mixes has_psks party keys.now tokens.now state.old state.new steps.old.items steps.new.items }
{
    let Some((token, later)) = tokens.split_first() else {
        return;
    };
    mix_one(state, has_psks, party, keys, *token, steps);
    mix_keys(state, has_psks, party, keys, later, steps);
}

/// The steps of a handshake's start, of a setup that `Handshake::new` takes: one for the protocol name, one for the
/// prologue, and one for each public key of the pre-messages, the initiator's first.
///
/// Of another setup the steps may leave out keys.
pub fn start_steps<K: Keys>(
    pattern: &ValidPattern,
    role: Role,
    prologue: &[u8],
    keys: &K,
    remote: &Remote,
) -> ArrayVec<StartStep, 6>
    ensures { (psks : ℕ) → setup_fault pattern.now role (K.pairs keys.now).public remote.now psks ≡ None
        → result.items ≡ start_steps pattern.now role prologue.now (public_keys (K.pairs keys.now).public) remote.now }
{
    setup_is_whole();
    tokens_match();
    let plan = pattern.pattern();
    let has_psks = !plan.is_plain();
    let own = public_keys(keys);
    let initiator = keys_of(Role::Initiator, role, &own, remote);
    let responder = keys_of(Role::Responder, role, &own, remote);
    let name = plan.name().write();
    let mut state = SymmetricState::new(&name);
    let mut steps = ArrayVec::new();
    add_step(&mut steps, StartPart::Name, &state);
    state.mix_hash(prologue);
    add_step(&mut steps, StartPart::Prologue, &state);
    let first = plan.pre(Role::Initiator);
    mix_keys(
        &mut state,
        has_psks,
        Role::Initiator,
        &initiator,
        first,
        &mut steps,
    );
    let second = plan.pre(Role::Responder);
    mix_keys(
        &mut state,
        has_psks,
        Role::Responder,
        &responder,
        second,
        &mut steps,
    );
    steps
}
