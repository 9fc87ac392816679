//! Properties of steps, and of following a party.

ghost use Rattle.std.specs.Prelude.{Bool, List, ℕ, ◌≡◌};
ghost use Rattle.noise_names.specs.declared.token.Token.{Token};
ghost use Rattle.noise_names.specs.declared.token.Role.{Role};
ghost use Rattle.noise_names.specs.Plan.{Plan};
ghost use Rattle.noise_state.specs.declared.symmetric.SymmetricState.{SymmetricState};
ghost use Rattle.noise_handshake.specs.Message.{message_bytes};
ghost use Rattle.noise_handshake.specs.Matching.{after_message, after_own};
ghost use Rattle.noise_handshake.specs.declared.remote.Remote.{Remote};
ghost use Rattle.noise_handshake.specs.Setup.{start_of};
ghost use Rattle.noise_handshake.specs.Party.{Party};
ghost use Rattle.noise_trace.specs.declared.values.StateValues.{StateValues};
ghost use Rattle.noise_trace.specs.Start.{start_steps, values_after};
ghost use Rattle.noise_trace.specs.Steps.{joined, message_steps, values_after_payload};
ghost use Rattle.noise_trace.specs.Values.{values_of};
ghost use Rattle.noise_session.specs.Ends.{EndState, ended_session};
ghost use Rattle.noise_trace.specs.declared.end_trace.EndTrace.{EndTrace};
ghost use Rattle.noise_trace.specs.EndFollowing.{EndFollows};

use crate::EndTrace;
use noise_handshake::Keys;

/// The bytes of a message's steps, joined, are the message. After its last step the values are those of the handshake
/// then, and after the last step of the start those before the first message.
pub fn steps_make_messages()
    ensures message { (has_psks : Bool) (r : SymmetricState) (ts : List Token) (xs : List (List ℕ)) (payload : List ℕ)
        → joined (message_bytes has_psks r ts xs payload) (message_steps has_psks r ts xs payload)
        ≡ message_bytes has_psks r ts xs payload }
    ensures accepted { (v : Party) (xs : List (List ℕ)) (payload : List ℕ)
        → values_after_payload v xs payload ≡ values_of (after_message v xs payload).state }
    ensures start { (p : Plan) (role : Role) (prologue : List ℕ) (own remote : Remote) (before : StateValues)
        → values_after before (start_steps p role prologue own remote)
        ≡ values_of (start_of p role prologue own remote) }
    ensures written { (v : Party) (xs : List (List ℕ)) (payload : List ℕ)
        → values_after_payload v xs payload ≡ values_of (after_own v xs payload).state }
{}

/// The key schedule of a party is the same whatever has come of its next frame, and also once the session has ended.
pub fn end_is_followed<K: Keys>()
    ensures partial { (t : EndTrace K) (v : EndState) (bytes : List ℕ) → EndFollows K.pairs t v
        → EndFollows K.pairs t (record v { partial = bytes }) }
    ensures ended { (t : EndTrace K) (v : EndState) → EndFollows K.pairs t v
        → EndFollows K.pairs t (ended_session v) }
{}
