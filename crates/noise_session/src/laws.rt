//! Properties of transport messages, of parties and of datagrams.

ghost use Rattle.std.specs.Prelude.{◌≡◌, ◌+◌, ◌++◌, ℕ, List, length, None, Result, Ok};
ghost use Rattle.noise_names.specs.declared.token.Role.{Role};
ghost use Rattle.noise_names.specs.Validity.{IsValid};
ghost use Rattle.noise_state.specs.declared.symmetric.SymmetricState.{SymmetricState};
ghost use Rattle.noise_session.specs.declared.faults.SendFault.{SendFault};
ghost use Rattle.noise_session.specs.Transport.{transport_message};
ghost use Rattle.noise_session.specs.TransportValue.{TransportState, Faces, next_message, due_message};
ghost use Rattle.noise_session.specs.Ends.{EndState, EndValue, EndMatches, IsReportedBy};
ghost use Rattle.noise_session.specs.Counterparts.{EndCounterparts};
ghost use Rattle.noise_session.specs.Steps.{StepValue};
ghost use Rattle.noise_session.specs.Steps.StepValue.{More, Payload};
ghost use Rattle.noise_session.specs.Exactly.{AcceptedExactly};
ghost use Rattle.noise_session.specs.Taking.{Judges, Takes};
ghost use Rattle.noise_session.specs.Sending.{Sends};
ghost use Rattle.noise_session.specs.Datagrams.{DatagramState, Runs, AreOnce, AreParties, OpensInWindow, datagram, unsealed};

use noise_aead::laws::sealed_same;
use noise_handshake::Keys;
use noise_handshake::laws::{accepted_once, refused_once, written_is_accepted, written_once};

/// Two payloads with one message at one nonce of a writer are equal.
pub fn transport_message_same()
    ensures { (r : SymmetricState) (writer : Role) (interval n : ℕ) (payload other : List ℕ)
        → transport_message r writer interval n payload ≡ transport_message r writer interval n other
        → payload ≡ other }
{
    sealed_same();
}

/// What one transport makes of a payload is what the transport of the other party expects.
pub fn message_is_due()
    ensures { (v w : TransportState) (payload : List ℕ) → Faces v w → due_message w payload ≡ next_message v payload }
{}

/// A whole message gives one step at a party, and leaves one state.
pub fn judged_once()
    ensures { (v x y : EndState) (message : List ℕ) (s t : StepValue)
        → Judges v message s x → Judges v message t y → (s ≡ t) × (x ≡ y) }
{
    accepted_once();
    refused_once();
    transport_message_same();
}

/// A piece gives one step at a party: the same number of bytes is taken, and the same state is left.
pub fn received_once()
    ensures { (v x y : EndState) (piece : List ℕ) (m n : ℕ) (s t : StepValue)
        → Takes v piece m s x → Takes v piece n t y → (m ≡ n) × (s ≡ t) × (x ≡ y) }
{
    judged_once();
}

/// A party that listens accepts a whole message exactly where it is one of some payload, and refuses a handshake
/// message exactly where some sender's first tokens lead to that token and none lead further.
pub fn accepted_exactly()
    ensures { AcceptedExactly }
{
    judged_once();
}

/// A first part that isn't a whole frame may be taken by itself: both parts then give the step of the whole piece.
pub fn cuts_alike()
    ensures { (v x y : EndState) (a b : List ℕ) (n : ℕ) (s : StepValue)
        → Takes v a (length a) More x → Takes x b n s y → Takes v (a ++ b) (length a + n) s y }
{}

/// A payload gives one frame or one fault at a party, and one state after it.
pub fn sent_once()
    ensures { (v x y : EndState) (payload : List ℕ) (r s : Result (List ℕ) SendFault)
        → Sends v payload r x → Sends v payload s y → (r ≡ s) × (x ≡ y) }
{
    written_once();
}

/// Of two parties that have come equally far, in a valid pattern, one takes each frame that the other writes, as its
/// payload, and they have come equally far again.
pub fn written_is_received()
    ensures { (v w x : EndState) (payload frame : List ℕ) → IsValid v.party.pattern → EndCounterparts v w
        → Sends v payload (Ok frame) x
        → (y : EndState) × Takes w frame (length frame) (Payload payload) y × EndCounterparts x y }
{
    written_is_accepted();
}

/// A party's stage, hash and remote static key are those of every state that it matches.
pub fn end_is_reported<K: Keys>()
    ensures { (e : EndValue K) (v : EndState) → EndMatches K.pairs e v → IsReportedBy v e }
{}

/// Over every list of calls each nonce is opened at most once.
pub fn opened_once()
    ensures { (v w : DatagramState) (nonces : List ℕ) → Runs v nonces w → AreOnce nonces }
{}

/// The other party opens each sealed datagram, as its payload, unless its nonce is old or was opened before.
pub fn sealed_is_opened()
    ensures { (v w : DatagramState) (payload : List ℕ) → AreParties v w
        → unsealed v.role v.one_way v.sent (length payload) ≡ None
        → OpensInWindow w (datagram v.state v.role v.sent payload) v.sent payload }
{}
