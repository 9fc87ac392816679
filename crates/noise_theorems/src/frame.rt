//! Whether a frame is one of a given payload.

ghost use Rattle.std.specs.Prelude.{◌≡◌, ◌↔◌, true};
ghost use Rattle.noise_session.specs.Ends.{EndState, EndMatches};
ghost use Rattle.noise_session.specs.Steps.{step_value};
ghost use Rattle.noise_session.specs.Steps.StepValue.{Payload};
ghost use Rattle.noise_theorems.specs.Taking.{ComesExactly, IsReceivedAs};

use crate::laws::reported_exactly;
use noise_handshake::Keys;
use noise_session::{End, Step};

/// Hands a party the last bytes of a frame, and returns whether its step is this payload.
///
/// Where the party listens, that is so exactly if the frame's message is one of the payload there. The party is left as
/// `End::take` leaves it.
pub fn comes_as<K: Keys>(end: &mut End<K>, bytes: &[u8], payload: &[u8]) -> bool
    ensures exactly { ComesExactly K.pairs end.old bytes.now payload.now result }
    ensures takes { (v : EndState) → EndMatches K.pairs end.old v
        → IsReceivedAs K.pairs v bytes.now payload.now end.new result }
{
    reported_exactly();
    let (_, step) = end.take(bytes);
    is_payload(step, payload)
}

// Whether a step hands out this payload.
fn is_payload(step: Step<'_>, payload: &[u8]) -> bool
    ensures { result ≡ true ↔ step_value step.entry ≡ Payload payload.now }
{
    match step {
        Step::Payload(bytes) => bytes == payload,
        _ => false,
    }
}
