//! What bytes came to.

ghost use Rattle.std.specs.Prelude.{◌≡◌};
ghost use Rattle.noise_session.specs.Steps.{step_value};
ghost use Rattle.noise_session.specs.inner.Places.{reported_in, MatchesIn};

use noise_handshake::Cause;

/// What a party makes of the bytes that it was handed.
#[derive(Clone, Copy, Debug, PartialEq, Eq)]
pub enum Step<'a> {
    /// The session has ended; no byte was taken.
    Ended,
    /// This party writes the next handshake message; no byte was taken.
    YourTurn,
    /// This party is the initiator of a one-way session that is open: nothing comes to it. No byte was taken.
    Silent,
    /// The frame isn't whole yet; all bytes were taken.
    More,
    /// A frame was accepted, with this payload; the bytes up to its end were taken.
    Payload(&'a [u8]),
    /// A transport frame was refused, and the session goes on as before it; the bytes up to its end were taken.
    Dropped(Cause),
    /// A handshake frame was refused, at this token, counted from 0, or at the payload after the last. The session has
    /// ended; the bytes up to the frame's end were taken.
    Refused { token: u8, cause: Cause },
    /// A transport frame came at nonce 2^64 - 1, which no message has. The session has ended; the bytes up to the
    /// frame's end were taken.
    Exhausted,
}

// What bytes came to: the places of a payload in the message of the last frame, or another step.
pub(crate) type Outcome = Result<(usize, usize), Step<'static>>;

// The step, with the payload's bytes from the message.
pub(crate) fn step_in(message: &[u8], outcome: Outcome) -> Step<'_>
    requires place { MatchesIn message.now outcome }
    ensures value { step_value result ≡ reported_in message.now outcome.entry }
{
    match outcome {
        Ok((from, to)) => Step::Payload(&message[from..to]),
        Err(step) => step,
    }
}
