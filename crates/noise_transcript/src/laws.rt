//! What two parties make of a vector file whose lines fit.

ghost use Rattle.noise_transcript.specs.Talked.{FittingMessagesRun};

use noise_duel::laws::{alike_are_parts, messages_come_through};
use noise_handshake::laws::{setup_is_whole, tokens_match};
use noise_theorems::laws::fitting_messages_take_turns;

/// The lines of a file's run, where the lines that it says fit: each message of the transcript as a frame, with its
/// payload at the other party, and then how far each party has come. So all frames are accepted, none is refused or
/// dropped, and no byte is left over.
pub fn fitting_messages_run()
    ensures { FittingMessagesRun }
{
    setup_is_whole();
    tokens_match();
    alike_are_parts();
    messages_come_through();
    fitting_messages_take_turns();
}
