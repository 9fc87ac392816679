//! Two parties that have finished a handshake, as the theorem on streams asks of them.

ghost use Rattle.std.specs.Prelude.{◌≡◌, ◌≤◌, ℕ, List, length, true};
ghost use Rattle.noise_names.specs.declared.token.Role.{Role};
ghost use Rattle.noise_names.specs.Limits.{IsPattern};
ghost use Rattle.noise_names.specs.Overhead.{has_key};
ghost use Rattle.noise_names.specs.Plan.{Plan};
ghost use Rattle.noise_names.specs.Validity.{IsValid};
ghost use Rattle.noise_handshake.specs.Party.{Party};
ghost use Rattle.noise_handshake.specs.Passed.{passed_places};
ghost use Rattle.noise_duel.specs.Conversation.{InTurn};
ghost use Rattle.noise_duel.specs.Messages.{HandshakeMessage, Start};
ghost use Rattle.noise_duel.specs.SetUpAlike.{AreSetUpAlike, HasDhResults, HasLongKeys};
ghost use Rattle.noise_channel.specs.Finished.{HaveFinished};

use noise_duel::laws::{alike_are_parts, ends_match, messages_come_through};
use noise_handshake::laws::{keys_carried, overhead_added};

// Two parties that are set up alike, with a DH result at each DH token, can finish: for each payloads that fit, one for
// each message of a pattern that has a key at the last.
pub fn can_finish()
    ensures { (p : Plan) (prologue : List ℕ) (a b : Start) (lines : List (Role × List ℕ)) → IsPattern p → IsValid p
        → AreSetUpAlike p prologue a b → HasLongKeys a → HasLongKeys b → HasDhResults p a b → InTurn p 0 lines
        → length lines ≡ length p.messages → 1 ≤ length p.messages
        → has_key p (passed_places p (length p.messages)) ≡ true
        → (ps : List HandshakeMessage) × (v : Party) × (w : Party) × HaveFinished p a b ps ps v w }
{
    alike_are_parts();
    messages_come_through();
    ends_match();
    keys_carried();
    overhead_added();
}

#[test]
fn parties_can_finish() {
    can_finish();
}
