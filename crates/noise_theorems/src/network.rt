//! Two parties of equal setup over any network.

ghost use Rattle.std.specs.Prelude.{◌≤◌, length};
ghost use Rattle.noise_events.specs.Events.{events_of};
ghost use Rattle.noise_theorems.specs.Agreement.{RunsOverNetwork};
ghost use Rattle.noise_theorems.specs.Setup.{starts};

use crate::ConversationFault;
use crate::ends::make_ends;
use crate::laws::{entries_agree, hash_is_reported, keys_meet, payloads_reported};
use noise_duel::{Duel, Event, Report};
use noise_handshake::Agreeing;
use noise_names::ValidPattern;
use std::alloc::Global;

/// Two new parties of one pattern, with equal prologue, psks and interval and with keys that agree, and any events
/// between them: frames get lost, come twice or in another order, or were written by nobody.
///
/// Where both parties then report one hash, they had all of the conversation in common, and what each accepted is the
/// first of what the other wrote, up to a forged message; or two texts that they hashed collide. So by the
/// report the payloads that a role accepted are the first of those that the other wrote, or the number of a forged
/// frame is named; and where all of them came, open ends have equal keys for the next message.
///
/// Whatever the hashes are, the report's payloads are, for each role, those of the messages that it wrote and accepted.
///
/// The errors are a fault of the setup, and lack of memory.
pub fn run_events<K: Agreeing>(
    alloc: Global,
    pattern: ValidPattern,
    prologue: &[u8],
    initiator: K,
    responder: K,
    psks: &[[u8; 32]],
    interval: u64,
    events: &[Event],
) -> Result<(Duel<K, K>, Report), ConversationFault>
    requires short { length prologue.now ≤ 65535 }
    ensures reports { RunsOverNetwork K.pairs pattern
        (starts K.pairs pattern prologue.now psks.now initiator responder)
        interval (events_of events.now) result }
{
    let duel = make_ends(
        alloc, pattern, prologue, initiator, responder, psks, interval,
    )?;
    hash_is_reported::<K, K>();
    payloads_reported();
    entries_agree();
    keys_meet::<K, K>();
    let made = duel.run(alloc, events)?;
    Ok(made)
}
