//! A whole conversation.

ghost use Rattle.std.specs.Prelude.{◌≡◌, ◌≤◌, length, true};
ghost use Rattle.noise_duel.specs.Acts.{roles_and_payloads};
ghost use Rattle.noise_theorems.specs.Conversed.{Converses};
ghost use Rattle.noise_theorems.specs.FittingMessages.{messages_fit_from};
ghost use Rattle.noise_theorems.specs.Setup.{HaveDhResults, starts};
ghost use Rattle.noise_theorems.specs.inner.NewEnds.{SaysMessages};

use crate::ConversationFault;
use crate::ends::make_ends;
use noise_duel::laws::alike_are_parts;
use noise_duel::{Cuts, Duel, Report};
use noise_handshake::Agreeing;
use noise_names::{Role, ValidPattern};
use noise_session::laws::end_is_reported;
use std::alloc::{AllocError, Global};

/// Two new parties of one pattern, with equal prologue, psks and interval and with keys that agree, say these lines to
/// each other: the messages of the handshake, and then transport messages. Each frame comes to the other party at once,
/// in the pieces of its line.
///
/// At `Ok` each line was written, and accepted by the other party (`HaveConversed`). The errors are a fault of the
/// setup, and lack of memory.
pub fn converse<K: Agreeing>(
    alloc: Global,
    pattern: ValidPattern,
    prologue: &[u8],
    initiator: K,
    responder: K,
    psks: &[[u8; 32]],
    interval: u64,
    lines: &[(Role, Vec<u8>, Cuts)],
) -> Result<(Duel<K, K>, Report), ConversationFault>
    requires short { length prologue.now ≤ 65535 }
    requires lines { messages_fit_from pattern 0 (roles_and_payloads lines.now) ≡ true }
    requires dh_results { HaveDhResults K.pairs pattern initiator responder }
    ensures reports { Converses K.pairs pattern
        (starts K.pairs pattern prologue.now psks.now initiator responder)
        interval (roles_and_payloads lines.now) result }
{
    let duel = make_ends(
        alloc, pattern, prologue, initiator, responder, psks, interval,
    )?;
    let made = say_messages(alloc, duel, lines)?;
    Ok(made)
}

// These lines, between two new parties of one setup.
fn say_messages<K: Agreeing>(
    alloc: Global,
    duel: Duel<K, K>,
    lines: &[(Role, Vec<u8>, Cuts)],
) -> Result<(Duel<K, K>, Report), AllocError>
    ensures { SaysMessages K.pairs (roles_and_payloads lines.now) duel result }
{
    alike_are_parts();
    end_is_reported::<K>();
    let made = duel.converse(alloc, lines)?;
    Ok(made)
}
