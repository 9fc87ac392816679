//! Two programs, each with a handshake of its own: what comes of their calls where each reads what the other wrote.

ghost use Rattle.noise_c.specs.FinishedPrograms.{ProgramsFinish, ProgramsFinishFacing};
ghost use Rattle.noise_c.specs.TwoPrograms.{TwoProgramsAgree};

use crate::laws::first_act_as_all;
use noise_handshake::laws::{
    accepted_once, refused_once, shown_is_known, starts_are_counterparts, tokens_match,
    written_is_accepted,
};

/// Two programs that begin with one valid pattern, equal prologue and psks, and keys whose DH results agree, and that
/// each read what the other wrote: each payload that is handed out is the writer's, no message is refused, and both end
/// with one hash and with halves that face each other.
pub fn two_programs_agree()
    ensures { TwoProgramsAgree }
{
    accepted_once();
    refused_once();
    written_is_accepted();
    shown_is_known();
    tokens_match();
    starts_are_counterparts();
    first_act_as_all();
}

/// Of two such programs whose handshakes have finished, what any of the four calls that finish one makes faces what the
/// same call makes at the other. And if their keys agree everywhere, they are two parties as the theorem on streams asks
/// (`read_after_finish`).
pub fn programs_finish()
    ensures facing { ProgramsFinishFacing }
    ensures parties { ProgramsFinish }
{
    accepted_once();
    refused_once();
    written_is_accepted();
    shown_is_known();
    tokens_match();
    starts_are_counterparts();
    first_act_as_all();
}
