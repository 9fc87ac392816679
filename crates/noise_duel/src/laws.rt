//! Properties of two parties over any network.

ghost use Rattle.noise_duel.specs.Agreement.{HashReports, PsksReport, KeysReport, KnowEachOther, VisiblyEqualIsOne};
ghost use Rattle.noise_duel.specs.Below.{LawsBelow};
ghost use Rattle.noise_duel.specs.Clash.{FoundIsClash, ClashFound, ClashReported};
ghost use Rattle.noise_duel.specs.Histories.{ExchangedHasHistory};
ghost use Rattle.noise_duel.specs.Invariant.{EndsComeOfMessages};
ghost use Rattle.noise_duel.specs.DatagramAgreement.{DatagramRunsAgree, RunsMakeOneBeginning};
ghost use Rattle.noise_duel.specs.DatagramRuns.{DatagramRunOnce};
ghost use Rattle.noise_duel.specs.Conversation.{MessagesComeThrough, MessagesLeave, MessagesRun};
ghost use Rattle.noise_duel.specs.OwnFrames.{EndsFrame};
ghost use Rattle.noise_duel.specs.Runs.{RunOnce};
ghost use Rattle.noise_duel.specs.SetUpAlike.{AlikeAreParts};
ghost use Rattle.noise_duel.specs.Networks.{HashesReport, VisiblyEqualGivesOne, PsksMakeOne, PayloadsCome};

use noise_handshake::laws::{
    accepted_once, due_is_written, keys_carried, overhead_added, refused_once, setup_is_whole,
    shown_is_known, starts_are_counterparts, tokens_match, written_is_accepted, written_once,
};
use noise_session::laws::{judged_once, sent_once};

// What the properties of the handshake and of a party say, in one.
fn laws_below()
    ensures { LawsBelow }
{
    accepted_once();
    refused_once();
    written_once();
    sent_once();
    judged_once();
    overhead_added();
    keys_carried();
    tokens_match();
    setup_is_whole();
    written_is_accepted();
    shown_is_known();
    starts_are_counterparts();
    due_is_written();
}

/// The state of a party is the one to which a history leads that follows from its pattern, its role, what it started
/// from, and the messages that it wrote and accepted: it mixed the prologue, the pre-messages, and then those messages
/// (Noise 5.3).
pub fn history_follows()
    ensures { ExchangedHasHistory }
{}

/// Two parties of one pattern with one hash had the same conversation as far as it can be seen, and all of it in common
/// with the same psks and DH results; or two texts that they hashed collide (Noise 11.2).
pub fn hash_reports()
    ensures seen { HashReports }
    ensures whole { PsksReport }
    ensures keys { KeysReport }
    ensures back { VisiblyEqualIsOne }
    ensures known { KnowEachOther }
{
    laws_below();
}

/// A run is determined: of two parties and a list of events one list of notes and one pair of parties comes.
pub fn run_once()
    ensures { RunOnce }
{
    laws_below();
}

/// In every run of two new parties each is what the messages that it wrote and accepted made of it, and its frames are
/// those of its own messages.
pub fn ends_match()
    ensures state { EndsComeOfMessages }
    ensures frame { EndsFrame }
{}

/// Two new parties that have opened with one hash had the same conversation as far as it can be seen, or two texts that
/// they hashed collide; the fields `one` and `payloads` say what they have in common with the same psks and DH results
/// (Noise 11.2, 12.3).
pub fn ends_agree()
    ensures seen { HashesReport }
    ensures back { VisiblyEqualGivesOne }
    ensures one { PsksMakeOne }
    ensures payloads { PayloadsCome }
{
    laws_below();
}

/// For lines in turn that fit, between two new parties with their parts of one key material, there is a run; and in it
/// all of them come through, and leave the parties that `end_after` computes of them.
pub fn messages_come_through()
    ensures come { MessagesComeThrough }
    ensures ends { MessagesLeave }
    ensures can { MessagesRun }
{
    laws_below();
    ends_match();
}

/// Two parties of a valid pattern that are set up alike, with keys that agree and a DH result at each DH token, have
/// their parts of one key material.
pub fn alike_are_parts()
    ensures { AlikeAreParts }
{
    laws_below();
}

/// `clash_position` is a position at which two histories hashed different texts with one digest, and there is one where
/// two of their texts collide, and so where two parties that have finished have one hash and different conversations.
pub fn clash_reported()
    ensures matches { FoundIsClash }
    ensures found { ClashFound }
    ensures reported { ClashReported }
{
    ends_agree();
}

/// A run is determined: of two parties and a list of events one list of notes and one pair of parties comes.
pub fn datagram_run_once()
    ensures { DatagramRunOnce }
{}

/// In every run of the two parties of one handshake each is what it sealed and opened. In each direction no nonce is
/// accepted twice, and the datagram that is accepted at a nonce is the one of that number, with its payload, or a
/// forged one (Noise 11.4). Two new parties that a run over frames has brought to one history go over to such parties.
pub fn datagrams_agree()
    ensures agree { DatagramRunsAgree }
    ensures start { RunsMakeOneBeginning }
{}
