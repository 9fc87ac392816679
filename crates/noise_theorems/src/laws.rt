//! Laws of what two ends of one set-up accept and report.

ghost use Rattle.noise_theorems.specs.Agreement.{HashIsReported};
ghost use Rattle.noise_theorems.specs.Datagrams.{DatagramEntriesAgree, DatagramKeysCome, DatagramsAreReported};
ghost use Rattle.noise_theorems.specs.Entries.{EntriesCome, KeysCome};
ghost use Rattle.noise_theorems.specs.Exactly.{ReadExactly, ReportedExactly};
ghost use Rattle.noise_theorems.specs.Joined.{JoinedFramesCanCome, JoinedFramesCome, JoinedFramesComeWhole};
ghost use Rattle.noise_theorems.specs.Lacking.{LacksAtDh};
ghost use Rattle.noise_theorems.specs.Payloads.{PayloadsAreReported};
ghost use Rattle.noise_theorems.specs.Setup.{XorKeysHaveDhResults};
ghost use Rattle.noise_theorems.specs.Turns.{MessagesTakeTurns};

use noise_duel::laws::{datagrams_agree, ends_agree, ends_match};
use noise_handshake::Keys;
use noise_handshake::laws::{accepted_once, refused_once};
use noise_session::laws::{accepted_exactly, end_is_reported, judged_once, written_is_received};

/// Two parties whose `XorKeys` have both key pairs have a DH result at each DH of every pattern.
pub fn xor_keys_have_dh_results()
    ensures { XorKeysHaveDhResults }
{}

/// Lines that fit are in turn, as `Duel::converse` asks of them.
pub fn fitting_messages_take_turns()
    ensures { MessagesTakeTurns }
{}

/// A handshake that reads next returns a payload exactly if the party accepts the message as one of it, and refuses the
/// message at a token for a cause exactly if the party does.
pub fn read_exactly()
    ensures { ReadExactly }
{
    accepted_once();
    refused_once();
}

/// An end that listens reports each step of a whole message in exactly one case, and so a payload exactly if the
/// message is one of that payload there.
pub fn reported_exactly()
    ensures { ReportedExactly }
{
    accepted_exactly();
    judged_once();
}

/// A party that has the public keys which its message sends lacks a DH result at a DH token alone.
pub fn lacks_at_dh()
    ensures { LacksAtDh }
{}

/// Of two ends that have come equally far one writes payloads, and its frames, joined, come to the other, cut anywhere:
/// two frames in one piece, or one frame in two. At any time the first payloads are accepted, in order, and nothing is
/// refused or left. Once all bytes have come all payloads are accepted, and the ends have come equally far again.
pub fn joined_frames_come()
    ensures so_far { JoinedFramesCome }
    ensures whole { JoinedFramesComeWhole }
    ensures can { JoinedFramesCanCome }
{
    judged_once();
    written_is_received();
}

/// Where both ends of a duel report one hash, they have the one hash that the laws on agreement speak of.
pub fn hash_is_reported<A: Keys, B: Keys>()
    ensures { HashIsReported A.pairs B.pairs }
{
    end_is_reported::<A>();
    end_is_reported::<B>();
}

/// In every run of two new ends the payloads that a role wrote by the report, and those that it accepted, are those of
/// its handshake messages and then of its transport messages, in order.
pub fn payloads_reported()
    ensures { PayloadsAreReported }
{}

/// Where two new ends with the same psks and equal intervals have one hash, the payloads that a role received are
/// the first of those that the other wrote, up to a forged frame; or two texts that they hashed collide.
pub fn entries_agree()
    ensures { EntriesCome }
{
    ends_match();
    ends_agree();
}

/// Where two such ends are open, and a role received as many payloads as the other wrote, it opens the next message by
/// the key that the other seals it by; or two texts that they hashed collide.
pub fn keys_meet<A: Keys, B: Keys>()
    ensures { KeysCome A.pairs B.pairs }
{
    ends_match();
    ends_agree();
}

/// What the entries of a run of datagrams say of the two parties of one handshake, which have sealed and opened nothing
/// before it.
///
/// The entries of a role name the datagrams that it sealed and those that it opened: all of them, and no others. In
/// each direction at most one entry says that a nonce was opened, and its payload is the one that the other role sealed
/// as its datagram of that number, or the datagram is forged. Each opens by the key that the other seals by.
pub fn datagram_entries_agree()
    ensures reported { DatagramsAreReported }
    ensures agree { DatagramEntriesAgree }
    ensures keys { DatagramKeysCome }
{
    datagrams_agree();
}
