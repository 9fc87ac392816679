//! The two parties that a vector file describes.

ghost use Rattle.std.specs.Prelude.{◌≡◌, ◌≤◌, IfOk, IfErr, false, length};
ghost use Rattle.std.specs.Option.{option_map};
ghost use Rattle.std.specs.Result.{result_err};
ghost use Rattle.noise_duel.specs.DuelValue.{both_sides};
ghost use Rattle.noise_names.specs.Validity.{IsValid};
ghost use Rattle.noise_names.specs.declared.token.Role.TheVariants.{Initiator, Responder};
ghost use Rattle.noise_handshake.specs.Setup.{party_at_start, setup_fault};
ghost use Rattle.noise_handshake.specs.Party.{Party};
ghost use Rattle.noise_session.specs.Ends.{end_of};
ghost use Rattle.noise_vectors.specs.FileKeys.{agreement_of, public_of};
ghost use Rattle.noise_run.specs.Ends.{AreEnds, AreHandshakes, FileDuelMatches, FileMatches, IsFilePatternFault, IsFilePattern, IsStartFault};

use noise_duel::{Duel, Event};
use noise_handshake::own_keys::shown_before;
use noise_handshake::{Handshake, Remote};
use noise_lines::{Fault, named_pattern};
use noise_names::{Pattern, ProtocolName, Role, ValidPattern};
use noise_session::End;
use noise_session::laws::end_is_reported;
use noise_vectors::{FileKeys, VectorFile, Version};
use std::alloc::{AllocError, Global};

/// The handshakes of both parties that a file describes, and what the file says beside them.
#[derive(Drop)]
pub(crate) struct Beginning {
    pub initiator: Handshake<FileKeys>,
    pub responder: Handshake<FileKeys>,
    pub interval: u64,
    pub events: Vec<Event>,
    pub version: Version,
}

/// The two parties that the file describes, before the first message, the file's events, and its version.
///
/// At `Err` the fault is the first of these: a psk place beyond the messages of the pattern, a rule that the pattern
/// breaks, the initiator's setup, the responder's setup.
pub fn make_ends(
    alloc: Global,
    file: VectorFile,
) -> Result<(Duel<FileKeys, FileKeys>, Vec<Event>, Version), Fault>
    ensures ends { IfOk result (λ made. AreEnds file made.0) }
    ensures value { IfOk result (λ made. (made.1 ≡ file.events) × (made.2 ≡ file.version)) }
    ensures fault { IfErr result (λ fault. IsStartFault file fault) }
{
    let Beginning {
        initiator,
        responder,
        interval,
        events,
        version,
    } = begin(file)?;
    let duel = duel_of(alloc, initiator, responder, interval)?;
    Ok((duel, events, version))
}

// The handshakes of both parties, before the first message. The fault is that of `make_ends`.
pub(crate) fn begin(file: VectorFile) -> Result<Beginning, Fault>
    ensures made { IfOk result
        (λ beginning. AreHandshakes file beginning.initiator beginning.responder) }
    ensures begins { IfOk result (λ beginning. (beginning.initiator.ended ≡ false)
        × (beginning.responder.ended ≡ false)) }
    ensures value { IfOk result (λ beginning. (beginning.interval ≡ file.interval)
        × (beginning.events ≡ file.events)
        × (beginning.version ≡ file.version)) }
    ensures fault { IfErr result (λ fault. IsStartFault file fault) }
{
    let VectorFile {
        protocol,
        block,
        prologue,
        interval,
        psks,
        initiator,
        responder,
        events,
        version,
    } = file;
    let pattern = valid_pattern(block, &protocol)?;
    let of_initiator = shown_before(&pattern, Role::Initiator, &initiator);
    let of_responder = shown_before(&pattern, Role::Responder, &responder);
    let same = pattern.clone()?;
    let first = handshake(
        pattern,
        Role::Initiator,
        &prologue,
        initiator,
        of_responder,
        &psks,
    )?;
    let second = handshake(
        same,
        Role::Responder,
        &prologue,
        responder,
        of_initiator,
        &psks,
    )?;
    Ok(Beginning {
        initiator: first,
        responder: second,
        interval,
        events,
        version,
    })
}

// The two parties of these handshakes.
pub(crate) fn duel_of(
    alloc: Global,
    initiator: Handshake<FileKeys>,
    responder: Handshake<FileKeys>,
    interval: u64,
) -> Result<Duel<FileKeys, FileKeys>, AllocError>
    requires first { initiator.ended ≡ false }
    requires second { responder.ended ≡ false }
    requires role { (v w : Party) × FileMatches initiator v × FileMatches responder w
        × (v.role ≡ Initiator) × (w.role ≡ Responder) }
    ensures matches { (v w : Party) → FileMatches initiator v → FileMatches responder w
        → IfOk result (λ duel. FileDuelMatches duel (both_sides (end_of v interval) (end_of w interval))) }
{
    let first = End::new(alloc, initiator, interval)?;
    let second = End::new(alloc, responder, interval)?;
    end_is_reported::<FileKeys>();
    Ok(Duel::new(first, second))
}

/// The pattern that a file spells, or else that of its protocol's name.
pub fn valid_pattern(block: Option<Pattern>, name: &ProtocolName) -> Result<ValidPattern, Fault>
    ensures pattern { IfOk result (λ pattern. IsFilePattern block name.now pattern) }
    ensures valid { IfOk result (λ pattern. IsValid pattern) }
    ensures fault { IfErr result (λ fault. IsFilePatternFault block name.now fault) }
{
    let pattern = match block {
        Some(pattern) => pattern,
        None => named_pattern(name)?,
    };
    match pattern.check() {
        Ok(valid) => Ok(valid),
        Err(fault) => Err(Fault::Rule(fault)),
    }
}

// The handshake of one party, before any message.
fn handshake(
    pattern: ValidPattern,
    role: Role,
    prologue: &[u8],
    keys: FileKeys,
    remote: Remote,
    psks: &[[u8; 32]],
) -> Result<Handshake<FileKeys>, Fault>
    requires short { length prologue.now ≤ 65535 }
    ensures matches { IfOk result (λ h. FileMatches h
        (party_at_start pattern role prologue.now (public_of keys) (agreement_of keys) remote psks.now)) }
    ensures begins { IfOk result (λ h. h.ended ≡ false) }
    ensures fault { result_err result ≡ option_map (λ why. Fault.Setup role why)
        (setup_fault pattern role (public_of keys) remote (length psks.now)) }
{
    match Handshake::new(pattern, role, prologue, keys, remote, psks) {
        Ok(handshake) => Ok(handshake),
        Err(fault) => Err(Fault::Setup(role, fault)),
    }
}
