//! Exports: the end of a handshake whose messages have all passed (Split: Noise, 5.2), as two halves or two cipher
//! states, at nonces 0. That uses the handshake up: a second pair would encrypt at the nonces of the first.

ghost use Rattle.std.specs.Prelude.{◌≡◌, ◌↔◌, ◌<◌, IfOk, IfErr, MatchResult, true, false};
ghost use Rattle.noise_handshake.specs.Party.{Party};
ghost use Rattle.noise_handshake.specs.Opening.{IsOpenedOf};
ghost use Rattle.noise_c.specs.HandshakeStructs.{ForParty, IsUsable};
ghost use Rattle.noise_c.specs.Finishing.{AreCiphersOf, AreDatagramHalvesOf, AreHalvesOf, AreStreamHalvesOf, Finishes, UsesUp, used_up};
ghost use Rattle.noise_c.specs.DatagramStructs.{is_window};
ghost use Rattle.noise_c.specs.CipherStructs.{sending_cipher, receiving_cipher};
ghost use Rattle.noise_c.specs.declared.codes.numbers.TheConstants.{OK, RECEIVING_CIPHER, SENDING_CIPHER, WINDOW};

use crate::codes::numbers::*;
use crate::codes::{ok_or, some_or};
use crate::from_c::handshake_from_c;
use crate::halves_from_c::*;
use crate::structs::*;
use crate::supplied_keys::NO_DH_RESULT;
use noise_channel::{StreamReceiver, StreamSender};
use noise_handshake::Opened;
use noise_names::Role;
use noise_session::{Datagrams, Transport};

// What the handshake leaves, else the number of the fault.
fn opened_of(handshake: &NoiseHandshake) -> Result<Opened, u32>
    ensures code { MatchResult result (λ _. Finishes handshake.now OK) (λ code. Finishes handshake.now code) }
    ensures fault { IfErr result (λ code. OK < code) }
    ensures usable { IfOk result (λ _. IsUsable handshake.now) }
    ensures opens { IfOk result (λ opened. ForParty handshake.now (λ _ v. IsOpenedOf opened v)) }
{
    let state = some_or!(handshake_from_c(handshake), Err(STRUCT));
    match state.finish() {
        Ok(opened) => Ok(opened),
        Err(_) if handshake.ended != 0 => Err(ENDED),
        Err(_) => Err(NOT_DONE),
    }
}

// Uses the handshake up.
fn use_up(handshake: &mut NoiseHandshake)
    ensures { handshake.new ≡ used_up handshake.old }
{
    handshake.ended = 1;
    handshake.psk_count = 0;
    handshake.psks = [[0; 32]; 9];
    handshake.answer_count = 0;
    handshake.answers = [NO_DH_RESULT; 8];
    handshake.chaining_key = [0; 32];
    handshake.cipher.bytes = [0; 32];
}

// What the handshake leaves, which is used up, else the number of the fault.
fn finished(handshake: &mut NoiseHandshake) -> Result<Opened, u32>
    ensures uses { MatchResult result (λ _. UsesUp handshake.old handshake.new OK)
        (λ code. UsesUp handshake.old handshake.new code) }
    ensures fault { IfErr result (λ code. OK < code) }
    ensures opens { IfOk result (λ opened. ForParty handshake.old (λ _ v. IsOpenedOf opened v)) }
{
    let opened = opened_of(handshake)?;
    use_up(handshake);
    Ok(opened)
}

/// Makes the two halves for messages in order, whose keys are rekeyed after each `interval` messages (Noise, 11.3).
#[unsafe(no_mangle)]
pub extern "C" fn noise_finish(
    handshake: &mut NoiseHandshake,
    interval: u64,
    sender: &mut NoiseHalf,
    receiver: &mut NoiseHalf,
) -> u32
    ensures uses { UsesUp handshake.old handshake.new result }
    ensures made { result ≡ OK → AreHalvesOf handshake.old interval sender.new receiver.new }
    ensures unchanged { OK < result → (sender.new ≡ sender.old) × (receiver.new ≡ receiver.old) }
{
    let opened = ok_or!(finished(handshake));
    let (sending, receiving) = Transport::new(opened, interval).split();
    *sender = half_to_c(sending.into_parts(), SENDER);
    *receiver = half_to_c(receiving.into_parts(), RECEIVER);
    OK
}

/// Makes the two halves for datagrams (Noise, 11.4), with a window of 64, 256 or 1024 nonces.
#[unsafe(no_mangle)]
pub extern "C" fn noise_finish_datagrams(
    handshake: &mut NoiseHandshake,
    window: u32,
    sender: &mut NoiseDatagramSender,
    receiver: &mut NoiseDatagramReceiver,
) -> u32
    ensures window { result ≡ WINDOW ↔ is_window window ≡ false }
    ensures uses { is_window window ≡ true → UsesUp handshake.old handshake.new result }
    ensures kept { result ≡ WINDOW → handshake.new ≡ handshake.old }
    ensures made { result ≡ OK → AreDatagramHalvesOf handshake.old window sender.new receiver.new }
    ensures unchanged { OK < result → (sender.new ≡ sender.old) × (receiver.new ≡ receiver.old) }
{
    let window = some_or!(window_from_c(window), WINDOW);
    let opened = ok_or!(finished(handshake));
    let (sending, receiving) = Datagrams::with_window(opened, window).split();
    *sender = datagram_sender_to_c(sending);
    *receiver = datagram_receiver_to_c(receiving);
    OK
}

/// Makes the two halves of a stream, whose keys are rekeyed after each `interval` frames (Noise, 11.3).
#[unsafe(no_mangle)]
pub extern "C" fn noise_finish_stream(
    handshake: &mut NoiseHandshake,
    interval: u64,
    sender: &mut NoiseStreamSender,
    receiver: &mut NoiseStreamReceiver,
) -> u32
    ensures uses { UsesUp handshake.old handshake.new result }
    ensures made { result ≡ OK → AreStreamHalvesOf handshake.old interval sender.new receiver.new }
    ensures unchanged { OK < result → (sender.new ≡ sender.old) × (receiver.new ≡ receiver.old) }
{
    let opened = ok_or!(finished(handshake));
    let (sending, receiving) = Transport::new(opened, interval).split();
    *sender = stream_sender_to_c(StreamSender::new(sending));
    *receiver = stream_receiver_to_c(StreamReceiver::new(receiving));
    OK
}

/// Makes the two cipher states, for the messages that this party writes and for those that it reads. In a one-way
/// pattern that of the responder's messages is discarded (Noise, 7.4): its calls return ONE_WAY.
#[unsafe(no_mangle)]
pub extern "C" fn noise_finish_ciphers(
    handshake: &mut NoiseHandshake,
    send: &mut NoiseCipher,
    receive: &mut NoiseCipher,
) -> u32
    ensures uses { UsesUp handshake.old handshake.new result }
    ensures made { result ≡ OK → AreCiphersOf handshake.old send.new receive.new }
    ensures unchanged { OK < result → (send.new ≡ send.old) × (receive.new ≡ receive.old) }
{
    let opened = ok_or!(finished(handshake));
    (*send, *receive) = ciphers_to_c(opened);
    OK
}

// The two cipher states as C has them, the sending one first.
fn ciphers_to_c(opened: Opened) -> (NoiseCipher, NoiseCipher)
    ensures sends { (v : Party) → IsOpenedOf opened v → result.0 ≡ sending_cipher v }
    ensures receives { (v : Party) → IsOpenedOf opened v → result.1 ≡ receiving_cipher v }
    ensures marks { (result.0.mark ≡ SENDING_CIPHER) × (result.1.mark ≡ RECEIVING_CIPHER) }
{
    let one_way = opened.one_way();
    let role = opened.role();
    let (initiator, responder) = opened.into_ciphers();
    match role {
        Role::Initiator => (
            cipher_to_c(initiator, SENDING_CIPHER, false),
            cipher_to_c(responder, RECEIVING_CIPHER, one_way),
        ),
        Role::Responder => (
            cipher_to_c(responder, SENDING_CIPHER, one_way),
            cipher_to_c(initiator, RECEIVING_CIPHER, false),
        ),
    }
}
