//! From C's structs of halves, streams and cipher states to those, where a call has left them, and back.

ghost use Rattle.std.specs.Prelude.{◌≡◌, ◌⊎◌, ℕ, List, Some, IfSome, IfOk, IfErr, MatchResult, is_some, true};
ghost use Rattle.noise_state.specs.Cipher.{key_in, nonce_in};
ghost use Rattle.noise_session.specs.Parts.{half_in};
ghost use Rattle.noise_c.specs.HalfStructs.{is_party, party_in, is_half, half_from_c, IsFromC, IsToC};
ghost use Rattle.noise_c.specs.DatagramStructs.{is_window, window_in, is_datagram_sender, datagram_sender_from_c, is_datagram_receiver, datagram_receiver_from_c};
ghost use Rattle.noise_c.specs.StreamStructs.{is_state, state_in, is_stream_sender, stream_sender_from_c, is_stream_receiver, stream_receiver_from_c};
ghost use Rattle.noise_c.specs.CipherStructs.{begun_cipher, cipher_from_c, is_cipher, struct_code};
ghost use Rattle.noise_c.specs.declared.codes.numbers.TheConstants.{OK, ONE_WAY, STRUCT};

use crate::codes::numbers::*;
use crate::structs::*;
use noise_channel::{StreamReceiver, StreamSender, StreamState};
use noise_names::Role;
use noise_session::{
    DatagramReceiver, DatagramReceiverParts, DatagramSender, DatagramSenderParts, HalfParts,
    Receiver, Sender, Window,
};
use noise_state::CipherState;

fn role_from_c(party: u8) -> Option<Role>
    ensures { IsFromC result (is_party party) (party_in party) }
{
    match party {
        1 => Some(Role::Initiator),
        2 => Some(Role::Responder),
        _ => None,
    }
}

fn role_to_c(role: Role) -> u8
    ensures { IsToC (is_party result) (party_in result) role }
{
    match role {
        Role::Initiator => 1,
        Role::Responder => 2,
    }
}

pub(crate) fn window_from_c(width: u32) -> Option<Window>
    ensures { IsFromC result (is_window width) (window_in width) }
{
    match width {
        64 => Some(Window::W64),
        256 => Some(Window::W256),
        1024 => Some(Window::W1024),
        _ => None,
    }
}

fn window_to_c(window: Window) -> u32
    ensures { IsToC (is_window result) (window_in result) window }
{
    match window {
        Window::W64 => 64,
        Window::W256 => 256,
        Window::W1024 => 1024,
    }
}

fn state_from_c(state: u8) -> Option<StreamState>
    ensures { IsFromC result (is_state state) (state_in state) }
{
    match state {
        0 => Some(StreamState::Open),
        1 => Some(StreamState::Ended),
        2 => Some(StreamState::Broken),
        _ => None,
    }
}

fn state_to_c(state: StreamState) -> u8
    ensures { IsToC (is_state result) (state_in result) state }
{
    match state {
        StreamState::Open => 0,
        StreamState::Ended => 1,
        StreamState::Broken => 2,
    }
}

// The parts of a half of the kind with this mark.
pub(crate) fn half_from_c(half: &NoiseHalf, mark: u32) -> Option<HalfParts>
    ensures known { is_some result ≡ is_half mark half.now }
    ensures value { IfSome result (λ parts. half_in parts ≡ half_from_c half.now) }
{
    if half.mark != mark {
        return None;
    }
    Some(HalfParts {
        role: role_from_c(half.party)?,
        one_way: half.one_way != 0,
        interval: half.interval,
        key: half.key,
        nonce: half.nonce,
    })
}

pub(crate) fn half_to_c(parts: HalfParts, mark: u32) -> NoiseHalf
    ensures { IsToC (is_half mark result) (half_from_c result) (half_in parts) }
{
    let key = parts.key;
    NoiseHalf {
        mark,
        party: role_to_c(parts.role),
        one_way: u8::from(parts.one_way),
        key,
        interval: parts.interval,
        nonce: parts.nonce,
    }
}

pub(crate) fn datagram_sender_from_c(half: &NoiseDatagramSender) -> Option<DatagramSender>
    ensures { IsFromC result (is_datagram_sender half.now) (datagram_sender_from_c half.now) }
{
    if half.mark != DATAGRAM_SENDER {
        return None;
    }
    Some(DatagramSender::from_parts(DatagramSenderParts {
        role: role_from_c(half.party)?,
        one_way: half.one_way != 0,
        key: half.key,
        nonce: half.nonce,
    }))
}

pub(crate) fn datagram_sender_to_c(sender: DatagramSender) -> NoiseDatagramSender
    ensures { IsToC (is_datagram_sender result) (datagram_sender_from_c result) sender }
{
    let parts = sender.into_parts();
    let key = parts.key;
    NoiseDatagramSender {
        mark: DATAGRAM_SENDER,
        party: role_to_c(parts.role),
        one_way: u8::from(parts.one_way),
        key,
        nonce: parts.nonce,
    }
}

pub(crate) fn datagram_receiver_from_c(half: &NoiseDatagramReceiver) -> Option<DatagramReceiver>
    ensures { IsFromC result (is_datagram_receiver half.now) (datagram_receiver_from_c half.now) }
{
    if half.mark != DATAGRAM_RECEIVER {
        return None;
    }
    DatagramReceiver::from_parts(DatagramReceiverParts {
        role: role_from_c(half.party)?,
        one_way: half.one_way != 0,
        key: half.key,
        window: window_from_c(half.window)?,
        greatest: half.greatest,
        words: half.words,
    })
}

pub(crate) fn datagram_receiver_to_c(receiver: DatagramReceiver) -> NoiseDatagramReceiver
    ensures { IsToC (is_datagram_receiver result) (datagram_receiver_from_c result) receiver }
{
    let parts = receiver.into_parts();
    let (key, words) = (parts.key, parts.words);
    NoiseDatagramReceiver {
        mark: DATAGRAM_RECEIVER,
        party: role_to_c(parts.role),
        one_way: u8::from(parts.one_way),
        window: window_to_c(parts.window),
        key,
        greatest: parts.greatest,
        words,
    }
}

pub(crate) fn stream_sender_from_c(stream: &NoiseStreamSender) -> Option<StreamSender>
    ensures { IsFromC result (is_stream_sender stream.now) (stream_sender_from_c stream.now) }
{
    let parts = half_from_c(&stream.half, STREAM_SENDER)?;
    StreamSender::from_parts(Sender::from_parts(parts), stream.ended != 0)
}

pub(crate) fn stream_sender_to_c(sender: StreamSender) -> NoiseStreamSender
    ensures { IsToC (is_stream_sender result) (stream_sender_from_c result) sender }
{
    let (half, ended) = sender.into_parts();
    NoiseStreamSender {
        half: half_to_c(half.into_parts(), STREAM_SENDER),
        ended: u8::from(ended),
    }
}

pub(crate) fn stream_receiver_from_c(stream: &NoiseStreamReceiver) -> Option<StreamReceiver>
    ensures { IsFromC result (is_stream_receiver stream.now) (stream_receiver_from_c stream.now) }
{
    let parts = half_from_c(&stream.half, STREAM_RECEIVER)?;
    let state = state_from_c(stream.state)?;
    StreamReceiver::from_parts(Receiver::from_parts(parts), state)
}

pub(crate) fn stream_receiver_to_c(receiver: StreamReceiver) -> NoiseStreamReceiver
    ensures { IsToC (is_stream_receiver result) (stream_receiver_from_c result) receiver }
{
    let (half, state) = receiver.into_parts();
    NoiseStreamReceiver {
        half: half_to_c(half.into_parts(), STREAM_RECEIVER),
        state: state_to_c(state),
    }
}

// The cipher state, if the mark is known and it wasn't discarded; else the number of the fault.
pub(crate) fn cipher_from_c(cipher: &NoiseCipher, known: bool) -> Result<CipherState, u32>
    ensures code { MatchResult result
        (λ _. struct_code known cipher.now ≡ OK) (λ code. struct_code known cipher.now ≡ code) }
    ensures value { IfOk result (λ state. state ≡ cipher_from_c cipher.now) }
    ensures codes { IfErr result (λ code. (code ≡ STRUCT) ⊎ (code ≡ ONE_WAY)) }
{
    if !known {
        return Err(STRUCT);
    }
    if cipher.one_way != 0 {
        return Err(ONE_WAY);
    }
    Ok(CipherState::from_parts(Some(cipher.key), cipher.nonce))
}

// Whether it is a cipher state of either direction.
pub(crate) fn is_cipher(cipher: &NoiseCipher) -> bool
    ensures { result ≡ is_cipher cipher.now }
{
    cipher.mark == SENDING_CIPHER || cipher.mark == RECEIVING_CIPHER
}

// A cipher state that Split has made, or none of it where it is discarded.
pub(crate) fn cipher_to_c(cipher: CipherState, mark: u32, discarded: bool) -> NoiseCipher
    ensures mark { result.mark ≡ mark }
    ensures value { (key : List ℕ) → key_in cipher ≡ Some key → nonce_in cipher ≡ 0
        → result ≡ begun_cipher mark discarded key }
{
    match cipher.into_parts() {
        (Some(key), nonce) if !discarded => NoiseCipher {
            mark,
            one_way: 0,
            key,
            nonce,
        },
        _ => NoiseCipher {
            mark,
            one_way: 1,
            key: [0; 32],
            nonce: 0,
        },
    }
}
