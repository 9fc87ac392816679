//! Exports: the version of the library, and how many bytes each struct takes in the caller's memory.

ghost use Rattle.std.specs.Prelude.{◌≡◌, ◌+◌, ◌*◌};

use crate::structs::*;
use std::mem::size_of;

// The numbers of `packaging/version`.
const MAJOR: u32 = 1;

const MINOR: u32 = 0;

const PATCH: u32 = 0;

/// The version of this library, as `NOISE_VERSION` of its header.
#[unsafe(no_mangle)]
pub extern "C" fn noise_version() -> u32
    ensures { result ≡ 65536 * MAJOR + 256 * MINOR + PATCH }
{
    MAJOR * 65536 + MINOR * 256 + PATCH
}

#[unsafe(no_mangle)]
pub extern "C" fn noise_handshake_size() -> usize
    ensures { result ≡ 1472 }
{
    size_of::<NoiseHandshake>()
}

#[unsafe(no_mangle)]
pub extern "C" fn noise_sender_size() -> usize
    ensures { result ≡ 56 }
{
    size_of::<NoiseHalf>()
}

#[unsafe(no_mangle)]
pub extern "C" fn noise_receiver_size() -> usize
    ensures { result ≡ 56 }
{
    size_of::<NoiseHalf>()
}

#[unsafe(no_mangle)]
pub extern "C" fn noise_datagram_sender_size() -> usize
    ensures { result ≡ 48 }
{
    size_of::<NoiseDatagramSender>()
}

#[unsafe(no_mangle)]
pub extern "C" fn noise_datagram_receiver_size() -> usize
    ensures { result ≡ 192 }
{
    size_of::<NoiseDatagramReceiver>()
}

#[unsafe(no_mangle)]
pub extern "C" fn noise_stream_sender_size() -> usize
    ensures { result ≡ 64 }
{
    size_of::<NoiseStreamSender>()
}

#[unsafe(no_mangle)]
pub extern "C" fn noise_stream_receiver_size() -> usize
    ensures { result ≡ 64 }
{
    size_of::<NoiseStreamReceiver>()
}

#[unsafe(no_mangle)]
pub extern "C" fn noise_cipher_size() -> usize
    ensures { result ≡ 48 }
{
    size_of::<NoiseCipher>()
}
