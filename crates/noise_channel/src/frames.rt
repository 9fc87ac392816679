//! Where the message of a frame lies (Noise, 3 and 13).

ghost use Rattle.std.specs.Prelude.{◌≡◌, ◌≤◌, ◌-◌, length, take};
ghost use Rattle.byteorder.specs.Endian.{big_bytes};
ghost use Rattle.noise_session.specs.Frames.{frame_length};

use byteorder::{BigEndian, ByteOrder};

/// What a buffer begins with.
#[derive(Clone, Copy, Debug, PartialEq, Eq)]
pub enum Framed {
    /// So many bytes more are wanted: first the rest of the frame's length, then that of the frame.
    Wants(usize),
    /// The message is `buffer[from..to]`, and the next frame begins at `to`.
    Message { from: usize, to: usize },
}

// How long the frame is that the buffer begins with, as far as its bytes show.
pub(crate) fn frame_len(buffer: &[u8]) -> usize
    ensures len { result ≡ frame_length buffer.now }
    ensures range { (2 ≤ result) × (result ≤ 65537) }
    ensures spelled { 2 ≤ length buffer.now → take 2 buffer.now ≡ big_bytes 2 (result - 2) }
{
    if buffer.len() < 2 {
        2
    } else {
        2 + usize::from(BigEndian::read_u16(buffer))
    }
}
