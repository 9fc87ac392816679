//! Looks for the message of a frame.

ghost use Rattle.noise_channel.specs.Framing.{Frames};

use crate::Framed;
use crate::frames::frame_len;

/// Looks at the frame that a buffer begins with: a message after its length in 2 big-endian bytes (Noise, 3 and 13), at
/// most 65537 bytes. It is for the messages of a handshake; those after it are for `StreamReceiver::read`.
pub fn next_frame(buffer: &[u8]) -> Framed
    ensures { Frames buffer.now result }
{
    let whole = frame_len(buffer);
    if buffer.len() < whole {
        Framed::Wants(whole - buffer.len())
    } else {
        Framed::Message { from: 2, to: whole }
    }
}
