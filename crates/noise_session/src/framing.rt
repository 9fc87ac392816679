//! A message becomes a frame where it stands (Noise, 3 and 13).

ghost use Rattle.std.specs.Prelude.{◌≡◌, ◌≤◌, ◌+◌, length, take, drop};
ghost use Rattle.noise_session.specs.Frames.{frame};

use byteorder::{BigEndian, ByteOrder};

/// Makes a frame of the message that stands in `out` behind the first two bytes: puts its length there, and returns how
/// many bytes the frame has.
///
/// The message has `len` bytes, at most 65535. A handshake message that is written to `out[2..]` becomes a frame so.
pub fn frame_message(out: &mut [u8], len: usize) -> usize
    requires short { len ≤ 65535 }
    requires room { len + 2 ≤ length out.old }
    ensures len { (result ≡ len + 2) × (result ≤ length out.new) }
    ensures frame { take result out.new ≡ frame (take len (drop 2 out.old)) }
    ensures beyond { drop 2 out.new ≡ drop 2 out.old }
{
    BigEndian::write_u16(out, len as u16);
    len + 2
}
