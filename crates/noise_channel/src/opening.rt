//! Opens a transport message in its frame.

ghost use Rattle.noise_channel.specs.Framing.{Frames};
ghost use Rattle.noise_channel.specs.StreamCalls.{OpensFrame};
ghost use Rattle.noise_channel.specs.declared.frames.Framed.TheVariants.{Message};

use noise_session::{OpenFault, Receiver};

// Opens the message of the frame of `whole` bytes that the buffer begins with, in place, and returns where in the
// buffer its payload ends.
pub(crate) fn open_frame(
    receiver: &mut Receiver,
    buffer: &mut [u8],
    whole: usize,
) -> Result<usize, OpenFault>
    requires found { Frames buffer.old (Message 2 whole) }
    ensures opened { OpensFrame receiver.old receiver.new buffer.old buffer.new whole result }
{
    let len = receiver.open_within(&mut buffer[2..whole])?;
    Ok(2 + len)
}
