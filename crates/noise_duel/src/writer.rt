//! A party writes.

ghost use Rattle.std.specs.Prelude.{◌≡◌, ℕ, List, length, IfOk};
ghost use Rattle.noise_session.specs.Ends.{EndMatches};
ghost use Rattle.noise_names.specs.Lists.{bytes_of};
ghost use Rattle.noise_duel.specs.OneEnd.{HasWritten};
ghost use Rattle.noise_duel.specs.Sides.{Side};

use noise_handshake::Keys;
use noise_session::{End, SendFault};
use std::alloc::{AllocError, Global};

/// Writes a payload at a party, keeps the frame after those that it wrote before, and returns the frame's number.
pub(crate) fn write<K: Keys>(
    alloc: Global,
    end: &mut End<K>,
    payload: &[u8],
    frames: &mut Vec<Vec<u8>>,
) -> Result<Result<usize, SendFault>, AllocError>
    ensures { (s : Side) → EndMatches K.pairs end.old s.state → bytes_of frames.old.items ≡ s.frames
        → IfOk result (λ reported. HasWritten K.pairs s payload.now reported end.new frames.new.items) }
{
    let room = end.frame_len(payload.len()).unwrap_or(0);
    let mut frame = vec![in alloc; 0u8; room]?;
    match end.write_into(payload, frame.as_mut_slice()) {
        Ok(len) => {
            let number = frames.len();
            frame.truncate(len);
            frames.push(frame)?;
            Ok(Ok(number))
        }
        Err(fault) => Ok(Err(fault)),
    }
}
