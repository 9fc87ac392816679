//! How two lines of a run differ.

ghost use Rattle.std.specs.Prelude.{◌≡◌, ◌⊎◌, IfNone, IfOk, IfSome};
ghost use Rattle.noise_explain.specs.StateParts.{HaveNoDifference, SaysDifference};

use crate::frame_piece::frame_difference;
use crate::state_part::state_difference;
use noise_names::ValidPattern;
use std::alloc::{AllocError, Global};

/// Of the first two lines in which a run differs from what is expected: where both are of the frame of one handshake
/// message, a line of the first byte at which the frames differ, and of the piece that stands there; where both are the
/// state of one party, a line of the part in which the states differ.
pub fn difference_line(
    alloc: Global,
    pattern: &ValidPattern,
    expected: &[u8],
    printed: &[u8],
) -> Result<Option<Vec<u8>>, AllocError>
    ensures some { IfOk result (λ found. IfSome found
        (λ line. SaysDifference pattern.now expected.now printed.now line.items)) }
    ensures none { IfOk result (λ found. IfNone found (HaveNoDifference pattern.now expected.now printed.now)) }
{
    match frame_difference(alloc, pattern, expected, printed)? {
        Some(line) => Ok(Some(line)),
        None => state_difference(alloc, expected, printed),
    }
}
