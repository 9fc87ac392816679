//! The command `list`: the fundamental patterns by name.

ghost use Rattle.std.specs.Prelude.{◌≡◌, IfOk};
ghost use Rattle.noise_lines.specs.Output.{list_text};

use noise_names::fundamental_at;
use std::alloc::{AllocError, Global};

/// The base names of the fifteen fundamental patterns, one a line, in the order of the standard (Noise, 7.4 and 7.5).
pub fn list(alloc: Global) -> Result<Vec<u8>, AllocError>
    ensures { IfOk result (λ text. text.items ≡ list_text) }
{
    let mut text = Vec::new(alloc);
    for place in 0..15 {
        if let Some(pattern) = fundamental_at(place) {
            text.extend_from_slice(pattern.base())?;
            text.push(b'\n')?;
        }
    }
    Ok(text)
}
