//! Texts in an array.

ghost use Rattle.std.specs.Prelude.{◌≡◌, ◌==◌, IfOk, map};
ghost use Rattle.std.specs.List.{slice_split};
ghost use Rattle.noise_json.specs.Json.{items_in};
ghost use Rattle.noise_json.specs.Values.{bytes_data, pieces_of};

use crate::array::Array;
use crate::json::Json;
use std::alloc::{AllocError, Global};

/// These texts, each as such or as hexadecimal digits.
pub(crate) fn texts(alloc: Global, texts: &[&[u8]]) -> Result<Array, AllocError>
    ensures { IfOk result (λ array. items_in array ≡ map (λ text. bytes_data text.now) texts.now) }
{
    let mut array = Array::new(alloc);
    for text in texts {
        array = array.with(Json::bytes(alloc, text)?)?;
    }
    Ok(array)
}

/// What stands between line feeds.
pub(crate) fn pieces(alloc: Global, text: &[u8]) -> Result<Vec<&[u8]>, AllocError>
    ensures { IfOk result (λ pieces. map (λ piece. piece.now) pieces.items ≡ pieces_of text.now) }
{
    parts(alloc, text, b'\n')
}

// What stands between these bytes.
fn parts(alloc: Global, text: &[u8], separator: u8) -> Result<Vec<&[u8]>, AllocError>
    ensures { IfOk result (λ v. map (λ part. part.now) v.items ≡ slice_split (λ b. b == separator) text.now) }
{
    text.split(|b| *b == separator).collect(alloc)
}
