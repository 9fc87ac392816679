//! What is said of a wrong line of a file for a template.

ghost use Rattle.std.specs.Prelude.{◌≡◌, ◌++◌, IfOk, OnOk, string_bytes};
ghost use Rattle.noise_explain.specs.KeyLines.{expected_text, names_text, value_text, wrong_line_text};
ghost use Rattle.noise_explain.specs.Values.{takes_key};

use crate::key_lines::LineFault;
use crate::places::pattern_places;
use crate::values::{Place, place_name, takes_key};
use noise_names::Pattern;
use std::alloc::{AllocError, Global};

/// The number of a wrong line, and what is expected there.
pub fn wrong_line_text(
    alloc: Global,
    pattern: &Pattern,
    number: u64,
    why: LineFault,
) -> Result<String, AllocError>
    ensures { IfOk result (λ text. string_bytes text ≡ wrong_line_text pattern.now number why) }
{
    let places = pattern_places(alloc, pattern)?;
    let mut text = format!(in alloc; "line {number}: ")?;
    push_expected(alloc, &places, why, &mut text)?;
    Ok(text)
}

// Appends what is expected where a line is wrong.
fn push_expected(
    alloc: Global,
    places: &[Place],
    why: LineFault,
    text: &mut String,
) -> Result<(), AllocError>
    ensures { OnOk result (string_bytes text.new ≡ string_bytes text.old ++ expected_text places.now why) }
{
    match why {
        LineFault::Unknown => {
            text.push_str("expected NAME = HEX, where NAME is one of this pattern's: ")?;
            push_names(alloc, places, text)
        }
        LineFault::Twice(place) => {
            text.push_str(place_name(alloc, place)?.as_str())?;
            text.push_str(" is given twice, expected once")
        }
        LineFault::NoValue(place) => {
            text.push_str("expected ")?;
            text.push_str(value_text(takes_key(place)))?;
            text.push_str(" for ")?;
            text.push_str(place_name(alloc, place)?.as_str())
        }
    }
}

// Appends the names of places, with commas between them.
fn push_names(alloc: Global, places: &[Place], text: &mut String) -> Result<(), AllocError>
    ensures { OnOk result (string_bytes text.new ≡ string_bytes text.old ++ names_text places.now) }
{
    let Some((place, later)) = places.split_first() else {
        return Ok(());
    };
    text.push_str(place_name(alloc, *place)?.as_str())?;
    if later.is_empty() {
        return Ok(());
    }
    text.push_str(", ")?;
    push_names(alloc, later, text)
}

// What a place takes.
fn value_text(key: bool) -> &'static str
    ensures { result.now ≡ value_text key }
{
    if key {
        "64 hex digits"
    } else {
        "the hex digits of at most 65535 bytes, or a hyphen for none,"
    }
}
