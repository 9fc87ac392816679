//! What the logged values of a step show.

ghost use Rattle.std.specs.Prelude.{◌≡◌, ◌≤◌, ◌++◌, ◌∷◌, [], IfOk, OnOk, length, option_copied};
ghost use Rattle.noise_compare.specs.Shown.{apart, differing_text, found_text, is_printable, is_words, logged_line, logged_text, nonce_line, nonce_text, printable, printable_head, printable_text, right_line, shortest, shown_text, unfound_text, value_line};

use crate::equation::{Equation, Value};
use crate::equation_words::{equation_text, push_parts, value_word};
use crate::holding::{found_equations, is_value_right};
use crate::report::push_line;
use crate::sources::logged_value;
use crate::state::{Kind, Logged, Situation};
use std::alloc::{AllocError, Global};

/// Appends a line for each value that is logged: that it is right, or the shortest equation that holds of it; and for the
/// nonce, where it isn't right.
pub(crate) fn push_shown(
    alloc: Global,
    at: &Situation<'_>,
    logged: &Logged,
    text: &mut Vec<u8>,
) -> Result<(), AllocError>
    ensures { OnOk result (text.new.items ≡ text.old.items ++ shown_text at.now logged.now) }
{
    push_line(
        "what they show, by the right values before this step:",
        text,
    )?;
    push_value_line(alloc, Value::Bytes, at, logged, text)?;
    push_value_line(alloc, Value::Hash, at, logged, text)?;
    push_value_line(alloc, Value::ChainingKey, at, logged, text)?;
    push_value_line(alloc, Value::Key, at, logged, text)?;
    push_nonce_line(alloc, at, logged, text)?;
    Ok(())
}

fn push_value_line(
    alloc: Global,
    value: Value,
    at: &Situation<'_>,
    logged: &Logged,
    text: &mut Vec<u8>,
) -> Result<(), AllocError>
    ensures { OnOk result (text.new.items ≡ text.old.items ++ value_line value at.now logged.now) }
{
    let bytes = logged_value(value, logged);
    push_if_logged(alloc, value, at, logged, bytes, text)
}

fn push_if_logged(
    alloc: Global,
    value: Value,
    at: &Situation<'_>,
    logged: &Logged,
    bytes: Option<&[u8]>,
    text: &mut Vec<u8>,
) -> Result<(), AllocError>
    ensures { OnOk result (text.new.items
        ≡ text.old.items ++ logged_text value at.now logged.now (option_copied bytes.entry)) }
{
    match bytes {
        Some(bytes) => push_logged(alloc, value, at, logged, bytes, text),
        None => Ok(()),
    }
}

// Appends that a value is right, or what the equations that hold of it show.
fn push_logged(
    alloc: Global,
    value: Value,
    at: &Situation<'_>,
    logged: &Logged,
    bytes: &[u8],
    text: &mut Vec<u8>,
) -> Result<(), AllocError>
    ensures { OnOk result (text.new.items ≡ text.old.items ++ logged_line value at.now logged.now bytes.now) }
{
    if is_value_right(value, at, logged) {
        return push_right(value, text);
    }
    let found = found_equations(alloc, value, at, logged)?;
    push_differing(alloc, value, at.kind, bytes, &found, text)
}

#[tactic(auto, unfolding(crate::specs::Shown::right_line))]
fn push_right(value: Value, text: &mut Vec<u8>) -> Result<(), AllocError>
    ensures { OnOk result (text.new.items ≡ text.old.items ++ right_line value) }
{
    push_parts(
        &[b"    ", value_word(value).as_bytes(), b" is right\n"],
        text,
    )
}

// Appends what these equations show of a value.
fn push_differing(
    alloc: Global,
    value: Value,
    kind: Kind,
    bytes: &[u8],
    found: &[Equation],
    text: &mut Vec<u8>,
) -> Result<(), AllocError>
    ensures { OnOk result (text.new.items ≡ text.old.items ++ differing_text value kind bytes.now found.now) }
{
    match found {
        [] => push_unfound(value, bytes, text),
        [first, more @ ..] => push_found(alloc, kind, *first, more, text),
    }
}

#[tactic(auto, unfolding(crate::specs::Shown::unfound_text))]
fn push_unfound(value: Value, bytes: &[u8], text: &mut Vec<u8>) -> Result<(), AllocError>
    ensures { OnOk result (text.new.items ≡ text.old.items ++ unfound_text value bytes.now) }
{
    if is_words(bytes) {
        return push_printable(value, &bytes[..printable(bytes)], text);
    }
    push_parts(
        &[
            b"    ",
            value_word(value).as_bytes(),
            b": no equation that is tried holds\n",
        ],
        text,
    )
}

#[tactic(auto, unfolding(crate::specs::Shown::printable_text))]
fn push_printable(value: Value, characters: &[u8], text: &mut Vec<u8>) -> Result<(), AllocError>
    ensures { OnOk result (text.new.items ≡ text.old.items ++ printable_text value characters.now) }
{
    push_printable_head(value, text)?;
    push_characters(characters, text)
}

#[tactic(auto, unfolding(crate::specs::Shown::printable_head))]
fn push_printable_head(value: Value, text: &mut Vec<u8>) -> Result<(), AllocError>
    ensures { OnOk result (text.new.items ≡ text.old.items ++ printable_head value) }
{
    push_parts(
        &[b"    ", value_word(value).as_bytes(), b" is the text "],
        text,
    )
}

// Appends characters and a line feed.
fn push_characters(characters: &[u8], text: &mut Vec<u8>) -> Result<(), AllocError>
    ensures { OnOk result (text.new.items ≡ text.old.items ++ (characters.now ++ 10 ∷ [])) }
{
    text.extend_from_slice(characters)?;
    text.push(b'\n')?;
    Ok(())
}

// Whether these are 8 printable characters and more, and zeros.
fn is_words(bytes: &[u8]) -> bool
    ensures { result ≡ is_words bytes.now }
{
    let end = printable(bytes);
    8 <= end && bytes[end..].iter().filter(|b| **b != 0).count() == 0
}

// How many characters in front are printable.
fn printable(bytes: &[u8]) -> usize
    ensures value { result ≡ printable bytes.now }
    ensures within { result ≤ length bytes.now }
{
    bytes.iter().take_while(|b| is_printable(**b)).count()
}

fn is_printable(byte: u8) -> bool
    ensures { result ≡ is_printable byte }
{
    32 <= byte && byte <= 126
}

// Appends the shortest of these equations, and how many they are.
#[tactic(auto, unfolding(crate::specs::Shown::found_text))]
fn push_found(
    alloc: Global,
    kind: Kind,
    first: Equation,
    more: &[Equation],
    text: &mut Vec<u8>,
) -> Result<(), AllocError>
    ensures { OnOk result (text.new.items ≡ text.old.items ++ found_text kind first more.now) }
{
    let best = shortest(alloc, kind, first, more)?;
    if more.is_empty() {
        return push_parts(&[b"    ", best.as_slice(), b"\n"], text);
    }
    let count = more.len() + 1;
    let count = format!(in alloc; "{count}")?;
    push_parts(
        &[
            b"    ",
            best.as_slice(),
            b", the shortest of ",
            count.as_bytes(),
            b" equations that hold\n",
        ],
        text,
    )
}

// The text of the first of the shortest of these equations.
fn shortest(
    alloc: Global,
    kind: Kind,
    first: Equation,
    more: &[Equation],
) -> Result<Vec<u8>, AllocError>
    ensures { IfOk result (λ text. text.items ≡ shortest kind first more.now) }
{
    let mut best = equation_text(alloc, kind, first)?;
    for equation in more {
        let text = equation_text(alloc, kind, *equation)?;
        if text.len() < best.len() {
            best = text;
        }
    }
    Ok(best)
}

// Appends a line for a nonce that is logged and isn't right.
fn push_nonce_line(
    alloc: Global,
    at: &Situation<'_>,
    logged: &Logged,
    text: &mut Vec<u8>,
) -> Result<(), AllocError>
    ensures { OnOk result (text.new.items ≡ text.old.items ++ nonce_line at.now logged.now) }
{
    match logged.nonce {
        None => Ok(()),
        Some(nonce) => push_nonce(alloc, at.right.nonce, nonce, text),
    }
}

#[tactic(auto, unfolding(crate::specs::Shown::nonce_text))]
fn push_nonce(alloc: Global, right: u64, nonce: u64, text: &mut Vec<u8>) -> Result<(), AllocError>
    ensures { OnOk result (text.new.items ≡ text.old.items ++ nonce_text right nonce) }
{
    if nonce == right {
        return Ok(());
    }
    if nonce == 0 {
        return push_line("    n = 0", text);
    }
    if right < nonce {
        push_apart(alloc, b"    n = right n + ", nonce - right, text)
    } else {
        push_apart(alloc, b"    n = right n - ", right - nonce, text)
    }
}

fn push_apart(alloc: Global, words: &[u8], by: u64, text: &mut Vec<u8>) -> Result<(), AllocError>
    ensures { OnOk result (text.new.items ≡ text.old.items ++ apart words.now by) }
{
    let number = format!(in alloc; "{by}")?;
    push_parts(&[words, number.as_bytes(), b"\n"], text)
}
