//! Lines and columns of a text.

ghost use Rattle.std.specs.Prelude.{◌≡◌, ◌-◌, length};
ghost use Rattle.noise_names.specs.WrongText.{first_line};
ghost use Rattle.noise_explain.specs.Positions.{after_line, from_line, line_at};

/// A position in a text.
#[derive(Clone, Copy)]
pub struct Position {
    /// The line, counted from 1.
    pub line: usize,
    /// The byte in the line, counted from 1. The line's end counts as a byte more.
    pub column: usize,
}

/// The line of this number, from 1, without its line feed. It is empty where the text has fewer lines.
pub fn line_at(text: &[u8], number: usize) -> &[u8]
    ensures { result.now ≡ line_at text.now number }
{
    first_line(from_line(text, number))
}

/// The text from the line of this number on. It is empty where the text has fewer lines.
pub(crate) fn from_line(text: &[u8], number: usize) -> &[u8]
    ensures { result.now ≡ from_line number text.now }
{
    let mut rest = text;
    let mut left = number.saturating_sub(1);
    'lines: while left > 0 {
        rest = after_line(rest);
        left -= 1;
    }
    rest
}

fn first_line(text: &[u8]) -> &[u8]
    ensures { result.now ≡ first_line text.now }
{
    let (line, _) = text.split_at(line_len(text));
    line
}

/// What follows the first line and its line feed.
pub fn after_line(text: &[u8]) -> &[u8]
    ensures { result.now ≡ after_line text.now }
{
    let (_, rest) = text.split_at(line_len(text));
    match rest.split_first() {
        Some((_, after)) => after,
        None => rest,
    }
}

// How many bytes come before the first line feed.
fn line_len(text: &[u8]) -> usize
    ensures { result ≡ length (first_line text.now) }
{
    text.iter().take_while(|b| **b != b'\n').count()
}
