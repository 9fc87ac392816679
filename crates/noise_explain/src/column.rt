//! The column of a fault of a pattern text.

ghost use Rattle.std.specs.Prelude.{◌≡◌, ◌≢◌, ◌++◌, ℕ, List, IfNone, IfSome, codes, drop};
ghost use Rattle.noise_names.specs.declared.token.Token.{Token};
ghost use Rattle.noise_names.specs.Text.{word_of};
ghost use Rattle.noise_explain.specs.Positions.{IsColumn, IsWrongPiece, arrow_column, heading_column};

use noise_names::{TextFaultKind, Token, base_len};

/// The column of a fault of this kind in the line of this number.
pub fn column_of(kind: TextFaultKind, number: usize, line: &[u8]) -> usize
    ensures { IsColumn kind number line.now result }
{
    match kind {
        TextFaultKind::Heading => heading_column(line),
        TextFaultKind::Arrow => arrow_column(line),
        TextFaultKind::Token => piece_column(after_arrow(line)),
        TextFaultKind::PreMessage | TextFaultKind::Turn | TextFaultKind::Limit => 3,
        TextFaultKind::PskPlace if number == 1 => heading_column(line),
        TextFaultKind::PskPlace => 6,
        TextFaultKind::NameTaken => 1,
        TextFaultKind::Ending => line.len() + 1,
    }
}

fn heading_column(line: &[u8]) -> usize
    ensures { result ≡ heading_column line.now }
{
    match line.split_first() {
        Some((first, _)) if first.is_ascii_uppercase() => base_len(line).min(8) + 1,
        _ => 1,
    }
}

fn arrow_column(line: &[u8]) -> usize
    ensures { result ≡ arrow_column line.now }
{
    if !line.starts_with(b"  ".as_slice()) {
        1
    } else if line.starts_with(b"  ->".as_slice()) || line.starts_with(b"  <-".as_slice()) {
        5
    } else {
        3
    }
}

// What follows an arrow and the spaces round it, which are five bytes.
pub(crate) fn after_arrow(line: &[u8]) -> &[u8]
    ensures { result.now ≡ drop 5 line.now }
{
    let (_, list) = line.split_at(line.len().min(5));
    list
}

// The column of the first piece of a list of tokens that isn't a token with a comma and a space after it.
pub(crate) fn piece_column(list: &[u8]) -> usize
    ensures { IsWrongPiece list.now result }
{
    let mut left = list;
    while let Some(after) = after_word(left) {
        left = after;
    }
    list.len() - left.len() + 6
}

// What follows the token at the front of a list, and the comma and the space after it.
fn after_word(list: &[u8]) -> Option<&[u8]>
    ensures some { IfSome result (λ rest. (t : Token) × (list.now ≡ word_of t ++ (codes ", " ++ rest.now))) }
    ensures none { IfNone result ((t : Token) (rest : List ℕ) → list.now ≢ word_of t ++ (codes ", " ++ rest)) }
{
    let (_, after) = Token::parse_first(list)?;
    after.strip_prefix(b", ")
}
