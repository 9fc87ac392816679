//! What a command answers.

ghost use Rattle.std.specs.Prelude.{◌≡◌, ◌≤◌, []};

/// A text: bytes, then the lines of a start, and then lines, each with those that follow it.
#[derive(Drop)]
pub struct Text {
    pub head: Vec<u8>,
    pub start: Vec<Vec<u8>>,
    pub lines: Vec<Vec<u8>>,
    pub traces: Vec<Vec<Vec<u8>>>,
}

/// What a command prints to the output and to the error output, and its exit status. At status 0 the error output gets
/// nothing.
#[derive(Drop)]
pub struct Answer {
    pub(crate) out: Text,
    pub(crate) err: Vec<u8>,
    pub(crate) status: u8,
    ghost few: { status ≤ 3 },
    ghost quiet: { status ≡ 0 → err.items ≡ [] },
}
