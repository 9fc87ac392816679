//! Lines of output.

ghost use Rattle.std.specs.Prelude.{◌≡◌, ◌++◌, ◌∷◌, IfOk, IsTrue, decimal};
ghost use Rattle.noise_lines.specs.PrintedWords.{is_printed};
ghost use Rattle.noise_names.specs.Text.{word_of};
ghost use Rattle.noise_vectors.specs.HexWord.{hex_of};
ghost use Rattle.noise_vectors.specs.VectorFile.{IsExpected};
ghost use Rattle.noise_vectors.specs.VectorText as text;

use noise_names::{Role, Token};
use noise_vectors::hex_word;
use std::alloc::{AllocError, Global};

/// A line of output, made word by word. It is at least one byte, and each one is printed.
#[derive(Drop)]
pub struct Line {
    alloc: Global,
    text: Vec<u8>,
    ghost printed: { IsTrue (is_printed text.items) },
}

impl Line {
    /// The line of this one word.
    pub fn new(alloc: Global, word: &str) -> Result<Line, AllocError>
        requires printed { IsTrue (is_printed word.now) }
        ensures text { IfOk result (λ line. line.text.items ≡ word.now) }
    {
        let mut text = Vec::new(alloc);
        text.extend_from_slice(word.as_bytes())?;
        Ok(Line { alloc, text })
    }

    /// With one word more.
    pub fn word(self, word: &str) -> Result<Line, AllocError>
        requires printed { IsTrue (is_printed word.now) }
        ensures text { IfOk result (λ line. line.text.items ≡ self.text.items ++ 32 ∷ word.now) }
    {
        let Line { alloc, mut text } = self;
        text.push(b' ')?;
        text.extend_from_slice(word.as_bytes())?;
        Ok(Line { alloc, text })
    }

    /// With one word more: a number.
    pub fn number(self, number: u64) -> Result<Line, AllocError>
        ensures { IfOk result (λ line. line.text.items ≡ self.text.items ++ 32 ∷ decimal number) }
    {
        let digits = format!(in self.alloc; "{number}")?;
        self.word(digits.as_str())
    }

    /// With one word more: bytes in hex.
    pub fn hex(self, bytes: &[u8]) -> Result<Line, AllocError>
        ensures { IfOk result (λ line. line.text.items ≡ self.text.items ++ 32 ∷ hex_of bytes.now) }
    {
        let Line { alloc, mut text } = self;
        text.push(b' ')?;
        hex_word(bytes, &mut text)?;
        Ok(Line { alloc, text })
    }

    /// The line, without an LF.
    pub fn into_bytes(self) -> Vec<u8>
        ensures text { result.items ≡ self.text.items }
        ensures printed { IsExpected result.items }
    {
        self.text
    }
}

/// The word for a role.
pub fn role_word(role: Role) -> &'static str
    ensures text { result.now ≡ text.role_word role }
    ensures printed { IsTrue (is_printed result.now) }
{
    match role {
        Role::Initiator => "initiator",
        Role::Responder => "responder",
    }
}

/// The word for a token, as in pattern texts (Noise, 7.1).
pub fn token_word(token: Token) -> &'static str
    ensures text { result.now ≡ word_of token }
    ensures printed { IsTrue (is_printed result.now) }
{
    match token {
        Token::E => "e",
        Token::S => "s",
        Token::Ee => "ee",
        Token::Es => "es",
        Token::Se => "se",
        Token::Ss => "ss",
        Token::Psk => "psk",
    }
}
