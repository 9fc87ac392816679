//! What is shown of a file's name.

ghost use Rattle.std.specs.Prelude.{◌≡◌, ◌++◌, OnOk};
ghost use Rattle.noise_lines.specs.PrintedWords.{is_printed_byte};
ghost use Rattle.noise_lines.specs.Shown.{shown_text, shown_byte};

use noise_vectors::hex_word;
use std::alloc::AllocError;

/// Appends these bytes as they are shown: printed ASCII as it is, and any other byte as `\x` and two hex digits.
pub fn push_shown(bytes: &[u8], text: &mut Vec<u8>) -> Result<(), AllocError>
    ensures { OnOk result (text.new.items ≡ text.old.items ++ shown_text bytes.now) }
{
    for byte in bytes {
        push_byte(*byte, text)?;
    }
    Ok(())
}

fn push_byte(byte: u8, text: &mut Vec<u8>) -> Result<(), AllocError>
    ensures { OnOk result (text.new.items ≡ text.old.items ++ shown_byte byte) }
{
    if is_printed(byte) {
        text.push(byte)?;
        return Ok(());
    }
    text.extend_from_slice(b"\\x".as_slice())?;
    hex_word(&[byte], text)
}

fn is_printed(byte: u8) -> bool
    ensures { result ≡ is_printed_byte byte }
{
    32 <= byte && byte <= 126
}
