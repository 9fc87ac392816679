//! Pattern names as words of the command line (Noise, 8): `XXpsk3` is that of `Noise_XXpsk3_25519_ChaChaPoly_SHA256`.

ghost use Rattle.std.specs.Prelude.{◌≡◌, ◌≤◌, ◌⊎◌, ℕ, List, IfErr, IfNone, IfOk, IfSome, false, true, vec_len};
ghost use Rattle.noise_lines.specs.Faults.{status_of};
ghost use Rattle.noise_lines.specs.Output.{NamesPattern, show_text};
ghost use Rattle.noise_names.specs.Plan.{Plan};
ghost use Rattle.noise_tool.specs.PatternNames.{IsShownFault, NamesFundamental, NamesText, StandsFor, whole_name};

use noise_lines::{Fault, named_pattern, show};
use noise_names::{NAME_PREFIX, NAME_SUFFIX, ProtocolName, fundamental};
use std::alloc::{AllocError, Global};

/// What `show` prints of the protocol name that a word stands for.
pub(crate) fn show_word(alloc: Global, word: &str) -> Result<Vec<u8>, Fault>
    ensures shown { IfOk result (λ text. (bytes : List ℕ) × StandsFor word.now bytes
        × (p : Plan) × NamesPattern bytes p × (text.items ≡ show_text p)) }
    ensures fault { IfErr result (λ fault. (status_of fault ≡ 3) ⊎ IsShownFault word.now fault) }
{
    let name = protocol_name(alloc, word)?;
    show(alloc, &name)
}

/// The text of the pattern that has this name, if there is one.
pub(crate) fn pattern_text(alloc: Global, word: &str) -> Result<Option<Vec<u8>>, AllocError>
    ensures some { IfOk result (λ found. IfSome found (λ text. NamesText word.now text.items)) }
    ensures bound { IfOk result (λ found. IfSome found (λ text. vec_len text ≤ 4194304)) }
    ensures none { IfOk result (λ found. IfNone found ((text : List ℕ) → NamesText word.now text → ⊥)) }
{
    let whole = whole_name(alloc, word.as_bytes())?;
    let Ok(name) = ProtocolName::parse(&whole) else {
        return Ok(None);
    };
    let Ok(pattern) = named_pattern(&name) else {
        return Ok(None);
    };
    let mut text = Vec::new(alloc);
    pattern.write_text(&mut text)?;
    Ok(Some(text))
}

// The protocol name that a word stands for.
fn protocol_name(alloc: Global, word: &str) -> Result<Vec<u8>, AllocError>
    ensures { IfOk result (λ bytes. StandsFor word.now bytes.items) }
{
    let whole = whole_name(alloc, word.as_bytes())?;
    if names_fundamental(&whole) {
        return Ok(whole);
    }
    Vec::from_slice(alloc, word.as_bytes())
}

/// The protocol name with this pattern name.
pub fn whole_name(alloc: Global, word: &[u8]) -> Result<Vec<u8>, AllocError>
    ensures { IfOk result (λ bytes. bytes.items ≡ whole_name word.now) }
{
    let mut bytes = Vec::new(alloc);
    bytes.extend_from_slice(NAME_PREFIX)?;
    bytes.extend_from_slice(word)?;
    bytes.extend_from_slice(NAME_SUFFIX)?;
    Ok(bytes)
}

// Whether these bytes are a protocol name whose base is that of a fundamental pattern.
fn names_fundamental(bytes: &[u8]) -> bool
    ensures some { result ≡ true → NamesFundamental bytes.now }
    ensures none { result ≡ false → NamesFundamental bytes.now → ⊥ }
{
    match ProtocolName::parse(bytes) {
        Ok(name) => fundamental(name.base()).is_some(),
        Err(_) => false,
    }
}
