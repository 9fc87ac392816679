//! The document of a command.

ghost use Rattle.std.specs.Prelude.{◌≡◌, IfOk};
ghost use Rattle.noise_json.specs.Documents.{document, document_text};
ghost use Rattle.noise_json.specs.Json.{data_of, members_in};

use crate::json::Json;
use crate::object::Object;
use std::alloc::{AllocError, Global};

/// The document that has these facts of this command, with its exit status, and the lines that it prints else.
#[tactic(auto, unfolding(crate::specs::Documents::document))]
pub fn document(
    alloc: Global,
    command: &str,
    status: u8,
    lines: &[u8],
    facts: Object,
) -> Result<Json, AllocError>
    ensures { IfOk result (λ json. data_of json ≡ document command.now status lines.now (members_in facts)) }
{
    let object = facts
        .with(alloc, "version", Json::number(1))?
        .with(alloc, "command", Json::string(alloc, command)?)?
        .with(alloc, "status", Json::number(u64::from(status)))?
        .with(alloc, "text", Json::lines(alloc, lines)?)?;
    Ok(object.into_json())
}

/// The text of a document: one line.
#[tactic(auto, unfolding(crate::specs::Documents::document_text))]
pub fn document_text(alloc: Global, document: &Json) -> Result<Vec<u8>, AllocError>
    ensures { IfOk result (λ text. text.items ≡ document_text (data_of document.now)) }
{
    let mut text = document.text(alloc)?;
    text.push(b'\n')?;
    Ok(text)
}
