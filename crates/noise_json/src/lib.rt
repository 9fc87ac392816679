//! Documents of JSON (RFC 8259) that have no fractions, over `serde_json`.
#![tactic(auto)]

mod array;
mod documents;
mod json;
mod object;
mod texts;

pub use array::Array;
pub use documents::{document, document_text};
pub use json::Json;
pub use object::Object;
