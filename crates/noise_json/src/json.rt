//! A value of JSON.

ghost use Rattle.std.specs.Prelude.{◌≡◌, false};
ghost use Rattle.serde_json.specs.View.{view};
ghost use Rattle.serde_json.specs.Written.{has_float};

use crate::array::Array;
use crate::object::Object;
use crate::texts::{pieces, texts};
use serde_json::Value;
use std::alloc::{AllocError, Global};

/// A value that has no fraction.
#[derive(Drop)]
pub struct Json {
    pub(crate) value: Value,
    ghost whole: { has_float (view value) ≡ false },
}

impl Json {
    ghost use Rattle.std.specs.Prelude.{IfOk};
    ghost use Rattle.serde_json.specs.Data.{null, boolean, number, unsigned, string};
    ghost use Rattle.serde_json.specs.Written.{compact_text};
    ghost use Rattle.noise_json.specs.Values.{bytes_data, hex_data, lines_data};
    ghost use Rattle.noise_json.specs.Json.{data_of};

    /// The value that stands for none.
    pub fn null() -> Json
        ensures { data_of result ≡ null }
    {
        Json { value: Value::Null }
    }

    /// A truth value.
    pub fn boolean(value: bool) -> Json
        ensures { data_of result ≡ boolean value }
    {
        Json {
            value: Value::Bool(value),
        }
    }

    /// A number.
    pub fn number(value: u64) -> Json
        ensures { data_of result ≡ number (unsigned value) }
    {
        Json {
            value: Value::from(value),
        }
    }

    /// A text.
    pub fn string(alloc: Global, text: &str) -> Result<Json, AllocError>
        ensures { IfOk result (λ json. data_of json ≡ string text.now) }
    {
        let text = String::from_str(alloc, text)?;
        Ok(Json {
            value: Value::String(text),
        })
    }

    /// These bytes as a text, or where they are none, as `{"hex": ".."}`.
    #[tactic(auto, unfolding(crate::specs::Values::bytes_data))]
    pub fn bytes(alloc: Global, bytes: &[u8]) -> Result<Json, AllocError>
        ensures { IfOk result (λ json. data_of json ≡ bytes_data bytes.now) }
    {
        match str::from_utf8(bytes) {
            Ok(text) => Json::string(alloc, text),
            Err(_) => Json::hex(alloc, bytes),
        }
    }

    /// The lines of a text: what stands before each line feed.
    pub fn lines(alloc: Global, text: &[u8]) -> Result<Json, AllocError>
        ensures { IfOk result (λ json. data_of json ≡ lines_data text.now) }
    {
        let pieces = pieces(alloc, text)?;
        let count = pieces.len().saturating_sub(1);
        Ok(texts(alloc, &pieces[..count])?.into_json())
    }

    /// Its text, with no space.
    pub fn text(&self, alloc: Global) -> Result<Vec<u8>, AllocError>
        ensures { IfOk result (λ text. text.items ≡ compact_text (data_of self.now)) }
    {
        self.value.to_vec(alloc)
    }

    // Bytes as hexadecimal digits.
    #[tactic(auto, unfolding(crate::specs::Values::hex_data))]
    fn hex(alloc: Global, bytes: &[u8]) -> Result<Json, AllocError>
        ensures { IfOk result (λ json. data_of json ≡ hex_data bytes.now) }
    {
        let digits = hex::encode(alloc, bytes)?;
        let object = Object::new(alloc).with(alloc, "hex", Json::string(alloc, digits.as_str())?)?;
        Ok(object.into_json())
    }
}
