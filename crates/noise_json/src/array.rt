//! An array of JSON.

ghost use Rattle.std.specs.Prelude.{◌≡◌, false};
ghost use Rattle.serde_json.specs.View.{items_view};
ghost use Rattle.serde_json.specs.Written.{items_have_float};

use crate::json::Json;
use serde_json::Value;
use std::alloc::{AllocError, Global};

/// An array whose items have no fraction.
#[derive(Drop)]
pub struct Array {
    items: Vec<Value>,
    ghost whole: { items_have_float (items_view items.items) ≡ false },
}

impl Array {
    ghost use Rattle.std.specs.Prelude.{◌++◌, ◌∷◌, [], IfOk};
    ghost use Rattle.noise_json.specs.Values.{list_data};
    ghost use Rattle.noise_json.specs.Json.{data_of, items_in};

    /// The array with no item.
    pub fn new(alloc: Global) -> Array
        ensures { items_in result ≡ [] }
    {
        Array {
            items: Vec::new(alloc),
        }
    }

    /// With this item at its end.
    pub fn with(self, item: Json) -> Result<Array, AllocError>
        ensures { IfOk result (λ array. items_in array ≡ items_in self ++ data_of item ∷ []) }
    {
        let mut items = self.items;
        items.push(item.value)?;
        Ok(Array { items })
    }

    /// The array as a value.
    pub fn into_json(self) -> Json
        ensures { data_of result ≡ list_data (items_in self) }
    {
        Json {
            value: Value::Array(self.items),
        }
    }
}
