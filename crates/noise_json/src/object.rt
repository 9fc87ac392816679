//! An object of JSON.

ghost use Rattle.std.specs.Prelude.{◌≡◌, false};
ghost use Rattle.serde_json.specs.View.{members_view};
ghost use Rattle.serde_json.specs.Written.{members_have_float};

use crate::json::Json;
use serde_json::{Map, Value};
use std::alloc::{AllocError, Global};

/// An object whose members have no fraction.
#[derive(Drop)]
pub struct Object {
    members: Map<String, Value>,
    ghost whole: { members_have_float (members_view members.entries) ≡ false },
}

impl Object {
    ghost use Rattle.std.specs.Prelude.{IfOk};
    ghost use Rattle.serde_json.specs.Data.{no_members, object};
    ghost use Rattle.noise_json.specs.Values.{with};
    ghost use Rattle.noise_json.specs.Json.{data_of, members_in};

    /// The object with no member.
    pub fn new(alloc: Global) -> Object
        ensures { members_in result ≡ no_members }
    {
        Object {
            members: Map::new(alloc),
        }
    }

    /// With this member too. One of the same name gives way to it.
    #[tactic(auto, unfolding(crate::specs::Values::with))]
    pub fn with(self, alloc: Global, name: &str, value: Json) -> Result<Object, AllocError>
        ensures { IfOk result (λ object. members_in object ≡ with name.now (data_of value) (members_in self)) }
    {
        let mut members = self.members;
        serde_json::put(&mut members, alloc, name, value.value)?;
        Ok(Object { members })
    }

    /// The object as a value.
    pub fn into_json(self) -> Json
        ensures { data_of result ≡ object (members_in self) }
    {
        Json {
            value: Value::Object(self.members),
        }
    }
}
