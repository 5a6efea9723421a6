//! Raw values as JSON has them, alone and under names.
ghost use Rattle.std.specs.Prelude.{◌≡◌, ◌∷◌, [], ◌++◌, IfOk, IfSome, OnOk, OnErr, chars, option_map};
ghost use Rattle.serde_json.specs.View.{view, members_view};
ghost use Rattle.dv_value.specs.Raws.{raw_of, values_of, value_of, HasAscendingNames};

use crate::capacity::items_with_capacity;
use crate::text::Text;
use serde_json::{Map, Value as Json};
use sqlite_items::Items;
use std::alloc::{AllocError, Global};
use std::marker::Model;

/// A value as JSON has it, before a column gives it a kind: null, a truth value, an integer or a text.
#[derive(Debug, Drop)]
pub enum Raw {
    Null,
    Bool(bool),
    Int(i64),
    Str(Text),
}

impl Raw {
    /// The raw value that a JSON value is, whose text is taken over and not copied. None for a list, an object, and a
    /// number that isn't an integer of 64 bits.
    #[tactic(auto, unfolding(crate::specs::Raws::raw_of))]
    pub fn from_json(json: Json) -> Option<Raw>
        ensures { result ≡ raw_of (view json) }
    {
        match json {
            Json::Null => Some(Raw::Null),
            Json::Bool(flag) => Some(Raw::Bool(flag)),
            Json::Number(number) => match number.as_i64() {
                Some(n) => Some(Raw::Int(n)),
                None => None,
            },
            Json::String(text) => Some(Raw::Str(Text::from_string(text))),
            Json::Array(_) | Json::Object(_) => None,
        }
    }

    /// An equal raw value.
    pub fn copy(&self, alloc: Global) -> Result<Raw, AllocError>
        ensures { IfOk result (λ copied. copied ≡ self.now) }
    {
        match self {
            Raw::Null => Ok(Raw::Null),
            Raw::Bool(flag) => Ok(Raw::Bool(*flag)),
            Raw::Int(n) => Ok(Raw::Int(*n)),
            Raw::Str(text) => Ok(Raw::Str(text.copy(alloc)?)),
        }
    }
}

/// Raw values under their names. They are made of the members of an object, so that each name stands once and the
/// names ascend by their bytes.
#[derive(Debug, Drop)]
pub struct Values {
    items: Items<(Text, Raw)>,
}

impl Model for Values {
    ghost use Rattle.std.specs.Prelude.{ℕ, List};
    ghost use Rattle.dv_value.specs.declared.raw.Raw.{Raw};

    ghost Value = { List (List ℕ × Raw) };

    ghost view = { λ v. v.items };
}

impl Values {
    /// No values.
    pub fn new(alloc: Global) -> Values
        ensures { result ≡ [] }
    {
        Values {
            items: Items::new(alloc),
        }
    }

    /// The values in the order of their names.
    pub fn as_slice(&self) -> &[(Text, Raw)]
        ensures { result.now ≡ self.now }
    {
        self.items.as_slice()
    }

    /// The values that an object's members are, each name once, in ascending byte order. Names and texts are taken
    /// over and not copied. None where one of the members isn't a raw value.
    pub fn from_json(
        alloc: Global,
        members: Map<String, Json>,
    ) -> Result<Option<Values>, AllocError>
        ensures values { IfOk result (λ values. values ≡ values_of (members_view members.entries)) }
        ensures ascending { IfOk result (λ values. IfSome values HasAscendingNames) }
    {
        let mut values = Values::with_capacity(alloc, members.len())?;
        for (name, json) in members {
            match Raw::from_json(json) {
                Some(value) => values.push(Text::from_string(name), value)?,
                None => return Ok(None),
            }
        }
        Ok(Some(values))
    }

    /// The value of a name, if there is one.
    pub fn get(&self, name: &str) -> Option<&Raw>
        ensures { option_map (λ raw. raw.now) result ≡ value_of (chars name.now) self.now }
    {
        match self.items.as_slice().iter().find(|item| item.0.is(name)) {
            Some(item) => Some(&item.1),
            None => None,
        }
    }

    /// Equal values under the same names.
    pub fn copy(&self, alloc: Global) -> Result<Values, AllocError>
        ensures { IfOk result (λ copied. copied ≡ self.now) }
    {
        let mut values = Values::with_capacity(alloc, self.items.len())?;
        for (name, value) in self.as_slice() {
            values.push(name.copy(alloc)?, value.copy(alloc)?)?;
        }
        Ok(values)
    }

    // No values, with room for so many.
    fn with_capacity(alloc: Global, capacity: usize) -> Result<Values, AllocError>
        ensures { IfOk result (λ values. values ≡ []) }
    {
        Ok(Values {
            items: items_with_capacity(alloc, capacity)?,
        })
    }

    // Adds a value at the end.
    fn push(&mut self, name: Text, value: Raw) -> Result<(), AllocError>
        ensures ok { OnOk result (self.new ≡ self.old ++ (name, value) ∷ []) }
        ensures err { OnErr result (self.new ≡ self.old) }
    {
        self.items.push((name, value))
    }
}
