// What a job gives, in JSON or in a flat job: rows, values of fields, and lists.
ghost use Rattle.std.specs.Prelude.{◌≡◌, ◌<◌, Some, length, map, option_map, option_and_then, is_some, slice_get};
ghost use Rattle.serde_json.specs.Find.{get, as_array, as_bool, as_i64, as_null, as_number, as_object, as_str, as_u64};
ghost use Rattle.serde_json.specs.View.{view};
ghost use Rattle.serde_json.specs.Written.{has_float};
ghost use Rattle.jsgen_fields.specs.Given.{given_data, given_items, row_data};
ghost use Rattle.jsgen_fields.specs.Values.{listed};

use crate::floats::holds_float;
use jsgen_flat::rows::FlatRow;
use jsgen_flat::values::{FlatItems, FlatValue};
use serde_json::Value;

/// A row.
#[derive(Clone, Copy)]
pub enum GivenRow<'v> {
    Json(&'v Value),
    Flat(FlatRow<'v>),
}

/// What a field is given.
#[derive(Clone, Copy)]
pub enum Given<'v> {
    Json(&'v Value),
    Flat(FlatValue<'v>),
}

/// The items of a list.
#[derive(Clone, Copy)]
pub enum GivenItems<'v> {
    Json(&'v [Value]),
    Flat(FlatItems<'v>),
}

impl<'v> GivenRow<'v> {
    /// What stands under a name, which may be null.
    pub fn get(&self, name: &str) -> Option<Given<'v>>
        ensures { option_map given_data result ≡ get name.now (row_data self.now) }
    {
        match self {
            GivenRow::Json(row) => match row.get(name) {
                Some(value) => Some(Given::Json(value)),
                None => None,
            },
            GivenRow::Flat(row) => match row.get(name) {
                Some(value) => Some(Given::Flat(value)),
                None => None,
            },
        }
    }

    /// The same. A row of a flat job is asked at the field of this number first.
    pub fn get_at(&self, field: usize, name: &str) -> Option<Given<'v>>
        ensures { option_map given_data result ≡ get name.now (row_data self.now) }
    {
        match self {
            GivenRow::Json(_) => self.get(name),
            GivenRow::Flat(row) => match row.get_at(field, name) {
                Some(value) => Some(Given::Flat(value)),
                None => None,
            },
        }
    }

    #[tactic(auto, unfolding(jsgen_flat::specs::Flat::row_data))]
    pub fn is_object(&self) -> bool
        ensures { result ≡ is_some (as_object (row_data self.now)) }
    {
        match self {
            GivenRow::Json(row) => row.as_object().is_some(),
            GivenRow::Flat(_) => true,
        }
    }
}

impl<'v> Given<'v> {
    pub fn is_null(&self) -> bool
        ensures { result ≡ is_some (as_null (given_data self.now)) }
    {
        match self {
            Given::Json(value) => value.is_null(),
            Given::Flat(value) => matches!(value, FlatValue::Null),
        }
    }

    pub fn as_str(&self) -> Option<&'v str>
        ensures { option_map (λ s. s.now) result ≡ as_str (given_data self.now) }
    {
        match self {
            Given::Json(value) => value.as_str(),
            Given::Flat(FlatValue::Text(text)) => Some(*text),
            Given::Flat(_) => None,
        }
    }

    pub fn as_bool(&self) -> Option<bool>
        ensures { result ≡ as_bool (given_data self.now) }
    {
        match self {
            Given::Json(value) => value.as_bool(),
            Given::Flat(FlatValue::Flag(flag)) => Some(*flag),
            Given::Flat(_) => None,
        }
    }

    pub fn as_u64(&self) -> Option<u64>
        ensures { result ≡ option_and_then as_u64 (as_number (given_data self.now)) }
    {
        match self {
            Given::Json(value) => value.as_u64(),
            Given::Flat(FlatValue::Number(number)) => Some(u64::from(*number)),
            Given::Flat(_) => None,
        }
    }

    pub fn as_i64(&self) -> Option<i64>
        ensures { result ≡ option_and_then as_i64 (as_number (given_data self.now)) }
    {
        match self {
            Given::Json(value) => value.as_i64(),
            Given::Flat(FlatValue::Number(number)) => Some(i64::from(*number)),
            Given::Flat(_) => None,
        }
    }

    /// The items of a list.
    #[tactic(auto, using(crate::proofs::Listed::lists))]
    pub fn items(&self) -> Option<GivenItems<'v>>
        ensures { option_map given_items result ≡ option_map listed (as_array (given_data self.now)) }
    {
        match self {
            Given::Json(value) => match value.as_array() {
                Some(items) => Some(GivenItems::Json(items.as_slice())),
                None => None,
            },
            Given::Flat(FlatValue::Items(items)) => Some(GivenItems::Flat(*items)),
            Given::Flat(_) => None,
        }
    }

    /// Whether a float stands in it, at any depth.
    #[tactic(auto, using(jsgen_flat::proofs::Views::no_float))]
    pub fn holds_float(&self) -> bool
        ensures { result ≡ has_float (given_data self.now) }
    {
        match self {
            Given::Json(value) => holds_float(value),
            Given::Flat(_) => false,
        }
    }
}

#[tactic(auto, using(crate::proofs::Listed::mapped_at))]
fn value_at<'v>(values: &'v [Value], index: usize) -> Given<'v>
    requires { index < length values.now }
    ensures { Some (given_data result) ≡ slice_get (map view values.now) index }
{
    Given::Json(&values[index])
}

impl<'v> GivenItems<'v> {
    pub fn len(&self) -> usize
        ensures { result ≡ length (given_items self.now) }
    {
        match self {
            GivenItems::Json(values) => values.len(),
            GivenItems::Flat(items) => items.len(),
        }
    }

    /// The item at a place, counted from 0.
    #[tactic(auto, using(jsgen_flat::proofs::Items::count_of, crate::proofs::Listed::mapped_length))]
    pub fn item(&self, index: usize) -> Given<'v>
        requires { index < length (given_items self.now) }
        ensures { Some (given_data result) ≡ slice_get (given_items self.now) index }
    {
        match self {
            GivenItems::Json(values) => value_at(values, index),
            GivenItems::Flat(items) => Given::Flat(items.item(index)),
        }
    }
}
