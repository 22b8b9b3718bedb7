// What stands in the head of a job, which is JSON in a flat job too.
ghost use Rattle.std.specs.Prelude.{◌≡◌, false, map, option_map};
ghost use Rattle.serde_json.specs.View.{view};
ghost use Rattle.jsgen_fields.specs.declared.InputFault.TheVariants.{Wrong};
ghost use Rattle.jsgen_fields.specs.Values.{Same, or_fault, field, field_in, text_in, items_in, number_of_bits};

use crate::floats::holds_float;
use crate::{At, InputFault};
use serde_json::Value;

/// What stands under a name; null counts as absent.
pub fn present<'v>(object: &'v Value, name: &str) -> Option<&'v Value>
    ensures { option_map (λ v. view v.now) result ≡ field name.now (view object.now) }
{
    match object.get(name) {
        Some(value) => { if value.is_null() { None } else { Some(value) } }
        None => None,
    }
}

pub fn optional_value<'v>(
    at: At,
    row: &'v Value,
    name: &str,
) -> Result<Option<&'v Value>, InputFault>
    ensures { Same (λ o. option_map (λ v. view v.now) o) result (field_in at false (field name.now (view row.now))) }
{
    let Some(value) = present(row, name) else {
        return Ok(None);
    };
    if holds_float(value) {
        return Err(InputFault::Float(at));
    }
    Ok(Some(value))
}

pub fn text_in(at: At, value: &Value) -> Result<&str, InputFault>
    ensures { Same (λ s. s.now) result (text_in at (view value.now)) }
{
    match value.as_str() {
        Some(text) => Ok(text),
        None => Err(InputFault::Wrong(at)),
    }
}

#[tactic(auto, using(crate::proofs::Listed::lists))]
pub fn items_in(at: At, value: &Value) -> Result<&Vec<Value>, InputFault>
    ensures { Same (λ v. map view v.now.items) result (items_in at (view value.now)) }
{
    match value.as_array() {
        Some(list) => Ok(list),
        None => Err(InputFault::Wrong(at)),
    }
}

fn short_number(value: &Value) -> Option<u32>
    ensures { result ≡ number_of_bits 32 (view value.now) }
{
    let number = value.as_u64()?;
    if number < 4294967296 {
        Some(number as u32)
    } else {
        None
    }
}

pub fn number_in(at: At, value: &Value) -> Result<u32, InputFault>
    ensures { Same (λ n. n) result (or_fault (Wrong at) (number_of_bits 32 (view value.now))) }
{
    match short_number(value) {
        Some(number) => Ok(number),
        None => Err(InputFault::Wrong(at)),
    }
}
