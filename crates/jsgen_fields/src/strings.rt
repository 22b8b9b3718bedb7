// Fields that hold the value of a string.
ghost use Rattle.std.specs.Prelude.{◌≡◌, ◌∷◌, true, false, Ok, map};
ghost use Rattle.jsgen_fields.specs.Given.{given_data, given_items, row_data};
ghost use Rattle.jsgen_syntax.specs.Units.{js_units};
ghost use Rattle.jsgen_tree.specs.Atom.{no_value, units as units_atom};
ghost use Rattle.jsgen_tree.specs.Characters.{units_if_given};
ghost use Rattle.jsgen_tree.specs.Table.{units};
ghost use Rattle.jsgen_fields.specs.Reads.{read_value};
ghost use Rattle.jsgen_fields.specs.Values.{Same, at, field as value_under, unit_in, units_listed, units_in};

use crate::given::{Given, GivenItems, GivenRow};
use crate::values::{items_in, needed_value, optional_value};
use crate::{At, InputFault};
use jsgen_syntax::JsStr;
use std::alloc::Global;

/// One unit of UTF-16.
fn unit_in(value: Given<'_>) -> Option<u16>
    ensures { result ≡ unit_in (given_data value.entry) }
{
    let number = value.as_u64()?;
    if number < 65536 {
        Some(number as u16)
    } else {
        None
    }
}

fn units_listed(alloc: Global, at: At, items: GivenItems<'_>) -> Result<Vec<u16>, InputFault>
    ensures { Same (λ v. v.items) result (units_listed at (given_items items.entry)) }
{
    let mut units = Vec::with_capacity(alloc, items.len())?;
    for index in 0..items.len() {
        let Some(unit) = unit_in(items.item(index)) else {
            return Err(InputFault::Wrong(at));
        };
        units.push(unit)?;
    }
    Ok(units)
}

/// A text, or a list of the units.
fn units_in(alloc: Global, at: At, value: Given<'_>) -> Result<JsStr, InputFault>
    ensures { Same (λ s. js_units s) result (units_in at (given_data value.entry)) }
{
    if let Some(text) = value.as_str() {
        return Ok(JsStr::from_text(alloc, text)?);
    }
    let items = items_in(at, value)?;
    let units = units_listed(alloc, at, items)?;
    Ok(JsStr::from_units(alloc, units.as_slice())?)
}

#[tactic(auto, unfolding(crate::specs::Reads::read_value))]
pub fn needed_units(
    alloc: Global,
    number: usize,
    field: usize,
    row: &GivenRow<'_>,
    name: &str,
) -> Result<JsStr, InputFault>
    ensures { Same (λ s. units_atom (js_units s)) result
        (read_value (at number field) true no_value units (value_under name.now (row_data row.now))) }
{
    let at = At::of_row(number, field);
    match needed_value(at, row, name) {
        Ok(value) => units_in(alloc, at, value),
        Err(fault) => Err(fault),
    }
}

/// The value of a string, which may be absent.
#[tactic(auto, unfolding(crate::specs::Reads::read_value))]
pub fn optional_units(
    alloc: Global,
    number: usize,
    field: usize,
    row: &GivenRow<'_>,
    name: &str,
) -> Result<Option<JsStr>, InputFault>
    ensures { Same units_if_given result
        (read_value (at number field) false no_value units (value_under name.now (row_data row.now))) }
{
    let at = At::of_row(number, field);
    match optional_value(at, row, name) {
        Ok(Some(value)) => Ok(Some(units_in(alloc, at, value)?)),
        Ok(None) => Ok(None),
        Err(fault) => Err(fault),
    }
}
