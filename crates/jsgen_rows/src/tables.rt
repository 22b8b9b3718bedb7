// The tables of names, fields 1 to 3 of a job's head.
ghost use Rattle.std.specs.Prelude.{◌≡◌, map, option_map};
ghost use Rattle.serde_json.specs.View.{view, members_view};
ghost use Rattle.jsgen_tree.specs.Characters.{characters};
ghost use Rattle.jsgen_tree.specs.Scoping.{scoping_plain, private_plain};
ghost use Rattle.jsgen_fields.specs.Values.{Same, texts_in, symbols_in, entry_in, entries_in, references_in, scoping_of, names_in, class_in, classes_in, private_in};
ghost use Rattle.jsgen_rows.specs.Tables.{class_plain};

use jsgen_fields::head::{items_in, number_in, optional_value, text_in};
use jsgen_fields::{At, InputFault};
use jsgen_tree::{PrivateMappings, Scoping};
use serde_json::{Map, Value};
use std::alloc::Global;
use std::collections::BTreeMap;

// ---- the symbols

fn texts_in(alloc: Global, at: At, items: &[Value]) -> Result<Vec<String>, InputFault>
    ensures { Same (λ v. map characters v.items) result (texts_in at (map view items.now)) }
{
    let mut texts = Vec::with_capacity(alloc, items.len())?;
    for item in items {
        let text = text_in(at, item)?;
        texts.push(String::from_str(alloc, text)?)?;
    }
    Ok(texts)
}

/// The names of the symbols.
pub fn symbols_in(alloc: Global, job: &Value) -> Result<Option<Vec<String>>, InputFault>
    ensures { Same (option_map (λ v. map characters v.items)) result (symbols_in (view job.now)) }
{
    let at = At::of_head(1);
    let Some(given) = optional_value(at, job, "symbols")? else {
        return Ok(None);
    };
    let items = items_in(at, given)?;
    Ok(Some(texts_in(alloc, at, items)?))
}

// ---- the references

/// The symbol that a reference names, by its number.
fn entry_in(at: At, value: &Value) -> Result<Option<u32>, InputFault>
    ensures { Same (λ o. o) result (entry_in at (view value.now)) }
{
    if value.is_null() {
        return Ok(None);
    }
    Ok(Some(number_in(at, value)?))
}

fn entries_in(alloc: Global, at: At, items: &[Value]) -> Result<Vec<Option<u32>>, InputFault>
    ensures { Same (λ v. v.items) result (entries_in at (map view items.now)) }
{
    let mut entries = Vec::with_capacity(alloc, items.len())?;
    for item in items {
        let entry = entry_in(at, item)?;
        entries.push(entry)?;
    }
    Ok(entries)
}

/// The symbols that the references name.
pub fn references_in(alloc: Global, job: &Value) -> Result<Option<Vec<Option<u32>>>, InputFault>
    ensures { Same (option_map (λ v. v.items)) result (references_in (view job.now)) }
{
    let at = At::of_head(2);
    let Some(given) = optional_value(at, job, "references")? else {
        return Ok(None);
    };
    let items = items_in(at, given)?;
    Ok(Some(entries_in(alloc, at, items)?))
}

/// The tables of a job; one that is absent beside the other is empty.
pub fn scoping_of(
    alloc: Global,
    symbols: Option<Vec<String>>,
    references: Option<Vec<Option<u32>>>,
) -> Option<Scoping>
    ensures { option_map scoping_plain result
        ≡ scoping_of (option_map (λ v. map characters v.items) symbols) (option_map (λ v. v.items) references) }
{
    match (symbols, references) {
        (None, None) => None,
        (Some(symbols), None) => Some(Scoping {
            symbols,
            references: Vec::new(alloc),
        }),
        (None, Some(references)) => Some(Scoping {
            symbols: Vec::new(alloc),
            references,
        }),
        (Some(symbols), Some(references)) => Some(Scoping {
            symbols,
            references,
        }),
    }
}

// ---- private names

fn names_in(
    alloc: Global,
    at: At,
    members: &Map<String, Value>,
) -> Result<BTreeMap<String, String>, InputFault>
    ensures { Same (λ m. class_plain m.entries) result (names_in at (members_view members.now.entries)) }
{
    let mut names = BTreeMap::new(alloc);
    for (key, member) in members.iter() {
        let text = text_in(at, member)?;
        let new_name = String::from_str(alloc, text)?;
        let name = String::from_str(alloc, key.as_str())?;
        drop(names.insert(name, new_name)?);
    }
    Ok(names)
}

/// The names of a class.
fn class_in(alloc: Global, at: At, value: &Value) -> Result<BTreeMap<String, String>, InputFault>
    ensures { Same (λ m. class_plain m.entries) result (class_in at (view value.now)) }
{
    match value.as_object() {
        Some(members) => names_in(alloc, at, members),
        None => Err(InputFault::Wrong(at)),
    }
}

fn classes_in(
    alloc: Global,
    at: At,
    items: &[Value],
) -> Result<Vec<BTreeMap<String, String>>, InputFault>
    ensures { Same (λ v. map (λ m. class_plain m.entries) v.items) result (classes_in at (map view items.now)) }
{
    let mut classes = Vec::with_capacity(alloc, items.len())?;
    for item in items {
        let class = class_in(alloc, at, item)?;
        classes.push(class)?;
    }
    Ok(classes)
}

/// The new names of private names.
pub fn private_in(alloc: Global, job: &Value) -> Result<Option<PrivateMappings>, InputFault>
    ensures { Same (option_map private_plain) result (private_in (view job.now)) }
{
    let at = At::of_head(3);
    let Some(given) = optional_value(at, job, "private")? else {
        return Ok(None);
    };
    let items = items_in(at, given)?;
    let classes = classes_in(alloc, at, items)?;
    Ok(Some(PrivateMappings { classes }))
}
