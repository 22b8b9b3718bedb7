// Private names: that what is printed for them are names, and the classes round them, by whose tables they are printed.
ghost use Rattle.std.specs.Prelude.{◌≡◌, ◌∷◌, suc, min, map, option_map, option_and_then, slice_get};
ghost use Rattle.std.specs.Str.{chars};
ghost use Rattle.jsgen_tree.specs.Characters.{characters};
ghost use Rattle.jsgen_tree.specs.Scoping.{private_plain, tables_plain};
ghost use Rattle.jsgen_model.specs.Private.{name_in, private_name_by, printed_private, has_table};
ghost use Rattle.jsgen_model.specs.Valid.{private_name_faults};
ghost use Rattle.jsgen_rules.specs.Classes.{class_numbers, numbers, counted};
ghost use Rattle.jsgen_rules.specs.Verdict.{verdict};

use jsgen_model::TreeFault;
use jsgen_syntax::{Span, is_name};
use jsgen_tree::{PrivateMappings, Tables};
use std::collections::BTreeMap;

/// A class that has a table, and those round it.
#[derive(Clone, Copy)]
pub struct Classes<'a> {
    number: usize,
    outer: Option<&'a Classes<'a>>,
}

#[tactic(auto, unfolding(crate::specs::Classes::class_numbers))]
impl<'a> Classes<'a> {
    /// The class with this number, within these.
    pub fn within(number: usize, outer: Option<&'a Classes<'a>>) -> Classes<'a>
        ensures { class_numbers result ≡ number ∷ numbers outer.entry }
    {
        Classes { number, outer }
    }

    // Its number, and those round it.
    fn parts(&self) -> (usize, Option<&'a Classes<'a>>)
        ensures { class_numbers self.now ≡ result.0 ∷ numbers result.1 }
    {
        (self.number, self.outer)
    }
}

/// Whether the class with this number has a table of private names.
#[tactic(auto, unfolding(jsgen_tree::specs::Scoping::tables_plain))]
pub fn has_table(tables: Tables<'_>, number: usize) -> bool
    ensures { result ≡ has_table (tables_plain tables.entry) number }
{
    match tables.private {
        Some(mappings) => mappings.classes.get(number).is_some(),
        None => false,
    }
}

/// The number of the class behind the one with this number, counted as far as there are tables.
#[tactic(auto, unfolding(jsgen_tree::specs::Scoping::tables_plain, crate::specs::Classes::counted))]
pub fn number_behind(tables: Tables<'_>, number: usize) -> usize
    ensures { counted (tables_plain tables.entry) result ≡ counted (tables_plain tables.entry) (suc number) }
{
    match tables.private {
        Some(mappings) => behind(mappings.classes.len(), number),
        None => number,
    }
}

fn behind(classes: usize, number: usize) -> usize
    ensures { min result classes ≡ min (suc number) classes }
{
    if number < classes { number + 1 } else { number }
}

// The new name of a name in a class's table.
fn new_name_in<'a>(class: &'a BTreeMap<String, String>, name: &str) -> Option<&'a str>
    ensures { option_map (λ s. chars s.now) result ≡ name_in (map (λ e. (characters e.0, characters e.1)) class.now.entries) (chars name.now) }
{
    match class.get(name) {
        Some(new_name) => Some(new_name.as_str()),
        None => None,
    }
}

// The new name of a name in the table of the class with this number.
fn new_name_by<'a>(mappings: &'a PrivateMappings, number: usize, name: &str) -> Option<&'a str>
    ensures { option_map (λ s. chars s.now) result ≡ option_and_then (λ table. name_in table (chars name.now)) (slice_get (private_plain mappings.now) number) }
{
    match mappings.classes.get(number) {
        Some(class) => new_name_in(class, name),
        None => None,
    }
}

// The new name by the table of the innermost of these classes that holds the name.
fn new_name<'a>(
    mappings: &'a PrivateMappings,
    classes: Option<&Classes<'_>>,
    name: &str,
) -> Option<&'a str>
    ensures { option_map (λ s. chars s.now) result ≡ private_name_by (private_plain mappings.now) (numbers classes.entry) (chars name.now) }
{
    let mut rest = classes;
    'classes: while let Some(class) = rest {
        let (number, outer) = class.parts();
        let found = new_name_by(mappings, number, name);
        if found.is_some() {
            return found;
        }
        rest = outer;
    }
    None
}

// What a private name is printed as within these classes.
#[tactic(auto, unfolding(jsgen_tree::specs::Scoping::tables_plain))]
fn printed_name<'a>(tables: Tables<'a>, classes: Option<&Classes<'_>>, name: &'a str) -> &'a str
    ensures { chars result.now ≡ printed_private (tables_plain tables.entry) (numbers classes.entry) (chars name.now) }
{
    match tables.private {
        Some(mappings) => new_name(mappings, classes, name).unwrap_or(name),
        None => name,
    }
}

/// What is printed for a private name within these classes is a name.
pub fn check_private_name(
    tables: Tables<'_>,
    classes: Option<&Classes<'_>>,
    name: &str,
    span: Span,
) -> Result<(), TreeFault>
    ensures { result ≡ verdict (private_name_faults (tables_plain tables.entry) (numbers classes.entry) span (chars name.now)) }
{
    if !is_name(printed_name(tables, classes, name)) {
        return Err(TreeFault::Name { start: span.start });
    }
    Ok(())
}
