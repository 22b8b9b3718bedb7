// Classes by their numbers, and private names by the tables of the classes round them.
ghost use Rattle.std.specs.Prelude.{◌≡◌, ℕ, List, [], ◌∷◌, ◌++◌, Some, IfSome, OnOk, OnErr, length, map, reverse, take, option_map, option_and_then, slice_get};
ghost use Rattle.std.proofs.Props.{props};
ghost use Rattle.std.specs.Str.{chars};
ghost use Rattle.jsgen_tree.specs.Characters.{characters};
ghost use Rattle.jsgen_tree.specs.Job.{no_tables};
ghost use Rattle.jsgen_tree.specs.Scoping.{private_plain, tables_plain};
ghost use Rattle.jsgen_model.specs.Items.{private_name};
ghost use Rattle.jsgen_model.specs.Layout.{entered};
ghost use Rattle.jsgen_model.specs.Private.{name_in, private_name_by, printed_private, has_table};
ghost use Rattle.jsgen_printer.specs.Owners.{AreOf, holding, names_in, held_in};

use super::{Ending, Printer};
use crate::owners::Owners;
use jsgen_syntax::{Memory, Span};
use jsgen_tree::{PrivateMappings, Tables};
use std::alloc::Global;
use std::collections::BTreeMap;

/// The tables by which names are printed, and the classes round here.
#[derive(Drop)]
pub(super) struct Scope<'a> {
    pub(super) tables: Tables<'a>,
    // the numbers of those that have a table of private names, the outermost first
    pub(super) classes: Vec<usize>,
    // which of them a name is of, unless memory ran out for that
    owners: Option<Owners<'a>>,
    ghost known: { IfSome owners (λ o. AreOf o (held_in tables.private (reverse classes.items))) } by { Prim.hlevel props },
}

impl<'a> Scope<'a> {
    /// No tables, and no class.
    pub(super) fn new(alloc: Global) -> Scope<'a>
        ensures tables { tables_plain result.tables ≡ no_tables }
        ensures classes { result.classes.items ≡ [] }
    {
        Scope {
            tables: Tables::none(),
            classes: Vec::new(alloc),
            owners: Some(Owners::new(alloc)),
        }
    }

    /// Other tables.
    pub(super) fn set_tables(&mut self, tables: Tables<'a>)
        ensures tables { self.new.tables ≡ tables.entry }
        ensures classes { self.new.classes.items ≡ self.old.classes.items }
    {
        if !self.classes.is_empty() {
            self.owners = None;
        }
        self.tables = tables;
    }

    /// The class with this number begins, which has a table.
    pub(super) fn enter(&mut self, number: usize) -> Result<(), Memory>
        ensures tables { self.new.tables ≡ self.old.tables }
        ensures ok { OnOk result (self.new.classes.items ≡ self.old.classes.items ++ number ∷ []) }
        ensures err { OnErr result (self.new.classes.items ≡ self.old.classes.items) }
    {
        let owners = self.owners.take();
        self.classes.push(number)?;
        self.owners = with_names(self.tables, number, owners);
        Ok(())
    }

    /// Of the classes round here these many stay.
    pub(super) fn leave(&mut self, outer: usize)
        ensures tables { self.new.tables ≡ self.old.tables }
        ensures classes { self.new.classes.items ≡ take outer self.old.classes.items }
    {
        let owners = self.owners.take();
        let owners = owners_within(self.tables, &self.classes, outer, owners);
        self.classes.truncate(outer);
        self.owners = owners;
    }
}

#[tactic(auto, unfolding(crate::specs::Printer::pen_of))]
impl Printer<'_> {
    ghost use Rattle.jsgen_printer.specs.Printer.{pen_of, within_outer};
    ghost use Rattle.jsgen_printer.specs.Steps.{has_failed, Goes, Lays};

    /// The body of the next class begins; gives what `leave_class` takes.
    pub fn enter_class(&mut self) -> usize
        ensures outer { result ≡ length (pen_of self.old).classes }
        ensures pen { Goes self.old self.new entered }
    {
        let outer = self.scope.classes.len();
        self.begin_class();
        outer
    }

    // What follows stands in the body of the next class. Behind the last number this is want of memory: no tree has so many classes.
    fn begin_class(&mut self)
        ensures { Goes self.old self.new entered }
    {
        if self.has_failed {
            return;
        }
        let number = self.next_class;
        if number == usize::MAX {
            self.has_failed = true;
            return;
        }
        self.next_class = number + 1;
        if has_table(self.scope.tables, number) {
            if self.scope.enter(number).is_err() {
                self.has_failed = true;
            }
        }
    }

    /// The body of a class ends; `outer` is what `enter_class` gave.
    pub fn leave_class(&mut self, outer: usize)
        ensures goes { Goes self.old self.new (within_outer outer) }
        ensures failed { has_failed self.new ≡ has_failed self.old }
    {
        self.scope.leave(outer);
    }

    /// A private name, with its `#`, by the table of the innermost class whose table holds it.
    pub fn print_private_name(&mut self, span: Span, name: &str)
        ensures { Lays self.old self.new (private_name span (chars name.now)) }
    {
        let scope = &self.scope;
        let printed = printed_name(scope.tables, &scope.classes, &scope.owners, name);
        self.print_private_mark(span, printed);
        self.print_str("#", Ending::Other);
        self.print_bare_name(printed);
    }
}

// The table of the class with this number.
fn table_of<'a>(tables: Tables<'a>, number: usize) -> Option<&'a BTreeMap<String, String>>
    ensures { option_map (λ t. t.now) result ≡ option_and_then (λ p. slice_get p.now.classes.items number) tables.entry.private }
{
    match tables.private {
        Some(mappings) => mappings.classes.get(number),
        None => None,
    }
}

// Whose each name is within one class more; none where memory runs out.
fn with_names<'a>(
    tables: Tables<'a>,
    number: usize,
    owners: Option<Owners<'a>>,
) -> Option<Owners<'a>>
    ensures { (held : List (List ℕ × ℕ)) → IfSome owners.entry (λ o. AreOf o held)
        → IfSome result (λ o. AreOf o (holding (names_in tables.entry.private number) number held)) }
{
    let mut owners = owners?;
    match table_of(tables, number) {
        Some(table) => match owners.enter(table, number) {
            Ok(()) => Some(owners),
            Err(_) => None,
        },
        None => Some(owners),
    }
}

// How many names the table of a class has.
fn count_of(tables: Tables<'_>, number: usize) -> usize
    ensures { result ≡ length (names_in tables.entry.private number) }
{
    match table_of(tables, number) {
        Some(table) => table.len(),
        None => 0,
    }
}

// Whose each name is behind the innermost class.
fn without_names<'a>(
    tables: Tables<'a>,
    number: usize,
    owners: Option<Owners<'a>>,
) -> Option<Owners<'a>>
    ensures { (held : List (List ℕ × ℕ)) → IfSome owners.entry (λ o. AreOf o (holding (names_in tables.entry.private number) number held))
        → IfSome result (λ o. AreOf o held) }
{
    let mut owners = owners?;
    match owners.leave(count_of(tables, number)) {
        Ok(()) => Some(owners),
        Err(_) => None,
    }
}

// Whose each name is where of these classes so many stay.
fn owners_within<'a>(
    tables: Tables<'a>,
    classes: &[usize],
    outer: usize,
    owners: Option<Owners<'a>>,
) -> Option<Owners<'a>>
    ensures { IfSome owners.entry (λ o. AreOf o (held_in tables.entry.private (reverse classes.now)))
        → IfSome result (λ o. AreOf o (held_in tables.entry.private (reverse (take outer classes.now)))) }
{
    match classes.split_last() {
        Some((number, others)) if others.len() == outer => without_names(tables, *number, owners),
        Some((_, others)) if others.len() > outer => None,
        _ => owners,
    }
}

// Whether the class with this number has a table of private names.
#[tactic(auto, unfolding(jsgen_tree::specs::Scoping::tables_plain))]
fn has_table(tables: Tables<'_>, number: usize) -> bool
    ensures { result ≡ has_table (tables_plain tables.entry) number }
{
    match tables.private {
        Some(mappings) => mappings.classes.get(number).is_some(),
        None => false,
    }
}

// The new name of a name in a class's table.
fn new_name_in<'a>(class: &'a BTreeMap<String, String>, name: &str) -> Option<&'a str>
    ensures { option_map (λ s. chars s.now) result ≡ name_in (map (λ e. (characters e.0, characters e.1)) class.now.entries) (chars name.now) }
{
    match class.get(name) {
        Some(new_name) => Some(new_name.as_str()),
        None => None,
    }
}

// The new name of a name in the table of the class with this number.
fn new_name_by<'a>(mappings: &'a PrivateMappings, number: usize, name: &str) -> Option<&'a str>
    ensures { option_map (λ s. chars s.now) result ≡ option_and_then (λ table. name_in table (chars name.now)) (slice_get (private_plain mappings.now) number) }
{
    match mappings.classes.get(number) {
        Some(class) => new_name_in(class, name),
        None => None,
    }
}

// The new name by the table of the innermost of these classes, outermost first, that holds the name.
fn searched_name<'a>(
    mappings: &'a PrivateMappings,
    classes: &[usize],
    name: &str,
) -> Option<&'a str>
    ensures { option_map (λ s. chars s.now) result ≡ private_name_by (private_plain mappings.now) (reverse classes.now) (chars name.now) }
{
    let mut rest = classes;
    'classes: while let Some((number, outer)) = rest.split_last() {
        let found = new_name_by(mappings, *number, name);
        if found.is_some() {
            return found;
        }
        rest = outer;
    }
    None
}

// The same, where it may be known whose each name is.
fn new_name<'a>(
    mappings: &'a PrivateMappings,
    classes: &[usize],
    owners: &Option<Owners<'_>>,
    name: &str,
) -> Option<&'a str>
    requires { IfSome owners.now (λ o. AreOf o (held_in (Some mappings) (reverse classes.now))) }
    ensures { option_map (λ s. chars s.now) result ≡ private_name_by (private_plain mappings.now) (reverse classes.now) (chars name.now) }
{
    let Some(owners) = owners else {
        return searched_name(mappings, classes, name);
    };
    match owners.owner(name) {
        Some(number) => new_name_by(mappings, number, name),
        None => None,
    }
}

// What a private name is printed as within these classes, outermost first.
#[tactic(auto, unfolding(jsgen_tree::specs::Scoping::tables_plain))]
fn printed_name<'a>(
    tables: Tables<'a>,
    classes: &[usize],
    owners: &Option<Owners<'_>>,
    name: &'a str,
) -> &'a str
    requires { IfSome owners.now (λ o. AreOf o (held_in tables.private (reverse classes.now))) }
    ensures { chars result.now ≡ printed_private (tables_plain tables.entry) (reverse classes.now) (chars name.now) }
{
    match tables.private {
        Some(mappings) => new_name(mappings, classes, owners, name).unwrap_or(name),
        None => name,
    }
}
