// Names that are looked up or bound: that their numbers are in the tables, and what is printed for them.
ghost use Rattle.std.specs.Prelude.{◌≡◌, ℕ, List, length, nat_lt, slice_get, true, not, ◌&&◌};
ghost use Rattle.std.specs.Option.{option_map_or};
ghost use Rattle.std.specs.Str.{chars};
ghost use Rattle.jsgen_syntax.specs.Name.{is_free_name};
ghost use Rattle.jsgen_tree.specs.Named.{looked_up, bound, printed_name};
ghost use Rattle.jsgen_tree.specs.Scoping.{scoping_plain, tables_plain};
ghost use Rattle.jsgen_model.specs.Valid.{names_a_symbol, is_in_tables, name_faults, written_name_faults, label_faults, fault_if};
ghost use Rattle.jsgen_model.specs.declared.fault.TreeFault.TheVariants as faults;
ghost use Rattle.jsgen_rules.specs.Verdict.{verdict};

use jsgen_model::TreeFault;
use jsgen_syntax::{Span, is_name, is_reserved, is_strict_reserved};
use jsgen_tree::{Scoping, Tables, is_proto};

fn has_symbol(scoping: &Scoping, symbol: u32) -> bool
    ensures { result ≡ nat_lt symbol (length (scoping_plain scoping.now).symbols) }
{
    (symbol as usize) < scoping.symbols.len()
}

fn has_reference(scoping: &Scoping, reference: u32) -> bool
    ensures { result ≡ names_a_symbol (scoping_plain scoping.now).symbols (slice_get (scoping_plain scoping.now).references reference) }
{
    match scoping.references.get(reference as usize) {
        Some(Some(symbol)) => has_symbol(scoping, *symbol),
        Some(None) => true,
        None => false,
    }
}

#[tactic(auto, unfolding(jsgen_tree::specs::Scoping::tables_plain))]
fn is_reference_in(tables: Tables<'_>, reference: Option<u32>) -> bool
    ensures { (own : List ℕ) → result ≡ option_map_or (λ scoping. is_in_tables scoping (looked_up reference own)) (tables_plain tables.entry).scoping true }
{
    let (Some(scoping), Some(reference)) = (tables.scoping, reference) else {
        return true;
    };
    has_reference(scoping, reference)
}

#[tactic(auto, unfolding(jsgen_tree::specs::Scoping::tables_plain))]
fn is_symbol_in(tables: Tables<'_>, symbol: Option<u32>) -> bool
    ensures { (own : List ℕ) → result ≡ option_map_or (λ scoping. is_in_tables scoping (bound symbol own)) (tables_plain tables.entry).scoping true }
{
    let (Some(scoping), Some(symbol)) = (tables.scoping, symbol) else {
        return true;
    };
    has_symbol(scoping, symbol)
}

#[tactic(auto, using(crate::proofs::Bytes::free_names))]
fn is_free_name(name: &str) -> bool
    ensures { result ≡ is_free_name (chars name.now) }
{
    is_name(name) && !is_reserved(name) && !is_strict_reserved(name)
}

fn check_printed(is_in_table: bool, printed: &str, span: Span) -> Result<(), TreeFault>
    ensures { result ≡ verdict (fault_if (not (is_in_table && is_free_name (chars printed.now))) (faults.Name span.start)) }
{
    if !(is_in_table && is_free_name(printed)) {
        return Err(TreeFault::Name { start: span.start });
    }
    Ok(())
}

/// The number of a name that is looked up is in the table, and what is printed for it is a name that isn't reserved.
#[tactic(auto)]
pub fn check_reference(
    tables: Tables<'_>,
    reference: Option<u32>,
    name: &str,
    span: Span,
) -> Result<(), TreeFault>
    ensures { result ≡ verdict (name_faults (tables_plain tables.entry) span (looked_up reference (chars name.now))) }
{
    let is_in_table = is_reference_in(tables, reference);
    check_printed(is_in_table, tables.reference_name(reference, name), span)
}

/// The same of a name that is bound.
#[tactic(auto)]
pub fn check_binding(
    tables: Tables<'_>,
    symbol: Option<u32>,
    name: &str,
    span: Span,
) -> Result<(), TreeFault>
    ensures { result ≡ verdict (name_faults (tables_plain tables.entry) span (bound symbol (chars name.now))) }
{
    let is_in_table = is_symbol_in(tables, symbol);
    check_printed(is_in_table, tables.binding_name(symbol, name), span)
}

/// A member's name is one, reserved or not.
pub fn check_written_name(name: &str, span: Span) -> Result<(), TreeFault>
    ensures { result ≡ verdict (written_name_faults span (chars name.now)) }
{
    if !is_name(name) {
        return Err(TreeFault::Name { start: span.start });
    }
    Ok(())
}

/// A label is a name that isn't reserved: none of the tables knows it.
pub fn check_label(name: &str, span: Span) -> Result<(), TreeFault>
    ensures { result ≡ verdict (label_faults span (chars name.now)) }
{
    if !is_free_name(name) {
        return Err(TreeFault::Name { start: span.start });
    }
    Ok(())
}
