// The names of imports and exports (ECMA-262, 16.2.2 and 16.2.3): names as they are printed, or strings.
ghost use Rattle.std.specs.Prelude.{◌≡◌, option_map, bytes_eq};
ghost use Rattle.std.specs.Str.{chars};
ghost use Rattle.jsgen_syntax.specs.Units.{js_units};
ghost use Rattle.jsgen_tree.specs.Job.{Tables};
ghost use Rattle.jsgen_tree.specs.Named.{printed_name};
ghost use Rattle.jsgen_tree.specs.Rows.{identifier_name_row, string_literal_row, binding_identifier_row, in_module_export_name};
ghost use Rattle.jsgen_tree.specs.Tree.{span_of};
ghost use Rattle.jsgen_place.specs.Place.{plainly};
ghost use Rattle.jsgen_model.specs.Items.{comments, then_space};
ghost use Rattle.jsgen_model.specs.Spell.{spell, string_named, export_named};
ghost use Rattle.jsgen_printer.specs.Printer.{pen_of};
ghost use Rattle.jsgen_printer.specs.Steps.{Lays};
ghost use Rattle.jsgen_modules.specs.Names.{is_same_named, is_same_text};

use jsgen_inside::print_identifier_reference;
use jsgen_place::Place;
use jsgen_printer::Printer;
use jsgen_spelled::print_identifier_name;
use jsgen_syntax::JsStr;
use jsgen_tree::{BindingIdentifier, ModuleExportName, StringLiteral};

/// A string that is never in backticks.
pub fn print_plain_string(node: &StringLiteral, p: &mut Printer<'_>)
    ensures { Lays p.old p.new (spell (string_literal_row node.now) plainly) }
{
    p.print_key_comments(node.span.start);
    p.print_mark(node.span);
    p.print_string(&node.value, false);
}

/// The comments that belong to a name, with a space behind them.
pub fn print_name_comments(name: &ModuleExportName, p: &mut Printer<'_>)
    ensures { Lays p.old p.new (comments then_space (span_of (in_module_export_name name.now)).start) }
{
    let start = start_of(name);
    p.print_spaced_comments(start);
}

fn start_of(name: &ModuleExportName) -> u32
    ensures { result ≡ (span_of (in_module_export_name name.now)).start }
{
    match name {
        ModuleExportName::IdentifierName(node) => node.span.start,
        ModuleExportName::IdentifierReference(node) => node.span.start,
        ModuleExportName::StringLiteral(node) => node.span.start,
    }
}

/// A name, or a string that is never in backticks.
pub fn print_module_export_name(node: &ModuleExportName, p: &mut Printer<'_>)
    ensures { Lays p.old p.new (spell (in_module_export_name node.now) plainly) }
{
    match node {
        ModuleExportName::IdentifierName(node) => print_identifier_name(node, p, Place::plainly()),
        ModuleExportName::IdentifierReference(node) => print_identifier_reference(
            node,
            p,
            Place::plainly(),
        ),
        ModuleExportName::StringLiteral(node) => print_plain_string(node, p),
    }
}

// ---- what they are printed as

// The text of a string, where each of its surrogates is in a pair.
fn string_text(value: &JsStr) -> Option<&str>
    ensures { (tables : Tables) → option_map (λ s. chars s.now) result ≡ option_map (printed_name tables) (string_named (js_units value.now)) }
{
    value.as_str()
}

fn text_of<'t>(name: &'t ModuleExportName, p: &'t Printer<'_>) -> Option<&'t str>
    ensures { option_map (λ s. chars s.now) result ≡ option_map (printed_name (pen_of p.now).style.tables) (export_named (in_module_export_name name.now)) }
{
    match name {
        ModuleExportName::IdentifierName(node) => Some(node.name.as_str()),
        ModuleExportName::IdentifierReference(node) => Some(p.printed_reference(
            node.name.as_str(),
            node.reference,
        )),
        ModuleExportName::StringLiteral(node) => string_text(&node.value),
    }
}

fn binding_text<'t>(name: &'t BindingIdentifier, p: &'t Printer<'_>) -> Option<&'t str>
    ensures { option_map (λ s. chars s.now) result ≡ option_map (printed_name (pen_of p.now).style.tables) (export_named (binding_identifier_row name.now)) }
{
    Some(p.printed_binding(name.name.as_str(), name.symbol))
}

fn are_same(a: Option<&str>, b: Option<&str>) -> bool
    ensures { result ≡ is_same_text (option_map (λ s. chars s.now) a.entry) (option_map (λ s. chars s.now) b.entry) }
{
    match a {
        Some(a) => match b {
            Some(b) => is_same(a, b),
            None => false,
        },
        None => false,
    }
}

fn is_same(a: &str, b: &str) -> bool
    ensures { result ≡ bytes_eq (chars a.now) (chars b.now) }
{
    a == b
}

/// Whether what is imported is printed as the name is that it has here.
pub fn imports_as(imported: &ModuleExportName, local: &BindingIdentifier, p: &Printer<'_>) -> bool
    ensures { result ≡ is_same_named (pen_of p.now).style.tables (in_module_export_name imported.now) (binding_identifier_row local.now) }
{
    are_same(text_of(imported, p), binding_text(local, p))
}

/// Whether what is exported is printed as its name is.
pub fn exports_as(local: &ModuleExportName, exported: &ModuleExportName, p: &Printer<'_>) -> bool
    ensures { result ≡ is_same_named (pen_of p.now).style.tables (in_module_export_name local.now) (in_module_export_name exported.now) }
{
    match local {
        ModuleExportName::StringLiteral(a) => match exported {
            ModuleExportName::StringLiteral(b) => a.value.as_bytes() == b.value.as_bytes(),
            _ => are_same(text_of(local, p), text_of(exported, p)),
        },
        _ => are_same(text_of(local, p), text_of(exported, p)),
    }
}
