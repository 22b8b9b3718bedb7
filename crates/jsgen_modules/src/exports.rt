// Exports, one function for each row but that of a default export, in which functions and classes stand.
ghost use Rattle.std.specs.Prelude.{◌≡◌, option_map};
ghost use Rattle.jsgen_tree.specs.Tree.{optional, type_of};
ghost use Rattle.jsgen_tree.specs.Rows.{export_declaration_row, export_named_declaration_row, export_from_declaration_row, export_specifier_row, export_all_declaration_row, in_module_export_name};
ghost use Rattle.jsgen_place.specs.Place.{plainly};
ghost use Rattle.jsgen_tree.specs.Tree.{span_of};
ghost use Rattle.jsgen_model.specs.Items.{◌⊕◌, comments, then_space};
ghost use Rattle.jsgen_model.specs.Spell.{spell, spell_exported, exported_end, unless_same, as_name};
ghost use Rattle.jsgen_printer.specs.Steps.{Lays};

use crate::names::{exports_as, print_module_export_name, print_name_comments, print_plain_string};
use crate::parts::{begin_export, begin_module_word, print_attributes, print_spaced_braces};
use jsgen_inside::PrintInside;
use jsgen_lists::PrintMember;
use jsgen_place::Place;
use jsgen_printer::Printer;
use jsgen_tree::{
    ExportAllDeclaration, ExportDeclaration, ExportFromDeclaration, ExportNamedDeclaration,
    ExportSpecifier, ModuleExportName, NodeType,
};

pub fn print_export_declaration<N, L: PrintInside<N>>(
    node: &ExportDeclaration<N>,
    p: &mut Printer<'_>,
    place: Place,
)
    ensures { Lays p.old p.new (spell (export_declaration_row L.plain node.now) place) }
{
    let _ = place;
    begin_export(L::is_pure_declaration(node.declaration.get()), node.span, p);
    p.print_hard_space();
    L::print(node.declaration.get(), p, Place::within_statement());
    end_exported(L::node_type(node.declaration.get()), p);
}

// Variables end as a statement does, and functions and classes as those among statements do.
fn end_exported(declared: NodeType, p: &mut Printer<'_>)
    ensures { Lays p.old p.new (exported_end declared) }
{
    match declared {
        NodeType::VariableDeclaration => p.print_statement_end(),
        _ => {
            p.print_soft_line();
            p.drop_semicolon();
        }
    }
}

pub fn print_export_named_declaration(
    node: &ExportNamedDeclaration,
    p: &mut Printer<'_>,
    place: Place,
)
    ensures { Lays p.old p.new (spell (export_named_declaration_row node.now) place) }
{
    let _ = place;
    begin_module_word(node.span, "export", p);
    p.print_soft_space();
    print_spaced_braces::<_, Exports>(&node.specifiers, p);
    p.print_statement_end();
}

pub fn print_export_from_declaration(
    node: &ExportFromDeclaration,
    p: &mut Printer<'_>,
    place: Place,
)
    ensures { Lays p.old p.new (spell (export_from_declaration_row node.now) place) }
{
    let _ = place;
    begin_module_word(node.span, "export", p);
    p.print_soft_space();
    print_spaced_braces::<_, Exports>(&node.specifiers, p);
    p.print_soft_space();
    p.print_word("from");
    p.print_soft_space();
    print_plain_string(&node.source, p);
    print_attributes(false, &node.with_clause, p);
    p.print_statement_end();
}

struct Exports;

impl PrintMember<ExportSpecifier> for Exports {
    ghost plain = { export_specifier_row };

    fn print_member(specifier: &ExportSpecifier, p: &mut Printer<'_>, place: Place) {
        print_export_specifier(specifier, p, place);
    }
}

pub fn print_export_specifier(node: &ExportSpecifier, p: &mut Printer<'_>, place: Place)
    ensures { Lays p.old p.new (spell (export_specifier_row node.now) place) }
{
    let _ = place;
    print_name_comments(&node.local, p);
    print_module_export_name(&node.local, p);
    print_as_exported(&node.local, &node.exported, p);
}

// The name of the export, where the two differ.
fn print_as_exported(local: &ModuleExportName, exported: &ModuleExportName, p: &mut Printer<'_>)
    ensures { Lays p.old p.new (unless_same (in_module_export_name local.now) (in_module_export_name exported.now) (as_name (comments then_space (span_of (in_module_export_name exported.now)).start ⊕ spell (in_module_export_name exported.now) plainly))) }
{
    if exports_as(local, exported, p) {
        return;
    }
    p.print_soft_space();
    p.print_word("as");
    p.print_soft_space();
    print_name_comments(exported, p);
    print_module_export_name(exported, p);
}

pub fn print_export_all_declaration(node: &ExportAllDeclaration, p: &mut Printer<'_>, place: Place)
    ensures { Lays p.old p.new (spell (export_all_declaration_row node.now) place) }
{
    let _ = place;
    begin_module_word(node.span, "export", p);
    p.print_soft_space();
    p.print_star();
    print_exported(&node.exported, p);
    p.print_word("from");
    p.print_soft_space();
    print_plain_string(&node.source, p);
    print_attributes(true, &node.with_clause, p);
    p.print_statement_end();
}

// The name of all exports, if they have one.
fn print_exported(exported: &Option<ModuleExportName>, p: &mut Printer<'_>)
    ensures { Lays p.old p.new (spell_exported (optional (option_map in_module_export_name exported.now))) }
{
    match exported {
        Some(exported) => {
            p.print_soft_space();
            p.print_word("as");
            p.print_soft_space();
            print_module_export_name(exported, p);
            p.print_hard_space();
        }
        None => p.print_soft_space(),
    }
}
