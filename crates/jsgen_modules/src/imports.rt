// Imports, one function for each row.
ghost use Rattle.std.specs.Prelude.{◌≡◌, map, option_map, codes};
ghost use Rattle.jsgen_tree.specs.Tree.{trees, optional_list};
ghost use Rattle.jsgen_tree.specs.Rows.{import_declaration_row, import_default_specifier_row, import_namespace_specifier_row, import_specifier_row, in_import_declaration_specifier, in_module_export_name, binding_identifier_row};
ghost use Rattle.jsgen_place.specs.Place.{plainly};
ghost use Rattle.jsgen_model.specs.Items.{◌⊕◌, word, brackets, soft_space, hard_space};
ghost use Rattle.jsgen_model.specs.Punctuator.{Brace};
ghost use Rattle.jsgen_model.specs.Spell.{spell, spell_specifiers, spell_clause, spell_behind_default, spell_list, unless_same, as_name, is_empty_list};
ghost use Rattle.jsgen_printer.specs.Steps.{Lays};

use crate::names::{imports_as, print_module_export_name, print_plain_string};
use crate::parts::{begin_module_word, print_attributes, print_empty_braces, print_filled_braces};
use jsgen_inside::print_binding_identifier;
use jsgen_lists::PrintMember;
use jsgen_place::Place;
use jsgen_printer::Printer;
use jsgen_tree::{
    BindingIdentifier, ImportDeclaration, ImportDeclarationSpecifier, ImportDefaultSpecifier,
    ImportNamespaceSpecifier, ImportSpecifier, ModuleExportName,
};

pub fn print_import_declaration(node: &ImportDeclaration, p: &mut Printer<'_>, place: Place)
    ensures { Lays p.old p.new (spell (import_declaration_row node.now) place) }
{
    let _ = place;
    begin_module_word(node.span, "import", p);
    print_specifiers(&node.specifiers, p);
    print_plain_string(&node.source, p);
    print_attributes(is_empty_list(&node.specifiers), &node.with_clause, p);
    p.print_statement_end();
}

fn is_empty_list(specifiers: &Option<Vec<ImportDeclarationSpecifier>>) -> bool
    ensures { result ≡ is_empty_list (optional_list (option_map (λ v. map in_import_declaration_specifier v.items) specifiers.now)) }
{
    match specifiers {
        Some(specifiers) => specifiers.is_empty(),
        None => false,
    }
}

// What an import takes, up to its source.
fn print_specifiers(specifiers: &Option<Vec<ImportDeclarationSpecifier>>, p: &mut Printer<'_>)
    ensures { Lays p.old p.new (spell_specifiers (optional_list (option_map (λ v. map in_import_declaration_specifier v.items) specifiers.now))) }
{
    match specifiers {
        Some(specifiers) => {
            print_clause(specifiers, p);
            p.print_word("from");
            p.print_soft_space();
        }
        None => p.print_soft_space(),
    }
}

fn print_clause(specifiers: &[ImportDeclarationSpecifier], p: &mut Printer<'_>)
    ensures { Lays p.old p.new (spell_clause (trees (map in_import_declaration_specifier specifiers.now))) }
{
    match specifiers.split_first() {
        Some((first, others)) => match first {
            ImportDeclarationSpecifier::ImportDefaultSpecifier(node) => {
                p.print_hard_space();
                print_import_default_specifier(node, p, Place::plainly());
                print_behind_default(others, p);
            }
            ImportDeclarationSpecifier::ImportNamespaceSpecifier(node) => {
                p.print_soft_space();
                print_all(node, p);
            }
            ImportDeclarationSpecifier::ImportSpecifier(_) => {
                p.print_soft_space();
                print_named(specifiers, p);
            }
        },
        None => {
            p.print_soft_space();
            print_empty_braces(p);
            p.print_soft_space();
        }
    }
}

// What stands behind a default: a space, or what else is imported.
fn print_behind_default(specifiers: &[ImportDeclarationSpecifier], p: &mut Printer<'_>)
    ensures { Lays p.old p.new (spell_behind_default (trees (map in_import_declaration_specifier specifiers.now))) }
{
    match specifiers.split_first() {
        Some((first, _)) => match first {
            ImportDeclarationSpecifier::ImportNamespaceSpecifier(node) => {
                p.print_comma();
                p.print_soft_space();
                print_all(node, p);
            }
            ImportDeclarationSpecifier::ImportDefaultSpecifier(_) => {
                p.print_comma();
                p.print_soft_space();
                print_named(specifiers, p);
            }
            ImportDeclarationSpecifier::ImportSpecifier(_) => {
                p.print_comma();
                p.print_soft_space();
                print_named(specifiers, p);
            }
        },
        None => p.print_hard_space(),
    }
}

// All exports by one name, and a space.
fn print_all(node: &ImportNamespaceSpecifier, p: &mut Printer<'_>)
    ensures { Lays p.old p.new (spell (import_namespace_specifier_row node.now) plainly ⊕ hard_space) }
{
    print_import_namespace_specifier(node, p, Place::plainly());
    p.print_hard_space();
}

// Some by their names in braces, and a space.
fn print_named(specifiers: &[ImportDeclarationSpecifier], p: &mut Printer<'_>)
    ensures { Lays p.old p.new (brackets Brace (soft_space ⊕ spell_list (trees (map in_import_declaration_specifier specifiers.now)) plainly ⊕ soft_space) ⊕ soft_space) }
{
    print_filled_braces::<_, Specifiers>(specifiers, p);
    p.print_soft_space();
}

struct Specifiers;

impl PrintMember<ImportDeclarationSpecifier> for Specifiers {
    ghost plain = { in_import_declaration_specifier };

    fn print_member(specifier: &ImportDeclarationSpecifier, p: &mut Printer<'_>, place: Place) {
        match specifier {
            ImportDeclarationSpecifier::ImportDefaultSpecifier(node) => {
                print_import_default_specifier(node, p, place);
            }
            ImportDeclarationSpecifier::ImportNamespaceSpecifier(node) => {
                print_import_namespace_specifier(node, p, place);
            }
            ImportDeclarationSpecifier::ImportSpecifier(node) => {
                print_import_specifier(node, p, place);
            }
        }
    }
}

pub fn print_import_default_specifier(
    node: &ImportDefaultSpecifier,
    p: &mut Printer<'_>,
    place: Place,
)
    ensures { Lays p.old p.new (spell (import_default_specifier_row node.now) place) }
{
    let _ = place;
    print_binding_identifier(&node.local, p, Place::plainly());
}

pub fn print_import_namespace_specifier(
    node: &ImportNamespaceSpecifier,
    p: &mut Printer<'_>,
    place: Place,
)
    ensures { Lays p.old p.new (spell (import_namespace_specifier_row node.now) place) }
{
    let _ = place;
    p.print_star();
    p.print_soft_space();
    p.print_word("as");
    p.print_hard_space();
    print_binding_identifier(&node.local, p, Place::plainly());
}

/// Of a string that says the same as the name does, the name alone is left.
pub fn print_import_specifier(node: &ImportSpecifier, p: &mut Printer<'_>, place: Place)
    ensures { Lays p.old p.new (spell (import_specifier_row node.now) place) }
{
    let _ = place;
    match &node.imported {
        ModuleExportName::StringLiteral(_) => {
            print_before_name(&node.imported, &node.local, p);
            print_binding_identifier(&node.local, p, Place::plainly());
        }
        ModuleExportName::IdentifierName(_) => print_name_first(&node.imported, &node.local, p),
        ModuleExportName::IdentifierReference(_) => print_name_first(
            &node.imported,
            &node.local,
            p,
        ),
    }
}

// What is imported, and `as`, unless the name says it.
fn print_before_name(imported: &ModuleExportName, local: &BindingIdentifier, p: &mut Printer<'_>)
    ensures { Lays p.old p.new (unless_same (in_module_export_name imported.now) (binding_identifier_row local.now)
        (spell (in_module_export_name imported.now) plainly ⊕ soft_space ⊕ word (codes "as") ⊕ soft_space)) }
{
    if imports_as(imported, local, p) {
        return;
    }
    print_module_export_name(imported, p);
    p.print_soft_space();
    p.print_word("as");
    p.print_soft_space();
}

fn print_name_first(imported: &ModuleExportName, local: &BindingIdentifier, p: &mut Printer<'_>)
    ensures { Lays p.old p.new (spell (in_module_export_name imported.now) plainly
        ⊕ unless_same (in_module_export_name imported.now) (binding_identifier_row local.now) (as_name (spell (binding_identifier_row local.now) plainly))) }
{
    print_module_export_name(imported, p);
    print_as_local(imported, local, p);
}

// The name that it has here, where the two differ.
fn print_as_local(imported: &ModuleExportName, local: &BindingIdentifier, p: &mut Printer<'_>)
    ensures { Lays p.old p.new (unless_same (in_module_export_name imported.now) (binding_identifier_row local.now) (as_name (spell (binding_identifier_row local.now) plainly))) }
{
    if imports_as(imported, local, p) {
        return;
    }
    p.print_soft_space();
    p.print_word("as");
    p.print_soft_space();
    print_binding_identifier(local, p, Place::plainly());
}
