// Imports, exports and hashbangs.
#![tactic(auto, unfolding(jsgen_rules::specs::Verdict::verdict))]

ghost use Rattle.std.specs.Prelude.{◌≡◌, false, not, map, option_map};
ghost use Rattle.jsgen_tree.specs.Tree.{trees, optional_list, type_of};
ghost use Rattle.jsgen_tree.specs.Rows.{hashbang_row, import_declaration_row, export_named_declaration_row, export_from_declaration_row, export_specifier_row, in_import_declaration_specifier, in_module_export_name};
ghost use Rattle.jsgen_model.specs.Valid.{own_faults, misplaced_faults, behind_default_faults, specifier_faults, import_faults, export_faults, fits_source, is_named_import};
ghost use Rattle.jsgen_rules.specs.Verdict.{verdict};
ghost use Rattle.jsgen_check.specs.Verdict.{surroundings_plain};

use crate::Surroundings;
use jsgen_model::TreeFault;
use jsgen_rules::{Classes, check_hashbang, fits_source};
use jsgen_tree::{
    ExportFromDeclaration, ExportNamedDeclaration, ExportSpecifier, GetSpan, Hashbang,
    ImportDeclaration, ImportDeclarationSpecifier,
};

#[tactic(auto)]
pub fn check_hashbang_rules(
    node: &Hashbang,
    around: &Surroundings<'_>,
    classes: Option<&Classes<'_>>,
) -> Result<(), TreeFault>
    ensures { result ≡ verdict (own_faults (surroundings_plain around.now classes.entry) (hashbang_row node.now)) }
{
    let _ = classes;
    let _ = around;
    check_hashbang(&node.value, node.span)
}

// ---- what is imported

fn is_unnamed(specifier: &ImportDeclarationSpecifier) -> bool
    ensures { result ≡ not (is_named_import (type_of (in_import_declaration_specifier specifier.now))) }
{
    match specifier {
        ImportDeclarationSpecifier::ImportSpecifier(_) => false,
        ImportDeclarationSpecifier::ImportDefaultSpecifier(_) => true,
        ImportDeclarationSpecifier::ImportNamespaceSpecifier(_) => true,
    }
}

fn check_named(specifiers: &[ImportDeclarationSpecifier]) -> Result<(), TreeFault>
    ensures { result ≡ verdict (misplaced_faults is_named_import (trees (map in_import_declaration_specifier specifiers.now))) }
{
    for specifier in specifiers {
        if is_unnamed(specifier) {
            return Err(TreeFault::Place {
                start: specifier.span().start,
            });
        }
    }
    Ok(())
}

fn check_none(specifiers: &[ImportDeclarationSpecifier]) -> Result<(), TreeFault>
    ensures { result ≡ verdict (misplaced_faults (λ type. false) (trees (map in_import_declaration_specifier specifiers.now))) }
{
    match specifiers {
        [first, ..] => Err(TreeFault::Place {
            start: first.span().start,
        }),
        [] => Ok(()),
    }
}

/// All exports by one name, or some by theirs.
fn check_behind_default(specifiers: &[ImportDeclarationSpecifier]) -> Result<(), TreeFault>
    ensures { result ≡ verdict (behind_default_faults (trees (map in_import_declaration_specifier specifiers.now))) }
{
    match specifiers {
        [
            ImportDeclarationSpecifier::ImportNamespaceSpecifier(_),
            others @ ..,
        ] => check_none(others),
        _ => check_named(specifiers),
    }
}

/// A default, if there is one, stands first.
fn check_specifiers(specifiers: &[ImportDeclarationSpecifier]) -> Result<(), TreeFault>
    ensures { result ≡ verdict (specifier_faults (trees (map in_import_declaration_specifier specifiers.now))) }
{
    match specifiers {
        [
            ImportDeclarationSpecifier::ImportDefaultSpecifier(_),
            others @ ..,
        ] => check_behind_default(others),
        _ => check_behind_default(specifiers),
    }
}

fn check_imports(specifiers: &Option<Vec<ImportDeclarationSpecifier>>) -> Result<(), TreeFault>
    ensures { result ≡ verdict (import_faults (optional_list (option_map (λ v. map in_import_declaration_specifier v.items) specifiers.now))) }
{
    match specifiers {
        Some(specifiers) => check_specifiers(specifiers),
        None => Ok(()),
    }
}

#[tactic(auto)]
pub fn check_import_declaration_rules(
    node: &ImportDeclaration,
    around: &Surroundings<'_>,
    classes: Option<&Classes<'_>>,
) -> Result<(), TreeFault>
    ensures { result ≡ verdict (own_faults (surroundings_plain around.now classes.entry) (import_declaration_row node.now)) }
{
    let _ = classes;
    let _ = around;
    check_imports(&node.specifiers)
}

// ---- what is exported

fn misfits(has_source: bool, specifier: &ExportSpecifier) -> bool
    ensures { result ≡ not (fits_source has_source (type_of (in_module_export_name specifier.now.local))) }
{
    !fits_source(has_source, specifier.local.node_type())
}

fn check_exports(has_source: bool, specifiers: &[ExportSpecifier]) -> Result<(), TreeFault>
    ensures { result ≡ verdict (export_faults has_source (trees (map export_specifier_row specifiers.now))) }
{
    for specifier in specifiers {
        if misfits(has_source, specifier) {
            return Err(TreeFault::Place {
                start: specifier.span.start,
            });
        }
    }
    Ok(())
}

#[tactic(auto)]
pub fn check_export_named_declaration_rules(
    node: &ExportNamedDeclaration,
    around: &Surroundings<'_>,
    classes: Option<&Classes<'_>>,
) -> Result<(), TreeFault>
    ensures { result ≡ verdict (own_faults (surroundings_plain around.now classes.entry) (export_named_declaration_row node.now)) }
{
    let _ = classes;
    let _ = around;
    check_exports(false, &node.specifiers)
}

#[tactic(auto)]
pub fn check_export_from_declaration_rules(
    node: &ExportFromDeclaration,
    around: &Surroundings<'_>,
    classes: Option<&Classes<'_>>,
) -> Result<(), TreeFault>
    ensures { result ≡ verdict (own_faults (surroundings_plain around.now classes.entry) (export_from_declaration_row node.now)) }
{
    let _ = classes;
    let _ = around;
    check_exports(true, &node.specifiers)
}
