// Generated from tools/nodes/table.txt; edit that and run tools/nodes/generate.
// Imports and exports (ECMA-262, 16.2), and the hashbang of a program (12.5).
ghost use Rattle.std.specs.Prelude.{◌≡◌};
ghost use Rattle.jsgen_tree.specs.Rows.{hashbang_row, import_declaration_row, import_default_specifier_row, import_namespace_specifier_row, import_specifier_row, with_clause_row, import_attribute_row, export_declaration_row, export_named_declaration_row, export_from_declaration_row, export_specifier_row, export_all_declaration_row, export_default_declaration_row};
ghost use Rattle.jsgen_model.specs.Resolved.{after};
ghost use Rattle.jsgen_check.specs.Verdict.{surroundings_plain, tree_verdict, SameNumber};

use crate::children::{
    check_export_default_declaration_kind, check_import_attribute_key, check_module_export_name,
    check_optional_module_export_name, check_optional_with_clause,
};
use crate::expressions::check_string_literal;
use crate::heights::{check_node, higher};
use crate::lists::{
    check_export_specifiers, check_import_attributes, check_optional_import_declaration_specifiers,
};
use crate::rules::{
    check_export_from_declaration_rules, check_export_named_declaration_rules,
    check_hashbang_rules, check_import_declaration_rules,
};
use crate::statements::check_binding_identifier;
use crate::{CheckNode, Surroundings, check_child};
use jsgen_model::TreeFault;
use jsgen_rules::Classes;
use jsgen_tree::{
    ExportAllDeclaration, ExportDeclaration, ExportDefaultDeclaration, ExportFromDeclaration,
    ExportNamedDeclaration, ExportSpecifier, Hashbang, ImportAttribute, ImportDeclaration,
    ImportDefaultSpecifier, ImportNamespaceSpecifier, ImportSpecifier, NodeSet, WithClause,
};

pub fn check_hashbang(
    node: &Hashbang,
    around: &Surroundings<'_>,
    classes: Option<&Classes<'_>>,
    next: &mut usize,
) -> Result<u64, TreeFault>
    ensures found { result ≡ tree_verdict (surroundings_plain around.now classes.entry) next.old (hashbang_row node.now) }
    ensures number { SameNumber (surroundings_plain around.now classes.entry) next.new (after (hashbang_row node.now) next.old) }
{
    let rules = check_hashbang_rules(node, around, classes);
    let _ = next;
    check_node(around, classes, node.span, rules, Ok(0))
}

#[inline(never)]
pub fn check_import_declaration(
    node: &ImportDeclaration,
    around: &Surroundings<'_>,
    classes: Option<&Classes<'_>>,
    next: &mut usize,
) -> Result<u64, TreeFault>
    ensures found { result ≡ tree_verdict (surroundings_plain around.now classes.entry) next.old (import_declaration_row node.now) }
    ensures number { SameNumber (surroundings_plain around.now classes.entry) next.new (after (import_declaration_row node.now) next.old) }
{
    let rules = check_import_declaration_rules(node, around, classes);
    let specifiers = check_optional_import_declaration_specifiers(
        &node.specifiers,
        around,
        classes,
        next,
    );
    let source = check_string_literal(&node.source, around, classes, next);
    let with_clause = check_optional_with_clause(&node.with_clause, around, classes, next);
    check_node(
        around,
        classes,
        node.span,
        rules,
        higher(specifiers, higher(source, with_clause)),
    )
}

#[inline(never)]
pub fn check_import_default_specifier(
    node: &ImportDefaultSpecifier,
    around: &Surroundings<'_>,
    classes: Option<&Classes<'_>>,
    next: &mut usize,
) -> Result<u64, TreeFault>
    ensures found { result ≡ tree_verdict (surroundings_plain around.now classes.entry) next.old (import_default_specifier_row node.now) }
    ensures number { SameNumber (surroundings_plain around.now classes.entry) next.new (after (import_default_specifier_row node.now) next.old) }
{
    let local = check_binding_identifier(&node.local, around, classes, next);
    check_node(around, classes, node.span, Ok(()), local)
}

#[inline(never)]
pub fn check_import_namespace_specifier(
    node: &ImportNamespaceSpecifier,
    around: &Surroundings<'_>,
    classes: Option<&Classes<'_>>,
    next: &mut usize,
) -> Result<u64, TreeFault>
    ensures found { result ≡ tree_verdict (surroundings_plain around.now classes.entry) next.old (import_namespace_specifier_row node.now) }
    ensures number { SameNumber (surroundings_plain around.now classes.entry) next.new (after (import_namespace_specifier_row node.now) next.old) }
{
    let local = check_binding_identifier(&node.local, around, classes, next);
    check_node(around, classes, node.span, Ok(()), local)
}

#[inline(never)]
pub fn check_import_specifier(
    node: &ImportSpecifier,
    around: &Surroundings<'_>,
    classes: Option<&Classes<'_>>,
    next: &mut usize,
) -> Result<u64, TreeFault>
    ensures found { result ≡ tree_verdict (surroundings_plain around.now classes.entry) next.old (import_specifier_row node.now) }
    ensures number { SameNumber (surroundings_plain around.now classes.entry) next.new (after (import_specifier_row node.now) next.old) }
{
    let imported = check_module_export_name(&node.imported, around, classes, next);
    let local = check_binding_identifier(&node.local, around, classes, next);
    check_node(around, classes, node.span, Ok(()), higher(imported, local))
}

#[inline(never)]
pub fn check_with_clause(
    node: &WithClause,
    around: &Surroundings<'_>,
    classes: Option<&Classes<'_>>,
    next: &mut usize,
) -> Result<u64, TreeFault>
    ensures found { result ≡ tree_verdict (surroundings_plain around.now classes.entry) next.old (with_clause_row node.now) }
    ensures number { SameNumber (surroundings_plain around.now classes.entry) next.new (after (with_clause_row node.now) next.old) }
{
    let entries = check_import_attributes(&node.entries, around, classes, next);
    check_node(around, classes, node.span, Ok(()), entries)
}

#[inline(never)]
pub fn check_import_attribute(
    node: &ImportAttribute,
    around: &Surroundings<'_>,
    classes: Option<&Classes<'_>>,
    next: &mut usize,
) -> Result<u64, TreeFault>
    ensures found { result ≡ tree_verdict (surroundings_plain around.now classes.entry) next.old (import_attribute_row node.now) }
    ensures number { SameNumber (surroundings_plain around.now classes.entry) next.new (after (import_attribute_row node.now) next.old) }
{
    let key = check_import_attribute_key(&node.key, around, classes, next);
    let value = check_string_literal(&node.value, around, classes, next);
    check_node(around, classes, node.span, Ok(()), higher(key, value))
}

#[inline(never)]
pub fn check_export_declaration<N: CheckNode>(
    node: &ExportDeclaration<N>,
    around: &Surroundings<'_>,
    classes: Option<&Classes<'_>>,
    next: &mut usize,
) -> Result<u64, TreeFault>
    ensures found { result ≡ tree_verdict (surroundings_plain around.now classes.entry) next.old (export_declaration_row N.plain node.now) }
    ensures number { SameNumber (surroundings_plain around.now classes.entry) next.new (after (export_declaration_row N.plain node.now) next.old) }
{
    let declaration = check_child(
        node.declaration.get(),
        NodeSet::Declaration,
        around,
        classes,
        next,
    );
    check_node(around, classes, node.span, Ok(()), declaration)
}

#[inline(never)]
pub fn check_export_named_declaration(
    node: &ExportNamedDeclaration,
    around: &Surroundings<'_>,
    classes: Option<&Classes<'_>>,
    next: &mut usize,
) -> Result<u64, TreeFault>
    ensures found { result ≡ tree_verdict (surroundings_plain around.now classes.entry) next.old (export_named_declaration_row node.now) }
    ensures number { SameNumber (surroundings_plain around.now classes.entry) next.new (after (export_named_declaration_row node.now) next.old) }
{
    let rules = check_export_named_declaration_rules(node, around, classes);
    let specifiers = check_export_specifiers(&node.specifiers, around, classes, next);
    check_node(around, classes, node.span, rules, specifiers)
}

#[inline(never)]
pub fn check_export_from_declaration(
    node: &ExportFromDeclaration,
    around: &Surroundings<'_>,
    classes: Option<&Classes<'_>>,
    next: &mut usize,
) -> Result<u64, TreeFault>
    ensures found { result ≡ tree_verdict (surroundings_plain around.now classes.entry) next.old (export_from_declaration_row node.now) }
    ensures number { SameNumber (surroundings_plain around.now classes.entry) next.new (after (export_from_declaration_row node.now) next.old) }
{
    let rules = check_export_from_declaration_rules(node, around, classes);
    let specifiers = check_export_specifiers(&node.specifiers, around, classes, next);
    let source = check_string_literal(&node.source, around, classes, next);
    let with_clause = check_optional_with_clause(&node.with_clause, around, classes, next);
    check_node(
        around,
        classes,
        node.span,
        rules,
        higher(specifiers, higher(source, with_clause)),
    )
}

#[inline(never)]
pub fn check_export_specifier(
    node: &ExportSpecifier,
    around: &Surroundings<'_>,
    classes: Option<&Classes<'_>>,
    next: &mut usize,
) -> Result<u64, TreeFault>
    ensures found { result ≡ tree_verdict (surroundings_plain around.now classes.entry) next.old (export_specifier_row node.now) }
    ensures number { SameNumber (surroundings_plain around.now classes.entry) next.new (after (export_specifier_row node.now) next.old) }
{
    let local = check_module_export_name(&node.local, around, classes, next);
    let exported = check_module_export_name(&node.exported, around, classes, next);
    check_node(around, classes, node.span, Ok(()), higher(local, exported))
}

#[inline(never)]
pub fn check_export_all_declaration(
    node: &ExportAllDeclaration,
    around: &Surroundings<'_>,
    classes: Option<&Classes<'_>>,
    next: &mut usize,
) -> Result<u64, TreeFault>
    ensures found { result ≡ tree_verdict (surroundings_plain around.now classes.entry) next.old (export_all_declaration_row node.now) }
    ensures number { SameNumber (surroundings_plain around.now classes.entry) next.new (after (export_all_declaration_row node.now) next.old) }
{
    let exported = check_optional_module_export_name(&node.exported, around, classes, next);
    let source = check_string_literal(&node.source, around, classes, next);
    let with_clause = check_optional_with_clause(&node.with_clause, around, classes, next);
    check_node(
        around,
        classes,
        node.span,
        Ok(()),
        higher(exported, higher(source, with_clause)),
    )
}

#[inline(never)]
pub fn check_export_default_declaration<N: CheckNode>(
    node: &ExportDefaultDeclaration<N>,
    around: &Surroundings<'_>,
    classes: Option<&Classes<'_>>,
    next: &mut usize,
) -> Result<u64, TreeFault>
    ensures found { result ≡ tree_verdict (surroundings_plain around.now classes.entry) next.old (export_default_declaration_row N.plain node.now) }
    ensures number { SameNumber (surroundings_plain around.now classes.entry) next.new (after (export_default_declaration_row N.plain node.now) next.old) }
{
    let declaration = check_export_default_declaration_kind(
        &node.declaration,
        around,
        classes,
        next,
    );
    check_node(around, classes, node.span, Ok(()), declaration)
}
