// Generated from tools/nodes/table.txt; edit that and run tools/nodes/generate.
// Lists of children.
ghost use Rattle.std.specs.Prelude.{◌≡◌, map, option_map};
ghost use Rattle.jsgen_tree.specs.Tree.{optional_list, trees, holed};
ghost use Rattle.jsgen_tree.specs.Rows.{in_expression, in_argument, in_array_expression_element, in_assignment_target_maybe_default, in_assignment_target_property, in_object_property_kind, in_statement, in_binding_pattern, in_class_element, in_import_declaration_specifier, comment_row, directive_row, variable_declarator_row, formal_parameter_row, template_element_row, switch_case_row, binding_property_row, import_attribute_row, export_specifier_row};
ghost use Rattle.jsgen_model.specs.Resolved.{after_trees, after_maybe_trees};
ghost use Rattle.jsgen_check.specs.Verdict.{surroundings_plain, children_verdict, maybe_children_verdict, SameNumber};
ghost use Rattle.jsgen_tree.specs.declared.types.NodeSet.TheVariants as sets;

use crate::children::{
    check_argument, check_assignment_target_property, check_import_declaration_specifier,
    check_object_property_kind, check_optional_array_expression_element,
    check_optional_assignment_target_maybe_default, check_optional_binding_element,
};
use crate::choices::check_switch_case;
use crate::functions::check_formal_parameter;
use crate::heights::higher;
use crate::modules::{check_export_specifier, check_import_attribute};
use crate::patterns::check_binding_property;
use crate::statements::{check_comment, check_directive, check_variable_declarator};
use crate::templates::check_template_element;
use crate::{CheckNode, Surroundings, check_child};
use jsgen_model::TreeFault;
use jsgen_rules::Classes;
use jsgen_tree::{
    Argument, ArrayExpressionElement, AssignmentTargetMaybeDefault, AssignmentTargetProperty,
    BindingPatternNode, BindingProperty, ClassElementNode, Comment, Directive, ExportSpecifier,
    ExpressionNode, FormalParameter, ImportAttribute, ImportDeclarationSpecifier, NodeSet,
    ObjectPropertyKind, StatementNode, SwitchCase, TemplateElement, VariableDeclarator,
};

pub fn check_comments(
    nodes: &[Comment],
    around: &Surroundings<'_>,
    classes: Option<&Classes<'_>>,
    next: &mut usize,
) -> Result<u64, TreeFault>
    ensures found { result ≡ children_verdict (surroundings_plain around.now classes.entry) next.old sets.Comment (trees (map comment_row nodes.now)) }
    ensures number { SameNumber (surroundings_plain around.now classes.entry) next.new (after_trees (trees (map comment_row nodes.now)) next.old) }
{
    let mut below = Ok(0);
    for node in nodes {
        let found = check_comment(node, around, classes, next);
        below = higher(below, found);
    }
    below
}

pub fn check_directives(
    nodes: &[Directive],
    around: &Surroundings<'_>,
    classes: Option<&Classes<'_>>,
    next: &mut usize,
) -> Result<u64, TreeFault>
    ensures found { result ≡ children_verdict (surroundings_plain around.now classes.entry) next.old sets.Directive (trees (map directive_row nodes.now)) }
    ensures number { SameNumber (surroundings_plain around.now classes.entry) next.new (after_trees (trees (map directive_row nodes.now)) next.old) }
{
    let mut below = Ok(0);
    for node in nodes {
        let found = check_directive(node, around, classes, next);
        below = higher(below, found);
    }
    below
}

pub fn check_module_items<N: CheckNode>(
    nodes: &[StatementNode<N>],
    around: &Surroundings<'_>,
    classes: Option<&Classes<'_>>,
    next: &mut usize,
) -> Result<u64, TreeFault>
    ensures found { result ≡ children_verdict (surroundings_plain around.now classes.entry) next.old sets.ModuleItem (trees (map (in_statement N.plain) nodes.now)) }
    ensures number { SameNumber (surroundings_plain around.now classes.entry) next.new (after_trees (trees (map (in_statement N.plain) nodes.now)) next.old) }
{
    let mut below = Ok(0);
    for node in nodes {
        let found = check_child(node.get(), NodeSet::ModuleItem, around, classes, next);
        below = higher(below, found);
    }
    below
}

pub fn check_variable_declarators<N: CheckNode>(
    nodes: &[VariableDeclarator<N>],
    around: &Surroundings<'_>,
    classes: Option<&Classes<'_>>,
    next: &mut usize,
) -> Result<u64, TreeFault>
    ensures found { result ≡ children_verdict (surroundings_plain around.now classes.entry) next.old sets.VariableDeclarator (trees (map (variable_declarator_row N.plain) nodes.now)) }
    ensures number { SameNumber (surroundings_plain around.now classes.entry) next.new (after_trees (trees (map (variable_declarator_row N.plain) nodes.now)) next.old) }
{
    let mut below = Ok(0);
    for node in nodes {
        let found = check_variable_declarator(node, around, classes, next);
        below = higher(below, found);
    }
    below
}

pub fn check_statements<N: CheckNode>(
    nodes: &[StatementNode<N>],
    around: &Surroundings<'_>,
    classes: Option<&Classes<'_>>,
    next: &mut usize,
) -> Result<u64, TreeFault>
    ensures found { result ≡ children_verdict (surroundings_plain around.now classes.entry) next.old sets.Statement (trees (map (in_statement N.plain) nodes.now)) }
    ensures number { SameNumber (surroundings_plain around.now classes.entry) next.new (after_trees (trees (map (in_statement N.plain) nodes.now)) next.old) }
{
    let mut below = Ok(0);
    for node in nodes {
        let found = check_child(node.get(), NodeSet::Statement, around, classes, next);
        below = higher(below, found);
    }
    below
}

pub fn check_arguments<N: CheckNode>(
    nodes: &[Argument<N>],
    around: &Surroundings<'_>,
    classes: Option<&Classes<'_>>,
    next: &mut usize,
) -> Result<u64, TreeFault>
    ensures found { result ≡ children_verdict (surroundings_plain around.now classes.entry) next.old sets.Argument (trees (map (in_argument N.plain) nodes.now)) }
    ensures number { SameNumber (surroundings_plain around.now classes.entry) next.new (after_trees (trees (map (in_argument N.plain) nodes.now)) next.old) }
{
    let mut below = Ok(0);
    for node in nodes {
        let found = check_argument(node, around, classes, next);
        below = higher(below, found);
    }
    below
}

pub fn check_object_property_kinds<N: CheckNode>(
    nodes: &[ObjectPropertyKind<N>],
    around: &Surroundings<'_>,
    classes: Option<&Classes<'_>>,
    next: &mut usize,
) -> Result<u64, TreeFault>
    ensures found { result ≡ children_verdict (surroundings_plain around.now classes.entry) next.old sets.ObjectPropertyKind (trees (map (in_object_property_kind N.plain) nodes.now)) }
    ensures number { SameNumber (surroundings_plain around.now classes.entry) next.new (after_trees (trees (map (in_object_property_kind N.plain) nodes.now)) next.old) }
{
    let mut below = Ok(0);
    for node in nodes {
        let found = check_object_property_kind(node, around, classes, next);
        below = higher(below, found);
    }
    below
}

pub fn check_expressions<N: CheckNode>(
    nodes: &[ExpressionNode<N>],
    around: &Surroundings<'_>,
    classes: Option<&Classes<'_>>,
    next: &mut usize,
) -> Result<u64, TreeFault>
    ensures found { result ≡ children_verdict (surroundings_plain around.now classes.entry) next.old sets.Expression (trees (map (in_expression N.plain) nodes.now)) }
    ensures number { SameNumber (surroundings_plain around.now classes.entry) next.new (after_trees (trees (map (in_expression N.plain) nodes.now)) next.old) }
{
    let mut below = Ok(0);
    for node in nodes {
        let found = check_child(node.get(), NodeSet::Expression, around, classes, next);
        below = higher(below, found);
    }
    below
}

pub fn check_each_formal_parameter<N: CheckNode>(
    nodes: &[FormalParameter<N>],
    around: &Surroundings<'_>,
    classes: Option<&Classes<'_>>,
    next: &mut usize,
) -> Result<u64, TreeFault>
    ensures found { result ≡ children_verdict (surroundings_plain around.now classes.entry) next.old sets.FormalParameter (trees (map (formal_parameter_row N.plain) nodes.now)) }
    ensures number { SameNumber (surroundings_plain around.now classes.entry) next.new (after_trees (trees (map (formal_parameter_row N.plain) nodes.now)) next.old) }
{
    let mut below = Ok(0);
    for node in nodes {
        let found = check_formal_parameter(node, around, classes, next);
        below = higher(below, found);
    }
    below
}

pub fn check_template_elements(
    nodes: &[TemplateElement],
    around: &Surroundings<'_>,
    classes: Option<&Classes<'_>>,
    next: &mut usize,
) -> Result<u64, TreeFault>
    ensures found { result ≡ children_verdict (surroundings_plain around.now classes.entry) next.old sets.TemplateElement (trees (map template_element_row nodes.now)) }
    ensures number { SameNumber (surroundings_plain around.now classes.entry) next.new (after_trees (trees (map template_element_row nodes.now)) next.old) }
{
    let mut below = Ok(0);
    for node in nodes {
        let found = check_template_element(node, around, classes, next);
        below = higher(below, found);
    }
    below
}

pub fn check_switch_cases<N: CheckNode>(
    nodes: &[SwitchCase<N>],
    around: &Surroundings<'_>,
    classes: Option<&Classes<'_>>,
    next: &mut usize,
) -> Result<u64, TreeFault>
    ensures found { result ≡ children_verdict (surroundings_plain around.now classes.entry) next.old sets.SwitchCase (trees (map (switch_case_row N.plain) nodes.now)) }
    ensures number { SameNumber (surroundings_plain around.now classes.entry) next.new (after_trees (trees (map (switch_case_row N.plain) nodes.now)) next.old) }
{
    let mut below = Ok(0);
    for node in nodes {
        let found = check_switch_case(node, around, classes, next);
        below = higher(below, found);
    }
    below
}

pub fn check_binding_properties<N: CheckNode>(
    nodes: &[BindingProperty<N>],
    around: &Surroundings<'_>,
    classes: Option<&Classes<'_>>,
    next: &mut usize,
) -> Result<u64, TreeFault>
    ensures found { result ≡ children_verdict (surroundings_plain around.now classes.entry) next.old sets.BindingProperty (trees (map (binding_property_row N.plain) nodes.now)) }
    ensures number { SameNumber (surroundings_plain around.now classes.entry) next.new (after_trees (trees (map (binding_property_row N.plain) nodes.now)) next.old) }
{
    let mut below = Ok(0);
    for node in nodes {
        let found = check_binding_property(node, around, classes, next);
        below = higher(below, found);
    }
    below
}

pub fn check_assignment_target_properties<N: CheckNode>(
    nodes: &[AssignmentTargetProperty<N>],
    around: &Surroundings<'_>,
    classes: Option<&Classes<'_>>,
    next: &mut usize,
) -> Result<u64, TreeFault>
    ensures found { result ≡ children_verdict (surroundings_plain around.now classes.entry) next.old sets.AssignmentTargetProperty (trees (map (in_assignment_target_property N.plain) nodes.now)) }
    ensures number { SameNumber (surroundings_plain around.now classes.entry) next.new (after_trees (trees (map (in_assignment_target_property N.plain) nodes.now)) next.old) }
{
    let mut below = Ok(0);
    for node in nodes {
        let found = check_assignment_target_property(node, around, classes, next);
        below = higher(below, found);
    }
    below
}

pub fn check_class_elements<N: CheckNode>(
    nodes: &[ClassElementNode<N>],
    around: &Surroundings<'_>,
    classes: Option<&Classes<'_>>,
    next: &mut usize,
) -> Result<u64, TreeFault>
    ensures found { result ≡ children_verdict (surroundings_plain around.now classes.entry) next.old sets.ClassElement (trees (map (in_class_element N.plain) nodes.now)) }
    ensures number { SameNumber (surroundings_plain around.now classes.entry) next.new (after_trees (trees (map (in_class_element N.plain) nodes.now)) next.old) }
{
    let mut below = Ok(0);
    for node in nodes {
        let found = check_child(node.get(), NodeSet::ClassElement, around, classes, next);
        below = higher(below, found);
    }
    below
}

pub fn check_import_attributes(
    nodes: &[ImportAttribute],
    around: &Surroundings<'_>,
    classes: Option<&Classes<'_>>,
    next: &mut usize,
) -> Result<u64, TreeFault>
    ensures found { result ≡ children_verdict (surroundings_plain around.now classes.entry) next.old sets.ImportAttribute (trees (map import_attribute_row nodes.now)) }
    ensures number { SameNumber (surroundings_plain around.now classes.entry) next.new (after_trees (trees (map import_attribute_row nodes.now)) next.old) }
{
    let mut below = Ok(0);
    for node in nodes {
        let found = check_import_attribute(node, around, classes, next);
        below = higher(below, found);
    }
    below
}

pub fn check_export_specifiers(
    nodes: &[ExportSpecifier],
    around: &Surroundings<'_>,
    classes: Option<&Classes<'_>>,
    next: &mut usize,
) -> Result<u64, TreeFault>
    ensures found { result ≡ children_verdict (surroundings_plain around.now classes.entry) next.old sets.ExportSpecifier (trees (map export_specifier_row nodes.now)) }
    ensures number { SameNumber (surroundings_plain around.now classes.entry) next.new (after_trees (trees (map export_specifier_row nodes.now)) next.old) }
{
    let mut below = Ok(0);
    for node in nodes {
        let found = check_export_specifier(node, around, classes, next);
        below = higher(below, found);
    }
    below
}

pub fn check_import_declaration_specifiers(
    nodes: &[ImportDeclarationSpecifier],
    around: &Surroundings<'_>,
    classes: Option<&Classes<'_>>,
    next: &mut usize,
) -> Result<u64, TreeFault>
    ensures found { result ≡ children_verdict (surroundings_plain around.now classes.entry) next.old sets.ImportDeclarationSpecifier (trees (map in_import_declaration_specifier nodes.now)) }
    ensures number { SameNumber (surroundings_plain around.now classes.entry) next.new (after_trees (trees (map in_import_declaration_specifier nodes.now)) next.old) }
{
    let mut below = Ok(0);
    for node in nodes {
        let found = check_import_declaration_specifier(node, around, classes, next);
        below = higher(below, found);
    }
    below
}

pub fn check_array_expression_elements_or_holes<N: CheckNode>(
    nodes: &[Option<ArrayExpressionElement<N>>],
    around: &Surroundings<'_>,
    classes: Option<&Classes<'_>>,
    next: &mut usize,
) -> Result<u64, TreeFault>
    ensures found { result ≡ children_verdict (surroundings_plain around.now classes.entry) next.old sets.ArrayExpressionElement (holed (map (option_map (in_array_expression_element N.plain)) nodes.now)) }
    ensures number { SameNumber (surroundings_plain around.now classes.entry) next.new (after_trees (holed (map (option_map (in_array_expression_element N.plain)) nodes.now)) next.old) }
{
    let mut below = Ok(0);
    for node in nodes {
        let found = check_optional_array_expression_element(node, around, classes, next);
        below = higher(below, found);
    }
    below
}

pub fn check_binding_elements_or_holes<N: CheckNode>(
    nodes: &[Option<BindingPatternNode<N>>],
    around: &Surroundings<'_>,
    classes: Option<&Classes<'_>>,
    next: &mut usize,
) -> Result<u64, TreeFault>
    ensures found { result ≡ children_verdict (surroundings_plain around.now classes.entry) next.old sets.BindingElement (holed (map (option_map (in_binding_pattern N.plain)) nodes.now)) }
    ensures number { SameNumber (surroundings_plain around.now classes.entry) next.new (after_trees (holed (map (option_map (in_binding_pattern N.plain)) nodes.now)) next.old) }
{
    let mut below = Ok(0);
    for node in nodes {
        let found = check_optional_binding_element(node, around, classes, next);
        below = higher(below, found);
    }
    below
}

pub fn check_assignment_target_maybe_defaults_or_holes<N: CheckNode>(
    nodes: &[Option<AssignmentTargetMaybeDefault<N>>],
    around: &Surroundings<'_>,
    classes: Option<&Classes<'_>>,
    next: &mut usize,
) -> Result<u64, TreeFault>
    ensures found { result ≡ children_verdict (surroundings_plain around.now classes.entry) next.old sets.AssignmentTargetMaybeDefault (holed (map (option_map (in_assignment_target_maybe_default N.plain)) nodes.now)) }
    ensures number { SameNumber (surroundings_plain around.now classes.entry) next.new (after_trees (holed (map (option_map (in_assignment_target_maybe_default N.plain)) nodes.now)) next.old) }
{
    let mut below = Ok(0);
    for node in nodes {
        let found = check_optional_assignment_target_maybe_default(node, around, classes, next);
        below = higher(below, found);
    }
    below
}

pub fn check_optional_import_declaration_specifiers(
    nodes: &Option<Vec<ImportDeclarationSpecifier>>,
    around: &Surroundings<'_>,
    classes: Option<&Classes<'_>>,
    next: &mut usize,
) -> Result<u64, TreeFault>
    ensures found { result ≡ maybe_children_verdict (surroundings_plain around.now classes.entry) next.old sets.ImportDeclarationSpecifier (optional_list (option_map (λ v. map in_import_declaration_specifier v.items) nodes.now)) }
    ensures number { SameNumber (surroundings_plain around.now classes.entry) next.new (after_maybe_trees (optional_list (option_map (λ v. map in_import_declaration_specifier v.items) nodes.now)) next.old) }
{
    match nodes {
        Some(nodes) => check_import_declaration_specifiers(nodes, around, classes, next),
        None => Ok(0),
    }
}
