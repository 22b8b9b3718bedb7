// Generated from tools/nodes/table.txt; edit that and run tools/nodes/generate.
// Children that may be absent, and sets that don't nest.
ghost use Rattle.std.specs.Prelude.{◌≡◌, option_map};
ghost use Rattle.jsgen_tree.specs.Tree.{optional};
ghost use Rattle.jsgen_tree.specs.Rows.{in_expression, in_argument, in_array_expression_element, in_chain_element, in_simple_assignment_target, in_assignment_target_maybe_default, in_assignment_target_property, in_arrow_function_body, in_for_statement_init, in_for_statement_left, in_object_property_kind, in_property_key, in_statement, in_binding_pattern, in_module_export_name, in_import_declaration_specifier, in_import_attribute_key, in_export_default_declaration_kind, binding_identifier_row, block_statement_row, formal_parameter_rest_row, function_body_row, label_identifier_row, catch_clause_row, binding_rest_element_row, assignment_target_rest_row, hashbang_row, with_clause_row};
ghost use Rattle.jsgen_model.specs.Resolved.{after, after_maybe};
ghost use Rattle.jsgen_check.specs.Verdict.{surroundings_plain, child_verdict, maybe_verdict, SameNumber};
ghost use Rattle.jsgen_tree.specs.declared.types.NodeSet.TheVariants as sets;

use crate::choices::check_catch_clause;
use crate::classes::{check_class, check_private_field_expression, check_private_identifier};
use crate::collections::{check_object_property, check_spread_element};
use crate::expressions::{
    check_call_expression, check_computed_member_expression, check_identifier_name,
    check_identifier_reference, check_static_member_expression, check_string_literal,
};
use crate::functions::{check_formal_parameter_rest, check_function, check_function_body};
use crate::loops::check_label_identifier;
use crate::modules::{
    check_hashbang, check_import_default_specifier, check_import_namespace_specifier,
    check_import_specifier, check_with_clause,
};
use crate::patterns::check_binding_rest_element;
use crate::statements::{
    check_binding_identifier, check_block_statement, check_variable_declaration,
};
use crate::targets::{
    check_assignment_target_property_identifier, check_assignment_target_property_property,
    check_assignment_target_rest, check_assignment_target_with_default,
};
use crate::{CheckNode, Surroundings, check_child};
use jsgen_model::TreeFault;
use jsgen_rules::Classes;
use jsgen_tree::{
    Argument, ArrayExpressionElement, ArrowFunctionBody, AssignmentTargetMaybeDefault,
    AssignmentTargetProperty, AssignmentTargetRest, BindingIdentifier, BindingPatternNode,
    BindingRestElement, BlockStatement, CatchClause, ChainElement, ExportDefaultDeclarationKind,
    ExpressionNode, ForStatementInit, ForStatementLeft, FormalParameterRest, FunctionBody,
    Hashbang, ImportAttributeKey, ImportDeclarationSpecifier, LabelIdentifier, ModuleExportName,
    NodeSet, ObjectPropertyKind, PropertyKey, SimpleAssignmentTarget, StatementNode, WithClause,
};

pub fn check_optional_hashbang(
    node: &Option<Box<Hashbang>>,
    around: &Surroundings<'_>,
    classes: Option<&Classes<'_>>,
    next: &mut usize,
) -> Result<u64, TreeFault>
    ensures found { result ≡ maybe_verdict (surroundings_plain around.now classes.entry) next.old sets.Hashbang (optional (option_map (λ b. hashbang_row b.value) node.now)) }
    ensures number { SameNumber (surroundings_plain around.now classes.entry) next.new (after_maybe (optional (option_map (λ b. hashbang_row b.value) node.now)) next.old) }
{
    match node {
        Some(node) => check_hashbang(node, around, classes, next),
        None => Ok(0),
    }
}

pub fn check_optional_expression<N: CheckNode>(
    node: &Option<ExpressionNode<N>>,
    around: &Surroundings<'_>,
    classes: Option<&Classes<'_>>,
    next: &mut usize,
) -> Result<u64, TreeFault>
    ensures found { result ≡ maybe_verdict (surroundings_plain around.now classes.entry) next.old sets.Expression (optional (option_map (in_expression N.plain) node.now)) }
    ensures number { SameNumber (surroundings_plain around.now classes.entry) next.new (after_maybe (optional (option_map (in_expression N.plain) node.now)) next.old) }
{
    match node {
        Some(node) => check_child(node.get(), NodeSet::Expression, around, classes, next),
        None => Ok(0),
    }
}

pub fn check_optional_statement<N: CheckNode>(
    node: &Option<StatementNode<N>>,
    around: &Surroundings<'_>,
    classes: Option<&Classes<'_>>,
    next: &mut usize,
) -> Result<u64, TreeFault>
    ensures found { result ≡ maybe_verdict (surroundings_plain around.now classes.entry) next.old sets.Statement (optional (option_map (in_statement N.plain) node.now)) }
    ensures number { SameNumber (surroundings_plain around.now classes.entry) next.new (after_maybe (optional (option_map (in_statement N.plain) node.now)) next.old) }
{
    match node {
        Some(node) => check_child(node.get(), NodeSet::Statement, around, classes, next),
        None => Ok(0),
    }
}

pub fn check_optional_formal_parameter_rest<N: CheckNode>(
    node: &Option<Box<FormalParameterRest<N>>>,
    around: &Surroundings<'_>,
    classes: Option<&Classes<'_>>,
    next: &mut usize,
) -> Result<u64, TreeFault>
    ensures found { result ≡ maybe_verdict (surroundings_plain around.now classes.entry) next.old sets.FormalParameterRest (optional (option_map (λ b. formal_parameter_rest_row N.plain b.value) node.now)) }
    ensures number { SameNumber (surroundings_plain around.now classes.entry) next.new (after_maybe (optional (option_map (λ b. formal_parameter_rest_row N.plain b.value) node.now)) next.old) }
{
    match node {
        Some(node) => check_formal_parameter_rest(node, around, classes, next),
        None => Ok(0),
    }
}

pub fn check_optional_binding_identifier(
    node: &Option<Box<BindingIdentifier>>,
    around: &Surroundings<'_>,
    classes: Option<&Classes<'_>>,
    next: &mut usize,
) -> Result<u64, TreeFault>
    ensures found { result ≡ maybe_verdict (surroundings_plain around.now classes.entry) next.old sets.BindingIdentifier (optional (option_map (λ b. binding_identifier_row b.value) node.now)) }
    ensures number { SameNumber (surroundings_plain around.now classes.entry) next.new (after_maybe (optional (option_map (λ b. binding_identifier_row b.value) node.now)) next.old) }
{
    match node {
        Some(node) => check_binding_identifier(node, around, classes, next),
        None => Ok(0),
    }
}

pub fn check_optional_function_body<N: CheckNode>(
    node: &Option<Box<FunctionBody<N>>>,
    around: &Surroundings<'_>,
    classes: Option<&Classes<'_>>,
    next: &mut usize,
) -> Result<u64, TreeFault>
    ensures found { result ≡ maybe_verdict (surroundings_plain around.now classes.entry) next.old sets.FunctionBody (optional (option_map (λ b. function_body_row N.plain b.value) node.now)) }
    ensures number { SameNumber (surroundings_plain around.now classes.entry) next.new (after_maybe (optional (option_map (λ b. function_body_row N.plain b.value) node.now)) next.old) }
{
    match node {
        Some(node) => check_function_body(node, around, classes, next),
        None => Ok(0),
    }
}

pub fn check_optional_for_statement_init<N: CheckNode>(
    node: &Option<ForStatementInit<N>>,
    around: &Surroundings<'_>,
    classes: Option<&Classes<'_>>,
    next: &mut usize,
) -> Result<u64, TreeFault>
    ensures found { result ≡ maybe_verdict (surroundings_plain around.now classes.entry) next.old sets.ForStatementInit (optional (option_map (in_for_statement_init N.plain) node.now)) }
    ensures number { SameNumber (surroundings_plain around.now classes.entry) next.new (after_maybe (optional (option_map (in_for_statement_init N.plain) node.now)) next.old) }
{
    match node {
        Some(node) => check_for_statement_init(node, around, classes, next),
        None => Ok(0),
    }
}

pub fn check_optional_label_identifier(
    node: &Option<Box<LabelIdentifier>>,
    around: &Surroundings<'_>,
    classes: Option<&Classes<'_>>,
    next: &mut usize,
) -> Result<u64, TreeFault>
    ensures found { result ≡ maybe_verdict (surroundings_plain around.now classes.entry) next.old sets.LabelIdentifier (optional (option_map (λ b. label_identifier_row b.value) node.now)) }
    ensures number { SameNumber (surroundings_plain around.now classes.entry) next.new (after_maybe (optional (option_map (λ b. label_identifier_row b.value) node.now)) next.old) }
{
    match node {
        Some(node) => check_label_identifier(node, around, classes, next),
        None => Ok(0),
    }
}

pub fn check_optional_catch_clause<N: CheckNode>(
    node: &Option<Box<CatchClause<N>>>,
    around: &Surroundings<'_>,
    classes: Option<&Classes<'_>>,
    next: &mut usize,
) -> Result<u64, TreeFault>
    ensures found { result ≡ maybe_verdict (surroundings_plain around.now classes.entry) next.old sets.CatchClause (optional (option_map (λ b. catch_clause_row N.plain b.value) node.now)) }
    ensures number { SameNumber (surroundings_plain around.now classes.entry) next.new (after_maybe (optional (option_map (λ b. catch_clause_row N.plain b.value) node.now)) next.old) }
{
    match node {
        Some(node) => check_catch_clause(node, around, classes, next),
        None => Ok(0),
    }
}

pub fn check_optional_block_statement<N: CheckNode>(
    node: &Option<Box<BlockStatement<N>>>,
    around: &Surroundings<'_>,
    classes: Option<&Classes<'_>>,
    next: &mut usize,
) -> Result<u64, TreeFault>
    ensures found { result ≡ maybe_verdict (surroundings_plain around.now classes.entry) next.old sets.BlockStatement (optional (option_map (λ b. block_statement_row N.plain b.value) node.now)) }
    ensures number { SameNumber (surroundings_plain around.now classes.entry) next.new (after_maybe (optional (option_map (λ b. block_statement_row N.plain b.value) node.now)) next.old) }
{
    match node {
        Some(node) => check_block_statement(node, around, classes, next),
        None => Ok(0),
    }
}

pub fn check_optional_binding_pattern<N: CheckNode>(
    node: &Option<BindingPatternNode<N>>,
    around: &Surroundings<'_>,
    classes: Option<&Classes<'_>>,
    next: &mut usize,
) -> Result<u64, TreeFault>
    ensures found { result ≡ maybe_verdict (surroundings_plain around.now classes.entry) next.old sets.BindingPattern (optional (option_map (in_binding_pattern N.plain) node.now)) }
    ensures number { SameNumber (surroundings_plain around.now classes.entry) next.new (after_maybe (optional (option_map (in_binding_pattern N.plain) node.now)) next.old) }
{
    match node {
        Some(node) => check_child(node.get(), NodeSet::BindingPattern, around, classes, next),
        None => Ok(0),
    }
}

pub fn check_optional_binding_rest_element<N: CheckNode>(
    node: &Option<Box<BindingRestElement<N>>>,
    around: &Surroundings<'_>,
    classes: Option<&Classes<'_>>,
    next: &mut usize,
) -> Result<u64, TreeFault>
    ensures found { result ≡ maybe_verdict (surroundings_plain around.now classes.entry) next.old sets.BindingRestElement (optional (option_map (λ b. binding_rest_element_row N.plain b.value) node.now)) }
    ensures number { SameNumber (surroundings_plain around.now classes.entry) next.new (after_maybe (optional (option_map (λ b. binding_rest_element_row N.plain b.value) node.now)) next.old) }
{
    match node {
        Some(node) => check_binding_rest_element(node, around, classes, next),
        None => Ok(0),
    }
}

pub fn check_optional_assignment_target_rest<N: CheckNode>(
    node: &Option<Box<AssignmentTargetRest<N>>>,
    around: &Surroundings<'_>,
    classes: Option<&Classes<'_>>,
    next: &mut usize,
) -> Result<u64, TreeFault>
    ensures found { result ≡ maybe_verdict (surroundings_plain around.now classes.entry) next.old sets.AssignmentTargetRest (optional (option_map (λ b. assignment_target_rest_row N.plain b.value) node.now)) }
    ensures number { SameNumber (surroundings_plain around.now classes.entry) next.new (after_maybe (optional (option_map (λ b. assignment_target_rest_row N.plain b.value) node.now)) next.old) }
{
    match node {
        Some(node) => check_assignment_target_rest(node, around, classes, next),
        None => Ok(0),
    }
}

pub fn check_optional_with_clause(
    node: &Option<Box<WithClause>>,
    around: &Surroundings<'_>,
    classes: Option<&Classes<'_>>,
    next: &mut usize,
) -> Result<u64, TreeFault>
    ensures found { result ≡ maybe_verdict (surroundings_plain around.now classes.entry) next.old sets.WithClause (optional (option_map (λ b. with_clause_row b.value) node.now)) }
    ensures number { SameNumber (surroundings_plain around.now classes.entry) next.new (after_maybe (optional (option_map (λ b. with_clause_row b.value) node.now)) next.old) }
{
    match node {
        Some(node) => check_with_clause(node, around, classes, next),
        None => Ok(0),
    }
}

pub fn check_optional_module_export_name(
    node: &Option<ModuleExportName>,
    around: &Surroundings<'_>,
    classes: Option<&Classes<'_>>,
    next: &mut usize,
) -> Result<u64, TreeFault>
    ensures found { result ≡ maybe_verdict (surroundings_plain around.now classes.entry) next.old sets.ModuleExportName (optional (option_map in_module_export_name node.now)) }
    ensures number { SameNumber (surroundings_plain around.now classes.entry) next.new (after_maybe (optional (option_map in_module_export_name node.now)) next.old) }
{
    match node {
        Some(node) => check_module_export_name(node, around, classes, next),
        None => Ok(0),
    }
}

pub fn check_optional_array_expression_element<N: CheckNode>(
    node: &Option<ArrayExpressionElement<N>>,
    around: &Surroundings<'_>,
    classes: Option<&Classes<'_>>,
    next: &mut usize,
) -> Result<u64, TreeFault>
    ensures found { result ≡ maybe_verdict (surroundings_plain around.now classes.entry) next.old sets.ArrayExpressionElement (optional (option_map (in_array_expression_element N.plain) node.now)) }
    ensures number { SameNumber (surroundings_plain around.now classes.entry) next.new (after_maybe (optional (option_map (in_array_expression_element N.plain) node.now)) next.old) }
{
    match node {
        Some(node) => check_array_expression_element(node, around, classes, next),
        None => Ok(0),
    }
}

pub fn check_optional_binding_element<N: CheckNode>(
    node: &Option<BindingPatternNode<N>>,
    around: &Surroundings<'_>,
    classes: Option<&Classes<'_>>,
    next: &mut usize,
) -> Result<u64, TreeFault>
    ensures found { result ≡ maybe_verdict (surroundings_plain around.now classes.entry) next.old sets.BindingElement (optional (option_map (in_binding_pattern N.plain) node.now)) }
    ensures number { SameNumber (surroundings_plain around.now classes.entry) next.new (after_maybe (optional (option_map (in_binding_pattern N.plain) node.now)) next.old) }
{
    match node {
        Some(node) => check_child(node.get(), NodeSet::BindingElement, around, classes, next),
        None => Ok(0),
    }
}

pub fn check_optional_assignment_target_maybe_default<N: CheckNode>(
    node: &Option<AssignmentTargetMaybeDefault<N>>,
    around: &Surroundings<'_>,
    classes: Option<&Classes<'_>>,
    next: &mut usize,
) -> Result<u64, TreeFault>
    ensures found { result ≡ maybe_verdict (surroundings_plain around.now classes.entry) next.old sets.AssignmentTargetMaybeDefault (optional (option_map (in_assignment_target_maybe_default N.plain) node.now)) }
    ensures number { SameNumber (surroundings_plain around.now classes.entry) next.new (after_maybe (optional (option_map (in_assignment_target_maybe_default N.plain) node.now)) next.old) }
{
    match node {
        Some(node) => check_assignment_target_maybe_default(node, around, classes, next),
        None => Ok(0),
    }
}

pub fn check_argument<N: CheckNode>(
    node: &Argument<N>,
    around: &Surroundings<'_>,
    classes: Option<&Classes<'_>>,
    next: &mut usize,
) -> Result<u64, TreeFault>
    ensures found { result ≡ child_verdict (surroundings_plain around.now classes.entry) next.old sets.Argument (in_argument N.plain node.now) }
    ensures number { SameNumber (surroundings_plain around.now classes.entry) next.new (after (in_argument N.plain node.now) next.old) }
{
    match node {
        Argument::SpreadElement(node) => check_spread_element(node, around, classes, next),
        Argument::Expression(node) => check_child(
            node.get(),
            NodeSet::Argument,
            around,
            classes,
            next,
        ),
    }
}

pub fn check_array_expression_element<N: CheckNode>(
    node: &ArrayExpressionElement<N>,
    around: &Surroundings<'_>,
    classes: Option<&Classes<'_>>,
    next: &mut usize,
) -> Result<u64, TreeFault>
    ensures found { result ≡ child_verdict (surroundings_plain around.now classes.entry) next.old sets.ArrayExpressionElement (in_array_expression_element N.plain node.now) }
    ensures number { SameNumber (surroundings_plain around.now classes.entry) next.new (after (in_array_expression_element N.plain node.now) next.old) }
{
    match node {
        ArrayExpressionElement::SpreadElement(node) => check_spread_element(
            node, around, classes, next,
        ),
        ArrayExpressionElement::Expression(node) => check_child(
            node.get(),
            NodeSet::ArrayExpressionElement,
            around,
            classes,
            next,
        ),
    }
}

pub fn check_chain_element<N: CheckNode>(
    node: &ChainElement<N>,
    around: &Surroundings<'_>,
    classes: Option<&Classes<'_>>,
    next: &mut usize,
) -> Result<u64, TreeFault>
    ensures found { result ≡ child_verdict (surroundings_plain around.now classes.entry) next.old sets.ChainElement (in_chain_element N.plain node.now) }
    ensures number { SameNumber (surroundings_plain around.now classes.entry) next.new (after (in_chain_element N.plain node.now) next.old) }
{
    match node {
        ChainElement::StaticMemberExpression(node) => check_static_member_expression(
            node, around, classes, next,
        ),
        ChainElement::ComputedMemberExpression(node) => check_computed_member_expression(
            node, around, classes, next,
        ),
        ChainElement::PrivateFieldExpression(node) => check_private_field_expression(
            node, around, classes, next,
        ),
        ChainElement::CallExpression(node) => check_call_expression(node, around, classes, next),
    }
}

pub fn check_simple_assignment_target<N: CheckNode>(
    node: &SimpleAssignmentTarget<N>,
    around: &Surroundings<'_>,
    classes: Option<&Classes<'_>>,
    next: &mut usize,
) -> Result<u64, TreeFault>
    ensures found { result ≡ child_verdict (surroundings_plain around.now classes.entry) next.old sets.SimpleAssignmentTarget (in_simple_assignment_target N.plain node.now) }
    ensures number { SameNumber (surroundings_plain around.now classes.entry) next.new (after (in_simple_assignment_target N.plain node.now) next.old) }
{
    match node {
        SimpleAssignmentTarget::IdentifierReference(node) => check_identifier_reference(
            node, around, classes, next,
        ),
        SimpleAssignmentTarget::StaticMemberExpression(node) => check_static_member_expression(
            node, around, classes, next,
        ),
        SimpleAssignmentTarget::ComputedMemberExpression(node) => check_computed_member_expression(
            node, around, classes, next,
        ),
        SimpleAssignmentTarget::PrivateFieldExpression(node) => check_private_field_expression(
            node, around, classes, next,
        ),
    }
}

pub fn check_assignment_target_maybe_default<N: CheckNode>(
    node: &AssignmentTargetMaybeDefault<N>,
    around: &Surroundings<'_>,
    classes: Option<&Classes<'_>>,
    next: &mut usize,
) -> Result<u64, TreeFault>
    ensures found { result ≡ child_verdict (surroundings_plain around.now classes.entry) next.old sets.AssignmentTargetMaybeDefault (in_assignment_target_maybe_default N.plain node.now) }
    ensures number { SameNumber (surroundings_plain around.now classes.entry) next.new (after (in_assignment_target_maybe_default N.plain node.now) next.old) }
{
    match node {
        AssignmentTargetMaybeDefault::AssignmentTarget(node) => check_child(
            node.get(),
            NodeSet::AssignmentTargetMaybeDefault,
            around,
            classes,
            next,
        ),
        AssignmentTargetMaybeDefault::AssignmentTargetWithDefault(node) =>
            check_assignment_target_with_default(node, around, classes, next),
    }
}

pub fn check_assignment_target_property<N: CheckNode>(
    node: &AssignmentTargetProperty<N>,
    around: &Surroundings<'_>,
    classes: Option<&Classes<'_>>,
    next: &mut usize,
) -> Result<u64, TreeFault>
    ensures found { result ≡ child_verdict (surroundings_plain around.now classes.entry) next.old sets.AssignmentTargetProperty (in_assignment_target_property N.plain node.now) }
    ensures number { SameNumber (surroundings_plain around.now classes.entry) next.new (after (in_assignment_target_property N.plain node.now) next.old) }
{
    match node {
        AssignmentTargetProperty::AssignmentTargetPropertyIdentifier(node) =>
            check_assignment_target_property_identifier(node, around, classes, next),
        AssignmentTargetProperty::AssignmentTargetPropertyProperty(node) =>
            check_assignment_target_property_property(node, around, classes, next),
    }
}

pub fn check_arrow_function_body<N: CheckNode>(
    node: &ArrowFunctionBody<N>,
    around: &Surroundings<'_>,
    classes: Option<&Classes<'_>>,
    next: &mut usize,
) -> Result<u64, TreeFault>
    ensures found { result ≡ child_verdict (surroundings_plain around.now classes.entry) next.old sets.ArrowFunctionBody (in_arrow_function_body N.plain node.now) }
    ensures number { SameNumber (surroundings_plain around.now classes.entry) next.new (after (in_arrow_function_body N.plain node.now) next.old) }
{
    match node {
        ArrowFunctionBody::FunctionBody(node) => check_function_body(node, around, classes, next),
        ArrowFunctionBody::Expression(node) => check_child(
            node.get(),
            NodeSet::ArrowFunctionBody,
            around,
            classes,
            next,
        ),
    }
}

pub fn check_for_statement_init<N: CheckNode>(
    node: &ForStatementInit<N>,
    around: &Surroundings<'_>,
    classes: Option<&Classes<'_>>,
    next: &mut usize,
) -> Result<u64, TreeFault>
    ensures found { result ≡ child_verdict (surroundings_plain around.now classes.entry) next.old sets.ForStatementInit (in_for_statement_init N.plain node.now) }
    ensures number { SameNumber (surroundings_plain around.now classes.entry) next.new (after (in_for_statement_init N.plain node.now) next.old) }
{
    match node {
        ForStatementInit::VariableDeclaration(node) => check_variable_declaration(
            node, around, classes, next,
        ),
        ForStatementInit::Expression(node) => check_child(
            node.get(),
            NodeSet::ForStatementInit,
            around,
            classes,
            next,
        ),
    }
}

pub fn check_for_statement_left<N: CheckNode>(
    node: &ForStatementLeft<N>,
    around: &Surroundings<'_>,
    classes: Option<&Classes<'_>>,
    next: &mut usize,
) -> Result<u64, TreeFault>
    ensures found { result ≡ child_verdict (surroundings_plain around.now classes.entry) next.old sets.ForStatementLeft (in_for_statement_left N.plain node.now) }
    ensures number { SameNumber (surroundings_plain around.now classes.entry) next.new (after (in_for_statement_left N.plain node.now) next.old) }
{
    match node {
        ForStatementLeft::VariableDeclaration(node) => check_variable_declaration(
            node, around, classes, next,
        ),
        ForStatementLeft::AssignmentTarget(node) => check_child(
            node.get(),
            NodeSet::ForStatementLeft,
            around,
            classes,
            next,
        ),
    }
}

pub fn check_object_property_kind<N: CheckNode>(
    node: &ObjectPropertyKind<N>,
    around: &Surroundings<'_>,
    classes: Option<&Classes<'_>>,
    next: &mut usize,
) -> Result<u64, TreeFault>
    ensures found { result ≡ child_verdict (surroundings_plain around.now classes.entry) next.old sets.ObjectPropertyKind (in_object_property_kind N.plain node.now) }
    ensures number { SameNumber (surroundings_plain around.now classes.entry) next.new (after (in_object_property_kind N.plain node.now) next.old) }
{
    match node {
        ObjectPropertyKind::ObjectProperty(node) => check_object_property(
            node, around, classes, next,
        ),
        ObjectPropertyKind::SpreadElement(node) => check_spread_element(
            node, around, classes, next,
        ),
    }
}

pub fn check_property_key<N: CheckNode>(
    node: &PropertyKey<N>,
    around: &Surroundings<'_>,
    classes: Option<&Classes<'_>>,
    next: &mut usize,
) -> Result<u64, TreeFault>
    ensures found { result ≡ child_verdict (surroundings_plain around.now classes.entry) next.old sets.PropertyKey (in_property_key N.plain node.now) }
    ensures number { SameNumber (surroundings_plain around.now classes.entry) next.new (after (in_property_key N.plain node.now) next.old) }
{
    match node {
        PropertyKey::IdentifierName(node) => check_identifier_name(node, around, classes, next),
        PropertyKey::PrivateIdentifier(node) => check_private_identifier(
            node, around, classes, next,
        ),
        PropertyKey::Expression(node) => check_child(
            node.get(),
            NodeSet::PropertyKey,
            around,
            classes,
            next,
        ),
    }
}

pub fn check_module_export_name(
    node: &ModuleExportName,
    around: &Surroundings<'_>,
    classes: Option<&Classes<'_>>,
    next: &mut usize,
) -> Result<u64, TreeFault>
    ensures found { result ≡ child_verdict (surroundings_plain around.now classes.entry) next.old sets.ModuleExportName (in_module_export_name node.now) }
    ensures number { SameNumber (surroundings_plain around.now classes.entry) next.new (after (in_module_export_name node.now) next.old) }
{
    match node {
        ModuleExportName::IdentifierName(node) => check_identifier_name(
            node, around, classes, next,
        ),
        ModuleExportName::IdentifierReference(node) => check_identifier_reference(
            node, around, classes, next,
        ),
        ModuleExportName::StringLiteral(node) => check_string_literal(node, around, classes, next),
    }
}

pub fn check_import_declaration_specifier(
    node: &ImportDeclarationSpecifier,
    around: &Surroundings<'_>,
    classes: Option<&Classes<'_>>,
    next: &mut usize,
) -> Result<u64, TreeFault>
    ensures found { result ≡ child_verdict (surroundings_plain around.now classes.entry) next.old sets.ImportDeclarationSpecifier (in_import_declaration_specifier node.now) }
    ensures number { SameNumber (surroundings_plain around.now classes.entry) next.new (after (in_import_declaration_specifier node.now) next.old) }
{
    match node {
        ImportDeclarationSpecifier::ImportDefaultSpecifier(node) => check_import_default_specifier(
            node, around, classes, next,
        ),
        ImportDeclarationSpecifier::ImportNamespaceSpecifier(node) =>
            check_import_namespace_specifier(node, around, classes, next),
        ImportDeclarationSpecifier::ImportSpecifier(node) => check_import_specifier(
            node, around, classes, next,
        ),
    }
}

pub fn check_import_attribute_key(
    node: &ImportAttributeKey,
    around: &Surroundings<'_>,
    classes: Option<&Classes<'_>>,
    next: &mut usize,
) -> Result<u64, TreeFault>
    ensures found { result ≡ child_verdict (surroundings_plain around.now classes.entry) next.old sets.ImportAttributeKey (in_import_attribute_key node.now) }
    ensures number { SameNumber (surroundings_plain around.now classes.entry) next.new (after (in_import_attribute_key node.now) next.old) }
{
    match node {
        ImportAttributeKey::IdentifierName(node) => check_identifier_name(
            node, around, classes, next,
        ),
        ImportAttributeKey::StringLiteral(node) => check_string_literal(
            node, around, classes, next,
        ),
    }
}

pub fn check_export_default_declaration_kind<N: CheckNode>(
    node: &ExportDefaultDeclarationKind<N>,
    around: &Surroundings<'_>,
    classes: Option<&Classes<'_>>,
    next: &mut usize,
) -> Result<u64, TreeFault>
    ensures found { result ≡ child_verdict (surroundings_plain around.now classes.entry) next.old sets.ExportDefaultDeclarationKind (in_export_default_declaration_kind N.plain node.now) }
    ensures number { SameNumber (surroundings_plain around.now classes.entry) next.new (after (in_export_default_declaration_kind N.plain node.now) next.old) }
{
    match node {
        ExportDefaultDeclarationKind::Function(node) => check_function(node, around, classes, next),
        ExportDefaultDeclarationKind::Class(node) => check_class(node, around, classes, next),
        ExportDefaultDeclarationKind::Expression(node) => check_child(
            node.get(),
            NodeSet::ExportDefaultDeclarationKind,
            around,
            classes,
            next,
        ),
    }
}
