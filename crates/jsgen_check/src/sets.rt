// Generated from tools/nodes/table.txt; edit that and run tools/nodes/generate.
// A member of a set is checked as its own type is.
ghost use Rattle.std.specs.Prelude.{◌≡◌};
ghost use Rattle.jsgen_tree.specs.Rows.{expression_plain, assignment_target_plain, declaration_plain, statement_plain, binding_pattern_plain, class_element_plain};
ghost use Rattle.jsgen_model.specs.Resolved.{after};
ghost use Rattle.jsgen_check.specs.Verdict.{surroundings_plain, tree_verdict, SameNumber};

use crate::assignments::{
    check_assignment_expression, check_conditional_expression, check_sequence_expression,
};
use crate::choices::{check_switch_statement, check_try_statement};
use crate::classes::{
    check_class, check_method_definition, check_private_field_expression,
    check_private_in_expression, check_property_definition, check_static_block,
};
use crate::collections::{check_array_expression, check_object_expression};
use crate::expressions::{
    check_big_int_literal, check_binary_expression, check_boolean_literal, check_call_expression,
    check_chain_expression, check_computed_member_expression, check_identifier_reference,
    check_logical_expression, check_null_literal, check_numeric_literal,
    check_parenthesized_expression, check_reg_exp_literal, check_static_member_expression,
    check_string_literal, check_this_expression,
};
use crate::functions::{
    check_arrow_function_expression, check_await_expression, check_function, check_yield_expression,
};
use crate::loops::{
    check_break_statement, check_continue_statement, check_debugger_statement,
    check_do_while_statement, check_for_in_statement, check_for_of_statement, check_for_statement,
    check_labeled_statement, check_return_statement, check_throw_statement, check_while_statement,
};
use crate::modules::{
    check_export_all_declaration, check_export_declaration, check_export_default_declaration,
    check_export_from_declaration, check_export_named_declaration, check_import_declaration,
};
use crate::operations::{
    check_import_meta, check_new_expression, check_new_target, check_super, check_unary_expression,
    check_update_expression,
};
use crate::patterns::{check_array_pattern, check_assignment_pattern, check_object_pattern};
use crate::statements::{
    check_binding_identifier, check_block_statement, check_empty_statement,
    check_expression_statement, check_if_statement, check_variable_declaration,
};
use crate::targets::{check_array_assignment_target, check_object_assignment_target};
use crate::templates::{
    check_import_expression, check_tagged_template_expression, check_template_literal,
};
use crate::{CheckNode, Surroundings};
use jsgen_model::TreeFault;
use jsgen_rules::Classes;
use jsgen_tree::{
    AssignmentTarget, BindingPattern, ClassElement, Declaration, Expression, Statement,
};

#[inline(never)]
pub fn check_expression_set<N: CheckNode>(
    node: &Expression<N>,
    around: &Surroundings<'_>,
    classes: Option<&Classes<'_>>,
    next: &mut usize,
) -> Result<u64, TreeFault>
    ensures found { result ≡ tree_verdict (surroundings_plain around.now classes.entry) next.old (expression_plain N.plain node.now) }
    ensures number { SameNumber (surroundings_plain around.now classes.entry) next.new (after (expression_plain N.plain node.now) next.old) }
{
    match node {
        Expression::IdentifierReference(node) => check_identifier_reference(
            node, around, classes, next,
        ),
        Expression::ThisExpression(node) => check_this_expression(node, around, classes, next),
        Expression::NullLiteral(node) => check_null_literal(node, around, classes, next),
        Expression::BooleanLiteral(node) => check_boolean_literal(node, around, classes, next),
        Expression::NumericLiteral(node) => check_numeric_literal(node, around, classes, next),
        Expression::BigIntLiteral(node) => check_big_int_literal(node, around, classes, next),
        Expression::StringLiteral(node) => check_string_literal(node, around, classes, next),
        Expression::RegExpLiteral(node) => check_reg_exp_literal(node, around, classes, next),
        Expression::BinaryExpression(node) => check_binary_expression(node, around, classes, next),
        Expression::LogicalExpression(node) => check_logical_expression(
            node, around, classes, next,
        ),
        Expression::ParenthesizedExpression(node) => check_parenthesized_expression(
            node, around, classes, next,
        ),
        Expression::StaticMemberExpression(node) => check_static_member_expression(
            node, around, classes, next,
        ),
        Expression::ComputedMemberExpression(node) => check_computed_member_expression(
            node, around, classes, next,
        ),
        Expression::CallExpression(node) => check_call_expression(node, around, classes, next),
        Expression::ChainExpression(node) => check_chain_expression(node, around, classes, next),
        Expression::ArrayExpression(node) => check_array_expression(node, around, classes, next),
        Expression::ObjectExpression(node) => check_object_expression(node, around, classes, next),
        Expression::UnaryExpression(node) => check_unary_expression(node, around, classes, next),
        Expression::UpdateExpression(node) => check_update_expression(node, around, classes, next),
        Expression::NewExpression(node) => check_new_expression(node, around, classes, next),
        Expression::NewTarget(node) => check_new_target(node, around, classes, next),
        Expression::Super(node) => check_super(node, around, classes, next),
        Expression::ImportMeta(node) => check_import_meta(node, around, classes, next),
        Expression::ConditionalExpression(node) => check_conditional_expression(
            node, around, classes, next,
        ),
        Expression::SequenceExpression(node) => check_sequence_expression(
            node, around, classes, next,
        ),
        Expression::AssignmentExpression(node) => check_assignment_expression(
            node, around, classes, next,
        ),
        Expression::Function(node) => check_function(node, around, classes, next),
        Expression::ArrowFunctionExpression(node) => check_arrow_function_expression(
            node, around, classes, next,
        ),
        Expression::Class(node) => check_class(node, around, classes, next),
        Expression::PrivateFieldExpression(node) => check_private_field_expression(
            node, around, classes, next,
        ),
        Expression::PrivateInExpression(node) => check_private_in_expression(
            node, around, classes, next,
        ),
        Expression::AwaitExpression(node) => check_await_expression(node, around, classes, next),
        Expression::YieldExpression(node) => check_yield_expression(node, around, classes, next),
        Expression::TemplateLiteral(node) => check_template_literal(node, around, classes, next),
        Expression::TaggedTemplateExpression(node) => check_tagged_template_expression(
            node, around, classes, next,
        ),
        Expression::ImportExpression(node) => check_import_expression(node, around, classes, next),
    }
}

#[inline(never)]
pub fn check_assignment_target_set<N: CheckNode>(
    node: &AssignmentTarget<N>,
    around: &Surroundings<'_>,
    classes: Option<&Classes<'_>>,
    next: &mut usize,
) -> Result<u64, TreeFault>
    ensures found { result ≡ tree_verdict (surroundings_plain around.now classes.entry) next.old (assignment_target_plain N.plain node.now) }
    ensures number { SameNumber (surroundings_plain around.now classes.entry) next.new (after (assignment_target_plain N.plain node.now) next.old) }
{
    match node {
        AssignmentTarget::IdentifierReference(node) => check_identifier_reference(
            node, around, classes, next,
        ),
        AssignmentTarget::StaticMemberExpression(node) => check_static_member_expression(
            node, around, classes, next,
        ),
        AssignmentTarget::ComputedMemberExpression(node) => check_computed_member_expression(
            node, around, classes, next,
        ),
        AssignmentTarget::PrivateFieldExpression(node) => check_private_field_expression(
            node, around, classes, next,
        ),
        AssignmentTarget::ArrayAssignmentTarget(node) => check_array_assignment_target(
            node, around, classes, next,
        ),
        AssignmentTarget::ObjectAssignmentTarget(node) => check_object_assignment_target(
            node, around, classes, next,
        ),
    }
}

#[inline(never)]
pub fn check_declaration_set<N: CheckNode>(
    node: &Declaration<N>,
    around: &Surroundings<'_>,
    classes: Option<&Classes<'_>>,
    next: &mut usize,
) -> Result<u64, TreeFault>
    ensures found { result ≡ tree_verdict (surroundings_plain around.now classes.entry) next.old (declaration_plain N.plain node.now) }
    ensures number { SameNumber (surroundings_plain around.now classes.entry) next.new (after (declaration_plain N.plain node.now) next.old) }
{
    match node {
        Declaration::VariableDeclaration(node) => check_variable_declaration(
            node, around, classes, next,
        ),
        Declaration::Function(node) => check_function(node, around, classes, next),
        Declaration::Class(node) => check_class(node, around, classes, next),
    }
}

#[inline(never)]
pub fn check_statement_set<N: CheckNode>(
    node: &Statement<N>,
    around: &Surroundings<'_>,
    classes: Option<&Classes<'_>>,
    next: &mut usize,
) -> Result<u64, TreeFault>
    ensures found { result ≡ tree_verdict (surroundings_plain around.now classes.entry) next.old (statement_plain N.plain node.now) }
    ensures number { SameNumber (surroundings_plain around.now classes.entry) next.new (after (statement_plain N.plain node.now) next.old) }
{
    match node {
        Statement::Declaration(node) => node.get().check(around, classes, next),
        Statement::ExpressionStatement(node) => check_expression_statement(
            node, around, classes, next,
        ),
        Statement::BlockStatement(node) => check_block_statement(node, around, classes, next),
        Statement::IfStatement(node) => check_if_statement(node, around, classes, next),
        Statement::EmptyStatement(node) => check_empty_statement(node, around, classes, next),
        Statement::ForStatement(node) => check_for_statement(node, around, classes, next),
        Statement::ForInStatement(node) => check_for_in_statement(node, around, classes, next),
        Statement::ForOfStatement(node) => check_for_of_statement(node, around, classes, next),
        Statement::WhileStatement(node) => check_while_statement(node, around, classes, next),
        Statement::DoWhileStatement(node) => check_do_while_statement(node, around, classes, next),
        Statement::LabeledStatement(node) => check_labeled_statement(node, around, classes, next),
        Statement::ContinueStatement(node) => check_continue_statement(node, around, classes, next),
        Statement::BreakStatement(node) => check_break_statement(node, around, classes, next),
        Statement::ReturnStatement(node) => check_return_statement(node, around, classes, next),
        Statement::ThrowStatement(node) => check_throw_statement(node, around, classes, next),
        Statement::DebuggerStatement(node) => check_debugger_statement(node, around, classes, next),
        Statement::SwitchStatement(node) => check_switch_statement(node, around, classes, next),
        Statement::TryStatement(node) => check_try_statement(node, around, classes, next),
        Statement::ImportDeclaration(node) => check_import_declaration(node, around, classes, next),
        Statement::ExportDeclaration(node) => check_export_declaration(node, around, classes, next),
        Statement::ExportNamedDeclaration(node) => check_export_named_declaration(
            node, around, classes, next,
        ),
        Statement::ExportFromDeclaration(node) => check_export_from_declaration(
            node, around, classes, next,
        ),
        Statement::ExportAllDeclaration(node) => check_export_all_declaration(
            node, around, classes, next,
        ),
        Statement::ExportDefaultDeclaration(node) => check_export_default_declaration(
            node, around, classes, next,
        ),
    }
}

#[inline(never)]
pub fn check_binding_pattern_set<N: CheckNode>(
    node: &BindingPattern<N>,
    around: &Surroundings<'_>,
    classes: Option<&Classes<'_>>,
    next: &mut usize,
) -> Result<u64, TreeFault>
    ensures found { result ≡ tree_verdict (surroundings_plain around.now classes.entry) next.old (binding_pattern_plain N.plain node.now) }
    ensures number { SameNumber (surroundings_plain around.now classes.entry) next.new (after (binding_pattern_plain N.plain node.now) next.old) }
{
    match node {
        BindingPattern::BindingIdentifier(node) => check_binding_identifier(
            node, around, classes, next,
        ),
        BindingPattern::ObjectPattern(node) => check_object_pattern(node, around, classes, next),
        BindingPattern::ArrayPattern(node) => check_array_pattern(node, around, classes, next),
        BindingPattern::AssignmentPattern(node) => check_assignment_pattern(
            node, around, classes, next,
        ),
    }
}

#[inline(never)]
pub fn check_class_element_set<N: CheckNode>(
    node: &ClassElement<N>,
    around: &Surroundings<'_>,
    classes: Option<&Classes<'_>>,
    next: &mut usize,
) -> Result<u64, TreeFault>
    ensures found { result ≡ tree_verdict (surroundings_plain around.now classes.entry) next.old (class_element_plain N.plain node.now) }
    ensures number { SameNumber (surroundings_plain around.now classes.entry) next.new (after (class_element_plain N.plain node.now) next.old) }
{
    match node {
        ClassElement::StaticBlock(node) => check_static_block(node, around, classes, next),
        ClassElement::MethodDefinition(node) => check_method_definition(
            node, around, classes, next,
        ),
        ClassElement::PropertyDefinition(node) => check_property_definition(
            node, around, classes, next,
        ),
    }
}
