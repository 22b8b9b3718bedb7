// Generated from tools/nodes/table.txt; edit that and run tools/nodes/generate.
// A set prints as its member does.
ghost use Rattle.std.specs.Prelude.{◌≡◌, true, nat_le};
ghost use Rattle.jsgen_tree.specs.Rows.{in_member_expression, in_simple_assignment_target, expression_plain, assignment_target_plain, declaration_plain, statement_plain, binding_pattern_plain, class_element_plain};
ghost use Rattle.jsgen_printer.specs.Steps.{Lays};
ghost use Rattle.jsgen_model.specs.Spell.{spell};
ghost use Rattle.jsgen_nodes.specs.Parts.{expression_part, assignment_target_part, declaration_part, statement_part, binding_pattern_part};

use crate::assignments::print_assignment_expression;
use crate::choices::{print_switch_statement, print_try_statement};
use crate::collections::{print_array_expression, print_object_expression};
use crate::expressions::{
    print_big_int_literal, print_binary_expression, print_boolean_literal, print_call_expression,
    print_chain_expression, print_computed_member_expression, print_logical_expression,
    print_numeric_literal, print_static_member_expression, print_string_literal,
};
use crate::functions::{print_arrow_function_expression, print_function};
use crate::loops::{
    print_do_while_statement, print_for_in_statement, print_for_of_statement, print_for_statement,
};
use crate::modules::print_export_default_declaration;
use crate::operations::{print_new_expression, print_update_expression};
use crate::patterns::{print_array_pattern, print_object_pattern};
use crate::statements::{print_block_statement, print_if_statement};
use crate::targets::{print_array_assignment_target, print_object_assignment_target};
use crate::templates::{
    print_import_expression, print_tagged_template_expression, print_template_literal,
};
use crate::{InClass, Inside, PrintNode};
use jsgen_classes::{
    print_class, print_method_definition, print_private_field_expression,
    print_private_in_expression, print_property_definition, print_static_block,
};
use jsgen_inside::{print_binding_identifier, print_identifier_reference};
use jsgen_modules::{
    print_export_all_declaration, print_export_declaration, print_export_from_declaration,
    print_export_named_declaration, print_import_declaration,
};
use jsgen_patterns::print_assignment_pattern;
use jsgen_place::Place;
use jsgen_printer::Printer;
use jsgen_spelled::{
    print_await_expression, print_break_statement, print_conditional_expression,
    print_continue_statement, print_debugger_statement, print_empty_statement,
    print_expression_statement, print_import_meta, print_labeled_statement, print_new_target,
    print_null_literal, print_parenthesized_expression, print_reg_exp_literal,
    print_return_statement, print_sequence_expression, print_super, print_this_expression,
    print_throw_statement, print_unary_expression, print_variable_declaration,
    print_while_statement, print_yield_expression,
};
use jsgen_tree::{
    AssignmentTarget, BindingPattern, ClassElement, Declaration, Expression, MemberExpression,
    SimpleAssignmentTarget, Statement,
};

pub fn print_expression<N: PrintNode>(node: &Expression<N>, p: &mut Printer<'_>, place: Place)
    ensures { Lays p.old p.new (spell (expression_plain N.plain node.now) place) }
{
    match node {
        Expression::IdentifierReference(node) => print_identifier_reference(node, p, place),
        Expression::ThisExpression(node) => print_this_expression(node, p, place),
        Expression::NullLiteral(node) => print_null_literal(node, p, place),
        Expression::BooleanLiteral(node) => print_boolean_literal(node, p, place),
        Expression::NumericLiteral(node) => print_numeric_literal(node, p, place),
        Expression::BigIntLiteral(node) => print_big_int_literal(node, p, place),
        Expression::StringLiteral(node) => print_string_literal(node, p, place),
        Expression::RegExpLiteral(node) => print_reg_exp_literal(node, p, place),
        Expression::ParenthesizedExpression(node) => print_parenthesized_expression::<_, Inside>(
            node, p, place,
        ),
        Expression::BinaryExpression(node) => print_binary_expression(node, p, place),
        Expression::LogicalExpression(node) => print_logical_expression(node, p, place),
        Expression::StaticMemberExpression(node) => print_static_member_expression(node, p, place),
        Expression::ComputedMemberExpression(node) => print_computed_member_expression(
            node, p, place,
        ),
        Expression::CallExpression(node) => print_call_expression(node, p, place),
        Expression::ChainExpression(node) => print_chain_expression(node, p, place),
        _ => print_expression_in_collections(node, p, place),
    }
}

fn print_expression_in_collections<N: PrintNode>(
    node: &Expression<N>,
    p: &mut Printer<'_>,
    place: Place,
)
    requires { nat_le 1 (expression_part node.now) ≡ true }
    ensures { Lays p.old p.new (spell (expression_plain N.plain node.now) place) }
{
    match node {
        Expression::ArrayExpression(node) => print_array_expression(node, p, place),
        Expression::ObjectExpression(node) => print_object_expression(node, p, place),
        _ => print_expression_in_operations(node, p, place),
    }
}

fn print_expression_in_operations<N: PrintNode>(
    node: &Expression<N>,
    p: &mut Printer<'_>,
    place: Place,
)
    requires { nat_le 2 (expression_part node.now) ≡ true }
    ensures { Lays p.old p.new (spell (expression_plain N.plain node.now) place) }
{
    match node {
        Expression::UnaryExpression(node) => print_unary_expression::<_, Inside>(node, p, place),
        Expression::NewTarget(node) => print_new_target(node, p, place),
        Expression::UpdateExpression(node) => print_update_expression(node, p, place),
        Expression::NewExpression(node) => print_new_expression(node, p, place),
        Expression::Super(node) => print_super(node, p, place),
        Expression::ImportMeta(node) => print_import_meta(node, p, place),
        _ => print_expression_in_assignments(node, p, place),
    }
}

fn print_expression_in_assignments<N: PrintNode>(
    node: &Expression<N>,
    p: &mut Printer<'_>,
    place: Place,
)
    requires { nat_le 3 (expression_part node.now) ≡ true }
    ensures { Lays p.old p.new (spell (expression_plain N.plain node.now) place) }
{
    match node {
        Expression::ConditionalExpression(node) => print_conditional_expression::<_, Inside>(
            node, p, place,
        ),
        Expression::SequenceExpression(node) => print_sequence_expression::<_, Inside>(
            node, p, place,
        ),
        Expression::AssignmentExpression(node) => print_assignment_expression(node, p, place),
        _ => print_expression_in_functions(node, p, place),
    }
}

fn print_expression_in_functions<N: PrintNode>(
    node: &Expression<N>,
    p: &mut Printer<'_>,
    place: Place,
)
    requires { nat_le 4 (expression_part node.now) ≡ true }
    ensures { Lays p.old p.new (spell (expression_plain N.plain node.now) place) }
{
    match node {
        Expression::Function(node) => print_function(node, p, place),
        Expression::ArrowFunctionExpression(node) => print_arrow_function_expression(
            node, p, place,
        ),
        Expression::AwaitExpression(node) => print_await_expression::<_, Inside>(node, p, place),
        Expression::YieldExpression(node) => print_yield_expression::<_, Inside>(node, p, place),
        _ => print_expression_in_templates(node, p, place),
    }
}

fn print_expression_in_templates<N: PrintNode>(
    node: &Expression<N>,
    p: &mut Printer<'_>,
    place: Place,
)
    requires { nat_le 5 (expression_part node.now) ≡ true }
    ensures { Lays p.old p.new (spell (expression_plain N.plain node.now) place) }
{
    match node {
        Expression::TemplateLiteral(node) => print_template_literal(node, p, place),
        Expression::TaggedTemplateExpression(node) => print_tagged_template_expression(
            node, p, place,
        ),
        Expression::ImportExpression(node) => print_import_expression(node, p, place),
        _ => print_expression_in_classes(node, p, place),
    }
}

fn print_expression_in_classes<N: PrintNode>(
    node: &Expression<N>,
    p: &mut Printer<'_>,
    place: Place,
)
    requires { nat_le 6 (expression_part node.now) ≡ true }
    ensures { Lays p.old p.new (spell (expression_plain N.plain node.now) place) }
{
    match node {
        Expression::PrivateFieldExpression(node) => print_private_field_expression::<_, Inside>(
            node, p, place,
        ),
        Expression::PrivateInExpression(node) => print_private_in_expression::<_, Inside>(
            node, p, place,
        ),
        Expression::Class(node) => print_class::<_, Inside>(node, p, place),
        _ => unreachable!(),
    }
}

pub fn print_assignment_target<N: PrintNode>(
    node: &AssignmentTarget<N>,
    p: &mut Printer<'_>,
    place: Place,
)
    ensures { Lays p.old p.new (spell (assignment_target_plain N.plain node.now) place) }
{
    match node {
        AssignmentTarget::IdentifierReference(node) => print_identifier_reference(node, p, place),
        AssignmentTarget::StaticMemberExpression(node) => print_static_member_expression(
            node, p, place,
        ),
        AssignmentTarget::ComputedMemberExpression(node) => print_computed_member_expression(
            node, p, place,
        ),
        _ => print_assignment_target_in_targets(node, p, place),
    }
}

fn print_assignment_target_in_targets<N: PrintNode>(
    node: &AssignmentTarget<N>,
    p: &mut Printer<'_>,
    place: Place,
)
    requires { nat_le 1 (assignment_target_part node.now) ≡ true }
    ensures { Lays p.old p.new (spell (assignment_target_plain N.plain node.now) place) }
{
    match node {
        AssignmentTarget::ArrayAssignmentTarget(node) => print_array_assignment_target(
            node, p, place,
        ),
        AssignmentTarget::ObjectAssignmentTarget(node) => print_object_assignment_target(
            node, p, place,
        ),
        _ => print_assignment_target_in_classes(node, p, place),
    }
}

fn print_assignment_target_in_classes<N: PrintNode>(
    node: &AssignmentTarget<N>,
    p: &mut Printer<'_>,
    place: Place,
)
    requires { nat_le 2 (assignment_target_part node.now) ≡ true }
    ensures { Lays p.old p.new (spell (assignment_target_plain N.plain node.now) place) }
{
    match node {
        AssignmentTarget::PrivateFieldExpression(node) => print_private_field_expression::<
            _,
            Inside,
        >(node, p, place),
        _ => unreachable!(),
    }
}

pub fn print_declaration<N: PrintNode>(node: &Declaration<N>, p: &mut Printer<'_>, place: Place)
    ensures { Lays p.old p.new (spell (declaration_plain N.plain node.now) place) }
{
    match node {
        Declaration::VariableDeclaration(node) => print_variable_declaration::<_, Inside>(
            node, p, place,
        ),
        _ => print_declaration_in_functions(node, p, place),
    }
}

fn print_declaration_in_functions<N: PrintNode>(
    node: &Declaration<N>,
    p: &mut Printer<'_>,
    place: Place,
)
    requires { nat_le 1 (declaration_part node.now) ≡ true }
    ensures { Lays p.old p.new (spell (declaration_plain N.plain node.now) place) }
{
    match node {
        Declaration::Function(node) => print_function(node, p, place),
        _ => print_declaration_in_classes(node, p, place),
    }
}

fn print_declaration_in_classes<N: PrintNode>(
    node: &Declaration<N>,
    p: &mut Printer<'_>,
    place: Place,
)
    requires { nat_le 2 (declaration_part node.now) ≡ true }
    ensures { Lays p.old p.new (spell (declaration_plain N.plain node.now) place) }
{
    match node {
        Declaration::Class(node) => print_class::<_, Inside>(node, p, place),
        _ => unreachable!(),
    }
}

pub fn print_statement<N: PrintNode>(node: &Statement<N>, p: &mut Printer<'_>, place: Place)
    ensures { Lays p.old p.new (spell (statement_plain N.plain node.now) place) }
{
    match node {
        Statement::Declaration(node) => node.get().print(p, place),
        _ => print_statement_in_statements(node, p, place),
    }
}

fn print_statement_in_statements<N: PrintNode>(
    node: &Statement<N>,
    p: &mut Printer<'_>,
    place: Place,
)
    requires { nat_le 1 (statement_part node.now) ≡ true }
    ensures { Lays p.old p.new (spell (statement_plain N.plain node.now) place) }
{
    match node {
        Statement::ExpressionStatement(node) => print_expression_statement::<_, Inside>(
            node, p, place,
        ),
        Statement::BlockStatement(node) => print_block_statement(node, p, place),
        Statement::IfStatement(node) => print_if_statement(node, p, place),
        Statement::EmptyStatement(node) => print_empty_statement(node, p, place),
        _ => print_statement_in_loops(node, p, place),
    }
}

fn print_statement_in_loops<N: PrintNode>(node: &Statement<N>, p: &mut Printer<'_>, place: Place)
    requires { nat_le 2 (statement_part node.now) ≡ true }
    ensures { Lays p.old p.new (spell (statement_plain N.plain node.now) place) }
{
    match node {
        Statement::ForStatement(node) => print_for_statement(node, p, place),
        Statement::ForInStatement(node) => print_for_in_statement(node, p, place),
        Statement::ForOfStatement(node) => print_for_of_statement(node, p, place),
        Statement::WhileStatement(node) => print_while_statement::<_, Inside>(node, p, place),
        Statement::DoWhileStatement(node) => print_do_while_statement(node, p, place),
        Statement::LabeledStatement(node) => print_labeled_statement::<_, Inside>(node, p, place),
        Statement::ContinueStatement(node) => print_continue_statement(node, p, place),
        Statement::BreakStatement(node) => print_break_statement(node, p, place),
        Statement::ReturnStatement(node) => print_return_statement::<_, Inside>(node, p, place),
        Statement::ThrowStatement(node) => print_throw_statement::<_, Inside>(node, p, place),
        Statement::DebuggerStatement(node) => print_debugger_statement(node, p, place),
        _ => print_statement_in_choices(node, p, place),
    }
}

fn print_statement_in_choices<N: PrintNode>(node: &Statement<N>, p: &mut Printer<'_>, place: Place)
    requires { nat_le 3 (statement_part node.now) ≡ true }
    ensures { Lays p.old p.new (spell (statement_plain N.plain node.now) place) }
{
    match node {
        Statement::SwitchStatement(node) => print_switch_statement(node, p, place),
        Statement::TryStatement(node) => print_try_statement(node, p, place),
        _ => print_statement_in_modules(node, p, place),
    }
}

fn print_statement_in_modules<N: PrintNode>(node: &Statement<N>, p: &mut Printer<'_>, place: Place)
    requires { nat_le 4 (statement_part node.now) ≡ true }
    ensures { Lays p.old p.new (spell (statement_plain N.plain node.now) place) }
{
    match node {
        Statement::ImportDeclaration(node) => print_import_declaration(node, p, place),
        Statement::ExportDeclaration(node) => print_export_declaration::<_, Inside>(node, p, place),
        Statement::ExportNamedDeclaration(node) => print_export_named_declaration(node, p, place),
        Statement::ExportFromDeclaration(node) => print_export_from_declaration(node, p, place),
        Statement::ExportAllDeclaration(node) => print_export_all_declaration(node, p, place),
        Statement::ExportDefaultDeclaration(node) => print_export_default_declaration(
            node, p, place,
        ),
        _ => unreachable!(),
    }
}

pub fn print_binding_pattern<N: PrintNode>(
    node: &BindingPattern<N>,
    p: &mut Printer<'_>,
    place: Place,
)
    ensures { Lays p.old p.new (spell (binding_pattern_plain N.plain node.now) place) }
{
    match node {
        BindingPattern::BindingIdentifier(node) => print_binding_identifier(node, p, place),
        _ => print_binding_pattern_in_patterns(node, p, place),
    }
}

fn print_binding_pattern_in_patterns<N: PrintNode>(
    node: &BindingPattern<N>,
    p: &mut Printer<'_>,
    place: Place,
)
    requires { nat_le 1 (binding_pattern_part node.now) ≡ true }
    ensures { Lays p.old p.new (spell (binding_pattern_plain N.plain node.now) place) }
{
    match node {
        BindingPattern::ObjectPattern(node) => print_object_pattern(node, p, place),
        BindingPattern::ArrayPattern(node) => print_array_pattern(node, p, place),
        BindingPattern::AssignmentPattern(node) => print_assignment_pattern::<_, Inside>(
            node, p, place,
        ),
        _ => unreachable!(),
    }
}

pub fn print_class_element<N: PrintNode>(node: &ClassElement<N>, p: &mut Printer<'_>, place: Place)
    ensures { Lays p.old p.new (spell (class_element_plain N.plain node.now) place) }
{
    match node {
        ClassElement::StaticBlock(node) => print_static_block::<_, InClass>(node, p, place),
        ClassElement::MethodDefinition(node) => print_method_definition::<_, InClass>(
            node, p, place,
        ),
        ClassElement::PropertyDefinition(node) => print_property_definition::<_, InClass>(
            node, p, place,
        ),
    }
}

pub fn print_member_expression<N: PrintNode>(
    node: &MemberExpression<N>,
    p: &mut Printer<'_>,
    place: Place,
)
    ensures { Lays p.old p.new (spell (in_member_expression N.plain node.now) place) }
{
    match node {
        MemberExpression::StaticMemberExpression(node) => print_static_member_expression(
            node, p, place,
        ),
        MemberExpression::ComputedMemberExpression(node) => print_computed_member_expression(
            node, p, place,
        ),
        MemberExpression::PrivateFieldExpression(node) => print_private_field_expression::<
            _,
            Inside,
        >(node, p, place),
    }
}

pub fn print_simple_assignment_target<N: PrintNode>(
    node: &SimpleAssignmentTarget<N>,
    p: &mut Printer<'_>,
    place: Place,
)
    ensures { Lays p.old p.new (spell (in_simple_assignment_target N.plain node.now) place) }
{
    match node {
        SimpleAssignmentTarget::IdentifierReference(node) => print_identifier_reference(
            node, p, place,
        ),
        SimpleAssignmentTarget::StaticMemberExpression(node) => print_static_member_expression(
            node, p, place,
        ),
        SimpleAssignmentTarget::ComputedMemberExpression(node) => print_computed_member_expression(
            node, p, place,
        ),
        SimpleAssignmentTarget::PrivateFieldExpression(node) => print_private_field_expression::<
            _,
            Inside,
        >(node, p, place),
    }
}
