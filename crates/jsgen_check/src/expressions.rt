// Generated from tools/nodes/table.txt; edit that and run tools/nodes/generate.
// Expressions (ECMA-262, clause 13).
ghost use Rattle.std.specs.Prelude.{◌≡◌};
ghost use Rattle.jsgen_tree.specs.Rows.{identifier_reference_row, this_expression_row, null_literal_row, boolean_literal_row, numeric_literal_row, big_int_literal_row, string_literal_row, reg_exp_literal_row, parenthesized_expression_row, binary_expression_row, logical_expression_row, identifier_name_row, static_member_expression_row, computed_member_expression_row, call_expression_row, chain_expression_row};
ghost use Rattle.jsgen_model.specs.Resolved.{after};
ghost use Rattle.jsgen_check.specs.Verdict.{surroundings_plain, tree_verdict, SameNumber};

use crate::children::check_chain_element;
use crate::heights::{check_node, higher};
use crate::lists::check_arguments;
use crate::rules::{
    check_big_int_literal_rules, check_call_expression_rules, check_chain_expression_rules,
    check_computed_member_expression_rules, check_identifier_name_rules,
    check_identifier_reference_rules, check_numeric_literal_rules, check_reg_exp_literal_rules,
    check_static_member_expression_rules,
};
use crate::{CheckNode, Surroundings, check_child};
use jsgen_model::TreeFault;
use jsgen_rules::Classes;
use jsgen_tree::{
    BigIntLiteral, BinaryExpression, BooleanLiteral, CallExpression, ChainExpression,
    ComputedMemberExpression, IdentifierName, IdentifierReference, LogicalExpression, NodeSet,
    NullLiteral, NumericLiteral, ParenthesizedExpression, RegExpLiteral, StaticMemberExpression,
    StringLiteral, ThisExpression,
};

pub fn check_identifier_reference(
    node: &IdentifierReference,
    around: &Surroundings<'_>,
    classes: Option<&Classes<'_>>,
    next: &mut usize,
) -> Result<u64, TreeFault>
    ensures found { result ≡ tree_verdict (surroundings_plain around.now classes.entry) next.old (identifier_reference_row node.now) }
    ensures number { SameNumber (surroundings_plain around.now classes.entry) next.new (after (identifier_reference_row node.now) next.old) }
{
    let rules = check_identifier_reference_rules(node, around, classes);
    let _ = next;
    check_node(around, classes, node.span, rules, Ok(0))
}

pub fn check_this_expression(
    node: &ThisExpression,
    around: &Surroundings<'_>,
    classes: Option<&Classes<'_>>,
    next: &mut usize,
) -> Result<u64, TreeFault>
    ensures found { result ≡ tree_verdict (surroundings_plain around.now classes.entry) next.old (this_expression_row node.now) }
    ensures number { SameNumber (surroundings_plain around.now classes.entry) next.new (after (this_expression_row node.now) next.old) }
{
    let _ = next;
    check_node(around, classes, node.span, Ok(()), Ok(0))
}

pub fn check_null_literal(
    node: &NullLiteral,
    around: &Surroundings<'_>,
    classes: Option<&Classes<'_>>,
    next: &mut usize,
) -> Result<u64, TreeFault>
    ensures found { result ≡ tree_verdict (surroundings_plain around.now classes.entry) next.old (null_literal_row node.now) }
    ensures number { SameNumber (surroundings_plain around.now classes.entry) next.new (after (null_literal_row node.now) next.old) }
{
    let _ = next;
    check_node(around, classes, node.span, Ok(()), Ok(0))
}

pub fn check_boolean_literal(
    node: &BooleanLiteral,
    around: &Surroundings<'_>,
    classes: Option<&Classes<'_>>,
    next: &mut usize,
) -> Result<u64, TreeFault>
    ensures found { result ≡ tree_verdict (surroundings_plain around.now classes.entry) next.old (boolean_literal_row node.now) }
    ensures number { SameNumber (surroundings_plain around.now classes.entry) next.new (after (boolean_literal_row node.now) next.old) }
{
    let _ = next;
    check_node(around, classes, node.span, Ok(()), Ok(0))
}

pub fn check_numeric_literal(
    node: &NumericLiteral,
    around: &Surroundings<'_>,
    classes: Option<&Classes<'_>>,
    next: &mut usize,
) -> Result<u64, TreeFault>
    ensures found { result ≡ tree_verdict (surroundings_plain around.now classes.entry) next.old (numeric_literal_row node.now) }
    ensures number { SameNumber (surroundings_plain around.now classes.entry) next.new (after (numeric_literal_row node.now) next.old) }
{
    let rules = check_numeric_literal_rules(node, around, classes);
    let _ = next;
    check_node(around, classes, node.span, rules, Ok(0))
}

pub fn check_big_int_literal(
    node: &BigIntLiteral,
    around: &Surroundings<'_>,
    classes: Option<&Classes<'_>>,
    next: &mut usize,
) -> Result<u64, TreeFault>
    ensures found { result ≡ tree_verdict (surroundings_plain around.now classes.entry) next.old (big_int_literal_row node.now) }
    ensures number { SameNumber (surroundings_plain around.now classes.entry) next.new (after (big_int_literal_row node.now) next.old) }
{
    let rules = check_big_int_literal_rules(node, around, classes);
    let _ = next;
    check_node(around, classes, node.span, rules, Ok(0))
}

pub fn check_string_literal(
    node: &StringLiteral,
    around: &Surroundings<'_>,
    classes: Option<&Classes<'_>>,
    next: &mut usize,
) -> Result<u64, TreeFault>
    ensures found { result ≡ tree_verdict (surroundings_plain around.now classes.entry) next.old (string_literal_row node.now) }
    ensures number { SameNumber (surroundings_plain around.now classes.entry) next.new (after (string_literal_row node.now) next.old) }
{
    let _ = next;
    check_node(around, classes, node.span, Ok(()), Ok(0))
}

pub fn check_reg_exp_literal(
    node: &RegExpLiteral,
    around: &Surroundings<'_>,
    classes: Option<&Classes<'_>>,
    next: &mut usize,
) -> Result<u64, TreeFault>
    ensures found { result ≡ tree_verdict (surroundings_plain around.now classes.entry) next.old (reg_exp_literal_row node.now) }
    ensures number { SameNumber (surroundings_plain around.now classes.entry) next.new (after (reg_exp_literal_row node.now) next.old) }
{
    let rules = check_reg_exp_literal_rules(node, around, classes);
    let _ = next;
    check_node(around, classes, node.span, rules, Ok(0))
}

#[inline(never)]
pub fn check_parenthesized_expression<N: CheckNode>(
    node: &ParenthesizedExpression<N>,
    around: &Surroundings<'_>,
    classes: Option<&Classes<'_>>,
    next: &mut usize,
) -> Result<u64, TreeFault>
    ensures found { result ≡ tree_verdict (surroundings_plain around.now classes.entry) next.old (parenthesized_expression_row N.plain node.now) }
    ensures number { SameNumber (surroundings_plain around.now classes.entry) next.new (after (parenthesized_expression_row N.plain node.now) next.old) }
{
    let expression = check_child(
        node.expression.get(),
        NodeSet::Expression,
        around,
        classes,
        next,
    );
    check_node(around, classes, node.span, Ok(()), expression)
}

#[inline(never)]
pub fn check_binary_expression<N: CheckNode>(
    node: &BinaryExpression<N>,
    around: &Surroundings<'_>,
    classes: Option<&Classes<'_>>,
    next: &mut usize,
) -> Result<u64, TreeFault>
    ensures found { result ≡ tree_verdict (surroundings_plain around.now classes.entry) next.old (binary_expression_row N.plain node.now) }
    ensures number { SameNumber (surroundings_plain around.now classes.entry) next.new (after (binary_expression_row N.plain node.now) next.old) }
{
    let left = check_child(node.left.get(), NodeSet::Expression, around, classes, next);
    let right = check_child(node.right.get(), NodeSet::Expression, around, classes, next);
    check_node(around, classes, node.span, Ok(()), higher(left, right))
}

#[inline(never)]
pub fn check_logical_expression<N: CheckNode>(
    node: &LogicalExpression<N>,
    around: &Surroundings<'_>,
    classes: Option<&Classes<'_>>,
    next: &mut usize,
) -> Result<u64, TreeFault>
    ensures found { result ≡ tree_verdict (surroundings_plain around.now classes.entry) next.old (logical_expression_row N.plain node.now) }
    ensures number { SameNumber (surroundings_plain around.now classes.entry) next.new (after (logical_expression_row N.plain node.now) next.old) }
{
    let left = check_child(node.left.get(), NodeSet::Expression, around, classes, next);
    let right = check_child(node.right.get(), NodeSet::Expression, around, classes, next);
    check_node(around, classes, node.span, Ok(()), higher(left, right))
}

pub fn check_identifier_name(
    node: &IdentifierName,
    around: &Surroundings<'_>,
    classes: Option<&Classes<'_>>,
    next: &mut usize,
) -> Result<u64, TreeFault>
    ensures found { result ≡ tree_verdict (surroundings_plain around.now classes.entry) next.old (identifier_name_row node.now) }
    ensures number { SameNumber (surroundings_plain around.now classes.entry) next.new (after (identifier_name_row node.now) next.old) }
{
    let rules = check_identifier_name_rules(node, around, classes);
    let _ = next;
    check_node(around, classes, node.span, rules, Ok(0))
}

#[inline(never)]
pub fn check_static_member_expression<N: CheckNode>(
    node: &StaticMemberExpression<N>,
    around: &Surroundings<'_>,
    classes: Option<&Classes<'_>>,
    next: &mut usize,
) -> Result<u64, TreeFault>
    ensures found { result ≡ tree_verdict (surroundings_plain around.now classes.entry) next.old (static_member_expression_row N.plain node.now) }
    ensures number { SameNumber (surroundings_plain around.now classes.entry) next.new (after (static_member_expression_row N.plain node.now) next.old) }
{
    let rules = check_static_member_expression_rules(node, around, classes);
    let object = check_child(node.object.get(), NodeSet::Link, around, classes, next);
    let property = check_identifier_name(&node.property, around, classes, next);
    check_node(around, classes, node.span, rules, higher(object, property))
}

#[inline(never)]
pub fn check_computed_member_expression<N: CheckNode>(
    node: &ComputedMemberExpression<N>,
    around: &Surroundings<'_>,
    classes: Option<&Classes<'_>>,
    next: &mut usize,
) -> Result<u64, TreeFault>
    ensures found { result ≡ tree_verdict (surroundings_plain around.now classes.entry) next.old (computed_member_expression_row N.plain node.now) }
    ensures number { SameNumber (surroundings_plain around.now classes.entry) next.new (after (computed_member_expression_row N.plain node.now) next.old) }
{
    let rules = check_computed_member_expression_rules(node, around, classes);
    let object = check_child(node.object.get(), NodeSet::Link, around, classes, next);
    let expression = check_child(
        node.expression.get(),
        NodeSet::Expression,
        around,
        classes,
        next,
    );
    check_node(
        around,
        classes,
        node.span,
        rules,
        higher(object, expression),
    )
}

#[inline(never)]
pub fn check_call_expression<N: CheckNode>(
    node: &CallExpression<N>,
    around: &Surroundings<'_>,
    classes: Option<&Classes<'_>>,
    next: &mut usize,
) -> Result<u64, TreeFault>
    ensures found { result ≡ tree_verdict (surroundings_plain around.now classes.entry) next.old (call_expression_row N.plain node.now) }
    ensures number { SameNumber (surroundings_plain around.now classes.entry) next.new (after (call_expression_row N.plain node.now) next.old) }
{
    let rules = check_call_expression_rules(node, around, classes);
    let callee = check_child(node.callee.get(), NodeSet::Link, around, classes, next);
    let arguments = check_arguments(&node.arguments, around, classes, next);
    check_node(around, classes, node.span, rules, higher(callee, arguments))
}

#[inline(never)]
pub fn check_chain_expression<N: CheckNode>(
    node: &ChainExpression<N>,
    around: &Surroundings<'_>,
    classes: Option<&Classes<'_>>,
    next: &mut usize,
) -> Result<u64, TreeFault>
    ensures found { result ≡ tree_verdict (surroundings_plain around.now classes.entry) next.old (chain_expression_row N.plain node.now) }
    ensures number { SameNumber (surroundings_plain around.now classes.entry) next.new (after (chain_expression_row N.plain node.now) next.old) }
{
    let rules = check_chain_expression_rules(node, around, classes);
    let expression = check_chain_element(&node.expression, around, classes, next);
    check_node(around, classes, node.span, rules, expression)
}
