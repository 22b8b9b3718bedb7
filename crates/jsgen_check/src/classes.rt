// Generated from tools/nodes/table.txt; edit that and run tools/nodes/generate.
// Classes and private names (ECMA-262, 15.7).
ghost use Rattle.std.specs.Prelude.{◌≡◌};
ghost use Rattle.jsgen_tree.specs.Rows.{private_identifier_row, private_field_expression_row, private_in_expression_row, class_row, static_block_row, method_definition_row, property_definition_row};
ghost use Rattle.jsgen_model.specs.Resolved.{after};
ghost use Rattle.jsgen_check.specs.Verdict.{surroundings_plain, tree_verdict, SameNumber};

use crate::bodies::check_class_body;
use crate::children::{
    check_optional_binding_identifier, check_optional_expression, check_property_key,
};
use crate::heights::{check_node, higher};
use crate::kinds::check_function_expression;
use crate::lists::check_statements;
use crate::rules::{
    check_method_definition_rules, check_private_field_expression_rules,
    check_private_identifier_rules, check_property_definition_rules,
};
use crate::{CheckNode, Surroundings, check_child};
use jsgen_model::TreeFault;
use jsgen_rules::Classes;
use jsgen_tree::{
    Class, MethodDefinition, NodeSet, PrivateFieldExpression, PrivateIdentifier,
    PrivateInExpression, PropertyDefinition, StaticBlock,
};

pub fn check_private_identifier(
    node: &PrivateIdentifier,
    around: &Surroundings<'_>,
    classes: Option<&Classes<'_>>,
    next: &mut usize,
) -> Result<u64, TreeFault>
    ensures found { result ≡ tree_verdict (surroundings_plain around.now classes.entry) next.old (private_identifier_row node.now) }
    ensures number { SameNumber (surroundings_plain around.now classes.entry) next.new (after (private_identifier_row node.now) next.old) }
{
    let rules = check_private_identifier_rules(node, around, classes);
    let _ = next;
    check_node(around, classes, node.span, rules, Ok(0))
}

#[inline(never)]
pub fn check_private_field_expression<N: CheckNode>(
    node: &PrivateFieldExpression<N>,
    around: &Surroundings<'_>,
    classes: Option<&Classes<'_>>,
    next: &mut usize,
) -> Result<u64, TreeFault>
    ensures found { result ≡ tree_verdict (surroundings_plain around.now classes.entry) next.old (private_field_expression_row N.plain node.now) }
    ensures number { SameNumber (surroundings_plain around.now classes.entry) next.new (after (private_field_expression_row N.plain node.now) next.old) }
{
    let rules = check_private_field_expression_rules(node, around, classes);
    let object = check_child(node.object.get(), NodeSet::Link, around, classes, next);
    let field = check_private_identifier(&node.field, around, classes, next);
    check_node(around, classes, node.span, rules, higher(object, field))
}

#[inline(never)]
pub fn check_private_in_expression<N: CheckNode>(
    node: &PrivateInExpression<N>,
    around: &Surroundings<'_>,
    classes: Option<&Classes<'_>>,
    next: &mut usize,
) -> Result<u64, TreeFault>
    ensures found { result ≡ tree_verdict (surroundings_plain around.now classes.entry) next.old (private_in_expression_row N.plain node.now) }
    ensures number { SameNumber (surroundings_plain around.now classes.entry) next.new (after (private_in_expression_row N.plain node.now) next.old) }
{
    let left = check_private_identifier(&node.left, around, classes, next);
    let right = check_child(node.right.get(), NodeSet::Expression, around, classes, next);
    check_node(around, classes, node.span, Ok(()), higher(left, right))
}

#[inline(never)]
pub fn check_class<N: CheckNode>(
    node: &Class<N>,
    around: &Surroundings<'_>,
    classes: Option<&Classes<'_>>,
    next: &mut usize,
) -> Result<u64, TreeFault>
    ensures found { result ≡ tree_verdict (surroundings_plain around.now classes.entry) next.old (class_row N.plain node.now) }
    ensures number { SameNumber (surroundings_plain around.now classes.entry) next.new (after (class_row N.plain node.now) next.old) }
{
    let id = check_optional_binding_identifier(&node.id, around, classes, next);
    let heritage = check_optional_expression(&node.heritage, around, classes, next);
    let body = check_class_body(&node.body, around, classes, next);
    check_node(
        around,
        classes,
        node.span,
        Ok(()),
        higher(id, higher(heritage, body)),
    )
}

#[inline(never)]
pub fn check_static_block<N: CheckNode>(
    node: &StaticBlock<N>,
    around: &Surroundings<'_>,
    classes: Option<&Classes<'_>>,
    next: &mut usize,
) -> Result<u64, TreeFault>
    ensures found { result ≡ tree_verdict (surroundings_plain around.now classes.entry) next.old (static_block_row N.plain node.now) }
    ensures number { SameNumber (surroundings_plain around.now classes.entry) next.new (after (static_block_row N.plain node.now) next.old) }
{
    let outside = around.within_nothing();
    let body = check_statements(&node.body, &outside, classes, next);
    check_node(around, classes, node.span, Ok(()), body)
}

#[inline(never)]
pub fn check_method_definition<N: CheckNode>(
    node: &MethodDefinition<N>,
    around: &Surroundings<'_>,
    classes: Option<&Classes<'_>>,
    next: &mut usize,
) -> Result<u64, TreeFault>
    ensures found { result ≡ tree_verdict (surroundings_plain around.now classes.entry) next.old (method_definition_row N.plain node.now) }
    ensures number { SameNumber (surroundings_plain around.now classes.entry) next.new (after (method_definition_row N.plain node.now) next.old) }
{
    let rules = check_method_definition_rules(node, around, classes);
    let key = check_property_key(&node.key, around, classes, next);
    let value = check_function_expression(&node.value, around, classes, next);
    check_node(around, classes, node.span, rules, higher(key, value))
}

#[inline(never)]
pub fn check_property_definition<N: CheckNode>(
    node: &PropertyDefinition<N>,
    around: &Surroundings<'_>,
    classes: Option<&Classes<'_>>,
    next: &mut usize,
) -> Result<u64, TreeFault>
    ensures found { result ≡ tree_verdict (surroundings_plain around.now classes.entry) next.old (property_definition_row N.plain node.now) }
    ensures number { SameNumber (surroundings_plain around.now classes.entry) next.new (after (property_definition_row N.plain node.now) next.old) }
{
    let rules = check_property_definition_rules(node, around, classes);
    let outside = around.within_nothing();
    let key = check_property_key(&node.key, around, classes, next);
    let value = check_optional_expression(&node.value, &outside, classes, next);
    check_node(around, classes, node.span, rules, higher(key, value))
}
