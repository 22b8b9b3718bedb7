// Generated from tools/nodes/table.txt; edit that and run tools/nodes/generate.
// Arrays and objects (ECMA-262, 13.2.4 and 13.2.5), and what is spread in them and in arguments.
ghost use Rattle.std.specs.Prelude.{◌≡◌};
ghost use Rattle.jsgen_tree.specs.Rows.{spread_element_row, array_expression_row, object_property_row, object_expression_row};
ghost use Rattle.jsgen_model.specs.Resolved.{after};
ghost use Rattle.jsgen_check.specs.Verdict.{surroundings_plain, tree_verdict, SameNumber};

use crate::children::check_property_key;
use crate::heights::{check_node, higher};
use crate::lists::{check_array_expression_elements_or_holes, check_object_property_kinds};
use crate::rules::check_object_property_rules;
use crate::{CheckNode, Surroundings, check_child};
use jsgen_model::TreeFault;
use jsgen_rules::Classes;
use jsgen_tree::{ArrayExpression, NodeSet, ObjectExpression, ObjectProperty, SpreadElement};

#[inline(never)]
pub fn check_spread_element<N: CheckNode>(
    node: &SpreadElement<N>,
    around: &Surroundings<'_>,
    classes: Option<&Classes<'_>>,
    next: &mut usize,
) -> Result<u64, TreeFault>
    ensures found { result ≡ tree_verdict (surroundings_plain around.now classes.entry) next.old (spread_element_row N.plain node.now) }
    ensures number { SameNumber (surroundings_plain around.now classes.entry) next.new (after (spread_element_row N.plain node.now) next.old) }
{
    let argument = check_child(
        node.argument.get(),
        NodeSet::Expression,
        around,
        classes,
        next,
    );
    check_node(around, classes, node.span, Ok(()), argument)
}

#[inline(never)]
pub fn check_array_expression<N: CheckNode>(
    node: &ArrayExpression<N>,
    around: &Surroundings<'_>,
    classes: Option<&Classes<'_>>,
    next: &mut usize,
) -> Result<u64, TreeFault>
    ensures found { result ≡ tree_verdict (surroundings_plain around.now classes.entry) next.old (array_expression_row N.plain node.now) }
    ensures number { SameNumber (surroundings_plain around.now classes.entry) next.new (after (array_expression_row N.plain node.now) next.old) }
{
    let elements = check_array_expression_elements_or_holes(&node.elements, around, classes, next);
    check_node(around, classes, node.span, Ok(()), elements)
}

#[inline(never)]
pub fn check_object_property<N: CheckNode>(
    node: &ObjectProperty<N>,
    around: &Surroundings<'_>,
    classes: Option<&Classes<'_>>,
    next: &mut usize,
) -> Result<u64, TreeFault>
    ensures found { result ≡ tree_verdict (surroundings_plain around.now classes.entry) next.old (object_property_row N.plain node.now) }
    ensures number { SameNumber (surroundings_plain around.now classes.entry) next.new (after (object_property_row N.plain node.now) next.old) }
{
    let rules = check_object_property_rules(node, around, classes);
    let key = check_property_key(&node.key, around, classes, next);
    let value = check_child(node.value.get(), NodeSet::Expression, around, classes, next);
    check_node(around, classes, node.span, rules, higher(key, value))
}

#[inline(never)]
pub fn check_object_expression<N: CheckNode>(
    node: &ObjectExpression<N>,
    around: &Surroundings<'_>,
    classes: Option<&Classes<'_>>,
    next: &mut usize,
) -> Result<u64, TreeFault>
    ensures found { result ≡ tree_verdict (surroundings_plain around.now classes.entry) next.old (object_expression_row N.plain node.now) }
    ensures number { SameNumber (surroundings_plain around.now classes.entry) next.new (after (object_expression_row N.plain node.now) next.old) }
{
    let properties = check_object_property_kinds(&node.properties, around, classes, next);
    check_node(around, classes, node.span, Ok(()), properties)
}
