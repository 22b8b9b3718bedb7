// Generated from tools/nodes/table.txt; edit that and run tools/nodes/generate.
// Patterns that are bound (ECMA-262, 14.3.3).
ghost use Rattle.std.specs.Prelude.{◌≡◌};
ghost use Rattle.jsgen_tree.specs.Rows.{object_pattern_row, binding_property_row, binding_rest_element_row, array_pattern_row, assignment_pattern_row};
ghost use Rattle.jsgen_model.specs.Resolved.{after};
ghost use Rattle.jsgen_check.specs.Verdict.{surroundings_plain, tree_verdict, SameNumber};

use crate::children::{check_optional_binding_rest_element, check_property_key};
use crate::heights::{check_node, higher};
use crate::lists::{check_binding_elements_or_holes, check_binding_properties};
use crate::rules::{check_binding_property_rules, check_object_pattern_rules};
use crate::{CheckNode, Surroundings, check_child};
use jsgen_model::TreeFault;
use jsgen_rules::Classes;
use jsgen_tree::{
    ArrayPattern, AssignmentPattern, BindingProperty, BindingRestElement, NodeSet, ObjectPattern,
};

#[inline(never)]
pub fn check_object_pattern<N: CheckNode>(
    node: &ObjectPattern<N>,
    around: &Surroundings<'_>,
    classes: Option<&Classes<'_>>,
    next: &mut usize,
) -> Result<u64, TreeFault>
    ensures found { result ≡ tree_verdict (surroundings_plain around.now classes.entry) next.old (object_pattern_row N.plain node.now) }
    ensures number { SameNumber (surroundings_plain around.now classes.entry) next.new (after (object_pattern_row N.plain node.now) next.old) }
{
    let rules = check_object_pattern_rules(node, around, classes);
    let properties = check_binding_properties(&node.properties, around, classes, next);
    let rest = check_optional_binding_rest_element(&node.rest, around, classes, next);
    check_node(around, classes, node.span, rules, higher(properties, rest))
}

#[inline(never)]
pub fn check_binding_property<N: CheckNode>(
    node: &BindingProperty<N>,
    around: &Surroundings<'_>,
    classes: Option<&Classes<'_>>,
    next: &mut usize,
) -> Result<u64, TreeFault>
    ensures found { result ≡ tree_verdict (surroundings_plain around.now classes.entry) next.old (binding_property_row N.plain node.now) }
    ensures number { SameNumber (surroundings_plain around.now classes.entry) next.new (after (binding_property_row N.plain node.now) next.old) }
{
    let rules = check_binding_property_rules(node, around, classes);
    let key = check_property_key(&node.key, around, classes, next);
    let value = check_child(
        node.value.get(),
        NodeSet::BindingElement,
        around,
        classes,
        next,
    );
    check_node(around, classes, node.span, rules, higher(key, value))
}

#[inline(never)]
pub fn check_binding_rest_element<N: CheckNode>(
    node: &BindingRestElement<N>,
    around: &Surroundings<'_>,
    classes: Option<&Classes<'_>>,
    next: &mut usize,
) -> Result<u64, TreeFault>
    ensures found { result ≡ tree_verdict (surroundings_plain around.now classes.entry) next.old (binding_rest_element_row N.plain node.now) }
    ensures number { SameNumber (surroundings_plain around.now classes.entry) next.new (after (binding_rest_element_row N.plain node.now) next.old) }
{
    let argument = check_child(
        node.argument.get(),
        NodeSet::BindingPattern,
        around,
        classes,
        next,
    );
    check_node(around, classes, node.span, Ok(()), argument)
}

#[inline(never)]
pub fn check_array_pattern<N: CheckNode>(
    node: &ArrayPattern<N>,
    around: &Surroundings<'_>,
    classes: Option<&Classes<'_>>,
    next: &mut usize,
) -> Result<u64, TreeFault>
    ensures found { result ≡ tree_verdict (surroundings_plain around.now classes.entry) next.old (array_pattern_row N.plain node.now) }
    ensures number { SameNumber (surroundings_plain around.now classes.entry) next.new (after (array_pattern_row N.plain node.now) next.old) }
{
    let elements = check_binding_elements_or_holes(&node.elements, around, classes, next);
    let rest = check_optional_binding_rest_element(&node.rest, around, classes, next);
    check_node(around, classes, node.span, Ok(()), higher(elements, rest))
}

#[inline(never)]
pub fn check_assignment_pattern<N: CheckNode>(
    node: &AssignmentPattern<N>,
    around: &Surroundings<'_>,
    classes: Option<&Classes<'_>>,
    next: &mut usize,
) -> Result<u64, TreeFault>
    ensures found { result ≡ tree_verdict (surroundings_plain around.now classes.entry) next.old (assignment_pattern_row N.plain node.now) }
    ensures number { SameNumber (surroundings_plain around.now classes.entry) next.new (after (assignment_pattern_row N.plain node.now) next.old) }
{
    let left = check_child(
        node.left.get(),
        NodeSet::BindingPattern,
        around,
        classes,
        next,
    );
    let right = check_child(node.right.get(), NodeSet::Expression, around, classes, next);
    check_node(around, classes, node.span, Ok(()), higher(left, right))
}
