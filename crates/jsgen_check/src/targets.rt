// Generated from tools/nodes/table.txt; edit that and run tools/nodes/generate.
// Patterns that are given values (ECMA-262, 13.15.5).
ghost use Rattle.std.specs.Prelude.{◌≡◌};
ghost use Rattle.jsgen_tree.specs.Rows.{array_assignment_target_row, object_assignment_target_row, assignment_target_with_default_row, assignment_target_property_identifier_row, assignment_target_property_property_row, assignment_target_rest_row};
ghost use Rattle.jsgen_model.specs.Resolved.{after};
ghost use Rattle.jsgen_check.specs.Verdict.{surroundings_plain, tree_verdict, SameNumber};

use crate::children::{
    check_assignment_target_maybe_default, check_optional_assignment_target_rest,
    check_optional_expression, check_property_key,
};
use crate::expressions::check_identifier_reference;
use crate::heights::{check_node, higher};
use crate::lists::{
    check_assignment_target_maybe_defaults_or_holes, check_assignment_target_properties,
};
use crate::rules::{
    check_assignment_target_property_identifier_rules,
    check_assignment_target_property_property_rules, check_assignment_target_rest_rules,
    check_assignment_target_with_default_rules, check_object_assignment_target_rules,
};
use crate::{CheckNode, Surroundings, check_child};
use jsgen_model::TreeFault;
use jsgen_rules::Classes;
use jsgen_tree::{
    ArrayAssignmentTarget, AssignmentTargetPropertyIdentifier, AssignmentTargetPropertyProperty,
    AssignmentTargetRest, AssignmentTargetWithDefault, NodeSet, ObjectAssignmentTarget,
};

#[inline(never)]
pub fn check_array_assignment_target<N: CheckNode>(
    node: &ArrayAssignmentTarget<N>,
    around: &Surroundings<'_>,
    classes: Option<&Classes<'_>>,
    next: &mut usize,
) -> Result<u64, TreeFault>
    ensures found { result ≡ tree_verdict (surroundings_plain around.now classes.entry) next.old (array_assignment_target_row N.plain node.now) }
    ensures number { SameNumber (surroundings_plain around.now classes.entry) next.new (after (array_assignment_target_row N.plain node.now) next.old) }
{
    let elements = check_assignment_target_maybe_defaults_or_holes(
        &node.elements,
        around,
        classes,
        next,
    );
    let rest = check_optional_assignment_target_rest(&node.rest, around, classes, next);
    check_node(around, classes, node.span, Ok(()), higher(elements, rest))
}

#[inline(never)]
pub fn check_object_assignment_target<N: CheckNode>(
    node: &ObjectAssignmentTarget<N>,
    around: &Surroundings<'_>,
    classes: Option<&Classes<'_>>,
    next: &mut usize,
) -> Result<u64, TreeFault>
    ensures found { result ≡ tree_verdict (surroundings_plain around.now classes.entry) next.old (object_assignment_target_row N.plain node.now) }
    ensures number { SameNumber (surroundings_plain around.now classes.entry) next.new (after (object_assignment_target_row N.plain node.now) next.old) }
{
    let rules = check_object_assignment_target_rules(node, around, classes);
    let properties = check_assignment_target_properties(&node.properties, around, classes, next);
    let rest = check_optional_assignment_target_rest(&node.rest, around, classes, next);
    check_node(around, classes, node.span, rules, higher(properties, rest))
}

#[inline(never)]
pub fn check_assignment_target_with_default<N: CheckNode>(
    node: &AssignmentTargetWithDefault<N>,
    around: &Surroundings<'_>,
    classes: Option<&Classes<'_>>,
    next: &mut usize,
) -> Result<u64, TreeFault>
    ensures found { result ≡ tree_verdict (surroundings_plain around.now classes.entry) next.old (assignment_target_with_default_row N.plain node.now) }
    ensures number { SameNumber (surroundings_plain around.now classes.entry) next.new (after (assignment_target_with_default_row N.plain node.now) next.old) }
{
    let rules = check_assignment_target_with_default_rules(node, around, classes);
    let binding = check_child(
        node.binding.get(),
        NodeSet::AssignmentTarget,
        around,
        classes,
        next,
    );
    let init = check_child(node.init.get(), NodeSet::Expression, around, classes, next);
    check_node(around, classes, node.span, rules, higher(binding, init))
}

#[inline(never)]
pub fn check_assignment_target_property_identifier<N: CheckNode>(
    node: &AssignmentTargetPropertyIdentifier<N>,
    around: &Surroundings<'_>,
    classes: Option<&Classes<'_>>,
    next: &mut usize,
) -> Result<u64, TreeFault>
    ensures found { result ≡ tree_verdict (surroundings_plain around.now classes.entry) next.old (assignment_target_property_identifier_row N.plain node.now) }
    ensures number { SameNumber (surroundings_plain around.now classes.entry) next.new (after (assignment_target_property_identifier_row N.plain node.now) next.old) }
{
    let rules = check_assignment_target_property_identifier_rules(node, around, classes);
    let binding = check_identifier_reference(&node.binding, around, classes, next);
    let init = check_optional_expression(&node.init, around, classes, next);
    check_node(around, classes, node.span, rules, higher(binding, init))
}

#[inline(never)]
pub fn check_assignment_target_property_property<N: CheckNode>(
    node: &AssignmentTargetPropertyProperty<N>,
    around: &Surroundings<'_>,
    classes: Option<&Classes<'_>>,
    next: &mut usize,
) -> Result<u64, TreeFault>
    ensures found { result ≡ tree_verdict (surroundings_plain around.now classes.entry) next.old (assignment_target_property_property_row N.plain node.now) }
    ensures number { SameNumber (surroundings_plain around.now classes.entry) next.new (after (assignment_target_property_property_row N.plain node.now) next.old) }
{
    let rules = check_assignment_target_property_property_rules(node, around, classes);
    let name = check_property_key(&node.name, around, classes, next);
    let binding = check_assignment_target_maybe_default(&node.binding, around, classes, next);
    check_node(around, classes, node.span, rules, higher(name, binding))
}

#[inline(never)]
pub fn check_assignment_target_rest<N: CheckNode>(
    node: &AssignmentTargetRest<N>,
    around: &Surroundings<'_>,
    classes: Option<&Classes<'_>>,
    next: &mut usize,
) -> Result<u64, TreeFault>
    ensures found { result ≡ tree_verdict (surroundings_plain around.now classes.entry) next.old (assignment_target_rest_row N.plain node.now) }
    ensures number { SameNumber (surroundings_plain around.now classes.entry) next.new (after (assignment_target_rest_row N.plain node.now) next.old) }
{
    let rules = check_assignment_target_rest_rules(node, around, classes);
    let target = check_child(
        node.target.get(),
        NodeSet::AssignmentTarget,
        around,
        classes,
        next,
    );
    check_node(around, classes, node.span, rules, target)
}
