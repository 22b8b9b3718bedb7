// What is given a value: assignments, and the parts of patterns.
#![tactic(auto, unfolding(jsgen_rules::specs::Verdict::verdict))]

ghost use Rattle.std.specs.Prelude.{◌≡◌, option_map};
ghost use Rattle.jsgen_tree.specs.Tree.{optional, span_of, type_of};
ghost use Rattle.jsgen_tree.specs.Rows.{assignment_expression_row, object_assignment_target_row, assignment_target_with_default_row, assignment_target_property_identifier_row, assignment_target_property_property_row, assignment_target_rest_row};
ghost use Rattle.jsgen_model.specs.Valid.{own_faults, assigned_faults, target_faults, object_rest_faults, is_target_pattern, fault_if};
ghost use Rattle.jsgen_model.specs.declared.fault.TreeFault.TheVariants as faults;
ghost use Rattle.jsgen_rules.specs.Verdict.{verdict};
ghost use Rattle.jsgen_check.specs.Verdict.{surroundings_plain};

use crate::rules::keys::check_pattern_key;
use crate::{CheckNode, Surroundings};
use jsgen_model::TreeFault;
use jsgen_rules::{
    Classes, assigns_alone, check_no_optional_link, check_written_name, is_target_pattern,
};
use jsgen_syntax::AssignmentOperator;
use jsgen_tree::{
    AssignmentExpression, AssignmentTargetPropertyIdentifier, AssignmentTargetPropertyProperty,
    AssignmentTargetRest, AssignmentTargetWithDefault, ObjectAssignmentTarget,
};

/// What is given a value has no optional link.
fn check_target<N: CheckNode>(target: &N) -> Result<(), TreeFault>
    ensures { result ≡ verdict (target_faults (N.plain target.now)) }
{
    check_no_optional_link(target.has_optional_link(), target.start())
}

/// And by an operator other than `=` it is no pattern.
fn check_assigned<N: CheckNode>(operator: AssignmentOperator, target: &N) -> Result<(), TreeFault>
    ensures { result ≡ verdict (assigned_faults operator (N.plain target.now)) }
{
    let is_barred = !assigns_alone(operator) && is_target_pattern(target.node_type());
    check_no_optional_link(target.has_optional_link() || is_barred, target.start())
}

/// What takes the rest of an object is no pattern.
fn check_object_rest<N: CheckNode>(
    rest: &Option<Box<AssignmentTargetRest<N>>>,
) -> Result<(), TreeFault>
    ensures { result ≡ verdict (object_rest_faults (optional (option_map (λ b. assignment_target_rest_row N.plain b.value) rest.now))) }
{
    match rest {
        Some(rest) => check_no_pattern(rest.target.get()),
        None => Ok(()),
    }
}

fn check_no_pattern<N: CheckNode>(target: &N) -> Result<(), TreeFault>
    ensures { result ≡ verdict (fault_if (is_target_pattern (type_of (N.plain target.now))) (faults.Place (span_of (N.plain target.now)).start)) }
{
    check_no_optional_link(is_target_pattern(target.node_type()), target.start())
}

#[tactic(auto)]
pub fn check_assignment_expression_rules<N: CheckNode>(
    node: &AssignmentExpression<N>,
    around: &Surroundings<'_>,
    classes: Option<&Classes<'_>>,
) -> Result<(), TreeFault>
    ensures { result ≡ verdict (own_faults (surroundings_plain around.now classes.entry) (assignment_expression_row N.plain node.now)) }
{
    let _ = classes;
    let _ = around;
    check_assigned(node.operator, node.left.get())
}

#[tactic(auto)]
pub fn check_object_assignment_target_rules<N: CheckNode>(
    node: &ObjectAssignmentTarget<N>,
    around: &Surroundings<'_>,
    classes: Option<&Classes<'_>>,
) -> Result<(), TreeFault>
    ensures { result ≡ verdict (own_faults (surroundings_plain around.now classes.entry) (object_assignment_target_row N.plain node.now)) }
{
    let _ = classes;
    let _ = around;
    check_object_rest(&node.rest)
}

#[tactic(auto)]
pub fn check_assignment_target_with_default_rules<N: CheckNode>(
    node: &AssignmentTargetWithDefault<N>,
    around: &Surroundings<'_>,
    classes: Option<&Classes<'_>>,
) -> Result<(), TreeFault>
    ensures { result ≡ verdict (own_faults (surroundings_plain around.now classes.entry) (assignment_target_with_default_row N.plain node.now)) }
{
    let _ = classes;
    let _ = around;
    check_target(node.binding.get())
}

#[tactic(auto)]
pub fn check_assignment_target_property_identifier_rules<N: CheckNode>(
    node: &AssignmentTargetPropertyIdentifier<N>,
    around: &Surroundings<'_>,
    classes: Option<&Classes<'_>>,
) -> Result<(), TreeFault>
    ensures { result ≡ verdict (own_faults (surroundings_plain around.now classes.entry) (assignment_target_property_identifier_row N.plain node.now)) }
{
    let _ = classes;
    let _ = around;
    check_written_name(&node.binding.name, node.binding.span)
}

#[tactic(auto)]
pub fn check_assignment_target_property_property_rules<N: CheckNode>(
    node: &AssignmentTargetPropertyProperty<N>,
    around: &Surroundings<'_>,
    classes: Option<&Classes<'_>>,
) -> Result<(), TreeFault>
    ensures { result ≡ verdict (own_faults (surroundings_plain around.now classes.entry) (assignment_target_property_property_row N.plain node.now)) }
{
    let _ = classes;
    let _ = around;
    check_pattern_key(node.computed, &node.name)
}

#[tactic(auto)]
pub fn check_assignment_target_rest_rules<N: CheckNode>(
    node: &AssignmentTargetRest<N>,
    around: &Surroundings<'_>,
    classes: Option<&Classes<'_>>,
) -> Result<(), TreeFault>
    ensures { result ≡ verdict (own_faults (surroundings_plain around.now classes.entry) (assignment_target_rest_row N.plain node.now)) }
{
    let _ = classes;
    let _ = around;
    check_target(node.target.get())
}
