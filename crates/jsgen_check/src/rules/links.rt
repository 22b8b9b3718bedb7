// Where `super` and optional links stand, and what is changed.
#![tactic(auto, unfolding(jsgen_rules::specs::Verdict::verdict))]

ghost use Rattle.std.specs.Prelude.{◌≡◌};
ghost use Rattle.jsgen_tree.specs.Tree.{span_of};
ghost use Rattle.jsgen_tree.specs.Rows.{static_member_expression_row, computed_member_expression_row, private_field_expression_row, call_expression_row, chain_expression_row, update_expression_row, assignment_expression_row, in_assignment_target, in_simple_assignment_target};
ghost use Rattle.jsgen_model.specs.Valid.{own_faults, super_faults, target_faults};
ghost use Rattle.jsgen_rules.specs.Verdict.{verdict};
ghost use Rattle.jsgen_check.specs.Verdict.{surroundings_plain};

use crate::links::{element_has_optional_link, target_has_optional_link};
use crate::{CheckNode, Surroundings};
use jsgen_model::TreeFault;
use jsgen_rules::{Classes, check_no_optional_link, is_super};
use jsgen_tree::{
    CallExpression, ChainExpression, ComputedMemberExpression, PrivateFieldExpression,
    SimpleAssignmentTarget, StaticMemberExpression, UpdateExpression,
};

/// No optional link goes on from `super`.
fn check_super<N: CheckNode>(optional: bool, object: &N) -> Result<(), TreeFault>
    ensures { result ≡ verdict (super_faults optional (N.plain object.now)) }
{
    if optional && is_super(object.node_type()) {
        return Err(TreeFault::Place {
            start: object.start(),
        });
    }
    Ok(())
}

#[tactic(auto)]
pub fn check_static_member_expression_rules<N: CheckNode>(
    node: &StaticMemberExpression<N>,
    around: &Surroundings<'_>,
    classes: Option<&Classes<'_>>,
) -> Result<(), TreeFault>
    ensures { result ≡ verdict (own_faults (surroundings_plain around.now classes.entry) (static_member_expression_row N.plain node.now)) }
{
    let _ = classes;
    let _ = around;
    check_super(node.optional, node.object.get())
}

#[tactic(auto)]
pub fn check_computed_member_expression_rules<N: CheckNode>(
    node: &ComputedMemberExpression<N>,
    around: &Surroundings<'_>,
    classes: Option<&Classes<'_>>,
) -> Result<(), TreeFault>
    ensures { result ≡ verdict (own_faults (surroundings_plain around.now classes.entry) (computed_member_expression_row N.plain node.now)) }
{
    let _ = classes;
    let _ = around;
    check_super(node.optional, node.object.get())
}

/// `super` has no private member.
#[tactic(auto)]
pub fn check_private_field_expression_rules<N: CheckNode>(
    node: &PrivateFieldExpression<N>,
    around: &Surroundings<'_>,
    classes: Option<&Classes<'_>>,
) -> Result<(), TreeFault>
    ensures { result ≡ verdict (own_faults (surroundings_plain around.now classes.entry) (private_field_expression_row N.plain node.now)) }
{
    let _ = classes;
    let _ = around;
    check_super(true, node.object.get())
}

#[tactic(auto)]
pub fn check_call_expression_rules<N: CheckNode>(
    node: &CallExpression<N>,
    around: &Surroundings<'_>,
    classes: Option<&Classes<'_>>,
) -> Result<(), TreeFault>
    ensures { result ≡ verdict (own_faults (surroundings_plain around.now classes.entry) (call_expression_row N.plain node.now)) }
{
    let _ = classes;
    let _ = around;
    check_super(node.optional, node.callee.get())
}

pub fn check_chain_expression_rules<N: CheckNode>(
    node: &ChainExpression<N>,
    around: &Surroundings<'_>,
    classes: Option<&Classes<'_>>,
) -> Result<(), TreeFault>
    ensures { result ≡ verdict (own_faults (surroundings_plain around.now classes.entry) (chain_expression_row N.plain node.now)) }
{
    let _ = classes;
    let _ = around;
    if !element_has_optional_link(&node.expression) {
        return Err(TreeFault::Place {
            start: node.span.start,
        });
    }
    Ok(())
}

fn target_start<N: CheckNode>(target: &SimpleAssignmentTarget<N>) -> u32
    ensures { result ≡ (span_of (in_simple_assignment_target N.plain target.now)).start }
{
    match target {
        SimpleAssignmentTarget::IdentifierReference(node) => node.span.start,
        SimpleAssignmentTarget::StaticMemberExpression(node) => node.span.start,
        SimpleAssignmentTarget::ComputedMemberExpression(node) => node.span.start,
        SimpleAssignmentTarget::PrivateFieldExpression(node) => node.span.start,
    }
}

#[tactic(auto)]
pub fn check_update_expression_rules<N: CheckNode>(
    node: &UpdateExpression<N>,
    around: &Surroundings<'_>,
    classes: Option<&Classes<'_>>,
) -> Result<(), TreeFault>
    ensures { result ≡ verdict (own_faults (surroundings_plain around.now classes.entry) (update_expression_row N.plain node.now)) }
{
    let _ = classes;
    let _ = around;
    check_target(&node.argument)
}

/// What is changed has no optional link.
fn check_target<N: CheckNode>(target: &SimpleAssignmentTarget<N>) -> Result<(), TreeFault>
    ensures { result ≡ verdict (target_faults (in_simple_assignment_target N.plain target.now)) }
{
    check_no_optional_link(target_has_optional_link(target), target_start(target))
}
