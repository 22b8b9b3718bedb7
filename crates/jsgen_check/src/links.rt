// Where optional links may stand (ECMA-262, 13.3).
ghost use Rattle.std.specs.Prelude.{◌≡◌};
ghost use Rattle.jsgen_tree.specs.Inside.{has_optional_link};
ghost use Rattle.jsgen_tree.specs.Rows.{static_member_expression_row, computed_member_expression_row, private_field_expression_row, call_expression_row, in_simple_assignment_target, in_assignment_target, in_chain_element, expression_plain, assignment_target_plain};
ghost use Rattle.jsgen_tree.specs.Plain.{node_plain};

use crate::CheckNode;
use jsgen_tree::{
    AssignmentTarget, CallExpression, ChainElement, ComputedMemberExpression, Expression, Node,
    PrivateFieldExpression, SimpleAssignmentTarget, Statement, StaticMemberExpression,
};

pub fn static_member_has_optional_link<N: CheckNode>(node: &StaticMemberExpression<N>) -> bool
    ensures { result ≡ has_optional_link (static_member_expression_row N.plain node.now) }
{
    node.optional || node.object.get().has_optional_link()
}

pub fn computed_member_has_optional_link<N: CheckNode>(node: &ComputedMemberExpression<N>) -> bool
    ensures { result ≡ has_optional_link (computed_member_expression_row N.plain node.now) }
{
    node.optional || node.object.get().has_optional_link()
}

pub fn private_member_has_optional_link<N: CheckNode>(node: &PrivateFieldExpression<N>) -> bool
    ensures { result ≡ has_optional_link (private_field_expression_row N.plain node.now) }
{
    node.optional || node.object.get().has_optional_link()
}

pub fn call_has_optional_link<N: CheckNode>(node: &CallExpression<N>) -> bool
    ensures { result ≡ has_optional_link (call_expression_row N.plain node.now) }
{
    node.optional || node.callee.get().has_optional_link()
}

pub fn element_has_optional_link<N: CheckNode>(node: &ChainElement<N>) -> bool
    ensures { result ≡ has_optional_link (in_chain_element N.plain node.now) }
{
    match node {
        ChainElement::StaticMemberExpression(node) => static_member_has_optional_link(node),
        ChainElement::ComputedMemberExpression(node) => computed_member_has_optional_link(node),
        ChainElement::PrivateFieldExpression(node) => private_member_has_optional_link(node),
        ChainElement::CallExpression(node) => call_has_optional_link(node),
    }
}

pub fn target_has_optional_link<N: CheckNode>(node: &SimpleAssignmentTarget<N>) -> bool
    ensures { result ≡ has_optional_link (in_simple_assignment_target N.plain node.now) }
{
    match node {
        SimpleAssignmentTarget::IdentifierReference(_) => false,
        SimpleAssignmentTarget::StaticMemberExpression(node) => static_member_has_optional_link(
            node,
        ),
        SimpleAssignmentTarget::ComputedMemberExpression(node) => computed_member_has_optional_link(
            node,
        ),
        SimpleAssignmentTarget::PrivateFieldExpression(node) => private_member_has_optional_link(
            node,
        ),
    }
}

/// Whether one of the links up to a node is optional, where it is a member or a call.
#[cycle(has_optional_link)]
pub fn has_optional_link(node: &Node) -> bool
    ensures { result ≡ has_optional_link (node_plain node.now) }
{
    match node {
        Node::Expression(expression) => expression_has_optional_link(expression),
        Node::AssignmentTarget(target) => assigned_has_optional_link(target),
        Node::Statement(statement) => match statement {
            Statement::Declaration(node) => has_optional_link(node.get()),
            _ => false,
        },
        Node::Declaration(_) => false,
        Node::BindingPattern(_) => false,
        Node::ClassElement(_) => false,
    }
}

/// The same of an expression.
#[cycle(has_optional_link)]
pub fn expression_has_optional_link(expression: &Expression) -> bool
    ensures { result ≡ has_optional_link (expression_plain node_plain expression.now) }
{
    match expression {
        Expression::StaticMemberExpression(node) => {
            node.optional || has_optional_link(node.object.get())
        }
        Expression::ComputedMemberExpression(node) => {
            node.optional || has_optional_link(node.object.get())
        }
        Expression::PrivateFieldExpression(node) => {
            node.optional || has_optional_link(node.object.get())
        }
        Expression::CallExpression(node) => node.optional || has_optional_link(node.callee.get()),
        _ => false,
    }
}

/// The same of what is given a value.
#[cycle(has_optional_link)]
pub fn assigned_has_optional_link(target: &AssignmentTarget) -> bool
    ensures { result ≡ has_optional_link (assignment_target_plain node_plain target.now) }
{
    match target {
        AssignmentTarget::StaticMemberExpression(node) => {
            node.optional || has_optional_link(node.object.get())
        }
        AssignmentTarget::ComputedMemberExpression(node) => {
            node.optional || has_optional_link(node.object.get())
        }
        AssignmentTarget::PrivateFieldExpression(node) => {
            node.optional || has_optional_link(node.object.get())
        }
        _ => false,
    }
}
