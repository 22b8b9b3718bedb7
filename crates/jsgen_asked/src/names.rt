// Which name a node is.
ghost use Rattle.std.specs.Prelude.{◌≡◌, option_map};
ghost use Rattle.std.specs.Str.{chars};
ghost use Rattle.jsgen_tree.specs.Inside.{inside_parentheses, reference_in, looked_up_in, named_by, bound_in, bound_by, written_name_in};
ghost use Rattle.jsgen_tree.specs.Plain.{node_plain};

use crate::inside::{Inner, inner_expression};
use jsgen_tree::{
    AssignmentTarget, BindingIdentifier, BindingPattern, Expression, IdentifierReference, Node,
    Statement,
};

/// The name that is looked up, where a node is a reference, without the parentheses that it may have round it.
pub fn reference(node: &Node) -> Option<&str>
    ensures { option_map (λ s. chars s.now) result ≡ reference_in (inside_parentheses (node_plain node.now)) }
{
    match inner_expression(node) {
        Some(
            Inner::Expression(Expression::IdentifierReference(node))
            | Inner::Target(AssignmentTarget::IdentifierReference(node)),
        ) => Some(node.name.as_str()),
        _ => None,
    }
}

/// The reference itself, with its number, where a node is one, without the parentheses that it may have round it.
pub fn looked_up(node: &Node) -> Option<&IdentifierReference>
    ensures { option_map (λ n. named_by n.now) result ≡ looked_up_in (inside_parentheses (node_plain node.now)) }
{
    match inner_expression(node) {
        Some(
            Inner::Expression(Expression::IdentifierReference(node))
            | Inner::Target(AssignmentTarget::IdentifierReference(node)),
        ) => Some(node),
        _ => None,
    }
}

/// The name that a pattern is, by itself or with a default.
#[cycle(bound)]
pub fn bound(node: &Node) -> Option<&BindingIdentifier>
    ensures { option_map (λ n. bound_by n.now) result ≡ bound_in (node_plain node.now) }
{
    match node {
        Node::Expression(_) => None,
        Node::AssignmentTarget(_) => None,
        Node::Statement(statement) => match statement {
            Statement::Declaration(node) => bound(node.get()),
            _ => None,
        },
        Node::Declaration(_) => None,
        Node::BindingPattern(pattern) => match pattern {
            BindingPattern::BindingIdentifier(node) => Some(node),
            BindingPattern::AssignmentPattern(node) => bound(node.left.get()),
            BindingPattern::ObjectPattern(_) => None,
            BindingPattern::ArrayPattern(_) => None,
        },
        Node::ClassElement(_) => None,
    }
}

/// The name that stands there as it is written. No set that nests has one, which the proof doesn't know.
#[cycle(written_name)]
pub fn written_name(node: &Node) -> Option<&str>
    ensures { option_map (λ s. chars s.now) result ≡ written_name_in (node_plain node.now) }
{
    match node {
        Node::Expression(_) => None,
        Node::AssignmentTarget(_) => None,
        Node::Statement(statement) => match statement {
            Statement::Declaration(node) => written_name(node.get()),
            _ => None,
        },
        Node::Declaration(_) => None,
        Node::BindingPattern(_) => None,
        Node::ClassElement(_) => None,
    }
}
