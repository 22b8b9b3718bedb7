// Which expressions are a member of a name, and which patterns are a name.
ghost use Rattle.std.specs.Prelude.{◌≡◌, bytes_eq, false, option_map};
ghost use Rattle.std.specs.Option.{option_map_or};
ghost use Rattle.std.specs.Str.{chars};
ghost use Rattle.jsgen_tree.specs.Inside.{reference_in, looked_up_in, named_by};
ghost use Rattle.jsgen_tree.specs.Rows.{static_member_expression_row};
ghost use Rattle.jsgen_tree.specs.Plain.{node_plain};
ghost use Rattle.jsgen_model.specs.Quotes.{is_named, is_member_of};
ghost use Rattle.jsgen_model.specs.Spell.{target_named};
ghost use Rattle.jsgen_questions.specs.Names.{is_reference, is_binding_name};

use jsgen_asked::reference;
use jsgen_tree::{
    AssignmentTarget, BindingPattern, Expression, IdentifierReference, Node, NodeType, Statement,
    StaticMemberExpression,
};

fn is_reference(node_type: NodeType) -> bool
    ensures { result ≡ is_reference node_type }
{
    matches!(node_type, NodeType::IdentifierReference)
}

// The name that a node looks up, where no parentheses are round it.
fn bare_reference(node: &Node) -> Option<&str>
    ensures { option_map (λ s. chars s.now) result ≡ reference_in (node_plain node.now) }
{
    if is_reference(node.node_type()) {
        reference(node)
    } else {
        None
    }
}

// Whether there is a name, and it is this one.
fn says(name: &str, said: Option<&str>) -> bool
    ensures { result ≡ option_map_or (λ v. bytes_eq v (chars name.now)) (option_map (λ s. chars s.now) said.entry) false }
{
    match said {
        Some(text) => is_same(text, name),
        None => false,
    }
}

fn is_same(a: &str, b: &str) -> bool
    ensures { result ≡ bytes_eq (chars a.now) (chars b.now) }
{
    a == b
}

/// Whether a node is a reference to this name.
pub fn is_named(node: &Node, name: &str) -> bool
    ensures { result ≡ is_named (chars name.now) (node_plain node.now) }
{
    says(name, bare_reference(node))
}

fn static_member_is(node: &StaticMemberExpression, object: &str, name: &str) -> bool
    ensures { result ≡ is_member_of (chars object.now) (chars name.now) (static_member_expression_row node_plain node.now) }
{
    !node.optional
        && (is_named(node.object.get(), object) && says(name, Some(node.property.name.as_str())))
}

/// Whether a node is the member of this name of a reference to that name, by no optional link.
#[cycle(is_member)]
pub fn is_member(node: &Node, object: &str, name: &str) -> bool
    ensures { result ≡ is_member_of (chars object.now) (chars name.now) (node_plain node.now) }
{
    match node {
        Node::Expression(expression) => match expression {
            Expression::StaticMemberExpression(node) => static_member_is(node, object, name),
            _ => false,
        },
        Node::AssignmentTarget(target) => match target {
            AssignmentTarget::StaticMemberExpression(node) => static_member_is(node, object, name),
            _ => false,
        },
        Node::Statement(statement) => match statement {
            Statement::Declaration(node) => is_member(node.get(), object, name),
            _ => false,
        },
        Node::Declaration(_) => false,
        Node::BindingPattern(_) => false,
        Node::ClassElement(_) => false,
    }
}

/// Whether a node is a name that is bound.
#[cycle(is_binding_name)]
pub fn is_binding_name(node: &Node) -> bool
    ensures { result ≡ is_binding_name (node_plain node.now) }
{
    match node {
        Node::Expression(_) => false,
        Node::AssignmentTarget(_) => false,
        Node::Statement(statement) => match statement {
            Statement::Declaration(node) => is_binding_name(node.get()),
            _ => false,
        },
        Node::Declaration(_) => false,
        Node::BindingPattern(pattern) => match pattern {
            BindingPattern::BindingIdentifier(_) => true,
            BindingPattern::ObjectPattern(_) => false,
            BindingPattern::ArrayPattern(_) => false,
            BindingPattern::AssignmentPattern(_) => false,
        },
        Node::ClassElement(_) => false,
    }
}

/// The reference that a node is, with its number, where no parentheses are round it. No wrapper holds a target with a default.
#[cycle(bare_looked_up)]
pub fn bare_looked_up(node: &Node) -> Option<&IdentifierReference>
    ensures reference { option_map (λ n. named_by n.now) result ≡ looked_up_in (node_plain node.now) }
    ensures target { option_map (λ n. named_by n.now) result ≡ target_named (node_plain node.now) }
{
    match node {
        Node::Expression(expression) => match expression {
            Expression::IdentifierReference(node) => Some(node),
            _ => None,
        },
        Node::AssignmentTarget(target) => match target {
            AssignmentTarget::IdentifierReference(node) => Some(node),
            _ => None,
        },
        Node::Statement(statement) => match statement {
            Statement::Declaration(node) => bare_looked_up(node.get()),
            _ => None,
        },
        Node::Declaration(_) => None,
        Node::BindingPattern(_) => None,
        Node::ClassElement(_) => None,
    }
}
