// Which kind of declaration a node is, which function, and of which kind a class is and whether it has a name.
ghost use Rattle.std.specs.Prelude.{◌≡◌, option_map};
ghost use Rattle.jsgen_tree.specs.Inside.{declared_kind, function_in, class_head_in};
ghost use Rattle.jsgen_tree.specs.Rows.{function_row};
ghost use Rattle.jsgen_tree.specs.Plain.{node_plain};

use jsgen_tree::{
    ClassKind, Declaration, Expression, Function, Node, Statement, VariableDeclarationKind,
};

/// The word that begins a node, where it is a declaration of variables.
#[cycle(declared_kind)]
pub fn declared_kind(node: &Node) -> Option<VariableDeclarationKind>
    ensures { result ≡ declared_kind (node_plain node.now) }
{
    match node {
        Node::Expression(_) => None,
        Node::AssignmentTarget(_) => None,
        Node::Statement(statement) => match statement {
            Statement::Declaration(node) => declared_kind(node.get()),
            _ => None,
        },
        Node::Declaration(declaration) => match declaration {
            Declaration::VariableDeclaration(node) => Some(node.kind),
            _ => None,
        },
        Node::BindingPattern(_) => None,
        Node::ClassElement(_) => None,
    }
}

/// The function that a node is, as a declaration or as an expression.
#[cycle(as_function)]
pub fn as_function(node: &Node) -> Option<&Function>
    ensures { option_map (λ f. function_row node_plain f.now) result ≡ function_in (node_plain node.now) }
{
    match node {
        Node::Expression(expression) => match expression {
            Expression::Function(node) => Some(node),
            _ => None,
        },
        Node::AssignmentTarget(_) => None,
        Node::Statement(statement) => match statement {
            Statement::Declaration(node) => as_function(node.get()),
            _ => None,
        },
        Node::Declaration(declaration) => match declaration {
            Declaration::Function(node) => Some(node),
            _ => None,
        },
        Node::BindingPattern(_) => None,
        Node::ClassElement(_) => None,
    }
}

/// Of which kind a node is, where it is a class, and whether it has a name.
#[cycle(class_head)]
pub fn class_head(node: &Node) -> Option<(ClassKind, bool)>
    ensures { result ≡ class_head_in (node_plain node.now) }
{
    match node {
        Node::Expression(expression) => match expression {
            Expression::Class(node) => Some((node.kind, node.id.is_some())),
            _ => None,
        },
        Node::AssignmentTarget(_) => None,
        Node::Statement(statement) => match statement {
            Statement::Declaration(node) => class_head(node.get()),
            _ => None,
        },
        Node::Declaration(declaration) => match declaration {
            Declaration::Class(node) => Some((node.kind, node.id.is_some())),
            _ => None,
        },
        Node::BindingPattern(_) => None,
        Node::ClassElement(_) => None,
    }
}
