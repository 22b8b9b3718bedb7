// The sets that types of nodes are of.
use crate::push::push_where;
use jsgen_syntax::Memory;
use jsgen_tree::{NodeSet, NodeType, NodeType as T};

const TYPES: [(&str, NodeType); 20] = [
    ("Program", T::Program),
    ("Directive", T::Directive),
    ("ExpressionStatement", T::ExpressionStatement),
    ("VariableDeclaration", T::VariableDeclaration),
    ("VariableDeclarator", T::VariableDeclarator),
    ("BindingIdentifier", T::BindingIdentifier),
    ("IdentifierReference", T::IdentifierReference),
    ("ThisExpression", T::ThisExpression),
    ("NumericLiteral", T::NumericLiteral),
    ("ParenthesizedExpression", T::ParenthesizedExpression),
    ("BinaryExpression", T::BinaryExpression),
    ("LogicalExpression", T::LogicalExpression),
    ("BlockStatement", T::BlockStatement),
    ("IfStatement", T::IfStatement),
    ("EmptyStatement", T::EmptyStatement),
    ("StringLiteral", T::StringLiteral),
    ("IdentifierName", T::IdentifierName),
    ("StaticMemberExpression", T::StaticMemberExpression),
    ("ComputedMemberExpression", T::ComputedMemberExpression),
    ("CallExpression", T::CallExpression),
];

/// The sets that the type of that name is of.
pub fn push_sets(name: &str, answer: &mut String) -> Result<(), Memory> {
    for (text, node_type) in &TYPES {
        if *text == name {
            push_sets_of(*node_type, answer)?;
        }
    }
    Ok(())
}

fn push_sets_of(node_type: NodeType, answer: &mut String) -> Result<(), Memory> {
    push_where(
        answer,
        &[
            (node_type.is_in(NodeSet::Expression), " Expression"),
            (node_type.is_in(NodeSet::Statement), " Statement"),
            (node_type.is_in(NodeSet::BindingPattern), " BindingPattern"),
            (
                node_type.is_in(NodeSet::VariableDeclarator),
                " VariableDeclarator",
            ),
            (node_type.is_in(NodeSet::Argument), " Argument"),
            (node_type.is_in(NodeSet::IdentifierName), " IdentifierName"),
            (node_type.is_in(NodeSet::Directive), " Directive"),
        ],
    )
}
