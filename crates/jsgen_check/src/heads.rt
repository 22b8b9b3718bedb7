// What a loop gives its values (ECMA-262, 14.7.5).
ghost use Rattle.std.specs.Prelude.{◌≡◌, map};
ghost use Rattle.jsgen_tree.specs.Tree.{trees};
ghost use Rattle.jsgen_tree.specs.Plain.{node_plain};
ghost use Rattle.jsgen_tree.specs.Rows.{variable_declarator_row};
ghost use Rattle.jsgen_model.specs.Valid.{is_one_name};
ghost use Rattle.jsgen_check.specs.Heads.{misfits_left};

use crate::links::{assigned_has_optional_link, expression_has_optional_link};
use jsgen_tree::{Declaration, Node, Statement, VariableDeclarator};

fn is_one_name(declarators: &[VariableDeclarator]) -> bool
    ensures { result ≡ is_one_name (trees (map (variable_declarator_row node_plain) declarators.now)) }
{
    match declarators {
        [declarator] => declarator.init.is_none(),
        _ => false,
    }
}

/// Whether a loop may not give its values to a node: a declaration but of one name without a value, or what has an optional link.
#[cycle(misfits_left)]
pub fn misfits_left(node: &Node) -> bool
    ensures { result ≡ misfits_left (node_plain node.now) }
{
    match node {
        Node::Expression(expression) => expression_has_optional_link(expression),
        Node::AssignmentTarget(target) => assigned_has_optional_link(target),
        Node::Statement(statement) => match statement {
            Statement::Declaration(node) => misfits_left(node.get()),
            _ => false,
        },
        Node::Declaration(declaration) => match declaration {
            Declaration::VariableDeclaration(node) => !is_one_name(&node.declarations),
            Declaration::Function(_) => false,
            Declaration::Class(_) => false,
        },
        Node::BindingPattern(_) => false,
        Node::ClassElement(_) => false,
    }
}
