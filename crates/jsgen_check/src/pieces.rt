// Templates with a piece that stands for nothing (ECMA-262, 13.2.8.1).
ghost use Rattle.std.specs.Prelude.{◌≡◌, map};
ghost use Rattle.jsgen_tree.specs.Tree.{trees};
ghost use Rattle.jsgen_tree.specs.Rows.{template_element_row, expression_plain};
ghost use Rattle.jsgen_tree.specs.Plain.{node_plain};
ghost use Rattle.jsgen_model.specs.Valid.{any_uncooked, has_uncooked};

use jsgen_tree::{Expression, Node, Statement, TemplateElement};

/// Whether a piece of a template stands for nothing.
#[cycle(has_uncooked)]
pub fn has_uncooked(node: &Node) -> bool
    ensures { result ≡ has_uncooked (node_plain node.now) }
{
    match node {
        Node::Expression(expression) => expression_has_uncooked(expression),
        Node::AssignmentTarget(_) => false,
        Node::Statement(statement) => match statement {
            Statement::Declaration(node) => has_uncooked(node.get()),
            _ => false,
        },
        Node::Declaration(_) => false,
        Node::BindingPattern(_) => false,
        Node::ClassElement(_) => false,
    }
}

/// The same of an expression.
pub fn expression_has_uncooked(expression: &Expression) -> bool
    ensures { result ≡ has_uncooked (expression_plain node_plain expression.now) }
{
    match expression {
        Expression::TemplateLiteral(node) => any_uncooked(&node.quasis),
        _ => false,
    }
}

fn any_uncooked(pieces: &[TemplateElement]) -> bool
    ensures { result ≡ any_uncooked (trees (map template_element_row pieces.now)) }
{
    for piece in pieces {
        if piece.cooked.is_none() {
            return true;
        }
    }
    false
}
