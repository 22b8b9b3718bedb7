// Whether a minus stands before a number.
ghost use Rattle.std.specs.Prelude.{◌≡◌};
ghost use Rattle.jsgen_tree.specs.Inside.{inside_parentheses, is_negative};
ghost use Rattle.jsgen_tree.specs.Plain.{node_plain};

use crate::inside::{Inner, inner_expression};
use jsgen_tree::{Expression, Node, behind_minus};

/// Whether a node is a number or a big integer with a minus before it, without the parentheses that it may have round it.
pub fn is_negative(node: &Node) -> bool
    ensures { result ≡ is_negative (inside_parentheses (node_plain node.now)) }
{
    match inner_expression(node) {
        Some(Inner::Expression(Expression::NumericLiteral(node))) => node.is_negative(),
        Some(Inner::Expression(Expression::BigIntLiteral(node))) => {
            behind_minus(node.value.as_str()).is_some()
        }
        _ => false,
    }
}
