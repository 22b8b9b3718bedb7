// What stands within all parentheses.
ghost use Rattle.std.specs.Prelude.{◌≡◌, true};
ghost use Rattle.jsgen_tree.specs.Inside.{without_parentheses};
ghost use Rattle.jsgen_tree.specs.Stripped.{bare_plain, is_stripped};
ghost use Rattle.jsgen_tree.specs.Rows.{expression_plain};
ghost use Rattle.jsgen_tree.specs.Plain.{node_plain};

use crate::nodes::Node;
use crate::sets::{Expression, Statement};

/// What stands within all parentheses that an expression has round it: an expression that has none of its own (`is_stripped`). Where
/// a child that ought to be an expression is made of something else, which no valid tree has, it is `Other`.
#[derive(Clone, Copy)]
pub enum Bare<'t> {
    Expression(&'t Expression),
    Other(&'t Node),
}

impl Expression {
    /// What stands within all parentheses round it (ParenthesizedExpression), and itself where it has none.
    #[cycle(bare)]
    pub fn without_parentheses(&self) -> Bare<'_>
        ensures bare { bare_plain result ≡ without_parentheses (expression_plain node_plain self.now) }
        ensures stripped { is_stripped result ≡ true }
    {
        match self {
            Expression::ParenthesizedExpression(outer) => {
                outer.expression.get().without_parentheses()
            }
            _ => Bare::Expression(self),
        }
    }
}

impl Node {
    /// What stands within all parentheses round it, and itself where it has none.
    #[cycle(bare)]
    pub fn without_parentheses(&self) -> Bare<'_>
        ensures bare { bare_plain result ≡ without_parentheses (node_plain self.now) }
        ensures stripped { is_stripped result ≡ true }
    {
        match self {
            Node::Expression(expression) => expression.without_parentheses(),
            Node::AssignmentTarget(_) => Bare::Other(self),
            Node::Statement(statement) => match statement {
                Statement::Declaration(declaration) => declaration.get().without_parentheses(),
                _ => Bare::Other(self),
            },
            Node::Declaration(_) => Bare::Other(self),
            Node::BindingPattern(_) => Bare::Other(self),
            Node::ClassElement(_) => Bare::Other(self),
        }
    }
}
