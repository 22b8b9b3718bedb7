// What stands within parentheses, as far as a parent asks what stands there.
ghost use Rattle.std.specs.Prelude.{◌≡◌, false, MatchOption};
ghost use Rattle.jsgen_tree.specs.Tree.{type_of};
ghost use Rattle.jsgen_tree.specs.Inside.{is_only_expression, inside_parentheses, IsInside};
ghost use Rattle.jsgen_asked.specs.Inner.{inner_plain};
ghost use Rattle.jsgen_tree.specs.Rows.{expression_plain};
ghost use Rattle.jsgen_tree.specs.Plain.{node_plain};

use jsgen_tree::{AssignmentTarget, Expression, Node, Statement};

/// What stands within parentheses: an expression, or a target of a type that expressions have too.
#[derive(Clone, Copy)]
pub enum Inner<'t> {
    Expression(&'t Expression),
    Target(&'t AssignmentTarget),
}

/// The expression that a node is, without the parentheses that it may have round it, if it is one and no function or class.
/// No wrapper of another set holds an expression, which the proof doesn't know.
#[cycle(inner)]
pub fn inner_expression(node: &Node) -> Option<Inner<'_>>
    ensures { MatchOption result (is_only_expression (type_of (node_plain node.now)) ≡ false)
        (λ e. IsInside (node_plain node.now) (inner_plain e)) }
{
    match node {
        Node::Expression(expression) => match expression {
            // A function or a class may be a declaration too.
            Expression::Function(_) => None,
            Expression::Class(_) => None,
            _ => Some(inside_parentheses(expression)),
        },
        Node::AssignmentTarget(target) => match target {
            AssignmentTarget::ArrayAssignmentTarget(_) => None,
            AssignmentTarget::ObjectAssignmentTarget(_) => None,
            _ => Some(Inner::Target(target)),
        },
        Node::Statement(statement) => match statement {
            Statement::Declaration(declaration) => inner_expression(declaration.get()),
            _ => None,
        },
        Node::Declaration(_) => None,
        Node::BindingPattern(_) => None,
        Node::ClassElement(_) => None,
    }
}

/// What stands within the parentheses that an expression may have round it. Round a function or a class they stay.
#[cycle(inner)]
pub fn inside_parentheses(expression: &Expression) -> Inner<'_>
    ensures { inner_plain result
        ≡ inside_parentheses (expression_plain node_plain expression.now) }
{
    match expression {
        Expression::ParenthesizedExpression(outer) => {
            match inner_expression(outer.expression.get()) {
                Some(inner) => inner,
                None => Inner::Expression(expression),
            }
        }
        _ => Inner::Expression(expression),
    }
}
