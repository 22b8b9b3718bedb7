// The comments before an expression.
ghost use Rattle.std.specs.Prelude.{◌≡◌};
ghost use Rattle.jsgen_tree.specs.Plain.{node_plain};
ghost use Rattle.jsgen_model.specs.Spell.{before_expression, is_marked_as_called};
ghost use Rattle.jsgen_printer.specs.Printer.{manner_of};
ghost use Rattle.jsgen_printer.specs.Steps.{Lays};
ghost use Rattle.jsgen_nodes.specs.Calls.{own_comments};

use jsgen_printer::{CommentsBefore, Printer};
use jsgen_tree::{Declaration, Expression, GetSpan, Node, Statement};

/// The comments before an expression, and while it is in parentheses those before what is in them.
#[cycle(print_comments_before)]
pub fn print_comments_before(node: &Node, which: CommentsBefore, p: &mut Printer<'_>)
    ensures { Lays p.old p.new (before_expression (manner_of which) (node_plain node.now)) }
{
    match node {
        Node::Expression(expression) => match expression {
            Expression::ParenthesizedExpression(outer) => {
                p.print_comments_before(which, outer.span.start);
                print_comments_before(outer.expression.get(), which, p);
            }
            _ => print_own(node, which, p),
        },
        Node::Statement(statement) => match statement {
            Statement::Declaration(declaration) => print_comments_before(
                declaration.get(),
                which,
                p,
            ),
            _ => print_own(node, which, p),
        },
        Node::AssignmentTarget(_) => print_own(node, which, p),
        Node::Declaration(_) => print_own(node, which, p),
        Node::BindingPattern(_) => print_own(node, which, p),
        Node::ClassElement(_) => print_own(node, which, p),
    }
}

// Those before what is in no parentheses.
fn print_own(node: &Node, which: CommentsBefore, p: &mut Printer<'_>)
    ensures { Lays p.old p.new (own_comments (manner_of which) (node_plain node.now)) }
{
    if !is_marked_as_called(node) {
        p.print_comments_before(which, GetSpan::span(node).start);
    }
}

// Whether it is a function that is marked as called where it stands.
#[cycle(is_marked_as_called)]
fn is_marked_as_called(node: &Node) -> bool
    ensures { result ≡ is_marked_as_called (node_plain node.now) }
{
    match node {
        Node::Expression(expression) => match expression {
            Expression::Function(function) => function.pife,
            Expression::ArrowFunctionExpression(function) => function.pife,
            _ => false,
        },
        Node::Statement(statement) => match statement {
            Statement::Declaration(declaration) => is_marked_as_called(declaration.get()),
            _ => false,
        },
        Node::Declaration(declaration) => match declaration {
            Declaration::Function(function) => function.pife,
            _ => false,
        },
        Node::AssignmentTarget(_) => false,
        Node::BindingPattern(_) => false,
        Node::ClassElement(_) => false,
    }
}
