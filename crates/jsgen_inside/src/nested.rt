// The members of lists that nest, and what may be there or not of them.
ghost use Rattle.jsgen_tree.specs.Rows.{in_expression, in_statement, in_binding_pattern, in_class_element};

use crate::PrintInside;
use jsgen_lists::{PrintMember, PrintObject, PrintSubstitution};
use jsgen_place::Place;
use jsgen_printer::{CommentsBefore, Printer};
use jsgen_syntax::{Precedence, Span};
use jsgen_tree::{BindingPatternNode, ClassElementNode, ExpressionNode, StatementNode};

/// What nests, printed as it is elsewhere.
pub struct Nested<L> {
    inside: L,
}

impl<N, L: PrintInside<N>> PrintMember<ExpressionNode<N>> for Nested<L> {
    ghost plain = { in_expression L.plain };

    fn print_member(node: &ExpressionNode<N>, p: &mut Printer<'_>, place: Place) {
        L::print(node.get(), p, place);
    }
}

impl<N, L: PrintInside<N>> PrintSubstitution<ExpressionNode<N>> for Nested<L> {
    ghost plain = { in_expression L.plain };

    fn print_substitution(node: &ExpressionNode<N>, p: &mut Printer<'_>) {
        L::print_comments_before(node.get(), CommentsBefore::All, p);
        L::print(node.get(), p, Place::in_brackets(Precedence::Lowest));
    }
}

impl<N, L: PrintInside<N>> PrintObject<ExpressionNode<N>> for Nested<L> {
    ghost plain = { in_expression L.plain };

    fn span(node: &ExpressionNode<N>) -> Span {
        L::span(node.get())
    }

    fn print_object(node: &ExpressionNode<N>, p: &mut Printer<'_>, place: Place) {
        L::print(node.get(), p, place);
    }
}

impl<N, L: PrintInside<N>> PrintMember<StatementNode<N>> for Nested<L> {
    ghost plain = { in_statement L.plain };

    fn print_member(node: &StatementNode<N>, p: &mut Printer<'_>, place: Place) {
        L::print(node.get(), p, place);
    }
}

impl<N, L: PrintInside<N>> PrintMember<BindingPatternNode<N>> for Nested<L> {
    ghost plain = { in_binding_pattern L.plain };

    fn print_member(node: &BindingPatternNode<N>, p: &mut Printer<'_>, place: Place) {
        L::print(node.get(), p, place);
    }
}

impl<N, L: PrintInside<N>> PrintMember<ClassElementNode<N>> for Nested<L> {
    ghost plain = { in_class_element L.plain };

    fn print_member(node: &ClassElementNode<N>, p: &mut Printer<'_>, place: Place) {
        L::print(node.get(), p, place);
    }
}
