// How the rows of the crates below print what nests in them: by the knot.
ghost use Rattle.jsgen_model.specs.Spell.{spell};

use crate::PrintNode;
use crate::collections::print_key_if;
use crate::functions::{print_behind_name, print_method_words};
use crate::statements::Statements;
use jsgen_inside::{Nested, PrintInClass, PrintInside};
use jsgen_lists::{print_block_braces, print_value};
use jsgen_place::Place;
use jsgen_printer::{CommentsBefore, Printer};
use jsgen_syntax::Span;
use jsgen_tree::{ExpressionNode, Function, NodeType, PropertyKey, StatementNode};

/// By this crate's own functions.
pub struct Inside;

impl<N: PrintNode> PrintInside<N> for Inside {
    ghost plain = { N.plain };

    fn node_type(node: &N) -> NodeType {
        node.node_type()
    }

    fn span(node: &N) -> Span {
        node.span()
    }

    fn print(node: &N, p: &mut Printer<'_>, place: Place) {
        node.print(p, place);
    }

    fn print_comments_before(node: &N, which: CommentsBefore, p: &mut Printer<'_>) {
        node.print_comments_before(which, p);
    }

    fn is_pure_declaration(node: &N) -> bool {
        node.is_pure_declaration()
    }
}

/// The same of the members of classes.
pub struct InClass;

impl<N: PrintNode> PrintInClass<N> for InClass {
    ghost plain = { N.plain };

    fn print_key(key: &PropertyKey<N>, bracketed: bool, p: &mut Printer<'_>) {
        print_key_if(bracketed, key, p);
    }

    fn print_initializer(value: &Option<ExpressionNode<N>>, p: &mut Printer<'_>, place: Place) {
        print_value::<_, Nested<Inside>>(value, p, place);
    }

    fn print_method_words(function: &Function<N>, p: &mut Printer<'_>) {
        print_method_words(function, p);
    }

    fn print_method(function: &Function<N>, p: &mut Printer<'_>, place: Place) {
        print_behind_name(function, p, place);
    }

    fn print_block(span: Span, statements: &[StatementNode<N>], p: &mut Printer<'_>) {
        print_block_braces::<_, Statements>(span, statements, p);
    }
}
