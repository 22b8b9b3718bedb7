// What the head of a loop, a label or a case is followed by.
ghost use Rattle.std.specs.Prelude.{◌≡◌};
ghost use Rattle.jsgen_model.specs.Items.{◌⊕◌, body_space, link_mark};
ghost use Rattle.jsgen_model.specs.Spell.{spell, shape, shape_of_type, body_items, span_if};
ghost use Rattle.jsgen_tree.specs.Tree.{span_of};
ghost use Rattle.jsgen_place.specs.Place.{within_statement, among_statements, is_at_link};
ghost use Rattle.jsgen_printer.specs.Steps.{Lays};

use crate::PrintInside;
use jsgen_place::{Place, Shape};
use jsgen_printer::Printer;
use jsgen_syntax::Span;
use jsgen_tree::NodeType;

fn shape(node_type: NodeType) -> Shape
    ensures { result ≡ shape_of_type node_type }
{
    match node_type {
        NodeType::BlockStatement => Shape::Block,
        NodeType::IfStatement => Shape::If,
        NodeType::EmptyStatement => Shape::Empty,
        _ => Shape::Other,
    }
}

/// How a statement stands as the body of another one.
pub fn shape_of<N, L: PrintInside<N>>(statement: &N) -> Shape
    ensures { result ≡ shape (L.plain statement.now) }
{
    shape(L::node_type(statement))
}

/// What stands at a row's own place, with the mark behind it where that is the place of the object of a link.
pub fn print_at_link<N, L: PrintInside<N>>(node: &N, p: &mut Printer<'_>, place: Place)
    ensures { Lays p.old p.new (spell (L.plain node.now) place ⊕ link_mark (span_if (is_at_link place) (span_of (L.plain node.now)))) }
{
    L::print(node, p, place);
    print_link_if(place.is_at_link(), L::span(node), p);
}

fn print_link_if(test: bool, span: Span, p: &mut Printer<'_>)
    ensures { Lays p.old p.new (link_mark (span_if test span)) }
{
    if test {
        p.print_link_mark(span);
    }
}

/// A statement as the body of another one: a block goes on with the line.
pub fn print_body<N, L: PrintInside<N>>(body: &N, p: &mut Printer<'_>)
    ensures { Lays p.old p.new (body_items (shape (L.plain body.now)) (spell (L.plain body.now) within_statement) (spell (L.plain body.now) among_statements)) }
{
    match shape_of::<_, L>(body) {
        Shape::Block => {
            p.print_soft_space();
            L::print(body, p, Place::within_statement());
            p.print_soft_line();
        }
        Shape::Empty => {
            p.print_semicolon();
            p.print_soft_line();
        }
        Shape::If => print_behind_one_space::<_, L>(body, p),
        Shape::Other => print_behind_one_space::<_, L>(body, p),
    }
}

/// A statement behind one space, which stands in place of its indentation.
pub fn print_behind_one_space<N, L: PrintInside<N>>(body: &N, p: &mut Printer<'_>)
    ensures { Lays p.old p.new (body_space ⊕ spell (L.plain body.now) among_statements) }
{
    p.begin_body();
    L::print(body, p, Place::among_statements());
}
