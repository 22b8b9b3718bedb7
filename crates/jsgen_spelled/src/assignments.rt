// Generated from tools/nodes/table.txt; edit that and run tools/nodes/generate.
// Rows by their spelling: conditional expressions, sequences and assignments (ECMA-262, 13.14 to 13.16).
ghost use Rattle.jsgen_tree.specs.Rows.{conditional_expression_row, sequence_expression_row};
ghost use Rattle.jsgen_model.specs.Spell.{spell};
ghost use Rattle.jsgen_printer.specs.Steps.{Lays};

use jsgen_inside::{Nested, PrintInside};
use jsgen_lists::print_list;
use jsgen_place::Place;
use jsgen_printer::{CommentsBefore, Printer};
use jsgen_syntax::Precedence;
use jsgen_tree::{ConditionalExpression, SequenceExpression};

pub fn print_conditional_expression<N, L: PrintInside<N>>(
    node: &ConditionalExpression<N>,
    p: &mut Printer<'_>,
    place: Place,
)
    ensures { Lays p.old p.new (spell (conditional_expression_row L.plain node.now) place) }
{
    let wrap = place.wraps(Precedence::Conditional);
    p.print_opening_if(wrap);
    let within = place.within(wrap);
    L::print(
        node.test.get(),
        p,
        within.child(Precedence::Conditional).with_calls(),
    );
    p.print_soft_space();
    p.print_question();
    p.print_soft_space();
    L::print_comments_before(node.consequent.get(), CommentsBefore::ForTools, p);
    L::print(
        node.consequent.get(),
        p,
        Place::in_brackets(Precedence::Yield),
    );
    p.print_soft_space();
    p.print_colon();
    p.print_soft_space();
    L::print_comments_before(node.alternate.get(), CommentsBefore::All, p);
    L::print(
        node.alternate.get(),
        p,
        within.child(Precedence::Yield).with_calls(),
    );
    p.print_closing_if(wrap);
}

pub fn print_sequence_expression<N, L: PrintInside<N>>(
    node: &SequenceExpression<N>,
    p: &mut Printer<'_>,
    place: Place,
)
    ensures { Lays p.old p.new (spell (sequence_expression_row L.plain node.now) place) }
{
    let wrap = place.wraps(Precedence::Comma);
    p.print_opening_if(wrap);
    print_list::<_, Nested<L>>(
        &node.expressions,
        p,
        place.child(Precedence::Lowest).with_calls(),
    );
    p.print_closing_if(wrap);
}
