// Generated from tools/nodes/table.txt; edit that and run tools/nodes/generate.
// Rows by their spelling: functions and their parameters (ECMA-262, clause 15).
ghost use Rattle.jsgen_tree.specs.Rows.{formal_parameter_row, formal_parameter_rest_row, await_expression_row, yield_expression_row};
ghost use Rattle.jsgen_model.specs.Spell.{spell};
ghost use Rattle.jsgen_printer.specs.Steps.{Lays};

use jsgen_inside::{Nested, PrintInside};
use jsgen_lists::{print_apart, print_value};
use jsgen_place::Place;
use jsgen_printer::Printer;
use jsgen_syntax::Precedence;
use jsgen_tree::{AwaitExpression, FormalParameter, FormalParameterRest, YieldExpression};

pub fn print_formal_parameter<N, L: PrintInside<N>>(
    node: &FormalParameter<N>,
    p: &mut Printer<'_>,
    place: Place,
)
    ensures { Lays p.old p.new (spell (formal_parameter_row L.plain node.now) place) }
{
    p.print_mark(node.span);
    L::print(node.pattern.get(), p, place.child(Precedence::Lowest));
    print_value::<_, Nested<L>>(&node.initializer, p, place.child(Precedence::Comma));
}

pub fn print_formal_parameter_rest<N, L: PrintInside<N>>(
    node: &FormalParameterRest<N>,
    p: &mut Printer<'_>,
    place: Place,
)
    ensures { Lays p.old p.new (spell (formal_parameter_rest_row L.plain node.now) place) }
{
    p.print_mark(node.span);
    p.print_ellipsis();
    L::print(node.argument.get(), p, place.child(Precedence::Lowest));
}

pub fn print_await_expression<N, L: PrintInside<N>>(
    node: &AwaitExpression<N>,
    p: &mut Printer<'_>,
    place: Place,
)
    ensures { Lays p.old p.new (spell (await_expression_row L.plain node.now) place) }
{
    let wrap = place.wraps(Precedence::Prefix);
    p.print_opening_if(wrap);
    let within = place.within(wrap);
    p.print_marked_word(node.span, "await");
    p.print_soft_space();
    L::print(
        node.argument.get(),
        p,
        within.child(Precedence::Exponentiation),
    );
    p.print_closing_if(wrap);
}

pub fn print_yield_expression<N, L: PrintInside<N>>(
    node: &YieldExpression<N>,
    p: &mut Printer<'_>,
    place: Place,
)
    ensures { Lays p.old p.new (spell (yield_expression_row L.plain node.now) place) }
{
    let wrap = place.wraps(Precedence::Assign);
    p.print_opening_if(wrap);
    let within = place.within(wrap);
    p.print_marked_word(node.span, "yield");
    p.print_star_if(node.delegate);
    print_apart::<_, Nested<L>>(
        &node.argument,
        p,
        within.child(Precedence::Yield).with_calls(),
    );
    p.print_closing_if(wrap);
}
