// Generated from tools/nodes/table.txt; edit that and run tools/nodes/generate.
// Rows by their spelling: expressions (ECMA-262, clause 13).
ghost use Rattle.jsgen_tree.specs.Rows.{this_expression_row, null_literal_row, reg_exp_literal_row, parenthesized_expression_row, identifier_name_row};
ghost use Rattle.jsgen_model.specs.Spell.{spell};
ghost use Rattle.jsgen_printer.specs.Steps.{Lays};

use jsgen_inside::{PrintInside, print_at_link};
use jsgen_place::Place;
use jsgen_printer::Printer;
use jsgen_tree::{
    IdentifierName, NullLiteral, ParenthesizedExpression, RegExpLiteral, ThisExpression,
};

pub fn print_this_expression(node: &ThisExpression, p: &mut Printer<'_>, place: Place)
    ensures { Lays p.old p.new (spell (this_expression_row node.now) place) }
{
    let _ = place;
    p.print_marked_word(node.span, "this");
}

pub fn print_null_literal(node: &NullLiteral, p: &mut Printer<'_>, place: Place)
    ensures { Lays p.old p.new (spell (null_literal_row node.now) place) }
{
    let _ = place;
    p.print_marked_word(node.span, "null");
}

pub fn print_reg_exp_literal(node: &RegExpLiteral, p: &mut Printer<'_>, place: Place)
    ensures { Lays p.old p.new (spell (reg_exp_literal_row node.now) place) }
{
    let _ = place;
    p.print_mark(node.span);
    p.print_regular_expression(node.pattern.as_str(), node.flags.as_str());
}

pub fn print_parenthesized_expression<N, L: PrintInside<N>>(
    node: &ParenthesizedExpression<N>,
    p: &mut Printer<'_>,
    place: Place,
)
    ensures { Lays p.old p.new (spell (parenthesized_expression_row L.plain node.now) place) }
{
    print_at_link::<_, L>(node.expression.get(), p, place);
}

pub fn print_identifier_name(node: &IdentifierName, p: &mut Printer<'_>, place: Place)
    ensures { Lays p.old p.new (spell (identifier_name_row node.now) place) }
{
    let _ = place;
    p.print_name(node.span, node.name.as_str());
}
