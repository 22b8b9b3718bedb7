// Generated from tools/nodes/table.txt; edit that and run tools/nodes/generate.
// Rows by their spelling: operations of one operand, and `new` (ECMA-262, clause 13).
ghost use Rattle.jsgen_tree.specs.Rows.{unary_expression_row, new_target_row, super_row, import_meta_row};
ghost use Rattle.jsgen_model.specs.Spell.{spell};
ghost use Rattle.jsgen_printer.specs.Steps.{Lays};

use jsgen_inside::PrintInside;
use jsgen_place::Place;
use jsgen_printer::Printer;
use jsgen_syntax::Precedence;
use jsgen_tree::{ImportMeta, NewTarget, Super, UnaryExpression};

pub fn print_unary_expression<N, L: PrintInside<N>>(
    node: &UnaryExpression<N>,
    p: &mut Printer<'_>,
    place: Place,
)
    ensures { Lays p.old p.new (spell (unary_expression_row L.plain node.now) place) }
{
    let wrap = place.wraps(Precedence::Prefix);
    p.print_opening_if(wrap);
    let within = place.within(wrap);
    p.print_marked_unary_operator(node.span, node.operator);
    p.print_behind_unary(node.operator);
    L::print(
        node.argument.get(),
        p,
        within.child(Precedence::Exponentiation),
    );
    p.print_closing_if(wrap);
}

pub fn print_new_target(node: &NewTarget, p: &mut Printer<'_>, place: Place)
    ensures { Lays p.old p.new (spell (new_target_row node.now) place) }
{
    let _ = place;
    p.print_marked_word(node.span, "new");
    p.print_member_dot();
    p.print_word("target");
}

pub fn print_super(node: &Super, p: &mut Printer<'_>, place: Place)
    ensures { Lays p.old p.new (spell (super_row node.now) place) }
{
    let _ = place;
    p.print_marked_word(node.span, "super");
}

pub fn print_import_meta(node: &ImportMeta, p: &mut Printer<'_>, place: Place)
    ensures { Lays p.old p.new (spell (import_meta_row node.now) place) }
{
    let _ = place;
    p.print_marked_word(node.span, "import.meta");
}
