// Generated from tools/nodes/table.txt; edit that and run tools/nodes/generate.
// Rows by their spelling: patterns that are given values (ECMA-262, 13.15.5).
ghost use Rattle.jsgen_tree.specs.Rows.{assignment_target_with_default_row, assignment_target_rest_row};
ghost use Rattle.jsgen_model.specs.Spell.{spell};
ghost use Rattle.jsgen_printer.specs.Steps.{Lays};

use jsgen_inside::PrintInside;
use jsgen_place::Place;
use jsgen_printer::Printer;
use jsgen_syntax::Precedence;
use jsgen_tree::{AssignmentTargetRest, AssignmentTargetWithDefault};

pub fn print_assignment_target_with_default<N, L: PrintInside<N>>(
    node: &AssignmentTargetWithDefault<N>,
    p: &mut Printer<'_>,
    place: Place,
)
    ensures { Lays p.old p.new (spell (assignment_target_with_default_row L.plain node.now) place) }
{
    let _ = place;
    L::print(node.binding.get(), p, Place::in_brackets(Precedence::Comma));
    p.print_soft_space();
    p.print_equal();
    p.print_soft_space();
    L::print(node.init.get(), p, Place::in_brackets(Precedence::Comma));
}

pub fn print_assignment_target_rest<N, L: PrintInside<N>>(
    node: &AssignmentTargetRest<N>,
    p: &mut Printer<'_>,
    place: Place,
)
    ensures { Lays p.old p.new (spell (assignment_target_rest_row L.plain node.now) place) }
{
    let _ = place;
    p.print_mark(node.span);
    p.print_ellipsis();
    L::print(node.target.get(), p, Place::in_brackets(Precedence::Comma));
}
