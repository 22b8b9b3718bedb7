// Generated from tools/nodes/table.txt; edit that and run tools/nodes/generate.
// Rows by their spelling: patterns that are bound (ECMA-262, 14.3.3).
ghost use Rattle.jsgen_tree.specs.Rows.{binding_rest_element_row, assignment_pattern_row};
ghost use Rattle.jsgen_model.specs.Spell.{spell};
ghost use Rattle.jsgen_printer.specs.Steps.{Lays};

use jsgen_inside::PrintInside;
use jsgen_place::Place;
use jsgen_printer::Printer;
use jsgen_syntax::Precedence;
use jsgen_tree::{AssignmentPattern, BindingRestElement};

pub fn print_binding_rest_element<N, L: PrintInside<N>>(
    node: &BindingRestElement<N>,
    p: &mut Printer<'_>,
    place: Place,
)
    ensures { Lays p.old p.new (spell (binding_rest_element_row L.plain node.now) place) }
{
    p.print_mark(node.span);
    p.print_ellipsis();
    L::print(node.argument.get(), p, place.child(Precedence::Lowest));
}

pub fn print_assignment_pattern<N, L: PrintInside<N>>(
    node: &AssignmentPattern<N>,
    p: &mut Printer<'_>,
    place: Place,
)
    ensures { Lays p.old p.new (spell (assignment_pattern_row L.plain node.now) place) }
{
    L::print(node.left.get(), p, place.child(Precedence::Lowest));
    p.print_soft_space();
    p.print_equal();
    p.print_soft_space();
    L::print(node.right.get(), p, Place::in_brackets(Precedence::Comma));
}
