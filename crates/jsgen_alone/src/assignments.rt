// Generated from tools/nodes/table.txt; edit that and run tools/nodes/generate.
// What is printed by itself, or at a level.
ghost use Rattle.jsgen_tree.specs.Rows.{conditional_expression_row, sequence_expression_row, assignment_expression_row};

use crate::PrintAtLevel;
use jsgen_nodes::assignments::print_assignment_expression;
use jsgen_nodes::{Inside, PrintNode};
use jsgen_place::Place;
use jsgen_printer::Printer;
use jsgen_spelled::{print_conditional_expression, print_sequence_expression};
use jsgen_tree::{AssignmentExpression, ConditionalExpression, SequenceExpression};

impl<N: PrintNode> PrintAtLevel for ConditionalExpression<N> {
    ghost plain = { conditional_expression_row N.plain };

    fn print_at(&self, p: &mut Printer<'_>, place: Place) {
        print_conditional_expression::<_, Inside>(self, p, place);
    }
}

impl<N: PrintNode> PrintAtLevel for SequenceExpression<N> {
    ghost plain = { sequence_expression_row N.plain };

    fn print_at(&self, p: &mut Printer<'_>, place: Place) {
        print_sequence_expression::<_, Inside>(self, p, place);
    }
}

impl<N: PrintNode> PrintAtLevel for AssignmentExpression<N> {
    ghost plain = { assignment_expression_row N.plain };

    fn print_at(&self, p: &mut Printer<'_>, place: Place) {
        print_assignment_expression(self, p, place);
    }
}
