// Generated from tools/nodes/table.txt; edit that and run tools/nodes/generate.
// How the members of lists, and what may be there or not, are printed.
ghost use Rattle.jsgen_tree.specs.Rows.{variable_declarator_row, label_identifier_row};

use crate::loops::print_label_identifier;
use crate::statements::print_variable_declarator;
use jsgen_inside::PrintInside;
use jsgen_lists::PrintMember;
use jsgen_place::Place;
use jsgen_printer::Printer;
use jsgen_tree::{LabelIdentifier, VariableDeclarator};

/// Rows in which others nest.
pub struct Rows<L> {
    inside: L,
}

/// Rows in which none nests.
pub struct Leaves;

impl<N, L: PrintInside<N>> PrintMember<VariableDeclarator<N>> for Rows<L> {
    ghost plain = { variable_declarator_row L.plain };

    fn print_member(node: &VariableDeclarator<N>, p: &mut Printer<'_>, place: Place) {
        print_variable_declarator::<_, L>(node, p, place);
    }
}

impl PrintMember<Box<LabelIdentifier>> for Leaves {
    ghost plain = { λ b. label_identifier_row b.value };

    fn print_member(node: &Box<LabelIdentifier>, p: &mut Printer<'_>, place: Place) {
        print_label_identifier(node, p, place);
    }
}
