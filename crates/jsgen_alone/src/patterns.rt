// Generated from tools/nodes/table.txt; edit that and run tools/nodes/generate.
// What is printed by itself, or at a level.
ghost use Rattle.jsgen_tree.specs.Rows.{object_pattern_row, binding_property_row, binding_rest_element_row, array_pattern_row, assignment_pattern_row};
ghost use Rattle.jsgen_alone.specs.Alone.{of_type};
ghost use Rattle.jsgen_tree.specs.declared.types.NodeType.TheVariants as types;

use crate::PrintAlone;
use jsgen_nodes::patterns::{print_array_pattern, print_binding_property, print_object_pattern};
use jsgen_nodes::{Inside, PrintNode};
use jsgen_patterns::{print_assignment_pattern, print_binding_rest_element};
use jsgen_place::{Context, Place};
use jsgen_printer::Printer;
use jsgen_syntax::Precedence;
use jsgen_tree::{
    ArrayPattern, AssignmentPattern, BindingProperty, BindingRestElement, ObjectPattern,
};

impl<N: PrintNode> PrintAlone for ObjectPattern<N> {
    ghost plain = { object_pattern_row N.plain };

    ghost how = { of_type types.ObjectPattern };

    fn print_alone(&self, p: &mut Printer<'_>, context: Context) {
        print_object_pattern(self, p, Place::at_level(Precedence::Lowest, context));
    }
}

impl<N: PrintNode> PrintAlone for BindingProperty<N> {
    ghost plain = { binding_property_row N.plain };

    ghost how = { of_type types.BindingProperty };

    fn print_alone(&self, p: &mut Printer<'_>, context: Context) {
        print_binding_property(self, p, Place::at_level(Precedence::Lowest, context));
    }
}

impl<N: PrintNode> PrintAlone for BindingRestElement<N> {
    ghost plain = { binding_rest_element_row N.plain };

    ghost how = { of_type types.BindingRestElement };

    fn print_alone(&self, p: &mut Printer<'_>, context: Context) {
        print_binding_rest_element::<_, Inside>(
            self,
            p,
            Place::at_level(Precedence::Lowest, context),
        );
    }
}

impl<N: PrintNode> PrintAlone for ArrayPattern<N> {
    ghost plain = { array_pattern_row N.plain };

    ghost how = { of_type types.ArrayPattern };

    fn print_alone(&self, p: &mut Printer<'_>, context: Context) {
        print_array_pattern(self, p, Place::at_level(Precedence::Lowest, context));
    }
}

impl<N: PrintNode> PrintAlone for AssignmentPattern<N> {
    ghost plain = { assignment_pattern_row N.plain };

    ghost how = { of_type types.AssignmentPattern };

    fn print_alone(&self, p: &mut Printer<'_>, context: Context) {
        print_assignment_pattern::<_, Inside>(
            self,
            p,
            Place::at_level(Precedence::Lowest, context),
        );
    }
}
