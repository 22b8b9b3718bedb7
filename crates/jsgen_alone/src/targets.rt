// Generated from tools/nodes/table.txt; edit that and run tools/nodes/generate.
// What is printed by itself, or at a level.
ghost use Rattle.jsgen_tree.specs.Rows.{array_assignment_target_row, object_assignment_target_row, assignment_target_with_default_row, assignment_target_property_identifier_row, assignment_target_property_property_row, assignment_target_rest_row};
ghost use Rattle.jsgen_alone.specs.Alone.{of_type};
ghost use Rattle.jsgen_tree.specs.declared.types.NodeType.TheVariants as types;

use crate::PrintAlone;
use jsgen_nodes::targets::{
    print_array_assignment_target, print_assignment_target_property_identifier,
    print_assignment_target_property_property, print_object_assignment_target,
};
use jsgen_nodes::{Inside, PrintNode};
use jsgen_place::{Context, Place};
use jsgen_printer::Printer;
use jsgen_syntax::Precedence;
use jsgen_targets::{print_assignment_target_rest, print_assignment_target_with_default};
use jsgen_tree::{
    ArrayAssignmentTarget, AssignmentTargetPropertyIdentifier, AssignmentTargetPropertyProperty,
    AssignmentTargetRest, AssignmentTargetWithDefault, ObjectAssignmentTarget,
};

impl<N: PrintNode> PrintAlone for ArrayAssignmentTarget<N> {
    ghost plain = { array_assignment_target_row N.plain };

    ghost how = { of_type types.ArrayAssignmentTarget };

    fn print_alone(&self, p: &mut Printer<'_>, context: Context) {
        print_array_assignment_target(self, p, Place::at_level(Precedence::Lowest, context));
    }
}

impl<N: PrintNode> PrintAlone for ObjectAssignmentTarget<N> {
    ghost plain = { object_assignment_target_row N.plain };

    ghost how = { of_type types.ObjectAssignmentTarget };

    fn print_alone(&self, p: &mut Printer<'_>, context: Context) {
        print_object_assignment_target(self, p, Place::at_level(Precedence::Lowest, context));
    }
}

impl<N: PrintNode> PrintAlone for AssignmentTargetWithDefault<N> {
    ghost plain = { assignment_target_with_default_row N.plain };

    ghost how = { of_type types.AssignmentTargetWithDefault };

    fn print_alone(&self, p: &mut Printer<'_>, context: Context) {
        print_assignment_target_with_default::<_, Inside>(
            self,
            p,
            Place::at_level(Precedence::Lowest, context),
        );
    }
}

impl<N: PrintNode> PrintAlone for AssignmentTargetPropertyIdentifier<N> {
    ghost plain = { assignment_target_property_identifier_row N.plain };

    ghost how = { of_type types.AssignmentTargetPropertyIdentifier };

    fn print_alone(&self, p: &mut Printer<'_>, context: Context) {
        print_assignment_target_property_identifier(
            self,
            p,
            Place::at_level(Precedence::Lowest, context),
        );
    }
}

impl<N: PrintNode> PrintAlone for AssignmentTargetPropertyProperty<N> {
    ghost plain = { assignment_target_property_property_row N.plain };

    ghost how = { of_type types.AssignmentTargetPropertyProperty };

    fn print_alone(&self, p: &mut Printer<'_>, context: Context) {
        print_assignment_target_property_property(
            self,
            p,
            Place::at_level(Precedence::Lowest, context),
        );
    }
}

impl<N: PrintNode> PrintAlone for AssignmentTargetRest<N> {
    ghost plain = { assignment_target_rest_row N.plain };

    ghost how = { of_type types.AssignmentTargetRest };

    fn print_alone(&self, p: &mut Printer<'_>, context: Context) {
        print_assignment_target_rest::<_, Inside>(
            self,
            p,
            Place::at_level(Precedence::Lowest, context),
        );
    }
}
