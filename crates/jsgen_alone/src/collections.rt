// Generated from tools/nodes/table.txt; edit that and run tools/nodes/generate.
// What is printed by itself, or at a level.
ghost use Rattle.jsgen_tree.specs.Rows.{spread_element_row, array_expression_row, object_property_row, object_expression_row};
ghost use Rattle.jsgen_alone.specs.Alone.{of_type};
ghost use Rattle.jsgen_tree.specs.declared.types.NodeType.TheVariants as types;

use crate::{PrintAlone, PrintAtLevel};
use jsgen_nodes::collections::{
    print_array_expression, print_object_expression, print_object_property,
};
use jsgen_nodes::{Inside, PrintNode};
use jsgen_place::{Context, Place};
use jsgen_printer::Printer;
use jsgen_spelled::print_spread_element;
use jsgen_syntax::Precedence;
use jsgen_tree::{ArrayExpression, ObjectExpression, ObjectProperty, SpreadElement};

impl<N: PrintNode> PrintAlone for SpreadElement<N> {
    ghost plain = { spread_element_row N.plain };

    ghost how = { of_type types.SpreadElement };

    fn print_alone(&self, p: &mut Printer<'_>, context: Context) {
        print_spread_element::<_, Inside>(self, p, Place::at_level(Precedence::Lowest, context));
    }
}

impl<N: PrintNode> PrintAlone for ArrayExpression<N> {
    ghost plain = { array_expression_row N.plain };

    ghost how = { of_type types.ArrayExpression };

    fn print_alone(&self, p: &mut Printer<'_>, context: Context) {
        print_array_expression(self, p, Place::at_level(Precedence::Lowest, context));
    }
}

impl<N: PrintNode> PrintAlone for ObjectProperty<N> {
    ghost plain = { object_property_row N.plain };

    ghost how = { of_type types.ObjectProperty };

    fn print_alone(&self, p: &mut Printer<'_>, context: Context) {
        let _ = context;
        print_object_property(self, p, Place::in_brackets(Precedence::Comma));
    }
}

impl<N: PrintNode> PrintAtLevel for ObjectExpression<N> {
    ghost plain = { object_expression_row N.plain };

    fn print_at(&self, p: &mut Printer<'_>, place: Place) {
        print_object_expression(self, p, place);
    }
}
