// Generated from tools/nodes/table.txt; edit that and run tools/nodes/generate.
// What is printed by itself, or at a level.
ghost use Rattle.jsgen_tree.specs.Rows.{private_identifier_row, private_field_expression_row, private_in_expression_row, class_row, class_body_row, static_block_row, method_definition_row, property_definition_row};
ghost use Rattle.jsgen_alone.specs.Alone.{of_type};
ghost use Rattle.jsgen_tree.specs.declared.types.NodeType.TheVariants as types;

use crate::{PrintAlone, PrintAtLevel};
use jsgen_classes::{
    print_class, print_class_body, print_method_definition, print_private_field_expression,
    print_private_identifier, print_private_in_expression, print_property_definition,
    print_static_block,
};
use jsgen_nodes::{InClass, Inside, PrintNode};
use jsgen_place::{Context, Place};
use jsgen_printer::Printer;
use jsgen_syntax::Precedence;
use jsgen_tree::{
    Class, ClassBody, MethodDefinition, PrivateFieldExpression, PrivateIdentifier,
    PrivateInExpression, PropertyDefinition, StaticBlock,
};

impl PrintAlone for PrivateIdentifier {
    ghost plain = { private_identifier_row };

    ghost how = { of_type types.PrivateIdentifier };

    fn print_alone(&self, p: &mut Printer<'_>, context: Context) {
        print_private_identifier(self, p, Place::at_level(Precedence::Lowest, context));
    }
}

impl<N: PrintNode> PrintAtLevel for PrivateFieldExpression<N> {
    ghost plain = { private_field_expression_row N.plain };

    fn print_at(&self, p: &mut Printer<'_>, place: Place) {
        print_private_field_expression::<_, Inside>(self, p, place);
    }
}

impl<N: PrintNode> PrintAtLevel for PrivateInExpression<N> {
    ghost plain = { private_in_expression_row N.plain };

    fn print_at(&self, p: &mut Printer<'_>, place: Place) {
        print_private_in_expression::<_, Inside>(self, p, place);
    }
}

impl<N: PrintNode> PrintAlone for Class<N> {
    ghost plain = { class_row N.plain };

    ghost how = { of_type types.Class };

    fn print_alone(&self, p: &mut Printer<'_>, context: Context) {
        print_class::<_, Inside>(self, p, Place::at_level(Precedence::Lowest, context));
    }
}

impl<N: PrintNode> PrintAlone for ClassBody<N> {
    ghost plain = { class_body_row N.plain };

    ghost how = { of_type types.ClassBody };

    fn print_alone(&self, p: &mut Printer<'_>, context: Context) {
        print_class_body::<_, Inside>(self, p, Place::at_level(Precedence::Lowest, context));
    }
}

impl<N: PrintNode> PrintAlone for StaticBlock<N> {
    ghost plain = { static_block_row N.plain };

    ghost how = { of_type types.StaticBlock };

    fn print_alone(&self, p: &mut Printer<'_>, context: Context) {
        print_static_block::<_, InClass>(self, p, Place::at_level(Precedence::Lowest, context));
    }
}

impl<N: PrintNode> PrintAlone for MethodDefinition<N> {
    ghost plain = { method_definition_row N.plain };

    ghost how = { of_type types.MethodDefinition };

    fn print_alone(&self, p: &mut Printer<'_>, context: Context) {
        print_method_definition::<_, InClass>(
            self,
            p,
            Place::at_level(Precedence::Lowest, context),
        );
    }
}

impl<N: PrintNode> PrintAlone for PropertyDefinition<N> {
    ghost plain = { property_definition_row N.plain };

    ghost how = { of_type types.PropertyDefinition };

    fn print_alone(&self, p: &mut Printer<'_>, context: Context) {
        print_property_definition::<_, InClass>(
            self,
            p,
            Place::at_level(Precedence::Lowest, context),
        );
    }
}
