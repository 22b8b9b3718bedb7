// Generated from tools/nodes/table.txt; edit that and run tools/nodes/generate.
// What is printed by itself, or at a level.
ghost use Rattle.jsgen_tree.specs.Rows.{identifier_reference_row, this_expression_row, null_literal_row, boolean_literal_row, numeric_literal_row, big_int_literal_row, string_literal_row, reg_exp_literal_row, parenthesized_expression_row, binary_expression_row, logical_expression_row, identifier_name_row, static_member_expression_row, computed_member_expression_row, call_expression_row, chain_expression_row};
ghost use Rattle.jsgen_alone.specs.Alone.{of_type};
ghost use Rattle.jsgen_tree.specs.declared.types.NodeType.TheVariants as types;

use crate::{PrintAlone, PrintAtLevel};
use jsgen_inside::print_identifier_reference;
use jsgen_nodes::expressions::{
    print_big_int_literal, print_binary_expression, print_boolean_literal, print_call_expression,
    print_chain_expression, print_computed_member_expression, print_logical_expression,
    print_numeric_literal, print_static_member_expression, print_string_literal,
};
use jsgen_nodes::{Inside, PrintNode};
use jsgen_place::{Context, Place};
use jsgen_printer::Printer;
use jsgen_spelled::{
    print_identifier_name, print_null_literal, print_parenthesized_expression,
    print_reg_exp_literal, print_this_expression,
};
use jsgen_syntax::Precedence;
use jsgen_tree::{
    BigIntLiteral, BinaryExpression, BooleanLiteral, CallExpression, ChainExpression,
    ComputedMemberExpression, IdentifierName, IdentifierReference, LogicalExpression, NullLiteral,
    NumericLiteral, ParenthesizedExpression, RegExpLiteral, StaticMemberExpression, StringLiteral,
    ThisExpression,
};

impl PrintAlone for IdentifierReference {
    ghost plain = { identifier_reference_row };

    ghost how = { of_type types.IdentifierReference };

    fn print_alone(&self, p: &mut Printer<'_>, context: Context) {
        print_identifier_reference(self, p, Place::at_level(Precedence::Lowest, context));
    }
}

impl PrintAlone for ThisExpression {
    ghost plain = { this_expression_row };

    ghost how = { of_type types.ThisExpression };

    fn print_alone(&self, p: &mut Printer<'_>, context: Context) {
        print_this_expression(self, p, Place::at_level(Precedence::Lowest, context));
    }
}

impl PrintAlone for NullLiteral {
    ghost plain = { null_literal_row };

    ghost how = { of_type types.NullLiteral };

    fn print_alone(&self, p: &mut Printer<'_>, context: Context) {
        print_null_literal(self, p, Place::at_level(Precedence::Lowest, context));
    }
}

impl PrintAlone for BooleanLiteral {
    ghost plain = { boolean_literal_row };

    ghost how = { of_type types.BooleanLiteral };

    fn print_alone(&self, p: &mut Printer<'_>, context: Context) {
        print_boolean_literal(self, p, Place::at_level(Precedence::Lowest, context));
    }
}

impl PrintAtLevel for NumericLiteral {
    ghost plain = { numeric_literal_row };

    fn print_at(&self, p: &mut Printer<'_>, place: Place) {
        print_numeric_literal(self, p, place);
    }
}

impl PrintAtLevel for BigIntLiteral {
    ghost plain = { big_int_literal_row };

    fn print_at(&self, p: &mut Printer<'_>, place: Place) {
        print_big_int_literal(self, p, place);
    }
}

impl PrintAlone for StringLiteral {
    ghost plain = { string_literal_row };

    ghost how = { of_type types.StringLiteral };

    fn print_alone(&self, p: &mut Printer<'_>, context: Context) {
        print_string_literal(self, p, Place::at_level(Precedence::Lowest, context));
    }
}

impl PrintAlone for RegExpLiteral {
    ghost plain = { reg_exp_literal_row };

    ghost how = { of_type types.RegExpLiteral };

    fn print_alone(&self, p: &mut Printer<'_>, context: Context) {
        print_reg_exp_literal(self, p, Place::at_level(Precedence::Lowest, context));
    }
}

impl<N: PrintNode> PrintAtLevel for ParenthesizedExpression<N> {
    ghost plain = { parenthesized_expression_row N.plain };

    fn print_at(&self, p: &mut Printer<'_>, place: Place) {
        print_parenthesized_expression::<_, Inside>(self, p, place);
    }
}

impl<N: PrintNode> PrintAtLevel for BinaryExpression<N> {
    ghost plain = { binary_expression_row N.plain };

    fn print_at(&self, p: &mut Printer<'_>, place: Place) {
        print_binary_expression(self, p, place);
    }
}

impl<N: PrintNode> PrintAtLevel for LogicalExpression<N> {
    ghost plain = { logical_expression_row N.plain };

    fn print_at(&self, p: &mut Printer<'_>, place: Place) {
        print_logical_expression(self, p, place);
    }
}

impl PrintAlone for IdentifierName {
    ghost plain = { identifier_name_row };

    ghost how = { of_type types.IdentifierName };

    fn print_alone(&self, p: &mut Printer<'_>, context: Context) {
        print_identifier_name(self, p, Place::at_level(Precedence::Lowest, context));
    }
}

impl<N: PrintNode> PrintAtLevel for StaticMemberExpression<N> {
    ghost plain = { static_member_expression_row N.plain };

    fn print_at(&self, p: &mut Printer<'_>, place: Place) {
        print_static_member_expression(self, p, place);
    }
}

impl<N: PrintNode> PrintAtLevel for ComputedMemberExpression<N> {
    ghost plain = { computed_member_expression_row N.plain };

    fn print_at(&self, p: &mut Printer<'_>, place: Place) {
        print_computed_member_expression(self, p, place);
    }
}

impl<N: PrintNode> PrintAtLevel for CallExpression<N> {
    ghost plain = { call_expression_row N.plain };

    fn print_at(&self, p: &mut Printer<'_>, place: Place) {
        print_call_expression(self, p, place);
    }
}

impl<N: PrintNode> PrintAtLevel for ChainExpression<N> {
    ghost plain = { chain_expression_row N.plain };

    fn print_at(&self, p: &mut Printer<'_>, place: Place) {
        print_chain_expression(self, p, place);
    }
}
