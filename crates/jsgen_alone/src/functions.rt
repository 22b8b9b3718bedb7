// Generated from tools/nodes/table.txt; edit that and run tools/nodes/generate.
// What is printed by itself, or at a level.
ghost use Rattle.jsgen_tree.specs.Rows.{formal_parameter_row, formal_parameter_rest_row, formal_parameters_row, function_row, function_body_row, arrow_function_expression_row, await_expression_row, yield_expression_row};
ghost use Rattle.jsgen_alone.specs.Alone.{of_type};
ghost use Rattle.jsgen_tree.specs.declared.types.NodeType.TheVariants as types;

use crate::{PrintAlone, PrintAtLevel};
use jsgen_nodes::functions::{
    print_arrow_function_expression, print_formal_parameters, print_function, print_function_body,
};
use jsgen_nodes::{Inside, PrintNode};
use jsgen_place::{Context, Place};
use jsgen_printer::Printer;
use jsgen_spelled::{
    print_await_expression, print_formal_parameter, print_formal_parameter_rest,
    print_yield_expression,
};
use jsgen_syntax::Precedence;
use jsgen_tree::{
    ArrowFunctionExpression, AwaitExpression, FormalParameter, FormalParameterRest,
    FormalParameters, Function, FunctionBody, YieldExpression,
};

impl<N: PrintNode> PrintAlone for FormalParameter<N> {
    ghost plain = { formal_parameter_row N.plain };

    ghost how = { of_type types.FormalParameter };

    fn print_alone(&self, p: &mut Printer<'_>, context: Context) {
        print_formal_parameter::<_, Inside>(self, p, Place::at_level(Precedence::Lowest, context));
    }
}

impl<N: PrintNode> PrintAlone for FormalParameterRest<N> {
    ghost plain = { formal_parameter_rest_row N.plain };

    ghost how = { of_type types.FormalParameterRest };

    fn print_alone(&self, p: &mut Printer<'_>, context: Context) {
        print_formal_parameter_rest::<_, Inside>(
            self,
            p,
            Place::at_level(Precedence::Lowest, context),
        );
    }
}

impl<N: PrintNode> PrintAlone for FormalParameters<N> {
    ghost plain = { formal_parameters_row N.plain };

    ghost how = { of_type types.FormalParameters };

    fn print_alone(&self, p: &mut Printer<'_>, context: Context) {
        print_formal_parameters(self, p, Place::at_level(Precedence::Lowest, context));
    }
}

impl<N: PrintNode> PrintAlone for Function<N> {
    ghost plain = { function_row N.plain };

    ghost how = { of_type types.Function };

    fn print_alone(&self, p: &mut Printer<'_>, context: Context) {
        print_function(self, p, Place::at_level(Precedence::Lowest, context));
    }
}

impl<N: PrintNode> PrintAlone for FunctionBody<N> {
    ghost plain = { function_body_row N.plain };

    ghost how = { of_type types.FunctionBody };

    fn print_alone(&self, p: &mut Printer<'_>, context: Context) {
        print_function_body(self, p, Place::at_level(Precedence::Lowest, context));
    }
}

impl<N: PrintNode> PrintAtLevel for ArrowFunctionExpression<N> {
    ghost plain = { arrow_function_expression_row N.plain };

    fn print_at(&self, p: &mut Printer<'_>, place: Place) {
        print_arrow_function_expression(self, p, place);
    }
}

impl<N: PrintNode> PrintAtLevel for AwaitExpression<N> {
    ghost plain = { await_expression_row N.plain };

    fn print_at(&self, p: &mut Printer<'_>, place: Place) {
        print_await_expression::<_, Inside>(self, p, place);
    }
}

impl<N: PrintNode> PrintAtLevel for YieldExpression<N> {
    ghost plain = { yield_expression_row N.plain };

    fn print_at(&self, p: &mut Printer<'_>, place: Place) {
        print_yield_expression::<_, Inside>(self, p, place);
    }
}
