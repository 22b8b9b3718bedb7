// Generated from tools/nodes/table.txt; edit that and run tools/nodes/generate.
// Rows of a job: functions and their parameters (ECMA-262, clause 15).
ghost use Rattle.std.specs.Prelude.{◌≡◌, true};
ghost use Rattle.jsgen_fields.specs.Given.{row_data};
ghost use Rattle.jsgen_tree.specs.RowFields.{formal_parameter_fields, formal_parameter_rest_fields, formal_parameters_fields, function_fields, function_body_fields, arrow_function_expression_fields, await_expression_fields, yield_expression_fields};
ghost use Rattle.jsgen_fields.specs.Reads.{Gives, read_node, read_typed};
ghost use Rattle.jsgen_pool.specs.Pool.{entries};
ghost use Rattle.jsgen_fields.specs.Parts.{is_in_functions};
ghost use Rattle.jsgen_tree.specs.declared.types.NodeType.TheVariants as types;

use jsgen_fields::InputFault;
use jsgen_fields::fields::boxed;
use jsgen_fields::given::GivenRow;
use jsgen_fields::list_fields::{directive_list, formal_parameter_list, statement_list};
use jsgen_fields::set_fields::{
    needed_arrow_function_body, needed_binding_pattern, needed_expression,
    needed_formal_parameters, optional_binding_identifier, optional_expression,
    optional_formal_parameter_rest, optional_function_body,
};
use jsgen_fields::set_rows::row_of_expression;
use jsgen_fields::values::{field_not_given, neither_given, optional_flag};
use jsgen_fields::words::needed_kind_of_function;
use jsgen_kept::asked::{
    HoldsBindingPattern, HoldsDeclaration, HoldsExpression, HoldsStatement, ReadNode, RowOf,
};
use jsgen_kept::kept::{
    row_of_formal_parameter, row_of_formal_parameter_rest, row_of_formal_parameters,
    row_of_function, row_of_function_body,
};
use jsgen_kept::others::OtherExpression;
use jsgen_pool::Kept;
use jsgen_syntax::Span;
use jsgen_tree::{
    ArrowFunctionExpression, AwaitExpression, Expression, FormalParameter, FormalParameterRest,
    FormalParameters, Function, FunctionBody, HasType, NodeType, YieldExpression,
};
use std::alloc::Global;

#[tactic(auto, unfolding(jsgen_fields::specs::Reads::read_node))]
fn read_formal_parameter<N: HoldsExpression + HoldsBindingPattern + Drop, R: RowOf<N> + Drop>(
    alloc: Global,
    kept: &mut Vec<Kept<R>>,
    number: usize,
    span: Span,
    row: &GivenRow<'_>,
) -> Result<R, InputFault>
    ensures { Gives R.plain result (entries R.plain kept.new.items)
        (read_node number types.FormalParameter formal_parameter_fields span (row_data row.now) (entries R.plain kept.old.items)) }
{
    match neither_given(number, 2, row, "decorators", "accessibility") {
        Ok(()) => {}
        Err(fault) => return Err(fault),
    }
    match neither_given(number, 4, row, "is_override", "readonly") {
        Ok(()) => {}
        Err(fault) => return Err(fault),
    }
    let pattern = match needed_binding_pattern::<N, R>(alloc, kept, number, 6, row, "pattern") {
        Ok(pattern) => pattern,
        Err(fault) => return Err(fault),
    };
    match neither_given(number, 7, row, "optional", "type_annotation") {
        Ok(()) => {}
        Err(fault) => return Err(fault),
    }
    let initializer = match optional_expression::<N, R>(
        alloc,
        kept,
        number,
        9,
        row,
        "initializer",
    ) {
        Ok(initializer) => initializer,
        Err(fault) => return Err(fault),
    };
    let node = FormalParameter {
        span,
        pattern,
        initializer,
    };
    match boxed(alloc, node) {
        Ok(node) => Ok(row_of_formal_parameter::<N, R>(node)),
        Err(fault) => Err(fault),
    }
}

#[tactic(auto, unfolding(jsgen_fields::specs::Reads::read_node))]
fn read_formal_parameter_rest<N: HoldsBindingPattern + Drop, R: RowOf<N> + Drop>(
    alloc: Global,
    kept: &mut Vec<Kept<R>>,
    number: usize,
    span: Span,
    row: &GivenRow<'_>,
) -> Result<R, InputFault>
    ensures { Gives R.plain result (entries R.plain kept.new.items)
        (read_node number types.FormalParameterRest formal_parameter_rest_fields span (row_data row.now) (entries R.plain kept.old.items)) }
{
    match field_not_given(number, 2, row, "decorators") {
        Ok(()) => {}
        Err(fault) => return Err(fault),
    }
    let argument = match needed_binding_pattern::<N, R>(alloc, kept, number, 3, row, "argument") {
        Ok(argument) => argument,
        Err(fault) => return Err(fault),
    };
    match field_not_given(number, 4, row, "type_annotation") {
        Ok(()) => {}
        Err(fault) => return Err(fault),
    }
    let node = FormalParameterRest { span, argument };
    match boxed(alloc, node) {
        Ok(node) => Ok(row_of_formal_parameter_rest::<N, R>(node)),
        Err(fault) => Err(fault),
    }
}

#[tactic(auto, unfolding(jsgen_fields::specs::Reads::read_node))]
fn read_formal_parameters<N: HasType + Drop, R: RowOf<N> + Drop>(
    alloc: Global,
    kept: &mut Vec<Kept<R>>,
    number: usize,
    span: Span,
    row: &GivenRow<'_>,
) -> Result<R, InputFault>
    ensures { Gives R.plain result (entries R.plain kept.new.items)
        (read_node number types.FormalParameters formal_parameters_fields span (row_data row.now) (entries R.plain kept.old.items)) }
{
    let items = match formal_parameter_list::<N, R>(alloc, kept, number, 2, row, "items") {
        Ok(items) => items,
        Err(fault) => return Err(fault),
    };
    let rest = match optional_formal_parameter_rest::<N, R>(alloc, kept, number, 3, row, "rest") {
        Ok(rest) => rest,
        Err(fault) => return Err(fault),
    };
    let node = FormalParameters { span, items, rest };
    match boxed(alloc, node) {
        Ok(node) => Ok(row_of_formal_parameters::<N, R>(node)),
        Err(fault) => Err(fault),
    }
}

#[tactic(auto, unfolding(jsgen_fields::specs::Reads::read_node))]
fn read_function<N: HasType + Drop, R: RowOf<N> + Drop>(
    alloc: Global,
    kept: &mut Vec<Kept<R>>,
    number: usize,
    span: Span,
    row: &GivenRow<'_>,
) -> Result<R, InputFault>
    ensures { Gives R.plain result (entries R.plain kept.new.items)
        (read_node number types.Function function_fields span (row_data row.now) (entries R.plain kept.old.items)) }
{
    let kind = match needed_kind_of_function(number, 2, row, "kind") {
        Ok(kind) => kind,
        Err(fault) => return Err(fault),
    };
    let id = match optional_binding_identifier::<N, R>(alloc, kept, number, 3, row, "id") {
        Ok(id) => id,
        Err(fault) => return Err(fault),
    };
    let is_async = match optional_flag(number, 4, row, "is_async") {
        Ok(is_async) => is_async,
        Err(fault) => return Err(fault),
    };
    let generator = match optional_flag(number, 5, row, "generator") {
        Ok(generator) => generator,
        Err(fault) => return Err(fault),
    };
    match field_not_given(number, 6, row, "declare") {
        Ok(()) => {}
        Err(fault) => return Err(fault),
    }
    let pure = match optional_flag(number, 7, row, "pure") {
        Ok(pure) => pure,
        Err(fault) => return Err(fault),
    };
    let pife = match optional_flag(number, 8, row, "pife") {
        Ok(pife) => pife,
        Err(fault) => return Err(fault),
    };
    match neither_given(number, 9, row, "type_parameters", "this_param") {
        Ok(()) => {}
        Err(fault) => return Err(fault),
    }
    let params = match needed_formal_parameters::<N, R>(alloc, kept, number, 11, row, "params") {
        Ok(params) => params,
        Err(fault) => return Err(fault),
    };
    match field_not_given(number, 12, row, "return_type") {
        Ok(()) => {}
        Err(fault) => return Err(fault),
    }
    let body = match optional_function_body::<N, R>(alloc, kept, number, 13, row, "body") {
        Ok(body) => body,
        Err(fault) => return Err(fault),
    };
    let node = Function {
        span,
        kind,
        id,
        is_async,
        generator,
        pure,
        pife,
        params,
        body,
    };
    match boxed(alloc, node) {
        Ok(node) => Ok(row_of_function::<N, R>(node)),
        Err(fault) => Err(fault),
    }
}

#[tactic(auto, unfolding(jsgen_fields::specs::Reads::read_node))]
fn read_function_body<N: HoldsDeclaration + HoldsStatement + Drop, R: RowOf<N> + Drop>(
    alloc: Global,
    kept: &mut Vec<Kept<R>>,
    number: usize,
    span: Span,
    row: &GivenRow<'_>,
) -> Result<R, InputFault>
    ensures { Gives R.plain result (entries R.plain kept.new.items)
        (read_node number types.FunctionBody function_body_fields span (row_data row.now) (entries R.plain kept.old.items)) }
{
    let directives = match directive_list::<N, R>(alloc, kept, number, 2, row, "directives") {
        Ok(directives) => directives,
        Err(fault) => return Err(fault),
    };
    let statements = match statement_list::<N, R>(alloc, kept, number, 3, row, "statements") {
        Ok(statements) => statements,
        Err(fault) => return Err(fault),
    };
    let node = FunctionBody {
        span,
        directives,
        statements,
    };
    match boxed(alloc, node) {
        Ok(node) => Ok(row_of_function_body::<N, R>(node)),
        Err(fault) => Err(fault),
    }
}

#[tactic(auto, unfolding(jsgen_fields::specs::Reads::read_node))]
fn read_arrow_function_expression<N: HoldsExpression + Drop, R: RowOf<N> + Drop>(
    alloc: Global,
    kept: &mut Vec<Kept<R>>,
    number: usize,
    span: Span,
    row: &GivenRow<'_>,
) -> Result<R, InputFault>
    ensures { Gives R.plain result (entries R.plain kept.new.items)
        (read_node number types.ArrowFunctionExpression arrow_function_expression_fields span (row_data row.now) (entries R.plain kept.old.items)) }
{
    let is_async = match optional_flag(number, 2, row, "is_async") {
        Ok(is_async) => is_async,
        Err(fault) => return Err(fault),
    };
    let pure = match optional_flag(number, 3, row, "pure") {
        Ok(pure) => pure,
        Err(fault) => return Err(fault),
    };
    let pife = match optional_flag(number, 4, row, "pife") {
        Ok(pife) => pife,
        Err(fault) => return Err(fault),
    };
    match field_not_given(number, 5, row, "type_parameters") {
        Ok(()) => {}
        Err(fault) => return Err(fault),
    }
    let params = match needed_formal_parameters::<N, R>(alloc, kept, number, 6, row, "params") {
        Ok(params) => params,
        Err(fault) => return Err(fault),
    };
    match field_not_given(number, 7, row, "return_type") {
        Ok(()) => {}
        Err(fault) => return Err(fault),
    }
    let body = match needed_arrow_function_body::<N, R>(alloc, kept, number, 8, row, "body") {
        Ok(body) => body,
        Err(fault) => return Err(fault),
    };
    let node = ArrowFunctionExpression {
        span,
        is_async,
        pure,
        pife,
        params,
        body,
    };
    match boxed(alloc, node) {
        Ok(node) => row_of_expression::<N, R>(
            alloc,
            OtherExpression {
                expression: Expression::ArrowFunctionExpression(node),
            },
        ),
        Err(fault) => Err(fault),
    }
}

#[tactic(auto, unfolding(jsgen_fields::specs::Reads::read_node))]
fn read_await_expression<N: HoldsExpression + Drop, R: RowOf<N> + Drop>(
    alloc: Global,
    kept: &mut Vec<Kept<R>>,
    number: usize,
    span: Span,
    row: &GivenRow<'_>,
) -> Result<R, InputFault>
    ensures { Gives R.plain result (entries R.plain kept.new.items)
        (read_node number types.AwaitExpression await_expression_fields span (row_data row.now) (entries R.plain kept.old.items)) }
{
    let argument = match needed_expression::<N, R>(alloc, kept, number, 2, row, "argument") {
        Ok(argument) => argument,
        Err(fault) => return Err(fault),
    };
    let node = AwaitExpression { span, argument };
    match boxed(alloc, node) {
        Ok(node) => row_of_expression::<N, R>(
            alloc,
            OtherExpression {
                expression: Expression::AwaitExpression(node),
            },
        ),
        Err(fault) => Err(fault),
    }
}

#[tactic(auto, unfolding(jsgen_fields::specs::Reads::read_node))]
fn read_yield_expression<N: HoldsExpression + Drop, R: RowOf<N> + Drop>(
    alloc: Global,
    kept: &mut Vec<Kept<R>>,
    number: usize,
    span: Span,
    row: &GivenRow<'_>,
) -> Result<R, InputFault>
    ensures { Gives R.plain result (entries R.plain kept.new.items)
        (read_node number types.YieldExpression yield_expression_fields span (row_data row.now) (entries R.plain kept.old.items)) }
{
    let delegate = match optional_flag(number, 2, row, "delegate") {
        Ok(delegate) => delegate,
        Err(fault) => return Err(fault),
    };
    let argument = match optional_expression::<N, R>(alloc, kept, number, 3, row, "argument") {
        Ok(argument) => argument,
        Err(fault) => return Err(fault),
    };
    let node = YieldExpression {
        span,
        delegate,
        argument,
    };
    match boxed(alloc, node) {
        Ok(node) => row_of_expression::<N, R>(
            alloc,
            OtherExpression {
                expression: Expression::YieldExpression(node),
            },
        ),
        Err(fault) => Err(fault),
    }
}

/// The row of a type of this part.
pub fn read_in_functions<N: ReadNode + Drop, R: RowOf<N> + Drop>(
    alloc: Global,
    kept: &mut Vec<Kept<R>>,
    node_type: NodeType,
    number: usize,
    span: Span,
    row: &GivenRow<'_>,
) -> Result<R, InputFault>
    requires { is_in_functions node_type ≡ true }
    ensures { Gives R.plain result (entries R.plain kept.new.items)
        (read_typed number node_type span (row_data row.now) (entries R.plain kept.old.items)) }
{
    match node_type {
        NodeType::FormalParameter => read_formal_parameter::<N, R>(alloc, kept, number, span, row),
        NodeType::FormalParameterRest => read_formal_parameter_rest::<N, R>(
            alloc, kept, number, span, row,
        ),
        NodeType::FormalParameters => read_formal_parameters::<N, R>(
            alloc, kept, number, span, row,
        ),
        NodeType::Function => read_function::<N, R>(alloc, kept, number, span, row),
        NodeType::FunctionBody => read_function_body::<N, R>(alloc, kept, number, span, row),
        NodeType::ArrowFunctionExpression => read_arrow_function_expression::<N, R>(
            alloc, kept, number, span, row,
        ),
        NodeType::AwaitExpression => read_await_expression::<N, R>(alloc, kept, number, span, row),
        NodeType::YieldExpression => read_yield_expression::<N, R>(alloc, kept, number, span, row),
        _ => unreachable!(),
    }
}
