// Generated from tools/nodes/table.txt; edit that and run tools/nodes/generate.
// Rows of a job: expressions (ECMA-262, clause 13).
ghost use Rattle.std.specs.Prelude.{◌≡◌, true};
ghost use Rattle.jsgen_fields.specs.Given.{row_data};
ghost use Rattle.jsgen_tree.specs.RowFields.{identifier_reference_fields, this_expression_fields, null_literal_fields, boolean_literal_fields, big_int_literal_fields, string_literal_fields, reg_exp_literal_fields, parenthesized_expression_fields, binary_expression_fields, logical_expression_fields, identifier_name_fields, static_member_expression_fields, computed_member_expression_fields, call_expression_fields, chain_expression_fields};
ghost use Rattle.jsgen_fields.specs.Reads.{Gives, read_node, read_typed};
ghost use Rattle.jsgen_pool.specs.Pool.{entries};
ghost use Rattle.jsgen_fields.specs.Parts.{is_in_expressions};
ghost use Rattle.jsgen_tree.specs.declared.types.NodeType.TheVariants as types;

use crate::literals::read_numeric_literal;
use jsgen_fields::InputFault;
use jsgen_fields::fields::boxed;
use jsgen_fields::given::GivenRow;
use jsgen_fields::list_fields::argument_list;
use jsgen_fields::set_fields::{needed_chain_element, needed_expression, needed_identifier_name};
use jsgen_fields::set_rows::row_of_expression;
use jsgen_fields::strings::needed_units;
use jsgen_fields::values::{
    field_not_given, needed_flag, needed_text, optional_flag, optional_number,
};
use jsgen_fields::words::{needed_binary_operator, needed_logical_operator};
use jsgen_kept::asked::{HoldsExpression, ReadNode, RowOf};
use jsgen_kept::kept::{
    row_of_computed_member_expression, row_of_identifier_name, row_of_identifier_reference,
    row_of_static_member_expression,
};
use jsgen_kept::others::OtherExpression;
use jsgen_pool::Kept;
use jsgen_syntax::Span;
use jsgen_tree::{
    BigIntLiteral, BinaryExpression, BooleanLiteral, CallExpression, ChainExpression,
    ComputedMemberExpression, Expression, HasType, IdentifierName, IdentifierReference,
    LogicalExpression, NodeType, NullLiteral, ParenthesizedExpression, RegExpLiteral,
    StaticMemberExpression, StringLiteral, ThisExpression,
};
use std::alloc::Global;

#[tactic(auto, unfolding(jsgen_fields::specs::Reads::read_node))]
fn read_identifier_reference<N: HasType + Drop, R: RowOf<N> + Drop>(
    alloc: Global,
    kept: &mut Vec<Kept<R>>,
    number: usize,
    span: Span,
    row: &GivenRow<'_>,
) -> Result<R, InputFault>
    ensures { Gives R.plain result (entries R.plain kept.new.items)
        (read_node number types.IdentifierReference identifier_reference_fields span (row_data row.now) (entries R.plain kept.old.items)) }
{
    let _ = kept;
    let name = match needed_text(alloc, number, 2, row, "name") {
        Ok(name) => name,
        Err(fault) => return Err(fault),
    };
    let reference = match optional_number(number, 3, row, "reference") {
        Ok(reference) => reference,
        Err(fault) => return Err(fault),
    };
    let node = IdentifierReference {
        span,
        name,
        reference,
    };
    match boxed(alloc, node) {
        Ok(node) => Ok(row_of_identifier_reference::<N, R>(node)),
        Err(fault) => Err(fault),
    }
}

#[tactic(auto, unfolding(jsgen_fields::specs::Reads::read_node))]
fn read_this_expression<N: HasType + Drop, R: RowOf<N> + Drop>(
    alloc: Global,
    kept: &mut Vec<Kept<R>>,
    number: usize,
    span: Span,
    row: &GivenRow<'_>,
) -> Result<R, InputFault>
    ensures { Gives R.plain result (entries R.plain kept.new.items)
        (read_node number types.ThisExpression this_expression_fields span (row_data row.now) (entries R.plain kept.old.items)) }
{
    let _ = kept;
    let _ = number;
    let _ = row;
    let node = ThisExpression { span };
    match boxed(alloc, node) {
        Ok(node) => row_of_expression::<N, R>(
            alloc,
            OtherExpression {
                expression: Expression::ThisExpression(node),
            },
        ),
        Err(fault) => Err(fault),
    }
}

#[tactic(auto, unfolding(jsgen_fields::specs::Reads::read_node))]
fn read_null_literal<N: HasType + Drop, R: RowOf<N> + Drop>(
    alloc: Global,
    kept: &mut Vec<Kept<R>>,
    number: usize,
    span: Span,
    row: &GivenRow<'_>,
) -> Result<R, InputFault>
    ensures { Gives R.plain result (entries R.plain kept.new.items)
        (read_node number types.NullLiteral null_literal_fields span (row_data row.now) (entries R.plain kept.old.items)) }
{
    let _ = kept;
    let _ = number;
    let _ = row;
    let node = NullLiteral { span };
    match boxed(alloc, node) {
        Ok(node) => row_of_expression::<N, R>(
            alloc,
            OtherExpression {
                expression: Expression::NullLiteral(node),
            },
        ),
        Err(fault) => Err(fault),
    }
}

#[tactic(auto, unfolding(jsgen_fields::specs::Reads::read_node))]
fn read_boolean_literal<N: HasType + Drop, R: RowOf<N> + Drop>(
    alloc: Global,
    kept: &mut Vec<Kept<R>>,
    number: usize,
    span: Span,
    row: &GivenRow<'_>,
) -> Result<R, InputFault>
    ensures { Gives R.plain result (entries R.plain kept.new.items)
        (read_node number types.BooleanLiteral boolean_literal_fields span (row_data row.now) (entries R.plain kept.old.items)) }
{
    let _ = kept;
    let value = match needed_flag(number, 2, row, "value") {
        Ok(value) => value,
        Err(fault) => return Err(fault),
    };
    let node = BooleanLiteral { span, value };
    match boxed(alloc, node) {
        Ok(node) => row_of_expression::<N, R>(
            alloc,
            OtherExpression {
                expression: Expression::BooleanLiteral(node),
            },
        ),
        Err(fault) => Err(fault),
    }
}

#[tactic(auto, unfolding(jsgen_fields::specs::Reads::read_node))]
fn read_big_int_literal<N: HasType + Drop, R: RowOf<N> + Drop>(
    alloc: Global,
    kept: &mut Vec<Kept<R>>,
    number: usize,
    span: Span,
    row: &GivenRow<'_>,
) -> Result<R, InputFault>
    ensures { Gives R.plain result (entries R.plain kept.new.items)
        (read_node number types.BigIntLiteral big_int_literal_fields span (row_data row.now) (entries R.plain kept.old.items)) }
{
    let _ = kept;
    let value = match needed_text(alloc, number, 2, row, "value") {
        Ok(value) => value,
        Err(fault) => return Err(fault),
    };
    let node = BigIntLiteral { span, value };
    match boxed(alloc, node) {
        Ok(node) => row_of_expression::<N, R>(
            alloc,
            OtherExpression {
                expression: Expression::BigIntLiteral(node),
            },
        ),
        Err(fault) => Err(fault),
    }
}

#[tactic(auto, unfolding(jsgen_fields::specs::Reads::read_node))]
fn read_string_literal<N: HasType + Drop, R: RowOf<N> + Drop>(
    alloc: Global,
    kept: &mut Vec<Kept<R>>,
    number: usize,
    span: Span,
    row: &GivenRow<'_>,
) -> Result<R, InputFault>
    ensures { Gives R.plain result (entries R.plain kept.new.items)
        (read_node number types.StringLiteral string_literal_fields span (row_data row.now) (entries R.plain kept.old.items)) }
{
    let _ = kept;
    let value = match needed_units(alloc, number, 2, row, "value") {
        Ok(value) => value,
        Err(fault) => return Err(fault),
    };
    let node = StringLiteral { span, value };
    match boxed(alloc, node) {
        Ok(node) => row_of_expression::<N, R>(
            alloc,
            OtherExpression {
                expression: Expression::StringLiteral(node),
            },
        ),
        Err(fault) => Err(fault),
    }
}

#[tactic(auto, unfolding(jsgen_fields::specs::Reads::read_node))]
fn read_reg_exp_literal<N: HasType + Drop, R: RowOf<N> + Drop>(
    alloc: Global,
    kept: &mut Vec<Kept<R>>,
    number: usize,
    span: Span,
    row: &GivenRow<'_>,
) -> Result<R, InputFault>
    ensures { Gives R.plain result (entries R.plain kept.new.items)
        (read_node number types.RegExpLiteral reg_exp_literal_fields span (row_data row.now) (entries R.plain kept.old.items)) }
{
    let _ = kept;
    let pattern = match needed_text(alloc, number, 2, row, "pattern") {
        Ok(pattern) => pattern,
        Err(fault) => return Err(fault),
    };
    let flags = match needed_text(alloc, number, 3, row, "flags") {
        Ok(flags) => flags,
        Err(fault) => return Err(fault),
    };
    let node = RegExpLiteral {
        span,
        pattern,
        flags,
    };
    match boxed(alloc, node) {
        Ok(node) => row_of_expression::<N, R>(
            alloc,
            OtherExpression {
                expression: Expression::RegExpLiteral(node),
            },
        ),
        Err(fault) => Err(fault),
    }
}

#[tactic(auto, unfolding(jsgen_fields::specs::Reads::read_node))]
fn read_parenthesized_expression<N: HoldsExpression + Drop, R: RowOf<N> + Drop>(
    alloc: Global,
    kept: &mut Vec<Kept<R>>,
    number: usize,
    span: Span,
    row: &GivenRow<'_>,
) -> Result<R, InputFault>
    ensures { Gives R.plain result (entries R.plain kept.new.items)
        (read_node number types.ParenthesizedExpression parenthesized_expression_fields span (row_data row.now) (entries R.plain kept.old.items)) }
{
    let expression = match needed_expression::<N, R>(alloc, kept, number, 2, row, "expression") {
        Ok(expression) => expression,
        Err(fault) => return Err(fault),
    };
    let node = ParenthesizedExpression { span, expression };
    match boxed(alloc, node) {
        Ok(node) => row_of_expression::<N, R>(
            alloc,
            OtherExpression {
                expression: Expression::ParenthesizedExpression(node),
            },
        ),
        Err(fault) => Err(fault),
    }
}

#[tactic(auto, unfolding(jsgen_fields::specs::Reads::read_node))]
fn read_binary_expression<N: HoldsExpression + Drop, R: RowOf<N> + Drop>(
    alloc: Global,
    kept: &mut Vec<Kept<R>>,
    number: usize,
    span: Span,
    row: &GivenRow<'_>,
) -> Result<R, InputFault>
    ensures { Gives R.plain result (entries R.plain kept.new.items)
        (read_node number types.BinaryExpression binary_expression_fields span (row_data row.now) (entries R.plain kept.old.items)) }
{
    let operator = match needed_binary_operator(number, 2, row, "operator") {
        Ok(operator) => operator,
        Err(fault) => return Err(fault),
    };
    let left = match needed_expression::<N, R>(alloc, kept, number, 3, row, "left") {
        Ok(left) => left,
        Err(fault) => return Err(fault),
    };
    let right = match needed_expression::<N, R>(alloc, kept, number, 4, row, "right") {
        Ok(right) => right,
        Err(fault) => return Err(fault),
    };
    let node = BinaryExpression {
        span,
        operator,
        left,
        right,
    };
    match boxed(alloc, node) {
        Ok(node) => row_of_expression::<N, R>(
            alloc,
            OtherExpression {
                expression: Expression::BinaryExpression(node),
            },
        ),
        Err(fault) => Err(fault),
    }
}

#[tactic(auto, unfolding(jsgen_fields::specs::Reads::read_node))]
fn read_logical_expression<N: HoldsExpression + Drop, R: RowOf<N> + Drop>(
    alloc: Global,
    kept: &mut Vec<Kept<R>>,
    number: usize,
    span: Span,
    row: &GivenRow<'_>,
) -> Result<R, InputFault>
    ensures { Gives R.plain result (entries R.plain kept.new.items)
        (read_node number types.LogicalExpression logical_expression_fields span (row_data row.now) (entries R.plain kept.old.items)) }
{
    let operator = match needed_logical_operator(number, 2, row, "operator") {
        Ok(operator) => operator,
        Err(fault) => return Err(fault),
    };
    let left = match needed_expression::<N, R>(alloc, kept, number, 3, row, "left") {
        Ok(left) => left,
        Err(fault) => return Err(fault),
    };
    let right = match needed_expression::<N, R>(alloc, kept, number, 4, row, "right") {
        Ok(right) => right,
        Err(fault) => return Err(fault),
    };
    let node = LogicalExpression {
        span,
        operator,
        left,
        right,
    };
    match boxed(alloc, node) {
        Ok(node) => row_of_expression::<N, R>(
            alloc,
            OtherExpression {
                expression: Expression::LogicalExpression(node),
            },
        ),
        Err(fault) => Err(fault),
    }
}

#[tactic(auto, unfolding(jsgen_fields::specs::Reads::read_node))]
fn read_identifier_name<N: HasType + Drop, R: RowOf<N> + Drop>(
    alloc: Global,
    kept: &mut Vec<Kept<R>>,
    number: usize,
    span: Span,
    row: &GivenRow<'_>,
) -> Result<R, InputFault>
    ensures { Gives R.plain result (entries R.plain kept.new.items)
        (read_node number types.IdentifierName identifier_name_fields span (row_data row.now) (entries R.plain kept.old.items)) }
{
    let _ = kept;
    let name = match needed_text(alloc, number, 2, row, "name") {
        Ok(name) => name,
        Err(fault) => return Err(fault),
    };
    let node = IdentifierName { span, name };
    match boxed(alloc, node) {
        Ok(node) => Ok(row_of_identifier_name::<N, R>(node)),
        Err(fault) => Err(fault),
    }
}

#[tactic(auto, unfolding(jsgen_fields::specs::Reads::read_node))]
fn read_static_member_expression<N: HoldsExpression + Drop, R: RowOf<N> + Drop>(
    alloc: Global,
    kept: &mut Vec<Kept<R>>,
    number: usize,
    span: Span,
    row: &GivenRow<'_>,
) -> Result<R, InputFault>
    ensures { Gives R.plain result (entries R.plain kept.new.items)
        (read_node number types.StaticMemberExpression static_member_expression_fields span (row_data row.now) (entries R.plain kept.old.items)) }
{
    let object = match needed_expression::<N, R>(alloc, kept, number, 2, row, "object") {
        Ok(object) => object,
        Err(fault) => return Err(fault),
    };
    let optional = match optional_flag(number, 3, row, "optional") {
        Ok(optional) => optional,
        Err(fault) => return Err(fault),
    };
    let property = match needed_identifier_name::<N, R>(alloc, kept, number, 4, row, "property") {
        Ok(property) => property,
        Err(fault) => return Err(fault),
    };
    let node = StaticMemberExpression {
        span,
        object,
        optional,
        property,
    };
    match boxed(alloc, node) {
        Ok(node) => Ok(row_of_static_member_expression::<N, R>(node)),
        Err(fault) => Err(fault),
    }
}

#[tactic(auto, unfolding(jsgen_fields::specs::Reads::read_node))]
fn read_computed_member_expression<N: HoldsExpression + Drop, R: RowOf<N> + Drop>(
    alloc: Global,
    kept: &mut Vec<Kept<R>>,
    number: usize,
    span: Span,
    row: &GivenRow<'_>,
) -> Result<R, InputFault>
    ensures { Gives R.plain result (entries R.plain kept.new.items)
        (read_node number types.ComputedMemberExpression computed_member_expression_fields span (row_data row.now) (entries R.plain kept.old.items)) }
{
    let object = match needed_expression::<N, R>(alloc, kept, number, 2, row, "object") {
        Ok(object) => object,
        Err(fault) => return Err(fault),
    };
    let optional = match optional_flag(number, 3, row, "optional") {
        Ok(optional) => optional,
        Err(fault) => return Err(fault),
    };
    let expression = match needed_expression::<N, R>(alloc, kept, number, 4, row, "expression") {
        Ok(expression) => expression,
        Err(fault) => return Err(fault),
    };
    let node = ComputedMemberExpression {
        span,
        object,
        optional,
        expression,
    };
    match boxed(alloc, node) {
        Ok(node) => Ok(row_of_computed_member_expression::<N, R>(node)),
        Err(fault) => Err(fault),
    }
}

#[tactic(auto, unfolding(jsgen_fields::specs::Reads::read_node))]
fn read_call_expression<N: HoldsExpression + Drop, R: RowOf<N> + Drop>(
    alloc: Global,
    kept: &mut Vec<Kept<R>>,
    number: usize,
    span: Span,
    row: &GivenRow<'_>,
) -> Result<R, InputFault>
    ensures { Gives R.plain result (entries R.plain kept.new.items)
        (read_node number types.CallExpression call_expression_fields span (row_data row.now) (entries R.plain kept.old.items)) }
{
    let callee = match needed_expression::<N, R>(alloc, kept, number, 2, row, "callee") {
        Ok(callee) => callee,
        Err(fault) => return Err(fault),
    };
    match field_not_given(number, 3, row, "type_arguments") {
        Ok(()) => {}
        Err(fault) => return Err(fault),
    }
    let arguments = match argument_list::<N, R>(alloc, kept, number, 4, row, "arguments") {
        Ok(arguments) => arguments,
        Err(fault) => return Err(fault),
    };
    let optional = match optional_flag(number, 5, row, "optional") {
        Ok(optional) => optional,
        Err(fault) => return Err(fault),
    };
    let pure = match optional_flag(number, 6, row, "pure") {
        Ok(pure) => pure,
        Err(fault) => return Err(fault),
    };
    let node = CallExpression {
        span,
        callee,
        arguments,
        optional,
        pure,
    };
    match boxed(alloc, node) {
        Ok(node) => row_of_expression::<N, R>(
            alloc,
            OtherExpression {
                expression: Expression::CallExpression(node),
            },
        ),
        Err(fault) => Err(fault),
    }
}

#[tactic(auto, unfolding(jsgen_fields::specs::Reads::read_node))]
fn read_chain_expression<N: HasType + Drop, R: RowOf<N> + Drop>(
    alloc: Global,
    kept: &mut Vec<Kept<R>>,
    number: usize,
    span: Span,
    row: &GivenRow<'_>,
) -> Result<R, InputFault>
    ensures { Gives R.plain result (entries R.plain kept.new.items)
        (read_node number types.ChainExpression chain_expression_fields span (row_data row.now) (entries R.plain kept.old.items)) }
{
    let expression = match needed_chain_element::<N, R>(alloc, kept, number, 2, row, "expression") {
        Ok(expression) => expression,
        Err(fault) => return Err(fault),
    };
    let node = ChainExpression { span, expression };
    match boxed(alloc, node) {
        Ok(node) => row_of_expression::<N, R>(
            alloc,
            OtherExpression {
                expression: Expression::ChainExpression(node),
            },
        ),
        Err(fault) => Err(fault),
    }
}

/// The row of a type of this part.
pub fn read_in_expressions<N: ReadNode + Drop, R: RowOf<N> + Drop>(
    alloc: Global,
    kept: &mut Vec<Kept<R>>,
    node_type: NodeType,
    number: usize,
    span: Span,
    row: &GivenRow<'_>,
) -> Result<R, InputFault>
    requires { is_in_expressions node_type ≡ true }
    ensures { Gives R.plain result (entries R.plain kept.new.items)
        (read_typed number node_type span (row_data row.now) (entries R.plain kept.old.items)) }
{
    match node_type {
        NodeType::IdentifierReference => read_identifier_reference::<N, R>(
            alloc, kept, number, span, row,
        ),
        NodeType::ThisExpression => read_this_expression::<N, R>(alloc, kept, number, span, row),
        NodeType::NullLiteral => read_null_literal::<N, R>(alloc, kept, number, span, row),
        NodeType::BooleanLiteral => read_boolean_literal::<N, R>(alloc, kept, number, span, row),
        NodeType::NumericLiteral => read_numeric_literal::<N, R>(alloc, kept, number, span, row),
        NodeType::BigIntLiteral => read_big_int_literal::<N, R>(alloc, kept, number, span, row),
        NodeType::StringLiteral => read_string_literal::<N, R>(alloc, kept, number, span, row),
        NodeType::RegExpLiteral => read_reg_exp_literal::<N, R>(alloc, kept, number, span, row),
        NodeType::ParenthesizedExpression => read_parenthesized_expression::<N, R>(
            alloc, kept, number, span, row,
        ),
        NodeType::BinaryExpression => read_binary_expression::<N, R>(
            alloc, kept, number, span, row,
        ),
        NodeType::LogicalExpression => read_logical_expression::<N, R>(
            alloc, kept, number, span, row,
        ),
        NodeType::IdentifierName => read_identifier_name::<N, R>(alloc, kept, number, span, row),
        NodeType::StaticMemberExpression => read_static_member_expression::<N, R>(
            alloc, kept, number, span, row,
        ),
        NodeType::ComputedMemberExpression => read_computed_member_expression::<N, R>(
            alloc, kept, number, span, row,
        ),
        NodeType::CallExpression => read_call_expression::<N, R>(alloc, kept, number, span, row),
        NodeType::ChainExpression => read_chain_expression::<N, R>(alloc, kept, number, span, row),
        _ => unreachable!(),
    }
}
