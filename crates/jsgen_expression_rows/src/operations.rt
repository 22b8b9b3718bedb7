// Generated from tools/nodes/table.txt; edit that and run tools/nodes/generate.
// Rows of a job: operations of one operand, and `new` (ECMA-262, clause 13).
ghost use Rattle.std.specs.Prelude.{◌≡◌, true};
ghost use Rattle.jsgen_fields.specs.Given.{row_data};
ghost use Rattle.jsgen_tree.specs.RowFields.{unary_expression_fields, new_target_fields, update_expression_fields, new_expression_fields, super_fields, import_meta_fields};
ghost use Rattle.jsgen_fields.specs.Reads.{Gives, read_node, read_typed};
ghost use Rattle.jsgen_pool.specs.Pool.{entries};
ghost use Rattle.jsgen_fields.specs.Parts.{is_in_operations};
ghost use Rattle.jsgen_tree.specs.declared.types.NodeType.TheVariants as types;

use jsgen_fields::InputFault;
use jsgen_fields::fields::boxed;
use jsgen_fields::given::GivenRow;
use jsgen_fields::list_fields::argument_list;
use jsgen_fields::set_fields::{needed_expression, needed_simple_assignment_target};
use jsgen_fields::set_rows::row_of_expression;
use jsgen_fields::values::{field_not_given, optional_flag};
use jsgen_fields::words::{needed_unary_operator, needed_update_operator};
use jsgen_kept::asked::{HoldsExpression, ReadNode, RowOf};
use jsgen_kept::others::OtherExpression;
use jsgen_pool::Kept;
use jsgen_syntax::Span;
use jsgen_tree::{
    Expression, HasType, ImportMeta, NewExpression, NewTarget, NodeType, Super, UnaryExpression,
    UpdateExpression,
};
use std::alloc::Global;

#[tactic(auto, unfolding(jsgen_fields::specs::Reads::read_node))]
fn read_unary_expression<N: HoldsExpression + Drop, R: RowOf<N> + Drop>(
    alloc: Global,
    kept: &mut Vec<Kept<R>>,
    number: usize,
    span: Span,
    row: &GivenRow<'_>,
) -> Result<R, InputFault>
    ensures { Gives R.plain result (entries R.plain kept.new.items)
        (read_node number types.UnaryExpression unary_expression_fields span (row_data row.now) (entries R.plain kept.old.items)) }
{
    let operator = match needed_unary_operator(number, 2, row, "operator") {
        Ok(operator) => operator,
        Err(fault) => return Err(fault),
    };
    let argument = match needed_expression::<N, R>(alloc, kept, number, 3, row, "argument") {
        Ok(argument) => argument,
        Err(fault) => return Err(fault),
    };
    let node = UnaryExpression {
        span,
        operator,
        argument,
    };
    match boxed(alloc, node) {
        Ok(node) => row_of_expression::<N, R>(
            alloc,
            OtherExpression {
                expression: Expression::UnaryExpression(node),
            },
        ),
        Err(fault) => Err(fault),
    }
}

#[tactic(auto, unfolding(jsgen_fields::specs::Reads::read_node))]
fn read_new_target<N: HasType + Drop, R: RowOf<N> + Drop>(
    alloc: Global,
    kept: &mut Vec<Kept<R>>,
    number: usize,
    span: Span,
    row: &GivenRow<'_>,
) -> Result<R, InputFault>
    ensures { Gives R.plain result (entries R.plain kept.new.items)
        (read_node number types.NewTarget new_target_fields span (row_data row.now) (entries R.plain kept.old.items)) }
{
    let _ = kept;
    let _ = number;
    let _ = row;
    let node = NewTarget { span };
    match boxed(alloc, node) {
        Ok(node) => row_of_expression::<N, R>(
            alloc,
            OtherExpression {
                expression: Expression::NewTarget(node),
            },
        ),
        Err(fault) => Err(fault),
    }
}

#[tactic(auto, unfolding(jsgen_fields::specs::Reads::read_node))]
fn read_update_expression<N: HasType + Drop, R: RowOf<N> + Drop>(
    alloc: Global,
    kept: &mut Vec<Kept<R>>,
    number: usize,
    span: Span,
    row: &GivenRow<'_>,
) -> Result<R, InputFault>
    ensures { Gives R.plain result (entries R.plain kept.new.items)
        (read_node number types.UpdateExpression update_expression_fields span (row_data row.now) (entries R.plain kept.old.items)) }
{
    let operator = match needed_update_operator(number, 2, row, "operator") {
        Ok(operator) => operator,
        Err(fault) => return Err(fault),
    };
    let prefix = match optional_flag(number, 3, row, "prefix") {
        Ok(prefix) => prefix,
        Err(fault) => return Err(fault),
    };
    let argument = match needed_simple_assignment_target::<N, R>(
        alloc, kept, number, 4, row, "argument",
    ) {
        Ok(argument) => argument,
        Err(fault) => return Err(fault),
    };
    let node = UpdateExpression {
        span,
        operator,
        prefix,
        argument,
    };
    match boxed(alloc, node) {
        Ok(node) => row_of_expression::<N, R>(
            alloc,
            OtherExpression {
                expression: Expression::UpdateExpression(node),
            },
        ),
        Err(fault) => Err(fault),
    }
}

#[tactic(auto, unfolding(jsgen_fields::specs::Reads::read_node))]
fn read_new_expression<N: HoldsExpression + Drop, R: RowOf<N> + Drop>(
    alloc: Global,
    kept: &mut Vec<Kept<R>>,
    number: usize,
    span: Span,
    row: &GivenRow<'_>,
) -> Result<R, InputFault>
    ensures { Gives R.plain result (entries R.plain kept.new.items)
        (read_node number types.NewExpression new_expression_fields span (row_data row.now) (entries R.plain kept.old.items)) }
{
    let callee = match needed_expression::<N, R>(alloc, kept, number, 2, row, "callee") {
        Ok(callee) => callee,
        Err(fault) => return Err(fault),
    };
    match field_not_given(number, 3, row, "type_arguments") {
        Ok(()) => {}
        Err(fault) => return Err(fault),
    }
    let arguments = match argument_list::<N, R>(alloc, kept, number, 4, row, "arguments") {
        Ok(arguments) => arguments,
        Err(fault) => return Err(fault),
    };
    let pure = match optional_flag(number, 5, row, "pure") {
        Ok(pure) => pure,
        Err(fault) => return Err(fault),
    };
    let node = NewExpression {
        span,
        callee,
        arguments,
        pure,
    };
    match boxed(alloc, node) {
        Ok(node) => row_of_expression::<N, R>(
            alloc,
            OtherExpression {
                expression: Expression::NewExpression(node),
            },
        ),
        Err(fault) => Err(fault),
    }
}

#[tactic(auto, unfolding(jsgen_fields::specs::Reads::read_node))]
fn read_super<N: HasType + Drop, R: RowOf<N> + Drop>(
    alloc: Global,
    kept: &mut Vec<Kept<R>>,
    number: usize,
    span: Span,
    row: &GivenRow<'_>,
) -> Result<R, InputFault>
    ensures { Gives R.plain result (entries R.plain kept.new.items)
        (read_node number types.Super super_fields span (row_data row.now) (entries R.plain kept.old.items)) }
{
    let _ = kept;
    let _ = number;
    let _ = row;
    let node = Super { span };
    match boxed(alloc, node) {
        Ok(node) => row_of_expression::<N, R>(
            alloc,
            OtherExpression {
                expression: Expression::Super(node),
            },
        ),
        Err(fault) => Err(fault),
    }
}

#[tactic(auto, unfolding(jsgen_fields::specs::Reads::read_node))]
fn read_import_meta<N: HasType + Drop, R: RowOf<N> + Drop>(
    alloc: Global,
    kept: &mut Vec<Kept<R>>,
    number: usize,
    span: Span,
    row: &GivenRow<'_>,
) -> Result<R, InputFault>
    ensures { Gives R.plain result (entries R.plain kept.new.items)
        (read_node number types.ImportMeta import_meta_fields span (row_data row.now) (entries R.plain kept.old.items)) }
{
    let _ = kept;
    let _ = number;
    let _ = row;
    let node = ImportMeta { span };
    match boxed(alloc, node) {
        Ok(node) => row_of_expression::<N, R>(
            alloc,
            OtherExpression {
                expression: Expression::ImportMeta(node),
            },
        ),
        Err(fault) => Err(fault),
    }
}

/// The row of a type of this part.
pub fn read_in_operations<N: ReadNode + Drop, R: RowOf<N> + Drop>(
    alloc: Global,
    kept: &mut Vec<Kept<R>>,
    node_type: NodeType,
    number: usize,
    span: Span,
    row: &GivenRow<'_>,
) -> Result<R, InputFault>
    requires { is_in_operations node_type ≡ true }
    ensures { Gives R.plain result (entries R.plain kept.new.items)
        (read_typed number node_type span (row_data row.now) (entries R.plain kept.old.items)) }
{
    match node_type {
        NodeType::UnaryExpression => read_unary_expression::<N, R>(alloc, kept, number, span, row),
        NodeType::NewTarget => read_new_target::<N, R>(alloc, kept, number, span, row),
        NodeType::UpdateExpression => read_update_expression::<N, R>(
            alloc, kept, number, span, row,
        ),
        NodeType::NewExpression => read_new_expression::<N, R>(alloc, kept, number, span, row),
        NodeType::Super => read_super::<N, R>(alloc, kept, number, span, row),
        NodeType::ImportMeta => read_import_meta::<N, R>(alloc, kept, number, span, row),
        _ => unreachable!(),
    }
}
