// Generated from tools/nodes/table.txt; edit that and run tools/nodes/generate.
// Rows of a job: conditional expressions, sequences and assignments (ECMA-262, 13.14 to 13.16).
ghost use Rattle.std.specs.Prelude.{◌≡◌, true};
ghost use Rattle.jsgen_fields.specs.Given.{row_data};
ghost use Rattle.jsgen_tree.specs.RowFields.{conditional_expression_fields, sequence_expression_fields, assignment_expression_fields};
ghost use Rattle.jsgen_fields.specs.Reads.{Gives, read_node, read_typed};
ghost use Rattle.jsgen_pool.specs.Pool.{entries};
ghost use Rattle.jsgen_fields.specs.Parts.{is_in_assignments};
ghost use Rattle.jsgen_tree.specs.declared.types.NodeType.TheVariants as types;

use jsgen_fields::InputFault;
use jsgen_fields::fields::boxed;
use jsgen_fields::given::GivenRow;
use jsgen_fields::list_fields::expression_list;
use jsgen_fields::set_fields::{needed_assignment_target, needed_expression};
use jsgen_fields::set_rows::row_of_expression;
use jsgen_fields::words::needed_assignment_operator;
use jsgen_kept::asked::{HoldsAssignmentTarget, HoldsExpression, ReadNode, RowOf};
use jsgen_kept::others::OtherExpression;
use jsgen_pool::Kept;
use jsgen_syntax::Span;
use jsgen_tree::{
    AssignmentExpression, ConditionalExpression, Expression, NodeType, SequenceExpression,
};
use std::alloc::Global;

#[tactic(auto, unfolding(jsgen_fields::specs::Reads::read_node))]
fn read_conditional_expression<N: HoldsExpression + Drop, R: RowOf<N> + Drop>(
    alloc: Global,
    kept: &mut Vec<Kept<R>>,
    number: usize,
    span: Span,
    row: &GivenRow<'_>,
) -> Result<R, InputFault>
    ensures { Gives R.plain result (entries R.plain kept.new.items)
        (read_node number types.ConditionalExpression conditional_expression_fields span (row_data row.now) (entries R.plain kept.old.items)) }
{
    let test = match needed_expression::<N, R>(alloc, kept, number, 2, row, "test") {
        Ok(test) => test,
        Err(fault) => return Err(fault),
    };
    let consequent = match needed_expression::<N, R>(alloc, kept, number, 3, row, "consequent") {
        Ok(consequent) => consequent,
        Err(fault) => return Err(fault),
    };
    let alternate = match needed_expression::<N, R>(alloc, kept, number, 4, row, "alternate") {
        Ok(alternate) => alternate,
        Err(fault) => return Err(fault),
    };
    let node = ConditionalExpression {
        span,
        test,
        consequent,
        alternate,
    };
    match boxed(alloc, node) {
        Ok(node) => row_of_expression::<N, R>(
            alloc,
            OtherExpression {
                expression: Expression::ConditionalExpression(node),
            },
        ),
        Err(fault) => Err(fault),
    }
}

#[tactic(auto, unfolding(jsgen_fields::specs::Reads::read_node))]
fn read_sequence_expression<N: HoldsExpression + Drop, R: RowOf<N> + Drop>(
    alloc: Global,
    kept: &mut Vec<Kept<R>>,
    number: usize,
    span: Span,
    row: &GivenRow<'_>,
) -> Result<R, InputFault>
    ensures { Gives R.plain result (entries R.plain kept.new.items)
        (read_node number types.SequenceExpression sequence_expression_fields span (row_data row.now) (entries R.plain kept.old.items)) }
{
    let expressions = match expression_list::<N, R>(alloc, kept, number, 2, row, "expressions") {
        Ok(expressions) => expressions,
        Err(fault) => return Err(fault),
    };
    let node = SequenceExpression { span, expressions };
    match boxed(alloc, node) {
        Ok(node) => row_of_expression::<N, R>(
            alloc,
            OtherExpression {
                expression: Expression::SequenceExpression(node),
            },
        ),
        Err(fault) => Err(fault),
    }
}

#[tactic(auto, unfolding(jsgen_fields::specs::Reads::read_node))]
fn read_assignment_expression<
    N: HoldsExpression + HoldsAssignmentTarget + Drop,
    R: RowOf<N> + Drop,
>(
    alloc: Global,
    kept: &mut Vec<Kept<R>>,
    number: usize,
    span: Span,
    row: &GivenRow<'_>,
) -> Result<R, InputFault>
    ensures { Gives R.plain result (entries R.plain kept.new.items)
        (read_node number types.AssignmentExpression assignment_expression_fields span (row_data row.now) (entries R.plain kept.old.items)) }
{
    let operator = match needed_assignment_operator(number, 2, row, "operator") {
        Ok(operator) => operator,
        Err(fault) => return Err(fault),
    };
    let left = match needed_assignment_target::<N, R>(alloc, kept, number, 3, row, "left") {
        Ok(left) => left,
        Err(fault) => return Err(fault),
    };
    let right = match needed_expression::<N, R>(alloc, kept, number, 4, row, "right") {
        Ok(right) => right,
        Err(fault) => return Err(fault),
    };
    let node = AssignmentExpression {
        span,
        operator,
        left,
        right,
    };
    match boxed(alloc, node) {
        Ok(node) => row_of_expression::<N, R>(
            alloc,
            OtherExpression {
                expression: Expression::AssignmentExpression(node),
            },
        ),
        Err(fault) => Err(fault),
    }
}

/// The row of a type of this part.
pub fn read_in_assignments<N: ReadNode + Drop, R: RowOf<N> + Drop>(
    alloc: Global,
    kept: &mut Vec<Kept<R>>,
    node_type: NodeType,
    number: usize,
    span: Span,
    row: &GivenRow<'_>,
) -> Result<R, InputFault>
    requires { is_in_assignments node_type ≡ true }
    ensures { Gives R.plain result (entries R.plain kept.new.items)
        (read_typed number node_type span (row_data row.now) (entries R.plain kept.old.items)) }
{
    match node_type {
        NodeType::ConditionalExpression => read_conditional_expression::<N, R>(
            alloc, kept, number, span, row,
        ),
        NodeType::SequenceExpression => read_sequence_expression::<N, R>(
            alloc, kept, number, span, row,
        ),
        NodeType::AssignmentExpression => read_assignment_expression::<N, R>(
            alloc, kept, number, span, row,
        ),
        _ => unreachable!(),
    }
}
