// Generated from tools/nodes/table.txt; edit that and run tools/nodes/generate.
// Rows of a job: loops, labels and jumps (ECMA-262, 14.7 to 14.10, 14.13, 14.14 and 14.16).
ghost use Rattle.std.specs.Prelude.{◌≡◌, true};
ghost use Rattle.jsgen_fields.specs.Given.{row_data};
ghost use Rattle.jsgen_tree.specs.RowFields.{for_statement_fields, for_in_statement_fields, for_of_statement_fields, while_statement_fields, do_while_statement_fields, label_identifier_fields, labeled_statement_fields, continue_statement_fields, break_statement_fields, return_statement_fields, throw_statement_fields, debugger_statement_fields};
ghost use Rattle.jsgen_fields.specs.Reads.{Gives, read_node, read_typed};
ghost use Rattle.jsgen_pool.specs.Pool.{entries};
ghost use Rattle.jsgen_fields.specs.Parts.{is_in_loops};
ghost use Rattle.jsgen_tree.specs.declared.types.NodeType.TheVariants as types;

use jsgen_fields::InputFault;
use jsgen_fields::fields::boxed;
use jsgen_fields::given::GivenRow;
use jsgen_fields::set_fields::{
    needed_expression, needed_for_statement_left, needed_label_identifier, needed_statement,
    optional_expression, optional_for_statement_init, optional_label_identifier,
};
use jsgen_fields::set_rows::row_of_statement;
use jsgen_fields::values::{needed_text, optional_flag};
use jsgen_kept::asked::{
    HoldsAssignmentTarget, HoldsDeclaration, HoldsExpression, HoldsStatement, ReadNode, RowOf,
};
use jsgen_kept::kept::row_of_label_identifier;
use jsgen_kept::others::OtherStatement;
use jsgen_pool::Kept;
use jsgen_syntax::Span;
use jsgen_tree::{
    BreakStatement, ContinueStatement, DebuggerStatement, DoWhileStatement, ForInStatement,
    ForOfStatement, ForStatement, HasType, LabelIdentifier, LabeledStatement, NodeType,
    ReturnStatement, Statement, ThrowStatement, WhileStatement,
};
use std::alloc::Global;

#[tactic(auto, unfolding(jsgen_fields::specs::Reads::read_node))]
fn read_for_statement<
    N: HoldsExpression + HoldsDeclaration + HoldsStatement + Drop,
    R: RowOf<N> + Drop,
>(
    alloc: Global,
    kept: &mut Vec<Kept<R>>,
    number: usize,
    span: Span,
    row: &GivenRow<'_>,
) -> Result<R, InputFault>
    ensures { Gives R.plain result (entries R.plain kept.new.items)
        (read_node number types.ForStatement for_statement_fields span (row_data row.now) (entries R.plain kept.old.items)) }
{
    let init = match optional_for_statement_init::<N, R>(alloc, kept, number, 2, row, "init") {
        Ok(init) => init,
        Err(fault) => return Err(fault),
    };
    let test = match optional_expression::<N, R>(alloc, kept, number, 3, row, "test") {
        Ok(test) => test,
        Err(fault) => return Err(fault),
    };
    let update = match optional_expression::<N, R>(alloc, kept, number, 4, row, "update") {
        Ok(update) => update,
        Err(fault) => return Err(fault),
    };
    let body = match needed_statement::<N, R>(alloc, kept, number, 5, row, "body") {
        Ok(body) => body,
        Err(fault) => return Err(fault),
    };
    let node = ForStatement {
        span,
        init,
        test,
        update,
        body,
    };
    match boxed(alloc, node) {
        Ok(node) => row_of_statement::<N, R>(
            alloc,
            OtherStatement {
                statement: Statement::ForStatement(node),
            },
        ),
        Err(fault) => Err(fault),
    }
}

#[tactic(auto, unfolding(jsgen_fields::specs::Reads::read_node))]
fn read_for_in_statement<
    N: HoldsExpression + HoldsAssignmentTarget + HoldsDeclaration + HoldsStatement + Drop,
    R: RowOf<N> + Drop,
>(
    alloc: Global,
    kept: &mut Vec<Kept<R>>,
    number: usize,
    span: Span,
    row: &GivenRow<'_>,
) -> Result<R, InputFault>
    ensures { Gives R.plain result (entries R.plain kept.new.items)
        (read_node number types.ForInStatement for_in_statement_fields span (row_data row.now) (entries R.plain kept.old.items)) }
{
    let left = match needed_for_statement_left::<N, R>(alloc, kept, number, 2, row, "left") {
        Ok(left) => left,
        Err(fault) => return Err(fault),
    };
    let right = match needed_expression::<N, R>(alloc, kept, number, 3, row, "right") {
        Ok(right) => right,
        Err(fault) => return Err(fault),
    };
    let body = match needed_statement::<N, R>(alloc, kept, number, 4, row, "body") {
        Ok(body) => body,
        Err(fault) => return Err(fault),
    };
    let node = ForInStatement {
        span,
        left,
        right,
        body,
    };
    match boxed(alloc, node) {
        Ok(node) => row_of_statement::<N, R>(
            alloc,
            OtherStatement {
                statement: Statement::ForInStatement(node),
            },
        ),
        Err(fault) => Err(fault),
    }
}

#[tactic(auto, unfolding(jsgen_fields::specs::Reads::read_node))]
fn read_for_of_statement<
    N: HoldsExpression + HoldsAssignmentTarget + HoldsDeclaration + HoldsStatement + Drop,
    R: RowOf<N> + Drop,
>(
    alloc: Global,
    kept: &mut Vec<Kept<R>>,
    number: usize,
    span: Span,
    row: &GivenRow<'_>,
) -> Result<R, InputFault>
    ensures { Gives R.plain result (entries R.plain kept.new.items)
        (read_node number types.ForOfStatement for_of_statement_fields span (row_data row.now) (entries R.plain kept.old.items)) }
{
    let is_await = match optional_flag(number, 2, row, "is_await") {
        Ok(is_await) => is_await,
        Err(fault) => return Err(fault),
    };
    let left = match needed_for_statement_left::<N, R>(alloc, kept, number, 3, row, "left") {
        Ok(left) => left,
        Err(fault) => return Err(fault),
    };
    let right = match needed_expression::<N, R>(alloc, kept, number, 4, row, "right") {
        Ok(right) => right,
        Err(fault) => return Err(fault),
    };
    let body = match needed_statement::<N, R>(alloc, kept, number, 5, row, "body") {
        Ok(body) => body,
        Err(fault) => return Err(fault),
    };
    let node = ForOfStatement {
        span,
        is_await,
        left,
        right,
        body,
    };
    match boxed(alloc, node) {
        Ok(node) => row_of_statement::<N, R>(
            alloc,
            OtherStatement {
                statement: Statement::ForOfStatement(node),
            },
        ),
        Err(fault) => Err(fault),
    }
}

#[tactic(auto, unfolding(jsgen_fields::specs::Reads::read_node))]
fn read_while_statement<
    N: HoldsExpression + HoldsDeclaration + HoldsStatement + Drop,
    R: RowOf<N> + Drop,
>(
    alloc: Global,
    kept: &mut Vec<Kept<R>>,
    number: usize,
    span: Span,
    row: &GivenRow<'_>,
) -> Result<R, InputFault>
    ensures { Gives R.plain result (entries R.plain kept.new.items)
        (read_node number types.WhileStatement while_statement_fields span (row_data row.now) (entries R.plain kept.old.items)) }
{
    let test = match needed_expression::<N, R>(alloc, kept, number, 2, row, "test") {
        Ok(test) => test,
        Err(fault) => return Err(fault),
    };
    let body = match needed_statement::<N, R>(alloc, kept, number, 3, row, "body") {
        Ok(body) => body,
        Err(fault) => return Err(fault),
    };
    let node = WhileStatement { span, test, body };
    match boxed(alloc, node) {
        Ok(node) => row_of_statement::<N, R>(
            alloc,
            OtherStatement {
                statement: Statement::WhileStatement(node),
            },
        ),
        Err(fault) => Err(fault),
    }
}

#[tactic(auto, unfolding(jsgen_fields::specs::Reads::read_node))]
fn read_do_while_statement<
    N: HoldsExpression + HoldsDeclaration + HoldsStatement + Drop,
    R: RowOf<N> + Drop,
>(
    alloc: Global,
    kept: &mut Vec<Kept<R>>,
    number: usize,
    span: Span,
    row: &GivenRow<'_>,
) -> Result<R, InputFault>
    ensures { Gives R.plain result (entries R.plain kept.new.items)
        (read_node number types.DoWhileStatement do_while_statement_fields span (row_data row.now) (entries R.plain kept.old.items)) }
{
    let body = match needed_statement::<N, R>(alloc, kept, number, 2, row, "body") {
        Ok(body) => body,
        Err(fault) => return Err(fault),
    };
    let test = match needed_expression::<N, R>(alloc, kept, number, 3, row, "test") {
        Ok(test) => test,
        Err(fault) => return Err(fault),
    };
    let node = DoWhileStatement { span, body, test };
    match boxed(alloc, node) {
        Ok(node) => row_of_statement::<N, R>(
            alloc,
            OtherStatement {
                statement: Statement::DoWhileStatement(node),
            },
        ),
        Err(fault) => Err(fault),
    }
}

#[tactic(auto, unfolding(jsgen_fields::specs::Reads::read_node))]
fn read_label_identifier<N: HasType + Drop, R: RowOf<N> + Drop>(
    alloc: Global,
    kept: &mut Vec<Kept<R>>,
    number: usize,
    span: Span,
    row: &GivenRow<'_>,
) -> Result<R, InputFault>
    ensures { Gives R.plain result (entries R.plain kept.new.items)
        (read_node number types.LabelIdentifier label_identifier_fields span (row_data row.now) (entries R.plain kept.old.items)) }
{
    let _ = kept;
    let name = match needed_text(alloc, number, 2, row, "name") {
        Ok(name) => name,
        Err(fault) => return Err(fault),
    };
    let node = LabelIdentifier { span, name };
    match boxed(alloc, node) {
        Ok(node) => Ok(row_of_label_identifier::<N, R>(node)),
        Err(fault) => Err(fault),
    }
}

#[tactic(auto, unfolding(jsgen_fields::specs::Reads::read_node))]
fn read_labeled_statement<N: HoldsDeclaration + HoldsStatement + Drop, R: RowOf<N> + Drop>(
    alloc: Global,
    kept: &mut Vec<Kept<R>>,
    number: usize,
    span: Span,
    row: &GivenRow<'_>,
) -> Result<R, InputFault>
    ensures { Gives R.plain result (entries R.plain kept.new.items)
        (read_node number types.LabeledStatement labeled_statement_fields span (row_data row.now) (entries R.plain kept.old.items)) }
{
    let label = match needed_label_identifier::<N, R>(alloc, kept, number, 2, row, "label") {
        Ok(label) => label,
        Err(fault) => return Err(fault),
    };
    let body = match needed_statement::<N, R>(alloc, kept, number, 3, row, "body") {
        Ok(body) => body,
        Err(fault) => return Err(fault),
    };
    let node = LabeledStatement { span, label, body };
    match boxed(alloc, node) {
        Ok(node) => row_of_statement::<N, R>(
            alloc,
            OtherStatement {
                statement: Statement::LabeledStatement(node),
            },
        ),
        Err(fault) => Err(fault),
    }
}

#[tactic(auto, unfolding(jsgen_fields::specs::Reads::read_node))]
fn read_continue_statement<N: HasType + Drop, R: RowOf<N> + Drop>(
    alloc: Global,
    kept: &mut Vec<Kept<R>>,
    number: usize,
    span: Span,
    row: &GivenRow<'_>,
) -> Result<R, InputFault>
    ensures { Gives R.plain result (entries R.plain kept.new.items)
        (read_node number types.ContinueStatement continue_statement_fields span (row_data row.now) (entries R.plain kept.old.items)) }
{
    let label = match optional_label_identifier::<N, R>(alloc, kept, number, 2, row, "label") {
        Ok(label) => label,
        Err(fault) => return Err(fault),
    };
    let node = ContinueStatement { span, label };
    match boxed(alloc, node) {
        Ok(node) => row_of_statement::<N, R>(
            alloc,
            OtherStatement {
                statement: Statement::ContinueStatement(node),
            },
        ),
        Err(fault) => Err(fault),
    }
}

#[tactic(auto, unfolding(jsgen_fields::specs::Reads::read_node))]
fn read_break_statement<N: HasType + Drop, R: RowOf<N> + Drop>(
    alloc: Global,
    kept: &mut Vec<Kept<R>>,
    number: usize,
    span: Span,
    row: &GivenRow<'_>,
) -> Result<R, InputFault>
    ensures { Gives R.plain result (entries R.plain kept.new.items)
        (read_node number types.BreakStatement break_statement_fields span (row_data row.now) (entries R.plain kept.old.items)) }
{
    let label = match optional_label_identifier::<N, R>(alloc, kept, number, 2, row, "label") {
        Ok(label) => label,
        Err(fault) => return Err(fault),
    };
    let node = BreakStatement { span, label };
    match boxed(alloc, node) {
        Ok(node) => row_of_statement::<N, R>(
            alloc,
            OtherStatement {
                statement: Statement::BreakStatement(node),
            },
        ),
        Err(fault) => Err(fault),
    }
}

#[tactic(auto, unfolding(jsgen_fields::specs::Reads::read_node))]
fn read_return_statement<N: HoldsExpression + Drop, R: RowOf<N> + Drop>(
    alloc: Global,
    kept: &mut Vec<Kept<R>>,
    number: usize,
    span: Span,
    row: &GivenRow<'_>,
) -> Result<R, InputFault>
    ensures { Gives R.plain result (entries R.plain kept.new.items)
        (read_node number types.ReturnStatement return_statement_fields span (row_data row.now) (entries R.plain kept.old.items)) }
{
    let argument = match optional_expression::<N, R>(alloc, kept, number, 2, row, "argument") {
        Ok(argument) => argument,
        Err(fault) => return Err(fault),
    };
    let node = ReturnStatement { span, argument };
    match boxed(alloc, node) {
        Ok(node) => row_of_statement::<N, R>(
            alloc,
            OtherStatement {
                statement: Statement::ReturnStatement(node),
            },
        ),
        Err(fault) => Err(fault),
    }
}

#[tactic(auto, unfolding(jsgen_fields::specs::Reads::read_node))]
fn read_throw_statement<N: HoldsExpression + Drop, R: RowOf<N> + Drop>(
    alloc: Global,
    kept: &mut Vec<Kept<R>>,
    number: usize,
    span: Span,
    row: &GivenRow<'_>,
) -> Result<R, InputFault>
    ensures { Gives R.plain result (entries R.plain kept.new.items)
        (read_node number types.ThrowStatement throw_statement_fields span (row_data row.now) (entries R.plain kept.old.items)) }
{
    let argument = match needed_expression::<N, R>(alloc, kept, number, 2, row, "argument") {
        Ok(argument) => argument,
        Err(fault) => return Err(fault),
    };
    let node = ThrowStatement { span, argument };
    match boxed(alloc, node) {
        Ok(node) => row_of_statement::<N, R>(
            alloc,
            OtherStatement {
                statement: Statement::ThrowStatement(node),
            },
        ),
        Err(fault) => Err(fault),
    }
}

#[tactic(auto, unfolding(jsgen_fields::specs::Reads::read_node))]
fn read_debugger_statement<N: HasType + Drop, R: RowOf<N> + Drop>(
    alloc: Global,
    kept: &mut Vec<Kept<R>>,
    number: usize,
    span: Span,
    row: &GivenRow<'_>,
) -> Result<R, InputFault>
    ensures { Gives R.plain result (entries R.plain kept.new.items)
        (read_node number types.DebuggerStatement debugger_statement_fields span (row_data row.now) (entries R.plain kept.old.items)) }
{
    let _ = kept;
    let _ = number;
    let _ = row;
    let node = DebuggerStatement { span };
    match boxed(alloc, node) {
        Ok(node) => row_of_statement::<N, R>(
            alloc,
            OtherStatement {
                statement: Statement::DebuggerStatement(node),
            },
        ),
        Err(fault) => Err(fault),
    }
}

/// The row of a type of this part.
pub fn read_in_loops<N: ReadNode + Drop, R: RowOf<N> + Drop>(
    alloc: Global,
    kept: &mut Vec<Kept<R>>,
    node_type: NodeType,
    number: usize,
    span: Span,
    row: &GivenRow<'_>,
) -> Result<R, InputFault>
    requires { is_in_loops node_type ≡ true }
    ensures { Gives R.plain result (entries R.plain kept.new.items)
        (read_typed number node_type span (row_data row.now) (entries R.plain kept.old.items)) }
{
    match node_type {
        NodeType::ForStatement => read_for_statement::<N, R>(alloc, kept, number, span, row),
        NodeType::ForInStatement => read_for_in_statement::<N, R>(alloc, kept, number, span, row),
        NodeType::ForOfStatement => read_for_of_statement::<N, R>(alloc, kept, number, span, row),
        NodeType::WhileStatement => read_while_statement::<N, R>(alloc, kept, number, span, row),
        NodeType::DoWhileStatement => read_do_while_statement::<N, R>(
            alloc, kept, number, span, row,
        ),
        NodeType::LabelIdentifier => read_label_identifier::<N, R>(alloc, kept, number, span, row),
        NodeType::LabeledStatement => read_labeled_statement::<N, R>(
            alloc, kept, number, span, row,
        ),
        NodeType::ContinueStatement => read_continue_statement::<N, R>(
            alloc, kept, number, span, row,
        ),
        NodeType::BreakStatement => read_break_statement::<N, R>(alloc, kept, number, span, row),
        NodeType::ReturnStatement => read_return_statement::<N, R>(alloc, kept, number, span, row),
        NodeType::ThrowStatement => read_throw_statement::<N, R>(alloc, kept, number, span, row),
        NodeType::DebuggerStatement => read_debugger_statement::<N, R>(
            alloc, kept, number, span, row,
        ),
        _ => unreachable!(),
    }
}
