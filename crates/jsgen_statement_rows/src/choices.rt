// Generated from tools/nodes/table.txt; edit that and run tools/nodes/generate.
// Rows of a job: choices between cases, and handlers (ECMA-262, 14.12 and 14.15).
ghost use Rattle.std.specs.Prelude.{◌≡◌, true};
ghost use Rattle.jsgen_fields.specs.Given.{row_data};
ghost use Rattle.jsgen_tree.specs.RowFields.{switch_statement_fields, switch_case_fields, try_statement_fields, catch_clause_fields};
ghost use Rattle.jsgen_fields.specs.Reads.{Gives, read_node, read_typed};
ghost use Rattle.jsgen_pool.specs.Pool.{entries};
ghost use Rattle.jsgen_fields.specs.Parts.{is_in_choices};
ghost use Rattle.jsgen_tree.specs.declared.types.NodeType.TheVariants as types;

use jsgen_fields::InputFault;
use jsgen_fields::fields::boxed;
use jsgen_fields::given::GivenRow;
use jsgen_fields::list_fields::{statement_list, switch_case_list};
use jsgen_fields::set_fields::{
    needed_block_statement, needed_expression, optional_binding_pattern, optional_block_statement,
    optional_catch_clause, optional_expression,
};
use jsgen_fields::set_rows::row_of_statement;
use jsgen_fields::values::field_not_given;
use jsgen_kept::asked::{
    HoldsBindingPattern, HoldsDeclaration, HoldsExpression, HoldsStatement, ReadNode, RowOf,
};
use jsgen_kept::kept::{row_of_catch_clause, row_of_switch_case};
use jsgen_kept::others::OtherStatement;
use jsgen_pool::Kept;
use jsgen_syntax::Span;
use jsgen_tree::{
    CatchClause, HasType, NodeType, Statement, SwitchCase, SwitchStatement, TryStatement,
};
use std::alloc::Global;

#[tactic(auto, unfolding(jsgen_fields::specs::Reads::read_node))]
fn read_switch_statement<N: HoldsExpression + Drop, R: RowOf<N> + Drop>(
    alloc: Global,
    kept: &mut Vec<Kept<R>>,
    number: usize,
    span: Span,
    row: &GivenRow<'_>,
) -> Result<R, InputFault>
    ensures { Gives R.plain result (entries R.plain kept.new.items)
        (read_node number types.SwitchStatement switch_statement_fields span (row_data row.now) (entries R.plain kept.old.items)) }
{
    let discriminant = match needed_expression::<N, R>(
        alloc,
        kept,
        number,
        2,
        row,
        "discriminant",
    ) {
        Ok(discriminant) => discriminant,
        Err(fault) => return Err(fault),
    };
    let cases = match switch_case_list::<N, R>(alloc, kept, number, 3, row, "cases") {
        Ok(cases) => cases,
        Err(fault) => return Err(fault),
    };
    let node = SwitchStatement {
        span,
        discriminant,
        cases,
    };
    match boxed(alloc, node) {
        Ok(node) => row_of_statement::<N, R>(
            alloc,
            OtherStatement {
                statement: Statement::SwitchStatement(node),
            },
        ),
        Err(fault) => Err(fault),
    }
}

#[tactic(auto, unfolding(jsgen_fields::specs::Reads::read_node))]
fn read_switch_case<
    N: HoldsExpression + HoldsDeclaration + HoldsStatement + Drop,
    R: RowOf<N> + Drop,
>(
    alloc: Global,
    kept: &mut Vec<Kept<R>>,
    number: usize,
    span: Span,
    row: &GivenRow<'_>,
) -> Result<R, InputFault>
    ensures { Gives R.plain result (entries R.plain kept.new.items)
        (read_node number types.SwitchCase switch_case_fields span (row_data row.now) (entries R.plain kept.old.items)) }
{
    let test = match optional_expression::<N, R>(alloc, kept, number, 2, row, "test") {
        Ok(test) => test,
        Err(fault) => return Err(fault),
    };
    let consequent = match statement_list::<N, R>(alloc, kept, number, 3, row, "consequent") {
        Ok(consequent) => consequent,
        Err(fault) => return Err(fault),
    };
    let node = SwitchCase {
        span,
        test,
        consequent,
    };
    match boxed(alloc, node) {
        Ok(node) => Ok(row_of_switch_case::<N, R>(node)),
        Err(fault) => Err(fault),
    }
}

#[tactic(auto, unfolding(jsgen_fields::specs::Reads::read_node))]
fn read_try_statement<N: HasType + Drop, R: RowOf<N> + Drop>(
    alloc: Global,
    kept: &mut Vec<Kept<R>>,
    number: usize,
    span: Span,
    row: &GivenRow<'_>,
) -> Result<R, InputFault>
    ensures { Gives R.plain result (entries R.plain kept.new.items)
        (read_node number types.TryStatement try_statement_fields span (row_data row.now) (entries R.plain kept.old.items)) }
{
    let block = match needed_block_statement::<N, R>(alloc, kept, number, 2, row, "block") {
        Ok(block) => block,
        Err(fault) => return Err(fault),
    };
    let handler = match optional_catch_clause::<N, R>(alloc, kept, number, 3, row, "handler") {
        Ok(handler) => handler,
        Err(fault) => return Err(fault),
    };
    let finalizer = match optional_block_statement::<N, R>(
        alloc,
        kept,
        number,
        4,
        row,
        "finalizer",
    ) {
        Ok(finalizer) => finalizer,
        Err(fault) => return Err(fault),
    };
    let node = TryStatement {
        span,
        block,
        handler,
        finalizer,
    };
    match boxed(alloc, node) {
        Ok(node) => row_of_statement::<N, R>(
            alloc,
            OtherStatement {
                statement: Statement::TryStatement(node),
            },
        ),
        Err(fault) => Err(fault),
    }
}

#[tactic(auto, unfolding(jsgen_fields::specs::Reads::read_node))]
fn read_catch_clause<N: HoldsBindingPattern + Drop, R: RowOf<N> + Drop>(
    alloc: Global,
    kept: &mut Vec<Kept<R>>,
    number: usize,
    span: Span,
    row: &GivenRow<'_>,
) -> Result<R, InputFault>
    ensures { Gives R.plain result (entries R.plain kept.new.items)
        (read_node number types.CatchClause catch_clause_fields span (row_data row.now) (entries R.plain kept.old.items)) }
{
    let param = match optional_binding_pattern::<N, R>(alloc, kept, number, 2, row, "param") {
        Ok(param) => param,
        Err(fault) => return Err(fault),
    };
    match field_not_given(number, 3, row, "type_annotation") {
        Ok(()) => {}
        Err(fault) => return Err(fault),
    }
    let body = match needed_block_statement::<N, R>(alloc, kept, number, 4, row, "body") {
        Ok(body) => body,
        Err(fault) => return Err(fault),
    };
    let node = CatchClause { span, param, body };
    match boxed(alloc, node) {
        Ok(node) => Ok(row_of_catch_clause::<N, R>(node)),
        Err(fault) => Err(fault),
    }
}

/// The row of a type of this part.
pub fn read_in_choices<N: ReadNode + Drop, R: RowOf<N> + Drop>(
    alloc: Global,
    kept: &mut Vec<Kept<R>>,
    node_type: NodeType,
    number: usize,
    span: Span,
    row: &GivenRow<'_>,
) -> Result<R, InputFault>
    requires { is_in_choices node_type ≡ true }
    ensures { Gives R.plain result (entries R.plain kept.new.items)
        (read_typed number node_type span (row_data row.now) (entries R.plain kept.old.items)) }
{
    match node_type {
        NodeType::SwitchStatement => read_switch_statement::<N, R>(alloc, kept, number, span, row),
        NodeType::SwitchCase => read_switch_case::<N, R>(alloc, kept, number, span, row),
        NodeType::TryStatement => read_try_statement::<N, R>(alloc, kept, number, span, row),
        NodeType::CatchClause => read_catch_clause::<N, R>(alloc, kept, number, span, row),
        _ => unreachable!(),
    }
}
