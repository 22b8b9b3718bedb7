// The program: the rows, field 4 of the head, one after the other, and the last row is the program.
ghost use Rattle.std.specs.Prelude.{◌≡◌, ◌<◌, ◌/◌, ◌^◌, [], length, Some, None, MatchOption, map};
ghost use Rattle.serde_json.specs.View.{view};
ghost use Rattle.jsgen_flat.specs.Flat.{rows_of};
ghost use Rattle.jsgen_flat.specs.Views.{sections};
ghost use Rattle.jsgen_fields.specs.Given.{row_data};
ghost use Rattle.jsgen_tree.specs.Plain.{node_plain, program_plain};
ghost use Rattle.jsgen_fields.specs.Values.{Same, at, rows_listed, rows_in};
ghost use Rattle.jsgen_fields.specs.Reads.{Gives, root_found, read_row, read_rows, root_of};
ghost use Rattle.jsgen_kept.specs.Kept.{entry, entries, any_row_plain};
ghost use Rattle.jsgen_pool.specs.Pool.{entries as entries_of};

use crate::rows::read_typed;
use jsgen_fields::floats::holds_float;
use jsgen_fields::given::GivenRow;
use jsgen_fields::head::present;
use jsgen_fields::values::{span_of, type_of};
use jsgen_fields::{At, InputFault};
use jsgen_flat::FlatJob;
use jsgen_flat::rows::FlatRow;
use jsgen_kept::asked::{ReadNode, RowOf};
use jsgen_kept::kept::AnyRow;
use jsgen_pool::Kept;
use jsgen_tree::Program;
use serde_json::Value;
use std::alloc::Global;

/// How many words a row has at least: its type, and where its span starts and ends.
const LEAST_WIDTH: usize = 3;

fn read_any_row<N: ReadNode + Drop, R: RowOf<N> + Drop>(
    alloc: Global,
    kept: &mut Vec<Kept<R>>,
    number: usize,
    row: &GivenRow<'_>,
) -> Result<R, InputFault>
    ensures { Gives R.plain result (entries_of R.plain kept.new.items)
        (read_row number (row_data row.now) (entries_of R.plain kept.old.items)) }
{
    let node_type = type_of(number, row)?;
    let span = span_of(number, row)?;
    read_typed::<N, R>(alloc, kept, node_type, number, span, row)
}

fn read_row<N: ReadNode + Drop>(
    alloc: Global,
    kept: &mut Vec<Kept<AnyRow<N>>>,
    number: usize,
    row: &GivenRow<'_>,
) -> Result<AnyRow<N>, InputFault>
    ensures { Gives (any_row_plain N.plain) result (entries N.plain kept.new.items)
        (read_row number (row_data row.now) (entries N.plain kept.old.items)) }
{
    read_any_row::<N, AnyRow<N>>(alloc, kept, number, row)
}

pub fn read_rows(alloc: Global, rows: &[Value]) -> Result<Vec<Kept<AnyRow>>, InputFault>
    ensures { Same (λ v. entries node_plain v.items) result (read_rows (map view rows.now) []) }
{
    let mut kept = Vec::with_capacity(alloc, rows.len())?;
    for row in rows {
        let number = kept.len();
        let read = read_row(alloc, &mut kept, number, &GivenRow::Json(row))?;
        kept.push(Kept::There(read))?;
    }
    Ok(kept)
}

/// The rows of a flat job, one after the other.
pub fn read_flat_rows<'b>(
    alloc: Global,
    job: &'b FlatJob<'b>,
) -> Result<Vec<Kept<AnyRow>>, InputFault>
    requires { length job.now.rows.now / 4 < 2 ^ 32 }
    ensures { Same (λ v. entries node_plain v.items) result (read_rows (rows_of (sections job.now)) []) }
{
    let most = job.rows.len() / (4 * LEAST_WIDTH);
    let mut kept = Vec::with_capacity(alloc, most.min(job.row_count as usize))?;
    let mut begin = 0;
    for count in 0..job.row_count {
        let _ = count;
        let number = kept.len();
        let Some(row) = FlatRow::at(job, begin) else {
            return Err(InputFault::Wrong(At::of_row(number, 0)));
        };
        let read = read_row(alloc, &mut kept, number, &GivenRow::Flat(row))?;
        kept.push(Kept::There(read))?;
        begin = row.end();
    }
    Ok(kept)
}

// ---- the last row

fn root_at(at: At, last: Kept<AnyRow>) -> Result<Program, InputFault>
    ensures { Same program_plain result (root_found at (Some (entry node_plain last))) }
{
    match last {
        Kept::There(row) => match row.into_program() {
            Some(program) => Ok(program),
            None => Err(InputFault::Wrong(at)),
        },
        Kept::Taken(_) => Err(InputFault::Wrong(at)),
    }
}

fn last_of(kept: &mut Vec<Kept<AnyRow>>) -> Option<(usize, Kept<AnyRow>)>
    ensures { MatchOption result (root_of (entries node_plain kept.old.items) ≡ root_found (at 0 0) None)
        (λ p. root_of (entries node_plain kept.old.items) ≡ root_found (at p.0 0) (Some (entry node_plain p.1))) }
{
    let last = kept.pop()?;
    Some((kept.len(), last))
}

pub fn root_of(mut kept: Vec<Kept<AnyRow>>) -> Result<Program, InputFault>
    ensures { Same program_plain result (root_of (entries node_plain kept.items)) }
{
    match last_of(&mut kept) {
        Some((number, last)) => root_at(At::of_row(number, 0), last),
        None => Err(InputFault::Wrong(At::of_row(0, 0))),
    }
}

// ---- the list of rows

#[tactic(auto, using(jsgen_fields::proofs::Listed::lists))]
fn rows_listed(at: At, given: &Value) -> Result<&Vec<Value>, InputFault>
    ensures { Same (λ v. map view v.now.items) result (rows_listed at (view given.now)) }
{
    match given.as_array() {
        Some(rows) => Ok(rows),
        None => {
            if holds_float(given) {
                Err(InputFault::Float(at))
            } else {
                Err(InputFault::Wrong(at))
            }
        }
    }
}

pub fn rows_in(value: &Value) -> Result<&Vec<Value>, InputFault>
    ensures { Same (λ v. map view v.now.items) result (rows_in (view value.now)) }
{
    let Some(given) = present(value, "rows") else {
        return Err(InputFault::Missing(At::of_head(4)));
    };
    let rows = rows_listed(At::of_head(4), given)?;
    if rows.is_empty() {
        return Err(InputFault::Wrong(At::of_head(4)));
    }
    Ok(rows)
}
