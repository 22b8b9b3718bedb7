ghost use Rattle.std.specs.Prelude.{◌≡◌, ℕ, suc, ◌+◌, ◌<◌, ◌≤◌, ◌^◌, slice_get, length, vec_len, IfOk, Some};
ghost use Rattle.jsgen_map.specs.Lines.{answer_of, column_in, start_of, IsAdded, IsBetween};

use crate::lines::read_line;
use crate::position::Position;
use jsgen_syntax::Memory;
use std::alloc::Global;

// How many lines behind the last one are looked at before the others are searched.
const NEAR_LINES: usize = 16;

/// The columns of a line from its first byte past ASCII on: one for each byte, and in the last line one for its end.
#[derive(Debug, Drop)]
pub struct ColumnOffsets {
    /// How many bytes of the line stand before the first.
    pub(crate) first: u32,
    pub(crate) columns: Vec<u32>,
}

/// Where a line starts, and the number of its columns' table if a byte of it isn't ASCII.
#[derive(Clone, Copy, Debug)]
pub struct Line {
    pub(crate) start: u32,
    pub(crate) columns: Option<u32>,
}

/// The lines of a source, to look up the line and the column of an offset.
#[derive(Debug, Drop)]
pub struct LineOffsetTables {
    pub(crate) lines: Vec<Line>,
    pub(crate) column_offsets: Vec<ColumnOffsets>,
    ghost begins: { start_of lines.items 0 1 ≡ 0 },
}

impl LineOffsetTables {
    ghost use Rattle.jsgen_map.specs.Tables.{Answers, TablesOf};
    ghost use Rattle.jsgen_map.specs.declared.tables.Line.{Line};

    /// The tables of a source.
    pub fn new(alloc: Global, source: &str) -> Result<LineOffsetTables, Memory>
        requires { length source.now < 2 ^ 32 }
        ensures { IfOk result (λ tables. TablesOf tables source.now) }
    {
        let mut lines = Vec::new(alloc);
        let mut column_offsets = Vec::new(alloc);
        let mut start: usize = 0;
        let mut rest = Some(source.as_bytes());
        'lines: while let Some(bytes) = rest {
            let line = read_line(alloc, bytes)?;
            let columns = push_table(&mut column_offsets, line.columns)?;
            lines.push(Line {
                start: start as u32,
                columns,
            })?;
            start += line.offsets;
            rest = line.rest;
        }
        Ok(LineOffsetTables {
            lines,
            column_offsets,
        })
    }

    /// The line and the column of an offset that lies within the source, whatever was looked up before.
    pub fn line_column(&self, position: u32) -> (usize, usize)
        ensures { Answers self.now position (record { line = result.0; column = result.1 }) }
    {
        let number = self.line_between(0, self.lines.len(), position);
        let place = self.place_in(number, position);
        (place.line, place.column)
    }

    /// The same, where a line near by is known. Tells the line too.
    pub(crate) fn place_near(&self, known: usize, position: u32) -> Position
        ensures { Answers self.now position result }
    {
        let number = self.line_near(known, position);
        self.place_in(number, position)
    }

    // What the line of a number says of an offset.
    fn place_in(&self, number: usize, position: u32) -> Position
        requires { IsBetween self.now.lines.items number (number + 1) position }
        ensures { (line : Line) → slice_get self.now.lines.items number ≡ Some line
            → result ≡ answer_of self.now.column_offsets.items number line position }
    {
        let line = self.lines[number];
        let offset = position - line.start;
        let column = match line.columns {
            None => offset as usize,
            Some(table) => self.column_at(table, offset),
        };
        Position {
            line: number,
            column,
        }
    }

    // The last line that starts at the offset or before it.
    fn line_near(&self, known: usize, position: u32) -> usize
        ensures { IsBetween self.now.lines.items result (result + 1) position }
    {
        let count = self.lines.len();
        if known >= count {
            return self.line_between(0, count, position);
        }
        if position < self.lines[known].start {
            return self.line_between(0, known, position);
        }
        let mut low = known;
        for _ in 0..NEAR_LINES {
            if low + 1 == count || position < self.lines[low + 1].start {
                return low;
            }
            low += 1;
        }
        self.line_between(low, count, position)
    }

    // The same among the lines from `low` up to `high`.
    fn line_between(&self, low: usize, high: usize, position: u32) -> usize
        requires { IsBetween self.now.lines.items low high position }
        ensures { IsBetween self.now.lines.items result (result + 1) position }
    {
        let mut low = low;
        let mut high = high;
        while low + 1 < high {
            let middle = low + (high - low) / 2;
            if self.lines[middle].start <= position {
                low = middle;
            } else {
                high = middle;
            }
        }
        low
    }

    // The column that a table has for an offset.
    fn column_at(&self, table: u32, offset: u32) -> usize
        ensures { result ≡ column_in (slice_get self.now.column_offsets.items table) offset }
    {
        match self.column_offsets.get(table as usize) {
            Some(columns) if offset >= columns.first => {
                columns
                    .columns
                    .get((offset - columns.first) as usize)
                    .copied()
                    .unwrap_or(0) as usize
            }
            _ => offset as usize,
        }
    }
}

// Adds the table of a line, where it has one, and tells its number.
fn push_table(
    tables: &mut Vec<ColumnOffsets>,
    columns: Option<ColumnOffsets>,
) -> Result<Option<u32>, Memory>
    requires { vec_len tables.old < 2 ^ 32 }
    ensures { IfOk result (IsAdded tables.old.items columns tables.new.items) }
{
    let Some(columns) = columns else {
        return Ok(None);
    };
    let number = tables.len() as u32;
    tables.push(columns)?;
    Ok(Some(number))
}
