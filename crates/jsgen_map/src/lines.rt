// The lines of a source, one after the other.
ghost use Rattle.std.specs.Prelude.{◌≡◌, ℕ, suc, ◌+◌, ◌-◌, ◌^◌, ◌<◌, ◌≤◌, ◌++◌, length, drop, replicate, IfOk, OnOk};
ghost use Rattle.std.specs.Char.{len_utf8};
ghost use Rattle.std.specs.Str.{chars};
ghost use Rattle.jsgen_syntax.specs.Escapes.{begins_with};
ghost use Rattle.jsgen_strings.specs.Points.{ArePoints};
ghost use Rattle.jsgen_map.specs.LineColumn.{closes_line, units};
ghost use Rattle.jsgen_map.specs.Reading.{IsPlainRun, ReadsColumns, ReadsLine};

use crate::tables::ColumnOffsets;
use jsgen_strings::take_point;
use jsgen_syntax::Memory;
use std::alloc::Global;

/// A line of a source.
#[derive(Drop)]
pub(crate) struct ReadLine<'a> {
    pub columns: Option<ColumnOffsets>,
    /// How many offsets are on the line: one for each byte with those that end it, and in the last line one for the source's end.
    pub offsets: usize,
    /// What stands behind the line, where it isn't the last.
    pub rest: Option<&'a [u8]>,
}

/// The first line of a source, or of a part of it that begins with a line.
pub(crate) fn read_line<'a>(alloc: Global, bytes: &'a [u8]) -> Result<ReadLine<'a>, Memory>
    requires points { ArePoints bytes.now }
    requires small { length bytes.now < 2 ^ 32 }
    ensures { IfOk result (ReadsLine bytes.now) }
{
    let plain = plain_len(bytes);
    let (_, behind) = bytes.split_at(plain);
    match behind.split_first() {
        None => Ok(ReadLine {
            columns: None,
            offsets: plain + 1,
            rest: None,
        }),
        Some((first, rest)) if *first < 128 && closes_line(*first as u32, rest) => Ok(ReadLine {
            columns: None,
            offsets: plain + 1,
            rest: Some(rest),
        }),
        Some(_) => {
            let first = plain as u32;
            let ReadColumns { columns, rest } = read_columns(alloc, first, behind)?;
            Ok(ReadLine {
                offsets: plain + columns.len(),
                columns: Some(ColumnOffsets { first, columns }),
                rest,
            })
        }
    }
}

// What is left of a line from its first byte past ASCII on.
#[derive(Drop)]
struct ReadColumns<'a> {
    columns: Vec<u32>,
    rest: Option<&'a [u8]>,
}

fn read_columns<'a>(alloc: Global, first: u32, bytes: &'a [u8]) -> Result<ReadColumns<'a>, Memory>
    requires points { ArePoints bytes.now }
    requires small { first + length bytes.now < 2 ^ 32 }
    ensures { IfOk result (ReadsColumns first bytes.now) }
{
    let mut columns = Vec::new(alloc);
    let mut column = first;
    let mut rest = bytes;
    'characters: while !rest.is_empty() {
        let point = take_point(rest);
        push_columns(&mut columns, column, point.bytes.len())?;
        rest = point.behind;
        if closes_line(point.code, rest) {
            return Ok(ReadColumns {
                columns,
                rest: Some(rest),
            });
        }
        column += units(point.code);
    }
    columns.push(column)?;
    Ok(ReadColumns {
        columns,
        rest: None,
    })
}

// The column for each byte of a character.
fn push_columns(columns: &mut Vec<u32>, column: u32, count: usize) -> Result<(), Memory>
    ensures { OnOk result (columns.new.items ≡ columns.old.items ++ replicate count column) }
{
    for _ in 0..count {
        columns.push(column)?;
    }
    Ok(())
}

// How many bytes at the front are a character and a unit each and end no line; that it counts all of them isn't promised.
fn plain_len(bytes: &[u8]) -> usize
    requires { ArePoints bytes.now }
    ensures { IsPlainRun bytes.now result (drop result bytes.now) }
{
    for (i, byte) in bytes.iter().enumerate() {
        if *byte >= 128 {
            return i;
        }
        if closes_line(*byte as u32, &bytes[i + 1..]) {
            return i;
        }
    }
    bytes.len()
}

// Whether a line ends behind the character.
#[inline]
fn closes_line(code: u32, rest: &[u8]) -> bool
    requires { ArePoints rest.now }
    ensures { result ≡ closes_line code (chars rest.now) }
{
    (code == 10 || code == 13 || code == 0x2028 || code == 0x2029)
        && !(code == 13 && begins_with_line_feed(rest))
}

#[inline]
fn begins_with_line_feed(bytes: &[u8]) -> bool
    requires { ArePoints bytes.now }
    ensures { result ≡ begins_with 10 (chars bytes.now) }
{
    match bytes.split_first() {
        Some((first, _)) => *first == b'\n',
        None => false,
    }
}

// The units of UTF-16 of a character.
#[inline]
fn units(code: u32) -> u32
    ensures { result ≡ units code }
{
    if code < 0x1_0000 { 1 } else { 2 }
}
