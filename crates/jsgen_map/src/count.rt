// Lines and columns of a text that grows, over its bytes.
ghost use Rattle.std.specs.Prelude.{◌≡◌, ◌+◌, ◌^◌, ◌<◌, ◌≤◌, length};
ghost use Rattle.jsgen_map.specs.Count.{counted_from, inner, lead, line_feed, next_line, next_unit, step};

use crate::position::Position;

/// What the bytes so far tell of the next one.
#[derive(Clone, Copy)]
pub(crate) enum Seen {
    Other,
    /// The last byte is CR.
    Return,
    /// The last byte is E2, with which U+2028 and U+2029 begin.
    FirstOfSeparator,
    /// The last bytes are E2 80.
    SecondOfSeparator,
    /// The last byte begins a character of four.
    FirstOfFour,
}

/// How far lines and columns are counted.
#[derive(Clone, Copy)]
pub(crate) struct Count {
    pub place: Position,
    pub seen: Seen,
}

/// The count behind some more bytes.
pub(crate) fn count_on(count: Count, bytes: &[u8]) -> Count
    requires line { count.place.line + length bytes.now < 2 ^ 64 }
    requires column { count.place.column + length bytes.now < 2 ^ 64 }
    ensures count { result ≡ counted_from count bytes.now }
    ensures line { result.place.line ≤ count.place.line + length bytes.now }
    ensures column { result.place.column ≤ count.place.column + length bytes.now }
{
    let mut count = count;
    for byte in bytes {
        count = step(count, *byte);
    }
    count
}

#[inline]
fn step(count: Count, byte: u8) -> Count
    requires line { count.place.line + 1 < 2 ^ 64 }
    requires column { count.place.column + 1 < 2 ^ 64 }
    ensures count { result ≡ step count byte }
    ensures line { result.place.line ≤ count.place.line + 1 }
    ensures column { result.place.column ≤ count.place.column + 1 }
{
    if b'\r' < byte && byte < 128 {
        return Count {
            place: next_unit(count.place),
            seen: Seen::Other,
        };
    }
    if byte == b'\n' {
        return Count {
            place: line_feed(count.seen, count.place),
            seen: Seen::Other,
        };
    }
    if byte == b'\r' {
        return Count {
            place: next_line(count.place),
            seen: Seen::Return,
        };
    }
    if byte < 128 {
        return Count {
            place: next_unit(count.place),
            seen: Seen::Other,
        };
    }
    if byte < 192 {
        return inner(count.seen, count.place, byte);
    }
    Count {
        place: next_unit(count.place),
        seen: lead(byte),
    }
}

#[inline]
fn next_line(place: Position) -> Position
    requires { place.line + 1 < 2 ^ 64 }
    ensures { result ≡ next_line place }
{
    Position {
        line: place.line + 1,
        column: 0,
    }
}

#[inline]
fn next_unit(place: Position) -> Position
    requires { place.column + 1 < 2 ^ 64 }
    ensures { result ≡ next_unit place }
{
    Position {
        line: place.line,
        column: place.column + 1,
    }
}

#[inline]
fn line_feed(seen: Seen, place: Position) -> Position
    requires { place.line + 1 < 2 ^ 64 }
    ensures { result ≡ line_feed seen place }
{
    match seen {
        Seen::Return => place,
        _ => next_line(place),
    }
}

// A byte inside a character.
#[inline]
fn inner(seen: Seen, place: Position, byte: u8) -> Count
    requires line { place.line + 1 < 2 ^ 64 }
    requires column { place.column + 1 < 2 ^ 64 }
    ensures { result ≡ inner seen place byte }
{
    match seen {
        Seen::FirstOfSeparator if byte == 128 => Count {
            place,
            seen: Seen::SecondOfSeparator,
        },
        Seen::SecondOfSeparator if byte == 168 || byte == 169 => Count {
            place: next_line(place),
            seen: Seen::Other,
        },
        Seen::FirstOfFour => Count {
            place: next_unit(place),
            seen: Seen::Other,
        },
        _ => Count {
            place,
            seen: Seen::Other,
        },
    }
}

// What the first byte of a character past ASCII tells.
#[inline]
fn lead(byte: u8) -> Seen
    ensures { result ≡ lead byte }
{
    if byte == 226 {
        Seen::FirstOfSeparator
    } else if byte >= 240 {
        Seen::FirstOfFour
    } else {
        Seen::Other
    }
}
