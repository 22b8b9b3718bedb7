// What the spelling of a string stands for (ECMA-262, 12.9.4.2 and 12.9.6.1).
ghost use Rattle.std.specs.Prelude.{◌≡◌, ◌<◌, IfOk};
ghost use Rattle.std.specs.Char.Escape.{encode_utf16};
ghost use Rattle.jsgen_syntax.specs.Strings.{quote_char, and_then, stands_bare, bare_units, escape_units, string_value, escape_value, hex_value, code_point_value, digits_value};
ghost use Rattle.jsgen_oracle.specs.Values.{items_of, hex_room, unicode_value, digit_escape_value};

use crate::characters::{
    begins_with, begins_with_digit, begins_with_hex_digit, digit_value, is_line_terminator,
};
use jsgen_syntax::{Memory, Quote};
use std::alloc::Global;

/// The units of the string or the template without substitutions that has this spelling between its quotes, or none
/// where it is no spelling.
#[cycle(value)]
#[tactic(auto, unfolding(jsgen_syntax::specs::Strings::string_value))]
pub fn string_value_of(
    alloc: Global,
    quote: Quote,
    spelling: &[char],
) -> Result<Option<Vec<u16>>, Memory>
    ensures { IfOk result (λ r. items_of r ≡ string_value quote spelling.now) }
{
    let Some((first, rest)) = spelling.split_first() else {
        return Ok(Some(Vec::new(alloc)));
    };
    if *first == '\\' {
        escape_value(alloc, quote, rest)
    } else if stands_bare(quote, *first, rest) {
        let others = string_value_of(alloc, quote, rest)?;
        bare_before(alloc, *first, rest, others)
    } else {
        Ok(None)
    }
}

// The same of what stands behind a backslash.
#[cycle(value)]
#[tactic(auto, unfolding(jsgen_syntax::specs::Strings::string_value))]
fn escape_value(alloc: Global, quote: Quote, text: &[char]) -> Result<Option<Vec<u16>>, Memory>
    ensures { IfOk result (λ r. items_of r ≡ escape_value quote text.now) }
{
    let Some((first, rest)) = text.split_first() else {
        return Ok(None);
    };
    if *first == '\r' && begins_with('\n', rest) {
        escape_value(alloc, quote, rest)
    } else if is_line_terminator(*first) {
        string_value_of(alloc, quote, rest)
    } else if *first == 'x' {
        hex_value(alloc, quote, 2, 0, rest)
    } else if *first == 'u' {
        unicode_value(alloc, quote, rest)
    } else if first.is_ascii_digit() {
        digit_escape_value(alloc, quote, *first, rest)
    } else {
        let others = string_value_of(alloc, quote, rest)?;
        encoded_before(alloc, escaped_code(*first), others)
    }
}

// Behind `\u`.
#[cycle(value)]
#[tactic(auto, unfolding(jsgen_syntax::specs::Strings::string_value))]
fn unicode_value(alloc: Global, quote: Quote, text: &[char]) -> Result<Option<Vec<u16>>, Memory>
    ensures { IfOk result (λ r. items_of r ≡ unicode_value quote text.now) }
{
    if begins_with('{', text) {
        code_point_value(alloc, quote, text)
    } else {
        hex_value(alloc, quote, 4, 0, text)
    }
}

// Behind a backslash and this digit.
#[cycle(value)]
#[tactic(auto, unfolding(jsgen_syntax::specs::Strings::string_value))]
fn digit_escape_value(
    alloc: Global,
    quote: Quote,
    digit: char,
    text: &[char],
) -> Result<Option<Vec<u16>>, Memory>
    ensures { IfOk result (λ r. items_of r ≡ digit_escape_value quote digit text.now) }
{
    if digit == '0' && !begins_with_digit(text) {
        let others = string_value_of(alloc, quote, text)?;
        encoded_before(alloc, 0, others)
    } else {
        Ok(None)
    }
}

// Before the last digits of `\xHH` or `\uHHHH`, where this is the number so far.
#[cycle(value)]
#[tactic(auto, unfolding(jsgen_syntax::specs::Strings::string_value))]
fn hex_value(
    alloc: Global,
    quote: Quote,
    count: u32,
    before: u32,
    text: &[char],
) -> Result<Option<Vec<u16>>, Memory>
    requires { before < hex_room count }
    ensures { IfOk result (λ r. items_of r ≡ hex_value quote count before text.now) }
{
    let Some((first, rest)) = text.split_first() else {
        return Ok(None);
    };
    if !first.is_ascii_hexdigit() {
        return Ok(None);
    }
    let number = before * 16 + digit_value(*first);
    if count == 1 {
        let others = string_value_of(alloc, quote, rest)?;
        encoded_before(alloc, number, others)
    } else {
        hex_value(alloc, quote, count - 1, number, rest)
    }
}

// Before the brace of `\u{H..}`.
#[cycle(value)]
#[tactic(auto, unfolding(jsgen_syntax::specs::Strings::string_value))]
fn code_point_value(alloc: Global, quote: Quote, text: &[char]) -> Result<Option<Vec<u16>>, Memory>
    ensures { IfOk result (λ r. items_of r ≡ code_point_value quote text.now) }
{
    let Some((_, rest)) = text.split_first() else {
        return Ok(None);
    };
    if begins_with_hex_digit(rest) {
        digits_value(alloc, quote, 0, rest)
    } else {
        Ok(None)
    }
}

// Within its braces, where this is the number so far.
#[cycle(value)]
#[tactic(auto, unfolding(jsgen_syntax::specs::Strings::string_value))]
fn digits_value(
    alloc: Global,
    quote: Quote,
    before: u32,
    text: &[char],
) -> Result<Option<Vec<u16>>, Memory>
    requires { before < 0x11_0000 }
    ensures { IfOk result (λ r. items_of r ≡ digits_value quote before text.now) }
{
    let Some((first, rest)) = text.split_first() else {
        return Ok(None);
    };
    if *first == '}' {
        let others = string_value_of(alloc, quote, rest)?;
        return encoded_before(alloc, before, others);
    }
    if !first.is_ascii_hexdigit() {
        return Ok(None);
    }
    let number = before * 16 + digit_value(*first);
    if number < 0x11_0000 {
        digits_value(alloc, quote, number, rest)
    } else {
        Ok(None)
    }
}

// These units, and behind them the others.
fn and_then(mut units: Vec<u16>, others: Option<Vec<u16>>) -> Result<Option<Vec<u16>>, Memory>
    ensures { IfOk result (λ r. items_of r ≡ and_then units.items (items_of others)) }
{
    match others {
        Some(mut others) => {
            units.append(&mut others)?;
            Ok(Some(units))
        }
        None => Ok(None),
    }
}

// The units of a code point, and behind them the others.
fn encoded_before(
    alloc: Global,
    code: u32,
    others: Option<Vec<u16>>,
) -> Result<Option<Vec<u16>>, Memory>
    requires { code < 0x11_0000 }
    ensures { IfOk result (λ r. items_of r ≡ and_then (encode_utf16 code) (items_of others)) }
{
    let units = encoded(alloc, code)?;
    and_then(units, others)
}

// The units of a character that stands for itself before this text, and behind them the others.
fn bare_before(
    alloc: Global,
    c: char,
    rest: &[char],
    others: Option<Vec<u16>>,
) -> Result<Option<Vec<u16>>, Memory>
    ensures { IfOk result (λ r. items_of r ≡ and_then (bare_units c rest.now) (items_of others)) }
{
    let units = bare_units(alloc, c, rest)?;
    and_then(units, others)
}

// The one or two units of a code point.
fn encoded(alloc: Global, code: u32) -> Result<Vec<u16>, Memory>
    requires { code < 0x11_0000 }
    ensures { IfOk result (λ v. v.items ≡ encode_utf16 code) }
{
    if code < 0x1_0000 {
        Ok(vec![in alloc; code as u16]?)
    } else {
        let over = code - 0x1_0000;
        Ok(vec![in alloc;
            (0xD800 + over / 0x400) as u16,
            (0xDC00 + over % 0x400) as u16,
        ]?)
    }
}

// Whether the character may stand for itself, with this text behind it.
fn stands_bare(quote: Quote, c: char, rest: &[char]) -> bool
    ensures { result ≡ stands_bare quote c rest.now }
{
    if c == '\\' || c == mark(quote) {
        false
    } else if quote.is_backtick() {
        !(c == '$' && begins_with('{', rest))
    } else {
        !(c == '\n' || c == '\r')
    }
}

pub(crate) fn mark(quote: Quote) -> char
    ensures { result ≡ quote_char quote }
{
    match quote {
        Quote::Single => '\'',
        Quote::Double => '"',
        Quote::Backtick => '`',
    }
}

// The units of a character that stands for itself. CR and CR LF are one LF.
fn bare_units(alloc: Global, c: char, rest: &[char]) -> Result<Vec<u16>, Memory>
    ensures { IfOk result (λ v. v.items ≡ bare_units c rest.now) }
{
    if c != '\r' {
        encoded(alloc, c as u32)
    } else if begins_with('\n', rest) {
        Ok(Vec::new(alloc))
    } else {
        encoded(alloc, 10)
    }
}

// What a backslash before the character gives.
fn escaped_code(c: char) -> u32
    ensures value { encode_utf16 result ≡ escape_units c }
    ensures bound { result < 0x11_0000 }
{
    match c {
        'b' => 8,
        't' => 9,
        'n' => 10,
        'v' => 11,
        'f' => 12,
        'r' => 13,
        _ => c as u32,
    }
}
