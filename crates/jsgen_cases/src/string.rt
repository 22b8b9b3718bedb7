// Values of strings: how they are kept, and their texts. A line gives a value by a spelling of it.
use crate::push::{push_numbers, push_where};
use crate::value::{quote_of, units_of};
use jsgen_syntax::{CodeBuffer, IndentChar, JsStr, Memory};
use jsgen_text::{cheapest_quote, print_string_text};
use std::alloc::Global;

fn value_of(alloc: Global, line: &str) -> Result<JsStr, Memory> {
    match units_of(alloc, line)? {
        Some(units) => JsStr::from_units(alloc, &units),
        None => JsStr::from_text(alloc, "no value"),
    }
}

/// What is asked of the value that the line spells.
pub fn push_of_string(
    alloc: Global,
    how: &str,
    line: &str,
    answer: &mut String,
) -> Result<(), Memory> {
    let value = value_of(alloc, line)?;
    let (what, rest) = how.split_once(' ').unwrap_or((how, ""));
    match what {
        "kept" => push_kept(alloc, &value, answer),
        "same" => push_same(alloc, rest, &value, answer),
        "cheapest" => Ok(answer.push(cheapest_quote(&value, !rest.is_empty()).as_byte() as char)?),
        _ => push_spelled(alloc, rest, &value, answer),
    }
}

// The bytes that a value is kept as, and whether it has a surrogate that is alone.
fn push_kept(alloc: Global, value: &JsStr, answer: &mut String) -> Result<(), Memory> {
    push_where(
        answer,
        &[
            (value.has_lone_surrogate(), "lone"),
            (value.as_str().is_some(), "kept"),
        ],
    )?;
    push_numbers(alloc, value.as_bytes(), answer)
}

// Whether a text has this value.
fn push_same(alloc: Global, text: &str, value: &JsStr, answer: &mut String) -> Result<(), Memory> {
    let made = JsStr::from_text(alloc, text)?;
    let is_kept = made.as_str() == Some(text);
    push_where(
        answer,
        &[
            (!is_kept, "not kept "),
            (made == *value, "same"),
            (made != *value, "other"),
        ],
    )
}

// The text of a value in a quote, behind which `ascii` stands where the text is to be ASCII.
fn push_spelled(
    alloc: Global,
    quote: &str,
    value: &JsStr,
    answer: &mut String,
) -> Result<(), Memory> {
    let mut code = CodeBuffer::with_indent(alloc, IndentChar::Tab, 1);
    let first = quote.chars().next().unwrap_or('`');
    print_string_text(&mut code, value, quote_of(first), quote.ends_with("ascii"))?;
    Ok(answer.push_str(code.as_str())?)
}
