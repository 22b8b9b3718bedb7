// What spellings stand for.
use crate::push::push_numbers;
use jsgen_oracle::{directive_value_of, string_value_of, word_value_of};
use jsgen_syntax::{Memory, Quote};
use std::alloc::Global;

/// The quote that the character is.
pub fn quote_of(c: char) -> Quote {
    match c {
        '\'' => Quote::Single,
        '"' => Quote::Double,
        _ => Quote::Backtick,
    }
}

/// The units of the string that the line spells in quotes, or none.
pub fn units_of(alloc: Global, line: &str) -> Result<Option<Vec<u16>>, Memory> {
    let text: Vec<char> = line.chars().collect(alloc)?;
    match text.as_slice() {
        [quote, spelling @ .., _] => string_value_of(alloc, quote_of(*quote), spelling),
        _ => Ok(None),
    }
}

fn push_known<T: Copy + Into<u32>>(
    alloc: Global,
    what: &str,
    value: Option<Vec<T>>,
    answer: &mut String,
) -> Result<(), Memory> {
    match value {
        Some(numbers) => {
            answer.push_str(what)?;
            push_numbers(alloc, &numbers, answer)
        }
        None => Ok(answer.push_str("no value")?),
    }
}

/// The units of a string, those of a directive with this raw text, or the code points of a word; or that the line spells none.
pub fn push_value(
    alloc: Global,
    what: &str,
    line: &str,
    answer: &mut String,
) -> Result<(), Memory> {
    if what == "string" {
        return push_known(alloc, "units", units_of(alloc, line)?, answer);
    }
    let spelling: Vec<char> = line.chars().collect(alloc)?;
    match what {
        "word" => push_known(alloc, "points", word_value_of(alloc, &spelling)?, answer),
        _ => push_known(
            alloc,
            "units",
            directive_value_of(alloc, &spelling)?,
            answer,
        ),
    }
}
