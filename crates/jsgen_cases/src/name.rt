// Texts that are names, or begin in a way that matters, and code with a name in it.
use crate::push::push_where;
use jsgen_syntax::{Memory, is_line_terminator, is_name, is_reserved, is_strict_reserved};
use jsgen_text::is_script_close_tag;
use jsgen_uses::{LogError, log_statement};
use std::alloc::Global;

/// Whether the text is a name, whether it is reserved, whether it closes a script, and whether it begins with a character that
/// ends a line.
pub fn push_name(text: &str, answer: &mut String) -> Result<(), Memory> {
    let first = text.chars().next().unwrap_or(' ');
    let closes = text.len() == 8 && is_script_close_tag(text.as_bytes());
    push_where(
        answer,
        &[
            (!is_name(text), "no name"),
            (is_name(text), "a name"),
            (is_reserved(text), ", reserved"),
            (is_strict_reserved(text), ", reserved in strict code"),
            (closes, ", closes a script"),
            (is_line_terminator(first), ", ends a line"),
        ],
    )
}

/// The code by which a caller of the library logs a message and a name.
pub fn push_log(
    alloc: Global,
    name: &str,
    message: &str,
    answer: &mut String,
) -> Result<(), Memory> {
    match log_statement(alloc, message, name) {
        Ok(code) => Ok(answer.push_str(&code)?),
        Err(LogError::Name) => Ok(answer.push_str("no name")?),
        Err(LogError::Memory) => Err(Memory),
    }
}
