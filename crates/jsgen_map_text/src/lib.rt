//! The text of a source map: a line for each token, and one for each name.
#![tactic(auto)]

ghost use Rattle.std.specs.Prelude.{◌≡◌, ◌++◌, codes, decimal, flat_map, IfOk, OnOk, string_bytes};
ghost use Rattle.json.specs.Print.{quoted};
ghost use Rattle.jsgen_map.specs.Names.{texts};
ghost use Rattle.jsgen_map_text.specs.Lines.{map_text, name_line, number_end, token_line};

use itoa::Buffer;
use jsgen_map::{SourceMap, Token};
use jsgen_syntax::Memory;
use serde_json::Value;
use std::alloc::Global;

/// The lines of a map. Each token has a line of four numbers from 0, with a space between two: its line and its column in the text,
/// and in the source, columns in units of UTF-16; and the number of its name, if it has one. Each name has the word `name` and
/// behind it the name in JSON.
pub fn map_text(alloc: Global, map: &SourceMap<'_>) -> Result<String, Memory>
    ensures { IfOk result (λ s. string_bytes s ≡ map_text (texts map.now.names.items) map.now.tokens.items) }
{
    let mut text = String::new(alloc);
    push_tokens(&mut text, &map.tokens)?;
    push_names(alloc, &mut text, &map.names)?;
    Ok(text)
}

fn push_tokens(text: &mut String, tokens: &[Token]) -> Result<(), Memory>
    ensures { OnOk result (string_bytes text.new ≡ string_bytes text.old ++ flat_map token_line tokens.now) }
{
    for token in tokens {
        push_token(text, token)?;
    }
    Ok(())
}

fn push_token(text: &mut String, token: &Token) -> Result<(), Memory>
    ensures { OnOk result (string_bytes text.new ≡ string_bytes text.old ++ token_line token.now) }
{
    push_number(text, token.generated_line)?;
    push_number_behind(text, token.generated_column)?;
    push_number_behind(text, token.source_line)?;
    push_number_behind(text, token.source_column)?;
    push_end(text, token.name)
}

fn push_number(text: &mut String, number: usize) -> Result<(), Memory>
    ensures { OnOk result (string_bytes text.new ≡ string_bytes text.old ++ decimal number) }
{
    let mut buffer = Buffer::new();
    Ok(text.push_str(buffer.format(number))?)
}

// Behind a space.
fn push_number_behind(text: &mut String, number: usize) -> Result<(), Memory>
    ensures { OnOk result (string_bytes text.new ≡ string_bytes text.old ++ (codes " " ++ decimal number)) }
{
    text.push_str(" ")?;
    push_number(text, number)
}

// The number of a token's name, if it has one, and the line's end.
fn push_end(text: &mut String, name: Option<usize>) -> Result<(), Memory>
    ensures { OnOk result (string_bytes text.new ≡ string_bytes text.old ++ number_end name) }
{
    if let Some(number) = name {
        push_number_behind(text, number)?;
    }
    Ok(text.push_str("\n")?)
}

fn push_names(alloc: Global, text: &mut String, names: &[&str]) -> Result<(), Memory>
    ensures { OnOk result (string_bytes text.new ≡ string_bytes text.old ++ flat_map name_line (texts names.now)) }
{
    for name in names {
        push_name(alloc, text, *name)?;
    }
    Ok(())
}

fn push_name(alloc: Global, text: &mut String, name: &str) -> Result<(), Memory>
    ensures { OnOk result (string_bytes text.new ≡ string_bytes text.old ++ name_line name.now) }
{
    let quoted = quoted(alloc, name)?;
    text.push_str("name ")?;
    text.push_str(quoted.as_str())?;
    Ok(text.push_str("\n")?)
}

// A text as JSON.
fn quoted(alloc: Global, text: &str) -> Result<String, Memory>
    ensures { IfOk result (λ s. string_bytes s ≡ quoted text.now) }
{
    let value = Value::try_from_str(alloc, text)?;
    Ok(value.to_string(alloc)?)
}
