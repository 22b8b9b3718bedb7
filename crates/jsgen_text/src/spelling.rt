// Whether a text spells a string, and whether it begins with `script`.
ghost use Rattle.std.specs.Prelude.{◌≡◌, is_some, if◌then◌else◌, Some, None};
ghost use Rattle.std.specs.Char.{is_ascii_hexdigit, digit_value};
ghost use Rattle.std.specs.Str.{chars};
ghost use Rattle.jsgen_syntax.specs.Strings.{string_value, begins_script};
ghost use Rattle.jsgen_text.specs.Machine.{text_step, escape_step, hex_step, digits_step, step, may_end};

use jsgen_syntax::{Quote, is_line_terminator};

/// What stands before the next character.
#[derive(Clone, Copy)]
enum State {
    /// Characters that are whole.
    Text,
    /// A `$` that stands for itself, in backticks.
    Dollar,
    /// A backslash.
    Backslash,
    /// A backslash and a CR.
    Return,
    /// `\0`.
    Nought,
    /// `\u`.
    Unicode,
    /// The front of `\xHH` or `\uHHHH`, without so many digits.
    Hex(u8),
    /// `\u{`.
    Opening,
    /// `\u{` and the digits of a number.
    Digits(u32),
}

/// Whether the text, without the quotes around it, spells a string in strict code (ECMA-262, 12.9.4), or in backticks a template without substitutions (12.9.6).
pub fn spells_string(quote: Quote, s: &str) -> bool
    ensures { result ≡ is_some (string_value quote (chars s.now)) }
{
    let mut state = State::Text;
    for c in s.chars() {
        match step(quote, state, c) {
            Some(next) => state = next,
            None => return false,
        }
    }
    may_end(state)
}

fn step(quote: Quote, state: State, c: char) -> Option<State>
    ensures { result ≡ step quote state c }
{
    match state {
        State::Text => text_step(quote, c),
        State::Dollar if c == '{' => None,
        State::Dollar => text_step(quote, c),
        State::Backslash => escape_step(c),
        State::Return if c == '\n' => Some(State::Text),
        State::Return => text_step(quote, c),
        State::Nought if c.is_ascii_digit() => None,
        State::Nought => text_step(quote, c),
        State::Unicode if c == '{' => Some(State::Opening),
        State::Unicode => hex_step(4, c),
        State::Hex(count) => hex_step(count, c),
        State::Opening if c == '}' => None,
        State::Opening => digits_step(0, c),
        State::Digits(number) => digits_step(number, c),
    }
}

fn text_step(quote: Quote, c: char) -> Option<State>
    ensures { result ≡ text_step quote c }
{
    if c == '\\' {
        Some(State::Backslash)
    } else if c == char::from(quote.as_byte()) {
        None
    } else if quote.is_backtick() {
        Some(if c == '$' { State::Dollar } else { State::Text })
    } else if c == '\n' || c == '\r' {
        None
    } else {
        Some(State::Text)
    }
}

fn escape_step(c: char) -> Option<State>
    ensures { result ≡ escape_step c }
{
    if c == '\r' {
        Some(State::Return)
    } else if is_line_terminator(c) {
        Some(State::Text)
    } else if c == 'x' {
        Some(State::Hex(2))
    } else if c == 'u' {
        Some(State::Unicode)
    } else if c == '0' {
        Some(State::Nought)
    } else if c.is_ascii_digit() {
        None
    } else {
        Some(State::Text)
    }
}

fn hex_step(count: u8, c: char) -> Option<State>
    ensures { result ≡ hex_step count c }
{
    if !c.is_ascii_hexdigit() {
        None
    } else if count == 1 {
        Some(State::Text)
    } else {
        Some(State::Hex(count.saturating_sub(1)))
    }
}

fn digits_step(number: u32, c: char) -> Option<State>
    ensures { result ≡ digits_step number c }
{
    if c == '}' {
        return Some(State::Text);
    }
    let digit = hex_digit(c)?;
    if number <= 0x10FFFF && number * 16 + digit <= 0x10FFFF {
        Some(State::Digits(number * 16 + digit))
    } else {
        None
    }
}

fn hex_digit(c: char) -> Option<u32>
    ensures { result ≡ (if is_ascii_hexdigit c then Some (digit_value c) else None) }
{
    if c.is_ascii_hexdigit() {
        c.to_digit(16)
    } else {
        None
    }
}

fn may_end(state: State) -> bool
    ensures { result ≡ may_end state }
{
    matches!(
        state,
        State::Text | State::Dollar | State::Return | State::Nought
    )
}

/// Whether a text begins with `script`, in any letter case.
pub fn begins_script(text: &str) -> bool
    ensures { result ≡ begins_script (chars text.now) }
{
    jsgen_strings::begins_script(text.as_bytes())
}
