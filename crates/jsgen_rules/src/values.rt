// What the raw text of a piece of a template stands for (ECMA-262, 12.9.6.1, TV), compared with units of UTF-16 as it comes.
ghost use Rattle.std.specs.Prelude.{◌≡◌, [], Option, Some, None, true, false, ◌==◌, ◌∷◌, List, ℕ, if◌then◌else◌};
ghost use Rattle.std.specs.Char.{is_ascii_hexdigit, digit_value};
ghost use Rattle.std.specs.Str.{chars};
ghost use lib.Utf8.{scalar};
ghost use Rattle.jsgen_syntax.specs.Strings.{string_value};
ghost use Rattle.jsgen_syntax.specs.declared.quote.Quote.TheVariants.{Backtick};
ghost use Rattle.jsgen_syntax.specs.Units.{js_units};
ghost use Rattle.jsgen_rules.specs.UnitsLeft.{left, is_value, go_on};
ghost use Rattle.jsgen_rules.specs.Values.{text_step, escape_step, escape_code, first_digit, second_digit, third_digit, fourth_digit, digits_step, next_step, may_end, value_from, emitted, turned, has_no_return};

use crate::units::Units;
use jsgen_syntax::{JsStr, is_line_terminator};

/// What stands before the next character.
#[derive(Clone, Copy)]
pub enum State {
    /// Characters that are whole.
    Text,
    /// A `$` that stands for itself.
    Dollar,
    /// A backslash.
    Backslash,
    /// `\0`.
    Nought,
    /// `\u`.
    Unicode,
    /// The front of `\uHHHH` with one digit.
    OneDigit(u8),
    /// The same with two, or `\x`.
    TwoDigits(u16),
    /// The same with three digits, or `\x` with one.
    ThreeDigits(u32),
    /// `\u{`.
    Opening,
    /// `\u{` and the digits of a number.
    Digits(u32),
}

/// What a character leads to: a state, and the code point that it completes, where it completes one.
#[derive(Clone, Copy)]
struct Step {
    state: State,
    code: Option<u64>,
}

impl Step {
    fn to(state: State) -> Step
        ensures { result ≡ record { state = state; code = None } }
    {
        Step { state, code: None }
    }

    fn with(state: State, code: u64) -> Step
        ensures { result ≡ record { state = state; code = Some code } }
    {
        Step {
            state,
            code: Some(code),
        }
    }
}

/// Whether the raw text of a piece of a template, in which no CR stands, stands for these units.
pub fn stands_for(raw: &str, units: &JsStr) -> bool
    requires { has_no_return (chars raw.now) ≡ true }
    ensures { result ≡ is_value (string_value Backtick (chars raw.now)) (js_units units.now) }
{
    let mut state = State::Text;
    let mut rest = Units::of(units);
    for c in raw.chars() {
        match take_turn(state, rest, c) {
            Some(next) => {
                state = next.state;
                rest = next.units;
            }
            None => return false,
        }
    }
    ends(state, rest)
}

fn ends(state: State, units: Units<'_>) -> bool
    ensures { result ≡ is_value (value_from state []) (left units.entry) }
{
    may_end(state) && units.is_empty()
}

/// Where a text and units are compared: a state, and the units that are left.
#[derive(Clone, Copy)]
struct Turn<'a> {
    state: State,
    units: Units<'a>,
}

fn take_turn(state: State, units: Units<'_>, c: char) -> Option<Turn<'_>>
    ensures { (rest : List ℕ) → scalar c ≡ true → (c == 13) ≡ false → is_value (value_from state (c ∷ rest)) (left units.entry) ≡ turned rest result }
{
    match next_step(state, c) {
        Some(step) => match behind(step.code, units) {
            Some(units) => Some(Turn {
                state: step.state,
                units,
            }),
            None => None,
        },
        None => None,
    }
}

// The units behind those of a code point, where there is one.
fn behind<'a>(code: Option<u64>, units: Units<'a>) -> Option<Units<'a>>
    ensures { (others : Option (List ℕ)) → is_value (emitted code others) (left units.entry) ≡ go_on others result }
{
    match code {
        Some(code) => units.behind_code(code),
        None => Some(units),
    }
}

fn next_step(state: State, c: char) -> Option<Step>
    ensures { result ≡ next_step state c }
{
    match state {
        State::Text => text_step(c),
        State::Dollar if c == '{' => None,
        State::Dollar => text_step(c),
        State::Backslash => escape_step(c),
        State::Nought if c.is_ascii_digit() => None,
        State::Nought => text_step(c),
        State::Unicode if c == '{' => Some(Step::to(State::Opening)),
        State::Unicode => first_digit(c),
        State::OneDigit(number) => second_digit(number, c),
        State::TwoDigits(number) => third_digit(number, c),
        State::ThreeDigits(number) => fourth_digit(number, c),
        State::Opening if c == '}' => None,
        State::Opening => digits_step(0, c),
        State::Digits(number) => digits_step(number, c),
    }
}

fn text_step(c: char) -> Option<Step>
    ensures { result ≡ text_step c }
{
    match c {
        '\\' => Some(Step::to(State::Backslash)),
        '`' => None,
        '$' => Some(Step::with(State::Dollar, c as u64)),
        _ => Some(Step::with(State::Text, c as u64)),
    }
}

fn escape_step(c: char) -> Option<Step>
    ensures { result ≡ escape_step c }
{
    if is_line_terminator(c) {
        Some(Step::to(State::Text))
    } else if c == 'x' {
        Some(Step::to(State::TwoDigits(0)))
    } else if c == 'u' {
        Some(Step::to(State::Unicode))
    } else if c == '0' {
        Some(Step::with(State::Nought, 0))
    } else if c.is_ascii_digit() {
        None
    } else {
        Some(Step::with(State::Text, escape_code(c)))
    }
}

// What a backslash before this character gives.
fn escape_code(c: char) -> u64
    ensures { result ≡ escape_code c }
{
    match c {
        'b' => 8,
        't' => 9,
        'n' => 10,
        'v' => 11,
        'f' => 12,
        'r' => 13,
        _ => c as u64,
    }
}

fn first_digit(c: char) -> Option<Step>
    ensures { result ≡ first_digit c }
{
    let digit = hex_digit(c)?;
    Some(Step::to(State::OneDigit(digit)))
}

fn second_digit(number: u8, c: char) -> Option<Step>
    ensures { result ≡ second_digit number c }
{
    let digit = hex_digit(c)?;
    let number = number as u16 * 16 + digit as u16;
    Some(Step::to(State::TwoDigits(number)))
}

fn third_digit(number: u16, c: char) -> Option<Step>
    ensures { result ≡ third_digit number c }
{
    let digit = hex_digit(c)?;
    let number = number as u32 * 16 + digit as u32;
    Some(Step::to(State::ThreeDigits(number)))
}

fn fourth_digit(number: u32, c: char) -> Option<Step>
    ensures { result ≡ fourth_digit number c }
{
    let digit = hex_digit(c)?;
    let number = number as u64 * 16 + digit as u64;
    Some(Step::with(State::Text, number))
}

fn digits_step(number: u32, c: char) -> Option<Step>
    ensures { result ≡ digits_step number c }
{
    if c == '}' {
        return Some(Step::with(State::Text, number as u64));
    }
    let digit = hex_digit(c)?;
    if number <= 0x10FFFF && number * 16 + digit as u32 <= 0x10FFFF {
        Some(Step::to(State::Digits(number * 16 + digit as u32)))
    } else {
        None
    }
}

fn hex_digit(c: char) -> Option<u8>
    ensures { result ≡ (if is_ascii_hexdigit c then Some (digit_value c) else None) }
{
    match c {
        '0'..='9' => Some(c as u8 - b'0'),
        'a'..='f' => Some(c as u8 - b'a' + 10),
        'A'..='F' => Some(c as u8 - b'A' + 10),
        _ => None,
    }
}

fn may_end(state: State) -> bool
    ensures { result ≡ may_end state }
{
    matches!(state, State::Text | State::Dollar | State::Nought)
}
