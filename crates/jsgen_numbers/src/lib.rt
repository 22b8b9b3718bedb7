//! Numbers by their texts: a machine that takes the characters of a number one by one.
#![tactic(auto)]

ghost use Rattle.std.specs.Prelude.{◌≡◌};
ghost use Rattle.std.specs.Char.{is_ascii_digit};
ghost use Rattle.std.specs.Str.{chars};
ghost use Rattle.jsgen_syntax.specs.Escapes.{begins};
ghost use Rattle.jsgen_model.specs.Numbers.{is_raw_number, is_big_integer};

mod kind;
mod number;
mod whole;

use number::run;
pub use number::{Number, Radix};
use whole::Whole;

/// Whether the text is a number of strict code without the suffix of a big integer (ECMA-262, 12.9.3), begins with a digit and
/// doesn't end in a dot.
pub fn is_raw_number(text: &str) -> bool
    ensures { result ≡ is_raw_number (chars text.now) }
{
    begins_with_digit(text) && run(text).is_raw()
}

fn begins_with_digit(text: &str) -> bool
    ensures { result ≡ begins is_ascii_digit (chars text.now) }
{
    match text.chars().next() {
        Some(first) => first.is_ascii_digit(),
        None => false,
    }
}

/// Whether the text is the value of a big integer, without its suffix: perhaps a minus, and `0` or digits of which the first isn't
/// `0`.
pub fn is_big_integer(text: &str) -> bool
    ensures { result ≡ is_big_integer (chars text.now) }
{
    let mut state = Whole::Start;
    for c in text.chars() {
        state = state.step(c);
    }
    state.accepts()
}
