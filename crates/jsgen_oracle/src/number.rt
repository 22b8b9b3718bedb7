// Numbers at the front of a text (ECMA-262, 12.9.3).
ghost use Rattle.std.specs.Prelude.{◌≡◌, ◌≤◌, not, length, IfSome};
ghost use Rattle.jsgen_syntax.specs.Escapes.{begins};
ghost use Rattle.jsgen_model.specs.Tokens.{is_barred_behind_number};
ghost use Rattle.jsgen_numbers.specs.Plain.{number_plain};
ghost use Rattle.jsgen_oracle.specs.Steps.{begins_number, count_number};

use crate::characters::{begins_with_digit, starts_name};
use jsgen_numbers::Number;

// Whether a number may begin there: with a digit, or with a dot and a digit.
pub(crate) fn begins_number(text: &[char]) -> bool
    ensures { result ≡ begins_number text.now }
{
    match text.split_first() {
        Some((first, rest)) => first.is_ascii_digit() || (*first == '.' && begins_with_digit(rest)),
        None => false,
    }
}

// How many characters of the text are the rest of the longest number that begins as the state says.
pub(crate) fn count_number(state: Number, text: &[char]) -> Option<usize>
    ensures value { result ≡ count_number (number_plain state) text.now }
    ensures within { IfSome result (λ n. n ≤ length text.now) }
{
    match text.split_first() {
        Some((first, rest)) => {
            if state.is_dead() {
                return None;
            }
            match count_number(state.step(*first), rest) {
                Some(count) => Some(count + 1),
                None => if state.accepts() { Some(0) } else { None },
            }
        }
        None => if state.accepts() { Some(0) } else { None },
    }
}

// Whether what stands there may follow a number.
pub(crate) fn may_follow(rest: &[char]) -> bool
    ensures { result ≡ not (begins is_barred_behind_number rest.now) }
{
    match rest.first() {
        Some(c) => !(starts_name(*c) || c.is_ascii_digit() || *c == '\\'),
        None => true,
    }
}
