// The value of a number, and whether a minus stands before a number.
ghost use Rattle.std.specs.Prelude.{◌≡◌, option_map};
ghost use Rattle.std.specs.Str.{chars};
ghost use Rattle.jsgen_tree.specs.Inside.{is_negative, after_minus, unless_minus, behind_minus};
ghost use Rattle.jsgen_tree.specs.Rows.{numeric_literal_row};

use crate::expressions::NumericLiteral;

/// The value of a number.
#[derive(Drop)]
pub enum NumericValue {
    /// A whole number, by its value and whether a minus stands before it.
    Whole { negative: bool, digits: u128 },
    /// A number by its text, as it is to be printed.
    Raw(String),
}

// What stands behind a minus.
fn after_minus(value: &str) -> Option<&str>
    ensures { option_map (λ s. chars s.now) result ≡ after_minus (chars value.now) }
{
    value.strip_prefix('-')
}

fn unless_minus(digits: &str) -> Option<&str>
    ensures { option_map (λ s. chars s.now) result ≡ unless_minus (chars digits.now) }
{
    match after_minus(digits) {
        Some(_) => None,
        None => Some(digits),
    }
}

/// The digits of a big integer behind its one minus, if it has one.
pub fn behind_minus(value: &str) -> Option<&str>
    ensures { option_map (λ s. chars s.now) result ≡ behind_minus (chars value.now) }
{
    match after_minus(value) {
        Some(digits) => unless_minus(digits),
        None => None,
    }
}

impl NumericLiteral {
    /// Whether a minus stands before it.
    pub fn is_negative(&self) -> bool
        ensures { result ≡ is_negative (numeric_literal_row self.now) }
    {
        match &self.value {
            NumericValue::Whole { negative, .. } => *negative,
            NumericValue::Raw(_) => false,
        }
    }
}
