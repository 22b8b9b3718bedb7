// A machine that takes the characters of a number one by one (ECMA-262, 12.9.3, without what strict code hasn't).
ghost use Rattle.std.specs.Prelude.{◌≡◌};
ghost use Rattle.std.specs.Str.{chars};
ghost use Rattle.jsgen_model.proofs.NumberKinds.{kind};
ghost use Rattle.jsgen_model.proofs.NumberStates.{start, accepts, is_raw, is_dead, is_digit_of, if_digit, step, behind_start, behind_zero, behind_integer, behind_dotted, behind_fraction, behind_mark, behind_exponent, behind_digits, run};
ghost use Rattle.jsgen_numbers.specs.Plain.{kind_plain, radix_plain, number_plain};

use crate::kind::Kind;

#[derive(Clone, Copy)]
pub enum Radix {
    Two,
    Eight,
    Sixteen,
}

/// The front of a number. Behind a name that ends in `Due` a digit has to follow.
#[derive(Clone, Copy)]
pub enum Number {
    /// Nothing.
    Start,
    /// `0`.
    Zero,
    /// Digits of an integer.
    Integer,
    /// A separator behind digits of an integer.
    IntegerDue,
    /// An integer and a dot.
    Dotted,
    /// Digits behind the dot.
    Fraction,
    /// A separator behind these, or a dot that begins the number.
    FractionDue,
    /// The `e` of an exponent.
    ExponentMark,
    /// Digits of an exponent.
    Exponent,
    /// A separator behind these, or a sign before them.
    ExponentDue,
    /// Digits behind a prefix.
    Digits(Radix),
    /// A separator behind these, or a prefix.
    DigitsDue(Radix),
    /// The suffix of a big integer.
    Suffixed,
    /// What begins no number.
    Dead,
}

impl Number {
    /// Whether the front is a number.
    pub fn accepts(self) -> bool
        ensures { result ≡ accepts (number_plain self) }
    {
        self.is_raw() || matches!(self, Number::Dotted | Number::Suffixed)
    }

    // Whether it is one that ends neither in a dot nor in a suffix.
    pub(crate) fn is_raw(self) -> bool
        ensures { result ≡ is_raw (number_plain self) }
    {
        matches!(
            self,
            Number::Zero | Number::Integer | Number::Fraction | Number::Exponent | Number::Digits(_)
        )
    }

    /// Whether no number begins so.
    pub fn is_dead(self) -> bool
        ensures { result ≡ is_dead (number_plain self) }
    {
        matches!(self, Number::Dead)
    }

    /// The front with one more character.
    pub fn step(self, c: char) -> Number
        ensures { number_plain result ≡ step (number_plain self) (kind c) }
    {
        let kind = Kind::of(c);
        match self {
            Number::Start => behind_start(kind),
            Number::Zero => behind_zero(kind),
            Number::Integer => behind_integer(kind),
            Number::IntegerDue => if_digit(kind.is_decimal(), Number::Integer),
            Number::Dotted => behind_dotted(kind),
            Number::Fraction => behind_fraction(kind),
            Number::FractionDue => if_digit(kind.is_decimal(), Number::Fraction),
            Number::ExponentMark => behind_mark(kind),
            Number::Exponent => behind_exponent(kind),
            Number::ExponentDue => if_digit(kind.is_decimal(), Number::Exponent),
            Number::Digits(radix) => behind_digits(radix, kind),
            Number::DigitsDue(radix) => {
                if_digit(is_digit_of(radix, kind), Number::Digits(radix))
            }
            Number::Suffixed => Number::Dead,
            Number::Dead => Number::Dead,
        }
    }
}

fn is_digit_of(radix: Radix, kind: Kind) -> bool
    ensures { result ≡ is_digit_of (radix_plain radix) (kind_plain kind) }
{
    match radix {
        Radix::Two => matches!(kind, Kind::Nought | Kind::One),
        Radix::Eight => matches!(kind, Kind::Nought | Kind::One | Kind::ToSeven),
        Radix::Sixteen => kind.is_hexadecimal(),
    }
}

fn if_digit(is_digit: bool, behind: Number) -> Number
    ensures { number_plain result ≡ if_digit is_digit (number_plain behind) }
{
    if is_digit { behind } else { Number::Dead }
}

fn behind_start(kind: Kind) -> Number
    ensures { number_plain result ≡ behind_start (kind_plain kind) }
{
    match kind {
        Kind::Nought => Number::Zero,
        Kind::FullStop => Number::FractionDue,
        _ => if_digit(kind.is_decimal(), Number::Integer),
    }
}

fn behind_zero(kind: Kind) -> Number
    ensures { number_plain result ≡ behind_zero (kind_plain kind) }
{
    match kind {
        Kind::FullStop => Number::Dotted,
        Kind::LetterE => Number::ExponentMark,
        Kind::SmallN => Number::Suffixed,
        Kind::LetterB => Number::DigitsDue(Radix::Two),
        Kind::LetterO => Number::DigitsDue(Radix::Eight),
        Kind::LetterX => Number::DigitsDue(Radix::Sixteen),
        _ => Number::Dead,
    }
}

fn behind_integer(kind: Kind) -> Number
    ensures { number_plain result ≡ behind_integer (kind_plain kind) }
{
    match kind {
        Kind::Underscore => Number::IntegerDue,
        Kind::FullStop => Number::Dotted,
        Kind::LetterE => Number::ExponentMark,
        Kind::SmallN => Number::Suffixed,
        _ => if_digit(kind.is_decimal(), Number::Integer),
    }
}

fn behind_dotted(kind: Kind) -> Number
    ensures { number_plain result ≡ behind_dotted (kind_plain kind) }
{
    match kind {
        Kind::LetterE => Number::ExponentMark,
        _ => if_digit(kind.is_decimal(), Number::Fraction),
    }
}

fn behind_fraction(kind: Kind) -> Number
    ensures { number_plain result ≡ behind_fraction (kind_plain kind) }
{
    match kind {
        Kind::Underscore => Number::FractionDue,
        Kind::LetterE => Number::ExponentMark,
        _ => if_digit(kind.is_decimal(), Number::Fraction),
    }
}

fn behind_mark(kind: Kind) -> Number
    ensures { number_plain result ≡ behind_mark (kind_plain kind) }
{
    match kind {
        Kind::PlusOrMinus => Number::ExponentDue,
        _ => if_digit(kind.is_decimal(), Number::Exponent),
    }
}

fn behind_exponent(kind: Kind) -> Number
    ensures { number_plain result ≡ behind_exponent (kind_plain kind) }
{
    match kind {
        Kind::Underscore => Number::ExponentDue,
        _ => if_digit(kind.is_decimal(), Number::Exponent),
    }
}

fn behind_digits(radix: Radix, kind: Kind) -> Number
    ensures { number_plain result ≡ behind_digits (radix_plain radix) (kind_plain kind) }
{
    match kind {
        Kind::Underscore => Number::DigitsDue(radix),
        Kind::SmallN => Number::Suffixed,
        _ => if_digit(is_digit_of(radix, kind), Number::Digits(radix)),
    }
}

pub(crate) fn run(text: &str) -> Number
    ensures { number_plain result ≡ run start (chars text.now) }
{
    let mut state = Number::Start;
    for c in text.chars() {
        state = state.step(c);
    }
    state
}
