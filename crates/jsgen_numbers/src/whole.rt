// A machine that takes the characters of a big integer's value one by one.
ghost use Rattle.std.specs.Prelude.{◌≡◌};
ghost use Rattle.jsgen_numbers.specs.Machine.{step, first_digit, accepts};

/// The front of a value.
#[derive(Clone, Copy)]
pub(crate) enum Whole {
    /// Nothing.
    Start,
    /// The minus.
    Minus,
    /// `0`, behind a minus or not.
    Zero,
    /// Digits, of which the first isn't `0`.
    Digits,
    /// What begins no value.
    Dead,
}

impl Whole {
    pub(crate) fn accepts(self) -> bool
        ensures { result ≡ accepts self }
    {
        matches!(self, Whole::Zero | Whole::Digits)
    }

    pub(crate) fn step(self, c: char) -> Whole
        ensures { result ≡ step self c }
    {
        match self {
            Whole::Start if c == '-' => Whole::Minus,
            Whole::Start => first_digit(c),
            Whole::Minus => first_digit(c),
            Whole::Zero => Whole::Dead,
            Whole::Digits if c.is_ascii_digit() => Whole::Digits,
            Whole::Digits => Whole::Dead,
            Whole::Dead => Whole::Dead,
        }
    }
}

fn first_digit(c: char) -> Whole
    ensures { result ≡ first_digit c }
{
    if c == '0' {
        Whole::Zero
    } else if c.is_ascii_digit() {
        Whole::Digits
    } else {
        Whole::Dead
    }
}
