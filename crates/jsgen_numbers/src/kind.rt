// Kinds of characters, as far as numbers tell them apart.
ghost use Rattle.std.specs.Prelude.{◌≡◌};
ghost use Rattle.jsgen_model.proofs.NumberKinds.{kind, is_decimal};
ghost use Rattle.jsgen_model.proofs.NumberStates.{is_hexadecimal};
ghost use Rattle.jsgen_numbers.specs.Plain.{kind_plain};

#[derive(Clone, Copy)]
pub(crate) enum Kind {
    Nought,
    One,
    /// `2` to `7`.
    ToSeven,
    /// `8` and `9`.
    ToNine,
    LetterB,
    LetterE,
    /// Another letter that is a hexadecimal digit.
    LetterOfHex,
    SmallN,
    LetterO,
    LetterX,
    Underscore,
    FullStop,
    PlusOrMinus,
    Other,
}

impl Kind {
    #[tactic(auto, unfolding(jsgen_model::proofs::NumberKinds::kind))]
    pub(crate) fn of(c: char) -> Kind
        ensures { kind_plain result ≡ kind c }
    {
        match c {
            '0' => Kind::Nought,
            '1' => Kind::One,
            '2'..='7' => Kind::ToSeven,
            '8'..='9' => Kind::ToNine,
            'b' | 'B' => Kind::LetterB,
            'e' | 'E' => Kind::LetterE,
            'a' | 'c' | 'd' | 'f' | 'A' | 'C' | 'D' | 'F' => Kind::LetterOfHex,
            'n' => Kind::SmallN,
            'o' | 'O' => Kind::LetterO,
            'x' | 'X' => Kind::LetterX,
            '_' => Kind::Underscore,
            '.' => Kind::FullStop,
            '+' | '-' => Kind::PlusOrMinus,
            _ => Kind::Other,
        }
    }

    pub(crate) fn is_decimal(self) -> bool
        ensures { result ≡ is_decimal (kind_plain self) }
    {
        matches!(
            self,
            Kind::Nought | Kind::One | Kind::ToSeven | Kind::ToNine
        )
    }

    pub(crate) fn is_hexadecimal(self) -> bool
        ensures { result ≡ is_hexadecimal (kind_plain self) }
    {
        matches!(self, Kind::LetterB | Kind::LetterE | Kind::LetterOfHex) || self.is_decimal()
    }
}
