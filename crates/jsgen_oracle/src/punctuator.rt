// Punctuators, which stand where, and the longest (ECMA-262, 12.8).
ghost use Rattle.std.specs.Prelude.{◌≡◌, MatchOption};
ghost use Rattle.std.specs.List.{find};
ghost use Rattle.std.specs.Option.{option_copied};
ghost use Rattle.jsgen_model.specs.Punctuator.{punctuator_text};
ghost use Rattle.jsgen_model.specs.Tokens.{text_behind, may_precede, stands};
ghost use Rattle.jsgen_oracle.specs.Signs.{punctuator_plain};
ghost use Rattle.jsgen_oracle.specs.Steps.{HasNoSign, IsSignAt};

/// A token that is neither a word nor a number nor a bracket.
#[derive(Clone, Copy)]
pub enum Punctuator {
    Dot,
    Ellipsis,
    Semicolon,
    Comma,
    Colon,
    Question,
    QuestionDot,
    Arrow,
    Less,
    Greater,
    LessEqual,
    GreaterEqual,
    EqualEqual,
    NotEqual,
    EqualEqualEqual,
    NotEqualEqual,
    Plus,
    Minus,
    Star,
    Slash,
    Percent,
    StarStar,
    PlusPlus,
    MinusMinus,
    ShiftLeft,
    ShiftRight,
    ShiftRightZero,
    BitAnd,
    BitOr,
    BitXor,
    Bang,
    Tilde,
    AndAnd,
    OrOr,
    Nullish,
    Equal,
    PlusEqual,
    MinusEqual,
    StarEqual,
    SlashEqual,
    PercentEqual,
    StarStarEqual,
    ShiftLeftEqual,
    ShiftRightEqual,
    ShiftRightZeroEqual,
    BitAndEqual,
    BitOrEqual,
    BitXorEqual,
    AndAndEqual,
    OrOrEqual,
    NullishEqual,
}

// Every punctuator, the longer ones first.
const LONGEST_FIRST: [Punctuator; 51] = [
    Punctuator::ShiftRightZeroEqual,
    Punctuator::Ellipsis,
    Punctuator::EqualEqualEqual,
    Punctuator::NotEqualEqual,
    Punctuator::ShiftRightZero,
    Punctuator::StarStarEqual,
    Punctuator::ShiftLeftEqual,
    Punctuator::ShiftRightEqual,
    Punctuator::AndAndEqual,
    Punctuator::OrOrEqual,
    Punctuator::NullishEqual,
    Punctuator::QuestionDot,
    Punctuator::Arrow,
    Punctuator::LessEqual,
    Punctuator::GreaterEqual,
    Punctuator::EqualEqual,
    Punctuator::NotEqual,
    Punctuator::StarStar,
    Punctuator::PlusPlus,
    Punctuator::MinusMinus,
    Punctuator::ShiftLeft,
    Punctuator::ShiftRight,
    Punctuator::AndAnd,
    Punctuator::OrOr,
    Punctuator::Nullish,
    Punctuator::PlusEqual,
    Punctuator::MinusEqual,
    Punctuator::StarEqual,
    Punctuator::SlashEqual,
    Punctuator::PercentEqual,
    Punctuator::BitAndEqual,
    Punctuator::BitOrEqual,
    Punctuator::BitXorEqual,
    Punctuator::Dot,
    Punctuator::Semicolon,
    Punctuator::Comma,
    Punctuator::Colon,
    Punctuator::Question,
    Punctuator::Less,
    Punctuator::Greater,
    Punctuator::Plus,
    Punctuator::Minus,
    Punctuator::Star,
    Punctuator::Slash,
    Punctuator::Percent,
    Punctuator::BitAnd,
    Punctuator::BitOr,
    Punctuator::BitXor,
    Punctuator::Bang,
    Punctuator::Tilde,
    Punctuator::Equal,
];

impl Punctuator {
    /// The spelling.
    pub fn text(self) -> &'static [char]
        ensures { result.now ≡ punctuator_text (punctuator_plain self) }
    {
        match self {
            Punctuator::Dot => &['.'],
            Punctuator::Ellipsis => &['.', '.', '.'],
            Punctuator::Semicolon => &[';'],
            Punctuator::Comma => &[','],
            Punctuator::Colon => &[':'],
            Punctuator::Question => &['?'],
            Punctuator::QuestionDot => &['?', '.'],
            Punctuator::Arrow => &['=', '>'],
            Punctuator::Less => &['<'],
            Punctuator::Greater => &['>'],
            Punctuator::LessEqual => &['<', '='],
            Punctuator::GreaterEqual => &['>', '='],
            Punctuator::EqualEqual => &['=', '='],
            Punctuator::NotEqual => &['!', '='],
            Punctuator::EqualEqualEqual => &['=', '=', '='],
            Punctuator::NotEqualEqual => &['!', '=', '='],
            Punctuator::Plus => &['+'],
            Punctuator::Minus => &['-'],
            Punctuator::Star => &['*'],
            Punctuator::Slash => &['/'],
            Punctuator::Percent => &['%'],
            Punctuator::StarStar => &['*', '*'],
            Punctuator::PlusPlus => &['+', '+'],
            Punctuator::MinusMinus => &['-', '-'],
            Punctuator::ShiftLeft => &['<', '<'],
            Punctuator::ShiftRight => &['>', '>'],
            Punctuator::ShiftRightZero => &['>', '>', '>'],
            Punctuator::BitAnd => &['&'],
            Punctuator::BitOr => &['|'],
            Punctuator::BitXor => &['^'],
            Punctuator::Bang => &['!'],
            Punctuator::Tilde => &['~'],
            Punctuator::AndAnd => &['&', '&'],
            Punctuator::OrOr => &['|', '|'],
            Punctuator::Nullish => &['?', '?'],
            Punctuator::Equal => &['='],
            Punctuator::PlusEqual => &['+', '='],
            Punctuator::MinusEqual => &['-', '='],
            Punctuator::StarEqual => &['*', '='],
            Punctuator::SlashEqual => &['/', '='],
            Punctuator::PercentEqual => &['%', '='],
            Punctuator::StarStarEqual => &['*', '*', '='],
            Punctuator::ShiftLeftEqual => &['<', '<', '='],
            Punctuator::ShiftRightEqual => &['>', '>', '='],
            Punctuator::ShiftRightZeroEqual => &['>', '>', '>', '='],
            Punctuator::BitAndEqual => &['&', '='],
            Punctuator::BitOrEqual => &['|', '='],
            Punctuator::BitXorEqual => &['^', '='],
            Punctuator::AndAndEqual => &['&', '&', '='],
            Punctuator::OrOrEqual => &['|', '|', '='],
            Punctuator::NullishEqual => &['?', '?', '='],
        }
    }

    // Whether the punctuator may stand before this text.
    fn may_precede(self, text: &[char]) -> bool
        ensures { result ≡ may_precede (punctuator_plain self) text.now }
    {
        let Some(next) = text.first() else {
            return true;
        };
        match self {
            Punctuator::Slash => *next != '/' && *next != '*',
            Punctuator::Dot => !next.is_ascii_digit(),
            Punctuator::QuestionDot => !next.is_ascii_digit(),
            _ => true,
        }
    }

    // Whether the punctuator stands at the front of the text.
    fn stands(self, text: &[char]) -> bool
        ensures { result ≡ stands (punctuator_plain self) text.now }
    {
        match text_behind(self.text(), text) {
            Some(rest) => self.may_precede(rest),
            None => false,
        }
    }
}

// What is left of the text behind these characters, where it begins with them.
pub(crate) fn text_behind<'a>(front: &[char], text: &'a [char]) -> Option<&'a [char]>
    ensures { option_copied result ≡ text_behind front.now text.now }
{
    let Some((wanted, front)) = front.split_first() else {
        return Some(text);
    };
    let (first, text) = text.split_first()?;
    if wanted == first {
        text_behind(front, text)
    } else {
        None
    }
}

// The longest punctuator at the front of the text.
pub(crate) fn sign_at(text: &[char]) -> Option<Punctuator>
    ensures { MatchOption result (HasNoSign text.now) (λ p. IsSignAt text.now (punctuator_plain p)) }
{
    first_standing(&LONGEST_FIRST, text)
}

// The first of these that stands there.
fn first_standing(signs: &[Punctuator], text: &[char]) -> Option<Punctuator>
    ensures { result ≡ find (λ p. stands (punctuator_plain p) text.now) signs.now }
{
    let (sign, others) = signs.split_first()?;
    if sign.stands(text) {
        Some(*sign)
    } else {
        first_standing(others, text)
    }
}
