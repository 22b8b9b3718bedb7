ghost use Rattle.std.specs.Prelude.{◌≡◌};
ghost use Rattle.jsgen_syntax.specs.Precedence.{is_left_associative, is_right_associative, LevelsAreOrdered};

/// How tightly an expression holds together, from the loosest to the tightest.
#[derive(Clone, Copy, Debug, PartialEq, Eq, PartialOrd, Ord)]
pub enum Precedence {
    Lowest,
    Comma,
    Spread,
    Yield,
    Assign,
    Conditional,
    NullishCoalescing,
    LogicalOr,
    LogicalAnd,
    BitwiseOr,
    BitwiseXor,
    BitwiseAnd,
    Equals,
    Compare,
    Shift,
    Add,
    Multiply,
    Exponentiation,
    Prefix,
    Postfix,
    New,
    Call,
    Member,
}

impl Precedence {
    /// Whether operators of this level group from the left: true of the binary and logical levels but Exponentiation.
    pub fn is_left_associative(self) -> bool
        ensures { result ≡ is_left_associative self }
    {
        matches!(
            &self,
            Precedence::NullishCoalescing
                | Precedence::LogicalOr
                | Precedence::LogicalAnd
                | Precedence::BitwiseOr
                | Precedence::BitwiseXor
                | Precedence::BitwiseAnd
                | Precedence::Equals
                | Precedence::Compare
                | Precedence::Shift
                | Precedence::Add
                | Precedence::Multiply
        )
    }

    /// Whether operators of this level group from the right: Exponentiation, Conditional and Assign.
    pub fn is_right_associative(self) -> bool
        ensures { result ≡ is_right_associative self }
    {
        matches!(
            &self,
            Precedence::Exponentiation | Precedence::Conditional | Precedence::Assign
        )
    }
}

/// The level of an operator.
pub trait GetPrecedence {
    ghost use Rattle.jsgen_syntax.specs.declared.precedence.Precedence.{Precedence};

    ghost level: { Self → Precedence };

    fn precedence(&self) -> Precedence
        ensures { result ≡ level self.now };
}

/// The levels are totally ordered, and neither of two is above the other only where they are one.
pub fn levels_are_ordered()
    ensures { LevelsAreOrdered }
{}
