ghost use Rattle.std.specs.Prelude.{◌≡◌, ◌==◌};
ghost use Rattle.std.specs.List.{list_all};
ghost use Rattle.std.specs.Char.{is_ascii_alphabetic};
ghost use Rattle.jsgen_syntax.specs.Operator.{binary_text, binary_level, lower_level, logical_text, logical_level, logical_lower_level, unary_text, unary_level, update_text, assignment_text, assignment_level};
ghost use Rattle.jsgen_syntax.specs.Precedence.{rank};

use crate::precedence::{GetPrecedence, Precedence};

/// The operators of a binary operation (ECMA-262, 13.6 to 13.12).
#[derive(Clone, Copy, Debug, PartialEq, Eq, Hash)]
pub enum BinaryOperator {
    Equality,
    Inequality,
    StrictEquality,
    StrictInequality,
    LessThan,
    LessEqualThan,
    GreaterThan,
    GreaterEqualThan,
    Addition,
    Subtraction,
    Multiplication,
    Division,
    Remainder,
    Exponential,
    ShiftLeft,
    ShiftRight,
    ShiftRightZeroFill,
    BitwiseOR,
    BitwiseXOR,
    BitwiseAnd,
    In,
    Instanceof,
}

impl BinaryOperator {
    /// The spelling.
    pub fn as_str(self) -> &'static str
        ensures { result.now ≡ binary_text self }
    {
        match self {
            BinaryOperator::Equality => "==",
            BinaryOperator::Inequality => "!=",
            BinaryOperator::StrictEquality => "===",
            BinaryOperator::StrictInequality => "!==",
            BinaryOperator::LessThan => "<",
            BinaryOperator::LessEqualThan => "<=",
            BinaryOperator::GreaterThan => ">",
            BinaryOperator::GreaterEqualThan => ">=",
            BinaryOperator::Addition => "+",
            BinaryOperator::Subtraction => "-",
            BinaryOperator::Multiplication => "*",
            BinaryOperator::Division => "/",
            BinaryOperator::Remainder => "%",
            BinaryOperator::Exponential => "**",
            BinaryOperator::ShiftLeft => "<<",
            BinaryOperator::ShiftRight => ">>",
            BinaryOperator::ShiftRightZeroFill => ">>>",
            BinaryOperator::BitwiseOR => "|",
            BinaryOperator::BitwiseXOR => "^",
            BinaryOperator::BitwiseAnd => "&",
            BinaryOperator::In => "in",
            BinaryOperator::Instanceof => "instanceof",
        }
    }

    /// Whether the spelling is letters.
    pub fn is_keyword(self) -> bool
        ensures { result ≡ list_all is_ascii_alphabetic (binary_text self) }
    {
        matches!(&self, BinaryOperator::In | BinaryOperator::Instanceof)
    }

    /// Whether its level is Equals.
    pub fn is_equality(self) -> bool
        ensures { result ≡ (rank (binary_level self) == rank Precedence.Equals) }
    {
        self.precedence() == Precedence::Equals
    }

    /// The level just below its own.
    pub fn lower_precedence(self) -> Precedence
        ensures { result ≡ lower_level self }
    {
        match self {
            BinaryOperator::Equality
            | BinaryOperator::Inequality
            | BinaryOperator::StrictEquality
            | BinaryOperator::StrictInequality => Precedence::BitwiseAnd,
            BinaryOperator::LessThan
            | BinaryOperator::LessEqualThan
            | BinaryOperator::GreaterThan
            | BinaryOperator::GreaterEqualThan
            | BinaryOperator::In
            | BinaryOperator::Instanceof => Precedence::Equals,
            BinaryOperator::Addition | BinaryOperator::Subtraction => Precedence::Shift,
            BinaryOperator::Multiplication | BinaryOperator::Division | BinaryOperator::Remainder =>
                Precedence::Add,
            BinaryOperator::Exponential => Precedence::Multiply,
            BinaryOperator::ShiftLeft
            | BinaryOperator::ShiftRight
            | BinaryOperator::ShiftRightZeroFill => Precedence::Compare,
            BinaryOperator::BitwiseOR => Precedence::LogicalAnd,
            BinaryOperator::BitwiseXOR => Precedence::BitwiseOr,
            BinaryOperator::BitwiseAnd => Precedence::BitwiseXor,
        }
    }
}

impl GetPrecedence for BinaryOperator {
    ghost level = { λ operator. binary_level operator };

    fn precedence(&self) -> Precedence {
        match self {
            BinaryOperator::Equality
            | BinaryOperator::Inequality
            | BinaryOperator::StrictEquality
            | BinaryOperator::StrictInequality => Precedence::Equals,
            BinaryOperator::LessThan
            | BinaryOperator::LessEqualThan
            | BinaryOperator::GreaterThan
            | BinaryOperator::GreaterEqualThan
            | BinaryOperator::In
            | BinaryOperator::Instanceof => Precedence::Compare,
            BinaryOperator::Addition | BinaryOperator::Subtraction => Precedence::Add,
            BinaryOperator::Multiplication | BinaryOperator::Division | BinaryOperator::Remainder =>
                Precedence::Multiply,
            BinaryOperator::Exponential => Precedence::Exponentiation,
            BinaryOperator::ShiftLeft
            | BinaryOperator::ShiftRight
            | BinaryOperator::ShiftRightZeroFill => Precedence::Shift,
            BinaryOperator::BitwiseOR => Precedence::BitwiseOr,
            BinaryOperator::BitwiseXOR => Precedence::BitwiseXor,
            BinaryOperator::BitwiseAnd => Precedence::BitwiseAnd,
        }
    }
}

/// The operators that may leave their right operand alone (ECMA-262, 13.13).
#[derive(Clone, Copy, Debug, PartialEq, Eq, Hash)]
pub enum LogicalOperator {
    Or,
    And,
    Coalesce,
}

impl LogicalOperator {
    /// The spelling.
    pub fn as_str(self) -> &'static str
        ensures { result.now ≡ logical_text self }
    {
        match self {
            LogicalOperator::Or => "||",
            LogicalOperator::And => "&&",
            LogicalOperator::Coalesce => "??",
        }
    }

    /// The level just below its own.
    pub fn lower_precedence(self) -> Precedence
        ensures { result ≡ logical_lower_level self }
    {
        match self {
            LogicalOperator::Or => Precedence::NullishCoalescing,
            LogicalOperator::And => Precedence::LogicalOr,
            LogicalOperator::Coalesce => Precedence::Conditional,
        }
    }
}

impl GetPrecedence for LogicalOperator {
    ghost level = { λ operator. logical_level operator };

    fn precedence(&self) -> Precedence {
        match self {
            LogicalOperator::Or => Precedence::LogicalOr,
            LogicalOperator::And => Precedence::LogicalAnd,
            LogicalOperator::Coalesce => Precedence::NullishCoalescing,
        }
    }
}

/// The operators before one operand (ECMA-262, 13.5).
#[derive(Clone, Copy, Debug, PartialEq, Eq, Hash)]
pub enum UnaryOperator {
    UnaryPlus,
    UnaryNegation,
    LogicalNot,
    BitwiseNot,
    Typeof,
    Void,
    Delete,
}

impl UnaryOperator {
    /// The spelling.
    pub fn as_str(self) -> &'static str
        ensures { result.now ≡ unary_text self }
    {
        match self {
            UnaryOperator::UnaryPlus => "+",
            UnaryOperator::UnaryNegation => "-",
            UnaryOperator::LogicalNot => "!",
            UnaryOperator::BitwiseNot => "~",
            UnaryOperator::Typeof => "typeof",
            UnaryOperator::Void => "void",
            UnaryOperator::Delete => "delete",
        }
    }

    /// Whether the spelling is letters.
    pub fn is_keyword(self) -> bool
        ensures { result ≡ list_all is_ascii_alphabetic (unary_text self) }
    {
        matches!(
            &self,
            UnaryOperator::Typeof | UnaryOperator::Void | UnaryOperator::Delete
        )
    }
}

impl GetPrecedence for UnaryOperator {
    ghost level = { λ operator. unary_level operator };

    fn precedence(&self) -> Precedence {
        Precedence::Prefix
    }
}

/// The operators that change what their operand names, before it or behind it (ECMA-262, 13.4).
#[derive(Clone, Copy, Debug, PartialEq, Eq, Hash)]
pub enum UpdateOperator {
    Increment,
    Decrement,
}

impl UpdateOperator {
    /// The spelling.
    pub fn as_str(self) -> &'static str
        ensures { result.now ≡ update_text self }
    {
        match self {
            UpdateOperator::Increment => "++",
            UpdateOperator::Decrement => "--",
        }
    }
}

/// The operators of an assignment (ECMA-262, 13.15).
#[derive(Clone, Copy, Debug, PartialEq, Eq, Hash)]
pub enum AssignmentOperator {
    Assign,
    Addition,
    Subtraction,
    Multiplication,
    Division,
    Remainder,
    Exponential,
    ShiftLeft,
    ShiftRight,
    ShiftRightZeroFill,
    BitwiseOR,
    BitwiseXOR,
    BitwiseAnd,
    LogicalOr,
    LogicalAnd,
    LogicalNullish,
}

impl AssignmentOperator {
    /// The spelling.
    pub fn as_str(self) -> &'static str
        ensures { result.now ≡ assignment_text self }
    {
        match self {
            AssignmentOperator::Assign => "=",
            AssignmentOperator::Addition => "+=",
            AssignmentOperator::Subtraction => "-=",
            AssignmentOperator::Multiplication => "*=",
            AssignmentOperator::Division => "/=",
            AssignmentOperator::Remainder => "%=",
            AssignmentOperator::Exponential => "**=",
            AssignmentOperator::ShiftLeft => "<<=",
            AssignmentOperator::ShiftRight => ">>=",
            AssignmentOperator::ShiftRightZeroFill => ">>>=",
            AssignmentOperator::BitwiseOR => "|=",
            AssignmentOperator::BitwiseXOR => "^=",
            AssignmentOperator::BitwiseAnd => "&=",
            AssignmentOperator::LogicalOr => "||=",
            AssignmentOperator::LogicalAnd => "&&=",
            AssignmentOperator::LogicalNullish => "??=",
        }
    }
}

impl GetPrecedence for AssignmentOperator {
    ghost level = { λ operator. assignment_level operator };

    fn precedence(&self) -> Precedence {
        Precedence::Assign
    }
}
