// What an operation asks of its operands.
ghost use Rattle.std.specs.Prelude.{◌≡◌};
ghost use Rattle.jsgen_syntax.specs.declared.operator.BinaryOperator.TheVariants as operators;
ghost use Rattle.jsgen_syntax.specs.declared.operator.LogicalOperator.TheVariants as logical_operators;
ghost use Rattle.jsgen_tree.specs.Tree.{Tree};
ghost use Rattle.jsgen_tree.specs.Inside.{inside_parentheses};
ghost use Rattle.jsgen_tree.specs.Plain.{node_plain};
ghost use Rattle.jsgen_model.specs.Spell.{left_level, right_level, unmixed, is_or_or_and};
ghost use Rattle.jsgen_questions.specs.Operands.{operand_of};

use jsgen_asked::{Inner, inner_expression};
use jsgen_syntax::{BinaryOperator, GetPrecedence, LogicalOperator, Precedence};
use jsgen_tree::{Expression, Node};

/// What matters of an operand, without the parentheses that it may have round it.
#[derive(Clone, Copy)]
pub struct Operand {
    /// A number, or an operation that a prefix operator or `await` begins.
    pub is_prefixed: bool,
    /// An operation by `||` or `&&`.
    pub mixes: bool,
}

impl Operand {
    pub const OTHER: Operand = Operand {
        is_prefixed: false,
        mixes: false,
    };

    pub const PREFIXED: Operand = Operand {
        is_prefixed: true,
        mixes: false,
    };
}

/// What matters of a node as an operand.
pub fn operand_of(node: &Node) -> Operand
    ensures { result ≡ operand_of (inside_parentheses (node_plain node.now)) }
{
    match inner_expression(node) {
        Some(
            Inner::Expression(
                Expression::NumericLiteral(_)
                | Expression::BigIntLiteral(_)
                | Expression::UnaryExpression(_)
                | Expression::AwaitExpression(_),
            ),
        ) => Operand::PREFIXED,
        Some(Inner::Expression(Expression::LogicalExpression(node))) => Operand {
            is_prefixed: false,
            mixes: is_or_or_and(node.operator),
        },
        _ => Operand::OTHER,
    }
}

fn is_or_or_and(operator: LogicalOperator) -> bool
    ensures { result ≡ is_or_or_and operator }
{
    !matches!(&operator, LogicalOperator::Coalesce)
}

/// Just below the operator's own; but of `**`, which groups to the right, its own, and where a prefix operator or `await` may begin the operand a call's.
pub fn left_level(operator: BinaryOperator, left: Operand) -> Precedence
    ensures { (t : Tree) → left ≡ operand_of (inside_parentheses t) → result ≡ left_level operator t }
{
    match operator {
        BinaryOperator::Exponential => base_level(left),
        _ => operator.lower_precedence(),
    }
}

fn base_level(left: Operand) -> Precedence
    ensures { (t : Tree) → left ≡ operand_of (inside_parentheses t) → result ≡ left_level operators.Exponential t }
{
    if left.is_prefixed {
        Precedence::Call
    } else {
        Precedence::Exponentiation
    }
}

/// The operator's own; but of `**`, which groups to the right, the one below.
pub fn right_level(operator: BinaryOperator) -> Precedence
    ensures { result ≡ right_level operator }
{
    match operator {
        BinaryOperator::Exponential => Precedence::Multiply,
        _ => operator.precedence(),
    }
}

/// The level of an operand of `??` is raised, so that `||` and `&&` stand in parentheses there (ECMA-262, 13.13).
pub fn unmixed(operator: LogicalOperator, operand: Operand, level: Precedence) -> Precedence
    ensures { (t : Tree) → operand ≡ operand_of (inside_parentheses t) → result ≡ unmixed operator t level }
{
    match operator {
        LogicalOperator::Coalesce => coalesced(operand, level),
        LogicalOperator::Or | LogicalOperator::And => level,
    }
}

fn coalesced(operand: Operand, level: Precedence) -> Precedence
    ensures { (t : Tree) → operand ≡ operand_of (inside_parentheses t) → result ≡ unmixed logical_operators.Coalesce t level }
{
    if operand.mixes {
        Precedence::Prefix
    } else {
        level
    }
}
