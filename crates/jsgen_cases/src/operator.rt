// Operators.
use crate::push::push_where;
use jsgen::Operator;
use jsgen_syntax::{
    BinaryOperator, GetPrecedence, LogicalOperator, Memory, Precedence, UnaryOperator,
    UpdateOperator,
};
use jsgen_tree::Expression;
use std::alloc::Global;

/// The spelling of the operation's operator, its level and the one below, and, where a call says it, whether it is an equality
/// and a word.
pub fn push_operator(
    alloc: Global,
    node: Option<&Expression>,
    answer: &mut String,
) -> Result<(), Memory> {
    match node {
        Some(Expression::BinaryExpression(node)) => push_binary(alloc, node.operator, answer),
        Some(Expression::LogicalExpression(node)) => push_logical(alloc, node.operator, answer),
        _ => Ok(answer.push_str("no operator")?),
    }
}

fn push_binary(alloc: Global, operator: BinaryOperator, answer: &mut String) -> Result<(), Memory> {
    let (level, lower) = (operator.precedence(), operator.lower_precedence());
    push_levels(alloc, operator.as_str(), level, lower, answer)?;
    push_where(
        answer,
        &[
            (operator.is_equality(), " equality"),
            (operator.is_keyword(), " word"),
        ],
    )
}

fn push_logical(
    alloc: Global,
    operator: LogicalOperator,
    answer: &mut String,
) -> Result<(), Memory> {
    let (level, lower) = (operator.precedence(), operator.lower_precedence());
    push_levels(alloc, operator.as_str(), level, lower, answer)
}

fn push_levels(
    alloc: Global,
    text: &str,
    level: Precedence,
    lower: Precedence,
    answer: &mut String,
) -> Result<(), Memory> {
    let said = format!(in alloc; " {text} {level:?} {lower:?}")?;
    Ok(answer.push_str(&said)?)
}

/// What wraps an operator of each kind.
pub fn push_wrapped(alloc: Global, answer: &mut String) -> Result<(), Memory> {
    let binary = Operator::from(BinaryOperator::In);
    let unary = Operator::from(UnaryOperator::Void);
    let update = Operator::from(UpdateOperator::Increment);
    let said = format!(in alloc; "{binary:?} {unary:?} {update:?}")?;
    Ok(answer.push_str(&said)?)
}
