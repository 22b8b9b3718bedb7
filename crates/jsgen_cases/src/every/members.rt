// What is printed for a member of each kind by the set of these kinds. No child is of that set, so that no program has one.
use crate::every::{NOWHERE, push_named};
use jsgen::{Codegen, Context, GenExpr};
use jsgen_syntax::{Memory, Precedence};
use jsgen_tree::{
    ComputedMemberExpression, Expression, ExpressionNode, IdentifierName, MemberExpression,
    PrivateFieldExpression, PrivateIdentifier, StaticMemberExpression, ThisExpression,
};
use std::alloc::Global;

pub fn push_member_expressions(alloc: Global, answer: &mut String) -> Result<(), Memory> {
    push_member(alloc, &by_name(alloc)?, answer)?;
    push_member(alloc, &by_value(alloc)?, answer)?;
    push_member(alloc, &by_private_name(alloc)?, answer)
}

fn push_member(alloc: Global, node: &MemberExpression, answer: &mut String) -> Result<(), Memory> {
    let mut printer = Codegen::new(alloc);
    let outcome = node.gen_expr(&mut printer, Precedence::Lowest, Context::default());
    push_named("MemberExpression", outcome, printer, answer)
}

fn this(alloc: Global) -> Result<ExpressionNode, Memory> {
    let this = Box::new(alloc, ThisExpression { span: NOWHERE })?;
    Ok(Expression::ThisExpression(this).into())
}

fn by_name(alloc: Global) -> Result<MemberExpression, Memory> {
    let property = IdentifierName {
        span: NOWHERE,
        name: String::from_str(alloc, "a")?,
    };
    let member = StaticMemberExpression {
        span: NOWHERE,
        object: this(alloc)?,
        optional: false,
        property: Box::new(alloc, property)?,
    };
    Ok(MemberExpression::StaticMemberExpression(Box::new(alloc, member)?))
}

fn by_value(alloc: Global) -> Result<MemberExpression, Memory> {
    let member = ComputedMemberExpression {
        span: NOWHERE,
        object: this(alloc)?,
        optional: false,
        expression: this(alloc)?,
    };
    Ok(MemberExpression::ComputedMemberExpression(Box::new(alloc, member)?))
}

fn by_private_name(alloc: Global) -> Result<MemberExpression, Memory> {
    let field = PrivateIdentifier {
        span: NOWHERE,
        name: String::from_str(alloc, "a")?,
    };
    let member = PrivateFieldExpression {
        span: NOWHERE,
        object: this(alloc)?,
        optional: false,
        field: Box::new(alloc, field)?,
    };
    Ok(MemberExpression::PrivateFieldExpression(Box::new(alloc, member)?))
}
