// The nodes of the statement, each by a function of its own.
ghost use Rattle.std.specs.Prelude.{◌≡◌, [], ◌∷◌, IfOk};
ghost use Rattle.std.specs.Str.{chars};
ghost use Rattle.jsgen_tree.specs.Plain.{node_plain, program_plain};
ghost use Rattle.jsgen_tree.specs.Rows.{expression_plain, in_argument, in_expression, in_statement, statement_plain};
ghost use Rattle.jsgen_uses.specs.Log.{reference, string, member, call, statement, only};

use jsgen::tree::{
    Argument, CallExpression, Expression, ExpressionNode, ExpressionStatement, IdentifierName,
    IdentifierReference, Program, Statement, StatementNode, StaticMemberExpression, StringLiteral,
};
use jsgen::{JsStr, Memory, SourceKind, Span};
use std::alloc::Global;

// What is built stands in no source.
const NOWHERE: Span = Span { start: 0, end: 0 };

fn nested(expression: Expression) -> ExpressionNode
    ensures { in_expression node_plain result ≡ expression_plain node_plain expression }
{
    expression.into()
}

/// A name that is looked up.
pub fn reference(alloc: Global, name: &str) -> Result<ExpressionNode, Memory>
    ensures { IfOk result (λ built. in_expression node_plain built ≡ reference (chars name.now)) }
{
    let name = String::from_str(alloc, name)?;
    let node = IdentifierReference {
        span: NOWHERE,
        name,
        reference: None,
    };
    Ok(nested(Expression::IdentifierReference(Box::new(alloc, node)?)))
}

/// A string of this text.
pub fn string(alloc: Global, text: &str) -> Result<ExpressionNode, Memory>
    ensures { IfOk result (λ built. in_expression node_plain built ≡ string (chars text.now)) }
{
    let value = JsStr::from_text(alloc, text)?;
    let node = StringLiteral {
        span: NOWHERE,
        value,
    };
    Ok(nested(Expression::StringLiteral(Box::new(alloc, node)?)))
}

/// A member by its name.
pub fn member(alloc: Global, object: ExpressionNode, name: &str) -> Result<ExpressionNode, Memory>
    ensures { IfOk result (λ built. in_expression node_plain built
        ≡ member (in_expression node_plain object) (chars name.now)) }
{
    let name = String::from_str(alloc, name)?;
    let property = IdentifierName {
        span: NOWHERE,
        name,
    };
    let node = StaticMemberExpression {
        span: NOWHERE,
        object,
        optional: false,
        property: Box::new(alloc, property)?,
    };
    Ok(nested(Expression::StaticMemberExpression(Box::new(alloc, node)?)))
}

fn argument(alloc: Global, value: ExpressionNode) -> Result<Argument, Memory>
    ensures { IfOk result (λ built. in_argument node_plain built ≡ in_expression node_plain value) }
{
    Ok(Argument::Expression(Box::new(alloc, value)?))
}

/// A call with two arguments.
pub fn call(
    alloc: Global,
    callee: ExpressionNode,
    first: ExpressionNode,
    second: ExpressionNode,
) -> Result<ExpressionNode, Memory>
    ensures { IfOk result (λ built. in_expression node_plain built
        ≡ call (in_expression node_plain callee) (in_expression node_plain first ∷ in_expression node_plain second ∷ [])) }
{
    let mut arguments = Vec::new(alloc);
    arguments.push(argument(alloc, first)?)?;
    arguments.push(argument(alloc, second)?)?;
    let node = CallExpression {
        span: NOWHERE,
        callee,
        arguments,
        optional: false,
        pure: false,
    };
    Ok(nested(Expression::CallExpression(Box::new(alloc, node)?)))
}

fn nested_statement(statement: Statement) -> StatementNode
    ensures { in_statement node_plain result ≡ statement_plain node_plain statement }
{
    statement.into()
}

/// A statement, for what the expression does.
pub fn statement(alloc: Global, expression: ExpressionNode) -> Result<StatementNode, Memory>
    ensures { IfOk result (λ built. in_statement node_plain built ≡ statement (in_expression node_plain expression)) }
{
    let node = ExpressionStatement {
        span: NOWHERE,
        expression,
    };
    Ok(nested_statement(Statement::ExpressionStatement(Box::new(alloc, node)?)))
}

/// A module of one statement.
pub fn only(alloc: Global, statement: StatementNode) -> Result<Program, Memory>
    ensures { IfOk result (λ built. program_plain built ≡ only (in_statement node_plain statement)) }
{
    let mut body = Vec::new(alloc);
    body.push(statement)?;
    Ok(Program {
        span: NOWHERE,
        source: String::new(alloc),
        kind: SourceKind::Module,
        comments: Vec::new(alloc),
        hashbang: None,
        directives: Vec::new(alloc),
        body,
    })
}
