// Which strings stand alone, without the parentheses that they may have round them.
ghost use Rattle.std.specs.Prelude.{◌≡◌, option_map};
ghost use Rattle.jsgen_syntax.specs.Units.{js_units};
ghost use Rattle.jsgen_tree.specs.Inside.{inside_parentheses};
ghost use Rattle.jsgen_asked.specs.Inner.{inner_plain};
ghost use Rattle.jsgen_tree.specs.Rows.{expression_plain};
ghost use Rattle.jsgen_tree.specs.Plain.{node_plain};
ghost use Rattle.jsgen_tree.specs.Tree.{span_of};
ghost use Rattle.jsgen_model.specs.Spell.{string_in, string_statement, span_inside};

use jsgen_asked::{Inner, inner_expression};
use jsgen_syntax::{JsStr, Span};
use jsgen_tree::{Expression, GetSpan, Node, Statement};

/// The string that a node is, without the parentheses that it may have round it.
pub fn string(node: &Node) -> Option<&JsStr>
    ensures { option_map (λ v. js_units v.now) result ≡ string_in (inside_parentheses (node_plain node.now)) }
{
    match inner_expression(node) {
        Some(inner) => inner_string(inner),
        None => None,
    }
}

/// The string that stands within parentheses.
pub fn inner_string(inner: Inner<'_>) -> Option<&JsStr>
    ensures { option_map (λ v. js_units v.now) result ≡ string_in (inner_plain inner.entry) }
{
    match inner {
        Inner::Expression(expression) => bare_string(expression),
        Inner::Target(_) => None,
    }
}

/// The string that an expression is.
pub fn bare_string(expression: &Expression) -> Option<&JsStr>
    ensures { option_map (λ v. js_units v.now) result ≡ string_in (expression_plain node_plain expression.now) }
{
    match expression {
        Expression::StringLiteral(node) => Some(&node.value),
        _ => None,
    }
}

/// Where what an expression statement says stands, without the parentheses that it may have round it; of any other node where it stands.
#[cycle(inside_span)]
pub fn inside_span(node: &Node) -> Span
    ensures { result ≡ span_inside (node_plain node.now) }
{
    match node {
        Node::Expression(_) => node.span(),
        Node::AssignmentTarget(_) => node.span(),
        Node::Declaration(_) => node.span(),
        Node::BindingPattern(_) => node.span(),
        Node::ClassElement(_) => node.span(),
        Node::Statement(statement) => match statement {
            Statement::Declaration(node) => inside_span(node.get()),
            Statement::ExpressionStatement(node) => bare_span(node.expression.get()),
            _ => node.span(),
        },
    }
}

// Where a node stands, without the parentheses that it may have round it.
fn bare_span(node: &Node) -> Span
    ensures { result ≡ span_of (inside_parentheses (node_plain node.now)) }
{
    match inner_expression(node) {
        Some(inner) => inner_span(inner),
        None => node.span(),
    }
}

/// Where what stands within parentheses stands.
pub fn inner_span(inner: Inner<'_>) -> Span
    ensures { result ≡ span_of (inner_plain inner.entry) }
{
    match inner {
        Inner::Expression(expression) => expression.span(),
        Inner::Target(target) => target.span(),
    }
}

/// The string that is the whole of a node as a statement.
#[cycle(string_statement)]
pub fn string_statement(node: &Node) -> Option<&JsStr>
    ensures { option_map (λ v. js_units v.now) result ≡ string_statement (node_plain node.now) }
{
    match node {
        Node::Expression(_) => None,
        Node::AssignmentTarget(_) => None,
        Node::Declaration(_) => None,
        Node::BindingPattern(_) => None,
        Node::ClassElement(_) => None,
        Node::Statement(statement) => match statement {
            Statement::Declaration(node) => string_statement(node.get()),
            Statement::ExpressionStatement(node) => string(node.expression.get()),
            _ => None,
        },
    }
}
