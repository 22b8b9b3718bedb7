// What is printed for the first statement of a program, and for the expression in it.
ghost use Rattle.std.specs.Prelude.{◌≡◌, false, IfOk};
ghost use Rattle.jsgen.specs.Codegen.{has_failed};

use crate::level::{context_of, level_of};
use crate::push::{push_numbers, push_where};
use jsgen::{Codegen, CodegenError, Context, Gen, GenExpr, TreeFault};
use jsgen_asked::{Inner, inner_expression};
use jsgen_syntax::{Memory, Precedence, Span};
use jsgen_tree::{
    Bare, Declaration, Expression, FormalParameters, GetSpan, Node, ObjectProperty,
    ObjectPropertyKind, Program, Statement, VariableDeclaration,
};
use std::alloc::Global;

/// The expression of the first statement, without parentheses round it.
pub fn expression_in(program: &Program) -> Option<&Expression> {
    match program.body.as_slice().first()?.get() {
        Node::Statement(Statement::ExpressionStatement(node)) => {
            match inner_expression(node.expression.get()) {
                Some(Inner::Expression(expression)) => Some(expression),
                _ => None,
            }
        }
        _ => None,
    }
}

/// What a printer printed, which had printed nothing before.
pub fn push_code(
    had_printed: bool,
    outcome: Result<(), CodegenError>,
    printer: Codegen<'_>,
    answer: &mut String,
) -> Result<(), Memory> {
    push_where(
        answer,
        &[
            (had_printed, "not new: "),
            (outcome.is_err(), "failed: "),
            (printer.has_failed(), "stopped: "),
            (!printer.has_printed(), "nothing: "),
        ],
    )?;
    Ok(answer.push_str(&String::from(printer))?)
}

/// Prints what is asked, by a printer that hasn't printed anything.
pub fn print_asked(
    printer: &mut Codegen<'_>,
    asked: &str,
    program: &Program,
) -> Result<(), CodegenError>
    requires unfailed { has_failed printer.old ≡ false }
{
    let (what, how) = asked.split_once(' ').unwrap_or((asked, ""));
    match (what, expression_in(program)) {
        ("at", Some(node)) => print_at(printer, how, node),
        ("alone", Some(node)) => match printer.check_expression(node) {
            Ok(()) => printer.print_expression(node),
            Err(TreeFault::Place { start: 0 }) => printer.print_str("refused: Place at 0"),
            Err(_) => printer.print_str("refused"),
        },
        ("pieces", Some(node)) => print_pieces(printer, how, node),
        ("string", _) => printer.print_string(how),
        _ => print_nodes(printer, program),
    }
}

// Twice at a level, each time by another call, with a bar between. A context may stand behind the level.
fn print_at<E: GenExpr>(printer: &mut Codegen<'_>, how: &str, node: &E) -> Result<(), CodegenError>
    requires unfailed { has_failed printer.old ≡ false }
{
    let (level, context) = how.split_once(' ').unwrap_or((how, ""));
    let level = level_of(level);
    let context = context_of(context);
    node.gen_expr(printer, level, context)?;
    printer.print_str("|")?;
    node.print_expr(printer, level, context)
}

// A text by each call that prints one, with the node behind the first two: a word stands apart from a name, and an object
// begins nothing there.
fn print_pieces<E: GenExpr>(
    printer: &mut Codegen<'_>,
    text: &str,
    node: &E,
) -> Result<(), CodegenError>
    requires { has_failed printer.old ≡ false }
{
    printer.print_name(text)?;
    node.print_expr(printer, Precedence::Lowest, Context::default())?;
    printer.print_str(text)?;
    node.print_expr(printer, Precedence::Lowest, Context::default())?;
    printer.print_ascii_byte(b'=')?;
    printer.print_str_escaping_script_close_tag(text)
}

// Twice by itself, each time by another call and with a bar behind it.
fn print_twice<G: Gen>(printer: &mut Codegen<'_>, node: &G) -> Result<(), CodegenError>
    requires unfailed { has_failed printer.old ≡ false }
    ensures { IfOk result (λ _. has_failed printer.new ≡ false) }
{
    node.print(printer, Context::default())?;
    printer.print_str("|")?;
    node.gen_node(printer, Context::FORBID_IN)?;
    printer.print_str("|")
}

// The first statement, and the declaration, what a loop's head begins with, the case, the property with its key, or the
// parameters in it, each by itself.
fn print_nodes(printer: &mut Codegen<'_>, program: &Program) -> Result<(), CodegenError>
    requires unfailed { has_failed printer.old ≡ false }
{
    let [first] = program.body.as_slice() else {
        return Ok(());
    };
    let Node::Statement(statement) = first.get() else {
        return Ok(());
    };
    print_twice(printer, statement)?;
    match (statement, expression_in(program)) {
        (Statement::Declaration(declaration), _) => match declaration.get() {
            Node::Declaration(Declaration::VariableDeclaration(declaration)) => print_declaration(
                printer,
                declaration,
            ),
            _ => Ok(()),
        },
        (Statement::ForStatement(node), _) => match &node.init {
            Some(init) => print_twice(printer, init),
            None => Ok(()),
        },
        (Statement::ForInStatement(node), _) => print_twice(printer, &node.left),
        (Statement::SwitchStatement(node), _) => match node.cases.as_slice() {
            [case] => print_twice(printer, case),
            _ => Ok(()),
        },
        (_, Some(Expression::ObjectExpression(object))) => match object.properties.as_slice() {
            [ObjectPropertyKind::ObjectProperty(property)] => print_property(printer, property),
            _ => Ok(()),
        },
        (_, Some(Expression::ArrowFunctionExpression(function))) => print_parameters(
            printer,
            &function.params,
        ),
        _ => Ok(()),
    }
}

// A declaration, and its word.
fn print_declaration(
    printer: &mut Codegen<'_>,
    declaration: &VariableDeclaration,
) -> Result<(), CodegenError>
    requires unfailed { has_failed printer.old ≡ false }
{
    print_twice(printer, declaration)?;
    printer.print_str(declaration.kind.as_str())
}

// A property's key, and the property.
fn print_property(printer: &mut Codegen<'_>, property: &ObjectProperty) -> Result<(), CodegenError>
    requires unfailed { has_failed printer.old ≡ false }
{
    print_twice(printer, &property.key)?;
    print_twice(printer, property)
}

// Parameters, and where there are two and a rest the second and the rest.
fn print_parameters(
    printer: &mut Codegen<'_>,
    params: &FormalParameters,
) -> Result<(), CodegenError>
    requires unfailed { has_failed printer.old ≡ false }
{
    print_twice(printer, params)?;
    match (params.items.as_slice(), &params.rest) {
        ([_, second], Some(rest)) => {
            print_twice(printer, second)?;
            print_twice(printer, &**rest)
        }
        _ => Ok(()),
    }
}

/// The spans of a program of two statements, of the first one, of its expression, of what a parent asks about in its parentheses, of
/// what stands within all of them, and of the second statement.
pub fn push_spans(alloc: Global, program: &Program, answer: &mut String) -> Result<(), Memory> {
    let [first, second] = program.body.as_slice() else {
        return Ok(());
    };
    let Node::Statement(Statement::ExpressionStatement(node)) = first.get() else {
        return Ok(());
    };
    let whole = node.expression.get();
    let Some(Inner::Expression(inner)) = inner_expression(whole) else {
        return Ok(());
    };
    let Bare::Expression(bare) = whole.without_parentheses() else {
        return Ok(());
    };
    let spans = [
        program.span(),
        first.get().span(),
        whole.span(),
        inner.span(),
        bare.span(),
        second.get().span(),
    ];
    let has_inner = inner_expression(second.get()).is_some();
    push_each_span(alloc, &spans, has_inner, answer)
}

fn push_each_span(
    alloc: Global,
    spans: &[Span],
    has_inner: bool,
    answer: &mut String,
) -> Result<(), Memory> {
    for span in spans {
        push_numbers(alloc, &[span.start, span.end], answer)?;
    }
    push_where(answer, &[(has_inner, " with an expression")])
}
