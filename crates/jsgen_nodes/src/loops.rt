// Loops (ECMA-262, 14.7), one function for each row.
ghost use Rattle.jsgen_tree.specs.Rows.{for_statement_row, do_while_statement_row, in_for_statement_init, in_statement, for_in_statement_row, for_of_statement_row, in_for_statement_left};
ghost use Rattle.jsgen_place.specs.Place.{within_statement, among_statements};
ghost use Rattle.jsgen_model.specs.Spell.{spell, shape, do_items, left_place, items_if, before_of, apart_from_of};
ghost use Rattle.jsgen_printer.specs.Steps.{Lays};
ghost use Rattle.std.specs.Prelude.{◌≡◌, codes};
ghost use Rattle.jsgen_tree.specs.Tree.{type_of, span_of};
ghost use Rattle.jsgen_tree.specs.Inside.{looked_up_in};
ghost use Rattle.jsgen_model.specs.Punctuator.{Round};
ghost use Rattle.jsgen_model.specs.Items.{◌⊕◌, word, hard_space, brackets};
ghost use Rattle.jsgen_printer.specs.Printer.{pen_of};
ghost use Rattle.jsgen_nodes.specs.Keys.{is_said};

use crate::PrintNode;
use crate::inside::Inside;
use crate::statements::Statements;
use crate::targets::is_bare_said;
use jsgen_classes::print_private_field_expression;
use jsgen_inside::{Nested, print_body, print_identifier_reference, shape_of};
use jsgen_lists::{PrintMember, print_apart, print_deeper_body, print_if_given};
use jsgen_place::{Place, Shape};
use jsgen_printer::{Bracket, Printer};
use jsgen_spelled::print_variable_declaration;
use jsgen_syntax::Precedence;
use jsgen_tree::{
    DoWhileStatement, ForInStatement, ForOfStatement, ForStatement, ForStatementInit,
    ForStatementLeft, NodeType, StatementNode,
};

pub fn print_for_statement<N: PrintNode>(node: &ForStatement<N>, p: &mut Printer<'_>, place: Place)
    ensures { Lays p.old p.new (spell (for_statement_row N.plain node.now) place) }
{
    let _ = place;
    let first = Place::loop_head();
    let within = Place::in_brackets(Precedence::Lowest);
    p.print_comments(node.span.start);
    p.print_indentation();
    p.print_marked_word(node.span, "for");
    p.print_soft_space();
    p.print_opening(Bracket::Round);
    print_if_given::<_, Inits>(&node.init, p, first);
    p.print_semicolon();
    print_apart::<_, Nested<Inside>>(&node.test, p, within);
    p.print_semicolon();
    print_apart::<_, Nested<Inside>>(&node.update, p, within);
    p.print_closing(Bracket::Round);
    print_body::<_, Inside>(node.body.get(), p);
}

/// What is done before a loop.
pub struct Inits;

impl<N: PrintNode> PrintMember<ForStatementInit<N>> for Inits {
    ghost plain = { in_for_statement_init N.plain };

    fn print_member(init: &ForStatementInit<N>, p: &mut Printer<'_>, place: Place) {
        match init {
            ForStatementInit::VariableDeclaration(node) => print_variable_declaration::<_, Inside>(
                node, p, place,
            ),
            ForStatementInit::Expression(node) => node.get().print(p, place),
        }
    }
}

pub fn print_do_while_statement<N: PrintNode>(
    node: &DoWhileStatement<N>,
    p: &mut Printer<'_>,
    place: Place,
)
    ensures { Lays p.old p.new (spell (do_while_statement_row N.plain node.now) place) }
{
    let _ = place;
    p.print_comments(node.span.start);
    p.print_indentation();
    p.print_marked_word(node.span, "do");
    print_do_body(&node.body, p);
    p.print_word("while");
    p.print_soft_space();
    p.print_opening(Bracket::Round);
    node.test
        .get()
        .print(p, Place::in_brackets(Precedence::Lowest));
    p.print_closing(Bracket::Round);
    p.print_statement_end();
}

// What stands between `do` and `while`: a statement that is no block is a line of its own, with its semicolon.
fn print_do_body<N: PrintNode>(body: &StatementNode<N>, p: &mut Printer<'_>)
    ensures { Lays p.old p.new (do_items (span_of (in_statement N.plain body.now)) (shape (in_statement N.plain body.now)) (spell (in_statement N.plain body.now) within_statement) (spell (in_statement N.plain body.now) among_statements)) }
{
    let statement = body.get();
    match shape_of::<_, Inside>(statement) {
        Shape::Block => {
            p.print_soft_space();
            statement.print(p, Place::within_statement());
            p.print_soft_space();
        }
        Shape::Empty => {
            let span = statement.span();
            p.print_comments(span.start);
            p.print_mark(span);
            p.print_semicolon();
            p.print_soft_line();
            p.print_indentation();
        }
        Shape::If => print_deeper_body::<_, Statements>(body, p),
        Shape::Other => print_deeper_body::<_, Statements>(body, p),
    }
}

pub fn print_for_in_statement<N: PrintNode>(
    node: &ForInStatement<N>,
    p: &mut Printer<'_>,
    place: Place,
)
    ensures { Lays p.old p.new (spell (for_in_statement_row N.plain node.now) place) }
{
    let _ = place;
    p.print_comments(node.span.start);
    p.print_indentation();
    p.print_marked_word(node.span, "for");
    p.print_soft_space();
    p.print_opening(Bracket::Round);
    print_left(&node.left, p);
    p.print_soft_space();
    p.print_word("in");
    p.print_soft_space();
    node.right
        .get()
        .print(p, Place::in_brackets(Precedence::Lowest));
    p.print_closing(Bracket::Round);
    print_body::<_, Inside>(node.body.get(), p);
}

pub fn print_for_of_statement<N: PrintNode>(
    node: &ForOfStatement<N>,
    p: &mut Printer<'_>,
    place: Place,
)
    ensures { Lays p.old p.new (spell (for_of_statement_row N.plain node.now) place) }
{
    let _ = place;
    p.print_comments(node.span.start);
    p.print_indentation();
    p.print_marked_word(node.span, "for");
    print_await_if(node.is_await, p);
    p.print_soft_space();
    p.print_opening(Bracket::Round);
    print_before_of(&node.left, node.is_await, p);
    p.print_soft_space();
    p.print_word("of");
    p.print_soft_space();
    node.right
        .get()
        .print(p, Place::in_brackets(Precedence::Comma));
    p.print_closing(Bracket::Round);
    print_body::<_, Inside>(node.body.get(), p);
}

fn print_await_if(test: bool, p: &mut Printer<'_>)
    ensures { Lays p.old p.new (items_if test (hard_space ⊕ word (codes "await"))) }
{
    if test {
        p.print_hard_space();
        p.print_word("await");
    }
}

// ---- what the loop gives each of them

pub fn print_left<N: PrintNode>(left: &ForStatementLeft<N>, p: &mut Printer<'_>)
    ensures { Lays p.old p.new (spell (in_for_statement_left N.plain left.now) (left_place (type_of (in_for_statement_left N.plain left.now)))) }
{
    match left {
        ForStatementLeft::VariableDeclaration(node) => print_variable_declaration::<_, Inside>(
            node,
            p,
            Place::loop_head(),
        ),
        ForStatementLeft::AssignmentTarget(node) => print_target(node.get(), p),
    }
}

fn print_target<N: PrintNode>(target: &N, p: &mut Printer<'_>)
    ensures { Lays p.old p.new (spell (N.plain target.now) (left_place (type_of (N.plain target.now)))) }
{
    target.print(p, left_place(target.node_type()));
}

fn left_place(node_type: NodeType) -> Place
    ensures { result ≡ left_place node_type }
{
    match node_type {
        NodeType::VariableDeclaration => Place::loop_head(),
        _ => Place::in_brackets(Precedence::Comma),
    }
}

// Where `await` stands before it, nothing else begins as the loop does.
fn print_before_of<N: PrintNode>(left: &ForStatementLeft<N>, is_await: bool, p: &mut Printer<'_>)
    ensures { Lays p.old p.new (before_of is_await (looked_up_in (in_for_statement_left N.plain left.now)) (spell (in_for_statement_left N.plain left.now) (left_place (type_of (in_for_statement_left N.plain left.now))))) }
{
    if is_await {
        print_left(left, p);
    } else {
        print_apart_from_of(left, p);
    }
}

// A target that is printed as `async` stands in parentheses before `of`.
fn print_apart_from_of<N: PrintNode>(left: &ForStatementLeft<N>, p: &mut Printer<'_>)
    ensures { Lays p.old p.new (apart_from_of (looked_up_in (in_for_statement_left N.plain left.now)) (spell (in_for_statement_left N.plain left.now) (left_place (type_of (in_for_statement_left N.plain left.now))))) }
{
    if is_async(left, p) {
        print_left_in_parentheses(left, p);
    } else {
        print_left(left, p);
    }
}

fn print_left_in_parentheses<N: PrintNode>(left: &ForStatementLeft<N>, p: &mut Printer<'_>)
    ensures { Lays p.old p.new (brackets Round (spell (in_for_statement_left N.plain left.now) (left_place (type_of (in_for_statement_left N.plain left.now))))) }
{
    p.print_opening(Bracket::Round);
    print_left(left, p);
    p.print_closing(Bracket::Round);
}

fn is_async<N: PrintNode>(left: &ForStatementLeft<N>, p: &Printer<'_>) -> bool
    ensures { result ≡ is_said (pen_of p.now).style.tables (looked_up_in (in_for_statement_left N.plain left.now)) (codes "async") }
{
    match left {
        ForStatementLeft::VariableDeclaration(_) => false,
        ForStatementLeft::AssignmentTarget(node) => is_bare_said(node.get(), "async", p),
    }
}
