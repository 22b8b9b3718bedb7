// Choices between cases, and handlers (ECMA-262, 14.12 and 14.15), one function for each row.
ghost use Rattle.jsgen_tree.specs.Rows.{switch_statement_row, switch_case_row, in_statement, try_statement_row, catch_clause_row, block_statement_row};
ghost use Rattle.std.specs.Prelude.{◌≡◌, option_map};
ghost use Rattle.jsgen_tree.specs.Tree.{optional, more, no_trees};
ghost use Rattle.jsgen_place.specs.Place.{within_statement, among_statements};
ghost use Rattle.jsgen_model.specs.Spell.{spell, spell_finalizer, spell_only, lead_to, led_items};
ghost use Rattle.jsgen_printer.specs.Printer.{lead_of};
ghost use Rattle.jsgen_printer.specs.Steps.{Lays};

use crate::PrintNode;
use crate::inside::Inside;
use crate::statements::{Blocks, Statements, print_block_statement};
use jsgen_inside::{Nested, shape_of};
use jsgen_lists::{
    PrintMember, PrintOnly, print_behind_space, print_case, print_case_braces, print_caught,
    print_if_given,
};
use jsgen_place::{Place, Shape};
use jsgen_printer::{Bracket, Lead, Printer};
use jsgen_syntax::{Precedence, Span};
use jsgen_tree::{
    BlockStatement, CatchClause, StatementNode, SwitchCase, SwitchStatement, TryStatement,
};

pub fn print_switch_statement<N: PrintNode>(
    node: &SwitchStatement<N>,
    p: &mut Printer<'_>,
    place: Place,
)
    ensures { Lays p.old p.new (spell (switch_statement_row N.plain node.now) place) }
{
    let _ = place;
    p.print_comments(node.span.start);
    p.print_indentation();
    p.print_marked_word(node.span, "switch");
    p.print_soft_space();
    p.print_opening(Bracket::Round);
    node.discriminant
        .get()
        .print(p, Place::in_brackets(Precedence::Lowest));
    p.print_closing(Bracket::Round);
    p.print_soft_space();
    print_case_braces::<_, Cases>(node.span, &node.cases, p);
    p.print_soft_line();
}

/// Cases, one after another.
struct Cases;

impl<N: PrintNode> PrintMember<SwitchCase<N>> for Cases {
    ghost plain = { switch_case_row N.plain };

    fn print_member(case: &SwitchCase<N>, p: &mut Printer<'_>, place: Place) {
        print_switch_case(case, p, place);
    }
}

pub fn print_switch_case<N: PrintNode>(node: &SwitchCase<N>, p: &mut Printer<'_>, place: Place)
    ensures { Lays p.old p.new (spell (switch_case_row N.plain node.now) place) }
{
    let _ = place;
    print_case::<_, _, Nested<Inside>, Only, Statements>(
        node.span,
        &node.test,
        &node.consequent,
        p,
    );
}

/// A statement that is the only one of its case.
struct Only;

impl<N: PrintNode> PrintOnly<StatementNode<N>> for Only {
    ghost plain = { in_statement N.plain };

    fn print_only(statement: &StatementNode<N>, end: u32, p: &mut Printer<'_>) {
        print_only(statement.get(), end, p);
    }
}

// On the line of the case, or on a line of its own where a comment that stands nowhere else is printed before it.
fn print_only<N: PrintNode>(statement: &N, end: u32, p: &mut Printer<'_>)
    ensures { Lays p.old p.new (spell_only end (more (N.plain statement.now) no_trees)) }
{
    let shape = shape_of::<_, Inside>(statement);
    let span = statement.span();
    let depth = p.begin_case(span.start, lead_to(shape, span));
    print_led(shape, statement, p);
    p.end_case(depth, end);
}

// What leads to the one statement of a case.
fn lead_to(shape: Shape, span: Span) -> Lead
    ensures { lead_of result ≡ lead_to shape span }
{
    match shape {
        Shape::Block => Lead::Block,
        Shape::Empty => Lead::Empty(span),
        Shape::If | Shape::Other => Lead::Body,
    }
}

// The statement, behind what leads to it.
fn print_led<N: PrintNode>(shape: Shape, statement: &N, p: &mut Printer<'_>)
    ensures { Lays p.old p.new (led_items shape (spell (N.plain statement.now) within_statement) (spell (N.plain statement.now) among_statements)) }
{
    match shape {
        Shape::Block => {
            statement.print(p, Place::within_statement());
            p.print_soft_line();
        }
        Shape::Empty => {
            p.print_semicolon();
            p.print_soft_line();
        }
        Shape::If => statement.print(p, Place::among_statements()),
        Shape::Other => statement.print(p, Place::among_statements()),
    }
}

pub fn print_try_statement<N: PrintNode>(node: &TryStatement<N>, p: &mut Printer<'_>, place: Place)
    ensures { Lays p.old p.new (spell (try_statement_row N.plain node.now) place) }
{
    let _ = place;
    let within = Place::within_statement();
    p.print_comments(node.span.start);
    p.print_indentation();
    p.print_marked_word(node.span, "try");
    p.print_soft_space();
    print_block_statement(&node.block, p, within);
    print_if_given::<_, Clauses>(&node.handler, p, within);
    print_finalizer(&node.finalizer, p);
    p.print_soft_line();
}

/// What is done with a value that is caught.
struct Clauses;

impl<N: PrintNode> PrintMember<Box<CatchClause<N>>> for Clauses {
    ghost plain = { λ b. catch_clause_row N.plain b.value };

    fn print_member(clause: &Box<CatchClause<N>>, p: &mut Printer<'_>, place: Place) {
        print_catch_clause(clause, p, place);
    }
}

fn print_finalizer<N: PrintNode>(finalizer: &Option<Box<BlockStatement<N>>>, p: &mut Printer<'_>)
    ensures { Lays p.old p.new (spell_finalizer (optional (option_map (λ b. block_statement_row N.plain b.value) finalizer.now))) }
{
    match finalizer {
        Some(block) => {
            p.print_soft_space();
            p.print_word("finally");
            print_behind_space::<_, Blocks>(block, p, Place::within_statement());
        }
        None => {}
    }
}

pub fn print_catch_clause<N: PrintNode>(node: &CatchClause<N>, p: &mut Printer<'_>, place: Place)
    ensures { Lays p.old p.new (spell (catch_clause_row N.plain node.now) place) }
{
    p.print_soft_space();
    let stood = p.begin_catch(node.span.start);
    p.print_word("catch");
    print_caught::<_, Nested<Inside>>(&node.param, p, place.child(Precedence::Lowest));
    p.print_soft_space();
    p.print_before_block(stood, node.body.span.start);
    print_block_statement(&node.body, p, Place::within_statement());
}
