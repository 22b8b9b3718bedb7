// Programs and directives (ECMA-262, 11.2.1 and clause 16), one function for each row.
ghost use Rattle.std.specs.Prelude.{map, ◌≡◌, false, option_map};
ghost use Rattle.jsgen_tree.specs.Tree.{trees, optional, span_of};
ghost use Rattle.jsgen_tree.specs.Rows.{program_row, hashbang_row, directive_row, in_statement, block_statement_row, if_statement_row};
ghost use Rattle.jsgen_model.specs.Spell.{spell, spell_directives, first_statement, spell_alternate, shape, consequent_items, alternate_items, filled_braces, braces_end, body_end, is_given};
ghost use Rattle.jsgen_printer.specs.Steps.{Lays};
ghost use Rattle.jsgen_tree.specs.Inside.{ends_open};
ghost use Rattle.jsgen_place.specs.Place.{within_statement, among_statements};
ghost use Rattle.jsgen_model.specs.Punctuator.{semicolon};
ghost use Rattle.jsgen_model.specs.Items.{◌⊕◌, punctuator, soft_space, soft_line, body_space, parentheses_unless_minified, comments, with_key_annotation, mark, first_string};
ghost use Rattle.jsgen_syntax.specs.Units.{js_units};

use crate::PrintNode;
use crate::inside::Inside;
use jsgen_inside::{print_body, shape_of};
use jsgen_lists::{
    PrintMember, PrintStatement, close_braces, open_braces, print_block_braces, print_if_given,
};
use jsgen_modules::print_hashbang;
use jsgen_place::{Place, Shape};
use jsgen_printer::{Bracket, Printer};
use jsgen_syntax::{JsStr, Precedence, Span};
use jsgen_tree::{BlockStatement, Directive, Hashbang, IfStatement, Program, StatementNode};

pub fn print_program<N: PrintNode>(node: &Program<N>, p: &mut Printer<'_>, place: Place)
    ensures { Lays p.old p.new (spell (program_row N.plain node.now) place) }
{
    p.print_comments(0);
    print_if_given::<_, Hashbangs>(&node.hashbang, p, place);
    print_directives(&node.directives, p);
    jsgen_lists::print_body::<_, Statements>(&node.body, p);
    p.print_orphans(node.span.end);
    p.print_due_semicolon();
    p.print_comments(node.span.end);
}

/// The first line of a program.
struct Hashbangs;

impl PrintMember<Box<Hashbang>> for Hashbangs {
    ghost plain = { λ b. hashbang_row b.value };

    fn print_member(hashbang: &Box<Hashbang>, p: &mut Printer<'_>, place: Place) {
        print_hashbang(hashbang, p, place);
    }
}

pub fn print_directives(directives: &[Directive], p: &mut Printer<'_>)
    ensures { Lays p.old p.new (spell_directives (trees (map directive_row directives.now))) }
{
    for directive in directives {
        print_directive(directive, p, Place::among_statements());
    }
}

pub fn print_directive(node: &Directive, p: &mut Printer<'_>, place: Place)
    ensures { Lays p.old p.new (spell (directive_row node.now) place) }
{
    let _ = place;
    p.print_comments(node.span.start);
    p.print_indentation();
    p.print_mark(node.span);
    p.print_directive(node.directive.as_str());
    p.print_semicolon();
    p.print_soft_line();
}

fn print_first_statement<N: PrintNode>(statement: &N, p: &mut Printer<'_>, place: Place)
    ensures { Lays p.old p.new (first_statement (N.plain statement.now) (spell (N.plain statement.now) place)) }
{
    match statement.string_statement() {
        Some(value) => {
            let line = statement.span();
            p.print_comments(line.start);
            p.print_marked_indentation(true, line);
            print_first_string(value, statement.inside_span(), p);
            p.print_statement_end();
        }
        None => statement.print(p, place),
    }
}

// In parentheses that minified text leaves out.
fn print_first_string(value: &JsStr, own: Span, p: &mut Printer<'_>)
    ensures { Lays p.old p.new (parentheses_unless_minified (comments with_key_annotation own.start ⊕ mark own ⊕ first_string (js_units value.now))) }
{
    let wrap = !p.is_minified();
    p.print_opening_if(wrap);
    p.print_key_comments(own.start);
    p.print_mark(own);
    p.print_first_string(value);
    p.print_closing_if(wrap);
}

/// Statements, one after another.
pub struct Statements;

impl<N: PrintNode> PrintStatement<StatementNode<N>> for Statements {
    ghost plain = { in_statement N.plain };

    fn start(statement: &StatementNode<N>) -> u32 {
        statement.get().span().start
    }

    fn print_statement(statement: &StatementNode<N>, p: &mut Printer<'_>, place: Place) {
        statement.get().print(p, place);
    }

    fn print_first_statement(statement: &StatementNode<N>, p: &mut Printer<'_>, place: Place) {
        print_first_statement(statement.get(), p, place);
    }
}

/// Among statements a line of its own.
pub fn print_block_statement<N: PrintNode>(
    node: &BlockStatement<N>,
    p: &mut Printer<'_>,
    place: Place,
)
    ensures { Lays p.old p.new (spell (block_statement_row N.plain node.now) place) }
{
    p.print_comments_if(place.in_list, node.span.start);
    p.print_indentation_if(place.in_list);
    print_block_braces::<_, Statements>(node.span, &node.body, p);
    p.print_soft_line_if(place.in_list);
}

pub fn print_if_statement<N: PrintNode>(node: &IfStatement<N>, p: &mut Printer<'_>, place: Place)
    ensures { Lays p.old p.new (spell (if_statement_row N.plain node.now) place) }
{
    p.begin_line_if(place.in_list, node.span.start);
    p.print_marked_word(node.span, "if");
    p.print_soft_space();
    p.print_opening(Bracket::Round);
    node.test
        .get()
        .print(p, Place::in_brackets(Precedence::Lowest));
    p.print_closing(Bracket::Round);
    print_consequent(node.consequent.get(), p, has_alternate(node));
    print_alternate(&node.alternate, p);
}

fn has_alternate<N: PrintNode>(node: &IfStatement<N>) -> bool
    ensures { result ≡ is_given (optional (option_map (in_statement N.plain) node.now.alternate)) }
{
    node.alternate.is_some()
}

// What follows the test. An `else` must not go with an `if` within.
fn print_consequent<N: PrintNode>(consequent: &N, p: &mut Printer<'_>, else_follows: bool)
    ensures { Lays p.old p.new (consequent_items (shape (N.plain consequent.now)) (ends_open (N.plain consequent.now))
        (record { span = span_of (N.plain consequent.now); inner = spell (N.plain consequent.now) within_statement; whole = spell (N.plain consequent.now) among_statements; else_follows = else_follows })) }
{
    if consequent.ends_open() {
        print_braced(consequent, p, else_follows);
    } else {
        print_closed_consequent(consequent, p, else_follows);
    }
}

fn print_closed_consequent<N: PrintNode>(consequent: &N, p: &mut Printer<'_>, else_follows: bool)
    ensures { Lays p.old p.new (consequent_items (shape (N.plain consequent.now)) false
        (record { span = span_of (N.plain consequent.now); inner = spell (N.plain consequent.now) within_statement; whole = spell (N.plain consequent.now) among_statements; else_follows = else_follows })) }
{
    match shape_of::<_, Inside>(consequent) {
        Shape::Block => {
            p.print_soft_space();
            consequent.print(p, Place::within_statement());
            print_braces_end(p, else_follows);
        }
        Shape::Empty => {
            p.print_semicolon();
            p.print_soft_line();
            print_body_end(p, else_follows);
        }
        Shape::If => print_line_consequent(consequent, p, else_follows),
        Shape::Other => print_line_consequent(consequent, p, else_follows),
    }
}

// On the line of the head, behind one space.
fn print_line_consequent<N: PrintNode>(consequent: &N, p: &mut Printer<'_>, else_follows: bool)
    ensures { Lays p.old p.new (body_space ⊕ spell (N.plain consequent.now) among_statements ⊕ body_end else_follows) }
{
    p.begin_body();
    consequent.print(p, Place::among_statements());
    print_body_end(p, else_follows);
}

// A consequent in braces of its own.
fn print_braced<N: PrintNode>(consequent: &N, p: &mut Printer<'_>, else_follows: bool)
    ensures { Lays p.old p.new (soft_space ⊕ filled_braces (span_of (N.plain consequent.now)) (spell (N.plain consequent.now) among_statements) ⊕ braces_end else_follows) }
{
    p.print_soft_space();
    let depth = open_braces(consequent.span(), p);
    consequent.print(p, Place::among_statements());
    close_braces(consequent.span(), p, depth);
    print_braces_end(p, else_follows);
}

fn print_braces_end(p: &mut Printer<'_>, else_follows: bool)
    ensures { Lays p.old p.new (braces_end else_follows) }
{
    if else_follows {
        p.print_soft_space();
    } else {
        p.print_soft_line();
    }
}

fn print_body_end(p: &mut Printer<'_>, else_follows: bool)
    ensures { Lays p.old p.new (body_end else_follows) }
{
    if else_follows {
        p.print_indentation();
    }
}

fn print_alternate<N: PrintNode>(alternate: &Option<StatementNode<N>>, p: &mut Printer<'_>)
    ensures { Lays p.old p.new (spell_alternate (optional (option_map (in_statement N.plain) alternate.now))) }
{
    match alternate {
        Some(alternate) => {
            p.print_due_semicolon();
            p.print_word("else");
            print_behind_else(alternate.get(), p);
        }
        None => {}
    }
}

fn print_behind_else<N: PrintNode>(alternate: &N, p: &mut Printer<'_>)
    ensures { Lays p.old p.new (alternate_items (shape (N.plain alternate.now)) (spell (N.plain alternate.now) within_statement) (spell (N.plain alternate.now) among_statements)) }
{
    match shape_of::<_, Inside>(alternate) {
        Shape::If => {
            p.print_hard_space();
            alternate.print(p, Place::within_statement());
        }
        Shape::Block => print_body::<_, Inside>(alternate, p),
        Shape::Empty => print_body::<_, Inside>(alternate, p),
        Shape::Other => print_body::<_, Inside>(alternate, p),
    }
}

/// Blocks that stand by themselves in other statements.
pub struct Blocks;

impl<N: PrintNode> PrintMember<Box<BlockStatement<N>>> for Blocks {
    ghost plain = { λ b. block_statement_row N.plain b.value };

    fn print_member(block: &Box<BlockStatement<N>>, p: &mut Printer<'_>, place: Place) {
        print_block_statement(block, p, place);
    }
}
