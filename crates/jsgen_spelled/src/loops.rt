// Generated from tools/nodes/table.txt; edit that and run tools/nodes/generate.
// Rows by their spelling: loops, labels and jumps (ECMA-262, 14.7 to 14.10, 14.13, 14.14 and 14.16).
ghost use Rattle.jsgen_tree.specs.Rows.{while_statement_row, label_identifier_row, labeled_statement_row, continue_statement_row, break_statement_row, return_statement_row, throw_statement_row, debugger_statement_row};
ghost use Rattle.jsgen_model.specs.Spell.{spell};
ghost use Rattle.jsgen_printer.specs.Steps.{Lays};

use crate::members::Leaves;
use jsgen_inside::{Nested, PrintInside, print_body};
use jsgen_lists::print_apart;
use jsgen_place::Place;
use jsgen_printer::{Bracket, Printer};
use jsgen_syntax::Precedence;
use jsgen_tree::{
    BreakStatement, ContinueStatement, DebuggerStatement, LabelIdentifier, LabeledStatement,
    ReturnStatement, ThrowStatement, WhileStatement,
};

pub fn print_while_statement<N, L: PrintInside<N>>(
    node: &WhileStatement<N>,
    p: &mut Printer<'_>,
    place: Place,
)
    ensures { Lays p.old p.new (spell (while_statement_row L.plain node.now) place) }
{
    let _ = place;
    p.print_comments(node.span.start);
    p.print_indentation();
    p.print_marked_word(node.span, "while");
    p.print_soft_space();
    p.print_opening(Bracket::Round);
    L::print(node.test.get(), p, Place::in_brackets(Precedence::Lowest));
    p.print_closing(Bracket::Round);
    print_body::<_, L>(node.body.get(), p);
}

pub fn print_label_identifier(node: &LabelIdentifier, p: &mut Printer<'_>, place: Place)
    ensures { Lays p.old p.new (spell (label_identifier_row node.now) place) }
{
    let _ = place;
    p.print_name(node.span, node.name.as_str());
}

pub fn print_labeled_statement<N, L: PrintInside<N>>(
    node: &LabeledStatement<N>,
    p: &mut Printer<'_>,
    place: Place,
)
    ensures { Lays p.old p.new (spell (labeled_statement_row L.plain node.now) place) }
{
    p.print_comments(node.span.start);
    p.print_indentation();
    p.print_space_apart();
    p.print_mark(node.span);
    print_label_identifier(&node.label, p, place.child(Precedence::Lowest));
    p.print_colon();
    print_body::<_, L>(node.body.get(), p);
}

pub fn print_continue_statement(node: &ContinueStatement, p: &mut Printer<'_>, place: Place)
    ensures { Lays p.old p.new (spell (continue_statement_row node.now) place) }
{
    p.print_comments(node.span.start);
    p.print_indentation();
    p.print_marked_word(node.span, "continue");
    print_apart::<_, Leaves>(&node.label, p, place.child(Precedence::Lowest));
    p.print_statement_end();
}

pub fn print_break_statement(node: &BreakStatement, p: &mut Printer<'_>, place: Place)
    ensures { Lays p.old p.new (spell (break_statement_row node.now) place) }
{
    p.print_comments(node.span.start);
    p.print_indentation();
    p.print_marked_word(node.span, "break");
    print_apart::<_, Leaves>(&node.label, p, place.child(Precedence::Lowest));
    p.print_statement_end();
}

pub fn print_return_statement<N, L: PrintInside<N>>(
    node: &ReturnStatement<N>,
    p: &mut Printer<'_>,
    place: Place,
)
    ensures { Lays p.old p.new (spell (return_statement_row L.plain node.now) place) }
{
    let _ = place;
    p.print_comments(node.span.start);
    p.print_indentation();
    p.print_marked_word(node.span, "return");
    print_apart::<_, Nested<L>>(&node.argument, p, Place::in_brackets(Precedence::Lowest));
    p.print_statement_end();
}

pub fn print_throw_statement<N, L: PrintInside<N>>(
    node: &ThrowStatement<N>,
    p: &mut Printer<'_>,
    place: Place,
)
    ensures { Lays p.old p.new (spell (throw_statement_row L.plain node.now) place) }
{
    let _ = place;
    p.print_comments(node.span.start);
    p.print_indentation();
    p.print_marked_word(node.span, "throw");
    p.print_soft_space();
    L::print(
        node.argument.get(),
        p,
        Place::in_brackets(Precedence::Lowest),
    );
    p.print_statement_end();
}

pub fn print_debugger_statement(node: &DebuggerStatement, p: &mut Printer<'_>, place: Place)
    ensures { Lays p.old p.new (spell (debugger_statement_row node.now) place) }
{
    let _ = place;
    p.print_comments(node.span.start);
    p.print_indentation();
    p.print_marked_word(node.span, "debugger");
    p.print_statement_end();
}
