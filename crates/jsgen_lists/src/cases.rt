// Cases of a choice (ECMA-262, 14.12).
ghost use Rattle.std.specs.Prelude.{map, option_map};
ghost use Rattle.jsgen_syntax.specs.declared.precedence.Precedence.TheVariants.{Lowest};
ghost use Rattle.jsgen_tree.specs.Tree.{Tree, more, no_trees, trees, optional};
ghost use Rattle.jsgen_model.specs.Punctuator.{colon};
ghost use Rattle.jsgen_model.specs.Items.{◌⊕◌, punctuator, indentation, mark, comments, orphans, all_of_them};
ghost use Rattle.jsgen_place.specs.Place.{in_brackets, among_statements};
ghost use Rattle.jsgen_model.specs.Spell.{spell_statements, spell_cases, spell_only, spell_test, case_items, braces, filled_braces};
ghost use Rattle.jsgen_printer.specs.Steps.{Lays};

use crate::braces::{close_braces, open_braces, print_empty_braces};
use crate::maybe::print_case_test;
use crate::members::PrintMember;
use crate::statements::{PrintStatement, print_deeper_statements};
use jsgen_place::Place;
use jsgen_printer::Printer;
use jsgen_syntax::{Precedence, Span};

/// The braces of a span round cases, each of which stands on a line of its own.
pub fn print_case_braces<E, L: PrintMember<E>>(span: Span, cases: &[E], p: &mut Printer<'_>)
    ensures { Lays p.old p.new (braces span (trees (map L.plain cases.now))
        (spell_cases (trees (map L.plain cases.now)))) }
{
    if cases.is_empty() {
        print_empty_braces(span, p);
    } else {
        print_filled_switch::<E, L>(span, cases, p);
    }
}

fn print_filled_switch<E, L: PrintMember<E>>(span: Span, cases: &[E], p: &mut Printer<'_>)
    ensures { Lays p.old p.new (filled_braces span (spell_cases (trees (map L.plain cases.now)))) }
{
    let depth = open_braces(span, p);
    print_cases::<E, L>(cases, p);
    close_braces(span, p, depth);
}

// Each after the semicolon that the one before may have left.
fn print_cases<E, L: PrintMember<E>>(cases: &[E], p: &mut Printer<'_>)
    ensures { Lays p.old p.new (spell_cases (trees (map L.plain cases.now))) }
{
    for case in cases {
        p.print_due_semicolon();
        L::print_member(case, p, Place::among_statements());
    }
}

/// How the one statement of a case is printed, which goes on with the line where it is a block. The case ends at `end`.
pub trait PrintOnly<E> {
    // What a statement stands for.
    ghost plain: { E → Tree };

    fn print_only(statement: &E, end: u32, p: &mut Printer<'_>)
        ensures { Lays p.old p.new (spell_only end (more (plain statement.now) no_trees)) };
}

/// A case: its test or its word, and the statements that stand under it.
pub fn print_case<E, F, L: PrintMember<E>, O: PrintOnly<F>, S: PrintStatement<F>>(
    span: Span,
    test: &Option<E>,
    consequent: &[F],
    p: &mut Printer<'_>,
)
    ensures { Lays p.old p.new (comments all_of_them span.start ⊕ indentation ⊕ mark span ⊕ spell_test (optional (option_map L.plain test.now)) (in_brackets Lowest)
        ⊕ punctuator colon ⊕ case_items (trees (map S.plain consequent.now)) (spell_only span.end (trees (map O.plain consequent.now))) (spell_statements (trees (map S.plain consequent.now)) ⊕ orphans span.end)) }
{
    p.print_comments(span.start);
    p.print_indentation();
    p.print_mark(span);
    print_case_head::<E, L>(test, p);
    print_consequent::<F, O, S>(consequent, span.end, p);
}

// The test and its colon.
fn print_case_head<E, L: PrintMember<E>>(test: &Option<E>, p: &mut Printer<'_>)
    ensures { Lays p.old p.new (spell_test (optional (option_map L.plain test.now)) (in_brackets Lowest) ⊕ punctuator colon) }
{
    let within = Place::in_brackets(Precedence::Lowest);
    print_case_test::<E, L>(test, p, within);
    p.print_colon();
}

// One statement as a body, or any other number on lines of their own.
fn print_consequent<F, O: PrintOnly<F>, S: PrintStatement<F>>(
    statements: &[F],
    end: u32,
    p: &mut Printer<'_>,
)
    ensures { Lays p.old p.new (case_items (trees (map S.plain statements.now)) (spell_only end (trees (map O.plain statements.now))) (spell_statements (trees (map S.plain statements.now)) ⊕ orphans end)) }
{
    if statements.len() == 1 {
        O::print_only(&statements[0], end, p);
    } else {
        print_deeper_statements::<F, S>(statements, end, p);
    }
}
