// Braces round statements.
ghost use Rattle.std.specs.Prelude.{◌≡◌, map};
ghost use Rattle.jsgen_tree.specs.Tree.{trees};
ghost use Rattle.jsgen_model.specs.Items.{◌⊕◌, orphans};
ghost use Rattle.jsgen_model.specs.Spell.{spell_statements, block_braces, filled_braces, empty_braces};
ghost use Rattle.jsgen_printer.specs.Printer.{pen_of};
ghost use Rattle.jsgen_printer.specs.Steps.{Goes, Lays};
ghost use Rattle.jsgen_lists.specs.Lists.{braces_opened, braces_closed, orphan_braces};

use crate::statements::{PrintStatement, print_statements_to};
use jsgen_printer::{Bracket, Printer};
use jsgen_syntax::Span;

/// The braces of a span round statements, each of which stands on a line of its own.
pub fn print_block_braces<E, S: PrintStatement<E>>(
    span: Span,
    statements: &[E],
    p: &mut Printer<'_>,
)
    ensures { Lays p.old p.new (block_braces span (trees (map S.plain statements.now))
        (spell_statements (trees (map S.plain statements.now)))) }
{
    if statements.is_empty() {
        print_orphan_braces(span, p);
    } else {
        print_filled_braces::<E, S>(span, statements, p);
    }
}

// Braces in which nothing stands but comments that stand nowhere else.
fn print_orphan_braces(span: Span, p: &mut Printer<'_>)
    ensures { Lays p.old p.new (orphan_braces span) }
{
    p.print_mark(span);
    p.print_opening(Bracket::Brace);
    p.print_orphan_lines(span.end);
    p.print_end_mark(span);
    p.print_closing(Bracket::Brace);
    p.drop_semicolon();
}

/// Braces in which nothing stands.
pub fn print_empty_braces(span: Span, p: &mut Printer<'_>)
    ensures { Lays p.old p.new (empty_braces span) }
{
    p.print_mark(span);
    p.print_opening(Bracket::Brace);
    p.print_end_mark(span);
    p.print_closing(Bracket::Brace);
    p.drop_semicolon();
}

fn print_filled_braces<E, S: PrintStatement<E>>(span: Span, statements: &[E], p: &mut Printer<'_>)
    ensures { Lays p.old p.new (filled_braces span (spell_statements (trees (map S.plain statements.now)) ⊕ orphans span.end)) }
{
    let depth = open_braces(span, p);
    print_statements_to::<E, S>(statements, span.end, p);
    close_braces(span, p, depth);
}

/// The opening brace, behind which the code is one level deeper; gives the level before.
pub fn open_braces(span: Span, p: &mut Printer<'_>) -> u32
    ensures level { result ≡ (pen_of p.old).depth }
    ensures pen { Goes p.old p.new (braces_opened span) }
{
    let depth = p.deepen();
    p.print_mark(span);
    p.print_opening(Bracket::Brace);
    p.print_soft_line();
    depth
}

/// The closing brace, at the level before.
pub fn close_braces(span: Span, p: &mut Printer<'_>, depth: u32)
    ensures { Goes p.old p.new (braces_closed span depth) }
{
    p.set_depth(depth);
    p.print_indentation();
    p.print_end_mark(span);
    p.print_closing(Bracket::Brace);
    p.drop_semicolon();
}
