// Lists of statements.
ghost use Rattle.std.specs.Prelude.{◌≡◌, map};
ghost use Rattle.jsgen_tree.specs.Tree.{Tree, trees, span_of};
ghost use Rattle.jsgen_place.specs.Place.{among_statements};
ghost use Rattle.jsgen_model.specs.Items.{◌⊕◌, soft_line, deeper, due_semicolon, indentation, orphans};
ghost use Rattle.jsgen_model.specs.Spell.{spell, spell_body, spell_statements, first_statement};
ghost use Rattle.jsgen_printer.specs.Steps.{Lays};

use jsgen_place::Place;
use jsgen_printer::Printer;

/// How statements are printed.
pub trait PrintStatement<E> {
    // What a statement stands for.
    ghost plain: { E → Tree };

    /// The offset in the source where it begins.
    fn start(statement: &E) -> u32
        ensures { result ≡ (span_of (plain statement.now)).start };

    fn print_statement(statement: &E, p: &mut Printer<'_>, place: Place)
        ensures { Lays p.old p.new (spell (plain statement.now) place) };

    /// As the first of a body, where it may not become a directive.
    fn print_first_statement(statement: &E, p: &mut Printer<'_>, place: Place)
        ensures { Lays p.old p.new (first_statement (plain statement.now) (spell (plain statement.now) place)) };
}

/// The statements of a body, of which the first may not become a directive.
pub fn print_body<E, S: PrintStatement<E>>(statements: &[E], p: &mut Printer<'_>)
    ensures { Lays p.old p.new (spell_body (trees (map S.plain statements.now))) }
{
    match statements.split_first() {
        Some((first, others)) => {
            p.print_orphans(S::start(first));
            p.print_due_semicolon();
            S::print_first_statement(first, p, Place::among_statements());
            print_statements::<E, S>(others, p);
        }
        None => {}
    }
}

/// Each after comments that stand nowhere else, and the semicolon that the one before may have left.
pub fn print_statements<E, S: PrintStatement<E>>(statements: &[E], p: &mut Printer<'_>)
    ensures { Lays p.old p.new (spell_statements (trees (map S.plain statements.now))) }
{
    for statement in statements {
        p.print_orphans(S::start(statement));
        p.print_due_semicolon();
        S::print_statement(statement, p, Place::among_statements());
    }
}

/// Statements up to an offset, before which comments that stand nowhere else are printed.
pub fn print_statements_to<E, S: PrintStatement<E>>(statements: &[E], end: u32, p: &mut Printer<'_>)
    ensures { Lays p.old p.new (spell_statements (trees (map S.plain statements.now)) ⊕ orphans end) }
{
    print_statements::<E, S>(statements, p);
    p.print_orphans(end);
}

/// On lines of their own, one level deeper, up to an offset.
pub fn print_deeper_statements<E, S: PrintStatement<E>>(
    statements: &[E],
    end: u32,
    p: &mut Printer<'_>,
)
    ensures { Lays p.old p.new (soft_line ⊕ deeper (spell_statements (trees (map S.plain statements.now)) ⊕ orphans end)) }
{
    p.print_soft_line();
    let depth = p.deepen();
    print_statements_to::<E, S>(statements, end, p);
    p.set_depth(depth);
}

/// What stands before the `while` of a `do`: a statement on a line of its own, one level deeper, up to the indentation of what follows.
pub fn print_deeper_body<E, S: PrintStatement<E>>(body: &E, p: &mut Printer<'_>)
    ensures { Lays p.old p.new (soft_line ⊕ deeper (spell (S.plain body.now) among_statements ⊕ due_semicolon) ⊕ indentation) }
{
    p.print_soft_line();
    let depth = p.deepen();
    print_ended::<E, S>(body, p);
    p.set_depth(depth);
    p.print_indentation();
}

// With the semicolon that it may have left.
fn print_ended<E, S: PrintStatement<E>>(body: &E, p: &mut Printer<'_>)
    ensures { Lays p.old p.new (spell (S.plain body.now) among_statements ⊕ due_semicolon) }
{
    S::print_statement(body, p, Place::among_statements());
    p.print_due_semicolon();
}
