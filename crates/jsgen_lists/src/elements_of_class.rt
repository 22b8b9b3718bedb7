// The members of a class (ECMA-262, 15.7).
ghost use Rattle.std.specs.Prelude.{map};
ghost use Rattle.jsgen_tree.specs.Tree.{trees};
ghost use Rattle.jsgen_model.specs.Spell.{spell_elements_of_class, braces, filled_braces};
ghost use Rattle.jsgen_printer.specs.Steps.{Lays};

use crate::braces::{close_braces, open_braces, print_empty_braces};
use crate::members::PrintMember;
use jsgen_place::Place;
use jsgen_printer::Printer;
use jsgen_syntax::Span;

/// The braces of a span round the members of a class, each of which stands on a line of its own.
pub fn print_class_braces<E, L: PrintMember<E>>(
    span: Span,
    members: &[E],
    p: &mut Printer<'_>,
    place: Place,
)
    ensures { Lays p.old p.new (braces span (trees (map L.plain members.now))
        (spell_elements_of_class (trees (map L.plain members.now)) place)) }
{
    if members.is_empty() {
        print_empty_braces(span, p);
    } else {
        print_filled_class::<E, L>(span, members, p, place);
    }
}

fn print_filled_class<E, L: PrintMember<E>>(
    span: Span,
    members: &[E],
    p: &mut Printer<'_>,
    place: Place,
)
    ensures { Lays p.old p.new (filled_braces span (spell_elements_of_class (trees (map L.plain members.now)) place)) }
{
    let depth = open_braces(span, p);
    print_elements_of_class::<E, L>(members, p, place);
    close_braces(span, p, depth);
}

// Each after the semicolon that the one before may have left.
fn print_elements_of_class<E, L: PrintMember<E>>(members: &[E], p: &mut Printer<'_>, place: Place)
    ensures { Lays p.old p.new (spell_elements_of_class (trees (map L.plain members.now)) place) }
{
    for member in members {
        p.print_due_semicolon();
        L::print_member(member, p, place);
    }
}
