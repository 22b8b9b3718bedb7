// Lists with commas.
ghost use Rattle.std.specs.Prelude.{◌≡◌, map};
ghost use Rattle.jsgen_tree.specs.Tree.{Tree, trees, span_of};
ghost use Rattle.jsgen_model.specs.Items.{brackets};
ghost use Rattle.jsgen_model.specs.Spell.{spell, linked_items, spell_list, spell_more};
ghost use Rattle.jsgen_printer.specs.Steps.{Lays};
ghost use Rattle.jsgen_printer.specs.Printer.{bracket_of};

use crate::maybe::print_comma_and_space;
use jsgen_place::Place;
use jsgen_printer::{Bracket, Printer};
use jsgen_syntax::Span;

/// How the members of a list with commas are printed.
pub trait PrintMember<E> {
    // What a member stands for.
    ghost plain: { E → Tree };

    fn print_member(member: &E, p: &mut Printer<'_>, place: Place)
        ensures { Lays p.old p.new (spell (plain member.now) place) };
}

/// How the object of a link is printed, or what else is printed at its level.
pub trait PrintObject<E> {
    // What an object stands for.
    ghost plain: { E → Tree };

    fn span(object: &E) -> Span
        ensures { result ≡ span_of (plain object.now) };

    fn print_object(object: &E, p: &mut Printer<'_>, place: Place)
        ensures { Lays p.old p.new (spell (plain object.now) place) };
}

/// The object of a link, with the mark behind it.
pub fn print_linked<E, L: PrintObject<E>>(object: &E, p: &mut Printer<'_>, place: Place)
    ensures { Lays p.old p.new (linked_items (L.plain object.now) (spell (L.plain object.now) place)) }
{
    L::print_object(object, p, place);
    p.print_link_mark(L::span(object));
}

/// The members, with commas between them, in brackets.
pub fn print_in_brackets<E, L: PrintMember<E>>(
    bracket: Bracket,
    members: &[E],
    p: &mut Printer<'_>,
    place: Place,
)
    ensures { Lays p.old p.new (brackets (bracket_of bracket) (spell_list (trees (map L.plain members.now)) place)) }
{
    p.print_opening(bracket);
    print_list::<E, L>(members, p, place);
    p.print_closing(bracket);
}

/// The members, with commas between them.
pub fn print_list<E, L: PrintMember<E>>(members: &[E], p: &mut Printer<'_>, place: Place)
    ensures { Lays p.old p.new (spell_list (trees (map L.plain members.now)) place) }
{
    match members.split_first() {
        Some((first, others)) => {
            L::print_member(first, p, place);
            print_more::<E, L>(others, p, place);
        }
        None => {}
    }
}

/// The members, each with a comma before it.
pub fn print_more<E, L: PrintMember<E>>(members: &[E], p: &mut Printer<'_>, place: Place)
    ensures { Lays p.old p.new (spell_more (trees (map L.plain members.now)) place) }
{
    for member in members {
        print_comma_and_space(p);
        L::print_member(member, p, place);
    }
}
