// The properties of an object, a single one on the line of the braces, and more on lines of their own, behind comments.
ghost use Rattle.std.specs.Prelude.{◌≡◌, false, true, map, nat_lt, length};
ghost use Rattle.jsgen_tree.specs.Tree.{Tree, trees, span_of};
ghost use Rattle.jsgen_model.specs.Punctuator.{Brace};
ghost use Rattle.jsgen_model.specs.Items.{◌⊕◌, brackets, deeper, member_line, member_space, soft_space, mark, end_mark};
ghost use Rattle.jsgen_model.specs.Spell.{spell, spell_properties, spell_more_properties, next_line, object_inside, are_more, ends_in_hole, comma_if};
ghost use Rattle.jsgen_printer.specs.Steps.{Lays};
ghost use Rattle.jsgen_lists.specs.Lists.{all_properties};

use crate::elements::print_next_line;
use jsgen_place::Place;
use jsgen_printer::{Bracket, Printer};
use jsgen_syntax::Span;

/// How the properties of an object are printed.
pub trait PrintProperty<E> {
    // What a property stands for.
    ghost plain: { E → Tree };

    fn span(property: &E) -> Span
        ensures { result ≡ span_of (plain property.now) };

    fn print_property(property: &E, p: &mut Printer<'_>, place: Place)
        ensures { Lays p.old p.new (spell (plain property.now) place) };
}

/// An object of a span: its properties in braces, a single one between spaces, and more on lines of their own.
pub fn print_object<E, L: PrintProperty<E>>(
    span: Span,
    properties: &[E],
    p: &mut Printer<'_>,
    place: Place,
)
    ensures { Lays p.old p.new (mark span ⊕ brackets Brace (object_inside (trees (map L.plain properties.now))
        (all_properties (are_more 1 (trees (map L.plain properties.now))) (trees (map L.plain properties.now)) place) ⊕ end_mark span)) }
{
    p.print_mark(span);
    p.print_opening(Bracket::Brace);
    print_inside::<E, L>(properties, p, place);
    p.print_end_mark(span);
    p.print_closing(Bracket::Brace);
}

fn print_inside<E, L: PrintProperty<E>>(properties: &[E], p: &mut Printer<'_>, place: Place)
    ensures { Lays p.old p.new (object_inside (trees (map L.plain properties.now))
        (all_properties (are_more 1 (trees (map L.plain properties.now))) (trees (map L.plain properties.now)) place)) }
{
    match properties.split_first() {
        Some((first, others)) => {
            if others.is_empty() {
                print_single::<E, L>(first, p, place);
            } else {
                print_on_lines::<E, L>(first, others, p, place);
            }
        }
        None => {}
    }
}

fn print_single<E, L: PrintProperty<E>>(property: &E, p: &mut Printer<'_>, place: Place)
    ensures { Lays p.old p.new (member_space (span_of (L.plain property.now)).start ⊕ spell (L.plain property.now) place ⊕ soft_space) }
{
    p.print_member_space(L::span(property).start);
    L::print_property(property, p, place);
    p.print_soft_space();
}

// On lines of their own, one level deeper.
fn print_on_lines<E, L: PrintProperty<E>>(
    first: &E,
    others: &[E],
    p: &mut Printer<'_>,
    place: Place,
)
    ensures { Lays p.old p.new (deeper (member_line (span_of (L.plain first.now)).start ⊕ spell (L.plain first.now) place ⊕ spell_more_properties true (trees (map L.plain others.now)) place) ⊕ next_line) }
{
    let depth = p.deepen();
    print_on_line::<E, L>(first, p, place);
    print_more_properties::<E, L>(others, p, place);
    p.set_depth(depth);
    print_next_line(p);
}

fn print_on_line<E, L: PrintProperty<E>>(property: &E, p: &mut Printer<'_>, place: Place)
    ensures { Lays p.old p.new (member_line (span_of (L.plain property.now)).start ⊕ spell (L.plain property.now) place) }
{
    p.print_member_line(L::span(property).start);
    L::print_property(property, p, place);
}

// Each with a comma before it.
fn print_more_properties<E, L: PrintProperty<E>>(
    properties: &[E],
    p: &mut Printer<'_>,
    place: Place,
)
    ensures { Lays p.old p.new (spell_more_properties true (trees (map L.plain properties.now)) place) }
{
    for property in properties {
        p.print_comma();
        print_on_line::<E, L>(property, p, place);
    }
}
