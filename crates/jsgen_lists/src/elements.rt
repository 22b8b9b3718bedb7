// Lists in which members may be left out, on one line or each on a line of its own.
ghost use Rattle.std.specs.Prelude.{◌≡◌, true, false, map, not, Option, is_some};
ghost use Rattle.jsgen_tree.specs.Tree.{Tree, holed};
ghost use Rattle.jsgen_model.specs.Punctuator.{Square};
ghost use Rattle.jsgen_model.specs.Items.{◌⊕◌, brackets, mark, end_mark};
ghost use Rattle.jsgen_model.specs.Spell.{spell_elements, spell_more_elements, next_line, line_or_space, on_lines, are_more, ends_in_hole, comma_if};
ghost use Rattle.jsgen_printer.specs.Steps.{Lays};
ghost use Rattle.jsgen_lists.specs.Lists.{element_items, all_elements};

use jsgen_place::Place;
use jsgen_printer::{Bracket, Printer};
use jsgen_syntax::Span;

/// How the members of a list in which some may be left out are printed.
pub trait PrintElement<E> {
    // What a member stands for; none where it is left out.
    ghost plain: { E → Option Tree };

    fn is_left_out(element: &E) -> bool
        ensures { result ≡ not (is_some (plain element.now)) };

    /// Nothing is printed for one that is left out.
    fn print_element(element: &E, p: &mut Printer<'_>, place: Place)
        ensures { Lays p.old p.new (element_items (plain element.now) place) };
}

/// An array of a span: its elements in brackets, up to two on one line, and more on lines of their own.
pub fn print_array<E, L: PrintElement<E>>(
    span: Span,
    elements: &[E],
    p: &mut Printer<'_>,
    place: Place,
)
    ensures { Lays p.old p.new (mark span ⊕ brackets Square (on_lines (are_more 2 (holed (map L.plain elements.now)))
        (all_elements (are_more 2 (holed (map L.plain elements.now))) (holed (map L.plain elements.now)) place) ⊕ end_mark span)) }
{
    p.print_mark(span);
    let lines = are_more::<E, L>(2, elements);
    p.print_opening(Bracket::Square);
    print_lines::<E, L>(lines, elements, p, place);
    p.print_end_mark(span);
    p.print_closing(Bracket::Square);
}

fn are_more<E, L: PrintElement<E>>(count: usize, elements: &[E]) -> bool
    ensures { result ≡ are_more count (holed (map L.plain elements.now)) }
{
    elements.len() > count
}

// On lines of their own, one level deeper, or on one line.
fn print_lines<E, L: PrintElement<E>>(
    lines: bool,
    elements: &[E],
    p: &mut Printer<'_>,
    place: Place,
)
    ensures { Lays p.old p.new (on_lines lines (all_elements lines (holed (map L.plain elements.now)) place)) }
{
    if lines {
        print_on_lines::<E, L>(elements, p, place);
    } else {
        print_all::<E, L>(false, elements, p, place);
    }
}

fn print_on_lines<E, L: PrintElement<E>>(elements: &[E], p: &mut Printer<'_>, place: Place)
    ensures { Lays p.old p.new (on_lines true (all_elements true (holed (map L.plain elements.now)) place)) }
{
    let depth = p.deepen();
    print_next_line(p);
    print_all::<E, L>(true, elements, p, place);
    p.set_depth(depth);
    print_next_line(p);
}

pub fn print_next_line(p: &mut Printer<'_>)
    ensures { Lays p.old p.new next_line }
{
    p.print_soft_line();
    p.print_indentation();
}

fn print_between(lines: bool, p: &mut Printer<'_>)
    ensures { Lays p.old p.new (line_or_space lines) }
{
    if lines {
        print_next_line(p);
    } else {
        p.print_soft_space();
    }
}

// The members, and behind a last one that is left out its comma.
fn print_all<E, L: PrintElement<E>>(lines: bool, elements: &[E], p: &mut Printer<'_>, place: Place)
    ensures { Lays p.old p.new (all_elements lines (holed (map L.plain elements.now)) place) }
{
    print_elements::<E, L>(lines, elements, p, place);
    print_last_comma::<E, L>(elements, p);
}

pub fn print_last_comma<E, L: PrintElement<E>>(elements: &[E], p: &mut Printer<'_>)
    ensures { Lays p.old p.new (comma_if (ends_in_hole (holed (map L.plain elements.now)))) }
{
    if ends_in_hole::<E, L>(elements) {
        p.print_comma();
    }
}

fn ends_in_hole<E, L: PrintElement<E>>(elements: &[E]) -> bool
    ensures { result ≡ ends_in_hole (holed (map L.plain elements.now)) }
{
    match elements.last() {
        Some(last) => L::is_left_out(last),
        None => false,
    }
}

pub fn print_elements<E, L: PrintElement<E>>(
    lines: bool,
    elements: &[E],
    p: &mut Printer<'_>,
    place: Place,
)
    ensures { Lays p.old p.new (spell_elements lines (holed (map L.plain elements.now)) place) }
{
    match elements.split_first() {
        Some((first, others)) => {
            L::print_element(first, p, place);
            print_more_elements::<E, L>(lines, others, p, place);
        }
        None => {}
    }
}

// Each with a comma before it.
fn print_more_elements<E, L: PrintElement<E>>(
    lines: bool,
    elements: &[E],
    p: &mut Printer<'_>,
    place: Place,
)
    ensures { Lays p.old p.new (spell_more_elements lines (holed (map L.plain elements.now)) place) }
{
    for element in elements {
        p.print_comma();
        print_between(lines, p);
        L::print_element(element, p, place);
    }
}
