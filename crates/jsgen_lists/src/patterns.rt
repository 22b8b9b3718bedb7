// Members and what takes the rest of them, in braces or in brackets (ECMA-262, 14.3.3).
ghost use Rattle.std.specs.Prelude.{◌≡◌, false, ◌==◌, ◌&&◌, is_none, length, map, option_map};
ghost use Rattle.jsgen_tree.specs.Tree.{trees, holed, optional};
ghost use Rattle.jsgen_model.specs.Punctuator.{Square, Brace};
ghost use Rattle.jsgen_model.specs.Items.{◌⊕◌, brackets, nothing, soft_space};
ghost use Rattle.jsgen_model.specs.Spell.{spell, spell_list, spell_elements, spell_if_given, comma_between, comma_if_any, behind_elements, pattern_braces};
ghost use Rattle.jsgen_printer.specs.Steps.{Lays};

use crate::elements::{PrintElement, print_elements, print_last_comma};
use crate::maybe::{print_comma_and_space, print_comma_between, print_if_given};
use crate::members::{PrintMember, print_list};
use jsgen_place::Place;
use jsgen_printer::{Bracket, Printer};

/// Properties and what takes the rest, between braces and spaces; where there is neither, braces alone.
pub fn print_pattern_braces<E, R, L: PrintMember<E>, M: PrintMember<R>>(
    properties: &[E],
    rest: &Option<R>,
    p: &mut Printer<'_>,
    place: Place,
)
    ensures { Lays p.old p.new (pattern_braces (trees (map L.plain properties.now)) (optional (option_map M.plain rest.now))
        (spell_list (trees (map L.plain properties.now)) place ⊕ comma_between (trees (map L.plain properties.now)) (optional (option_map M.plain rest.now)) ⊕ spell_if_given (optional (option_map M.plain rest.now)) place)) }
{
    if are_none(properties, rest) {
        print_braces_alone(p);
    } else {
        print_between_spaces::<E, R, L, M>(properties, rest, p, place);
    }
}

fn are_none<E, R>(properties: &[E], rest: &Option<R>) -> bool
    ensures { result ≡ ((length properties.now == 0) && is_none rest.now) }
{
    properties.is_empty() && is_left_out(rest)
}

fn is_left_out<R>(rest: &Option<R>) -> bool
    ensures { result ≡ is_none rest.now }
{
    match rest {
        Some(_) => false,
        None => true,
    }
}

fn print_braces_alone(p: &mut Printer<'_>)
    ensures { Lays p.old p.new (brackets Brace nothing) }
{
    p.print_opening(Bracket::Brace);
    p.print_closing(Bracket::Brace);
}

fn print_between_spaces<E, R, L: PrintMember<E>, M: PrintMember<R>>(
    properties: &[E],
    rest: &Option<R>,
    p: &mut Printer<'_>,
    place: Place,
)
    ensures { Lays p.old p.new (brackets Brace (soft_space ⊕ (spell_list (trees (map L.plain properties.now)) place
        ⊕ comma_between (trees (map L.plain properties.now)) (optional (option_map M.plain rest.now)) ⊕ spell_if_given (optional (option_map M.plain rest.now)) place) ⊕ soft_space)) }
{
    p.print_opening(Bracket::Brace);
    p.print_soft_space();
    print_list::<E, L>(properties, p, place);
    print_comma_between::<E, R, L, M>(properties, rest, p);
    print_if_given::<R, M>(rest, p, place);
    p.print_soft_space();
    p.print_closing(Bracket::Brace);
}

/// Elements, of which some may be left out, and what takes the rest, in brackets.
pub fn print_pattern_brackets<E, R, L: PrintElement<E>, M: PrintMember<R>>(
    elements: &[E],
    rest: &Option<R>,
    p: &mut Printer<'_>,
    place: Place,
)
    ensures { Lays p.old p.new (brackets Square (spell_elements false (holed (map L.plain elements.now)) place
        ⊕ behind_elements (holed (map L.plain elements.now)) (optional (option_map M.plain rest.now)) (spell_if_given (optional (option_map M.plain rest.now)) place))) }
{
    p.print_opening(Bracket::Square);
    print_elements::<E, L>(false, elements, p, place);
    print_behind_elements::<E, R, L, M>(elements, rest, p, place);
    p.print_closing(Bracket::Square);
}

// What takes the rest, or else the comma of a last element that is left out.
fn print_behind_elements<E, R, L: PrintElement<E>, M: PrintMember<R>>(
    elements: &[E],
    rest: &Option<R>,
    p: &mut Printer<'_>,
    place: Place,
)
    ensures { Lays p.old p.new (behind_elements (holed (map L.plain elements.now)) (optional (option_map M.plain rest.now)) (spell_if_given (optional (option_map M.plain rest.now)) place)) }
{
    match rest {
        Some(rest) => print_rest::<E, R, L, M>(elements, rest, p, place),
        None => print_last_comma::<E, L>(elements, p),
    }
}

fn print_rest<E, R, L: PrintElement<E>, M: PrintMember<R>>(
    elements: &[E],
    rest: &R,
    p: &mut Printer<'_>,
    place: Place,
)
    ensures { Lays p.old p.new (comma_if_any (holed (map L.plain elements.now)) ⊕ spell (M.plain rest.now) place) }
{
    print_comma_if_any::<E, L>(elements, p);
    M::print_member(rest, p, place);
}

fn print_comma_if_any<E, L: PrintElement<E>>(elements: &[E], p: &mut Printer<'_>)
    ensures { Lays p.old p.new (comma_if_any (holed (map L.plain elements.now))) }
{
    if !elements.is_empty() {
        print_comma_and_space(p);
    }
}
