// What stands behind an object (ECMA-262, 13.3.2 and 13.3.9).
ghost use Rattle.jsgen_tree.specs.Characters.{characters};
ghost use Rattle.jsgen_tree.specs.Named.{as_written};
ghost use Rattle.jsgen_model.specs.Items.{◌⊕◌, name};
ghost use Rattle.jsgen_model.specs.Spell.{spell, linked_items, name_link, bracket_link};
ghost use Rattle.jsgen_printer.specs.Steps.{Lays};

use crate::members::{PrintObject, print_linked};
use jsgen_place::Place;
use jsgen_printer::Printer;
use jsgen_tree::IdentifierName;

/// An object, and the name of one of its members behind a dot.
pub fn print_named_member<E, L: PrintObject<E>>(
    object: &E,
    optional: bool,
    property: &IdentifierName,
    p: &mut Printer<'_>,
    place: Place,
)
    ensures { Lays p.old p.new (linked_items (L.plain object.now) (spell (L.plain object.now) place)
        ⊕ name_link optional ⊕ name property.now.span (as_written (characters property.now.name))) }
{
    print_linked::<E, L>(object, p, place);
    print_member_name(optional, property, p);
}

// Behind the object.
fn print_member_name(optional: bool, property: &IdentifierName, p: &mut Printer<'_>)
    ensures { Lays p.old p.new (name_link optional ⊕ name property.now.span (as_written (characters property.now.name))) }
{
    print_name_link(optional, p);
    p.print_name(property.span, property.name.as_str());
}

/// What stands before a member's name.
pub fn print_name_link(optional: bool, p: &mut Printer<'_>)
    ensures { Lays p.old p.new (name_link optional) }
{
    if optional {
        p.print_question_dot();
    } else {
        p.print_member_dot();
    }
}

/// What stands before the brackets of a link.
pub fn print_bracket_link(optional: bool, p: &mut Printer<'_>)
    ensures { Lays p.old p.new (bracket_link optional) }
{
    if optional {
        p.print_question_dot();
    }
}
