// An operator before or behind what it changes.
ghost use Rattle.jsgen_syntax.specs.declared.precedence.Precedence.TheVariants.{Prefix, Postfix};
ghost use Rattle.jsgen_place.specs.Place.{child};
ghost use Rattle.jsgen_model.specs.Items.{◌⊕◌, mark};
ghost use Rattle.jsgen_model.specs.Spell.{spell, linked_items, update_items};
ghost use Rattle.jsgen_model.specs.Operators.{marked, update_item};
ghost use Rattle.jsgen_printer.specs.Steps.{Lays};

use crate::members::{PrintObject, print_linked};
use jsgen_place::Place;
use jsgen_printer::Printer;
use jsgen_syntax::{Precedence, Span, UpdateOperator};

/// The operator of a span before its operand, where `prefix` holds, or else behind it.
pub fn print_update<E, L: PrintObject<E>>(
    span: Span,
    prefix: bool,
    operator: UpdateOperator,
    operand: &E,
    p: &mut Printer<'_>,
    place: Place,
)
    ensures { Lays p.old p.new (update_items span prefix (update_item operator)
        (linked_items (L.plain operand.now) (spell (L.plain operand.now) (child Postfix place)))
        (spell (L.plain operand.now) (child Prefix place))) }
{
    if prefix {
        print_before::<E, L>(span, operator, operand, p, place);
    } else {
        print_behind::<E, L>(span, operator, operand, p, place);
    }
}

fn print_before<E, L: PrintObject<E>>(
    span: Span,
    operator: UpdateOperator,
    operand: &E,
    p: &mut Printer<'_>,
    place: Place,
)
    ensures { Lays p.old p.new (marked span (update_item operator) ⊕ spell (L.plain operand.now) (child Prefix place)) }
{
    p.print_marked_update_operator(span, operator);
    L::print_object(operand, p, place.child(Precedence::Prefix));
}

fn print_behind<E, L: PrintObject<E>>(
    span: Span,
    operator: UpdateOperator,
    operand: &E,
    p: &mut Printer<'_>,
    place: Place,
)
    ensures { Lays p.old p.new (mark span ⊕ linked_items (L.plain operand.now) (spell (L.plain operand.now) (child Postfix place)) ⊕ update_item operator) }
{
    p.print_mark(span);
    print_linked::<E, L>(operand, p, place.child(Precedence::Postfix));
    p.print_update_operator(operator);
}
