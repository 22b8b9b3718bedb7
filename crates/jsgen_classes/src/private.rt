// Private names, and what they are part of (ECMA-262, 12.7, 13.3.2 and 13.10), one function for each row.
ghost use Rattle.std.specs.Prelude.{codes};
ghost use Rattle.jsgen_syntax.specs.declared.precedence.Precedence.TheVariants.{Lowest};
ghost use Rattle.jsgen_syntax.specs.declared.operator.BinaryOperator.TheVariants as operators;
ghost use Rattle.jsgen_tree.specs.Rows.{private_identifier_row, private_field_expression_row, private_in_expression_row};
ghost use Rattle.jsgen_model.specs.Spell.{spell};
ghost use Rattle.jsgen_printer.specs.Steps.{Lays};

use jsgen_inside::{Nested, PrintInside};
use jsgen_lists::{print_linked, print_name_link};
use jsgen_place::Place;
use jsgen_printer::Printer;
use jsgen_syntax::{BinaryOperator, Precedence};
use jsgen_tree::{PrivateFieldExpression, PrivateIdentifier, PrivateInExpression};

pub fn print_private_identifier(node: &PrivateIdentifier, p: &mut Printer<'_>, place: Place)
    ensures { Lays p.old p.new (spell (private_identifier_row node.now) place) }
{
    let _ = place;
    p.print_private_name(node.span, node.name.as_str());
}

pub fn print_private_field_expression<N, L: PrintInside<N>>(
    node: &PrivateFieldExpression<N>,
    p: &mut Printer<'_>,
    place: Place,
)
    ensures { Lays p.old p.new (spell (private_field_expression_row L.plain node.now) place) }
{
    print_linked::<_, Nested<L>>(&node.object, p, place.linked());
    print_name_link(node.optional, p);
    print_private_identifier(&node.field, p, place.child(Precedence::Lowest));
}

/// In parentheses where an operation by `in` is.
pub fn print_private_in_expression<N, L: PrintInside<N>>(
    node: &PrivateInExpression<N>,
    p: &mut Printer<'_>,
    place: Place,
)
    ensures { Lays p.old p.new (spell (private_in_expression_row L.plain node.now) place) }
{
    let wrap = place.wraps_binary(BinaryOperator::In);
    p.print_opening_if(wrap);
    p.print_mark(node.span);
    print_private_identifier(&node.left, p, place.child(Precedence::Lowest));
    p.print_hard_space();
    p.print_word("in");
    p.print_hard_space();
    L::print(node.right.get(), p, Place::behind_private());
    p.print_closing_if(wrap);
}
