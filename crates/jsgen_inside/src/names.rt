// Names that a table may change.
ghost use Rattle.jsgen_tree.specs.Rows.{identifier_reference_row, binding_identifier_row};
ghost use Rattle.jsgen_model.specs.Spell.{spell};
ghost use Rattle.jsgen_printer.specs.Steps.{Lays};

use jsgen_place::Place;
use jsgen_printer::Printer;
use jsgen_tree::{BindingIdentifier, IdentifierReference};

pub fn print_identifier_reference(node: &IdentifierReference, p: &mut Printer<'_>, place: Place)
    ensures { Lays p.old p.new (spell (identifier_reference_row node.now) place) }
{
    let _ = place;
    p.print_reference(node.span, node.name.as_str(), node.reference);
}

pub fn print_binding_identifier(node: &BindingIdentifier, p: &mut Printer<'_>, place: Place)
    ensures { Lays p.old p.new (spell (binding_identifier_row node.now) place) }
{
    let _ = place;
    p.print_binding(node.span, node.name.as_str(), node.symbol);
}
