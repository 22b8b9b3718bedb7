// Generated from tools/nodes/table.txt; edit that and run tools/nodes/generate.
// Rows by their spelling: arrays and objects (ECMA-262, 13.2.4 and 13.2.5), and what is spread in them and in arguments.
ghost use Rattle.jsgen_tree.specs.Rows.{spread_element_row};
ghost use Rattle.jsgen_model.specs.Spell.{spell};
ghost use Rattle.jsgen_printer.specs.Steps.{Lays};

use jsgen_inside::PrintInside;
use jsgen_place::Place;
use jsgen_printer::Printer;
use jsgen_syntax::Precedence;
use jsgen_tree::SpreadElement;

pub fn print_spread_element<N, L: PrintInside<N>>(
    node: &SpreadElement<N>,
    p: &mut Printer<'_>,
    place: Place,
)
    ensures { Lays p.old p.new (spell (spread_element_row L.plain node.now) place) }
{
    let _ = place;
    p.print_mark(node.span);
    p.print_ellipsis();
    L::print(
        node.argument.get(),
        p,
        Place::in_brackets(Precedence::Comma),
    );
}
