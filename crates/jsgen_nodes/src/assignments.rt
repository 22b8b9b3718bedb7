// Assignments (ECMA-262, 13.15).
ghost use Rattle.std.specs.Prelude.{◌≡◌, ◌||◌};
ghost use Rattle.jsgen_syntax.specs.declared.precedence.Precedence.TheVariants.{Assign, Comma};
ghost use Rattle.jsgen_place.specs.Place.{child, in_brackets, quoted_plainly, wraps};
ghost use Rattle.jsgen_tree.specs.Rows.{assignment_expression_row, in_assignment_target, in_expression};
ghost use Rattle.jsgen_model.specs.Items.{◌⊕◌, a_brace, soft_space, mark};
ghost use Rattle.jsgen_model.specs.Layout.{is_barred};
ghost use Rattle.jsgen_model.specs.Operators.{assignment_item};
ghost use Rattle.jsgen_model.specs.Quotes.{is_key_of_exports};
ghost use Rattle.jsgen_model.specs.Spell.{spell};
ghost use Rattle.jsgen_printer.specs.Printer.{pen_of};
ghost use Rattle.jsgen_printer.specs.Steps.{Lays};

use crate::PrintNode;
use jsgen_place::Place;
use jsgen_printer::Printer;
use jsgen_syntax::Precedence;
use jsgen_tree::{AssignmentExpression, NodeType};

pub fn print_assignment_expression<N: PrintNode>(
    node: &AssignmentExpression<N>,
    p: &mut Printer<'_>,
    place: Place,
)
    ensures { Lays p.old p.new (spell (assignment_expression_row N.plain node.now) place) }
{
    let wraps = place.wraps(Precedence::Assign);
    match node.left.get().node_type() {
        NodeType::ObjectAssignmentTarget => {
            let wrap = wraps_brace(wraps, p);
            p.print_opening_if(wrap);
            print_from_target(node, p, place);
            p.print_closing_if(wrap);
        }
        _ => {
            p.print_opening_if(wraps);
            print_from_target(node, p, place);
            p.print_closing_if(wraps);
        }
    }
}

// Whether what begins with a brace stands in parentheses: where the test holds, and where the brace would not open a target.
fn wraps_brace(wraps: bool, p: &Printer<'_>) -> bool
    ensures { result ≡ (wraps || is_barred a_brace (pen_of p.now).start) }
{
    wraps || p.bars_brace()
}

// The target, the operator and what the target is given.
fn print_from_target<N: PrintNode>(
    node: &AssignmentExpression<N>,
    p: &mut Printer<'_>,
    place: Place,
)
    ensures { Lays p.old p.new (mark node.now.span ⊕ spell (in_assignment_target N.plain node.now.left) (quoted_plainly (is_key_of_exports (in_assignment_target N.plain node.now.left)) (in_brackets Comma))
        ⊕ soft_space ⊕ assignment_item node.now.operator ⊕ soft_space ⊕ spell (in_expression N.plain node.now.right) (child Comma place)) }
{
    let target = Place::in_brackets(Precedence::Comma);
    let plain = node.left.get().is_key_of_exports();
    p.print_mark(node.span);
    node.left.get().print(p, target.quoted_plainly(plain));
    p.print_soft_space();
    p.print_assignment_sign(node.operator);
    p.print_soft_space();
    node.right.get().print(p, place.child(Precedence::Comma));
}
