// Operations of one operand that change it, and `new` (ECMA-262, 13.3.5 and 13.4), one function for each row.
ghost use Rattle.std.specs.Prelude.{◌≡◌, ◌||◌, false, map};
ghost use Rattle.jsgen_syntax.specs.declared.precedence.Precedence.TheVariants.{Comma, Postfix};
ghost use Rattle.jsgen_tree.specs.Tree.{trees};
ghost use Rattle.jsgen_tree.specs.Rows.{update_expression_row, in_simple_assignment_target, new_expression_row, in_argument};
ghost use Rattle.jsgen_place.specs.Place.{in_brackets, wraps};
ghost use Rattle.jsgen_model.specs.Items.{parentheses_unless_minified, unless_minified};
ghost use Rattle.jsgen_model.specs.Spell.{spell, spell_arguments, argument_items, any_given, new_arguments};
ghost use Rattle.jsgen_printer.specs.Steps.{Lays};

use crate::PrintNode;
use crate::expressions::Arguments;
use crate::sets::print_simple_assignment_target;
use jsgen_lists::{PlainQuotes, PrintObject, print_argument_lines, print_arguments, print_update};
use jsgen_place::{Place, update_level};
use jsgen_printer::Printer;
use jsgen_syntax::{Precedence, Span};
use jsgen_tree::{Argument, GetSpan, NewExpression, SimpleAssignmentTarget, UpdateExpression};

/// The empty span, which has no mark.
const UNMARKED: Span = Span { start: 0, end: 0 };

pub fn print_update_expression<N: PrintNode>(
    node: &UpdateExpression<N>,
    p: &mut Printer<'_>,
    place: Place,
)
    ensures { Lays p.old p.new (spell (update_expression_row N.plain node.now) place) }
{
    let level = update_level(node.prefix);
    let wrap = place.wraps(level);
    p.print_opening_if(wrap);
    print_update::<SimpleAssignmentTarget<N>, Targets>(
        node.span,
        node.prefix,
        node.operator,
        &node.argument,
        p,
        place.within(wrap),
    );
    p.print_closing_if(wrap);
}

/// What `++` and `--` change.
pub struct Targets;

impl<N: PrintNode> PrintObject<SimpleAssignmentTarget<N>> for Targets {
    ghost plain = { in_simple_assignment_target N.plain };

    fn span(target: &SimpleAssignmentTarget<N>) -> Span {
        target.span()
    }

    fn print_object(target: &SimpleAssignmentTarget<N>, p: &mut Printer<'_>, place: Place) {
        print_simple_assignment_target(target, p, place);
    }
}

pub fn print_new_expression<N: PrintNode>(
    node: &NewExpression<N>,
    p: &mut Printer<'_>,
    place: Place,
)
    ensures { Lays p.old p.new (spell (new_expression_row N.plain node.now) place) }
{
    let wrap = place.wraps(Precedence::New);
    let lifted = place.wraps(Precedence::Postfix);
    let wraps = p.begin_call(wrap, lifted, node.pure, UNMARKED, node.span.start);
    let within = place.within(wrap);
    p.print_marked_word(node.span, "new");
    p.print_soft_space();
    node.callee.get().print(p, within.constructed());
    print_new_arguments(node.span, &node.arguments, p, place);
    p.print_closing_if(wraps);
}

// What a constructor is given: in minified text nothing may stand for nothing.
fn print_new_arguments<N: PrintNode>(
    span: Span,
    arguments: &[Argument<N>],
    p: &mut Printer<'_>,
    place: Place,
)
    ensures { Lays p.old p.new (new_arguments (any_given (trees (map (in_argument N.plain) arguments.now)) || wraps Postfix place)
        (argument_items false (trees (map (in_argument N.plain) arguments.now)) span (spell_arguments false false (trees (map (in_argument N.plain) arguments.now)) (in_brackets Comma)))) }
{
    let within = Place::in_brackets(Precedence::Comma);
    if needs_arguments(arguments, place) {
        print_arguments::<_, Arguments>(span, PlainQuotes::NONE, arguments, p, within);
    } else {
        print_unless_minified(span, arguments, p, within);
    }
}

fn needs_arguments<N: PrintNode>(arguments: &[Argument<N>], place: Place) -> bool
    ensures { result ≡ (any_given (trees (map (in_argument N.plain) arguments.now)) || wraps Postfix place) }
{
    is_given(arguments) || place.wraps(Precedence::Postfix)
}

fn is_given<N: PrintNode>(arguments: &[Argument<N>]) -> bool
    ensures { result ≡ any_given (trees (map (in_argument N.plain) arguments.now)) }
{
    !arguments.is_empty()
}

fn print_unless_minified<N: PrintNode>(
    span: Span,
    arguments: &[Argument<N>],
    p: &mut Printer<'_>,
    place: Place,
)
    ensures { Lays p.old p.new (parentheses_unless_minified (unless_minified (argument_items false (trees (map (in_argument N.plain) arguments.now)) span (spell_arguments false false (trees (map (in_argument N.plain) arguments.now)) place)))) }
{
    let wrap = !p.is_minified();
    p.print_opening_if(wrap);
    print_lines_unless_minified(span, arguments, p, place);
    p.print_closing_if(wrap);
}

fn print_lines_unless_minified<N: PrintNode>(
    span: Span,
    arguments: &[Argument<N>],
    p: &mut Printer<'_>,
    place: Place,
)
    ensures { Lays p.old p.new (unless_minified (argument_items false (trees (map (in_argument N.plain) arguments.now)) span (spell_arguments false false (trees (map (in_argument N.plain) arguments.now)) place))) }
{
    if !p.is_minified() {
        print_argument_lines::<_, Arguments>(span, PlainQuotes::NONE, arguments, p, place);
    }
}
