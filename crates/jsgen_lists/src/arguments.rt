// Arguments, of which the first or the second may be a string that is never in backticks, on lines of their own where comments stand
// before one of them or behind the last.
ghost use Rattle.std.specs.Prelude.{◌≡◌, ◌||◌, map};
ghost use Rattle.jsgen_tree.specs.Tree.{Tree, trees, span_of};
ghost use Rattle.jsgen_model.specs.Groups.{any_group, are_lined};
ghost use Rattle.jsgen_model.specs.Punctuator.{Round};
ghost use Rattle.jsgen_model.specs.Items.{◌⊕◌, brackets, in_lines, line_break, first_argument, other_argument, of_call};
ghost use Rattle.jsgen_model.specs.Spell.{spell, argument_items, spell_arguments, spell_behind_first, starts_of};
ghost use Rattle.jsgen_printer.specs.Printer.{pen_of, lines_of};
ghost use Rattle.jsgen_printer.specs.Steps.{Lays};

use jsgen_place::Place;
use jsgen_printer::{ArgumentLines, Bracket, Printer};
use jsgen_syntax::Span;

/// How arguments are printed.
pub trait PrintArgument<E> {
    // What an argument stands for.
    ghost plain: { E → Tree };

    fn span(argument: &E) -> Span
        ensures { result ≡ span_of (plain argument.now) };

    fn print_argument(argument: &E, p: &mut Printer<'_>, place: Place)
        ensures { Lays p.old p.new (spell (plain argument.now) place) };
}

/// Which arguments are never in backticks, where they are strings.
#[derive(Clone, Copy)]
pub struct PlainQuotes {
    pub first: bool,
    pub second: bool,
}

impl PlainQuotes {
    pub const NONE: PlainQuotes = PlainQuotes {
        first: false,
        second: false,
    };

    pub const FIRST: PlainQuotes = PlainQuotes {
        first: true,
        second: false,
    };

    pub const SECOND: PlainQuotes = PlainQuotes {
        first: false,
        second: true,
    };
}

/// The arguments of a span, with commas between them, in parentheses.
pub fn print_arguments<E, L: PrintArgument<E>>(
    span: Span,
    quotes: PlainQuotes,
    arguments: &[E],
    p: &mut Printer<'_>,
    place: Place,
)
    ensures { Lays p.old p.new (brackets Round (argument_items (quotes.first || quotes.second) (trees (map L.plain arguments.now)) span
        (spell_arguments quotes.first quotes.second (trees (map L.plain arguments.now)) place))) }
{
    p.print_opening(Bracket::Round);
    print_argument_lines::<E, L>(span, quotes, arguments, p, place);
    p.print_closing(Bracket::Round);
}

/// The same without the parentheses.
pub fn print_argument_lines<E, L: PrintArgument<E>>(
    span: Span,
    quotes: PlainQuotes,
    arguments: &[E],
    p: &mut Printer<'_>,
    place: Place,
)
    ensures { Lays p.old p.new (argument_items (quotes.first || quotes.second) (trees (map L.plain arguments.now)) span
        (spell_arguments quotes.first quotes.second (trees (map L.plain arguments.now)) place)) }
{
    let lines = lines_of(quotes);
    let lined = are_lined::<E, L>(lines, arguments, span.end, p);
    let around = p.open_arguments(lined);
    print_first::<E, L>(quotes, arguments, p, place);
    p.close_arguments(around, lines, span.end);
    p.print_end_mark(span);
}

fn lines_of(quotes: PlainQuotes) -> ArgumentLines
    ensures { lines_of result ≡ of_call (quotes.first || quotes.second) }
{
    if quotes.first || quotes.second {
        ArgumentLines::QuotedCall
    } else {
        ArgumentLines::Call
    }
}

// Whether they stand on lines of their own, in a call that ends before an offset.
fn are_lined<E, L: PrintArgument<E>>(
    lines: ArgumentLines,
    arguments: &[E],
    end: u32,
    p: &Printer<'_>,
) -> bool
    ensures { result ≡ are_lined (lines_of lines) (starts_of (trees (map L.plain arguments.now))) end (pen_of p.now) }
{
    p.keeps_comments()
        && (p.may_be_lined(lines)
            && (p.has_comments_at_end(end) || any_has_comments::<E, L>(arguments, p)))
}

// Whether comments stand at the start of one of them.
fn any_has_comments<E, L: PrintArgument<E>>(arguments: &[E], p: &Printer<'_>) -> bool
    ensures { result ≡ any_group (starts_of (trees (map L.plain arguments.now))) (pen_of p.now) }
{
    for argument in arguments {
        if p.has_comments(L::span(argument).start) {
            return true;
        }
    }
    false
}

fn print_first<E, L: PrintArgument<E>>(
    quotes: PlainQuotes,
    arguments: &[E],
    p: &mut Printer<'_>,
    place: Place,
)
    ensures { Lays p.old p.new (spell_arguments quotes.first quotes.second (trees (map L.plain arguments.now)) place) }
{
    match arguments.split_first() {
        Some((first, others)) => {
            print_before_first::<E, L>(first, p);
            L::print_argument(first, p, place.quoted_plainly(quotes.first));
            print_behind_first::<E, L>(quotes.second, others, p, place);
        }
        None => {}
    }
}

fn print_before_first<E, L: PrintArgument<E>>(argument: &E, p: &mut Printer<'_>)
    ensures { Lays p.old p.new (line_break (first_argument (span_of (L.plain argument.now)).start)) }
{
    if p.is_lined() {
        p.print_line_break(L::span(argument).start);
    }
}

fn print_before_other<E, L: PrintArgument<E>>(argument: &E, p: &mut Printer<'_>)
    ensures { Lays p.old p.new (line_break (other_argument (span_of (L.plain argument.now)).start)) }
{
    if p.is_lined() {
        p.print_other_break(L::span(argument).start);
    } else {
        p.print_soft_space();
    }
}

// The second and those behind it, each with a comma before it.
fn print_behind_first<E, L: PrintArgument<E>>(
    plain_second: bool,
    arguments: &[E],
    p: &mut Printer<'_>,
    place: Place,
)
    ensures { Lays p.old p.new (spell_behind_first plain_second (trees (map L.plain arguments.now)) place) }
{
    let mut quoted = plain_second;
    for argument in arguments {
        p.print_comma();
        print_before_other::<E, L>(argument, p);
        L::print_argument(argument, p, place.quoted_plainly(quoted));
        quoted = false;
    }
}
