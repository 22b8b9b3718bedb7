// Templates and import calls (ECMA-262, 13.2.8, 13.3.10 and 13.3.11), one function for each row.
ghost use Rattle.std.specs.Prelude.{◌≡◌, ◌∷◌, map, option_map};
ghost use Rattle.jsgen_tree.specs.Tree.{trees, optional, span_of};
ghost use Rattle.jsgen_tree.specs.Rows.{template_element_row, template_literal_row, tagged_template_expression_row, import_expression_row, in_expression};
ghost use Rattle.jsgen_model.specs.Punctuator.{Round};
ghost use Rattle.jsgen_model.specs.Items.{brackets, comments, in_lines, of_import, with_key_annotation};
ghost use Rattle.jsgen_model.specs.Spell.{spell, items_if, is_one, starts_if};
ghost use Rattle.jsgen_model.specs.Groups.{any_group, are_lined};
ghost use Rattle.jsgen_printer.specs.Printer.{pen_of};
ghost use Rattle.jsgen_nodes.specs.Calls.{imported_items};
ghost use Rattle.jsgen_printer.specs.Steps.{Lays};

use crate::PrintNode;
use crate::inside::Inside;
use jsgen_inside::Nested;
use jsgen_lists::{print_behind_comma, print_linked, print_template};
use jsgen_place::Place;
use jsgen_printer::{ArgumentLines, Bracket, Printer};
use jsgen_syntax::{Precedence, Span};
use jsgen_tree::{
    ExpressionNode, ImportExpression, TaggedTemplateExpression, TemplateElement, TemplateLiteral,
};

pub fn print_template_literal<N: PrintNode>(
    node: &TemplateLiteral<N>,
    p: &mut Printer<'_>,
    place: Place,
)
    ensures { Lays p.old p.new (spell (template_literal_row N.plain node.now) place) }
{
    print_before_name(&node.quasis, node.span, p);
    p.print_mark(node.span);
    print_template::<_, Nested<Inside>>(
        place.context.is_tagged,
        &node.quasis,
        &node.expressions,
        p,
    );
}

// The comments before a template of one piece, which may be the name of a property.
fn print_before_name(pieces: &[TemplateElement], span: Span, p: &mut Printer<'_>)
    ensures { Lays p.old p.new (items_if (is_one (trees (map template_element_row pieces.now))) (comments with_key_annotation span.start)) }
{
    if is_one(pieces) {
        p.print_key_comments(span.start);
    }
}

fn is_one(pieces: &[TemplateElement]) -> bool
    ensures { result ≡ is_one (trees (map template_element_row pieces.now)) }
{
    pieces.len() == 1
}

pub fn print_tagged_template_expression<N: PrintNode>(
    node: &TaggedTemplateExpression<N>,
    p: &mut Printer<'_>,
    place: Place,
)
    ensures { Lays p.old p.new (spell (tagged_template_expression_row N.plain node.now) place) }
{
    p.print_mark(node.span);
    print_linked::<_, Nested<Inside>>(&node.tag, p, place.tag());
    print_template_literal(&node.quasi, p, place.tagged());
}

pub fn print_import_expression<N: PrintNode>(
    node: &ImportExpression<N>,
    p: &mut Printer<'_>,
    place: Place,
)
    ensures { Lays p.old p.new (spell (import_expression_row N.plain node.now) place) }
{
    let wrap = place.wraps_call();
    p.print_opening_if(wrap);
    p.print_marked_word(node.span, "import");
    print_imported(node, p);
    p.print_closing_if(wrap);
}

// What is imported, and how.
fn print_imported<N: PrintNode>(node: &ImportExpression<N>, p: &mut Printer<'_>)
    ensures { Lays p.old p.new (brackets Round (in_lines of_import ((span_of (in_expression N.plain node.now.source)).start ∷ starts_if (optional (option_map (in_expression N.plain) node.now.options))) node.now.span.end
        (imported_items (in_expression N.plain node.now.source) (optional (option_map (in_expression N.plain) node.now.options))))) }
{
    p.print_opening(Bracket::Round);
    let lined = is_lined(node, p);
    let around = p.open_arguments(lined);
    print_source_and_options(node, p);
    p.close_arguments(around, ArgumentLines::Import, node.span.end);
    p.print_closing(Bracket::Round);
}

// The source, and behind a comma the options.
fn print_source_and_options<N: PrintNode>(node: &ImportExpression<N>, p: &mut Printer<'_>)
    ensures { Lays p.old p.new (imported_items (in_expression N.plain node.now.source) (optional (option_map (in_expression N.plain) node.now.options))) }
{
    let within = Place::in_brackets(Precedence::Comma);
    p.print_source_break(node.source.get().span().start);
    node.source.get().print(p, within);
    print_behind_comma::<_, Nested<Inside>>(&node.options, p, within);
}

// Whether they stand on lines of their own.
fn is_lined<N: PrintNode>(node: &ImportExpression<N>, p: &Printer<'_>) -> bool
    ensures { result ≡ are_lined of_import ((span_of (in_expression N.plain node.now.source)).start ∷ starts_if (optional (option_map (in_expression N.plain) node.now.options))) node.now.span.end (pen_of p.now) }
{
    p.may_be_lined(ArgumentLines::Import)
        && (p.has_comments_at_end(node.span.end)
            || (p.has_comments(node.source.get().span().start)
                || has_comments_before(&node.options, p)))
}

// Whether comments stand before the options.
fn has_comments_before<N: PrintNode>(options: &Option<ExpressionNode<N>>, p: &Printer<'_>) -> bool
    ensures { result ≡ any_group (starts_if (optional (option_map (in_expression N.plain) options.now))) (pen_of p.now) }
{
    match options {
        Some(options) => p.has_comments(options.get().span().start),
        None => false,
    }
}
