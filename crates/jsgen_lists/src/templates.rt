// The pieces of a template, and its expressions.
ghost use Rattle.std.specs.Prelude.{◌≡◌, map};
ghost use Rattle.jsgen_tree.specs.Rows.{template_element_row};
ghost use Rattle.jsgen_syntax.specs.declared.precedence.Precedence.TheVariants.{Lowest};
ghost use Rattle.jsgen_place.specs.Place.{in_brackets};
ghost use Rattle.jsgen_tree.specs.Tree.{Tree, trees};
ghost use Rattle.jsgen_tree.specs.Characters.{characters};
ghost use Rattle.jsgen_model.specs.Items.{◌⊕◌, template_part, before_it};
ghost use Rattle.jsgen_model.specs.Spell.{first_piece, other_pieces, opening_part, further_part, spell, before_expression, spell_substitutions};
ghost use Rattle.jsgen_printer.specs.Printer.{part_of};
ghost use Rattle.jsgen_printer.specs.Steps.{Lays};

use jsgen_printer::{Printer, TemplatePart};
use jsgen_tree::TemplateElement;

/// How the expressions of a template are printed.
pub trait PrintSubstitution<E> {
    // What an expression stands for.
    ghost plain: { E → Tree };

    /// The comments before it, and the expression.
    fn print_substitution(expression: &E, p: &mut Printer<'_>)
        ensures { Lays p.old p.new (before_expression before_it (plain expression.now) ⊕ spell (plain expression.now) (in_brackets Lowest)) };
}

/// A template: its pieces, whose raw texts a tag sees where the test holds, and its expressions between them.
pub fn print_template<E, L: PrintSubstitution<E>>(
    tagged: bool,
    pieces: &[TemplateElement],
    expressions: &[E],
    p: &mut Printer<'_>,
)
    ensures { Lays p.old p.new (first_piece tagged opening_part (trees (map template_element_row pieces.now))
        ⊕ spell_substitutions tagged (trees (map L.plain expressions.now)) (other_pieces (trees (map template_element_row pieces.now)))) }
{
    print_opening_piece(tagged, pieces, p);
    print_substitutions::<E, L>(tagged, expressions, other_pieces(pieces), p);
}

// The first of the pieces that are left, where there is one.
fn print_opening_piece(tagged: bool, pieces: &[TemplateElement], p: &mut Printer<'_>)
    ensures { Lays p.old p.new (first_piece tagged opening_part (trees (map template_element_row pieces.now))) }
{
    match pieces.split_first() {
        Some((piece, others)) => {
            print_part(opening_part(others), tagged, piece, p);
        }
        None => {}
    }
}

fn print_further_piece(tagged: bool, pieces: &[TemplateElement], p: &mut Printer<'_>)
    ensures { Lays p.old p.new (first_piece tagged further_part (trees (map template_element_row pieces.now))) }
{
    match pieces.split_first() {
        Some((piece, others)) => {
            print_part(further_part(others), tagged, piece, p);
        }
        None => {}
    }
}

fn print_part(part: TemplatePart, tagged: bool, piece: &TemplateElement, p: &mut Printer<'_>)
    ensures { Lays p.old p.new (template_part (part_of part) tagged piece.now.span (characters piece.now.raw)) }
{
    p.print_template_part(part, tagged, piece.span, &piece.raw);
}

fn opening_part(others: &[TemplateElement]) -> TemplatePart
    ensures { part_of result ≡ opening_part (trees (map template_element_row others.now)) }
{
    if others.is_empty() {
        TemplatePart::Whole
    } else {
        TemplatePart::Head
    }
}

fn further_part(others: &[TemplateElement]) -> TemplatePart
    ensures { part_of result ≡ further_part (trees (map template_element_row others.now)) }
{
    if others.is_empty() {
        TemplatePart::Tail
    } else {
        TemplatePart::Middle
    }
}

fn other_pieces(pieces: &[TemplateElement]) -> &[TemplateElement]
    ensures { trees (map template_element_row result.now) ≡ other_pieces (trees (map template_element_row pieces.now)) }
{
    match pieces.split_first() {
        Some((_, others)) => others,
        None => pieces,
    }
}

// The expressions, each with the piece behind it.
fn print_substitutions<E, L: PrintSubstitution<E>>(
    tagged: bool,
    expressions: &[E],
    pieces: &[TemplateElement],
    p: &mut Printer<'_>,
)
    ensures { Lays p.old p.new (spell_substitutions tagged (trees (map L.plain expressions.now)) (trees (map template_element_row pieces.now))) }
{
    let mut left = pieces;
    for expression in expressions {
        L::print_substitution(expression, p);
        print_further_piece(tagged, left, p);
        left = other_pieces(left);
    }
}
