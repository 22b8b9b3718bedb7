// What imports and exports have in common.
ghost use Rattle.std.specs.Prelude.{◌≡◌, IsTrue, option_map, map};
ghost use Rattle.jsgen_tree.specs.Tree.{trees, optional};
ghost use Rattle.jsgen_tree.specs.Rows.{with_clause_row};
ghost use Rattle.jsgen_model.specs.Items.{◌⊕◌, brackets, nothing, soft_space};
ghost use Rattle.jsgen_model.specs.Punctuator.{Brace};
ghost use Rattle.jsgen_model.specs.Spell.{module_word, export_word, spell_attributes, space_by, spaced_braces, spell_list};
ghost use Rattle.jsgen_place.specs.Place.{plainly};
ghost use Rattle.jsgen_printer.specs.Printer.{is_ascii};
ghost use Rattle.jsgen_printer.specs.Steps.{Lays};

use crate::attributes::print_with_clause;
use jsgen_lists::{PrintMember, print_list};
use jsgen_place::Place;
use jsgen_printer::{Bracket, Printer};
use jsgen_syntax::Span;
use jsgen_tree::WithClause;

/// What an import or an export begins with, up to its word.
pub fn begin_module_word(span: Span, text: &str, p: &mut Printer<'_>)
    requires { IsTrue (is_ascii text.now) }
    ensures { Lays p.old p.new (module_word span text.now) }
{
    p.print_comments(span.start);
    p.print_indentation();
    p.print_mark(span);
    p.print_word(text);
}

/// What the export of a declaration begins with, up to its word; the test tells that it is a function that has no side effects.
pub fn begin_export(pure: bool, span: Span, p: &mut Printer<'_>)
    ensures { Lays p.old p.new (export_word pure span) }
{
    p.print_comments(span.start);
    p.print_annotation_line_if(false, pure, span.start);
    p.print_indentation();
    p.print_mark(span);
    p.print_word("export");
}

/// A space, which minified text keeps where the test holds.
pub fn print_space_by(test: bool, p: &mut Printer<'_>)
    ensures { Lays p.old p.new (space_by test) }
{
    if test {
        p.print_hard_space();
    } else {
        p.print_soft_space();
    }
}

/// Attributes, if there are any, behind a space that minified text keeps where the test holds.
pub fn print_attributes(test: bool, attributes: &Option<Box<WithClause>>, p: &mut Printer<'_>)
    ensures { Lays p.old p.new (spell_attributes test (optional (option_map (λ b. with_clause_row b.value) attributes.now))) }
{
    match attributes {
        Some(attributes) => {
            print_space_by(test, p);
            print_with_clause(attributes, p, Place::plainly());
        }
        None => {}
    }
}

/// A list in braces with a space on each side, and nothing in empty ones.
pub fn print_spaced_braces<E, L: PrintMember<E>>(members: &[E], p: &mut Printer<'_>)
    ensures { Lays p.old p.new (spaced_braces (trees (map L.plain members.now)) (spell_list (trees (map L.plain members.now)) plainly)) }
{
    if members.is_empty() {
        print_empty_braces(p);
    } else {
        print_filled_braces::<E, L>(members, p);
    }
}

pub fn print_empty_braces(p: &mut Printer<'_>)
    ensures { Lays p.old p.new (brackets Brace nothing) }
{
    p.print_opening(Bracket::Brace);
    p.print_closing(Bracket::Brace);
}

/// A list in braces with a space on each side.
pub fn print_filled_braces<E, L: PrintMember<E>>(members: &[E], p: &mut Printer<'_>)
    ensures { Lays p.old p.new (brackets Brace (soft_space ⊕ spell_list (trees (map L.plain members.now)) plainly ⊕ soft_space)) }
{
    p.print_opening(Bracket::Brace);
    p.print_soft_space();
    print_list::<E, L>(members, p, Place::plainly());
    p.print_soft_space();
    p.print_closing(Bracket::Brace);
}
