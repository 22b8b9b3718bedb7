// The attributes of an import, and the hashbang of a program.
ghost use Rattle.std.specs.Prelude.{◌≡◌};
ghost use Rattle.jsgen_tree.specs.Rows.{hashbang_row, with_clause_row, import_attribute_row, in_import_attribute_key};
ghost use Rattle.jsgen_place.specs.Place.{plainly};
ghost use Rattle.jsgen_model.specs.Spell.{spell, attribute_key};
ghost use Rattle.jsgen_printer.specs.Steps.{Lays};

use crate::names::print_plain_string;
use crate::parts::print_spaced_braces;
use jsgen_lists::PrintMember;
use jsgen_place::Place;
use jsgen_printer::Printer;
use jsgen_syntax::Span;
use jsgen_tree::{Hashbang, ImportAttribute, ImportAttributeKey, WithClause};

/// Its line end stays in minified text.
pub fn print_hashbang(node: &Hashbang, p: &mut Printer<'_>, place: Place)
    ensures { Lays p.old p.new (spell (hashbang_row node.now) place) }
{
    let _ = place;
    p.print_literal("#!");
    p.print_literal(node.value.as_str());
    p.print_literal("\n");
}

pub fn print_with_clause(node: &WithClause, p: &mut Printer<'_>, place: Place)
    ensures { Lays p.old p.new (spell (with_clause_row node.now) place) }
{
    let _ = place;
    p.print_mark(node.span);
    p.print_word(node.keyword.as_str());
    p.print_soft_space();
    p.print_mark(node.span);
    print_spaced_braces::<_, Attributes>(&node.entries, p);
}

struct Attributes;

impl PrintMember<ImportAttribute> for Attributes {
    ghost plain = { import_attribute_row };

    fn print_member(attribute: &ImportAttribute, p: &mut Printer<'_>, place: Place) {
        print_import_attribute(attribute, p, place);
    }
}

pub fn print_import_attribute(node: &ImportAttribute, p: &mut Printer<'_>, place: Place)
    ensures { Lays p.old p.new (spell (import_attribute_row node.now) place) }
{
    let _ = place;
    print_key(&node.key, p);
    p.print_colon();
    p.print_soft_space();
    print_plain_string(&node.value, p);
}

// A name stands there without a mark.
fn print_key(key: &ImportAttributeKey, p: &mut Printer<'_>)
    ensures { Lays p.old p.new (attribute_key (in_import_attribute_key key.now) (spell (in_import_attribute_key key.now) plainly)) }
{
    match key {
        ImportAttributeKey::IdentifierName(node) => p.print_name(
            Span { start: 0, end: 0 },
            node.name.as_str(),
        ),
        ImportAttributeKey::StringLiteral(node) => print_plain_string(node, p),
    }
}
