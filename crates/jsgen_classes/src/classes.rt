// Classes and their bodies, one function for each row.
ghost use Rattle.std.specs.Prelude.{codes, option_map};
ghost use Rattle.jsgen_syntax.specs.declared.precedence.Precedence.TheVariants.{Postfix};
ghost use Rattle.jsgen_tree.specs.Tree.{optional};
ghost use Rattle.jsgen_tree.specs.Rows.{class_row, class_body_row, binding_identifier_row, in_expression};
ghost use Rattle.jsgen_place.specs.Place.{in_brackets};
ghost use Rattle.jsgen_model.specs.Items.{◌⊕◌, comments, all_of_them, soft_space, word, hard_space};
ghost use Rattle.jsgen_model.specs.Spell.{spell, linked_items, items_if, spell_behind_word, spell_heritage};
ghost use Rattle.jsgen_printer.specs.Steps.{Lays};
ghost use Rattle.jsgen_classes.specs.Classes.{from_word};

use jsgen_inside::{Nested, PrintInside, print_binding_identifier};
use jsgen_lists::{print_class_braces, print_linked};
use jsgen_place::Place;
use jsgen_printer::Printer;
use jsgen_syntax::Precedence;
use jsgen_tree::{BindingIdentifier, Class, ClassBody, ClassKind, ExpressionNode};

/// A declaration among statements is a line of its own. An expression stands in parentheses where it would be a declaration.
pub fn print_class<N, L: PrintInside<N>>(node: &Class<N>, p: &mut Printer<'_>, place: Place)
    ensures { Lays p.old p.new (spell (class_row L.plain node.now) place) }
{
    match node.kind {
        ClassKind::Declaration => {
            p.print_comments_if(place.in_list, node.span.start);
            p.print_indentation_if(place.in_list);
            print_from_word::<_, L>(node, p, place);
            p.print_soft_line_if(place.in_list);
        }
        ClassKind::Expression => {
            let wrap = p.bars_declaration();
            p.print_opening_if(wrap);
            print_from_word::<_, L>(node, p, place);
            p.print_closing_if(wrap);
        }
    }
}

// From the word on.
fn print_from_word<N, L: PrintInside<N>>(node: &Class<N>, p: &mut Printer<'_>, place: Place)
    ensures { Lays p.old p.new (from_word (class_row L.plain node.now) place) }
{
    let within = place.child(Precedence::Lowest);
    p.print_marked_word(node.span, "class");
    print_name(&node.id, p, within);
    print_heritage::<_, L>(&node.heritage, p);
    p.print_soft_space();
    print_class_body::<_, L>(&node.body, p, within.with_calls());
}

// The name of the class, if it has one.
fn print_name(name: &Option<Box<BindingIdentifier>>, p: &mut Printer<'_>, place: Place)
    ensures { Lays p.old p.new (spell_behind_word (optional (option_map (λ b. binding_identifier_row b.value) name.now)) place) }
{
    match name {
        Some(name) => print_behind_word(name, p, place),
        None => {}
    }
}

fn print_behind_word(name: &BindingIdentifier, p: &mut Printer<'_>, place: Place)
    ensures { Lays p.old p.new (hard_space ⊕ spell (binding_identifier_row name.now) place) }
{
    p.print_hard_space();
    print_binding_identifier(name, p, place);
}

// What the class extends, if anything.
fn print_heritage<N, L: PrintInside<N>>(heritage: &Option<ExpressionNode<N>>, p: &mut Printer<'_>)
    ensures { Lays p.old p.new (spell_heritage (optional (option_map (in_expression L.plain) heritage.now))) }
{
    match heritage {
        Some(heritage) => print_extends::<_, L>(heritage, p),
        None => {}
    }
}

fn print_extends<N, L: PrintInside<N>>(heritage: &ExpressionNode<N>, p: &mut Printer<'_>)
    ensures { Lays p.old p.new (soft_space ⊕ word (codes "extends") ⊕ hard_space ⊕ linked_items (in_expression L.plain heritage.now) (spell (in_expression L.plain heritage.now) (in_brackets Postfix))) }
{
    p.print_soft_space();
    p.print_word("extends");
    p.print_hard_space();
    print_linked::<_, Nested<L>>(heritage, p, Place::in_brackets(Precedence::Postfix));
}

/// The braces and what is in them, where the class's private names have their new ones.
pub fn print_class_body<N, L: PrintInside<N>>(
    node: &ClassBody<N>,
    p: &mut Printer<'_>,
    place: Place,
)
    ensures { Lays p.old p.new (spell (class_body_row L.plain node.now) place) }
{
    let outer = p.enter_class();
    print_class_braces::<_, Nested<L>>(node.span, &node.body, p, place.member());
    p.leave_class(outer);
}
