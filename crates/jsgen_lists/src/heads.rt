// Words before members, and what stands behind a word.
ghost use Rattle.std.specs.Prelude.{IsTrue, option_map};
ghost use Rattle.jsgen_tree.specs.Tree.{optional};
ghost use Rattle.jsgen_model.specs.Punctuator.{Round};
ghost use Rattle.jsgen_model.specs.Items.{◌⊕◌, word, brackets, soft_space, statement_end};
ghost use Rattle.jsgen_model.specs.Spell.{spell, spell_apart, accessor_word, key_word};
ghost use Rattle.jsgen_printer.specs.Steps.{Lays};
ghost use Rattle.jsgen_printer.specs.Printer.{is_ascii};

use crate::maybe::{print_apart, print_behind_space};
use crate::members::PrintMember;
use jsgen_place::Place;
use jsgen_printer::{Bracket, Printer};
use jsgen_tree::PropertyKind;

/// A word, and something behind it.
pub fn print_behind_word<E, L: PrintMember<E>>(
    text: &str,
    member: &E,
    p: &mut Printer<'_>,
    place: Place,
)
    requires { IsTrue (is_ascii text.now) }
    ensures { Lays p.old p.new (word text.now ⊕ soft_space ⊕ spell (L.plain member.now) place) }
{
    p.print_word(text);
    print_behind_space::<E, L>(member, p, place);
}

/// Behind a space, in parentheses.
pub fn print_apart_in_parentheses<E, L: PrintMember<E>>(
    member: &E,
    p: &mut Printer<'_>,
    place: Place,
)
    ensures { Lays p.old p.new (soft_space ⊕ brackets Round (spell (L.plain member.now) place)) }
{
    p.print_soft_space();
    print_in_parentheses::<E, L>(member, p, place);
}

pub fn print_in_parentheses<E, L: PrintMember<E>>(member: &E, p: &mut Printer<'_>, place: Place)
    ensures { Lays p.old p.new (brackets Round (spell (L.plain member.now) place)) }
{
    p.print_opening(Bracket::Round);
    L::print_member(member, p, place);
    p.print_closing(Bracket::Round);
}

/// What stands before the key of an accessor (ECMA-262, 15.4), and nothing before that of a method.
pub fn print_accessor_word(kind: PropertyKind, p: &mut Printer<'_>)
    ensures { Lays p.old p.new (accessor_word kind) }
{
    match kind {
        PropertyKind::Init => {}
        PropertyKind::Get => print_key_word("get", p),
        PropertyKind::Set => print_key_word("set", p),
    }
}

/// A word before a key.
pub fn print_key_word(text: &str, p: &mut Printer<'_>)
    requires { IsTrue (is_ascii text.now) }
    ensures { Lays p.old p.new (key_word text.now) }
{
    p.print_word(text);
    p.print_soft_space();
}
