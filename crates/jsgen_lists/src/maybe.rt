// What may be there or not.
ghost use Rattle.std.specs.Prelude.{map, option_map};
ghost use Rattle.jsgen_tree.specs.Tree.{Tree, given, trees, optional};
ghost use Rattle.jsgen_model.specs.Items.{◌⊕◌, soft_space, punctuator, line_break, import_options};
ghost use Rattle.jsgen_model.specs.Punctuator.{comma, equal};
ghost use Rattle.jsgen_model.specs.Spell.{spell, spell_value, spell_if_given, spell_behind_comma, spell_apart, spell_caught, spell_test, comma_between};
ghost use Rattle.jsgen_printer.specs.Steps.{Lays};

use crate::heads::{print_apart_in_parentheses, print_behind_word};
use crate::members::PrintMember;
use jsgen_place::Place;
use jsgen_printer::Printer;

/// The value of what is declared, behind `=`.
pub fn print_value<E, L: PrintMember<E>>(value: &Option<E>, p: &mut Printer<'_>, place: Place)
    ensures { Lays p.old p.new (spell_value (optional (option_map L.plain value.now)) place) }
{
    match value {
        Some(value) => print_behind_equal::<E, L>(value, p, place),
        None => {}
    }
}

fn print_behind_equal<E, L: PrintMember<E>>(value: &E, p: &mut Printer<'_>, place: Place)
    ensures { Lays p.old p.new (soft_space ⊕ punctuator equal ⊕ soft_space ⊕ spell (L.plain value.now) place) }
{
    p.print_soft_space();
    p.print_equal();
    p.print_soft_space();
    L::print_member(value, p, place);
}

/// The comma between some members and what takes the rest, where both are there.
pub fn print_comma_between<E, R, L: PrintMember<E>, M: PrintMember<R>>(
    members: &[E],
    rest: &Option<R>,
    p: &mut Printer<'_>,
)
    ensures { Lays p.old p.new (comma_between (trees (map L.plain members.now)) (optional (option_map M.plain rest.now))) }
{
    match rest {
        Some(_) => print_comma_behind::<E, L>(members, p),
        None => {}
    }
}

fn print_comma_behind<E, L: PrintMember<E>>(members: &[E], p: &mut Printer<'_>)
    ensures { (rest : Tree) → Lays p.old p.new (comma_between (trees (map L.plain members.now)) (given rest)) }
{
    if !members.is_empty() {
        print_comma_and_space(p);
    }
}

/// A comma, and a space behind it.
pub fn print_comma_and_space(p: &mut Printer<'_>)
    ensures { Lays p.old p.new (punctuator comma ⊕ soft_space) }
{
    p.print_comma();
    p.print_soft_space();
}

/// A member, if there is one.
pub fn print_if_given<E, L: PrintMember<E>>(member: &Option<E>, p: &mut Printer<'_>, place: Place)
    ensures { Lays p.old p.new (spell_if_given (optional (option_map L.plain member.now)) place) }
{
    match member {
        Some(member) => L::print_member(member, p, place),
        None => {}
    }
}

/// A second argument, if there is one, behind a comma.
pub fn print_behind_comma<E, L: PrintMember<E>>(
    member: &Option<E>,
    p: &mut Printer<'_>,
    place: Place,
)
    ensures { Lays p.old p.new (spell_behind_comma (optional (option_map L.plain member.now)) place) }
{
    match member {
        Some(member) => print_second::<E, L>(member, p, place),
        None => {}
    }
}

fn print_second<E, L: PrintMember<E>>(member: &E, p: &mut Printer<'_>, place: Place)
    ensures { Lays p.old p.new (punctuator comma ⊕ line_break import_options ⊕ spell (L.plain member.now) place) }
{
    p.print_comma();
    p.print_options_break();
    L::print_member(member, p, place);
}

/// A member, if there is one, behind a space.
pub fn print_apart<E, L: PrintMember<E>>(member: &Option<E>, p: &mut Printer<'_>, place: Place)
    ensures { Lays p.old p.new (spell_apart (optional (option_map L.plain member.now)) place) }
{
    match member {
        Some(member) => print_behind_space::<E, L>(member, p, place),
        None => {}
    }
}

pub fn print_behind_space<E, L: PrintMember<E>>(member: &E, p: &mut Printer<'_>, place: Place)
    ensures { Lays p.old p.new (soft_space ⊕ spell (L.plain member.now) place) }
{
    p.print_soft_space();
    L::print_member(member, p, place);
}

/// The name of what is caught, if it has one, in parentheses.
pub fn print_caught<E, L: PrintMember<E>>(param: &Option<E>, p: &mut Printer<'_>, place: Place)
    ensures { Lays p.old p.new (spell_caught (optional (option_map L.plain param.now)) place) }
{
    match param {
        Some(param) => print_apart_in_parentheses::<E, L>(param, p, place),
        None => {}
    }
}

/// What a case begins with: its test, or the word of a case that has none.
pub fn print_case_test<E, L: PrintMember<E>>(test: &Option<E>, p: &mut Printer<'_>, place: Place)
    ensures { Lays p.old p.new (spell_test (optional (option_map L.plain test.now)) place) }
{
    match test {
        Some(test) => print_behind_word::<E, L>("case", test, p, place),
        None => p.print_word("default"),
    }
}
