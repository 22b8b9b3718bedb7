//! Each type and set printed by itself: as what holds it in a tree prints it, with nothing round it.
#![tactic(auto)]

mod assignments;
mod choices;
mod classes;
mod collections;
mod expressions;
mod functions;
mod loops;
mod modules;
mod operations;
mod patterns;
mod sets;
mod statements;
mod targets;
mod templates;

use jsgen_place::{Context, Place};
use jsgen_printer::Printer;

/// What is printed by itself, as specs/Alone.antt says of its type, or of the set of which it is a member.
pub trait PrintAlone {
    ghost use Rattle.jsgen_tree.specs.Tree.{Tree};
    ghost use Rattle.jsgen_printer.specs.Steps.{Lays};
    ghost use Rattle.jsgen_alone.specs.Alone.{How, alone};

    ghost plain: { Self → Tree };

    ghost how: { How };

    fn print_alone(&self, p: &mut Printer<'_>, context: Context)
        ensures { Lays p.old p.new (alone how (plain self.now) context) };
}

/// What is printed at a level, which decides whether parentheses stand round it.
pub trait PrintAtLevel {
    ghost use Rattle.jsgen_tree.specs.Tree.{Tree};
    ghost use Rattle.jsgen_model.specs.Spell.{spell};
    ghost use Rattle.jsgen_printer.specs.Steps.{Lays};

    ghost plain: { Self → Tree };

    fn print_at(&self, p: &mut Printer<'_>, place: Place)
        ensures { Lays p.old p.new (spell (plain self.now) place) };
}
