// Print calls of nodes: each goes on with what was printed before, and is no part of a program.
ghost use Rattle.std.specs.Prelude.{◌≡◌, false};
ghost use Rattle.jsgen_model.specs.Lay.{lay};
ghost use Rattle.jsgen_model.specs.Spell.{spell};
ghost use Rattle.jsgen_place.specs.Place.{at_level};
ghost use Rattle.jsgen_alone.specs.Alone.{alone};
ghost use Rattle.jsgen.specs.Codegen.{has_failed, pen_at, Prints};
ghost use Rattle.jsgen.specs.Context.{context_at};

use crate::codegen::{Codegen, CodegenError};
use jsgen_alone::{PrintAlone, PrintAtLevel};
use jsgen_printer::Context;
use jsgen_syntax::Precedence;
use jsgen_tree::GetSpan;

/// What is printed by itself: as what holds it in a tree prints it, with nothing round it; `alone` of jsgen_alone says how each type is,
/// and each set. A statement is printed as it stands among statements. A print call stores no comments, so that what it adds is woven of the bones of its items alone
/// (`items_are_woven` of jsgen_comment_laws), with annotations as they are written.
pub trait Gen: GetSpan + PrintAlone {
    final fn gen_node(&self, p: &mut Codegen<'_>, ctx: Context) -> Result<(), CodegenError>
        requires unfailed { has_failed p.old ≡ false }
        ensures { Prints p.old p.new (lay (alone Self.how (Self.plain self.now) (context_at ctx)) (pen_at p.old)) result }
    {
        p.print_alone(self, ctx)
    }

    /// The same text.
    final fn print(&self, p: &mut Codegen<'_>, ctx: Context) -> Result<(), CodegenError>
        requires unfailed { has_failed p.old ≡ false }
        ensures { Prints p.old p.new (lay (alone Self.how (Self.plain self.now) (context_at ctx)) (pen_at p.old)) result }
    {
        self.gen_node(p, ctx)
    }
}

/// What is printed at a level, which decides whether parentheses stand round it; of comments and annotations as by `Gen`.
pub trait GenExpr: GetSpan + PrintAtLevel {
    final fn gen_expr(
        &self,
        p: &mut Codegen<'_>,
        precedence: Precedence,
        ctx: Context,
    ) -> Result<(), CodegenError>
        requires unfailed { has_failed p.old ≡ false }
        ensures { Prints p.old p.new (lay (spell (Self.plain self.now) (at_level precedence (context_at ctx))) (pen_at p.old)) result }
    {
        p.print_at_level(self, precedence, ctx)
    }

    /// The same text.
    final fn print_expr(
        &self,
        p: &mut Codegen<'_>,
        precedence: Precedence,
        ctx: Context,
    ) -> Result<(), CodegenError>
        requires unfailed { has_failed p.old ≡ false }
        ensures { Prints p.old p.new (lay (spell (Self.plain self.now) (at_level precedence (context_at ctx))) (pen_at p.old)) result }
    {
        self.gen_expr(p, precedence, ctx)
    }
}
