// Objects, and their members, with the comments that stand before them.
ghost use Rattle.std.specs.Prelude.{◌≡◌, ◌||◌};
ghost use Rattle.jsgen_model.specs.Punctuator.{Round, closing};
ghost use Rattle.jsgen_model.specs.Items.{a_brace, member_line, member_space};
ghost use Rattle.jsgen_model.specs.Groups as groups;
ghost use Rattle.jsgen_model.specs.Layout.{begun_at, nowhere, written_if, is_barred};
ghost use Rattle.jsgen_model.specs.Lay.{is_enclosed, commented_from};
ghost use Rattle.jsgen_printer.specs.Printer.{pen_of};
ghost use Rattle.jsgen_printer.specs.Steps.{Goes, Lays};

use super::{Printer, Start};

#[tactic(auto, using(crate::proofs::Texts::ascii_chars), unfolding(crate::specs::Printer::pen_of))]
impl<'a> Printer<'a> {
    /// What an object begins with, which begins at this offset: a parenthesis where comments stand there, which stand behind it, or
    /// where a brace may not begin here. Tells whether there is one; `end_object` takes it.
    pub fn begin_object(&mut self, start: u32) -> bool
        ensures enclosed { result ≡ is_enclosed start (pen_of self.old) }
        ensures goes { Goes self.old self.new (commented_from start) }
    {
        let stood = self.has_comments(start);
        let enclosed = self.is_enclosed(stood);
        self.print_opening_if(enclosed);
        self.print_lined_comments_if(stood, start);
        self.begin_at(Start::Nowhere);
        enclosed
    }

    // Whether an object stands in parentheses, before which comments stand where the test holds.
    fn is_enclosed(&self, stood: bool) -> bool
        ensures { result ≡ (stood || is_barred a_brace (pen_of self.now).start) }
    {
        stood || self.bars_brace()
    }

    /// What an object ends with; `enclosed` is what `begin_object` gave.
    pub fn end_object(&mut self, enclosed: bool)
        ensures { Goes self.old self.new (λ pen. begun_at nowhere (written_if enclosed (closing Round) pen)) }
    {
        self.print_closing_if(enclosed);
        self.begin_at(Start::Nowhere);
    }

    fn print_lined_comments_if(&mut self, test: bool, start: u32)
        ensures { Goes self.old self.new (groups.commented_if test start) }
    {
        if test {
            self.print_lined_comments(start);
        }
    }

    /// What stands before a member of an object, which begins at this offset and stands on a line of its own.
    pub fn print_member_line(&mut self, start: u32)
        ensures { Lays self.old self.new (member_line start) }
    {
        self.print_soft_line();
        self.print_lined_comments(start);
    }

    /// The same where it stands on the line of its braces.
    pub fn print_member_space(&mut self, start: u32)
        ensures { Lays self.old self.new (member_space start) }
    {
        self.print_soft_space();
        self.print_comments_with_space(start);
    }
}
