// What imports, exports and hashbangs have beside what is elsewhere.
ghost use Rattle.std.specs.Prelude.{◌≡◌};
ghost use Rattle.std.specs.Str.{chars};
ghost use Rattle.jsgen_model.specs.Punctuator.{star};
ghost use Rattle.jsgen_model.specs.Items.{literal, punctuator, default_export_begins};
ghost use Rattle.jsgen_printer.specs.Steps.{has_failed, Lays};

use super::{Ending, Printer, Start};

#[tactic(auto, using(crate::proofs::Texts::ascii_chars), unfolding(crate::specs::Printer::pen_of))]
impl Printer<'_> {
    /// A text that needs no space before it.
    pub fn print_literal(&mut self, text: &str)
        ensures { Lays self.old self.new (literal (chars text.now)) }
    {
        self.print_str(text, Ending::Other);
    }

    pub fn print_star(&mut self)
        ensures { Lays self.old self.new (punctuator star) }
    {
        self.print_str("*", Ending::Other);
    }

    /// The expression of a default export begins here.
    pub fn begin_default_export(&mut self)
        ensures lays { Lays self.old self.new default_export_begins }
        ensures failed { has_failed self.new ≡ has_failed self.old }
    {
        self.start = Start::DefaultExport;
    }
}
