// Regular expressions.
ghost use Rattle.std.specs.Prelude.{◌≡◌};
ghost use Rattle.std.specs.Str.{chars};
ghost use Rattle.jsgen_syntax.specs.Raw.{pattern_text};
ghost use Rattle.jsgen_model.specs.Items.{regular_expression};
ghost use Rattle.jsgen_model.specs.Layout.{written, other_end, joins_pattern, is_barred_before};
ghost use Rattle.jsgen_printer.specs.Printer.{pen_of};
ghost use Rattle.jsgen_printer.specs.Steps.{Goes, Lays};

use super::{Ending, Printer, Start};
use jsgen_text::{begins_script, print_regex_pattern};

#[tactic(auto, unfolding(crate::specs::Printer::pen_of))]
impl Printer<'_> {
    /// A regular expression by its pattern, without the slashes, and its flags.
    pub fn print_regular_expression(&mut self, pattern: &str, flags: &str)
        ensures { Lays self.old self.new (regular_expression (chars pattern.now) (chars flags.now)) }
    {
        let apart = self.joins_pattern(pattern);
        self.print_apart(apart, "/", Ending::Other);
        self.print_pattern(pattern);
        self.print_str("/", Ending::Other);
        self.print_str(flags, Ending::RegularExpression);
    }

    // Whether the slash of a pattern would join what the code ends in.
    fn joins_pattern(&self, pattern: &str) -> bool
        ensures { result ≡ joins_pattern (pen_of self.now).code (chars pattern.now) }
    {
        match self.code.last_byte() {
            Some(byte) => is_barred_before(pattern, byte),
            None => false,
        }
    }

    // The code goes on with a pattern, without its slashes.
    fn print_pattern(&mut self, pattern: &str)
        ensures { Goes self.old self.new (λ pen. written (pattern_text pen.style.ascii (chars pattern.now)) other_end pen) }
    {
        if self.has_failed {
            return;
        }
        match print_regex_pattern(&mut self.code, pattern, self.ascii_only) {
            Ok(()) => {
                self.ending = Ending::Other;
                self.start = Start::Nowhere;
            }
            Err(_) => self.has_failed = true,
        }
    }
}

// Whether the slash of a pattern may not stand behind this byte.
#[tactic(auto)]
fn is_barred_before(pattern: &str, byte: u8) -> bool
    ensures { result ≡ is_barred_before (chars pattern.now) byte }
{
    byte == b'/' || byte == b'<' && begins_script(pattern)
}
