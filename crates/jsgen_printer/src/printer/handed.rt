// What callers hand in beside a tree, and how the text so far goes on with it. An empty text changes nothing.
ghost use Rattle.std.specs.Prelude.{◌≡◌, ◌<◌, [], ◌∷◌};
ghost use Rattle.std.specs.Str.{chars};
ghost use Rattle.jsgen_syntax.specs.Raw.{tag_free};
ghost use Rattle.jsgen_model.specs.Layout.{written, other_end};
ghost use Rattle.jsgen_printer.specs.Printer.{name_written, unless_empty};
ghost use Rattle.jsgen_printer.specs.Steps.{Goes};

use super::{Ending, Printer, Start};
use jsgen_text::print_str_escaping_script_close_tag;

#[tactic(auto, unfolding(crate::specs::Printer::pen_of))]
impl Printer<'_> {
    /// One byte of ASCII, as it is handed in.
    pub fn append_ascii_byte(&mut self, byte: u8)
        requires { byte < 128 }
        ensures { Goes self.old self.new (written (byte ∷ []) other_end) }
    {
        if self.has_failed {
            return;
        }
        match self.code.print_ascii_byte(byte) {
            Ok(()) => {
                self.ending = Ending::Other;
                self.start = Start::Nowhere;
            }
            Err(_) => self.has_failed = true,
        }
    }

    /// A text as it is handed in.
    pub fn append_text(&mut self, text: &str)
        ensures { Goes self.old self.new (λ pen. unless_empty (chars text.now) pen (written (chars text.now) other_end pen)) }
    {
        if !text.is_empty() {
            self.print_str(text, Ending::Other);
        }
    }

    /// A name as it is handed in, with no space before it.
    pub fn append_name(&mut self, text: &str)
        ensures { Goes self.old self.new (λ pen. unless_empty (chars text.now) pen (name_written (chars text.now) pen)) }
    {
        if !text.is_empty() {
            self.print_bare_name(text);
        }
    }

    /// A text as it is handed in, but with a backslash in each `</script`.
    pub fn append_tag_free(&mut self, text: &str)
        ensures { Goes self.old self.new (λ pen. unless_empty (chars text.now) pen (written (tag_free (chars text.now)) other_end pen)) }
    {
        if !text.is_empty() {
            self.print_tag_free(text);
        }
    }

    // The code goes on with a text with a backslash in each `</script`.
    pub(super) fn print_tag_free(&mut self, text: &str)
        ensures { Goes self.old self.new (written (tag_free (chars text.now)) other_end) }
    {
        if self.has_failed {
            return;
        }
        match print_str_escaping_script_close_tag(&mut self.code, text) {
            Ok(()) => {
                self.ending = Ending::Other;
                self.start = Start::Nowhere;
            }
            Err(_) => self.has_failed = true,
        }
    }
}
