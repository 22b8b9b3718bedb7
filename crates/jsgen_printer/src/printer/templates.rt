// Templates.
ghost use Rattle.std.specs.Prelude.{◌≡◌, codes};
ghost use Rattle.std.specs.Str.{chars};
ghost use Rattle.jsgen_syntax.specs.Raw.{template_text};
ghost use Rattle.jsgen_model.specs.Items.{template_part};
ghost use Rattle.jsgen_model.specs.Lay.{part_opening, part_closing, piece_mark};
ghost use Rattle.jsgen_model.specs.Layout.{written, other_end};
ghost use Rattle.jsgen_printer.specs.Printer.{part_of};
ghost use Rattle.jsgen_printer.specs.Steps.{Goes, Lays};

use super::{Ending, Printer, Start};
use jsgen_syntax::Span;
use jsgen_text::print_template_quasi_raw;

/// Which part of a template a piece is, by what stands on each side of it.
#[derive(Clone, Copy)]
pub enum TemplatePart {
    /// It is all of the template.
    Whole,
    /// Before the first expression.
    Head,
    /// Between two expressions.
    Middle,
    /// Behind the last expression.
    Tail,
}

impl TemplatePart {
    fn opening(self) -> &'static str
        ensures { result.now ≡ part_opening (part_of self) }
    {
        match self {
            TemplatePart::Whole | TemplatePart::Head => "`",
            TemplatePart::Middle | TemplatePart::Tail => "}",
        }
    }

    fn closing(self) -> &'static str
        ensures { result.now ≡ part_closing (part_of self) }
    {
        match self {
            TemplatePart::Whole | TemplatePart::Tail => "`",
            TemplatePart::Head | TemplatePart::Middle => "${",
        }
    }
}

#[tactic(auto, unfolding(crate::specs::Printer::pen_of))]
impl Printer<'_> {
    /// A part of a template by the raw text of its piece, which a tag sees where the test holds; the mark of the piece stands behind
    /// a brace before it.
    pub fn print_template_part(&mut self, part: TemplatePart, tagged: bool, span: Span, raw: &str)
        ensures { Lays self.old self.new (template_part (part_of part) tagged span (chars raw.now)) }
    {
        self.print_str(part.opening(), Ending::Other);
        self.print_piece_mark(part, span);
        self.print_piece(tagged, raw);
        self.print_str(part.closing(), Ending::Other);
    }

    // The mark of a piece, where a brace stands before it.
    fn print_piece_mark(&mut self, part: TemplatePart, span: Span)
        ensures { Goes self.old self.new (piece_mark (part_of part) span) }
    {
        match part {
            TemplatePart::Whole | TemplatePart::Head => {}
            TemplatePart::Middle | TemplatePart::Tail => self.print_mark(span),
        }
    }

    // The code goes on with the raw text of a piece.
    fn print_piece(&mut self, tagged: bool, raw: &str)
        ensures { Goes self.old self.new (λ pen. written (template_text tagged pen.style.minified pen.style.ascii (chars raw.now)) other_end pen) }
    {
        if self.has_failed {
            return;
        }
        match print_template_quasi_raw(&mut self.code, raw, tagged, self.minify, self.ascii_only) {
            Ok(()) => {
                self.ending = Ending::Other;
                self.start = Start::Nowhere;
            }
            Err(_) => self.has_failed = true,
        }
    }
}
