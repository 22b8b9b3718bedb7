// Annotations of calls and functions.
ghost use Rattle.std.specs.Prelude.{◌≡◌, ◌&&◌, ◌||◌, false, true, is_some, option_map, if◌then◌else◌};
ghost use Rattle.std.specs.Option.{option_to_list};
ghost use Rattle.std.specs.Str.{chars};
ghost use Rattle.jsgen_comments.specs.Plain.{annotation_of};
ghost use Rattle.jsgen_model.specs.Punctuator.{Round, opening};
ghost use Rattle.jsgen_model.specs.Items.{annotation, annotation_line, is_pure, no_side_effects};
ghost use Rattle.jsgen_model.specs.Groups.{annotation_at, annotation_by, annotation_line_at, annotation_text, annotation_written, fitting_at, without_annotation};
ghost use Rattle.jsgen_model.specs.Layout.{written, written_if, other_end, begun_at};
ghost use Rattle.jsgen_model.specs.Lay.{lay, lifts, annotated_if, annotated_from};
ghost use Rattle.jsgen_printer.specs.Printer.{one_plain, pen_of, start_of};
ghost use Rattle.jsgen_printer.specs.Steps.{has_failed, Goes, Lays};

use super::{Ending, Printer, Start};
use jsgen_comments::AnnotationKind;
use jsgen_syntax::Span;
use jsgen_tree::Comment;

/// A comment of a source.
#[derive(Clone, Copy)]
pub struct OneOf<'a> {
    pub source: &'a str,
    pub comment: Comment,
}

// What an annotation is, where the source has none.
fn annotation_text(kind: AnnotationKind) -> &'static str
    ensures { chars result.now ≡ annotation_text (annotation_of kind) }
{
    match kind {
        AnnotationKind::Pure => "/* @__PURE__ */",
        AnnotationKind::NoSideEffects => "/* @__NO_SIDE_EFFECTS__ */",
    }
}

#[tactic(auto, using(crate::proofs::Texts::ascii_chars), unfolding(crate::specs::Printer::pen_of))]
impl<'a> Printer<'a> {
    // The annotation that the source has at an offset, where it is of this kind, and a line ends behind it or may follow it on its
    // line. It leaves.
    fn take_annotation(
        &mut self,
        ends: bool,
        kind: AnnotationKind,
        offset: u32,
    ) -> Option<OneOf<'a>>
        ensures found { option_to_list (option_map one_plain result) ≡ fitting_at ends (annotation_of kind) offset (pen_of self.old) }
        ensures goes { Goes self.old self.new (λ pen. if is_some result then without_annotation offset pen else pen) }
        ensures failed { has_failed self.new ≡ has_failed self.old }
    {
        match &mut self.comments {
            Some(comments) => {
                let source = comments.source();
                match comments.take_annotation(ends, kind, offset) {
                    Some(comment) => Some(OneOf { source, comment }),
                    None => None,
                }
            }
            None => None,
        }
    }

    // What an annotation says, as the source has it or as it is written by itself.
    fn print_annotation_text(&mut self, ends: bool, kind: AnnotationKind, offset: u32)
        ensures { Goes self.old self.new (λ pen. annotation_by (fitting_at ends (annotation_of kind) offset pen) (annotation_of kind) offset pen) }
    {
        match self.take_annotation(ends, kind, offset) {
            Some(own) => self.print_comment(own.source, own.comment),
            None => self.print_str(annotation_text(kind), Ending::Other),
        }
    }

    // The same behind a space, where it would begin a comment otherwise.
    fn print_annotation(&mut self, ends: bool, kind: AnnotationKind, offset: u32)
        ensures { Goes self.old self.new (annotation_written ends (annotation_of kind) offset) }
    {
        let is_behind_slash = self.code_ends_in(b'/');
        self.print_if(is_behind_slash, " ");
        self.print_annotation_text(ends, kind, offset);
    }

    // An annotation before what began so.
    fn print_annotation_from(&mut self, start: Start, kind: AnnotationKind, offset: u32)
        ensures { Goes self.old self.new (λ pen. begun_at (start_of start) (annotation_at (annotation_of kind) offset pen)) }
    {
        self.print_annotation(false, kind, offset);
        self.print_str(" ", Ending::Other);
        self.begin_at(start);
    }

    /// An annotation that a function has no side effects, where the test holds, before what begins here; `offset` is where the function begins.
    pub fn print_annotation_if(&mut self, test: bool, offset: u32)
        ensures { Lays self.old self.new (annotation test no_side_effects offset) }
    {
        if self.annotates(test) {
            self.print_annotation_from(self.start, AnnotationKind::NoSideEffects, offset);
        }
    }

    /// The same on a line of its own, where `test` holds, behind indentation where `indented` does.
    pub fn print_annotation_line_if(&mut self, indented: bool, test: bool, offset: u32)
        ensures { Lays self.old self.new (annotation_line indented test offset) }
    {
        if self.annotates(test) {
            self.print_indentation_where(indented);
            self.print_annotation(true, AnnotationKind::NoSideEffects, offset);
            self.print_line_end();
        }
    }

    /// What a call or `new` begins with, which is pure where `pure` holds, and stands in parentheses where `test` does, or where `lifted`
    /// does and an annotation is printed; the annotation stands behind a mark of the span. Tells whether there is a parenthesis;
    /// `print_closing_if` closes it.
    pub fn begin_call(
        &mut self,
        test: bool,
        lifted: bool,
        pure: bool,
        span: Span,
        offset: u32,
    ) -> bool
        ensures wraps { result ≡ (lifts (record { wrapped = test; lifted = lifted; pure = pure; span = span; start = offset }) (pen_of self.old) || test) }
        ensures goes { Goes self.old self.new (annotated_from (record { wrapped = test; lifted = lifted; pure = pure; span = span; start = offset })) }
    {
        let wraps = self.wraps_call(test, lifted, pure);
        let annotates = self.annotates(pure);
        let start = self.start;
        self.print_opening_if(wraps);
        self.print_call_annotation_if(annotates, start, span, offset);
        wraps
    }

    // Whether an annotation of what is pure is printed.
    fn annotates(&self, pure: bool) -> bool
        ensures { result ≡ (pure && (pen_of self.now).style.annotated) }
    {
        pure && self.annotated
    }

    // Whether a call stands in parentheses.
    fn wraps_call(&self, test: bool, lifted: bool, pure: bool) -> bool
        ensures { result ≡ (((pure && (pen_of self.now).style.annotated) && lifted) || test) }
    {
        (self.annotates(pure) && lifted) || test
    }

    // The annotation of a call that began so, behind the mark of its span, where the test holds.
    fn print_call_annotation_if(&mut self, test: bool, start: Start, span: Span, offset: u32)
        ensures { Goes self.old self.new (annotated_if test span offset (start_of start)) }
    {
        if test {
            self.print_mark(span);
            self.print_annotation_from(start, AnnotationKind::Pure, offset);
        }
    }
}
