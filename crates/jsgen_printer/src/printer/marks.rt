// Marks of a source map, where one is wanted.
ghost use Rattle.std.specs.Prelude.{◌≡◌, ◌≤◌, ◌-◌, ◌∷◌, true, None, is_some, length, string_bytes};
ghost use Rattle.std.specs.Fmt.Cut.{floor_char_boundary};
ghost use Rattle.std.specs.Option.{option_copied};
ghost use Rattle.std.specs.Str.{chars, encode_utf8_all};
ghost use Rattle.jsgen_model.specs.Items.{mark, end_mark, link_mark, marked_word, apart};
ghost use Rattle.jsgen_model.specs.Marks.{has_start_mark, has_end_mark, end_offset, has_link_mark, closes_link, ends_in_link, other_name_in};
ghost use Rattle.jsgen_model.specs.Spell.{items_if};
ghost use Rattle.jsgen_model.specs.Lay.{marked_if, span_mark, name_mark};
ghost use Rattle.jsgen_printer.specs.Printer.{pen_of, is_ascii, by_marks, marks_plain, source_plain};
ghost use Rattle.jsgen_printer.specs.Steps.{has_failed, Goes, Lays};

use super::{Ending, Printer};
use crate::marks::{Marks, other_name, other_private_name};
use jsgen_syntax::Span;

#[tactic(auto, unfolding(crate::specs::Printer::pen_of))]
impl<'a> Printer<'a> {
    ghost use Rattle.std.specs.Prelude.{IsTrue};

    /// The same printer, which from here on leaves marks behind those that are handed in.
    pub fn with_marks(self, marks: Marks<'a>) -> Printer<'a>
        ensures pen { pen_of result ≡ by_marks marks.entry (pen_of self.entry) }
        ensures failed { has_failed result ≡ has_failed self.entry }
    {
        let mut printer = self;
        printer.marks = Some(marks);
        printer
    }

    /// The text and its marks, and nothing is copied.
    pub fn into_parts(self) -> (String, Option<Marks<'a>>)
        ensures text { string_bytes result.0 ≡ encode_utf8_all (pen_of self.entry).code }
        ensures marks { marks_plain result.1 ≡ (pen_of self.entry).marks }
        ensures source { source_plain result.1 ≡ (pen_of self.entry).style.source }
    {
        (self.code.into_string(), self.marks)
    }

    // One more mark where a map is wanted.
    fn add_mark(&mut self, offset: u32, name: Option<&'a str>)
        requires { is_some (pen_of self.old).style.source ≡ true }
        ensures { Goes self.old self.new (marked_if true offset (option_copied name.entry)) }
    {
        if self.has_failed {
            return;
        }
        let bytes = self.code.len();
        match &mut self.marks {
            Some(marks) => match marks.add(bytes, offset, name) {
                Ok(()) => {}
                Err(_) => self.has_failed = true,
            },
            None => {}
        }
    }

    // Whether a span's start has a mark.
    fn has_start_mark(&self, span: Span) -> bool
        ensures { result ≡ has_start_mark (pen_of self.now).style.source span }
    {
        match &self.marks {
            Some(marks) => span.start != span.end && span.start as usize <= marks.source.len(),
            None => false,
        }
    }

    // Whether a span's end has a mark.
    fn has_end_mark(&self, span: Span) -> bool
        ensures { result ≡ has_end_mark (pen_of self.now).style.source span }
    {
        match &self.marks {
            Some(marks) => span.start != span.end && span.end as usize <= marks.source.len(),
            None => false,
        }
    }

    // Where the character begins that has the last byte of a span with a mark.
    fn end_offset(&self, span: Span) -> u32
        requires { IsTrue (has_end_mark (pen_of self.now).style.source span) }
        ensures { result ≡ end_offset (pen_of self.now).style.source span }
    {
        match &self.marks {
            Some(marks) => last_character(marks.source, span),
            None => 0,
        }
    }

    // Whether what follows a span has a mark, where an object of a link ends.
    fn has_link_mark(&self, span: Span) -> bool
        ensures { result ≡ has_link_mark (pen_of self.now).style.source span (pen_of self.now).code }
    {
        match &self.marks {
            Some(marks) => span.start != span.end
                && self.ends_in_link()
                && (span.end as usize) < marks.source.len(),
            None => false,
        }
    }

    fn ends_in_link(&self) -> bool
        ensures { result ≡ ends_in_link (pen_of self.now).code }
    {
        match self.code.last_byte() {
            Some(byte) => closes_link(byte),
            None => false,
        }
    }

    /// The mark of a span's start.
    pub fn print_mark(&mut self, span: Span)
        ensures { Lays self.old self.new (mark span) }
    {
        if self.has_start_mark(span) {
            self.add_mark(span.start, None);
        }
    }

    /// The same, where the test holds.
    pub fn print_mark_if(&mut self, test: bool, span: Span)
        ensures { Lays self.old self.new (items_if test (mark span)) }
    {
        if test {
            self.print_mark(span);
        }
    }

    /// The space before a word that a mark stands before.
    pub fn print_space_apart(&mut self)
        ensures { Lays self.old self.new apart }
    {
        let apart = self.is_apart();
        self.print_white_if(apart, " ");
    }

    /// The mark of a span's end.
    pub fn print_end_mark(&mut self, span: Span)
        ensures { Lays self.old self.new (end_mark span) }
    {
        if self.has_end_mark(span) {
            let offset = self.end_offset(span);
            self.add_mark(offset, None);
        }
    }

    /// The mark behind the object of a link.
    pub fn print_link_mark(&mut self, span: Span)
        ensures { Lays self.old self.new (link_mark span) }
    {
        if self.has_link_mark(span) {
            self.add_mark(span.end, None);
        }
    }

    // The name that the source has at a span, where it isn't what is printed there.
    fn other_name(&self, span: Span, printed: &str) -> Option<&'a str>
        ensures { option_copied result ≡ other_name_in (pen_of self.now).style.source span (chars printed.now) }
    {
        match &self.marks {
            Some(marks) => other_name(marks.source, span, printed),
            None => None,
        }
    }

    // The same of a private name, which is printed behind `#`.
    fn other_private_name(&self, span: Span, printed: &str) -> Option<&'a str>
        ensures { option_copied result ≡ other_name_in (pen_of self.now).style.source span (35 ∷ chars printed.now) }
    {
        match &self.marks {
            Some(marks) => other_private_name(marks.source, span, printed),
            None => None,
        }
    }

    // The mark of a name, by what is printed.
    pub(super) fn print_name_mark(&mut self, span: Span, printed: &str)
        ensures { Goes self.old self.new (name_mark span (chars printed.now)) }
    {
        if self.has_start_mark(span) {
            let name = self.other_name(span, printed);
            self.add_mark(span.start, name);
        }
    }

    // The mark of a private name, by what is printed behind `#`.
    pub(super) fn print_private_mark(&mut self, span: Span, printed: &str)
        ensures { Goes self.old self.new (name_mark span (35 ∷ chars printed.now)) }
    {
        if self.has_start_mark(span) {
            let name = self.other_private_name(span, printed);
            self.add_mark(span.start, name);
        }
    }

    /// A keyword, with the mark of the span that it begins behind the space before it.
    pub fn print_marked_word(&mut self, span: Span, text: &str)
        requires { IsTrue (is_ascii text.now) }
        ensures { Lays self.old self.new (marked_word span text.now) }
    {
        let apart = self.is_apart();
        self.print_if(apart, " ");
        self.print_mark(span);
        self.print_str(text, Ending::Other);
    }
}

// Where the character begins that has the last byte of a span.
fn last_character(source: &str, span: Span) -> u32
    requires { span.end ≤ length source.now }
    ensures { result ≡ floor_char_boundary source.now (span.end - 1) }
{
    let last = span.end.saturating_sub(1);
    source.floor_char_boundary(last as usize) as u32
}

// What the object of a link ends in, behind which it has a mark.
fn closes_link(byte: u8) -> bool
    ensures { result ≡ closes_link byte }
{
    byte == b')' || byte == b']'
}
