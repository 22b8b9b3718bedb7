// What has been printed so far, and the steps by which it goes on. Each step is an item of the layout, and after want of memory
// none adds anything.
ghost use Rattle.std.specs.Prelude.{◌≡◌, ◌*◌, if◌then◌else◌};
ghost use Rattle.jsgen_syntax.specs.Buffer.{indent_width};
ghost use Rattle.jsgen_syntax.specs.Name.{goes_in_word};
ghost use Rattle.jsgen_syntax.specs.declared.quote.Quote.TheVariants.{Single, Double};
ghost use Rattle.jsgen_model.specs.Layout.{but_backticks};

use crate::marks::Marks;
use crate::operator::Operator;

mod annotations;
mod classes;
mod comments;
mod handed;
mod lines;
mod marks;
mod modules;
mod names;
mod numbers;
mod objects;
mod operators;
mod patterns;
mod templates;

use classes::Scope;
pub use comments::{CommentsBefore, Lead};
use jsgen_comments::Comments;
use jsgen_syntax::{CodeBuffer, JsStr, Quote, Span};
use jsgen_text::{
    cheapest_quote, directive_quote, print_directive_raw, print_name_text, print_string_text,
};
use jsgen_tree::{CodegenOptions, Tables};
pub use lines::{ArgumentLines, Around};
use std::alloc::Global;
pub use templates::TemplatePart;

/// What the code so far ends in, as far as it matters to what follows.
#[derive(Clone, Copy)]
pub enum Ending {
    Other,
    /// An operator, behind whose sign another may have to stand apart.
    Operator(Operator),
    /// A number, behind which a dot would be its own.
    Number,
    /// A name with escapes, maybe in `}`, which a letter behind it would go on with all the same.
    EscapedName,
    /// A regular expression, whose flags a letter behind it would be.
    RegularExpression,
}

/// What begins at the end of the code so far.
#[derive(Clone, Copy)]
pub enum Start {
    Nowhere,
    Statement,
    ArrowBody,
    DefaultExport,
}

/// Brackets that stand round what is printed.
#[derive(Clone, Copy)]
pub enum Bracket {
    Round,
    Square,
    Brace,
}

/// A text that is being printed. After want of memory it stays as it is, whatever steps are still made.
#[derive(Drop)]
pub struct Printer<'a> {
    code: CodeBuffer,
    scope: Scope<'a>,
    width: usize,
    minify: bool,
    ascii_only: bool,
    quote: Quote,
    depth: u32,
    pending_space: bool,
    pending_semicolon: bool,
    ending: Ending,
    start: Start,
    next_class: usize,
    // where a source map is wanted
    marks: Option<Marks<'a>>,
    // where any are to be printed
    comments: Option<Comments<'a>>,
    // annotations of calls and functions are printed
    annotated: bool,
    // the arguments round here stand on lines of their own
    lines: bool,
    alloc: Global,
    has_failed: bool,
    ghost indents: { width ≡ indent_width code },
}

#[tactic(auto, using(crate::proofs::Texts::ascii_chars), unfolding(crate::specs::Printer::pen_of))]
impl<'a> Printer<'a> {
    ghost use Rattle.std.specs.Prelude.{[], ◌∷◌, ◌++◌, replicate, string_bytes, false, true, IsTrue};
    ghost use Rattle.std.specs.Str.{chars, encode_utf8_all};
    ghost use Rattle.jsgen_model.specs.Punctuator.{Round, opening, closing, ellipsis, comma, semicolon, equal, colon, question, question_dot, arrow, star};
    ghost use Rattle.jsgen_model.specs.Items.{word, string, first_string, directive, member_dot, punctuator, soft_space, soft_line, hard_space, indentation, body_space, statement_end, due_semicolon, drop_semicolon, statement_begins, arrow_body_begins, a_brace, a_declaration, marked_indentation};
    ghost use Rattle.jsgen_model.specs.Lay.{may_be_indented};
    ghost use Rattle.jsgen_model.specs.Layout.{written, written_if, other_end, space_if, ends_in_word, ends_in_escapes, is_apart, name_ending, dot_joins, indented, white_if, begun_at, chosen_quote, first_quote, empty_pen, style_of, is_barred};
    ghost use Rattle.jsgen_tree.specs.Options.{options_plain};
    ghost use Rattle.jsgen_tree.specs.Job.{no_tables};
    ghost use Rattle.jsgen_tree.specs.Scoping.{tables_plain};
    ghost use Rattle.jsgen_syntax.specs.Units.{js_units};
    ghost use Rattle.jsgen_syntax.specs.Strings.{quote_char, quoted};
    ghost use Rattle.jsgen_syntax.specs.Raw.{directive_text};
    ghost use Rattle.jsgen_model.specs.Spell.{items_if};
    ghost use Rattle.jsgen_printer.specs.Steps.{has_failed, Goes, Lays};
    ghost use Rattle.jsgen_printer.specs.Printer.{bracket_of, pen_of, ending_of, start_of, name_written, by_tables, is_ascii, deepened, at_depth};

    /// A printer that has printed nothing.
    pub fn new(alloc: Global, options: &CodegenOptions) -> Printer<'a>
        ensures pen { pen_of result ≡ empty_pen (style_of (options_plain options.now) no_tables) 0 }
        ensures going { has_failed result ≡ false }
    {
        Printer {
            code: CodeBuffer::with_indent(alloc, options.indent_char, options.indent_width),
            scope: Scope::new(alloc),
            width: options.indent_width,
            minify: options.minify,
            ascii_only: options.ascii_only,
            quote: wanted_quote(options.single_quote),
            depth: 0,
            pending_space: false,
            pending_semicolon: false,
            ending: Ending::Other,
            start: Start::Statement,
            next_class: 0,
            marks: None,
            comments: None,
            annotated: options.comments.annotation,
            lines: false,
            alloc,
            has_failed: false,
        }
    }

    /// From here on names are printed by these tables.
    pub fn with_tables(self, tables: Tables<'a>) -> Printer<'a>
        ensures pen { pen_of result ≡ by_tables (tables_plain tables.entry) (pen_of self.entry) }
        ensures failed { has_failed result ≡ has_failed self.entry }
    {
        let mut printer = self;
        printer.scope.set_tables(tables);
        printer
    }

    /// Whether memory ran out.
    pub fn has_failed(&self) -> bool
        ensures { result ≡ has_failed self.now }
    {
        self.has_failed
    }

    /// Memory ran out elsewhere: no step adds anything from here on.
    pub fn fail(&mut self)
        ensures failed { has_failed self.new ≡ true }
        ensures pen { pen_of self.new ≡ pen_of self.old }
    {
        self.has_failed = true;
    }

    /// Whether the text is minified.
    pub fn is_minified(&self) -> bool
        ensures { result ≡ (pen_of self.now).style.minified }
    {
        self.minify
    }

    // The code goes on with a text, which ends so.
    fn print_str(&mut self, text: &str, ending: Ending)
        ensures { Goes self.old self.new (written (chars text.now) (ending_of ending)) }
    {
        if self.has_failed {
            return;
        }
        match self.code.print_str(text) {
            Ok(()) => {
                self.ending = ending;
                self.start = Start::Nowhere;
            }
            Err(_) => self.has_failed = true,
        }
    }

    // A text stands apart from what is before it, by a space where the test holds.
    fn print_apart(&mut self, test: bool, text: &str, ending: Ending)
        ensures { Goes self.old self.new (written (space_if test ++ chars text.now) (ending_of ending)) }
    {
        self.print_if(test, " ");
        self.print_str(text, ending);
    }

    // The code goes on with a text where the test holds.
    fn print_if(&mut self, test: bool, text: &str)
        ensures { Goes self.old self.new (written_if test (chars text.now)) }
    {
        if test {
            self.print_str(text, Ending::Other);
        }
    }

    // White text where the test holds: what began before it begins behind it.
    fn print_white_if(&mut self, test: bool, text: &str)
        ensures { Goes self.old self.new (white_if test (chars text.now)) }
    {
        let start = self.start;
        self.print_if(test, text);
        self.begin_at(start);
    }

    // What begins here.
    fn begin_at(&mut self, start: Start)
        ensures { Goes self.old self.new (begun_at (start_of start)) }
    {
        self.start = start;
    }

    fn ends_in_word(&self) -> bool
        ensures { result ≡ ends_in_word (pen_of self.now).code }
    {
        match self.code.last_byte() {
            Some(byte) => goes_in_word(byte),
            None => false,
        }
    }

    // Whether a word would go on with what the code ends in.
    fn is_apart(&self) -> bool
        ensures { result ≡ is_apart (pen_of self.now).ending (pen_of self.now).code }
    {
        self.ends_in_escapes() || self.ends_in_word()
    }

    fn ends_in_escapes(&self) -> bool
        ensures { result ≡ ends_in_escapes (pen_of self.now).ending }
    {
        matches!(
            &self.ending,
            Ending::EscapedName | Ending::RegularExpression
        )
    }

    pub fn print_word(&mut self, text: &str)
        requires { IsTrue (is_ascii text.now) }
        ensures { Lays self.old self.new (word text.now) }
    {
        let apart = self.is_apart();
        self.print_apart(apart, text, Ending::Other);
    }

    // The code goes on with a name, which needs no space before it.
    fn print_bare_name(&mut self, text: &str)
        ensures { Goes self.old self.new (name_written (chars text.now)) }
    {
        if self.has_failed {
            return;
        }
        match print_name_text(&mut self.code, text, self.ascii_only) {
            Ok(has_escapes) => {
                self.ending = Printer::name_ending(has_escapes);
                self.start = Start::Nowhere;
            }
            Err(_) => self.has_failed = true,
        }
    }

    // What the code ends in behind a name.
    fn name_ending(has_escapes: bool) -> Ending
        ensures { ending_of result ≡ name_ending has_escapes }
    {
        if has_escapes {
            Ending::EscapedName
        } else {
            Ending::Other
        }
    }

    fn string_quote(&self, value: &JsStr, backticks: bool) -> Quote
        ensures { result ≡ chosen_quote (pen_of self.now).style backticks (js_units value.now) }
    {
        if self.minify {
            cheapest_quote(value, backticks)
        } else if backticks {
            self.quote
        } else {
            but_backticks(self.quote)
        }
    }

    // The code goes on with a string in this quote.
    fn print_quoted(&mut self, value: &JsStr, quote: Quote)
        ensures { Goes self.old self.new (λ pen. written (quoted quote pen.style.ascii (js_units value.now)) other_end pen) }
    {
        if self.has_failed {
            return;
        }
        match print_string_text(&mut self.code, value, quote, self.ascii_only) {
            Ok(()) => {
                self.ending = Ending::Other;
                self.start = Start::Nowhere;
            }
            Err(_) => self.has_failed = true,
        }
    }

    /// A string, which may stand in backticks or not.
    pub fn print_string(&mut self, value: &JsStr, backticks: bool)
        ensures { Lays self.old self.new (string backticks (js_units value.now)) }
    {
        let quote = self.string_quote(value, backticks);
        self.print_quoted(value, quote);
    }

    /// A string that is a whole first statement, without its parentheses and its end.
    pub fn print_first_string(&mut self, value: &JsStr)
        ensures { Lays self.old self.new (first_string (js_units value.now)) }
    {
        let quote = self.first_quote();
        self.print_quoted(value, quote);
    }

    fn first_quote(&self) -> Quote
        ensures { result ≡ first_quote (pen_of self.now).style }
    {
        if self.minify {
            Quote::Backtick
        } else {
            self.quote
        }
    }

    /// A directive's raw text in its quotes, without its end.
    pub fn print_directive(&mut self, raw: &str)
        ensures { Lays self.old self.new (directive (chars raw.now)) }
    {
        let quote = directive_quote(self.quote, raw);
        self.print_quote(quote);
        self.print_raw(raw);
        self.print_quote(quote);
    }

    fn print_quote(&mut self, quote: Quote)
        ensures { Goes self.old self.new (written (quote_char quote ∷ []) other_end) }
    {
        if self.has_failed {
            return;
        }
        match quote.print(&mut self.code) {
            Ok(()) => {
                self.ending = Ending::Other;
                self.start = Start::Nowhere;
            }
            Err(_) => self.has_failed = true,
        }
    }

    fn print_raw(&mut self, raw: &str)
        ensures { Goes self.old self.new (λ pen. written (directive_text pen.style.ascii (chars raw.now)) other_end pen) }
    {
        if self.has_failed {
            return;
        }
        match print_directive_raw(&mut self.code, raw, self.ascii_only) {
            Ok(()) => {
                self.ending = Ending::Other;
                self.start = Start::Nowhere;
            }
            Err(_) => self.has_failed = true,
        }
    }

    /// Whether a brace at the end of the code would not open an object (ECMA-262, 14.5 and 15.3).
    pub fn bars_brace(&self) -> bool
        ensures { result ≡ is_barred a_brace (pen_of self.now).start }
    {
        match &self.start {
            Start::Nowhere | Start::DefaultExport => false,
            Start::Statement | Start::ArrowBody => true,
        }
    }

    /// Whether a function at the end of the code would be a declaration (ECMA-262, 14.5 and 16.2.3).
    pub fn bars_declaration(&self) -> bool
        ensures { result ≡ is_barred a_declaration (pen_of self.now).start }
    {
        match &self.start {
            Start::Statement | Start::DefaultExport => true,
            Start::Nowhere | Start::ArrowBody => false,
        }
    }

    pub fn print_opening(&mut self, bracket: Bracket)
        ensures { Goes self.old self.new (written (opening (bracket_of bracket)) other_end) }
    {
        match bracket {
            Bracket::Round => self.print_str("(", Ending::Other),
            Bracket::Square => self.print_str("[", Ending::Other),
            Bracket::Brace => self.print_str("{", Ending::Other),
        }
    }

    pub fn print_closing(&mut self, bracket: Bracket)
        ensures { Goes self.old self.new (written (closing (bracket_of bracket)) other_end) }
    {
        match bracket {
            Bracket::Round => self.print_str(")", Ending::Other),
            Bracket::Square => self.print_str("]", Ending::Other),
            Bracket::Brace => self.print_str("}", Ending::Other),
        }
    }

    fn ends_in_number(&self) -> bool
        ensures { result ≡ dot_joins (pen_of self.now).ending }
    {
        matches!(&self.ending, Ending::Number)
    }

    pub fn print_member_dot(&mut self)
        ensures { Lays self.old self.new member_dot }
    {
        let apart = self.ends_in_number();
        self.print_apart(apart, ".", Ending::Other);
    }

    pub fn print_comma(&mut self)
        ensures { Lays self.old self.new (punctuator comma) }
    {
        self.print_str(",", Ending::Other);
    }

    pub fn print_colon(&mut self)
        ensures { Lays self.old self.new (punctuator colon) }
    {
        self.print_str(":", Ending::Other);
    }

    pub fn print_question(&mut self)
        ensures { Lays self.old self.new (punctuator question) }
    {
        self.print_str("?", Ending::Other);
    }

    pub fn print_question_dot(&mut self)
        ensures { Lays self.old self.new (punctuator question_dot) }
    {
        self.print_str("?.", Ending::Other);
    }

    pub fn print_ellipsis(&mut self)
        ensures { Lays self.old self.new (punctuator ellipsis) }
    {
        self.print_str("...", Ending::Other);
    }

    pub fn print_star_if(&mut self, test: bool)
        ensures { Lays self.old self.new (items_if test (punctuator star)) }
    {
        if test {
            self.print_star();
        }
    }

    pub fn print_semicolon(&mut self)
        ensures { Lays self.old self.new (punctuator semicolon) }
    {
        self.print_str(";", Ending::Other);
    }

    pub fn print_equal(&mut self)
        ensures { Lays self.old self.new (punctuator equal) }
    {
        self.print_str("=", Ending::Other);
    }

    pub fn print_arrow(&mut self)
        ensures { Lays self.old self.new (punctuator arrow) }
    {
        self.print_str("=>", Ending::Other);
    }

    pub fn print_soft_space(&mut self)
        ensures { Lays self.old self.new soft_space }
    {
        self.print_if(!self.minify, " ");
    }

    pub fn print_soft_line(&mut self)
        ensures { Lays self.old self.new soft_line }
    {
        self.print_if(!self.minify, "\n");
    }

    /// A line end that minified text leaves out, where the test holds.
    pub fn print_soft_line_if(&mut self, test: bool)
        ensures { Lays self.old self.new (items_if test soft_line) }
    {
        if test {
            self.print_soft_line();
        }
    }

    pub fn print_hard_space(&mut self)
        ensures { Lays self.old self.new hard_space }
    {
        self.print_str(" ", Ending::Other);
    }

    pub fn print_indentation(&mut self)
        ensures { Lays self.old self.new indentation }
    {
        if self.minify {
            return;
        }
        if self.pending_space {
            self.print_white_if(true, " ");
            self.pending_space = false;
        } else {
            self.print_levels();
        }
    }

    /// Indentation, and where the level is above 0 or a space is pending the mark of a span behind it; in minified text, which prints
    /// neither, only if `always` is set.
    pub fn print_marked_indentation(&mut self, always: bool, span: Span)
        ensures { Lays self.old self.new (marked_indentation always span) }
    {
        let may_be_indented = self.may_be_indented(always);
        self.print_indentation();
        if may_be_indented {
            self.print_mark(span);
        }
    }

    fn may_be_indented(&self, always: bool) -> bool
        ensures { result ≡ may_be_indented always (pen_of self.now) }
    {
        (always || !self.minify) && (self.pending_space || self.depth > 0)
    }

    /// Indentation, where the test holds.
    pub fn print_indentation_if(&mut self, test: bool)
        ensures { Lays self.old self.new (items_if test indentation) }
    {
        if test {
            self.print_indentation();
        }
    }

    // The levels' own indentation. Wider than 64 bits it is want of memory: no tree that keeps the rules is so deep.
    fn print_levels(&mut self)
        ensures { Goes self.old self.new (λ pen. indented (replicate (pen.depth * pen.style.width) pen.style.indent) pen) }
    {
        if self.has_failed {
            return;
        }
        let depth = self.depth as usize;
        if depth.checked_mul(self.width).is_none() {
            self.has_failed = true;
            return;
        }
        let before = self.code.len();
        match self.code.print_indent(depth) {
            Ok(()) => {
                if self.code.len() > before {
                    self.ending = Ending::Other;
                }
            }
            Err(_) => self.has_failed = true,
        }
    }

    /// One space is to stand in place of the next indentation.
    pub fn begin_body(&mut self)
        ensures lays { Lays self.old self.new body_space }
        ensures failed { has_failed self.new ≡ has_failed self.old }
    {
        self.pending_space = true;
    }

    // What follows stands one level deeper, unless the text is minified, which has no levels. Behind the last level of 32 bits this
    // is want of memory: no tree that keeps the rules is so deep.
    fn go_deeper(&mut self)
        ensures { Goes self.old self.new deepened }
    {
        if self.minify {
            return;
        }
        if self.depth < u32::MAX {
            self.depth += 1;
        } else {
            self.has_failed = true;
        }
    }

    /// What follows stands one level deeper; gives the level before.
    pub fn deepen(&mut self) -> u32
        ensures level { result ≡ (pen_of self.old).depth }
        ensures pen { Goes self.old self.new deepened }
    {
        let depth = self.depth;
        self.go_deeper();
        depth
    }

    /// What follows stands at this level.
    pub fn set_depth(&mut self, depth: u32)
        ensures goes { Goes self.old self.new (at_depth depth) }
        ensures failed { has_failed self.new ≡ has_failed self.old }
    {
        self.depth = depth;
    }

    pub fn print_statement_end(&mut self)
        ensures { Lays self.old self.new statement_end }
    {
        if self.minify {
            self.pending_semicolon = true;
        } else {
            self.print_str(";\n", Ending::Other);
        }
    }

    /// The end of a statement, where the test holds.
    pub fn print_statement_end_if(&mut self, test: bool)
        ensures { Lays self.old self.new (items_if test statement_end) }
    {
        if test {
            self.print_statement_end();
        }
    }

    pub fn print_due_semicolon(&mut self)
        ensures { Lays self.old self.new due_semicolon }
    {
        self.print_if(self.pending_semicolon, ";");
        self.pending_semicolon = false;
    }

    /// A semicolon that is due is never printed.
    pub fn drop_semicolon(&mut self)
        ensures lays { Lays self.old self.new drop_semicolon }
        ensures failed { has_failed self.new ≡ has_failed self.old }
    {
        self.pending_semicolon = false;
    }

    pub fn begin_statement(&mut self)
        ensures lays { Lays self.old self.new statement_begins }
        ensures failed { has_failed self.new ≡ has_failed self.old }
    {
        self.start = Start::Statement;
    }

    /// The body of an arrow function begins here.
    pub fn begin_arrow_body(&mut self)
        ensures lays { Lays self.old self.new arrow_body_begins }
        ensures failed { has_failed self.new ≡ has_failed self.old }
    {
        self.start = Start::ArrowBody;
    }

    pub fn print_opening_if(&mut self, test: bool)
        ensures { Goes self.old self.new (written_if test (opening Round)) }
    {
        self.print_if(test, "(");
    }

    pub fn print_closing_if(&mut self, test: bool)
        ensures { Goes self.old self.new (written_if test (closing Round)) }
    {
        self.print_if(test, ")");
    }

    /// The text, and nothing is copied.
    pub fn into_string(self) -> String
        ensures { string_bytes result ≡ encode_utf8_all (pen_of self.entry).code }
    {
        self.code.into_string()
    }
}

// The quote of pretty text and of directives.
fn wanted_quote(single: bool) -> Quote
    ensures { result ≡ if single then Single else Double }
{
    if single { Quote::Single } else { Quote::Double }
}

// A quote that is never a backtick.
fn but_backticks(quote: Quote) -> Quote
    ensures { result ≡ but_backticks quote }
{
    match quote {
        Quote::Backtick => Quote::Double,
        Quote::Single => Quote::Single,
        Quote::Double => Quote::Double,
    }
}

// What can stand in a word, seen from its last byte.
fn goes_in_word(byte: u8) -> bool
    ensures { result ≡ goes_in_word byte }
{
    byte.is_ascii_alphanumeric() || byte == b'_' || byte == b'$' || byte >= 128
}
