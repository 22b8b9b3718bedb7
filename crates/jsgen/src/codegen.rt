// The printer's public calls.
ghost use Rattle.std.specs.Prelude.{◌≡◌, ◌<◌, [], ◌∷◌, true, false, flat_map, Some, IfOk, option_map, string_bytes, codes};
ghost use Rattle.std.specs.Char.Escape.{encode_utf16};
ghost use Rattle.jsgen_tree.specs.Options.{options_plain, default_options};
ghost use Rattle.jsgen_tree.specs.Plain.{program_plain, node_plain};
ghost use Rattle.jsgen_tree.specs.Rows.{expression_plain};
ghost use Rattle.jsgen_tree.specs.Job.{no_tables};
ghost use Rattle.jsgen_tree.specs.Scoping.{scoping_plain, private_plain, tables_plain};
ghost use Rattle.jsgen_syntax.specs.Raw.{tag_free};
ghost use Rattle.jsgen_model.specs.Items.{string};
ghost use Rattle.jsgen_model.specs.Lay.{lay};
ghost use Rattle.jsgen_model.specs.Layout.{style_of, empty_pen, written, other_end};
ghost use Rattle.jsgen_syntax.specs.declared.precedence.Precedence.TheVariants.{Lowest};
ghost use Rattle.jsgen_model.specs.Spell.{text_bytes, spell};
ghost use Rattle.std.specs.Str.{chars};
ghost use Rattle.jsgen_model.specs.Plain.{IsCore, IsPlain, IsQuiet};
ghost use Rattle.jsgen_model.specs.Reading.{HasReading, IsReadAs, IsReadOnlyAs};
ghost use Rattle.jsgen_model.specs.Valid.{job_breaches, expression_breaches, IsValid, IsValidExpression, Judges};
ghost use Rattle.jsgen_alone.specs.Alone.{alone};
ghost use Rattle.jsgen_check.specs.Verdict.{told};
ghost use Rattle.jsgen_printer.specs.Printer.{pen_of, by_tables, name_written, unless_empty};
ghost use Rattle.jsgen_place.specs.Place.{free, at_level};
ghost use Rattle.jsgen.specs.Commented.{HasComments};
ghost use Rattle.jsgen.specs.Context.{context_at};
ghost use Rattle.jsgen.specs.Licences.{job_licences, rows_plain};
ghost use Rattle.jsgen.specs.Mapped.{HasMap, NamesStandIn};

use crate::licences::End;
use crate::mapped::{print_mapped, print_unmapped};
use jsgen_alone::{PrintAlone, PrintAtLevel};
use jsgen_check::{check_expression, check_program};
use jsgen_comments::Comments;
use jsgen_map::SourceMap;
use jsgen_model::TreeFault;
use jsgen_place::Place;
use jsgen_printer::{Context, Printer};
use jsgen_syntax::{JsStr, Memory, Precedence};
use jsgen_tree::{CodegenOptions, Comment, Expression, PrivateMappings, Program, Scoping, Tables};
use std::alloc::Global;
use std::error::Error;
use std::fmt;

/// Why a call didn't print the whole text.
#[derive(Clone, Copy, Debug, PartialEq, Eq)]
pub enum CodegenError {
    /// Memory ran out.
    Memory,
}

impl fmt::Display for CodegenError {
    ghost output = { λ _. Some (codes "out of memory") };

    fn fmt<W: fmt::Write>(&self, f: &mut fmt::Formatter<W>) -> fmt::Result {
        match self {
            CodegenError::Memory => f.write_str("out of memory"),
        }
    }
}

impl Error for CodegenError {}

impl From<Memory> for CodegenError {
    fn from(_error: Memory) -> CodegenError {
        CodegenError::Memory
    }
}

/// What a program was printed as, its source map, where a path is set for one, and its licences, where they stand in a file of their
/// own.
#[derive(Drop)]
pub struct CodegenReturn<'a> {
    pub code: String,
    pub map: Option<SourceMap<'a>>,
    pub legal_comments: Vec<Comment>,
}

/// A printer: of a whole program by `build`, or of pieces of code, one call after another. It holds the text so far, and what
/// matters of its end to what follows.
#[derive(Drop)]
pub struct Codegen<'a> {
    alloc: Global,
    options: CodegenOptions,
    tables: Tables<'a>,
    source_text: &'a str,
    printer: Printer<'a>,
    has_printed: bool,
    ghost fresh: { has_printed ≡ false → pen_of printer ≡ empty_pen (style_of (options_plain options) (tables_plain tables)) 0 },
}

impl<'a> Codegen<'a> {
    ghost use Rattle.std.specs.Prelude.{is_err};
    ghost use Rattle.jsgen.specs.Codegen.{options_of, tables_of, source_text_of, job_for, has_printed, has_failed, pen_at, printed_so_far, Prints};

    /// A printer by the default options, of pretty text, that prints each name as it is.
    pub fn new(alloc: Global) -> Codegen<'a>
        ensures options { options_of result ≡ default_options }
        ensures tables { tables_of result ≡ no_tables }
        ensures source_text { source_text_of result ≡ [] }
        ensures printed { has_printed result ≡ false }
        ensures failed { has_failed result ≡ false }
        ensures empty { pen_at result ≡ empty_pen (style_of default_options no_tables) 0 }
    {
        let defaults = CodegenOptions::default();
        let printer = Printer::new(alloc, &defaults);
        Codegen {
            alloc,
            options: defaults,
            tables: Tables::none(),
            source_text: "",
            printer,
            has_printed: false,
        }
    }

    /// The same printer by these options, before it has printed anything.
    pub fn with_options(self, options: CodegenOptions) -> Codegen<'a>
        requires unprinted { has_printed self ≡ false }
        ensures options { options_of result ≡ options_plain options }
        ensures tables { tables_of result ≡ tables_of self.entry }
        ensures source_text { source_text_of result ≡ source_text_of self.entry }
        ensures printed { has_printed result ≡ false }
        ensures failed { has_failed result ≡ false }
        ensures empty { pen_at result ≡ empty_pen (style_of (options_plain options) (tables_of self.entry)) 0 }
    {
        let printer = Printer::new(self.alloc, &options).with_tables(self.tables);
        Codegen {
            alloc: self.alloc,
            options,
            tables: self.tables,
            source_text: self.source_text,
            printer,
            has_printed: self.has_printed,
        }
    }

    /// The same printer by these names of symbols, from here on; `None` for none.
    #[tactic(auto, unfolding(jsgen_tree::specs::Scoping::tables_plain))]
    pub fn with_scoping(self, scoping: Option<&'a Scoping>) -> Codegen<'a>
        ensures options { options_of result ≡ options_of self.entry }
        ensures tables { tables_of result ≡ record (tables_of self.entry) { scoping = option_map (λ s. scoping_plain s.now) scoping.entry } }
        ensures source_text { source_text_of result ≡ source_text_of self.entry }
        ensures printed { has_printed result ≡ has_printed self.entry }
        ensures failed { has_failed result ≡ has_failed self.entry }
        ensures pen { pen_at result ≡ by_tables (tables_of result) (pen_at self.entry) }
    {
        let tables = Tables {
            scoping,
            ..self.tables
        };
        self.with_tables(tables)
    }

    /// The same printer by these new names of private names, from here on; `None` for none. Classes are numbered from the first one
    /// that it prints, over all calls.
    #[tactic(auto, unfolding(jsgen_tree::specs::Scoping::tables_plain))]
    pub fn with_private_member_mappings(self, mappings: Option<&'a PrivateMappings>) -> Codegen<'a>
        ensures options { options_of result ≡ options_of self.entry }
        ensures tables { tables_of result ≡ record (tables_of self.entry) { private = option_map (λ p. private_plain p.now) mappings.entry } }
        ensures source_text { source_text_of result ≡ source_text_of self.entry }
        ensures printed { has_printed result ≡ has_printed self.entry }
        ensures failed { has_failed result ≡ has_failed self.entry }
        ensures pen { pen_at result ≡ by_tables (tables_of result) (pen_at self.entry) }
    {
        let tables = Tables {
            private: mappings,
            ..self.tables
        };
        self.with_tables(tables)
    }

    /// The same printer with this source text for print calls, which print no comments and give no marks, so that nothing that they
    /// print depends on it. `build` takes the source of its program.
    pub fn with_source_text(self, source_text: &'a str) -> Codegen<'a>
        ensures options { options_of result ≡ options_of self.entry }
        ensures tables { tables_of result ≡ tables_of self.entry }
        ensures source_text { source_text_of result ≡ source_text.now }
        ensures printed { has_printed result ≡ has_printed self.entry }
        ensures failed { has_failed result ≡ has_failed self.entry }
        ensures pen { pen_at result ≡ pen_at self.entry }
    {
        Codegen {
            alloc: self.alloc,
            options: self.options,
            tables: self.tables,
            source_text,
            printer: self.printer,
            has_printed: self.has_printed,
        }
    }

    // The same printer by these tables.
    fn with_tables(self, tables: Tables<'a>) -> Codegen<'a>
        ensures options { options_of result ≡ options_of self.entry }
        ensures tables { tables_of result ≡ tables_plain tables.entry }
        ensures source_text { source_text_of result ≡ source_text_of self.entry }
        ensures printed { has_printed result ≡ has_printed self.entry }
        ensures failed { has_failed result ≡ has_failed self.entry }
        ensures pen { pen_at result ≡ by_tables (tables_of result) (pen_at self.entry) }
    {
        Codegen {
            alloc: self.alloc,
            options: self.options,
            tables,
            source_text: self.source_text,
            printer: self.printer.with_tables(tables),
            has_printed: self.has_printed,
        }
    }

    /// The source text that print calls were given.
    pub fn source_text(&self) -> &'a str
        ensures { result.now ≡ source_text_of self.now }
    {
        self.source_text
    }

    /// Whether a print call was made.
    pub fn has_printed(&self) -> bool
        ensures { result ≡ has_printed self.now }
    {
        self.has_printed
    }

    /// Whether a print call failed, after which the code so far may end within a piece, and no other may be made.
    pub fn has_failed(&self) -> bool
        ensures { result ≡ has_failed self.now }
    {
        self.printer.has_failed()
    }

    // What a print call answers.
    fn outcome(&self) -> Result<(), CodegenError>
        ensures { is_err result ≡ has_failed self.now }
    {
        if self.printer.has_failed() {
            Err(CodegenError::Memory)
        } else {
            Ok(())
        }
    }

    /// Prints one byte of ASCII as it is.
    pub fn print_ascii_byte(&mut self, byte: u8) -> Result<(), CodegenError>
        requires ascii { byte < 128 }
        requires unfailed { has_failed self.old ≡ false }
        ensures { Prints self.old self.new (written (byte ∷ []) other_end (pen_at self.old)) result }
    {
        self.has_printed = true;
        self.printer.append_ascii_byte(byte);
        self.outcome()
    }

    /// Prints the text as it is. Where it isn't empty, nothing is remembered of what was printed before.
    pub fn print_str(&mut self, s: &str) -> Result<(), CodegenError>
        requires unfailed { has_failed self.old ≡ false }
        ensures { Prints self.old self.new (unless_empty (chars s.now) (pen_at self.old) (written (chars s.now) other_end (pen_at self.old))) result }
    {
        self.has_printed = true;
        self.printer.append_text(s);
        self.outcome()
    }

    /// Prints a name, with no space before it, and with escapes for what isn't ASCII where the options ask for ASCII: the code
    /// then ends in such a name, which a word that follows stands apart from.
    pub fn print_name(&mut self, s: &str) -> Result<(), CodegenError>
        requires unfailed { has_failed self.old ≡ false }
        ensures { Prints self.old self.new (unless_empty (chars s.now) (pen_at self.old) (name_written (chars s.now) (pen_at self.old))) result }
    {
        self.has_printed = true;
        self.printer.append_name(s);
        self.outcome()
    }

    /// Prints the text with a backslash before the `/` of each `</script`, in any letter case, which would end the script
    /// that it stands in.
    pub fn print_str_escaping_script_close_tag(&mut self, s: &str) -> Result<(), CodegenError>
        requires unfailed { has_failed self.old ≡ false }
        ensures { Prints self.old self.new (unless_empty (chars s.now) (pen_at self.old) (written (tag_free (chars s.now)) other_end (pen_at self.old))) result }
    {
        self.has_printed = true;
        self.printer.append_tag_free(s);
        self.outcome()
    }

    /// Prints a string that has the text as its value: in the quote that the options ask for, and minified in the one
    /// that makes it shortest, but never in backticks.
    pub fn print_string(&mut self, s: &str) -> Result<(), CodegenError>
        requires unfailed { has_failed self.old ≡ false }
        ensures { Prints self.old self.new (lay (string false (flat_map encode_utf16 (chars s.now))) (pen_at self.old)) result }
    {
        self.has_printed = true;
        match JsStr::from_text(self.alloc, s) {
            Ok(value) => self.printer.print_string(&value, false),
            Err(Memory) => self.printer.fail(),
        }
        self.outcome()
    }

    /// Prints an expression by itself, which `check_expression` has to accept: at the lowest level, where nothing is forbidden. As
    /// the first that is printed it begins a statement, so that an object stands in parentheses.
    pub fn print_expression(&mut self, expression: &Expression) -> Result<(), CodegenError>
        requires valid { IsValidExpression (options_of self.old) (tables_of self.old) (expression_plain node_plain expression.now) }
        requires unfailed { has_failed self.old ≡ false }
        ensures { Prints self.old self.new (lay (spell (expression_plain node_plain expression.now) (at_level Lowest free)) (pen_at self.old)) result }
    {
        self.print_at(expression, Place::within_statement())
    }

    // Prints what stands at a place.
    fn print_at<T: PrintAtLevel>(&mut self, node: &T, place: Place) -> Result<(), CodegenError>
        requires unfailed { has_failed self.old ≡ false }
        ensures { Prints self.old self.new (lay (spell (T.plain node.now) place) (pen_at self.old)) result }
    {
        self.has_printed = true;
        node.print_at(&mut self.printer, place);
        self.outcome()
    }

    // Prints an expression, or what else has a level.
    pub(crate) fn print_at_level<T: PrintAtLevel>(
        &mut self,
        node: &T,
        level: Precedence,
        context: Context,
    ) -> Result<(), CodegenError>
        requires unfailed { has_failed self.old ≡ false }
        ensures { Prints self.old self.new (lay (spell (T.plain node.now) (at_level level (context_at context))) (pen_at self.old)) result }
    {
        self.print_at(node, Place::at_level(level, place_context(context)))
    }

    // Prints what stands by itself.
    pub(crate) fn print_alone<T: PrintAlone>(
        &mut self,
        node: &T,
        context: Context,
    ) -> Result<(), CodegenError>
        requires unfailed { has_failed self.old ≡ false }
        ensures { Prints self.old self.new (lay (alone T.how (T.plain node.now) (context_at context)) (pen_at self.old)) result }
    {
        self.has_printed = true;
        node.print_alone(&mut self.printer, place_context(context));
        self.outcome()
    }

    /// The code so far, and nothing is copied.
    pub fn into_source_text(self) -> String
        ensures { string_bytes result ≡ printed_so_far self.entry }
    {
        self.printer.into_string()
    }

    /// Says Ok exactly where the program keeps each rule of a tree (docs/FORMAT.md, "Rules of a tree"), and otherwise
    /// a rule that it breaks. It takes no memory.
    pub fn check(&self, program: &Program) -> Result<(), TreeFault>
        ensures judges { Judges (job_breaches (job_for self.now (program_plain program.now))) result }

        // Of several rules that are broken it is the job alone that says which is told.
        ensures told { result ≡ told (job_for self.now (program_plain program.now)) }
    {
        let Tables { scoping, private } = self.tables;
        check_program(&self.options, scoping, private, program)
    }

    /// Says Ok exactly where the expression by itself keeps each rule, and otherwise a rule that it breaks: it is checked as the
    /// one statement of a module, without a source. It takes no memory.
    pub fn check_expression(&self, expression: &Expression) -> Result<(), TreeFault>
        ensures { Judges (expression_breaches (options_of self.now) (tables_of self.now) (expression_plain node_plain expression.now)) result }
    {
        let Tables { scoping, private } = self.tables;
        check_expression(&self.options, scoping, private, expression)
    }

    /// Prints a program, which `check` has to accept, before anything else is printed: its first line stands at the level
    /// `initial_indent`, where print calls begin at level 0. The source map, if a path is set, leads to the program's source. The
    /// only error is want of memory.
    pub fn build(self, program: &'a Program) -> Result<CodegenReturn<'a>, CodegenError>
        requires unprinted { has_printed self ≡ false }
        requires valid { IsValid (job_for self (program_plain program.now)) }

        // The text, to the byte.
        ensures text { IfOk result (λ printed. string_bytes printed.code
            ≡ text_bytes (job_for self.entry (program_plain program.now))) }

        // The grammar reads the text of a plain and quiet program as that program, up to its normal form.
        ensures reads { IfOk result (λ printed. IsPlain (program_plain program.now) → IsQuiet (job_for self.entry (program_plain program.now))
            → IsReadAs (chars (string_bytes printed.code)) (job_for self.entry (program_plain program.now))) }

        // It reads it as no other.
        ensures one_reading { IfOk result (λ printed. IsPlain (program_plain program.now) → IsQuiet (job_for self.entry (program_plain program.now))
            → IsReadOnlyAs (chars (string_bytes printed.code)) (job_for self.entry (program_plain program.now))) }

        // And it reads the text of a quiet program that is core, plain or not, as that program.
        ensures core_reads { IfOk result (λ printed. IsCore (program_plain program.now) → IsQuiet (job_for self.entry (program_plain program.now))
            → HasReading (chars (string_bytes printed.code)) (job_for self.entry (program_plain program.now))) }

        // The source map of that text, by the marks of its layout.
        ensures map { IfOk result (λ printed. HasMap (job_for self.entry (program_plain program.now)) printed.map) }

        // Where each name stands in the text, the map leads to its place in the source.
        ensures names_stand { IfOk result (λ printed. NamesStandIn (job_for self.entry (program_plain program.now)) printed.map) }

        // Each comment of a statement of the program's own, and each licence, has a place of its own in that text, and none stands twice.
        ensures comments_stand { IfOk result (λ printed. HasComments (job_for self.entry (program_plain program.now)) (string_bytes printed.code)) }

        // The licences that stand in a file of their own, each once.
        ensures licences { IfOk result (λ printed. rows_plain printed.legal_comments.items
            ≡ job_licences (job_for self.entry (program_plain program.now))) }
    {
        let options = self.options;
        let comments = Comments::of(
            self.alloc,
            &options.comments,
            program.source.as_str(),
            &program.comments,
        )?;
        let end = End::of(self.alloc, &options.comments.legal, program)?;
        let printer = self.printer.with_comments(comments);
        let depth = options.initial_indent;
        match &options.source_map_path {
            Some(path) => print_mapped(self.alloc, path, depth, printer, program, end),
            None => print_unmapped(depth, printer, program, end),
        }
    }
}

// What the context of a call says.
fn place_context(context: Context) -> jsgen_place::Context
    ensures { result ≡ context_at context }
{
    jsgen_place::Context {
        forbids_in: context.forbid_in(),
        forbids_call: context.forbid_call(),
        is_tagged: context.tagged_template(),
    }
}

impl From<Codegen<'_>> for String {
    ghost use Rattle.jsgen.specs.Codegen.{printed_so_far};

    ghost from_gives = { λ x y. string_bytes y ≡ printed_so_far x };

    /// The code so far.
    fn from(printer: Codegen<'_>) -> String {
        printer.into_source_text()
    }
}
