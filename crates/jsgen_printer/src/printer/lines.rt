// Arguments on lines of their own, where comments stand before them.
ghost use Rattle.std.specs.Prelude.{◌≡◌, ◌∷◌, [], ◌&&◌, ◌||◌, false, true, map, if◌then◌else◌};
ghost use Rattle.jsgen_comments.specs.Plain.{comment_plain, group_plain};
ghost use Rattle.jsgen_model.specs.Comments.{are_any};
ghost use Rattle.jsgen_model.specs.Groups.{broken_at, broken_by, each_on_line, ending_at, group_at, indents, last_byte, lines_opened, lines_closed, may_be_lined, on_a_line, with_lines, without_ending, without_group};
ghost use Rattle.jsgen_model.specs.Items.{line_break, other_argument, import_source, import_options};
ghost use Rattle.jsgen_model.specs.Lay.{lay};
ghost use Rattle.jsgen_printer.specs.Printer.{deepened, group_of, lines_of, pen_of};
ghost use Rattle.jsgen_printer.specs.Steps.{Goes, Lays};

use super::Printer;
use jsgen_comments::Group;
use jsgen_tree::Comment;

/// Whose arguments they are: a call's, those of a call whose strings stand in plain quotes in minified text, or those of `import()`.
#[derive(Clone, Copy)]
pub enum ArgumentLines {
    Call,
    QuotedCall,
    Import,
}

/// What is round arguments, and whether they stand on lines of their own.
#[derive(Clone, Copy)]
pub struct Around {
    pub lined: bool,
    pub depth: u32,
    pub outer: bool,
}

// Whether the parenthesis behind arguments on lines stands behind indentation.
fn indents(lines: ArgumentLines) -> bool
    ensures { result ≡ indents (lines_of lines) }
{
    match lines {
        ArgumentLines::Call | ArgumentLines::QuotedCall => true,
        ArgumentLines::Import => false,
    }
}

#[tactic(auto, unfolding(crate::specs::Printer::pen_of))]
impl<'a> Printer<'a> {
    /// Whether arguments may stand on lines of their own.
    pub fn may_be_lined(&self, lines: ArgumentLines) -> bool
        ensures { result ≡ may_be_lined (lines_of lines) (pen_of self.now).style }
    {
        match lines {
            ArgumentLines::Call => true,
            ArgumentLines::QuotedCall => !self.minify,
            ArgumentLines::Import => self.annotated,
        }
    }

    /// Whether comments stand at the last byte before an offset.
    pub fn has_comments_at_end(&self, end: u32) -> bool
        ensures { result ≡ are_any (ending_at (last_byte end) (pen_of self.now)) }
    {
        end > 0 && self.has_comments(end - 1)
    }

    /// Arguments begin, which stand on lines of their own where the test holds; `close_arguments` takes what it gives.
    pub fn open_arguments(&mut self, lined: bool) -> Around
        ensures lined { result.lined ≡ lined }
        ensures depth { result.depth ≡ (pen_of self.old).depth }
        ensures outer { result.outer ≡ (pen_of self.old).lines }
        ensures goes { Goes self.old self.new (lines_opened lined) }
    {
        let around = Around {
            lined,
            depth: self.depth,
            outer: self.lines,
        };
        self.deepen_if(lined);
        self.set_lines(lined);
        around
    }

    fn deepen_if(&mut self, test: bool)
        ensures { Goes self.old self.new (λ pen. if test then deepened pen else pen) }
    {
        if test {
            self.go_deeper();
        }
    }

    /// Arguments end, of a call that ends before an offset.
    pub fn close_arguments(&mut self, around: Around, lines: ArgumentLines, end: u32)
        ensures { Goes self.old self.new (lines_closed around.lined (lines_of lines) end around.depth around.outer) }
    {
        if around.lined {
            self.print_last_break(end);
            self.set_lines(around.outer);
            self.set_depth(around.depth);
            self.print_indentation_where(indents(lines));
        } else {
            self.set_lines(around.outer);
        }
    }

    // What stands behind the last argument.
    fn print_last_break(&mut self, end: u32)
        ensures { Goes self.old self.new (λ pen. broken_by (ending_at (last_byte end) pen) (without_ending (last_byte end) pen)) }
    {
        let group = self.hold_comments(end);
        self.print_broken(&group);
    }

    fn set_lines(&mut self, lines: bool)
        ensures { Goes self.old self.new (with_lines lines) }
    {
        self.lines = lines;
    }

    /// Whether the arguments round here stand on lines of their own.
    pub fn is_lined(&self) -> bool
        ensures { result ≡ (pen_of self.now).lines }
    {
        self.lines
    }

    /// What stands before an argument that begins at this offset, on a line of its own.
    pub fn print_line_break(&mut self, start: u32)
        ensures { Goes self.old self.new (broken_at start) }
    {
        self.print_taken_lines(start);
        self.print_indentation();
    }

    /// The same of an argument behind another.
    pub fn print_other_break(&mut self, start: u32)
        ensures { Goes self.old self.new (on_a_line (other_argument start)) }
    {
        let begins = self.start_behind_space();
        self.print_line_break(start);
        self.begin_at(begins);
    }

    // The comments at an offset, which leave the store, on lines of their own.
    fn print_taken_lines(&mut self, start: u32)
        ensures { Goes self.old self.new (λ pen. broken_by (group_at start pen) (without_group start pen)) }
    {
        let group = self.take(start);
        self.print_broken(&group);
    }

    /// What stands before the source of `import()`, which begins at this offset.
    pub fn print_source_break(&mut self, start: u32)
        ensures { Lays self.old self.new (line_break (import_source start)) }
    {
        if self.lines || self.has_comments(start) {
            self.print_line_break(start);
        }
    }

    /// What stands before the options of `import()`.
    pub fn print_options_break(&mut self)
        ensures { Lays self.old self.new (line_break import_options) }
    {
        if self.lines {
            self.print_soft_line();
            self.print_indentation();
        } else {
            self.print_soft_space();
        }
    }

    // Comments and a line end, or a line end that minified text leaves out.
    fn print_broken(&mut self, group: &Option<Group<'a>>)
        ensures { Goes self.old self.new (broken_by (group_of group.now)) }
    {
        match group {
            Some(group) => self.print_group_on_lines(group),
            None => self.print_line(),
        }
    }

    fn print_group_on_lines(&mut self, group: &Group<'_>)
        ensures { Goes self.old self.new (broken_by (group_plain group.now)) }
    {
        if group.comments.is_empty() {
            self.print_line();
        } else {
            let start = self.start;
            self.print_each_on_line(group.source, &group.comments);
            self.print_line_end();
            self.begin_at(start);
        }
    }

    // Each comment behind a line end and indentation.
    fn print_each_on_line(&mut self, source: &str, comments: &[Comment])
        ensures { Goes self.old self.new (each_on_line (map (comment_plain source.now) comments.now)) }
    {
        for comment in comments {
            self.print_line_start();
            self.print_comment(source, *comment);
        }
    }
}
