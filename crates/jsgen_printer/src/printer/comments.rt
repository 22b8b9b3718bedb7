// Comments that wait in the store, and the steps that print them.
ghost use Rattle.std.specs.Prelude.{◌≡◌, ◌<◌, ◌||◌, ◌&&◌, ◌==◌, ◌-◌, [], ◌∷◌, true, false, Option, List, ℕ, is_some, option_map, codes, drop, map, slice_get, not};
ghost use Rattle.std.specs.Option.{unwrap_or};
ghost use Rattle.std.specs.List.{list_all, list_any};
ghost use Rattle.std.specs.Str.{chars};
ghost use Rattle.jsgen_syntax.specs.Raw.{tag_free};
ghost use Rattle.jsgen_comments.specs.Plain.{annotations_of, comment_plain, group_plain, store_of};
ghost use Rattle.jsgen_model.specs.Comments.{are_any, empty_store, left_below, orphans_below};
ghost use Rattle.jsgen_tree.specs.Options.{legal_plain};
ghost use Rattle.jsgen_model.specs.Ends.{licensed, each_written, reference};
ghost use Rattle.jsgen_model.specs.Groups as groups;
ghost use Rattle.jsgen_model.specs.Groups.{group, group_at, comments_at, orphans_before, has_orphans, orphan_lines_at, empty_body_at, body_of, body_lines, last_byte, ending_at, without_ending, without_group, closing_group, case_begun, case_ended, is_printed, before_group, behind_group, comment_written, text_written, block_lines, block_line, lines_of, opens_block, closes_block, indented_if, indented_here, with_pending_space, one_deeper, at_level, soft_line_ended, is_mid_line, html_close, before_first, before_later, behind_comment, behind_last, ends_its_line, is_line, is_legal, has_no_newlines, used_up, used_up_if, softly_spaced, space_behind, line_ended, on_new_line, at_line_start, code_ends_in, with_store};
ghost use Rattle.jsgen_model.specs.Items.{◌⊕◌, comments, orphans, orphan_lines, empty_body, indentation, all_of_them, then_space, with_due_space, annotation_before_it, with_key_annotation};
ghost use Rattle.jsgen_model.specs.Layout.{written, other_end, led, unless_printed};
ghost use Rattle.jsgen_model.specs.Lay.{lay, case_mark, before_block};
ghost use Rattle.jsgen_model.specs.Spell.{items_if};
ghost use Rattle.jsgen_printer.specs.Printer.{pen_of, start_of, by_comments, lead_of, manner_of, group_of, level_if, case_behind};
ghost use Rattle.jsgen_printer.specs.Steps.{has_failed, Goes, Lays};

use super::{Ending, Printer, Start};
use jsgen_comments::{Comments, Group, first_line, text_of};
use jsgen_syntax::Span;
use jsgen_tree::{Comment, CommentContent, CommentKind, LegalComment};

/// Which comments stand before an expression: all, or those of a group that holds an annotation for tools.
#[derive(Clone, Copy)]
pub enum CommentsBefore {
    All,
    ForTools,
}

/// What leads to the one statement of a case: to a block, to an empty statement of a span, or to any other.
#[derive(Clone, Copy)]
pub enum Lead {
    Block,
    Empty(Span),
    Body,
}

#[tactic(auto, using(crate::proofs::Texts::ascii_chars), unfolding(crate::specs::Printer::pen_of))]
impl<'a> Printer<'a> {
    ghost use Rattle.std.specs.Prelude.{IsTrue, ◌∷◌, []};

    /// The same printer, by which these comments are printed.
    pub fn with_comments(self, comments: Comments<'a>) -> Printer<'a>
        ensures pen { pen_of result ≡ by_comments (store_of comments.entry) (annotations_of comments.entry) (pen_of self.entry) }
        ensures failed { has_failed result ≡ has_failed self.entry }
    {
        let mut printer = self;
        printer.comments = if comments.is_empty() {
            None
        } else {
            Some(comments)
        };
        printer
    }

    // ---- steps

    // A line end that minified text has too.
    pub(super) fn print_line_end(&mut self)
        ensures { Goes self.old self.new line_ended }
    {
        self.print_str("\n", Ending::Other);
    }

    pub(super) fn print_indentation_where(&mut self, test: bool)
        ensures { Goes self.old self.new (indented_if test) }
    {
        if test {
            self.print_indentation();
        }
    }

    // No space stands in place of the next indentation.
    fn drop_pending_space(&mut self)
        ensures { Goes self.old self.new (with_pending_space false) }
    {
        self.pending_space = false;
    }

    // A space that minified text leaves out, before what begins here.
    fn print_space(&mut self)
        ensures { Goes self.old self.new softly_spaced }
    {
        self.print_white_if(!self.minify, " ");
    }

    // The same of a line end.
    pub(super) fn print_line(&mut self)
        ensures { Goes self.old self.new soft_line_ended }
    {
        self.print_white_if(!self.minify, "\n");
    }

    // A pending space is a soft one, and is used up.
    fn use_pending_space(&mut self)
        ensures { Goes self.old self.new used_up }
    {
        if self.pending_space {
            self.print_space();
            self.drop_pending_space();
        }
    }

    // The same, where the text is pretty.
    fn print_space_behind(&mut self)
        ensures { Goes self.old self.new (space_behind true) }
    {
        if !self.minify {
            self.use_pending_space();
        }
    }

    // A line end that minified text leaves out, behind which what follows stands one level deeper; gives the level before.
    fn open_lines(&mut self) -> u32
        ensures level { result ≡ (pen_of self.old).depth }
        ensures goes { Goes self.old self.new (λ pen. one_deeper (soft_line_ended pen)) }
    {
        let depth = self.depth;
        self.print_line();
        self.go_deeper();
        depth
    }

    // What follows stands at this level, behind indentation.
    fn close_lines(&mut self, depth: u32)
        ensures { Goes self.old self.new (λ pen. indented_here (at_level depth pen)) }
    {
        self.set_depth(depth);
        self.print_indentation();
    }

    // ---- the text of one comment

    // Whether the line that the code ends in holds more than blanks.
    fn is_mid_line(&self) -> bool
        ensures { result ≡ is_mid_line (pen_of self.now).code }
    {
        let mut rest = self.code.as_bytes();
        while let Some((byte, others)) = rest.split_last() {
            if *byte != b' ' && *byte != b'\t' {
                return *byte != b'\n';
            }
            rest = others;
        }
        false
    }

    // A line of a block.
    fn print_block_line(&mut self, line: &str)
        ensures { Goes self.old self.new (block_line (chars line.now)) }
    {
        self.print_indentation_where(!line.starts_with("/*"));
        self.print_tag_free(line.trim_start());
        self.print_if(!line.ends_with("*/"), "\n");
    }

    // A block of several lines.
    fn print_block(&mut self, text: &str)
        ensures { Goes self.old self.new (block_lines (lines_of (chars text.now))) }
    {
        let mut rest = text;
        while let Some((line, others)) = first_line(rest) {
            self.print_block_line(line);
            rest = others;
        }
    }

    // A comment that begins with `-->`.
    fn print_html_close(&mut self, text: &str)
        ensures { Goes self.old self.new (λ pen. html_close (is_mid_line pen.code) (chars text.now) pen) }
    {
        if self.is_mid_line() {
            self.print_str("//", Ending::Other);
            self.print_tag_free(behind_three(text));
        } else {
            self.print_tag_free(text);
        }
    }

    pub(super) fn print_comment(&mut self, source: &str, comment: Comment)
        ensures { Goes self.old self.new (comment_written (comment_plain source.now comment)) }
    {
        let text = text_of(source, comment.span);
        match comment.kind {
            CommentKind::MultiLineBlock => self.print_block(text),
            CommentKind::HtmlClose => self.print_html_close(text),
            _ => self.print_tag_free(text),
        }
    }

    // ---- a group

    fn print_before_first(&mut self, preceded: bool)
        ensures { Goes self.old self.new (before_first preceded) }
    {
        if preceded {
            self.print_new_line();
        } else if self.pending_space {
            self.use_pending_space();
        } else {
            let at_line_start = self.is_at_line_start();
            self.print_indentation_where(at_line_start);
        }
    }

    // What leads to a line of its own, where the code isn't at the start of one.
    fn print_new_line(&mut self)
        ensures { Goes self.old self.new (λ pen. on_new_line (groups.last_of pen.code) pen) }
    {
        match self.code.last_byte() {
            Some(byte) => self.print_line_behind(byte),
            None => {}
        }
    }

    // The same behind this byte.
    fn print_line_behind(&mut self, byte: u8)
        ensures { Goes self.old self.new (on_new_line (Some byte)) }
    {
        if byte == b'\n' {
            self.print_indentation();
        } else if byte != b'\t' {
            self.print_line_start();
        }
    }

    // A line end, and the next line's indentation.
    pub(super) fn print_line_start(&mut self)
        ensures { Goes self.old self.new (λ pen. indented_here (line_ended pen)) }
    {
        self.print_line_end();
        self.print_indentation();
    }

    fn is_at_line_start(&self) -> bool
        ensures { result ≡ at_line_start (groups.last_of (pen_of self.now).code) }
    {
        match self.code.last_byte() {
            None => true,
            Some(byte) => byte == b'\n',
        }
    }

    fn print_before_later(&mut self, preceded: bool, content: CommentContent)
        ensures { Goes self.old self.new (before_later preceded (is_legal content)) }
    {
        if preceded {
            self.print_line_start();
        } else if is_legal(content) {
            self.print_line_end();
        } else {
            self.print_space();
        }
    }

    fn print_behind_last(&mut self, ends_line: bool)
        ensures { Goes self.old self.new (behind_last ends_line) }
    {
        if ends_line {
            self.print_line_end();
        } else {
            self.pending_space = true;
        }
    }

    // A group; the test tells that a line ends behind the last comment, whatever stood there.
    fn print_group(&mut self, group: &Group<'_>, ended: bool)
        ensures { Goes self.old self.new (groups.group ended (group_plain group.now)) }
    {
        match group.comments.split_first() {
            Some((first, others)) => {
                let start = self.start;
                self.print_before_first(first.preceded_by_newline);
                self.print_comment(group.source, *first);
                self.print_behind(group.source, *first, others, ended);
                self.begin_at(start);
            }
            None => {}
        }
    }

    // What stands behind the first comment of a group.
    fn print_behind(&mut self, source: &str, first: Comment, others: &[Comment], ended: bool)
        ensures { Goes self.old self.new (behind_comment ended (comment_plain source.now first) (map (comment_plain source.now) others.now)) }
    {
        let mut last = first;
        for comment in others {
            self.print_before_later(begins_line(last, *comment), comment.content);
            self.print_comment(source, *comment);
            last = *comment;
        }
        self.print_behind_last(ended || ends_its_line(last));
    }

    /// Licences at the end of a text, or what tells where they are, as the options have them.
    pub fn print_licences(&mut self, legal: &LegalComment, source: &str, licences: &[Comment])
        ensures { Goes self.old self.new (licensed (legal_plain legal.now) (map (comment_plain source.now) licences.now)) }
    {
        if licences.is_empty() {
            return;
        }
        match legal {
            LegalComment::Eof => self.print_at_end(source, licences),
            LegalComment::Linked(path) => self.print_reference_to(path.as_str()),
            LegalComment::None | LegalComment::Inline | LegalComment::External => {}
        }
    }

    // Comments behind the last line, each on a line of its own.
    fn print_at_end(&mut self, source: &str, comments: &[Comment])
        ensures { Goes self.old self.new (λ pen. each_written (map (comment_plain source.now) comments.now) (with_pending_space false (line_ended pen))) }
    {
        self.print_line_end();
        self.drop_pending_space();
        self.print_each(source, comments);
    }

    // Each comment on a line of its own.
    fn print_each(&mut self, source: &str, comments: &[Comment])
        ensures { Goes self.old self.new (each_written (map (comment_plain source.now) comments.now)) }
    {
        for comment in comments {
            self.print_comment(source, *comment);
            self.print_line_end();
        }
    }

    // What tells where the licences are.
    fn print_reference_to(&mut self, path: &str)
        ensures { Goes self.old self.new (written (reference (chars path.now)) other_end) }
    {
        self.print_str("\n/*! For license information please see ", Ending::Other);
        self.print_str(path, Ending::Other);
        self.print_str(" */", Ending::Other);
    }

    // ---- what is taken

    // The comments at an offset leave the store.
    pub(super) fn take(&mut self, offset: u32) -> Option<Group<'a>>
        ensures group { group_of result ≡ group_at offset (pen_of self.old) }
        ensures goes { Goes self.old self.new (without_group offset) }
        ensures failed { has_failed self.new ≡ has_failed self.old }
    {
        match &mut self.comments {
            Some(comments) => comments.take(offset),
            None => None,
        }
    }

    // The comments at an offset leave the store, and are printed.
    fn print_taken(&mut self, offset: u32)
        ensures { Goes self.old self.new (λ pen. group false (group_at offset pen) (without_group offset pen)) }
    {
        if let Some(group) = self.take(offset) {
            self.print_group(&group, false);
        }
    }

    /// Whether comments may wait to be printed.
    pub fn keeps_comments(&self) -> bool
        ensures { result ≡ false → (pen_of self.now).store ≡ empty_store }
    {
        self.comments.is_some()
    }

    /// Whether comments stand at an offset.
    pub fn has_comments(&self, offset: u32) -> bool
        ensures { result ≡ are_any (group_at offset (pen_of self.now)) }
    {
        match &self.comments {
            Some(comments) => comments.has(offset),
            None => false,
        }
    }

    // Whether a comment that outlives its place stands at a smaller offset.
    fn has_orphans(&self, offset: u32) -> bool
        ensures { result ≡ has_orphans offset (pen_of self.now) }
    {
        match &self.comments {
            Some(comments) => comments.has_orphans(offset),
            None => false,
        }
    }

    // ---- items

    /// The comments that belong to this offset.
    pub fn print_comments(&mut self, offset: u32)
        ensures { Lays self.old self.new (comments all_of_them offset) }
    {
        if self.has_comments(offset) {
            self.print_taken(offset);
        }
    }

    /// The same, where the test holds.
    pub fn print_comments_if(&mut self, test: bool, offset: u32)
        ensures { Lays self.old self.new (items_if test (comments all_of_them offset)) }
    {
        if test {
            self.print_comments(offset);
        }
    }

    /// What a line begins with, where the test holds: the comments that belong to this offset, and indentation.
    pub fn begin_line_if(&mut self, test: bool, offset: u32)
        ensures { Lays self.old self.new (items_if test (comments all_of_them offset ⊕ indentation)) }
    {
        if test {
            self.print_comments(offset);
            self.print_indentation();
        }
    }

    /// The comments that belong to this offset, where one of them is a property-key annotation.
    pub fn print_key_comments(&mut self, offset: u32)
        ensures { Lays self.old self.new (comments with_key_annotation offset) }
    {
        if self.has_key_annotation(offset) {
            let is_behind_slash = self.code_ends_in(b'/');
            self.print_white_if(is_behind_slash, " ");
            self.print_taken(offset);
            self.print_due();
        }
    }

    fn has_key_annotation(&self, offset: u32) -> bool
        ensures { result ≡ is_printed with_key_annotation (group_at offset (pen_of self.now)) }
    {
        match &self.comments {
            Some(comments) => comments.has_key_annotation(offset),
            None => false,
        }
    }

    pub(super) fn code_ends_in(&self, byte: u8) -> bool
        requires { byte < 128 }
        ensures { result ≡ code_ends_in byte (pen_of self.now) }
    {
        match self.code.last_byte() {
            Some(last) => last == byte,
            None => false,
        }
    }

    // What is due behind comments before an expression.
    fn print_due(&mut self)
        ensures { Goes self.old self.new (behind_group with_key_annotation) }
    {
        if self.code_ends_in(b'\n') {
            self.print_indentation();
        } else {
            self.use_pending_space();
        }
    }

    /// The comments that belong to this offset, with a space behind them.
    pub fn print_spaced_comments(&mut self, offset: u32)
        ensures { Lays self.old self.new (comments then_space offset) }
    {
        if self.has_comments(offset) {
            self.print_taken(offset);
            self.print_space();
            self.drop_pending_space();
        }
    }

    /// The comments that belong to this offset, with a space behind them that is due.
    pub fn print_comments_with_space(&mut self, offset: u32)
        ensures { Lays self.old self.new (comments with_due_space offset) }
    {
        if self.has_comments(offset) {
            self.print_taken(offset);
            self.use_pending_space();
        }
    }

    /// The comments that belong to this offset, before an expression.
    pub fn print_comments_before(&mut self, which: CommentsBefore, offset: u32)
        ensures { Lays self.old self.new (comments (manner_of which) offset) }
    {
        if self.has_comments_before(which, offset) {
            self.print_taken(offset);
            self.print_due();
        }
    }

    fn has_comments_before(&self, which: CommentsBefore, offset: u32) -> bool
        ensures { result ≡ is_printed (manner_of which) (group_at offset (pen_of self.now)) }
    {
        match which {
            CommentsBefore::All => self.has_comments(offset),
            CommentsBefore::ForTools => self.has_annotation_for_tools(offset),
        }
    }

    fn has_annotation_for_tools(&self, offset: u32) -> bool
        ensures { result ≡ is_printed annotation_before_it (group_at offset (pen_of self.now)) }
    {
        match &self.comments {
            Some(comments) => comments.has_annotation_for_tools(offset),
            None => false,
        }
    }

    /// The comments that belong to smaller offsets and outlive their places.
    pub fn print_orphans(&mut self, offset: u32)
        ensures { Lays self.old self.new (orphans offset) }
    {
        if let Some(group) = self.take_orphans(offset) {
            self.print_group(&group, true);
        }
    }

    // The comments at smaller offsets that outlive their places leave the store. After want of memory there are none.
    fn take_orphans(&mut self, offset: u32) -> Option<Group<'a>>
        ensures goes { Goes self.old self.new (λ pen. with_store (left_below offset pen.store) pen) }
        ensures group { has_failed self.new ≡ false → group_of result ≡ orphans_below offset (pen_of self.old).store }
    {
        match &mut self.comments {
            Some(comments) => match comments.take_orphans(self.alloc, offset) {
                Ok(group) => Some(group),
                Err(_) => {
                    self.has_failed = true;
                    None
                }
            },
            None => None,
        }
    }

    /// The same on lines of their own, in braces in which nothing else stands, where there are any.
    pub fn print_orphan_lines(&mut self, offset: u32)
        ensures { Lays self.old self.new (orphan_lines offset) }
    {
        if self.has_orphans(offset) {
            let depth = self.open_lines();
            self.print_orphans(offset);
            self.close_lines(depth);
        }
    }

    /// The comments at the last byte before an offset leave the store; `print_held` prints them.
    pub fn hold_comments(&mut self, end: u32) -> Option<Group<'a>>
        ensures group { group_of result ≡ ending_at (last_byte end) (pen_of self.old) }
        ensures goes { Goes self.old self.new (without_ending (last_byte end)) }
    {
        if end == 0 { None } else { self.take(end - 1) }
    }

    /// Comments that were held, behind what they were held for.
    pub fn print_held(&mut self, held: &Option<Group<'a>>)
        ensures { Goes self.old self.new (closing_group (group_of held.now)) }
    {
        if let Some(group) = held {
            if !group.comments.is_empty() {
                self.print_group(group, false);
                self.drop_pending_space();
            }
        }
    }

    /// The inside of a body that ends before an offset, in which nothing stands but comments.
    pub fn print_empty_body(&mut self, end: u32)
        ensures { Lays self.old self.new (empty_body end) }
    {
        if self.comments.is_none() {
            return;
        }
        let held = self.hold_comments(end);
        self.print_body(end, &held);
    }

    // The same, where what stands at its last byte has left the store.
    fn print_body(&mut self, end: u32, held: &Option<Group<'a>>)
        ensures { Goes self.old self.new (body_of end (group_of held.now)) }
    {
        if !self.has_orphans(end) && has_no_newlines(held) {
            self.print_held(held);
        } else {
            self.print_body_lines(end, held);
        }
    }

    // The same on lines of their own.
    fn print_body_lines(&mut self, end: u32, held: &Option<Group<'a>>)
        ensures { Goes self.old self.new (body_lines end (group_of held.now)) }
    {
        let depth = self.open_lines();
        self.print_orphans(end);
        self.print_held(held);
        self.close_lines(depth);
    }

    // ---- the one statement of a case

    /// What leads to the one statement of a case, which begins at this offset: on the line of the case, or on a line of its own where
    /// an orphan waits before it. Gives the level before, if it stands on a line of its own; `end_case` takes it.
    pub fn begin_case(&mut self, start: u32, lead: Lead) -> Option<u32>
        ensures long { is_some result ≡ has_orphans start (pen_of self.old) }
        ensures level { option_map (λ depth. depth) result ≡ level_if (has_orphans start (pen_of self.old)) (pen_of self.old).depth }
        ensures goes { Goes self.old self.new (λ pen. case_mark (has_orphans start pen) (lead_of lead) (case_begun (has_orphans start pen) (lead_of lead) start pen)) }
    {
        if self.has_orphans(start) {
            let begins = self.start_behind(lead);
            let depth = self.open_lines();
            self.print_orphans(start);
            self.lead_on_line(start, lead);
            self.begin_at(begins);
            Some(depth)
        } else {
            self.lead_to(lead);
            None
        }
    }

    // What begins behind what leads to it on the line of the case.
    fn start_behind(&self, lead: Lead) -> Start
        ensures { start_of result ≡ (led (lead_of lead) (pen_of self.now)).start }
    {
        match lead {
            Lead::Block => self.start_behind_space(),
            Lead::Empty(_) | Lead::Body => self.start,
        }
    }

    // What begins behind a space that minified text leaves out.
    pub(super) fn start_behind_space(&self) -> Start
        ensures { start_of result ≡ unless_printed (not (pen_of self.now).style.minified) (pen_of self.now).start }
    {
        if self.minify {
            self.start
        } else {
            Start::Nowhere
        }
    }

    // What leads to it on the line of the case.
    fn lead_to(&mut self, lead: Lead)
        ensures { Goes self.old self.new (led (lead_of lead)) }
    {
        match lead {
            Lead::Block => self.print_soft_space(),
            Lead::Empty(_) => {}
            Lead::Body => self.pending_space = true,
        }
    }

    // What stands before it on a line of its own.
    fn lead_on_line(&mut self, start: u32, lead: Lead)
        ensures { Goes self.old self.new (λ pen. case_mark true (lead_of lead) (groups.led_on_line (lead_of lead) start pen)) }
    {
        match lead {
            Lead::Block => self.print_lined_comments(start),
            Lead::Empty(span) => {
                self.print_lined_comments(start);
                self.print_mark(span);
            }
            Lead::Body => {}
        }
    }

    // The comments that belong to this offset, and indentation.
    pub(super) fn print_lined_comments(&mut self, offset: u32)
        ensures { Goes self.old self.new (λ pen. indented_here (comments_at all_of_them offset pen)) }
    {
        self.print_comments(offset);
        self.print_indentation();
    }

    /// What stands behind it, up to the end of the case; `depth` is what `begin_case` gave.
    pub fn end_case(&mut self, depth: Option<u32>, end: u32)
        ensures { Goes self.old self.new (case_behind (option_map (λ d. d) depth) end) }
    {
        if let Some(depth) = depth {
            self.print_orphans(end);
            self.set_depth(depth);
        }
    }

    // ---- a `catch`

    /// The comments before a `catch`, which begins at this offset; tells whether there were any.
    pub fn begin_catch(&mut self, start: u32) -> bool
        ensures stood { result ≡ are_any (group_at start (pen_of self.old)) }
        ensures goes { Goes self.old self.new (comments_at all_of_them start) }
    {
        let stood = self.has_comments(start);
        if stood {
            self.print_taken(start);
        }
        stood
    }

    /// The comments before its block, which begins at this offset, and the space that is due behind comments at either.
    pub fn print_before_block(&mut self, stood: bool, start: u32)
        ensures { Goes self.old self.new (before_block stood start) }
    {
        if stood || self.has_comments(start) {
            self.print_comments(start);
            self.print_space_behind();
        }
    }
}

// Whether a comment that says this is a licence.
fn is_legal(content: CommentContent) -> bool
    ensures { result ≡ is_legal content }
{
    matches!(content, CommentContent::Legal | CommentContent::JsdocLegal)
}

// Whether a comment goes to the end of its line.
fn is_line(kind: CommentKind) -> bool
    ensures { result ≡ is_line kind }
{
    match kind {
        CommentKind::Line | CommentKind::HtmlOpen | CommentKind::HtmlClose => true,
        CommentKind::SingleLineBlock | CommentKind::MultiLineBlock => false,
    }
}

// Whether a comment stands on a line of its own behind another.
fn begins_line(last: Comment, comment: Comment) -> bool
    ensures { result ≡ (comment.preceded_by_newline || is_line last.kind) }
{
    comment.preceded_by_newline || is_line(last.kind)
}

// Whether nothing may follow it on its line, or nothing did.
fn ends_its_line(comment: Comment) -> bool
    ensures { (source : List ℕ) → result ≡ ends_its_line (comment_plain source comment) }
{
    is_line(comment.kind) || comment.followed_by_newline
}

// Whether no line ends beside them.
fn has_no_newlines(held: &Option<Group<'_>>) -> bool
    ensures { result ≡ list_all has_no_newlines (group_of held.now) }
{
    if let Some(group) = held {
        for comment in &group.comments {
            if comment.preceded_by_newline || comment.followed_by_newline {
                return false;
            }
        }
    }
    true
}

// What follows the first three characters.
fn behind_three(text: &str) -> &str
    ensures { chars result.now ≡ drop 3 (chars text.now) }
{
    let mut rest = text.chars();
    rest.next();
    rest.next();
    rest.next();
    rest.as_str()
}
