// Comments by their texts in the source (ECMA-262, 12.4 and B.1.1).
ghost use Rattle.std.specs.Prelude.{◌≡◌, List, ℕ, Bool, true, false, not, ◌&&◌, codes, if◌then◌else◌};
ghost use Rattle.std.specs.Option.{option_map_or};
ghost use Rattle.std.specs.Str.{chars, encode_utf8_all};
ghost use Rattle.jsgen_model.specs.Tokens.{has_line_end};
ghost use Rattle.jsgen_tree.specs.Options.{linked, legal_plain};
ghost use Rattle.jsgen_model.specs.Valid.{begins_with_mark, ends_at_close, is_comment, names_a_file, spans_characters, text_at, comment_faults, licence_faults};
ghost use Rattle.jsgen_rules.specs.declared.comments.Close.TheVariants as closes;
ghost use Rattle.jsgen_rules.specs.Close.{step, run, is_closed};
ghost use Rattle.jsgen_rules.specs.Verdict.{verdict};

use crate::spans::spans_characters;
use jsgen_model::TreeFault;
use jsgen_syntax::{Span, is_line_terminator};
use jsgen_tree::{CommentKind, LegalComment};

/// What stands before the next character, as far as it matters to `*/`.
#[derive(Clone, Copy)]
enum Close {
    /// Neither `*` nor `*/`.
    Open,
    /// `*`.
    Star,
    /// `*/`, the first.
    Closed,
    /// `*/` and more.
    Passed,
}

impl Close {
    fn step(self, c: char) -> Close
        ensures { result ≡ step self c }
    {
        match self {
            Close::Star if c == '/' => Close::Closed,
            Close::Open | Close::Star => { if c == '*' { Close::Star } else { Close::Open } }
            Close::Closed | Close::Passed => Close::Passed,
        }
    }

    fn is_closed(self) -> bool
        ensures { result ≡ is_closed self }
    {
        matches!(self, Close::Closed)
    }
}

/// What stands behind a text.
fn close_behind(text: &str) -> Close
    ensures { result ≡ run closes.Open (chars text.now) }
{
    let mut state = Close::Open;
    for c in text.chars() {
        state = state.step(c);
    }
    state
}

/// The first `*/` is the end of the text.
#[tactic(auto, using(crate::proofs::Closes::ends))]
fn ends_at_close(text: &str) -> bool
    ensures { result ≡ ends_at_close (chars text.now) }
{
    close_behind(text).is_closed()
}

/// Whether a line ends in the text.
pub fn has_line_end(text: &str) -> bool
    ensures { result ≡ has_line_end (chars text.now) }
{
    text.chars().any(|c| is_line_terminator(c))
}

/// What follows the mark, where the text begins with it.
fn behind<'a>(mark: &str, text: &'a str) -> Option<&'a str>
    ensures { (holds : List ℕ → Bool) → begins_with_mark (chars mark.now) holds (chars text.now) ≡ option_map_or (λ rest. holds (chars rest.now)) result false }
{
    text.strip_prefix(mark)
}

/// The mark and nothing behind its line.
fn is_one_line(mark: &str, text: &str) -> bool
    ensures { result ≡ begins_with_mark (chars mark.now) (λ rest. not (has_line_end rest)) (chars text.now) }
{
    match behind(mark, text) {
        Some(rest) => !has_line_end(rest),
        None => false,
    }
}

/// The text within `/*` and `*/`, with `*/`: on one line, or over several.
fn ends_block(is_multiline: bool, rest: &str) -> bool
    ensures { result ≡ ((if is_multiline then has_line_end (chars rest.now) else not (has_line_end (chars rest.now))) && ends_at_close (chars rest.now)) }
{
    has_line_end(rest) == is_multiline && ends_at_close(rest)
}

fn is_block(is_multiline: bool, text: &str) -> bool
    ensures { result ≡ begins_with_mark (codes "/*") (λ rest. (if is_multiline then has_line_end rest else not (has_line_end rest)) && ends_at_close rest) (chars text.now) }
{
    match behind("/*", text) {
        Some(rest) => ends_block(is_multiline, rest),
        None => false,
    }
}

fn is_comment(kind: CommentKind, text: &str) -> bool
    ensures { result ≡ is_comment kind (chars text.now) }
{
    match kind {
        CommentKind::Line => is_one_line("//", text),
        CommentKind::HtmlOpen => is_one_line("<!--", text),
        CommentKind::HtmlClose => is_one_line("-->", text),
        CommentKind::SingleLineBlock => is_block(false, text),
        CommentKind::MultiLineBlock => is_block(true, text),
    }
}

/// The text from the start of the span to its end.
fn text_at(source: &str, span: Span) -> &str
    ensures { spans_characters (encode_utf8_all (chars source.now)) span ≡ true → chars result.now ≡ text_at (encode_utf8_all (chars source.now)) span }
{
    source
        .get(span.start as usize..span.end as usize)
        .unwrap_or("")
}

fn is_comment_at(source: &str, span: Span, kind: CommentKind) -> bool
    ensures { result ≡ (spans_characters (encode_utf8_all (chars source.now)) span && is_comment kind (text_at (encode_utf8_all (chars source.now)) span)) }
{
    spans_characters(source, span) && is_comment(kind, text_at(source, span))
}

/// A comment is one of its kind in the source.
pub fn check_comment(source: &str, span: Span, kind: CommentKind) -> Result<(), TreeFault>
    ensures { result ≡ verdict (comment_faults (chars source.now) span kind) }
{
    if !is_comment_at(source, span, kind) {
        return Err(TreeFault::Comment { start: span.start });
    }
    Ok(())
}

/// A comment on one line can name the file of the licences by this path: neither a line nor a comment ends in it.
#[tactic(auto, using(crate::proofs::Closes::names_file))]
fn names_a_file(path: &str) -> bool
    ensures { result ≡ names_a_file (linked (chars path.now)) }
{
    !has_line_end(path) && close_behind(path).step(' ').step('*').step('/').is_closed()
}

/// What names the file of the licences, where they have one that the code names, is a comment on one line.
pub fn check_licence_path(legal: &LegalComment, span: Span) -> Result<(), TreeFault>
    ensures { result ≡ verdict (licence_faults span (legal_plain legal.now)) }
{
    if let LegalComment::Linked(path) = legal {
        if !names_a_file(path.as_str()) {
            return Err(TreeFault::Comment { start: span.start });
        }
    }
    Ok(())
}
