// The texts of comments, and the lines of blocks.
ghost use Rattle.std.specs.Prelude.{◌≡◌, option_map};
ghost use Rattle.std.specs.Option.{option_copied};
ghost use Rattle.std.specs.Str.{chars};
ghost use Rattle.jsgen_model.specs.Comments.{characters_at};
ghost use Rattle.jsgen_model.specs.Groups.{lines_of};
ghost use Rattle.jsgen_model.specs.Marks.{name_text_at};
ghost use Rattle.jsgen_model.specs.Spans.{is_offset, spans_characters};
ghost use Rattle.jsgen_comments.specs.Plain.{first_of, behind_end};

use jsgen_syntax::Span;

fn is_offset(source: &str, offset: u32) -> bool
    ensures { result ≡ is_offset source.now offset }
{
    source.is_char_boundary(offset as usize)
}

// Whether a span begins and ends at characters of the source.
fn spans_characters(source: &str, span: Span) -> bool
    ensures { result ≡ spans_characters source.now span }
{
    is_offset(source, span.start) && is_offset(source, span.end)
}

/// What the source has at a span that begins and ends at characters of it.
pub fn text_at(source: &str, span: Span) -> Option<&str>
    ensures { option_copied result ≡ name_text_at source.now span }
{
    if span.start <= span.end && spans_characters(source, span) {
        source.get(span.start as usize..span.end as usize)
    } else {
        None
    }
}

/// What the source has at a span; nothing where the span doesn't begin and end at characters of it.
pub fn text_of(source: &str, span: Span) -> &str
    ensures { chars result.now ≡ characters_at source.now span }
{
    text_at(source, span).unwrap_or("")
}

/// The first line of a text, without its end, and what follows (ECMA-262, 12.3).
pub fn first_line(text: &str) -> Option<(&str, &str)>
    ensures { option_map (λ p. (chars p.0.now, lines_of (chars p.1.now))) result ≡ first_of (lines_of (chars text.now)) }
{
    if text.is_empty() {
        return None;
    }
    match text.find(['\n', '\r', '\u{2028}', '\u{2029}']) {
        Some(at) => {
            let (line, rest) = text.split_at(at);
            Some((line, behind_line_end(rest)))
        }
        None => Some((text, "")),
    }
}

// What follows the line end that a text begins with.
fn behind_line_end(text: &str) -> &str
    ensures { lines_of (chars result.now) ≡ behind_end (chars text.now) }
{
    match text.strip_prefix("\r\n") {
        Some(rest) => rest,
        None => {
            let mut rest = text.chars();
            rest.next();
            rest.as_str()
        }
    }
}
