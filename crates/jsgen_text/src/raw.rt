// Texts that are printed almost as they were written.
ghost use Rattle.std.specs.Prelude.{◌≡◌, ◌<◌, ◌≤◌, ◌++◌, ◌==◌, ◌&&◌, not, true, false, OnOk, OnErr};
ghost use Rattle.std.specs.Char.{encode_utf8};
ghost use Rattle.std.specs.Str.{chars, encode_utf8_all};
ghost use Rattle.std.proofs.Math.Utf8.{scalar};
ghost use Rattle.jsgen_syntax.specs.Buffer.{buffer_bytes, indent_byte, indent_width, AppendsPrefix};
ghost use Rattle.jsgen_syntax.specs.Raw.{directive_text, is_left_out, is_template, non_ascii_escaped, pattern_text, raw_character, raw_escape, raw_text, tag_character, tag_free, template_text};
ghost use Rattle.jsgen_syntax.specs.declared.escape.NonAsciiEscape.TheVariants as modes;
ghost use Rattle.jsgen_text.specs.Changes.{raw_of};
ghost use Rattle.jsgen_strings.specs.Points.{ArePoints};

use crate::name::print_name_escaped;
use jsgen_strings::{
    Point, begins_past_ascii, begins_script, begins_with_dollar, plain_len, print_ascii,
    print_character_escape, print_unit_escapes, take_point,
};
use jsgen_syntax::{CodeBuffer, Memory, NonAsciiEscape};

/// What is changed in a raw text.
#[derive(Clone, Copy)]
struct Changes {
    mode: NonAsciiEscape,
    /// It is to be ASCII.
    ascii: bool,
    /// A backslash before `$` is left out.
    drops_backslash: bool,
    /// `</script` is escaped.
    frees_tags: bool,
}

/// Appends the text with a backslash before the `/` of each `</script`, in any letter case, which would end the script that it stands in; after `Memory` maybe fewer bytes.
pub fn print_str_escaping_script_close_tag(code: &mut CodeBuffer, s: &str) -> Result<(), Memory>
    ensures appended { OnOk result (buffer_bytes code.new
        ≡ buffer_bytes code.old ++ encode_utf8_all (tag_free (chars s.now))) }
    ensures err { OnErr result (AppendsPrefix (buffer_bytes code.old) (buffer_bytes code.new)
        (encode_utf8_all (tag_free (chars s.now)))) }
    ensures byte { indent_byte code.new ≡ indent_byte code.old }
    ensures width { indent_width code.new ≡ indent_width code.old }
{
    let changes = Changes {
        mode: NonAsciiEscape::TemplateRaw,
        ascii: false,
        drops_backslash: false,
        frees_tags: true,
    };
    print_raw(code, changes, s)
}

/// Appends the text with an escape for each character that isn't ASCII, by what the text is; after `Memory` maybe fewer bytes.
pub fn print_non_ascii_escaped(
    code: &mut CodeBuffer,
    s: &str,
    mode: NonAsciiEscape,
) -> Result<(), Memory>
    ensures appended { OnOk result (buffer_bytes code.new
        ≡ buffer_bytes code.old ++ encode_utf8_all (non_ascii_escaped mode (chars s.now))) }
    ensures err { OnErr result (AppendsPrefix (buffer_bytes code.old) (buffer_bytes code.new)
        (encode_utf8_all (non_ascii_escaped mode (chars s.now)))) }
    ensures byte { indent_byte code.new ≡ indent_byte code.old }
    ensures width { indent_width code.new ≡ indent_width code.old }
{
    match mode {
        NonAsciiEscape::Identifier => print_name_escaped(code, s),
        NonAsciiEscape::RegExp => print_raw(code, as_ascii(mode), s),
        NonAsciiEscape::TemplateRaw => print_raw(code, as_ascii(mode), s),
        NonAsciiEscape::Directive => print_raw(code, as_ascii(mode), s),
    }
}

fn as_ascii(mode: NonAsciiEscape) -> Changes
    ensures { raw_of result ≡ record { mode = mode; ascii = true; drops_backslash = false; frees_tags = is_template mode } }
{
    Changes {
        mode,
        ascii: true,
        drops_backslash: false,
        frees_tags: mode == NonAsciiEscape::TemplateRaw,
    }
}

/// Appends the raw text of a piece of a template (ECMA-262, 12.9.6); after `Memory` maybe fewer bytes. Of a tagged one only `</script` is escaped, since the program can see the raw text.
pub fn print_template_quasi_raw(
    code: &mut CodeBuffer,
    raw: &str,
    tagged: bool,
    minify: bool,
    ascii_only: bool,
) -> Result<(), Memory>
    ensures appended { OnOk result (buffer_bytes code.new
        ≡ buffer_bytes code.old ++ encode_utf8_all (template_text tagged minify ascii_only (chars raw.now))) }
    ensures err { OnErr result (AppendsPrefix (buffer_bytes code.old) (buffer_bytes code.new)
        (encode_utf8_all (template_text tagged minify ascii_only (chars raw.now)))) }
    ensures byte { indent_byte code.new ≡ indent_byte code.old }
    ensures width { indent_width code.new ≡ indent_width code.old }
{
    print_raw(code, template_changes(tagged, minify, ascii_only), raw)
}

fn template_changes(tagged: bool, minify: bool, ascii_only: bool) -> Changes
    ensures { raw_of result ≡ record { mode = modes.TemplateRaw; ascii = ascii_only && not tagged; drops_backslash = minify && not tagged; frees_tags = true } }
{
    Changes {
        mode: NonAsciiEscape::TemplateRaw,
        ascii: if tagged { false } else { ascii_only },
        drops_backslash: if tagged { false } else { minify },
        frees_tags: true,
    }
}

/// Appends a directive's raw text, without its quotes; after `Memory` maybe fewer bytes.
pub fn print_directive_raw(code: &mut CodeBuffer, raw: &str, ascii_only: bool) -> Result<(), Memory>
    ensures appended { OnOk result (buffer_bytes code.new
        ≡ buffer_bytes code.old ++ encode_utf8_all (directive_text ascii_only (chars raw.now))) }
    ensures err { OnErr result (AppendsPrefix (buffer_bytes code.old) (buffer_bytes code.new)
        (encode_utf8_all (directive_text ascii_only (chars raw.now)))) }
    ensures byte { indent_byte code.new ≡ indent_byte code.old }
    ensures width { indent_width code.new ≡ indent_width code.old }
{
    if ascii_only {
        print_raw(code, as_ascii(NonAsciiEscape::Directive), raw)
    } else {
        code.print_str(raw)
    }
}

/// Appends the pattern of a regular expression, without the slashes (ECMA-262, 12.9.5); after `Memory` maybe fewer bytes.
pub fn print_regex_pattern(
    code: &mut CodeBuffer,
    pattern: &str,
    ascii_only: bool,
) -> Result<(), Memory>
    ensures appended { OnOk result (buffer_bytes code.new
        ≡ buffer_bytes code.old ++ encode_utf8_all (pattern_text ascii_only (chars pattern.now))) }
    ensures err { OnErr result (AppendsPrefix (buffer_bytes code.old) (buffer_bytes code.new)
        (encode_utf8_all (pattern_text ascii_only (chars pattern.now)))) }
    ensures byte { indent_byte code.new ≡ indent_byte code.old }
    ensures width { indent_width code.new ≡ indent_width code.old }
{
    if ascii_only {
        print_raw(code, as_ascii(NonAsciiEscape::RegExp), pattern)
    } else {
        code.print_str(pattern)
    }
}

fn print_raw(code: &mut CodeBuffer, changes: Changes, s: &str) -> Result<(), Memory>
    ensures appended { OnOk result (buffer_bytes code.new
        ≡ buffer_bytes code.old ++ encode_utf8_all (raw_text (raw_of changes) (chars s.now))) }
    ensures err { OnErr result (AppendsPrefix (buffer_bytes code.old) (buffer_bytes code.new)
        (encode_utf8_all (raw_text (raw_of changes) (chars s.now)))) }
    ensures byte { indent_byte code.new ≡ indent_byte code.old }
    ensures width { indent_width code.new ≡ indent_width code.old }
{
    let mut escaped = false;
    let mut after_less = false;
    let mut rest = s.as_bytes();
    'points: while !rest.is_empty() {
        let n = plain_len(rest);
        if n == 0 {
            let point = take_point(rest);
            print_raw_point(code, changes, escaped, after_less, point)?;
            escaped = escapes(escaped, point.code);
            after_less = point.code == b'<' as u32;
            rest = point.behind;
        } else {
            let (plain, behind) = rest.split_at(n);
            print_ascii(code, plain)?;
            escaped = false;
            after_less = false;
            rest = behind;
        }
    }
    Ok(())
}

// Whether the character is a backslash that escapes the next one.
fn escapes(escaped: bool, c: u32) -> bool
    ensures { result ≡ ((c == 92) && not escaped) }
{
    c == b'\\' as u32 && !escaped
}

fn print_raw_point(
    code: &mut CodeBuffer,
    changes: Changes,
    escaped: bool,
    after_less: bool,
    point: Point,
) -> Result<(), Memory>
    requires scalar { scalar point.code ≡ true }
    requires code { point.code < 0x11_0000 }
    requires bytes { point.bytes.now ≡ encode_utf8 point.code }
    requires behind { ArePoints point.behind.now }
    ensures appended { OnOk result (buffer_bytes code.new
        ≡ buffer_bytes code.old ++ encode_utf8_all (raw_character (raw_of changes) escaped after_less point.entry.code (chars point.entry.behind.now))) }
    ensures err { OnErr result (buffer_bytes code.new ≡ buffer_bytes code.old) }
    ensures byte { indent_byte code.new ≡ indent_byte code.old }
    ensures width { indent_width code.new ≡ indent_width code.old }
{
    if changes.ascii && 128 <= point.code {
        print_raw_escape(code, changes.mode, escaped, point.code)
    } else if escapes(escaped, point.code) && is_left_out(changes, point.behind) {
        Ok(())
    } else {
        print_tag_character(code, changes.frees_tags && after_less, point)
    }
}

// Whether a backslash before these bytes isn't printed.
fn is_left_out(changes: Changes, behind: &[u8]) -> bool
    requires { ArePoints behind.now }
    ensures { result ≡ is_left_out (raw_of changes) (chars behind.now) }
{
    changes.ascii && begins_past_ascii(behind)
        || changes.drops_backslash && begins_with_dollar(behind)
}

fn print_raw_escape(
    code: &mut CodeBuffer,
    mode: NonAsciiEscape,
    escaped: bool,
    c: u32,
) -> Result<(), Memory>
    requires { c < 0x11_0000 }
    ensures appended { OnOk result (buffer_bytes code.new
        ≡ buffer_bytes code.old ++ encode_utf8_all (raw_escape mode escaped c)) }
    ensures err { OnErr result (buffer_bytes code.new ≡ buffer_bytes code.old) }
    ensures byte { indent_byte code.new ≡ indent_byte code.old }
    ensures width { indent_width code.new ≡ indent_width code.old }
{
    match mode {
        NonAsciiEscape::RegExp => print_unit_escapes(code, c),
        NonAsciiEscape::Identifier => print_string_escape(code, escaped, c),
        NonAsciiEscape::TemplateRaw => print_string_escape(code, escaped, c),
        NonAsciiEscape::Directive => print_string_escape(code, escaped, c),
    }
}

fn print_string_escape(code: &mut CodeBuffer, escaped: bool, c: u32) -> Result<(), Memory>
    requires { c < 0x11_0000 }
    ensures appended { OnOk result (buffer_bytes code.new
        ≡ buffer_bytes code.old ++ encode_utf8_all (raw_escape modes.Directive escaped c)) }
    ensures err { OnErr result (buffer_bytes code.new ≡ buffer_bytes code.old) }
    ensures byte { indent_byte code.new ≡ indent_byte code.old }
    ensures width { indent_width code.new ≡ indent_width code.old }
{
    if escaped && (c == 0x2028 || c == 0x2029) {
        code.print_str("\\\n")
    } else {
        print_character_escape(code, c)
    }
}

fn print_tag_character(code: &mut CodeBuffer, after_less: bool, point: Point) -> Result<(), Memory>
    requires scalar { scalar point.code ≡ true }
    requires bytes { point.bytes.now ≡ encode_utf8 point.code }
    requires behind { ArePoints point.behind.now }
    ensures appended { OnOk result (buffer_bytes code.new
        ≡ buffer_bytes code.old ++ encode_utf8_all (tag_character after_less point.entry.code (chars point.entry.behind.now))) }
    ensures err { OnErr result (buffer_bytes code.new ≡ buffer_bytes code.old) }
    ensures byte { indent_byte code.new ≡ indent_byte code.old }
    ensures width { indent_width code.new ≡ indent_width code.old }
{
    if after_less && point.code == b'/' as u32 && begins_script(point.behind) {
        print_ascii(code, b"\\/")
    } else {
        code.print_str(unsafe { std::str::from_utf8_unchecked(point.bytes) })
    }
}
