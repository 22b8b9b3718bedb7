// The text of a string.
ghost use Rattle.std.specs.Prelude.{◌≡◌, ◌<◌, ◌≤◌, ◌++◌, ◌∷◌, [], length, codes, false, OnOk, OnErr, MatchOption};
ghost use Rattle.std.specs.Char.{encode_utf8};
ghost use Rattle.std.specs.Str.{chars, encode_utf8_all, str_eq_ignore_ascii_case};
ghost use Rattle.jsgen_syntax.specs.Buffer.{buffer_bytes, indent_byte, indent_width, AppendsPrefix};
ghost use Rattle.jsgen_syntax.specs.Strings.{ascii_text, control_text, escaped_after, needs_backslash, past_ascii_text, point_text, quoted};
ghost use Rattle.jsgen_syntax.specs.Units.{js_units};
ghost use Rattle.jsgen_syntax.specs.Wtf8.{is_surrogate};
ghost use Rattle.jsgen_strings.specs.Points.{ArePoints};

use crate::escapes::{print_ascii, print_character_escape, print_lower_unit};
use crate::points::{
    Point, begins_script, begins_with_brace, begins_with_digit, plain_len, take_point,
};
use jsgen_syntax::{CodeBuffer, JsStr, Memory, Quote};

/// Appends the string between its quotes, with escapes for all that isn't ASCII where `ascii_only`; after `Memory` maybe fewer bytes.
pub fn print_string_text(
    code: &mut CodeBuffer,
    value: &JsStr,
    quote: Quote,
    ascii_only: bool,
) -> Result<(), Memory>
    ensures appended { OnOk result (buffer_bytes code.new
        ≡ buffer_bytes code.old ++ encode_utf8_all (quoted quote ascii_only (js_units value.now))) }
    ensures err { OnErr result (AppendsPrefix (buffer_bytes code.old) (buffer_bytes code.new)
        (encode_utf8_all (quoted quote ascii_only (js_units value.now)))) }
    ensures byte { indent_byte code.new ≡ indent_byte code.old }
    ensures width { indent_width code.new ≡ indent_width code.old }
{
    quote.print(code)?;
    print_escaped(code, value.as_bytes(), quote, ascii_only)?;
    quote.print(code)
}

fn print_escaped(
    code: &mut CodeBuffer,
    bytes: &[u8],
    quote: Quote,
    ascii_only: bool,
) -> Result<(), Memory>
    requires { ArePoints bytes.now }
    ensures appended { OnOk result (buffer_bytes code.new
        ≡ buffer_bytes code.old ++ encode_utf8_all (escaped_after quote ascii_only false (chars bytes.now))) }
    ensures err { OnErr result (AppendsPrefix (buffer_bytes code.old) (buffer_bytes code.new)
        (encode_utf8_all (escaped_after quote ascii_only false (chars bytes.now)))) }
    ensures byte { indent_byte code.new ≡ indent_byte code.old }
    ensures width { indent_width code.new ≡ indent_width code.old }
{
    let mut after_less = false;
    let mut rest = bytes;
    'points: while !rest.is_empty() {
        let n = plain_len(rest);
        if n == 0 {
            let point = take_point(rest);
            print_point(code, quote, ascii_only, after_less, point)?;
            after_less = point.code == b'<' as u32;
            rest = point.behind;
        } else {
            let (plain, behind) = rest.split_at(n);
            print_ascii(code, plain)?;
            after_less = false;
            rest = behind;
        }
    }
    Ok(())
}

fn print_point(
    code: &mut CodeBuffer,
    quote: Quote,
    ascii_only: bool,
    after_less: bool,
    point: Point,
) -> Result<(), Memory>
    requires code { point.code < 0x11_0000 }
    requires bytes { point.bytes.now ≡ encode_utf8 point.code }
    requires behind { ArePoints point.behind.now }
    ensures appended { OnOk result (buffer_bytes code.new
        ≡ buffer_bytes code.old ++ encode_utf8_all (point_text quote ascii_only after_less point.entry.code (chars point.entry.behind.now))) }
    ensures err { OnErr result (buffer_bytes code.new ≡ buffer_bytes code.old) }
    ensures byte { indent_byte code.new ≡ indent_byte code.old }
    ensures width { indent_width code.new ≡ indent_width code.old }
{
    if point.code < 32 {
        print_control(code, quote, point.code as u8, point.behind)
    } else if point.code < 128 {
        print_character(code, quote, after_less, point.code as u8, point.behind)
    } else {
        print_past_ascii(code, ascii_only, point)
    }
}

fn print_control(code: &mut CodeBuffer, quote: Quote, c: u8, behind: &[u8]) -> Result<(), Memory>
    requires control { c < 32 }
    requires behind { ArePoints behind.now }
    ensures appended { OnOk result (buffer_bytes code.new
        ≡ buffer_bytes code.old ++ encode_utf8_all (control_text quote c (chars behind.now))) }
    ensures err { OnErr result (buffer_bytes code.new ≡ buffer_bytes code.old) }
    ensures byte { indent_byte code.new ≡ indent_byte code.old }
    ensures width { indent_width code.new ≡ indent_width code.old }
{
    match control_escape(quote, c, behind) {
        Some(escape) => code.print_str(escape),
        None => code.print_ascii_byte(c),
    }
}

// The escape for a character below U+0020, if it isn't printed as it is.
fn control_escape(quote: Quote, c: u8, behind: &[u8]) -> Option<&'static str>
    requires { ArePoints behind.now }
    ensures { MatchOption result (control_text quote c (chars behind.now) ≡ c ∷ [])
        (λ s. encode_utf8_all (control_text quote c (chars behind.now)) ≡ s.now) }
{
    match c {
        0 if begins_with_digit(behind) => Some("\\x00"),
        0 => Some("\\0"),
        7 => Some("\\x07"),
        8 => Some("\\b"),
        10 if !quote.is_backtick() => Some("\\n"),
        11 => Some("\\v"),
        12 => Some("\\f"),
        13 => Some("\\r"),
        27 => Some("\\x1B"),
        _ => None,
    }
}

// A character from U+0020 to U+007F.
fn print_character(
    code: &mut CodeBuffer,
    quote: Quote,
    after_less: bool,
    c: u8,
    behind: &[u8],
) -> Result<(), Memory>
    requires ascii { c < 128 }
    requires behind { ArePoints behind.now }
    ensures appended { OnOk result (buffer_bytes code.new
        ≡ buffer_bytes code.old ++ encode_utf8_all (ascii_text quote after_less c (chars behind.now))) }
    ensures err { OnErr result (buffer_bytes code.new ≡ buffer_bytes code.old) }
    ensures byte { indent_byte code.new ≡ indent_byte code.old }
    ensures width { indent_width code.new ≡ indent_width code.old }
{
    if needs_backslash(quote, after_less, c, behind) {
        print_ascii(code, &[b'\\', c])
    } else {
        code.print_ascii_byte(c)
    }
}

fn needs_backslash(quote: Quote, after_less: bool, c: u8, behind: &[u8]) -> bool
    requires { ArePoints behind.now }
    ensures { result ≡ needs_backslash quote after_less c (chars behind.now) }
{
    c == b'\\'
        || c == quote.as_byte()
        || quote.is_backtick() && c == b'$' && begins_with_brace(behind)
        || after_less && c == b'/' && begins_script(behind)
}

fn print_past_ascii(code: &mut CodeBuffer, ascii_only: bool, point: Point) -> Result<(), Memory>
    requires high { 128 ≤ point.code }
    requires code { point.code < 0x11_0000 }
    requires bytes { point.bytes.now ≡ encode_utf8 point.code }
    ensures appended { OnOk result (buffer_bytes code.new
        ≡ buffer_bytes code.old ++ encode_utf8_all (past_ascii_text ascii_only point.entry.code)) }
    ensures err { OnErr result (buffer_bytes code.new ≡ buffer_bytes code.old) }
    ensures byte { indent_byte code.new ≡ indent_byte code.old }
    ensures width { indent_width code.new ≡ indent_width code.old }
{
    let c = point.code;
    if is_surrogate(c) {
        print_lower_unit(code, c)
    } else if ascii_only {
        print_character_escape(code, c)
    } else if c == 0xA0 {
        code.print_str("\\xA0")
    } else if c == 0x2028 || c == 0x2029 {
        print_lower_unit(code, c)
    } else {
        code.print_str(unsafe { std::str::from_utf8_unchecked(point.bytes) })
    }
}

fn is_surrogate(c: u32) -> bool
    ensures { result ≡ is_surrogate c }
{
    0xD800 <= c && c < 0xE000
}

/// Whether eight bytes are `</script` in any letter case, which ends the script that they stand in.
pub fn is_script_close_tag(slice: &[u8]) -> bool
    requires { length slice.now ≡ 8 }
    ensures { result ≡ str_eq_ignore_ascii_case slice.now (codes "</script") }
{
    slice.eq_ignore_ascii_case(b"</script")
}
