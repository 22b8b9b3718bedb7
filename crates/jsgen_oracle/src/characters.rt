// Characters, and the longest front of a text whose characters all pass a test.
ghost use Rattle.std.specs.Prelude.{◌≡◌, ◌<◌, ◌≤◌, ◌||◌, true, length, IfOk};
ghost use Rattle.std.specs.Str.{chars};
ghost use Rattle.std.specs.List.{prefix_len, list_all};
ghost use Rattle.std.specs.Char.{is_ascii_digit, is_ascii_hexdigit, digit_value};
ghost use Rattle.jsgen_syntax.specs.Escapes.{begins, begins_with};
ghost use Rattle.jsgen_syntax.specs.Name.{starts_name, continues_name};
ghost use Rattle.jsgen_model.specs.Tokens.{is_line_terminator, is_blank, has_line_end};

use jsgen_syntax::Memory;
use std::alloc::Global;

pub(crate) fn characters_of(alloc: Global, text: &str) -> Result<Vec<char>, Memory>
    ensures { IfOk result (λ v. v.items ≡ chars text.now) }
{
    Ok(text.chars().collect(alloc)?)
}

pub(crate) fn is_line_terminator(c: char) -> bool
    ensures { result ≡ is_line_terminator c }
{
    c == '\n' || c == '\r' || c == '\u{2028}' || c == '\u{2029}'
}

pub(crate) fn is_blank(c: char) -> bool
    ensures { result ≡ is_blank c }
{
    c == ' ' || c == '\t' || is_line_terminator(c)
}

pub(crate) fn starts_name(c: char) -> bool
    ensures { result ≡ starts_name c }
{
    unicode_ident::is_xid_start(c) || c == '$' || c == '_'
}

pub(crate) fn continues_name(c: char) -> bool
    ensures { result ≡ continues_name c }
{
    unicode_ident::is_xid_continue(c) || c == '$' || c == '\u{200C}' || c == '\u{200D}'
}

fn has_line_end(blanks: &[char]) -> bool
    ensures { result ≡ has_line_end blanks.now }
{
    blanks.iter().any(|c| is_line_terminator(*c))
}

// The mark of a token behind these blanks.
pub(crate) fn mark_at(line: bool, blanks: &[char]) -> bool
    ensures { result ≡ (line || has_line_end blanks.now) }
{
    line || has_line_end(blanks)
}

pub(crate) fn count_blanks(text: &[char]) -> usize
    ensures value { result ≡ prefix_len is_blank text.now }
    ensures within { result ≤ length text.now }
{
    text.iter().take_while(|c| is_blank(**c)).count()
}

pub(crate) fn digit_value(c: char) -> u32
    requires { is_ascii_hexdigit c ≡ true }
    ensures value { result ≡ digit_value c }
    ensures bound { result < 16 }
{
    c.to_digit(16).unwrap_or(0)
}

pub(crate) fn begins_with(c: char, text: &[char]) -> bool
    ensures { result ≡ begins_with c text.now }
{
    match text.first() {
        Some(first) => *first == c,
        None => false,
    }
}

pub(crate) fn begins_with_digit(text: &[char]) -> bool
    ensures { result ≡ begins is_ascii_digit text.now }
{
    match text.first() {
        Some(first) => first.is_ascii_digit(),
        None => false,
    }
}

pub(crate) fn begins_with_hex_digit(text: &[char]) -> bool
    ensures { result ≡ begins is_ascii_hexdigit text.now }
{
    match text.first() {
        Some(first) => first.is_ascii_hexdigit(),
        None => false,
    }
}
