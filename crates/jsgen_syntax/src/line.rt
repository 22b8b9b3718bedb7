ghost use Rattle.std.specs.Prelude.{◌≡◌};
ghost use Rattle.jsgen_syntax.specs.Strings.{ends_line};

/// Whether the character ends a line: LF, CR, U+2028 or U+2029 (ECMA-262, 12.3).
pub fn is_line_terminator(c: char) -> bool
    ensures { result ≡ ends_line c }
{
    c == '\n' || c == '\r' || c == '\u{2028}' || c == '\u{2029}'
}
