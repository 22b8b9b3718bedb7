/// How a character past ASCII is escaped, by the grammar of the text that holds it.
#[derive(Clone, Copy, Debug, PartialEq, Eq)]
pub enum NonAsciiEscape {
    /// A name: `\uXXXX`, and `\u{X..}` past U+FFFF (ECMA-262, 12.7).
    Identifier,
    /// The pattern of a regular expression: `\uXXXX`, and two of them past U+FFFF, which mean the same whatever its flags (12.9.5). A backslash that escapes the character is left out.
    RegExp,
    /// A piece of a template, by the escapes of a name (12.9.6). A backslash that escapes the character is left out, a line continuation ends in LF, and `</script` is escaped.
    TemplateRaw,
    /// The text of a directive, as a piece of a template, without a word on `</script` (11.2.1).
    Directive,
}
