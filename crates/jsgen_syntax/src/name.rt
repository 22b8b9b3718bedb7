ghost use Rattle.std.specs.Prelude.{◌≡◌};
ghost use Rattle.jsgen_syntax.specs.Name.{starts_name, continues_name, is_name, is_reserved, is_strict_reserved};

/// Whether the text is a name: a character of XID_Start, `$` or `_`, then characters of XID_Continue, `$`,
/// U+200C or U+200D (ECMA-262, 12.7, without the few characters of ID_Start and ID_Continue that aren't XID).
pub fn is_name(s: &str) -> bool
    ensures { result ≡ is_name s.now }
{
    let mut characters = s.chars();
    match characters.next() {
        Some(first) => starts_name(first) && characters.all(continues_name),
        None => false,
    }
}

fn starts_name(c: char) -> bool
    ensures { result ≡ starts_name c }
{
    unicode_ident::is_xid_start(c) || c == '$' || c == '_'
}

fn continues_name(c: char) -> bool
    ensures { result ≡ continues_name c }
{
    unicode_ident::is_xid_continue(c) || c == '$' || c == '\u{200C}' || c == '\u{200D}'
}

// The words that are always reserved, by their length.
const RESERVED_OF_2: [&str; 3] = ["do", "if", "in"];

const RESERVED_OF_3: [&str; 4] = ["for", "new", "try", "var"];

const RESERVED_OF_4: [&str; 8] = [
    "case", "else", "enum", "null", "this", "true", "void", "with",
];

const RESERVED_OF_5: [&str; 10] = [
    "await", "break", "catch", "class", "const", "false", "super", "throw", "while", "yield",
];

const RESERVED_OF_6: [&str; 6] = ["delete", "export", "import", "return", "switch", "typeof"];

const RESERVED_OF_7: [&str; 3] = ["default", "extends", "finally"];

const RESERVED_OF_8: [&str; 3] = ["continue", "debugger", "function"];

const RESERVED_OF_10: [&str; 1] = ["instanceof"];

const STRICT: [&str; 8] = [
    "let",
    "static",
    "implements",
    "interface",
    "package",
    "private",
    "protected",
    "public",
];

/// Whether the word is always reserved.
pub fn is_reserved(s: &str) -> bool
    ensures { result ≡ is_reserved s.now }
{
    match s.len() {
        2 => RESERVED_OF_2.contains(&s),
        3 => RESERVED_OF_3.contains(&s),
        4 => RESERVED_OF_4.contains(&s),
        5 => RESERVED_OF_5.contains(&s),
        6 => RESERVED_OF_6.contains(&s),
        7 => RESERVED_OF_7.contains(&s),
        8 => RESERVED_OF_8.contains(&s),
        10 => RESERVED_OF_10.contains(&s),
        _ => false,
    }
}

/// Whether strict code reserves the word, though it isn't always reserved.
pub fn is_strict_reserved(s: &str) -> bool
    ensures { result ≡ is_strict_reserved s.now }
{
    STRICT.contains(&s)
}
