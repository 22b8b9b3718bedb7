ghost use Rattle.std.specs.Prelude.{◌≡◌, ◌++◌, ◌∷◌, [], OnOk, OnErr};

use crate::buffer::CodeBuffer;
use crate::memory::Memory;

/// The character that stands at both ends of a string (ECMA-262, 12.9.4), or of a template without substitutions (12.9.6).
#[derive(Clone, Copy, Debug, PartialEq, Eq)]
pub enum Quote {
    Single,
    Double,
    Backtick,
}

impl Quote {
    ghost use Rattle.jsgen_syntax.specs.Buffer.{buffer_bytes, indent_byte, indent_width};
    ghost use Rattle.jsgen_syntax.specs.Strings.{is_backtick, quote_char};

    /// The character, which is ASCII.
    pub fn as_byte(self) -> u8
        ensures { result ≡ quote_char self }
    {
        match self {
            Quote::Single => b'\'',
            Quote::Double => b'"',
            Quote::Backtick => b'`',
        }
    }

    pub fn is_backtick(self) -> bool
        ensures { result ≡ is_backtick self }
    {
        matches!(self, Quote::Backtick)
    }

    /// Appends the character.
    pub fn print(self, code: &mut CodeBuffer) -> Result<(), Memory>
        ensures appended { OnOk result (buffer_bytes code.new ≡ buffer_bytes code.old ++ quote_char self ∷ []) }
        ensures err { OnErr result (buffer_bytes code.new ≡ buffer_bytes code.old) }
        ensures byte { indent_byte code.new ≡ indent_byte code.old }
        ensures width { indent_width code.new ≡ indent_width code.old }
    {
        match self {
            Quote::Single => code.print_ascii_byte(b'\''),
            Quote::Double => code.print_ascii_byte(b'"'),
            Quote::Backtick => code.print_ascii_byte(b'`'),
        }
    }
}
