ghost use Rattle.std.specs.Prelude.{◌≡◌, ◌+◌, ◌-◌, ◌*◌, ◌^◌, ◌<◌, ◌==◌, [], ◌∷◌, ◌++◌, length, replicate, slice_get, OnOk, OnErr, string_bytes, reverse};

use crate::memory::Memory;
use std::alloc::Global;

/// What a level of indentation is made of.
#[derive(Clone, Copy, Debug, PartialEq, Eq)]
pub enum IndentChar {
    Tab,
    Space,
}

/// Tabs.
impl Default for IndentChar {
    ghost use Rattle.jsgen_syntax.specs.declared.buffer.IndentChar.TheVariants.{Tab};

    ghost is_default = { λ c. c ≡ Tab };

    fn default() -> IndentChar {
        IndentChar::Tab
    }
}

impl IndentChar {
    ghost use Rattle.jsgen_syntax.specs.Buffer.{indent_code};

    fn character(self) -> char
        ensures { result ≡ indent_code self }
    {
        match self {
            IndentChar::Tab => '\t',
            IndentChar::Space => ' ',
        }
    }
}

/// Text that only grows.
#[derive(Drop)]
pub struct CodeBuffer {
    text: String,
    indent: IndentChar,
    width: usize,
}

impl CodeBuffer {
    ghost use Rattle.jsgen_syntax.specs.Buffer.{buffer_bytes, indent_byte, indent_code, indent_width, AppendsPrefix};

    /// An empty text, of which a level of indentation is `width` times `c`.
    pub fn with_indent(alloc: Global, c: IndentChar, width: usize) -> CodeBuffer
        ensures empty { buffer_bytes result ≡ [] }
        ensures byte { indent_byte result ≡ indent_code c }
        ensures width { indent_width result ≡ width }
    {
        CodeBuffer {
            text: String::new(alloc),
            indent: c,
            width,
        }
    }

    /// Appends one byte of ASCII.
    pub fn print_ascii_byte(&mut self, b: u8) -> Result<(), Memory>
        requires { b < 128 }
        ensures appended { OnOk result (buffer_bytes self.new ≡ buffer_bytes self.old ++ b ∷ []) }
        ensures err { OnErr result (buffer_bytes self.new ≡ buffer_bytes self.old) }
        ensures byte { indent_byte self.new ≡ indent_byte self.old }
        ensures width { indent_width self.new ≡ indent_width self.old }
    {
        self.text.push(char::from(b))?;
        Ok(())
    }

    /// Appends a text.
    pub fn print_str(&mut self, s: &str) -> Result<(), Memory>
        ensures appended { OnOk result (buffer_bytes self.new ≡ buffer_bytes self.old ++ s.now) }
        ensures err { OnErr result (buffer_bytes self.new ≡ buffer_bytes self.old) }
        ensures byte { indent_byte self.new ≡ indent_byte self.old }
        ensures width { indent_width self.new ≡ indent_width self.old }
    {
        self.text.push_str(s)?;
        Ok(())
    }

    /// Appends `depth` levels of indentation; after `Memory` maybe fewer bytes.
    pub fn print_indent(&mut self, depth: usize) -> Result<(), Memory>
        requires { depth * indent_width self.old < 2 ^ 64 }
        ensures appended { OnOk result (buffer_bytes self.new
            ≡ buffer_bytes self.old ++ replicate (depth * indent_width self.old) (indent_byte self.old)) }
        ensures err { OnErr result (AppendsPrefix (buffer_bytes self.old) (buffer_bytes self.new)
            (replicate (depth * indent_width self.old) (indent_byte self.old))) }
        ensures byte { indent_byte self.new ≡ indent_byte self.old }
        ensures width { indent_width self.new ≡ indent_width self.old }
    {
        let c = self.indent.character();
        for _ in 0..depth * self.width {
            self.text.push(c)?;
        }
        Ok(())
    }

    /// How many bytes the text has.
    pub fn len(&self) -> usize
        ensures { result ≡ length (buffer_bytes self.now) }
    {
        self.text.len()
    }

    /// Whether the text has no byte.
    pub fn is_empty(&self) -> bool
        ensures { result ≡ (length (buffer_bytes self.now) == 0) }
    {
        self.text.is_empty()
    }

    /// The last byte.
    pub fn last_byte(&self) -> Option<u8>
        ensures { result ≡ slice_get (buffer_bytes self.now) (length (buffer_bytes self.now) - 1) }
    {
        self.text.as_bytes().last().copied()
    }

    /// The byte that stands `n` before the last.
    pub fn peek_nth_byte_back(&self, n: usize) -> Option<u8>
        ensures { result ≡ slice_get (reverse (buffer_bytes self.now)) n }
    {
        let bytes = self.text.as_bytes();
        if n < bytes.len() {
            Some(bytes[bytes.len() - 1 - n])
        } else {
            None
        }
    }

    /// The text so far.
    pub fn as_bytes(&self) -> &[u8]
        ensures { result.now ≡ buffer_bytes self.now }
    {
        self.text.as_bytes()
    }

    /// The text so far.
    pub fn as_str(&self) -> &str
        ensures { result.now ≡ buffer_bytes self.now }
    {
        self.text.as_str()
    }

    /// The whole text, and nothing is copied.
    pub fn into_string(self) -> String
        ensures { string_bytes result ≡ buffer_bytes self }
    {
        self.text
    }
}
