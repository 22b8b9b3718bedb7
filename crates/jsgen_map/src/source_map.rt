ghost use Rattle.std.specs.Prelude.{◌≡◌};
ghost use Rattle.jsgen_map.specs.Marks.{token_at};

use crate::position::Position;

/// A mark of an output.
#[derive(Clone, Copy)]
pub struct Mark<'a> {
    /// How many bytes the output had.
    pub bytes: usize,
    /// The offset in the source that stands there.
    pub offset: u32,
    /// What the source has there, where that is a name that is printed otherwise.
    pub name: Option<&'a str>,
}

/// A mark in a source map: lines and columns in units of UTF-16, from 0, of the output and of the source, and the number of its name.
#[derive(Clone, Copy, Debug, PartialEq, Eq)]
pub struct Token {
    pub generated_line: usize,
    pub generated_column: usize,
    pub source_line: usize,
    pub source_column: usize,
    pub name: Option<usize>,
}

/// A source map of one source. Names and the source's text are lent from it.
#[derive(Drop)]
pub struct SourceMap<'a> {
    pub source_name: String,
    pub source_content: &'a str,
    pub names: Vec<&'a str>,
    pub tokens: Vec<Token>,
}

/// The token of a place in the output, one in the source, and a name's number.
pub(crate) fn token_at(generated: Position, source: Position, name: Option<usize>) -> Token
    ensures { result ≡ token_at generated source name }
{
    Token {
        generated_line: generated.line,
        generated_column: generated.column,
        source_line: source.line,
        source_column: source.column,
        name,
    }
}
