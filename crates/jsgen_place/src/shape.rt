// What a statement is as the body of another one.

/// How a statement stands as the body of another one.
#[derive(Clone, Copy, PartialEq, Eq)]
pub enum Shape {
    /// It goes on with the line.
    Block,
    /// It goes on with the line behind `else`.
    If,
    /// A semicolon alone, without a space before it.
    Empty,
    Other,
}
