/// Where a node stands in its source: offsets in bytes, the end behind the last one.
#[derive(Clone, Copy, Debug, PartialEq, Eq)]
pub struct Span {
    pub start: u32,
    pub end: u32,
}

/// What a program is parsed as (ECMA-262, clause 16).
#[derive(Clone, Copy, Debug, PartialEq, Eq)]
pub enum SourceKind {
    Module,
}
