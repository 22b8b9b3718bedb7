ghost use Rattle.std.specs.Prelude.{◌≡◌, ◌^◌, ◌<◌, ◌≤◌, [], ◌++◌, codes, length, take, IfOk, OnOk, OnErr, string_bytes};
ghost use Rattle.std.specs.Option.{option_copied};
ghost use Rattle.std.specs.Str.{bytes_eq, IsUtf8};
ghost use Rattle.jsgen_map.specs.Marks.{is_last, one_more, other_name};
ghost use Rattle.jsgen_map.specs.Plain.{mark_at, mark_plain, source_text, with_name_mark, IsSpanOf};

use crate::count::{Count, Seen, count_on};
use crate::names::number_of;
use crate::position::Position;
use crate::source_map::{Mark, SourceMap, Token, token_at};
use crate::tables::LineOffsetTables;
use jsgen_syntax::{Memory, Span};
use std::alloc::Global;
use std::collections::BTreeMap;

/// Makes the map of an output that grows, from its marks one after the other. No output is stored.
#[derive(Drop)]
pub struct SourcemapBuilder<'a> {
    source_name: String,
    source: &'a str,
    tables: LineOffsetTables,
    names: Vec<&'a str>,
    numbers: BTreeMap<&'a str, usize>,
    tokens: Vec<Token>,
    /// How many bytes of the output are counted.
    counted: usize,
    count: Count,
    /// The offset of the last mark.
    last: Option<u32>,
    /// The line of the last mark in the source, from which the next one is looked for.
    line: usize,
    ghost line_within: { count.place.line ≤ counted },
    ghost column_within: { count.place.column ≤ counted },
}

impl<'a> SourcemapBuilder<'a> {
    ghost use Rattle.jsgen_map.specs.Builder.{path_of, source_of, counted_bytes, AddsMarks, IsMapOf, IsOfSameSource, IsUnchanged, StandsFor};

    /// A builder for the empty output, without marks.
    pub fn new(
        alloc: Global,
        path: &str,
        source_text: &'a str,
    ) -> Result<SourcemapBuilder<'a>, Memory>
        requires { length source_text.now < 2 ^ 32 }
        ensures stands { IfOk result (λ b. StandsFor b [] []) }
        ensures path { IfOk result (λ b. path_of b ≡ path.now) }
        ensures source { IfOk result (λ b. source_of b ≡ source_text.now) }
    {
        let tables = LineOffsetTables::new(alloc, source_text)?;
        let source_name = String::from_str(alloc, path)?;
        Ok(SourcemapBuilder {
            source_name,
            source: source_text,
            tables,
            names: Vec::new(alloc),
            numbers: BTreeMap::new(alloc),
            tokens: Vec::new(alloc),
            counted: 0,
            count: Count {
                place: Position { line: 0, column: 0 },
                seen: Seen::Other,
            },
            last: None,
            line: 0,
        })
    }

    /// Adds a mark of an output that begins with `code` up to the mark, unless its offset is the last one's.
    pub fn add_mark(&mut self, code: &[u8], mark: Mark<'a>) -> Result<(), Memory>
        requires within { mark.bytes ≤ length code.now }
        requires utf8 { IsUtf8 (take mark.bytes code.now) }
        requires offset { mark.offset ≤ length (source_of self.old) }
        requires grown { counted_bytes self.old ≤ mark.bytes }
        ensures ok { OnOk result (AddsMarks self.old self.new (take mark.entry.bytes code.now) (one_more (mark_plain mark.entry))) }
        ensures err { OnErr result (IsUnchanged self.old self.new) }
        ensures same { IsOfSameSource self.old self.new }
    {
        if is_last(self.last, mark.offset) {
            return Ok(());
        }
        let source = self.tables.place_near(self.line, mark.offset);
        let count = count_on(self.count, &code[self.counted..mark.bytes]);
        self.tokens.reserve(1)?;
        let number = number_of(&mut self.names, &mut self.numbers, mark.name)?;
        self.tokens.push(token_at(count.place, source, number))?;
        self.counted = mark.bytes;
        self.count = count;
        self.last = Some(mark.offset);
        self.line = source.line;
        Ok(())
    }

    /// Adds a mark at the end of the output, unless its offset is the last one's.
    pub fn add_source_mapping(
        &mut self,
        output: &[u8],
        position: u32,
        name: Option<&'a str>,
    ) -> Result<(), Memory>
        requires utf8 { IsUtf8 output.now }
        requires offset { position ≤ length (source_of self.old) }
        requires grown { counted_bytes self.old ≤ length output.now }
        ensures ok { OnOk result (AddsMarks self.old self.new output.now (one_more (mark_at output.now position name.entry))) }
        ensures err { OnErr result (IsUnchanged self.old self.new) }
        ensures same { IsOfSameSource self.old self.new }
    {
        let mark = Mark {
            bytes: output.len(),
            offset: position,
            name,
        };
        self.add_mark(output, mark)
    }

    /// Adds the mark of a name that is printed as `name`: none for an empty span. What the source has there is the mark's name, where that is another text.
    pub fn add_source_mapping_for_name(
        &mut self,
        output: &[u8],
        span: Span,
        name: &str,
    ) -> Result<(), Memory>
        requires utf8 { IsUtf8 output.now }
        requires span { IsSpanOf (source_of self.old) span }
        requires grown { counted_bytes self.old ≤ length output.now }
        ensures ok { OnOk result (AddsMarks self.old self.new output.now (with_name_mark (source_of self.old) output.now span name.now)) }
        ensures err { OnErr result (IsUnchanged self.old self.new) }
        ensures same { IsOfSameSource self.old self.new }
    {
        if span.start == span.end {
            return Ok(());
        }
        let source_name = other_name(text_of(self.source, span), name);
        self.add_source_mapping(output, span.start, source_name)
    }

    /// The same for a private name, which is printed as `#` and `name`.
    pub fn add_source_mapping_for_private_name(
        &mut self,
        output: &[u8],
        span: Span,
        name: &str,
    ) -> Result<(), Memory>
        requires utf8 { IsUtf8 output.now }
        requires span { IsSpanOf (source_of self.old) span }
        requires grown { counted_bytes self.old ≤ length output.now }
        ensures ok { OnOk result (AddsMarks self.old self.new output.now
            (with_name_mark (source_of self.old) output.now span (codes "#" ++ name.now))) }
        ensures err { OnErr result (IsUnchanged self.old self.new) }
        ensures same { IsOfSameSource self.old self.new }
    {
        if span.start == span.end {
            return Ok(());
        }
        let source_name = other_private_name(text_of(self.source, span), name);
        self.add_source_mapping(output, span.start, source_name)
    }

    /// The map of the marks.
    pub fn into_sourcemap(self) -> SourceMap<'a>
        ensures map { IsMapOf self.entry result }
        ensures path { string_bytes result.source_name ≡ path_of self.entry }
        ensures source { result.source_content.now ≡ source_of self.entry }
    {
        SourceMap {
            source_name: self.source_name,
            source_content: self.source,
            names: self.names,
            tokens: self.tokens,
        }
    }
}

// What the source has in a span.
fn text_of<'a>(source: &'a str, span: Span) -> &'a str
    requires { IsSpanOf source.now span }
    ensures { result.now ≡ source_text source.now span }
{
    &source[span.start as usize..span.end as usize]
}

// The name of a mark, where the source has another text than what is printed.
fn other_name<'a>(source_name: &'a str, printed: &str) -> Option<&'a str>
    ensures { option_copied result ≡ other_name source_name.now printed.now }
{
    if source_name == printed {
        None
    } else {
        Some(source_name)
    }
}

fn other_private_name<'a>(source_name: &'a str, printed: &str) -> Option<&'a str>
    ensures { option_copied result ≡ other_name source_name.now (codes "#" ++ printed.now) }
{
    if is_private(source_name.as_bytes(), printed.as_bytes()) {
        None
    } else {
        Some(source_name)
    }
}

// Whether the text is `#` and the name.
fn is_private(text: &[u8], name: &[u8]) -> bool
    ensures { result ≡ bytes_eq text.now (codes "#" ++ name.now) }
{
    match text.split_first() {
        Some((first, rest)) => *first == b'#' && rest == name,
        None => false,
    }
}

fn is_last(last: Option<u32>, offset: u32) -> bool
    ensures { result ≡ is_last last offset }
{
    match last {
        None => false,
        Some(last) => last == offset,
    }
}
