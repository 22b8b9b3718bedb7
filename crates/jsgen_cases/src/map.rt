// What calls of a builder of maps put into one, and where offsets stand in a source.
use crate::push::push_each;
use jsgen_map::{LineOffsetTables, SourcemapBuilder};
use jsgen_map_text::map_text;
use jsgen_syntax::{Memory, Span};
use std::alloc::Global;

/// The map that a builder gives after two calls.
pub fn push_map(alloc: Global, calls: &str, answer: &mut String) -> Result<(), Memory> {
    let builder = match calls {
        "names" => add_names(alloc),
        "private names" => add_private_names(alloc),
        _ => add_positions(alloc),
    };
    let map = builder?.into_sourcemap();
    let text = map_text(alloc, &map)?;
    push_each(answer, &[&text])
}

// The source `ab` is printed as `ac`.
fn add_names(alloc: Global) -> Result<SourcemapBuilder<'static>, Memory> {
    let mut builder = SourcemapBuilder::new(alloc, "x.js", "ab")?;
    builder.add_source_mapping_for_name(b"", Span { start: 0, end: 1 }, "a")?;
    builder.add_source_mapping_for_name(b"a", Span { start: 1, end: 2 }, "c")?;
    Ok(builder)
}

// The source `#a#b` is printed as `#a#c`.
fn add_private_names(alloc: Global) -> Result<SourcemapBuilder<'static>, Memory> {
    let mut builder = SourcemapBuilder::new(alloc, "x.js", "#a#b")?;
    builder.add_source_mapping_for_private_name(b"", Span { start: 0, end: 2 }, "a")?;
    builder.add_source_mapping_for_private_name(b"#a", Span { start: 2, end: 4 }, "c")?;
    Ok(builder)
}

// Two places of the source `ab`, the later one first.
fn add_positions(alloc: Global) -> Result<SourcemapBuilder<'static>, Memory> {
    let mut builder = SourcemapBuilder::new(alloc, "x.js", "ab")?;
    builder.add_source_mapping(b"", 1, None)?;
    builder.add_source_mapping(b"", 0, None)?;
    Ok(builder)
}

/// The line and the column of each of these offsets in a source.
pub fn push_places(
    alloc: Global,
    offsets: &str,
    source: &str,
    answer: &mut String,
) -> Result<(), Memory> {
    if source.len() > 1000 {
        return Ok(answer.push_str("too long")?);
    }
    let tables = LineOffsetTables::new(alloc, source)?;
    for offset in offsets.split(' ') {
        let (line, column) = tables.line_column(offset.parse().unwrap_or(0));
        let place = format!(in alloc; " {line}:{column}")?;
        answer.push_str(&place)?;
    }
    Ok(())
}
