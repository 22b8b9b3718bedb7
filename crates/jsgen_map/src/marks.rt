// The map of a list of marks.
ghost use Rattle.std.specs.Prelude.{◌≡◌, ◌^◌, ◌<◌, length, map, IfOk, string_bytes};
ghost use Rattle.jsgen_map.specs.Marks.{AreMarks, MapOf};
ghost use Rattle.jsgen_map.specs.Names.{texts};
ghost use Rattle.jsgen_map.specs.Plain.{mark_plain};

use crate::builder::SourcemapBuilder;
use crate::source_map::{Mark, SourceMap};
use jsgen_syntax::Memory;
use std::alloc::Global;

/// The map of a code with these marks.
pub fn map_of_marks<'a>(
    alloc: Global,
    path: &str,
    source: &'a str,
    code: &[u8],
    marks: &[Mark<'a>],
) -> Result<SourceMap<'a>, Memory>
    requires source { length source.now < 2 ^ 32 }
    requires marks { AreMarks code.now source.now (map mark_plain marks.now) }
    ensures map { IfOk result (λ m. MapOf code.now source.now (map mark_plain marks.now) (texts m.names.items) m.tokens.items) }
    ensures path { IfOk result (λ m. string_bytes m.source_name ≡ path.now) }
    ensures content { IfOk result (λ m. m.source_content.now ≡ source.now) }
{
    let mut builder = SourcemapBuilder::new(alloc, path, source)?;
    for mark in marks {
        builder.add_mark(code, *mark)?;
    }
    Ok(builder.into_sourcemap())
}
