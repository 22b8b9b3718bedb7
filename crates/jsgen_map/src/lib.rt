//! Source maps: the lines and columns of a text, and what a map says of the marks of an output.
#![tactic(auto)]

mod builder;
mod count;
mod laws;
mod lines;
mod marks;
mod names;
mod position;
mod source_map;
mod tables;

pub use builder::SourcemapBuilder;
pub use laws::{counts_places, worked_marks, worked_offsets};
pub use marks::map_of_marks;
pub use source_map::{Mark, SourceMap, Token};
pub use tables::{ColumnOffsets, Line, LineOffsetTables};
