//! Spans, operators and their levels, names and reserved words, and the text that a printer writes.
#![tactic(auto)]

mod buffer;
mod code_points;
mod escape;
mod js_str;
mod laws;
mod line;
mod memory;
mod name;
mod operator;
mod precedence;
mod quote;
mod span;

pub use buffer::{CodeBuffer, IndentChar};
pub use escape::NonAsciiEscape;
pub use js_str::JsStr;
pub use laws::equality_is_by_value;
pub use line::is_line_terminator;
pub use memory::Memory;
pub use name::{is_name, is_reserved, is_strict_reserved};
pub use operator::{
    AssignmentOperator, BinaryOperator, LogicalOperator, UnaryOperator, UpdateOperator,
};
pub use precedence::{GetPrecedence, Precedence, levels_are_ordered};
pub use quote::Quote;
pub use span::{SourceKind, Span};
