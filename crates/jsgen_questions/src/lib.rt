//! What a print function asks of a node or of its members, and what an operation asks of its operands.
#![tactic(auto)]

mod endings;
mod names;
mod numbers;
mod operands;
mod properties;
mod quotes;
mod strings;

pub use endings::ends_open;
pub use names::{bare_looked_up, is_binding_name, is_member, is_named};
pub use numbers::{needs_brackets, takes_no_dot};
pub use operands::{Operand, left_level, operand_of, right_level, unmixed};
pub use properties::is_alone;
pub use quotes::{is_definition_call, is_export_mark, is_require_call};
pub use strings::{bare_string, inner_span, inner_string, inside_span, string, string_statement};
