//! What the checker and the printer ask of a node, whatever set it is a child of: what stands within its parentheses, which declaration,
//! function or class it is, which name, and whether it is a negative number.
#![tactic(auto)]

mod inside;
mod kinds;
mod names;
mod numbers;

pub use inside::{Inner, inner_expression, inside_parentheses};
pub use kinds::{as_function, class_head, declared_kind};
pub use names::{bound, looked_up, reference, written_name};
pub use numbers::is_negative;
