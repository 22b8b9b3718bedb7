// Generated from tools/nodes/table.txt; edit that and run tools/nodes/generate.
//! Rows of the table of nodes, printed by their spelling.
#![tactic(auto)]

mod patterns;

pub use patterns::{print_assignment_pattern, print_binding_rest_element};
