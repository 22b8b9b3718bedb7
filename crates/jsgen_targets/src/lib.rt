// Generated from tools/nodes/table.txt; edit that and run tools/nodes/generate.
//! Rows of the table of nodes, printed by their spelling.
#![tactic(auto)]

mod targets;

pub use targets::{print_assignment_target_rest, print_assignment_target_with_default};
