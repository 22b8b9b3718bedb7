// Generated from tools/nodes/table.txt; edit that and run tools/nodes/generate.
//! Rows of a job, by the files of the table of nodes.
#![tactic(auto)]

pub mod assignments;
pub mod collections;
pub mod expressions;
pub mod functions;
mod literals;
pub mod operations;
pub mod templates;
