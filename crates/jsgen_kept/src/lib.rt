//! The rows of a job as they are kept while it is read, and the children that are made of them.
#![tactic(auto)]

pub mod asked;
mod child_nodes;
mod child_sets;
mod child_types;
pub mod kept;
mod members;
pub mod others;
