//! What printing means, as definitions: how nodes are spelled, how a text is laid out, which trees are valid.
#![tactic(auto)]

mod fault;
mod laws;

pub use fault::TreeFault;
pub use laws::{core_by_types, kept_classes_are_enough, plain_by_types, plain_is_core};
