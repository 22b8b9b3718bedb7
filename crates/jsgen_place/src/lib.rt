//! Where a node is printed: how tightly what stands there binds, and what is forbidden there.
#![tactic(auto)]

mod place;
mod shape;

pub use place::{Context, Place, update_level};
pub use shape::Shape;
