//! Comments that wait to be printed, in groups by the offsets that they belong to, and their texts.
#![tactic(auto)]

mod annotations;
mod comments;
mod legal;
mod text;

pub use annotations::AnnotationKind;
pub use comments::{Comments, CommentsMap, Group};
pub use legal::licences;
pub use text::{first_line, text_at, text_of};
