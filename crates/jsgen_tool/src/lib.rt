//! The program over any source and sink: a job is read, and its text or what is wrong is written.
#![tactic(auto)]

mod line;
mod status;
mod top;
mod transfer;

pub use line::say;
pub use status::Status;
pub use top::run;
pub use transfer::{LIMIT, Unread, push_all, push_both, read_all};
