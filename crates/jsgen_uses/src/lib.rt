//! A caller of jsgen: one statement, built as a compiler of templates would, checked and printed.
#![tactic(auto)]

mod build;
mod log;

pub use log::{LogError, log_statement};
