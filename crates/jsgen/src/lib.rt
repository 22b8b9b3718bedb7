//! The printer's public calls, beside those of the checker of trees and the reader of jobs, from a job's bytes to its text, and
//! the types of trees: what a caller needs comes from here.
#![tactic(auto)]

mod codegen;
mod gens;
mod impls;
mod jobs;
mod laws;
mod licences;
mod mapped;

pub use codegen::{Codegen, CodegenError, CodegenReturn};
pub use gens::{Gen, GenExpr};
pub use jobs::{Library, build_job, check_job, legal_job, map_job, print_job};
pub use jsgen_fields::{At, InputFault};
pub use jsgen_jobs::{Built, JobFault, PrintJobs};
pub use jsgen_map::{SourceMap, Token};
pub use jsgen_model::{TreeFault, plain_by_types};
pub use jsgen_printer::{AnnotationKind, CommentsMap, Context, Operator};
pub use jsgen_rows::{Job, job_faults_are_told, read_job};
pub use jsgen_syntax::{
    AssignmentOperator, BinaryOperator, IndentChar, JsStr, LogicalOperator, Memory, Precedence,
    SourceKind, Span, UnaryOperator, UpdateOperator, is_name, is_reserved, is_strict_reserved,
};
pub use jsgen_tree as tree;
pub use jsgen_tree::{CodegenOptions, CommentOptions, LegalComment, PrivateMappings, Scoping};
pub use laws::{jobs_core_by_types, jobs_plain_by_types};
