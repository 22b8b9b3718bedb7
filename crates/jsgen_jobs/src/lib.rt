//! What the bytes of a job are answered with: the definitions, why there is no text, and what gives the answers.
#![tactic(auto)]

ghost use Rattle.std.specs.Prelude.{Some};
ghost use Rattle.jsgen_jobs.specs.Job.{Verdict, Answers, AnswersBy, Tells};
ghost use Rattle.jsgen_jobs.specs.MapText.{map_bytes};
ghost use Rattle.jsgen_jobs.specs.LegalText.{legal_bytes};
ghost use Rattle.jsgen_jobs.specs.Texts.{job_fault_text};

use jsgen_fields::InputFault;
use jsgen_model::TreeFault;
use std::alloc::Global;
use std::error::Error;
use std::fmt;

/// Why a job has no text.
#[derive(Clone, Copy, Debug, PartialEq, Eq)]
pub enum JobFault {
    /// The bytes are no job. It isn't want of memory.
    NotJob(InputFault),
    /// The job breaks a rule.
    Refused(TreeFault),
    /// Memory ran out, which may come in place of any answer.
    Memory,
}

impl fmt::Display for JobFault {
    ghost output = { λ fault. Some (job_fault_text fault) };

    fn fmt<W: fmt::Write>(&self, f: &mut fmt::Formatter<W>) -> fmt::Result {
        match self {
            JobFault::NotJob(fault) => write!(f, "not a job: {fault}"),
            JobFault::Refused(fault) => write!(f, "refused: {fault}"),
            JobFault::Memory => f.write_str("out of memory"),
        }
    }
}

impl Error for JobFault {}

/// All that is made of a job.
#[derive(Drop)]
pub struct Built {
    /// The text of its program.
    pub code: String,
    /// The lines of its source map; none where no path is set for one.
    pub map: String,
    /// The lines of its licences that stand in a file of their own; none where the options have them elsewhere.
    pub licences: String,
}

/// What prints and checks jobs. Which of the broken rules of a job is told, by all calls alike, and when memory runs out, is all
/// that it may choose.
pub trait PrintJobs {
    ghost use Rattle.std.specs.Prelude.{Result};
    ghost use Rattle.jsgen_tree.specs.Job.{JobData};
    ghost use Rattle.jsgen_model.specs.declared.fault.TreeFault.{TreeFault};

    /// The verdict on a job: Ok, or the rule that is told of it.
    ghost judged: { JobData → Result (Unit {0}) TreeFault };

    /// The text of a job.
    fn print_job(alloc: Global, bytes: &[u8]) -> Result<String, JobFault>
        ensures answer { Answers bytes.now result }
        ensures rule { Tells judged bytes.now result };

    /// The lines of a job's source map; nothing where no path is set for one.
    fn map_job(alloc: Global, bytes: &[u8]) -> Result<String, JobFault>
        ensures answer { AnswersBy map_bytes bytes.now result }
        ensures rule { Tells judged bytes.now result };

    /// The lines of a job's licences that stand in a file of their own; nothing where the options have them elsewhere.
    fn legal_job(alloc: Global, bytes: &[u8]) -> Result<String, JobFault>
        ensures answer { AnswersBy legal_bytes bytes.now result }
        ensures rule { Tells judged bytes.now result };

    /// Whether the bytes are a job that keeps the rules, or what is wrong.
    fn check_job(alloc: Global, bytes: &[u8]) -> Result<(), JobFault>
        ensures verdict { Verdict bytes.now result }
        ensures rule { Tells judged bytes.now result };
}
