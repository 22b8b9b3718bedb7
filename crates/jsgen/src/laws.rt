// Laws over the definitions, each the contract of a function with an empty body.
ghost use Rattle.jsgen_comment_laws.specs.Law.{CommentsStandIn};
ghost use Rattle.jsgen_model.specs.Plain.{IsCore, IsPlain, is_core_by_type, is_plain_by_type};
ghost use Rattle.jsgen_model.specs.Spell.{printed};
ghost use Rattle.jsgen_model.specs.Valid.{IsValid};
ghost use Rattle.jsgen_rows.specs.Job.{job_plain};
ghost use Rattle.jsgen_tree.specs.Everywhere.{Everywhere};

use jsgen_rows::Job;

/// The tree of a job that the reader gives is plain, so that a reading is promised of its text, where each node is of a type of
/// which one is promised and has no flag set of which none is.
pub fn jobs_plain_by_types(job: &Job)
    ensures { Everywhere is_plain_by_type (job_plain job.now).program → IsPlain (job_plain job.now).program }
{
    let _ = job;
}

/// And it is core where each node is that by its type and flags, and by what a tag sees.
pub fn jobs_core_by_types(job: &Job)
    ensures { Everywhere is_core_by_type (job_plain job.now).program → IsCore (job_plain job.now).program }
{
    let _ = job;
}

/// The comments of a job that the reader gives stand in its text, where the job keeps the rules: what `build` promises of them holds of
/// each text that is printed for the bytes of a job.
pub fn comments_of_jobs_stand(job: &Job)
    ensures { IsValid (job_plain job.now) → CommentsStandIn (job_plain job.now) (printed (job_plain job.now)) }
{
    let _ = job;
}
