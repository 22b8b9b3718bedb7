//! The library as C calls it: the bytes of a job go in, and what is made of it goes into a buffer of the caller's. No call keeps
//! anything, and there is no state but what the caller hands in. bindings/c/jsgen.h declares these calls.
#![tactic(auto)]

mod answer;
mod fill;
mod laws;
mod outcome;
mod texts;

ghost use Rattle.jsgen_jobs.specs.LegalText.{legal_bytes};
ghost use Rattle.jsgen_jobs.specs.MapText.{map_bytes};
ghost use Rattle.jsgen_c.specs.Outcome.{Tells, Answered, Printed, Checked, IsReadBack};
ghost use Rattle.jsgen_c.specs.Texts.{TellsAll, BuiltInto};

use crate::answer::Answer;
use crate::fill::{check, legal, map, print};
use crate::texts::{BuildAnswer, build};
use std::alloc::Global;

/// Prints the program of a job into the buffer, and gives the status. What the other numbers of the answer are is told by it.
#[unsafe(no_mangle)]
pub extern "C" fn jsgen_print_job(
    alloc: Global,
    job: &[u8],
    buffer: &mut [u8],
    answer: &mut Answer,
) -> u32
    ensures printed { Tells result answer.new (λ outcome. Printed outcome job.now buffer.old buffer.new) }

    // The theorem: the text is read as the program of the job, where that is plain and quiet.
    ensures reads { IsReadBack result answer.new.text_length job.now buffer.new }
{
    let outcome = print(alloc, job, buffer);
    *answer = outcome.answer();
    outcome.status()
}

/// Writes the lines of a job's source map into the buffer: nothing where no path is set for one.
#[unsafe(no_mangle)]
pub extern "C" fn jsgen_map_job(
    alloc: Global,
    job: &[u8],
    buffer: &mut [u8],
    answer: &mut Answer,
) -> u32
    ensures mapped { Tells result answer.new (λ outcome. Answered map_bytes outcome job.now buffer.old buffer.new) }
{
    let outcome = map(alloc, job, buffer);
    *answer = outcome.answer();
    outcome.status()
}

/// Writes the lines of a job's licences that stand in a file of their own into the buffer: nothing where the options have them
/// elsewhere.
#[unsafe(no_mangle)]
pub extern "C" fn jsgen_legal_job(
    alloc: Global,
    job: &[u8],
    buffer: &mut [u8],
    answer: &mut Answer,
) -> u32
    ensures licensed { Tells result answer.new (λ outcome. Answered legal_bytes outcome job.now buffer.old buffer.new) }
{
    let outcome = legal(alloc, job, buffer);
    *answer = outcome.answer();
    outcome.status()
}

/// Reads a job once, and writes all that is made of it into the buffer, one text behind the other: its program, the lines of its source
/// map, and those of its licences that stand in a file of their own. How long each is the answer tells.
#[unsafe(no_mangle)]
pub extern "C" fn jsgen_build_job(
    alloc: Global,
    job: &[u8],
    buffer: &mut [u8],
    answer: &mut BuildAnswer,
) -> u32
    ensures built { TellsAll result answer.new (λ outcome. BuiltInto outcome job.now buffer.old buffer.new) }

    // The text of the program is read as the program of the job, as that of `jsgen_print_job` is.
    ensures reads { IsReadBack result answer.new.code_length job.now buffer.new }
{
    let outcome = build(alloc, job, buffer);
    *answer = outcome.answer();
    outcome.status()
}

/// Says by its status whether the bytes are a job that keeps the rules. No text is made.
#[unsafe(no_mangle)]
pub extern "C" fn jsgen_check_job(alloc: Global, job: &[u8], answer: &mut Answer) -> u32
    ensures checked { Tells result answer.new (λ outcome. Checked outcome job.now) }
{
    let outcome = check(alloc, job);
    *answer = outcome.answer();
    outcome.status()
}
