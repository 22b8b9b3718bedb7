// From the bytes of a job to what is asked of it, in a buffer, or to what is wrong.
ghost use Rattle.jsgen_jobs.specs.LegalText.{legal_bytes};
ghost use Rattle.jsgen_jobs.specs.MapText.{map_bytes};
ghost use Rattle.jsgen_c.specs.Outcome.{Placed, Filled, Answered, Printed, Checked};

use crate::outcome::Outcome;
use jsgen::{JobFault, check_job, legal_job, map_job, print_job};
use jsgen_tool::LIMIT;
use std::alloc::Global;

// Puts a text at the start of a buffer, where it fits.
fn place(text: &[u8], buffer: &mut [u8]) -> Outcome
    ensures { Placed result text.now buffer.old buffer.new }
{
    let length = text.len();
    if buffer.len() < length {
        return Outcome::TooSmall(length);
    }
    buffer[..length].copy_from_slice(text);
    Outcome::Done(length)
}

// Puts an answer there, or says what is wrong.
fn fill(answer: Result<String, JobFault>, buffer: &mut [u8]) -> Outcome
    ensures { Filled answer result buffer.old buffer.new }
{
    match answer {
        Ok(text) => place(text.as_bytes(), buffer),
        Err(fault) => Outcome::Faulty(fault),
    }
}

/// Prints the program of a job into a buffer.
pub fn print(alloc: Global, job: &[u8], buffer: &mut [u8]) -> Outcome
    ensures { Printed result job.now buffer.old buffer.new }
{
    if job.len() > LIMIT {
        return Outcome::TooLong;
    }
    fill(print_job(alloc, job), buffer)
}

/// Writes the lines of a job's source map into a buffer.
pub fn map(alloc: Global, job: &[u8], buffer: &mut [u8]) -> Outcome
    ensures { Answered map_bytes result job.now buffer.old buffer.new }
{
    if job.len() > LIMIT {
        return Outcome::TooLong;
    }
    fill(map_job(alloc, job), buffer)
}

/// Writes the lines of a job's licences that stand in a file of their own into a buffer.
pub fn legal(alloc: Global, job: &[u8], buffer: &mut [u8]) -> Outcome
    ensures { Answered legal_bytes result job.now buffer.old buffer.new }
{
    if job.len() > LIMIT {
        return Outcome::TooLong;
    }
    fill(legal_job(alloc, job), buffer)
}

/// Whether the bytes are a job that keeps the rules.
pub fn check(alloc: Global, job: &[u8]) -> Outcome
    ensures { Checked result job.now }
{
    if job.len() > LIMIT {
        return Outcome::TooLong;
    }
    match check_job(alloc, job) {
        Ok(()) => Outcome::Done(0),
        Err(fault) => Outcome::Faulty(fault),
    }
}
