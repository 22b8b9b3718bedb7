// How a call ended.
ghost use Rattle.std.specs.Prelude.{◌≡◌};
ghost use Rattle.jsgen_c.specs.Numbers.{status_of, numbers_of};

use crate::answer::Answer;
use jsgen::JobFault;
use jsgen_tool::Status;

/// How a call ended.
#[derive(Clone, Copy, Debug, PartialEq, Eq)]
pub enum Outcome {
    /// It is done: the text, which has so many bytes, is in the buffer, or the job keeps the rules.
    Done(usize),
    /// The text, which has so many bytes, is longer than the buffer.
    TooSmall(usize),
    /// The bytes are no job, or the job breaks a rule, or memory ran out.
    Faulty(JobFault),
    /// The job is longer than the limit.
    TooLong,
}

impl Outcome {
    /// The status that C is told: that of the program, where it has one.
    pub fn status(self) -> u32
        ensures { result ≡ status_of self }
    {
        let status = match self {
            Outcome::TooSmall(_) => return 8,
            Outcome::Done(_) => Status::Done,
            Outcome::Faulty(JobFault::NotJob(fault)) => Status::NotJob(fault),
            Outcome::Faulty(JobFault::Refused(fault)) => Status::Refused(fault),
            Outcome::Faulty(JobFault::Memory) => Status::Memory,
            Outcome::TooLong => Status::TooLong,
        };
        status.code() as u32
    }

    /// The other numbers.
    pub fn answer(self) -> Answer
        ensures { result ≡ numbers_of self }
    {
        match self {
            Outcome::Done(length) => Answer::of_text(length),
            Outcome::TooSmall(length) => Answer::of_text(length),
            Outcome::Faulty(JobFault::NotJob(fault)) => Answer::of_fault(fault),
            Outcome::Faulty(JobFault::Refused(fault)) => Answer::of_rule(fault),
            Outcome::Faulty(JobFault::Memory) => Answer::nothing(),
            Outcome::TooLong => Answer::nothing(),
        }
    }
}
