// All that is made of a job, one text behind the other in one buffer, or what is wrong.
ghost use Rattle.std.specs.Prelude.{◌≡◌, ◌≤◌, ◌<◌, ◌+◌, ◌++◌, length, take, drop, true, false};
ghost use Rattle.jsgen_c.specs.Numbers.{status_of, numbers_of};
ghost use Rattle.jsgen_c.specs.Outcome.{Placed};
ghost use Rattle.jsgen_c.specs.Texts.{no_lengths, total, as_one, with_lengths, build_numbers, in_a_row, lengths_of, HasLengths, AllFilled, BuiltInto};

use crate::answer::Answer;
use crate::outcome::Outcome;
use jsgen::{Built, JobFault, build_job};
use jsgen_tool::LIMIT;
use std::alloc::Global;

/// How many bytes the texts have that are made of a job.
#[derive(Clone, Copy, Debug, PartialEq, Eq)]
pub struct Lengths {
    pub code: usize,
    pub map: usize,
    pub licences: usize,
}

/// How a call that builds a job ended.
#[derive(Clone, Copy, Debug, PartialEq, Eq)]
pub enum BuildOutcome {
    /// It is done: the texts, which have so many bytes, are in the buffer.
    Done(Lengths),
    /// The texts, which have so many bytes, don't fit the buffer.
    TooSmall(Lengths),
    /// The bytes are no job, or the job breaks a rule, or memory ran out.
    Faulty(JobFault),
    /// The job is longer than the limit.
    TooLong,
}

/// The numbers of a call that builds a job, in a struct of the caller's. Those that the status and the rule don't speak of are 0.
#[derive(Clone, Copy, Debug, PartialEq, Eq)]
#[repr(C)]
pub struct BuildAnswer {
    /// The bytes of the text of the program, with which the buffer begins.
    pub code_length: usize,
    /// Those of the lines of the source map, which are behind it.
    pub map_length: usize,
    /// Those of the lines of the licences, which are behind these.
    pub legal_length: usize,
    /// A row of the job, where `has_row` is 1.
    pub row: usize,
    /// A field of that row, or else of the job's head.
    pub field: usize,
    pub has_row: u32,
    /// The start of the span of the node at which a rule is broken.
    pub start: u32,
    /// The rule that a tree breaks, or the fault by which bytes are no job.
    pub rule: u32,
}

impl Lengths {
    // Where there are no texts.
    fn nothing() -> Lengths
        ensures { result ≡ no_lengths }
    {
        Lengths {
            code: 0,
            map: 0,
            licences: 0,
        }
    }

    // Whether texts that have so many bytes fit a buffer, one behind the other.
    fn fit(self, room: usize) -> bool
        ensures yes { result ≡ true → total self ≤ room }
        ensures no { result ≡ false → room < total self }
    {
        if room < self.code {
            return false;
        }
        let rest = room - self.code;
        self.map <= rest && self.licences <= rest - self.map
    }
}

impl BuildOutcome {
    /// The status that C is told.
    pub fn status(self) -> u32
        ensures { result ≡ status_of (as_one self) }
    {
        self.without_lengths().status()
    }

    /// The other numbers.
    pub fn answer(self) -> BuildAnswer
        ensures { result ≡ build_numbers self }
    {
        let lengths = match self {
            BuildOutcome::Done(lengths) => lengths,
            BuildOutcome::TooSmall(lengths) => lengths,
            BuildOutcome::Faulty(_) => Lengths::nothing(),
            BuildOutcome::TooLong => Lengths::nothing(),
        };
        BuildAnswer::of(lengths, self.without_lengths().answer())
    }

    // An outcome that is told alike but for the lengths of texts.
    fn without_lengths(self) -> Outcome
        ensures status { status_of result ≡ status_of (as_one self) }
        ensures numbers { with_lengths no_lengths (numbers_of result) ≡ with_lengths no_lengths (numbers_of (as_one self)) }
    {
        match self {
            BuildOutcome::Done(_) => Outcome::Done(0),
            BuildOutcome::TooSmall(_) => Outcome::TooSmall(0),
            BuildOutcome::Faulty(fault) => Outcome::Faulty(fault),
            BuildOutcome::TooLong => Outcome::TooLong,
        }
    }
}

impl BuildAnswer {
    // The lengths of texts, and what else an answer tells.
    fn of(lengths: Lengths, answer: Answer) -> BuildAnswer
        ensures { result ≡ with_lengths lengths answer }
    {
        BuildAnswer {
            code_length: lengths.code,
            map_length: lengths.map,
            legal_length: lengths.licences,
            row: answer.row,
            field: answer.field,
            has_row: answer.has_row,
            start: answer.start,
            rule: answer.rule,
        }
    }
}

// Puts a text into a buffer behind what stands in its first bytes, and gives how many bytes there are up to its end.
fn put(text: &[u8], at: usize, buffer: &mut [u8]) -> usize
    requires { at + length text.now ≤ length buffer.old }
    ensures placed { buffer.new ≡ take at buffer.old ++ (text.now ++ drop (at + length text.now) buffer.old) }
    ensures end { result ≡ at + length text.now }
    ensures same { length buffer.new ≡ length buffer.old }
{
    let end = at + text.len();
    buffer[at..end].copy_from_slice(text);
    end
}

// Puts texts at the start of a buffer, one behind the other, where they all fit.
fn place_all(code: &[u8], map: &[u8], licences: &[u8], buffer: &mut [u8]) -> BuildOutcome
    ensures placed { Placed (as_one result) (in_a_row code.now map.now licences.now) buffer.old buffer.new }
    ensures lengths { HasLengths result (lengths_of code.now map.now licences.now) }
{
    let lengths = Lengths {
        code: code.len(),
        map: map.len(),
        licences: licences.len(),
    };
    if !lengths.fit(buffer.len()) {
        return BuildOutcome::TooSmall(lengths);
    }
    let end = put(code, 0, buffer);
    let end = put(map, end, buffer);
    put(licences, end, buffer);
    BuildOutcome::Done(lengths)
}

// Puts all texts of an answer there, or says what is wrong.
fn fill_all(answer: Result<Built, JobFault>, buffer: &mut [u8]) -> BuildOutcome
    ensures { AllFilled answer result buffer.old buffer.new }
{
    match answer {
        Ok(built) => place_all(
            built.code.as_bytes(),
            built.map.as_bytes(),
            built.licences.as_bytes(),
            buffer,
        ),
        Err(fault) => BuildOutcome::Faulty(fault),
    }
}

/// Writes all that is made of a job into a buffer.
pub fn build(alloc: Global, job: &[u8], buffer: &mut [u8]) -> BuildOutcome
    ensures { BuiltInto result job.now buffer.old buffer.new }
{
    if job.len() > LIMIT {
        return BuildOutcome::TooLong;
    }
    fill_all(build_job(alloc, job), buffer)
}
