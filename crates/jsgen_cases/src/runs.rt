// Runs of the program over devices.
ghost use Rattle.std.specs.Prelude.{◌≡◌, ◌⊎◌, Some};
ghost use Rattle.jsgen_tool.specs.Answers.{IsPrint};
ghost use Rattle.jsgen_jobs.specs.Job.{IsSomeJob};
ghost use Rattle.jsgen_device.specs.Memory.{source_left, source_faults};
ghost use Rattle.jsgen_tool.specs.Transfer.{IsWithin};

use jsgen::Library;
use jsgen_device::{Failed, MemSink, MemSource, Source, StdSink, StdSource, SureSink, SureSource};
use jsgen_syntax::Memory;
use jsgen_tool::{LIMIT, Status, run};
use std::alloc::Global;

// A run's status and its text, and behind a bar its line.
fn push_seen(
    alloc: Global,
    status: Status,
    out: &[u8],
    err: &[u8],
    answer: &mut String,
) -> Result<(), Memory> {
    let out = str::from_utf8(out).unwrap_or("no UTF-8");
    let err = str::from_utf8(err).unwrap_or("no UTF-8");
    let said = format!(in alloc; "{} {out}|{err}", status.code())?;
    Ok(answer.push_str(&said)?)
}

// The words of a command line, with a space between each two.
fn words_of(alloc: Global, line: &str) -> Result<Vec<String>, Memory> {
    let mut words = Vec::new(alloc);
    for word in line.split(' ') {
        if !word.is_empty() {
            words.push(word.to_string(alloc)?)?;
        }
    }
    Ok(words)
}

/// What a run gives whose devices have room, and don't fail.
pub fn push_sure_run(
    alloc: Global,
    word: &str,
    input: &str,
    answer: &mut String,
) -> Result<(), Memory> {
    let words = words_of(alloc, word)?;
    let mut source = SureSource::new(input.as_bytes().to_vec(alloc)?);
    let mut out = SureSink::new(alloc, 1000)?;
    let mut err = SureSink::new(alloc, 100)?;
    let status = run::<Library, _, _>(alloc, &words, &mut source, &mut out, &mut err);
    push_seen(alloc, status, out.bytes(), err.bytes(), answer)
}

// A source that gives at most seven bytes a call.
#[derive(Drop)]
struct Trickle {
    inner: MemSource,
}

impl Source for Trickle {
    ghost left = { λ s. Some (source_left s.inner) };

    ghost faults = { λ s. source_faults s.inner };

    fn pull(&mut self, into: &mut [u8]) -> Result<usize, Failed> {
        let count = into.len().min(7);
        self.inner.pull(&mut into[..count])
    }
}

// Over a source and sinks that are told: at which call they fail, how many bytes that call takes before, and for how many tens
// of bytes there is room.
fn push_told_run<S: Source + Drop>(
    alloc: Global,
    words: &[String],
    source: S,
    told: [u8; 3],
    answer: &mut String,
) -> Result<(), Memory> {
    let [push, takes, room] = told;
    let room = usize::from(room) * 10;
    let pushes = vec![in alloc; (u64::from(push), usize::from(takes))]?;
    let mut source = source;
    let mut out = MemSink::new(alloc, room, pushes)?;
    let mut err = MemSink::new(alloc, room, Vec::new(alloc))?;
    let status = run::<Library, _, _>(alloc, words, &mut source, &mut out, &mut err);
    push_seen(alloc, status, out.bytes(), err.bytes(), answer)
}

// Over a reader and writers of std.
fn push_std_run(
    alloc: Global,
    words: &[String],
    input: &[u8],
    answer: &mut String,
) -> Result<(), Memory> {
    let mut text = Vec::<u8>::new(alloc);
    let mut line = Vec::<u8>::new(alloc);
    let mut source = StdSource::new(input);
    let mut out = StdSink::new(&mut text);
    let mut err = StdSink::new(&mut line);
    let status = run::<Library, _, _>(alloc, words, &mut source, &mut out, &mut err);
    push_seen(alloc, status, &text, &line, answer)
}

// The bytes that a line stands for.
fn input_of(alloc: Global, line: &str) -> Result<Vec<u8>, Memory> {
    let (spaces, bytes): (usize, &[u8]) = match line {
        "no UTF-8" => (0, b"{\"rows\":\"\xff\"}"),
        "spaces" => (LIMIT, b""),
        "more spaces" => (LIMIT + 1, b""),
        _ => (0, line.as_bytes()),
    };
    let mut input = vec![in alloc; b' '; spaces]?;
    input.extend_from_slice(bytes)?;
    Ok(input)
}

// The digit that stands there, and otherwise 0.
fn digit(text: &str, at: usize) -> u8 {
    let c = text.as_bytes().get(at).copied().unwrap_or(b'0');
    c.saturating_sub(b'0')
}

/// What a run gives: over which devices stands first, with the digits that these are told, and then the words.
pub fn push_run(alloc: Global, how: &str, input: &str, answer: &mut String) -> Result<(), Memory> {
    let (devices, words) = how.split_once(' ').unwrap_or((how, ""));
    let words = words_of(alloc, words)?;
    let input = input_of(alloc, input)?;
    if devices == "std" {
        return push_std_run(alloc, &words, &input, answer);
    }
    let source = MemSource::new(input, vec![in alloc; u64::from(digit(devices, 1))]?);
    let told = [digit(devices, 2), digit(devices, 3), digit(devices, 4)];
    if devices.starts_with('m') {
        return push_told_run(alloc, &words, source, told, answer);
    }
    push_told_run(alloc, &words, Trickle { inner: source }, told, answer)
}

// What the clauses of `run` give a caller whose devices cannot fail: a job that keeps the rules is printed,
// unless memory or the sink's room ends.
fn print_surely(
    alloc: Global,
    words: &[String],
    job: Vec<u8>,
    out: &mut SureSink,
    err: &mut SureSink,
) -> Status
    requires print { IsPrint words.now }
    requires within { IsWithin job.items }
    requires job { IsSomeJob job.items }
    ensures { (result ≡ Status.Done) ⊎ ((result ≡ Status.Memory) ⊎ (result ≡ Status.WriteFault)) }
{
    let mut source = SureSource::new(job);
    run::<Library, _, _>(alloc, words, &mut source, out, err)
}
