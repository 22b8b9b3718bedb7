// The top call: from the words of a command to its status.
ghost use Rattle.std.specs.Prelude.{◌≡◌, ◌↔◌, ◌+◌, [], ◌∷◌, map, string_bytes, IsTrue, IfSome};
ghost use Rattle.jsgen_tree.specs.Job.{JobData};
ghost use Rattle.jsgen_model.specs.Plain.{IsCore, IsPlain, IsQuiet};
ghost use Rattle.jsgen_tool.specs.Headline.{CorePrints, HoldsJob, Prints};
ghost use Rattle.jsgen_jobs.specs.Job.{AnswersBy, Tells};
ghost use Rattle.jsgen_jobs.specs.MapText.{map_bytes};
ghost use Rattle.jsgen_jobs.specs.LegalText.{legal_bytes};
ghost use Rattle.jsgen_model.specs.Spell.{text_bytes};
ghost use Rattle.jsgen_tool.specs.Answers.{IsPrint, IsMap, IsLegal, IsWriting, IsCommand, InputRow, TellsRule, OutputRow, SourceCount, OutCount, Due};
ghost use Rattle.jsgen_device.specs.Device.{Rose};
ghost use Rattle.jsgen_tool.specs.Transfer.{TakesAtMost, limit};
ghost use Rattle.jsgen_tool.specs.Lines.{Says, line_of};

use crate::line::say;
use crate::status::Status;
use crate::transfer::{Unread, push_all, read_all};
use jsgen_device::{Failed, Sink, Source};
use jsgen_fields::InputFault;
use jsgen_jobs::{JobFault, PrintJobs};
use std::alloc::Global;

// Whether the words are this one.
fn is_word(words: &[String], text: &str) -> bool
    ensures { IsTrue result ↔ (map string_bytes words.now ≡ text.now ∷ []) }
{
    match words {
        [word] => word.as_str() == text,
        _ => false,
    }
}

// What gives a text of jobs.
trait TextOfJobs {
    ghost use Rattle.std.specs.Prelude.{ℕ, List, Result};
    ghost use Rattle.jsgen_tree.specs.Job.{JobData};
    ghost use Rattle.jsgen_model.specs.declared.fault.TreeFault.{TreeFault};

    ghost judged: { JobData → Result (Unit {0}) TreeFault };

    ghost wanted: { JobData → List ℕ };

    fn text_of(alloc: Global, bytes: &[u8]) -> Result<String, JobFault>
        ensures answer { AnswersBy wanted bytes.now result }
        ensures rule { Tells judged bytes.now result };
}

// Of each job its printed program.
struct Programs<P> {
    printer: P,
}

impl<P: PrintJobs> TextOfJobs for Programs<P> {
    ghost judged = { P.judged };

    ghost wanted = { text_bytes };

    fn text_of(alloc: Global, bytes: &[u8]) -> Result<String, JobFault> {
        P::print_job(alloc, bytes)
    }
}

// Of each job the lines of its source map.
struct Maps<P> {
    printer: P,
}

impl<P: PrintJobs> TextOfJobs for Maps<P> {
    ghost judged = { P.judged };

    ghost wanted = { map_bytes };

    fn text_of(alloc: Global, bytes: &[u8]) -> Result<String, JobFault> {
        P::map_job(alloc, bytes)
    }
}

// Of each job the lines of its licences that stand in a file of their own.
struct Licences<P> {
    printer: P,
}

impl<P: PrintJobs> TextOfJobs for Licences<P> {
    ghost judged = { P.judged };

    ghost wanted = { legal_bytes };

    fn text_of(alloc: Global, bytes: &[u8]) -> Result<String, JobFault> {
        P::legal_job(alloc, bytes)
    }
}

fn write<T: TextOfJobs, S: Source, K: Sink>(alloc: Global, source: &mut S, out: &mut K) -> Status
    ensures usage { result ≡ Status.Usage → ⊥ }
    ensures read { SourceCount result (S.faults source.old) (S.faults source.new) }
    ensures write { OutCount result (K.faults out.old) (K.faults out.new) }
    ensures input { IfSome (S.left source.old) (InputRow result) }
    ensures rule { IfSome (S.left source.old) (TellsRule T.judged result) }
    ensures output { OutputRow T.wanted result (S.left source.old) (K.got out.old) (K.got out.new) }
    ensures memory { result ≡ Status.NotJob InputFault.Memory → ⊥ }
    ensures taken { TakesAtMost (limit + 1) (S.left source.old) (S.left source.new) }
{
    let bytes = match read_all(alloc, source) {
        Ok(bytes) => bytes,
        Err(Unread::Failed) => return Status::ReadFault,
        Err(Unread::TooLong) => return Status::TooLong,
        Err(Unread::Memory) => return Status::Memory,
    };
    let text = match T::text_of(alloc, &bytes) {
        Ok(text) => text,
        Err(JobFault::NotJob(fault)) => return Status::NotJob(fault),
        Err(JobFault::Refused(fault)) => return Status::Refused(fault),
        Err(JobFault::Memory) => return Status::Memory,
    };
    match push_all(out, text.as_bytes()) {
        Ok(()) => Status::Done,
        Err(Failed) => Status::WriteFault,
    }
}

fn check<P: PrintJobs, S: Source>(alloc: Global, source: &mut S) -> Status
    ensures usage { result ≡ Status.Usage → ⊥ }
    ensures write { result ≡ Status.WriteFault → ⊥ }
    ensures read { SourceCount result (S.faults source.old) (S.faults source.new) }
    ensures input { IfSome (S.left source.old) (InputRow result) }
    ensures rule { IfSome (S.left source.old) (TellsRule P.judged result) }
    ensures memory { result ≡ Status.NotJob InputFault.Memory → ⊥ }
    ensures taken { TakesAtMost (limit + 1) (S.left source.old) (S.left source.new) }
{
    let bytes = match read_all(alloc, source) {
        Ok(bytes) => bytes,
        Err(Unread::Failed) => return Status::ReadFault,
        Err(Unread::TooLong) => return Status::TooLong,
        Err(Unread::Memory) => return Status::Memory,
    };
    match P::check_job(alloc, &bytes) {
        Ok(()) => Status::Done,
        Err(JobFault::NotJob(fault)) => Status::NotJob(fault),
        Err(JobFault::Refused(fault)) => Status::Refused(fault),
        Err(JobFault::Memory) => Status::Memory,
    }
}

fn work<P: PrintJobs, S: Source, K: Sink>(
    alloc: Global,
    words: &[String],
    source: &mut S,
    out: &mut K,
) -> Status
    ensures usage { result ≡ Status.Usage ↔ (IsCommand words.now → ⊥) }
    ensures read { SourceCount result (S.faults source.old) (S.faults source.new) }
    ensures write { OutCount result (K.faults out.old) (K.faults out.new) }
    ensures input { IfSome (S.left source.old) (InputRow result) }
    ensures rule { IfSome (S.left source.old) (TellsRule P.judged result) }
    ensures output { IsPrint words.now → OutputRow text_bytes result (S.left source.old) (K.got out.old) (K.got out.new) }
    ensures map { IsMap words.now → OutputRow map_bytes result (S.left source.old) (K.got out.old) (K.got out.new) }
    ensures legal { IsLegal words.now → OutputRow legal_bytes result (S.left source.old) (K.got out.old) (K.got out.new) }
    ensures kept { (IsWriting words.now → ⊥) → (result ≡ Status.WriteFault → ⊥) × (out.new ≡ out.old) }
    ensures memory { result ≡ Status.NotJob InputFault.Memory → ⊥ }
    ensures taken { TakesAtMost (limit + 1) (S.left source.old) (S.left source.new) }
    ensures idle { result ≡ Status.Usage → source.new ≡ source.old }
{
    if is_word(words, "print") {
        return write::<Programs<P>, S, K>(alloc, source, out);
    }
    if is_word(words, "map") {
        return write::<Maps<P>, S, K>(alloc, source, out);
    }
    if is_word(words, "legal") {
        return write::<Licences<P>, S, K>(alloc, source, out);
    }
    if is_word(words, "check") {
        return check::<P, S>(alloc, source);
    }
    Status::Usage
}

/// Reads a job from the source, writes what the words ask for to `out`, and says on `err` what went wrong: for `print` the
/// job's text, for `map` the lines of its source map, for `legal` those of its licences that stand in a file of their own, and for
/// `check` nothing, so that the status alone tells whether the job keeps the rules. A text is complete before its first byte is
/// written. Where several things are wrong, the first of these is answered: the words, reading, the length, the job, the rules,
/// writing.
pub fn run<P: PrintJobs, S: Source, K: Sink>(
    alloc: Global,
    words: &[String],
    source: &mut S,
    out: &mut K,
    err: &mut K,
) -> Status
    ensures usage { result ≡ Status.Usage ↔ (IsCommand words.now → ⊥) }
    ensures read { SourceCount result (S.faults source.old) (S.faults source.new) }
    ensures write { OutCount result (K.faults out.old) (K.faults out.new) }
    ensures input { IfSome (S.left source.old) (InputRow result) }
    ensures rule { IfSome (S.left source.old) (TellsRule P.judged result) }
    ensures output { IsPrint words.now → OutputRow text_bytes result (S.left source.old) (K.got out.old) (K.got out.new) }
    ensures map { IsMap words.now → OutputRow map_bytes result (S.left source.old) (K.got out.old) (K.got out.new) }
    ensures legal { IsLegal words.now → OutputRow legal_bytes result (S.left source.old) (K.got out.old) (K.got out.new) }

    // Where the words ask for no text, nothing is written.
    ensures kept { (IsWriting words.now → ⊥) → (result ≡ Status.WriteFault → ⊥) × (out.new ≡ out.old) }

    // What comes where the words are a command and no read failed.
    ensures due { IsCommand words.now → (Rose (S.faults source.old) (S.faults source.new) → ⊥) →
        IfSome (S.left source.old) (λ bytes. Due (Rose (K.faults out.old) (K.faults out.new)) bytes result) }

    // What is printed is read back: for `print` and any job that the source holds, whose program keeps the rules
    // under its options and tables and is plain, and which is quiet.
    ensures prints { IsPrint words.now → (job : JobData) → HoldsJob (S.left source.old) job →
        IsPlain job.program → IsQuiet job →
        Prints (Rose (S.faults source.old) (S.faults source.new)) (Rose (K.faults out.old) (K.faults out.new))
        job (K.got out.old) (K.got out.new) result }

    // So is that of any such job that is core, plain or not: its text has a reading as its program.
    ensures core_prints { IsPrint words.now → (job : JobData) → HoldsJob (S.left source.old) job →
        IsCore job.program → IsQuiet job →
        CorePrints (Rose (S.faults source.old) (S.faults source.new)) (Rose (K.faults out.old) (K.faults out.new))
        job (K.got out.old) (K.got out.new) result }

    // Want of memory is `Status::Memory`, and no fault of the job.
    ensures memory { result ≡ Status.NotJob InputFault.Memory → ⊥ }
    ensures said { Says (K.got err.old) (K.got err.new) (K.faults err.old) (K.faults err.new) (line_of result) }
    ensures taken { TakesAtMost (limit + 1) (S.left source.old) (S.left source.new) }
    ensures idle { result ≡ Status.Usage → source.new ≡ source.old }
{
    let status = work::<P, S, K>(alloc, words, source, out);
    say(err, status);
    status
}
