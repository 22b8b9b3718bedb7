// From the bytes of a job to its text, or to what is wrong.
ghost use Rattle.std.specs.Prelude.{◌≡◌, false, flat_map, option_map, IfOk, string_bytes};
ghost use Rattle.jsgen_tree.specs.Options.{options_plain};
ghost use Rattle.jsgen_tree.specs.Scoping.{scoping_plain, private_plain};
ghost use Rattle.jsgen_jobs.specs.Job.{Reads, Verdict, Answers, AnswersBy, Tells};
ghost use Rattle.jsgen_jobs.specs.Built.{BuildsAll};
ghost use Rattle.jsgen_jobs.specs.LegalText.{legal_bytes, licence_line};
ghost use Rattle.jsgen_jobs.specs.MapText.{map_bytes};
ghost use Rattle.jsgen_model.specs.Spell.{text_bytes};
ghost use Rattle.jsgen_check.specs.Verdict.{told};
ghost use Rattle.jsgen_tree.specs.Plain.{program_plain};
ghost use Rattle.jsgen.specs.Codegen.{options_of, tables_of, job_for, has_printed};
ghost use Rattle.jsgen.specs.Answer.{VerdictOn, AnswersOn, BuildsOn};
ghost use Rattle.jsgen.specs.Licences.{rows_plain};
ghost use Rattle.jsgen.specs.Mapped.{lines_of};

use crate::codegen::{Codegen, CodegenReturn};
use crate::licences::licence_lines;
use jsgen_fields::InputFault;
use jsgen_jobs::{Built, JobFault, PrintJobs};
use jsgen_map::SourceMap;
use jsgen_map_text::map_text;
use jsgen_model::TreeFault;
use jsgen_rows::{Job, read_job};
use jsgen_syntax::Memory;
use jsgen_tree::{CodegenOptions, PrivateMappings, Program, Scoping};
use std::alloc::Global;

fn lent_scoping(scoping: &Option<Scoping>) -> Option<&Scoping>
    ensures { option_map (λ s. scoping_plain s.now) result ≡ option_map scoping_plain scoping.now }
{
    match scoping {
        Some(scoping) => Some(scoping),
        None => None,
    }
}

fn lent_mappings(mappings: &Option<PrivateMappings>) -> Option<&PrivateMappings>
    ensures { option_map (λ p. private_plain p.now) result ≡ option_map private_plain mappings.now }
{
    match mappings {
        Some(mappings) => Some(mappings),
        None => None,
    }
}

// A printer under a job's options and by its tables.
fn printer_for<'a>(
    alloc: Global,
    options: CodegenOptions,
    scoping: &'a Option<Scoping>,
    private: &'a Option<PrivateMappings>,
) -> Codegen<'a>
    ensures options { options_of result ≡ options_plain options }
    ensures scoping { (tables_of result).scoping ≡ option_map scoping_plain scoping.now }
    ensures private { (tables_of result).private ≡ option_map private_plain private.now }
    ensures printed { has_printed result ≡ false }
{
    Codegen::new(alloc)
        .with_options(options)
        .with_scoping(lent_scoping(scoping))
        .with_private_member_mappings(lent_mappings(private))
}

fn job_in(alloc: Global, bytes: &[u8]) -> Result<Job, JobFault>
    ensures read { Reads bytes.now result }
    ensures rule { Tells told bytes.now result }
{
    match read_job(alloc, bytes) {
        Ok(job) => Ok(job),
        Err(InputFault::Memory) => Err(JobFault::Memory),
        Err(fault) => Err(JobFault::NotJob(fault)),
    }
}

// Whether the program keeps the rules under the printer's options and by its tables.
fn verdict_on(printer: Codegen<'_>, program: &Program) -> Result<(), JobFault>
    ensures { VerdictOn (job_for printer.entry (program_plain program.now)) result }
{
    match printer.check(program) {
        Ok(()) => Ok(()),
        Err(fault) => Err(JobFault::Refused(fault)),
    }
}

// The text of a program that keeps them.
fn text_of<'a>(printer: Codegen<'a>, program: &'a Program) -> Result<String, JobFault>
    requires { has_printed printer ≡ false }
    ensures { AnswersOn text_bytes (job_for printer.entry (program_plain program.now)) result }
{
    if let Err(fault) = printer.check(program) {
        return Err(JobFault::Refused(fault));
    }
    match printer.build(program) {
        Ok(printed) => Ok(printed.code),
        Err(_) => Err(JobFault::Memory),
    }
}

// The lines of its source map.
fn map_text_of<'a>(
    alloc: Global,
    printer: Codegen<'a>,
    program: &'a Program,
) -> Result<String, JobFault>
    requires { has_printed printer ≡ false }
    ensures { AnswersOn map_bytes (job_for printer.entry (program_plain program.now)) result }
{
    if let Err(fault) = printer.check(program) {
        return Err(JobFault::Refused(fault));
    }
    match printer.build(program) {
        Ok(printed) => match lines_of(alloc, &printed.map) {
            Ok(lines) => Ok(lines),
            Err(_) => Err(JobFault::Memory),
        },
        Err(_) => Err(JobFault::Memory),
    }
}

// The lines of a map, and nothing where there is none.
fn lines_of(alloc: Global, map: &Option<SourceMap<'_>>) -> Result<String, Memory>
    ensures { IfOk result (λ s. string_bytes s ≡ lines_of map.now) }
{
    match map {
        Some(map) => map_text(alloc, map),
        None => Ok(String::new(alloc)),
    }
}

// The lines of its licences that stand in a file of their own.
fn legal_text_of<'a>(
    alloc: Global,
    printer: Codegen<'a>,
    program: &'a Program,
) -> Result<String, JobFault>
    requires { has_printed printer ≡ false }
    ensures { AnswersOn legal_bytes (job_for printer.entry (program_plain program.now)) result }
{
    if let Err(fault) = printer.check(program) {
        return Err(JobFault::Refused(fault));
    }
    match printer.build(program) {
        Ok(printed) => match licence_lines(alloc, &printed.legal_comments) {
            Ok(lines) => Ok(lines),
            Err(_) => Err(JobFault::Memory),
        },
        Err(_) => Err(JobFault::Memory),
    }
}

// All that is made of a program that keeps them.
fn built_of<'a>(
    alloc: Global,
    printer: Codegen<'a>,
    program: &'a Program,
) -> Result<Built, JobFault>
    requires { has_printed printer ≡ false }
    ensures { BuildsOn (job_for printer.entry (program_plain program.now)) result }
{
    if let Err(fault) = printer.check(program) {
        return Err(JobFault::Refused(fault));
    }
    match printer.build(program) {
        Ok(printed) => match texts_of(alloc, printed) {
            Ok(built) => Ok(built),
            Err(_) => Err(JobFault::Memory),
        },
        Err(_) => Err(JobFault::Memory),
    }
}

// A printed program as texts.
fn texts_of(alloc: Global, printed: CodegenReturn<'_>) -> Result<Built, Memory>
    ensures code { IfOk result (λ b. string_bytes b.code ≡ string_bytes printed.entry.code) }
    ensures map { IfOk result (λ b. string_bytes b.map ≡ lines_of printed.entry.map) }
    ensures licences { IfOk result (λ b. string_bytes b.licences ≡ flat_map licence_line (rows_plain printed.entry.legal_comments.items)) }
{
    let map = lines_of(alloc, &printed.map)?;
    let licences = licence_lines(alloc, &printed.legal_comments)?;
    Ok(Built {
        code: printed.code,
        map,
        licences,
    })
}

// Lets go of what was lent, in one place.
fn let_go(_program: Program, _scoping: Option<Scoping>, _private: Option<PrivateMappings>) {}

/// Reads a job from its bytes (docs/FORMAT.md), and says Ok where its program keeps each rule of a tree. Bytes that are no job
/// are answered by their first fault, before any rule is looked at; of several rules that are broken it is the job alone that
/// says which is named. Memory is taken for reading alone, and want of it may come in place of any answer.
pub fn check_job(alloc: Global, bytes: &[u8]) -> Result<(), JobFault>
    ensures verdict { Verdict bytes.now result }
    ensures rule { Tells told bytes.now result }
{
    let Job {
        options,
        scoping,
        private,
        program,
    } = job_in(alloc, bytes)?;
    let printer = printer_for(alloc, options, &scoping, &private);
    let verdict = verdict_on(printer, &program);
    let_go(program, scoping, private);
    verdict
}

/// Reads a job from its bytes, and prints its program under the job's options and by its tables. What is wrong is answered as
/// by `check_job`, before anything is printed; printing takes memory too.
pub fn print_job(alloc: Global, bytes: &[u8]) -> Result<String, JobFault>
    ensures answer { Answers bytes.now result }
    ensures rule { Tells told bytes.now result }
{
    let Job {
        options,
        scoping,
        private,
        program,
    } = job_in(alloc, bytes)?;
    let printer = printer_for(alloc, options, &scoping, &private);
    let text = text_of(printer, &program);
    let_go(program, scoping, private);
    text
}

/// Reads a job from its bytes, and gives the lines of its source map: a line for each token, with line and column in the text and
/// line and column in the source, from 0 and in units of UTF-16, and the number of a name; and behind them the word `name` and each
/// name as JSON. Where no path is set for a map there are none. What is wrong is answered as by `print_job`.
pub fn map_job(alloc: Global, bytes: &[u8]) -> Result<String, JobFault>
    ensures answer { AnswersBy map_bytes bytes.now result }
    ensures rule { Tells told bytes.now result }
{
    let Job {
        options,
        scoping,
        private,
        program,
    } = job_in(alloc, bytes)?;
    let printer = printer_for(alloc, options, &scoping, &private);
    let lines = map_text_of(alloc, printer, &program);
    let_go(program, scoping, private);
    lines
}

/// Reads a job from its bytes, and gives a line for each licence that stands in a file of its own: where it begins in the source, and
/// where it ends. Where the options have them elsewhere there are none. What is wrong is answered as by `print_job`.
pub fn legal_job(alloc: Global, bytes: &[u8]) -> Result<String, JobFault>
    ensures answer { AnswersBy legal_bytes bytes.now result }
    ensures rule { Tells told bytes.now result }
{
    let Job {
        options,
        scoping,
        private,
        program,
    } = job_in(alloc, bytes)?;
    let printer = printer_for(alloc, options, &scoping, &private);
    let lines = legal_text_of(alloc, printer, &program);
    let_go(program, scoping, private);
    lines
}

/// Reads a job from its bytes once, and gives all that is made of it: what `print_job`, `map_job` and `legal_job` give. What is
/// wrong is answered as by these.
pub fn build_job(alloc: Global, bytes: &[u8]) -> Result<Built, JobFault>
    ensures answer { BuildsAll bytes.now result }
    ensures rule { Tells told bytes.now result }
{
    let Job {
        options,
        scoping,
        private,
        program,
    } = job_in(alloc, bytes)?;
    let printer = printer_for(alloc, options, &scoping, &private);
    let built = built_of(alloc, printer, &program);
    let_go(program, scoping, private);
    built
}

/// This library, where a caller is generic in what prints jobs.
pub struct Library;

impl PrintJobs for Library {
    ghost judged = { told };

    fn print_job(alloc: Global, bytes: &[u8]) -> Result<String, JobFault> {
        print_job(alloc, bytes)
    }

    fn map_job(alloc: Global, bytes: &[u8]) -> Result<String, JobFault> {
        map_job(alloc, bytes)
    }

    fn legal_job(alloc: Global, bytes: &[u8]) -> Result<String, JobFault> {
        legal_job(alloc, bytes)
    }

    fn check_job(alloc: Global, bytes: &[u8]) -> Result<(), JobFault> {
        check_job(alloc, bytes)
    }
}
