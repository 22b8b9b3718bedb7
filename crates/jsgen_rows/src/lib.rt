//! The reader of jobs: from JSON to a tree.
#![tactic(auto)]

ghost use Rattle.std.specs.Prelude.{◌≡◌, ◌<◌, ◌/◌, ◌^◌, length};
ghost use Rattle.serde_json.specs.View.{view};
ghost use Rattle.jsgen_tree.specs.Plain.{program_plain};
ghost use Rattle.jsgen_rows.specs.Job.{FaultsAreTold, flat_meaning, head_in, job_plain, json_of, job_of};
ghost use Rattle.jsgen_rows.specs.Heads.{head_plain, job_with, rows_read};
ghost use Rattle.jsgen_flat.specs.Flat.{flat_of, rows_of};
ghost use Rattle.jsgen_flat.specs.Views.{sections};
ghost use Rattle.jsgen_fields.specs.declared.InputFault.TheVariants.{Json};
ghost use Rattle.jsgen_fields.specs.Values.{Same, after, or_fault, some_rows};
ghost use Rattle.jsgen_fields.specs.Meaning.{program_meaning, rows_meaning, value_meaning};
ghost use Rattle.jsgen_fields.specs.Reads.{read_program};

mod options;
mod rows;
mod steps;
mod tables;

use crate::options::options_in;
use crate::steps::{read_flat_rows, read_rows, root_of, rows_in};
use crate::tables::{private_in, references_in, scoping_of, symbols_in};
use jsgen_fields::{At, InputFault};
use jsgen_flat::{FlatJob, begins_flat};
use jsgen_tree::{CodegenOptions, PrivateMappings, Program, Scoping};
use serde_json::Value;
use std::alloc::Global;

/// What a job asks for.
#[derive(Drop)]
pub struct Job {
    pub options: CodegenOptions,
    /// The tables by which names are printed.
    pub scoping: Option<Scoping>,
    /// The new names of private names.
    pub private: Option<PrivateMappings>,
    pub program: Program,
}

/// Reads a job from its bytes, in JSON or flat (docs/FORMAT.md), or says its first fault.
#[tactic(auto, unfolding(crate::specs::Job::job_of))]
pub fn read_job(alloc: Global, bytes: &[u8]) -> Result<Job, InputFault>
    ensures { Same job_plain result (job_of bytes.now) }
{
    if begins_flat(bytes) {
        return read_flat(alloc, bytes);
    }
    let value = read_json(alloc, bytes)?;
    read_value(alloc, &value)
}

fn read_json(alloc: Global, bytes: &[u8]) -> Result<Value, InputFault>
    ensures { Same view result (json_of bytes.now) }
{
    match Value::from_slice(alloc, bytes) {
        Ok(value) => Ok(value),
        Err(error) => {
            if error.is_memory() {
                Err(InputFault::Memory)
            } else {
                Err(InputFault::Json)
            }
        }
    }
}

// What the head of a job holds.
#[derive(Drop)]
struct Head {
    options: CodegenOptions,
    scoping: Option<Scoping>,
    private: Option<PrivateMappings>,
}

fn read_head(alloc: Global, value: &Value) -> Result<Head, InputFault>
    ensures { Same head_plain result (head_in (view value.now)) }
{
    let options = options_in(alloc, value)?;
    let symbols = symbols_in(alloc, value)?;
    let references = references_in(alloc, value)?;
    let private = private_in(alloc, value)?;
    Ok(Head {
        options,
        scoping: scoping_of(alloc, symbols, references),
        private,
    })
}

fn job_of(head: Head, program: Program) -> Job
    ensures { job_plain result ≡ job_with (head_plain head) (program_plain program) }
{
    Job {
        options: head.options,
        scoping: head.scoping,
        private: head.private,
        program,
    }
}

/// The job that was read as JSON.
fn read_value(alloc: Global, value: &Value) -> Result<Job, InputFault>
    ensures { Same job_plain result (value_meaning (view value.now)) }
{
    let head = read_head(alloc, value)?;
    let program = read_program(alloc, value)?;
    Ok(job_of(head, program))
}

/// A flat job, whose head is JSON.
fn read_flat(alloc: Global, bytes: &[u8]) -> Result<Job, InputFault>
    ensures { Same job_plain result (after (or_fault Json (flat_of bytes.now)) flat_meaning) }
{
    let Some(flat) = FlatJob::read(bytes) else {
        return Err(InputFault::Json);
    };
    read_sections(alloc, &flat)
}

fn read_sections<'b>(alloc: Global, flat: &'b FlatJob<'b>) -> Result<Job, InputFault>
    requires { length flat.now.rows.now / 4 < 2 ^ 32 }
    ensures { Same job_plain result (flat_meaning (sections flat.now)) }
{
    let value = read_json(alloc, flat.head)?;
    let head = read_head(alloc, &value)?;
    let program = read_flat_program(alloc, flat)?;
    Ok(job_of(head, program))
}

fn read_flat_program<'b>(alloc: Global, flat: &'b FlatJob<'b>) -> Result<Program, InputFault>
    requires { length flat.now.rows.now / 4 < 2 ^ 32 }
    ensures { Same program_plain result (after (some_rows (rows_of (sections flat.now))) rows_meaning) }
{
    read_flat_steps(alloc, flat)
}

#[tactic(auto, using(crate::proofs::FlatRows::some_of, crate::proofs::FlatRows::none_of))]
fn read_flat_steps<'b>(alloc: Global, flat: &'b FlatJob<'b>) -> Result<Program, InputFault>
    requires { length flat.now.rows.now / 4 < 2 ^ 32 }
    ensures { Same program_plain result (after (some_rows (rows_of (sections flat.now))) rows_read) }
{
    if flat.row_count == 0 {
        return Err(InputFault::Wrong(At::of_head(4)));
    }
    let kept = read_flat_rows(alloc, flat)?;
    root_of(kept)
}

fn read_program(alloc: Global, value: &Value) -> Result<Program, InputFault>
    ensures { Same program_plain result (program_meaning (view value.now)) }
{
    read_steps(alloc, value)
}

fn read_steps(alloc: Global, value: &Value) -> Result<Program, InputFault>
    ensures { Same program_plain result (read_program (view value.now)) }
{
    let rows = rows_in(value)?;
    let kept = read_rows(alloc, rows)?;
    root_of(kept)
}

/// A law: what a job's bytes mean is never that memory ran out.
pub fn job_faults_are_told()
    ensures { FaultsAreTold }
{}
