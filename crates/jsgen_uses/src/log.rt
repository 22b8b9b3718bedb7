// A statement that logs a value.
ghost use Rattle.std.specs.Prelude.{◌≡◌, true, false, IfOk, OnOk, IsErrOf, string_bytes};
ghost use Rattle.std.specs.Str.{chars};
ghost use Rattle.jsgen_syntax.specs.Name.{is_free_name};
ghost use Rattle.jsgen_tree.specs.Plain.{node_plain, program_plain};
ghost use Rattle.jsgen_tree.specs.Rows.{in_expression};
ghost use Rattle.jsgen_uses.specs.declared.log.LogError.TheVariants as errors;
ghost use Rattle.jsgen.specs.Codegen.{has_printed, job_for};
ghost use Rattle.jsgen_model.specs.Plain.{IsPlain, IsQuiet};
ghost use Rattle.jsgen_model.specs.Reading.{IsReadAs};
ghost use Rattle.jsgen_model.specs.Valid.{IsValid};
ghost use Rattle.jsgen_uses.specs.Log.{console_log, log_call, log_program, IsBroken, ReadsAsLogCall};

use crate::build::{call, member, only, reference, statement, string};
use jsgen::tree::{ExpressionNode, Program};
use jsgen::{Codegen, CodegenError, Memory, plain_by_types};
use std::alloc::Global;
use thiserror::Error;

/// Why there is no code.
#[derive(Clone, Copy, Debug, PartialEq, Eq, Error)]
pub enum LogError {
    #[error("the name is no identifier")]
    Name,
    #[error("out of memory")]
    Memory,
}

impl From<Memory> for LogError {
    ghost from_gives = { λ _ e. e ≡ errors.Memory };

    fn from(_error: Memory) -> LogError {
        LogError::Memory
    }
}

impl From<CodegenError> for LogError {
    ghost from_gives = { λ _ e. e ≡ errors.Memory };

    fn from(_error: CodegenError) -> LogError {
        LogError::Memory
    }
}

fn console_log(alloc: Global) -> Result<ExpressionNode, Memory>
    ensures { IfOk result (λ built. in_expression node_plain built ≡ console_log) }
{
    member(alloc, reference(alloc, "console")?, "log")
}

fn log_call(alloc: Global, message: &str, name: &str) -> Result<ExpressionNode, Memory>
    ensures { IfOk result (λ built. in_expression node_plain built ≡ log_call (chars message.now) (chars name.now)) }
{
    let callee = console_log(alloc)?;
    let message = string(alloc, message)?;
    let value = reference(alloc, name)?;
    call(alloc, callee, message, value)
}

fn log_program(alloc: Global, message: &str, name: &str) -> Result<Program, Memory>
    ensures { IfOk result (λ built. program_plain built ≡ log_program (chars message.now) (chars name.now)) }
{
    only(alloc, statement(alloc, log_call(alloc, message, name)?)?)
}

/// The code of `console.log(MESSAGE, NAME);`, where the message is a string of any text, and the name an identifier.
pub fn log_statement(alloc: Global, message: &str, name: &str) -> Result<String, LogError>
    // The code is read as that statement.
    ensures code { IfOk result (λ code. ReadsAsLogCall (chars message.now) (chars name.now) (chars (string_bytes code))) }

    // A name is taken where it can stand for an identifier, and refused where it can't.
    ensures taken { OnOk result (is_free_name (chars name.now) ≡ true) }
    ensures refused { IsErrOf result LogError.Name → is_free_name (chars name.now) ≡ false }
{
    plain_by_types();
    let program = log_program(alloc, message, name)?;
    code_of(Codegen::new(alloc), &program)
}

// The code of a program that keeps the rules under the printer's options, and by its tables.
fn code_of<'a>(printer: Codegen<'a>, program: &'a Program) -> Result<String, LogError>
    requires { has_printed printer ≡ false }
    ensures reads { IfOk result (λ code. IsPlain (program_plain program.now) → IsQuiet (job_for printer.entry (program_plain program.now))
        → IsReadAs (chars (string_bytes code)) (job_for printer.entry (program_plain program.now))) }
    ensures taken { OnOk result (IsValid (job_for printer.entry (program_plain program.now))) }
    ensures refused { IsErrOf result LogError.Name → IsBroken (job_for printer.entry (program_plain program.now)) }
{
    if let Err(_) = printer.check(program) {
        return Err(LogError::Name);
    }
    Ok(printer.build(program)?.code)
}
