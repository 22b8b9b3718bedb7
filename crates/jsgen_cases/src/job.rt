// Questions of a job's options and of its program.
ghost use Rattle.std.specs.Prelude.{◌≡◌, false};
ghost use Rattle.jsgen.specs.Codegen.{has_printed};

use crate::every::{printer_of, push_every};
use crate::nodes::{expression_in, print_asked, push_code, push_spans};
use crate::operator::push_operator;
use crate::push::{push_each, push_where};
use crate::quotes::{push_tried, try_print};
use jsgen::{Codegen, Job, read_job};
use jsgen_printer::Printer;
use jsgen_syntax::Memory;
use jsgen_tree::{CodegenOptions, CommentOptions, Program};
use std::alloc::Global;

/// The answer for a job.
pub fn push_of_job(
    alloc: Global,
    asked: &str,
    job: &str,
    answer: &mut String,
) -> Result<(), Memory> {
    let Ok(job) = read_job(alloc, job.as_bytes()) else {
        return Ok(answer.push_str("no job")?);
    };
    push_of(alloc, asked, &job, answer)
}

fn push_of(alloc: Global, asked: &str, job: &Job, answer: &mut String) -> Result<(), Memory> {
    match asked {
        "spans" => push_spans(alloc, &job.program, answer),
        "options" => push_options(alloc, &job.options, answer),
        "operator" => push_operator(alloc, expression_in(&job.program), answer),
        "quotes" => {
            let mut p = Printer::new(alloc, &job.options);
            let tried = try_print(&mut p, expression_in(&job.program));
            push_tried(tried, p, answer)
        }
        "every" => push_every(alloc, job, answer),
        _ => {
            let mut printer = printer_of(alloc, job)?;
            if asked == "program" {
                return push_program(printer, &job.program, answer);
            }
            let had_printed = printer.has_printed();
            let outcome = print_asked(&mut printer, asked, &job.program);
            push_code(had_printed, outcome, printer, answer)
        }
    }
}

// What the library prints, as a run of the program is told.
fn push_program<'a>(
    printer: Codegen<'a>,
    program: &'a Program,
    answer: &mut String,
) -> Result<(), Memory>
    requires unprinted { has_printed printer ≡ false }
{
    if printer.check(program).is_err() {
        return Ok(answer.push_str("refused")?);
    }
    match printer.build(program) {
        Ok(printed) => push_each(answer, &["0 ", &printed.code, "|"]),
        Err(_) => Err(Memory),
    }
}

// What is known of a copy of the options, and which legal comments they ask for.
fn push_options(
    alloc: Global,
    options: &CodegenOptions,
    answer: &mut String,
) -> Result<(), Memory> {
    let copy = options.clone(alloc)?;
    let legal = &copy.comments.legal;
    push_where(
        answer,
        &[
            (copy == *options, " copied"),
            (copy == CodegenOptions::default(), " default"),
            (copy == CodegenOptions::minify(), " minified"),
            (copy.comments == CommentOptions::disabled(), " disabled"),
            (legal.is_none(), " none"),
            (legal.is_inline(), " inline"),
            (legal.is_eof(), " eof"),
        ],
    )
}
