// Answers each line of standard input by a line of standard output: what the library and the program print for a job,
// what the definitions and the library say of a text, a word or a string, and what the library's calls give for a node,
// an operator or a level by itself.
// tools/cases/generate writes both files.
#![tactic(auto)]

mod buffer;
mod every;
mod job;
mod level;
mod map;
mod name;
mod nodes;
mod operator;
mod printed;
mod push;
mod quotes;
mod raw;
mod runs;
mod sets;
mod string;
mod tokens;
mod value;

use buffer::push_buffer;
use every::{push_member_expressions, push_target_patterns};
use job::push_of_job;
use jsgen_syntax::Memory;
use level::{push_context, push_level};
use map::{push_map, push_places};
use name::{push_log, push_name};
use operator::push_wrapped;
use printed::push_printed;
use push::push_each;
use raw::push_raw;
use runs::push_run;
use sets::push_sets;
use std::alloc::Global;
use std::io;
use string::push_of_string;
use tokens::push_row;
use value::push_value;

// The question of a line stands first, then how it is asked, and behind a tab of what.
fn push_answer(
    alloc: Global,
    question: &str,
    how: &str,
    rest: &str,
    answer: &mut String,
) -> Result<(), Memory> {
    match question {
        "print" => push_printed(alloc, rest, answer),
        "of" => push_of_job(alloc, how, rest, answer),
        "run" => push_run(alloc, how, rest, answer),
        "tokens" => push_row(alloc, rest, answer),
        "value" => push_value(alloc, how, rest, answer),
        "string" => push_of_string(alloc, how, rest, answer),
        _ => push_of_calls(alloc, question, how, rest, answer),
    }
}

// Of calls that take no job.
fn push_of_calls(
    alloc: Global,
    question: &str,
    how: &str,
    rest: &str,
    answer: &mut String,
) -> Result<(), Memory> {
    match question {
        "raw" => push_raw(alloc, how, rest, answer),
        "name" => push_name(rest, answer),
        "level" => push_level(alloc, rest, answer),
        "context" => push_context(alloc, rest, answer),
        "sets" => push_sets(rest, answer),
        "buffer" => push_buffer(alloc, rest, answer),
        "map" => push_map(alloc, rest, answer),
        "lines" => push_places(alloc, how, rest, answer),
        "wrapped" => push_wrapped(alloc, answer),
        "target_patterns" => push_target_patterns(alloc, answer),
        "member_expressions" => push_member_expressions(alloc, answer),
        "log" => push_log(alloc, how, rest, answer),
        _ => Ok(answer.push_str("no question")?),
    }
}

// In lines a line feed and a tab have signs of their own.
fn meant(alloc: Global, line: &str) -> Result<String, Memory> {
    let text = line.replace(alloc, '⏎', "\n")?;
    Ok(text.replace(alloc, '⇥', "\t")?)
}

fn push_shown(alloc: Global, text: &str, answers: &mut String) -> Result<(), Memory> {
    let text = text.replace(alloc, '\n', "⏎")?;
    let text = text.replace(alloc, '\t', "⇥")?;
    push_each(answers, &[&text, "\n"])
}

fn push_line(alloc: Global, line: &str, answers: &mut String) -> Result<(), Memory> {
    let text = meant(alloc, line)?;
    let (asked, rest) = text.split_once('\t').unwrap_or((text.as_str(), ""));
    let (question, how) = asked.split_once(' ').unwrap_or((asked, ""));
    let mut answer = String::new(alloc);
    push_answer(alloc, question, how, rest, &mut answer)?;
    push_shown(alloc, &answer, answers)
}

fn answers(alloc: Global, text: &str) -> Result<String, Memory> {
    let mut answers = String::new(alloc);
    for line in text.lines() {
        push_line(alloc, line, &mut answers)?;
    }
    Ok(answers)
}

fn main(rt: HostRuntime) -> io::Result<()> {
    let text = io::read_to_string(rt.alloc(), rt.stdin())?;
    match answers(rt.alloc(), &text) {
        Ok(answers) => rt.print(&answers),
        Err(Memory) => rt.print("out of memory\n"),
    }
}
