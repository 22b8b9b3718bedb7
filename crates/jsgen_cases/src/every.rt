// What is printed for every node of a program by itself, by its own print call.
ghost use Rattle.std.specs.Prelude.{◌≡◌, false, IfOk};
ghost use Rattle.jsgen.specs.Codegen.{has_printed, has_failed};

mod classes;
mod expressions;
mod members;
mod patterns;
mod sets;
mod statements;
mod types;

pub use crate::every::members::push_member_expressions;
use crate::every::sets::every_node;
use crate::every::types::every_program;
use crate::nodes::push_code;
use crate::push::push_each;
use jsgen::{Codegen, CodegenError, Context, Gen, GenExpr, Job};
use jsgen_syntax::{Memory, Precedence, Span};
use jsgen_tree::{ArrayAssignmentTarget, AssignmentTargetPattern, Node, ObjectAssignmentTarget};
use std::alloc::Global;

/// A printer by a job's options and tables.
pub fn printer_of(alloc: Global, job: &Job) -> Result<Codegen<'_>, Memory>
    ensures printed { IfOk result (λ printer. has_printed printer ≡ false) }
    ensures failed { IfOk result (λ printer. has_failed printer ≡ false) }
{
    let options = job.options.clone(alloc)?;
    Ok(
        Codegen::new(alloc)
            .with_options(options)
            .with_scoping(job.scoping.as_ref())
            .with_private_member_mappings(job.private.as_ref()),
    )
}

/// The texts so far of a job's nodes, and the nodes that wait: what nests in a node is printed behind all that was found before.
#[derive(Drop)]
pub struct Every<'a> {
    alloc: Global,
    job: &'a Job,
    waiting: Vec<&'a Node>,
    texts: String,
}

impl<'a> Every<'a> {
    /// Prints a node with `Gen`, by a printer of its own.
    pub fn alone<G: Gen>(&mut self, name: &str, node: &G) -> Result<(), Memory> {
        let mut printer = printer_of(self.alloc, self.job)?;
        let outcome = node.gen_node(&mut printer, Context::default());
        push_named(name, outcome, printer, &mut self.texts)
    }

    /// Prints a node with `GenExpr` at the lowest level, by a printer of its own.
    pub fn at_level<E: GenExpr>(&mut self, name: &str, node: &E) -> Result<(), Memory> {
        let mut printer = printer_of(self.alloc, self.job)?;
        let outcome = node.gen_expr(&mut printer, Precedence::Lowest, Context::default());
        push_named(name, outcome, printer, &mut self.texts)
    }

    /// The node is printed later.
    pub fn wait(&mut self, node: &'a Node) -> Result<(), Memory> {
        Ok(self.waiting.push(node)?)
    }
}

// A name, and what was printed for a node of it, with a bar behind.
fn push_named(
    name: &str,
    outcome: Result<(), CodegenError>,
    printer: Codegen<'_>,
    texts: &mut String,
) -> Result<(), Memory> {
    push_each(texts, &[name, ": "])?;
    push_code(false, outcome, printer, texts)?;
    Ok(texts.push('|')?)
}

/// What is printed for every node of the job's program, by each of its types and sets that has a print call.
pub fn push_every(alloc: Global, job: &Job, answer: &mut String) -> Result<(), Memory> {
    let mut found = Every {
        alloc,
        job,
        waiting: Vec::new(alloc),
        texts: String::new(alloc),
    };
    every_program(&job.program, &mut found)?;
    for at in 0..usize::MAX {
        let Some(node) = found.waiting.get(at).copied() else {
            break;
        };
        every_node(node, &mut found)?;
    }
    Ok(answer.push_str(&found.texts)?)
}

const NOWHERE: Span = Span { start: 0, end: 0 };

/// What is printed for a pattern of each kind that is given values, without targets. No child is of the set of these two kinds, so that
/// no program has one.
pub fn push_target_patterns(alloc: Global, answer: &mut String) -> Result<(), Memory> {
    let array = ArrayAssignmentTarget {
        span: NOWHERE,
        elements: Vec::new(alloc),
        rest: None,
    };
    let object = ObjectAssignmentTarget {
        span: NOWHERE,
        properties: Vec::new(alloc),
        rest: None,
    };
    let array = AssignmentTargetPattern::ArrayAssignmentTarget(Box::new(alloc, array)?);
    let object = AssignmentTargetPattern::ObjectAssignmentTarget(Box::new(alloc, object)?);
    push_target_pattern(alloc, &array, answer)?;
    push_target_pattern(alloc, &object, answer)
}

fn push_target_pattern(
    alloc: Global,
    node: &AssignmentTargetPattern,
    answer: &mut String,
) -> Result<(), Memory> {
    let mut printer = Codegen::new(alloc);
    let outcome = node.gen_node(&mut printer, Context::default());
    push_named("AssignmentTargetPattern", outcome, printer, answer)
}
