// What a job gives.
use crate::job::push_of_job;
use crate::push::push_each;
use crate::runs::push_sure_run;
use jsgen_syntax::Memory;
use std::alloc::Global;

/// The status, the text and the line that the program ends with; and, where one of these is otherwise, the program's verdict and
/// what the library prints.
pub fn push_printed(alloc: Global, job: &str, answer: &mut String) -> Result<(), Memory> {
    let mut checked = String::new(alloc);
    let mut library = String::new(alloc);
    push_sure_run(alloc, "print", job, answer)?;
    push_sure_run(alloc, "check", job, &mut checked)?;
    push_of_job(alloc, "program", job, &mut library)?;
    push_others(&checked, &library, answer)
}

// The verdict has the same status and the same line, and no text; the library gives a text where the program does, and the same.
fn push_others(checked: &str, library: &str, answer: &mut String) -> Result<(), Memory> {
    let agree = if answer.starts_with("0 ") {
        checked == "0 |" && library == answer.as_str()
    } else {
        checked == answer.as_str() && !library.starts_with("0 ")
    };
    if agree {
        return Ok(());
    }
    push_each(
        answer,
        &[" but check: ", checked, " and the library: ", library],
    )
}
