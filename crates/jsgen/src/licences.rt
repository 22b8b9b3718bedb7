// Licences that don't stand where they are.
ghost use Rattle.std.specs.Prelude.{◌≡◌, ◌++◌, IfOk, OnOk, map, flat_map, decimal, codes, string_bytes};
ghost use Rattle.jsgen_tree.specs.Options.{legal_plain};
ghost use Rattle.jsgen_tree.specs.Tree.{trees, atoms_of};
ghost use Rattle.jsgen_tree.specs.Rows.{comment_row};
ghost use Rattle.jsgen_jobs.specs.LegalText.{licence_line};
ghost use Rattle.jsgen_model.specs.Ends.{moved_licences, stand_apart};
ghost use Rattle.jsgen.specs.Licences.{apart, rows_plain};

use crate::codegen::CodegenError;
use itoa::Buffer;
use jsgen_comments::licences;
use jsgen_syntax::Memory;
use jsgen_tree::{Comment, LegalComment, Program};
use std::alloc::Global;

/// What stands at the end of a program: its licences, as the options have them.
#[derive(Drop)]
pub struct End<'a> {
    pub legal: &'a LegalComment,
    pub licences: Vec<Comment>,
}

impl<'a> End<'a> {
    /// The licences of a program that don't stand where they are.
    pub fn of(
        alloc: Global,
        legal: &'a LegalComment,
        program: &Program,
    ) -> Result<End<'a>, CodegenError>
        ensures legal { IfOk result (λ e. e.legal ≡ legal.entry) }
        ensures licences { IfOk result (λ e. rows_plain e.licences.items ≡ moved_licences (legal_plain legal.now) (string_bytes program.now.source) (trees (map comment_row program.now.comments.items))) }
    {
        let licences = match legal {
            LegalComment::None | LegalComment::Inline => Vec::new(alloc),
            LegalComment::Eof | LegalComment::Linked(_) | LegalComment::External => licences(
                alloc,
                program.source.as_str(),
                &program.comments,
            )?,
        };
        Ok(End { legal, licences })
    }

    /// Those that stand in a file of their own.
    pub fn into_apart(self) -> Vec<Comment>
        ensures { rows_plain result.items ≡ apart self.entry }
    {
        match self.legal {
            LegalComment::Linked(_) | LegalComment::External => self.licences,
            LegalComment::None | LegalComment::Inline | LegalComment::Eof => {
                let mut licences = self.licences;
                licences.clear();
                licences
            }
        }
    }
}

/// A line for each comment: where it begins, and behind a space where it ends.
pub(crate) fn licence_lines(alloc: Global, comments: &[Comment]) -> Result<String, Memory>
    ensures { IfOk result (λ s. string_bytes s ≡ flat_map licence_line (rows_plain comments.now)) }
{
    let mut lines = String::new(alloc);
    push_lines(&mut lines, comments)?;
    Ok(lines)
}

fn push_lines(lines: &mut String, comments: &[Comment]) -> Result<(), Memory>
    ensures { OnOk result (string_bytes lines.new ≡ string_bytes lines.old ++ flat_map licence_line (rows_plain comments.now)) }
{
    for comment in comments {
        push_line(lines, *comment)?;
    }
    Ok(())
}

fn push_line(lines: &mut String, comment: Comment) -> Result<(), Memory>
    ensures { OnOk result (string_bytes lines.new ≡ string_bytes lines.old ++ licence_line (atoms_of (comment_row comment))) }
{
    push_number(lines, comment.span.start)?;
    lines.push_str(" ")?;
    push_number(lines, comment.span.end)?;
    Ok(lines.push_str("\n")?)
}

fn push_number(lines: &mut String, number: u32) -> Result<(), Memory>
    ensures { OnOk result (string_bytes lines.new ≡ string_bytes lines.old ++ decimal number) }
{
    let mut buffer = Buffer::new();
    Ok(lines.push_str(buffer.format(number))?)
}
