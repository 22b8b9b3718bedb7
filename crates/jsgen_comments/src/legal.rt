// Licences, each once.
ghost use Rattle.std.specs.Prelude.{◌≡◌, ◌++◌, IfOk, map, codes, not};
ghost use Rattle.std.specs.Str.{chars, skip_leading_whitespace};
ghost use Rattle.jsgen_tree.specs.Tree.{atoms_of, trees};
ghost use Rattle.jsgen_tree.specs.Rows.{comment_row};
ghost use Rattle.jsgen_tree.specs.Characters.{characters};
ghost use Rattle.jsgen_model.specs.Ends.{licences, tabbed, wording};
ghost use Rattle.jsgen_model.specs.Groups.{closes_block, is_legal, lines_of, opens_block};
ghost use Rattle.jsgen_model.specs.Layout.{text_if};
ghost use Rattle.jsgen_comments.specs.Plain.{comment_plain, line_tabbed};

use crate::text::{first_line, text_of};
use jsgen_syntax::Memory;
use jsgen_tree::{Comment, CommentContent, CommentKind};
use std::alloc::Global;
use std::collections::BTreeSet;

/// The licences among some comments: of each wording the first. Lines of a block count without the white space that they begin with.
pub fn licences(alloc: Global, source: &str, comments: &[Comment]) -> Result<Vec<Comment>, Memory>
    ensures { IfOk result (λ v. map (λ c. atoms_of (comment_row c)) v.items ≡ licences source.now (trees (map comment_row comments.now))) }
{
    let mut seen = BTreeSet::new(alloc);
    let mut found = Vec::new(alloc);
    for comment in comments {
        if is_legal(comment.content) {
            let wording = wording(alloc, source, *comment)?;
            if seen.insert(wording)? {
                found.push(*comment)?;
            }
        }
    }
    Ok(found)
}

// Whether a comment that says this is a licence.
fn is_legal(content: CommentContent) -> bool
    ensures { result ≡ is_legal content }
{
    matches!(content, CommentContent::Legal | CommentContent::JsdocLegal)
}

// Two comments are one licence where this is the same of them.
fn wording(alloc: Global, source: &str, comment: Comment) -> Result<String, Memory>
    ensures { IfOk result (λ w. characters w ≡ wording (comment_plain source.now comment)) }
{
    let text = text_of(source, comment.span);
    match comment.kind {
        CommentKind::MultiLineBlock => tabbed(alloc, text),
        _ => Ok(String::from_str(alloc, text)?),
    }
}

// The lines of a block without the white space that they begin with, each but the first behind a tab.
fn tabbed(alloc: Global, text: &str) -> Result<String, Memory>
    ensures { IfOk result (λ t. characters t ≡ tabbed (lines_of (chars text.now))) }
{
    let mut tabbed = String::new(alloc);
    let mut rest = text;
    while let Some((line, others)) = first_line(rest) {
        push_line(&mut tabbed, line)?;
        rest = others;
    }
    Ok(tabbed)
}

// One more line of a block.
fn push_line(tabbed: &mut String, line: &str) -> Result<(), Memory>
    ensures { IfOk result (λ _. characters tabbed.new ≡ characters tabbed.old ++ line_tabbed (chars line.now)) }
{
    push_if(tabbed, !opens_block(line), "\t")?;
    push_if(tabbed, true, line.trim_start())?;
    push_if(tabbed, !closes_block(line), "\n")
}

// A text more, where the test holds.
fn push_if(tabbed: &mut String, test: bool, text: &str) -> Result<(), Memory>
    ensures { IfOk result (λ _. characters tabbed.new ≡ characters tabbed.old ++ text_if test (chars text.now)) }
{
    if test {
        tabbed.push_str(text)?;
    }
    Ok(())
}

// Whether a line begins a block.
fn opens_block(line: &str) -> bool
    ensures { result ≡ opens_block (chars line.now) }
{
    line.starts_with("/*")
}

// Whether a line ends a block.
fn closes_block(line: &str) -> bool
    ensures { result ≡ closes_block (chars line.now) }
{
    line.ends_with("*/")
}
