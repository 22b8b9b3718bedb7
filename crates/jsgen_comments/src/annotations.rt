// Annotations of calls and functions.
ghost use Rattle.std.specs.Prelude.{◌≡◌, ◌&&◌, ◌||◌, not};
ghost use Rattle.jsgen_model.specs.Comments.{is_annotation};
ghost use Rattle.jsgen_model.specs.Groups.{is_line, says};
ghost use Rattle.jsgen_comments.specs.Plain.{annotation_of};

use jsgen_tree::{Comment, CommentContent, CommentKind};

/// What an annotation says: a call is pure, or a function has no side effects.
#[derive(Clone, Copy)]
pub enum AnnotationKind {
    Pure,
    NoSideEffects,
}

// Whether a comment that says this is an annotation of a call or a function.
pub(crate) fn is_annotation(content: CommentContent) -> bool
    ensures { result ≡ is_annotation content }
{
    matches!(
        content,
        CommentContent::Pure | CommentContent::NoSideEffects
    )
}

// Whether a comment can stand for an annotation: it says the same, and a line ends behind it or may follow it on its line.
pub(crate) fn fits(ends: bool, kind: AnnotationKind, comment: Comment) -> bool
    ensures { result ≡ (says (annotation_of kind) comment.content && (ends || not (is_line comment.kind))) }
{
    says(kind, comment.content) && (ends || !is_line(comment.kind))
}

// Whether a comment with this content says what the annotation does.
fn says(kind: AnnotationKind, content: CommentContent) -> bool
    ensures { result ≡ says (annotation_of kind) content }
{
    match kind {
        AnnotationKind::Pure => matches!(content, CommentContent::Pure),
        AnnotationKind::NoSideEffects => matches!(content, CommentContent::NoSideEffects),
    }
}

// Whether such a comment goes to the end of its line.
fn is_line(kind: CommentKind) -> bool
    ensures { result ≡ is_line kind }
{
    matches!(
        kind,
        CommentKind::Line | CommentKind::HtmlOpen | CommentKind::HtmlClose
    )
}
