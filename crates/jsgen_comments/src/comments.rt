// What waits to be printed.
ghost use Rattle.std.specs.Prelude.{IsTrue, ◌≡◌, [], ◌++◌, IfOk, map, option_map, is_some, not, length, ◌==◌, if◌then◌else◌};
ghost use Rattle.std.specs.Option.{option_to_list, unwrap_or};
ghost use Rattle.std.specs.List.{list_any, filter};
ghost use Rattle.jsgen_tree.specs.Tree.{atoms_of, trees};
ghost use Rattle.jsgen_tree.specs.Rows.{comment_row};
ghost use Rattle.jsgen_tree.specs.Options.{comments_plain};
ghost use Rattle.jsgen_model.specs.Comments.{empty_store, there, without, taken, are_any, kept, kept_at, kept_annotations, with_row, with_annotation, is_wanted, outlives, outliving, without_outliving, orphans_below, left_below, has_orphans_below};
ghost use Rattle.jsgen_model.specs.Groups.{is_for_tools, is_tool_annotation, fits, is_key, is_key_annotation};
ghost use Rattle.jsgen_comments.specs.Plain.{annotation_of, annotations_of, comment_plain, first_below, behind_first, group_plain, store_of};

use crate::annotations::{AnnotationKind, fits, is_annotation};
use jsgen_syntax::Memory;
use jsgen_tree::{Comment, CommentContent, CommentOptions};
use std::alloc::Global;
use std::collections::{BTreeMap, BTreeSet};

/// Comments of a source that have left the store together.
#[derive(Drop)]
pub struct Group<'a> {
    pub source: &'a str,
    pub comments: Vec<Comment>,
}

/// Comments in groups, by the offsets that they belong to.
pub type CommentsMap = BTreeMap<u32, Vec<Comment>>;

/// The comments that are still to be printed: in groups by the offsets that they belong to, and the offsets of groups that hold a
/// comment which outlives its place. Annotations of calls and functions are kept apart, of each offset the last.
#[derive(Drop)]
pub struct Comments<'a> {
    source: &'a str,
    groups: CommentsMap,
    orphans: BTreeSet<u32>,
    annotations: BTreeMap<u32, Comment>,
}

impl<'a> Comments<'a> {
    /// The comments of a program that these options keep.
    pub fn of(
        alloc: Global,
        options: &CommentOptions,
        source: &'a str,
        comments: &[Comment],
    ) -> Result<Comments<'a>, Memory>
        ensures store { IfOk result (λ c. store_of c ≡ kept (comments_plain options.now) source.now (trees (map comment_row comments.now))) }
        ensures annotations { IfOk result (λ c. annotations_of c ≡ kept_annotations (comments_plain options.now) source.now (trees (map comment_row comments.now))) }
    {
        let mut kept = Comments {
            source,
            groups: BTreeMap::new(alloc),
            orphans: BTreeSet::new(alloc),
            annotations: BTreeMap::new(alloc),
        };
        for comment in comments {
            kept.keep(alloc, options, *comment)?;
            kept.keep_annotation(options, *comment)?;
        }
        Ok(kept)
    }

    /// The source that they are comments of.
    pub fn source(&self) -> &'a str
        ensures { result ≡ self.now.source }
    {
        self.source
    }

    /// Whether none is still to be printed.
    pub fn is_empty(&self) -> bool
        ensures none { IsTrue result → (store_of self.now ≡ empty_store) × (annotations_of self.now ≡ []) }
        ensures some { (store_of self.now ≡ empty_store) → (annotations_of self.now ≡ []) → IsTrue result }
    {
        self.groups.is_empty() && self.orphans.is_empty() && self.annotations.is_empty()
    }

    /// Whether comments belong to this offset.
    pub fn has(&self, offset: u32) -> bool
        ensures { result ≡ are_any (there offset (store_of self.now).groups) }
    {
        match self.groups.get(&offset) {
            Some(group) => is_any(group),
            None => false,
        }
    }

    /// Whether a property-key annotation belongs to this offset.
    pub fn has_key_annotation(&self, offset: u32) -> bool
        ensures { result ≡ list_any is_key_annotation (there offset (store_of self.now).groups) }
    {
        match self.groups.get(&offset) {
            Some(group) => has_key(group),
            None => false,
        }
    }

    /// Whether an annotation for tools belongs to this offset.
    pub fn has_annotation_for_tools(&self, offset: u32) -> bool
        ensures { result ≡ list_any is_tool_annotation (there offset (store_of self.now).groups) }
    {
        match self.groups.get(&offset) {
            Some(group) => has_any_for_tools(group),
            None => false,
        }
    }

    /// The comments that belong to this offset leave.
    pub fn take(&mut self, offset: u32) -> Option<Group<'a>>
        ensures group { unwrap_or (option_map group_plain result) [] ≡ there offset (store_of self.old).groups }
        ensures store { store_of self.new ≡ taken offset (store_of self.old) }
        ensures annotations { annotations_of self.new ≡ annotations_of self.old }
        ensures source { self.new.source ≡ self.old.source }
    {
        match self.groups.remove(&offset) {
            Some(comments) => Some(Group {
                source: self.source,
                comments,
            }),
            None => None,
        }
    }

    /// The annotation that belongs to this offset leaves, where it says this, and a line ends behind it or may follow it on its line.
    pub fn take_annotation(
        &mut self,
        ends: bool,
        kind: AnnotationKind,
        offset: u32,
    ) -> Option<Comment>
        ensures found { option_to_list (option_map (comment_plain self.old.source.now) result) ≡ filter (fits ends (annotation_of kind)) (there offset (annotations_of self.old)) }
        ensures left { annotations_of self.new ≡ (if is_some result then without offset (annotations_of self.old) else annotations_of self.old) }
        ensures store { store_of self.new ≡ store_of self.old }
        ensures source { self.new.source ≡ self.old.source }
    {
        let annotation = *self.annotations.get(&offset)?;
        if fits(ends, kind, annotation) {
            self.annotations.remove(&offset)
        } else {
            None
        }
    }

    /// Whether a comment that outlives its place belongs to a smaller offset.
    pub fn has_orphans(&self, offset: u32) -> bool
        ensures { result ≡ has_orphans_below offset (store_of self.now) }
    {
        for orphan in &self.orphans {
            if *orphan >= offset {
                return false;
            }
            if self.has(*orphan) {
                return true;
            }
        }
        false
    }

    /// The comments that belong to smaller offsets and outlive their places leave, in their order. After want of memory it isn't told
    /// what is left.
    pub fn take_orphans(&mut self, alloc: Global, offset: u32) -> Result<Group<'a>, Memory>
        ensures group { IfOk result (λ g. group_plain g ≡ orphans_below offset (store_of self.old)) }
        ensures store { IfOk result (λ g. store_of self.new ≡ left_below offset (store_of self.old)) }
        ensures annotations { annotations_of self.new ≡ annotations_of self.old }
        ensures source { self.new.source ≡ self.old.source }
    {
        let mut found = Vec::new(alloc);
        while let Some(orphan) = self.pop_orphan(offset) {
            self.move_outliving(alloc, orphan, &mut found)?;
        }
        Ok(Group {
            source: self.source,
            comments: found,
        })
    }

    // A comment is kept where it belongs to what follows it, and the options want it.
    fn keep(
        &mut self,
        alloc: Global,
        options: &CommentOptions,
        comment: Comment,
    ) -> Result<(), Memory>
        ensures kept { IfOk result (λ _. store_of self.new ≡ with_row (comments_plain options.now) self.old.source.now (atoms_of (comment_row comment)) (store_of self.old)) }
        ensures annotations { IfOk result (λ _. annotations_of self.new ≡ annotations_of self.old) }
        ensures source { IfOk result (λ _. self.new.source ≡ self.old.source) }
    {
        if comment.leading && is_wanted(options, comment.content) {
            self.add(alloc, comment)?;
        }
        Ok(())
    }

    // An annotation of what follows it is kept in place of another one at the offset, where the options want any.
    fn keep_annotation(&mut self, options: &CommentOptions, comment: Comment) -> Result<(), Memory>
        ensures kept { IfOk result (λ _. annotations_of self.new ≡ with_annotation (comments_plain options.now) self.old.source.now (atoms_of (comment_row comment)) (annotations_of self.old)) }
        ensures store { IfOk result (λ _. store_of self.new ≡ store_of self.old) }
        ensures source { IfOk result (λ _. self.new.source ≡ self.old.source) }
    {
        if comment.leading && is_annotation(comment.content) && options.annotation {
            self.annotations.insert(comment.attached_to, comment)?;
        }
        Ok(())
    }

    // One more comment, behind those that belong to the same offset.
    fn add(&mut self, alloc: Global, comment: Comment) -> Result<(), Memory>
        ensures added { IfOk result (λ _. store_of self.new ≡ kept_at comment.attached_to (comment_plain self.old.source.now comment) (store_of self.old)) }
        ensures annotations { IfOk result (λ _. annotations_of self.new ≡ annotations_of self.old) }
        ensures source { IfOk result (λ _. self.new.source ≡ self.old.source) }
    {
        let offset = comment.attached_to;
        let mut group = match self.groups.remove(&offset) {
            Some(group) => group,
            None => Vec::new(alloc),
        };
        group.push(comment)?;
        self.groups.insert(offset, group)?;
        if outlives(comment.content) {
            self.orphans.insert(offset)?;
        }
        Ok(())
    }

    // The first offset of a group that holds a comment which outlives its place leaves, where it is below this one.
    fn pop_orphan(&mut self, offset: u32) -> Option<u32>
        ensures first { result ≡ first_below offset self.old.orphans.keys }
        ensures others { self.new.orphans.keys ≡ behind_first offset self.old.orphans.keys }
        ensures source { self.new.source ≡ self.old.source }
        ensures annotations { self.new.annotations ≡ self.old.annotations }
        ensures groups { self.new.groups ≡ self.old.groups }
    {
        let first = *self.orphans.first()?;
        if first < offset {
            self.orphans.pop_first()
        } else {
            None
        }
    }

    // Of the comments at an offset those that outlive their places go to the end of the list.
    fn move_outliving(
        &mut self,
        alloc: Global,
        offset: u32,
        found: &mut Vec<Comment>,
    ) -> Result<(), Memory>
        ensures source { self.new.source ≡ self.old.source }
        ensures annotations { self.new.annotations ≡ self.old.annotations }
        ensures orphans { self.new.orphans ≡ self.old.orphans }
        ensures found { IfOk result (λ _. map (comment_plain self.old.source.now) found.new.items ≡ map (comment_plain self.old.source.now) found.old.items ++ outliving (there offset (store_of self.old).groups)) }
        ensures groups { IfOk result (λ _. store_of self.new ≡ record (store_of self.old) { groups = without_outliving offset (store_of self.old).groups }) }
    {
        let Some(group) = self.groups.remove(&offset) else {
            return Ok(());
        };
        let others = part(alloc, &group, found)?;
        if is_any(&others) {
            self.groups.insert(offset, others)?;
        }
        Ok(())
    }
}

// The comments of a group that outlive their places go to the end of the list, and the others are handed back.
fn part(alloc: Global, group: &[Comment], found: &mut Vec<Comment>) -> Result<Vec<Comment>, Memory>
    ensures found { IfOk result (λ _. found.new.items ≡ found.old.items ++ filter (λ c. outlives c.content) group.now) }
    ensures others { IfOk result (λ others. others.items ≡ filter (λ c. not (outlives c.content)) group.now) }
{
    let mut others = Vec::new(alloc);
    for comment in group {
        if outlives(comment.content) {
            found.push(*comment)?;
        } else {
            others.push(*comment)?;
        }
    }
    Ok(others)
}

// Whether there is a comment.
fn is_any(group: &[Comment]) -> bool
    ensures { result ≡ not (length group.now == 0) }
{
    !group.is_empty()
}

// Whether a comment that says this is an annotation of a property's key.
fn is_key(content: CommentContent) -> bool
    ensures { result ≡ is_key content }
{
    matches!(content, CommentContent::PropertyKey)
}

// Whether one of them is.
fn has_key(group: &[Comment]) -> bool
    ensures { result ≡ list_any (λ c. is_key c.content) group.now }
{
    group.iter().any(|comment| is_key(comment.content))
}

// Whether a comment that says this is an annotation of a bundler or of a coverage tool, or of a property's key.
fn is_for_tools(content: CommentContent) -> bool
    ensures { result ≡ is_for_tools content }
{
    matches!(
        content,
        CommentContent::Webpack
            | CommentContent::Vite
            | CommentContent::PropertyKey
            | CommentContent::CoverageIgnore
            | CommentContent::CoverageIgnoreFile
    )
}

// Whether one of them is.
fn has_any_for_tools(group: &[Comment]) -> bool
    ensures { result ≡ list_any (λ c. is_for_tools c.content) group.now }
{
    group.iter().any(|comment| is_for_tools(comment.content))
}

// Whether the options want a comment that says this.
fn is_wanted(options: &CommentOptions, content: CommentContent) -> bool
    ensures { result ≡ is_wanted (comments_plain options.now) content }
{
    match content {
        CommentContent::Normal => options.normal,
        CommentContent::Legal => options.legal.is_inline(),
        CommentContent::Jsdoc => options.jsdoc,
        CommentContent::JsdocLegal => options.legal.is_inline() || options.jsdoc,
        CommentContent::Pure | CommentContent::NoSideEffects => false,
        _ => options.annotation,
    }
}

// Whether a comment that says this is printed where what it belongs to is gone.
fn outlives(content: CommentContent) -> bool
    ensures { result ≡ outlives content }
{
    matches!(
        content,
        CommentContent::Legal | CommentContent::JsdocLegal | CommentContent::CoverageIgnoreFile
    )
}
