//! Laws on comments, over all items of the layout. Nothing here runs, and no printer is mentioned.
#![tactic(auto)]

ghost use Rattle.jsgen_comment_laws.specs.Law.{CommentsStand, ItemsAreWoven};

/// Each comment that belongs to a statement of a program's own, and each licence up to its end, has a place of its own in the text of
/// a valid job, and none stands twice; and what isn't white in the text is these comments, woven into bones that they have no part in.
pub fn comments_stand()
    ensures { CommentsStand }
{}

/// What items add to a text, from any pen for which no comment waits, is woven of their bones alone, with annotations as they are written:
/// so it is of what a print call of a node adds, which stores no comments.
pub fn items_are_woven()
    ensures { ItemsAreWoven }
{}
