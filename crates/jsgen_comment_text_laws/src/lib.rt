//! Laws on the texts of comments. Nothing here runs, and no printer is mentioned.
#![tactic(auto)]

ghost use Rattle.jsgen_comment_text_laws.specs.Law.{CommentsKeepTexts, JobsIndentByBlanks, OwnTexts, RowsAreOfSource, KeptAreOfSource};

/// What a comment adds to the code of a pen are its own characters, white space aside, with `</script` escaped: on one line white space
/// too, and on several lines each line but for what it begins with. It is a comment of its kind where the comment's text is one.
pub fn comments_keep_texts()
    ensures { CommentsKeepTexts }
{}

/// The pen that a job's text begins with has levels of spaces or of tabs, as the law on comments asks.
pub fn jobs_indent_by_blanks()
    ensures { JobsIndentByBlanks }
{}

/// What `comments_stand` calls a comment's own text is the comment's in the same sense, be it on one line or on several.
pub fn own_texts()
    ensures { OwnTexts }
{}

/// Each row of a valid job's comments has the text of the source at its span, which is a comment of its kind.
pub fn rows_are_of_source()
    ensures { RowsAreOfSource }
{}

/// Each comment and each annotation of a valid job that is kept is that of such a row.
pub fn kept_are_of_source()
    ensures { KeptAreOfSource }
{}
