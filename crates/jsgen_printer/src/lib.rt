//! The text that is being printed: a pen of the layout, and the steps by which it goes on. Once memory has run out no step adds
//! anything, so that they are made one after the other, and whether the text is whole is asked at the end.
#![tactic(auto)]

mod context;
mod laws;
mod marks;
mod operator;
mod owners;
mod printer;
mod same;

pub use context::Context;
pub use jsgen_comments::{AnnotationKind, CommentsMap};
pub use jsgen_syntax::IndentChar;
pub use jsgen_tree::{CodegenOptions, CommentOptions, LegalComment};
pub use laws::a_flag_that_is_unset_leaves_the_others;
pub use marks::Marks;
pub use operator::Operator;
pub use printer::{
    ArgumentLines, Around, Bracket, CommentsBefore, Ending, Lead, Printer, Start, TemplatePart,
};
