// What a tree is refused by.
ghost use Rattle.std.specs.Prelude.{Some};
ghost use Rattle.jsgen_model.specs.Fault.{rule_text};

use std::error::Error;
use std::fmt;

/// A rule that a tree breaks, with the start of the span of the node at which it is broken, in bytes.
#[derive(Clone, Copy, Debug, PartialEq, Eq)]
pub enum TreeFault {
    /// A node stands where it can't, or lacks a child that it needs.
    Place { start: u32 },
    /// A printed name isn't a name, or is reserved.
    Name { start: u32 },
    /// A literal isn't of its form.
    Literal { start: u32 },
    /// A template isn't of its form.
    Template { start: u32 },
    /// A span has its start after its end, or the source is too long.
    Span { start: u32 },
    /// A comment isn't of its form.
    Comment { start: u32 },
    /// A text could be indented too far.
    Indent { start: u32 },
}

impl fmt::Display for TreeFault {
    ghost output = { λ fault. Some (rule_text fault) };

    fn fmt<W: fmt::Write>(&self, f: &mut fmt::Formatter<W>) -> fmt::Result {
        match self {
            TreeFault::Place { start } => write!(f, "Place at {start}"),
            TreeFault::Name { start } => write!(f, "Name at {start}"),
            TreeFault::Literal { start } => write!(f, "Literal at {start}"),
            TreeFault::Template { start } => write!(f, "Template at {start}"),
            TreeFault::Span { start } => write!(f, "Span at {start}"),
            TreeFault::Comment { start } => write!(f, "Comment at {start}"),
            TreeFault::Indent { start } => write!(f, "Indent at {start}"),
        }
    }
}

impl Error for TreeFault {}
