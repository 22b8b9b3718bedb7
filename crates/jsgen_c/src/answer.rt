// What a call tells besides its status, as numbers.
ghost use Rattle.std.specs.Prelude.{◌≡◌};
ghost use Rattle.jsgen_c.specs.Numbers.{no_numbers, text_numbers, rule_numbers, place_numbers, fault_numbers};

use jsgen::{InputFault, TreeFault};

/// The numbers of an answer, in a struct of the caller's. Those that the status and the rule don't speak of are 0.
#[derive(Clone, Copy, Debug, PartialEq, Eq)]
#[repr(C)]
pub struct Answer {
    /// The bytes of the text.
    pub text_length: usize,
    /// A row of the job, where `has_row` is 1.
    pub row: usize,
    /// A field of that row, or else of the job's head.
    pub field: usize,
    pub has_row: u32,
    /// The start of the span of the node at which a rule is broken.
    pub start: u32,
    /// The rule that a tree breaks, or the fault by which bytes are no job.
    pub rule: u32,
}

impl Answer {
    /// Where there is nothing to tell.
    pub fn nothing() -> Answer
        ensures { result ≡ no_numbers }
    {
        Answer {
            text_length: 0,
            row: 0,
            field: 0,
            has_row: 0,
            start: 0,
            rule: 0,
        }
    }

    /// The length of a text.
    pub fn of_text(length: usize) -> Answer
        ensures { result ≡ text_numbers length }
    {
        Answer {
            text_length: length,
            ..Answer::nothing()
        }
    }

    /// A rule that is broken, and where.
    pub fn of_rule(fault: TreeFault) -> Answer
        ensures { result ≡ rule_numbers fault }
    {
        let (rule, start) = match fault {
            TreeFault::Place { start } => (1, start),
            TreeFault::Name { start } => (2, start),
            TreeFault::Literal { start } => (3, start),
            TreeFault::Template { start } => (4, start),
            TreeFault::Span { start } => (5, start),
            TreeFault::Comment { start } => (6, start),
            TreeFault::Indent { start } => (7, start),
        };
        Answer {
            rule,
            start,
            ..Answer::nothing()
        }
    }

    /// A fault by which bytes are no job, and where.
    pub fn of_fault(fault: InputFault) -> Answer
        ensures { result ≡ fault_numbers fault }
    {
        match fault {
            InputFault::Json => Answer::of_place(11, None, 0),
            InputFault::Float(at) => Answer::of_place(12, at.row, at.field),
            InputFault::Missing(at) => Answer::of_place(13, at.row, at.field),
            InputFault::Wrong(at) => Answer::of_place(14, at.row, at.field),
            InputFault::Child(at) => Answer::of_place(15, at.row, at.field),
            InputFault::Shared(row) => Answer::of_place(16, Some(row), 0),
            InputFault::Memory => Answer::of_place(17, None, 0),
        }
    }

    // A fault, by its number, at a field of a row or else of the head.
    fn of_place(rule: u32, row: Option<usize>, field: usize) -> Answer
        ensures { result ≡ place_numbers rule row field }
    {
        let (has_row, row) = match row {
            None => (0, 0),
            Some(row) => (1, row),
        };
        Answer {
            rule,
            row,
            has_row,
            field,
            ..Answer::nothing()
        }
    }
}
