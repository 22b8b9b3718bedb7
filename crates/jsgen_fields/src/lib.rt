//! The fields of a job's rows, and what stands in them.
#![tactic(auto)]

ghost use Rattle.std.specs.Prelude.{◌≡◌, Some};
ghost use Rattle.jsgen_fields.specs.Texts.{at_text, fault_text};
ghost use Rattle.jsgen_fields.specs.Values.{at, head};
ghost use Rattle.jsgen_fields.specs.declared.InputFault.TheVariants as faults;

mod children;
pub mod fields;
pub mod floats;
pub mod given;
pub mod head;
pub mod list_fields;
mod names;
pub mod set_fields;
pub mod set_rows;
pub mod strings;
pub mod values;
pub mod words;

use jsgen_syntax::Memory;
use std::alloc::{AllocError, AllocFailed};
use std::error::Error;
use std::fmt;

/// A field of a job: by its number, in a row or, where there is none, in the job's head.
#[derive(Clone, Copy, Debug, PartialEq, Eq)]
pub struct At {
    pub row: Option<usize>,
    pub field: usize,
}

impl At {
    /// A field of the head.
    pub fn of_head(field: usize) -> At
        ensures { result ≡ head field }
    {
        At { row: None, field }
    }

    /// A field of a row.
    pub fn of_row(row: usize, field: usize) -> At
        ensures { result ≡ at row field }
    {
        At {
            row: Some(row),
            field,
        }
    }
}

impl fmt::Display for At {
    ghost output = { λ at. Some (at_text at) };

    fn fmt<W: fmt::Write>(&self, f: &mut fmt::Formatter<W>) -> fmt::Result {
        let field = self.field;
        match self.row {
            None => write!(f, "head field {field}"),
            Some(row) => write!(f, "row {row} field {field}"),
        }
    }
}

/// Why bytes are no job.
#[derive(Clone, Copy, Debug, PartialEq, Eq)]
pub enum InputFault {
    /// The bytes are no JSON object (RFC 8259), in UTF-8.
    Json,
    /// A number that is no whole number, or too large for one.
    Float(At),
    /// A field that is needed isn't there.
    Missing(At),
    /// A value of the wrong kind, an unknown word, a number out of range.
    Wrong(At),
    /// A child that is no earlier row, or a row of another set.
    Child(At),
    /// This row is the child of an earlier place already.
    Shared(usize),
    /// Memory ran out.
    Memory,
}

impl fmt::Display for InputFault {
    ghost output = { λ fault. Some (fault_text fault) };

    fn fmt<W: fmt::Write>(&self, f: &mut fmt::Formatter<W>) -> fmt::Result {
        match self {
            InputFault::Json => f.write_str("Json"),
            InputFault::Float(at) => write!(f, "Float {at}"),
            InputFault::Missing(at) => write!(f, "Missing {at}"),
            InputFault::Wrong(at) => write!(f, "Wrong {at}"),
            InputFault::Child(at) => write!(f, "Child {at}"),
            InputFault::Shared(row) => write!(f, "Shared row {row}"),
            InputFault::Memory => f.write_str("Memory"),
        }
    }
}

impl Error for InputFault {}

impl From<AllocError> for InputFault {
    ghost from_gives = { λ x y. y ≡ faults.Memory };

    fn from(_error: AllocError) -> InputFault {
        InputFault::Memory
    }
}

impl<T: Drop> From<AllocFailed<T>> for InputFault {
    ghost from_gives = { λ x y. y ≡ faults.Memory };

    fn from(_error: AllocFailed<T>) -> InputFault {
        InputFault::Memory
    }
}

impl From<Memory> for InputFault {
    ghost from_gives = { λ x y. y ≡ faults.Memory };

    fn from(_error: Memory) -> InputFault {
        InputFault::Memory
    }
}
