//! Rows by their number: each can be taken once, as the child of one place.
#![tactic(auto)]

ghost use Rattle.std.specs.Prelude.{◌≡◌, true, Some, IfOk};
ghost use Rattle.jsgen_tree.specs.Tree.{type_of};
ghost use Rattle.jsgen_tree.specs.Sets.{in_set};
ghost use Rattle.jsgen_pool.specs.Pool.{take_text, entry, entries, entry_type, take_row, Takes};

use jsgen_tree::{NodeSet, NodeType};
use std::error::Error;
use std::{fmt, mem};

/// What has a type of node.
pub trait Typed {
    ghost use Rattle.jsgen_tree.specs.Tree.{Tree};

    ghost plain: { Self → Tree };

    fn node_type(&self) -> NodeType
        ensures { result ≡ type_of (plain self.now) };
}

/// A row that was read, or its type where it is a child already.
#[derive(Drop)]
pub enum Kept<R> {
    There(R),
    Taken(NodeType),
}

/// Why a row can't be taken.
#[derive(Clone, Copy, Debug, PartialEq, Eq)]
pub enum TakeFault {
    /// There is no row of this number, or it is of another set.
    Absent,
    /// The row of this number was taken before.
    Taken(usize),
}

impl fmt::Display for TakeFault {
    ghost output = { λ fault. Some (take_text fault) };

    fn fmt<W: fmt::Write>(&self, f: &mut fmt::Formatter<W>) -> fmt::Result {
        match self {
            TakeFault::Absent => f.write_str("no row fits"),
            TakeFault::Taken(row) => write!(f, "row {row} is taken"),
        }
    }
}

impl Error for TakeFault {}

fn kept_type<R: Typed>(kept: &Kept<R>) -> NodeType
    ensures { result ≡ entry_type (entry R.plain kept.now) }
{
    match kept {
        Kept::There(row) => row.node_type(),
        Kept::Taken(node_type) => *node_type,
    }
}

/// Takes the row of a number out, where it is of the set; its type stays behind. A fault ends the reading of a job, so
/// of the rows that it leaves nothing is said.
pub fn take<R: Typed + Drop>(
    rows: &mut Vec<Kept<R>>,
    set: NodeSet,
    number: u64,
) -> Result<R, TakeFault>
    ensures takes { Takes R.plain result (entries R.plain rows.new.items) (take_row set number (entries R.plain rows.old.items)) }
    ensures fits { IfOk result (λ row. true ≡ in_set set (type_of (R.plain row))) }
{
    if number >= rows.len() as u64 {
        return Err(TakeFault::Absent);
    }
    let index = number as usize;
    let node_type = kept_type(&rows[index]);
    if !node_type.is_in(set) {
        return Err(TakeFault::Absent);
    }
    match mem::replace(&mut rows[index], Kept::Taken(node_type)) {
        Kept::There(row) => Ok(row),
        Kept::Taken(_) => Err(TakeFault::Taken(index)),
    }
}
