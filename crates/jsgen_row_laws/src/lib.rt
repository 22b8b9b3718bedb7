//! Below the reading law: what is printed of each type of node is read as it, given its parts; and what normal forms keep. It goes over
//! definitions alone, and mentions no printer.
#![tactic(auto)]

ghost use Rattle.jsgen_row_laws.specs.Law.{NoTablesRenameNothing, NormalIsNormal};

/// A normal form is its own.
pub fn normal_is_normal()
    ensures { NormalIsNormal }
{}

/// Without tables a program keeps its names.
pub fn no_tables_rename_nothing()
    ensures { NoTablesRenameNothing }
{}
