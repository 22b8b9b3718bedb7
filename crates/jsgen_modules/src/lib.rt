//! Imports, exports and hashbangs, however what nests in them is printed (ECMA-262, 16.2 and 12.5).
#![tactic(auto)]

mod attributes;
mod exports;
mod imports;
mod names;
mod parts;

pub use attributes::{print_hashbang, print_import_attribute, print_with_clause};
pub use exports::{
    print_export_all_declaration, print_export_declaration, print_export_from_declaration,
    print_export_named_declaration, print_export_specifier,
};
pub use imports::{
    print_import_declaration, print_import_default_specifier, print_import_namespace_specifier,
    print_import_specifier,
};
pub use names::print_module_export_name;
pub use parts::begin_export;
