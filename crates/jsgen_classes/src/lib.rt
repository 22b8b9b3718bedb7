//! Classes and private names, however what nests in them is printed (ECMA-262, 15.7).
#![tactic(auto)]

mod classes;
mod elements;
mod private;

pub use classes::{print_class, print_class_body};
pub use elements::{print_method_definition, print_property_definition, print_static_block};
pub use private::{
    print_private_field_expression, print_private_identifier, print_private_in_expression,
};
