//! Lists, what may be there or not, and operands of updates: how members are printed one after another, or beside a sign or a
//! word, whatever they are.
#![tactic(auto)]

mod arguments;
mod braces;
mod cases;
mod elements;
mod elements_of_class;
mod heads;
mod links;
mod maybe;
mod members;
mod patterns;
mod properties;
mod statements;
mod templates;
mod updates;

pub use arguments::{PlainQuotes, PrintArgument, print_argument_lines, print_arguments};
pub use braces::{close_braces, open_braces, print_block_braces, print_empty_braces};
pub use cases::{PrintOnly, print_case, print_case_braces};
pub use elements::{PrintElement, print_array};
pub use elements_of_class::print_class_braces;
pub use heads::{print_accessor_word, print_behind_word, print_in_parentheses, print_key_word};
pub use links::{print_bracket_link, print_name_link, print_named_member};
pub use maybe::{
    print_apart, print_behind_comma, print_behind_space, print_caught, print_comma_between,
    print_if_given, print_value,
};
pub use members::{
    PrintMember, PrintObject, print_in_brackets, print_linked, print_list, print_more,
};
pub use patterns::{print_pattern_braces, print_pattern_brackets};
pub use properties::{PrintProperty, print_object};
pub use statements::{
    PrintStatement, print_body, print_deeper_body, print_statements, print_statements_to,
};
pub use templates::{PrintSubstitution, print_template};
pub use updates::print_update;
