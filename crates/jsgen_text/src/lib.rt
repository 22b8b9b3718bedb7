//! Strings, names, directives, pieces of templates and patterns as they are printed, and laws on their spelling.
#![tactic(auto)]

mod directive;
mod laws;
mod name;
mod raw;
mod spelling;

pub use directive::directive_quote;
pub use jsgen_strings::{cheapest_quote, is_script_close_tag, print_string_text};
pub use jsgen_syntax::{NonAsciiEscape, Quote};
pub use laws::{
    ascii_text_is_ascii, backslashes_taken_out, cheapest_is_shortest, directive_has_one_value,
    no_tag_closes, printed_literal_has_its_value,
};
pub use name::print_name_text;
pub use raw::{
    print_directive_raw, print_non_ascii_escaped, print_regex_pattern,
    print_str_escaping_script_close_tag, print_template_quasi_raw,
};
pub use spelling::{begins_script, spells_string};
