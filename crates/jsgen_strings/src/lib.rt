//! Strings as they are printed, and the steps that other texts are printed by too: code points, escapes and quotes.
#![tactic(auto)]

mod escapes;
mod points;
mod printed;
mod quotes;

pub use escapes::{print_ascii, print_character_escape, print_unit_escapes};
pub use points::{
    Point, begins_past_ascii, begins_script, begins_with_dollar, plain_len, take_point,
};
pub use printed::{is_script_close_tag, print_string_text};
pub use quotes::cheapest_quote;
