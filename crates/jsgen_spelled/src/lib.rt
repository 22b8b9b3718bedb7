// Generated from tools/nodes/table.txt; edit that and run tools/nodes/generate.
//! Rows of the table of nodes, printed by their spelling.
#![tactic(auto)]

mod assignments;
mod collections;
mod expressions;
mod functions;
mod loops;
mod members;
mod operations;
mod statements;

pub use assignments::{print_conditional_expression, print_sequence_expression};
pub use collections::print_spread_element;
pub use expressions::{
    print_identifier_name, print_null_literal, print_parenthesized_expression,
    print_reg_exp_literal, print_this_expression,
};
pub use functions::{
    print_await_expression, print_formal_parameter, print_formal_parameter_rest,
    print_yield_expression,
};
pub use loops::{
    print_break_statement, print_continue_statement, print_debugger_statement,
    print_label_identifier, print_labeled_statement, print_return_statement, print_throw_statement,
    print_while_statement,
};
pub use members::{Leaves, Rows};
pub use operations::{print_import_meta, print_new_target, print_super, print_unary_expression};
pub use statements::{
    print_empty_statement, print_expression_statement, print_variable_declaration,
    print_variable_declarator,
};
