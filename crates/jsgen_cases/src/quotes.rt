// The calls that keep the strings of a CommonJS module out of backticks.
use jsgen_nodes::quotes::{
    try_print_define_property_call, try_print_equality_string, try_print_exports_computed_target,
    try_print_require_call,
};
use jsgen_place::Context;
use jsgen_printer::Printer;
use jsgen_syntax::Memory;
use jsgen_tree::{Expression, Node};

/// What a printer printed, behind `applies` where a call applied.
pub fn push_tried(tried: bool, p: Printer<'_>, answer: &mut String) -> Result<(), Memory> {
    if p.has_failed() {
        return Err(Memory);
    }
    answer.push_str(if tried { "applies " } else { "none" })?;
    Ok(answer.push_str(&p.into_string())?)
}

/// Tries the call that is for such an expression; for a call there are two.
pub fn try_print(p: &mut Printer<'_>, node: Option<&Expression>) -> bool {
    match node {
        Some(Expression::CallExpression(call)) => {
            let is_required = try_print_require_call(p, call);
            let is_defined = try_print_define_property_call(p, call, Context::FREE);
            is_required || is_defined
        }
        Some(Expression::AssignmentExpression(node)) => match node.left.get() {
            Node::AssignmentTarget(target) => {
                try_print_exports_computed_target(p, target, Context::FREE)
            }
            _ => false,
        },
        Some(Expression::BinaryExpression(node)) => match node.right.get() {
            Node::Expression(operand) => try_print_equality_string(p, node.operator, operand),
            _ => false,
        },
        _ => false,
    }
}
