// Strings that minified text keeps out of backticks, so that Node finds the names that a CommonJS module exports.
ghost use Rattle.std.specs.Prelude.{◌≡◌, true, false, ◌&&◌, map, option_map};
ghost use Rattle.jsgen_syntax.specs.Units.{js_units};
ghost use Rattle.jsgen_syntax.specs.declared.precedence.Precedence.TheVariants.{Comma, Lowest};
ghost use Rattle.jsgen_tree.specs.Tree.{trees, span_of};
ghost use Rattle.jsgen_tree.specs.Inside.{inside_parentheses};
ghost use Rattle.jsgen_tree.specs.Rows.{in_argument, in_expression, assignment_target_plain, expression_plain, computed_member_expression_row, call_expression_row};
ghost use Rattle.jsgen_tree.specs.Plain.{node_plain};
ghost use Rattle.jsgen_place.specs.Place.{free, at_level, quoted_plainly};
ghost use Rattle.jsgen_model.specs.Quotes.{is_string, is_one_string, has_second_string, defines_property, is_exports, is_key_of_exports, is_require_call, is_definition_call, is_export_mark};
ghost use Rattle.jsgen_model.specs.Spell.{spell, string_in};
ghost use Rattle.jsgen_printer.specs.Printer.{pen_of};
ghost use Rattle.jsgen_printer.specs.Steps.{Lays};
ghost use Rattle.jsgen_nodes.specs.Calls.{from_callee};
ghost use Rattle.jsgen_nodes.specs.Quotes.{where_it_holds, plain_string};

use crate::PrintNode;
use crate::collections::key_string;
use crate::expressions::print_from_callee;
use crate::sets::print_assignment_target;
use jsgen_asked::inside_parentheses;
use jsgen_lists::PlainQuotes;
use jsgen_place::{Context, Place};
use jsgen_printer::Printer;
use jsgen_questions::{
    inner_span, inner_string, is_definition_call, is_export_mark, is_require_call,
};
use jsgen_syntax::{BinaryOperator, JsStr, Precedence, Span};
use jsgen_tree::{
    Argument, AssignmentTarget, CallExpression, ComputedMemberExpression, Expression,
};

// ---- what is asked

fn is_string<N: PrintNode>(node: &N) -> bool
    ensures { result ≡ is_string (N.plain node.now) }
{
    key_string(node).is_some()
}

fn is_string_argument<N: PrintNode>(argument: &Argument<N>) -> bool
    ensures { result ≡ is_string (in_argument N.plain argument.now) }
{
    match argument {
        Argument::SpreadElement(_) => false,
        Argument::Expression(node) => is_string(node.get()),
    }
}

fn is_one_string<N: PrintNode>(arguments: &[Argument<N>]) -> bool
    ensures { result ≡ is_one_string (trees (map (in_argument N.plain) arguments.now)) }
{
    match arguments.split_first() {
        Some((first, others)) => others.is_empty() && is_string_argument(first),
        None => false,
    }
}

fn has_second_string<N: PrintNode>(arguments: &[Argument<N>]) -> bool
    ensures { result ≡ has_second_string (trees (map (in_argument N.plain) arguments.now)) }
{
    match arguments.get(1) {
        Some(second) => is_string_argument(second),
        None => false,
    }
}

fn defines_property<N: PrintNode>(callee: &N) -> bool
    ensures { result ≡ defines_property (N.plain callee.now) }
{
    callee.is_member("Object", "defineProperty") || callee.is_member("Reflect", "defineProperty")
}

fn is_exports<N: PrintNode>(node: &N) -> bool
    ensures { result ≡ is_exports (N.plain node.now) }
{
    node.is_named("exports") || node.is_member("module", "exports")
}

/// The same of a member.
pub fn member_is_key_of_exports<N: PrintNode>(node: &ComputedMemberExpression<N>) -> bool
    ensures { result ≡ is_key_of_exports (computed_member_expression_row N.plain node.now) }
{
    is_exports(node.object.get()) && is_string(node.expression.get())
}

/// Whether the key in what is given a value is never in backticks.
pub fn is_key_of_exports<N: PrintNode>(target: &AssignmentTarget<N>) -> bool
    ensures { result ≡ is_key_of_exports (assignment_target_plain N.plain target.now) }
{
    match target {
        AssignmentTarget::ComputedMemberExpression(node) => member_is_key_of_exports(node),
        _ => false,
    }
}

fn is_require<N: PrintNode>(call: &CallExpression<N>) -> bool
    ensures { result ≡ is_require_call (in_expression N.plain call.now.callee) (trees (map (in_argument N.plain) call.now.arguments.items)) }
{
    is_require_call(
        call.callee.get().is_named("require"),
        is_one_string(&call.arguments),
    )
}

fn is_definition<N: PrintNode>(call: &CallExpression<N>) -> bool
    ensures { result ≡ is_definition_call (in_expression N.plain call.now.callee) (trees (map (in_argument N.plain) call.now.arguments.items)) }
{
    is_definition_call(
        defines_property(call.callee.get()),
        has_second_string(&call.arguments),
    )
}

/// Which arguments of a call are never in backticks.
pub fn plain_quotes<N: PrintNode>(call: &CallExpression<N>) -> PlainQuotes
    ensures first { result.first ≡ is_require_call (in_expression N.plain call.now.callee) (trees (map (in_argument N.plain) call.now.arguments.items)) }
    ensures second { result.second ≡ is_definition_call (in_expression N.plain call.now.callee) (trees (map (in_argument N.plain) call.now.arguments.items)) }
{
    PlainQuotes {
        first: is_require(call),
        second: is_definition(call),
    }
}

/// Whether an operand is a string that is never in backticks.
pub fn is_mark<N: PrintNode>(operator: BinaryOperator, operand: &N) -> bool
    ensures { result ≡ is_export_mark operator (N.plain operand.now) }
{
    is_export_mark(operator, operand.string())
}

// ---- the calls

/// Prints the call `require("x")`, if the call is that and the text minified; otherwise prints nothing.
pub fn try_print_require_call<N: PrintNode>(p: &mut Printer<'_>, call: &CallExpression<N>) -> bool
    ensures applies { result ≡ ((pen_of p.old).style.minified && is_require_call (in_expression N.plain call.now.callee) (trees (map (in_argument N.plain) call.now.arguments.items))) }
    ensures text { Lays p.old p.new (where_it_holds ((pen_of p.old).style.minified && is_require_call (in_expression N.plain call.now.callee) (trees (map (in_argument N.plain) call.now.arguments.items)))
        (from_callee (call_expression_row N.plain call.now) (at_level Lowest free))) }
{
    let applies = p.is_minified() && is_require(call);
    print_call_if(applies, p, call, Context::FREE);
    applies
}

/// Prints the call `Object.defineProperty(x, "y", ..)` or `Reflect.defineProperty(x, "y", ..)`, if the call is one of these and
/// the text minified; otherwise prints nothing.
pub fn try_print_define_property_call<N: PrintNode>(
    p: &mut Printer<'_>,
    call: &CallExpression<N>,
    context: Context,
) -> bool
    ensures applies { result ≡ ((pen_of p.old).style.minified && is_definition_call (in_expression N.plain call.now.callee) (trees (map (in_argument N.plain) call.now.arguments.items))) }
    ensures text { Lays p.old p.new (where_it_holds ((pen_of p.old).style.minified && is_definition_call (in_expression N.plain call.now.callee) (trees (map (in_argument N.plain) call.now.arguments.items)))
        (from_callee (call_expression_row N.plain call.now) (at_level Lowest context))) }
{
    let applies = p.is_minified() && is_definition(call);
    print_call_if(applies, p, call, context);
    applies
}

// The call from what is called on, where the test holds.
fn print_call_if<N: PrintNode>(
    test: bool,
    p: &mut Printer<'_>,
    call: &CallExpression<N>,
    context: Context,
)
    ensures { Lays p.old p.new (where_it_holds test (from_callee (call_expression_row N.plain call.now) (at_level Lowest context))) }
{
    if test {
        print_from_callee(call, p, Place::at_level(Precedence::Lowest, context));
    }
}

/// Prints `exports["x"]` or `module.exports["x"]`, if the target is one of these and the text minified; otherwise prints nothing.
pub fn try_print_exports_computed_target<N: PrintNode>(
    p: &mut Printer<'_>,
    target: &AssignmentTarget<N>,
    context: Context,
) -> bool
    ensures applies { result ≡ ((pen_of p.old).style.minified && is_key_of_exports (assignment_target_plain N.plain target.now)) }
    ensures text { Lays p.old p.new (where_it_holds ((pen_of p.old).style.minified && is_key_of_exports (assignment_target_plain N.plain target.now))
        (spell (assignment_target_plain N.plain target.now) (quoted_plainly true (at_level Comma context)))) }
{
    let applies = p.is_minified() && is_key_of_exports(target);
    print_target_if(applies, p, target, context);
    applies
}

fn print_target_if<N: PrintNode>(
    test: bool,
    p: &mut Printer<'_>,
    target: &AssignmentTarget<N>,
    context: Context,
)
    ensures { Lays p.old p.new (where_it_holds test (spell (assignment_target_plain N.plain target.now) (quoted_plainly true (at_level Comma context)))) }
{
    if test {
        let place = Place::at_level(Precedence::Comma, context);
        print_assignment_target(target, p, place.quoted_plainly(true));
    }
}

/// Prints the operand, if it is `"default"` or `"__esModule"`, the operator compares by equality and the text is minified;
/// otherwise prints nothing.
pub fn try_print_equality_string(
    p: &mut Printer<'_>,
    operator: BinaryOperator,
    operand: &Expression,
) -> bool
    ensures applies { result ≡ ((pen_of p.old).style.minified && is_export_mark operator (expression_plain node_plain operand.now)) }
    ensures text { Lays p.old p.new (where_it_holds ((pen_of p.old).style.minified && is_export_mark operator (expression_plain node_plain operand.now))
        (plain_string (span_of (inside_parentheses (expression_plain node_plain operand.now))) (string_in (inside_parentheses (expression_plain node_plain operand.now))))) }
{
    let inner = inside_parentheses(operand);
    let string = inner_string(inner);
    let applies = p.is_minified() && is_export_mark(operator, string);
    print_string_if(applies, inner_span(inner), string, p);
    applies
}

fn print_string_if(test: bool, span: Span, string: Option<&JsStr>, p: &mut Printer<'_>)
    ensures { Lays p.old p.new (where_it_holds test (plain_string span (option_map (λ v. js_units v.now) string.entry))) }
{
    if test {
        print_plain_string(span, string, p);
    }
}

fn print_plain_string(span: Span, string: Option<&JsStr>, p: &mut Printer<'_>)
    ensures { Lays p.old p.new (plain_string span (option_map (λ v. js_units v.now) string.entry)) }
{
    match string {
        Some(value) => {
            p.print_mark(span);
            p.print_string(value, false);
        }
        None => {}
    }
}
