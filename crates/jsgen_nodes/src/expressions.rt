// Expressions (ECMA-262, clause 13), one function for each row.
ghost use Rattle.std.specs.Prelude.{true, decimal};
ghost use Rattle.jsgen_tree.specs.Rows.{boolean_literal_row, numeric_literal_row, big_int_literal_row, string_literal_row, binary_expression_row, logical_expression_row, static_member_expression_row, computed_member_expression_row, call_expression_row, chain_expression_row, in_argument, in_chain_element};
ghost use Rattle.jsgen_tree.specs.Tree.{atoms_of};
ghost use Rattle.jsgen_tree.specs.Values.{numeric_literal_kind};
ghost use Rattle.jsgen_model.specs.Items.{word};
ghost use Rattle.jsgen_model.specs.Spell.{spell, truth_word, number_items, signed};
ghost use Rattle.jsgen_printer.specs.Steps.{Lays};
ghost use Rattle.jsgen_nodes.specs.Calls.{from_callee};

use crate::PrintNode;
use crate::inside::Inside;
use crate::quotes::{is_mark, plain_quotes};
use jsgen_classes::print_private_field_expression;
use jsgen_inside::Nested;
use jsgen_lists::{
    PrintArgument, print_arguments, print_bracket_link, print_linked, print_named_member,
};
use jsgen_place::Place;
use jsgen_printer::{Bracket, CommentsBefore, Printer};
use jsgen_questions::{left_level, right_level, takes_no_dot, unmixed};
use jsgen_spelled::print_spread_element;
use jsgen_syntax::{GetPrecedence, Precedence, Span};
use jsgen_tree::{
    Argument, BigIntLiteral, BinaryExpression, BooleanLiteral, CallExpression, ChainElement,
    ChainExpression, ComputedMemberExpression, LogicalExpression, NumericLiteral, NumericValue,
    StaticMemberExpression, StringLiteral, behind_minus,
};

pub fn print_boolean_literal(node: &BooleanLiteral, p: &mut Printer<'_>, place: Place)
    ensures { Lays p.old p.new (spell (boolean_literal_row node.now) place) }
{
    let _ = place;
    p.print_mark(node.span);
    print_truth(node.value, p);
}

fn print_truth(value: bool, p: &mut Printer<'_>)
    ensures { Lays p.old p.new (word (truth_word value)) }
{
    p.print_word(if value { "true" } else { "false" });
}

pub fn print_numeric_literal(node: &NumericLiteral, p: &mut Printer<'_>, place: Place)
    ensures { Lays p.old p.new (spell (numeric_literal_row node.now) place) }
{
    p.print_mark(node.span);
    print_number(node, p, place);
}

// The number itself.
fn print_number(node: &NumericLiteral, p: &mut Printer<'_>, place: Place)
    ensures { Lays p.old p.new (number_items (numeric_literal_kind (atoms_of (numeric_literal_row node.now))) (atoms_of (numeric_literal_row node.now)) place) }
{
    match &node.value {
        NumericValue::Whole { negative, digits } => print_whole(*negative, *digits, p, place),
        NumericValue::Raw(text) => p.print_number(text.as_str(), !takes_no_dot(text.as_str())),
    }
}

fn print_whole(negative: bool, digits: u128, p: &mut Printer<'_>, place: Place)
    ensures { Lays p.old p.new (signed true negative (decimal digits) place) }
{
    if negative {
        p.print_negative_whole_number(place.wraps(Precedence::Prefix), digits);
    } else {
        p.print_whole_number(digits);
    }
}

pub fn print_big_int_literal(node: &BigIntLiteral, p: &mut Printer<'_>, place: Place)
    ensures { Lays p.old p.new (spell (big_int_literal_row node.now) place) }
{
    let value = node.value.as_str();
    match behind_minus(value) {
        Some(digits) => p.print_negative_big_integer(
            node.span,
            place.wraps(Precedence::Prefix),
            digits,
        ),
        None => p.print_marked_big_integer(node.span, value),
    }
}

pub fn print_string_literal(node: &StringLiteral, p: &mut Printer<'_>, place: Place)
    ensures { Lays p.old p.new (spell (string_literal_row node.now) place) }
{
    p.print_key_comments(node.span.start);
    p.print_mark(node.span);
    p.print_string(&node.value, !place.plain_quotes);
}

pub fn print_binary_expression<N: PrintNode>(
    node: &BinaryExpression<N>,
    p: &mut Printer<'_>,
    place: Place,
)
    ensures { Lays p.old p.new (spell (binary_expression_row N.plain node.now) place) }
{
    let wrap = place.wraps_binary(node.operator);
    p.print_opening_if(wrap);
    let within = place.within(wrap);
    let left = node.left.get();
    let level = left_level(node.operator, left.operand());
    let before = within.left_operand(level);
    left.print(p, before.quoted_plainly(is_mark(node.operator, left)));
    p.print_soft_space();
    p.print_operator(node.operator);
    p.print_soft_space();
    let right = node.right.get();
    let behind = within.child(right_level(node.operator));
    right.print(p, behind.quoted_plainly(is_mark(node.operator, right)));
    p.print_closing_if(wrap);
}

pub fn print_logical_expression<N: PrintNode>(
    node: &LogicalExpression<N>,
    p: &mut Printer<'_>,
    place: Place,
)
    ensures { Lays p.old p.new (spell (logical_expression_row N.plain node.now) place) }
{
    let wrap = place.wraps_logical(node.operator);
    p.print_opening_if(wrap);
    let within = place.within(wrap);
    let left = node.left.get();
    let before = unmixed(
        node.operator,
        left.operand(),
        node.operator.lower_precedence(),
    );
    left.print(p, within.left_operand(before));
    p.print_soft_space();
    p.print_logical_sign(node.operator);
    p.print_soft_space();
    let right = node.right.get();
    let behind = unmixed(node.operator, right.operand(), node.operator.precedence());
    right.print_comments_before(CommentsBefore::ForTools, p);
    right.print(p, within.child(behind));
    p.print_closing_if(wrap);
}

pub fn print_static_member_expression<N: PrintNode>(
    node: &StaticMemberExpression<N>,
    p: &mut Printer<'_>,
    place: Place,
)
    ensures { Lays p.old p.new (spell (static_member_expression_row N.plain node.now) place) }
{
    print_named_member::<_, Nested<Inside>>(
        &node.object,
        node.optional,
        &node.property,
        p,
        place.linked(),
    );
}

pub fn print_computed_member_expression<N: PrintNode>(
    node: &ComputedMemberExpression<N>,
    p: &mut Printer<'_>,
    place: Place,
)
    ensures { Lays p.old p.new (spell (computed_member_expression_row N.plain node.now) place) }
{
    let within = Place::in_brackets(Precedence::Lowest);
    print_linked::<_, Nested<Inside>>(&node.object, p, place.linked());
    print_bracket_link(node.optional, p);
    p.print_opening(Bracket::Square);
    node.expression
        .get()
        .print(p, within.quoted_plainly(place.plain_quotes));
    p.print_closing(Bracket::Square);
}

pub fn print_call_expression<N: PrintNode>(
    node: &CallExpression<N>,
    p: &mut Printer<'_>,
    place: Place,
)
    ensures { Lays p.old p.new (spell (call_expression_row N.plain node.now) place) }
{
    let wrap = place.wraps_call();
    let lifted = place.wraps(Precedence::Postfix);
    let wraps = p.begin_call(wrap, lifted, node.pure, node.span, node.span.start);
    print_from_callee(node, p, place.within(wrap));
    p.print_closing_if(wraps);
}

/// What is called and what it is given, within the parentheses.
pub fn print_from_callee<N: PrintNode>(node: &CallExpression<N>, p: &mut Printer<'_>, place: Place)
    ensures { Lays p.old p.new (from_callee (call_expression_row N.plain node.now) place) }
{
    print_linked::<_, Nested<Inside>>(&node.callee, p, place.called());
    print_bracket_link(node.optional, p);
    let within = Place::in_brackets(Precedence::Comma);
    let quotes = plain_quotes(node);
    print_arguments::<_, Arguments>(node.span, quotes, &node.arguments, p, within);
}

pub fn print_chain_expression<N: PrintNode>(
    node: &ChainExpression<N>,
    p: &mut Printer<'_>,
    place: Place,
)
    ensures { Lays p.old p.new (spell (chain_expression_row N.plain node.now) place) }
{
    let wrap = place.wraps_chain();
    p.print_opening_if(wrap);
    print_chain_element(&node.expression, p, place.chain(wrap));
    p.print_closing_if(wrap);
}

fn print_chain_element<N: PrintNode>(node: &ChainElement<N>, p: &mut Printer<'_>, place: Place)
    ensures { Lays p.old p.new (spell (in_chain_element N.plain node.now) place) }
{
    match node {
        ChainElement::StaticMemberExpression(node) => print_static_member_expression(
            node, p, place,
        ),
        ChainElement::ComputedMemberExpression(node) => print_computed_member_expression(
            node, p, place,
        ),
        ChainElement::PrivateFieldExpression(node) => print_private_field_expression::<_, Inside>(
            node, p, place,
        ),
        ChainElement::CallExpression(node) => print_call_expression(node, p, place),
    }
}

/// What a call or a constructor is given.
pub struct Arguments;

impl<N: PrintNode> PrintArgument<Argument<N>> for Arguments {
    ghost plain = { in_argument N.plain };

    fn span(argument: &Argument<N>) -> Span {
        match argument {
            Argument::SpreadElement(node) => node.span,
            Argument::Expression(expression) => expression.get().span(),
        }
    }

    fn print_argument(argument: &Argument<N>, p: &mut Printer<'_>, place: Place) {
        match argument {
            Argument::SpreadElement(node) => print_spread_element::<_, Inside>(node, p, place),
            Argument::Expression(expression) => expression.get().print(p, place),
        }
    }
}
