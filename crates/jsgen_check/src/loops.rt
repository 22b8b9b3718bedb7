// Generated from tools/nodes/table.txt; edit that and run tools/nodes/generate.
// Loops, labels and jumps (ECMA-262, 14.7 to 14.10, 14.13, 14.14 and 14.16).
ghost use Rattle.std.specs.Prelude.{◌≡◌};
ghost use Rattle.jsgen_tree.specs.Rows.{for_statement_row, for_in_statement_row, for_of_statement_row, while_statement_row, do_while_statement_row, label_identifier_row, labeled_statement_row, continue_statement_row, break_statement_row, return_statement_row, throw_statement_row, debugger_statement_row};
ghost use Rattle.jsgen_model.specs.Resolved.{after};
ghost use Rattle.jsgen_check.specs.Verdict.{surroundings_plain, tree_verdict, SameNumber};

use crate::children::{
    check_for_statement_left, check_optional_expression, check_optional_for_statement_init,
    check_optional_label_identifier,
};
use crate::heights::{check_node, higher};
use crate::rules::{
    check_do_while_statement_rules, check_for_in_statement_rules, check_for_of_statement_rules,
    check_for_statement_rules, check_label_identifier_rules, check_labeled_statement_rules,
    check_return_statement_rules, check_while_statement_rules,
};
use crate::{CheckNode, Surroundings, check_child};
use jsgen_model::TreeFault;
use jsgen_rules::Classes;
use jsgen_tree::{
    BreakStatement, ContinueStatement, DebuggerStatement, DoWhileStatement, ForInStatement,
    ForOfStatement, ForStatement, LabelIdentifier, LabeledStatement, NodeSet, ReturnStatement,
    ThrowStatement, WhileStatement,
};

#[inline(never)]
pub fn check_for_statement<N: CheckNode>(
    node: &ForStatement<N>,
    around: &Surroundings<'_>,
    classes: Option<&Classes<'_>>,
    next: &mut usize,
) -> Result<u64, TreeFault>
    ensures found { result ≡ tree_verdict (surroundings_plain around.now classes.entry) next.old (for_statement_row N.plain node.now) }
    ensures number { SameNumber (surroundings_plain around.now classes.entry) next.new (after (for_statement_row N.plain node.now) next.old) }
{
    let rules = check_for_statement_rules(node, around, classes);
    let init = check_optional_for_statement_init(&node.init, around, classes, next);
    let test = check_optional_expression(&node.test, around, classes, next);
    let update = check_optional_expression(&node.update, around, classes, next);
    let body = check_child(node.body.get(), NodeSet::Statement, around, classes, next);
    check_node(
        around,
        classes,
        node.span,
        rules,
        higher(init, higher(test, higher(update, body))),
    )
}

#[inline(never)]
pub fn check_for_in_statement<N: CheckNode>(
    node: &ForInStatement<N>,
    around: &Surroundings<'_>,
    classes: Option<&Classes<'_>>,
    next: &mut usize,
) -> Result<u64, TreeFault>
    ensures found { result ≡ tree_verdict (surroundings_plain around.now classes.entry) next.old (for_in_statement_row N.plain node.now) }
    ensures number { SameNumber (surroundings_plain around.now classes.entry) next.new (after (for_in_statement_row N.plain node.now) next.old) }
{
    let rules = check_for_in_statement_rules(node, around, classes);
    let left = check_for_statement_left(&node.left, around, classes, next);
    let right = check_child(node.right.get(), NodeSet::Expression, around, classes, next);
    let body = check_child(node.body.get(), NodeSet::Statement, around, classes, next);
    check_node(
        around,
        classes,
        node.span,
        rules,
        higher(left, higher(right, body)),
    )
}

#[inline(never)]
pub fn check_for_of_statement<N: CheckNode>(
    node: &ForOfStatement<N>,
    around: &Surroundings<'_>,
    classes: Option<&Classes<'_>>,
    next: &mut usize,
) -> Result<u64, TreeFault>
    ensures found { result ≡ tree_verdict (surroundings_plain around.now classes.entry) next.old (for_of_statement_row N.plain node.now) }
    ensures number { SameNumber (surroundings_plain around.now classes.entry) next.new (after (for_of_statement_row N.plain node.now) next.old) }
{
    let rules = check_for_of_statement_rules(node, around, classes);
    let left = check_for_statement_left(&node.left, around, classes, next);
    let right = check_child(node.right.get(), NodeSet::Expression, around, classes, next);
    let body = check_child(node.body.get(), NodeSet::Statement, around, classes, next);
    check_node(
        around,
        classes,
        node.span,
        rules,
        higher(left, higher(right, body)),
    )
}

#[inline(never)]
pub fn check_while_statement<N: CheckNode>(
    node: &WhileStatement<N>,
    around: &Surroundings<'_>,
    classes: Option<&Classes<'_>>,
    next: &mut usize,
) -> Result<u64, TreeFault>
    ensures found { result ≡ tree_verdict (surroundings_plain around.now classes.entry) next.old (while_statement_row N.plain node.now) }
    ensures number { SameNumber (surroundings_plain around.now classes.entry) next.new (after (while_statement_row N.plain node.now) next.old) }
{
    let rules = check_while_statement_rules(node, around, classes);
    let test = check_child(node.test.get(), NodeSet::Expression, around, classes, next);
    let body = check_child(node.body.get(), NodeSet::Statement, around, classes, next);
    check_node(around, classes, node.span, rules, higher(test, body))
}

#[inline(never)]
pub fn check_do_while_statement<N: CheckNode>(
    node: &DoWhileStatement<N>,
    around: &Surroundings<'_>,
    classes: Option<&Classes<'_>>,
    next: &mut usize,
) -> Result<u64, TreeFault>
    ensures found { result ≡ tree_verdict (surroundings_plain around.now classes.entry) next.old (do_while_statement_row N.plain node.now) }
    ensures number { SameNumber (surroundings_plain around.now classes.entry) next.new (after (do_while_statement_row N.plain node.now) next.old) }
{
    let rules = check_do_while_statement_rules(node, around, classes);
    let body = check_child(node.body.get(), NodeSet::Statement, around, classes, next);
    let test = check_child(node.test.get(), NodeSet::Expression, around, classes, next);
    check_node(around, classes, node.span, rules, higher(body, test))
}

pub fn check_label_identifier(
    node: &LabelIdentifier,
    around: &Surroundings<'_>,
    classes: Option<&Classes<'_>>,
    next: &mut usize,
) -> Result<u64, TreeFault>
    ensures found { result ≡ tree_verdict (surroundings_plain around.now classes.entry) next.old (label_identifier_row node.now) }
    ensures number { SameNumber (surroundings_plain around.now classes.entry) next.new (after (label_identifier_row node.now) next.old) }
{
    let rules = check_label_identifier_rules(node, around, classes);
    let _ = next;
    check_node(around, classes, node.span, rules, Ok(0))
}

#[inline(never)]
pub fn check_labeled_statement<N: CheckNode>(
    node: &LabeledStatement<N>,
    around: &Surroundings<'_>,
    classes: Option<&Classes<'_>>,
    next: &mut usize,
) -> Result<u64, TreeFault>
    ensures found { result ≡ tree_verdict (surroundings_plain around.now classes.entry) next.old (labeled_statement_row N.plain node.now) }
    ensures number { SameNumber (surroundings_plain around.now classes.entry) next.new (after (labeled_statement_row N.plain node.now) next.old) }
{
    let rules = check_labeled_statement_rules(node, around, classes);
    let label = check_label_identifier(&node.label, around, classes, next);
    let body = check_child(node.body.get(), NodeSet::Statement, around, classes, next);
    check_node(around, classes, node.span, rules, higher(label, body))
}

#[inline(never)]
pub fn check_continue_statement(
    node: &ContinueStatement,
    around: &Surroundings<'_>,
    classes: Option<&Classes<'_>>,
    next: &mut usize,
) -> Result<u64, TreeFault>
    ensures found { result ≡ tree_verdict (surroundings_plain around.now classes.entry) next.old (continue_statement_row node.now) }
    ensures number { SameNumber (surroundings_plain around.now classes.entry) next.new (after (continue_statement_row node.now) next.old) }
{
    let label = check_optional_label_identifier(&node.label, around, classes, next);
    check_node(around, classes, node.span, Ok(()), label)
}

#[inline(never)]
pub fn check_break_statement(
    node: &BreakStatement,
    around: &Surroundings<'_>,
    classes: Option<&Classes<'_>>,
    next: &mut usize,
) -> Result<u64, TreeFault>
    ensures found { result ≡ tree_verdict (surroundings_plain around.now classes.entry) next.old (break_statement_row node.now) }
    ensures number { SameNumber (surroundings_plain around.now classes.entry) next.new (after (break_statement_row node.now) next.old) }
{
    let label = check_optional_label_identifier(&node.label, around, classes, next);
    check_node(around, classes, node.span, Ok(()), label)
}

#[inline(never)]
pub fn check_return_statement<N: CheckNode>(
    node: &ReturnStatement<N>,
    around: &Surroundings<'_>,
    classes: Option<&Classes<'_>>,
    next: &mut usize,
) -> Result<u64, TreeFault>
    ensures found { result ≡ tree_verdict (surroundings_plain around.now classes.entry) next.old (return_statement_row N.plain node.now) }
    ensures number { SameNumber (surroundings_plain around.now classes.entry) next.new (after (return_statement_row N.plain node.now) next.old) }
{
    let rules = check_return_statement_rules(node, around, classes);
    let argument = check_optional_expression(&node.argument, around, classes, next);
    check_node(around, classes, node.span, rules, argument)
}

#[inline(never)]
pub fn check_throw_statement<N: CheckNode>(
    node: &ThrowStatement<N>,
    around: &Surroundings<'_>,
    classes: Option<&Classes<'_>>,
    next: &mut usize,
) -> Result<u64, TreeFault>
    ensures found { result ≡ tree_verdict (surroundings_plain around.now classes.entry) next.old (throw_statement_row N.plain node.now) }
    ensures number { SameNumber (surroundings_plain around.now classes.entry) next.new (after (throw_statement_row N.plain node.now) next.old) }
{
    let argument = check_child(
        node.argument.get(),
        NodeSet::Expression,
        around,
        classes,
        next,
    );
    check_node(around, classes, node.span, Ok(()), argument)
}

pub fn check_debugger_statement(
    node: &DebuggerStatement,
    around: &Surroundings<'_>,
    classes: Option<&Classes<'_>>,
    next: &mut usize,
) -> Result<u64, TreeFault>
    ensures found { result ≡ tree_verdict (surroundings_plain around.now classes.entry) next.old (debugger_statement_row node.now) }
    ensures number { SameNumber (surroundings_plain around.now classes.entry) next.new (after (debugger_statement_row node.now) next.old) }
{
    let _ = next;
    check_node(around, classes, node.span, Ok(()), Ok(0))
}
