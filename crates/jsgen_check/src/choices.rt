// Generated from tools/nodes/table.txt; edit that and run tools/nodes/generate.
// Choices between cases, and handlers (ECMA-262, 14.12 and 14.15).
ghost use Rattle.std.specs.Prelude.{◌≡◌};
ghost use Rattle.jsgen_tree.specs.Rows.{switch_statement_row, switch_case_row, try_statement_row, catch_clause_row};
ghost use Rattle.jsgen_model.specs.Resolved.{after};
ghost use Rattle.jsgen_check.specs.Verdict.{surroundings_plain, tree_verdict, SameNumber};

use crate::children::{
    check_optional_binding_pattern, check_optional_block_statement, check_optional_catch_clause,
    check_optional_expression,
};
use crate::heights::{check_node, higher};
use crate::lists::{check_statements, check_switch_cases};
use crate::rules::{check_switch_statement_rules, check_try_statement_rules};
use crate::statements::check_block_statement;
use crate::{CheckNode, Surroundings, check_child};
use jsgen_model::TreeFault;
use jsgen_rules::Classes;
use jsgen_tree::{CatchClause, NodeSet, SwitchCase, SwitchStatement, TryStatement};

#[inline(never)]
pub fn check_switch_statement<N: CheckNode>(
    node: &SwitchStatement<N>,
    around: &Surroundings<'_>,
    classes: Option<&Classes<'_>>,
    next: &mut usize,
) -> Result<u64, TreeFault>
    ensures found { result ≡ tree_verdict (surroundings_plain around.now classes.entry) next.old (switch_statement_row N.plain node.now) }
    ensures number { SameNumber (surroundings_plain around.now classes.entry) next.new (after (switch_statement_row N.plain node.now) next.old) }
{
    let rules = check_switch_statement_rules(node, around, classes);
    let discriminant = check_child(
        node.discriminant.get(),
        NodeSet::Expression,
        around,
        classes,
        next,
    );
    let cases = check_switch_cases(&node.cases, around, classes, next);
    check_node(
        around,
        classes,
        node.span,
        rules,
        higher(discriminant, cases),
    )
}

#[inline(never)]
pub fn check_switch_case<N: CheckNode>(
    node: &SwitchCase<N>,
    around: &Surroundings<'_>,
    classes: Option<&Classes<'_>>,
    next: &mut usize,
) -> Result<u64, TreeFault>
    ensures found { result ≡ tree_verdict (surroundings_plain around.now classes.entry) next.old (switch_case_row N.plain node.now) }
    ensures number { SameNumber (surroundings_plain around.now classes.entry) next.new (after (switch_case_row N.plain node.now) next.old) }
{
    let test = check_optional_expression(&node.test, around, classes, next);
    let consequent = check_statements(&node.consequent, around, classes, next);
    check_node(around, classes, node.span, Ok(()), higher(test, consequent))
}

#[inline(never)]
pub fn check_try_statement<N: CheckNode>(
    node: &TryStatement<N>,
    around: &Surroundings<'_>,
    classes: Option<&Classes<'_>>,
    next: &mut usize,
) -> Result<u64, TreeFault>
    ensures found { result ≡ tree_verdict (surroundings_plain around.now classes.entry) next.old (try_statement_row N.plain node.now) }
    ensures number { SameNumber (surroundings_plain around.now classes.entry) next.new (after (try_statement_row N.plain node.now) next.old) }
{
    let rules = check_try_statement_rules(node, around, classes);
    let block = check_block_statement(&node.block, around, classes, next);
    let handler = check_optional_catch_clause(&node.handler, around, classes, next);
    let finalizer = check_optional_block_statement(&node.finalizer, around, classes, next);
    check_node(
        around,
        classes,
        node.span,
        rules,
        higher(block, higher(handler, finalizer)),
    )
}

#[inline(never)]
pub fn check_catch_clause<N: CheckNode>(
    node: &CatchClause<N>,
    around: &Surroundings<'_>,
    classes: Option<&Classes<'_>>,
    next: &mut usize,
) -> Result<u64, TreeFault>
    ensures found { result ≡ tree_verdict (surroundings_plain around.now classes.entry) next.old (catch_clause_row N.plain node.now) }
    ensures number { SameNumber (surroundings_plain around.now classes.entry) next.new (after (catch_clause_row N.plain node.now) next.old) }
{
    let param = check_optional_binding_pattern(&node.param, around, classes, next);
    let body = check_block_statement(&node.body, around, classes, next);
    check_node(around, classes, node.span, Ok(()), higher(param, body))
}
