// Generated from tools/nodes/table.txt; edit that and run tools/nodes/generate.
// Conditional expressions, sequences and assignments (ECMA-262, 13.14 to 13.16).
ghost use Rattle.std.specs.Prelude.{◌≡◌};
ghost use Rattle.jsgen_tree.specs.Rows.{conditional_expression_row, sequence_expression_row, assignment_expression_row};
ghost use Rattle.jsgen_model.specs.Resolved.{after};
ghost use Rattle.jsgen_check.specs.Verdict.{surroundings_plain, tree_verdict, SameNumber};

use crate::heights::{check_node, higher};
use crate::lists::check_expressions;
use crate::rules::{check_assignment_expression_rules, check_sequence_expression_rules};
use crate::{CheckNode, Surroundings, check_child};
use jsgen_model::TreeFault;
use jsgen_rules::Classes;
use jsgen_tree::{AssignmentExpression, ConditionalExpression, NodeSet, SequenceExpression};

#[inline(never)]
pub fn check_conditional_expression<N: CheckNode>(
    node: &ConditionalExpression<N>,
    around: &Surroundings<'_>,
    classes: Option<&Classes<'_>>,
    next: &mut usize,
) -> Result<u64, TreeFault>
    ensures found { result ≡ tree_verdict (surroundings_plain around.now classes.entry) next.old (conditional_expression_row N.plain node.now) }
    ensures number { SameNumber (surroundings_plain around.now classes.entry) next.new (after (conditional_expression_row N.plain node.now) next.old) }
{
    let test = check_child(node.test.get(), NodeSet::Expression, around, classes, next);
    let consequent = check_child(
        node.consequent.get(),
        NodeSet::Expression,
        around,
        classes,
        next,
    );
    let alternate = check_child(
        node.alternate.get(),
        NodeSet::Expression,
        around,
        classes,
        next,
    );
    check_node(
        around,
        classes,
        node.span,
        Ok(()),
        higher(test, higher(consequent, alternate)),
    )
}

#[inline(never)]
pub fn check_sequence_expression<N: CheckNode>(
    node: &SequenceExpression<N>,
    around: &Surroundings<'_>,
    classes: Option<&Classes<'_>>,
    next: &mut usize,
) -> Result<u64, TreeFault>
    ensures found { result ≡ tree_verdict (surroundings_plain around.now classes.entry) next.old (sequence_expression_row N.plain node.now) }
    ensures number { SameNumber (surroundings_plain around.now classes.entry) next.new (after (sequence_expression_row N.plain node.now) next.old) }
{
    let rules = check_sequence_expression_rules(node, around, classes);
    let expressions = check_expressions(&node.expressions, around, classes, next);
    check_node(around, classes, node.span, rules, expressions)
}

#[inline(never)]
pub fn check_assignment_expression<N: CheckNode>(
    node: &AssignmentExpression<N>,
    around: &Surroundings<'_>,
    classes: Option<&Classes<'_>>,
    next: &mut usize,
) -> Result<u64, TreeFault>
    ensures found { result ≡ tree_verdict (surroundings_plain around.now classes.entry) next.old (assignment_expression_row N.plain node.now) }
    ensures number { SameNumber (surroundings_plain around.now classes.entry) next.new (after (assignment_expression_row N.plain node.now) next.old) }
{
    let rules = check_assignment_expression_rules(node, around, classes);
    let left = check_child(
        node.left.get(),
        NodeSet::AssignmentTarget,
        around,
        classes,
        next,
    );
    let right = check_child(node.right.get(), NodeSet::Expression, around, classes, next);
    check_node(around, classes, node.span, rules, higher(left, right))
}
