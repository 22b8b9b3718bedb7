// Generated from tools/nodes/table.txt; edit that and run tools/nodes/generate.
// Operations of one operand, and `new` (ECMA-262, clause 13).
ghost use Rattle.std.specs.Prelude.{◌≡◌};
ghost use Rattle.jsgen_tree.specs.Rows.{unary_expression_row, new_target_row, update_expression_row, new_expression_row, super_row, import_meta_row};
ghost use Rattle.jsgen_model.specs.Resolved.{after};
ghost use Rattle.jsgen_check.specs.Verdict.{surroundings_plain, tree_verdict, SameNumber};

use crate::children::check_simple_assignment_target;
use crate::heights::{check_node, higher};
use crate::lists::check_arguments;
use crate::rules::check_update_expression_rules;
use crate::{CheckNode, Surroundings, check_child};
use jsgen_model::TreeFault;
use jsgen_rules::Classes;
use jsgen_tree::{
    ImportMeta, NewExpression, NewTarget, NodeSet, Super, UnaryExpression, UpdateExpression,
};

#[inline(never)]
pub fn check_unary_expression<N: CheckNode>(
    node: &UnaryExpression<N>,
    around: &Surroundings<'_>,
    classes: Option<&Classes<'_>>,
    next: &mut usize,
) -> Result<u64, TreeFault>
    ensures found { result ≡ tree_verdict (surroundings_plain around.now classes.entry) next.old (unary_expression_row N.plain node.now) }
    ensures number { SameNumber (surroundings_plain around.now classes.entry) next.new (after (unary_expression_row N.plain node.now) next.old) }
{
    let argument = check_child(
        node.argument.get(),
        NodeSet::Expression,
        around,
        classes,
        next,
    );
    check_node(around, classes, node.span, Ok(()), argument)
}

pub fn check_new_target(
    node: &NewTarget,
    around: &Surroundings<'_>,
    classes: Option<&Classes<'_>>,
    next: &mut usize,
) -> Result<u64, TreeFault>
    ensures found { result ≡ tree_verdict (surroundings_plain around.now classes.entry) next.old (new_target_row node.now) }
    ensures number { SameNumber (surroundings_plain around.now classes.entry) next.new (after (new_target_row node.now) next.old) }
{
    let _ = next;
    check_node(around, classes, node.span, Ok(()), Ok(0))
}

#[inline(never)]
pub fn check_update_expression<N: CheckNode>(
    node: &UpdateExpression<N>,
    around: &Surroundings<'_>,
    classes: Option<&Classes<'_>>,
    next: &mut usize,
) -> Result<u64, TreeFault>
    ensures found { result ≡ tree_verdict (surroundings_plain around.now classes.entry) next.old (update_expression_row N.plain node.now) }
    ensures number { SameNumber (surroundings_plain around.now classes.entry) next.new (after (update_expression_row N.plain node.now) next.old) }
{
    let rules = check_update_expression_rules(node, around, classes);
    let argument = check_simple_assignment_target(&node.argument, around, classes, next);
    check_node(around, classes, node.span, rules, argument)
}

#[inline(never)]
pub fn check_new_expression<N: CheckNode>(
    node: &NewExpression<N>,
    around: &Surroundings<'_>,
    classes: Option<&Classes<'_>>,
    next: &mut usize,
) -> Result<u64, TreeFault>
    ensures found { result ≡ tree_verdict (surroundings_plain around.now classes.entry) next.old (new_expression_row N.plain node.now) }
    ensures number { SameNumber (surroundings_plain around.now classes.entry) next.new (after (new_expression_row N.plain node.now) next.old) }
{
    let callee = check_child(
        node.callee.get(),
        NodeSet::Expression,
        around,
        classes,
        next,
    );
    let arguments = check_arguments(&node.arguments, around, classes, next);
    check_node(
        around,
        classes,
        node.span,
        Ok(()),
        higher(callee, arguments),
    )
}

pub fn check_super(
    node: &Super,
    around: &Surroundings<'_>,
    classes: Option<&Classes<'_>>,
    next: &mut usize,
) -> Result<u64, TreeFault>
    ensures found { result ≡ tree_verdict (surroundings_plain around.now classes.entry) next.old (super_row node.now) }
    ensures number { SameNumber (surroundings_plain around.now classes.entry) next.new (after (super_row node.now) next.old) }
{
    let _ = next;
    check_node(around, classes, node.span, Ok(()), Ok(0))
}

pub fn check_import_meta(
    node: &ImportMeta,
    around: &Surroundings<'_>,
    classes: Option<&Classes<'_>>,
    next: &mut usize,
) -> Result<u64, TreeFault>
    ensures found { result ≡ tree_verdict (surroundings_plain around.now classes.entry) next.old (import_meta_row node.now) }
    ensures number { SameNumber (surroundings_plain around.now classes.entry) next.new (after (import_meta_row node.now) next.old) }
{
    let _ = next;
    check_node(around, classes, node.span, Ok(()), Ok(0))
}
