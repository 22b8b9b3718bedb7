// The bodies of classes, which are numbered in the order in which they begin.
ghost use Rattle.std.specs.Prelude.{◌≡◌, map};
ghost use Rattle.jsgen_tree.specs.Tree.{trees};
ghost use Rattle.jsgen_tree.specs.Rows.{class_body_row, in_class_element};
ghost use Rattle.jsgen_tree.specs.declared.types.NodeSet.TheVariants as sets;
ghost use Rattle.jsgen_model.specs.Resolved.{after, after_trees};
ghost use Rattle.jsgen_model.specs.Valid.{within_class};
ghost use Rattle.jsgen_check.specs.Verdict.{surroundings_plain, tree_verdict, children_verdict, SameNumber};

use crate::heights::check_node;
use crate::lists::check_class_elements;
use crate::{CheckNode, Surroundings};
use jsgen_model::TreeFault;
use jsgen_rules::{Classes, has_table, number_behind};
use jsgen_tree::{ClassBody, ClassElementNode};

/// Its members stand in the class that has the next number.
#[inline(never)]
pub fn check_class_body<N: CheckNode>(
    node: &ClassBody<N>,
    around: &Surroundings<'_>,
    classes: Option<&Classes<'_>>,
    next: &mut usize,
) -> Result<u64, TreeFault>
    ensures found { result ≡ tree_verdict (surroundings_plain around.now classes.entry) next.old (class_body_row N.plain node.now) }
    ensures number { SameNumber (surroundings_plain around.now classes.entry) next.new (after (class_body_row N.plain node.now) next.old) }
{
    let number = *next;
    *next = number_behind(around.tables, number);
    let body = check_members(&node.body, around, number, classes, next);
    check_node(around, classes, node.span, Ok(()), body)
}

// The members of the class with this number: it is one of the classes round them, if it has a table.
#[inline(never)]
fn check_members<N: CheckNode>(
    members: &[ClassElementNode<N>],
    around: &Surroundings<'_>,
    number: usize,
    classes: Option<&Classes<'_>>,
    next: &mut usize,
) -> Result<u64, TreeFault>
    ensures found { result ≡ children_verdict (within_class number (surroundings_plain around.now classes.entry)) next.old sets.ClassElement (trees (map (in_class_element N.plain) members.now)) }
    ensures number { SameNumber (within_class number (surroundings_plain around.now classes.entry)) next.new (after_trees (trees (map (in_class_element N.plain) members.now)) next.old) }
{
    if !has_table(around.tables, number) {
        return check_class_elements(members, around, classes, next);
    }
    let class = Classes::within(number, classes);
    check_class_elements(members, around, Some(&class), next)
}
