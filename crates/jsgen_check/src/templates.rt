// Generated from tools/nodes/table.txt; edit that and run tools/nodes/generate.
// Templates and import calls (ECMA-262, 13.2.8, 13.3.10 and 13.3.11).
ghost use Rattle.std.specs.Prelude.{◌≡◌};
ghost use Rattle.jsgen_tree.specs.Rows.{template_element_row, template_literal_row, tagged_template_expression_row, import_expression_row};
ghost use Rattle.jsgen_model.specs.Resolved.{after};
ghost use Rattle.jsgen_check.specs.Verdict.{surroundings_plain, tree_verdict, SameNumber};

use crate::children::check_optional_expression;
use crate::heights::{check_node, higher};
use crate::lists::{check_expressions, check_template_elements};
use crate::rules::{check_template_element_rules, check_template_literal_rules};
use crate::{CheckNode, Surroundings, check_child};
use jsgen_model::TreeFault;
use jsgen_rules::Classes;
use jsgen_tree::{
    ImportExpression, NodeSet, TaggedTemplateExpression, TemplateElement, TemplateLiteral,
};

pub fn check_template_element(
    node: &TemplateElement,
    around: &Surroundings<'_>,
    classes: Option<&Classes<'_>>,
    next: &mut usize,
) -> Result<u64, TreeFault>
    ensures found { result ≡ tree_verdict (surroundings_plain around.now classes.entry) next.old (template_element_row node.now) }
    ensures number { SameNumber (surroundings_plain around.now classes.entry) next.new (after (template_element_row node.now) next.old) }
{
    let rules = check_template_element_rules(node, around, classes);
    let _ = next;
    check_node(around, classes, node.span, rules, Ok(0))
}

#[inline(never)]
pub fn check_template_literal<N: CheckNode>(
    node: &TemplateLiteral<N>,
    around: &Surroundings<'_>,
    classes: Option<&Classes<'_>>,
    next: &mut usize,
) -> Result<u64, TreeFault>
    ensures found { result ≡ tree_verdict (surroundings_plain around.now classes.entry) next.old (template_literal_row N.plain node.now) }
    ensures number { SameNumber (surroundings_plain around.now classes.entry) next.new (after (template_literal_row N.plain node.now) next.old) }
{
    let rules = check_template_literal_rules(node, around, classes);
    let quasis = check_template_elements(&node.quasis, around, classes, next);
    let expressions = check_expressions(&node.expressions, around, classes, next);
    check_node(
        around,
        classes,
        node.span,
        rules,
        higher(quasis, expressions),
    )
}

#[inline(never)]
pub fn check_tagged_template_expression<N: CheckNode>(
    node: &TaggedTemplateExpression<N>,
    around: &Surroundings<'_>,
    classes: Option<&Classes<'_>>,
    next: &mut usize,
) -> Result<u64, TreeFault>
    ensures found { result ≡ tree_verdict (surroundings_plain around.now classes.entry) next.old (tagged_template_expression_row N.plain node.now) }
    ensures number { SameNumber (surroundings_plain around.now classes.entry) next.new (after (tagged_template_expression_row N.plain node.now) next.old) }
{
    let tag = check_child(node.tag.get(), NodeSet::Expression, around, classes, next);
    let quasi = check_template_literal(&node.quasi, around, classes, next);
    check_node(around, classes, node.span, Ok(()), higher(tag, quasi))
}

#[inline(never)]
pub fn check_import_expression<N: CheckNode>(
    node: &ImportExpression<N>,
    around: &Surroundings<'_>,
    classes: Option<&Classes<'_>>,
    next: &mut usize,
) -> Result<u64, TreeFault>
    ensures found { result ≡ tree_verdict (surroundings_plain around.now classes.entry) next.old (import_expression_row N.plain node.now) }
    ensures number { SameNumber (surroundings_plain around.now classes.entry) next.new (after (import_expression_row N.plain node.now) next.old) }
{
    let source = check_child(
        node.source.get(),
        NodeSet::Expression,
        around,
        classes,
        next,
    );
    let options = check_optional_expression(&node.options, around, classes, next);
    check_node(around, classes, node.span, Ok(()), higher(source, options))
}
