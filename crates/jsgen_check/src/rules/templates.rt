// Pieces of templates, and how many there are (ECMA-262, 12.9.6 and 13.2.8).
#![tactic(auto, unfolding(jsgen_rules::specs::Verdict::verdict))]

ghost use Rattle.std.specs.Prelude.{◌≡◌, map};
ghost use Rattle.jsgen_tree.specs.Tree.{trees};
ghost use Rattle.jsgen_tree.specs.Rows.{template_element_row, template_literal_row, in_expression};
ghost use Rattle.jsgen_model.specs.Valid.{own_faults, is_one_more};
ghost use Rattle.jsgen_rules.specs.Verdict.{verdict};
ghost use Rattle.jsgen_check.specs.Verdict.{surroundings_plain};

use crate::{CheckNode, Surroundings};
use jsgen_model::TreeFault;
use jsgen_rules::{Classes, check_piece};
use jsgen_tree::{ExpressionNode, TemplateElement, TemplateLiteral};

#[tactic(auto)]
pub fn check_template_element_rules(
    node: &TemplateElement,
    around: &Surroundings<'_>,
    classes: Option<&Classes<'_>>,
) -> Result<(), TreeFault>
    ensures { result ≡ verdict (own_faults (surroundings_plain around.now classes.entry) (template_element_row node.now)) }
{
    let _ = classes;
    let _ = around;
    check_piece(&node.raw, &node.cooked, node.span)
}

pub fn check_template_literal_rules<N: CheckNode>(
    node: &TemplateLiteral<N>,
    around: &Surroundings<'_>,
    classes: Option<&Classes<'_>>,
) -> Result<(), TreeFault>
    ensures { result ≡ verdict (own_faults (surroundings_plain around.now classes.entry) (template_literal_row N.plain node.now)) }
{
    let _ = classes;
    let _ = around;
    if !is_one_more(&node.quasis, &node.expressions) {
        return Err(TreeFault::Template {
            start: node.span.start,
        });
    }
    Ok(())
}

// Whether there is one piece more than expressions.
#[tactic(auto)]
fn is_one_more<N: CheckNode>(pieces: &[TemplateElement], expressions: &[ExpressionNode<N>]) -> bool
    ensures { result ≡ is_one_more (trees (map template_element_row pieces.now)) (trees (map (in_expression N.plain) expressions.now)) }
{
    match pieces.split_first() {
        Some((_, others)) => others.len() == expressions.len(),
        None => false,
    }
}
