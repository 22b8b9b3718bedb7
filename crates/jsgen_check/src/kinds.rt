// What places and methods ask of functions and classes.
ghost use Rattle.std.specs.Prelude.{◌≡◌};
ghost use Rattle.jsgen_tree.specs.declared.types.NodeSet.TheVariants as sets;
ghost use Rattle.jsgen_tree.specs.Rows.{expression_plain, function_row};
ghost use Rattle.jsgen_tree.specs.Plain.{node_plain};
ghost use Rattle.jsgen_model.specs.Valid.{fits_kind, fits_method, set_faults};
ghost use Rattle.jsgen_rules.specs.Verdict.{verdict};
ghost use Rattle.jsgen_model.specs.Resolved.{after};
ghost use Rattle.jsgen_check.specs.Verdict.{surroundings_plain, child_verdict, SameNumber};

use crate::functions::check_function;
use crate::heights::both;
use crate::{CheckNode, Surroundings};
use jsgen_model::TreeFault;
use jsgen_rules::{Classes, check_set, class_fits, fits_accessor, fits_words, function_fits};
use jsgen_tree::{Expression, Function, NodeSet, NodeType, PropertyKind};

/// Whether an expression may stand at a place that asks for this set, as far as it is a function or a class.
#[tactic(auto, using(jsgen_tree::proofs::Given::name_given))]
pub fn expression_fits_kind<N: CheckNode>(node: &Expression<N>, set: NodeSet) -> bool
    ensures { result ≡ fits_kind set (expression_plain N.plain node.now) }
{
    match node {
        Expression::Function(node) => function_fits(node.kind, node.id.is_some(), set),
        Expression::Class(node) => class_fits(node.kind, node.id.is_some(), set),
        _ => true,
    }
}

/// Whether a function may follow the key of a method or an accessor: it has no name, and the parameters of this kind.
pub fn method_fits(node: &Function, kind: PropertyKind) -> bool
    ensures { result ≡ fits_method kind (function_row node_plain node.now) }
{
    let fits = fits_accessor(kind, &node.params) && fits_words(kind, node.is_async, node.generator);
    node.id.is_none() && fits
}

/// A function that stands at a place of its own, where it is an expression.
pub fn check_function_expression<N: CheckNode>(
    node: &Function<N>,
    around: &Surroundings<'_>,
    classes: Option<&Classes<'_>>,
    next: &mut usize,
) -> Result<u64, TreeFault>
    ensures found { result ≡ child_verdict (surroundings_plain around.now classes.entry) next.old sets.Function (function_row N.plain node.now) }
    ensures number { SameNumber (surroundings_plain around.now classes.entry) next.new (after (function_row N.plain node.now) next.old) }
{
    let place = check_function_place(node);
    let found = check_function(node, around, classes, next);
    both(place, found)
}

fn check_function_place<N: CheckNode>(node: &Function<N>) -> Result<(), TreeFault>
    ensures { result ≡ verdict (set_faults sets.Function (function_row N.plain node.now)) }
{
    let fits_kind = function_fits(node.kind, node.id.is_some(), NodeSet::Function);
    check_set(
        NodeType::Function,
        NodeSet::Function,
        fits_kind,
        node.span.start,
    )
}
