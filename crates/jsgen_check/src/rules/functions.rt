// Functions, `return`, and functions as methods.
#![tactic(auto, unfolding(jsgen_rules::specs::Verdict::verdict))]

ghost use Rattle.std.specs.Prelude.{◌≡◌, not};
ghost use Rattle.jsgen_tree.specs.Tree.{span_of};
ghost use Rattle.jsgen_tree.specs.Rows.{function_row, await_expression_row, yield_expression_row, return_statement_row};
ghost use Rattle.jsgen_model.specs.Valid.{own_faults, fault_if, fits_method};
ghost use Rattle.jsgen_model.specs.declared.fault.TreeFault.TheVariants as faults;
ghost use Rattle.jsgen_rules.specs.Verdict.{verdict};
ghost use Rattle.jsgen_check.specs.Verdict.{surroundings_plain};

use crate::{CheckNode, Surroundings};
use jsgen_model::TreeFault;
use jsgen_rules::{Classes, check_await, check_function, check_return, check_yield};
use jsgen_tree::{AwaitExpression, Function, PropertyKind, ReturnStatement, YieldExpression};

#[tactic(auto)]
pub fn check_function_rules<N: CheckNode>(
    node: &Function<N>,
    around: &Surroundings<'_>,
    classes: Option<&Classes<'_>>,
) -> Result<(), TreeFault>
    ensures { result ≡ verdict (own_faults (surroundings_plain around.now classes.entry) (function_row N.plain node.now)) }
{
    let _ = classes;
    let _ = around;
    check_function(node.body.is_some(), node.span)
}

#[tactic(auto, unfolding(crate::specs::Verdict::surroundings_plain))]
pub fn check_return_statement_rules<N: CheckNode>(
    node: &ReturnStatement<N>,
    around: &Surroundings<'_>,
    classes: Option<&Classes<'_>>,
) -> Result<(), TreeFault>
    ensures { result ≡ verdict (own_faults (surroundings_plain around.now classes.entry) (return_statement_row N.plain node.now)) }
{
    let _ = classes;
    check_return(around.in_function, node.span)
}

#[tactic(auto, unfolding(crate::specs::Verdict::surroundings_plain))]
pub fn check_await_expression_rules<N: CheckNode>(
    node: &AwaitExpression<N>,
    around: &Surroundings<'_>,
    classes: Option<&Classes<'_>>,
) -> Result<(), TreeFault>
    ensures { result ≡ verdict (own_faults (surroundings_plain around.now classes.entry) (await_expression_row N.plain node.now)) }
{
    let _ = classes;
    check_await(true, around.may_await, node.span)
}

#[tactic(auto, unfolding(crate::specs::Verdict::surroundings_plain))]
pub fn check_yield_expression_rules<N: CheckNode>(
    node: &YieldExpression<N>,
    around: &Surroundings<'_>,
    classes: Option<&Classes<'_>>,
) -> Result<(), TreeFault>
    ensures { result ≡ verdict (own_faults (surroundings_plain around.now classes.entry) (yield_expression_row N.plain node.now)) }
{
    let _ = classes;
    check_yield(
        around.may_yield,
        node.delegate,
        node.argument.is_some(),
        node.span,
    )
}

/// What follows the key of a method or an accessor is a function without a name.
pub fn check_method_value<N: CheckNode>(kind: PropertyKind, value: &N) -> Result<(), TreeFault>
    ensures { result ≡ verdict (fault_if (not (fits_method kind (N.plain value.now))) (faults.Place (span_of (N.plain value.now)).start)) }
{
    if !value.fits_method(kind) {
        return Err(TreeFault::Place {
            start: value.start(),
        });
    }
    Ok(())
}
