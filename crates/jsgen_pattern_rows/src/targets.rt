// Generated from tools/nodes/table.txt; edit that and run tools/nodes/generate.
// Rows of a job: patterns that are given values (ECMA-262, 13.15.5).
ghost use Rattle.std.specs.Prelude.{◌≡◌, true};
ghost use Rattle.jsgen_fields.specs.Given.{row_data};
ghost use Rattle.jsgen_tree.specs.RowFields.{array_assignment_target_fields, object_assignment_target_fields, assignment_target_with_default_fields, assignment_target_property_identifier_fields, assignment_target_property_property_fields, assignment_target_rest_fields};
ghost use Rattle.jsgen_fields.specs.Reads.{Gives, read_node, read_typed};
ghost use Rattle.jsgen_pool.specs.Pool.{entries};
ghost use Rattle.jsgen_fields.specs.Parts.{is_in_targets};
ghost use Rattle.jsgen_tree.specs.declared.types.NodeType.TheVariants as types;

use jsgen_fields::InputFault;
use jsgen_fields::fields::boxed;
use jsgen_fields::given::GivenRow;
use jsgen_fields::list_fields::{
    assignment_target_maybe_default_or_hole_list, assignment_target_property_list,
};
use jsgen_fields::set_fields::{
    needed_assignment_target, needed_assignment_target_maybe_default, needed_expression,
    needed_identifier_reference, needed_property_key, optional_assignment_target_rest,
    optional_expression,
};
use jsgen_fields::set_rows::row_of_assignment_target;
use jsgen_fields::values::optional_flag;
use jsgen_kept::asked::{HoldsAssignmentTarget, HoldsExpression, ReadNode, RowOf};
use jsgen_kept::kept::{
    row_of_assignment_target_property_identifier, row_of_assignment_target_property_property,
    row_of_assignment_target_rest, row_of_assignment_target_with_default,
};
use jsgen_kept::others::OtherAssignmentTarget;
use jsgen_pool::Kept;
use jsgen_syntax::Span;
use jsgen_tree::{
    ArrayAssignmentTarget, AssignmentTarget, AssignmentTargetPropertyIdentifier,
    AssignmentTargetPropertyProperty, AssignmentTargetRest, AssignmentTargetWithDefault, HasType,
    NodeType, ObjectAssignmentTarget,
};
use std::alloc::Global;

#[tactic(auto, unfolding(jsgen_fields::specs::Reads::read_node))]
fn read_array_assignment_target<N: HoldsAssignmentTarget + Drop, R: RowOf<N> + Drop>(
    alloc: Global,
    kept: &mut Vec<Kept<R>>,
    number: usize,
    span: Span,
    row: &GivenRow<'_>,
) -> Result<R, InputFault>
    ensures { Gives R.plain result (entries R.plain kept.new.items)
        (read_node number types.ArrayAssignmentTarget array_assignment_target_fields span (row_data row.now) (entries R.plain kept.old.items)) }
{
    let elements = match assignment_target_maybe_default_or_hole_list::<N, R>(
        alloc, kept, number, 2, row, "elements",
    ) {
        Ok(elements) => elements,
        Err(fault) => return Err(fault),
    };
    let rest = match optional_assignment_target_rest::<N, R>(alloc, kept, number, 3, row, "rest") {
        Ok(rest) => rest,
        Err(fault) => return Err(fault),
    };
    let node = ArrayAssignmentTarget {
        span,
        elements,
        rest,
    };
    match boxed(alloc, node) {
        Ok(node) => row_of_assignment_target::<N, R>(
            alloc,
            OtherAssignmentTarget {
                assignment_target: AssignmentTarget::ArrayAssignmentTarget(node),
            },
        ),
        Err(fault) => Err(fault),
    }
}

#[tactic(auto, unfolding(jsgen_fields::specs::Reads::read_node))]
fn read_object_assignment_target<N: HasType + Drop, R: RowOf<N> + Drop>(
    alloc: Global,
    kept: &mut Vec<Kept<R>>,
    number: usize,
    span: Span,
    row: &GivenRow<'_>,
) -> Result<R, InputFault>
    ensures { Gives R.plain result (entries R.plain kept.new.items)
        (read_node number types.ObjectAssignmentTarget object_assignment_target_fields span (row_data row.now) (entries R.plain kept.old.items)) }
{
    let properties = match assignment_target_property_list::<N, R>(
        alloc,
        kept,
        number,
        2,
        row,
        "properties",
    ) {
        Ok(properties) => properties,
        Err(fault) => return Err(fault),
    };
    let rest = match optional_assignment_target_rest::<N, R>(alloc, kept, number, 3, row, "rest") {
        Ok(rest) => rest,
        Err(fault) => return Err(fault),
    };
    let node = ObjectAssignmentTarget {
        span,
        properties,
        rest,
    };
    match boxed(alloc, node) {
        Ok(node) => row_of_assignment_target::<N, R>(
            alloc,
            OtherAssignmentTarget {
                assignment_target: AssignmentTarget::ObjectAssignmentTarget(node),
            },
        ),
        Err(fault) => Err(fault),
    }
}

#[tactic(auto, unfolding(jsgen_fields::specs::Reads::read_node))]
fn read_assignment_target_with_default<
    N: HoldsExpression + HoldsAssignmentTarget + Drop,
    R: RowOf<N> + Drop,
>(
    alloc: Global,
    kept: &mut Vec<Kept<R>>,
    number: usize,
    span: Span,
    row: &GivenRow<'_>,
) -> Result<R, InputFault>
    ensures { Gives R.plain result (entries R.plain kept.new.items)
        (read_node number types.AssignmentTargetWithDefault assignment_target_with_default_fields span (row_data row.now) (entries R.plain kept.old.items)) }
{
    let binding = match needed_assignment_target::<N, R>(alloc, kept, number, 2, row, "binding") {
        Ok(binding) => binding,
        Err(fault) => return Err(fault),
    };
    let init = match needed_expression::<N, R>(alloc, kept, number, 3, row, "init") {
        Ok(init) => init,
        Err(fault) => return Err(fault),
    };
    let node = AssignmentTargetWithDefault {
        span,
        binding,
        init,
    };
    match boxed(alloc, node) {
        Ok(node) => Ok(row_of_assignment_target_with_default::<N, R>(node)),
        Err(fault) => Err(fault),
    }
}

#[tactic(auto, unfolding(jsgen_fields::specs::Reads::read_node))]
fn read_assignment_target_property_identifier<N: HoldsExpression + Drop, R: RowOf<N> + Drop>(
    alloc: Global,
    kept: &mut Vec<Kept<R>>,
    number: usize,
    span: Span,
    row: &GivenRow<'_>,
) -> Result<R, InputFault>
    ensures { Gives R.plain result (entries R.plain kept.new.items)
        (read_node number types.AssignmentTargetPropertyIdentifier assignment_target_property_identifier_fields span (row_data row.now) (entries R.plain kept.old.items)) }
{
    let binding = match needed_identifier_reference::<N, R>(
        alloc, kept, number, 2, row, "binding",
    ) {
        Ok(binding) => binding,
        Err(fault) => return Err(fault),
    };
    let init = match optional_expression::<N, R>(alloc, kept, number, 3, row, "init") {
        Ok(init) => init,
        Err(fault) => return Err(fault),
    };
    let node = AssignmentTargetPropertyIdentifier {
        span,
        binding,
        init,
    };
    match boxed(alloc, node) {
        Ok(node) => Ok(row_of_assignment_target_property_identifier::<N, R>(node)),
        Err(fault) => Err(fault),
    }
}

#[tactic(auto, unfolding(jsgen_fields::specs::Reads::read_node))]
fn read_assignment_target_property_property<
    N: HoldsExpression + HoldsAssignmentTarget + Drop,
    R: RowOf<N> + Drop,
>(
    alloc: Global,
    kept: &mut Vec<Kept<R>>,
    number: usize,
    span: Span,
    row: &GivenRow<'_>,
) -> Result<R, InputFault>
    ensures { Gives R.plain result (entries R.plain kept.new.items)
        (read_node number types.AssignmentTargetPropertyProperty assignment_target_property_property_fields span (row_data row.now) (entries R.plain kept.old.items)) }
{
    let name = match needed_property_key::<N, R>(alloc, kept, number, 2, row, "name") {
        Ok(name) => name,
        Err(fault) => return Err(fault),
    };
    let binding = match needed_assignment_target_maybe_default::<N, R>(
        alloc, kept, number, 3, row, "binding",
    ) {
        Ok(binding) => binding,
        Err(fault) => return Err(fault),
    };
    let computed = match optional_flag(number, 4, row, "computed") {
        Ok(computed) => computed,
        Err(fault) => return Err(fault),
    };
    let node = AssignmentTargetPropertyProperty {
        span,
        name,
        binding,
        computed,
    };
    match boxed(alloc, node) {
        Ok(node) => Ok(row_of_assignment_target_property_property::<N, R>(node)),
        Err(fault) => Err(fault),
    }
}

#[tactic(auto, unfolding(jsgen_fields::specs::Reads::read_node))]
fn read_assignment_target_rest<N: HoldsAssignmentTarget + Drop, R: RowOf<N> + Drop>(
    alloc: Global,
    kept: &mut Vec<Kept<R>>,
    number: usize,
    span: Span,
    row: &GivenRow<'_>,
) -> Result<R, InputFault>
    ensures { Gives R.plain result (entries R.plain kept.new.items)
        (read_node number types.AssignmentTargetRest assignment_target_rest_fields span (row_data row.now) (entries R.plain kept.old.items)) }
{
    let target = match needed_assignment_target::<N, R>(alloc, kept, number, 2, row, "target") {
        Ok(target) => target,
        Err(fault) => return Err(fault),
    };
    let node = AssignmentTargetRest { span, target };
    match boxed(alloc, node) {
        Ok(node) => Ok(row_of_assignment_target_rest::<N, R>(node)),
        Err(fault) => Err(fault),
    }
}

/// The row of a type of this part.
pub fn read_in_targets<N: ReadNode + Drop, R: RowOf<N> + Drop>(
    alloc: Global,
    kept: &mut Vec<Kept<R>>,
    node_type: NodeType,
    number: usize,
    span: Span,
    row: &GivenRow<'_>,
) -> Result<R, InputFault>
    requires { is_in_targets node_type ≡ true }
    ensures { Gives R.plain result (entries R.plain kept.new.items)
        (read_typed number node_type span (row_data row.now) (entries R.plain kept.old.items)) }
{
    match node_type {
        NodeType::ArrayAssignmentTarget => read_array_assignment_target::<N, R>(
            alloc, kept, number, span, row,
        ),
        NodeType::ObjectAssignmentTarget => read_object_assignment_target::<N, R>(
            alloc, kept, number, span, row,
        ),
        NodeType::AssignmentTargetWithDefault => read_assignment_target_with_default::<N, R>(
            alloc, kept, number, span, row,
        ),
        NodeType::AssignmentTargetPropertyIdentifier =>
            read_assignment_target_property_identifier::<N, R>(alloc, kept, number, span, row),
        NodeType::AssignmentTargetPropertyProperty => read_assignment_target_property_property::<
            N,
            R,
        >(alloc, kept, number, span, row),
        NodeType::AssignmentTargetRest => read_assignment_target_rest::<N, R>(
            alloc, kept, number, span, row,
        ),
        _ => unreachable!(),
    }
}
