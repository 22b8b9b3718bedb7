// Generated from tools/nodes/table.txt; edit that and run tools/nodes/generate.
// Rows of a job: patterns that are bound (ECMA-262, 14.3.3).
ghost use Rattle.std.specs.Prelude.{◌≡◌, true};
ghost use Rattle.jsgen_fields.specs.Given.{row_data};
ghost use Rattle.jsgen_tree.specs.RowFields.{object_pattern_fields, binding_property_fields, binding_rest_element_fields, array_pattern_fields, assignment_pattern_fields};
ghost use Rattle.jsgen_fields.specs.Reads.{Gives, read_node, read_typed};
ghost use Rattle.jsgen_pool.specs.Pool.{entries};
ghost use Rattle.jsgen_fields.specs.Parts.{is_in_patterns};
ghost use Rattle.jsgen_tree.specs.declared.types.NodeType.TheVariants as types;

use jsgen_fields::InputFault;
use jsgen_fields::fields::boxed;
use jsgen_fields::given::GivenRow;
use jsgen_fields::list_fields::{binding_pattern_or_hole_list, binding_property_list};
use jsgen_fields::set_fields::{
    needed_binding_pattern, needed_expression, needed_property_key, optional_binding_rest_element,
};
use jsgen_fields::set_rows::row_of_binding_pattern;
use jsgen_fields::values::optional_flag;
use jsgen_kept::asked::{HoldsBindingPattern, HoldsExpression, ReadNode, RowOf};
use jsgen_kept::kept::{row_of_binding_property, row_of_binding_rest_element};
use jsgen_pool::Kept;
use jsgen_syntax::Span;
use jsgen_tree::{
    ArrayPattern, AssignmentPattern, BindingPattern, BindingProperty, BindingRestElement, HasType,
    NodeType, ObjectPattern,
};
use std::alloc::Global;

#[tactic(auto, unfolding(jsgen_fields::specs::Reads::read_node))]
fn read_object_pattern<N: HasType + Drop, R: RowOf<N> + Drop>(
    alloc: Global,
    kept: &mut Vec<Kept<R>>,
    number: usize,
    span: Span,
    row: &GivenRow<'_>,
) -> Result<R, InputFault>
    ensures { Gives R.plain result (entries R.plain kept.new.items)
        (read_node number types.ObjectPattern object_pattern_fields span (row_data row.now) (entries R.plain kept.old.items)) }
{
    let properties = match binding_property_list::<N, R>(
        alloc,
        kept,
        number,
        2,
        row,
        "properties",
    ) {
        Ok(properties) => properties,
        Err(fault) => return Err(fault),
    };
    let rest = match optional_binding_rest_element::<N, R>(alloc, kept, number, 3, row, "rest") {
        Ok(rest) => rest,
        Err(fault) => return Err(fault),
    };
    let node = ObjectPattern {
        span,
        properties,
        rest,
    };
    match boxed(alloc, node) {
        Ok(node) => row_of_binding_pattern::<N, R>(alloc, BindingPattern::ObjectPattern(node)),
        Err(fault) => Err(fault),
    }
}

#[tactic(auto, unfolding(jsgen_fields::specs::Reads::read_node))]
fn read_binding_property<N: HoldsExpression + HoldsBindingPattern + Drop, R: RowOf<N> + Drop>(
    alloc: Global,
    kept: &mut Vec<Kept<R>>,
    number: usize,
    span: Span,
    row: &GivenRow<'_>,
) -> Result<R, InputFault>
    ensures { Gives R.plain result (entries R.plain kept.new.items)
        (read_node number types.BindingProperty binding_property_fields span (row_data row.now) (entries R.plain kept.old.items)) }
{
    let key = match needed_property_key::<N, R>(alloc, kept, number, 2, row, "key") {
        Ok(key) => key,
        Err(fault) => return Err(fault),
    };
    let value = match needed_binding_pattern::<N, R>(alloc, kept, number, 3, row, "value") {
        Ok(value) => value,
        Err(fault) => return Err(fault),
    };
    let computed = match optional_flag(number, 4, row, "computed") {
        Ok(computed) => computed,
        Err(fault) => return Err(fault),
    };
    let node = BindingProperty {
        span,
        key,
        value,
        computed,
    };
    match boxed(alloc, node) {
        Ok(node) => Ok(row_of_binding_property::<N, R>(node)),
        Err(fault) => Err(fault),
    }
}

#[tactic(auto, unfolding(jsgen_fields::specs::Reads::read_node))]
fn read_binding_rest_element<N: HoldsBindingPattern + Drop, R: RowOf<N> + Drop>(
    alloc: Global,
    kept: &mut Vec<Kept<R>>,
    number: usize,
    span: Span,
    row: &GivenRow<'_>,
) -> Result<R, InputFault>
    ensures { Gives R.plain result (entries R.plain kept.new.items)
        (read_node number types.BindingRestElement binding_rest_element_fields span (row_data row.now) (entries R.plain kept.old.items)) }
{
    let argument = match needed_binding_pattern::<N, R>(alloc, kept, number, 2, row, "argument") {
        Ok(argument) => argument,
        Err(fault) => return Err(fault),
    };
    let node = BindingRestElement { span, argument };
    match boxed(alloc, node) {
        Ok(node) => Ok(row_of_binding_rest_element::<N, R>(node)),
        Err(fault) => Err(fault),
    }
}

#[tactic(auto, unfolding(jsgen_fields::specs::Reads::read_node))]
fn read_array_pattern<N: HoldsBindingPattern + Drop, R: RowOf<N> + Drop>(
    alloc: Global,
    kept: &mut Vec<Kept<R>>,
    number: usize,
    span: Span,
    row: &GivenRow<'_>,
) -> Result<R, InputFault>
    ensures { Gives R.plain result (entries R.plain kept.new.items)
        (read_node number types.ArrayPattern array_pattern_fields span (row_data row.now) (entries R.plain kept.old.items)) }
{
    let elements = match binding_pattern_or_hole_list::<N, R>(
        alloc, kept, number, 2, row, "elements",
    ) {
        Ok(elements) => elements,
        Err(fault) => return Err(fault),
    };
    let rest = match optional_binding_rest_element::<N, R>(alloc, kept, number, 3, row, "rest") {
        Ok(rest) => rest,
        Err(fault) => return Err(fault),
    };
    let node = ArrayPattern {
        span,
        elements,
        rest,
    };
    match boxed(alloc, node) {
        Ok(node) => row_of_binding_pattern::<N, R>(alloc, BindingPattern::ArrayPattern(node)),
        Err(fault) => Err(fault),
    }
}

#[tactic(auto, unfolding(jsgen_fields::specs::Reads::read_node))]
fn read_assignment_pattern<N: HoldsExpression + HoldsBindingPattern + Drop, R: RowOf<N> + Drop>(
    alloc: Global,
    kept: &mut Vec<Kept<R>>,
    number: usize,
    span: Span,
    row: &GivenRow<'_>,
) -> Result<R, InputFault>
    ensures { Gives R.plain result (entries R.plain kept.new.items)
        (read_node number types.AssignmentPattern assignment_pattern_fields span (row_data row.now) (entries R.plain kept.old.items)) }
{
    let left = match needed_binding_pattern::<N, R>(alloc, kept, number, 2, row, "left") {
        Ok(left) => left,
        Err(fault) => return Err(fault),
    };
    let right = match needed_expression::<N, R>(alloc, kept, number, 3, row, "right") {
        Ok(right) => right,
        Err(fault) => return Err(fault),
    };
    let node = AssignmentPattern { span, left, right };
    match boxed(alloc, node) {
        Ok(node) => row_of_binding_pattern::<N, R>(alloc, BindingPattern::AssignmentPattern(node)),
        Err(fault) => Err(fault),
    }
}

/// The row of a type of this part.
pub fn read_in_patterns<N: ReadNode + Drop, R: RowOf<N> + Drop>(
    alloc: Global,
    kept: &mut Vec<Kept<R>>,
    node_type: NodeType,
    number: usize,
    span: Span,
    row: &GivenRow<'_>,
) -> Result<R, InputFault>
    requires { is_in_patterns node_type ≡ true }
    ensures { Gives R.plain result (entries R.plain kept.new.items)
        (read_typed number node_type span (row_data row.now) (entries R.plain kept.old.items)) }
{
    match node_type {
        NodeType::ObjectPattern => read_object_pattern::<N, R>(alloc, kept, number, span, row),
        NodeType::BindingProperty => read_binding_property::<N, R>(alloc, kept, number, span, row),
        NodeType::BindingRestElement => read_binding_rest_element::<N, R>(
            alloc, kept, number, span, row,
        ),
        NodeType::ArrayPattern => read_array_pattern::<N, R>(alloc, kept, number, span, row),
        NodeType::AssignmentPattern => read_assignment_pattern::<N, R>(
            alloc, kept, number, span, row,
        ),
        _ => unreachable!(),
    }
}
