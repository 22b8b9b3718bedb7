// Generated from tools/nodes/table.txt; edit that and run tools/nodes/generate.
// Rows of a job: arrays and objects (ECMA-262, 13.2.4 and 13.2.5), and what is spread in them and in arguments.
ghost use Rattle.std.specs.Prelude.{◌≡◌, true};
ghost use Rattle.jsgen_fields.specs.Given.{row_data};
ghost use Rattle.jsgen_tree.specs.RowFields.{spread_element_fields, array_expression_fields, object_property_fields, object_expression_fields};
ghost use Rattle.jsgen_fields.specs.Reads.{Gives, read_node, read_typed};
ghost use Rattle.jsgen_pool.specs.Pool.{entries};
ghost use Rattle.jsgen_fields.specs.Parts.{is_in_collections};
ghost use Rattle.jsgen_tree.specs.declared.types.NodeType.TheVariants as types;

use jsgen_fields::InputFault;
use jsgen_fields::fields::boxed;
use jsgen_fields::given::GivenRow;
use jsgen_fields::list_fields::{array_expression_element_or_hole_list, object_property_kind_list};
use jsgen_fields::set_fields::{needed_expression, needed_property_key};
use jsgen_fields::set_rows::row_of_expression;
use jsgen_fields::values::optional_flag;
use jsgen_fields::words::needed_property_kind;
use jsgen_kept::asked::{HoldsExpression, ReadNode, RowOf};
use jsgen_kept::kept::{row_of_object_property, row_of_spread_element};
use jsgen_kept::others::OtherExpression;
use jsgen_pool::Kept;
use jsgen_syntax::Span;
use jsgen_tree::{
    ArrayExpression, Expression, HasType, NodeType, ObjectExpression, ObjectProperty, SpreadElement,
};
use std::alloc::Global;

#[tactic(auto, unfolding(jsgen_fields::specs::Reads::read_node))]
fn read_spread_element<N: HoldsExpression + Drop, R: RowOf<N> + Drop>(
    alloc: Global,
    kept: &mut Vec<Kept<R>>,
    number: usize,
    span: Span,
    row: &GivenRow<'_>,
) -> Result<R, InputFault>
    ensures { Gives R.plain result (entries R.plain kept.new.items)
        (read_node number types.SpreadElement spread_element_fields span (row_data row.now) (entries R.plain kept.old.items)) }
{
    let argument = match needed_expression::<N, R>(alloc, kept, number, 2, row, "argument") {
        Ok(argument) => argument,
        Err(fault) => return Err(fault),
    };
    let node = SpreadElement { span, argument };
    match boxed(alloc, node) {
        Ok(node) => Ok(row_of_spread_element::<N, R>(node)),
        Err(fault) => Err(fault),
    }
}

#[tactic(auto, unfolding(jsgen_fields::specs::Reads::read_node))]
fn read_array_expression<N: HoldsExpression + Drop, R: RowOf<N> + Drop>(
    alloc: Global,
    kept: &mut Vec<Kept<R>>,
    number: usize,
    span: Span,
    row: &GivenRow<'_>,
) -> Result<R, InputFault>
    ensures { Gives R.plain result (entries R.plain kept.new.items)
        (read_node number types.ArrayExpression array_expression_fields span (row_data row.now) (entries R.plain kept.old.items)) }
{
    let elements = match array_expression_element_or_hole_list::<N, R>(
        alloc, kept, number, 2, row, "elements",
    ) {
        Ok(elements) => elements,
        Err(fault) => return Err(fault),
    };
    let node = ArrayExpression { span, elements };
    match boxed(alloc, node) {
        Ok(node) => row_of_expression::<N, R>(
            alloc,
            OtherExpression {
                expression: Expression::ArrayExpression(node),
            },
        ),
        Err(fault) => Err(fault),
    }
}

#[tactic(auto, unfolding(jsgen_fields::specs::Reads::read_node))]
fn read_object_property<N: HoldsExpression + Drop, R: RowOf<N> + Drop>(
    alloc: Global,
    kept: &mut Vec<Kept<R>>,
    number: usize,
    span: Span,
    row: &GivenRow<'_>,
) -> Result<R, InputFault>
    ensures { Gives R.plain result (entries R.plain kept.new.items)
        (read_node number types.ObjectProperty object_property_fields span (row_data row.now) (entries R.plain kept.old.items)) }
{
    let kind = match needed_property_kind(number, 2, row, "kind") {
        Ok(kind) => kind,
        Err(fault) => return Err(fault),
    };
    let key = match needed_property_key::<N, R>(alloc, kept, number, 3, row, "key") {
        Ok(key) => key,
        Err(fault) => return Err(fault),
    };
    let value = match needed_expression::<N, R>(alloc, kept, number, 4, row, "value") {
        Ok(value) => value,
        Err(fault) => return Err(fault),
    };
    let method = match optional_flag(number, 5, row, "method") {
        Ok(method) => method,
        Err(fault) => return Err(fault),
    };
    let shorthand = match optional_flag(number, 6, row, "shorthand") {
        Ok(shorthand) => shorthand,
        Err(fault) => return Err(fault),
    };
    let computed = match optional_flag(number, 7, row, "computed") {
        Ok(computed) => computed,
        Err(fault) => return Err(fault),
    };
    let node = ObjectProperty {
        span,
        kind,
        key,
        value,
        method,
        shorthand,
        computed,
    };
    match boxed(alloc, node) {
        Ok(node) => Ok(row_of_object_property::<N, R>(node)),
        Err(fault) => Err(fault),
    }
}

#[tactic(auto, unfolding(jsgen_fields::specs::Reads::read_node))]
fn read_object_expression<N: HasType + Drop, R: RowOf<N> + Drop>(
    alloc: Global,
    kept: &mut Vec<Kept<R>>,
    number: usize,
    span: Span,
    row: &GivenRow<'_>,
) -> Result<R, InputFault>
    ensures { Gives R.plain result (entries R.plain kept.new.items)
        (read_node number types.ObjectExpression object_expression_fields span (row_data row.now) (entries R.plain kept.old.items)) }
{
    let properties = match object_property_kind_list::<N, R>(
        alloc,
        kept,
        number,
        2,
        row,
        "properties",
    ) {
        Ok(properties) => properties,
        Err(fault) => return Err(fault),
    };
    let node = ObjectExpression { span, properties };
    match boxed(alloc, node) {
        Ok(node) => row_of_expression::<N, R>(
            alloc,
            OtherExpression {
                expression: Expression::ObjectExpression(node),
            },
        ),
        Err(fault) => Err(fault),
    }
}

/// The row of a type of this part.
pub fn read_in_collections<N: ReadNode + Drop, R: RowOf<N> + Drop>(
    alloc: Global,
    kept: &mut Vec<Kept<R>>,
    node_type: NodeType,
    number: usize,
    span: Span,
    row: &GivenRow<'_>,
) -> Result<R, InputFault>
    requires { is_in_collections node_type ≡ true }
    ensures { Gives R.plain result (entries R.plain kept.new.items)
        (read_typed number node_type span (row_data row.now) (entries R.plain kept.old.items)) }
{
    match node_type {
        NodeType::SpreadElement => read_spread_element::<N, R>(alloc, kept, number, span, row),
        NodeType::ArrayExpression => read_array_expression::<N, R>(alloc, kept, number, span, row),
        NodeType::ObjectProperty => read_object_property::<N, R>(alloc, kept, number, span, row),
        NodeType::ObjectExpression => read_object_expression::<N, R>(
            alloc, kept, number, span, row,
        ),
        _ => unreachable!(),
    }
}
