// Generated from tools/nodes/table.txt; edit that and run tools/nodes/generate.
// Rows of a job: classes and private names (ECMA-262, 15.7).
ghost use Rattle.std.specs.Prelude.{◌≡◌, true};
ghost use Rattle.jsgen_fields.specs.Given.{row_data};
ghost use Rattle.jsgen_tree.specs.RowFields.{private_identifier_fields, private_field_expression_fields, private_in_expression_fields, class_fields, class_body_fields, static_block_fields, method_definition_fields, property_definition_fields};
ghost use Rattle.jsgen_fields.specs.Reads.{Gives, read_node, read_typed};
ghost use Rattle.jsgen_pool.specs.Pool.{entries};
ghost use Rattle.jsgen_fields.specs.Parts.{is_in_classes};
ghost use Rattle.jsgen_tree.specs.declared.types.NodeType.TheVariants as types;

use jsgen_fields::InputFault;
use jsgen_fields::fields::boxed;
use jsgen_fields::given::GivenRow;
use jsgen_fields::list_fields::{class_element_list, statement_list};
use jsgen_fields::set_fields::{
    needed_class_body, needed_expression, needed_function, needed_private_identifier,
    needed_property_key, optional_binding_identifier, optional_expression,
};
use jsgen_fields::set_rows::{row_of_class_element, row_of_expression};
use jsgen_fields::values::{field_not_given, needed_text, neither_given, optional_flag};
use jsgen_fields::words::{needed_class_form, needed_kind_of_method};
use jsgen_kept::asked::{
    HoldsClassElement, HoldsDeclaration, HoldsExpression, HoldsStatement, ReadNode, RowOf,
};
use jsgen_kept::kept::{
    row_of_class, row_of_class_body, row_of_private_field_expression, row_of_private_identifier,
};
use jsgen_kept::others::OtherExpression;
use jsgen_pool::Kept;
use jsgen_syntax::Span;
use jsgen_tree::{
    Class, ClassBody, ClassElement, Expression, HasType, MethodDefinition, NodeType,
    PrivateFieldExpression, PrivateIdentifier, PrivateInExpression, PropertyDefinition,
    StaticBlock,
};
use std::alloc::Global;

#[tactic(auto, unfolding(jsgen_fields::specs::Reads::read_node))]
fn read_private_identifier<N: HasType + Drop, R: RowOf<N> + Drop>(
    alloc: Global,
    kept: &mut Vec<Kept<R>>,
    number: usize,
    span: Span,
    row: &GivenRow<'_>,
) -> Result<R, InputFault>
    ensures { Gives R.plain result (entries R.plain kept.new.items)
        (read_node number types.PrivateIdentifier private_identifier_fields span (row_data row.now) (entries R.plain kept.old.items)) }
{
    let _ = kept;
    let name = match needed_text(alloc, number, 2, row, "name") {
        Ok(name) => name,
        Err(fault) => return Err(fault),
    };
    let node = PrivateIdentifier { span, name };
    match boxed(alloc, node) {
        Ok(node) => Ok(row_of_private_identifier::<N, R>(node)),
        Err(fault) => Err(fault),
    }
}

#[tactic(auto, unfolding(jsgen_fields::specs::Reads::read_node))]
fn read_private_field_expression<N: HoldsExpression + Drop, R: RowOf<N> + Drop>(
    alloc: Global,
    kept: &mut Vec<Kept<R>>,
    number: usize,
    span: Span,
    row: &GivenRow<'_>,
) -> Result<R, InputFault>
    ensures { Gives R.plain result (entries R.plain kept.new.items)
        (read_node number types.PrivateFieldExpression private_field_expression_fields span (row_data row.now) (entries R.plain kept.old.items)) }
{
    let object = match needed_expression::<N, R>(alloc, kept, number, 2, row, "object") {
        Ok(object) => object,
        Err(fault) => return Err(fault),
    };
    let optional = match optional_flag(number, 3, row, "optional") {
        Ok(optional) => optional,
        Err(fault) => return Err(fault),
    };
    let field = match needed_private_identifier::<N, R>(alloc, kept, number, 4, row, "field") {
        Ok(field) => field,
        Err(fault) => return Err(fault),
    };
    let node = PrivateFieldExpression {
        span,
        object,
        optional,
        field,
    };
    match boxed(alloc, node) {
        Ok(node) => Ok(row_of_private_field_expression::<N, R>(node)),
        Err(fault) => Err(fault),
    }
}

#[tactic(auto, unfolding(jsgen_fields::specs::Reads::read_node))]
fn read_private_in_expression<N: HoldsExpression + Drop, R: RowOf<N> + Drop>(
    alloc: Global,
    kept: &mut Vec<Kept<R>>,
    number: usize,
    span: Span,
    row: &GivenRow<'_>,
) -> Result<R, InputFault>
    ensures { Gives R.plain result (entries R.plain kept.new.items)
        (read_node number types.PrivateInExpression private_in_expression_fields span (row_data row.now) (entries R.plain kept.old.items)) }
{
    let left = match needed_private_identifier::<N, R>(alloc, kept, number, 2, row, "left") {
        Ok(left) => left,
        Err(fault) => return Err(fault),
    };
    let right = match needed_expression::<N, R>(alloc, kept, number, 3, row, "right") {
        Ok(right) => right,
        Err(fault) => return Err(fault),
    };
    let node = PrivateInExpression { span, left, right };
    match boxed(alloc, node) {
        Ok(node) => row_of_expression::<N, R>(
            alloc,
            OtherExpression {
                expression: Expression::PrivateInExpression(node),
            },
        ),
        Err(fault) => Err(fault),
    }
}

#[tactic(auto, unfolding(jsgen_fields::specs::Reads::read_node))]
fn read_class<N: HoldsExpression + Drop, R: RowOf<N> + Drop>(
    alloc: Global,
    kept: &mut Vec<Kept<R>>,
    number: usize,
    span: Span,
    row: &GivenRow<'_>,
) -> Result<R, InputFault>
    ensures { Gives R.plain result (entries R.plain kept.new.items)
        (read_node number types.Class class_fields span (row_data row.now) (entries R.plain kept.old.items)) }
{
    let kind = match needed_class_form(number, 2, row, "kind") {
        Ok(kind) => kind,
        Err(fault) => return Err(fault),
    };
    match field_not_given(number, 3, row, "decorators") {
        Ok(()) => {}
        Err(fault) => return Err(fault),
    }
    let id = match optional_binding_identifier::<N, R>(alloc, kept, number, 4, row, "id") {
        Ok(id) => id,
        Err(fault) => return Err(fault),
    };
    match neither_given(number, 5, row, "declare", "is_abstract") {
        Ok(()) => {}
        Err(fault) => return Err(fault),
    }
    match field_not_given(number, 7, row, "type_parameters") {
        Ok(()) => {}
        Err(fault) => return Err(fault),
    }
    let heritage = match optional_expression::<N, R>(alloc, kept, number, 8, row, "heritage") {
        Ok(heritage) => heritage,
        Err(fault) => return Err(fault),
    };
    match neither_given(number, 9, row, "heritage_arguments", "implements") {
        Ok(()) => {}
        Err(fault) => return Err(fault),
    }
    let body = match needed_class_body::<N, R>(alloc, kept, number, 11, row, "body") {
        Ok(body) => body,
        Err(fault) => return Err(fault),
    };
    let node = Class {
        span,
        kind,
        id,
        heritage,
        body,
    };
    match boxed(alloc, node) {
        Ok(node) => Ok(row_of_class::<N, R>(node)),
        Err(fault) => Err(fault),
    }
}

#[tactic(auto, unfolding(jsgen_fields::specs::Reads::read_node))]
fn read_class_body<N: HoldsClassElement + Drop, R: RowOf<N> + Drop>(
    alloc: Global,
    kept: &mut Vec<Kept<R>>,
    number: usize,
    span: Span,
    row: &GivenRow<'_>,
) -> Result<R, InputFault>
    ensures { Gives R.plain result (entries R.plain kept.new.items)
        (read_node number types.ClassBody class_body_fields span (row_data row.now) (entries R.plain kept.old.items)) }
{
    let body = match class_element_list::<N, R>(alloc, kept, number, 2, row, "body") {
        Ok(body) => body,
        Err(fault) => return Err(fault),
    };
    let node = ClassBody { span, body };
    match boxed(alloc, node) {
        Ok(node) => Ok(row_of_class_body::<N, R>(node)),
        Err(fault) => Err(fault),
    }
}

#[tactic(auto, unfolding(jsgen_fields::specs::Reads::read_node))]
fn read_static_block<N: HoldsDeclaration + HoldsStatement + Drop, R: RowOf<N> + Drop>(
    alloc: Global,
    kept: &mut Vec<Kept<R>>,
    number: usize,
    span: Span,
    row: &GivenRow<'_>,
) -> Result<R, InputFault>
    ensures { Gives R.plain result (entries R.plain kept.new.items)
        (read_node number types.StaticBlock static_block_fields span (row_data row.now) (entries R.plain kept.old.items)) }
{
    let body = match statement_list::<N, R>(alloc, kept, number, 2, row, "body") {
        Ok(body) => body,
        Err(fault) => return Err(fault),
    };
    let node = StaticBlock { span, body };
    match boxed(alloc, node) {
        Ok(node) => row_of_class_element::<N, R>(alloc, ClassElement::StaticBlock(node)),
        Err(fault) => Err(fault),
    }
}

#[tactic(auto, unfolding(jsgen_fields::specs::Reads::read_node))]
fn read_method_definition<N: HoldsExpression + Drop, R: RowOf<N> + Drop>(
    alloc: Global,
    kept: &mut Vec<Kept<R>>,
    number: usize,
    span: Span,
    row: &GivenRow<'_>,
) -> Result<R, InputFault>
    ensures { Gives R.plain result (entries R.plain kept.new.items)
        (read_node number types.MethodDefinition method_definition_fields span (row_data row.now) (entries R.plain kept.old.items)) }
{
    match field_not_given(number, 2, row, "decorators") {
        Ok(()) => {}
        Err(fault) => return Err(fault),
    }
    let kind = match needed_kind_of_method(number, 3, row, "kind") {
        Ok(kind) => kind,
        Err(fault) => return Err(fault),
    };
    let key = match needed_property_key::<N, R>(alloc, kept, number, 4, row, "key") {
        Ok(key) => key,
        Err(fault) => return Err(fault),
    };
    let value = match needed_function::<N, R>(alloc, kept, number, 5, row, "value") {
        Ok(value) => value,
        Err(fault) => return Err(fault),
    };
    match field_not_given(number, 6, row, "accessibility") {
        Ok(()) => {}
        Err(fault) => return Err(fault),
    }
    let computed = match optional_flag(number, 7, row, "computed") {
        Ok(computed) => computed,
        Err(fault) => return Err(fault),
    };
    let is_static = match optional_flag(number, 8, row, "is_static") {
        Ok(is_static) => is_static,
        Err(fault) => return Err(fault),
    };
    match neither_given(number, 9, row, "is_override", "is_abstract") {
        Ok(()) => {}
        Err(fault) => return Err(fault),
    }
    match field_not_given(number, 11, row, "optional") {
        Ok(()) => {}
        Err(fault) => return Err(fault),
    }
    let node = MethodDefinition {
        span,
        kind,
        key,
        value,
        computed,
        is_static,
    };
    match boxed(alloc, node) {
        Ok(node) => row_of_class_element::<N, R>(alloc, ClassElement::MethodDefinition(node)),
        Err(fault) => Err(fault),
    }
}

#[tactic(auto, unfolding(jsgen_fields::specs::Reads::read_node))]
fn read_property_definition<N: HoldsExpression + Drop, R: RowOf<N> + Drop>(
    alloc: Global,
    kept: &mut Vec<Kept<R>>,
    number: usize,
    span: Span,
    row: &GivenRow<'_>,
) -> Result<R, InputFault>
    ensures { Gives R.plain result (entries R.plain kept.new.items)
        (read_node number types.PropertyDefinition property_definition_fields span (row_data row.now) (entries R.plain kept.old.items)) }
{
    match field_not_given(number, 2, row, "decorators") {
        Ok(()) => {}
        Err(fault) => return Err(fault),
    }
    let key = match needed_property_key::<N, R>(alloc, kept, number, 3, row, "key") {
        Ok(key) => key,
        Err(fault) => return Err(fault),
    };
    match field_not_given(number, 4, row, "accessibility") {
        Ok(()) => {}
        Err(fault) => return Err(fault),
    }
    let computed = match optional_flag(number, 5, row, "computed") {
        Ok(computed) => computed,
        Err(fault) => return Err(fault),
    };
    match neither_given(number, 6, row, "declare", "is_abstract") {
        Ok(()) => {}
        Err(fault) => return Err(fault),
    }
    let is_static = match optional_flag(number, 8, row, "is_static") {
        Ok(is_static) => is_static,
        Err(fault) => return Err(fault),
    };
    match neither_given(number, 9, row, "is_override", "readonly") {
        Ok(()) => {}
        Err(fault) => return Err(fault),
    }
    match neither_given(number, 11, row, "optional", "definite") {
        Ok(()) => {}
        Err(fault) => return Err(fault),
    }
    match field_not_given(number, 13, row, "type_annotation") {
        Ok(()) => {}
        Err(fault) => return Err(fault),
    }
    let value = match optional_expression::<N, R>(alloc, kept, number, 14, row, "value") {
        Ok(value) => value,
        Err(fault) => return Err(fault),
    };
    let node = PropertyDefinition {
        span,
        key,
        computed,
        is_static,
        value,
    };
    match boxed(alloc, node) {
        Ok(node) => row_of_class_element::<N, R>(alloc, ClassElement::PropertyDefinition(node)),
        Err(fault) => Err(fault),
    }
}

/// The row of a type of this part.
pub fn read_in_classes<N: ReadNode + Drop, R: RowOf<N> + Drop>(
    alloc: Global,
    kept: &mut Vec<Kept<R>>,
    node_type: NodeType,
    number: usize,
    span: Span,
    row: &GivenRow<'_>,
) -> Result<R, InputFault>
    requires { is_in_classes node_type ≡ true }
    ensures { Gives R.plain result (entries R.plain kept.new.items)
        (read_typed number node_type span (row_data row.now) (entries R.plain kept.old.items)) }
{
    match node_type {
        NodeType::PrivateIdentifier => read_private_identifier::<N, R>(
            alloc, kept, number, span, row,
        ),
        NodeType::PrivateFieldExpression => read_private_field_expression::<N, R>(
            alloc, kept, number, span, row,
        ),
        NodeType::PrivateInExpression => read_private_in_expression::<N, R>(
            alloc, kept, number, span, row,
        ),
        NodeType::Class => read_class::<N, R>(alloc, kept, number, span, row),
        NodeType::ClassBody => read_class_body::<N, R>(alloc, kept, number, span, row),
        NodeType::StaticBlock => read_static_block::<N, R>(alloc, kept, number, span, row),
        NodeType::MethodDefinition => read_method_definition::<N, R>(
            alloc, kept, number, span, row,
        ),
        NodeType::PropertyDefinition => read_property_definition::<N, R>(
            alloc, kept, number, span, row,
        ),
        _ => unreachable!(),
    }
}
