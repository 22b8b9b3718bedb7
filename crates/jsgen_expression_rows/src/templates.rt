// Generated from tools/nodes/table.txt; edit that and run tools/nodes/generate.
// Rows of a job: templates and import calls (ECMA-262, 13.2.8, 13.3.10 and 13.3.11).
ghost use Rattle.std.specs.Prelude.{◌≡◌, true};
ghost use Rattle.jsgen_fields.specs.Given.{row_data};
ghost use Rattle.jsgen_tree.specs.RowFields.{template_element_fields, template_literal_fields, tagged_template_expression_fields, import_expression_fields};
ghost use Rattle.jsgen_fields.specs.Reads.{Gives, read_node, read_typed};
ghost use Rattle.jsgen_pool.specs.Pool.{entries};
ghost use Rattle.jsgen_fields.specs.Parts.{is_in_templates};
ghost use Rattle.jsgen_tree.specs.declared.types.NodeType.TheVariants as types;

use jsgen_fields::InputFault;
use jsgen_fields::fields::boxed;
use jsgen_fields::given::GivenRow;
use jsgen_fields::list_fields::{expression_list, template_element_list};
use jsgen_fields::set_fields::{needed_expression, needed_template_literal, optional_expression};
use jsgen_fields::set_rows::row_of_expression;
use jsgen_fields::strings::optional_units;
use jsgen_fields::values::{field_not_given, needed_text};
use jsgen_kept::asked::{HoldsExpression, ReadNode, RowOf};
use jsgen_kept::kept::row_of_template_element;
use jsgen_kept::others::OtherExpression;
use jsgen_pool::Kept;
use jsgen_syntax::Span;
use jsgen_tree::{
    Expression, HasType, ImportExpression, NodeType, TaggedTemplateExpression, TemplateElement,
    TemplateLiteral,
};
use std::alloc::Global;

#[tactic(auto, unfolding(jsgen_fields::specs::Reads::read_node))]
fn read_template_element<N: HasType + Drop, R: RowOf<N> + Drop>(
    alloc: Global,
    kept: &mut Vec<Kept<R>>,
    number: usize,
    span: Span,
    row: &GivenRow<'_>,
) -> Result<R, InputFault>
    ensures { Gives R.plain result (entries R.plain kept.new.items)
        (read_node number types.TemplateElement template_element_fields span (row_data row.now) (entries R.plain kept.old.items)) }
{
    let _ = kept;
    let raw = match needed_text(alloc, number, 2, row, "raw") {
        Ok(raw) => raw,
        Err(fault) => return Err(fault),
    };
    let cooked = match optional_units(alloc, number, 3, row, "cooked") {
        Ok(cooked) => cooked,
        Err(fault) => return Err(fault),
    };
    let node = TemplateElement { span, raw, cooked };
    match boxed(alloc, node) {
        Ok(node) => Ok(row_of_template_element::<N, R>(node)),
        Err(fault) => Err(fault),
    }
}

#[tactic(auto, unfolding(jsgen_fields::specs::Reads::read_node))]
fn read_template_literal<N: HoldsExpression + Drop, R: RowOf<N> + Drop>(
    alloc: Global,
    kept: &mut Vec<Kept<R>>,
    number: usize,
    span: Span,
    row: &GivenRow<'_>,
) -> Result<R, InputFault>
    ensures { Gives R.plain result (entries R.plain kept.new.items)
        (read_node number types.TemplateLiteral template_literal_fields span (row_data row.now) (entries R.plain kept.old.items)) }
{
    let quasis = match template_element_list::<N, R>(alloc, kept, number, 2, row, "quasis") {
        Ok(quasis) => quasis,
        Err(fault) => return Err(fault),
    };
    let expressions = match expression_list::<N, R>(alloc, kept, number, 3, row, "expressions") {
        Ok(expressions) => expressions,
        Err(fault) => return Err(fault),
    };
    let node = TemplateLiteral {
        span,
        quasis,
        expressions,
    };
    match boxed(alloc, node) {
        Ok(node) => row_of_expression::<N, R>(
            alloc,
            OtherExpression {
                expression: Expression::TemplateLiteral(node),
            },
        ),
        Err(fault) => Err(fault),
    }
}

#[tactic(auto, unfolding(jsgen_fields::specs::Reads::read_node))]
fn read_tagged_template_expression<N: HoldsExpression + Drop, R: RowOf<N> + Drop>(
    alloc: Global,
    kept: &mut Vec<Kept<R>>,
    number: usize,
    span: Span,
    row: &GivenRow<'_>,
) -> Result<R, InputFault>
    ensures { Gives R.plain result (entries R.plain kept.new.items)
        (read_node number types.TaggedTemplateExpression tagged_template_expression_fields span (row_data row.now) (entries R.plain kept.old.items)) }
{
    let tag = match needed_expression::<N, R>(alloc, kept, number, 2, row, "tag") {
        Ok(tag) => tag,
        Err(fault) => return Err(fault),
    };
    match field_not_given(number, 3, row, "type_arguments") {
        Ok(()) => {}
        Err(fault) => return Err(fault),
    }
    let quasi = match needed_template_literal::<N, R>(alloc, kept, number, 4, row, "quasi") {
        Ok(quasi) => quasi,
        Err(fault) => return Err(fault),
    };
    let node = TaggedTemplateExpression { span, tag, quasi };
    match boxed(alloc, node) {
        Ok(node) => row_of_expression::<N, R>(
            alloc,
            OtherExpression {
                expression: Expression::TaggedTemplateExpression(node),
            },
        ),
        Err(fault) => Err(fault),
    }
}

#[tactic(auto, unfolding(jsgen_fields::specs::Reads::read_node))]
fn read_import_expression<N: HoldsExpression + Drop, R: RowOf<N> + Drop>(
    alloc: Global,
    kept: &mut Vec<Kept<R>>,
    number: usize,
    span: Span,
    row: &GivenRow<'_>,
) -> Result<R, InputFault>
    ensures { Gives R.plain result (entries R.plain kept.new.items)
        (read_node number types.ImportExpression import_expression_fields span (row_data row.now) (entries R.plain kept.old.items)) }
{
    match field_not_given(number, 2, row, "phase") {
        Ok(()) => {}
        Err(fault) => return Err(fault),
    }
    let source = match needed_expression::<N, R>(alloc, kept, number, 3, row, "source") {
        Ok(source) => source,
        Err(fault) => return Err(fault),
    };
    let options = match optional_expression::<N, R>(alloc, kept, number, 4, row, "options") {
        Ok(options) => options,
        Err(fault) => return Err(fault),
    };
    let node = ImportExpression {
        span,
        source,
        options,
    };
    match boxed(alloc, node) {
        Ok(node) => row_of_expression::<N, R>(
            alloc,
            OtherExpression {
                expression: Expression::ImportExpression(node),
            },
        ),
        Err(fault) => Err(fault),
    }
}

/// The row of a type of this part.
pub fn read_in_templates<N: ReadNode + Drop, R: RowOf<N> + Drop>(
    alloc: Global,
    kept: &mut Vec<Kept<R>>,
    node_type: NodeType,
    number: usize,
    span: Span,
    row: &GivenRow<'_>,
) -> Result<R, InputFault>
    requires { is_in_templates node_type ≡ true }
    ensures { Gives R.plain result (entries R.plain kept.new.items)
        (read_typed number node_type span (row_data row.now) (entries R.plain kept.old.items)) }
{
    match node_type {
        NodeType::TemplateElement => read_template_element::<N, R>(alloc, kept, number, span, row),
        NodeType::TemplateLiteral => read_template_literal::<N, R>(alloc, kept, number, span, row),
        NodeType::TaggedTemplateExpression => read_tagged_template_expression::<N, R>(
            alloc, kept, number, span, row,
        ),
        NodeType::ImportExpression => read_import_expression::<N, R>(
            alloc, kept, number, span, row,
        ),
        _ => unreachable!(),
    }
}
