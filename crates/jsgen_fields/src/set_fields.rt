// Generated from tools/nodes/table.txt; edit that and run tools/nodes/generate.
// Fields that hold single children, by set: a row that calls one of these passes no impl of `Child`, which would be proved at each call.
ghost use Rattle.std.specs.Prelude.{true, false, option_map};
ghost use Rattle.jsgen_fields.specs.Given.{row_data};
ghost use Rattle.jsgen_tree.specs.Tree.{optional};
ghost use Rattle.jsgen_tree.specs.Table.{needed, may_be_absent, child};
ghost use Rattle.jsgen_tree.specs.Rows.{in_expression, in_chain_element, in_simple_assignment_target, in_assignment_target, in_assignment_target_maybe_default, in_arrow_function_body, in_for_statement_init, in_for_statement_left, in_property_key, in_declaration, in_statement, in_binding_pattern, in_module_export_name, in_import_attribute_key, in_export_default_declaration_kind, binding_identifier_row, block_statement_row, identifier_reference_row, string_literal_row, identifier_name_row, formal_parameter_rest_row, formal_parameters_row, function_row, function_body_row, template_literal_row, label_identifier_row, catch_clause_row, binding_rest_element_row, assignment_target_rest_row, private_identifier_row, class_body_row, hashbang_row, with_clause_row};
ghost use Rattle.jsgen_fields.specs.Values.{at, field as value_under};
ghost use Rattle.jsgen_fields.specs.Meaning.{a_child, a_maybe};
ghost use Rattle.jsgen_fields.specs.Reads.{Gives, read_children};
ghost use Rattle.jsgen_pool.specs.Pool.{entries};
ghost use Rattle.jsgen_tree.specs.declared.types.NodeSet.TheVariants as sets;

use crate::InputFault;
use crate::fields::{needed_child, optional_child};
use crate::given::GivenRow;
use jsgen_kept::asked::{
    HoldsAssignmentTarget, HoldsBindingPattern, HoldsDeclaration, HoldsExpression, HoldsStatement,
    RowOf,
};
use jsgen_pool::Kept;
use jsgen_tree::{
    ArrowFunctionBody, AssignmentTargetMaybeDefault, AssignmentTargetNode, AssignmentTargetRest,
    BindingIdentifier, BindingPatternNode, BindingRestElement, BlockStatement, CatchClause,
    ChainElement, ClassBody, DeclarationNode, ExportDefaultDeclarationKind, ExpressionNode,
    ForStatementInit, ForStatementLeft, FormalParameterRest, FormalParameters, Function,
    FunctionBody, HasType, Hashbang, IdentifierName, IdentifierReference, ImportAttributeKey,
    LabelIdentifier, ModuleExportName, PrivateIdentifier, PropertyKey, SimpleAssignmentTarget,
    StatementNode, StringLiteral, TemplateLiteral, WithClause,
};
use std::alloc::Global;

pub fn optional_hashbang<N: HasType + Drop, R: RowOf<N> + Drop>(
    alloc: Global,
    kept: &mut Vec<Kept<R>>,
    number: usize,
    field: usize,
    row: &GivenRow<'_>,
    name: &str,
) -> Result<Option<Box<Hashbang>>, InputFault>
    ensures { Gives (λ o. a_maybe (optional (option_map (λ b. hashbang_row b.value) o))) result (entries R.plain kept.new.items)
        (read_children (at number field) false may_be_absent (child sets.Hashbang) (value_under name.now (row_data row.now)) (entries R.plain kept.old.items)) }
{
    optional_child::<N, R, _>(alloc, kept, number, field, row, name)
}

pub fn needed_binding_pattern<N: HoldsBindingPattern + Drop, R: RowOf<N> + Drop>(
    alloc: Global,
    kept: &mut Vec<Kept<R>>,
    number: usize,
    field: usize,
    row: &GivenRow<'_>,
    name: &str,
) -> Result<BindingPatternNode<N>, InputFault>
    ensures { Gives (λ c. a_child (in_binding_pattern N.plain c)) result (entries R.plain kept.new.items)
        (read_children (at number field) true needed (child sets.BindingPattern) (value_under name.now (row_data row.now)) (entries R.plain kept.old.items)) }
{
    needed_child::<N, R, _>(alloc, kept, number, field, row, name)
}

pub fn optional_expression<N: HoldsExpression + Drop, R: RowOf<N> + Drop>(
    alloc: Global,
    kept: &mut Vec<Kept<R>>,
    number: usize,
    field: usize,
    row: &GivenRow<'_>,
    name: &str,
) -> Result<Option<ExpressionNode<N>>, InputFault>
    ensures { Gives (λ o. a_maybe (optional (option_map (in_expression N.plain) o))) result (entries R.plain kept.new.items)
        (read_children (at number field) false may_be_absent (child sets.Expression) (value_under name.now (row_data row.now)) (entries R.plain kept.old.items)) }
{
    optional_child::<N, R, _>(alloc, kept, number, field, row, name)
}

pub fn needed_expression<N: HoldsExpression + Drop, R: RowOf<N> + Drop>(
    alloc: Global,
    kept: &mut Vec<Kept<R>>,
    number: usize,
    field: usize,
    row: &GivenRow<'_>,
    name: &str,
) -> Result<ExpressionNode<N>, InputFault>
    ensures { Gives (λ c. a_child (in_expression N.plain c)) result (entries R.plain kept.new.items)
        (read_children (at number field) true needed (child sets.Expression) (value_under name.now (row_data row.now)) (entries R.plain kept.old.items)) }
{
    needed_child::<N, R, _>(alloc, kept, number, field, row, name)
}

pub fn needed_statement<N: HoldsDeclaration + HoldsStatement + Drop, R: RowOf<N> + Drop>(
    alloc: Global,
    kept: &mut Vec<Kept<R>>,
    number: usize,
    field: usize,
    row: &GivenRow<'_>,
    name: &str,
) -> Result<StatementNode<N>, InputFault>
    ensures { Gives (λ c. a_child (in_statement N.plain c)) result (entries R.plain kept.new.items)
        (read_children (at number field) true needed (child sets.Statement) (value_under name.now (row_data row.now)) (entries R.plain kept.old.items)) }
{
    needed_child::<N, R, _>(alloc, kept, number, field, row, name)
}

pub fn optional_statement<N: HoldsDeclaration + HoldsStatement + Drop, R: RowOf<N> + Drop>(
    alloc: Global,
    kept: &mut Vec<Kept<R>>,
    number: usize,
    field: usize,
    row: &GivenRow<'_>,
    name: &str,
) -> Result<Option<StatementNode<N>>, InputFault>
    ensures { Gives (λ o. a_maybe (optional (option_map (in_statement N.plain) o))) result (entries R.plain kept.new.items)
        (read_children (at number field) false may_be_absent (child sets.Statement) (value_under name.now (row_data row.now)) (entries R.plain kept.old.items)) }
{
    optional_child::<N, R, _>(alloc, kept, number, field, row, name)
}

pub fn needed_identifier_name<N: HasType + Drop, R: RowOf<N> + Drop>(
    alloc: Global,
    kept: &mut Vec<Kept<R>>,
    number: usize,
    field: usize,
    row: &GivenRow<'_>,
    name: &str,
) -> Result<Box<IdentifierName>, InputFault>
    ensures { Gives (λ c. a_child (identifier_name_row c.value)) result (entries R.plain kept.new.items)
        (read_children (at number field) true needed (child sets.IdentifierName) (value_under name.now (row_data row.now)) (entries R.plain kept.old.items)) }
{
    needed_child::<N, R, _>(alloc, kept, number, field, row, name)
}

pub fn needed_chain_element<N: HasType + Drop, R: RowOf<N> + Drop>(
    alloc: Global,
    kept: &mut Vec<Kept<R>>,
    number: usize,
    field: usize,
    row: &GivenRow<'_>,
    name: &str,
) -> Result<ChainElement<N>, InputFault>
    ensures { Gives (λ c. a_child (in_chain_element N.plain c)) result (entries R.plain kept.new.items)
        (read_children (at number field) true needed (child sets.ChainElement) (value_under name.now (row_data row.now)) (entries R.plain kept.old.items)) }
{
    needed_child::<N, R, _>(alloc, kept, number, field, row, name)
}

pub fn needed_property_key<N: HoldsExpression + Drop, R: RowOf<N> + Drop>(
    alloc: Global,
    kept: &mut Vec<Kept<R>>,
    number: usize,
    field: usize,
    row: &GivenRow<'_>,
    name: &str,
) -> Result<PropertyKey<N>, InputFault>
    ensures { Gives (λ c. a_child (in_property_key N.plain c)) result (entries R.plain kept.new.items)
        (read_children (at number field) true needed (child sets.PropertyKey) (value_under name.now (row_data row.now)) (entries R.plain kept.old.items)) }
{
    needed_child::<N, R, _>(alloc, kept, number, field, row, name)
}

pub fn needed_simple_assignment_target<N: HasType + Drop, R: RowOf<N> + Drop>(
    alloc: Global,
    kept: &mut Vec<Kept<R>>,
    number: usize,
    field: usize,
    row: &GivenRow<'_>,
    name: &str,
) -> Result<SimpleAssignmentTarget<N>, InputFault>
    ensures { Gives (λ c. a_child (in_simple_assignment_target N.plain c)) result (entries R.plain kept.new.items)
        (read_children (at number field) true needed (child sets.SimpleAssignmentTarget) (value_under name.now (row_data row.now)) (entries R.plain kept.old.items)) }
{
    needed_child::<N, R, _>(alloc, kept, number, field, row, name)
}

pub fn needed_assignment_target<N: HoldsAssignmentTarget + Drop, R: RowOf<N> + Drop>(
    alloc: Global,
    kept: &mut Vec<Kept<R>>,
    number: usize,
    field: usize,
    row: &GivenRow<'_>,
    name: &str,
) -> Result<AssignmentTargetNode<N>, InputFault>
    ensures { Gives (λ c. a_child (in_assignment_target N.plain c)) result (entries R.plain kept.new.items)
        (read_children (at number field) true needed (child sets.AssignmentTarget) (value_under name.now (row_data row.now)) (entries R.plain kept.old.items)) }
{
    needed_child::<N, R, _>(alloc, kept, number, field, row, name)
}

pub fn optional_formal_parameter_rest<N: HasType + Drop, R: RowOf<N> + Drop>(
    alloc: Global,
    kept: &mut Vec<Kept<R>>,
    number: usize,
    field: usize,
    row: &GivenRow<'_>,
    name: &str,
) -> Result<Option<Box<FormalParameterRest<N>>>, InputFault>
    ensures { Gives (λ o. a_maybe (optional (option_map (λ b. formal_parameter_rest_row N.plain b.value) o))) result (entries R.plain kept.new.items)
        (read_children (at number field) false may_be_absent (child sets.FormalParameterRest) (value_under name.now (row_data row.now)) (entries R.plain kept.old.items)) }
{
    optional_child::<N, R, _>(alloc, kept, number, field, row, name)
}

pub fn optional_binding_identifier<N: HasType + Drop, R: RowOf<N> + Drop>(
    alloc: Global,
    kept: &mut Vec<Kept<R>>,
    number: usize,
    field: usize,
    row: &GivenRow<'_>,
    name: &str,
) -> Result<Option<Box<BindingIdentifier>>, InputFault>
    ensures { Gives (λ o. a_maybe (optional (option_map (λ b. binding_identifier_row b.value) o))) result (entries R.plain kept.new.items)
        (read_children (at number field) false may_be_absent (child sets.BindingIdentifier) (value_under name.now (row_data row.now)) (entries R.plain kept.old.items)) }
{
    optional_child::<N, R, _>(alloc, kept, number, field, row, name)
}

pub fn needed_formal_parameters<N: HasType + Drop, R: RowOf<N> + Drop>(
    alloc: Global,
    kept: &mut Vec<Kept<R>>,
    number: usize,
    field: usize,
    row: &GivenRow<'_>,
    name: &str,
) -> Result<Box<FormalParameters<N>>, InputFault>
    ensures { Gives (λ c. a_child (formal_parameters_row N.plain c.value)) result (entries R.plain kept.new.items)
        (read_children (at number field) true needed (child sets.FormalParameters) (value_under name.now (row_data row.now)) (entries R.plain kept.old.items)) }
{
    needed_child::<N, R, _>(alloc, kept, number, field, row, name)
}

pub fn optional_function_body<N: HasType + Drop, R: RowOf<N> + Drop>(
    alloc: Global,
    kept: &mut Vec<Kept<R>>,
    number: usize,
    field: usize,
    row: &GivenRow<'_>,
    name: &str,
) -> Result<Option<Box<FunctionBody<N>>>, InputFault>
    ensures { Gives (λ o. a_maybe (optional (option_map (λ b. function_body_row N.plain b.value) o))) result (entries R.plain kept.new.items)
        (read_children (at number field) false may_be_absent (child sets.FunctionBody) (value_under name.now (row_data row.now)) (entries R.plain kept.old.items)) }
{
    optional_child::<N, R, _>(alloc, kept, number, field, row, name)
}

pub fn needed_arrow_function_body<N: HoldsExpression + Drop, R: RowOf<N> + Drop>(
    alloc: Global,
    kept: &mut Vec<Kept<R>>,
    number: usize,
    field: usize,
    row: &GivenRow<'_>,
    name: &str,
) -> Result<ArrowFunctionBody<N>, InputFault>
    ensures { Gives (λ c. a_child (in_arrow_function_body N.plain c)) result (entries R.plain kept.new.items)
        (read_children (at number field) true needed (child sets.ArrowFunctionBody) (value_under name.now (row_data row.now)) (entries R.plain kept.old.items)) }
{
    needed_child::<N, R, _>(alloc, kept, number, field, row, name)
}

pub fn needed_template_literal<N: HasType + Drop, R: RowOf<N> + Drop>(
    alloc: Global,
    kept: &mut Vec<Kept<R>>,
    number: usize,
    field: usize,
    row: &GivenRow<'_>,
    name: &str,
) -> Result<Box<TemplateLiteral<N>>, InputFault>
    ensures { Gives (λ c. a_child (template_literal_row N.plain c.value)) result (entries R.plain kept.new.items)
        (read_children (at number field) true needed (child sets.TemplateLiteral) (value_under name.now (row_data row.now)) (entries R.plain kept.old.items)) }
{
    needed_child::<N, R, _>(alloc, kept, number, field, row, name)
}

pub fn optional_for_statement_init<N: HoldsExpression + Drop, R: RowOf<N> + Drop>(
    alloc: Global,
    kept: &mut Vec<Kept<R>>,
    number: usize,
    field: usize,
    row: &GivenRow<'_>,
    name: &str,
) -> Result<Option<ForStatementInit<N>>, InputFault>
    ensures { Gives (λ o. a_maybe (optional (option_map (in_for_statement_init N.plain) o))) result (entries R.plain kept.new.items)
        (read_children (at number field) false may_be_absent (child sets.ForStatementInit) (value_under name.now (row_data row.now)) (entries R.plain kept.old.items)) }
{
    optional_child::<N, R, _>(alloc, kept, number, field, row, name)
}

pub fn needed_for_statement_left<N: HoldsAssignmentTarget + Drop, R: RowOf<N> + Drop>(
    alloc: Global,
    kept: &mut Vec<Kept<R>>,
    number: usize,
    field: usize,
    row: &GivenRow<'_>,
    name: &str,
) -> Result<ForStatementLeft<N>, InputFault>
    ensures { Gives (λ c. a_child (in_for_statement_left N.plain c)) result (entries R.plain kept.new.items)
        (read_children (at number field) true needed (child sets.ForStatementLeft) (value_under name.now (row_data row.now)) (entries R.plain kept.old.items)) }
{
    needed_child::<N, R, _>(alloc, kept, number, field, row, name)
}

pub fn needed_label_identifier<N: HasType + Drop, R: RowOf<N> + Drop>(
    alloc: Global,
    kept: &mut Vec<Kept<R>>,
    number: usize,
    field: usize,
    row: &GivenRow<'_>,
    name: &str,
) -> Result<Box<LabelIdentifier>, InputFault>
    ensures { Gives (λ c. a_child (label_identifier_row c.value)) result (entries R.plain kept.new.items)
        (read_children (at number field) true needed (child sets.LabelIdentifier) (value_under name.now (row_data row.now)) (entries R.plain kept.old.items)) }
{
    needed_child::<N, R, _>(alloc, kept, number, field, row, name)
}

pub fn optional_label_identifier<N: HasType + Drop, R: RowOf<N> + Drop>(
    alloc: Global,
    kept: &mut Vec<Kept<R>>,
    number: usize,
    field: usize,
    row: &GivenRow<'_>,
    name: &str,
) -> Result<Option<Box<LabelIdentifier>>, InputFault>
    ensures { Gives (λ o. a_maybe (optional (option_map (λ b. label_identifier_row b.value) o))) result (entries R.plain kept.new.items)
        (read_children (at number field) false may_be_absent (child sets.LabelIdentifier) (value_under name.now (row_data row.now)) (entries R.plain kept.old.items)) }
{
    optional_child::<N, R, _>(alloc, kept, number, field, row, name)
}

pub fn needed_block_statement<N: HasType + Drop, R: RowOf<N> + Drop>(
    alloc: Global,
    kept: &mut Vec<Kept<R>>,
    number: usize,
    field: usize,
    row: &GivenRow<'_>,
    name: &str,
) -> Result<Box<BlockStatement<N>>, InputFault>
    ensures { Gives (λ c. a_child (block_statement_row N.plain c.value)) result (entries R.plain kept.new.items)
        (read_children (at number field) true needed (child sets.BlockStatement) (value_under name.now (row_data row.now)) (entries R.plain kept.old.items)) }
{
    needed_child::<N, R, _>(alloc, kept, number, field, row, name)
}

pub fn optional_catch_clause<N: HasType + Drop, R: RowOf<N> + Drop>(
    alloc: Global,
    kept: &mut Vec<Kept<R>>,
    number: usize,
    field: usize,
    row: &GivenRow<'_>,
    name: &str,
) -> Result<Option<Box<CatchClause<N>>>, InputFault>
    ensures { Gives (λ o. a_maybe (optional (option_map (λ b. catch_clause_row N.plain b.value) o))) result (entries R.plain kept.new.items)
        (read_children (at number field) false may_be_absent (child sets.CatchClause) (value_under name.now (row_data row.now)) (entries R.plain kept.old.items)) }
{
    optional_child::<N, R, _>(alloc, kept, number, field, row, name)
}

pub fn optional_block_statement<N: HasType + Drop, R: RowOf<N> + Drop>(
    alloc: Global,
    kept: &mut Vec<Kept<R>>,
    number: usize,
    field: usize,
    row: &GivenRow<'_>,
    name: &str,
) -> Result<Option<Box<BlockStatement<N>>>, InputFault>
    ensures { Gives (λ o. a_maybe (optional (option_map (λ b. block_statement_row N.plain b.value) o))) result (entries R.plain kept.new.items)
        (read_children (at number field) false may_be_absent (child sets.BlockStatement) (value_under name.now (row_data row.now)) (entries R.plain kept.old.items)) }
{
    optional_child::<N, R, _>(alloc, kept, number, field, row, name)
}

pub fn optional_binding_pattern<N: HoldsBindingPattern + Drop, R: RowOf<N> + Drop>(
    alloc: Global,
    kept: &mut Vec<Kept<R>>,
    number: usize,
    field: usize,
    row: &GivenRow<'_>,
    name: &str,
) -> Result<Option<BindingPatternNode<N>>, InputFault>
    ensures { Gives (λ o. a_maybe (optional (option_map (in_binding_pattern N.plain) o))) result (entries R.plain kept.new.items)
        (read_children (at number field) false may_be_absent (child sets.BindingPattern) (value_under name.now (row_data row.now)) (entries R.plain kept.old.items)) }
{
    optional_child::<N, R, _>(alloc, kept, number, field, row, name)
}

pub fn optional_binding_rest_element<N: HasType + Drop, R: RowOf<N> + Drop>(
    alloc: Global,
    kept: &mut Vec<Kept<R>>,
    number: usize,
    field: usize,
    row: &GivenRow<'_>,
    name: &str,
) -> Result<Option<Box<BindingRestElement<N>>>, InputFault>
    ensures { Gives (λ o. a_maybe (optional (option_map (λ b. binding_rest_element_row N.plain b.value) o))) result (entries R.plain kept.new.items)
        (read_children (at number field) false may_be_absent (child sets.BindingRestElement) (value_under name.now (row_data row.now)) (entries R.plain kept.old.items)) }
{
    optional_child::<N, R, _>(alloc, kept, number, field, row, name)
}

pub fn optional_assignment_target_rest<N: HasType + Drop, R: RowOf<N> + Drop>(
    alloc: Global,
    kept: &mut Vec<Kept<R>>,
    number: usize,
    field: usize,
    row: &GivenRow<'_>,
    name: &str,
) -> Result<Option<Box<AssignmentTargetRest<N>>>, InputFault>
    ensures { Gives (λ o. a_maybe (optional (option_map (λ b. assignment_target_rest_row N.plain b.value) o))) result (entries R.plain kept.new.items)
        (read_children (at number field) false may_be_absent (child sets.AssignmentTargetRest) (value_under name.now (row_data row.now)) (entries R.plain kept.old.items)) }
{
    optional_child::<N, R, _>(alloc, kept, number, field, row, name)
}

pub fn needed_identifier_reference<N: HasType + Drop, R: RowOf<N> + Drop>(
    alloc: Global,
    kept: &mut Vec<Kept<R>>,
    number: usize,
    field: usize,
    row: &GivenRow<'_>,
    name: &str,
) -> Result<Box<IdentifierReference>, InputFault>
    ensures { Gives (λ c. a_child (identifier_reference_row c.value)) result (entries R.plain kept.new.items)
        (read_children (at number field) true needed (child sets.IdentifierReference) (value_under name.now (row_data row.now)) (entries R.plain kept.old.items)) }
{
    needed_child::<N, R, _>(alloc, kept, number, field, row, name)
}

pub fn needed_assignment_target_maybe_default<N: HoldsAssignmentTarget + Drop, R: RowOf<N> + Drop>(
    alloc: Global,
    kept: &mut Vec<Kept<R>>,
    number: usize,
    field: usize,
    row: &GivenRow<'_>,
    name: &str,
) -> Result<AssignmentTargetMaybeDefault<N>, InputFault>
    ensures { Gives (λ c. a_child (in_assignment_target_maybe_default N.plain c)) result (entries R.plain kept.new.items)
        (read_children (at number field) true needed (child sets.AssignmentTargetMaybeDefault) (value_under name.now (row_data row.now)) (entries R.plain kept.old.items)) }
{
    needed_child::<N, R, _>(alloc, kept, number, field, row, name)
}

pub fn needed_private_identifier<N: HasType + Drop, R: RowOf<N> + Drop>(
    alloc: Global,
    kept: &mut Vec<Kept<R>>,
    number: usize,
    field: usize,
    row: &GivenRow<'_>,
    name: &str,
) -> Result<Box<PrivateIdentifier>, InputFault>
    ensures { Gives (λ c. a_child (private_identifier_row c.value)) result (entries R.plain kept.new.items)
        (read_children (at number field) true needed (child sets.PrivateIdentifier) (value_under name.now (row_data row.now)) (entries R.plain kept.old.items)) }
{
    needed_child::<N, R, _>(alloc, kept, number, field, row, name)
}

pub fn needed_class_body<N: HasType + Drop, R: RowOf<N> + Drop>(
    alloc: Global,
    kept: &mut Vec<Kept<R>>,
    number: usize,
    field: usize,
    row: &GivenRow<'_>,
    name: &str,
) -> Result<Box<ClassBody<N>>, InputFault>
    ensures { Gives (λ c. a_child (class_body_row N.plain c.value)) result (entries R.plain kept.new.items)
        (read_children (at number field) true needed (child sets.ClassBody) (value_under name.now (row_data row.now)) (entries R.plain kept.old.items)) }
{
    needed_child::<N, R, _>(alloc, kept, number, field, row, name)
}

pub fn needed_function<N: HasType + Drop, R: RowOf<N> + Drop>(
    alloc: Global,
    kept: &mut Vec<Kept<R>>,
    number: usize,
    field: usize,
    row: &GivenRow<'_>,
    name: &str,
) -> Result<Box<Function<N>>, InputFault>
    ensures { Gives (λ c. a_child (function_row N.plain c.value)) result (entries R.plain kept.new.items)
        (read_children (at number field) true needed (child sets.Function) (value_under name.now (row_data row.now)) (entries R.plain kept.old.items)) }
{
    needed_child::<N, R, _>(alloc, kept, number, field, row, name)
}

pub fn needed_string_literal<N: HasType + Drop, R: RowOf<N> + Drop>(
    alloc: Global,
    kept: &mut Vec<Kept<R>>,
    number: usize,
    field: usize,
    row: &GivenRow<'_>,
    name: &str,
) -> Result<Box<StringLiteral>, InputFault>
    ensures { Gives (λ c. a_child (string_literal_row c.value)) result (entries R.plain kept.new.items)
        (read_children (at number field) true needed (child sets.StringLiteral) (value_under name.now (row_data row.now)) (entries R.plain kept.old.items)) }
{
    needed_child::<N, R, _>(alloc, kept, number, field, row, name)
}

pub fn optional_with_clause<N: HasType + Drop, R: RowOf<N> + Drop>(
    alloc: Global,
    kept: &mut Vec<Kept<R>>,
    number: usize,
    field: usize,
    row: &GivenRow<'_>,
    name: &str,
) -> Result<Option<Box<WithClause>>, InputFault>
    ensures { Gives (λ o. a_maybe (optional (option_map (λ b. with_clause_row b.value) o))) result (entries R.plain kept.new.items)
        (read_children (at number field) false may_be_absent (child sets.WithClause) (value_under name.now (row_data row.now)) (entries R.plain kept.old.items)) }
{
    optional_child::<N, R, _>(alloc, kept, number, field, row, name)
}

pub fn needed_binding_identifier<N: HasType + Drop, R: RowOf<N> + Drop>(
    alloc: Global,
    kept: &mut Vec<Kept<R>>,
    number: usize,
    field: usize,
    row: &GivenRow<'_>,
    name: &str,
) -> Result<Box<BindingIdentifier>, InputFault>
    ensures { Gives (λ c. a_child (binding_identifier_row c.value)) result (entries R.plain kept.new.items)
        (read_children (at number field) true needed (child sets.BindingIdentifier) (value_under name.now (row_data row.now)) (entries R.plain kept.old.items)) }
{
    needed_child::<N, R, _>(alloc, kept, number, field, row, name)
}

pub fn needed_module_export_name<N: HasType + Drop, R: RowOf<N> + Drop>(
    alloc: Global,
    kept: &mut Vec<Kept<R>>,
    number: usize,
    field: usize,
    row: &GivenRow<'_>,
    name: &str,
) -> Result<ModuleExportName, InputFault>
    ensures { Gives (λ c. a_child (in_module_export_name c)) result (entries R.plain kept.new.items)
        (read_children (at number field) true needed (child sets.ModuleExportName) (value_under name.now (row_data row.now)) (entries R.plain kept.old.items)) }
{
    needed_child::<N, R, _>(alloc, kept, number, field, row, name)
}

pub fn needed_import_attribute_key<N: HasType + Drop, R: RowOf<N> + Drop>(
    alloc: Global,
    kept: &mut Vec<Kept<R>>,
    number: usize,
    field: usize,
    row: &GivenRow<'_>,
    name: &str,
) -> Result<ImportAttributeKey, InputFault>
    ensures { Gives (λ c. a_child (in_import_attribute_key c)) result (entries R.plain kept.new.items)
        (read_children (at number field) true needed (child sets.ImportAttributeKey) (value_under name.now (row_data row.now)) (entries R.plain kept.old.items)) }
{
    needed_child::<N, R, _>(alloc, kept, number, field, row, name)
}

pub fn needed_declaration<N: HoldsDeclaration + Drop, R: RowOf<N> + Drop>(
    alloc: Global,
    kept: &mut Vec<Kept<R>>,
    number: usize,
    field: usize,
    row: &GivenRow<'_>,
    name: &str,
) -> Result<DeclarationNode<N>, InputFault>
    ensures { Gives (λ c. a_child (in_declaration N.plain c)) result (entries R.plain kept.new.items)
        (read_children (at number field) true needed (child sets.Declaration) (value_under name.now (row_data row.now)) (entries R.plain kept.old.items)) }
{
    needed_child::<N, R, _>(alloc, kept, number, field, row, name)
}

pub fn optional_module_export_name<N: HasType + Drop, R: RowOf<N> + Drop>(
    alloc: Global,
    kept: &mut Vec<Kept<R>>,
    number: usize,
    field: usize,
    row: &GivenRow<'_>,
    name: &str,
) -> Result<Option<ModuleExportName>, InputFault>
    ensures { Gives (λ o. a_maybe (optional (option_map in_module_export_name o))) result (entries R.plain kept.new.items)
        (read_children (at number field) false may_be_absent (child sets.ModuleExportName) (value_under name.now (row_data row.now)) (entries R.plain kept.old.items)) }
{
    optional_child::<N, R, _>(alloc, kept, number, field, row, name)
}

pub fn needed_export_default_declaration_kind<N: HoldsExpression + Drop, R: RowOf<N> + Drop>(
    alloc: Global,
    kept: &mut Vec<Kept<R>>,
    number: usize,
    field: usize,
    row: &GivenRow<'_>,
    name: &str,
) -> Result<ExportDefaultDeclarationKind<N>, InputFault>
    ensures { Gives (λ c. a_child (in_export_default_declaration_kind N.plain c)) result (entries R.plain kept.new.items)
        (read_children (at number field) true needed (child sets.ExportDefaultDeclarationKind) (value_under name.now (row_data row.now)) (entries R.plain kept.old.items)) }
{
    needed_child::<N, R, _>(alloc, kept, number, field, row, name)
}
