// Generated from tools/nodes/table.txt; edit that and run tools/nodes/generate.
// Fields that hold lists of children, by set: a row that calls one of these passes no impl of `Child`, which would be proved at each call.
ghost use Rattle.std.specs.Prelude.{false, map, option_map};
ghost use Rattle.jsgen_fields.specs.Given.{row_data};
ghost use Rattle.jsgen_tree.specs.Tree.{optional_list, trees, holed};
ghost use Rattle.jsgen_tree.specs.Table.{may_be_absent, children as many, children_or_holes as many_or_holes, maybe_children as maybe_many};
ghost use Rattle.jsgen_tree.specs.Rows.{in_expression, in_argument, in_array_expression_element, in_assignment_target_maybe_default, in_assignment_target_property, in_object_property_kind, in_statement, in_binding_pattern, in_class_element, in_import_declaration_specifier, comment_row, directive_row, variable_declarator_row, formal_parameter_row, template_element_row, switch_case_row, binding_property_row, import_attribute_row, export_specifier_row};
ghost use Rattle.jsgen_fields.specs.Values.{at, field as value_under};
ghost use Rattle.jsgen_fields.specs.Meaning.{a_list, a_maybe_list};
ghost use Rattle.jsgen_fields.specs.Reads.{Gives, read_children};
ghost use Rattle.jsgen_pool.specs.Pool.{entries};
ghost use Rattle.jsgen_tree.specs.declared.types.NodeSet.TheVariants as sets;

use crate::InputFault;
use crate::fields::{children, children_or_holes, optional_children};
use crate::given::GivenRow;
use jsgen_kept::asked::{
    HoldsAssignmentTarget, HoldsBindingPattern, HoldsClassElement, HoldsDeclaration,
    HoldsExpression, HoldsStatement, RowOf,
};
use jsgen_pool::Kept;
use jsgen_tree::{
    Argument, ArrayExpressionElement, AssignmentTargetMaybeDefault, AssignmentTargetProperty,
    BindingPatternNode, BindingProperty, ClassElementNode, Comment, Directive, ExportSpecifier,
    ExpressionNode, FormalParameter, HasType, ImportAttribute, ImportDeclarationSpecifier,
    ObjectPropertyKind, StatementNode, SwitchCase, TemplateElement, VariableDeclarator,
};
use std::alloc::Global;

pub fn comment_list<N: HasType + Drop, R: RowOf<N> + Drop>(
    alloc: Global,
    kept: &mut Vec<Kept<R>>,
    number: usize,
    field: usize,
    row: &GivenRow<'_>,
    name: &str,
) -> Result<Vec<Comment>, InputFault>
    ensures { Gives (λ v. a_list (trees (map comment_row v.items))) result (entries R.plain kept.new.items)
        (read_children (at number field) false may_be_absent (many sets.Comment) (value_under name.now (row_data row.now)) (entries R.plain kept.old.items)) }
{
    children::<N, R, _>(alloc, kept, number, field, row, name)
}

pub fn directive_list<N: HasType + Drop, R: RowOf<N> + Drop>(
    alloc: Global,
    kept: &mut Vec<Kept<R>>,
    number: usize,
    field: usize,
    row: &GivenRow<'_>,
    name: &str,
) -> Result<Vec<Directive>, InputFault>
    ensures { Gives (λ v. a_list (trees (map directive_row v.items))) result (entries R.plain kept.new.items)
        (read_children (at number field) false may_be_absent (many sets.Directive) (value_under name.now (row_data row.now)) (entries R.plain kept.old.items)) }
{
    children::<N, R, _>(alloc, kept, number, field, row, name)
}

pub fn statement_list<N: HoldsDeclaration + HoldsStatement + Drop, R: RowOf<N> + Drop>(
    alloc: Global,
    kept: &mut Vec<Kept<R>>,
    number: usize,
    field: usize,
    row: &GivenRow<'_>,
    name: &str,
) -> Result<Vec<StatementNode<N>>, InputFault>
    ensures { Gives (λ v. a_list (trees (map (in_statement N.plain) v.items))) result (entries R.plain kept.new.items)
        (read_children (at number field) false may_be_absent (many sets.Statement) (value_under name.now (row_data row.now)) (entries R.plain kept.old.items)) }
{
    children::<N, R, _>(alloc, kept, number, field, row, name)
}

pub fn variable_declarator_list<N: HasType + Drop, R: RowOf<N> + Drop>(
    alloc: Global,
    kept: &mut Vec<Kept<R>>,
    number: usize,
    field: usize,
    row: &GivenRow<'_>,
    name: &str,
) -> Result<Vec<VariableDeclarator<N>>, InputFault>
    ensures { Gives (λ v. a_list (trees (map (variable_declarator_row N.plain) v.items))) result (entries R.plain kept.new.items)
        (read_children (at number field) false may_be_absent (many sets.VariableDeclarator) (value_under name.now (row_data row.now)) (entries R.plain kept.old.items)) }
{
    children::<N, R, _>(alloc, kept, number, field, row, name)
}

pub fn argument_list<N: HoldsExpression + Drop, R: RowOf<N> + Drop>(
    alloc: Global,
    kept: &mut Vec<Kept<R>>,
    number: usize,
    field: usize,
    row: &GivenRow<'_>,
    name: &str,
) -> Result<Vec<Argument<N>>, InputFault>
    ensures { Gives (λ v. a_list (trees (map (in_argument N.plain) v.items))) result (entries R.plain kept.new.items)
        (read_children (at number field) false may_be_absent (many sets.Argument) (value_under name.now (row_data row.now)) (entries R.plain kept.old.items)) }
{
    children::<N, R, _>(alloc, kept, number, field, row, name)
}

pub fn array_expression_element_or_hole_list<N: HoldsExpression + Drop, R: RowOf<N> + Drop>(
    alloc: Global,
    kept: &mut Vec<Kept<R>>,
    number: usize,
    field: usize,
    row: &GivenRow<'_>,
    name: &str,
) -> Result<Vec<Option<ArrayExpressionElement<N>>>, InputFault>
    ensures { Gives (λ v. a_list (holed (map (option_map (in_array_expression_element N.plain)) v.items))) result (entries R.plain kept.new.items)
        (read_children (at number field) false may_be_absent (many_or_holes sets.ArrayExpressionElement) (value_under name.now (row_data row.now)) (entries R.plain kept.old.items)) }
{
    children_or_holes::<N, R, _>(alloc, kept, number, field, row, name)
}

pub fn object_property_kind_list<N: HasType + Drop, R: RowOf<N> + Drop>(
    alloc: Global,
    kept: &mut Vec<Kept<R>>,
    number: usize,
    field: usize,
    row: &GivenRow<'_>,
    name: &str,
) -> Result<Vec<ObjectPropertyKind<N>>, InputFault>
    ensures { Gives (λ v. a_list (trees (map (in_object_property_kind N.plain) v.items))) result (entries R.plain kept.new.items)
        (read_children (at number field) false may_be_absent (many sets.ObjectPropertyKind) (value_under name.now (row_data row.now)) (entries R.plain kept.old.items)) }
{
    children::<N, R, _>(alloc, kept, number, field, row, name)
}

pub fn expression_list<N: HoldsExpression + Drop, R: RowOf<N> + Drop>(
    alloc: Global,
    kept: &mut Vec<Kept<R>>,
    number: usize,
    field: usize,
    row: &GivenRow<'_>,
    name: &str,
) -> Result<Vec<ExpressionNode<N>>, InputFault>
    ensures { Gives (λ v. a_list (trees (map (in_expression N.plain) v.items))) result (entries R.plain kept.new.items)
        (read_children (at number field) false may_be_absent (many sets.Expression) (value_under name.now (row_data row.now)) (entries R.plain kept.old.items)) }
{
    children::<N, R, _>(alloc, kept, number, field, row, name)
}

pub fn formal_parameter_list<N: HasType + Drop, R: RowOf<N> + Drop>(
    alloc: Global,
    kept: &mut Vec<Kept<R>>,
    number: usize,
    field: usize,
    row: &GivenRow<'_>,
    name: &str,
) -> Result<Vec<FormalParameter<N>>, InputFault>
    ensures { Gives (λ v. a_list (trees (map (formal_parameter_row N.plain) v.items))) result (entries R.plain kept.new.items)
        (read_children (at number field) false may_be_absent (many sets.FormalParameter) (value_under name.now (row_data row.now)) (entries R.plain kept.old.items)) }
{
    children::<N, R, _>(alloc, kept, number, field, row, name)
}

pub fn template_element_list<N: HasType + Drop, R: RowOf<N> + Drop>(
    alloc: Global,
    kept: &mut Vec<Kept<R>>,
    number: usize,
    field: usize,
    row: &GivenRow<'_>,
    name: &str,
) -> Result<Vec<TemplateElement>, InputFault>
    ensures { Gives (λ v. a_list (trees (map template_element_row v.items))) result (entries R.plain kept.new.items)
        (read_children (at number field) false may_be_absent (many sets.TemplateElement) (value_under name.now (row_data row.now)) (entries R.plain kept.old.items)) }
{
    children::<N, R, _>(alloc, kept, number, field, row, name)
}

pub fn switch_case_list<N: HasType + Drop, R: RowOf<N> + Drop>(
    alloc: Global,
    kept: &mut Vec<Kept<R>>,
    number: usize,
    field: usize,
    row: &GivenRow<'_>,
    name: &str,
) -> Result<Vec<SwitchCase<N>>, InputFault>
    ensures { Gives (λ v. a_list (trees (map (switch_case_row N.plain) v.items))) result (entries R.plain kept.new.items)
        (read_children (at number field) false may_be_absent (many sets.SwitchCase) (value_under name.now (row_data row.now)) (entries R.plain kept.old.items)) }
{
    children::<N, R, _>(alloc, kept, number, field, row, name)
}

pub fn binding_property_list<N: HasType + Drop, R: RowOf<N> + Drop>(
    alloc: Global,
    kept: &mut Vec<Kept<R>>,
    number: usize,
    field: usize,
    row: &GivenRow<'_>,
    name: &str,
) -> Result<Vec<BindingProperty<N>>, InputFault>
    ensures { Gives (λ v. a_list (trees (map (binding_property_row N.plain) v.items))) result (entries R.plain kept.new.items)
        (read_children (at number field) false may_be_absent (many sets.BindingProperty) (value_under name.now (row_data row.now)) (entries R.plain kept.old.items)) }
{
    children::<N, R, _>(alloc, kept, number, field, row, name)
}

pub fn binding_pattern_or_hole_list<N: HoldsBindingPattern + Drop, R: RowOf<N> + Drop>(
    alloc: Global,
    kept: &mut Vec<Kept<R>>,
    number: usize,
    field: usize,
    row: &GivenRow<'_>,
    name: &str,
) -> Result<Vec<Option<BindingPatternNode<N>>>, InputFault>
    ensures { Gives (λ v. a_list (holed (map (option_map (in_binding_pattern N.plain)) v.items))) result (entries R.plain kept.new.items)
        (read_children (at number field) false may_be_absent (many_or_holes sets.BindingPattern) (value_under name.now (row_data row.now)) (entries R.plain kept.old.items)) }
{
    children_or_holes::<N, R, _>(alloc, kept, number, field, row, name)
}

pub fn assignment_target_maybe_default_or_hole_list<
    N: HoldsAssignmentTarget + Drop,
    R: RowOf<N> + Drop,
>(
    alloc: Global,
    kept: &mut Vec<Kept<R>>,
    number: usize,
    field: usize,
    row: &GivenRow<'_>,
    name: &str,
) -> Result<Vec<Option<AssignmentTargetMaybeDefault<N>>>, InputFault>
    ensures { Gives (λ v. a_list (holed (map (option_map (in_assignment_target_maybe_default N.plain)) v.items))) result (entries R.plain kept.new.items)
        (read_children (at number field) false may_be_absent (many_or_holes sets.AssignmentTargetMaybeDefault) (value_under name.now (row_data row.now)) (entries R.plain kept.old.items)) }
{
    children_or_holes::<N, R, _>(alloc, kept, number, field, row, name)
}

pub fn assignment_target_property_list<N: HasType + Drop, R: RowOf<N> + Drop>(
    alloc: Global,
    kept: &mut Vec<Kept<R>>,
    number: usize,
    field: usize,
    row: &GivenRow<'_>,
    name: &str,
) -> Result<Vec<AssignmentTargetProperty<N>>, InputFault>
    ensures { Gives (λ v. a_list (trees (map (in_assignment_target_property N.plain) v.items))) result (entries R.plain kept.new.items)
        (read_children (at number field) false may_be_absent (many sets.AssignmentTargetProperty) (value_under name.now (row_data row.now)) (entries R.plain kept.old.items)) }
{
    children::<N, R, _>(alloc, kept, number, field, row, name)
}

pub fn class_element_list<N: HoldsClassElement + Drop, R: RowOf<N> + Drop>(
    alloc: Global,
    kept: &mut Vec<Kept<R>>,
    number: usize,
    field: usize,
    row: &GivenRow<'_>,
    name: &str,
) -> Result<Vec<ClassElementNode<N>>, InputFault>
    ensures { Gives (λ v. a_list (trees (map (in_class_element N.plain) v.items))) result (entries R.plain kept.new.items)
        (read_children (at number field) false may_be_absent (many sets.ClassElement) (value_under name.now (row_data row.now)) (entries R.plain kept.old.items)) }
{
    children::<N, R, _>(alloc, kept, number, field, row, name)
}

pub fn optional_import_declaration_specifier_list<N: HasType + Drop, R: RowOf<N> + Drop>(
    alloc: Global,
    kept: &mut Vec<Kept<R>>,
    number: usize,
    field: usize,
    row: &GivenRow<'_>,
    name: &str,
) -> Result<Option<Vec<ImportDeclarationSpecifier>>, InputFault>
    ensures { Gives (λ o. a_maybe_list (optional_list (option_map (λ v. map in_import_declaration_specifier v.items) o))) result (entries R.plain kept.new.items)
        (read_children (at number field) false may_be_absent (maybe_many sets.ImportDeclarationSpecifier) (value_under name.now (row_data row.now)) (entries R.plain kept.old.items)) }
{
    optional_children::<N, R, _>(alloc, kept, number, field, row, name)
}

pub fn import_attribute_list<N: HasType + Drop, R: RowOf<N> + Drop>(
    alloc: Global,
    kept: &mut Vec<Kept<R>>,
    number: usize,
    field: usize,
    row: &GivenRow<'_>,
    name: &str,
) -> Result<Vec<ImportAttribute>, InputFault>
    ensures { Gives (λ v. a_list (trees (map import_attribute_row v.items))) result (entries R.plain kept.new.items)
        (read_children (at number field) false may_be_absent (many sets.ImportAttribute) (value_under name.now (row_data row.now)) (entries R.plain kept.old.items)) }
{
    children::<N, R, _>(alloc, kept, number, field, row, name)
}

pub fn export_specifier_list<N: HasType + Drop, R: RowOf<N> + Drop>(
    alloc: Global,
    kept: &mut Vec<Kept<R>>,
    number: usize,
    field: usize,
    row: &GivenRow<'_>,
    name: &str,
) -> Result<Vec<ExportSpecifier>, InputFault>
    ensures { Gives (λ v. a_list (trees (map export_specifier_row v.items))) result (entries R.plain kept.new.items)
        (read_children (at number field) false may_be_absent (many sets.ExportSpecifier) (value_under name.now (row_data row.now)) (entries R.plain kept.old.items)) }
{
    children::<N, R, _>(alloc, kept, number, field, row, name)
}
