// Generated from tools/nodes/table.txt; edit that and run tools/nodes/generate.
// The rows that were read, by the set that they are children of.
ghost use Rattle.std.specs.Prelude.{◌≡◌, IfOk, Some, None, option_map, if◌then◌else◌};
ghost use Rattle.jsgen_tree.specs.Tree.{type_of};
ghost use Rattle.jsgen_tree.specs.Sets.{in_set};
ghost use Rattle.jsgen_tree.specs.Rows.{program_row, comment_row, directive_row, variable_declarator_row, identifier_reference_row, identifier_name_row, static_member_expression_row, computed_member_expression_row, spread_element_row, object_property_row, formal_parameter_row, formal_parameter_rest_row, formal_parameters_row, function_row, function_body_row, template_element_row, label_identifier_row, switch_case_row, catch_clause_row, binding_property_row, binding_rest_element_row, assignment_target_with_default_row, assignment_target_property_identifier_row, assignment_target_property_property_row, assignment_target_rest_row, private_identifier_row, private_field_expression_row, class_row, class_body_row, hashbang_row, import_default_specifier_row, import_namespace_specifier_row, import_specifier_row, with_clause_row, import_attribute_row, export_specifier_row, expression_plain, assignment_target_plain, declaration_plain, statement_plain, binding_pattern_plain, class_element_plain, expression_plain, assignment_target_plain, declaration_plain, statement_plain, binding_pattern_plain, class_element_plain, program_row};
ghost use Rattle.jsgen_kept.specs.Kept.{row_plain, any_row_plain, is_program};

use crate::asked::{Child, RowOf};
use crate::others::{OtherAssignmentTarget, OtherDeclaration, OtherExpression, OtherStatement};
use jsgen_pool::Typed;
use jsgen_tree::{
    AssignmentTarget, AssignmentTargetPropertyIdentifier, AssignmentTargetPropertyProperty,
    AssignmentTargetRest, AssignmentTargetWithDefault, BindingPattern, BindingProperty,
    BindingRestElement, CatchClause, Class, ClassBody, ClassElement, Comment,
    ComputedMemberExpression, Declaration, Directive, ExportSpecifier, Expression, FormalParameter,
    FormalParameterRest, FormalParameters, Function, FunctionBody, HasType, Hashbang,
    IdentifierName, IdentifierReference, ImportAttribute, ImportDefaultSpecifier,
    ImportNamespaceSpecifier, ImportSpecifier, LabelIdentifier, Node, NodeType, ObjectProperty,
    PrivateFieldExpression, PrivateIdentifier, Program, SpreadElement, Statement,
    StaticMemberExpression, SwitchCase, TemplateElement, VariableDeclarator, WithClause,
};
use std::alloc::{AllocError, Global};

/// A row that was read, by the set that it is a child of. Sets are in boxes, so that a row is small whatever
/// they have.
#[derive(Drop)]
pub enum Row<N = Node> {
    Program(Box<Program<N>>),
    Comment(Box<Comment>),
    Directive(Box<Directive>),
    Declaration(Box<OtherDeclaration<N>>),
    VariableDeclarator(Box<VariableDeclarator<N>>),
    BindingPattern(Box<BindingPattern<N>>),
    Statement(Box<OtherStatement<N>>),
    IdentifierReference(Box<IdentifierReference>),
    Expression(Box<OtherExpression<N>>),
    IdentifierName(Box<IdentifierName>),
    StaticMemberExpression(Box<StaticMemberExpression<N>>),
    ComputedMemberExpression(Box<ComputedMemberExpression<N>>),
    SpreadElement(Box<SpreadElement<N>>),
    ObjectProperty(Box<ObjectProperty<N>>),
    FormalParameter(Box<FormalParameter<N>>),
    FormalParameterRest(Box<FormalParameterRest<N>>),
    FormalParameters(Box<FormalParameters<N>>),
    Function(Box<Function<N>>),
    FunctionBody(Box<FunctionBody<N>>),
    TemplateElement(Box<TemplateElement>),
    LabelIdentifier(Box<LabelIdentifier>),
    SwitchCase(Box<SwitchCase<N>>),
    CatchClause(Box<CatchClause<N>>),
    BindingProperty(Box<BindingProperty<N>>),
    BindingRestElement(Box<BindingRestElement<N>>),
    AssignmentTarget(Box<OtherAssignmentTarget<N>>),
    AssignmentTargetWithDefault(Box<AssignmentTargetWithDefault<N>>),
    AssignmentTargetPropertyIdentifier(Box<AssignmentTargetPropertyIdentifier<N>>),
    AssignmentTargetPropertyProperty(Box<AssignmentTargetPropertyProperty<N>>),
    AssignmentTargetRest(Box<AssignmentTargetRest<N>>),
    PrivateIdentifier(Box<PrivateIdentifier>),
    PrivateFieldExpression(Box<PrivateFieldExpression<N>>),
    Class(Box<Class<N>>),
    ClassBody(Box<ClassBody<N>>),
    ClassElement(Box<ClassElement<N>>),
    Hashbang(Box<Hashbang>),
    ImportDefaultSpecifier(Box<ImportDefaultSpecifier>),
    ImportNamespaceSpecifier(Box<ImportNamespaceSpecifier>),
    ImportSpecifier(Box<ImportSpecifier>),
    WithClause(Box<WithClause>),
    ImportAttribute(Box<ImportAttribute>),
    ExportSpecifier(Box<ExportSpecifier>),
}

impl<N: Drop> Row<N> {
    /// Lets go of the row, by a call that asks nothing of its types where it is made.
    pub fn let_go(self) {
        drop(self);
    }
}

/// A row as it is kept. Its `drop` is written out, so that it is proved here alone: a derived one is proved again, for all types,
/// in each crate that lets go of a row.
pub struct AnyRow<N = Node> {
    row: Row<N>,
}

impl<N: Drop> Drop for AnyRow<N> {
    fn drop(self) {
        let AnyRow { row } = self;
        row.let_go();
    }
}

impl<N: HasType> Typed for AnyRow<N> {
    ghost plain = { λ row. any_row_plain N.plain row };

    fn node_type(&self) -> NodeType {
        match &self.row {
            Row::Program(_) => NodeType::Program,
            Row::Comment(_) => NodeType::Comment,
            Row::Directive(_) => NodeType::Directive,
            Row::Declaration(row) => (**row).declaration.node_type(),
            Row::VariableDeclarator(_) => NodeType::VariableDeclarator,
            Row::BindingPattern(row) => (**row).node_type(),
            Row::Statement(row) => (**row).statement.node_type(),
            Row::IdentifierReference(_) => NodeType::IdentifierReference,
            Row::Expression(row) => (**row).expression.node_type(),
            Row::IdentifierName(_) => NodeType::IdentifierName,
            Row::StaticMemberExpression(_) => NodeType::StaticMemberExpression,
            Row::ComputedMemberExpression(_) => NodeType::ComputedMemberExpression,
            Row::SpreadElement(_) => NodeType::SpreadElement,
            Row::ObjectProperty(_) => NodeType::ObjectProperty,
            Row::FormalParameter(_) => NodeType::FormalParameter,
            Row::FormalParameterRest(_) => NodeType::FormalParameterRest,
            Row::FormalParameters(_) => NodeType::FormalParameters,
            Row::Function(_) => NodeType::Function,
            Row::FunctionBody(_) => NodeType::FunctionBody,
            Row::TemplateElement(_) => NodeType::TemplateElement,
            Row::LabelIdentifier(_) => NodeType::LabelIdentifier,
            Row::SwitchCase(_) => NodeType::SwitchCase,
            Row::CatchClause(_) => NodeType::CatchClause,
            Row::BindingProperty(_) => NodeType::BindingProperty,
            Row::BindingRestElement(_) => NodeType::BindingRestElement,
            Row::AssignmentTarget(row) => (**row).assignment_target.node_type(),
            Row::AssignmentTargetWithDefault(_) => NodeType::AssignmentTargetWithDefault,
            Row::AssignmentTargetPropertyIdentifier(_) =>
                NodeType::AssignmentTargetPropertyIdentifier,
            Row::AssignmentTargetPropertyProperty(_) => NodeType::AssignmentTargetPropertyProperty,
            Row::AssignmentTargetRest(_) => NodeType::AssignmentTargetRest,
            Row::PrivateIdentifier(_) => NodeType::PrivateIdentifier,
            Row::PrivateFieldExpression(_) => NodeType::PrivateFieldExpression,
            Row::Class(_) => NodeType::Class,
            Row::ClassBody(_) => NodeType::ClassBody,
            Row::ClassElement(row) => (**row).node_type(),
            Row::Hashbang(_) => NodeType::Hashbang,
            Row::ImportDefaultSpecifier(_) => NodeType::ImportDefaultSpecifier,
            Row::ImportNamespaceSpecifier(_) => NodeType::ImportNamespaceSpecifier,
            Row::ImportSpecifier(_) => NodeType::ImportSpecifier,
            Row::WithClause(_) => NodeType::WithClause,
            Row::ImportAttribute(_) => NodeType::ImportAttribute,
            Row::ExportSpecifier(_) => NodeType::ExportSpecifier,
        }
    }
}

impl<N: HasType + Drop> RowOf<N> for AnyRow<N> {
    fn into_child<C: Child<N>>(self, alloc: Global) -> Result<Option<C>, AllocError>
        ensures { IfOk result (λ child. option_map C.plain child
            ≡ (if in_set C.of_set (type_of (any_row_plain N.plain self)) then Some (any_row_plain N.plain self) else None)) }
    {
        let AnyRow { row } = self;
        C::from_row(alloc, row)
    }

    fn of_row(row: Row<N>) -> AnyRow<N>
        ensures { any_row_plain N.plain result ≡ row_plain N.plain row }
    {
        AnyRow { row }
    }
}

impl<N: HasType + Drop> AnyRow<N> {
    #[tactic(auto, using(crate::proofs::Sets::takes_programs))]
    pub fn into_program(self) -> Option<Program<N>>
        ensures { option_map (program_row N.plain) result
            ≡ (if is_program (type_of (any_row_plain N.plain self)) then Some (any_row_plain N.plain self) else None) }
    {
        let AnyRow { row } = self;
        match row {
            Row::Program(program) => Some(Box::into_inner(program)),
            rest => {
                rest.let_go();
                None
            }
        }
    }
}

// ---- rows of nodes

pub fn row_of_program<N: HasType + Drop, R: RowOf<N>>(program: Box<Program<N>>) -> R
    ensures { R.plain result ≡ program_row N.plain program.value }
{
    R::of_row(Row::Program(program))
}

pub fn row_of_comment<N: HasType + Drop, R: RowOf<N>>(comment: Box<Comment>) -> R
    ensures { R.plain result ≡ comment_row comment.value }
{
    R::of_row(Row::Comment(comment))
}

pub fn row_of_directive<N: HasType + Drop, R: RowOf<N>>(directive: Box<Directive>) -> R
    ensures { R.plain result ≡ directive_row directive.value }
{
    R::of_row(Row::Directive(directive))
}

pub fn row_of_declaration<N: HasType + Drop, R: RowOf<N>>(
    alloc: Global,
    other: OtherDeclaration<N>,
) -> Result<R, AllocError>
    ensures { IfOk result (λ row. R.plain row ≡ declaration_plain N.plain other.declaration) }
{
    let other = Box::new(alloc, other)?;
    Ok(R::of_row(Row::Declaration(other)))
}

pub fn row_of_variable_declarator<N: HasType + Drop, R: RowOf<N>>(
    variable_declarator: Box<VariableDeclarator<N>>,
) -> R
    ensures { R.plain result ≡ variable_declarator_row N.plain variable_declarator.value }
{
    R::of_row(Row::VariableDeclarator(variable_declarator))
}

pub fn row_of_binding_pattern<N: HasType + Drop, R: RowOf<N>>(
    alloc: Global,
    binding_pattern: BindingPattern<N>,
) -> Result<R, AllocError>
    ensures { IfOk result (λ row. R.plain row ≡ binding_pattern_plain N.plain binding_pattern) }
{
    let binding_pattern = Box::new(alloc, binding_pattern)?;
    Ok(R::of_row(Row::BindingPattern(binding_pattern)))
}

pub fn row_of_statement<N: HasType + Drop, R: RowOf<N>>(
    alloc: Global,
    other: OtherStatement<N>,
) -> Result<R, AllocError>
    ensures { IfOk result (λ row. R.plain row ≡ statement_plain N.plain other.statement) }
{
    let other = Box::new(alloc, other)?;
    Ok(R::of_row(Row::Statement(other)))
}

pub fn row_of_identifier_reference<N: HasType + Drop, R: RowOf<N>>(
    identifier_reference: Box<IdentifierReference>,
) -> R
    ensures { R.plain result ≡ identifier_reference_row identifier_reference.value }
{
    R::of_row(Row::IdentifierReference(identifier_reference))
}

pub fn row_of_expression<N: HasType + Drop, R: RowOf<N>>(
    alloc: Global,
    other: OtherExpression<N>,
) -> Result<R, AllocError>
    ensures { IfOk result (λ row. R.plain row ≡ expression_plain N.plain other.expression) }
{
    let other = Box::new(alloc, other)?;
    Ok(R::of_row(Row::Expression(other)))
}

pub fn row_of_identifier_name<N: HasType + Drop, R: RowOf<N>>(
    identifier_name: Box<IdentifierName>,
) -> R
    ensures { R.plain result ≡ identifier_name_row identifier_name.value }
{
    R::of_row(Row::IdentifierName(identifier_name))
}

pub fn row_of_static_member_expression<N: HasType + Drop, R: RowOf<N>>(
    static_member_expression: Box<StaticMemberExpression<N>>,
) -> R
    ensures { R.plain result ≡ static_member_expression_row N.plain static_member_expression.value }
{
    R::of_row(Row::StaticMemberExpression(static_member_expression))
}

pub fn row_of_computed_member_expression<N: HasType + Drop, R: RowOf<N>>(
    computed_member_expression: Box<ComputedMemberExpression<N>>,
) -> R
    ensures { R.plain result ≡ computed_member_expression_row N.plain computed_member_expression.value }
{
    R::of_row(Row::ComputedMemberExpression(computed_member_expression))
}

pub fn row_of_spread_element<N: HasType + Drop, R: RowOf<N>>(
    spread_element: Box<SpreadElement<N>>,
) -> R
    ensures { R.plain result ≡ spread_element_row N.plain spread_element.value }
{
    R::of_row(Row::SpreadElement(spread_element))
}

pub fn row_of_object_property<N: HasType + Drop, R: RowOf<N>>(
    object_property: Box<ObjectProperty<N>>,
) -> R
    ensures { R.plain result ≡ object_property_row N.plain object_property.value }
{
    R::of_row(Row::ObjectProperty(object_property))
}

pub fn row_of_formal_parameter<N: HasType + Drop, R: RowOf<N>>(
    formal_parameter: Box<FormalParameter<N>>,
) -> R
    ensures { R.plain result ≡ formal_parameter_row N.plain formal_parameter.value }
{
    R::of_row(Row::FormalParameter(formal_parameter))
}

pub fn row_of_formal_parameter_rest<N: HasType + Drop, R: RowOf<N>>(
    formal_parameter_rest: Box<FormalParameterRest<N>>,
) -> R
    ensures { R.plain result ≡ formal_parameter_rest_row N.plain formal_parameter_rest.value }
{
    R::of_row(Row::FormalParameterRest(formal_parameter_rest))
}

pub fn row_of_formal_parameters<N: HasType + Drop, R: RowOf<N>>(
    formal_parameters: Box<FormalParameters<N>>,
) -> R
    ensures { R.plain result ≡ formal_parameters_row N.plain formal_parameters.value }
{
    R::of_row(Row::FormalParameters(formal_parameters))
}

pub fn row_of_function<N: HasType + Drop, R: RowOf<N>>(function: Box<Function<N>>) -> R
    ensures { R.plain result ≡ function_row N.plain function.value }
{
    R::of_row(Row::Function(function))
}

pub fn row_of_function_body<N: HasType + Drop, R: RowOf<N>>(
    function_body: Box<FunctionBody<N>>,
) -> R
    ensures { R.plain result ≡ function_body_row N.plain function_body.value }
{
    R::of_row(Row::FunctionBody(function_body))
}

pub fn row_of_template_element<N: HasType + Drop, R: RowOf<N>>(
    template_element: Box<TemplateElement>,
) -> R
    ensures { R.plain result ≡ template_element_row template_element.value }
{
    R::of_row(Row::TemplateElement(template_element))
}

pub fn row_of_label_identifier<N: HasType + Drop, R: RowOf<N>>(
    label_identifier: Box<LabelIdentifier>,
) -> R
    ensures { R.plain result ≡ label_identifier_row label_identifier.value }
{
    R::of_row(Row::LabelIdentifier(label_identifier))
}

pub fn row_of_switch_case<N: HasType + Drop, R: RowOf<N>>(switch_case: Box<SwitchCase<N>>) -> R
    ensures { R.plain result ≡ switch_case_row N.plain switch_case.value }
{
    R::of_row(Row::SwitchCase(switch_case))
}

pub fn row_of_catch_clause<N: HasType + Drop, R: RowOf<N>>(catch_clause: Box<CatchClause<N>>) -> R
    ensures { R.plain result ≡ catch_clause_row N.plain catch_clause.value }
{
    R::of_row(Row::CatchClause(catch_clause))
}

pub fn row_of_binding_property<N: HasType + Drop, R: RowOf<N>>(
    binding_property: Box<BindingProperty<N>>,
) -> R
    ensures { R.plain result ≡ binding_property_row N.plain binding_property.value }
{
    R::of_row(Row::BindingProperty(binding_property))
}

pub fn row_of_binding_rest_element<N: HasType + Drop, R: RowOf<N>>(
    binding_rest_element: Box<BindingRestElement<N>>,
) -> R
    ensures { R.plain result ≡ binding_rest_element_row N.plain binding_rest_element.value }
{
    R::of_row(Row::BindingRestElement(binding_rest_element))
}

pub fn row_of_assignment_target<N: HasType + Drop, R: RowOf<N>>(
    alloc: Global,
    other: OtherAssignmentTarget<N>,
) -> Result<R, AllocError>
    ensures { IfOk result (λ row. R.plain row ≡ assignment_target_plain N.plain other.assignment_target) }
{
    let other = Box::new(alloc, other)?;
    Ok(R::of_row(Row::AssignmentTarget(other)))
}

pub fn row_of_assignment_target_with_default<N: HasType + Drop, R: RowOf<N>>(
    assignment_target_with_default: Box<AssignmentTargetWithDefault<N>>,
) -> R
    ensures { R.plain result ≡ assignment_target_with_default_row N.plain assignment_target_with_default.value }
{
    R::of_row(Row::AssignmentTargetWithDefault(assignment_target_with_default))
}

pub fn row_of_assignment_target_property_identifier<N: HasType + Drop, R: RowOf<N>>(
    assignment_target_property_identifier: Box<AssignmentTargetPropertyIdentifier<N>>,
) -> R
    ensures { R.plain result ≡ assignment_target_property_identifier_row N.plain assignment_target_property_identifier.value }
{
    R::of_row(Row::AssignmentTargetPropertyIdentifier(assignment_target_property_identifier))
}

pub fn row_of_assignment_target_property_property<N: HasType + Drop, R: RowOf<N>>(
    assignment_target_property_property: Box<AssignmentTargetPropertyProperty<N>>,
) -> R
    ensures { R.plain result ≡ assignment_target_property_property_row N.plain assignment_target_property_property.value }
{
    R::of_row(Row::AssignmentTargetPropertyProperty(assignment_target_property_property))
}

pub fn row_of_assignment_target_rest<N: HasType + Drop, R: RowOf<N>>(
    assignment_target_rest: Box<AssignmentTargetRest<N>>,
) -> R
    ensures { R.plain result ≡ assignment_target_rest_row N.plain assignment_target_rest.value }
{
    R::of_row(Row::AssignmentTargetRest(assignment_target_rest))
}

pub fn row_of_private_identifier<N: HasType + Drop, R: RowOf<N>>(
    private_identifier: Box<PrivateIdentifier>,
) -> R
    ensures { R.plain result ≡ private_identifier_row private_identifier.value }
{
    R::of_row(Row::PrivateIdentifier(private_identifier))
}

pub fn row_of_private_field_expression<N: HasType + Drop, R: RowOf<N>>(
    private_field_expression: Box<PrivateFieldExpression<N>>,
) -> R
    ensures { R.plain result ≡ private_field_expression_row N.plain private_field_expression.value }
{
    R::of_row(Row::PrivateFieldExpression(private_field_expression))
}

pub fn row_of_class<N: HasType + Drop, R: RowOf<N>>(class: Box<Class<N>>) -> R
    ensures { R.plain result ≡ class_row N.plain class.value }
{
    R::of_row(Row::Class(class))
}

pub fn row_of_class_body<N: HasType + Drop, R: RowOf<N>>(class_body: Box<ClassBody<N>>) -> R
    ensures { R.plain result ≡ class_body_row N.plain class_body.value }
{
    R::of_row(Row::ClassBody(class_body))
}

pub fn row_of_class_element<N: HasType + Drop, R: RowOf<N>>(
    alloc: Global,
    class_element: ClassElement<N>,
) -> Result<R, AllocError>
    ensures { IfOk result (λ row. R.plain row ≡ class_element_plain N.plain class_element) }
{
    let class_element = Box::new(alloc, class_element)?;
    Ok(R::of_row(Row::ClassElement(class_element)))
}

pub fn row_of_hashbang<N: HasType + Drop, R: RowOf<N>>(hashbang: Box<Hashbang>) -> R
    ensures { R.plain result ≡ hashbang_row hashbang.value }
{
    R::of_row(Row::Hashbang(hashbang))
}

pub fn row_of_import_default_specifier<N: HasType + Drop, R: RowOf<N>>(
    import_default_specifier: Box<ImportDefaultSpecifier>,
) -> R
    ensures { R.plain result ≡ import_default_specifier_row import_default_specifier.value }
{
    R::of_row(Row::ImportDefaultSpecifier(import_default_specifier))
}

pub fn row_of_import_namespace_specifier<N: HasType + Drop, R: RowOf<N>>(
    import_namespace_specifier: Box<ImportNamespaceSpecifier>,
) -> R
    ensures { R.plain result ≡ import_namespace_specifier_row import_namespace_specifier.value }
{
    R::of_row(Row::ImportNamespaceSpecifier(import_namespace_specifier))
}

pub fn row_of_import_specifier<N: HasType + Drop, R: RowOf<N>>(
    import_specifier: Box<ImportSpecifier>,
) -> R
    ensures { R.plain result ≡ import_specifier_row import_specifier.value }
{
    R::of_row(Row::ImportSpecifier(import_specifier))
}

pub fn row_of_with_clause<N: HasType + Drop, R: RowOf<N>>(with_clause: Box<WithClause>) -> R
    ensures { R.plain result ≡ with_clause_row with_clause.value }
{
    R::of_row(Row::WithClause(with_clause))
}

pub fn row_of_import_attribute<N: HasType + Drop, R: RowOf<N>>(
    import_attribute: Box<ImportAttribute>,
) -> R
    ensures { R.plain result ≡ import_attribute_row import_attribute.value }
{
    R::of_row(Row::ImportAttribute(import_attribute))
}

pub fn row_of_export_specifier<N: HasType + Drop, R: RowOf<N>>(
    export_specifier: Box<ExportSpecifier>,
) -> R
    ensures { R.plain result ≡ export_specifier_row export_specifier.value }
{
    R::of_row(Row::ExportSpecifier(export_specifier))
}
