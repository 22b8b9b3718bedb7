// Generated from tools/nodes/table.txt; edit that and run tools/nodes/generate.
// The members of sets that are made of a member of another.
ghost use Rattle.std.specs.Prelude.{◌≡◌, IfOk, Some, None, option_map, if◌then◌else◌};
ghost use Rattle.jsgen_tree.specs.Tree.{type_of};
ghost use Rattle.jsgen_tree.specs.Sets.{in_set};
ghost use Rattle.jsgen_tree.specs.Rows.{in_expression, in_argument, in_array_expression_element, in_chain_element, in_assignment_target, in_assignment_target_maybe_default, in_arrow_function_body, in_for_statement_init, in_for_statement_left, in_property_key, in_declaration, in_statement, in_module_export_name, in_import_attribute_key, in_export_default_declaration_kind, binding_identifier_row, block_statement_row, string_literal_row, function_row, template_literal_row, class_row, expression_plain, declaration_plain, statement_plain, binding_pattern_plain};
ghost use Rattle.jsgen_tree.specs.declared.types.NodeSet.TheVariants as sets;

use crate::asked::{HoldsExpression, HoldsStatement};
use crate::others::{OtherDeclaration, OtherExpression, OtherStatement};
use jsgen_tree::{
    Argument, ArrayExpressionElement, ArrowFunctionBody, AssignmentTargetMaybeDefault,
    AssignmentTargetNode, BindingIdentifier, BindingPattern, BlockStatement, ChainElement, Class,
    ClassKind, Declaration, DeclarationNode, ExportDefaultDeclarationKind, Expression,
    ExpressionNode, ForStatementInit, ForStatementLeft, Function, FunctionKind, HasType,
    ImportAttributeKey, ModuleExportName, PropertyKey, Statement, StatementNode, StringLiteral,
    TemplateLiteral,
};
use std::alloc::{AllocError, Global};

// ---- a member of a set within the set, which stands in a box of its own

pub fn statement_of_declaration<N: HoldsStatement + Drop>(
    alloc: Global,
    declaration: DeclarationNode<N>,
) -> Result<Option<StatementNode<N>>, AllocError>
    ensures { IfOk result (λ child. option_map (in_statement N.plain) child ≡ Some (in_declaration N.plain declaration)) }
{
    let declaration = Box::new(alloc, declaration)?;
    Ok(Some(N::statement_node(Statement::Declaration(declaration))))
}

pub fn argument_of_expression<N: HasType + Drop>(
    alloc: Global,
    expression: ExpressionNode<N>,
) -> Result<Option<Argument<N>>, AllocError>
    ensures { IfOk result (λ child. option_map (in_argument N.plain) child ≡ Some (in_expression N.plain expression)) }
{
    let expression = Box::new(alloc, expression)?;
    Ok(Some(Argument::Expression(expression)))
}

pub fn array_expression_element_of_expression<N: HasType + Drop>(
    alloc: Global,
    expression: ExpressionNode<N>,
) -> Result<Option<ArrayExpressionElement<N>>, AllocError>
    ensures { IfOk result (λ child. option_map (in_array_expression_element N.plain) child ≡ Some (in_expression N.plain expression)) }
{
    let expression = Box::new(alloc, expression)?;
    Ok(Some(ArrayExpressionElement::Expression(expression)))
}

pub fn property_key_of_expression<N: HasType + Drop>(
    alloc: Global,
    expression: ExpressionNode<N>,
) -> Result<Option<PropertyKey<N>>, AllocError>
    ensures { IfOk result (λ child. option_map (in_property_key N.plain) child ≡ Some (in_expression N.plain expression)) }
{
    let expression = Box::new(alloc, expression)?;
    Ok(Some(PropertyKey::Expression(expression)))
}

pub fn arrow_function_body_of_expression<N: HasType + Drop>(
    alloc: Global,
    expression: ExpressionNode<N>,
) -> Result<Option<ArrowFunctionBody<N>>, AllocError>
    ensures { IfOk result (λ child. option_map (in_arrow_function_body N.plain) child ≡ Some (in_expression N.plain expression)) }
{
    let expression = Box::new(alloc, expression)?;
    Ok(Some(ArrowFunctionBody::Expression(expression)))
}

pub fn for_statement_init_of_expression<N: HasType + Drop>(
    alloc: Global,
    expression: ExpressionNode<N>,
) -> Result<Option<ForStatementInit<N>>, AllocError>
    ensures { IfOk result (λ child. option_map (in_for_statement_init N.plain) child ≡ Some (in_expression N.plain expression)) }
{
    let expression = Box::new(alloc, expression)?;
    Ok(Some(ForStatementInit::Expression(expression)))
}

pub fn for_statement_left_of_assignment_target<N: HasType + Drop>(
    alloc: Global,
    assignment_target: AssignmentTargetNode<N>,
) -> Result<Option<ForStatementLeft<N>>, AllocError>
    ensures { IfOk result (λ child. option_map (in_for_statement_left N.plain) child ≡ Some (in_assignment_target N.plain assignment_target)) }
{
    let assignment_target = Box::new(alloc, assignment_target)?;
    Ok(Some(ForStatementLeft::AssignmentTarget(assignment_target)))
}

pub fn assignment_target_maybe_default_of_assignment_target<N: HasType + Drop>(
    alloc: Global,
    assignment_target: AssignmentTargetNode<N>,
) -> Result<Option<AssignmentTargetMaybeDefault<N>>, AllocError>
    ensures { IfOk result (λ child. option_map (in_assignment_target_maybe_default N.plain) child ≡ Some (in_assignment_target N.plain assignment_target)) }
{
    let assignment_target = Box::new(alloc, assignment_target)?;
    Ok(Some(AssignmentTargetMaybeDefault::AssignmentTarget(assignment_target)))
}

pub fn export_default_declaration_kind_of_expression<N: HasType + Drop>(
    alloc: Global,
    expression: ExpressionNode<N>,
) -> Result<Option<ExportDefaultDeclarationKind<N>>, AllocError>
    ensures { IfOk result (λ child. option_map (in_export_default_declaration_kind N.plain) child ≡ Some (in_expression N.plain expression)) }
{
    let expression = Box::new(alloc, expression)?;
    Ok(Some(ExportDefaultDeclarationKind::Expression(expression)))
}

// ---- a member of a set by itself, or of a set within it

pub fn export_default_declaration_kind_of_function<N: HoldsExpression + Drop>(
    alloc: Global,
    row: Box<Function<N>>,
) -> Result<Option<ExportDefaultDeclarationKind<N>>, AllocError>
    ensures { IfOk result (λ child. option_map (in_export_default_declaration_kind N.plain) child ≡ Some (function_row N.plain row.value)) }
{
    match row.kind {
        FunctionKind::Declaration => Ok(Some(ExportDefaultDeclarationKind::Function(row))),
        FunctionKind::Expression => export_default_declaration_kind_of_expression(
            alloc,
            N::expression_node(Expression::Function(row)),
        ),
    }
}

pub fn export_default_declaration_kind_of_class<N: HoldsExpression + Drop>(
    alloc: Global,
    row: Box<Class<N>>,
) -> Result<Option<ExportDefaultDeclarationKind<N>>, AllocError>
    ensures { IfOk result (λ child. option_map (in_export_default_declaration_kind N.plain) child ≡ Some (class_row N.plain row.value)) }
{
    match row.kind {
        ClassKind::Declaration => Ok(Some(ExportDefaultDeclarationKind::Class(row))),
        ClassKind::Expression => export_default_declaration_kind_of_expression(
            alloc,
            N::expression_node(Expression::Class(row)),
        ),
    }
}

// ---- a place that takes some types of a set

pub fn chain_element_of_expression<N: HasType + Drop>(
    row: OtherExpression<N>,
) -> Option<ChainElement<N>>
    ensures { option_map (in_chain_element N.plain) result
        ≡ (if in_set sets.ChainElement (type_of (expression_plain N.plain row.expression)) then Some (expression_plain N.plain row.expression) else None) }
{
    let expression = row.expression;
    match expression {
        Expression::CallExpression(row) => Some(ChainElement::CallExpression(row)),
        rest => {
            drop(rest);
            None
        }
    }
}

pub fn binding_identifier_of_binding_pattern_in_box<N: HasType + Drop>(
    row: BindingPattern<N>,
) -> Option<Box<BindingIdentifier>>
    ensures { option_map (λ b. binding_identifier_row b.value) result
        ≡ (if in_set sets.BindingIdentifier (type_of (binding_pattern_plain N.plain row)) then Some (binding_pattern_plain N.plain row) else None) }
{
    match row {
        BindingPattern::BindingIdentifier(row) => Some(row),
        rest => {
            drop(rest);
            None
        }
    }
}

pub fn template_literal_of_expression_in_box<N: HasType + Drop>(
    row: OtherExpression<N>,
) -> Option<Box<TemplateLiteral<N>>>
    ensures { option_map (λ b. template_literal_row N.plain b.value) result
        ≡ (if in_set sets.TemplateLiteral (type_of (expression_plain N.plain row.expression)) then Some (expression_plain N.plain row.expression) else None) }
{
    let expression = row.expression;
    match expression {
        Expression::TemplateLiteral(row) => Some(row),
        rest => {
            drop(rest);
            None
        }
    }
}

pub fn for_statement_init_of_declaration<N: HasType + Drop>(
    row: OtherDeclaration<N>,
) -> Option<ForStatementInit<N>>
    ensures { option_map (in_for_statement_init N.plain) result
        ≡ (if in_set sets.ForStatementInit (type_of (declaration_plain N.plain row.declaration)) then Some (declaration_plain N.plain row.declaration) else None) }
{
    let declaration = row.declaration;
    match declaration {
        Declaration::VariableDeclaration(row) => Some(ForStatementInit::VariableDeclaration(row)),
        rest => {
            drop(rest);
            None
        }
    }
}

pub fn for_statement_left_of_declaration<N: HasType + Drop>(
    row: OtherDeclaration<N>,
) -> Option<ForStatementLeft<N>>
    ensures { option_map (in_for_statement_left N.plain) result
        ≡ (if in_set sets.ForStatementLeft (type_of (declaration_plain N.plain row.declaration)) then Some (declaration_plain N.plain row.declaration) else None) }
{
    let declaration = row.declaration;
    match declaration {
        Declaration::VariableDeclaration(row) => Some(ForStatementLeft::VariableDeclaration(row)),
        rest => {
            drop(rest);
            None
        }
    }
}

pub fn block_statement_of_statement_in_box<N: HasType + Drop>(
    row: OtherStatement<N>,
) -> Option<Box<BlockStatement<N>>>
    ensures { option_map (λ b. block_statement_row N.plain b.value) result
        ≡ (if in_set sets.BlockStatement (type_of (statement_plain N.plain row.statement)) then Some (statement_plain N.plain row.statement) else None) }
{
    let statement = row.statement;
    match statement {
        Statement::BlockStatement(row) => Some(row),
        rest => {
            drop(rest);
            None
        }
    }
}

pub fn string_literal_of_expression_in_box<N: HasType + Drop>(
    row: OtherExpression<N>,
) -> Option<Box<StringLiteral>>
    ensures { option_map (λ b. string_literal_row b.value) result
        ≡ (if in_set sets.StringLiteral (type_of (expression_plain N.plain row.expression)) then Some (expression_plain N.plain row.expression) else None) }
{
    let expression = row.expression;
    match expression {
        Expression::StringLiteral(row) => Some(row),
        rest => {
            drop(rest);
            None
        }
    }
}

pub fn module_export_name_of_expression<N: HasType + Drop>(
    row: OtherExpression<N>,
) -> Option<ModuleExportName>
    ensures { option_map in_module_export_name result
        ≡ (if in_set sets.ModuleExportName (type_of (expression_plain N.plain row.expression)) then Some (expression_plain N.plain row.expression) else None) }
{
    let expression = row.expression;
    match expression {
        Expression::StringLiteral(row) => Some(ModuleExportName::StringLiteral(row)),
        rest => {
            drop(rest);
            None
        }
    }
}

pub fn import_attribute_key_of_expression<N: HasType + Drop>(
    row: OtherExpression<N>,
) -> Option<ImportAttributeKey>
    ensures { option_map in_import_attribute_key result
        ≡ (if in_set sets.ImportAttributeKey (type_of (expression_plain N.plain row.expression)) then Some (expression_plain N.plain row.expression) else None) }
{
    let expression = row.expression;
    match expression {
        Expression::StringLiteral(row) => Some(ImportAttributeKey::StringLiteral(row)),
        rest => {
            drop(rest);
            None
        }
    }
}
