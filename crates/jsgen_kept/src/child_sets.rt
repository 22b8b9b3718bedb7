// Generated from tools/nodes/table.txt; edit that and run tools/nodes/generate.
// What is made of a row where it is a child: a member of the set that the place is for, which doesn't nest.
ghost use Rattle.std.specs.Prelude.{◌≡◌, IfOk, Some, None, option_map, if◌then◌else◌};
ghost use Rattle.jsgen_tree.specs.Tree.{type_of};
ghost use Rattle.jsgen_tree.specs.Sets.{in_set};
ghost use Rattle.jsgen_tree.specs.Rows.{in_argument, in_array_expression_element, in_chain_element, in_simple_assignment_target, in_assignment_target_maybe_default, in_assignment_target_property, in_arrow_function_body, in_for_statement_init, in_for_statement_left, in_object_property_kind, in_property_key, in_module_export_name, in_import_declaration_specifier, in_import_attribute_key, in_export_default_declaration_kind};
ghost use Rattle.jsgen_kept.specs.Kept.{row_plain};
ghost use Rattle.jsgen_tree.specs.declared.types.NodeSet.TheVariants as sets;

use crate::asked::{Child, HoldsAssignmentTarget, HoldsExpression};
use crate::kept::Row;
use crate::members::{
    argument_of_expression, array_expression_element_of_expression,
    arrow_function_body_of_expression, assignment_target_maybe_default_of_assignment_target,
    chain_element_of_expression, export_default_declaration_kind_of_class,
    export_default_declaration_kind_of_expression, export_default_declaration_kind_of_function,
    for_statement_init_of_declaration, for_statement_init_of_expression,
    for_statement_left_of_assignment_target, for_statement_left_of_declaration,
    import_attribute_key_of_expression, module_export_name_of_expression,
    property_key_of_expression,
};
use jsgen_tree::{
    Argument, ArrayExpressionElement, ArrowFunctionBody, AssignmentTarget,
    AssignmentTargetMaybeDefault, AssignmentTargetProperty, ChainElement,
    ExportDefaultDeclarationKind, Expression, ForStatementInit, ForStatementLeft, HasType,
    ImportAttributeKey, ImportDeclarationSpecifier, ModuleExportName, NodeSet, ObjectPropertyKind,
    PropertyKey, SimpleAssignmentTarget,
};
use std::alloc::{AllocError, Global};

impl<N: HoldsExpression + Drop> Child<N> for Argument<N> {
    ghost plain = { λ n. in_argument N.plain n };

    ghost of_set = { sets.Argument };

    fn set() -> NodeSet {
        NodeSet::Argument
    }

    #[tactic(auto, using(crate::proofs::Sets::takes_arguments))]
    fn from_row(alloc: Global, row: Row<N>) -> Result<Option<Argument<N>>, AllocError>
        ensures { IfOk result (λ child. option_map (in_argument N.plain) child
            ≡ (if in_set sets.Argument (type_of (row_plain N.plain row)) then Some (row_plain N.plain row) else None)) }
    {
        match row {
            Row::IdentifierReference(row) => argument_of_expression(
                alloc,
                N::expression_node(Expression::IdentifierReference(row)),
            ),
            Row::Expression(row) => argument_of_expression(
                alloc,
                N::expression_node(Box::into_inner(row).expression),
            ),
            Row::StaticMemberExpression(row) => argument_of_expression(
                alloc,
                N::expression_node(Expression::StaticMemberExpression(row)),
            ),
            Row::ComputedMemberExpression(row) => argument_of_expression(
                alloc,
                N::expression_node(Expression::ComputedMemberExpression(row)),
            ),
            Row::SpreadElement(row) => Ok(Some(Argument::SpreadElement(row))),
            Row::Function(row) => argument_of_expression(
                alloc,
                N::expression_node(Expression::Function(row)),
            ),
            Row::PrivateFieldExpression(row) => argument_of_expression(
                alloc,
                N::expression_node(Expression::PrivateFieldExpression(row)),
            ),
            Row::Class(row) => argument_of_expression(
                alloc,
                N::expression_node(Expression::Class(row)),
            ),
            rest => {
                rest.let_go();
                Ok(None)
            }
        }
    }
}

impl<N: HasType + Drop> Child<N> for ChainElement<N> {
    ghost plain = { λ n. in_chain_element N.plain n };

    ghost of_set = { sets.ChainElement };

    fn set() -> NodeSet {
        NodeSet::ChainElement
    }

    #[tactic(auto, using(crate::proofs::Sets::takes_chain_elements))]
    fn from_row(alloc: Global, row: Row<N>) -> Result<Option<ChainElement<N>>, AllocError>
        ensures { IfOk result (λ child. option_map (in_chain_element N.plain) child
            ≡ (if in_set sets.ChainElement (type_of (row_plain N.plain row)) then Some (row_plain N.plain row) else None)) }
    {
        let _ = alloc;
        match row {
            Row::Expression(row) => Ok(chain_element_of_expression(Box::into_inner(row))),
            Row::StaticMemberExpression(row) => Ok(Some(ChainElement::StaticMemberExpression(row))),
            Row::ComputedMemberExpression(row) => Ok(Some(ChainElement::ComputedMemberExpression(
                row,
            ))),
            Row::PrivateFieldExpression(row) => Ok(Some(ChainElement::PrivateFieldExpression(row))),
            rest => {
                rest.let_go();
                Ok(None)
            }
        }
    }
}

impl<N: HoldsExpression + Drop> Child<N> for ArrayExpressionElement<N> {
    ghost plain = { λ n. in_array_expression_element N.plain n };

    ghost of_set = { sets.ArrayExpressionElement };

    fn set() -> NodeSet {
        NodeSet::ArrayExpressionElement
    }

    #[tactic(auto, using(crate::proofs::Sets::takes_array_expression_elements))]
    fn from_row(alloc: Global, row: Row<N>) -> Result<Option<ArrayExpressionElement<N>>, AllocError>
        ensures { IfOk result (λ child. option_map (in_array_expression_element N.plain) child
            ≡ (if in_set sets.ArrayExpressionElement (type_of (row_plain N.plain row)) then Some (row_plain N.plain row) else None)) }
    {
        match row {
            Row::IdentifierReference(row) => array_expression_element_of_expression(
                alloc,
                N::expression_node(Expression::IdentifierReference(row)),
            ),
            Row::Expression(row) => array_expression_element_of_expression(
                alloc,
                N::expression_node(Box::into_inner(row).expression),
            ),
            Row::StaticMemberExpression(row) => array_expression_element_of_expression(
                alloc,
                N::expression_node(Expression::StaticMemberExpression(row)),
            ),
            Row::ComputedMemberExpression(row) => array_expression_element_of_expression(
                alloc,
                N::expression_node(Expression::ComputedMemberExpression(row)),
            ),
            Row::SpreadElement(row) => Ok(Some(ArrayExpressionElement::SpreadElement(row))),
            Row::Function(row) => array_expression_element_of_expression(
                alloc,
                N::expression_node(Expression::Function(row)),
            ),
            Row::PrivateFieldExpression(row) => array_expression_element_of_expression(
                alloc,
                N::expression_node(Expression::PrivateFieldExpression(row)),
            ),
            Row::Class(row) => array_expression_element_of_expression(
                alloc,
                N::expression_node(Expression::Class(row)),
            ),
            rest => {
                rest.let_go();
                Ok(None)
            }
        }
    }
}

impl<N: HoldsExpression + Drop> Child<N> for PropertyKey<N> {
    ghost plain = { λ n. in_property_key N.plain n };

    ghost of_set = { sets.PropertyKey };

    fn set() -> NodeSet {
        NodeSet::PropertyKey
    }

    #[tactic(auto, using(crate::proofs::Sets::takes_property_keys))]
    fn from_row(alloc: Global, row: Row<N>) -> Result<Option<PropertyKey<N>>, AllocError>
        ensures { IfOk result (λ child. option_map (in_property_key N.plain) child
            ≡ (if in_set sets.PropertyKey (type_of (row_plain N.plain row)) then Some (row_plain N.plain row) else None)) }
    {
        match row {
            Row::IdentifierReference(row) => property_key_of_expression(
                alloc,
                N::expression_node(Expression::IdentifierReference(row)),
            ),
            Row::Expression(row) => property_key_of_expression(
                alloc,
                N::expression_node(Box::into_inner(row).expression),
            ),
            Row::IdentifierName(row) => Ok(Some(PropertyKey::IdentifierName(row))),
            Row::StaticMemberExpression(row) => property_key_of_expression(
                alloc,
                N::expression_node(Expression::StaticMemberExpression(row)),
            ),
            Row::ComputedMemberExpression(row) => property_key_of_expression(
                alloc,
                N::expression_node(Expression::ComputedMemberExpression(row)),
            ),
            Row::Function(row) => property_key_of_expression(
                alloc,
                N::expression_node(Expression::Function(row)),
            ),
            Row::PrivateIdentifier(row) => Ok(Some(PropertyKey::PrivateIdentifier(row))),
            Row::PrivateFieldExpression(row) => property_key_of_expression(
                alloc,
                N::expression_node(Expression::PrivateFieldExpression(row)),
            ),
            Row::Class(row) => property_key_of_expression(
                alloc,
                N::expression_node(Expression::Class(row)),
            ),
            rest => {
                rest.let_go();
                Ok(None)
            }
        }
    }
}

impl<N: HasType + Drop> Child<N> for ObjectPropertyKind<N> {
    ghost plain = { λ n. in_object_property_kind N.plain n };

    ghost of_set = { sets.ObjectPropertyKind };

    fn set() -> NodeSet {
        NodeSet::ObjectPropertyKind
    }

    #[tactic(auto, using(crate::proofs::Sets::takes_object_property_kinds))]
    fn from_row(alloc: Global, row: Row<N>) -> Result<Option<ObjectPropertyKind<N>>, AllocError>
        ensures { IfOk result (λ child. option_map (in_object_property_kind N.plain) child
            ≡ (if in_set sets.ObjectPropertyKind (type_of (row_plain N.plain row)) then Some (row_plain N.plain row) else None)) }
    {
        let _ = alloc;
        match row {
            Row::SpreadElement(row) => Ok(Some(ObjectPropertyKind::SpreadElement(row))),
            Row::ObjectProperty(row) => Ok(Some(ObjectPropertyKind::ObjectProperty(row))),
            rest => {
                rest.let_go();
                Ok(None)
            }
        }
    }
}

impl<N: HasType + Drop> Child<N> for SimpleAssignmentTarget<N> {
    ghost plain = { λ n. in_simple_assignment_target N.plain n };

    ghost of_set = { sets.SimpleAssignmentTarget };

    fn set() -> NodeSet {
        NodeSet::SimpleAssignmentTarget
    }

    #[tactic(auto, using(crate::proofs::Sets::takes_simple_assignment_targets))]
    fn from_row(alloc: Global, row: Row<N>) -> Result<Option<SimpleAssignmentTarget<N>>, AllocError>
        ensures { IfOk result (λ child. option_map (in_simple_assignment_target N.plain) child
            ≡ (if in_set sets.SimpleAssignmentTarget (type_of (row_plain N.plain row)) then Some (row_plain N.plain row) else None)) }
    {
        let _ = alloc;
        match row {
            Row::IdentifierReference(row) => Ok(Some(SimpleAssignmentTarget::IdentifierReference(
                row,
            ))),
            Row::StaticMemberExpression(row) => Ok(Some(
                SimpleAssignmentTarget::StaticMemberExpression(row),
            )),
            Row::ComputedMemberExpression(row) => Ok(Some(
                SimpleAssignmentTarget::ComputedMemberExpression(row),
            )),
            Row::PrivateFieldExpression(row) => Ok(Some(
                SimpleAssignmentTarget::PrivateFieldExpression(row),
            )),
            rest => {
                rest.let_go();
                Ok(None)
            }
        }
    }
}

impl<N: HoldsExpression + Drop> Child<N> for ArrowFunctionBody<N> {
    ghost plain = { λ n. in_arrow_function_body N.plain n };

    ghost of_set = { sets.ArrowFunctionBody };

    fn set() -> NodeSet {
        NodeSet::ArrowFunctionBody
    }

    #[tactic(auto, using(crate::proofs::Sets::takes_arrow_function_bodys))]
    fn from_row(alloc: Global, row: Row<N>) -> Result<Option<ArrowFunctionBody<N>>, AllocError>
        ensures { IfOk result (λ child. option_map (in_arrow_function_body N.plain) child
            ≡ (if in_set sets.ArrowFunctionBody (type_of (row_plain N.plain row)) then Some (row_plain N.plain row) else None)) }
    {
        match row {
            Row::IdentifierReference(row) => arrow_function_body_of_expression(
                alloc,
                N::expression_node(Expression::IdentifierReference(row)),
            ),
            Row::Expression(row) => arrow_function_body_of_expression(
                alloc,
                N::expression_node(Box::into_inner(row).expression),
            ),
            Row::StaticMemberExpression(row) => arrow_function_body_of_expression(
                alloc,
                N::expression_node(Expression::StaticMemberExpression(row)),
            ),
            Row::ComputedMemberExpression(row) => arrow_function_body_of_expression(
                alloc,
                N::expression_node(Expression::ComputedMemberExpression(row)),
            ),
            Row::Function(row) => arrow_function_body_of_expression(
                alloc,
                N::expression_node(Expression::Function(row)),
            ),
            Row::FunctionBody(row) => Ok(Some(ArrowFunctionBody::FunctionBody(row))),
            Row::PrivateFieldExpression(row) => arrow_function_body_of_expression(
                alloc,
                N::expression_node(Expression::PrivateFieldExpression(row)),
            ),
            Row::Class(row) => arrow_function_body_of_expression(
                alloc,
                N::expression_node(Expression::Class(row)),
            ),
            rest => {
                rest.let_go();
                Ok(None)
            }
        }
    }
}

impl<N: HoldsExpression + Drop> Child<N> for ForStatementInit<N> {
    ghost plain = { λ n. in_for_statement_init N.plain n };

    ghost of_set = { sets.ForStatementInit };

    fn set() -> NodeSet {
        NodeSet::ForStatementInit
    }

    #[tactic(auto, using(crate::proofs::Sets::takes_for_statement_inits))]
    fn from_row(alloc: Global, row: Row<N>) -> Result<Option<ForStatementInit<N>>, AllocError>
        ensures { IfOk result (λ child. option_map (in_for_statement_init N.plain) child
            ≡ (if in_set sets.ForStatementInit (type_of (row_plain N.plain row)) then Some (row_plain N.plain row) else None)) }
    {
        match row {
            Row::Declaration(row) => Ok(for_statement_init_of_declaration(Box::into_inner(row))),
            Row::IdentifierReference(row) => for_statement_init_of_expression(
                alloc,
                N::expression_node(Expression::IdentifierReference(row)),
            ),
            Row::Expression(row) => for_statement_init_of_expression(
                alloc,
                N::expression_node(Box::into_inner(row).expression),
            ),
            Row::StaticMemberExpression(row) => for_statement_init_of_expression(
                alloc,
                N::expression_node(Expression::StaticMemberExpression(row)),
            ),
            Row::ComputedMemberExpression(row) => for_statement_init_of_expression(
                alloc,
                N::expression_node(Expression::ComputedMemberExpression(row)),
            ),
            Row::Function(row) => for_statement_init_of_expression(
                alloc,
                N::expression_node(Expression::Function(row)),
            ),
            Row::PrivateFieldExpression(row) => for_statement_init_of_expression(
                alloc,
                N::expression_node(Expression::PrivateFieldExpression(row)),
            ),
            Row::Class(row) => for_statement_init_of_expression(
                alloc,
                N::expression_node(Expression::Class(row)),
            ),
            rest => {
                rest.let_go();
                Ok(None)
            }
        }
    }
}

impl<N: HoldsAssignmentTarget + Drop> Child<N> for ForStatementLeft<N> {
    ghost plain = { λ n. in_for_statement_left N.plain n };

    ghost of_set = { sets.ForStatementLeft };

    fn set() -> NodeSet {
        NodeSet::ForStatementLeft
    }

    #[tactic(auto, using(crate::proofs::Sets::takes_for_statement_lefts))]
    fn from_row(alloc: Global, row: Row<N>) -> Result<Option<ForStatementLeft<N>>, AllocError>
        ensures { IfOk result (λ child. option_map (in_for_statement_left N.plain) child
            ≡ (if in_set sets.ForStatementLeft (type_of (row_plain N.plain row)) then Some (row_plain N.plain row) else None)) }
    {
        match row {
            Row::Declaration(row) => Ok(for_statement_left_of_declaration(Box::into_inner(row))),
            Row::IdentifierReference(row) => for_statement_left_of_assignment_target(
                alloc,
                N::assignment_target_node(AssignmentTarget::IdentifierReference(row)),
            ),
            Row::StaticMemberExpression(row) => for_statement_left_of_assignment_target(
                alloc,
                N::assignment_target_node(AssignmentTarget::StaticMemberExpression(row)),
            ),
            Row::ComputedMemberExpression(row) => for_statement_left_of_assignment_target(
                alloc,
                N::assignment_target_node(AssignmentTarget::ComputedMemberExpression(row)),
            ),
            Row::AssignmentTarget(row) => for_statement_left_of_assignment_target(
                alloc,
                N::assignment_target_node(Box::into_inner(row).assignment_target),
            ),
            Row::PrivateFieldExpression(row) => for_statement_left_of_assignment_target(
                alloc,
                N::assignment_target_node(AssignmentTarget::PrivateFieldExpression(row)),
            ),
            rest => {
                rest.let_go();
                Ok(None)
            }
        }
    }
}

impl<N: HoldsAssignmentTarget + Drop> Child<N> for AssignmentTargetMaybeDefault<N> {
    ghost plain = { λ n. in_assignment_target_maybe_default N.plain n };

    ghost of_set = { sets.AssignmentTargetMaybeDefault };

    fn set() -> NodeSet {
        NodeSet::AssignmentTargetMaybeDefault
    }

    #[tactic(auto, using(crate::proofs::Sets::takes_assignment_target_maybe_defaults))]
    fn from_row(
        alloc: Global,
        row: Row<N>,
    ) -> Result<Option<AssignmentTargetMaybeDefault<N>>, AllocError>
        ensures { IfOk result (λ child. option_map (in_assignment_target_maybe_default N.plain) child
            ≡ (if in_set sets.AssignmentTargetMaybeDefault (type_of (row_plain N.plain row)) then Some (row_plain N.plain row) else None)) }
    {
        match row {
            Row::IdentifierReference(row) => assignment_target_maybe_default_of_assignment_target(
                alloc,
                N::assignment_target_node(AssignmentTarget::IdentifierReference(row)),
            ),
            Row::StaticMemberExpression(row) =>
                assignment_target_maybe_default_of_assignment_target(
                    alloc,
                    N::assignment_target_node(AssignmentTarget::StaticMemberExpression(row)),
                ),
            Row::ComputedMemberExpression(row) =>
                assignment_target_maybe_default_of_assignment_target(
                    alloc,
                    N::assignment_target_node(AssignmentTarget::ComputedMemberExpression(row)),
                ),
            Row::AssignmentTarget(row) => assignment_target_maybe_default_of_assignment_target(
                alloc,
                N::assignment_target_node(Box::into_inner(row).assignment_target),
            ),
            Row::AssignmentTargetWithDefault(row) => Ok(Some(
                AssignmentTargetMaybeDefault::AssignmentTargetWithDefault(row),
            )),
            Row::PrivateFieldExpression(row) =>
                assignment_target_maybe_default_of_assignment_target(
                    alloc,
                    N::assignment_target_node(AssignmentTarget::PrivateFieldExpression(row)),
                ),
            rest => {
                rest.let_go();
                Ok(None)
            }
        }
    }
}

impl<N: HasType + Drop> Child<N> for AssignmentTargetProperty<N> {
    ghost plain = { λ n. in_assignment_target_property N.plain n };

    ghost of_set = { sets.AssignmentTargetProperty };

    fn set() -> NodeSet {
        NodeSet::AssignmentTargetProperty
    }

    #[tactic(auto, using(crate::proofs::Sets::takes_assignment_target_propertys))]
    fn from_row(
        alloc: Global,
        row: Row<N>,
    ) -> Result<Option<AssignmentTargetProperty<N>>, AllocError>
        ensures { IfOk result (λ child. option_map (in_assignment_target_property N.plain) child
            ≡ (if in_set sets.AssignmentTargetProperty (type_of (row_plain N.plain row)) then Some (row_plain N.plain row) else None)) }
    {
        let _ = alloc;
        match row {
            Row::AssignmentTargetPropertyIdentifier(row) => Ok(Some(
                AssignmentTargetProperty::AssignmentTargetPropertyIdentifier(row),
            )),
            Row::AssignmentTargetPropertyProperty(row) => Ok(Some(
                AssignmentTargetProperty::AssignmentTargetPropertyProperty(row),
            )),
            rest => {
                rest.let_go();
                Ok(None)
            }
        }
    }
}

impl<N: HasType + Drop> Child<N> for ImportDeclarationSpecifier {
    ghost plain = { λ n. in_import_declaration_specifier n };

    ghost of_set = { sets.ImportDeclarationSpecifier };

    fn set() -> NodeSet {
        NodeSet::ImportDeclarationSpecifier
    }

    #[tactic(auto, using(crate::proofs::Sets::takes_import_declaration_specifiers))]
    fn from_row(
        alloc: Global,
        row: Row<N>,
    ) -> Result<Option<ImportDeclarationSpecifier>, AllocError>
        ensures { IfOk result (λ child. option_map in_import_declaration_specifier child
            ≡ (if in_set sets.ImportDeclarationSpecifier (type_of (row_plain N.plain row)) then Some (row_plain N.plain row) else None)) }
    {
        let _ = alloc;
        match row {
            Row::ImportDefaultSpecifier(row) => Ok(Some(
                ImportDeclarationSpecifier::ImportDefaultSpecifier(row),
            )),
            Row::ImportNamespaceSpecifier(row) => Ok(Some(
                ImportDeclarationSpecifier::ImportNamespaceSpecifier(row),
            )),
            Row::ImportSpecifier(row) => Ok(Some(ImportDeclarationSpecifier::ImportSpecifier(row))),
            rest => {
                rest.let_go();
                Ok(None)
            }
        }
    }
}

impl<N: HasType + Drop> Child<N> for ModuleExportName {
    ghost plain = { λ n. in_module_export_name n };

    ghost of_set = { sets.ModuleExportName };

    fn set() -> NodeSet {
        NodeSet::ModuleExportName
    }

    #[tactic(auto, using(crate::proofs::Sets::takes_module_export_names))]
    fn from_row(alloc: Global, row: Row<N>) -> Result<Option<ModuleExportName>, AllocError>
        ensures { IfOk result (λ child. option_map in_module_export_name child
            ≡ (if in_set sets.ModuleExportName (type_of (row_plain N.plain row)) then Some (row_plain N.plain row) else None)) }
    {
        let _ = alloc;
        match row {
            Row::IdentifierReference(row) => Ok(Some(ModuleExportName::IdentifierReference(row))),
            Row::Expression(row) => Ok(module_export_name_of_expression(Box::into_inner(row))),
            Row::IdentifierName(row) => Ok(Some(ModuleExportName::IdentifierName(row))),
            rest => {
                rest.let_go();
                Ok(None)
            }
        }
    }
}

impl<N: HasType + Drop> Child<N> for ImportAttributeKey {
    ghost plain = { λ n. in_import_attribute_key n };

    ghost of_set = { sets.ImportAttributeKey };

    fn set() -> NodeSet {
        NodeSet::ImportAttributeKey
    }

    #[tactic(auto, using(crate::proofs::Sets::takes_import_attribute_keys))]
    fn from_row(alloc: Global, row: Row<N>) -> Result<Option<ImportAttributeKey>, AllocError>
        ensures { IfOk result (λ child. option_map in_import_attribute_key child
            ≡ (if in_set sets.ImportAttributeKey (type_of (row_plain N.plain row)) then Some (row_plain N.plain row) else None)) }
    {
        let _ = alloc;
        match row {
            Row::Expression(row) => Ok(import_attribute_key_of_expression(Box::into_inner(row))),
            Row::IdentifierName(row) => Ok(Some(ImportAttributeKey::IdentifierName(row))),
            rest => {
                rest.let_go();
                Ok(None)
            }
        }
    }
}

impl<N: HoldsExpression + Drop> Child<N> for ExportDefaultDeclarationKind<N> {
    ghost plain = { λ n. in_export_default_declaration_kind N.plain n };

    ghost of_set = { sets.ExportDefaultDeclarationKind };

    fn set() -> NodeSet {
        NodeSet::ExportDefaultDeclarationKind
    }

    #[tactic(auto, using(crate::proofs::Sets::takes_export_default_declaration_kinds))]
    fn from_row(
        alloc: Global,
        row: Row<N>,
    ) -> Result<Option<ExportDefaultDeclarationKind<N>>, AllocError>
        ensures { IfOk result (λ child. option_map (in_export_default_declaration_kind N.plain) child
            ≡ (if in_set sets.ExportDefaultDeclarationKind (type_of (row_plain N.plain row)) then Some (row_plain N.plain row) else None)) }
    {
        match row {
            Row::IdentifierReference(row) => export_default_declaration_kind_of_expression(
                alloc,
                N::expression_node(Expression::IdentifierReference(row)),
            ),
            Row::Expression(row) => export_default_declaration_kind_of_expression(
                alloc,
                N::expression_node(Box::into_inner(row).expression),
            ),
            Row::StaticMemberExpression(row) => export_default_declaration_kind_of_expression(
                alloc,
                N::expression_node(Expression::StaticMemberExpression(row)),
            ),
            Row::ComputedMemberExpression(row) => export_default_declaration_kind_of_expression(
                alloc,
                N::expression_node(Expression::ComputedMemberExpression(row)),
            ),
            Row::Function(row) => export_default_declaration_kind_of_function(alloc, row),
            Row::PrivateFieldExpression(row) => export_default_declaration_kind_of_expression(
                alloc,
                N::expression_node(Expression::PrivateFieldExpression(row)),
            ),
            Row::Class(row) => export_default_declaration_kind_of_class(alloc, row),
            rest => {
                rest.let_go();
                Ok(None)
            }
        }
    }
}
