// Generated from tools/nodes/table.txt; edit that and run tools/nodes/generate.
// What is made of a row where it is a child: a node of the type that the place is for.
ghost use Rattle.std.specs.Prelude.{◌≡◌, IfOk, Some, None, option_map, if◌then◌else◌};
ghost use Rattle.jsgen_tree.specs.Tree.{type_of};
ghost use Rattle.jsgen_tree.specs.Sets.{in_set};
ghost use Rattle.jsgen_tree.specs.Rows.{comment_row, directive_row, variable_declarator_row, binding_identifier_row, block_statement_row, identifier_reference_row, string_literal_row, identifier_name_row, formal_parameter_row, formal_parameter_rest_row, formal_parameters_row, function_row, function_body_row, template_element_row, template_literal_row, label_identifier_row, switch_case_row, catch_clause_row, binding_property_row, binding_rest_element_row, assignment_target_rest_row, private_identifier_row, class_body_row, hashbang_row, with_clause_row, import_attribute_row, export_specifier_row};
ghost use Rattle.jsgen_kept.specs.Kept.{row_plain};
ghost use Rattle.jsgen_tree.specs.declared.types.NodeSet.TheVariants as sets;

use crate::asked::Child;
use crate::kept::Row;
use crate::members::{
    binding_identifier_of_binding_pattern_in_box, block_statement_of_statement_in_box,
    string_literal_of_expression_in_box, template_literal_of_expression_in_box,
};
use jsgen_tree::{
    AssignmentTargetRest, BindingIdentifier, BindingProperty, BindingRestElement, BlockStatement,
    CatchClause, ClassBody, Comment, Directive, ExportSpecifier, FormalParameter,
    FormalParameterRest, FormalParameters, Function, FunctionBody, HasType, Hashbang,
    IdentifierName, IdentifierReference, ImportAttribute, LabelIdentifier, NodeSet,
    PrivateIdentifier, StringLiteral, SwitchCase, TemplateElement, TemplateLiteral,
    VariableDeclarator, WithClause,
};
use std::alloc::{AllocError, Global};

impl<N: HasType + Drop> Child<N> for Comment {
    ghost plain = { λ n. comment_row n };

    ghost of_set = { sets.Comment };

    fn set() -> NodeSet {
        NodeSet::Comment
    }

    #[tactic(auto, using(crate::proofs::OneType::takes_comments))]
    fn from_row(alloc: Global, row: Row<N>) -> Result<Option<Comment>, AllocError>
        ensures { IfOk result (λ child. option_map comment_row child
            ≡ (if in_set sets.Comment (type_of (row_plain N.plain row)) then Some (row_plain N.plain row) else None)) }
    {
        let _ = alloc;
        match row {
            Row::Comment(row) => Ok(Some(Box::into_inner(row))),
            rest => {
                rest.let_go();
                Ok(None)
            }
        }
    }
}

impl<N: HasType + Drop> Child<N> for Box<Hashbang> {
    ghost plain = { λ n. hashbang_row n.value };

    ghost of_set = { sets.Hashbang };

    fn set() -> NodeSet {
        NodeSet::Hashbang
    }

    #[tactic(auto, using(crate::proofs::OneType::takes_hashbangs))]
    fn from_row(alloc: Global, row: Row<N>) -> Result<Option<Box<Hashbang>>, AllocError>
        ensures { IfOk result (λ child. option_map (λ b. hashbang_row b.value) child
            ≡ (if in_set sets.Hashbang (type_of (row_plain N.plain row)) then Some (row_plain N.plain row) else None)) }
    {
        let _ = alloc;
        match row {
            Row::Hashbang(row) => Ok(Some(row)),
            rest => {
                rest.let_go();
                Ok(None)
            }
        }
    }
}

impl<N: HasType + Drop> Child<N> for Directive {
    ghost plain = { λ n. directive_row n };

    ghost of_set = { sets.Directive };

    fn set() -> NodeSet {
        NodeSet::Directive
    }

    #[tactic(auto, using(crate::proofs::OneType::takes_directives))]
    fn from_row(alloc: Global, row: Row<N>) -> Result<Option<Directive>, AllocError>
        ensures { IfOk result (λ child. option_map directive_row child
            ≡ (if in_set sets.Directive (type_of (row_plain N.plain row)) then Some (row_plain N.plain row) else None)) }
    {
        let _ = alloc;
        match row {
            Row::Directive(row) => Ok(Some(Box::into_inner(row))),
            rest => {
                rest.let_go();
                Ok(None)
            }
        }
    }
}

impl<N: HasType + Drop> Child<N> for VariableDeclarator<N> {
    ghost plain = { λ n. variable_declarator_row N.plain n };

    ghost of_set = { sets.VariableDeclarator };

    fn set() -> NodeSet {
        NodeSet::VariableDeclarator
    }

    #[tactic(auto, using(crate::proofs::OneType::takes_variable_declarators))]
    fn from_row(alloc: Global, row: Row<N>) -> Result<Option<VariableDeclarator<N>>, AllocError>
        ensures { IfOk result (λ child. option_map (variable_declarator_row N.plain) child
            ≡ (if in_set sets.VariableDeclarator (type_of (row_plain N.plain row)) then Some (row_plain N.plain row) else None)) }
    {
        let _ = alloc;
        match row {
            Row::VariableDeclarator(row) => Ok(Some(Box::into_inner(row))),
            rest => {
                rest.let_go();
                Ok(None)
            }
        }
    }
}

impl<N: HasType + Drop> Child<N> for Box<IdentifierName> {
    ghost plain = { λ n. identifier_name_row n.value };

    ghost of_set = { sets.IdentifierName };

    fn set() -> NodeSet {
        NodeSet::IdentifierName
    }

    #[tactic(auto, using(crate::proofs::OneType::takes_identifier_names))]
    fn from_row(alloc: Global, row: Row<N>) -> Result<Option<Box<IdentifierName>>, AllocError>
        ensures { IfOk result (λ child. option_map (λ b. identifier_name_row b.value) child
            ≡ (if in_set sets.IdentifierName (type_of (row_plain N.plain row)) then Some (row_plain N.plain row) else None)) }
    {
        let _ = alloc;
        match row {
            Row::IdentifierName(row) => Ok(Some(row)),
            rest => {
                rest.let_go();
                Ok(None)
            }
        }
    }
}

impl<N: HasType + Drop> Child<N> for FormalParameter<N> {
    ghost plain = { λ n. formal_parameter_row N.plain n };

    ghost of_set = { sets.FormalParameter };

    fn set() -> NodeSet {
        NodeSet::FormalParameter
    }

    #[tactic(auto, using(crate::proofs::OneType::takes_formal_parameters))]
    fn from_row(alloc: Global, row: Row<N>) -> Result<Option<FormalParameter<N>>, AllocError>
        ensures { IfOk result (λ child. option_map (formal_parameter_row N.plain) child
            ≡ (if in_set sets.FormalParameter (type_of (row_plain N.plain row)) then Some (row_plain N.plain row) else None)) }
    {
        let _ = alloc;
        match row {
            Row::FormalParameter(row) => Ok(Some(Box::into_inner(row))),
            rest => {
                rest.let_go();
                Ok(None)
            }
        }
    }
}

impl<N: HasType + Drop> Child<N> for Box<FormalParameterRest<N>> {
    ghost plain = { λ n. formal_parameter_rest_row N.plain n.value };

    ghost of_set = { sets.FormalParameterRest };

    fn set() -> NodeSet {
        NodeSet::FormalParameterRest
    }

    #[tactic(auto, using(crate::proofs::OneType::takes_formal_parameter_rests))]
    fn from_row(
        alloc: Global,
        row: Row<N>,
    ) -> Result<Option<Box<FormalParameterRest<N>>>, AllocError>
        ensures { IfOk result (λ child. option_map (λ b. formal_parameter_rest_row N.plain b.value) child
            ≡ (if in_set sets.FormalParameterRest (type_of (row_plain N.plain row)) then Some (row_plain N.plain row) else None)) }
    {
        let _ = alloc;
        match row {
            Row::FormalParameterRest(row) => Ok(Some(row)),
            rest => {
                rest.let_go();
                Ok(None)
            }
        }
    }
}

impl<N: HasType + Drop> Child<N> for Box<BindingIdentifier> {
    ghost plain = { λ n. binding_identifier_row n.value };

    ghost of_set = { sets.BindingIdentifier };

    fn set() -> NodeSet {
        NodeSet::BindingIdentifier
    }

    #[tactic(auto, using(crate::proofs::OneType::takes_binding_identifiers))]
    fn from_row(alloc: Global, row: Row<N>) -> Result<Option<Box<BindingIdentifier>>, AllocError>
        ensures { IfOk result (λ child. option_map (λ b. binding_identifier_row b.value) child
            ≡ (if in_set sets.BindingIdentifier (type_of (row_plain N.plain row)) then Some (row_plain N.plain row) else None)) }
    {
        let _ = alloc;
        match row {
            Row::BindingPattern(row) => Ok(binding_identifier_of_binding_pattern_in_box(
                Box::into_inner(row),
            )),
            rest => {
                rest.let_go();
                Ok(None)
            }
        }
    }
}

impl<N: HasType + Drop> Child<N> for Box<FormalParameters<N>> {
    ghost plain = { λ n. formal_parameters_row N.plain n.value };

    ghost of_set = { sets.FormalParameters };

    fn set() -> NodeSet {
        NodeSet::FormalParameters
    }

    #[tactic(auto, using(crate::proofs::OneType::takes_formal_parameterss))]
    fn from_row(alloc: Global, row: Row<N>) -> Result<Option<Box<FormalParameters<N>>>, AllocError>
        ensures { IfOk result (λ child. option_map (λ b. formal_parameters_row N.plain b.value) child
            ≡ (if in_set sets.FormalParameters (type_of (row_plain N.plain row)) then Some (row_plain N.plain row) else None)) }
    {
        let _ = alloc;
        match row {
            Row::FormalParameters(row) => Ok(Some(row)),
            rest => {
                rest.let_go();
                Ok(None)
            }
        }
    }
}

impl<N: HasType + Drop> Child<N> for Box<FunctionBody<N>> {
    ghost plain = { λ n. function_body_row N.plain n.value };

    ghost of_set = { sets.FunctionBody };

    fn set() -> NodeSet {
        NodeSet::FunctionBody
    }

    #[tactic(auto, using(crate::proofs::OneType::takes_function_bodys))]
    fn from_row(alloc: Global, row: Row<N>) -> Result<Option<Box<FunctionBody<N>>>, AllocError>
        ensures { IfOk result (λ child. option_map (λ b. function_body_row N.plain b.value) child
            ≡ (if in_set sets.FunctionBody (type_of (row_plain N.plain row)) then Some (row_plain N.plain row) else None)) }
    {
        let _ = alloc;
        match row {
            Row::FunctionBody(row) => Ok(Some(row)),
            rest => {
                rest.let_go();
                Ok(None)
            }
        }
    }
}

impl<N: HasType + Drop> Child<N> for TemplateElement {
    ghost plain = { λ n. template_element_row n };

    ghost of_set = { sets.TemplateElement };

    fn set() -> NodeSet {
        NodeSet::TemplateElement
    }

    #[tactic(auto, using(crate::proofs::OneType::takes_template_elements))]
    fn from_row(alloc: Global, row: Row<N>) -> Result<Option<TemplateElement>, AllocError>
        ensures { IfOk result (λ child. option_map template_element_row child
            ≡ (if in_set sets.TemplateElement (type_of (row_plain N.plain row)) then Some (row_plain N.plain row) else None)) }
    {
        let _ = alloc;
        match row {
            Row::TemplateElement(row) => Ok(Some(Box::into_inner(row))),
            rest => {
                rest.let_go();
                Ok(None)
            }
        }
    }
}

impl<N: HasType + Drop> Child<N> for Box<TemplateLiteral<N>> {
    ghost plain = { λ n. template_literal_row N.plain n.value };

    ghost of_set = { sets.TemplateLiteral };

    fn set() -> NodeSet {
        NodeSet::TemplateLiteral
    }

    #[tactic(auto, using(crate::proofs::OneType::takes_template_literals))]
    fn from_row(alloc: Global, row: Row<N>) -> Result<Option<Box<TemplateLiteral<N>>>, AllocError>
        ensures { IfOk result (λ child. option_map (λ b. template_literal_row N.plain b.value) child
            ≡ (if in_set sets.TemplateLiteral (type_of (row_plain N.plain row)) then Some (row_plain N.plain row) else None)) }
    {
        let _ = alloc;
        match row {
            Row::Expression(row) => Ok(template_literal_of_expression_in_box(Box::into_inner(row))),
            rest => {
                rest.let_go();
                Ok(None)
            }
        }
    }
}

impl<N: HasType + Drop> Child<N> for Box<LabelIdentifier> {
    ghost plain = { λ n. label_identifier_row n.value };

    ghost of_set = { sets.LabelIdentifier };

    fn set() -> NodeSet {
        NodeSet::LabelIdentifier
    }

    #[tactic(auto, using(crate::proofs::OneType::takes_label_identifiers))]
    fn from_row(alloc: Global, row: Row<N>) -> Result<Option<Box<LabelIdentifier>>, AllocError>
        ensures { IfOk result (λ child. option_map (λ b. label_identifier_row b.value) child
            ≡ (if in_set sets.LabelIdentifier (type_of (row_plain N.plain row)) then Some (row_plain N.plain row) else None)) }
    {
        let _ = alloc;
        match row {
            Row::LabelIdentifier(row) => Ok(Some(row)),
            rest => {
                rest.let_go();
                Ok(None)
            }
        }
    }
}

impl<N: HasType + Drop> Child<N> for SwitchCase<N> {
    ghost plain = { λ n. switch_case_row N.plain n };

    ghost of_set = { sets.SwitchCase };

    fn set() -> NodeSet {
        NodeSet::SwitchCase
    }

    #[tactic(auto, using(crate::proofs::OneType::takes_switch_cases))]
    fn from_row(alloc: Global, row: Row<N>) -> Result<Option<SwitchCase<N>>, AllocError>
        ensures { IfOk result (λ child. option_map (switch_case_row N.plain) child
            ≡ (if in_set sets.SwitchCase (type_of (row_plain N.plain row)) then Some (row_plain N.plain row) else None)) }
    {
        let _ = alloc;
        match row {
            Row::SwitchCase(row) => Ok(Some(Box::into_inner(row))),
            rest => {
                rest.let_go();
                Ok(None)
            }
        }
    }
}

impl<N: HasType + Drop> Child<N> for Box<BlockStatement<N>> {
    ghost plain = { λ n. block_statement_row N.plain n.value };

    ghost of_set = { sets.BlockStatement };

    fn set() -> NodeSet {
        NodeSet::BlockStatement
    }

    #[tactic(auto, using(crate::proofs::OneType::takes_block_statements))]
    fn from_row(alloc: Global, row: Row<N>) -> Result<Option<Box<BlockStatement<N>>>, AllocError>
        ensures { IfOk result (λ child. option_map (λ b. block_statement_row N.plain b.value) child
            ≡ (if in_set sets.BlockStatement (type_of (row_plain N.plain row)) then Some (row_plain N.plain row) else None)) }
    {
        let _ = alloc;
        match row {
            Row::Statement(row) => Ok(block_statement_of_statement_in_box(Box::into_inner(row))),
            rest => {
                rest.let_go();
                Ok(None)
            }
        }
    }
}

impl<N: HasType + Drop> Child<N> for Box<CatchClause<N>> {
    ghost plain = { λ n. catch_clause_row N.plain n.value };

    ghost of_set = { sets.CatchClause };

    fn set() -> NodeSet {
        NodeSet::CatchClause
    }

    #[tactic(auto, using(crate::proofs::OneType::takes_catch_clauses))]
    fn from_row(alloc: Global, row: Row<N>) -> Result<Option<Box<CatchClause<N>>>, AllocError>
        ensures { IfOk result (λ child. option_map (λ b. catch_clause_row N.plain b.value) child
            ≡ (if in_set sets.CatchClause (type_of (row_plain N.plain row)) then Some (row_plain N.plain row) else None)) }
    {
        let _ = alloc;
        match row {
            Row::CatchClause(row) => Ok(Some(row)),
            rest => {
                rest.let_go();
                Ok(None)
            }
        }
    }
}

impl<N: HasType + Drop> Child<N> for BindingProperty<N> {
    ghost plain = { λ n. binding_property_row N.plain n };

    ghost of_set = { sets.BindingProperty };

    fn set() -> NodeSet {
        NodeSet::BindingProperty
    }

    #[tactic(auto, using(crate::proofs::OneType::takes_binding_propertys))]
    fn from_row(alloc: Global, row: Row<N>) -> Result<Option<BindingProperty<N>>, AllocError>
        ensures { IfOk result (λ child. option_map (binding_property_row N.plain) child
            ≡ (if in_set sets.BindingProperty (type_of (row_plain N.plain row)) then Some (row_plain N.plain row) else None)) }
    {
        let _ = alloc;
        match row {
            Row::BindingProperty(row) => Ok(Some(Box::into_inner(row))),
            rest => {
                rest.let_go();
                Ok(None)
            }
        }
    }
}

impl<N: HasType + Drop> Child<N> for Box<BindingRestElement<N>> {
    ghost plain = { λ n. binding_rest_element_row N.plain n.value };

    ghost of_set = { sets.BindingRestElement };

    fn set() -> NodeSet {
        NodeSet::BindingRestElement
    }

    #[tactic(auto, using(crate::proofs::OneType::takes_binding_rest_elements))]
    fn from_row(
        alloc: Global,
        row: Row<N>,
    ) -> Result<Option<Box<BindingRestElement<N>>>, AllocError>
        ensures { IfOk result (λ child. option_map (λ b. binding_rest_element_row N.plain b.value) child
            ≡ (if in_set sets.BindingRestElement (type_of (row_plain N.plain row)) then Some (row_plain N.plain row) else None)) }
    {
        let _ = alloc;
        match row {
            Row::BindingRestElement(row) => Ok(Some(row)),
            rest => {
                rest.let_go();
                Ok(None)
            }
        }
    }
}

impl<N: HasType + Drop> Child<N> for Box<AssignmentTargetRest<N>> {
    ghost plain = { λ n. assignment_target_rest_row N.plain n.value };

    ghost of_set = { sets.AssignmentTargetRest };

    fn set() -> NodeSet {
        NodeSet::AssignmentTargetRest
    }

    #[tactic(auto, using(crate::proofs::OneType::takes_assignment_target_rests))]
    fn from_row(
        alloc: Global,
        row: Row<N>,
    ) -> Result<Option<Box<AssignmentTargetRest<N>>>, AllocError>
        ensures { IfOk result (λ child. option_map (λ b. assignment_target_rest_row N.plain b.value) child
            ≡ (if in_set sets.AssignmentTargetRest (type_of (row_plain N.plain row)) then Some (row_plain N.plain row) else None)) }
    {
        let _ = alloc;
        match row {
            Row::AssignmentTargetRest(row) => Ok(Some(row)),
            rest => {
                rest.let_go();
                Ok(None)
            }
        }
    }
}

impl<N: HasType + Drop> Child<N> for Box<IdentifierReference> {
    ghost plain = { λ n. identifier_reference_row n.value };

    ghost of_set = { sets.IdentifierReference };

    fn set() -> NodeSet {
        NodeSet::IdentifierReference
    }

    #[tactic(auto, using(crate::proofs::OneType::takes_identifier_references))]
    fn from_row(alloc: Global, row: Row<N>) -> Result<Option<Box<IdentifierReference>>, AllocError>
        ensures { IfOk result (λ child. option_map (λ b. identifier_reference_row b.value) child
            ≡ (if in_set sets.IdentifierReference (type_of (row_plain N.plain row)) then Some (row_plain N.plain row) else None)) }
    {
        let _ = alloc;
        match row {
            Row::IdentifierReference(row) => Ok(Some(row)),
            rest => {
                rest.let_go();
                Ok(None)
            }
        }
    }
}

impl<N: HasType + Drop> Child<N> for Box<PrivateIdentifier> {
    ghost plain = { λ n. private_identifier_row n.value };

    ghost of_set = { sets.PrivateIdentifier };

    fn set() -> NodeSet {
        NodeSet::PrivateIdentifier
    }

    #[tactic(auto, using(crate::proofs::OneType::takes_private_identifiers))]
    fn from_row(alloc: Global, row: Row<N>) -> Result<Option<Box<PrivateIdentifier>>, AllocError>
        ensures { IfOk result (λ child. option_map (λ b. private_identifier_row b.value) child
            ≡ (if in_set sets.PrivateIdentifier (type_of (row_plain N.plain row)) then Some (row_plain N.plain row) else None)) }
    {
        let _ = alloc;
        match row {
            Row::PrivateIdentifier(row) => Ok(Some(row)),
            rest => {
                rest.let_go();
                Ok(None)
            }
        }
    }
}

impl<N: HasType + Drop> Child<N> for Box<ClassBody<N>> {
    ghost plain = { λ n. class_body_row N.plain n.value };

    ghost of_set = { sets.ClassBody };

    fn set() -> NodeSet {
        NodeSet::ClassBody
    }

    #[tactic(auto, using(crate::proofs::OneType::takes_class_bodys))]
    fn from_row(alloc: Global, row: Row<N>) -> Result<Option<Box<ClassBody<N>>>, AllocError>
        ensures { IfOk result (λ child. option_map (λ b. class_body_row N.plain b.value) child
            ≡ (if in_set sets.ClassBody (type_of (row_plain N.plain row)) then Some (row_plain N.plain row) else None)) }
    {
        let _ = alloc;
        match row {
            Row::ClassBody(row) => Ok(Some(row)),
            rest => {
                rest.let_go();
                Ok(None)
            }
        }
    }
}

impl<N: HasType + Drop> Child<N> for Box<Function<N>> {
    ghost plain = { λ n. function_row N.plain n.value };

    ghost of_set = { sets.Function };

    fn set() -> NodeSet {
        NodeSet::Function
    }

    #[tactic(auto, using(crate::proofs::OneType::takes_functions))]
    fn from_row(alloc: Global, row: Row<N>) -> Result<Option<Box<Function<N>>>, AllocError>
        ensures { IfOk result (λ child. option_map (λ b. function_row N.plain b.value) child
            ≡ (if in_set sets.Function (type_of (row_plain N.plain row)) then Some (row_plain N.plain row) else None)) }
    {
        let _ = alloc;
        match row {
            Row::Function(row) => Ok(Some(row)),
            rest => {
                rest.let_go();
                Ok(None)
            }
        }
    }
}

impl<N: HasType + Drop> Child<N> for Box<StringLiteral> {
    ghost plain = { λ n. string_literal_row n.value };

    ghost of_set = { sets.StringLiteral };

    fn set() -> NodeSet {
        NodeSet::StringLiteral
    }

    #[tactic(auto, using(crate::proofs::OneType::takes_string_literals))]
    fn from_row(alloc: Global, row: Row<N>) -> Result<Option<Box<StringLiteral>>, AllocError>
        ensures { IfOk result (λ child. option_map (λ b. string_literal_row b.value) child
            ≡ (if in_set sets.StringLiteral (type_of (row_plain N.plain row)) then Some (row_plain N.plain row) else None)) }
    {
        let _ = alloc;
        match row {
            Row::Expression(row) => Ok(string_literal_of_expression_in_box(Box::into_inner(row))),
            rest => {
                rest.let_go();
                Ok(None)
            }
        }
    }
}

impl<N: HasType + Drop> Child<N> for Box<WithClause> {
    ghost plain = { λ n. with_clause_row n.value };

    ghost of_set = { sets.WithClause };

    fn set() -> NodeSet {
        NodeSet::WithClause
    }

    #[tactic(auto, using(crate::proofs::OneType::takes_with_clauses))]
    fn from_row(alloc: Global, row: Row<N>) -> Result<Option<Box<WithClause>>, AllocError>
        ensures { IfOk result (λ child. option_map (λ b. with_clause_row b.value) child
            ≡ (if in_set sets.WithClause (type_of (row_plain N.plain row)) then Some (row_plain N.plain row) else None)) }
    {
        let _ = alloc;
        match row {
            Row::WithClause(row) => Ok(Some(row)),
            rest => {
                rest.let_go();
                Ok(None)
            }
        }
    }
}

impl<N: HasType + Drop> Child<N> for ImportAttribute {
    ghost plain = { λ n. import_attribute_row n };

    ghost of_set = { sets.ImportAttribute };

    fn set() -> NodeSet {
        NodeSet::ImportAttribute
    }

    #[tactic(auto, using(crate::proofs::OneType::takes_import_attributes))]
    fn from_row(alloc: Global, row: Row<N>) -> Result<Option<ImportAttribute>, AllocError>
        ensures { IfOk result (λ child. option_map import_attribute_row child
            ≡ (if in_set sets.ImportAttribute (type_of (row_plain N.plain row)) then Some (row_plain N.plain row) else None)) }
    {
        let _ = alloc;
        match row {
            Row::ImportAttribute(row) => Ok(Some(Box::into_inner(row))),
            rest => {
                rest.let_go();
                Ok(None)
            }
        }
    }
}

impl<N: HasType + Drop> Child<N> for ExportSpecifier {
    ghost plain = { λ n. export_specifier_row n };

    ghost of_set = { sets.ExportSpecifier };

    fn set() -> NodeSet {
        NodeSet::ExportSpecifier
    }

    #[tactic(auto, using(crate::proofs::OneType::takes_export_specifiers))]
    fn from_row(alloc: Global, row: Row<N>) -> Result<Option<ExportSpecifier>, AllocError>
        ensures { IfOk result (λ child. option_map export_specifier_row child
            ≡ (if in_set sets.ExportSpecifier (type_of (row_plain N.plain row)) then Some (row_plain N.plain row) else None)) }
    {
        let _ = alloc;
        match row {
            Row::ExportSpecifier(row) => Ok(Some(Box::into_inner(row))),
            rest => {
                rest.let_go();
                Ok(None)
            }
        }
    }
}
