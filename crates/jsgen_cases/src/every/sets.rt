// Generated from tools/nodes/table.txt; edit that and run tools/nodes/generate.
// A member of a set, printed as one and as its own type, and what is in it.

use crate::every::Every;
use crate::every::classes::every_class_element;
use crate::every::expressions::every_expression;
use crate::every::patterns::{every_assignment_target, every_binding_pattern};
use crate::every::statements::{every_declaration, every_statement};
use crate::every::types::{
    every_call_expression, every_class, every_computed_member_expression, every_function,
    every_function_body, every_private_field_expression, every_spread_element,
    every_static_member_expression, every_variable_declaration,
};
use jsgen_syntax::Memory;
use jsgen_tree::{
    Argument, ArrayExpressionElement, ArrowFunctionBody, AssignmentTargetMaybeDefault,
    AssignmentTargetProperty, ChainElement, ExportDefaultDeclarationKind, ForStatementInit,
    ForStatementLeft, ImportAttributeKey, ImportDeclarationSpecifier, ModuleExportName, Node,
    ObjectPropertyKind, PropertyKey, SimpleAssignmentTarget,
};

pub fn every_argument<'a>(node: &'a Argument, found: &mut Every<'a>) -> Result<(), Memory> {
    found.alone("Argument", node)?;
    match node {
        Argument::SpreadElement(node) => every_spread_element(node, found),
        Argument::Expression(node) => found.wait(node.get()),
    }
}

pub fn every_array_expression_element<'a>(
    node: &'a ArrayExpressionElement,
    found: &mut Every<'a>,
) -> Result<(), Memory> {
    found.alone("ArrayExpressionElement", node)?;
    match node {
        ArrayExpressionElement::SpreadElement(node) => every_spread_element(node, found),
        ArrayExpressionElement::Expression(node) => found.wait(node.get()),
    }
}

pub fn every_chain_element<'a>(
    node: &'a ChainElement,
    found: &mut Every<'a>,
) -> Result<(), Memory> {
    match node {
        ChainElement::StaticMemberExpression(node) => every_static_member_expression(node, found),
        ChainElement::ComputedMemberExpression(node) => every_computed_member_expression(
            node, found,
        ),
        ChainElement::PrivateFieldExpression(node) => every_private_field_expression(node, found),
        ChainElement::CallExpression(node) => every_call_expression(node, found),
    }
}

pub fn every_simple_assignment_target<'a>(
    node: &'a SimpleAssignmentTarget,
    found: &mut Every<'a>,
) -> Result<(), Memory> {
    found.at_level("SimpleAssignmentTarget", node)?;
    match node {
        SimpleAssignmentTarget::IdentifierReference(node) => found.alone(
            "IdentifierReference",
            &**node,
        ),
        SimpleAssignmentTarget::StaticMemberExpression(node) => every_static_member_expression(
            node, found,
        ),
        SimpleAssignmentTarget::ComputedMemberExpression(node) => every_computed_member_expression(
            node, found,
        ),
        SimpleAssignmentTarget::PrivateFieldExpression(node) => every_private_field_expression(
            node, found,
        ),
    }
}

pub fn every_assignment_target_maybe_default<'a>(
    node: &'a AssignmentTargetMaybeDefault,
    found: &mut Every<'a>,
) -> Result<(), Memory> {
    found.alone("AssignmentTargetMaybeDefault", node)?;
    match node {
        AssignmentTargetMaybeDefault::AssignmentTarget(node) => found.wait(node.get()),
        AssignmentTargetMaybeDefault::AssignmentTargetWithDefault(node) => {
            let node = &**node;
            found.alone("AssignmentTargetWithDefault", node)?;
            found.wait(node.binding.get())?;
            found.wait(node.init.get())
        },
    }
}

pub fn every_assignment_target_property<'a>(
    node: &'a AssignmentTargetProperty,
    found: &mut Every<'a>,
) -> Result<(), Memory> {
    found.alone("AssignmentTargetProperty", node)?;
    match node {
        AssignmentTargetProperty::AssignmentTargetPropertyIdentifier(node) => {
            let node = &**node;
            found.alone("AssignmentTargetPropertyIdentifier", node)?;
            found.alone("IdentifierReference", &*node.binding)?;
            if let Some(child) = &node.init {
                found.wait(child.get())?;
            }
            Ok(())
        },
        AssignmentTargetProperty::AssignmentTargetPropertyProperty(node) => {
            let node = &**node;
            found.alone("AssignmentTargetPropertyProperty", node)?;
            every_property_key(&node.name, found)?;
            every_assignment_target_maybe_default(&node.binding, found)
        },
    }
}

pub fn every_arrow_function_body<'a>(
    node: &'a ArrowFunctionBody,
    found: &mut Every<'a>,
) -> Result<(), Memory> {
    match node {
        ArrowFunctionBody::FunctionBody(node) => every_function_body(node, found),
        ArrowFunctionBody::Expression(node) => found.wait(node.get()),
    }
}

pub fn every_for_statement_init<'a>(
    node: &'a ForStatementInit,
    found: &mut Every<'a>,
) -> Result<(), Memory> {
    found.alone("ForStatementInit", node)?;
    match node {
        ForStatementInit::VariableDeclaration(node) => every_variable_declaration(node, found),
        ForStatementInit::Expression(node) => found.wait(node.get()),
    }
}

pub fn every_for_statement_left<'a>(
    node: &'a ForStatementLeft,
    found: &mut Every<'a>,
) -> Result<(), Memory> {
    found.alone("ForStatementLeft", node)?;
    match node {
        ForStatementLeft::VariableDeclaration(node) => every_variable_declaration(node, found),
        ForStatementLeft::AssignmentTarget(node) => found.wait(node.get()),
    }
}

pub fn every_object_property_kind<'a>(
    node: &'a ObjectPropertyKind,
    found: &mut Every<'a>,
) -> Result<(), Memory> {
    found.alone("ObjectPropertyKind", node)?;
    match node {
        ObjectPropertyKind::ObjectProperty(node) => {
            let node = &**node;
            found.alone("ObjectProperty", node)?;
            every_property_key(&node.key, found)?;
            found.wait(node.value.get())
        },
        ObjectPropertyKind::SpreadElement(node) => every_spread_element(node, found),
    }
}

pub fn every_property_key<'a>(node: &'a PropertyKey, found: &mut Every<'a>) -> Result<(), Memory> {
    found.alone("PropertyKey", node)?;
    match node {
        PropertyKey::IdentifierName(node) => found.alone("IdentifierName", &**node),
        PropertyKey::PrivateIdentifier(node) => found.alone("PrivateIdentifier", &**node),
        PropertyKey::Expression(node) => found.wait(node.get()),
    }
}

pub fn every_module_export_name<'a>(
    node: &'a ModuleExportName,
    found: &mut Every<'a>,
) -> Result<(), Memory> {
    found.alone("ModuleExportName", node)?;
    match node {
        ModuleExportName::IdentifierName(node) => found.alone("IdentifierName", &**node),
        ModuleExportName::IdentifierReference(node) => found.alone("IdentifierReference", &**node),
        ModuleExportName::StringLiteral(node) => found.alone("StringLiteral", &**node),
    }
}

pub fn every_import_declaration_specifier<'a>(
    node: &'a ImportDeclarationSpecifier,
    found: &mut Every<'a>,
) -> Result<(), Memory> {
    match node {
        ImportDeclarationSpecifier::ImportDefaultSpecifier(node) => {
            let node = &**node;
            found.alone("BindingIdentifier", &*node.local)
        },
        ImportDeclarationSpecifier::ImportNamespaceSpecifier(node) => {
            let node = &**node;
            found.alone("BindingIdentifier", &*node.local)
        },
        ImportDeclarationSpecifier::ImportSpecifier(node) => {
            let node = &**node;
            every_module_export_name(&node.imported, found)?;
            found.alone("BindingIdentifier", &*node.local)
        },
    }
}

pub fn every_import_attribute_key<'a>(
    node: &'a ImportAttributeKey,
    found: &mut Every<'a>,
) -> Result<(), Memory> {
    match node {
        ImportAttributeKey::IdentifierName(node) => found.alone("IdentifierName", &**node),
        ImportAttributeKey::StringLiteral(node) => found.alone("StringLiteral", &**node),
    }
}

pub fn every_export_default_declaration_kind<'a>(
    node: &'a ExportDefaultDeclarationKind,
    found: &mut Every<'a>,
) -> Result<(), Memory> {
    found.alone("ExportDefaultDeclarationKind", node)?;
    match node {
        ExportDefaultDeclarationKind::Function(node) => every_function(node, found),
        ExportDefaultDeclarationKind::Class(node) => every_class(node, found),
        ExportDefaultDeclarationKind::Expression(node) => found.wait(node.get()),
    }
}

pub fn every_node<'a>(node: &'a Node, found: &mut Every<'a>) -> Result<(), Memory> {
    match node {
        Node::Expression(node) => every_expression(node, found),
        Node::AssignmentTarget(node) => every_assignment_target(node, found),
        Node::Declaration(node) => every_declaration(node, found),
        Node::Statement(node) => every_statement(node, found),
        Node::BindingPattern(node) => every_binding_pattern(node, found),
        Node::ClassElement(node) => every_class_element(node, found),
    }
}
