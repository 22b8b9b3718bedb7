// Generated from tools/nodes/table.txt; edit that and run tools/nodes/generate.
// A node printed by itself, and what is in it.

use crate::every::Every;
use crate::every::sets::{
    every_argument, every_import_attribute_key, every_module_export_name, every_property_key,
};
use jsgen_syntax::Memory;
use jsgen_tree::{
    AssignmentTargetRest, BindingProperty, BindingRestElement, BlockStatement, CallExpression,
    CatchClause, Class, ClassBody, ComputedMemberExpression, ExportSpecifier, FormalParameter,
    FormalParameterRest, FormalParameters, Function, FunctionBody, ImportAttribute,
    PrivateFieldExpression, Program, SpreadElement, StaticMemberExpression, SwitchCase,
    TemplateLiteral, VariableDeclaration, VariableDeclarator, WithClause,
};

pub fn every_program<'a>(node: &'a Program, found: &mut Every<'a>) -> Result<(), Memory> {
    found.alone("Program", node)?;
    if let Some(child) = &node.hashbang {
        found.alone("Hashbang", &**child)?;
    }
    for child in &node.directives {
        found.alone("Directive", child)?;
    }
    for child in &node.body {
        found.wait(child.get())?;
    }
    Ok(())
}

pub fn every_variable_declaration<'a>(
    node: &'a VariableDeclaration,
    found: &mut Every<'a>,
) -> Result<(), Memory> {
    found.alone("VariableDeclaration", node)?;
    for child in &node.declarations {
        every_variable_declarator(child, found)?;
    }
    Ok(())
}

pub fn every_variable_declarator<'a>(
    node: &'a VariableDeclarator,
    found: &mut Every<'a>,
) -> Result<(), Memory> {
    found.alone("VariableDeclarator", node)?;
    found.wait(node.id.get())?;
    if let Some(child) = &node.init {
        found.wait(child.get())?;
    }
    Ok(())
}

pub fn every_block_statement<'a>(
    node: &'a BlockStatement,
    found: &mut Every<'a>,
) -> Result<(), Memory> {
    found.alone("BlockStatement", node)?;
    for child in &node.body {
        found.wait(child.get())?;
    }
    Ok(())
}

pub fn every_static_member_expression<'a>(
    node: &'a StaticMemberExpression,
    found: &mut Every<'a>,
) -> Result<(), Memory> {
    found.at_level("StaticMemberExpression", node)?;
    found.wait(node.object.get())?;
    found.alone("IdentifierName", &*node.property)
}

pub fn every_computed_member_expression<'a>(
    node: &'a ComputedMemberExpression,
    found: &mut Every<'a>,
) -> Result<(), Memory> {
    found.at_level("ComputedMemberExpression", node)?;
    found.wait(node.object.get())?;
    found.wait(node.expression.get())
}

pub fn every_call_expression<'a>(
    node: &'a CallExpression,
    found: &mut Every<'a>,
) -> Result<(), Memory> {
    found.at_level("CallExpression", node)?;
    found.wait(node.callee.get())?;
    for child in &node.arguments {
        every_argument(child, found)?;
    }
    Ok(())
}

pub fn every_spread_element<'a>(
    node: &'a SpreadElement,
    found: &mut Every<'a>,
) -> Result<(), Memory> {
    found.alone("SpreadElement", node)?;
    found.wait(node.argument.get())
}

pub fn every_formal_parameter<'a>(
    node: &'a FormalParameter,
    found: &mut Every<'a>,
) -> Result<(), Memory> {
    found.alone("FormalParameter", node)?;
    found.wait(node.pattern.get())?;
    if let Some(child) = &node.initializer {
        found.wait(child.get())?;
    }
    Ok(())
}

pub fn every_formal_parameter_rest<'a>(
    node: &'a FormalParameterRest,
    found: &mut Every<'a>,
) -> Result<(), Memory> {
    found.alone("FormalParameterRest", node)?;
    found.wait(node.argument.get())
}

pub fn every_formal_parameters<'a>(
    node: &'a FormalParameters,
    found: &mut Every<'a>,
) -> Result<(), Memory> {
    found.alone("FormalParameters", node)?;
    for child in &node.items {
        every_formal_parameter(child, found)?;
    }
    if let Some(child) = &node.rest {
        every_formal_parameter_rest(child, found)?;
    }
    Ok(())
}

pub fn every_function<'a>(node: &'a Function, found: &mut Every<'a>) -> Result<(), Memory> {
    found.alone("Function", node)?;
    if let Some(child) = &node.id {
        found.alone("BindingIdentifier", &**child)?;
    }
    every_formal_parameters(&node.params, found)?;
    if let Some(child) = &node.body {
        every_function_body(child, found)?;
    }
    Ok(())
}

pub fn every_function_body<'a>(
    node: &'a FunctionBody,
    found: &mut Every<'a>,
) -> Result<(), Memory> {
    found.alone("FunctionBody", node)?;
    for child in &node.directives {
        found.alone("Directive", child)?;
    }
    for child in &node.statements {
        found.wait(child.get())?;
    }
    Ok(())
}

pub fn every_template_literal<'a>(
    node: &'a TemplateLiteral,
    found: &mut Every<'a>,
) -> Result<(), Memory> {
    found.alone("TemplateLiteral", node)?;
    for child in &node.expressions {
        found.wait(child.get())?;
    }
    Ok(())
}

pub fn every_switch_case<'a>(node: &'a SwitchCase, found: &mut Every<'a>) -> Result<(), Memory> {
    found.alone("SwitchCase", node)?;
    if let Some(child) = &node.test {
        found.wait(child.get())?;
    }
    for child in &node.consequent {
        found.wait(child.get())?;
    }
    Ok(())
}

pub fn every_catch_clause<'a>(node: &'a CatchClause, found: &mut Every<'a>) -> Result<(), Memory> {
    found.alone("CatchClause", node)?;
    if let Some(child) = &node.param {
        found.wait(child.get())?;
    }
    every_block_statement(&node.body, found)
}

pub fn every_binding_property<'a>(
    node: &'a BindingProperty,
    found: &mut Every<'a>,
) -> Result<(), Memory> {
    found.alone("BindingProperty", node)?;
    every_property_key(&node.key, found)?;
    found.wait(node.value.get())
}

pub fn every_binding_rest_element<'a>(
    node: &'a BindingRestElement,
    found: &mut Every<'a>,
) -> Result<(), Memory> {
    found.alone("BindingRestElement", node)?;
    found.wait(node.argument.get())
}

pub fn every_assignment_target_rest<'a>(
    node: &'a AssignmentTargetRest,
    found: &mut Every<'a>,
) -> Result<(), Memory> {
    found.alone("AssignmentTargetRest", node)?;
    found.wait(node.target.get())
}

pub fn every_private_field_expression<'a>(
    node: &'a PrivateFieldExpression,
    found: &mut Every<'a>,
) -> Result<(), Memory> {
    found.at_level("PrivateFieldExpression", node)?;
    found.wait(node.object.get())?;
    found.alone("PrivateIdentifier", &*node.field)
}

pub fn every_class<'a>(node: &'a Class, found: &mut Every<'a>) -> Result<(), Memory> {
    found.alone("Class", node)?;
    if let Some(child) = &node.id {
        found.alone("BindingIdentifier", &**child)?;
    }
    if let Some(child) = &node.heritage {
        found.wait(child.get())?;
    }
    every_class_body(&node.body, found)
}

pub fn every_class_body<'a>(node: &'a ClassBody, found: &mut Every<'a>) -> Result<(), Memory> {
    found.alone("ClassBody", node)?;
    for child in &node.body {
        found.wait(child.get())?;
    }
    Ok(())
}

pub fn every_with_clause<'a>(node: &'a WithClause, found: &mut Every<'a>) -> Result<(), Memory> {
    found.alone("WithClause", node)?;
    for child in &node.entries {
        every_import_attribute(child, found)?;
    }
    Ok(())
}

pub fn every_import_attribute<'a>(
    node: &'a ImportAttribute,
    found: &mut Every<'a>,
) -> Result<(), Memory> {
    found.alone("ImportAttribute", node)?;
    every_import_attribute_key(&node.key, found)?;
    found.alone("StringLiteral", &*node.value)
}

pub fn every_export_specifier<'a>(
    node: &'a ExportSpecifier,
    found: &mut Every<'a>,
) -> Result<(), Memory> {
    found.alone("ExportSpecifier", node)?;
    every_module_export_name(&node.local, found)?;
    every_module_export_name(&node.exported, found)
}
