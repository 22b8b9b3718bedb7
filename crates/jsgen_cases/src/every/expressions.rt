// Generated from tools/nodes/table.txt; edit that and run tools/nodes/generate.
// A member of a set, printed as one and as its own type, and what is in it.

use crate::every::Every;
use crate::every::sets::{
    every_argument, every_array_expression_element, every_arrow_function_body, every_chain_element,
    every_object_property_kind, every_simple_assignment_target,
};
use crate::every::types::{
    every_call_expression, every_class, every_computed_member_expression, every_formal_parameters,
    every_function, every_private_field_expression, every_static_member_expression,
    every_template_literal,
};
use jsgen_syntax::Memory;
use jsgen_tree::Expression;

pub fn every_expression<'a>(node: &'a Expression, found: &mut Every<'a>) -> Result<(), Memory> {
    found.at_level("Expression", node)?;
    match node {
        Expression::IdentifierReference(node) => found.alone("IdentifierReference", &**node),
        Expression::ThisExpression(node) => found.alone("ThisExpression", &**node),
        Expression::NullLiteral(node) => found.alone("NullLiteral", &**node),
        Expression::BooleanLiteral(node) => found.alone("BooleanLiteral", &**node),
        Expression::NumericLiteral(node) => found.at_level("NumericLiteral", &**node),
        Expression::BigIntLiteral(node) => found.at_level("BigIntLiteral", &**node),
        Expression::StringLiteral(node) => found.alone("StringLiteral", &**node),
        Expression::RegExpLiteral(node) => found.alone("RegExpLiteral", &**node),
        Expression::BinaryExpression(node) => {
            let node = &**node;
            found.at_level("BinaryExpression", node)?;
            found.wait(node.left.get())?;
            found.wait(node.right.get())
        },
        Expression::LogicalExpression(node) => {
            let node = &**node;
            found.at_level("LogicalExpression", node)?;
            found.wait(node.left.get())?;
            found.wait(node.right.get())
        },
        Expression::ParenthesizedExpression(node) => {
            let node = &**node;
            found.at_level("ParenthesizedExpression", node)?;
            found.wait(node.expression.get())
        },
        Expression::StaticMemberExpression(node) => every_static_member_expression(node, found),
        Expression::ComputedMemberExpression(node) => every_computed_member_expression(node, found),
        Expression::CallExpression(node) => every_call_expression(node, found),
        Expression::ChainExpression(node) => {
            let node = &**node;
            found.at_level("ChainExpression", node)?;
            every_chain_element(&node.expression, found)
        },
        Expression::ArrayExpression(node) => {
            let node = &**node;
            found.alone("ArrayExpression", node)?;
            for child in &node.elements {
                if let Some(child) = child {
                    every_array_expression_element(child, found)?;
                }
            }
            Ok(())
        },
        Expression::ObjectExpression(node) => {
            let node = &**node;
            found.at_level("ObjectExpression", node)?;
            for child in &node.properties {
                every_object_property_kind(child, found)?;
            }
            Ok(())
        },
        Expression::UnaryExpression(node) => {
            let node = &**node;
            found.at_level("UnaryExpression", node)?;
            found.wait(node.argument.get())
        },
        Expression::UpdateExpression(node) => {
            let node = &**node;
            found.at_level("UpdateExpression", node)?;
            every_simple_assignment_target(&node.argument, found)
        },
        Expression::NewExpression(node) => {
            let node = &**node;
            found.at_level("NewExpression", node)?;
            found.wait(node.callee.get())?;
            for child in &node.arguments {
                every_argument(child, found)?;
            }
            Ok(())
        },
        Expression::NewTarget(node) => found.alone("NewTarget", &**node),
        Expression::Super(node) => found.alone("Super", &**node),
        Expression::ImportMeta(node) => found.alone("ImportMeta", &**node),
        Expression::ConditionalExpression(node) => {
            let node = &**node;
            found.at_level("ConditionalExpression", node)?;
            found.wait(node.test.get())?;
            found.wait(node.consequent.get())?;
            found.wait(node.alternate.get())
        },
        Expression::SequenceExpression(node) => {
            let node = &**node;
            found.at_level("SequenceExpression", node)?;
            for child in &node.expressions {
                found.wait(child.get())?;
            }
            Ok(())
        },
        Expression::AssignmentExpression(node) => {
            let node = &**node;
            found.at_level("AssignmentExpression", node)?;
            found.wait(node.left.get())?;
            found.wait(node.right.get())
        },
        Expression::Function(node) => every_function(node, found),
        Expression::ArrowFunctionExpression(node) => {
            let node = &**node;
            found.at_level("ArrowFunctionExpression", node)?;
            every_formal_parameters(&node.params, found)?;
            every_arrow_function_body(&node.body, found)
        },
        Expression::Class(node) => every_class(node, found),
        Expression::PrivateFieldExpression(node) => every_private_field_expression(node, found),
        Expression::PrivateInExpression(node) => {
            let node = &**node;
            found.at_level("PrivateInExpression", node)?;
            found.alone("PrivateIdentifier", &*node.left)?;
            found.wait(node.right.get())
        },
        Expression::AwaitExpression(node) => {
            let node = &**node;
            found.at_level("AwaitExpression", node)?;
            found.wait(node.argument.get())
        },
        Expression::YieldExpression(node) => {
            let node = &**node;
            found.at_level("YieldExpression", node)?;
            if let Some(child) = &node.argument {
                found.wait(child.get())?;
            }
            Ok(())
        },
        Expression::TemplateLiteral(node) => every_template_literal(node, found),
        Expression::TaggedTemplateExpression(node) => {
            let node = &**node;
            found.at_level("TaggedTemplateExpression", node)?;
            found.wait(node.tag.get())?;
            every_template_literal(&node.quasi, found)
        },
        Expression::ImportExpression(node) => {
            let node = &**node;
            found.at_level("ImportExpression", node)?;
            found.wait(node.source.get())?;
            if let Some(child) = &node.options {
                found.wait(child.get())?;
            }
            Ok(())
        },
    }
}
