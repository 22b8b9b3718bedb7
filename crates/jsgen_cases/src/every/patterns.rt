// Generated from tools/nodes/table.txt; edit that and run tools/nodes/generate.
// A member of a set, printed as one and as its own type, and what is in it.

use crate::every::Every;
use crate::every::sets::{every_assignment_target_maybe_default, every_assignment_target_property};
use crate::every::types::{
    every_assignment_target_rest, every_binding_property, every_binding_rest_element,
    every_computed_member_expression, every_private_field_expression,
    every_static_member_expression,
};
use jsgen_syntax::Memory;
use jsgen_tree::{AssignmentTarget, BindingPattern};

pub fn every_assignment_target<'a>(
    node: &'a AssignmentTarget,
    found: &mut Every<'a>,
) -> Result<(), Memory> {
    found.alone("AssignmentTarget", node)?;
    match node {
        AssignmentTarget::IdentifierReference(node) => found.alone("IdentifierReference", &**node),
        AssignmentTarget::StaticMemberExpression(node) => every_static_member_expression(
            node, found,
        ),
        AssignmentTarget::ComputedMemberExpression(node) => every_computed_member_expression(
            node, found,
        ),
        AssignmentTarget::PrivateFieldExpression(node) => every_private_field_expression(
            node, found,
        ),
        AssignmentTarget::ArrayAssignmentTarget(node) => {
            let node = &**node;
            found.alone("ArrayAssignmentTarget", node)?;
            for child in &node.elements {
                if let Some(child) = child {
                    every_assignment_target_maybe_default(child, found)?;
                }
            }
            if let Some(child) = &node.rest {
                every_assignment_target_rest(child, found)?;
            }
            Ok(())
        },
        AssignmentTarget::ObjectAssignmentTarget(node) => {
            let node = &**node;
            found.alone("ObjectAssignmentTarget", node)?;
            for child in &node.properties {
                every_assignment_target_property(child, found)?;
            }
            if let Some(child) = &node.rest {
                every_assignment_target_rest(child, found)?;
            }
            Ok(())
        },
    }
}

pub fn every_binding_pattern<'a>(
    node: &'a BindingPattern,
    found: &mut Every<'a>,
) -> Result<(), Memory> {
    found.alone("BindingPattern", node)?;
    match node {
        BindingPattern::BindingIdentifier(node) => found.alone("BindingIdentifier", &**node),
        BindingPattern::ObjectPattern(node) => {
            let node = &**node;
            found.alone("ObjectPattern", node)?;
            for child in &node.properties {
                every_binding_property(child, found)?;
            }
            if let Some(child) = &node.rest {
                every_binding_rest_element(child, found)?;
            }
            Ok(())
        },
        BindingPattern::ArrayPattern(node) => {
            let node = &**node;
            found.alone("ArrayPattern", node)?;
            for child in &node.elements {
                if let Some(child) = child {
                    found.wait(child.get())?;
                }
            }
            if let Some(child) = &node.rest {
                every_binding_rest_element(child, found)?;
            }
            Ok(())
        },
        BindingPattern::AssignmentPattern(node) => {
            let node = &**node;
            found.alone("AssignmentPattern", node)?;
            found.wait(node.left.get())?;
            found.wait(node.right.get())
        },
    }
}
