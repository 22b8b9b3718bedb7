// Generated from tools/nodes/table.txt; edit that and run tools/nodes/generate.
// A member of a set, printed as one and as its own type, and what is in it.

use crate::every::Every;
use crate::every::sets::every_property_key;
use crate::every::types::every_function;
use jsgen_syntax::Memory;
use jsgen_tree::ClassElement;

pub fn every_class_element<'a>(
    node: &'a ClassElement,
    found: &mut Every<'a>,
) -> Result<(), Memory> {
    found.alone("ClassElement", node)?;
    match node {
        ClassElement::StaticBlock(node) => {
            let node = &**node;
            found.alone("StaticBlock", node)?;
            for child in &node.body {
                found.wait(child.get())?;
            }
            Ok(())
        },
        ClassElement::MethodDefinition(node) => {
            let node = &**node;
            found.alone("MethodDefinition", node)?;
            every_property_key(&node.key, found)?;
            every_function(&node.value, found)
        },
        ClassElement::PropertyDefinition(node) => {
            let node = &**node;
            found.alone("PropertyDefinition", node)?;
            every_property_key(&node.key, found)?;
            if let Some(child) = &node.value {
                found.wait(child.get())?;
            }
            Ok(())
        },
    }
}
