// Generated from tools/nodes/table.txt; edit that and run tools/nodes/generate.
// A member of a set, printed as one and as its own type, and what is in it.

use crate::every::Every;
use crate::every::sets::{
    every_export_default_declaration_kind, every_for_statement_init, every_for_statement_left,
    every_import_declaration_specifier, every_module_export_name,
};
use crate::every::types::{
    every_block_statement, every_catch_clause, every_class, every_export_specifier, every_function,
    every_switch_case, every_variable_declaration, every_with_clause,
};
use jsgen_syntax::Memory;
use jsgen_tree::{Declaration, Statement};

pub fn every_declaration<'a>(node: &'a Declaration, found: &mut Every<'a>) -> Result<(), Memory> {
    match node {
        Declaration::VariableDeclaration(node) => every_variable_declaration(node, found),
        Declaration::Function(node) => every_function(node, found),
        Declaration::Class(node) => every_class(node, found),
    }
}

pub fn every_statement<'a>(node: &'a Statement, found: &mut Every<'a>) -> Result<(), Memory> {
    found.alone("Statement", node)?;
    match node {
        Statement::Declaration(node) => found.wait(node.get()),
        Statement::ExpressionStatement(node) => {
            let node = &**node;
            found.alone("ExpressionStatement", node)?;
            found.wait(node.expression.get())
        },
        Statement::BlockStatement(node) => every_block_statement(node, found),
        Statement::IfStatement(node) => {
            let node = &**node;
            found.alone("IfStatement", node)?;
            found.wait(node.test.get())?;
            found.wait(node.consequent.get())?;
            if let Some(child) = &node.alternate {
                found.wait(child.get())?;
            }
            Ok(())
        },
        Statement::EmptyStatement(node) => found.alone("EmptyStatement", &**node),
        Statement::ForStatement(node) => {
            let node = &**node;
            found.alone("ForStatement", node)?;
            if let Some(child) = &node.init {
                every_for_statement_init(child, found)?;
            }
            if let Some(child) = &node.test {
                found.wait(child.get())?;
            }
            if let Some(child) = &node.update {
                found.wait(child.get())?;
            }
            found.wait(node.body.get())
        },
        Statement::ForInStatement(node) => {
            let node = &**node;
            found.alone("ForInStatement", node)?;
            every_for_statement_left(&node.left, found)?;
            found.wait(node.right.get())?;
            found.wait(node.body.get())
        },
        Statement::ForOfStatement(node) => {
            let node = &**node;
            found.alone("ForOfStatement", node)?;
            every_for_statement_left(&node.left, found)?;
            found.wait(node.right.get())?;
            found.wait(node.body.get())
        },
        Statement::WhileStatement(node) => {
            let node = &**node;
            found.alone("WhileStatement", node)?;
            found.wait(node.test.get())?;
            found.wait(node.body.get())
        },
        Statement::DoWhileStatement(node) => {
            let node = &**node;
            found.alone("DoWhileStatement", node)?;
            found.wait(node.body.get())?;
            found.wait(node.test.get())
        },
        Statement::LabeledStatement(node) => {
            let node = &**node;
            found.alone("LabeledStatement", node)?;
            found.alone("LabelIdentifier", &*node.label)?;
            found.wait(node.body.get())
        },
        Statement::ContinueStatement(node) => {
            let node = &**node;
            found.alone("ContinueStatement", node)?;
            if let Some(child) = &node.label {
                found.alone("LabelIdentifier", &**child)?;
            }
            Ok(())
        },
        Statement::BreakStatement(node) => {
            let node = &**node;
            found.alone("BreakStatement", node)?;
            if let Some(child) = &node.label {
                found.alone("LabelIdentifier", &**child)?;
            }
            Ok(())
        },
        Statement::ReturnStatement(node) => {
            let node = &**node;
            found.alone("ReturnStatement", node)?;
            if let Some(child) = &node.argument {
                found.wait(child.get())?;
            }
            Ok(())
        },
        Statement::ThrowStatement(node) => {
            let node = &**node;
            found.alone("ThrowStatement", node)?;
            found.wait(node.argument.get())
        },
        Statement::DebuggerStatement(node) => found.alone("DebuggerStatement", &**node),
        Statement::SwitchStatement(node) => {
            let node = &**node;
            found.alone("SwitchStatement", node)?;
            found.wait(node.discriminant.get())?;
            for child in &node.cases {
                every_switch_case(child, found)?;
            }
            Ok(())
        },
        Statement::TryStatement(node) => {
            let node = &**node;
            found.alone("TryStatement", node)?;
            every_block_statement(&node.block, found)?;
            if let Some(child) = &node.handler {
                every_catch_clause(child, found)?;
            }
            if let Some(child) = &node.finalizer {
                every_block_statement(child, found)?;
            }
            Ok(())
        },
        Statement::ImportDeclaration(node) => {
            let node = &**node;
            found.alone("ImportDeclaration", node)?;
            if let Some(children) = &node.specifiers {
                for child in children {
                    every_import_declaration_specifier(child, found)?;
                }
            }
            found.alone("StringLiteral", &*node.source)?;
            if let Some(child) = &node.with_clause {
                every_with_clause(child, found)?;
            }
            Ok(())
        },
        Statement::ExportDeclaration(node) => {
            let node = &**node;
            found.alone("ExportDeclaration", node)?;
            found.wait(node.declaration.get())
        },
        Statement::ExportNamedDeclaration(node) => {
            let node = &**node;
            found.alone("ExportNamedDeclaration", node)?;
            for child in &node.specifiers {
                every_export_specifier(child, found)?;
            }
            Ok(())
        },
        Statement::ExportFromDeclaration(node) => {
            let node = &**node;
            found.alone("ExportFromDeclaration", node)?;
            for child in &node.specifiers {
                every_export_specifier(child, found)?;
            }
            found.alone("StringLiteral", &*node.source)?;
            if let Some(child) = &node.with_clause {
                every_with_clause(child, found)?;
            }
            Ok(())
        },
        Statement::ExportAllDeclaration(node) => {
            let node = &**node;
            found.alone("ExportAllDeclaration", node)?;
            if let Some(child) = &node.exported {
                every_module_export_name(child, found)?;
            }
            found.alone("StringLiteral", &*node.source)?;
            if let Some(child) = &node.with_clause {
                every_with_clause(child, found)?;
            }
            Ok(())
        },
        Statement::ExportDefaultDeclaration(node) => {
            let node = &**node;
            found.alone("ExportDefaultDeclaration", node)?;
            every_export_default_declaration_kind(&node.declaration, found)
        },
    }
}
