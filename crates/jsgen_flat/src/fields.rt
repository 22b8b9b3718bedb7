// Generated from tools/nodes/table.txt; edit that and run tools/nodes/generate.
// The fields of each type, in the order in which a flat job has their words.
ghost use Rattle.std.specs.Prelude.{◌≡◌, map};
ghost use Rattle.jsgen_tree.specs.Fields.{fields};
ghost use Rattle.jsgen_flat.specs.Flat.{shaped};
ghost use Rattle.jsgen_flat.specs.Views.{field_plain};

use crate::fields::assignments::{
    ASSIGNMENT_EXPRESSION, CONDITIONAL_EXPRESSION, SEQUENCE_EXPRESSION,
};
use crate::fields::choices::{CATCH_CLAUSE, SWITCH_CASE, SWITCH_STATEMENT, TRY_STATEMENT};
use crate::fields::classes::{
    CLASS, CLASS_BODY, METHOD_DEFINITION, PRIVATE_FIELD_EXPRESSION, PRIVATE_IDENTIFIER,
    PRIVATE_IN_EXPRESSION, PROPERTY_DEFINITION, STATIC_BLOCK,
};
use crate::fields::collections::{
    ARRAY_EXPRESSION, OBJECT_EXPRESSION, OBJECT_PROPERTY, SPREAD_ELEMENT,
};
use crate::fields::expressions::{
    BIG_INT_LITERAL, BINARY_EXPRESSION, BOOLEAN_LITERAL, CALL_EXPRESSION, CHAIN_EXPRESSION,
    COMPUTED_MEMBER_EXPRESSION, IDENTIFIER_NAME, IDENTIFIER_REFERENCE, LOGICAL_EXPRESSION,
    NUMERIC_LITERAL, PARENTHESIZED_EXPRESSION, REG_EXP_LITERAL, STATIC_MEMBER_EXPRESSION,
    STRING_LITERAL,
};
use crate::fields::functions::{
    ARROW_FUNCTION_EXPRESSION, AWAIT_EXPRESSION, FORMAL_PARAMETER, FORMAL_PARAMETER_REST,
    FORMAL_PARAMETERS, FUNCTION, FUNCTION_BODY, YIELD_EXPRESSION,
};
use crate::fields::loops::{
    BREAK_STATEMENT, CONTINUE_STATEMENT, DO_WHILE_STATEMENT, FOR_IN_STATEMENT, FOR_OF_STATEMENT,
    FOR_STATEMENT, LABEL_IDENTIFIER, LABELED_STATEMENT, RETURN_STATEMENT, THROW_STATEMENT,
    WHILE_STATEMENT,
};
use crate::fields::modules::{
    EXPORT_ALL_DECLARATION, EXPORT_DECLARATION, EXPORT_DEFAULT_DECLARATION,
    EXPORT_FROM_DECLARATION, EXPORT_NAMED_DECLARATION, EXPORT_SPECIFIER, HASHBANG,
    IMPORT_ATTRIBUTE, IMPORT_DECLARATION, IMPORT_DEFAULT_SPECIFIER, IMPORT_NAMESPACE_SPECIFIER,
    IMPORT_SPECIFIER, WITH_CLAUSE,
};
use crate::fields::operations::{NEW_EXPRESSION, UNARY_EXPRESSION, UPDATE_EXPRESSION};
use crate::fields::patterns::{
    ARRAY_PATTERN, ASSIGNMENT_PATTERN, BINDING_PROPERTY, BINDING_REST_ELEMENT, OBJECT_PATTERN,
};
use crate::fields::statements::{
    BINDING_IDENTIFIER, BLOCK_STATEMENT, COMMENT, DIRECTIVE, EXPRESSION_STATEMENT, IF_STATEMENT,
    PROGRAM, VARIABLE_DECLARATION, VARIABLE_DECLARATOR,
};
use crate::fields::targets::{
    ARRAY_ASSIGNMENT_TARGET, ASSIGNMENT_TARGET_PROPERTY_IDENTIFIER,
    ASSIGNMENT_TARGET_PROPERTY_PROPERTY, ASSIGNMENT_TARGET_REST, ASSIGNMENT_TARGET_WITH_DEFAULT,
    OBJECT_ASSIGNMENT_TARGET,
};
use crate::fields::templates::{
    IMPORT_EXPRESSION, TAGGED_TEMPLATE_EXPRESSION, TEMPLATE_ELEMENT, TEMPLATE_LITERAL,
};
use crate::names::FlatField;
use jsgen_tree::NodeType;

mod assignments;
mod choices;
mod classes;
mod collections;
mod expressions;
mod functions;
mod loops;
mod modules;
mod operations;
mod patterns;
mod statements;
mod targets;
mod templates;

/// The fields of a type, in their order.
pub fn fields_of(node_type: NodeType) -> &'static [FlatField]
    ensures { map field_plain result.now ≡ map shaped (fields node_type) }
{
    match node_type {
        NodeType::Program => &PROGRAM,
        NodeType::Comment => &COMMENT,
        NodeType::Directive => &DIRECTIVE,
        NodeType::VariableDeclaration => &VARIABLE_DECLARATION,
        NodeType::VariableDeclarator => &VARIABLE_DECLARATOR,
        NodeType::BindingIdentifier => &BINDING_IDENTIFIER,
        NodeType::ExpressionStatement => &EXPRESSION_STATEMENT,
        NodeType::BlockStatement => &BLOCK_STATEMENT,
        NodeType::IfStatement => &IF_STATEMENT,
        NodeType::EmptyStatement => &[],
        NodeType::IdentifierReference => &IDENTIFIER_REFERENCE,
        NodeType::ThisExpression => &[],
        NodeType::NullLiteral => &[],
        NodeType::BooleanLiteral => &BOOLEAN_LITERAL,
        NodeType::NumericLiteral => &NUMERIC_LITERAL,
        NodeType::BigIntLiteral => &BIG_INT_LITERAL,
        NodeType::StringLiteral => &STRING_LITERAL,
        NodeType::RegExpLiteral => &REG_EXP_LITERAL,
        NodeType::ParenthesizedExpression => &PARENTHESIZED_EXPRESSION,
        NodeType::BinaryExpression => &BINARY_EXPRESSION,
        NodeType::LogicalExpression => &LOGICAL_EXPRESSION,
        NodeType::IdentifierName => &IDENTIFIER_NAME,
        NodeType::StaticMemberExpression => &STATIC_MEMBER_EXPRESSION,
        NodeType::ComputedMemberExpression => &COMPUTED_MEMBER_EXPRESSION,
        NodeType::CallExpression => &CALL_EXPRESSION,
        NodeType::ChainExpression => &CHAIN_EXPRESSION,
        NodeType::SpreadElement => &SPREAD_ELEMENT,
        NodeType::ArrayExpression => &ARRAY_EXPRESSION,
        NodeType::ObjectProperty => &OBJECT_PROPERTY,
        NodeType::ObjectExpression => &OBJECT_EXPRESSION,
        NodeType::UnaryExpression => &UNARY_EXPRESSION,
        NodeType::NewTarget => &[],
        NodeType::UpdateExpression => &UPDATE_EXPRESSION,
        NodeType::NewExpression => &NEW_EXPRESSION,
        NodeType::Super => &[],
        NodeType::ImportMeta => &[],
        NodeType::ConditionalExpression => &CONDITIONAL_EXPRESSION,
        NodeType::SequenceExpression => &SEQUENCE_EXPRESSION,
        NodeType::AssignmentExpression => &ASSIGNMENT_EXPRESSION,
        NodeType::FormalParameter => &FORMAL_PARAMETER,
        NodeType::FormalParameterRest => &FORMAL_PARAMETER_REST,
        NodeType::FormalParameters => &FORMAL_PARAMETERS,
        NodeType::Function => &FUNCTION,
        NodeType::FunctionBody => &FUNCTION_BODY,
        NodeType::ArrowFunctionExpression => &ARROW_FUNCTION_EXPRESSION,
        NodeType::AwaitExpression => &AWAIT_EXPRESSION,
        NodeType::YieldExpression => &YIELD_EXPRESSION,
        NodeType::TemplateElement => &TEMPLATE_ELEMENT,
        NodeType::TemplateLiteral => &TEMPLATE_LITERAL,
        NodeType::TaggedTemplateExpression => &TAGGED_TEMPLATE_EXPRESSION,
        NodeType::ImportExpression => &IMPORT_EXPRESSION,
        NodeType::ForStatement => &FOR_STATEMENT,
        NodeType::ForInStatement => &FOR_IN_STATEMENT,
        NodeType::ForOfStatement => &FOR_OF_STATEMENT,
        NodeType::WhileStatement => &WHILE_STATEMENT,
        NodeType::DoWhileStatement => &DO_WHILE_STATEMENT,
        NodeType::LabelIdentifier => &LABEL_IDENTIFIER,
        NodeType::LabeledStatement => &LABELED_STATEMENT,
        NodeType::ContinueStatement => &CONTINUE_STATEMENT,
        NodeType::BreakStatement => &BREAK_STATEMENT,
        NodeType::ReturnStatement => &RETURN_STATEMENT,
        NodeType::ThrowStatement => &THROW_STATEMENT,
        NodeType::DebuggerStatement => &[],
        NodeType::SwitchStatement => &SWITCH_STATEMENT,
        NodeType::SwitchCase => &SWITCH_CASE,
        NodeType::TryStatement => &TRY_STATEMENT,
        NodeType::CatchClause => &CATCH_CLAUSE,
        NodeType::ObjectPattern => &OBJECT_PATTERN,
        NodeType::BindingProperty => &BINDING_PROPERTY,
        NodeType::BindingRestElement => &BINDING_REST_ELEMENT,
        NodeType::ArrayPattern => &ARRAY_PATTERN,
        NodeType::AssignmentPattern => &ASSIGNMENT_PATTERN,
        NodeType::ArrayAssignmentTarget => &ARRAY_ASSIGNMENT_TARGET,
        NodeType::ObjectAssignmentTarget => &OBJECT_ASSIGNMENT_TARGET,
        NodeType::AssignmentTargetWithDefault => &ASSIGNMENT_TARGET_WITH_DEFAULT,
        NodeType::AssignmentTargetPropertyIdentifier => &ASSIGNMENT_TARGET_PROPERTY_IDENTIFIER,
        NodeType::AssignmentTargetPropertyProperty => &ASSIGNMENT_TARGET_PROPERTY_PROPERTY,
        NodeType::AssignmentTargetRest => &ASSIGNMENT_TARGET_REST,
        NodeType::PrivateIdentifier => &PRIVATE_IDENTIFIER,
        NodeType::PrivateFieldExpression => &PRIVATE_FIELD_EXPRESSION,
        NodeType::PrivateInExpression => &PRIVATE_IN_EXPRESSION,
        NodeType::Class => &CLASS,
        NodeType::ClassBody => &CLASS_BODY,
        NodeType::StaticBlock => &STATIC_BLOCK,
        NodeType::MethodDefinition => &METHOD_DEFINITION,
        NodeType::PropertyDefinition => &PROPERTY_DEFINITION,
        NodeType::Hashbang => &HASHBANG,
        NodeType::ImportDeclaration => &IMPORT_DECLARATION,
        NodeType::ImportDefaultSpecifier => &IMPORT_DEFAULT_SPECIFIER,
        NodeType::ImportNamespaceSpecifier => &IMPORT_NAMESPACE_SPECIFIER,
        NodeType::ImportSpecifier => &IMPORT_SPECIFIER,
        NodeType::WithClause => &WITH_CLAUSE,
        NodeType::ImportAttribute => &IMPORT_ATTRIBUTE,
        NodeType::ExportDeclaration => &EXPORT_DECLARATION,
        NodeType::ExportNamedDeclaration => &EXPORT_NAMED_DECLARATION,
        NodeType::ExportFromDeclaration => &EXPORT_FROM_DECLARATION,
        NodeType::ExportSpecifier => &EXPORT_SPECIFIER,
        NodeType::ExportAllDeclaration => &EXPORT_ALL_DECLARATION,
        NodeType::ExportDefaultDeclaration => &EXPORT_DEFAULT_DECLARATION,
    }
}
