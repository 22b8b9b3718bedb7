// Generated from tools/nodes/table.txt; edit that and run tools/nodes/generate.
// Sets: what may stand in one place. A set within a set is one variant of the inner one's name.

use crate::assignments::{AssignmentExpression, ConditionalExpression, SequenceExpression};
use crate::choices::{SwitchStatement, TryStatement};
use crate::classes::{
    Class, MethodDefinition, PrivateFieldExpression, PrivateIdentifier, PrivateInExpression,
    PropertyDefinition, StaticBlock,
};
use crate::collections::{ArrayExpression, ObjectExpression, ObjectProperty, SpreadElement};
use crate::expressions::{
    BigIntLiteral, BinaryExpression, BooleanLiteral, CallExpression, ChainExpression,
    ComputedMemberExpression, IdentifierName, IdentifierReference, LogicalExpression, NullLiteral,
    NumericLiteral, ParenthesizedExpression, RegExpLiteral, StaticMemberExpression, StringLiteral,
    ThisExpression,
};
use crate::functions::{
    ArrowFunctionExpression, AwaitExpression, Function, FunctionBody, YieldExpression,
};
use crate::loops::{
    BreakStatement, ContinueStatement, DebuggerStatement, DoWhileStatement, ForInStatement,
    ForOfStatement, ForStatement, LabeledStatement, ReturnStatement, ThrowStatement,
    WhileStatement,
};
use crate::modules::{
    ExportAllDeclaration, ExportDeclaration, ExportDefaultDeclaration, ExportFromDeclaration,
    ExportNamedDeclaration, ImportDeclaration, ImportDefaultSpecifier, ImportNamespaceSpecifier,
    ImportSpecifier,
};
use crate::nodes::{AssignmentTargetNode, DeclarationNode, ExpressionNode, Node};
use crate::operations::{
    ImportMeta, NewExpression, NewTarget, Super, UnaryExpression, UpdateExpression,
};
use crate::patterns::{ArrayPattern, AssignmentPattern, ObjectPattern};
use crate::statements::{
    BindingIdentifier, BlockStatement, EmptyStatement, ExpressionStatement, IfStatement,
    VariableDeclaration,
};
use crate::targets::{
    ArrayAssignmentTarget, AssignmentTargetPropertyIdentifier, AssignmentTargetPropertyProperty,
    AssignmentTargetWithDefault, ObjectAssignmentTarget,
};
use crate::templates::{ImportExpression, TaggedTemplateExpression, TemplateLiteral};

#[derive(Drop)]
pub enum Expression<N = Node> {
    IdentifierReference(Box<IdentifierReference>),
    ThisExpression(Box<ThisExpression>),
    NullLiteral(Box<NullLiteral>),
    BooleanLiteral(Box<BooleanLiteral>),
    NumericLiteral(Box<NumericLiteral>),
    BigIntLiteral(Box<BigIntLiteral>),
    StringLiteral(Box<StringLiteral>),
    RegExpLiteral(Box<RegExpLiteral>),
    BinaryExpression(Box<BinaryExpression<N>>),
    LogicalExpression(Box<LogicalExpression<N>>),
    ParenthesizedExpression(Box<ParenthesizedExpression<N>>),
    StaticMemberExpression(Box<StaticMemberExpression<N>>),
    ComputedMemberExpression(Box<ComputedMemberExpression<N>>),
    CallExpression(Box<CallExpression<N>>),
    ChainExpression(Box<ChainExpression<N>>),
    ArrayExpression(Box<ArrayExpression<N>>),
    ObjectExpression(Box<ObjectExpression<N>>),
    UnaryExpression(Box<UnaryExpression<N>>),
    UpdateExpression(Box<UpdateExpression<N>>),
    NewExpression(Box<NewExpression<N>>),
    NewTarget(Box<NewTarget>),
    Super(Box<Super>),
    ImportMeta(Box<ImportMeta>),
    ConditionalExpression(Box<ConditionalExpression<N>>),
    SequenceExpression(Box<SequenceExpression<N>>),
    AssignmentExpression(Box<AssignmentExpression<N>>),
    Function(Box<Function<N>>),
    ArrowFunctionExpression(Box<ArrowFunctionExpression<N>>),
    Class(Box<Class<N>>),
    PrivateFieldExpression(Box<PrivateFieldExpression<N>>),
    PrivateInExpression(Box<PrivateInExpression<N>>),
    AwaitExpression(Box<AwaitExpression<N>>),
    YieldExpression(Box<YieldExpression<N>>),
    TemplateLiteral(Box<TemplateLiteral<N>>),
    TaggedTemplateExpression(Box<TaggedTemplateExpression<N>>),
    ImportExpression(Box<ImportExpression<N>>),
}

/// What a call is given.
#[derive(Drop)]
pub enum Argument<N = Node> {
    SpreadElement(Box<SpreadElement<N>>),
    Expression(Box<ExpressionNode<N>>),
}

/// What may stand in an array.
#[derive(Drop)]
pub enum ArrayExpressionElement<N = Node> {
    SpreadElement(Box<SpreadElement<N>>),
    Expression(Box<ExpressionNode<N>>),
}

/// The last link of a chain.
#[derive(Drop)]
pub enum ChainElement<N = Node> {
    StaticMemberExpression(Box<StaticMemberExpression<N>>),
    ComputedMemberExpression(Box<ComputedMemberExpression<N>>),
    PrivateFieldExpression(Box<PrivateFieldExpression<N>>),
    CallExpression(Box<CallExpression<N>>),
}

/// A member of an object, which a link goes on from.
#[derive(Drop)]
pub enum MemberExpression<N = Node> {
    StaticMemberExpression(Box<StaticMemberExpression<N>>),
    ComputedMemberExpression(Box<ComputedMemberExpression<N>>),
    PrivateFieldExpression(Box<PrivateFieldExpression<N>>),
}

/// What may be changed as it stands.
#[derive(Drop)]
pub enum SimpleAssignmentTarget<N = Node> {
    IdentifierReference(Box<IdentifierReference>),
    StaticMemberExpression(Box<StaticMemberExpression<N>>),
    ComputedMemberExpression(Box<ComputedMemberExpression<N>>),
    PrivateFieldExpression(Box<PrivateFieldExpression<N>>),
}

/// What may be given several values.
#[derive(Drop)]
pub enum AssignmentTargetPattern<N = Node> {
    ArrayAssignmentTarget(Box<ArrayAssignmentTarget<N>>),
    ObjectAssignmentTarget(Box<ObjectAssignmentTarget<N>>),
}

#[derive(Drop)]
pub enum AssignmentTarget<N = Node> {
    IdentifierReference(Box<IdentifierReference>),
    StaticMemberExpression(Box<StaticMemberExpression<N>>),
    ComputedMemberExpression(Box<ComputedMemberExpression<N>>),
    PrivateFieldExpression(Box<PrivateFieldExpression<N>>),
    ArrayAssignmentTarget(Box<ArrayAssignmentTarget<N>>),
    ObjectAssignmentTarget(Box<ObjectAssignmentTarget<N>>),
}

/// A target, maybe with a default.
#[derive(Drop)]
pub enum AssignmentTargetMaybeDefault<N = Node> {
    AssignmentTarget(Box<AssignmentTargetNode<N>>),
    AssignmentTargetWithDefault(Box<AssignmentTargetWithDefault<N>>),
}

/// A property of a pattern that is given values.
#[derive(Drop)]
pub enum AssignmentTargetProperty<N = Node> {
    AssignmentTargetPropertyIdentifier(Box<AssignmentTargetPropertyIdentifier<N>>),
    AssignmentTargetPropertyProperty(Box<AssignmentTargetPropertyProperty<N>>),
}

/// What an arrow function does: its statements, or an expression whose value is the result.
#[derive(Drop)]
pub enum ArrowFunctionBody<N = Node> {
    FunctionBody(Box<FunctionBody<N>>),
    Expression(Box<ExpressionNode<N>>),
}

/// What is done before a loop.
#[derive(Drop)]
pub enum ForStatementInit<N = Node> {
    VariableDeclaration(Box<VariableDeclaration<N>>),
    Expression(Box<ExpressionNode<N>>),
}

/// What a loop gives each of its values: a binding, or what may be given a value.
#[derive(Drop)]
pub enum ForStatementLeft<N = Node> {
    VariableDeclaration(Box<VariableDeclaration<N>>),
    AssignmentTarget(Box<AssignmentTargetNode<N>>),
}

/// What may stand in an object.
#[derive(Drop)]
pub enum ObjectPropertyKind<N = Node> {
    ObjectProperty(Box<ObjectProperty<N>>),
    SpreadElement(Box<SpreadElement<N>>),
}

/// What a property is known by.
#[derive(Drop)]
pub enum PropertyKey<N = Node> {
    IdentifierName(Box<IdentifierName>),
    PrivateIdentifier(Box<PrivateIdentifier>),
    Expression(Box<ExpressionNode<N>>),
}

#[derive(Drop)]
pub enum Declaration<N = Node> {
    VariableDeclaration(Box<VariableDeclaration<N>>),
    Function(Box<Function<N>>),
    Class(Box<Class<N>>),
}

#[derive(Drop)]
pub enum Statement<N = Node> {
    Declaration(Box<DeclarationNode<N>>),
    ExpressionStatement(Box<ExpressionStatement<N>>),
    BlockStatement(Box<BlockStatement<N>>),
    IfStatement(Box<IfStatement<N>>),
    EmptyStatement(Box<EmptyStatement>),
    ForStatement(Box<ForStatement<N>>),
    ForInStatement(Box<ForInStatement<N>>),
    ForOfStatement(Box<ForOfStatement<N>>),
    WhileStatement(Box<WhileStatement<N>>),
    DoWhileStatement(Box<DoWhileStatement<N>>),
    LabeledStatement(Box<LabeledStatement<N>>),
    ContinueStatement(Box<ContinueStatement>),
    BreakStatement(Box<BreakStatement>),
    ReturnStatement(Box<ReturnStatement<N>>),
    ThrowStatement(Box<ThrowStatement<N>>),
    DebuggerStatement(Box<DebuggerStatement>),
    SwitchStatement(Box<SwitchStatement<N>>),
    TryStatement(Box<TryStatement<N>>),
    ImportDeclaration(Box<ImportDeclaration>),
    ExportDeclaration(Box<ExportDeclaration<N>>),
    ExportNamedDeclaration(Box<ExportNamedDeclaration>),
    ExportFromDeclaration(Box<ExportFromDeclaration>),
    ExportAllDeclaration(Box<ExportAllDeclaration>),
    ExportDefaultDeclaration(Box<ExportDefaultDeclaration<N>>),
}

#[derive(Drop)]
pub enum BindingPattern<N = Node> {
    BindingIdentifier(Box<BindingIdentifier>),
    ObjectPattern(Box<ObjectPattern<N>>),
    ArrayPattern(Box<ArrayPattern<N>>),
    AssignmentPattern(Box<AssignmentPattern<N>>),
}

#[derive(Drop)]
pub enum ClassElement<N = Node> {
    StaticBlock(Box<StaticBlock<N>>),
    MethodDefinition(Box<MethodDefinition<N>>),
    PropertyDefinition(Box<PropertyDefinition<N>>),
}

/// What an export is known by, or what is exported.
#[derive(Drop)]
pub enum ModuleExportName {
    IdentifierName(Box<IdentifierName>),
    IdentifierReference(Box<IdentifierReference>),
    StringLiteral(Box<StringLiteral>),
}

/// What is imported of a module.
#[derive(Drop)]
pub enum ImportDeclarationSpecifier {
    ImportDefaultSpecifier(Box<ImportDefaultSpecifier>),
    ImportNamespaceSpecifier(Box<ImportNamespaceSpecifier>),
    ImportSpecifier(Box<ImportSpecifier>),
}

/// What an attribute is known by.
#[derive(Drop)]
pub enum ImportAttributeKey {
    IdentifierName(Box<IdentifierName>),
    StringLiteral(Box<StringLiteral>),
}

/// What is exported by default: a function or a class that is declared, or an expression. A function or a class of kind `expression` is an expression.
#[derive(Drop)]
pub enum ExportDefaultDeclarationKind<N = Node> {
    Function(Box<Function<N>>),
    Class(Box<Class<N>>),
    Expression(Box<ExpressionNode<N>>),
}
