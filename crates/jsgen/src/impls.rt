// Generated from tools/nodes/table.txt; edit that and run tools/nodes/generate.
// What is printed by itself has `Gen`, and what is printed at a level `GenExpr`.

use crate::gens::Gen;
use crate::gens::GenExpr;
use jsgen_tree::Argument;
use jsgen_tree::ArrayAssignmentTarget;
use jsgen_tree::ArrayExpression;
use jsgen_tree::ArrayExpressionElement;
use jsgen_tree::ArrayPattern;
use jsgen_tree::ArrowFunctionExpression;
use jsgen_tree::AssignmentExpression;
use jsgen_tree::AssignmentPattern;
use jsgen_tree::AssignmentTarget;
use jsgen_tree::AssignmentTargetMaybeDefault;
use jsgen_tree::AssignmentTargetPattern;
use jsgen_tree::AssignmentTargetProperty;
use jsgen_tree::AssignmentTargetPropertyIdentifier;
use jsgen_tree::AssignmentTargetPropertyProperty;
use jsgen_tree::AssignmentTargetRest;
use jsgen_tree::AssignmentTargetWithDefault;
use jsgen_tree::AwaitExpression;
use jsgen_tree::BigIntLiteral;
use jsgen_tree::BinaryExpression;
use jsgen_tree::BindingIdentifier;
use jsgen_tree::BindingPattern;
use jsgen_tree::BindingProperty;
use jsgen_tree::BindingRestElement;
use jsgen_tree::BlockStatement;
use jsgen_tree::BooleanLiteral;
use jsgen_tree::BreakStatement;
use jsgen_tree::CallExpression;
use jsgen_tree::CatchClause;
use jsgen_tree::ChainExpression;
use jsgen_tree::Class;
use jsgen_tree::ClassBody;
use jsgen_tree::ClassElement;
use jsgen_tree::ComputedMemberExpression;
use jsgen_tree::ConditionalExpression;
use jsgen_tree::ContinueStatement;
use jsgen_tree::DebuggerStatement;
use jsgen_tree::Directive;
use jsgen_tree::DoWhileStatement;
use jsgen_tree::EmptyStatement;
use jsgen_tree::ExportAllDeclaration;
use jsgen_tree::ExportDeclaration;
use jsgen_tree::ExportDefaultDeclaration;
use jsgen_tree::ExportDefaultDeclarationKind;
use jsgen_tree::ExportFromDeclaration;
use jsgen_tree::ExportNamedDeclaration;
use jsgen_tree::ExportSpecifier;
use jsgen_tree::Expression;
use jsgen_tree::ExpressionStatement;
use jsgen_tree::ForInStatement;
use jsgen_tree::ForOfStatement;
use jsgen_tree::ForStatement;
use jsgen_tree::ForStatementInit;
use jsgen_tree::ForStatementLeft;
use jsgen_tree::FormalParameter;
use jsgen_tree::FormalParameterRest;
use jsgen_tree::FormalParameters;
use jsgen_tree::Function;
use jsgen_tree::FunctionBody;
use jsgen_tree::Hashbang;
use jsgen_tree::IdentifierName;
use jsgen_tree::IdentifierReference;
use jsgen_tree::IfStatement;
use jsgen_tree::ImportAttribute;
use jsgen_tree::ImportDeclaration;
use jsgen_tree::ImportExpression;
use jsgen_tree::ImportMeta;
use jsgen_tree::LabelIdentifier;
use jsgen_tree::LabeledStatement;
use jsgen_tree::LogicalExpression;
use jsgen_tree::MemberExpression;
use jsgen_tree::MethodDefinition;
use jsgen_tree::ModuleExportName;
use jsgen_tree::NewExpression;
use jsgen_tree::NewTarget;
use jsgen_tree::NullLiteral;
use jsgen_tree::NumericLiteral;
use jsgen_tree::ObjectAssignmentTarget;
use jsgen_tree::ObjectExpression;
use jsgen_tree::ObjectPattern;
use jsgen_tree::ObjectProperty;
use jsgen_tree::ObjectPropertyKind;
use jsgen_tree::ParenthesizedExpression;
use jsgen_tree::PrivateFieldExpression;
use jsgen_tree::PrivateIdentifier;
use jsgen_tree::PrivateInExpression;
use jsgen_tree::Program;
use jsgen_tree::PropertyDefinition;
use jsgen_tree::PropertyKey;
use jsgen_tree::RegExpLiteral;
use jsgen_tree::ReturnStatement;
use jsgen_tree::SequenceExpression;
use jsgen_tree::SimpleAssignmentTarget;
use jsgen_tree::SpreadElement;
use jsgen_tree::Statement;
use jsgen_tree::StaticBlock;
use jsgen_tree::StaticMemberExpression;
use jsgen_tree::StringLiteral;
use jsgen_tree::Super;
use jsgen_tree::SwitchCase;
use jsgen_tree::SwitchStatement;
use jsgen_tree::TaggedTemplateExpression;
use jsgen_tree::TemplateLiteral;
use jsgen_tree::ThisExpression;
use jsgen_tree::ThrowStatement;
use jsgen_tree::TryStatement;
use jsgen_tree::UnaryExpression;
use jsgen_tree::UpdateExpression;
use jsgen_tree::VariableDeclaration;
use jsgen_tree::VariableDeclarator;
use jsgen_tree::WhileStatement;
use jsgen_tree::WithClause;
use jsgen_tree::YieldExpression;

impl Gen for Program {}

impl Gen for Directive {}

impl Gen for VariableDeclaration {}

impl Gen for VariableDeclarator {}

impl Gen for BindingIdentifier {}

impl Gen for ExpressionStatement {}

impl Gen for BlockStatement {}

impl Gen for IfStatement {}

impl Gen for EmptyStatement {}

impl Gen for IdentifierReference {}

impl Gen for ThisExpression {}

impl Gen for NullLiteral {}

impl Gen for BooleanLiteral {}

impl GenExpr for NumericLiteral {}

impl GenExpr for BigIntLiteral {}

impl Gen for StringLiteral {}

impl Gen for RegExpLiteral {}

impl GenExpr for ParenthesizedExpression {}

impl GenExpr for BinaryExpression {}

impl GenExpr for LogicalExpression {}

impl Gen for IdentifierName {}

impl GenExpr for StaticMemberExpression {}

impl GenExpr for ComputedMemberExpression {}

impl GenExpr for CallExpression {}

impl GenExpr for ChainExpression {}

impl Gen for SpreadElement {}

impl Gen for ArrayExpression {}

impl Gen for ObjectProperty {}

impl GenExpr for ObjectExpression {}

impl GenExpr for UnaryExpression {}

impl Gen for NewTarget {}

impl GenExpr for UpdateExpression {}

impl GenExpr for NewExpression {}

impl Gen for Super {}

impl Gen for ImportMeta {}

impl GenExpr for ConditionalExpression {}

impl GenExpr for SequenceExpression {}

impl GenExpr for AssignmentExpression {}

impl Gen for FormalParameter {}

impl Gen for FormalParameterRest {}

impl Gen for FormalParameters {}

impl Gen for Function {}

impl Gen for FunctionBody {}

impl GenExpr for ArrowFunctionExpression {}

impl GenExpr for AwaitExpression {}

impl GenExpr for YieldExpression {}

impl Gen for TemplateLiteral {}

impl GenExpr for TaggedTemplateExpression {}

impl GenExpr for ImportExpression {}

impl Gen for ForStatement {}

impl Gen for ForInStatement {}

impl Gen for ForOfStatement {}

impl Gen for WhileStatement {}

impl Gen for DoWhileStatement {}

impl Gen for LabelIdentifier {}

impl Gen for LabeledStatement {}

impl Gen for ContinueStatement {}

impl Gen for BreakStatement {}

impl Gen for ReturnStatement {}

impl Gen for ThrowStatement {}

impl Gen for DebuggerStatement {}

impl Gen for SwitchStatement {}

impl Gen for SwitchCase {}

impl Gen for TryStatement {}

impl Gen for CatchClause {}

impl Gen for ObjectPattern {}

impl Gen for BindingProperty {}

impl Gen for BindingRestElement {}

impl Gen for ArrayPattern {}

impl Gen for AssignmentPattern {}

impl Gen for ArrayAssignmentTarget {}

impl Gen for ObjectAssignmentTarget {}

impl Gen for AssignmentTargetWithDefault {}

impl Gen for AssignmentTargetPropertyIdentifier {}

impl Gen for AssignmentTargetPropertyProperty {}

impl Gen for AssignmentTargetRest {}

impl Gen for PrivateIdentifier {}

impl GenExpr for PrivateFieldExpression {}

impl GenExpr for PrivateInExpression {}

impl Gen for Class {}

impl Gen for ClassBody {}

impl Gen for StaticBlock {}

impl Gen for MethodDefinition {}

impl Gen for PropertyDefinition {}

impl Gen for Hashbang {}

impl Gen for ImportDeclaration {}

impl Gen for WithClause {}

impl Gen for ImportAttribute {}

impl Gen for ExportDeclaration {}

impl Gen for ExportNamedDeclaration {}

impl Gen for ExportFromDeclaration {}

impl Gen for ExportSpecifier {}

impl Gen for ExportAllDeclaration {}

impl Gen for ExportDefaultDeclaration {}

impl GenExpr for Expression {}

impl Gen for Argument {}

impl Gen for ArrayExpressionElement {}

impl GenExpr for MemberExpression {}

impl GenExpr for SimpleAssignmentTarget {}

impl Gen for AssignmentTargetPattern {}

impl Gen for AssignmentTarget {}

impl Gen for AssignmentTargetMaybeDefault {}

impl Gen for AssignmentTargetProperty {}

impl Gen for ForStatementInit {}

impl Gen for ForStatementLeft {}

impl Gen for ObjectPropertyKind {}

impl Gen for PropertyKey {}

impl Gen for Statement {}

impl Gen for BindingPattern {}

impl Gen for ClassElement {}

impl Gen for ModuleExportName {}

impl Gen for ExportDefaultDeclarationKind {}
