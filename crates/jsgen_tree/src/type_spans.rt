// Generated from tools/nodes/table.txt; edit that and run tools/nodes/generate.
// The span of each type of node.

use crate::assignments::AssignmentExpression;
use crate::assignments::ConditionalExpression;
use crate::assignments::SequenceExpression;
use crate::choices::CatchClause;
use crate::choices::SwitchCase;
use crate::choices::SwitchStatement;
use crate::choices::TryStatement;
use crate::classes::Class;
use crate::classes::ClassBody;
use crate::classes::MethodDefinition;
use crate::classes::PrivateFieldExpression;
use crate::classes::PrivateIdentifier;
use crate::classes::PrivateInExpression;
use crate::classes::PropertyDefinition;
use crate::classes::StaticBlock;
use crate::collections::ArrayExpression;
use crate::collections::ObjectExpression;
use crate::collections::ObjectProperty;
use crate::collections::SpreadElement;
use crate::expressions::BigIntLiteral;
use crate::expressions::BinaryExpression;
use crate::expressions::BooleanLiteral;
use crate::expressions::CallExpression;
use crate::expressions::ChainExpression;
use crate::expressions::ComputedMemberExpression;
use crate::expressions::IdentifierName;
use crate::expressions::IdentifierReference;
use crate::expressions::LogicalExpression;
use crate::expressions::NullLiteral;
use crate::expressions::NumericLiteral;
use crate::expressions::ParenthesizedExpression;
use crate::expressions::RegExpLiteral;
use crate::expressions::StaticMemberExpression;
use crate::expressions::StringLiteral;
use crate::expressions::ThisExpression;
use crate::functions::ArrowFunctionExpression;
use crate::functions::AwaitExpression;
use crate::functions::FormalParameter;
use crate::functions::FormalParameterRest;
use crate::functions::FormalParameters;
use crate::functions::Function;
use crate::functions::FunctionBody;
use crate::functions::YieldExpression;
use crate::loops::BreakStatement;
use crate::loops::ContinueStatement;
use crate::loops::DebuggerStatement;
use crate::loops::DoWhileStatement;
use crate::loops::ForInStatement;
use crate::loops::ForOfStatement;
use crate::loops::ForStatement;
use crate::loops::LabelIdentifier;
use crate::loops::LabeledStatement;
use crate::loops::ReturnStatement;
use crate::loops::ThrowStatement;
use crate::loops::WhileStatement;
use crate::modules::ExportAllDeclaration;
use crate::modules::ExportDeclaration;
use crate::modules::ExportDefaultDeclaration;
use crate::modules::ExportFromDeclaration;
use crate::modules::ExportNamedDeclaration;
use crate::modules::ExportSpecifier;
use crate::modules::Hashbang;
use crate::modules::ImportAttribute;
use crate::modules::ImportDeclaration;
use crate::modules::ImportDefaultSpecifier;
use crate::modules::ImportNamespaceSpecifier;
use crate::modules::ImportSpecifier;
use crate::modules::WithClause;
use crate::operations::ImportMeta;
use crate::operations::NewExpression;
use crate::operations::NewTarget;
use crate::operations::Super;
use crate::operations::UnaryExpression;
use crate::operations::UpdateExpression;
use crate::patterns::ArrayPattern;
use crate::patterns::AssignmentPattern;
use crate::patterns::BindingProperty;
use crate::patterns::BindingRestElement;
use crate::patterns::ObjectPattern;
use crate::span::GetSpan;
use crate::statements::BindingIdentifier;
use crate::statements::BlockStatement;
use crate::statements::Comment;
use crate::statements::Directive;
use crate::statements::EmptyStatement;
use crate::statements::ExpressionStatement;
use crate::statements::IfStatement;
use crate::statements::Program;
use crate::statements::VariableDeclaration;
use crate::statements::VariableDeclarator;
use crate::targets::ArrayAssignmentTarget;
use crate::targets::AssignmentTargetPropertyIdentifier;
use crate::targets::AssignmentTargetPropertyProperty;
use crate::targets::AssignmentTargetRest;
use crate::targets::AssignmentTargetWithDefault;
use crate::targets::ObjectAssignmentTarget;
use crate::templates::ImportExpression;
use crate::templates::TaggedTemplateExpression;
use crate::templates::TemplateElement;
use crate::templates::TemplateLiteral;
use jsgen_syntax::Span;

impl<N> GetSpan for Program<N> {
    ghost own_span = { λ n. n.span };

    fn span(&self) -> Span {
        self.span
    }
}

impl GetSpan for Comment {
    ghost own_span = { λ n. n.span };

    fn span(&self) -> Span {
        self.span
    }
}

impl GetSpan for Directive {
    ghost own_span = { λ n. n.span };

    fn span(&self) -> Span {
        self.span
    }
}

impl<N> GetSpan for VariableDeclaration<N> {
    ghost own_span = { λ n. n.span };

    fn span(&self) -> Span {
        self.span
    }
}

impl<N> GetSpan for VariableDeclarator<N> {
    ghost own_span = { λ n. n.span };

    fn span(&self) -> Span {
        self.span
    }
}

impl GetSpan for BindingIdentifier {
    ghost own_span = { λ n. n.span };

    fn span(&self) -> Span {
        self.span
    }
}

impl<N> GetSpan for ExpressionStatement<N> {
    ghost own_span = { λ n. n.span };

    fn span(&self) -> Span {
        self.span
    }
}

impl<N> GetSpan for BlockStatement<N> {
    ghost own_span = { λ n. n.span };

    fn span(&self) -> Span {
        self.span
    }
}

impl<N> GetSpan for IfStatement<N> {
    ghost own_span = { λ n. n.span };

    fn span(&self) -> Span {
        self.span
    }
}

impl GetSpan for EmptyStatement {
    ghost own_span = { λ n. n.span };

    fn span(&self) -> Span {
        self.span
    }
}

impl GetSpan for IdentifierReference {
    ghost own_span = { λ n. n.span };

    fn span(&self) -> Span {
        self.span
    }
}

impl GetSpan for ThisExpression {
    ghost own_span = { λ n. n.span };

    fn span(&self) -> Span {
        self.span
    }
}

impl GetSpan for NullLiteral {
    ghost own_span = { λ n. n.span };

    fn span(&self) -> Span {
        self.span
    }
}

impl GetSpan for BooleanLiteral {
    ghost own_span = { λ n. n.span };

    fn span(&self) -> Span {
        self.span
    }
}

impl GetSpan for NumericLiteral {
    ghost own_span = { λ n. n.span };

    fn span(&self) -> Span {
        self.span
    }
}

impl GetSpan for BigIntLiteral {
    ghost own_span = { λ n. n.span };

    fn span(&self) -> Span {
        self.span
    }
}

impl GetSpan for StringLiteral {
    ghost own_span = { λ n. n.span };

    fn span(&self) -> Span {
        self.span
    }
}

impl GetSpan for RegExpLiteral {
    ghost own_span = { λ n. n.span };

    fn span(&self) -> Span {
        self.span
    }
}

impl<N> GetSpan for ParenthesizedExpression<N> {
    ghost own_span = { λ n. n.span };

    fn span(&self) -> Span {
        self.span
    }
}

impl<N> GetSpan for BinaryExpression<N> {
    ghost own_span = { λ n. n.span };

    fn span(&self) -> Span {
        self.span
    }
}

impl<N> GetSpan for LogicalExpression<N> {
    ghost own_span = { λ n. n.span };

    fn span(&self) -> Span {
        self.span
    }
}

impl GetSpan for IdentifierName {
    ghost own_span = { λ n. n.span };

    fn span(&self) -> Span {
        self.span
    }
}

impl<N> GetSpan for StaticMemberExpression<N> {
    ghost own_span = { λ n. n.span };

    fn span(&self) -> Span {
        self.span
    }
}

impl<N> GetSpan for ComputedMemberExpression<N> {
    ghost own_span = { λ n. n.span };

    fn span(&self) -> Span {
        self.span
    }
}

impl<N> GetSpan for CallExpression<N> {
    ghost own_span = { λ n. n.span };

    fn span(&self) -> Span {
        self.span
    }
}

impl<N> GetSpan for ChainExpression<N> {
    ghost own_span = { λ n. n.span };

    fn span(&self) -> Span {
        self.span
    }
}

impl<N> GetSpan for SpreadElement<N> {
    ghost own_span = { λ n. n.span };

    fn span(&self) -> Span {
        self.span
    }
}

impl<N> GetSpan for ArrayExpression<N> {
    ghost own_span = { λ n. n.span };

    fn span(&self) -> Span {
        self.span
    }
}

impl<N> GetSpan for ObjectProperty<N> {
    ghost own_span = { λ n. n.span };

    fn span(&self) -> Span {
        self.span
    }
}

impl<N> GetSpan for ObjectExpression<N> {
    ghost own_span = { λ n. n.span };

    fn span(&self) -> Span {
        self.span
    }
}

impl<N> GetSpan for UnaryExpression<N> {
    ghost own_span = { λ n. n.span };

    fn span(&self) -> Span {
        self.span
    }
}

impl GetSpan for NewTarget {
    ghost own_span = { λ n. n.span };

    fn span(&self) -> Span {
        self.span
    }
}

impl<N> GetSpan for UpdateExpression<N> {
    ghost own_span = { λ n. n.span };

    fn span(&self) -> Span {
        self.span
    }
}

impl<N> GetSpan for NewExpression<N> {
    ghost own_span = { λ n. n.span };

    fn span(&self) -> Span {
        self.span
    }
}

impl GetSpan for Super {
    ghost own_span = { λ n. n.span };

    fn span(&self) -> Span {
        self.span
    }
}

impl GetSpan for ImportMeta {
    ghost own_span = { λ n. n.span };

    fn span(&self) -> Span {
        self.span
    }
}

impl<N> GetSpan for ConditionalExpression<N> {
    ghost own_span = { λ n. n.span };

    fn span(&self) -> Span {
        self.span
    }
}

impl<N> GetSpan for SequenceExpression<N> {
    ghost own_span = { λ n. n.span };

    fn span(&self) -> Span {
        self.span
    }
}

impl<N> GetSpan for AssignmentExpression<N> {
    ghost own_span = { λ n. n.span };

    fn span(&self) -> Span {
        self.span
    }
}

impl<N> GetSpan for FormalParameter<N> {
    ghost own_span = { λ n. n.span };

    fn span(&self) -> Span {
        self.span
    }
}

impl<N> GetSpan for FormalParameterRest<N> {
    ghost own_span = { λ n. n.span };

    fn span(&self) -> Span {
        self.span
    }
}

impl<N> GetSpan for FormalParameters<N> {
    ghost own_span = { λ n. n.span };

    fn span(&self) -> Span {
        self.span
    }
}

impl<N> GetSpan for Function<N> {
    ghost own_span = { λ n. n.span };

    fn span(&self) -> Span {
        self.span
    }
}

impl<N> GetSpan for FunctionBody<N> {
    ghost own_span = { λ n. n.span };

    fn span(&self) -> Span {
        self.span
    }
}

impl<N> GetSpan for ArrowFunctionExpression<N> {
    ghost own_span = { λ n. n.span };

    fn span(&self) -> Span {
        self.span
    }
}

impl<N> GetSpan for AwaitExpression<N> {
    ghost own_span = { λ n. n.span };

    fn span(&self) -> Span {
        self.span
    }
}

impl<N> GetSpan for YieldExpression<N> {
    ghost own_span = { λ n. n.span };

    fn span(&self) -> Span {
        self.span
    }
}

impl GetSpan for TemplateElement {
    ghost own_span = { λ n. n.span };

    fn span(&self) -> Span {
        self.span
    }
}

impl<N> GetSpan for TemplateLiteral<N> {
    ghost own_span = { λ n. n.span };

    fn span(&self) -> Span {
        self.span
    }
}

impl<N> GetSpan for TaggedTemplateExpression<N> {
    ghost own_span = { λ n. n.span };

    fn span(&self) -> Span {
        self.span
    }
}

impl<N> GetSpan for ImportExpression<N> {
    ghost own_span = { λ n. n.span };

    fn span(&self) -> Span {
        self.span
    }
}

impl<N> GetSpan for ForStatement<N> {
    ghost own_span = { λ n. n.span };

    fn span(&self) -> Span {
        self.span
    }
}

impl<N> GetSpan for ForInStatement<N> {
    ghost own_span = { λ n. n.span };

    fn span(&self) -> Span {
        self.span
    }
}

impl<N> GetSpan for ForOfStatement<N> {
    ghost own_span = { λ n. n.span };

    fn span(&self) -> Span {
        self.span
    }
}

impl<N> GetSpan for WhileStatement<N> {
    ghost own_span = { λ n. n.span };

    fn span(&self) -> Span {
        self.span
    }
}

impl<N> GetSpan for DoWhileStatement<N> {
    ghost own_span = { λ n. n.span };

    fn span(&self) -> Span {
        self.span
    }
}

impl GetSpan for LabelIdentifier {
    ghost own_span = { λ n. n.span };

    fn span(&self) -> Span {
        self.span
    }
}

impl<N> GetSpan for LabeledStatement<N> {
    ghost own_span = { λ n. n.span };

    fn span(&self) -> Span {
        self.span
    }
}

impl GetSpan for ContinueStatement {
    ghost own_span = { λ n. n.span };

    fn span(&self) -> Span {
        self.span
    }
}

impl GetSpan for BreakStatement {
    ghost own_span = { λ n. n.span };

    fn span(&self) -> Span {
        self.span
    }
}

impl<N> GetSpan for ReturnStatement<N> {
    ghost own_span = { λ n. n.span };

    fn span(&self) -> Span {
        self.span
    }
}

impl<N> GetSpan for ThrowStatement<N> {
    ghost own_span = { λ n. n.span };

    fn span(&self) -> Span {
        self.span
    }
}

impl GetSpan for DebuggerStatement {
    ghost own_span = { λ n. n.span };

    fn span(&self) -> Span {
        self.span
    }
}

impl<N> GetSpan for SwitchStatement<N> {
    ghost own_span = { λ n. n.span };

    fn span(&self) -> Span {
        self.span
    }
}

impl<N> GetSpan for SwitchCase<N> {
    ghost own_span = { λ n. n.span };

    fn span(&self) -> Span {
        self.span
    }
}

impl<N> GetSpan for TryStatement<N> {
    ghost own_span = { λ n. n.span };

    fn span(&self) -> Span {
        self.span
    }
}

impl<N> GetSpan for CatchClause<N> {
    ghost own_span = { λ n. n.span };

    fn span(&self) -> Span {
        self.span
    }
}

impl<N> GetSpan for ObjectPattern<N> {
    ghost own_span = { λ n. n.span };

    fn span(&self) -> Span {
        self.span
    }
}

impl<N> GetSpan for BindingProperty<N> {
    ghost own_span = { λ n. n.span };

    fn span(&self) -> Span {
        self.span
    }
}

impl<N> GetSpan for BindingRestElement<N> {
    ghost own_span = { λ n. n.span };

    fn span(&self) -> Span {
        self.span
    }
}

impl<N> GetSpan for ArrayPattern<N> {
    ghost own_span = { λ n. n.span };

    fn span(&self) -> Span {
        self.span
    }
}

impl<N> GetSpan for AssignmentPattern<N> {
    ghost own_span = { λ n. n.span };

    fn span(&self) -> Span {
        self.span
    }
}

impl<N> GetSpan for ArrayAssignmentTarget<N> {
    ghost own_span = { λ n. n.span };

    fn span(&self) -> Span {
        self.span
    }
}

impl<N> GetSpan for ObjectAssignmentTarget<N> {
    ghost own_span = { λ n. n.span };

    fn span(&self) -> Span {
        self.span
    }
}

impl<N> GetSpan for AssignmentTargetWithDefault<N> {
    ghost own_span = { λ n. n.span };

    fn span(&self) -> Span {
        self.span
    }
}

impl<N> GetSpan for AssignmentTargetPropertyIdentifier<N> {
    ghost own_span = { λ n. n.span };

    fn span(&self) -> Span {
        self.span
    }
}

impl<N> GetSpan for AssignmentTargetPropertyProperty<N> {
    ghost own_span = { λ n. n.span };

    fn span(&self) -> Span {
        self.span
    }
}

impl<N> GetSpan for AssignmentTargetRest<N> {
    ghost own_span = { λ n. n.span };

    fn span(&self) -> Span {
        self.span
    }
}

impl GetSpan for PrivateIdentifier {
    ghost own_span = { λ n. n.span };

    fn span(&self) -> Span {
        self.span
    }
}

impl<N> GetSpan for PrivateFieldExpression<N> {
    ghost own_span = { λ n. n.span };

    fn span(&self) -> Span {
        self.span
    }
}

impl<N> GetSpan for PrivateInExpression<N> {
    ghost own_span = { λ n. n.span };

    fn span(&self) -> Span {
        self.span
    }
}

impl<N> GetSpan for Class<N> {
    ghost own_span = { λ n. n.span };

    fn span(&self) -> Span {
        self.span
    }
}

impl<N> GetSpan for ClassBody<N> {
    ghost own_span = { λ n. n.span };

    fn span(&self) -> Span {
        self.span
    }
}

impl<N> GetSpan for StaticBlock<N> {
    ghost own_span = { λ n. n.span };

    fn span(&self) -> Span {
        self.span
    }
}

impl<N> GetSpan for MethodDefinition<N> {
    ghost own_span = { λ n. n.span };

    fn span(&self) -> Span {
        self.span
    }
}

impl<N> GetSpan for PropertyDefinition<N> {
    ghost own_span = { λ n. n.span };

    fn span(&self) -> Span {
        self.span
    }
}

impl GetSpan for Hashbang {
    ghost own_span = { λ n. n.span };

    fn span(&self) -> Span {
        self.span
    }
}

impl GetSpan for ImportDeclaration {
    ghost own_span = { λ n. n.span };

    fn span(&self) -> Span {
        self.span
    }
}

impl GetSpan for ImportDefaultSpecifier {
    ghost own_span = { λ n. n.span };

    fn span(&self) -> Span {
        self.span
    }
}

impl GetSpan for ImportNamespaceSpecifier {
    ghost own_span = { λ n. n.span };

    fn span(&self) -> Span {
        self.span
    }
}

impl GetSpan for ImportSpecifier {
    ghost own_span = { λ n. n.span };

    fn span(&self) -> Span {
        self.span
    }
}

impl GetSpan for WithClause {
    ghost own_span = { λ n. n.span };

    fn span(&self) -> Span {
        self.span
    }
}

impl GetSpan for ImportAttribute {
    ghost own_span = { λ n. n.span };

    fn span(&self) -> Span {
        self.span
    }
}

impl<N> GetSpan for ExportDeclaration<N> {
    ghost own_span = { λ n. n.span };

    fn span(&self) -> Span {
        self.span
    }
}

impl GetSpan for ExportNamedDeclaration {
    ghost own_span = { λ n. n.span };

    fn span(&self) -> Span {
        self.span
    }
}

impl GetSpan for ExportFromDeclaration {
    ghost own_span = { λ n. n.span };

    fn span(&self) -> Span {
        self.span
    }
}

impl GetSpan for ExportSpecifier {
    ghost own_span = { λ n. n.span };

    fn span(&self) -> Span {
        self.span
    }
}

impl GetSpan for ExportAllDeclaration {
    ghost own_span = { λ n. n.span };

    fn span(&self) -> Span {
        self.span
    }
}

impl<N> GetSpan for ExportDefaultDeclaration<N> {
    ghost own_span = { λ n. n.span };

    fn span(&self) -> Span {
        self.span
    }
}
