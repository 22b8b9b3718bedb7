// Generated from tools/nodes/table.txt; edit that and run tools/nodes/generate.
// The span of each node: a set's is its member's.
ghost use Rattle.std.specs.Prelude.{◌≡◌};
ghost use Rattle.jsgen_tree.specs.Tree.{span_of};
ghost use Rattle.jsgen_tree.specs.Plain.{node_plain};
ghost use Rattle.jsgen_tree.specs.Spans.{expression_span, argument_span, array_expression_element_span, chain_element_span, member_expression_span, simple_assignment_target_span, assignment_target_pattern_span, assignment_target_span, assignment_target_maybe_default_span, assignment_target_property_span, arrow_function_body_span, for_statement_init_span, for_statement_left_span, object_property_kind_span, property_key_span, declaration_span, statement_span, binding_pattern_span, class_element_span, module_export_name_span, import_declaration_specifier_span, import_attribute_key_span, export_default_declaration_kind_span};

use crate::nodes::Node;
use crate::sets::{
    Argument, ArrayExpressionElement, ArrowFunctionBody, AssignmentTarget,
    AssignmentTargetMaybeDefault, AssignmentTargetPattern, AssignmentTargetProperty,
    BindingPattern, ChainElement, ClassElement, Declaration, ExportDefaultDeclarationKind,
    Expression, ForStatementInit, ForStatementLeft, ImportAttributeKey, ImportDeclarationSpecifier,
    MemberExpression, ModuleExportName, ObjectPropertyKind, PropertyKey, SimpleAssignmentTarget,
    Statement,
};
use jsgen_syntax::Span;

/// Where a node stands in its source; a set's is its member's.
pub trait GetSpan {
    ghost use Rattle.jsgen_syntax.specs.declared.span.Span.{Span};

    ghost own_span: { Self → Span };

    fn span(&self) -> Span
        ensures { result ≡ own_span self.now };
}

impl<N> GetSpan for Expression<N> {
    ghost own_span = { λ n. expression_span n };

    fn span(&self) -> Span {
        match self {
            Expression::IdentifierReference(node) => node.span,
            Expression::ThisExpression(node) => node.span,
            Expression::NullLiteral(node) => node.span,
            Expression::BooleanLiteral(node) => node.span,
            Expression::NumericLiteral(node) => node.span,
            Expression::BigIntLiteral(node) => node.span,
            Expression::StringLiteral(node) => node.span,
            Expression::RegExpLiteral(node) => node.span,
            Expression::BinaryExpression(node) => node.span,
            Expression::LogicalExpression(node) => node.span,
            Expression::ParenthesizedExpression(node) => node.span,
            Expression::StaticMemberExpression(node) => node.span,
            Expression::ComputedMemberExpression(node) => node.span,
            Expression::CallExpression(node) => node.span,
            Expression::ChainExpression(node) => node.span,
            Expression::ArrayExpression(node) => node.span,
            Expression::ObjectExpression(node) => node.span,
            Expression::UnaryExpression(node) => node.span,
            Expression::UpdateExpression(node) => node.span,
            Expression::NewExpression(node) => node.span,
            Expression::NewTarget(node) => node.span,
            Expression::Super(node) => node.span,
            Expression::ImportMeta(node) => node.span,
            Expression::ConditionalExpression(node) => node.span,
            Expression::SequenceExpression(node) => node.span,
            Expression::AssignmentExpression(node) => node.span,
            Expression::Function(node) => node.span,
            Expression::ArrowFunctionExpression(node) => node.span,
            Expression::Class(node) => node.span,
            Expression::PrivateFieldExpression(node) => node.span,
            Expression::PrivateInExpression(node) => node.span,
            Expression::AwaitExpression(node) => node.span,
            Expression::YieldExpression(node) => node.span,
            Expression::TemplateLiteral(node) => node.span,
            Expression::TaggedTemplateExpression(node) => node.span,
            Expression::ImportExpression(node) => node.span,
        }
    }
}

impl<N: GetSpan> GetSpan for Argument<N> {
    ghost own_span = { λ n. argument_span N.own_span n };

    fn span(&self) -> Span {
        match self {
            Argument::SpreadElement(node) => node.span,
            Argument::Expression(node) => node.get().span(),
        }
    }
}

impl<N: GetSpan> GetSpan for ArrayExpressionElement<N> {
    ghost own_span = { λ n. array_expression_element_span N.own_span n };

    fn span(&self) -> Span {
        match self {
            ArrayExpressionElement::SpreadElement(node) => node.span,
            ArrayExpressionElement::Expression(node) => node.get().span(),
        }
    }
}

impl<N> GetSpan for ChainElement<N> {
    ghost own_span = { λ n. chain_element_span n };

    fn span(&self) -> Span {
        match self {
            ChainElement::StaticMemberExpression(node) => node.span,
            ChainElement::ComputedMemberExpression(node) => node.span,
            ChainElement::PrivateFieldExpression(node) => node.span,
            ChainElement::CallExpression(node) => node.span,
        }
    }
}

impl<N> GetSpan for MemberExpression<N> {
    ghost own_span = { λ n. member_expression_span n };

    fn span(&self) -> Span {
        match self {
            MemberExpression::StaticMemberExpression(node) => node.span,
            MemberExpression::ComputedMemberExpression(node) => node.span,
            MemberExpression::PrivateFieldExpression(node) => node.span,
        }
    }
}

impl<N> GetSpan for SimpleAssignmentTarget<N> {
    ghost own_span = { λ n. simple_assignment_target_span n };

    fn span(&self) -> Span {
        match self {
            SimpleAssignmentTarget::IdentifierReference(node) => node.span,
            SimpleAssignmentTarget::StaticMemberExpression(node) => node.span,
            SimpleAssignmentTarget::ComputedMemberExpression(node) => node.span,
            SimpleAssignmentTarget::PrivateFieldExpression(node) => node.span,
        }
    }
}

impl<N> GetSpan for AssignmentTargetPattern<N> {
    ghost own_span = { λ n. assignment_target_pattern_span n };

    fn span(&self) -> Span {
        match self {
            AssignmentTargetPattern::ArrayAssignmentTarget(node) => node.span,
            AssignmentTargetPattern::ObjectAssignmentTarget(node) => node.span,
        }
    }
}

impl<N> GetSpan for AssignmentTarget<N> {
    ghost own_span = { λ n. assignment_target_span n };

    fn span(&self) -> Span {
        match self {
            AssignmentTarget::IdentifierReference(node) => node.span,
            AssignmentTarget::StaticMemberExpression(node) => node.span,
            AssignmentTarget::ComputedMemberExpression(node) => node.span,
            AssignmentTarget::PrivateFieldExpression(node) => node.span,
            AssignmentTarget::ArrayAssignmentTarget(node) => node.span,
            AssignmentTarget::ObjectAssignmentTarget(node) => node.span,
        }
    }
}

impl<N: GetSpan> GetSpan for AssignmentTargetMaybeDefault<N> {
    ghost own_span = { λ n. assignment_target_maybe_default_span N.own_span n };

    fn span(&self) -> Span {
        match self {
            AssignmentTargetMaybeDefault::AssignmentTarget(node) => node.get().span(),
            AssignmentTargetMaybeDefault::AssignmentTargetWithDefault(node) => node.span,
        }
    }
}

impl<N> GetSpan for AssignmentTargetProperty<N> {
    ghost own_span = { λ n. assignment_target_property_span n };

    fn span(&self) -> Span {
        match self {
            AssignmentTargetProperty::AssignmentTargetPropertyIdentifier(node) => node.span,
            AssignmentTargetProperty::AssignmentTargetPropertyProperty(node) => node.span,
        }
    }
}

impl<N: GetSpan> GetSpan for ArrowFunctionBody<N> {
    ghost own_span = { λ n. arrow_function_body_span N.own_span n };

    fn span(&self) -> Span {
        match self {
            ArrowFunctionBody::FunctionBody(node) => node.span,
            ArrowFunctionBody::Expression(node) => node.get().span(),
        }
    }
}

impl<N: GetSpan> GetSpan for ForStatementInit<N> {
    ghost own_span = { λ n. for_statement_init_span N.own_span n };

    fn span(&self) -> Span {
        match self {
            ForStatementInit::VariableDeclaration(node) => node.span,
            ForStatementInit::Expression(node) => node.get().span(),
        }
    }
}

impl<N: GetSpan> GetSpan for ForStatementLeft<N> {
    ghost own_span = { λ n. for_statement_left_span N.own_span n };

    fn span(&self) -> Span {
        match self {
            ForStatementLeft::VariableDeclaration(node) => node.span,
            ForStatementLeft::AssignmentTarget(node) => node.get().span(),
        }
    }
}

impl<N> GetSpan for ObjectPropertyKind<N> {
    ghost own_span = { λ n. object_property_kind_span n };

    fn span(&self) -> Span {
        match self {
            ObjectPropertyKind::ObjectProperty(node) => node.span,
            ObjectPropertyKind::SpreadElement(node) => node.span,
        }
    }
}

impl<N: GetSpan> GetSpan for PropertyKey<N> {
    ghost own_span = { λ n. property_key_span N.own_span n };

    fn span(&self) -> Span {
        match self {
            PropertyKey::IdentifierName(node) => node.span,
            PropertyKey::PrivateIdentifier(node) => node.span,
            PropertyKey::Expression(node) => node.get().span(),
        }
    }
}

impl<N> GetSpan for Declaration<N> {
    ghost own_span = { λ n. declaration_span n };

    fn span(&self) -> Span {
        match self {
            Declaration::VariableDeclaration(node) => node.span,
            Declaration::Function(node) => node.span,
            Declaration::Class(node) => node.span,
        }
    }
}

impl<N: GetSpan> GetSpan for Statement<N> {
    ghost own_span = { λ n. statement_span N.own_span n };

    fn span(&self) -> Span {
        match self {
            Statement::Declaration(node) => node.get().span(),
            Statement::ExpressionStatement(node) => node.span,
            Statement::BlockStatement(node) => node.span,
            Statement::IfStatement(node) => node.span,
            Statement::EmptyStatement(node) => node.span,
            Statement::ForStatement(node) => node.span,
            Statement::ForInStatement(node) => node.span,
            Statement::ForOfStatement(node) => node.span,
            Statement::WhileStatement(node) => node.span,
            Statement::DoWhileStatement(node) => node.span,
            Statement::LabeledStatement(node) => node.span,
            Statement::ContinueStatement(node) => node.span,
            Statement::BreakStatement(node) => node.span,
            Statement::ReturnStatement(node) => node.span,
            Statement::ThrowStatement(node) => node.span,
            Statement::DebuggerStatement(node) => node.span,
            Statement::SwitchStatement(node) => node.span,
            Statement::TryStatement(node) => node.span,
            Statement::ImportDeclaration(node) => node.span,
            Statement::ExportDeclaration(node) => node.span,
            Statement::ExportNamedDeclaration(node) => node.span,
            Statement::ExportFromDeclaration(node) => node.span,
            Statement::ExportAllDeclaration(node) => node.span,
            Statement::ExportDefaultDeclaration(node) => node.span,
        }
    }
}

impl<N> GetSpan for BindingPattern<N> {
    ghost own_span = { λ n. binding_pattern_span n };

    fn span(&self) -> Span {
        match self {
            BindingPattern::BindingIdentifier(node) => node.span,
            BindingPattern::ObjectPattern(node) => node.span,
            BindingPattern::ArrayPattern(node) => node.span,
            BindingPattern::AssignmentPattern(node) => node.span,
        }
    }
}

impl<N> GetSpan for ClassElement<N> {
    ghost own_span = { λ n. class_element_span n };

    fn span(&self) -> Span {
        match self {
            ClassElement::StaticBlock(node) => node.span,
            ClassElement::MethodDefinition(node) => node.span,
            ClassElement::PropertyDefinition(node) => node.span,
        }
    }
}

impl GetSpan for ModuleExportName {
    ghost own_span = { λ n. module_export_name_span n };

    fn span(&self) -> Span {
        match self {
            ModuleExportName::IdentifierName(node) => node.span,
            ModuleExportName::IdentifierReference(node) => node.span,
            ModuleExportName::StringLiteral(node) => node.span,
        }
    }
}

impl GetSpan for ImportDeclarationSpecifier {
    ghost own_span = { λ n. import_declaration_specifier_span n };

    fn span(&self) -> Span {
        match self {
            ImportDeclarationSpecifier::ImportDefaultSpecifier(node) => node.span,
            ImportDeclarationSpecifier::ImportNamespaceSpecifier(node) => node.span,
            ImportDeclarationSpecifier::ImportSpecifier(node) => node.span,
        }
    }
}

impl GetSpan for ImportAttributeKey {
    ghost own_span = { λ n. import_attribute_key_span n };

    fn span(&self) -> Span {
        match self {
            ImportAttributeKey::IdentifierName(node) => node.span,
            ImportAttributeKey::StringLiteral(node) => node.span,
        }
    }
}

impl<N: GetSpan> GetSpan for ExportDefaultDeclarationKind<N> {
    ghost own_span = { λ n. export_default_declaration_kind_span N.own_span n };

    fn span(&self) -> Span {
        match self {
            ExportDefaultDeclarationKind::Function(node) => node.span,
            ExportDefaultDeclarationKind::Class(node) => node.span,
            ExportDefaultDeclarationKind::Expression(node) => node.get().span(),
        }
    }
}

impl GetSpan for Node {
    ghost own_span = { λ n. span_of (node_plain n) };

    #[cycle(node_span)]
    fn span(&self) -> Span {
        match self {
            Node::Expression(node) => node.span(),
            Node::AssignmentTarget(node) => node.span(),
            Node::Declaration(node) => node.span(),
            Node::Statement(node) => node.span(),
            Node::BindingPattern(node) => node.span(),
            Node::ClassElement(node) => node.span(),
        }
    }
}
