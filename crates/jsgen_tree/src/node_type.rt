// Generated from tools/nodes/table.txt; edit that and run tools/nodes/generate.
// The type of a member of each set.
ghost use Rattle.std.specs.Prelude.{◌≡◌};
ghost use Rattle.jsgen_tree.specs.Tree.{type_of};
ghost use Rattle.jsgen_tree.specs.Rows.{expression_plain, assignment_target_plain, declaration_plain, statement_plain, binding_pattern_plain, class_element_plain, in_argument, in_array_expression_element, in_chain_element, in_member_expression, in_simple_assignment_target, in_assignment_target_pattern, in_assignment_target_maybe_default, in_assignment_target_property, in_arrow_function_body, in_for_statement_init, in_for_statement_left, in_object_property_kind, in_property_key, in_module_export_name, in_import_declaration_specifier, in_import_attribute_key, in_export_default_declaration_kind};
ghost use Rattle.jsgen_tree.specs.Plain.{node_plain};

use crate::nodes::Node;
use crate::sets::{
    Argument, ArrayExpressionElement, ArrowFunctionBody, AssignmentTarget,
    AssignmentTargetMaybeDefault, AssignmentTargetPattern, AssignmentTargetProperty,
    BindingPattern, ChainElement, ClassElement, Declaration, ExportDefaultDeclarationKind,
    Expression, ForStatementInit, ForStatementLeft, ImportAttributeKey, ImportDeclarationSpecifier,
    MemberExpression, ModuleExportName, ObjectPropertyKind, PropertyKey, SimpleAssignmentTarget,
    Statement,
};
use crate::types::NodeType;

impl<N: HasType> Expression<N> {
    /// The type of the node.
    pub fn node_type(&self) -> NodeType
        ensures { result ≡ type_of (expression_plain N.plain self.now) }
    {
        match self {
            Expression::IdentifierReference(_) => NodeType::IdentifierReference,
            Expression::ThisExpression(_) => NodeType::ThisExpression,
            Expression::NullLiteral(_) => NodeType::NullLiteral,
            Expression::BooleanLiteral(_) => NodeType::BooleanLiteral,
            Expression::NumericLiteral(_) => NodeType::NumericLiteral,
            Expression::BigIntLiteral(_) => NodeType::BigIntLiteral,
            Expression::StringLiteral(_) => NodeType::StringLiteral,
            Expression::RegExpLiteral(_) => NodeType::RegExpLiteral,
            Expression::BinaryExpression(_) => NodeType::BinaryExpression,
            Expression::LogicalExpression(_) => NodeType::LogicalExpression,
            Expression::ParenthesizedExpression(_) => NodeType::ParenthesizedExpression,
            Expression::StaticMemberExpression(_) => NodeType::StaticMemberExpression,
            Expression::ComputedMemberExpression(_) => NodeType::ComputedMemberExpression,
            Expression::CallExpression(_) => NodeType::CallExpression,
            Expression::ChainExpression(_) => NodeType::ChainExpression,
            Expression::ArrayExpression(_) => NodeType::ArrayExpression,
            Expression::ObjectExpression(_) => NodeType::ObjectExpression,
            Expression::UnaryExpression(_) => NodeType::UnaryExpression,
            Expression::UpdateExpression(_) => NodeType::UpdateExpression,
            Expression::NewExpression(_) => NodeType::NewExpression,
            Expression::NewTarget(_) => NodeType::NewTarget,
            Expression::Super(_) => NodeType::Super,
            Expression::ImportMeta(_) => NodeType::ImportMeta,
            Expression::ConditionalExpression(_) => NodeType::ConditionalExpression,
            Expression::SequenceExpression(_) => NodeType::SequenceExpression,
            Expression::AssignmentExpression(_) => NodeType::AssignmentExpression,
            Expression::Function(_) => NodeType::Function,
            Expression::ArrowFunctionExpression(_) => NodeType::ArrowFunctionExpression,
            Expression::Class(_) => NodeType::Class,
            Expression::PrivateFieldExpression(_) => NodeType::PrivateFieldExpression,
            Expression::PrivateInExpression(_) => NodeType::PrivateInExpression,
            Expression::AwaitExpression(_) => NodeType::AwaitExpression,
            Expression::YieldExpression(_) => NodeType::YieldExpression,
            Expression::TemplateLiteral(_) => NodeType::TemplateLiteral,
            Expression::TaggedTemplateExpression(_) => NodeType::TaggedTemplateExpression,
            Expression::ImportExpression(_) => NodeType::ImportExpression,
        }
    }
}

impl<N: HasType> Argument<N> {
    /// The type of the node.
    pub fn node_type(&self) -> NodeType
        ensures { result ≡ type_of (in_argument N.plain self.now) }
    {
        match self {
            Argument::SpreadElement(_) => NodeType::SpreadElement,
            Argument::Expression(node) => node.get().node_type(),
        }
    }
}

impl<N: HasType> ArrayExpressionElement<N> {
    /// The type of the node.
    pub fn node_type(&self) -> NodeType
        ensures { result ≡ type_of (in_array_expression_element N.plain self.now) }
    {
        match self {
            ArrayExpressionElement::SpreadElement(_) => NodeType::SpreadElement,
            ArrayExpressionElement::Expression(node) => node.get().node_type(),
        }
    }
}

impl<N: HasType> ChainElement<N> {
    /// The type of the node.
    pub fn node_type(&self) -> NodeType
        ensures { result ≡ type_of (in_chain_element N.plain self.now) }
    {
        match self {
            ChainElement::StaticMemberExpression(_) => NodeType::StaticMemberExpression,
            ChainElement::ComputedMemberExpression(_) => NodeType::ComputedMemberExpression,
            ChainElement::PrivateFieldExpression(_) => NodeType::PrivateFieldExpression,
            ChainElement::CallExpression(_) => NodeType::CallExpression,
        }
    }
}

impl<N: HasType> MemberExpression<N> {
    /// The type of the node.
    pub fn node_type(&self) -> NodeType
        ensures { result ≡ type_of (in_member_expression N.plain self.now) }
    {
        match self {
            MemberExpression::StaticMemberExpression(_) => NodeType::StaticMemberExpression,
            MemberExpression::ComputedMemberExpression(_) => NodeType::ComputedMemberExpression,
            MemberExpression::PrivateFieldExpression(_) => NodeType::PrivateFieldExpression,
        }
    }
}

impl<N: HasType> SimpleAssignmentTarget<N> {
    /// The type of the node.
    pub fn node_type(&self) -> NodeType
        ensures { result ≡ type_of (in_simple_assignment_target N.plain self.now) }
    {
        match self {
            SimpleAssignmentTarget::IdentifierReference(_) => NodeType::IdentifierReference,
            SimpleAssignmentTarget::StaticMemberExpression(_) => NodeType::StaticMemberExpression,
            SimpleAssignmentTarget::ComputedMemberExpression(_) =>
                NodeType::ComputedMemberExpression,
            SimpleAssignmentTarget::PrivateFieldExpression(_) => NodeType::PrivateFieldExpression,
        }
    }
}

impl<N: HasType> AssignmentTargetPattern<N> {
    /// The type of the node.
    pub fn node_type(&self) -> NodeType
        ensures { result ≡ type_of (in_assignment_target_pattern N.plain self.now) }
    {
        match self {
            AssignmentTargetPattern::ArrayAssignmentTarget(_) => NodeType::ArrayAssignmentTarget,
            AssignmentTargetPattern::ObjectAssignmentTarget(_) => NodeType::ObjectAssignmentTarget,
        }
    }
}

impl<N: HasType> AssignmentTarget<N> {
    /// The type of the node.
    pub fn node_type(&self) -> NodeType
        ensures { result ≡ type_of (assignment_target_plain N.plain self.now) }
    {
        match self {
            AssignmentTarget::IdentifierReference(_) => NodeType::IdentifierReference,
            AssignmentTarget::StaticMemberExpression(_) => NodeType::StaticMemberExpression,
            AssignmentTarget::ComputedMemberExpression(_) => NodeType::ComputedMemberExpression,
            AssignmentTarget::PrivateFieldExpression(_) => NodeType::PrivateFieldExpression,
            AssignmentTarget::ArrayAssignmentTarget(_) => NodeType::ArrayAssignmentTarget,
            AssignmentTarget::ObjectAssignmentTarget(_) => NodeType::ObjectAssignmentTarget,
        }
    }
}

impl<N: HasType> AssignmentTargetMaybeDefault<N> {
    /// The type of the node.
    pub fn node_type(&self) -> NodeType
        ensures { result ≡ type_of (in_assignment_target_maybe_default N.plain self.now) }
    {
        match self {
            AssignmentTargetMaybeDefault::AssignmentTarget(node) => node.get().node_type(),
            AssignmentTargetMaybeDefault::AssignmentTargetWithDefault(_) =>
                NodeType::AssignmentTargetWithDefault,
        }
    }
}

impl<N: HasType> AssignmentTargetProperty<N> {
    /// The type of the node.
    pub fn node_type(&self) -> NodeType
        ensures { result ≡ type_of (in_assignment_target_property N.plain self.now) }
    {
        match self {
            AssignmentTargetProperty::AssignmentTargetPropertyIdentifier(_) =>
                NodeType::AssignmentTargetPropertyIdentifier,
            AssignmentTargetProperty::AssignmentTargetPropertyProperty(_) =>
                NodeType::AssignmentTargetPropertyProperty,
        }
    }
}

impl<N: HasType> ArrowFunctionBody<N> {
    /// The type of the node.
    pub fn node_type(&self) -> NodeType
        ensures { result ≡ type_of (in_arrow_function_body N.plain self.now) }
    {
        match self {
            ArrowFunctionBody::FunctionBody(_) => NodeType::FunctionBody,
            ArrowFunctionBody::Expression(node) => node.get().node_type(),
        }
    }
}

impl<N: HasType> ForStatementInit<N> {
    /// The type of the node.
    pub fn node_type(&self) -> NodeType
        ensures { result ≡ type_of (in_for_statement_init N.plain self.now) }
    {
        match self {
            ForStatementInit::VariableDeclaration(_) => NodeType::VariableDeclaration,
            ForStatementInit::Expression(node) => node.get().node_type(),
        }
    }
}

impl<N: HasType> ForStatementLeft<N> {
    /// The type of the node.
    pub fn node_type(&self) -> NodeType
        ensures { result ≡ type_of (in_for_statement_left N.plain self.now) }
    {
        match self {
            ForStatementLeft::VariableDeclaration(_) => NodeType::VariableDeclaration,
            ForStatementLeft::AssignmentTarget(node) => node.get().node_type(),
        }
    }
}

impl<N: HasType> ObjectPropertyKind<N> {
    /// The type of the node.
    pub fn node_type(&self) -> NodeType
        ensures { result ≡ type_of (in_object_property_kind N.plain self.now) }
    {
        match self {
            ObjectPropertyKind::ObjectProperty(_) => NodeType::ObjectProperty,
            ObjectPropertyKind::SpreadElement(_) => NodeType::SpreadElement,
        }
    }
}

impl<N: HasType> PropertyKey<N> {
    /// The type of the node.
    pub fn node_type(&self) -> NodeType
        ensures { result ≡ type_of (in_property_key N.plain self.now) }
    {
        match self {
            PropertyKey::IdentifierName(_) => NodeType::IdentifierName,
            PropertyKey::PrivateIdentifier(_) => NodeType::PrivateIdentifier,
            PropertyKey::Expression(node) => node.get().node_type(),
        }
    }
}

impl<N: HasType> Declaration<N> {
    /// The type of the node.
    pub fn node_type(&self) -> NodeType
        ensures { result ≡ type_of (declaration_plain N.plain self.now) }
    {
        match self {
            Declaration::VariableDeclaration(_) => NodeType::VariableDeclaration,
            Declaration::Function(_) => NodeType::Function,
            Declaration::Class(_) => NodeType::Class,
        }
    }
}

impl<N: HasType> Statement<N> {
    /// The type of the node.
    pub fn node_type(&self) -> NodeType
        ensures { result ≡ type_of (statement_plain N.plain self.now) }
    {
        match self {
            Statement::Declaration(node) => node.get().node_type(),
            Statement::ExpressionStatement(_) => NodeType::ExpressionStatement,
            Statement::BlockStatement(_) => NodeType::BlockStatement,
            Statement::IfStatement(_) => NodeType::IfStatement,
            Statement::EmptyStatement(_) => NodeType::EmptyStatement,
            Statement::ForStatement(_) => NodeType::ForStatement,
            Statement::ForInStatement(_) => NodeType::ForInStatement,
            Statement::ForOfStatement(_) => NodeType::ForOfStatement,
            Statement::WhileStatement(_) => NodeType::WhileStatement,
            Statement::DoWhileStatement(_) => NodeType::DoWhileStatement,
            Statement::LabeledStatement(_) => NodeType::LabeledStatement,
            Statement::ContinueStatement(_) => NodeType::ContinueStatement,
            Statement::BreakStatement(_) => NodeType::BreakStatement,
            Statement::ReturnStatement(_) => NodeType::ReturnStatement,
            Statement::ThrowStatement(_) => NodeType::ThrowStatement,
            Statement::DebuggerStatement(_) => NodeType::DebuggerStatement,
            Statement::SwitchStatement(_) => NodeType::SwitchStatement,
            Statement::TryStatement(_) => NodeType::TryStatement,
            Statement::ImportDeclaration(_) => NodeType::ImportDeclaration,
            Statement::ExportDeclaration(_) => NodeType::ExportDeclaration,
            Statement::ExportNamedDeclaration(_) => NodeType::ExportNamedDeclaration,
            Statement::ExportFromDeclaration(_) => NodeType::ExportFromDeclaration,
            Statement::ExportAllDeclaration(_) => NodeType::ExportAllDeclaration,
            Statement::ExportDefaultDeclaration(_) => NodeType::ExportDefaultDeclaration,
        }
    }
}

impl<N: HasType> BindingPattern<N> {
    /// The type of the node.
    pub fn node_type(&self) -> NodeType
        ensures { result ≡ type_of (binding_pattern_plain N.plain self.now) }
    {
        match self {
            BindingPattern::BindingIdentifier(_) => NodeType::BindingIdentifier,
            BindingPattern::ObjectPattern(_) => NodeType::ObjectPattern,
            BindingPattern::ArrayPattern(_) => NodeType::ArrayPattern,
            BindingPattern::AssignmentPattern(_) => NodeType::AssignmentPattern,
        }
    }
}

impl<N: HasType> ClassElement<N> {
    /// The type of the node.
    pub fn node_type(&self) -> NodeType
        ensures { result ≡ type_of (class_element_plain N.plain self.now) }
    {
        match self {
            ClassElement::StaticBlock(_) => NodeType::StaticBlock,
            ClassElement::MethodDefinition(_) => NodeType::MethodDefinition,
            ClassElement::PropertyDefinition(_) => NodeType::PropertyDefinition,
        }
    }
}

impl ModuleExportName {
    /// The type of the node.
    pub fn node_type(&self) -> NodeType
        ensures { result ≡ type_of (in_module_export_name self.now) }
    {
        match self {
            ModuleExportName::IdentifierName(_) => NodeType::IdentifierName,
            ModuleExportName::IdentifierReference(_) => NodeType::IdentifierReference,
            ModuleExportName::StringLiteral(_) => NodeType::StringLiteral,
        }
    }
}

impl ImportDeclarationSpecifier {
    /// The type of the node.
    pub fn node_type(&self) -> NodeType
        ensures { result ≡ type_of (in_import_declaration_specifier self.now) }
    {
        match self {
            ImportDeclarationSpecifier::ImportDefaultSpecifier(_) =>
                NodeType::ImportDefaultSpecifier,
            ImportDeclarationSpecifier::ImportNamespaceSpecifier(_) =>
                NodeType::ImportNamespaceSpecifier,
            ImportDeclarationSpecifier::ImportSpecifier(_) => NodeType::ImportSpecifier,
        }
    }
}

impl ImportAttributeKey {
    /// The type of the node.
    pub fn node_type(&self) -> NodeType
        ensures { result ≡ type_of (in_import_attribute_key self.now) }
    {
        match self {
            ImportAttributeKey::IdentifierName(_) => NodeType::IdentifierName,
            ImportAttributeKey::StringLiteral(_) => NodeType::StringLiteral,
        }
    }
}

impl<N: HasType> ExportDefaultDeclarationKind<N> {
    /// The type of the node.
    pub fn node_type(&self) -> NodeType
        ensures { result ≡ type_of (in_export_default_declaration_kind N.plain self.now) }
    {
        match self {
            ExportDefaultDeclarationKind::Function(_) => NodeType::Function,
            ExportDefaultDeclarationKind::Class(_) => NodeType::Class,
            ExportDefaultDeclarationKind::Expression(node) => node.get().node_type(),
        }
    }
}

/// What nests in a set and has a type: `Node` alone.
pub trait HasType {
    ghost use Rattle.jsgen_tree.specs.Tree.{Tree};

    ghost plain: { Self → Tree };

    /// The type of the node.
    fn node_type(&self) -> NodeType
        ensures { result ≡ type_of (plain self.now) };
}

impl HasType for Node {
    ghost plain = { λ n. node_plain n };

    #[cycle(node_type)]
    fn node_type(&self) -> NodeType {
        match self {
            Node::Expression(node) => node.node_type(),
            Node::AssignmentTarget(node) => node.node_type(),
            Node::Declaration(node) => node.node_type(),
            Node::Statement(node) => node.node_type(),
            Node::BindingPattern(node) => node.node_type(),
            Node::ClassElement(node) => node.node_type(),
        }
    }
}

impl Node {
    /// The type of the node.
    pub fn node_type(&self) -> NodeType
        ensures { result ≡ type_of (node_plain self.now) }
    {
        HasType::node_type(self)
    }
}
