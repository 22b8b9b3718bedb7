// Generated from tools/nodes/table.txt; edit that and run tools/nodes/generate.
// The types of nodes, and the sets that a field's child may be of.
ghost use Rattle.std.specs.Prelude.{◌≡◌};
ghost use Rattle.jsgen_tree.specs.Sets.{in_set, is_expression, is_argument, is_array_expression_element, is_chain_element, is_member_expression, is_simple_assignment_target, is_assignment_target_pattern, is_assignment_target, is_assignment_target_maybe_default, is_assignment_target_property, is_arrow_function_body, is_for_statement_init, is_for_statement_left, is_object_property_kind, is_property_key, is_declaration, is_statement, is_binding_pattern, is_class_element, is_module_export_name, is_import_declaration_specifier, is_import_attribute_key, is_export_default_declaration_kind};

/// The type of a node.
#[derive(Clone, Copy, Debug, PartialEq, Eq)]
pub enum NodeType {
    Program,
    Comment,
    Directive,
    VariableDeclaration,
    VariableDeclarator,
    BindingIdentifier,
    ExpressionStatement,
    BlockStatement,
    IfStatement,
    EmptyStatement,
    IdentifierReference,
    ThisExpression,
    NullLiteral,
    BooleanLiteral,
    NumericLiteral,
    BigIntLiteral,
    StringLiteral,
    RegExpLiteral,
    ParenthesizedExpression,
    BinaryExpression,
    LogicalExpression,
    IdentifierName,
    StaticMemberExpression,
    ComputedMemberExpression,
    CallExpression,
    ChainExpression,
    SpreadElement,
    ArrayExpression,
    ObjectProperty,
    ObjectExpression,
    UnaryExpression,
    NewTarget,
    UpdateExpression,
    NewExpression,
    Super,
    ImportMeta,
    ConditionalExpression,
    SequenceExpression,
    AssignmentExpression,
    FormalParameter,
    FormalParameterRest,
    FormalParameters,
    Function,
    FunctionBody,
    ArrowFunctionExpression,
    AwaitExpression,
    YieldExpression,
    TemplateElement,
    TemplateLiteral,
    TaggedTemplateExpression,
    ImportExpression,
    ForStatement,
    ForInStatement,
    ForOfStatement,
    WhileStatement,
    DoWhileStatement,
    LabelIdentifier,
    LabeledStatement,
    ContinueStatement,
    BreakStatement,
    ReturnStatement,
    ThrowStatement,
    DebuggerStatement,
    SwitchStatement,
    SwitchCase,
    TryStatement,
    CatchClause,
    ObjectPattern,
    BindingProperty,
    BindingRestElement,
    ArrayPattern,
    AssignmentPattern,
    ArrayAssignmentTarget,
    ObjectAssignmentTarget,
    AssignmentTargetWithDefault,
    AssignmentTargetPropertyIdentifier,
    AssignmentTargetPropertyProperty,
    AssignmentTargetRest,
    PrivateIdentifier,
    PrivateFieldExpression,
    PrivateInExpression,
    Class,
    ClassBody,
    StaticBlock,
    MethodDefinition,
    PropertyDefinition,
    Hashbang,
    ImportDeclaration,
    ImportDefaultSpecifier,
    ImportNamespaceSpecifier,
    ImportSpecifier,
    WithClause,
    ImportAttribute,
    ExportDeclaration,
    ExportNamedDeclaration,
    ExportFromDeclaration,
    ExportSpecifier,
    ExportAllDeclaration,
    ExportDefaultDeclaration,
}

/// What the child of a field may be: a member of a set, or a node of one type.
#[derive(Clone, Copy, Debug, PartialEq, Eq)]
pub enum NodeSet {
    Comment,
    Hashbang,
    Directive,
    Statement,
    VariableDeclarator,
    BindingPattern,
    Expression,
    IdentifierName,
    Argument,
    ChainElement,
    ArrayExpressionElement,
    PropertyKey,
    ObjectPropertyKind,
    SimpleAssignmentTarget,
    AssignmentTarget,
    FormalParameter,
    FormalParameterRest,
    BindingIdentifier,
    FormalParameters,
    FunctionBody,
    ArrowFunctionBody,
    TemplateElement,
    TemplateLiteral,
    ForStatementInit,
    ForStatementLeft,
    LabelIdentifier,
    SwitchCase,
    BlockStatement,
    CatchClause,
    BindingProperty,
    BindingRestElement,
    AssignmentTargetMaybeDefault,
    AssignmentTargetRest,
    AssignmentTargetProperty,
    IdentifierReference,
    PrivateIdentifier,
    ClassBody,
    ClassElement,
    Function,
    ImportDeclarationSpecifier,
    StringLiteral,
    WithClause,
    ModuleExportName,
    ImportAttribute,
    ImportAttributeKey,
    Declaration,
    ExportSpecifier,
    ExportDefaultDeclarationKind,
    Link,
    BindingElement,
    ModuleItem,
}

impl NodeType {
    /// Whether nodes of this type are in the set.
    pub fn is_in(self, set: NodeSet) -> bool
        ensures { result ≡ in_set set self }
    {
        match set {
            NodeSet::Comment => matches!(&self, NodeType::Comment),
            NodeSet::Hashbang => matches!(&self, NodeType::Hashbang),
            NodeSet::Directive => matches!(&self, NodeType::Directive),
            NodeSet::Statement => self.is_statement(),
            NodeSet::VariableDeclarator => matches!(&self, NodeType::VariableDeclarator),
            NodeSet::BindingPattern => self.is_binding_pattern(),
            NodeSet::Expression => self.is_expression(),
            NodeSet::IdentifierName => matches!(&self, NodeType::IdentifierName),
            NodeSet::Argument => self.is_argument(),
            NodeSet::ChainElement => self.is_chain_element(),
            NodeSet::ArrayExpressionElement => self.is_array_expression_element(),
            NodeSet::PropertyKey => self.is_property_key(),
            NodeSet::ObjectPropertyKind => self.is_object_property_kind(),
            NodeSet::SimpleAssignmentTarget => self.is_simple_assignment_target(),
            NodeSet::AssignmentTarget => self.is_assignment_target(),
            NodeSet::FormalParameter => matches!(&self, NodeType::FormalParameter),
            NodeSet::FormalParameterRest => matches!(&self, NodeType::FormalParameterRest),
            NodeSet::BindingIdentifier => matches!(&self, NodeType::BindingIdentifier),
            NodeSet::FormalParameters => matches!(&self, NodeType::FormalParameters),
            NodeSet::FunctionBody => matches!(&self, NodeType::FunctionBody),
            NodeSet::ArrowFunctionBody => self.is_arrow_function_body(),
            NodeSet::TemplateElement => matches!(&self, NodeType::TemplateElement),
            NodeSet::TemplateLiteral => matches!(&self, NodeType::TemplateLiteral),
            NodeSet::ForStatementInit => self.is_for_statement_init(),
            NodeSet::ForStatementLeft => self.is_for_statement_left(),
            NodeSet::LabelIdentifier => matches!(&self, NodeType::LabelIdentifier),
            NodeSet::SwitchCase => matches!(&self, NodeType::SwitchCase),
            NodeSet::BlockStatement => matches!(&self, NodeType::BlockStatement),
            NodeSet::CatchClause => matches!(&self, NodeType::CatchClause),
            NodeSet::BindingProperty => matches!(&self, NodeType::BindingProperty),
            NodeSet::BindingRestElement => matches!(&self, NodeType::BindingRestElement),
            NodeSet::AssignmentTargetMaybeDefault => self.is_assignment_target_maybe_default(),
            NodeSet::AssignmentTargetRest => matches!(&self, NodeType::AssignmentTargetRest),
            NodeSet::AssignmentTargetProperty => self.is_assignment_target_property(),
            NodeSet::IdentifierReference => matches!(&self, NodeType::IdentifierReference),
            NodeSet::PrivateIdentifier => matches!(&self, NodeType::PrivateIdentifier),
            NodeSet::ClassBody => matches!(&self, NodeType::ClassBody),
            NodeSet::ClassElement => self.is_class_element(),
            NodeSet::Function => matches!(&self, NodeType::Function),
            NodeSet::ImportDeclarationSpecifier => self.is_import_declaration_specifier(),
            NodeSet::StringLiteral => matches!(&self, NodeType::StringLiteral),
            NodeSet::WithClause => matches!(&self, NodeType::WithClause),
            NodeSet::ModuleExportName => self.is_module_export_name(),
            NodeSet::ImportAttribute => matches!(&self, NodeType::ImportAttribute),
            NodeSet::ImportAttributeKey => self.is_import_attribute_key(),
            NodeSet::Declaration => self.is_declaration(),
            NodeSet::ExportSpecifier => matches!(&self, NodeType::ExportSpecifier),
            NodeSet::ExportDefaultDeclarationKind => self.is_export_default_declaration_kind(),
            NodeSet::Link => self.is_expression(),
            NodeSet::BindingElement => self.is_binding_pattern(),
            NodeSet::ModuleItem => self.is_statement(),
        }
    }

    /// Whether nodes of this type are in `Expression`.
    pub fn is_expression(self) -> bool
        ensures { result ≡ is_expression self }
    {
        matches!(
            &self,
            NodeType::IdentifierReference
                | NodeType::ThisExpression
                | NodeType::NullLiteral
                | NodeType::BooleanLiteral
                | NodeType::NumericLiteral
                | NodeType::BigIntLiteral
                | NodeType::StringLiteral
                | NodeType::RegExpLiteral
                | NodeType::BinaryExpression
                | NodeType::LogicalExpression
                | NodeType::ParenthesizedExpression
                | NodeType::StaticMemberExpression
                | NodeType::ComputedMemberExpression
                | NodeType::CallExpression
                | NodeType::ChainExpression
                | NodeType::ArrayExpression
                | NodeType::ObjectExpression
                | NodeType::UnaryExpression
                | NodeType::UpdateExpression
                | NodeType::NewExpression
                | NodeType::NewTarget
                | NodeType::Super
                | NodeType::ImportMeta
                | NodeType::ConditionalExpression
                | NodeType::SequenceExpression
                | NodeType::AssignmentExpression
                | NodeType::Function
                | NodeType::ArrowFunctionExpression
                | NodeType::Class
                | NodeType::PrivateFieldExpression
                | NodeType::PrivateInExpression
                | NodeType::AwaitExpression
                | NodeType::YieldExpression
                | NodeType::TemplateLiteral
                | NodeType::TaggedTemplateExpression
                | NodeType::ImportExpression
        )
    }

    /// Whether nodes of this type are in `Argument`.
    pub fn is_argument(self) -> bool
        ensures { result ≡ is_argument self }
    {
        matches!(&self, NodeType::SpreadElement) || self.is_expression()
    }

    /// Whether nodes of this type are in `ArrayExpressionElement`.
    pub fn is_array_expression_element(self) -> bool
        ensures { result ≡ is_array_expression_element self }
    {
        matches!(&self, NodeType::SpreadElement) || self.is_expression()
    }

    /// Whether nodes of this type are in `ChainElement`.
    pub fn is_chain_element(self) -> bool
        ensures { result ≡ is_chain_element self }
    {
        matches!(
            &self,
            NodeType::StaticMemberExpression
                | NodeType::ComputedMemberExpression
                | NodeType::PrivateFieldExpression
                | NodeType::CallExpression
        )
    }

    /// Whether nodes of this type are in `MemberExpression`.
    pub fn is_member_expression(self) -> bool
        ensures { result ≡ is_member_expression self }
    {
        matches!(
            &self,
            NodeType::StaticMemberExpression
                | NodeType::ComputedMemberExpression
                | NodeType::PrivateFieldExpression
        )
    }

    /// Whether nodes of this type are in `SimpleAssignmentTarget`.
    pub fn is_simple_assignment_target(self) -> bool
        ensures { result ≡ is_simple_assignment_target self }
    {
        matches!(
            &self,
            NodeType::IdentifierReference
                | NodeType::StaticMemberExpression
                | NodeType::ComputedMemberExpression
                | NodeType::PrivateFieldExpression
        )
    }

    /// Whether nodes of this type are in `AssignmentTargetPattern`.
    pub fn is_assignment_target_pattern(self) -> bool
        ensures { result ≡ is_assignment_target_pattern self }
    {
        matches!(
            &self,
            NodeType::ArrayAssignmentTarget | NodeType::ObjectAssignmentTarget
        )
    }

    /// Whether nodes of this type are in `AssignmentTarget`.
    pub fn is_assignment_target(self) -> bool
        ensures { result ≡ is_assignment_target self }
    {
        matches!(
            &self,
            NodeType::IdentifierReference
                | NodeType::StaticMemberExpression
                | NodeType::ComputedMemberExpression
                | NodeType::PrivateFieldExpression
                | NodeType::ArrayAssignmentTarget
                | NodeType::ObjectAssignmentTarget
        )
    }

    /// Whether nodes of this type are in `AssignmentTargetMaybeDefault`.
    pub fn is_assignment_target_maybe_default(self) -> bool
        ensures { result ≡ is_assignment_target_maybe_default self }
    {
        matches!(&self, NodeType::AssignmentTargetWithDefault) || self.is_assignment_target()
    }

    /// Whether nodes of this type are in `AssignmentTargetProperty`.
    pub fn is_assignment_target_property(self) -> bool
        ensures { result ≡ is_assignment_target_property self }
    {
        matches!(
            &self,
            NodeType::AssignmentTargetPropertyIdentifier
                | NodeType::AssignmentTargetPropertyProperty
        )
    }

    /// Whether nodes of this type are in `ArrowFunctionBody`.
    pub fn is_arrow_function_body(self) -> bool
        ensures { result ≡ is_arrow_function_body self }
    {
        matches!(&self, NodeType::FunctionBody) || self.is_expression()
    }

    /// Whether nodes of this type are in `ForStatementInit`.
    pub fn is_for_statement_init(self) -> bool
        ensures { result ≡ is_for_statement_init self }
    {
        matches!(&self, NodeType::VariableDeclaration) || self.is_expression()
    }

    /// Whether nodes of this type are in `ForStatementLeft`.
    pub fn is_for_statement_left(self) -> bool
        ensures { result ≡ is_for_statement_left self }
    {
        matches!(&self, NodeType::VariableDeclaration) || self.is_assignment_target()
    }

    /// Whether nodes of this type are in `ObjectPropertyKind`.
    pub fn is_object_property_kind(self) -> bool
        ensures { result ≡ is_object_property_kind self }
    {
        matches!(&self, NodeType::ObjectProperty | NodeType::SpreadElement)
    }

    /// Whether nodes of this type are in `PropertyKey`.
    pub fn is_property_key(self) -> bool
        ensures { result ≡ is_property_key self }
    {
        matches!(
            &self,
            NodeType::IdentifierName | NodeType::PrivateIdentifier
        ) || self.is_expression()
    }

    /// Whether nodes of this type are in `Declaration`.
    pub fn is_declaration(self) -> bool
        ensures { result ≡ is_declaration self }
    {
        matches!(
            &self,
            NodeType::VariableDeclaration | NodeType::Function | NodeType::Class
        )
    }

    /// Whether nodes of this type are in `Statement`.
    pub fn is_statement(self) -> bool
        ensures { result ≡ is_statement self }
    {
        matches!(
            &self,
            NodeType::ExpressionStatement
                | NodeType::BlockStatement
                | NodeType::IfStatement
                | NodeType::EmptyStatement
                | NodeType::ForStatement
                | NodeType::ForInStatement
                | NodeType::ForOfStatement
                | NodeType::WhileStatement
                | NodeType::DoWhileStatement
                | NodeType::LabeledStatement
                | NodeType::ContinueStatement
                | NodeType::BreakStatement
                | NodeType::ReturnStatement
                | NodeType::ThrowStatement
                | NodeType::DebuggerStatement
                | NodeType::SwitchStatement
                | NodeType::TryStatement
                | NodeType::ImportDeclaration
                | NodeType::ExportDeclaration
                | NodeType::ExportNamedDeclaration
                | NodeType::ExportFromDeclaration
                | NodeType::ExportAllDeclaration
                | NodeType::ExportDefaultDeclaration
        ) || self.is_declaration()
    }

    /// Whether nodes of this type are in `BindingPattern`.
    pub fn is_binding_pattern(self) -> bool
        ensures { result ≡ is_binding_pattern self }
    {
        matches!(
            &self,
            NodeType::BindingIdentifier
                | NodeType::ObjectPattern
                | NodeType::ArrayPattern
                | NodeType::AssignmentPattern
        )
    }

    /// Whether nodes of this type are in `ClassElement`.
    pub fn is_class_element(self) -> bool
        ensures { result ≡ is_class_element self }
    {
        matches!(
            &self,
            NodeType::StaticBlock | NodeType::MethodDefinition | NodeType::PropertyDefinition
        )
    }

    /// Whether nodes of this type are in `ModuleExportName`.
    pub fn is_module_export_name(self) -> bool
        ensures { result ≡ is_module_export_name self }
    {
        matches!(
            &self,
            NodeType::IdentifierName | NodeType::IdentifierReference | NodeType::StringLiteral
        )
    }

    /// Whether nodes of this type are in `ImportDeclarationSpecifier`.
    pub fn is_import_declaration_specifier(self) -> bool
        ensures { result ≡ is_import_declaration_specifier self }
    {
        matches!(
            &self,
            NodeType::ImportDefaultSpecifier
                | NodeType::ImportNamespaceSpecifier
                | NodeType::ImportSpecifier
        )
    }

    /// Whether nodes of this type are in `ImportAttributeKey`.
    pub fn is_import_attribute_key(self) -> bool
        ensures { result ≡ is_import_attribute_key self }
    {
        matches!(&self, NodeType::IdentifierName | NodeType::StringLiteral)
    }

    /// Whether nodes of this type are in `ExportDefaultDeclarationKind`.
    pub fn is_export_default_declaration_kind(self) -> bool
        ensures { result ≡ is_export_default_declaration_kind self }
    {
        matches!(&self, NodeType::Function | NodeType::Class) || self.is_expression()
    }
}
