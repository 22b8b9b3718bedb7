// Generated from tools/nodes/table.txt; edit that and run tools/nodes/generate.
// The names of types.
ghost use Rattle.std.specs.Prelude.{◌≡◌, map};
ghost use Rattle.jsgen_fields.specs.Names.{first_named, type_named, in_type_names, in_type_names_2};

use jsgen_tree::NodeType;

const TYPE_NAMES: [(&str, NodeType); 50] = [
    ("Program", NodeType::Program),
    ("Comment", NodeType::Comment),
    ("Directive", NodeType::Directive),
    ("VariableDeclaration", NodeType::VariableDeclaration),
    ("VariableDeclarator", NodeType::VariableDeclarator),
    ("BindingIdentifier", NodeType::BindingIdentifier),
    ("ExpressionStatement", NodeType::ExpressionStatement),
    ("BlockStatement", NodeType::BlockStatement),
    ("IfStatement", NodeType::IfStatement),
    ("EmptyStatement", NodeType::EmptyStatement),
    ("IdentifierReference", NodeType::IdentifierReference),
    ("ThisExpression", NodeType::ThisExpression),
    ("NullLiteral", NodeType::NullLiteral),
    ("BooleanLiteral", NodeType::BooleanLiteral),
    ("NumericLiteral", NodeType::NumericLiteral),
    ("BigIntLiteral", NodeType::BigIntLiteral),
    ("StringLiteral", NodeType::StringLiteral),
    ("RegExpLiteral", NodeType::RegExpLiteral),
    ("ParenthesizedExpression", NodeType::ParenthesizedExpression),
    ("BinaryExpression", NodeType::BinaryExpression),
    ("LogicalExpression", NodeType::LogicalExpression),
    ("IdentifierName", NodeType::IdentifierName),
    ("StaticMemberExpression", NodeType::StaticMemberExpression),
    (
        "ComputedMemberExpression",
        NodeType::ComputedMemberExpression,
    ),
    ("CallExpression", NodeType::CallExpression),
    ("ChainExpression", NodeType::ChainExpression),
    ("SpreadElement", NodeType::SpreadElement),
    ("ArrayExpression", NodeType::ArrayExpression),
    ("ObjectProperty", NodeType::ObjectProperty),
    ("ObjectExpression", NodeType::ObjectExpression),
    ("UnaryExpression", NodeType::UnaryExpression),
    ("NewTarget", NodeType::NewTarget),
    ("UpdateExpression", NodeType::UpdateExpression),
    ("NewExpression", NodeType::NewExpression),
    ("Super", NodeType::Super),
    ("ImportMeta", NodeType::ImportMeta),
    ("ConditionalExpression", NodeType::ConditionalExpression),
    ("SequenceExpression", NodeType::SequenceExpression),
    ("AssignmentExpression", NodeType::AssignmentExpression),
    ("FormalParameter", NodeType::FormalParameter),
    ("FormalParameterRest", NodeType::FormalParameterRest),
    ("FormalParameters", NodeType::FormalParameters),
    ("Function", NodeType::Function),
    ("FunctionBody", NodeType::FunctionBody),
    ("ArrowFunctionExpression", NodeType::ArrowFunctionExpression),
    ("AwaitExpression", NodeType::AwaitExpression),
    ("YieldExpression", NodeType::YieldExpression),
    ("TemplateElement", NodeType::TemplateElement),
    ("TemplateLiteral", NodeType::TemplateLiteral),
    (
        "TaggedTemplateExpression",
        NodeType::TaggedTemplateExpression,
    ),
];

const TYPE_NAMES_2: [(&str, NodeType); 49] = [
    ("ImportExpression", NodeType::ImportExpression),
    ("ForStatement", NodeType::ForStatement),
    ("ForInStatement", NodeType::ForInStatement),
    ("ForOfStatement", NodeType::ForOfStatement),
    ("WhileStatement", NodeType::WhileStatement),
    ("DoWhileStatement", NodeType::DoWhileStatement),
    ("LabelIdentifier", NodeType::LabelIdentifier),
    ("LabeledStatement", NodeType::LabeledStatement),
    ("ContinueStatement", NodeType::ContinueStatement),
    ("BreakStatement", NodeType::BreakStatement),
    ("ReturnStatement", NodeType::ReturnStatement),
    ("ThrowStatement", NodeType::ThrowStatement),
    ("DebuggerStatement", NodeType::DebuggerStatement),
    ("SwitchStatement", NodeType::SwitchStatement),
    ("SwitchCase", NodeType::SwitchCase),
    ("TryStatement", NodeType::TryStatement),
    ("CatchClause", NodeType::CatchClause),
    ("ObjectPattern", NodeType::ObjectPattern),
    ("BindingProperty", NodeType::BindingProperty),
    ("BindingRestElement", NodeType::BindingRestElement),
    ("ArrayPattern", NodeType::ArrayPattern),
    ("AssignmentPattern", NodeType::AssignmentPattern),
    ("ArrayAssignmentTarget", NodeType::ArrayAssignmentTarget),
    ("ObjectAssignmentTarget", NodeType::ObjectAssignmentTarget),
    (
        "AssignmentTargetWithDefault",
        NodeType::AssignmentTargetWithDefault,
    ),
    (
        "AssignmentTargetPropertyIdentifier",
        NodeType::AssignmentTargetPropertyIdentifier,
    ),
    (
        "AssignmentTargetPropertyProperty",
        NodeType::AssignmentTargetPropertyProperty,
    ),
    ("AssignmentTargetRest", NodeType::AssignmentTargetRest),
    ("PrivateIdentifier", NodeType::PrivateIdentifier),
    ("PrivateFieldExpression", NodeType::PrivateFieldExpression),
    ("PrivateInExpression", NodeType::PrivateInExpression),
    ("Class", NodeType::Class),
    ("ClassBody", NodeType::ClassBody),
    ("StaticBlock", NodeType::StaticBlock),
    ("MethodDefinition", NodeType::MethodDefinition),
    ("PropertyDefinition", NodeType::PropertyDefinition),
    ("Hashbang", NodeType::Hashbang),
    ("ImportDeclaration", NodeType::ImportDeclaration),
    ("ImportDefaultSpecifier", NodeType::ImportDefaultSpecifier),
    (
        "ImportNamespaceSpecifier",
        NodeType::ImportNamespaceSpecifier,
    ),
    ("ImportSpecifier", NodeType::ImportSpecifier),
    ("WithClause", NodeType::WithClause),
    ("ImportAttribute", NodeType::ImportAttribute),
    ("ExportDeclaration", NodeType::ExportDeclaration),
    ("ExportNamedDeclaration", NodeType::ExportNamedDeclaration),
    ("ExportFromDeclaration", NodeType::ExportFromDeclaration),
    ("ExportSpecifier", NodeType::ExportSpecifier),
    ("ExportAllDeclaration", NodeType::ExportAllDeclaration),
    (
        "ExportDefaultDeclaration",
        NodeType::ExportDefaultDeclaration,
    ),
];

fn first_named(names: &[(&str, NodeType)], name: &str) -> Option<NodeType>
    ensures { result ≡ first_named (map (λ n. (n.0.now, n.1)) names.now) name.now }
{
    for named in names {
        if name == named.0 {
            return Some(named.1);
        }
    }
    None
}

#[tactic(auto, unfolding(crate::specs::Names::in_type_names))]
fn in_type_names(name: &str) -> Option<NodeType>
    ensures { result ≡ in_type_names name.now }
{
    first_named(&TYPE_NAMES, name)
}

#[tactic(auto, unfolding(crate::specs::Names::in_type_names_2))]
fn in_type_names_2(name: &str) -> Option<NodeType>
    ensures { result ≡ in_type_names_2 name.now }
{
    first_named(&TYPE_NAMES_2, name)
}

/// The type that a name names.
pub fn type_by_name(name: &str) -> Option<NodeType>
    ensures { result ≡ type_named name.now }
{
    if let Some(found) = in_type_names(name) {
        return Some(found);
    }
    in_type_names_2(name)
}
