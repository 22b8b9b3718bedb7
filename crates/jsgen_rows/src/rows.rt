// Generated from tools/nodes/table.txt; edit that and run tools/nodes/generate.
// The rows of a job, by their types.
ghost use Rattle.std.specs.Prelude.{◌≡◌};
ghost use Rattle.jsgen_fields.specs.Given.{row_data};
ghost use Rattle.jsgen_fields.specs.Reads.{Gives, read_typed};
ghost use Rattle.jsgen_pool.specs.Pool.{entries};
ghost use Rattle.jsgen_fields.specs.Parts.{is_in_statements, is_in_expressions, is_in_collections, is_in_operations, is_in_assignments, is_in_functions, is_in_templates, is_in_loops, is_in_choices, is_in_patterns, is_in_targets, is_in_classes};

use jsgen_class_rows::classes::read_in_classes;
use jsgen_expression_rows::assignments::read_in_assignments;
use jsgen_expression_rows::collections::read_in_collections;
use jsgen_expression_rows::expressions::read_in_expressions;
use jsgen_expression_rows::functions::read_in_functions;
use jsgen_expression_rows::operations::read_in_operations;
use jsgen_expression_rows::templates::read_in_templates;
use jsgen_fields::InputFault;
use jsgen_fields::given::GivenRow;
use jsgen_kept::asked::{ReadNode, RowOf};
use jsgen_module_rows::modules::read_in_modules;
use jsgen_pattern_rows::patterns::read_in_patterns;
use jsgen_pattern_rows::targets::read_in_targets;
use jsgen_pool::Kept;
use jsgen_statement_rows::choices::read_in_choices;
use jsgen_statement_rows::loops::read_in_loops;
use jsgen_statement_rows::statements::read_in_statements;
use jsgen_syntax::Span;
use jsgen_tree::NodeType;
use std::alloc::Global;

fn is_in_statements(node_type: NodeType) -> bool
    ensures { result ≡ is_in_statements node_type }
{
    matches!(
        &node_type,
        NodeType::Program
            | NodeType::Comment
            | NodeType::Directive
            | NodeType::VariableDeclaration
            | NodeType::VariableDeclarator
            | NodeType::BindingIdentifier
            | NodeType::ExpressionStatement
            | NodeType::BlockStatement
            | NodeType::IfStatement
            | NodeType::EmptyStatement
    )
}

fn is_in_expressions(node_type: NodeType) -> bool
    ensures { result ≡ is_in_expressions node_type }
{
    matches!(
        &node_type,
        NodeType::IdentifierReference
            | NodeType::ThisExpression
            | NodeType::NullLiteral
            | NodeType::BooleanLiteral
            | NodeType::NumericLiteral
            | NodeType::BigIntLiteral
            | NodeType::StringLiteral
            | NodeType::RegExpLiteral
            | NodeType::ParenthesizedExpression
            | NodeType::BinaryExpression
            | NodeType::LogicalExpression
            | NodeType::IdentifierName
            | NodeType::StaticMemberExpression
            | NodeType::ComputedMemberExpression
            | NodeType::CallExpression
            | NodeType::ChainExpression
    )
}

fn is_in_collections(node_type: NodeType) -> bool
    ensures { result ≡ is_in_collections node_type }
{
    matches!(
        &node_type,
        NodeType::SpreadElement
            | NodeType::ArrayExpression
            | NodeType::ObjectProperty
            | NodeType::ObjectExpression
    )
}

fn is_in_operations(node_type: NodeType) -> bool
    ensures { result ≡ is_in_operations node_type }
{
    matches!(
        &node_type,
        NodeType::UnaryExpression
            | NodeType::NewTarget
            | NodeType::UpdateExpression
            | NodeType::NewExpression
            | NodeType::Super
            | NodeType::ImportMeta
    )
}

fn is_in_assignments(node_type: NodeType) -> bool
    ensures { result ≡ is_in_assignments node_type }
{
    matches!(
        &node_type,
        NodeType::ConditionalExpression
            | NodeType::SequenceExpression
            | NodeType::AssignmentExpression
    )
}

fn is_in_functions(node_type: NodeType) -> bool
    ensures { result ≡ is_in_functions node_type }
{
    matches!(
        &node_type,
        NodeType::FormalParameter
            | NodeType::FormalParameterRest
            | NodeType::FormalParameters
            | NodeType::Function
            | NodeType::FunctionBody
            | NodeType::ArrowFunctionExpression
            | NodeType::AwaitExpression
            | NodeType::YieldExpression
    )
}

fn is_in_templates(node_type: NodeType) -> bool
    ensures { result ≡ is_in_templates node_type }
{
    matches!(
        &node_type,
        NodeType::TemplateElement
            | NodeType::TemplateLiteral
            | NodeType::TaggedTemplateExpression
            | NodeType::ImportExpression
    )
}

fn is_in_loops(node_type: NodeType) -> bool
    ensures { result ≡ is_in_loops node_type }
{
    matches!(
        &node_type,
        NodeType::ForStatement
            | NodeType::ForInStatement
            | NodeType::ForOfStatement
            | NodeType::WhileStatement
            | NodeType::DoWhileStatement
            | NodeType::LabelIdentifier
            | NodeType::LabeledStatement
            | NodeType::ContinueStatement
            | NodeType::BreakStatement
            | NodeType::ReturnStatement
            | NodeType::ThrowStatement
            | NodeType::DebuggerStatement
    )
}

fn is_in_choices(node_type: NodeType) -> bool
    ensures { result ≡ is_in_choices node_type }
{
    matches!(
        &node_type,
        NodeType::SwitchStatement
            | NodeType::SwitchCase
            | NodeType::TryStatement
            | NodeType::CatchClause
    )
}

fn is_in_patterns(node_type: NodeType) -> bool
    ensures { result ≡ is_in_patterns node_type }
{
    matches!(
        &node_type,
        NodeType::ObjectPattern
            | NodeType::BindingProperty
            | NodeType::BindingRestElement
            | NodeType::ArrayPattern
            | NodeType::AssignmentPattern
    )
}

fn is_in_targets(node_type: NodeType) -> bool
    ensures { result ≡ is_in_targets node_type }
{
    matches!(
        &node_type,
        NodeType::ArrayAssignmentTarget
            | NodeType::ObjectAssignmentTarget
            | NodeType::AssignmentTargetWithDefault
            | NodeType::AssignmentTargetPropertyIdentifier
            | NodeType::AssignmentTargetPropertyProperty
            | NodeType::AssignmentTargetRest
    )
}

fn is_in_classes(node_type: NodeType) -> bool
    ensures { result ≡ is_in_classes node_type }
{
    matches!(
        &node_type,
        NodeType::PrivateIdentifier
            | NodeType::PrivateFieldExpression
            | NodeType::PrivateInExpression
            | NodeType::Class
            | NodeType::ClassBody
            | NodeType::StaticBlock
            | NodeType::MethodDefinition
            | NodeType::PropertyDefinition
    )
}

/// The row of a type.
pub fn read_typed<N: ReadNode + Drop, R: RowOf<N> + Drop>(
    alloc: Global,
    kept: &mut Vec<Kept<R>>,
    node_type: NodeType,
    number: usize,
    span: Span,
    row: &GivenRow<'_>,
) -> Result<R, InputFault>
    ensures { Gives R.plain result (entries R.plain kept.new.items)
        (read_typed number node_type span (row_data row.now) (entries R.plain kept.old.items)) }
{
    if is_in_statements(node_type) {
        return read_in_statements::<N, R>(alloc, kept, node_type, number, span, row);
    }
    if is_in_expressions(node_type) {
        return read_in_expressions::<N, R>(alloc, kept, node_type, number, span, row);
    }
    if is_in_collections(node_type) {
        return read_in_collections::<N, R>(alloc, kept, node_type, number, span, row);
    }
    if is_in_operations(node_type) {
        return read_in_operations::<N, R>(alloc, kept, node_type, number, span, row);
    }
    if is_in_assignments(node_type) {
        return read_in_assignments::<N, R>(alloc, kept, node_type, number, span, row);
    }
    if is_in_functions(node_type) {
        return read_in_functions::<N, R>(alloc, kept, node_type, number, span, row);
    }
    if is_in_templates(node_type) {
        return read_in_templates::<N, R>(alloc, kept, node_type, number, span, row);
    }
    if is_in_loops(node_type) {
        return read_in_loops::<N, R>(alloc, kept, node_type, number, span, row);
    }
    if is_in_choices(node_type) {
        return read_in_choices::<N, R>(alloc, kept, node_type, number, span, row);
    }
    if is_in_patterns(node_type) {
        return read_in_patterns::<N, R>(alloc, kept, node_type, number, span, row);
    }
    if is_in_targets(node_type) {
        return read_in_targets::<N, R>(alloc, kept, node_type, number, span, row);
    }
    if is_in_classes(node_type) {
        return read_in_classes::<N, R>(alloc, kept, node_type, number, span, row);
    }
    read_in_modules::<N, R>(alloc, kept, node_type, number, span, row)
}
