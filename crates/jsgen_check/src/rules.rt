// The rules that the rows of some types have of their own, beside their spans and their children's sets.
#![tactic(auto, unfolding(jsgen_rules::specs::Verdict::verdict))]

ghost use Rattle.std.specs.Prelude.{◌≡◌, map};
ghost use Rattle.jsgen_tree.specs.Tree.{trees};
ghost use Rattle.jsgen_tree.specs.Rows.{comment_row, directive_row, variable_declaration_row, variable_declarator_row, binding_identifier_row, identifier_reference_row, numeric_literal_row, big_int_literal_row, reg_exp_literal_row, identifier_name_row, label_identifier_row, in_expression, sequence_expression_row};
ghost use Rattle.jsgen_model.specs.Valid.{own_faults, declaration_faults, sequence_faults};
ghost use Rattle.jsgen_rules.specs.Verdict.{verdict};
ghost use Rattle.jsgen_check.specs.Verdict.{surroundings_plain};

mod classes;
mod functions;
mod keys;
mod links;
mod modules;
mod patterns;
mod statements;
mod targets;
mod templates;

use crate::{CheckNode, Surroundings};
pub use classes::{
    check_method_definition_rules, check_private_identifier_rules, check_property_definition_rules,
};
pub use functions::{
    check_await_expression_rules, check_function_rules, check_return_statement_rules,
    check_yield_expression_rules,
};
use jsgen_model::TreeFault;
use jsgen_rules::{
    Classes, check_big_integer, check_binding, check_comment, check_label, check_raw,
    check_raw_number, check_reference, check_regular_expression, check_written_name,
};
use jsgen_syntax::Span;
use jsgen_tree::{
    BigIntLiteral, BindingIdentifier, Comment, Directive, ExpressionNode, IdentifierName,
    IdentifierReference, LabelIdentifier, NumericLiteral, NumericValue, RegExpLiteral,
    SequenceExpression, VariableDeclaration, VariableDeclarator,
};
pub use keys::check_object_property_rules;
pub use links::{
    check_call_expression_rules, check_chain_expression_rules,
    check_computed_member_expression_rules, check_private_field_expression_rules,
    check_static_member_expression_rules, check_update_expression_rules,
};
pub use modules::{
    check_export_from_declaration_rules, check_export_named_declaration_rules,
    check_hashbang_rules, check_import_declaration_rules,
};
pub use patterns::{
    binds_nothing, check_binding_property_rules, check_object_pattern_rules, unbound,
};
pub use statements::{
    check_do_while_statement_rules, check_for_in_statement_rules, check_for_of_statement_rules,
    check_for_statement_rules, check_if_statement_rules, check_labeled_statement_rules,
    check_switch_statement_rules, check_try_statement_rules, check_while_statement_rules,
};
pub use targets::{
    check_assignment_expression_rules, check_assignment_target_property_identifier_rules,
    check_assignment_target_property_property_rules, check_assignment_target_rest_rules,
    check_assignment_target_with_default_rules, check_object_assignment_target_rules,
};
pub use templates::{check_template_element_rules, check_template_literal_rules};

#[tactic(auto, unfolding(crate::specs::Verdict::surroundings_plain))]
pub fn check_comment_rules(
    node: &Comment,
    around: &Surroundings<'_>,
    classes: Option<&Classes<'_>>,
) -> Result<(), TreeFault>
    ensures { result ≡ verdict (own_faults (surroundings_plain around.now classes.entry) (comment_row node.now)) }
{
    let _ = classes;
    check_comment(around.source, node.span, node.kind)
}

#[tactic(auto)]
pub fn check_directive_rules(
    node: &Directive,
    around: &Surroundings<'_>,
    classes: Option<&Classes<'_>>,
) -> Result<(), TreeFault>
    ensures { result ≡ verdict (own_faults (surroundings_plain around.now classes.entry) (directive_row node.now)) }
{
    let _ = classes;
    let _ = around;
    check_raw(&node.directive, node.span)
}

#[tactic(auto)]
fn check_count<N: CheckNode>(
    declarators: &[VariableDeclarator<N>],
    span: Span,
) -> Result<(), TreeFault>
    ensures { result ≡ verdict (declaration_faults span (trees (map (variable_declarator_row N.plain) declarators.now))) }
{
    if declarators.is_empty() {
        return Err(TreeFault::Place { start: span.start });
    }
    Ok(())
}

#[tactic(auto)]
pub fn check_variable_declaration_rules<N: CheckNode>(
    node: &VariableDeclaration<N>,
    around: &Surroundings<'_>,
    classes: Option<&Classes<'_>>,
) -> Result<(), TreeFault>
    ensures { result ≡ verdict (own_faults (surroundings_plain around.now classes.entry) (variable_declaration_row N.plain node.now)) }
{
    let _ = classes;
    let _ = around;
    check_count(&node.declarations, node.span)
}

#[tactic(auto)]
fn check_parts<N: CheckNode>(parts: &[ExpressionNode<N>], span: Span) -> Result<(), TreeFault>
    ensures { result ≡ verdict (sequence_faults span (trees (map (in_expression N.plain) parts.now))) }
{
    if parts.len() < 2 {
        return Err(TreeFault::Place { start: span.start });
    }
    Ok(())
}

#[tactic(auto)]
pub fn check_sequence_expression_rules<N: CheckNode>(
    node: &SequenceExpression<N>,
    around: &Surroundings<'_>,
    classes: Option<&Classes<'_>>,
) -> Result<(), TreeFault>
    ensures { result ≡ verdict (own_faults (surroundings_plain around.now classes.entry) (sequence_expression_row N.plain node.now)) }
{
    let _ = classes;
    let _ = around;
    check_parts(&node.expressions, node.span)
}

#[tactic(auto)]
pub fn check_binding_identifier_rules(
    node: &BindingIdentifier,
    around: &Surroundings<'_>,
    classes: Option<&Classes<'_>>,
) -> Result<(), TreeFault>
    ensures { result ≡ verdict (own_faults (surroundings_plain around.now classes.entry) (binding_identifier_row node.now)) }
{
    let _ = classes;
    check_binding(around.tables, node.symbol, &node.name, node.span)
}

#[tactic(auto)]
pub fn check_identifier_reference_rules(
    node: &IdentifierReference,
    around: &Surroundings<'_>,
    classes: Option<&Classes<'_>>,
) -> Result<(), TreeFault>
    ensures { result ≡ verdict (own_faults (surroundings_plain around.now classes.entry) (identifier_reference_row node.now)) }
{
    let _ = classes;
    check_reference(around.tables, node.reference, &node.name, node.span)
}

#[tactic(auto)]
pub fn check_numeric_literal_rules(
    node: &NumericLiteral,
    around: &Surroundings<'_>,
    classes: Option<&Classes<'_>>,
) -> Result<(), TreeFault>
    ensures { result ≡ verdict (own_faults (surroundings_plain around.now classes.entry) (numeric_literal_row node.now)) }
{
    let _ = classes;
    let _ = around;
    match &node.value {
        NumericValue::Whole { .. } => Ok(()),
        NumericValue::Raw(text) => check_raw_number(text, node.span),
    }
}

#[tactic(auto)]
pub fn check_reg_exp_literal_rules(
    node: &RegExpLiteral,
    around: &Surroundings<'_>,
    classes: Option<&Classes<'_>>,
) -> Result<(), TreeFault>
    ensures { result ≡ verdict (own_faults (surroundings_plain around.now classes.entry) (reg_exp_literal_row node.now)) }
{
    let _ = classes;
    let _ = around;
    check_regular_expression(&node.pattern, &node.flags, node.span)
}

#[tactic(auto)]
pub fn check_big_int_literal_rules(
    node: &BigIntLiteral,
    around: &Surroundings<'_>,
    classes: Option<&Classes<'_>>,
) -> Result<(), TreeFault>
    ensures { result ≡ verdict (own_faults (surroundings_plain around.now classes.entry) (big_int_literal_row node.now)) }
{
    let _ = classes;
    let _ = around;
    check_big_integer(&node.value, node.span)
}

#[tactic(auto)]
pub fn check_identifier_name_rules(
    node: &IdentifierName,
    around: &Surroundings<'_>,
    classes: Option<&Classes<'_>>,
) -> Result<(), TreeFault>
    ensures { result ≡ verdict (own_faults (surroundings_plain around.now classes.entry) (identifier_name_row node.now)) }
{
    let _ = classes;
    let _ = around;
    check_written_name(&node.name, node.span)
}

#[tactic(auto)]
pub fn check_label_identifier_rules(
    node: &LabelIdentifier,
    around: &Surroundings<'_>,
    classes: Option<&Classes<'_>>,
) -> Result<(), TreeFault>
    ensures { result ≡ verdict (own_faults (surroundings_plain around.now classes.entry) (label_identifier_row node.now)) }
{
    let _ = classes;
    let _ = around;
    check_label(&node.name, node.span)
}
