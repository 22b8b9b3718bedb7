// Generated from tools/nodes/table.txt; edit that and run tools/nodes/generate.
// Programs, statements and declarations (ECMA-262, clauses 14 and 16).
ghost use Rattle.std.specs.Prelude.{◌≡◌};
ghost use Rattle.jsgen_tree.specs.Rows.{comment_row, directive_row, variable_declaration_row, variable_declarator_row, binding_identifier_row, expression_statement_row, block_statement_row, if_statement_row, empty_statement_row};
ghost use Rattle.jsgen_model.specs.Resolved.{after};
ghost use Rattle.jsgen_check.specs.Verdict.{surroundings_plain, tree_verdict, SameNumber};

use crate::children::{check_optional_expression, check_optional_statement};
use crate::heights::{check_node, higher};
use crate::lists::{check_statements, check_variable_declarators};
use crate::rules::{
    check_binding_identifier_rules, check_comment_rules, check_directive_rules,
    check_if_statement_rules, check_variable_declaration_rules,
};
use crate::{CheckNode, Surroundings, check_child};
use jsgen_model::TreeFault;
use jsgen_rules::Classes;
use jsgen_tree::{
    BindingIdentifier, BlockStatement, Comment, Directive, EmptyStatement, ExpressionStatement,
    IfStatement, NodeSet, VariableDeclaration, VariableDeclarator,
};

pub fn check_comment(
    node: &Comment,
    around: &Surroundings<'_>,
    classes: Option<&Classes<'_>>,
    next: &mut usize,
) -> Result<u64, TreeFault>
    ensures found { result ≡ tree_verdict (surroundings_plain around.now classes.entry) next.old (comment_row node.now) }
    ensures number { SameNumber (surroundings_plain around.now classes.entry) next.new (after (comment_row node.now) next.old) }
{
    let rules = check_comment_rules(node, around, classes);
    let _ = next;
    check_node(around, classes, node.span, rules, Ok(0))
}

pub fn check_directive(
    node: &Directive,
    around: &Surroundings<'_>,
    classes: Option<&Classes<'_>>,
    next: &mut usize,
) -> Result<u64, TreeFault>
    ensures found { result ≡ tree_verdict (surroundings_plain around.now classes.entry) next.old (directive_row node.now) }
    ensures number { SameNumber (surroundings_plain around.now classes.entry) next.new (after (directive_row node.now) next.old) }
{
    let rules = check_directive_rules(node, around, classes);
    let _ = next;
    check_node(around, classes, node.span, rules, Ok(0))
}

#[inline(never)]
pub fn check_variable_declaration<N: CheckNode>(
    node: &VariableDeclaration<N>,
    around: &Surroundings<'_>,
    classes: Option<&Classes<'_>>,
    next: &mut usize,
) -> Result<u64, TreeFault>
    ensures found { result ≡ tree_verdict (surroundings_plain around.now classes.entry) next.old (variable_declaration_row N.plain node.now) }
    ensures number { SameNumber (surroundings_plain around.now classes.entry) next.new (after (variable_declaration_row N.plain node.now) next.old) }
{
    let rules = check_variable_declaration_rules(node, around, classes);
    let declarations = check_variable_declarators(&node.declarations, around, classes, next);
    check_node(around, classes, node.span, rules, declarations)
}

#[inline(never)]
pub fn check_variable_declarator<N: CheckNode>(
    node: &VariableDeclarator<N>,
    around: &Surroundings<'_>,
    classes: Option<&Classes<'_>>,
    next: &mut usize,
) -> Result<u64, TreeFault>
    ensures found { result ≡ tree_verdict (surroundings_plain around.now classes.entry) next.old (variable_declarator_row N.plain node.now) }
    ensures number { SameNumber (surroundings_plain around.now classes.entry) next.new (after (variable_declarator_row N.plain node.now) next.old) }
{
    let id = check_child(
        node.id.get(),
        NodeSet::BindingPattern,
        around,
        classes,
        next,
    );
    let init = check_optional_expression(&node.init, around, classes, next);
    check_node(around, classes, node.span, Ok(()), higher(id, init))
}

pub fn check_binding_identifier(
    node: &BindingIdentifier,
    around: &Surroundings<'_>,
    classes: Option<&Classes<'_>>,
    next: &mut usize,
) -> Result<u64, TreeFault>
    ensures found { result ≡ tree_verdict (surroundings_plain around.now classes.entry) next.old (binding_identifier_row node.now) }
    ensures number { SameNumber (surroundings_plain around.now classes.entry) next.new (after (binding_identifier_row node.now) next.old) }
{
    let rules = check_binding_identifier_rules(node, around, classes);
    let _ = next;
    check_node(around, classes, node.span, rules, Ok(0))
}

#[inline(never)]
pub fn check_expression_statement<N: CheckNode>(
    node: &ExpressionStatement<N>,
    around: &Surroundings<'_>,
    classes: Option<&Classes<'_>>,
    next: &mut usize,
) -> Result<u64, TreeFault>
    ensures found { result ≡ tree_verdict (surroundings_plain around.now classes.entry) next.old (expression_statement_row N.plain node.now) }
    ensures number { SameNumber (surroundings_plain around.now classes.entry) next.new (after (expression_statement_row N.plain node.now) next.old) }
{
    let expression = check_child(
        node.expression.get(),
        NodeSet::Expression,
        around,
        classes,
        next,
    );
    check_node(around, classes, node.span, Ok(()), expression)
}

#[inline(never)]
pub fn check_block_statement<N: CheckNode>(
    node: &BlockStatement<N>,
    around: &Surroundings<'_>,
    classes: Option<&Classes<'_>>,
    next: &mut usize,
) -> Result<u64, TreeFault>
    ensures found { result ≡ tree_verdict (surroundings_plain around.now classes.entry) next.old (block_statement_row N.plain node.now) }
    ensures number { SameNumber (surroundings_plain around.now classes.entry) next.new (after (block_statement_row N.plain node.now) next.old) }
{
    let body = check_statements(&node.body, around, classes, next);
    check_node(around, classes, node.span, Ok(()), body)
}

#[inline(never)]
pub fn check_if_statement<N: CheckNode>(
    node: &IfStatement<N>,
    around: &Surroundings<'_>,
    classes: Option<&Classes<'_>>,
    next: &mut usize,
) -> Result<u64, TreeFault>
    ensures found { result ≡ tree_verdict (surroundings_plain around.now classes.entry) next.old (if_statement_row N.plain node.now) }
    ensures number { SameNumber (surroundings_plain around.now classes.entry) next.new (after (if_statement_row N.plain node.now) next.old) }
{
    let rules = check_if_statement_rules(node, around, classes);
    let test = check_child(node.test.get(), NodeSet::Expression, around, classes, next);
    let consequent = check_child(
        node.consequent.get(),
        NodeSet::Statement,
        around,
        classes,
        next,
    );
    let alternate = check_optional_statement(&node.alternate, around, classes, next);
    check_node(
        around,
        classes,
        node.span,
        rules,
        higher(test, higher(consequent, alternate)),
    )
}

pub fn check_empty_statement(
    node: &EmptyStatement,
    around: &Surroundings<'_>,
    classes: Option<&Classes<'_>>,
    next: &mut usize,
) -> Result<u64, TreeFault>
    ensures found { result ≡ tree_verdict (surroundings_plain around.now classes.entry) next.old (empty_statement_row node.now) }
    ensures number { SameNumber (surroundings_plain around.now classes.entry) next.new (after (empty_statement_row node.now) next.old) }
{
    let _ = next;
    check_node(around, classes, node.span, Ok(()), Ok(0))
}
