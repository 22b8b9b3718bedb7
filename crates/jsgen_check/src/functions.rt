// Generated from tools/nodes/table.txt; edit that and run tools/nodes/generate.
// Functions and their parameters (ECMA-262, clause 15).
ghost use Rattle.std.specs.Prelude.{◌≡◌};
ghost use Rattle.jsgen_tree.specs.Rows.{formal_parameter_row, formal_parameter_rest_row, formal_parameters_row, function_row, function_body_row, arrow_function_expression_row, await_expression_row, yield_expression_row};
ghost use Rattle.jsgen_model.specs.Resolved.{after};
ghost use Rattle.jsgen_check.specs.Verdict.{surroundings_plain, tree_verdict, SameNumber};

use crate::children::{
    check_arrow_function_body, check_optional_binding_identifier, check_optional_expression,
    check_optional_formal_parameter_rest, check_optional_function_body,
};
use crate::heights::{check_node, higher};
use crate::lists::{check_directives, check_each_formal_parameter, check_statements};
use crate::rules::{
    check_await_expression_rules, check_function_rules, check_yield_expression_rules,
};
use crate::{CheckNode, Surroundings, check_child};
use jsgen_model::TreeFault;
use jsgen_rules::Classes;
use jsgen_tree::{
    ArrowFunctionExpression, AwaitExpression, FormalParameter, FormalParameterRest,
    FormalParameters, Function, FunctionBody, NodeSet, YieldExpression,
};

#[inline(never)]
pub fn check_formal_parameter<N: CheckNode>(
    node: &FormalParameter<N>,
    around: &Surroundings<'_>,
    classes: Option<&Classes<'_>>,
    next: &mut usize,
) -> Result<u64, TreeFault>
    ensures found { result ≡ tree_verdict (surroundings_plain around.now classes.entry) next.old (formal_parameter_row N.plain node.now) }
    ensures number { SameNumber (surroundings_plain around.now classes.entry) next.new (after (formal_parameter_row N.plain node.now) next.old) }
{
    let pattern = check_child(
        node.pattern.get(),
        NodeSet::BindingPattern,
        around,
        classes,
        next,
    );
    let initializer = check_optional_expression(&node.initializer, around, classes, next);
    check_node(
        around,
        classes,
        node.span,
        Ok(()),
        higher(pattern, initializer),
    )
}

#[inline(never)]
pub fn check_formal_parameter_rest<N: CheckNode>(
    node: &FormalParameterRest<N>,
    around: &Surroundings<'_>,
    classes: Option<&Classes<'_>>,
    next: &mut usize,
) -> Result<u64, TreeFault>
    ensures found { result ≡ tree_verdict (surroundings_plain around.now classes.entry) next.old (formal_parameter_rest_row N.plain node.now) }
    ensures number { SameNumber (surroundings_plain around.now classes.entry) next.new (after (formal_parameter_rest_row N.plain node.now) next.old) }
{
    let argument = check_child(
        node.argument.get(),
        NodeSet::BindingPattern,
        around,
        classes,
        next,
    );
    check_node(around, classes, node.span, Ok(()), argument)
}

#[inline(never)]
pub fn check_formal_parameters<N: CheckNode>(
    node: &FormalParameters<N>,
    around: &Surroundings<'_>,
    classes: Option<&Classes<'_>>,
    next: &mut usize,
) -> Result<u64, TreeFault>
    ensures found { result ≡ tree_verdict (surroundings_plain around.now classes.entry) next.old (formal_parameters_row N.plain node.now) }
    ensures number { SameNumber (surroundings_plain around.now classes.entry) next.new (after (formal_parameters_row N.plain node.now) next.old) }
{
    let items = check_each_formal_parameter(&node.items, around, classes, next);
    let rest = check_optional_formal_parameter_rest(&node.rest, around, classes, next);
    check_node(around, classes, node.span, Ok(()), higher(items, rest))
}

#[inline(never)]
pub fn check_function<N: CheckNode>(
    node: &Function<N>,
    around: &Surroundings<'_>,
    classes: Option<&Classes<'_>>,
    next: &mut usize,
) -> Result<u64, TreeFault>
    ensures found { result ≡ tree_verdict (surroundings_plain around.now classes.entry) next.old (function_row N.plain node.now) }
    ensures number { SameNumber (surroundings_plain around.now classes.entry) next.new (after (function_row N.plain node.now) next.old) }
{
    let rules = check_function_rules(node, around, classes);
    let outside = around.within_nothing();
    let within = around.within_function(node.is_async, node.generator);
    let id = check_optional_binding_identifier(&node.id, around, classes, next);
    let params = check_formal_parameters(&node.params, &outside, classes, next);
    let body = check_optional_function_body(&node.body, &within, classes, next);
    check_node(
        around,
        classes,
        node.span,
        rules,
        higher(id, higher(params, body)),
    )
}

#[inline(never)]
pub fn check_function_body<N: CheckNode>(
    node: &FunctionBody<N>,
    around: &Surroundings<'_>,
    classes: Option<&Classes<'_>>,
    next: &mut usize,
) -> Result<u64, TreeFault>
    ensures found { result ≡ tree_verdict (surroundings_plain around.now classes.entry) next.old (function_body_row N.plain node.now) }
    ensures number { SameNumber (surroundings_plain around.now classes.entry) next.new (after (function_body_row N.plain node.now) next.old) }
{
    let within = around.within_braces();
    let directives = check_directives(&node.directives, &within, classes, next);
    let statements = check_statements(&node.statements, &within, classes, next);
    check_node(
        around,
        classes,
        node.span,
        Ok(()),
        higher(directives, statements),
    )
}

#[inline(never)]
pub fn check_arrow_function_expression<N: CheckNode>(
    node: &ArrowFunctionExpression<N>,
    around: &Surroundings<'_>,
    classes: Option<&Classes<'_>>,
    next: &mut usize,
) -> Result<u64, TreeFault>
    ensures found { result ≡ tree_verdict (surroundings_plain around.now classes.entry) next.old (arrow_function_expression_row N.plain node.now) }
    ensures number { SameNumber (surroundings_plain around.now classes.entry) next.new (after (arrow_function_expression_row N.plain node.now) next.old) }
{
    let outside = around.within_nothing();
    let within = around.within_arrow(node.is_async);
    let params = check_formal_parameters(&node.params, &outside, classes, next);
    let body = check_arrow_function_body(&node.body, &within, classes, next);
    check_node(around, classes, node.span, Ok(()), higher(params, body))
}

#[inline(never)]
pub fn check_await_expression<N: CheckNode>(
    node: &AwaitExpression<N>,
    around: &Surroundings<'_>,
    classes: Option<&Classes<'_>>,
    next: &mut usize,
) -> Result<u64, TreeFault>
    ensures found { result ≡ tree_verdict (surroundings_plain around.now classes.entry) next.old (await_expression_row N.plain node.now) }
    ensures number { SameNumber (surroundings_plain around.now classes.entry) next.new (after (await_expression_row N.plain node.now) next.old) }
{
    let rules = check_await_expression_rules(node, around, classes);
    let argument = check_child(
        node.argument.get(),
        NodeSet::Expression,
        around,
        classes,
        next,
    );
    check_node(around, classes, node.span, rules, argument)
}

#[inline(never)]
pub fn check_yield_expression<N: CheckNode>(
    node: &YieldExpression<N>,
    around: &Surroundings<'_>,
    classes: Option<&Classes<'_>>,
    next: &mut usize,
) -> Result<u64, TreeFault>
    ensures found { result ≡ tree_verdict (surroundings_plain around.now classes.entry) next.old (yield_expression_row N.plain node.now) }
    ensures number { SameNumber (surroundings_plain around.now classes.entry) next.new (after (yield_expression_row N.plain node.now) next.old) }
{
    let rules = check_yield_expression_rules(node, around, classes);
    let argument = check_optional_expression(&node.argument, around, classes, next);
    check_node(around, classes, node.span, rules, argument)
}
