// The parts of statements: bodies, heads of loops, cases, handlers.
#![tactic(auto, unfolding(jsgen_rules::specs::Verdict::verdict))]

ghost use Rattle.std.specs.Prelude.{◌≡◌, ◌++◌, map, option_map};
ghost use Rattle.jsgen_tree.specs.Tree.{optional, trees};
ghost use Rattle.jsgen_tree.specs.Rows.{if_statement_row, for_statement_row, for_in_statement_row, for_of_statement_row, while_statement_row, do_while_statement_row, labeled_statement_row, switch_statement_row, switch_case_row, try_statement_row, variable_declarator_row, in_statement, in_for_statement_left};
ghost use Rattle.jsgen_model.specs.Valid.{own_faults, body_faults, alternate_faults, left_faults, is_one_name, defaults};
ghost use Rattle.jsgen_rules.specs.Verdict.{verdict};
ghost use Rattle.jsgen_check.specs.Verdict.{surroundings_plain};

use crate::links::{
    computed_member_has_optional_link, private_member_has_optional_link,
    static_member_has_optional_link,
};
use crate::rules::patterns::check_init;
use crate::{CheckNode, Surroundings};
use jsgen_model::TreeFault;
use jsgen_rules::{
    Classes, check_await, check_body, check_defaults, check_ends, check_no_optional_link,
    check_one_name,
};
use jsgen_tree::{
    DoWhileStatement, ForInStatement, ForOfStatement, ForStatement, ForStatementLeft, IfStatement,
    LabeledStatement, StatementNode, SwitchCase, SwitchStatement, TryStatement, VariableDeclarator,
    WhileStatement,
};

/// What a statement is followed by is no declaration.
fn check_followed<N: CheckNode>(body: &N) -> Result<(), TreeFault>
    ensures { result ≡ verdict (body_faults (N.plain body.now)) }
{
    check_body(body.is_declaration(), body.start())
}

fn check_alternate<N: CheckNode>(alternate: &Option<StatementNode<N>>) -> Result<(), TreeFault>
    ensures { result ≡ verdict (alternate_faults (optional (option_map (in_statement N.plain) alternate.now))) }
{
    match alternate {
        Some(alternate) => check_followed(alternate.get()),
        None => Ok(()),
    }
}

#[tactic(auto)]
pub fn check_if_statement_rules<N: CheckNode>(
    node: &IfStatement<N>,
    around: &Surroundings<'_>,
    classes: Option<&Classes<'_>>,
) -> Result<(), TreeFault>
    ensures { result ≡ verdict (own_faults (surroundings_plain around.now classes.entry) (if_statement_row N.plain node.now)) }
{
    let _ = classes;
    let _ = around;
    check_followed(node.consequent.get())?;
    check_alternate(&node.alternate)
}

#[tactic(auto)]
pub fn check_for_statement_rules<N: CheckNode>(
    node: &ForStatement<N>,
    around: &Surroundings<'_>,
    classes: Option<&Classes<'_>>,
) -> Result<(), TreeFault>
    ensures { result ≡ verdict (own_faults (surroundings_plain around.now classes.entry) (for_statement_row N.plain node.now)) }
{
    let _ = classes;
    let _ = around;
    check_init(&node.init)?;
    check_followed(node.body.get())
}

/// Whether a declaration declares one name or one pattern, without a value.
fn is_one_name<N: CheckNode>(declarators: &[VariableDeclarator<N>]) -> bool
    ensures { result ≡ is_one_name (trees (map (variable_declarator_row N.plain) declarators.now)) }
{
    match declarators {
        [declarator] => declarator.init.is_none(),
        _ => false,
    }
}

/// What a loop gives its values is a declaration of one name or one pattern, or a target without an optional link.
fn check_left<N: CheckNode>(left: &ForStatementLeft<N>) -> Result<(), TreeFault>
    ensures { result ≡ verdict (left_faults (in_for_statement_left N.plain left.now)) }
{
    match left {
        ForStatementLeft::VariableDeclaration(node) => check_one_name(
            is_one_name(&node.declarations),
            node.span,
        ),
        ForStatementLeft::AssignmentTarget(node) => check_left_target(node.get()),
    }
}

fn check_left_target<N: CheckNode>(target: &N) -> Result<(), TreeFault>
    ensures { result ≡ verdict (left_faults (N.plain target.now)) }
{
    check_no_optional_link(target.misfits_left(), target.start())
}

#[tactic(auto)]
pub fn check_for_in_statement_rules<N: CheckNode>(
    node: &ForInStatement<N>,
    around: &Surroundings<'_>,
    classes: Option<&Classes<'_>>,
) -> Result<(), TreeFault>
    ensures { result ≡ verdict (own_faults (surroundings_plain around.now classes.entry) (for_in_statement_row N.plain node.now)) }
{
    let _ = classes;
    let _ = around;
    check_left(&node.left)?;
    check_followed(node.body.get())
}

// What is given values, and the statement behind.
fn check_left_and_body<N: CheckNode>(node: &ForOfStatement<N>) -> Result<(), TreeFault>
    ensures { result ≡ verdict (left_faults (in_for_statement_left N.plain node.now.left) ++ body_faults (in_statement N.plain node.now.body)) }
{
    check_left(&node.left)?;
    check_followed(node.body.get())
}

#[tactic(auto)]
pub fn check_for_of_statement_rules<N: CheckNode>(
    node: &ForOfStatement<N>,
    around: &Surroundings<'_>,
    classes: Option<&Classes<'_>>,
) -> Result<(), TreeFault>
    ensures { result ≡ verdict (own_faults (surroundings_plain around.now classes.entry) (for_of_statement_row N.plain node.now)) }
{
    let _ = classes;
    check_await(node.is_await, around.may_await, node.span)?;
    check_left_and_body(node)
}

#[tactic(auto)]
pub fn check_while_statement_rules<N: CheckNode>(
    node: &WhileStatement<N>,
    around: &Surroundings<'_>,
    classes: Option<&Classes<'_>>,
) -> Result<(), TreeFault>
    ensures { result ≡ verdict (own_faults (surroundings_plain around.now classes.entry) (while_statement_row N.plain node.now)) }
{
    let _ = classes;
    let _ = around;
    check_followed(node.body.get())
}

#[tactic(auto)]
pub fn check_do_while_statement_rules<N: CheckNode>(
    node: &DoWhileStatement<N>,
    around: &Surroundings<'_>,
    classes: Option<&Classes<'_>>,
) -> Result<(), TreeFault>
    ensures { result ≡ verdict (own_faults (surroundings_plain around.now classes.entry) (do_while_statement_row N.plain node.now)) }
{
    let _ = classes;
    let _ = around;
    check_followed(node.body.get())
}

#[tactic(auto)]
pub fn check_labeled_statement_rules<N: CheckNode>(
    node: &LabeledStatement<N>,
    around: &Surroundings<'_>,
    classes: Option<&Classes<'_>>,
) -> Result<(), TreeFault>
    ensures { result ≡ verdict (own_faults (surroundings_plain around.now classes.entry) (labeled_statement_row N.plain node.now)) }
{
    let _ = classes;
    let _ = around;
    check_followed(node.body.get())
}

/// How many cases have no test.
fn defaults<N: CheckNode>(cases: &[SwitchCase<N>]) -> usize
    ensures { result ≡ defaults (trees (map (switch_case_row N.plain) cases.now)) }
{
    let mut count = 0;
    for case in cases {
        if case.test.is_none() {
            count += 1;
        }
    }
    count
}

#[tactic(auto)]
pub fn check_switch_statement_rules<N: CheckNode>(
    node: &SwitchStatement<N>,
    around: &Surroundings<'_>,
    classes: Option<&Classes<'_>>,
) -> Result<(), TreeFault>
    ensures { result ≡ verdict (own_faults (surroundings_plain around.now classes.entry) (switch_statement_row N.plain node.now)) }
{
    let _ = classes;
    let _ = around;
    check_defaults(defaults(&node.cases), node.span)
}

#[tactic(auto)]
pub fn check_try_statement_rules<N: CheckNode>(
    node: &TryStatement<N>,
    around: &Surroundings<'_>,
    classes: Option<&Classes<'_>>,
) -> Result<(), TreeFault>
    ensures { result ≡ verdict (own_faults (surroundings_plain around.now classes.entry) (try_statement_row N.plain node.now)) }
{
    let _ = classes;
    let _ = around;
    check_ends(node.handler.is_some(), node.finalizer.is_some(), node.span)
}
