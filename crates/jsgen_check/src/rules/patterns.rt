// Patterns: keys, what takes the rest of an object, and patterns that are given no value (ECMA-262, 14.3).
#![tactic(auto, unfolding(jsgen_rules::specs::Verdict::verdict))]

ghost use Rattle.std.specs.Prelude.{◌≡◌, not, ◌&&◌, map, option_map};
ghost use Rattle.jsgen_tree.specs.Tree.{Tree, optional, trees, type_of, span_of};
ghost use Rattle.jsgen_tree.specs.Rows.{object_pattern_row, binding_property_row, binding_rest_element_row, variable_declarator_row, variable_declaration_row, in_for_statement_init};
ghost use Rattle.jsgen_tree.specs.Plain.{node_plain};
ghost use Rattle.jsgen_model.specs.Valid.{own_faults, fault_if, rest_faults, is_binding_name, lacks_value, any_lacks_value, lacking, binds_nothing, unbound, init_faults};
ghost use Rattle.jsgen_model.specs.declared.fault.TreeFault.TheVariants as faults;
ghost use Rattle.jsgen_rules.specs.Verdict.{verdict};
ghost use Rattle.jsgen_check.specs.Verdict.{surroundings_plain};

use crate::rules::keys::check_pattern_key;
use crate::{CheckNode, Surroundings};
use jsgen_model::TreeFault;
use jsgen_rules::{Classes, is_binding_name};
use jsgen_syntax::Span;
use jsgen_tree::{
    BindingProperty, BindingRestElement, Declaration, ForStatementInit, GetSpan, Node, NodeType,
    ObjectPattern, Statement, VariableDeclaration, VariableDeclarator,
};

/// What takes the rest of an object is a name.
fn check_rest<N: CheckNode>(rest: &Option<Box<BindingRestElement<N>>>) -> Result<(), TreeFault>
    ensures { result ≡ verdict (rest_faults (optional (option_map (λ b. binding_rest_element_row N.plain b.value) rest.now))) }
{
    match rest {
        Some(rest) => check_name(rest.argument.get()),
        None => Ok(()),
    }
}

fn check_name<N: CheckNode>(argument: &N) -> Result<(), TreeFault>
    ensures { result ≡ verdict (fault_if (not (is_binding_name (type_of (N.plain argument.now)))) (faults.Place (span_of (N.plain argument.now)).start)) }
{
    if !is_binding_name(argument.node_type()) {
        return Err(TreeFault::Place {
            start: argument.start(),
        });
    }
    Ok(())
}

#[tactic(auto)]
pub fn check_object_pattern_rules<N: CheckNode>(
    node: &ObjectPattern<N>,
    around: &Surroundings<'_>,
    classes: Option<&Classes<'_>>,
) -> Result<(), TreeFault>
    ensures { result ≡ verdict (own_faults (surroundings_plain around.now classes.entry) (object_pattern_row N.plain node.now)) }
{
    let _ = classes;
    let _ = around;
    check_rest(&node.rest)
}

#[tactic(auto)]
pub fn check_binding_property_rules<N: CheckNode>(
    node: &BindingProperty<N>,
    around: &Surroundings<'_>,
    classes: Option<&Classes<'_>>,
) -> Result<(), TreeFault>
    ensures { result ≡ verdict (own_faults (surroundings_plain around.now classes.entry) (binding_property_row N.plain node.now)) }
{
    let _ = classes;
    let _ = around;
    check_pattern_key(node.computed, &node.key)
}

// ---- patterns without a value

/// What tells the type of a child: the knot's own checks ask a node, and the rules of a row any child.
trait TypeOf<N> {
    ghost plain: { N → Tree };

    fn type_of(node: &N) -> NodeType
        ensures { result ≡ type_of (plain node.now) };
}

struct OfChild;

impl<N: CheckNode> TypeOf<N> for OfChild {
    ghost plain = { N.plain };

    fn type_of(node: &N) -> NodeType {
        node.node_type()
    }
}

struct OfNode;

impl TypeOf<Node> for OfNode {
    ghost plain = { λ n. node_plain n };

    fn type_of(node: &Node) -> NodeType {
        node.node_type()
    }
}

fn lacks_value<N, T: TypeOf<N>>(declarator: &VariableDeclarator<N>) -> bool
    ensures { result ≡ lacks_value (variable_declarator_row T.plain declarator.now) }
{
    match declarator.init {
        Some(_) => false,
        None => !is_binding_name(T::type_of(declarator.id.get())),
    }
}

fn any_lacks_value<N, T: TypeOf<N>>(declarators: &[VariableDeclarator<N>]) -> bool
    ensures { result ≡ any_lacks_value (trees (map (variable_declarator_row T.plain) declarators.now)) }
{
    for declarator in declarators {
        if lacks_value::<N, T>(declarator) {
            return true;
        }
    }
    false
}

// The first such declarator, and this span where there is none.
fn lacking<N, T: TypeOf<N>>(declarators: &[VariableDeclarator<N>], span: Span) -> Span
    ensures { result ≡ lacking span (trees (map (variable_declarator_row T.plain) declarators.now)) }
{
    for declarator in declarators {
        if lacks_value::<N, T>(declarator) {
            return declarator.span;
        }
    }
    span
}

// Whether a declaration binds a pattern and gives it no value, and where.
fn declaration_binds_nothing<N, T: TypeOf<N>>(node: &VariableDeclaration<N>) -> bool
    ensures { result ≡ binds_nothing (variable_declaration_row T.plain node.now) }
{
    any_lacks_value::<N, T>(&node.declarations)
}

fn declaration_unbound<N, T: TypeOf<N>>(node: &VariableDeclaration<N>) -> Span
    ensures { result ≡ unbound (variable_declaration_row T.plain node.now) }
{
    lacking::<N, T>(&node.declarations, node.span)
}

/// Whether a node is a declaration that binds a pattern and gives it no value.
#[cycle(binds_nothing)]
pub fn binds_nothing(node: &Node) -> bool
    ensures { result ≡ binds_nothing (node_plain node.now) }
{
    match node {
        Node::Expression(_) => false,
        Node::AssignmentTarget(_) => false,
        Node::Statement(statement) => match statement {
            Statement::Declaration(node) => binds_nothing(node.get()),
            _ => false,
        },
        Node::Declaration(declaration) => match declaration {
            Declaration::VariableDeclaration(node) => {
                declaration_binds_nothing::<Node, OfNode>(node)
            }
            Declaration::Function(_) => false,
            Declaration::Class(_) => false,
        },
        Node::BindingPattern(_) => false,
        Node::ClassElement(_) => false,
    }
}

/// Where a node is one: its first declarator that lacks a value. Of all else its own span.
#[cycle(unbound)]
pub fn unbound(node: &Node) -> Span
    ensures { result ≡ unbound (node_plain node.now) }
{
    match node {
        Node::Expression(expression) => expression.span(),
        Node::AssignmentTarget(target) => target.span(),
        Node::Statement(statement) => match statement {
            Statement::Declaration(node) => unbound(node.get()),
            _ => statement.span(),
        },
        Node::Declaration(declaration) => match declaration {
            Declaration::VariableDeclaration(node) => { declaration_unbound::<Node, OfNode>(node) }
            Declaration::Function(node) => node.span,
            Declaration::Class(node) => node.span,
        },
        Node::BindingPattern(pattern) => pattern.span(),
        Node::ClassElement(element) => element.span(),
    }
}

/// Before the first round of a loop each pattern has a value.
pub fn check_init<N: CheckNode>(init: &Option<ForStatementInit<N>>) -> Result<(), TreeFault>
    ensures { result ≡ verdict (init_faults (optional (option_map (in_for_statement_init N.plain) init.now))) }
{
    match init {
        Some(init) => check_first(init),
        None => Ok(()),
    }
}

fn check_first<N: CheckNode>(init: &ForStatementInit<N>) -> Result<(), TreeFault>
    ensures { result ≡ verdict (fault_if (binds_nothing (in_for_statement_init N.plain init.now)) (faults.Place (unbound (in_for_statement_init N.plain init.now)).start)) }
{
    match init {
        ForStatementInit::VariableDeclaration(node) => {
            if declaration_binds_nothing::<N, OfChild>(node) {
                return Err(TreeFault::Place {
                    start: declaration_unbound::<N, OfChild>(node).start,
                });
            }
            Ok(())
        }
        // No expression is one, which the proof doesn't know.
        ForStatementInit::Expression(node) => {
            if node.get().binds_nothing() {
                return Err(TreeFault::Place {
                    start: node.get().unbound_start(),
                });
            }
            Ok(())
        }
    }
}
