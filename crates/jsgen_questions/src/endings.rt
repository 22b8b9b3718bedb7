// What ends in an `if` without `else` (ECMA-262, 14.6).
ghost use Rattle.std.specs.Prelude.{◌≡◌, Option, option_map};
ghost use Rattle.jsgen_tree.specs.Tree.{Tree, Atoms, optional};
ghost use Rattle.jsgen_tree.specs.Nodes.{if_statement};
ghost use Rattle.jsgen_tree.specs.Inside.{ends_open};
ghost use Rattle.jsgen_tree.specs.Plain.{node_plain};
ghost use Rattle.jsgen_tree.specs.Rows.{in_statement};

use jsgen_tree::{IfStatement, Node, Statement};

/// Whether an `if` ends in an `if` without `else`, by whether its alternate does.
fn if_ends_open(alternate: Option<bool>) -> bool
    ensures { (a : Atoms) (test consequent : Tree) (child : Option Tree) → alternate ≡ option_map ends_open child → result ≡ ends_open (if_statement a test consequent (optional child)) }
{
    match alternate {
        Some(ends_open) => ends_open,
        None => true,
    }
}

/// Whether a node ends in an `if` without `else`.
#[cycle(ends_open)]
pub fn ends_open(node: &Node) -> bool
    ensures { result ≡ ends_open (node_plain node.now) }
{
    match node {
        Node::Expression(_) => false,
        Node::AssignmentTarget(_) => false,
        Node::Declaration(_) => false,
        Node::BindingPattern(_) => false,
        Node::ClassElement(_) => false,
        Node::Statement(statement) => match statement {
            Statement::Declaration(node) => ends_open(node.get()),
            Statement::IfStatement(node) => if_ends_open(alternate_ends_open(node)),
            Statement::ForStatement(node) => ends_open(node.body.get()),
            Statement::ForInStatement(node) => ends_open(node.body.get()),
            Statement::ForOfStatement(node) => ends_open(node.body.get()),
            Statement::WhileStatement(node) => ends_open(node.body.get()),
            Statement::LabeledStatement(node) => ends_open(node.body.get()),
            _ => false,
        },
    }
}

// Whether what follows `else` does, where there is an `else`.
#[cycle(ends_open)]
fn alternate_ends_open(node: &IfStatement) -> Option<bool>
    ensures { result ≡ option_map ends_open (option_map (in_statement node_plain) node.now.alternate) }
{
    match &node.alternate {
        Some(alternate) => Some(ends_open(alternate.get())),
        None => None,
    }
}
