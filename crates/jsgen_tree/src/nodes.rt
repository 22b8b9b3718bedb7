// Generated from tools/nodes/table.txt; edit that and run tools/nodes/generate.
// Where trees nest: the one recursive type, and the wrappers that say a child's set.
ghost use Rattle.std.specs.Prelude.{◌≡◌};
ghost use Rattle.jsgen_tree.specs.declared.nodes.Node.TheVariants as nodes;

use crate::sets::{
    AssignmentTarget, BindingPattern, ClassElement, Declaration, Expression, Statement,
};

/// A node at a place where trees nest. It has a variant for each set that children nest through.
pub enum Node {
    Expression(Expression),
    AssignmentTarget(AssignmentTarget),
    Declaration(Declaration),
    Statement(Statement),
    BindingPattern(BindingPattern),
    ClassElement(ClassElement),
}

/// A child that is an expression. It is made from one, and from nothing else.
#[derive(Drop)]
pub struct ExpressionNode<N = Node> {
    node: N,
}

/// A child that is an assignment target. It is made from one, and from nothing else.
#[derive(Drop)]
pub struct AssignmentTargetNode<N = Node> {
    node: N,
}

/// A child that is a declaration. It is made from one, and from nothing else.
#[derive(Drop)]
pub struct DeclarationNode<N = Node> {
    node: N,
}

/// A child that is a statement. It is made from one, and from nothing else.
#[derive(Drop)]
pub struct StatementNode<N = Node> {
    node: N,
}

/// A child that is a binding pattern. It is made from one, and from nothing else.
#[derive(Drop)]
pub struct BindingPatternNode<N = Node> {
    node: N,
}

/// A child that is a class element. It is made from one, and from nothing else.
#[derive(Drop)]
pub struct ClassElementNode<N = Node> {
    node: N,
}

// Written out, so that it is proved here alone: a derived one is proved again, for all types, in each crate that lets go of a tree.
// Each set is let go of by a function over any `N`: of members at `Node` itself the proof is one for each way that types stand in one another.
impl Drop for Node {
    #[cycle(node)]
    fn drop(self) {
        match self {
            Node::Expression(member) => let_go_of_expression(member),
            Node::AssignmentTarget(member) => let_go_of_assignment_target(member),
            Node::Declaration(member) => let_go_of_declaration(member),
            Node::Statement(member) => let_go_of_statement(member),
            Node::BindingPattern(member) => let_go_of_binding_pattern(member),
            Node::ClassElement(member) => let_go_of_class_element(member),
        }
    }
}

fn let_go_of_expression<N: Drop>(member: Expression<N>) {
    let _ = member;
}

fn let_go_of_assignment_target<N: Drop>(member: AssignmentTarget<N>) {
    let _ = member;
}

fn let_go_of_declaration<N: Drop>(member: Declaration<N>) {
    let _ = member;
}

fn let_go_of_statement<N: Drop>(member: Statement<N>) {
    let _ = member;
}

fn let_go_of_binding_pattern<N: Drop>(member: BindingPattern<N>) {
    let _ = member;
}

fn let_go_of_class_element<N: Drop>(member: ClassElement<N>) {
    let _ = member;
}

impl From<Expression> for ExpressionNode {
    ghost from_gives = { λ x y. y.node ≡ nodes.Expression x };

    fn from(member: Expression) -> ExpressionNode {
        ExpressionNode {
            node: Node::Expression(member),
        }
    }
}

impl From<AssignmentTarget> for AssignmentTargetNode {
    ghost from_gives = { λ x y. y.node ≡ nodes.AssignmentTarget x };

    fn from(member: AssignmentTarget) -> AssignmentTargetNode {
        AssignmentTargetNode {
            node: Node::AssignmentTarget(member),
        }
    }
}

impl From<Declaration> for DeclarationNode {
    ghost from_gives = { λ x y. y.node ≡ nodes.Declaration x };

    fn from(member: Declaration) -> DeclarationNode {
        DeclarationNode {
            node: Node::Declaration(member),
        }
    }
}

impl From<Statement> for StatementNode {
    ghost from_gives = { λ x y. y.node ≡ nodes.Statement x };

    fn from(member: Statement) -> StatementNode {
        StatementNode {
            node: Node::Statement(member),
        }
    }
}

impl From<BindingPattern> for BindingPatternNode {
    ghost from_gives = { λ x y. y.node ≡ nodes.BindingPattern x };

    fn from(member: BindingPattern) -> BindingPatternNode {
        BindingPatternNode {
            node: Node::BindingPattern(member),
        }
    }
}

impl From<ClassElement> for ClassElementNode {
    ghost from_gives = { λ x y. y.node ≡ nodes.ClassElement x };

    fn from(member: ClassElement) -> ClassElementNode {
        ClassElementNode {
            node: Node::ClassElement(member),
        }
    }
}

impl<N> ExpressionNode<N> {
    /// The node inside.
    pub fn get(&self) -> &N
        ensures { result.now ≡ self.now.node }
    {
        &self.node
    }
}

impl<N> AssignmentTargetNode<N> {
    /// The node inside.
    pub fn get(&self) -> &N
        ensures { result.now ≡ self.now.node }
    {
        &self.node
    }
}

impl<N> DeclarationNode<N> {
    /// The node inside.
    pub fn get(&self) -> &N
        ensures { result.now ≡ self.now.node }
    {
        &self.node
    }
}

impl<N> StatementNode<N> {
    /// The node inside.
    pub fn get(&self) -> &N
        ensures { result.now ≡ self.now.node }
    {
        &self.node
    }
}

impl<N> BindingPatternNode<N> {
    /// The node inside.
    pub fn get(&self) -> &N
        ensures { result.now ≡ self.now.node }
    {
        &self.node
    }
}

impl<N> ClassElementNode<N> {
    /// The node inside.
    pub fn get(&self) -> &N
        ensures { result.now ≡ self.now.node }
    {
        &self.node
    }
}
