// Generated from tools/nodes/table.txt; edit that and run tools/nodes/generate.
// What the reader asks of a node where trees nest, of a child, and of a row.
ghost use Rattle.std.specs.Prelude.{◌≡◌, IfOk, Some, None, option_map, if◌then◌else◌};
ghost use Rattle.jsgen_tree.specs.Tree.{type_of};
ghost use Rattle.jsgen_tree.specs.Sets.{in_set};
ghost use Rattle.jsgen_tree.specs.Rows.{in_expression, in_assignment_target, in_declaration, in_statement, in_binding_pattern, in_class_element, expression_plain, assignment_target_plain, declaration_plain, statement_plain, binding_pattern_plain, class_element_plain, expression_plain, assignment_target_plain, declaration_plain, statement_plain, binding_pattern_plain, class_element_plain, in_expression, in_assignment_target, in_declaration, in_statement, in_binding_pattern, in_class_element};
ghost use Rattle.jsgen_kept.specs.Kept.{row_plain};
ghost use Rattle.jsgen_tree.specs.Plain.{node_plain};
ghost use Rattle.jsgen_tree.specs.declared.types.NodeType.TheVariants as types;

use crate::kept::Row;
use jsgen_pool::Typed;
use jsgen_tree::{
    AssignmentTarget, AssignmentTargetNode, BindingPattern, BindingPatternNode, ClassElement,
    ClassElementNode, Declaration, DeclarationNode, Expression, ExpressionNode, HasType, Node,
    NodeSet, Statement, StatementNode,
};
use std::alloc::{AllocError, Global};

/// A node that may be an expression.
pub trait HoldsExpression: HasType + Sized {
    fn expression_node(expression: Expression<Self>) -> ExpressionNode<Self>
        ensures { in_expression Self.plain result ≡ expression_plain Self.plain expression };
}

impl HoldsExpression for Node {
    #[tactic(auto, using(jsgen_tree::proofs::Knot::plain_expression))]
    fn expression_node(expression: Expression) -> ExpressionNode
        ensures { in_expression node_plain result ≡ expression_plain node_plain expression }
    {
        expression.into()
    }
}

/// A node that may be an assignment target.
pub trait HoldsAssignmentTarget: HasType + Sized {
    fn assignment_target_node(
        assignment_target: AssignmentTarget<Self>,
    ) -> AssignmentTargetNode<Self>
        ensures { in_assignment_target Self.plain result ≡ assignment_target_plain Self.plain assignment_target };
}

impl HoldsAssignmentTarget for Node {
    #[tactic(auto, using(jsgen_tree::proofs::Knot::plain_assignment_target))]
    fn assignment_target_node(assignment_target: AssignmentTarget) -> AssignmentTargetNode
        ensures { in_assignment_target node_plain result ≡ assignment_target_plain node_plain assignment_target }
    {
        assignment_target.into()
    }
}

/// A node that may be a declaration.
pub trait HoldsDeclaration: HasType + Sized {
    fn declaration_node(declaration: Declaration<Self>) -> DeclarationNode<Self>
        ensures { in_declaration Self.plain result ≡ declaration_plain Self.plain declaration };
}

impl HoldsDeclaration for Node {
    #[tactic(auto, using(jsgen_tree::proofs::Knot::plain_declaration))]
    fn declaration_node(declaration: Declaration) -> DeclarationNode
        ensures { in_declaration node_plain result ≡ declaration_plain node_plain declaration }
    {
        declaration.into()
    }
}

/// A node that may be a statement.
pub trait HoldsStatement: HasType + Sized {
    fn statement_node(statement: Statement<Self>) -> StatementNode<Self>
        ensures { in_statement Self.plain result ≡ statement_plain Self.plain statement };
}

impl HoldsStatement for Node {
    #[tactic(auto, using(jsgen_tree::proofs::Knot::plain_statement))]
    fn statement_node(statement: Statement) -> StatementNode
        ensures { in_statement node_plain result ≡ statement_plain node_plain statement }
    {
        statement.into()
    }
}

/// A node that may be a binding pattern.
pub trait HoldsBindingPattern: HasType + Sized {
    fn binding_pattern_node(binding_pattern: BindingPattern<Self>) -> BindingPatternNode<Self>
        ensures { in_binding_pattern Self.plain result ≡ binding_pattern_plain Self.plain binding_pattern };
}

impl HoldsBindingPattern for Node {
    #[tactic(auto, using(jsgen_tree::proofs::Knot::plain_binding_pattern))]
    fn binding_pattern_node(binding_pattern: BindingPattern) -> BindingPatternNode
        ensures { in_binding_pattern node_plain result ≡ binding_pattern_plain node_plain binding_pattern }
    {
        binding_pattern.into()
    }
}

/// A node that may be a class element.
pub trait HoldsClassElement: HasType + Sized {
    fn class_element_node(class_element: ClassElement<Self>) -> ClassElementNode<Self>
        ensures { in_class_element Self.plain result ≡ class_element_plain Self.plain class_element };
}

impl HoldsClassElement for Node {
    #[tactic(auto, using(jsgen_tree::proofs::Knot::plain_class_element))]
    fn class_element_node(class_element: ClassElement) -> ClassElementNode
        ensures { in_class_element node_plain result ≡ class_element_plain node_plain class_element }
    {
        class_element.into()
    }
}

/// What the reader asks of a node where trees nest. Only `Node` implements it.
pub trait ReadNode: HoldsExpression
    + HoldsAssignmentTarget
    + HoldsDeclaration
    + HoldsStatement
    + HoldsBindingPattern
    + HoldsClassElement {}

impl ReadNode for Node {}

/// What a place for children takes: a set of types, and what is made of a row of one of them.
pub trait Child<N: HasType>: Sized {
    ghost use Rattle.jsgen_tree.specs.Tree.{Tree};
    ghost use Rattle.jsgen_tree.specs.declared.types.NodeSet.{NodeSet};

    ghost plain: { Self → Tree };

    ghost of_set: { NodeSet };

    fn set() -> NodeSet
        ensures { result ≡ of_set };

    /// The child that a row is, where it is of the set.
    fn from_row(alloc: Global, row: Row<N>) -> Result<Option<Self>, AllocError>
        ensures { IfOk result (λ child. option_map plain child
            ≡ (if in_set of_set (type_of (row_plain N.plain row)) then Some (row_plain N.plain row) else None)) };
}

/// What the reader asks of a row: the child that it is at a place, and to be made of one. Only `AnyRow` implements it; the reader is
/// generic in it, since a proof of what has to do with `Row` itself looks at all types.
pub trait RowOf<N: HasType>: Typed + Sized {
    fn into_child<C: Child<N>>(self, alloc: Global) -> Result<Option<C>, AllocError>
        ensures { IfOk result (λ child. option_map C.plain child
            ≡ (if in_set C.of_set (type_of (Self.plain self)) then Some (Self.plain self) else None)) };

    fn of_row(row: Row<N>) -> Self
        ensures { Self.plain result ≡ row_plain N.plain row };
}
