// Generated from tools/nodes/table.txt; edit that and run tools/nodes/generate.
// Conditional expressions, sequences and assignments (ECMA-262, 13.14 to 13.16).

use crate::nodes::{AssignmentTargetNode, ExpressionNode, Node};
use jsgen_syntax::{AssignmentOperator, Span};

/// A choice between two values (ECMA-262, 13.14).
pub struct ConditionalExpression<N = Node> {
    pub span: Span,
    pub test: ExpressionNode<N>,
    pub consequent: ExpressionNode<N>,
    pub alternate: ExpressionNode<N>,
}

impl<N: Drop> Drop for ConditionalExpression<N> {
    fn drop(self) {
        let ConditionalExpression {
            span: _,
            test: _,
            consequent: _,
            alternate: _,
        } = self;
    }
}

/// Values one after another, of which the last counts (ECMA-262, 13.16).
pub struct SequenceExpression<N = Node> {
    pub span: Span,
    pub expressions: Vec<ExpressionNode<N>>,
}

impl<N: Drop> Drop for SequenceExpression<N> {
    fn drop(self) {
        let SequenceExpression {
            span: _,
            expressions: _,
        } = self;
    }
}

/// A target that is given a value (ECMA-262, 13.15).
pub struct AssignmentExpression<N = Node> {
    pub span: Span,
    pub operator: AssignmentOperator,
    pub left: AssignmentTargetNode<N>,
    pub right: ExpressionNode<N>,
}

impl<N: Drop> Drop for AssignmentExpression<N> {
    fn drop(self) {
        let AssignmentExpression {
            span: _,
            operator: _,
            left: _,
            right: _,
        } = self;
    }
}
