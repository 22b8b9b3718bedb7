// Generated from tools/nodes/table.txt; edit that and run tools/nodes/generate.
// Operations of one operand, and `new` (ECMA-262, clause 13).

use crate::nodes::{ExpressionNode, Node};
use crate::sets::{Argument, SimpleAssignmentTarget};
use jsgen_syntax::{Span, UnaryOperator, UpdateOperator};

/// An operation by a sign or a word before its one operand (ECMA-262, 13.5).
pub struct UnaryExpression<N = Node> {
    pub span: Span,
    pub operator: UnaryOperator,
    pub argument: ExpressionNode<N>,
}

impl<N: Drop> Drop for UnaryExpression<N> {
    fn drop(self) {
        let UnaryExpression {
            span: _,
            operator: _,
            argument: _,
        } = self;
    }
}

/// The meta property `new.target` (ECMA-262, 13.3.12).
pub struct NewTarget {
    pub span: Span,
}

impl Drop for NewTarget {
    fn drop(self) {
        let NewTarget { span: _ } = self;
    }
}

/// An operation by `++` or `--`, before its operand or behind it (ECMA-262, 13.4).
pub struct UpdateExpression<N = Node> {
    pub span: Span,
    pub operator: UpdateOperator,
    pub prefix: bool,
    pub argument: SimpleAssignmentTarget<N>,
}

impl<N: Drop> Drop for UpdateExpression<N> {
    fn drop(self) {
        let UpdateExpression {
            span: _,
            operator: _,
            prefix: _,
            argument: _,
        } = self;
    }
}

/// What a constructor makes (ECMA-262, 13.3.5).
pub struct NewExpression<N = Node> {
    pub span: Span,
    pub callee: ExpressionNode<N>,
    pub arguments: Vec<Argument<N>>,
    /// Making it has no effect but its result, and an annotation says so.
    pub pure: bool,
}

impl<N: Drop> Drop for NewExpression<N> {
    fn drop(self) {
        let NewExpression {
            span: _,
            callee: _,
            arguments: _,
            pure: _,
        } = self;
    }
}

/// The keyword `super`, which is the object of a member or what is called, and nothing else (ECMA-262, 13.3.7).
pub struct Super {
    pub span: Span,
}

impl Drop for Super {
    fn drop(self) {
        let Super { span: _ } = self;
    }
}

/// The meta property `import.meta` (ECMA-262, 13.3.12).
pub struct ImportMeta {
    pub span: Span,
}

impl Drop for ImportMeta {
    fn drop(self) {
        let ImportMeta { span: _ } = self;
    }
}
