// Generated from tools/nodes/table.txt; edit that and run tools/nodes/generate.
// Choices between cases, and handlers (ECMA-262, 14.12 and 14.15).

use crate::nodes::{BindingPatternNode, ExpressionNode, Node, StatementNode};
use crate::statements::BlockStatement;
use jsgen_syntax::Span;

/// A choice between cases by a value (ECMA-262, 14.12).
pub struct SwitchStatement<N = Node> {
    pub span: Span,
    pub discriminant: ExpressionNode<N>,
    pub cases: Vec<SwitchCase<N>>,
}

impl<N: Drop> Drop for SwitchStatement<N> {
    fn drop(self) {
        let SwitchStatement {
            span: _,
            discriminant: _,
            cases: _,
        } = self;
    }
}

/// The statements of one case, or of the default where it has no test (ECMA-262, 14.12).
pub struct SwitchCase<N = Node> {
    pub span: Span,
    pub test: Option<ExpressionNode<N>>,
    pub consequent: Vec<StatementNode<N>>,
}

impl<N: Drop> Drop for SwitchCase<N> {
    fn drop(self) {
        let SwitchCase {
            span: _,
            test: _,
            consequent: _,
        } = self;
    }
}

/// A block whose end by a value is caught, or that something is done behind, or both (ECMA-262, 14.15).
pub struct TryStatement<N = Node> {
    pub span: Span,
    pub block: Box<BlockStatement<N>>,
    pub handler: Option<Box<CatchClause<N>>>,
    pub finalizer: Option<Box<BlockStatement<N>>>,
}

impl<N: Drop> Drop for TryStatement<N> {
    fn drop(self) {
        let TryStatement {
            span: _,
            block: _,
            handler: _,
            finalizer: _,
        } = self;
    }
}

/// What is done with a value that is caught, and the name that it has there (ECMA-262, 14.15).
pub struct CatchClause<N = Node> {
    pub span: Span,
    pub param: Option<BindingPatternNode<N>>,
    pub body: Box<BlockStatement<N>>,
}

impl<N: Drop> Drop for CatchClause<N> {
    fn drop(self) {
        let CatchClause {
            span: _,
            param: _,
            body: _,
        } = self;
    }
}
