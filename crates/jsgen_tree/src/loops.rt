// Generated from tools/nodes/table.txt; edit that and run tools/nodes/generate.
// Loops, labels and jumps (ECMA-262, 14.7 to 14.10, 14.13, 14.14 and 14.16).

use crate::nodes::{ExpressionNode, Node, StatementNode};
use crate::sets::{ForStatementInit, ForStatementLeft};
use jsgen_syntax::Span;

/// A loop by three expressions: before it, before each round, and behind each round (ECMA-262, 14.7.4).
pub struct ForStatement<N = Node> {
    pub span: Span,
    pub init: Option<ForStatementInit<N>>,
    pub test: Option<ExpressionNode<N>>,
    pub update: Option<ExpressionNode<N>>,
    pub body: StatementNode<N>,
}

impl<N: Drop> Drop for ForStatement<N> {
    fn drop(self) {
        let ForStatement {
            span: _,
            init: _,
            test: _,
            update: _,
            body: _,
        } = self;
    }
}

/// A loop over the keys of a value (ECMA-262, 14.7.5).
pub struct ForInStatement<N = Node> {
    pub span: Span,
    pub left: ForStatementLeft<N>,
    pub right: ExpressionNode<N>,
    pub body: StatementNode<N>,
}

impl<N: Drop> Drop for ForInStatement<N> {
    fn drop(self) {
        let ForInStatement {
            span: _,
            left: _,
            right: _,
            body: _,
        } = self;
    }
}

/// A loop over the values that an iterable value gives (ECMA-262, 14.7.5).
pub struct ForOfStatement<N = Node> {
    pub span: Span,
    /// The loop waits for each value.
    pub is_await: bool,
    pub left: ForStatementLeft<N>,
    pub right: ExpressionNode<N>,
    pub body: StatementNode<N>,
}

impl<N: Drop> Drop for ForOfStatement<N> {
    fn drop(self) {
        let ForOfStatement {
            span: _,
            is_await: _,
            left: _,
            right: _,
            body: _,
        } = self;
    }
}

/// A loop whose test stands before each round (ECMA-262, 14.7.3).
pub struct WhileStatement<N = Node> {
    pub span: Span,
    pub test: ExpressionNode<N>,
    pub body: StatementNode<N>,
}

impl<N: Drop> Drop for WhileStatement<N> {
    fn drop(self) {
        let WhileStatement {
            span: _,
            test: _,
            body: _,
        } = self;
    }
}

/// A loop whose test stands behind each round (ECMA-262, 14.7.2).
pub struct DoWhileStatement<N = Node> {
    pub span: Span,
    pub body: StatementNode<N>,
    pub test: ExpressionNode<N>,
}

impl<N: Drop> Drop for DoWhileStatement<N> {
    fn drop(self) {
        let DoWhileStatement {
            span: _,
            body: _,
            test: _,
        } = self;
    }
}

/// The name of a labelled statement. No renaming changes it (ECMA-262, 14.13).
pub struct LabelIdentifier {
    pub span: Span,
    pub name: String,
}

impl Drop for LabelIdentifier {
    fn drop(self) {
        let LabelIdentifier { span: _, name: _ } = self;
    }
}

/// A statement that jumps may name (ECMA-262, 14.13).
pub struct LabeledStatement<N = Node> {
    pub span: Span,
    pub label: Box<LabelIdentifier>,
    pub body: StatementNode<N>,
}

impl<N: Drop> Drop for LabeledStatement<N> {
    fn drop(self) {
        let LabeledStatement {
            span: _,
            label: _,
            body: _,
        } = self;
    }
}

/// A jump to the next round of a loop (ECMA-262, 14.8).
pub struct ContinueStatement {
    pub span: Span,
    pub label: Option<Box<LabelIdentifier>>,
}

impl Drop for ContinueStatement {
    fn drop(self) {
        let ContinueStatement { span: _, label: _ } = self;
    }
}

/// A jump out of a statement (ECMA-262, 14.9).
pub struct BreakStatement {
    pub span: Span,
    pub label: Option<Box<LabelIdentifier>>,
}

impl Drop for BreakStatement {
    fn drop(self) {
        let BreakStatement { span: _, label: _ } = self;
    }
}

/// An end of a function, and its result (ECMA-262, 14.10).
pub struct ReturnStatement<N = Node> {
    pub span: Span,
    pub argument: Option<ExpressionNode<N>>,
}

impl<N: Drop> Drop for ReturnStatement<N> {
    fn drop(self) {
        let ReturnStatement {
            span: _,
            argument: _,
        } = self;
    }
}

/// An end by a value that a handler may catch (ECMA-262, 14.14).
pub struct ThrowStatement<N = Node> {
    pub span: Span,
    pub argument: ExpressionNode<N>,
}

impl<N: Drop> Drop for ThrowStatement<N> {
    fn drop(self) {
        let ThrowStatement {
            span: _,
            argument: _,
        } = self;
    }
}

/// A place where a debugger may stop (ECMA-262, 14.16).
pub struct DebuggerStatement {
    pub span: Span,
}

impl Drop for DebuggerStatement {
    fn drop(self) {
        let DebuggerStatement { span: _ } = self;
    }
}
