// Generated from tools/nodes/table.txt; edit that and run tools/nodes/generate.
// Functions and their parameters (ECMA-262, clause 15).
ghost use Rattle.std.specs.Prelude.{◌≡◌};
ghost use Rattle.jsgen_tree.specs.Words.{function_word};

use crate::nodes::{BindingPatternNode, ExpressionNode, Node, StatementNode};
use crate::sets::{ArrowFunctionBody, Declaration, Expression};
use crate::statements::{BindingIdentifier, Directive};
use jsgen_syntax::Span;

/// Where a function stands: among statements, or in an expression.
#[derive(Clone, Copy, Debug, PartialEq, Eq)]
pub enum FunctionKind {
    Declaration,
    Expression,
}

impl FunctionKind {
    /// The spelling.
    pub fn as_str(self) -> &'static str
        ensures { result.now ≡ function_word self }
    {
        match self {
            FunctionKind::Declaration => "declaration",
            FunctionKind::Expression => "expression",
        }
    }
}

/// A parameter, and the value that it has where none is given (ECMA-262, 15.1).
pub struct FormalParameter<N = Node> {
    pub span: Span,
    pub pattern: BindingPatternNode<N>,
    pub initializer: Option<ExpressionNode<N>>,
}

impl<N: Drop> Drop for FormalParameter<N> {
    fn drop(self) {
        let FormalParameter {
            span: _,
            pattern: _,
            initializer: _,
        } = self;
    }
}

/// The parameter that takes what the ones before it leave (ECMA-262, 15.1).
pub struct FormalParameterRest<N = Node> {
    pub span: Span,
    pub argument: BindingPatternNode<N>,
}

impl<N: Drop> Drop for FormalParameterRest<N> {
    fn drop(self) {
        let FormalParameterRest {
            span: _,
            argument: _,
        } = self;
    }
}

/// The parameters of a function (ECMA-262, 15.1).
pub struct FormalParameters<N = Node> {
    pub span: Span,
    pub items: Vec<FormalParameter<N>>,
    pub rest: Option<Box<FormalParameterRest<N>>>,
}

impl<N: Drop> Drop for FormalParameters<N> {
    fn drop(self) {
        let FormalParameters {
            span: _,
            items: _,
            rest: _,
        } = self;
    }
}

/// A function with a name of its own or without (ECMA-262, 15.2).
pub struct Function<N = Node> {
    pub span: Span,
    pub kind: FunctionKind,
    pub id: Option<Box<BindingIdentifier>>,
    pub is_async: bool,
    pub generator: bool,
    /// The function has no effect but its result, and an annotation says so.
    pub pure: bool,
    /// The function is likely called where it stands, so that it is printed in parentheses.
    pub pife: bool,
    pub params: Box<FormalParameters<N>>,
    pub body: Option<Box<FunctionBody<N>>>,
}

impl<N: Drop> Drop for Function<N> {
    fn drop(self) {
        let Function {
            span: _,
            kind: _,
            id: _,
            is_async: _,
            generator: _,
            pure: _,
            pife: _,
            params: _,
            body: _,
        } = self;
    }
}

/// What a function does (ECMA-262, 15.2).
pub struct FunctionBody<N = Node> {
    pub span: Span,
    pub directives: Vec<Directive>,
    pub statements: Vec<StatementNode<N>>,
}

impl<N: Drop> Drop for FunctionBody<N> {
    fn drop(self) {
        let FunctionBody {
            span: _,
            directives: _,
            statements: _,
        } = self;
    }
}

/// A function that is written with an arrow (ECMA-262, 15.3).
pub struct ArrowFunctionExpression<N = Node> {
    pub span: Span,
    pub is_async: bool,
    /// The function has no effect but its result, and an annotation says so.
    pub pure: bool,
    /// The function is likely called where it stands, so that it is printed in parentheses.
    pub pife: bool,
    pub params: Box<FormalParameters<N>>,
    pub body: ArrowFunctionBody<N>,
}

impl<N: Drop> Drop for ArrowFunctionExpression<N> {
    fn drop(self) {
        let ArrowFunctionExpression {
            span: _,
            is_async: _,
            pure: _,
            pife: _,
            params: _,
            body: _,
        } = self;
    }
}

/// A value that is waited for (ECMA-262, 15.8).
pub struct AwaitExpression<N = Node> {
    pub span: Span,
    pub argument: ExpressionNode<N>,
}

impl<N: Drop> Drop for AwaitExpression<N> {
    fn drop(self) {
        let AwaitExpression {
            span: _,
            argument: _,
        } = self;
    }
}

/// A value that a generator gives, or each value that another iterable value gives (ECMA-262, 15.5).
pub struct YieldExpression<N = Node> {
    pub span: Span,
    pub delegate: bool,
    pub argument: Option<ExpressionNode<N>>,
}

impl<N: Drop> Drop for YieldExpression<N> {
    fn drop(self) {
        let YieldExpression {
            span: _,
            delegate: _,
            argument: _,
        } = self;
    }
}
