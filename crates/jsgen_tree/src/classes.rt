// Generated from tools/nodes/table.txt; edit that and run tools/nodes/generate.
// Classes and private names (ECMA-262, 15.7).
ghost use Rattle.std.specs.Prelude.{◌≡◌};
ghost use Rattle.jsgen_tree.specs.Words.{class_word, method_word};

use crate::functions::Function;
use crate::nodes::{ClassElementNode, ExpressionNode, Node, StatementNode};
use crate::sets::{Declaration, Expression, PropertyKey};
use crate::statements::BindingIdentifier;
use jsgen_syntax::Span;

/// Where a class stands: among statements, or in an expression.
#[derive(Clone, Copy, Debug, PartialEq, Eq)]
pub enum ClassKind {
    Declaration,
    Expression,
}

impl ClassKind {
    /// The spelling.
    pub fn as_str(self) -> &'static str
        ensures { result.now ≡ class_word self }
    {
        match self {
            ClassKind::Declaration => "declaration",
            ClassKind::Expression => "expression",
        }
    }
}

/// What a method of a class is.
#[derive(Clone, Copy, Debug, PartialEq, Eq)]
pub enum MethodDefinitionKind {
    Constructor,
    Method,
    Get,
    Set,
}

impl MethodDefinitionKind {
    /// The spelling.
    pub fn as_str(self) -> &'static str
        ensures { result.now ≡ method_word self }
    {
        match self {
            MethodDefinitionKind::Constructor => "constructor",
            MethodDefinitionKind::Method => "method",
            MethodDefinitionKind::Get => "get",
            MethodDefinitionKind::Set => "set",
        }
    }
}

/// A private name, without its `#` (ECMA-262, 12.7).
pub struct PrivateIdentifier {
    pub span: Span,
    pub name: String,
}

impl Drop for PrivateIdentifier {
    fn drop(self) {
        let PrivateIdentifier { span: _, name: _ } = self;
    }
}

/// A member by its private name (ECMA-262, 13.3.2).
pub struct PrivateFieldExpression<N = Node> {
    pub span: Span,
    pub object: ExpressionNode<N>,
    /// The link is `?.`.
    pub optional: bool,
    pub field: Box<PrivateIdentifier>,
}

impl<N: Drop> Drop for PrivateFieldExpression<N> {
    fn drop(self) {
        let PrivateFieldExpression {
            span: _,
            object: _,
            optional: _,
            field: _,
        } = self;
    }
}

/// Whether an object has a member of a private name (ECMA-262, 13.10).
pub struct PrivateInExpression<N = Node> {
    pub span: Span,
    pub left: Box<PrivateIdentifier>,
    pub right: ExpressionNode<N>,
}

impl<N: Drop> Drop for PrivateInExpression<N> {
    fn drop(self) {
        let PrivateInExpression {
            span: _,
            left: _,
            right: _,
        } = self;
    }
}

/// A class with a name of its own or without (ECMA-262, 15.7).
pub struct Class<N = Node> {
    pub span: Span,
    pub kind: ClassKind,
    pub id: Option<Box<BindingIdentifier>>,
    /// What it extends.
    pub heritage: Option<ExpressionNode<N>>,
    pub body: Box<ClassBody<N>>,
}

impl<N: Drop> Drop for Class<N> {
    fn drop(self) {
        let Class {
            span: _,
            kind: _,
            id: _,
            heritage: _,
            body: _,
        } = self;
    }
}

/// The members of a class (ECMA-262, 15.7).
pub struct ClassBody<N = Node> {
    pub span: Span,
    pub body: Vec<ClassElementNode<N>>,
}

impl<N: Drop> Drop for ClassBody<N> {
    fn drop(self) {
        let ClassBody { span: _, body: _ } = self;
    }
}

/// Statements that run when the class is made (ECMA-262, 15.7).
pub struct StaticBlock<N = Node> {
    pub span: Span,
    pub body: Vec<StatementNode<N>>,
}

impl<N: Drop> Drop for StaticBlock<N> {
    fn drop(self) {
        let StaticBlock { span: _, body: _ } = self;
    }
}

/// A method of a class, by its key and its function (ECMA-262, 15.4).
pub struct MethodDefinition<N = Node> {
    pub span: Span,
    pub kind: MethodDefinitionKind,
    pub key: PropertyKey<N>,
    pub value: Box<Function<N>>,
    pub computed: bool,
    pub is_static: bool,
}

impl<N: Drop> Drop for MethodDefinition<N> {
    fn drop(self) {
        let MethodDefinition {
            span: _,
            kind: _,
            key: _,
            value: _,
            computed: _,
            is_static: _,
        } = self;
    }
}

/// A field of a class (ECMA-262, 15.7).
pub struct PropertyDefinition<N = Node> {
    pub span: Span,
    pub key: PropertyKey<N>,
    pub computed: bool,
    pub is_static: bool,
    pub value: Option<ExpressionNode<N>>,
}

impl<N: Drop> Drop for PropertyDefinition<N> {
    fn drop(self) {
        let PropertyDefinition {
            span: _,
            key: _,
            computed: _,
            is_static: _,
            value: _,
        } = self;
    }
}
