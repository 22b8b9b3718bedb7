// Generated from tools/nodes/table.txt; edit that and run tools/nodes/generate.
// Arrays and objects (ECMA-262, 13.2.4 and 13.2.5), and what is spread in them and in arguments.
ghost use Rattle.std.specs.Prelude.{◌≡◌};
ghost use Rattle.jsgen_tree.specs.Words.{property_word};

use crate::nodes::{ExpressionNode, Node};
use crate::sets::{ArrayExpressionElement, ObjectPropertyKind, PropertyKey};
use jsgen_syntax::Span;

/// What a property is: one with a value, or an accessor.
#[derive(Clone, Copy, Debug, PartialEq, Eq)]
pub enum PropertyKind {
    Init,
    Get,
    Set,
}

impl PropertyKind {
    /// The spelling.
    pub fn as_str(self) -> &'static str
        ensures { result.now ≡ property_word self }
    {
        match self {
            PropertyKind::Init => "init",
            PropertyKind::Get => "get",
            PropertyKind::Set => "set",
        }
    }
}

/// The values of an expression, one by one, among the elements of an array or among arguments (ECMA-262, 13.2.4).
pub struct SpreadElement<N = Node> {
    pub span: Span,
    pub argument: ExpressionNode<N>,
}

impl<N: Drop> Drop for SpreadElement<N> {
    fn drop(self) {
        let SpreadElement {
            span: _,
            argument: _,
        } = self;
    }
}

/// An array by its elements, of which some may be left out (ECMA-262, 13.2.4).
pub struct ArrayExpression<N = Node> {
    pub span: Span,
    pub elements: Vec<Option<ArrayExpressionElement<N>>>,
}

impl<N: Drop> Drop for ArrayExpression<N> {
    fn drop(self) {
        let ArrayExpression {
            span: _,
            elements: _,
        } = self;
    }
}

/// A property by its key and its value (ECMA-262, 13.2.5).
pub struct ObjectProperty<N = Node> {
    pub span: Span,
    pub kind: PropertyKind,
    pub key: PropertyKey<N>,
    pub value: ExpressionNode<N>,
    /// Its value is a function that is written as a method.
    pub method: bool,
    /// Of a key `__proto__` it tells the property from one that sets the prototype. Of other keys nothing depends on it.
    pub shorthand: bool,
    pub computed: bool,
}

impl<N: Drop> Drop for ObjectProperty<N> {
    fn drop(self) {
        let ObjectProperty {
            span: _,
            kind: _,
            key: _,
            value: _,
            method: _,
            shorthand: _,
            computed: _,
        } = self;
    }
}

/// An object by its properties (ECMA-262, 13.2.5).
pub struct ObjectExpression<N = Node> {
    pub span: Span,
    pub properties: Vec<ObjectPropertyKind<N>>,
}

impl<N: Drop> Drop for ObjectExpression<N> {
    fn drop(self) {
        let ObjectExpression {
            span: _,
            properties: _,
        } = self;
    }
}
