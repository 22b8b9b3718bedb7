// Generated from tools/nodes/table.txt; edit that and run tools/nodes/generate.
// Patterns that are bound (ECMA-262, 14.3.3).

use crate::nodes::{BindingPatternNode, ExpressionNode, Node};
use crate::sets::PropertyKey;
use jsgen_syntax::Span;

/// What the properties of a value are bound to (ECMA-262, 14.3.3).
pub struct ObjectPattern<N = Node> {
    pub span: Span,
    pub properties: Vec<BindingProperty<N>>,
    pub rest: Option<Box<BindingRestElement<N>>>,
}

impl<N: Drop> Drop for ObjectPattern<N> {
    fn drop(self) {
        let ObjectPattern {
            span: _,
            properties: _,
            rest: _,
        } = self;
    }
}

/// A property by its key, and what its value is bound to (ECMA-262, 14.3.3).
pub struct BindingProperty<N = Node> {
    pub span: Span,
    pub key: PropertyKey<N>,
    pub value: BindingPatternNode<N>,
    pub computed: bool,
}

impl<N: Drop> Drop for BindingProperty<N> {
    fn drop(self) {
        let BindingProperty {
            span: _,
            key: _,
            value: _,
            computed: _,
        } = self;
    }
}

/// What the properties or the elements that are left are bound to (ECMA-262, 14.3.3).
pub struct BindingRestElement<N = Node> {
    pub span: Span,
    pub argument: BindingPatternNode<N>,
}

impl<N: Drop> Drop for BindingRestElement<N> {
    fn drop(self) {
        let BindingRestElement {
            span: _,
            argument: _,
        } = self;
    }
}

/// What the elements of an iterable value are bound to, some of which may be left out (ECMA-262, 14.3.3).
pub struct ArrayPattern<N = Node> {
    pub span: Span,
    pub elements: Vec<Option<BindingPatternNode<N>>>,
    pub rest: Option<Box<BindingRestElement<N>>>,
}

impl<N: Drop> Drop for ArrayPattern<N> {
    fn drop(self) {
        let ArrayPattern {
            span: _,
            elements: _,
            rest: _,
        } = self;
    }
}

/// A pattern, and the value that it is given where there is none (ECMA-262, 14.3.3).
pub struct AssignmentPattern<N = Node> {
    pub span: Span,
    pub left: BindingPatternNode<N>,
    pub right: ExpressionNode<N>,
}

impl<N: Drop> Drop for AssignmentPattern<N> {
    fn drop(self) {
        let AssignmentPattern {
            span: _,
            left: _,
            right: _,
        } = self;
    }
}
