// Generated from tools/nodes/table.txt; edit that and run tools/nodes/generate.
// Patterns that are given values (ECMA-262, 13.15.5).

use crate::expressions::IdentifierReference;
use crate::nodes::{AssignmentTargetNode, ExpressionNode, Node};
use crate::sets::{AssignmentTargetMaybeDefault, AssignmentTargetProperty, PropertyKey};
use jsgen_syntax::Span;

/// Targets that are given elements (ECMA-262, 13.15.5).
pub struct ArrayAssignmentTarget<N = Node> {
    pub span: Span,
    pub elements: Vec<Option<AssignmentTargetMaybeDefault<N>>>,
    pub rest: Option<Box<AssignmentTargetRest<N>>>,
}

impl<N: Drop> Drop for ArrayAssignmentTarget<N> {
    fn drop(self) {
        let ArrayAssignmentTarget {
            span: _,
            elements: _,
            rest: _,
        } = self;
    }
}

/// Targets that are given properties (ECMA-262, 13.15.5).
pub struct ObjectAssignmentTarget<N = Node> {
    pub span: Span,
    pub properties: Vec<AssignmentTargetProperty<N>>,
    pub rest: Option<Box<AssignmentTargetRest<N>>>,
}

impl<N: Drop> Drop for ObjectAssignmentTarget<N> {
    fn drop(self) {
        let ObjectAssignmentTarget {
            span: _,
            properties: _,
            rest: _,
        } = self;
    }
}

/// A target, and the value that it has where none is given (ECMA-262, 13.15.5).
pub struct AssignmentTargetWithDefault<N = Node> {
    pub span: Span,
    pub binding: AssignmentTargetNode<N>,
    pub init: ExpressionNode<N>,
}

impl<N: Drop> Drop for AssignmentTargetWithDefault<N> {
    fn drop(self) {
        let AssignmentTargetWithDefault {
            span: _,
            binding: _,
            init: _,
        } = self;
    }
}

/// A property that is given to the reference of its name (ECMA-262, 13.15.5).
pub struct AssignmentTargetPropertyIdentifier<N = Node> {
    pub span: Span,
    pub binding: Box<IdentifierReference>,
    pub init: Option<ExpressionNode<N>>,
}

impl<N: Drop> Drop for AssignmentTargetPropertyIdentifier<N> {
    fn drop(self) {
        let AssignmentTargetPropertyIdentifier {
            span: _,
            binding: _,
            init: _,
        } = self;
    }
}

/// A property by its key, and what it is given to (ECMA-262, 13.15.5).
pub struct AssignmentTargetPropertyProperty<N = Node> {
    pub span: Span,
    pub name: PropertyKey<N>,
    pub binding: AssignmentTargetMaybeDefault<N>,
    pub computed: bool,
}

impl<N: Drop> Drop for AssignmentTargetPropertyProperty<N> {
    fn drop(self) {
        let AssignmentTargetPropertyProperty {
            span: _,
            name: _,
            binding: _,
            computed: _,
        } = self;
    }
}

/// The target that takes the rest (ECMA-262, 13.15.5).
pub struct AssignmentTargetRest<N = Node> {
    pub span: Span,
    pub target: AssignmentTargetNode<N>,
}

impl<N: Drop> Drop for AssignmentTargetRest<N> {
    fn drop(self) {
        let AssignmentTargetRest { span: _, target: _ } = self;
    }
}
