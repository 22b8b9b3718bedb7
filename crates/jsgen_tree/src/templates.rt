// Generated from tools/nodes/table.txt; edit that and run tools/nodes/generate.
// Templates and import calls (ECMA-262, 13.2.8, 13.3.10 and 13.3.11).

use crate::nodes::{ExpressionNode, Node};
use jsgen_syntax::{JsStr, Span};

/// A piece of a template, as it is written (ECMA-262, 12.9.6).
pub struct TemplateElement {
    pub span: Span,
    pub raw: String,
    /// What it stands for. A piece behind a tag has none where an escape in it is no escape.
    pub cooked: Option<JsStr>,
}

impl Drop for TemplateElement {
    fn drop(self) {
        let TemplateElement {
            span: _,
            raw: _,
            cooked: _,
        } = self;
    }
}

/// A template: its pieces, and the expressions between them (ECMA-262, 13.2.8).
pub struct TemplateLiteral<N = Node> {
    pub span: Span,
    pub quasis: Vec<TemplateElement>,
    pub expressions: Vec<ExpressionNode<N>>,
}

impl<N: Drop> Drop for TemplateLiteral<N> {
    fn drop(self) {
        let TemplateLiteral {
            span: _,
            quasis: _,
            expressions: _,
        } = self;
    }
}

/// A template that is handed to a function (ECMA-262, 13.3.11).
pub struct TaggedTemplateExpression<N = Node> {
    pub span: Span,
    pub tag: ExpressionNode<N>,
    pub quasi: Box<TemplateLiteral<N>>,
}

impl<N: Drop> Drop for TaggedTemplateExpression<N> {
    fn drop(self) {
        let TaggedTemplateExpression {
            span: _,
            tag: _,
            quasi: _,
        } = self;
    }
}

/// A call that imports a module (ECMA-262, 13.3.10).
pub struct ImportExpression<N = Node> {
    pub span: Span,
    pub source: ExpressionNode<N>,
    pub options: Option<ExpressionNode<N>>,
}

impl<N: Drop> Drop for ImportExpression<N> {
    fn drop(self) {
        let ImportExpression {
            span: _,
            source: _,
            options: _,
        } = self;
    }
}
