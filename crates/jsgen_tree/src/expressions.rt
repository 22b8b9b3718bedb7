// Generated from tools/nodes/table.txt; edit that and run tools/nodes/generate.
// Expressions (ECMA-262, clause 13).
ghost use Rattle.std.specs.Prelude.{IsTrue};
ghost use Rattle.jsgen_tree.specs.Width.{is_wide};

use crate::nodes::{ExpressionNode, Node};
use crate::numbers::NumericValue;
use crate::sets::{Argument, ChainElement};
use jsgen_syntax::{BinaryOperator, JsStr, LogicalOperator, Span};

/// A name that is looked up (ECMA-262, 13.1).
pub struct IdentifierReference {
    pub span: Span,
    pub name: String,
    /// Its number in the table of references.
    pub reference: Option<u32>,
}

impl Drop for IdentifierReference {
    fn drop(self) {
        let IdentifierReference {
            span: _,
            name: _,
            reference: _,
        } = self;
    }
}

/// The keyword `this` (ECMA-262, 13.2.1).
pub struct ThisExpression {
    pub span: Span,
}

impl Drop for ThisExpression {
    fn drop(self) {
        let ThisExpression { span: _ } = self;
    }
}

/// The literal `null` (ECMA-262, 12.9.1).
pub struct NullLiteral {
    pub span: Span,
}

impl Drop for NullLiteral {
    fn drop(self) {
        let NullLiteral { span: _ } = self;
    }
}

/// The literal `true` or `false` (ECMA-262, 12.9.2).
pub struct BooleanLiteral {
    pub span: Span,
    pub value: bool,
}

impl Drop for BooleanLiteral {
    fn drop(self) {
        let BooleanLiteral { span: _, value: _ } = self;
    }
}

/// A number by its value (ECMA-262, 12.9.3).
pub struct NumericLiteral {
    pub span: Span,
    pub value: NumericValue,
    ghost fits: { IsTrue (is_wide value) },
}

impl Drop for NumericLiteral {
    fn drop(self) {
        let NumericLiteral { span: _, value: _ } = self;
    }
}

/// A whole number of any size, by its decimal digits and the minus that it may have before them (ECMA-262, 12.9.3).
pub struct BigIntLiteral {
    pub span: Span,
    pub value: String,
}

impl Drop for BigIntLiteral {
    fn drop(self) {
        let BigIntLiteral { span: _, value: _ } = self;
    }
}

/// A string by its value (ECMA-262, 12.9.4).
pub struct StringLiteral {
    pub span: Span,
    pub value: JsStr,
}

impl Drop for StringLiteral {
    fn drop(self) {
        let StringLiteral { span: _, value: _ } = self;
    }
}

/// A regular expression by its pattern, without the slashes, and its flags (ECMA-262, 12.9.5).
pub struct RegExpLiteral {
    pub span: Span,
    pub pattern: String,
    pub flags: String,
}

impl Drop for RegExpLiteral {
    fn drop(self) {
        let RegExpLiteral {
            span: _,
            pattern: _,
            flags: _,
        } = self;
    }
}

/// An expression in parentheses. They aren't kept: the printer sets its own (ECMA-262, 13.2.9).
pub struct ParenthesizedExpression<N = Node> {
    pub span: Span,
    pub expression: ExpressionNode<N>,
}

impl<N: Drop> Drop for ParenthesizedExpression<N> {
    fn drop(self) {
        let ParenthesizedExpression {
            span: _,
            expression: _,
        } = self;
    }
}

/// Two operands, both of which are evaluated (ECMA-262, 13.6 to 13.12).
pub struct BinaryExpression<N = Node> {
    pub span: Span,
    pub operator: BinaryOperator,
    pub left: ExpressionNode<N>,
    pub right: ExpressionNode<N>,
}

impl<N: Drop> Drop for BinaryExpression<N> {
    fn drop(self) {
        let BinaryExpression {
            span: _,
            operator: _,
            left: _,
            right: _,
        } = self;
    }
}

/// Two operands, of which the second may be left out (ECMA-262, 13.13).
pub struct LogicalExpression<N = Node> {
    pub span: Span,
    pub operator: LogicalOperator,
    pub left: ExpressionNode<N>,
    pub right: ExpressionNode<N>,
}

impl<N: Drop> Drop for LogicalExpression<N> {
    fn drop(self) {
        let LogicalExpression {
            span: _,
            operator: _,
            left: _,
            right: _,
        } = self;
    }
}

/// A name as it is written: of a member, a label or an export. No renaming changes it (ECMA-262, 12.7).
pub struct IdentifierName {
    pub span: Span,
    pub name: String,
}

impl Drop for IdentifierName {
    fn drop(self) {
        let IdentifierName { span: _, name: _ } = self;
    }
}

/// A member by its name (ECMA-262, 13.3.2).
pub struct StaticMemberExpression<N = Node> {
    pub span: Span,
    pub object: ExpressionNode<N>,
    /// The link is `?.`: where its object is undefined or null, the rest of the chain is left out.
    pub optional: bool,
    pub property: Box<IdentifierName>,
}

impl<N: Drop> Drop for StaticMemberExpression<N> {
    fn drop(self) {
        let StaticMemberExpression {
            span: _,
            object: _,
            optional: _,
            property: _,
        } = self;
    }
}

/// A member by the value of an expression (ECMA-262, 13.3.2).
pub struct ComputedMemberExpression<N = Node> {
    pub span: Span,
    pub object: ExpressionNode<N>,
    /// The link is `?.`.
    pub optional: bool,
    pub expression: ExpressionNode<N>,
}

impl<N: Drop> Drop for ComputedMemberExpression<N> {
    fn drop(self) {
        let ComputedMemberExpression {
            span: _,
            object: _,
            optional: _,
            expression: _,
        } = self;
    }
}

/// A call of a function (ECMA-262, 13.3.6).
pub struct CallExpression<N = Node> {
    pub span: Span,
    pub callee: ExpressionNode<N>,
    pub arguments: Vec<Argument<N>>,
    /// The link is `?.`.
    pub optional: bool,
    /// The call has no effect but its result, and an annotation says so.
    pub pure: bool,
}

impl<N: Drop> Drop for CallExpression<N> {
    fn drop(self) {
        let CallExpression {
            span: _,
            callee: _,
            arguments: _,
            optional: _,
            pure: _,
        } = self;
    }
}

/// Links one behind the other, of which one at least is `?.`: members and calls that are left out together (ECMA-262, 13.3).
pub struct ChainExpression<N = Node> {
    pub span: Span,
    pub expression: ChainElement<N>,
}

impl<N: Drop> Drop for ChainExpression<N> {
    fn drop(self) {
        let ChainExpression {
            span: _,
            expression: _,
        } = self;
    }
}
