// Generated from tools/nodes/table.txt; edit that and run tools/nodes/generate.
// Programs, statements and declarations (ECMA-262, clauses 14 and 16).
ghost use Rattle.std.specs.Prelude.{◌≡◌};
ghost use Rattle.jsgen_tree.specs.Words.{kind_of_comment_word, content_of_comment_word, declaration_word};

use crate::modules::Hashbang;
use crate::nodes::{BindingPatternNode, ExpressionNode, Node, StatementNode};
use crate::sets::PropertyKey;
use jsgen_syntax::{SourceKind, Span};

/// How a comment is written: to the end of its line, as a block without a line end or with one, or by one of the two marks of HTML.
#[derive(Clone, Copy, Debug, PartialEq, Eq)]
pub enum CommentKind {
    Line,
    SingleLineBlock,
    MultiLineBlock,
    HtmlOpen,
    HtmlClose,
}

impl CommentKind {
    /// The spelling.
    pub fn as_str(self) -> &'static str
        ensures { result.now ≡ kind_of_comment_word self }
    {
        match self {
            CommentKind::Line => "line",
            CommentKind::SingleLineBlock => "block",
            CommentKind::MultiLineBlock => "multiline",
            CommentKind::HtmlOpen => "htmlopen",
            CommentKind::HtmlClose => "htmlclose",
        }
    }
}

/// What a comment says, as far as it matters to whether and where it is printed.
#[derive(Clone, Copy, Debug, PartialEq, Eq)]
pub enum CommentContent {
    Normal,
    Legal,
    Jsdoc,
    JsdocLegal,
    Pure,
    NoSideEffects,
    Webpack,
    Vite,
    PropertyKey,
    CoverageIgnore,
    CoverageIgnoreFile,
}

impl CommentContent {
    /// The spelling.
    pub fn as_str(self) -> &'static str
        ensures { result.now ≡ content_of_comment_word self }
    {
        match self {
            CommentContent::Normal => "normal",
            CommentContent::Legal => "legal",
            CommentContent::Jsdoc => "jsdoc",
            CommentContent::JsdocLegal => "jsdoclegal",
            CommentContent::Pure => "pure",
            CommentContent::NoSideEffects => "nosideeffects",
            CommentContent::Webpack => "webpack",
            CommentContent::Vite => "vite",
            CommentContent::PropertyKey => "propertykey",
            CommentContent::CoverageIgnore => "coverage",
            CommentContent::CoverageIgnoreFile => "coveragefile",
        }
    }
}

/// The word that begins a declaration of variables.
#[derive(Clone, Copy, Debug, PartialEq, Eq)]
pub enum VariableDeclarationKind {
    Const,
    Let,
    Var,
}

impl VariableDeclarationKind {
    /// The spelling.
    pub fn as_str(self) -> &'static str
        ensures { result.now ≡ declaration_word self }
    {
        match self {
            VariableDeclarationKind::Const => "const",
            VariableDeclarationKind::Let => "let",
            VariableDeclarationKind::Var => "var",
        }
    }
}

/// A script or a module (ECMA-262, 16).
pub struct Program<N = Node> {
    pub span: Span,
    /// The text that spans speak of.
    pub source: String,
    pub kind: SourceKind,
    /// The comments of the source.
    pub comments: Vec<Comment>,
    /// The first line of the source, where it begins with `#!`.
    pub hashbang: Option<Box<Hashbang>>,
    pub directives: Vec<Directive>,
    pub body: Vec<StatementNode<N>>,
}

impl<N: Drop> Drop for Program<N> {
    fn drop(self) {
        let Program {
            span: _,
            source: _,
            kind: _,
            comments: _,
            hashbang: _,
            directives: _,
            body: _,
        } = self;
    }
}

/// A comment, by where it stands in the source (ECMA-262, 12.4).
#[derive(Clone, Copy, Debug, PartialEq, Eq)]
pub struct Comment {
    pub span: Span,
    pub kind: CommentKind,
    pub content: CommentContent,
    /// It belongs to what follows it.
    pub leading: bool,
    /// The offset of what it belongs to.
    pub attached_to: u32,
    pub preceded_by_newline: bool,
    pub followed_by_newline: bool,
}

/// A string at the front of a body that a program says something by (ECMA-262, 11.2.1).
pub struct Directive {
    pub span: Span,
    /// What stands between its quotes, as it is written.
    pub directive: String,
}

impl Drop for Directive {
    fn drop(self) {
        let Directive {
            span: _,
            directive: _,
        } = self;
    }
}

/// Names that are bound, and their values (ECMA-262, 14.3).
pub struct VariableDeclaration<N = Node> {
    pub span: Span,
    pub kind: VariableDeclarationKind,
    pub declarations: Vec<VariableDeclarator<N>>,
}

impl<N: Drop> Drop for VariableDeclaration<N> {
    fn drop(self) {
        let VariableDeclaration {
            span: _,
            kind: _,
            declarations: _,
        } = self;
    }
}

/// One name that is bound, or one pattern (ECMA-262, 14.3).
pub struct VariableDeclarator<N = Node> {
    pub span: Span,
    pub id: BindingPatternNode<N>,
    pub init: Option<ExpressionNode<N>>,
}

impl<N: Drop> Drop for VariableDeclarator<N> {
    fn drop(self) {
        let VariableDeclarator {
            span: _,
            id: _,
            init: _,
        } = self;
    }
}

/// A name that is bound (ECMA-262, 13.1).
pub struct BindingIdentifier {
    pub span: Span,
    pub name: String,
    /// The symbol that it binds, by its number in the table of symbols.
    pub symbol: Option<u32>,
}

impl Drop for BindingIdentifier {
    fn drop(self) {
        let BindingIdentifier {
            span: _,
            name: _,
            symbol: _,
        } = self;
    }
}

/// An expression for what it does (ECMA-262, 14.5).
pub struct ExpressionStatement<N = Node> {
    pub span: Span,
    pub expression: ExpressionNode<N>,
}

impl<N: Drop> Drop for ExpressionStatement<N> {
    fn drop(self) {
        let ExpressionStatement {
            span: _,
            expression: _,
        } = self;
    }
}

/// Statements in braces (ECMA-262, 14.2).
pub struct BlockStatement<N = Node> {
    pub span: Span,
    pub body: Vec<StatementNode<N>>,
}

impl<N: Drop> Drop for BlockStatement<N> {
    fn drop(self) {
        let BlockStatement { span: _, body: _ } = self;
    }
}

/// A choice, with `else` or without (ECMA-262, 14.6).
pub struct IfStatement<N = Node> {
    pub span: Span,
    pub test: ExpressionNode<N>,
    pub consequent: StatementNode<N>,
    pub alternate: Option<StatementNode<N>>,
}

impl<N: Drop> Drop for IfStatement<N> {
    fn drop(self) {
        let IfStatement {
            span: _,
            test: _,
            consequent: _,
            alternate: _,
        } = self;
    }
}

/// A semicolon alone (ECMA-262, 14.4).
pub struct EmptyStatement {
    pub span: Span,
}

impl Drop for EmptyStatement {
    fn drop(self) {
        let EmptyStatement { span: _ } = self;
    }
}
