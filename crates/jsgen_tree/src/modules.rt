// Generated from tools/nodes/table.txt; edit that and run tools/nodes/generate.
// Imports and exports (ECMA-262, 16.2), and the hashbang of a program (12.5).
ghost use Rattle.std.specs.Prelude.{◌≡◌};
ghost use Rattle.jsgen_tree.specs.Words.{import_word, with_word};

use crate::expressions::StringLiteral;
use crate::nodes::{DeclarationNode, Node};
use crate::sets::{
    ExportDefaultDeclarationKind, ImportAttributeKey, ImportDeclarationSpecifier, ModuleExportName,
};
use crate::statements::BindingIdentifier;
use jsgen_syntax::Span;

/// What an import or an export is of.
#[derive(Clone, Copy, Debug, PartialEq, Eq)]
pub enum ImportOrExportKind {
    Value,
}

impl ImportOrExportKind {
    /// The spelling.
    pub fn as_str(self) -> &'static str
        ensures { result.now ≡ import_word self }
    {
        match self {
            ImportOrExportKind::Value => "value",
        }
    }
}

/// The word before attributes.
#[derive(Clone, Copy, Debug, PartialEq, Eq)]
pub enum WithKeyword {
    With,
}

impl WithKeyword {
    /// The spelling.
    pub fn as_str(self) -> &'static str
        ensures { result.now ≡ with_word self }
    {
        match self {
            WithKeyword::With => "with",
        }
    }
}

/// The first line of a source, without its `#!` and its line end (ECMA-262, 12.5).
pub struct Hashbang {
    pub span: Span,
    pub value: String,
}

impl Drop for Hashbang {
    fn drop(self) {
        let Hashbang { span: _, value: _ } = self;
    }
}

/// What is imported from another module, and by which names (ECMA-262, 16.2.2).
pub struct ImportDeclaration {
    pub span: Span,
    pub import_kind: ImportOrExportKind,
    /// Where there is no list, the module is imported for what it does.
    pub specifiers: Option<Vec<ImportDeclarationSpecifier>>,
    pub source: Box<StringLiteral>,
    pub with_clause: Option<Box<WithClause>>,
}

impl Drop for ImportDeclaration {
    fn drop(self) {
        let ImportDeclaration {
            span: _,
            import_kind: _,
            specifiers: _,
            source: _,
            with_clause: _,
        } = self;
    }
}

/// The default export, by a name (ECMA-262, 16.2.2).
pub struct ImportDefaultSpecifier {
    pub span: Span,
    pub local: Box<BindingIdentifier>,
}

impl Drop for ImportDefaultSpecifier {
    fn drop(self) {
        let ImportDefaultSpecifier { span: _, local: _ } = self;
    }
}

/// All exports of a module, by one name (ECMA-262, 16.2.2).
pub struct ImportNamespaceSpecifier {
    pub span: Span,
    pub local: Box<BindingIdentifier>,
}

impl Drop for ImportNamespaceSpecifier {
    fn drop(self) {
        let ImportNamespaceSpecifier { span: _, local: _ } = self;
    }
}

/// One export, by a name (ECMA-262, 16.2.2).
pub struct ImportSpecifier {
    pub span: Span,
    pub import_kind: ImportOrExportKind,
    pub imported: ModuleExportName,
    pub local: Box<BindingIdentifier>,
}

impl Drop for ImportSpecifier {
    fn drop(self) {
        let ImportSpecifier {
            span: _,
            import_kind: _,
            imported: _,
            local: _,
        } = self;
    }
}

/// What is asked of the module that is imported (ECMA-262, 16.2.2).
pub struct WithClause {
    pub span: Span,
    pub keyword: WithKeyword,
    pub entries: Vec<ImportAttribute>,
}

impl Drop for WithClause {
    fn drop(self) {
        let WithClause {
            span: _,
            keyword: _,
            entries: _,
        } = self;
    }
}

/// An attribute by its key and its value (ECMA-262, 16.2.2).
pub struct ImportAttribute {
    pub span: Span,
    pub key: ImportAttributeKey,
    pub value: Box<StringLiteral>,
}

impl Drop for ImportAttribute {
    fn drop(self) {
        let ImportAttribute {
            span: _,
            key: _,
            value: _,
        } = self;
    }
}

/// A declaration whose names are exported (ECMA-262, 16.2.3).
pub struct ExportDeclaration<N = Node> {
    pub span: Span,
    pub declaration: DeclarationNode<N>,
}

impl<N: Drop> Drop for ExportDeclaration<N> {
    fn drop(self) {
        let ExportDeclaration {
            span: _,
            declaration: _,
        } = self;
    }
}

/// Names of the module that are exported (ECMA-262, 16.2.3).
pub struct ExportNamedDeclaration {
    pub span: Span,
    pub export_kind: ImportOrExportKind,
    pub specifiers: Vec<ExportSpecifier>,
}

impl Drop for ExportNamedDeclaration {
    fn drop(self) {
        let ExportNamedDeclaration {
            span: _,
            export_kind: _,
            specifiers: _,
        } = self;
    }
}

/// Exports of another module that are exported here too (ECMA-262, 16.2.3).
pub struct ExportFromDeclaration {
    pub span: Span,
    pub export_kind: ImportOrExportKind,
    pub specifiers: Vec<ExportSpecifier>,
    pub source: Box<StringLiteral>,
    pub with_clause: Option<Box<WithClause>>,
}

impl Drop for ExportFromDeclaration {
    fn drop(self) {
        let ExportFromDeclaration {
            span: _,
            export_kind: _,
            specifiers: _,
            source: _,
            with_clause: _,
        } = self;
    }
}

/// One export: what it is of, and its name (ECMA-262, 16.2.3).
pub struct ExportSpecifier {
    pub span: Span,
    pub export_kind: ImportOrExportKind,
    pub local: ModuleExportName,
    pub exported: ModuleExportName,
}

impl Drop for ExportSpecifier {
    fn drop(self) {
        let ExportSpecifier {
            span: _,
            export_kind: _,
            local: _,
            exported: _,
        } = self;
    }
}

/// All exports of another module, each by its name or together by one (ECMA-262, 16.2.3).
pub struct ExportAllDeclaration {
    pub span: Span,
    pub export_kind: ImportOrExportKind,
    pub exported: Option<ModuleExportName>,
    pub source: Box<StringLiteral>,
    pub with_clause: Option<Box<WithClause>>,
}

impl Drop for ExportAllDeclaration {
    fn drop(self) {
        let ExportAllDeclaration {
            span: _,
            export_kind: _,
            exported: _,
            source: _,
            with_clause: _,
        } = self;
    }
}

/// The default export: a declaration, or the value of an expression (ECMA-262, 16.2.3).
pub struct ExportDefaultDeclaration<N = Node> {
    pub span: Span,
    pub declaration: ExportDefaultDeclarationKind<N>,
}

impl<N: Drop> Drop for ExportDefaultDeclaration<N> {
    fn drop(self) {
        let ExportDefaultDeclaration {
            span: _,
            declaration: _,
        } = self;
    }
}
