// What a caller can choose about a text.
ghost use Rattle.std.specs.Prelude.{◌≡◌, IfOk};
ghost use Rattle.jsgen_tree.specs.Options.{legal_plain, comments_plain, options_plain, is_none, is_inline, is_eof, no_comments, default_legal, default_comments, default_options, minified_options};

use jsgen_syntax::{IndentChar, Memory};
use std::alloc::Global;

/// What becomes of the comments that hold a licence.
#[derive(Debug, PartialEq, Eq, Drop)]
pub enum LegalComment {
    /// They are left out.
    None,
    /// They stay where they are.
    Inline,
    /// They stand at the end of the code.
    Eof,
    /// They stand in a file of their own, which the code names.
    Linked(String),
    /// They stand in a file of their own.
    External,
}

impl LegalComment {
    /// Whether they are left out.
    pub fn is_none(&self) -> bool
        ensures { result ≡ is_none (legal_plain self.now) }
    {
        matches!(self, LegalComment::None)
    }

    /// Whether they stay where they are.
    pub fn is_inline(&self) -> bool
        ensures { result ≡ is_inline (legal_plain self.now) }
    {
        matches!(self, LegalComment::Inline)
    }

    /// Whether they stand at the end of the code.
    pub fn is_eof(&self) -> bool
        ensures { result ≡ is_eof (legal_plain self.now) }
    {
        matches!(self, LegalComment::Eof)
    }

    /// The same choice once more.
    pub fn clone(&self, alloc: Global) -> Result<LegalComment, Memory>
        ensures { IfOk result (λ copy. legal_plain copy ≡ legal_plain self.now) }
    {
        match self {
            LegalComment::None => Ok(LegalComment::None),
            LegalComment::Inline => Ok(LegalComment::Inline),
            LegalComment::Eof => Ok(LegalComment::Eof),
            LegalComment::Linked(path) => Ok(LegalComment::Linked(String::from_str(alloc, path)?)),
            LegalComment::External => Ok(LegalComment::External),
        }
    }
}

/// They stay where they are.
impl Default for LegalComment {
    ghost is_default = { λ legal. legal_plain legal ≡ default_legal };

    fn default() -> LegalComment {
        LegalComment::Inline
    }
}

/// Which comments are printed.
#[derive(Debug, PartialEq, Eq, Drop)]
pub struct CommentOptions {
    pub normal: bool,
    /// Those that begin with `/**`.
    pub jsdoc: bool,
    /// Those that tell a tool something of the code, as `/* @__PURE__ */`.
    pub annotation: bool,
    pub legal: LegalComment,
}

impl CommentOptions {
    /// No comments.
    pub fn disabled() -> CommentOptions
        ensures { comments_plain result ≡ no_comments }
    {
        CommentOptions {
            normal: false,
            jsdoc: false,
            annotation: false,
            legal: LegalComment::None,
        }
    }

    /// The same choice once more.
    pub fn clone(&self, alloc: Global) -> Result<CommentOptions, Memory>
        ensures { IfOk result (λ copy. comments_plain copy ≡ comments_plain self.now) }
    {
        Ok(CommentOptions {
            normal: self.normal,
            jsdoc: self.jsdoc,
            annotation: self.annotation,
            legal: self.legal.clone(alloc)?,
        })
    }
}

/// All comments, where they are.
impl Default for CommentOptions {
    ghost is_default = { λ c. comments_plain c ≡ default_comments };

    fn default() -> CommentOptions {
        CommentOptions {
            normal: true,
            jsdoc: true,
            annotation: true,
            legal: LegalComment::default(),
        }
    }
}

/// How a program is printed. `source_map_path` changes no text.
#[derive(Debug, PartialEq, Eq, Drop)]
pub struct CodegenOptions {
    /// Strings of pretty text, and directives, stand in single quotes.
    pub single_quote: bool,
    /// No space and no line end that can be left out, and no semicolon that ends a statement before a closing brace.
    pub minify: bool,
    /// Other characters are written with escapes.
    pub ascii_only: bool,
    pub comments: CommentOptions,
    /// The file that the source map is for.
    pub source_map_path: Option<String>,
    /// What a level of indentation is made of, and how many of it.
    pub indent_char: IndentChar,
    pub indent_width: usize,
    /// The level of a program's first line.
    pub initial_indent: u32,
}

impl CodegenOptions {
    /// Minified text with no comments.
    pub fn minify() -> CodegenOptions
        ensures { options_plain result ≡ minified_options }
    {
        CodegenOptions {
            minify: true,
            comments: CommentOptions::disabled(),
            ..CodegenOptions::default()
        }
    }

    /// The same choices once more.
    pub fn clone(&self, alloc: Global) -> Result<CodegenOptions, Memory>
        ensures { IfOk result (λ copy. options_plain copy ≡ options_plain self.now) }
    {
        let source_map_path = match &self.source_map_path {
            Some(path) => Some(String::from_str(alloc, path)?),
            None => None,
        };
        Ok(CodegenOptions {
            single_quote: self.single_quote,
            minify: self.minify,
            ascii_only: self.ascii_only,
            comments: self.comments.clone(alloc)?,
            source_map_path,
            indent_char: self.indent_char,
            indent_width: self.indent_width,
            initial_indent: self.initial_indent,
        })
    }
}

/// Pretty text with all comments, indented by one tab a level.
impl Default for CodegenOptions {
    ghost is_default = { λ o. options_plain o ≡ default_options };

    fn default() -> CodegenOptions {
        CodegenOptions {
            single_quote: false,
            minify: false,
            ascii_only: false,
            comments: CommentOptions::default(),
            source_map_path: None,
            indent_char: IndentChar::default(),
            indent_width: 1,
            initial_indent: 0,
        }
    }
}
