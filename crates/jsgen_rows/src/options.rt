// The options of a job, field 0 of its head.
ghost use Rattle.std.specs.Prelude.{◌≡◌, codes, option_map};
ghost use Rattle.serde_json.specs.View.{view};
ghost use Rattle.jsgen_tree.specs.Characters.{characters};
ghost use Rattle.jsgen_tree.specs.Options.{legal_plain, comments_plain, options_plain};
ghost use Rattle.jsgen_fields.specs.Values.{Same, field, choice_given, path_given, legal_named, legal_given, comments_read, char_named, char_given, width_given, level_given, options_read, options_in};

use jsgen_fields::head::{number_in, optional_value, present, text_in};
use jsgen_fields::{At, InputFault};
use jsgen_syntax::IndentChar;
use jsgen_tree::{CodegenOptions, CommentOptions, LegalComment};
use serde_json::Value;
use std::alloc::Global;

/// An option that is true or false, or what stands for an absent one.
fn choice_in(options: &Value, name: &str, absent: bool) -> Result<bool, InputFault>
    ensures { Same (λ b. b) result (choice_given absent (field name.now (view options.now))) }
{
    let Some(value) = present(options, name) else {
        return Ok(absent);
    };
    match value.as_bool() {
        Some(given) => Ok(given),
        None => Err(InputFault::Wrong(At::of_head(0))),
    }
}

/// An option that is a text.
fn path_in(alloc: Global, options: &Value, name: &str) -> Result<Option<String>, InputFault>
    ensures { Same (option_map characters) result (path_given (field name.now (view options.now))) }
{
    let Some(value) = present(options, name) else {
        return Ok(None);
    };
    let path = text_in(At::of_head(0), value)?;
    Ok(Some(String::from_str(alloc, path)?))
}

// ---- which comments are printed

fn legal_named(word: &str, path: Option<String>) -> Option<LegalComment>
    ensures { option_map legal_plain result ≡ legal_named word.now (option_map characters path) }
{
    match word {
        "none" => Some(LegalComment::None),
        "inline" => Some(LegalComment::Inline),
        "eof" => Some(LegalComment::Eof),
        "linked" => match path {
            Some(path) => Some(LegalComment::Linked(path)),
            None => None,
        },
        "external" => Some(LegalComment::External),
        _ => None,
    }
}

/// What becomes of the comments that hold a licence; those that are linked stand at the path.
fn legal_in(options: &Value, path: Option<String>) -> Result<LegalComment, InputFault>
    ensures { Same legal_plain result (legal_given (field (codes "legal") (view options.now)) (option_map characters path)) }
{
    let at = At::of_head(0);
    let Some(value) = present(options, "legal") else {
        return Ok(LegalComment::Inline);
    };
    match legal_named(text_in(at, value)?, path) {
        Some(legal) => Ok(legal),
        None => Err(InputFault::Wrong(at)),
    }
}

fn comments_read(alloc: Global, options: &Value) -> Result<CommentOptions, InputFault>
    ensures { Same comments_plain result (comments_read (view options.now)) }
{
    let normal = choice_in(options, "normal", true)?;
    let jsdoc = choice_in(options, "jsdoc", true)?;
    let annotation = choice_in(options, "annotation", true)?;
    let path = path_in(alloc, options, "legal_path")?;
    let legal = legal_in(options, path)?;
    Ok(CommentOptions {
        normal,
        jsdoc,
        annotation,
        legal,
    })
}

// ---- indentation

fn char_named(word: &str) -> Option<IndentChar>
    ensures { result ≡ char_named word.now }
{
    match word {
        "tab" => Some(IndentChar::Tab),
        "space" => Some(IndentChar::Space),
        _ => None,
    }
}

/// What a level of indentation is made of.
fn char_in(options: &Value) -> Result<IndentChar, InputFault>
    ensures { Same (λ c. c) result (char_given (field (codes "indent_char") (view options.now))) }
{
    let at = At::of_head(0);
    let Some(value) = present(options, "indent_char") else {
        return Ok(IndentChar::Tab);
    };
    match char_named(text_in(at, value)?) {
        Some(named) => Ok(named),
        None => Err(InputFault::Wrong(at)),
    }
}

/// How many of it a level of indentation takes.
fn width_in(options: &Value) -> Result<usize, InputFault>
    ensures { Same (λ n. n) result (width_given (field (codes "indent_width") (view options.now))) }
{
    let Some(value) = present(options, "indent_width") else {
        return Ok(1);
    };
    match value.as_u64() {
        Some(width) => Ok(width as usize),
        None => Err(InputFault::Wrong(At::of_head(0))),
    }
}

/// The level of the first line.
fn level_in(options: &Value) -> Result<u32, InputFault>
    ensures { Same (λ n. n) result (level_given (field (codes "initial_indent") (view options.now))) }
{
    match present(options, "initial_indent") {
        Some(value) => number_in(At::of_head(0), value),
        None => Ok(0),
    }
}

// ---- the whole

fn options_read(alloc: Global, options: &Value) -> Result<CodegenOptions, InputFault>
    ensures { Same options_plain result (options_read (view options.now)) }
{
    if options.as_object().is_none() {
        return Err(InputFault::Wrong(At::of_head(0)));
    }
    let single_quote = choice_in(options, "single_quote", false)?;
    let minify = choice_in(options, "minify", false)?;
    let ascii_only = choice_in(options, "ascii_only", false)?;
    let comments = comments_read(alloc, options)?;
    let source_map_path = path_in(alloc, options, "source_map_path")?;
    let indent_char = char_in(options)?;
    let indent_width = width_in(options)?;
    let initial_indent = level_in(options)?;
    Ok(CodegenOptions {
        single_quote,
        minify,
        ascii_only,
        comments,
        source_map_path,
        indent_char,
        indent_width,
        initial_indent,
    })
}

pub fn options_in(alloc: Global, job: &Value) -> Result<CodegenOptions, InputFault>
    ensures { Same options_plain result (options_in (view job.now)) }
{
    if job.as_object().is_none() {
        return Err(InputFault::Json);
    }
    let Some(options) = optional_value(At::of_head(0), job, "options")? else {
        return Ok(CodegenOptions::default());
    };
    options_read(alloc, options)
}
