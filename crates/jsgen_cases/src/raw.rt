// Texts that are printed nearly as they are.
use jsgen_syntax::{CodeBuffer, IndentChar, Memory};
use jsgen_text::{
    NonAsciiEscape, print_directive_raw, print_name_text, print_non_ascii_escaped,
    print_regex_pattern, print_str_escaping_script_close_tag, print_template_quasi_raw,
};
use std::alloc::Global;

/// What is printed for a raw text. `ascii` stands behind what is to be ASCII, and `!` behind a name with escapes.
pub fn push_raw(alloc: Global, how: &str, text: &str, answer: &mut String) -> Result<(), Memory> {
    let mut code = CodeBuffer::with_indent(alloc, IndentChar::Tab, 1);
    print_raw(&mut code, how, text)?;
    Ok(answer.push_str(code.as_str())?)
}

fn print_raw(code: &mut CodeBuffer, how: &str, text: &str) -> Result<(), Memory> {
    let ascii = how.ends_with(" ascii");
    match how.strip_suffix(" ascii").unwrap_or(how) {
        "close tag" => print_str_escaping_script_close_tag(code, text),
        "name" => {
            let escapes = print_name_text(code, text, ascii)?;
            code.print_str(if escapes { "!" } else { "" })
        }
        "piece" => print_template_quasi_raw(code, text, false, false, ascii),
        "minified piece" => print_template_quasi_raw(code, text, false, true, ascii),
        "tagged piece" => print_template_quasi_raw(code, text, true, true, ascii),
        "directive" => print_directive_raw(code, text, ascii),
        "pattern" => print_regex_pattern(code, text, ascii),
        "escaped name" => print_non_ascii_escaped(code, text, NonAsciiEscape::Identifier),
        "escaped pattern" => print_non_ascii_escaped(code, text, NonAsciiEscape::RegExp),
        "escaped piece" => print_non_ascii_escaped(code, text, NonAsciiEscape::TemplateRaw),
        _ => print_non_ascii_escaped(code, text, NonAsciiEscape::Directive),
    }
}
