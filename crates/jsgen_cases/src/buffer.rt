// What a buffer of code holds, and shows of its end.
ghost use Rattle.std.specs.Prelude.{◌≡◌, ◌*◌, ◌^◌, ◌<◌};
ghost use Rattle.jsgen_syntax.specs.Buffer.{indent_width};

use crate::push::{push_numbers, push_where};
use jsgen_syntax::{CodeBuffer, IndentChar, Memory};
use std::alloc::Global;

/// The text of a buffer behind what it shows of its end. The text ends in indentation, which is named.
pub fn push_buffer(alloc: Global, indent: &str, answer: &mut String) -> Result<(), Memory> {
    match indent {
        "two tabs" => push_written(alloc, IndentChar::Tab, 1, 2, answer),
        "two spaces" => push_written(alloc, IndentChar::Space, 2, 1, answer),
        "no level" => push_written(alloc, IndentChar::Space, 2, 0, answer),
        _ => push_written(alloc, IndentChar::Space, 0, 3, answer),
    }
}

fn push_written(
    alloc: Global,
    indent: IndentChar,
    width: usize,
    depth: usize,
    answer: &mut String,
) -> Result<(), Memory>
    requires fits { depth * width < 2 ^ 64 }
{
    let mut buffer = CodeBuffer::with_indent(alloc, indent, width);
    write(&mut buffer, depth, width)?;
    let end = [
        buffer.last_byte().unwrap_or(0),
        buffer.peek_nth_byte_back(2).unwrap_or(0),
        buffer.peek_nth_byte_back(8).unwrap_or(0),
    ];
    push_numbers(alloc, &end, answer)?;
    push_where(
        answer,
        &[
            (buffer.is_empty(), " empty"),
            (buffer.len() == buffer.as_bytes().len(), " "),
            (true, buffer.as_str()),
        ],
    )
}

fn write(buffer: &mut CodeBuffer, depth: usize, width: usize) -> Result<(), Memory>
    requires wide { indent_width buffer.old ≡ width }
    requires fits { depth * width < 2 ^ 64 }
{
    buffer.print_ascii_byte(b'{')?;
    buffer.print_ascii_byte(b'\n')?;
    buffer.print_str("é;")?;
    buffer.print_indent(depth)
}
