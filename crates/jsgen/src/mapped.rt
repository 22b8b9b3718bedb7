// Whole programs, with the map of their marks or without one.
ghost use Rattle.std.specs.Prelude.{◌≡◌, ◌^◌, ◌<◌, length, map, IfOk, None, Some, string_bytes};
ghost use Rattle.std.specs.Str.{encode_utf8_all};
ghost use Rattle.jsgen_map.specs.Marks.{AreMarks, MapOf};
ghost use Rattle.jsgen_map.specs.Names.{texts};
ghost use Rattle.jsgen_map.specs.Plain.{mark_plain};
ghost use Rattle.jsgen_tree.specs.Plain.{program_plain};
ghost use Rattle.jsgen_place.specs.Place.{among_statements};
ghost use Rattle.jsgen_model.specs.Lay.{lay};
ghost use Rattle.jsgen_model.specs.Spell.{spell};
ghost use Rattle.jsgen_printer.specs.Printer.{pen_of, at_depth, marks_plain, source_plain};
ghost use Rattle.jsgen.specs.Codegen.{mapped_from, MapsTo};
ghost use Rattle.jsgen.specs.Licences.{apart, ended_by, rows_plain};

use crate::codegen::{CodegenError, CodegenReturn};
use crate::licences::End;
use jsgen_map::{SourceMap, map_of_marks};
use jsgen_nodes::statements::print_program;
use jsgen_place::Place;
use jsgen_printer::{Marks, Printer};
use jsgen_tree::Program;
use std::alloc::Global;

// The printer behind the whole program, whose first line stands at this level, and what stands at its end.
fn print_whole<'a>(
    depth: u32,
    printer: Printer<'a>,
    program: &Program,
    end: &End<'_>,
) -> Result<Printer<'a>, CodegenError>
    ensures { IfOk result (λ p. pen_of p ≡ ended_by end.now (string_bytes program.now.source) (lay (spell (program_plain program.now) among_statements) (at_depth depth (pen_of printer.entry)))) }
{
    let mut p = printer;
    p.set_depth(depth);
    print_program(program, &mut p, Place::among_statements());
    p.print_licences(end.legal, program.source.as_str(), &end.licences);
    if p.has_failed() {
        return Err(CodegenError::Memory);
    }
    Ok(p)
}

/// A program without a map.
pub(crate) fn print_unmapped<'a>(
    depth: u32,
    printer: Printer<'_>,
    program: &Program,
    end: End<'_>,
) -> Result<CodegenReturn<'a>, CodegenError>
    ensures code { IfOk result (λ printed. string_bytes printed.code
        ≡ encode_utf8_all (ended_by end.entry (string_bytes program.now.source) (lay (spell (program_plain program.now) among_statements) (at_depth depth (pen_of printer.entry)))).code) }
    ensures map { IfOk result (λ printed. printed.map ≡ None) }
    ensures apart { IfOk result (λ printed. rows_plain printed.legal_comments.items ≡ apart end.entry) }
{
    let p = print_whole(depth, printer, program, &end)?;
    Ok(CodegenReturn {
        code: p.into_string(),
        map: None,
        legal_comments: end.into_apart(),
    })
}

// The code of a program and the marks in it, which lead to its source.
fn print_marked<'a>(
    alloc: Global,
    depth: u32,
    printer: Printer<'a>,
    program: &'a Program,
    end: &End<'_>,
) -> Result<(String, Option<Marks<'a>>), CodegenError>
    ensures code { IfOk result (λ made. string_bytes made.0
        ≡ encode_utf8_all (ended_by end.now (string_bytes program.now.source) (lay (spell (program_plain program.now) among_statements) (mapped_from depth (string_bytes program.now.source) (pen_of printer.entry)))).code) }
    ensures source { IfOk result (λ made. source_plain made.1 ≡ Some (string_bytes program.now.source)) }
    ensures marks { IfOk result (λ made. marks_plain made.1
        ≡ (ended_by end.now (string_bytes program.now.source) (lay (spell (program_plain program.now) among_statements) (mapped_from depth (string_bytes program.now.source) (pen_of printer.entry)))).marks) }
{
    let marks = Marks::new(alloc, program.source.as_str());
    let p = print_whole(depth, printer.with_marks(marks), program, end)?;
    Ok(p.into_parts())
}

/// A program with the map of its marks.
pub(crate) fn print_mapped<'a>(
    alloc: Global,
    path: &str,
    depth: u32,
    printer: Printer<'a>,
    program: &'a Program,
    end: End<'_>,
) -> Result<CodegenReturn<'a>, CodegenError>
    requires source { length (string_bytes program.now.source) < 2 ^ 32 }
    ensures code { IfOk result (λ printed. string_bytes printed.code
        ≡ encode_utf8_all (ended_by end.entry (string_bytes program.now.source) (lay (spell (program_plain program.now) among_statements) (mapped_from depth (string_bytes program.now.source) (pen_of printer.entry)))).code) }
    ensures map { IfOk result (λ printed. MapsTo (ended_by end.entry (string_bytes program.now.source) (lay (spell (program_plain program.now) among_statements) (mapped_from depth (string_bytes program.now.source) (pen_of printer.entry))))
        (string_bytes program.now.source) path.now printed.map) }
    ensures apart { IfOk result (λ printed. rows_plain printed.legal_comments.items ≡ apart end.entry) }
{
    let (code, marks) = print_marked(alloc, depth, printer, program, &end)?;
    match marks {
        Some(marks) => {
            let map = map_of(alloc, path, &code, &marks)?;
            Ok(CodegenReturn {
                code,
                map: Some(map),
                legal_comments: end.into_apart(),
            })
        }
        None => Ok(CodegenReturn {
            code,
            map: None,
            legal_comments: end.into_apart(),
        }),
    }
}

// The map of the marks of a code.
fn map_of<'a>(
    alloc: Global,
    path: &str,
    code: &str,
    marks: &Marks<'a>,
) -> Result<SourceMap<'a>, CodegenError>
    requires source { length marks.now.source.now < 2 ^ 32 }
    requires marks { AreMarks code.now marks.now.source.now (map mark_plain marks.now.list.items) }
    ensures map { IfOk result (λ m. MapOf code.now marks.now.source.now (map mark_plain marks.now.list.items) (texts m.names.items) m.tokens.items) }
    ensures path { IfOk result (λ m. string_bytes m.source_name ≡ path.now) }
    ensures content { IfOk result (λ m. m.source_content.now ≡ marks.now.source.now) }
{
    match map_of_marks(alloc, path, marks.source, code.as_bytes(), &marks.list) {
        Ok(map) => Ok(map),
        Err(_) => Err(CodegenError::Memory),
    }
}
