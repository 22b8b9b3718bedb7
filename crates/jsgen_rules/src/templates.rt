// Pieces of templates by their raw texts and what these stand for (ECMA-262, 12.9.6).
ghost use Rattle.std.specs.Prelude.{◌≡◌, true, option_map};
ghost use Rattle.std.specs.Str.{chars};
ghost use Rattle.jsgen_syntax.specs.Units.{js_units};
ghost use Rattle.jsgen_model.specs.Templates.{is_raw, is_cooked};
ghost use Rattle.jsgen_model.specs.Valid.{piece_faults};
ghost use Rattle.jsgen_rules.specs.Pieces.{step, may_end, in_characters};
ghost use Rattle.jsgen_rules.specs.Verdict.{verdict};

use crate::values::stands_for;
use jsgen_model::TreeFault;
use jsgen_syntax::{JsStr, Quote, Span};
use jsgen_text::spells_string;

/// What stands before the next character of a raw text.
#[derive(Clone, Copy)]
enum Raw {
    /// Whole characters.
    Characters,
    /// A `$`.
    Dollar,
    /// A backslash.
    Escape,
    /// What begins no raw text.
    Dead,
}

impl Raw {
    fn step(self, c: char) -> Raw
        ensures { result ≡ step self c }
    {
        match self {
            Raw::Escape if c == '\r' => Raw::Dead,
            Raw::Escape => Raw::Characters,
            Raw::Dollar if c == '{' => Raw::Dead,
            Raw::Characters | Raw::Dollar => in_characters(c),
            Raw::Dead => Raw::Dead,
        }
    }

    fn may_end(self) -> bool
        ensures { result ≡ may_end self }
    {
        matches!(self, Raw::Characters | Raw::Dollar)
    }
}

// A character that no backslash stands before.
fn in_characters(c: char) -> Raw
    ensures { result ≡ in_characters c }
{
    match c {
        '\\' => Raw::Escape,
        '\r' | '`' => Raw::Dead,
        '$' => Raw::Dollar,
        _ => Raw::Characters,
    }
}

/// Whether the text is the raw text of a piece.
fn is_raw(raw: &str) -> bool
    ensures { result ≡ is_raw (chars raw.now) }
{
    let mut state = Raw::Characters;
    for c in raw.chars() {
        state = state.step(c);
    }
    state.may_end()
}

/// Whether a raw text stands for these units, or where there are none for nothing.
fn is_cooked(raw: &str, cooked: &Option<JsStr>) -> bool
    requires { is_raw (chars raw.now) ≡ true }
    ensures { result ≡ is_cooked (chars raw.now) (option_map js_units cooked.now) }
{
    match cooked {
        Some(units) => stands_for(raw, units),
        None => !spells_string(Quote::Backtick, raw),
    }
}

/// A piece is its raw text, and what that stands for.
pub fn check_piece(raw: &str, cooked: &Option<JsStr>, span: Span) -> Result<(), TreeFault>
    ensures { result ≡ verdict (piece_faults span (chars raw.now) (option_map js_units cooked.now)) }
{
    if !is_raw(raw) || !is_cooked(raw, cooked) {
        return Err(TreeFault::Template { start: span.start });
    }
    Ok(())
}
