// Regular expressions by their bodies and flags (ECMA-262, 12.9.5).
ghost use Rattle.std.specs.Prelude.{◌≡◌};
ghost use Rattle.std.specs.List.{list_all};
ghost use Rattle.std.specs.Str.{chars};
ghost use Rattle.jsgen_model.specs.RegularExpressions.{is_body, are_flags, is_flag, comes_twice, some_comes_twice};
ghost use Rattle.jsgen_model.specs.Valid.{regular_expression_faults};
ghost use Rattle.jsgen_rules.specs.Bodies.{step, may_end, in_characters, in_class, count_step, is_twice};
ghost use Rattle.jsgen_rules.specs.Verdict.{verdict};

use jsgen_model::TreeFault;
use jsgen_syntax::{Span, is_line_terminator};

/// What stands before the next character of a body.
#[derive(Clone, Copy)]
enum Body {
    /// Nothing.
    Start,
    /// Whole characters and classes.
    Characters,
    /// A backslash.
    Escape,
    /// The bracket of a class, and whole characters.
    Class,
    /// A backslash in a class.
    ClassEscape,
    /// What begins no body.
    Dead,
}

impl Body {
    fn step(self, c: char) -> Body
        ensures { result ≡ step self c }
    {
        if is_line_terminator(c) {
            return Body::Dead;
        }
        match self {
            Body::Start if c == '*' => Body::Dead,
            Body::Start | Body::Characters => in_characters(c),
            Body::Escape => Body::Characters,
            Body::Class => in_class(c),
            Body::ClassEscape => Body::Class,
            Body::Dead => Body::Dead,
        }
    }

    fn may_end(self) -> bool
        ensures { result ≡ may_end self }
    {
        matches!(self, Body::Characters)
    }
}

// A character that stands in no class, and no backslash before it.
fn in_characters(c: char) -> Body
    ensures { result ≡ in_characters c }
{
    match c {
        '\\' => Body::Escape,
        '[' => Body::Class,
        '/' => Body::Dead,
        _ => Body::Characters,
    }
}

fn in_class(c: char) -> Body
    ensures { result ≡ in_class c }
{
    match c {
        '\\' => Body::ClassEscape,
        ']' => Body::Characters,
        _ => Body::Class,
    }
}

/// Whether the text is the body of a regular expression, without the slashes.
fn is_body(pattern: &str) -> bool
    ensures { result ≡ is_body (chars pattern.now) }
{
    let mut state = Body::Start;
    for c in pattern.chars() {
        state = state.step(c);
    }
    state.may_end()
}

/// How often a letter came.
#[derive(Clone, Copy)]
enum Count {
    Never,
    Once,
    Twice,
}

impl Count {
    fn step(self, comes: bool) -> Count
        ensures { result ≡ count_step self comes }
    {
        match self {
            Count::Never if comes => Count::Once,
            Count::Never => Count::Never,
            Count::Once if !comes => Count::Once,
            Count::Once | Count::Twice => Count::Twice,
        }
    }

    fn is_twice(self) -> bool
        ensures { result ≡ is_twice self }
    {
        matches!(self, Count::Twice)
    }
}

/// Whether a letter comes more than once.
fn comes_twice(letter: char, flags: &str) -> bool
    ensures { result ≡ comes_twice letter (chars flags.now) }
{
    let mut count = Count::Never;
    for c in flags.chars() {
        count = count.step(c == letter);
    }
    count.is_twice()
}

fn some_comes_twice(flags: &str) -> bool
    ensures { result ≡ some_comes_twice (chars flags.now) }
{
    comes_twice('d', flags)
        || comes_twice('g', flags)
        || comes_twice('i', flags)
        || comes_twice('m', flags)
        || comes_twice('s', flags)
        || comes_twice('u', flags)
        || comes_twice('v', flags)
        || comes_twice('y', flags)
}

fn is_flag(c: char) -> bool
    ensures { result ≡ is_flag c }
{
    matches!(c, 'd' | 'g' | 'i' | 'm' | 's' | 'u' | 'v' | 'y')
}

fn all_are_flags(flags: &str) -> bool
    ensures { result ≡ list_all is_flag (chars flags.now) }
{
    flags.chars().all(|c| is_flag(c))
}

/// Whether the text is the flags of a regular expression, of which none may come twice.
fn are_flags(flags: &str) -> bool
    ensures { result ≡ are_flags (chars flags.now) }
{
    all_are_flags(flags) && !some_comes_twice(flags)
}

/// A regular expression has a body and flags.
pub fn check_regular_expression(pattern: &str, flags: &str, span: Span) -> Result<(), TreeFault>
    ensures { result ≡ verdict (regular_expression_faults span (chars pattern.now) (chars flags.now)) }
{
    if !is_body(pattern) || !are_flags(flags) {
        return Err(TreeFault::Literal { start: span.start });
    }
    Ok(())
}
