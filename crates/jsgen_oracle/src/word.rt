// How far a word goes, and what its spelling stands for (ECMA-262, 12.7).
ghost use Rattle.std.specs.Prelude.{◌≡◌, ◌<◌, ◌≤◌, IfOk, length};
ghost use Rattle.std.specs.List.{list_all};
ghost use Rattle.jsgen_syntax.specs.Escapes.{before_others, word_value, word_escape, word_hex, word_code_point, word_digits};
ghost use Rattle.jsgen_syntax.specs.Name.{starts_name, continues_name, spells_name};
ghost use Rattle.jsgen_model.specs.Tokens.{is_spelled, Word};
ghost use Rattle.jsgen_oracle.specs.Steps.{count_word, count_escape, count_braces};
ghost use Rattle.jsgen_oracle.specs.Values.{items_of, hex_room};

use crate::characters::{
    begins_with, begins_with_hex_digit, continues_name, digit_value, starts_name,
};
use jsgen_syntax::Memory;
use std::alloc::Global;

// How many characters of the text go in a word that stands there: those of names, and escapes.
#[cycle(count)]
pub(crate) fn count_word(text: &[char]) -> usize
    ensures value { result ≡ count_word text.now }
    ensures within { result ≤ length text.now }
{
    let Some((first, rest)) = text.split_first() else {
        return 0;
    };
    if *first == '\\' {
        1 + count_escape(rest)
    } else if continues_name(*first) {
        1 + count_word(rest)
    } else {
        0
    }
}

// The same behind a backslash.
#[cycle(count)]
fn count_escape(text: &[char]) -> usize
    ensures value { result ≡ count_escape text.now }
    ensures within { result ≤ length text.now }
{
    let Some((first, rest)) = text.split_first() else {
        return 0;
    };
    if *first != 'u' {
        0
    } else if begins_with('{', rest) {
        1 + count_braces(rest)
    } else {
        1 + count_word(rest)
    }
}

// Up to the closing brace of `\u{H..}`, and behind it.
#[cycle(count)]
fn count_braces(text: &[char]) -> usize
    ensures value { result ≡ count_braces text.now }
    ensures within { result ≤ length text.now }
{
    let Some((first, rest)) = text.split_first() else {
        return 0;
    };
    if *first == '}' {
        1 + count_word(rest)
    } else {
        1 + count_braces(rest)
    }
}

// Whether the spelling stands for a name.
pub(crate) fn is_word(alloc: Global, spelling: &[char]) -> Result<bool, Memory>
    ensures { IfOk result (λ b. b ≡ is_spelled (Word spelling.now)) }
{
    match word_value_of(alloc, spelling)? {
        Some(points) => Ok(spells_name(&points)),
        None => Ok(false),
    }
}

fn spells_name(points: &[u32]) -> bool
    ensures { result ≡ spells_name points.now }
{
    match points.split_first() {
        Some((first, rest)) => point_starts(*first) && all_continue(rest),
        None => false,
    }
}

fn all_continue(points: &[u32]) -> bool
    ensures { result ≡ list_all continues_name points.now }
{
    points.iter().all(|point| point_continues(*point))
}

// Whether the code point starts a name. A surrogate doesn't.
#[tactic(auto, using(crate::proofs::Words::no_scalar_starts))]
fn point_starts(point: u32) -> bool
    ensures { result ≡ starts_name point }
{
    match char::from_u32(point) {
        Some(c) => starts_name(c),
        None => false,
    }
}

#[tactic(auto, using(crate::proofs::Words::no_scalar_continues))]
fn point_continues(point: u32) -> bool
    ensures { result ≡ continues_name point }
{
    match char::from_u32(point) {
        Some(c) => continues_name(c),
        None => false,
    }
}

/// The code points of the word that has this spelling, or none where a backslash begins no escape. Code points and no
/// characters, since an escape may be that of a surrogate.
#[cycle(value)]
#[tactic(auto, unfolding(jsgen_syntax::specs::Escapes::word_value))]
pub fn word_value_of(alloc: Global, spelling: &[char]) -> Result<Option<Vec<u32>>, Memory>
    ensures { IfOk result (λ r. items_of r ≡ word_value spelling.now) }
{
    let Some((first, rest)) = spelling.split_first() else {
        return Ok(Some(Vec::new(alloc)));
    };
    if *first == '\\' {
        word_escape(alloc, rest)
    } else {
        before_others(*first as u32, word_value_of(alloc, rest)?)
    }
}

// The same of what stands behind a backslash.
#[cycle(value)]
#[tactic(auto, unfolding(jsgen_syntax::specs::Escapes::word_value))]
fn word_escape(alloc: Global, text: &[char]) -> Result<Option<Vec<u32>>, Memory>
    ensures { IfOk result (λ r. items_of r ≡ word_escape text.now) }
{
    let Some((first, rest)) = text.split_first() else {
        return Ok(None);
    };
    if *first != 'u' {
        Ok(None)
    } else if begins_with('{', rest) {
        word_code_point(alloc, rest)
    } else {
        word_hex(alloc, 4, 0, rest)
    }
}

// Before the last digits of `\uHHHH`, where this is the number so far.
#[cycle(value)]
#[tactic(auto, unfolding(jsgen_syntax::specs::Escapes::word_value))]
fn word_hex(
    alloc: Global,
    count: u32,
    before: u32,
    text: &[char],
) -> Result<Option<Vec<u32>>, Memory>
    requires { before < hex_room count }
    ensures { IfOk result (λ r. items_of r ≡ word_hex count before text.now) }
{
    let Some((first, rest)) = text.split_first() else {
        return Ok(None);
    };
    if !first.is_ascii_hexdigit() {
        return Ok(None);
    }
    let number = before * 16 + digit_value(*first);
    if count == 1 {
        before_others(number, word_value_of(alloc, rest)?)
    } else {
        word_hex(alloc, count - 1, number, rest)
    }
}

// Before the brace of `\u{H..}`.
#[cycle(value)]
#[tactic(auto, unfolding(jsgen_syntax::specs::Escapes::word_value))]
fn word_code_point(alloc: Global, text: &[char]) -> Result<Option<Vec<u32>>, Memory>
    ensures { IfOk result (λ r. items_of r ≡ word_code_point text.now) }
{
    let Some((_, rest)) = text.split_first() else {
        return Ok(None);
    };
    if begins_with_hex_digit(rest) {
        word_digits(alloc, 0, rest)
    } else {
        Ok(None)
    }
}

// Within its braces, where this is the number so far.
#[cycle(value)]
#[tactic(auto, unfolding(jsgen_syntax::specs::Escapes::word_value))]
fn word_digits(alloc: Global, before: u32, text: &[char]) -> Result<Option<Vec<u32>>, Memory>
    requires { before < 0x11_0000 }
    ensures { IfOk result (λ r. items_of r ≡ word_digits before text.now) }
{
    let Some((first, rest)) = text.split_first() else {
        return Ok(None);
    };
    if *first == '}' {
        return before_others(before, word_value_of(alloc, rest)?);
    }
    if !first.is_ascii_hexdigit() {
        return Ok(None);
    }
    let number = before * 16 + digit_value(*first);
    if number < 0x11_0000 {
        word_digits(alloc, number, rest)
    } else {
        Ok(None)
    }
}

// This code point, and behind it the others.
fn before_others(point: u32, others: Option<Vec<u32>>) -> Result<Option<Vec<u32>>, Memory>
    ensures { IfOk result (λ r. items_of r ≡ before_others point (items_of others)) }
{
    match others {
        Some(mut others) => {
            others.insert(0, point)?;
            Ok(Some(others))
        }
        None => Ok(None),
    }
}
