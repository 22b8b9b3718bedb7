// Tokens, and the one at the front of a text (ECMA-262, clause 12).
ghost use Rattle.std.specs.Prelude.{◌≡◌, ◌<◌, ◌∷◌, [], true, length, IfOk, IfSome, MatchOption, option_map};
ghost use Rattle.jsgen_syntax.specs.Escapes.{begins};
ghost use Rattle.jsgen_syntax.specs.Strings.{quote_char};
ghost use Rattle.jsgen_model.specs.Punctuator.{closing};
ghost use Rattle.jsgen_model.specs.Tokens.{ends_before, Word};
ghost use Rattle.jsgen_oracle.specs.Plain.{bracket_plain, piece_plain};
ghost use Rattle.jsgen_oracle.specs.Steps.{starts_word, StandsAt, HasNoPiece, HasNoSign, begins_number, quote_at, count_before, opening_at, ends_row};

use crate::characters::{continues_name, starts_name};
use crate::number::{begins_number, count_number, may_follow};
use crate::punctuator::{Punctuator, sign_at};
use crate::string::{mark, string_value_of};
use crate::word::{count_word, is_word};
use jsgen_numbers::Number;
use jsgen_syntax::{Memory, Quote};
use std::alloc::Global;

#[derive(Clone, Copy)]
pub enum Bracket {
    Round,
    Square,
    Brace,
}

/// A token that is no bracket.
#[derive(Drop)]
pub enum Piece {
    /// A name or a keyword, by its spelling, which may have escapes.
    Word(Vec<char>),
    Number(Vec<char>),
    /// A string, or a template without substitutions: what stands between its quotes.
    Quoted { quote: Quote, text: Vec<char> },
    Sign(Punctuator),
}

/// A token, or a group of them in brackets that match.
#[derive(Drop)]
pub enum Token {
    Piece {
        /// A line end stands before it.
        line: bool,
        piece: Piece,
    },
    Group {
        /// A line end stands before the opening bracket.
        line: bool,
        bracket: Bracket,
        tokens: Vec<Token>,
    },
}

// A token, and the text behind it.
#[derive(Drop)]
pub(crate) struct Taken<'a> {
    pub piece: Piece,
    pub rest: &'a [char],
}

impl Bracket {
    pub(crate) fn closing(self) -> &'static [char]
        ensures { result.now ≡ closing (bracket_plain self) }
    {
        match self {
            Bracket::Round => &[')'],
            Bracket::Square => &[']'],
            Bracket::Brace => &['}'],
        }
    }
}

pub(crate) fn opening_at(text: &[char]) -> Option<Bracket>
    ensures { option_map bracket_plain result ≡ opening_at text.now }
{
    match text.first()? {
        '(' => Some(Bracket::Round),
        '[' => Some(Bracket::Square),
        '{' => Some(Bracket::Brace),
        _ => None,
    }
}

// Whether a closing bracket or the end stands there.
pub(crate) fn ends_row(text: &[char]) -> bool
    ensures { result ≡ ends_row text.now }
{
    match text.first() {
        Some(c) => *c == ')' || *c == ']' || *c == '}',
        None => true,
    }
}

// The token at the front of the text.
pub(crate) fn take_piece<'a>(alloc: Global, text: &'a [char]) -> Result<Option<Taken<'a>>, Memory>
    ensures { IfOk result (λ r. MatchOption r (HasNoPiece text.now)
        (λ t. StandsAt text.now (piece_plain t.piece) t.rest.now)) }
{
    if begins_word(text) {
        take_word(alloc, text)
    } else if begins_number(text) {
        take_number(alloc, text)
    } else {
        match quote_at(text) {
            Some(quote) => {
                let (_, inner) = text.split_at(1);
                take_string(alloc, quote, inner)
            }
            None => Ok(take_sign(text)),
        }
    }
}

fn begins_word(text: &[char]) -> bool
    ensures { result ≡ begins starts_word text.now }
{
    match text.first() {
        Some(c) => starts_name(*c) || *c == '\\',
        None => false,
    }
}

fn take_word<'a>(alloc: Global, text: &'a [char]) -> Result<Option<Taken<'a>>, Memory>
    requires { begins starts_word text.now ≡ true }
    ensures { IfOk result (λ r. MatchOption r (HasNoPiece text.now)
        (λ t. StandsAt text.now (piece_plain t.piece) t.rest.now)) }
{
    let (word, rest) = text.split_at(count_word(text));
    if is_word(alloc, word)? && ends_word(rest) {
        Ok(Some(Taken {
            piece: Piece::Word(Vec::from_slice(alloc, word)?),
            rest,
        }))
    } else {
        Ok(None)
    }
}

// Whether a word may end before this text.
fn ends_word(rest: &[char]) -> bool
    ensures { result ≡ ends_before (Word []) rest.now }
{
    match rest.first() {
        Some(c) => !(continues_name(*c) || *c == '\\'),
        None => true,
    }
}

fn take_number<'a>(alloc: Global, text: &'a [char]) -> Result<Option<Taken<'a>>, Memory>
    requires { begins_number text.now ≡ true }
    ensures { IfOk result (λ r. MatchOption r (HasNoPiece text.now)
        (λ t. StandsAt text.now (piece_plain t.piece) t.rest.now)) }
{
    let Some(count) = count_number(Number::Start, text) else {
        return Ok(None);
    };
    let (number, rest) = text.split_at(count);
    if may_follow(rest) {
        Ok(Some(Taken {
            piece: Piece::Number(Vec::from_slice(alloc, number)?),
            rest,
        }))
    } else {
        Ok(None)
    }
}

fn quote_at(text: &[char]) -> Option<Quote>
    ensures { result ≡ quote_at text.now }
{
    match text.first()? {
        '\'' => Some(Quote::Single),
        '"' => Some(Quote::Double),
        '`' => Some(Quote::Backtick),
        _ => None,
    }
}

// The string whose first quote stands before the text.
fn take_string<'a>(
    alloc: Global,
    quote: Quote,
    text: &'a [char],
) -> Result<Option<Taken<'a>>, Memory>
    ensures { IfOk result (λ r. MatchOption r (HasNoPiece (quote_char quote ∷ text.now))
        (λ t. StandsAt (quote_char quote ∷ text.now) (piece_plain t.piece) t.rest.now)) }
{
    let Some(count) = count_before(quote, false, text) else {
        return Ok(None);
    };
    let (spelling, behind) = text.split_at(count);
    let (_, rest) = behind.split_at(1);
    if string_value_of(alloc, quote, spelling)?.is_none() {
        return Ok(None);
    }
    Ok(Some(Taken {
        piece: Piece::Quoted {
            quote,
            text: Vec::from_slice(alloc, spelling)?,
        },
        rest,
    }))
}

// How many characters stand before the first quote that isn't behind a backslash. The flag tells that one stands
// before the text.
fn count_before(quote: Quote, behind: bool, text: &[char]) -> Option<usize>
    ensures value { result ≡ count_before quote behind text.now }
    ensures within { IfSome result (λ n. n < length text.now) }
{
    let (first, rest) = text.split_first()?;
    if !behind && *first == mark(quote) {
        return Some(0);
    }
    let count = count_before(quote, !behind && *first == '\\', rest)?;
    Some(count + 1)
}

fn take_sign<'a>(text: &'a [char]) -> Option<Taken<'a>>
    ensures { MatchOption result (HasNoSign text.now)
        (λ t. StandsAt text.now (piece_plain t.piece) t.rest.now) }
{
    match sign_at(text) {
        Some(sign) => {
            let (_, rest) = text.split_at(sign.text().len());
            Some(Taken {
                piece: Piece::Sign(sign),
                rest,
            })
        }
        None => None,
    }
}
