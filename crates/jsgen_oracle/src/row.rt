// Rows of tokens, and the groups in them.
ghost use Rattle.std.specs.Prelude.{◌≡◌, ◌≤◌, ◌∷◌, ◌++◌, false, Some, None, IfOk, IfSome, MatchOption, length, option_map};
ghost use Rattle.jsgen_model.specs.Punctuator.{opening, closing};
ghost use Rattle.jsgen_oracle.specs.Plain.{bracket_plain, tokens_plain};
ghost use Rattle.jsgen_oracle.specs.Steps.{opening_at, ends_row, mark_at, behind_blanks, IsRow, HasNoRow};

use crate::characters::{count_blanks, mark_at};
use crate::punctuator::text_behind;
use crate::token::{Bracket, Token, ends_row, opening_at, take_piece};
use jsgen_syntax::Memory;
use std::alloc::Global;

// Tokens up to a closing bracket or the end, and the text from there.
#[derive(Drop)]
pub(crate) struct Row<'a> {
    pub tokens: Vec<Token>,
    pub rest: &'a [char],
}

// The tokens of the text up to the first closing bracket that closes none of them.
#[cycle(row)]
pub(crate) fn take_row<'a>(
    alloc: Global,
    line: bool,
    text: &'a [char],
) -> Result<Option<Row<'a>>, Memory>
    ensures within { IfOk result (λ r. IfSome r (λ row. length row.rest.now ≤ length text.now)) }
    ensures row { IfOk result (λ r. MatchOption r (HasNoRow (mark_at line text.now) (behind_blanks text.now))
        (λ row. IsRow (mark_at line text.now) (behind_blanks text.now) (tokens_plain row.tokens.items) row.rest.now)) }
{
    let (blanks, start) = text.split_at(count_blanks(text));
    let line = mark_at(line, blanks);
    if ends_row(start) {
        return Ok(Some(Row {
            tokens: Vec::new(alloc),
            rest: start,
        }));
    }
    match opening_at(start) {
        Some(bracket) => {
            let (_, inner) = start.split_at(1);
            take_group(alloc, line, bracket, inner)
        }
        None => take_others(alloc, line, start),
    }
}

// The row that begins with a group, whose opening bracket stands before the text.
#[cycle(row)]
fn take_group<'a>(
    alloc: Global,
    line: bool,
    bracket: Bracket,
    text: &'a [char],
) -> Result<Option<Row<'a>>, Memory>
    ensures within { IfOk result (λ r. IfSome r (λ row. length row.rest.now ≤ length text.now)) }
    ensures row { IfOk result (λ r. MatchOption r (HasNoRow line (opening (bracket_plain bracket) ++ text.now))
        (λ row. IsRow line (opening (bracket_plain bracket) ++ text.now) (tokens_plain row.tokens.items) row.rest.now)) }
{
    let Some(inside) = take_row(alloc, false, text)? else {
        return Ok(None);
    };
    let Some(behind) = text_behind(bracket.closing(), inside.rest) else {
        return Ok(None);
    };
    let Some(row) = take_row(alloc, false, behind)? else {
        return Ok(None);
    };
    let group = Token::Group {
        line,
        bracket,
        tokens: inside.tokens,
    };
    Ok(Some(Row {
        tokens: put_first(group, row.tokens)?,
        rest: row.rest,
    }))
}

// The row that begins with a token that is no bracket.
#[cycle(row)]
fn take_others<'a>(alloc: Global, line: bool, text: &'a [char]) -> Result<Option<Row<'a>>, Memory>
    requires goes_on { ends_row text.now ≡ false }
    requires no_group { opening_at text.now ≡ None }
    ensures within { IfOk result (λ r. IfSome r (λ row. length row.rest.now ≤ length text.now)) }
    ensures row { IfOk result (λ r. MatchOption r (HasNoRow line text.now)
        (λ row. IsRow line text.now (tokens_plain row.tokens.items) row.rest.now)) }
{
    let Some(taken) = take_piece(alloc, text)? else {
        return Ok(None);
    };
    let Some(row) = take_row(alloc, false, taken.rest)? else {
        return Ok(None);
    };
    let token = Token::Piece {
        line,
        piece: taken.piece,
    };
    Ok(Some(Row {
        tokens: put_first(token, row.tokens)?,
        rest: row.rest,
    }))
}

// The tokens with one more before them.
fn put_first(token: Token, mut tokens: Vec<Token>) -> Result<Vec<Token>, Memory>
    ensures { IfOk result (λ v. v.items ≡ token ∷ tokens.items) }
{
    tokens.insert(0, token)?;
    Ok(tokens)
}
