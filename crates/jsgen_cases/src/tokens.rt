// The tokens of a text.
use jsgen_oracle::{Bracket, Piece, Token, tokens_of};
use jsgen_syntax::Memory;
use std::alloc::Global;

/// The text's tokens, each behind a space, with an arrow before each that a line end precedes; or `none`.
pub fn push_row(alloc: Global, text: &str, answer: &mut String) -> Result<(), Memory> {
    match tokens_of(alloc, text)? {
        Some(tokens) => push_tokens(answer, &tokens),
        None => Ok(answer.push_str("none")?),
    }
}

fn push_tokens(answer: &mut String, tokens: &[Token]) -> Result<(), Memory> {
    for token in tokens {
        match token {
            Token::Piece { line, piece } => {
                answer.push_str(apart(*line))?;
                push_piece(answer, piece)?;
            }
            Token::Group {
                line,
                bracket,
                tokens,
            } => {
                let (opening, closing) = signs(*bracket);
                answer.push_str(apart(*line))?;
                answer.push_str(opening)?;
                push_tokens(answer, tokens)?;
                answer.push_str(closing)?;
            }
        }
    }
    Ok(())
}

fn signs(bracket: Bracket) -> (&'static str, &'static str) {
    match bracket {
        Bracket::Round => ("(", " )"),
        Bracket::Square => ("[", " ]"),
        Bracket::Brace => ("{", " }"),
    }
}

fn apart(line: bool) -> &'static str {
    if line { " ↵" } else { " " }
}

fn push_piece(answer: &mut String, piece: &Piece) -> Result<(), Memory> {
    match piece {
        Piece::Word(word) => push_characters(answer, word),
        Piece::Number(number) => push_characters(answer, number),
        Piece::Quoted { quote, text } => {
            answer.push(quote.as_byte() as char)?;
            push_characters(answer, text)?;
            Ok(answer.push(quote.as_byte() as char)?)
        }
        Piece::Sign(sign) => push_characters(answer, sign.text()),
    }
}

fn push_characters(answer: &mut String, characters: &[char]) -> Result<(), Memory> {
    for c in characters {
        answer.push(*c)?;
    }
    Ok(())
}
