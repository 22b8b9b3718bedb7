//! Plain, slow programs for the definitions of the model, for tests to compare with, and samples: what a few texts are read as,
//! which trees have one normal form, and what private names are printed as.
#![tactic(auto)]

ghost use Rattle.std.specs.Prelude.{IfOk, MatchOption};
ghost use Rattle.std.specs.Str.{chars};
ghost use Rattle.jsgen_model.specs.Tokens.{AreTokensOf};
ghost use Rattle.jsgen_oracle.specs.Plain.{tokens_plain};
ghost use Rattle.jsgen_oracle.specs.Law.{HasNoPlainTokens};
ghost use Rattle.jsgen_oracle.specs.Samples.{GrammarSamples};
ghost use Rattle.jsgen_oracle.specs.StatementSamples.{StatementSamples};
ghost use Rattle.jsgen_oracle.specs.FunctionSamples.{FunctionSamples};
ghost use Rattle.jsgen_oracle.specs.NumberSamples.{NumberSamples};
ghost use Rattle.jsgen_oracle.specs.NormalSamples.{NormalSamples};
ghost use Rattle.jsgen_oracle.specs.PrivateSamples.{PrivateSamples};

mod characters;
mod directive;
mod number;
mod punctuator;
mod row;
mod string;
mod token;
mod word;

use characters::characters_of;
pub use directive::directive_value_of;
use jsgen_syntax::Memory;
pub use punctuator::Punctuator;
use row::take_row;
use std::alloc::Global;
pub use string::string_value_of;
pub use token::{Bracket, Piece, Token};
pub use word::word_value_of;

/// The plain tokens of a text (ECMA-262, clause 12), or none where it has no list of them: of private names, regular
/// expressions and templates that no string spells it knows nothing. Reads the text from left to right, and always takes
/// the longest token that stands there.
pub fn tokens_of(alloc: Global, text: &str) -> Result<Option<Vec<Token>>, Memory>
    ensures { IfOk result (λ r. MatchOption r (HasNoPlainTokens (chars text.now))
        (λ ts. AreTokensOf (chars text.now) (tokens_plain ts.items))) }
{
    let characters = characters_of(alloc, text)?;
    let Some(row) = take_row(alloc, false, &characters)? else {
        return Ok(None);
    };
    if row.rest.is_empty() {
        Ok(Some(row.tokens))
    } else {
        Ok(None)
    }
}

/// A few texts spell a number by the model, and a few don't, as ECMA-262 has it.
pub fn number_samples()
    ensures { NumberSamples }
{}

/// The grammar of the model reads a few texts as ECMA-262 does.
pub fn grammar_samples()
    ensures { GrammarSamples }
{}

/// It reads loops, labels, jumps, choices between cases and handlers so too.
pub fn statement_samples()
    ensures { StatementSamples }
{}

/// It reads functions, methods and accessors so too.
pub fn function_samples()
    ensures { FunctionSamples }
{}

/// The normal form keeps what a program means, and drops parentheses, spans and how a number is held.
pub fn normal_samples()
    ensures { NormalSamples }
{}

/// A private name is printed by the innermost class round it whose table holds it.
pub fn private_samples()
    ensures { PrivateSamples }
{}
