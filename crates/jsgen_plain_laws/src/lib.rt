//! Plain programs have plain tokens.
#![tactic(auto)]

ghost use Rattle.jsgen_plain_laws.specs.Law.{PlainTokensOfPlain};

/// What is read with the normal form of a plain program has plain tokens.
pub fn plain_tokens_of_plain()
    ensures { PlainTokensOfPlain }
{}
