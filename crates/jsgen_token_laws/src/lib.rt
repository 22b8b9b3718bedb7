//! Laws on tokens: a text has at most one list of plain ones, and what each step of the layout adds to it.
#![tactic(auto)]

ghost use Rattle.jsgen_token_laws.specs.Law.{OneTokenList};

/// Every text has at most one list of plain tokens.
pub fn one_token_list()
    ensures { OneTokenList }
{}
