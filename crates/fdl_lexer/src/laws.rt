//! A text has one list of tokens, or else one place where it has none.
ghost use Rattle.fdl_lexer.specs.Laws.{OneTokenList, NoTokensWhereStuck, NoTokensWhereBad, OneStuckPlace};
ghost use Rattle.fdl_lexer.specs.Laws.{TokensArePlaced};

/// A law of the definitions, for whoever reads them; it does nothing.
pub fn one_outcome()
    ensures list { OneTokenList }
    ensures stuck { NoTokensWhereStuck }
    ensures bad { NoTokensWhereBad }
    ensures place { OneStuckPlace }
    ensures placed { TokensArePlaced }
{}
