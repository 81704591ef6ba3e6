//! Laws of tokens.
ghost use Rattle.script_lex.specs.Laws.{HaveOneReading, FindsTokens, SymbolsReadAgain};

/// A line has at most one sequence of tokens, and `lex` finds it wherever there is one. A symbol is read as it is written.
pub fn token_laws()
    ensures one { HaveOneReading }
    ensures found { FindsTokens }
    ensures symbols { SymbolsReadAgain }
{}
