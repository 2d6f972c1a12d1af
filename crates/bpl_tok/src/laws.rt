//! Laws of reading. These calls do nothing; what they ensure holds of every source.

ghost use Rattle.bpl_tok.specs.Cuts.{ReadingCuts, TokensLieInSource};

/// Reading cuts a source into white space, comments and tokens, and each token is the longest that
/// can stand there; or it does so up to the first fault, where no piece can stand, for the cause
/// that is told.
pub fn reading_cuts()
    ensures { ReadingCuts }
{}

/// The tokens of a source ascend without overlap and lie in it, and the slice of each is its text.
pub fn tokens_lie_in_source()
    ensures { TokensLieInSource }
{}
