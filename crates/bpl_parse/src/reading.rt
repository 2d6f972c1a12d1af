//! What holds of the grammar of programs.

ghost use Rattle.bpl_parse.specs.Decls.{whole};
ghost use Rattle.bpl_parse.specs.Promises.{HasOneTree, IsExact};
ghost use Rattle.bpl_rules.specs.Reading.{AreFronts};
ghost use Rattle.bpl_tok.specs.declared.token.Token.{Token};
ghost use Rattle.std.specs.Prelude.{List, ℕ};

/// How deep phrases may nest.
pub const MAX_NESTING: usize = 200;

/// A law of the grammar, with no code: its reader from left to right, with one token of lookahead, reads exactly the programs
/// that nest at most 200 levels, and stops at the first token at which no program goes on.
pub fn grammar_is_exact()
    ensures exact { (source : List ℕ) (tokens : List Token) → IsExact source tokens }
    // The tokens of a source have one tree at most.
    ensures one { (source : List ℕ) (tokens : List Token) → HasOneTree source tokens }
    // What has begun is the front of a program, and each front of a program has begun.
    ensures fronts { (source : List ℕ) → AreFronts (whole source) 200 }
{}
