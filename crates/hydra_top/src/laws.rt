//! A law of what files are read as.

ghost use Rattle.std.specs.Prelude.{List, ℕ};
ghost use Rattle.hydra_top.specs.Trees.{IsDetermined};

use bpl_parse::grammar_is_exact;

/// Some bytes are read as one tree, or refused for one cause: so each refusal comes exactly where
/// its cause holds. The call does nothing; what it ensures holds of all bytes.
pub fn reading_is_determined()
    ensures { (bytes : List ℕ) → IsDetermined bytes }
{
    grammar_is_exact();
}
