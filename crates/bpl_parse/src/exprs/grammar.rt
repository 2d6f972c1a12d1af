//! The rules that hold expressions take the reader of those that nest as a parameter, so that each is proved by itself.

ghost use Rattle.std.specs.Prelude.{◌<◌, ◌-◌};
ghost use Rattle.bpl_parse.specs.Decls.{levels};
ghost use Rattle.bpl_parse.specs.Exprs.{nested_expr};
ghost use Rattle.bpl_parse.specs.Gives.{Gives};
ghost use Rattle.bpl_parse.specs.Nests.{Nests};

use crate::error::ReadError;
use crate::parts::Level;
use bpl_ast::Expr;
use bpl_tok::Token;
use std::alloc::Global;

/// The readers of expressions.
#[derive(Clone, Copy)]
pub struct Grammar<'s, F> {
    /// Where trees are put.
    pub alloc: Global,
    /// The text that the tokens were cut from.
    pub source: &'s [u8],
    /// How deep expressions may still nest.
    pub depth: usize,
    /// The reader of what nests.
    pub nested: F,
}

impl<
    's,
    F: for<'a> Fn(
        Global,
        &'s [u8],
        Level,
        usize,
        &'a [Token],
    ) -> Result<(Expr, &'a [Token]), ReadError<'a>>,
> Grammar<'s, F> {
    /// What nests, a level deeper.
    pub fn nested<'a>(
        &self,
        level: Level,
        tokens: &'a [Token],
    ) -> Result<(Expr, &'a [Token]), ReadError<'a>>
        requires deep { 0 < self.now.depth }
        requires nests { Nests self.now.source.now self.now.depth (F.pre self.now.nested) (F.post self.now.nested) }
        ensures { Gives (λ x. (x.0, x.1.now)) result ((nested_expr level self.now.source.now (levels self.now.source.now (self.now.depth - 1))).run tokens.now) }
    {
        (self.nested)(self.alloc, self.source, level, self.depth - 1, tokens)
    }
}
