//! Whole programs.
ghost use Rattle.std.specs.Prelude.{◌≡◌, IfOk};
ghost use Rattle.bpl_show.specs.Shown as spec;

use crate::lists::each;
use bpl_ast::Ast;
use hy_text::Bytes;
use std::alloc::{AllocError, Global};

/// The canonical text of a program. It takes time and memory in proportion to the text.
#[tactic(auto, using(crate::proofs::Written::shows))]
pub fn show(alloc: Global, ast: &Ast) -> Result<Bytes, AllocError>
    ensures { IfOk result (λ shown. shown ≡ spec.shown_text ast.now) }
{
    let mut out = Bytes::new(alloc);
    each(&mut out, ast.decls.as_slice())?;
    Ok(out)
}
