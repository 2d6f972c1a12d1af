//! Copies of the expressions of assignments and calls.
ghost use Rattle.std.specs.Prelude.{◌≡◌, IfOk};

use hy_val::{Expr, Var};
use sqlite_items::Items;
use std::alloc::{AllocError, Global};

/// Equal arguments.
pub fn args_of(alloc: Global, args: &[Expr]) -> Result<Items<Expr>, AllocError>
    ensures { IfOk result (λ es. es ≡ args.now) }
{
    let mut copies = Items::new(alloc);
    for arg in args {
        copies.push(arg.copy(alloc)?)?;
    }
    Ok(copies)
}

/// Equal pairs of variables and values.
pub fn pairs_of(alloc: Global, pairs: &[(Var, Expr)]) -> Result<Items<(Var, Expr)>, AllocError>
    ensures { IfOk result (λ ps. ps ≡ pairs.now) }
{
    let mut copies = Items::new(alloc);
    for pair in pairs {
        let var = pair.0;
        let value = pair.1.copy(alloc)?;
        copies.push((var, value))?;
    }
    Ok(copies)
}
