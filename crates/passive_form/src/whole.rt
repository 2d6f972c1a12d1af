//! The order of a procedure's blocks, and the passive form by it.
ghost use Rattle.std.specs.Prelude.{◌≡◌, ◌<◌, length, slice_get, Some, IfOk};
ghost use Rattle.flat_prog.specs.declared.proc.FlatProc as declared;
ghost use Rattle.passive_form.specs.Limited.{limited};
ghost use Rattle.passive_form.specs.Laws.{IsPassiveOf};

use crate::Passive;
use crate::making::passive_of;
use flat_prog::{Flat, order};
use sqlite_items::{Items, at};
use std::alloc::{AllocError, Global};

/// The passive form of the procedure of this number, its blocks in an order in which each edge leads on, where the table has a row for
/// each procedure: for each global, whether a call of the procedure may change it. More versions or blocks than numbers of 32 bits are
/// want of memory.
pub fn passive_form_of(
    alloc: Global,
    flat: &Flat,
    limits: &[Items<bool>],
    proc: u32,
) -> Result<Passive, AllocError>
    requires { proc < length flat.now.procs }
    ensures { IfOk result (λ p. (q : declared.FlatProc) → slice_get flat.now.procs proc ≡ Some q → IsPassiveOf (limited flat.now limits.now) q p) }
{
    let order = order(alloc, flat, proc)?;
    match at(flat.procs(), proc as usize) {
        Some(found) => {
            let passive = passive_of(alloc, flat, limits, found, order.as_slice())?;
            Ok(passive)
        }
        None => unreachable!(),
    }
}
