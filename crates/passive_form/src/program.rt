//! The flat program as the passive form reads it: with a table that says which globals each procedure may change.
ghost use Rattle.std.specs.Prelude.{◌≡◌, slice_get, IfOk};
ghost use Rattle.flat_prog.specs.Program.{outs_at};
ghost use Rattle.passive_form.specs.Limited.{limited};
ghost use Rattle.flat_prog.specs.Limits.{row};

use flat_prog::Flat;
use hy_val::Sort;
use sqlite_items::{Items, at};
use std::alloc::{AllocError, Global};
use std::marker::Model;

/// A flat program, and for each procedure, for each global, whether a call of the procedure may change it. Contracts see the lists.
#[derive(Drop)]
pub(crate) struct Program<'a> {
    flat: &'a Flat,
    limits: &'a [Items<bool>],
}

impl<'a> Model for Program<'a> {
    ghost use Rattle.passive_form.specs.Limited.{Limited, limited};

    ghost Value = { Limited };

    ghost view = { λ p. limited p.flat.now p.limits.now };
}

impl<'a> Program<'a> {
    /// The program with this table.
    pub(crate) fn new(flat: &'a Flat, limits: &'a [Items<bool>]) -> Program<'a>
        ensures { result ≡ limited flat.now limits.now }
    {
        Program { flat, limits }
    }

    /// The sorts of the constants.
    pub(crate) fn consts(&self) -> &[Sort]
        ensures { result.now ≡ self.now.consts }
    {
        self.flat.consts()
    }

    /// The sorts of the globals.
    pub(crate) fn globals(&self) -> &[Sort]
        ensures { result.now ≡ self.now.globals }
    {
        self.flat.globals()
    }

    /// The sorts of the outs of a procedure, by its number.
    pub(crate) fn callee_outs(&self, alloc: Global, proc: u32) -> Result<Items<Sort>, AllocError>
        ensures { IfOk result (λ ss. ss ≡ outs_at (slice_get self.now.procs proc)) }
    {
        match at(self.flat.procs(), proc as usize) {
            Some(callee) => Items::from_slice(alloc, callee.outs.as_slice()),
            None => Ok(Items::new(alloc)),
        }
    }

    #[tactic(auto, using(crate::proofs::TableRows::row_there, crate::proofs::TableRows::no_row))]
    /// For each global, whether a call of the procedure may change it.
    pub(crate) fn callee_changes(&self, alloc: Global, proc: u32) -> Result<Items<bool>, AllocError>
        ensures { IfOk result (λ ms. ms ≡ row self.now.changes proc) }
    {
        match at(self.limits, proc as usize) {
            Some(marks) => Items::from_slice(alloc, marks.as_slice()),
            None => Ok(Items::new(alloc)),
        }
    }
}
