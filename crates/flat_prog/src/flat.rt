//! Whole flat programs: constants, axioms, globals and procedures, with the facts that they keep.
ghost use Rattle.std.specs.Prelude.{◌≡◌, ◌↔◌, IsTrue};
ghost use Rattle.flat_prog.specs.Shape.{IsFlat};

use crate::alike::same_flat;
use crate::proc::FlatProc;
use hy_val::{Expr, Sort};
use sqlite_items::Items;
use std::marker::Model;

/// A flat program. Constants, globals and procedures are numbered from 0, each fewer than 2^32.
///
/// The type keeps that every number names something, that sorts fit, that goto lists are not empty, that
/// the blocks of a procedure are acyclic, that the outs of a loop procedure have the sorts of its ins and
/// then one of 32 bits, and that no circle of calls goes through loop procedures alone, but those of one
/// procedure that calls itself. Contracts see a record of the five lists.
#[derive(Drop)]
pub struct Flat {
    consts: Items<Sort>,
    uniques: Items<u32>,
    axioms: Items<Expr>,
    globals: Items<Sort>,
    procs: Items<FlatProc>,
}

impl Model for Flat {
    ghost use Rattle.flat_prog.specs.Program.{FlatProgram};

    ghost Value = { FlatProgram };

    ghost use Rattle.flat_prog.specs.Shape.{IsFlat};

    ghost view = { λ p. record { consts = p.consts; uniques = p.uniques; axioms = p.axioms; globals = p.globals; procs = p.procs } };

    ghost invariant = { λ p. IsFlat (record { consts = p.consts; uniques = p.uniques; axioms = p.axioms; globals = p.globals; procs = p.procs }) };
}

impl Flat {
    /// The flat program of these parts, which are one: the sorts of the constants, the numbers of those
    /// that differ from one another, the axioms, the sorts of the globals, and the procedures.
    pub fn new(
        consts: Items<Sort>,
        uniques: Items<u32>,
        axioms: Items<Expr>,
        globals: Items<Sort>,
        procs: Items<FlatProc>,
    ) -> Flat
        requires { IsFlat (record { consts = consts; uniques = uniques; axioms = axioms; globals = globals; procs = procs }) }
        ensures { result ≡ record { consts = consts; uniques = uniques; axioms = axioms; globals = globals; procs = procs } }
    {
        Flat {
            consts,
            uniques,
            axioms,
            globals,
            procs,
        }
    }

    /// The sorts of the constants, in order. Reading them also gives that the program is one.
    pub fn consts(&self) -> &[Sort]
        ensures value { result.now ≡ self.now.consts }
        ensures kept { IsFlat self.now }
    {
        self.consts.as_slice()
    }

    /// The numbers of the constants that differ from one another, where they are of one sort; they ascend.
    pub fn uniques(&self) -> &[u32]
        ensures { result.now ≡ self.now.uniques }
    {
        self.uniques.as_slice()
    }

    /// The axioms: bool expressions over the constants.
    pub fn axioms(&self) -> &[Expr]
        ensures { result.now ≡ self.now.axioms }
    {
        self.axioms.as_slice()
    }

    /// The sorts of the globals, in order.
    pub fn globals(&self) -> &[Sort]
        ensures { result.now ≡ self.now.globals }
    {
        self.globals.as_slice()
    }

    /// The procedures, in order.
    pub fn procs(&self) -> &[FlatProc]
        ensures { result.now ≡ self.now.procs }
    {
        self.procs.as_slice()
    }

    /// Whether two flat programs are equal: the same constants, uniques, axioms, globals and procedures, in
    /// the same order. It takes no memory, and time linear in the smaller one.
    pub fn same(&self, other: &Flat) -> bool
        ensures { IsTrue result ↔ (self.now ≡ other.now) }
    {
        same_flat(self, other)
    }
}
