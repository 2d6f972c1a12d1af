//! Whole programs.
ghost use Rattle.std.specs.Prelude.{◌≡◌, ◌<◌, IfSome, IsTrue, length};
ghost use Rattle.src_prog.specs.Program.{number_of};
ghost use Rattle.src_prog.specs.Shape.{is_program};

use crate::proc::{Named, SrcProc};
use hy_text::Text;
use hy_val::Expr;
use sqlite_items::Items;
use std::marker::Model;

/// A program. Constants, globals and procedures are numbered from 0, in the order of their declarations.
///
/// The type keeps that every number names something, that sorts fit, that goto lists are not empty, and how loops lie: a loop's
/// head is below its exit, two loops are apart or one holds the other and its exit, and an edge leads to a greater block or
/// to the head of a loop that it stands in, and into a loop only at its head. Contracts see a record of the five lists.
#[derive(Drop)]
pub struct Prog {
    consts: Items<Named>,
    uniques: Items<u32>,
    axioms: Items<Expr>,
    globals: Items<Named>,
    procs: Items<SrcProc>,
}

impl Model for Prog {
    ghost use Rattle.std.specs.Prelude.{IsTrue};
    ghost use Rattle.src_prog.specs.Program.{Program};

    ghost Value = { Program };

    ghost use Rattle.src_prog.specs.Shape.{is_program};

    ghost view = { λ p. record { consts = p.consts; uniques = p.uniques; axioms = p.axioms; globals = p.globals; procs = p.procs } };

    ghost invariant = { λ p. IsTrue (is_program (record { consts = p.consts; uniques = p.uniques; axioms = p.axioms; globals = p.globals; procs = p.procs })) };
}

impl Prog {
    /// The program of these parts, which are one.
    pub fn new(
        consts: Items<Named>,
        uniques: Items<u32>,
        axioms: Items<Expr>,
        globals: Items<Named>,
        procs: Items<SrcProc>,
    ) -> Prog
        requires { IsTrue (is_program (record { consts = consts; uniques = uniques; axioms = axioms; globals = globals; procs = procs })) }
        ensures { result ≡ record { consts = consts; uniques = uniques; axioms = axioms; globals = globals; procs = procs } }
    {
        Prog {
            consts,
            uniques,
            axioms,
            globals,
            procs,
        }
    }

    /// The constants, in the order of their declarations.
    pub fn consts(&self) -> &[Named]
        ensures value { result.now ≡ self.now.consts }
        ensures kept { IsTrue (is_program self.now) }
    {
        self.consts.as_slice()
    }

    /// The numbers of the constants that differ from one another, where they are of one sort; they ascend.
    pub fn uniques(&self) -> &[u32]
        ensures { result.now ≡ self.now.uniques }
    {
        self.uniques.as_slice()
    }

    /// The axioms, over the constants.
    pub fn axioms(&self) -> &[Expr]
        ensures { result.now ≡ self.now.axioms }
    {
        self.axioms.as_slice()
    }

    /// The globals, in the order of their declarations.
    pub fn globals(&self) -> &[Named]
        ensures { result.now ≡ self.now.globals }
    {
        self.globals.as_slice()
    }

    /// The procedures that have a body, in the order of the declarations of procedures.
    pub fn procs(&self) -> &[SrcProc]
        ensures { result.now ≡ self.now.procs }
    {
        self.procs.as_slice()
    }

    /// The number of the procedure of this name; None exactly where none with a body has it. Takes no memory.
    pub fn find(&self, name: &Text) -> Option<u32>
        ensures number { result ≡ number_of self.now name.now }
        ensures within { IfSome result (λ p. p < length self.now.procs) }
    {
        for (index, proc) in self.procs.as_slice().iter().enumerate() {
            if proc.name.as_slice() == name.as_bytes() {
                return Some(index as u32);
            }
        }
        None
    }
}
