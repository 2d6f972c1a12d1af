//! Procedures, and the parts of a program.
ghost use Rattle.std.specs.Prelude.{◌≡◌, [], ◌∷◌, ◌++◌, map, IsTrue, OnOk, IfOk};
ghost use Rattle.bpl_flow.specs.Fits.{AllFit, ProcsFit};
ghost use Rattle.bpl_flow.specs.Flow.{walked, faults_of, faults_of_procs, proc_of, procs_of, lowered, Gives};
ghost use Rattle.bpl_flow.specs.Parted.{GivesParts};
ghost use Rattle.bpl_type.specs.WellTyped.{named, is_typed};

use crate::blocks::blocks_by_number;
use crate::copies::args_of;
use crate::counted::are_counted;
use crate::exits::Exits;
use crate::fault::FlowFault;
use crate::faults::{add_faults, least};
use crate::state::Walk;
use crate::walker::walk_body;
use bpl_type::{Named as TypedName, Typed, TypedBody, TypedProc};
use hy_text::Or;
use hy_val::Expr;
use sqlite_items::Items;
use src_prog::{Named, Prog, SrcProc};
use std::alloc::{AllocError, Global};

/// The parts of a program.
#[derive(Drop)]
pub struct Parts {
    /// The constants.
    pub consts: Items<Named>,
    /// The numbers of the unique constants, ascending.
    pub uniques: Items<u32>,
    /// The axioms.
    pub axioms: Items<Expr>,
    /// The global variables.
    pub globals: Items<Named>,
    /// The procedures that have a body.
    pub procs: Items<SrcProc>,
}

/// An equal name.
pub fn name_of(alloc: Global, entry: &TypedName) -> Result<Named, AllocError>
    ensures { IfOk result (λ n. n ≡ named entry.now) }
{
    let name = Items::from_slice(alloc, entry.name.as_slice())?;
    Ok(Named {
        name,
        sort: entry.sort,
    })
}

/// Equal names.
pub fn names_of(alloc: Global, names: &[TypedName]) -> Result<Items<Named>, AllocError>
    ensures { IfOk result (λ ns. ns ≡ map named names.now) }
{
    let mut copies = Items::new(alloc);
    for entry in names {
        copies.push(name_of(alloc, entry)?)?;
    }
    Ok(copies)
}

/// The procedure of a walk.
pub fn numbered_proc(
    alloc: Global,
    proc: &TypedProc,
    body: &TypedBody,
    walk: Walk,
) -> Result<SrcProc, AllocError>
    requires { walk ≡ walked body.now }
    ensures { IfOk result (λ p. p ≡ proc_of proc.now body.now) }
{
    let Walk {
        made,
        asserts: _,
        current: _,
        ended,
        loops,
        exits,
        places,
        jumps: _,
        breaks: _,
        faults: _,
    } = walk;
    let exits = Exits::of(alloc, exits)?;
    let blocks = blocks_by_number(alloc, &places, &exits, ended, made)?;
    Ok(SrcProc {
        name: Items::from_slice(alloc, proc.name.as_slice())?,
        ins: names_of(alloc, proc.ins.as_slice())?,
        outs: names_of(alloc, proc.outs.as_slice())?,
        locals: names_of(alloc, body.locals.as_slice())?,
        blocks,
        loops,
    })
}

/// Adds the procedure of a body that fits, and its faults.
pub fn add_proc(
    alloc: Global,
    proc: &TypedProc,
    body: &TypedBody,
    procs: &mut Items<SrcProc>,
    faults: &mut Items<FlowFault>,
) -> Result<(), AllocError>
    requires { AllFit body.now.statements }
    ensures procs { OnOk result (procs.new ≡ procs.old ++ proc_of proc.now body.now ∷ []) }
    ensures faults { OnOk result (faults.new ≡ faults.old ++ faults_of body.now) }
{
    let walk = walk_body(alloc, body)?;
    add_faults(&walk, faults)?;
    procs.push(numbered_proc(alloc, proc, body, walk)?)?;
    Ok(())
}

/// Adds the procedures that have a body, in order, and their faults.
pub fn add_procs(
    alloc: Global,
    typed: &[TypedProc],
    procs: &mut Items<SrcProc>,
    faults: &mut Items<FlowFault>,
) -> Result<(), AllocError>
    requires { ProcsFit typed.now }
    ensures procs { OnOk result (procs.new ≡ procs.old ++ procs_of typed.now) }
    ensures faults { OnOk result (faults.new ≡ faults.old ++ faults_of_procs typed.now) }
{
    for proc in typed {
        if let Some(body) = &proc.body {
            add_proc(alloc, proc, body, procs, faults)?;
        }
    }
    Ok(())
}

/// The parts of the program that a typed program becomes, or the first fault of flow in the text.
pub fn lowered_parts(alloc: Global, typed: &Typed) -> Result<Parts, Or<FlowFault>>
    requires { IsTrue (is_typed typed.now) }
    ensures { GivesParts result (lowered typed.now) }
{
    let mut procs = Items::new(alloc);
    let mut faults = Items::new(alloc);
    add_procs(alloc, typed.procs.as_slice(), &mut procs, &mut faults)?;
    if let Some(fault) = least(faults.as_slice()) {
        return Err(Or::Fault(fault));
    }
    let consts = names_of(alloc, typed.consts.as_slice())?;
    let uniques = Items::from_slice(alloc, typed.uniques.as_slice())?;
    let axioms = args_of(alloc, typed.axioms.as_slice())?;
    let globals = names_of(alloc, typed.globals.as_slice())?;
    Ok(Parts {
        consts,
        uniques,
        axioms,
        globals,
        procs,
    })
}

/// The program that a typed program becomes, or the first fault of flow in the text.
///
/// Procedures with a body are numbered in order; the blocks of each from 0, in the order in which the walk over its statements makes
/// them; its asserts from 1, in the order in which the walk meets them. More than 2^32 - 1 constants, globals, procedures, or locals,
/// blocks or asserts of one procedure are want of memory.
pub fn lower(alloc: Global, typed: &Typed) -> Result<Prog, Or<FlowFault>>
    requires { IsTrue (is_typed typed.now) }
    ensures { Gives result (lowered typed.now) }
{
    let parts = lowered_parts(alloc, typed)?;
    if !are_counted(&parts) {
        return Err(Or::NoMemory);
    }
    let Parts {
        consts,
        uniques,
        axioms,
        globals,
        procs,
    } = parts;
    Ok(Prog::new(consts, uniques, axioms, globals, procs))
}
