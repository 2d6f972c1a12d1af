//! The blocks of a procedure of a flat program in an order in which each edge leads on, found by a search
//! in depth: a block is left after all to which its edges lead, and the order is that of leaving, backward.
ghost use Rattle.std.specs.Prelude.{◌≡◌, ◌<◌, ◌≤◌, reverse, ◌++◌, length, slice_get, OnOk, IfOk};
ghost use Rattle.flat_prog.specs.Ordering.{IsAcyclic, IsOrderOf};
ghost use Rattle.flat_prog.specs.Program.{blocks_of};
ghost use Rattle.flat_prog.specs.Searching as spec;
ghost use Rattle.flat_prog.specs.declared.proc.FlatProc as declared;

use crate::block::FlatNext;
use crate::flat::Flat;
use crate::proc::FlatProc;
use sqlite_items::{Items, at};
use std::alloc::{AllocError, Global};

// What is still to be done: to enter a block, or to leave one that was entered.
#[derive(Clone, Copy, Debug, PartialEq, Eq)]
enum Visit {
    Enter(u32),
    Leave(u32),
}

// The search: what is to be done, the last first; which blocks were entered; and those that were left, in order.
#[derive(Drop)]
struct Search {
    visits: Items<Visit>,
    entered: Items<bool>,
    left: Items<u32>,
}

// The blocks to which the edges of a block lead.
fn targets_at(proc: &FlatProc, block: u32) -> &[u32]
    ensures { result.now ≡ spec.targets_at (slice_get proc.now.blocks block) }
{
    match at(proc.blocks.as_slice(), block as usize) {
        Some(block) => match &block.next {
            FlatNext::Goto(targets) => targets.as_slice(),
            FlatNext::Return => &[],
        },
        None => &[],
    }
}

// These blocks are to be entered.
fn push_all(visits: &mut Items<Visit>, blocks: &[u32]) -> Result<(), AllocError>
    ensures { OnOk result (visits.new ≡ visits.old ++ spec.entries blocks.now) }
{
    for block in blocks {
        visits.push(Visit::Enter(*block))?;
    }
    Ok(())
}

// The block is entered, if it was not before.
fn enter(proc: &FlatProc, search: &mut Search, block: u32) -> Result<(), AllocError>
    ensures { OnOk result (search.new ≡ spec.entered proc.now search.old block) }
{
    match at(search.entered.as_slice(), block as usize).copied() {
        Some(false) => {
            search.entered.set(block as usize, true);
            search.visits.push(Visit::Leave(block))?;
            push_all(&mut search.visits, targets_at(proc, block))
        }
        _ => Ok(()),
    }
}

// The number, where it has 32 bits.
fn small(number: usize) -> Result<u32, AllocError>
    ensures { IfOk result (λ n. n ≡ number) }
{
    if number < 0x1_0000_0000 {
        Ok(number as u32)
    } else {
        Err(AllocError)
    }
}

// Each of so many blocks is to be entered.
fn all_visits(alloc: Global, count: usize) -> Result<Items<Visit>, AllocError>
    ensures { IfOk result (λ vs. vs ≡ spec.all_entries count) }
{
    let mut visits = Items::new(alloc);
    for block in 0..count {
        visits.push(Visit::Enter(small(block)?))?;
    }
    Ok(visits)
}

// The search before its first step: each block is to be entered.
fn begun(alloc: Global, proc: &FlatProc) -> Result<Search, AllocError>
    ensures { IfOk result (λ s. s ≡ spec.begun proc.now) }
{
    let count = proc.blocks.len();
    let visits = all_visits(alloc, count)?;
    let entered = vec![in alloc; false; count]?;
    Ok(Search {
        visits,
        entered: Items::from_vec(entered),
        left: Items::new(alloc),
    })
}

// One step.
fn step(proc: &FlatProc, search: &mut Search, visit: Visit) -> Result<(), AllocError>
    ensures { OnOk result (search.new ≡ spec.stepped proc.now search.old visit) }
{
    match visit {
        Visit::Enter(block) => enter(proc, search, block),
        Visit::Leave(block) => search.left.push(block),
    }
}

// The numbers in the other order.
fn backward(alloc: Global, numbers: &[u32]) -> Result<Items<u32>, AllocError>
    ensures { IfOk result (λ ns. ns ≡ reverse numbers.now) }
{
    let mut list = Vec::from_slice(alloc, numbers)?;
    list.reverse();
    Ok(Items::from_vec(list))
}

// All blocks of an acyclic procedure, each once, in an order in which each edge leads on.
fn order_blocks(alloc: Global, proc: &FlatProc) -> Result<Items<u32>, AllocError>
    requires { IsAcyclic proc.now }
    ensures order { IfOk result (λ ns. IsOrderOf proc.now ns) }
    ensures few { IfOk result (λ ns. length ns ≤ length proc.now.blocks) }
{
    let mut search = begun(alloc, proc)?;
    while let Some(visit) = search.visits.pop() {
        step(proc, &mut search, visit)?;
    }
    let order = backward(alloc, search.left.as_slice())?;
    Ok(order)
}

// The procedure of this number, whose blocks are acyclic.
fn proc_at(flat: &Flat, proc: u32) -> &FlatProc
    requires { proc < length flat.now.procs }
    ensures is { slice_get flat.now.procs proc ≡ Some result.now }
    ensures acyclic { IsAcyclic result.now }
{
    // Reading the constants also gives that the program is one.
    let _consts = flat.consts();
    let procs = flat.procs();
    &procs[proc as usize]
}

/// The numbers of all blocks of the procedure of this number, each once, in an order in which each edge
/// leads on (a topological order). There is one, since the blocks of a flat procedure are acyclic. Time and
/// memory are linear in the blocks and their edges.
pub fn order(alloc: Global, flat: &Flat, proc: u32) -> Result<Items<u32>, AllocError>
    requires { proc < length flat.now.procs }
    ensures order { IfOk result (λ ns. (q : declared.FlatProc) → slice_get flat.now.procs proc ≡ Some q → IsOrderOf q ns) }
    ensures few { IfOk result (λ ns. length ns ≤ length (blocks_of (slice_get flat.now.procs proc))) }
{
    order_blocks(alloc, proc_at(flat, proc))
}
