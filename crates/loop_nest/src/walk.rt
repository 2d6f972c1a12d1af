//! Which blocks of a procedure are reached from block 0.
//!
//! The blocks that are found stand in a list, each once; those after the found ones are looked for in the order of the list.

ghost use Rattle.std.specs.Prelude.{◌≡◌, ◌<◌, ◌∷◌, [], false, length, replicate, All, IfOk, OnOk};
ghost use Rattle.loop_nest.specs.Reached.{targets};
ghost use Rattle.loop_nest.specs.Walks.{AreFound, AreReachedFlags, Finds, IsClosed, Walking};

use src_prog::{Next, SrcBlock};
use std::alloc::{AllocError, Global};

// The blocks that are found, in order, and a flag for each block, which is up where it is found.
#[derive(Drop)]
struct Walk {
    found: Vec<u32>,
    seen: Vec<bool>,
}

// No block is found yet.
fn none_found(alloc: Global, blocks: usize) -> Result<Walk, AllocError>
    ensures found { IfOk result (λ w. w.found.items ≡ []) }
    ensures seen { IfOk result (λ w. w.seen.items ≡ replicate blocks false) }
{
    let seen = vec![in alloc; false; blocks]?;
    Ok(Walk {
        found: Vec::new(alloc),
        seen,
    })
}

// The block is found, if it was not found before.
fn find(walk: &mut Walk, block: u32) -> Result<(), AllocError>
    requires found { AreFound walk.old.found.items walk.old.seen.items }
    requires within { block < length walk.old.seen.items }
    ensures { OnOk result (Finds (block ∷ []) walk.old.found.items walk.new.found.items walk.old.seen.items walk.new.seen.items) }
{
    if walk.seen[block as usize] {
        return Ok(());
    }
    walk.found.push(block)?;
    walk.seen[block as usize] = true;
    Ok(())
}

// These blocks are found.
fn find_all(walk: &mut Walk, blocks: &[u32]) -> Result<(), AllocError>
    requires found { AreFound walk.old.found.items walk.old.seen.items }
    requires within { All (λ b. b < length walk.old.seen.items) blocks.now }
    ensures { OnOk result (Finds blocks.now walk.old.found.items walk.new.found.items walk.old.seen.items walk.new.seen.items) }
{
    for block in blocks {
        find(walk, *block)?;
    }
    Ok(())
}

// The blocks to which edges lead from one are found.
fn find_targets(blocks: &[SrcBlock], walk: &mut Walk, from: u32) -> Result<(), AllocError>
    requires found { AreFound walk.old.found.items walk.old.seen.items }
    requires closed { IsClosed blocks.now }
    requires size { length walk.old.seen.items ≡ length blocks.now }
    requires within { from < length blocks.now }
    ensures { OnOk result (Finds (targets blocks.now from) walk.old.found.items walk.new.found.items walk.old.seen.items walk.new.seen.items) }
{
    match &blocks[from as usize].next {
        Next::Goto(targets) => find_all(walk, targets.as_slice()),
        Next::Return => Ok(()),
    }
}

// The blocks after those that are found are found, and so on.
fn find_rest(blocks: &[SrcBlock], walk: &mut Walk) -> Result<(), AllocError>
    requires closed { IsClosed blocks.now }
    requires walking { Walking blocks.now 0 walk.old.found.items walk.old.seen.items }
    ensures { OnOk result (AreReachedFlags blocks.now walk.new.seen.items) }
{
    let mut passed = 0;
    while passed < walk.found.len() {
        let from = walk.found[passed];
        find_targets(blocks, walk, from)?;
        passed += 1;
    }
    Ok(())
}

/// A flag for each block, up exactly where the block is reached. Looks at each block and each edge
/// once.
pub fn reached(alloc: Global, blocks: &[SrcBlock]) -> Result<Vec<bool>, AllocError>
    requires closed { IsClosed blocks.now }
    requires some { 0 < length blocks.now }
    ensures { IfOk result (λ flags. AreReachedFlags blocks.now flags.items) }
{
    let mut walk = none_found(alloc, blocks.len())?;
    find(&mut walk, 0)?;
    find_rest(blocks, &mut walk)?;
    let Walk { found: _, seen } = walk;
    Ok(seen)
}
