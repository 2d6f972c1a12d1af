//! The call sites of a procedure that a path of its blocks passes.
ghost use Rattle.std.specs.Prelude.{◌≡◌, ◌+◌, ◌++◌, length, take, slice_get, IfOk, OnOk};
ghost use Rattle.flat_prog.specs.Sites.{calls_at, calls_of, numbers_from, sites_of, sites_passed};

use flat_prog::{FlatBlock, FlatCmd};
use sqlite_items::Items;
use std::alloc::{AllocError, Global};

// The sum; want of memory where it does not fit.
fn sum(one: usize, other: usize) -> Result<usize, AllocError>
    ensures { IfOk result (λ n. n ≡ one + other) }
{
    match one.checked_add(other) {
        Some(n) => Ok(n),
        None => Err(AllocError),
    }
}

// How many calls there are among commands.
fn calls_in(cmds: &[FlatCmd]) -> usize
    ensures { result ≡ length (calls_of cmds.now) }
{
    let mut count = 0;
    for cmd in cmds {
        match cmd {
            FlatCmd::Call { .. } => count += 1,
            FlatCmd::Assign(_) => {}
            FlatCmd::Havoc(_) => {}
            FlatCmd::Assume(_) => {}
            FlatCmd::Assert { .. } => {}
        }
    }
    count
}

// How many calls there are in a block.
fn calls_at(blocks: &[FlatBlock], block: usize) -> usize
    ensures { result ≡ length (calls_at (slice_get blocks.now block)) }
{
    match sqlite_items::at(blocks, block) {
        None => 0,
        Some(block) => calls_in(block.cmds.as_slice()),
    }
}

// How many calls there are in the blocks before one.
fn calls_before(blocks: &[FlatBlock], block: usize) -> Result<usize, AllocError>
    ensures { IfOk result (λ count. count ≡ length (sites_of (take block blocks.now))) }
{
    let mut count: usize = 0;
    let mut at = 0;
    for earlier in blocks {
        if at == block {
            return Ok(count);
        }
        count = sum(count, calls_in(earlier.cmds.as_slice()))?;
        at += 1;
    }
    Ok(count)
}

// Puts so many numbers behind the sites, from one on.
fn push_numbers(sites: &mut Items<usize>, first: usize, count: usize) -> Result<(), AllocError>
    ensures { OnOk result (sites.new ≡ sites.old ++ numbers_from first count) }
{
    let mut next = first;
    for _ in 0..count {
        sites.push(next)?;
        next = sum(next, 1)?;
    }
    Ok(())
}

/// The numbers of the call sites in the blocks of a path, in order. The sites of a procedure are its calls, numbered from 0 by block
/// and by position in it. `AllocError` comes where memory runs out, or a number does not fit.
pub fn sites_passed(
    alloc: Global,
    blocks: &[FlatBlock],
    path: &[u32],
) -> Result<Items<usize>, AllocError>
    ensures { IfOk result (λ sites. sites ≡ sites_passed blocks.now path.now) }
{
    let mut sites = Items::new(alloc);
    for block in path {
        let first = calls_before(blocks, *block as usize)?;
        push_numbers(&mut sites, first, calls_at(blocks, *block as usize))?;
    }
    Ok(sites)
}
