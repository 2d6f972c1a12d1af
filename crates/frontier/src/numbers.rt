//! The numbers of all call sites of a flat program by block, listed once, so that the sites which a run passes are read off.
ghost use Rattle.std.specs.Prelude.{◌≡◌, ◌+◌, ◌++◌, [], length, slice_get, IfOk, OnOk};
ghost use Rattle.flat_prog.specs.Sites.{calls_of, numbers_from, sites_passed};
ghost use Rattle.frontier.specs.Passed.{block_sites, site_tables, table_at, sites_on};

use crate::callees::list_at;
use flat_prog::{FlatBlock, FlatCmd, FlatProc};
use sqlite_items::Items;
use std::alloc::{AllocError, Global};

// How many calls there are among commands.
fn calls_in(cmds: &[FlatCmd]) -> usize
    ensures { result ≡ length (calls_of cmds.now) }
{
    let mut count = 0;
    for cmd in cmds {
        match cmd {
            FlatCmd::Call { .. } => count += 1,
            FlatCmd::Assign(_) => {}
            FlatCmd::Havoc(_) => {}
            FlatCmd::Assume(_) => {}
            FlatCmd::Assert { .. } => {}
        }
    }
    count
}

// The number behind so many, from one on. Where it does not fit, as of a procedure with 2^32 calls, this is want of memory.
fn number_behind(first: u32, count: usize) -> Result<u32, AllocError>
    ensures { IfOk result (λ next. next ≡ first + count) }
{
    match u32::try_from(count) {
        Ok(count) => first.checked_add(count).ok_or(AllocError),
        Err(_) => Err(AllocError),
    }
}

// So many numbers, from one on.
fn numbers(alloc: Global, first: u32, count: usize) -> Result<Items<u32>, AllocError>
    ensures { IfOk result (λ it. it ≡ numbers_from first count) }
{
    let mut found = Vec::new(alloc);
    let mut next = first;
    for _ in 0..count {
        found.push(next)?;
        next = number_behind(next, 1)?;
    }
    Ok(Items::from_vec(found))
}

// The numbers of the sites in each block.
fn sites_in(alloc: Global, blocks: &[FlatBlock]) -> Result<Items<Items<u32>>, AllocError>
    ensures { IfOk result (λ lists. lists ≡ block_sites 0 blocks.now) }
{
    let mut lists = Vec::new(alloc);
    let mut next: u32 = 0;
    for block in blocks {
        let count = calls_in(block.cmds.as_slice());
        lists.push(numbers(alloc, next, count)?)?;
        next = number_behind(next, count)?;
    }
    Ok(Items::from_vec(lists))
}

// The same for each procedure.
pub fn tables_of(alloc: Global, procs: &[FlatProc]) -> Result<Vec<Items<Items<u32>>>, AllocError>
    ensures { IfOk result (λ tables. tables.items ≡ site_tables procs.now) }
{
    let mut tables = Vec::new(alloc);
    for q in procs {
        tables.push(sites_in(alloc, q.blocks.as_slice())?)?;
    }
    Ok(tables)
}

// The sites of a procedure's blocks; none where there is no such procedure.
pub fn table_at(tables: &[Items<Items<u32>>], proc: u32) -> &[Items<u32>]
    ensures { result.now ≡ table_at tables.now proc }
{
    match tables.get(proc as usize) {
        Some(table) => table.as_slice(),
        None => &[],
    }
}

// The sites that a path of blocks passes, in order, where these are the sites of each block.
pub fn sites_along(
    alloc: Global,
    table: &[Items<u32>],
    path: &[u32],
) -> Result<Vec<u32>, AllocError>
    ensures { IfOk result (λ sites. sites.items ≡ sites_on table.now path.now) }
{
    let mut sites = Vec::new(alloc);
    for block in path {
        sites.extend_from_slice(list_at(table, *block))?;
    }
    Ok(sites)
}
