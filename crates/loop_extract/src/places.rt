//! Where things stand in a flat procedure.
ghost use Rattle.std.specs.Prelude.{◌≡◌, [], ◌∷◌, IfOk};
ghost use Rattle.extract_def.specs.Exits as exits;
ghost use Rattle.flat_prog.specs.Sites as sites;
ghost use Rattle.flat_prog.specs.declared.block.FlatNext.TheVariants.{Goto};
ghost use Rattle.loop_extract.specs.Regions as spec;

use crate::numbers::{small, sum};
use crate::region::Region;
use extract_def::{Dest, Edge, Scope};
use flat_prog::FlatNext;
use sqlite_items::Items;
use src_prog::Next;
use std::alloc::{AllocError, Global};

// The block for an exit of the scope's loop.
fn leave_at(region: &Region, block: u32, place: u32) -> Result<u32, AllocError>
    ensures { IfOk result (λ n. n ≡ spec.leave_at region.now block place) }
{
    let exit = small(region.exits.place_of(block, place))?;
    sum(region.leave, exit)
}

// The block to which an edge leads, from that place of that block.
fn target_at(region: &Region, block: u32, place: u32, to: u32) -> Result<u32, AllocError>
    ensures { IfOk result (λ n. n ≡ spec.target_at region.now region.now.scope block place to) }
{
    match region.scope {
        Scope::Whole => small(region.kept.place_of(to)),
        Scope::In { head, exit } => {
            if head == to {
                return Ok(region.again);
            }
            if head < to && to < exit {
                return small(region.kept.place_of(to));
            }
            leave_at(region, block, place)
        }
    }
}

// The blocks to which the edges of a goto lead.
fn targets_at(
    alloc: Global,
    region: &Region,
    block: u32,
    targets: &[u32],
) -> Result<Items<u32>, AllocError>
    ensures { IfOk result (λ ns. ns ≡ spec.targets_at region.now block 0 targets.now) }
{
    let mut places = Items::new(alloc);
    for (k, target) in targets.iter().enumerate() {
        let place = small(k)?;
        places.push(target_at(region, block, place, *target)?)?;
    }
    Ok(places)
}

// A goto with one target.
fn goto(alloc: Global, target: u32) -> Result<FlatNext, AllocError>
    ensures { IfOk result (λ n. n ≡ Goto (target ∷ [])) }
{
    let targets = Items::from_slice(alloc, &[target])?;
    Ok(FlatNext::Goto(targets))
}

// Where a Return leads.
fn return_at(alloc: Global, region: &Region, block: u32) -> Result<FlatNext, AllocError>
    ensures { IfOk result (λ n. n ≡ spec.return_at region.now region.now.scope block) }
{
    match region.scope {
        Scope::Whole => Ok(FlatNext::Return),
        Scope::In { .. } => {
            let target = leave_at(region, block, 0)?;
            goto(alloc, target)
        }
    }
}

/// How a block of the source procedure ends in the flat one.
pub fn next_at(
    alloc: Global,
    region: &Region,
    block: u32,
    next: &Next,
) -> Result<FlatNext, AllocError>
    ensures { IfOk result (λ n. n ≡ spec.next_at region.now block next.now) }
{
    match next {
        Next::Goto(targets) => {
            let targets = targets_at(alloc, region, block, targets.as_slice())?;
            Ok(FlatNext::Goto(targets))
        }
        Next::Return => return_at(alloc, region, block),
    }
}

/// Where an edge leads in the flat procedure.
pub fn dest_at(alloc: Global, region: &Region, edge: Edge) -> Result<FlatNext, AllocError>
    ensures { IfOk result (λ n. n ≡ spec.dest_at region.now edge edge.dest) }
{
    match edge.dest {
        Dest::Back => return_at(alloc, region, edge.block),
        Dest::At(to) => {
            let target = target_at(region, edge.block, edge.place, to)?;
            goto(alloc, target)
        }
    }
}

/// A goto with so many targets, which follow one another.
pub fn goto_row(alloc: Global, first: u32, count: usize) -> Result<FlatNext, AllocError>
    ensures { IfOk result (λ n. n ≡ Goto (sites.numbers_from first count)) }
{
    let mut targets = Items::new(alloc);
    for k in 0..count {
        targets.push(sum(first, small(k)?)?)?;
    }
    Ok(FlatNext::Goto(targets))
}
