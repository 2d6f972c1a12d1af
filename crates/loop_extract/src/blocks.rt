//! The blocks of the flat procedure of a scope.
ghost use Rattle.std.specs.Prelude.{◌≡◌, ◌++◌, ◌∷◌, [], flat_map, map, slice_get, IfOk, OnOk};
ghost use Rattle.extract_def.specs.Renaming as renaming;
ghost use Rattle.loop_extract.specs.Regions as spec;

use crate::adding::{assume_exit, assume_false, call_of_loop, set_exit};
use crate::inner::Inner;
use crate::numbers::small;
use crate::places::{dest_at, goto_row, next_at};
use crate::region::Region;
use crate::renaming::moved_cmds;
use extract_def::{Edge, Scope};
use flat_prog::{FlatBlock, FlatCmd, FlatNext};
use sqlite_items::{Items, at};
use src_prog::SrcBlock;
use std::alloc::{AllocError, Global};

// A block of one command.
fn single(alloc: Global, cmd: FlatCmd, next: FlatNext) -> Result<FlatBlock, AllocError>
    ensures { IfOk result (λ b. b ≡ record { cmds = cmd ∷ []; next = next }) }
{
    let mut cmds = Items::new(alloc);
    cmds.push(cmd)?;
    Ok(FlatBlock { cmds, next })
}

// The call of a loop directly inside, and then a block for each of its exits.
fn enter_block(alloc: Global, region: &Region, inner: &Inner) -> Result<FlatBlock, AllocError>
    ensures { IfOk result (λ b. b ≡ spec.enter_block region.now inner.now) }
{
    let call = call_of_loop(alloc, inner.number, region.by, region.sorts.as_slice())?;
    let count = inner.exits.len().max(1);
    let next = goto_row(alloc, inner.first, count)?;
    single(alloc, call, next)
}

// A block with what it has in the source procedure.
fn plain_block(
    alloc: Global,
    region: &Region,
    number: u32,
    block: &SrcBlock,
) -> Result<FlatBlock, AllocError>
    ensures { IfOk result (λ b. b ≡ spec.plain_block region.now number block.now) }
{
    let cmds = moved_cmds(alloc, region.proc, region.by, block.cmds.as_slice())?;
    let next = next_at(alloc, region, number, &block.next)?;
    Ok(FlatBlock { cmds, next })
}

// The block of a number with what it has in the source procedure.
fn block_of(
    alloc: Global,
    region: &Region,
    blocks: &[SrcBlock],
    number: u32,
) -> Result<FlatBlock, AllocError>
    ensures { IfOk result (λ b. b ≡ spec.plain_block_at region.now number (slice_get blocks.now number)) }
{
    match at(blocks, number as usize) {
        Some(block) => plain_block(alloc, region, number, block),
        None => Ok(FlatBlock {
            cmds: Items::new(alloc),
            next: FlatNext::Return,
        }),
    }
}

// The block of a number, which the scope keeps.
fn block_at(
    alloc: Global,
    region: &Region,
    blocks: &[SrcBlock],
    number: u32,
) -> Result<FlatBlock, AllocError>
    ensures { IfOk result (λ b. b ≡ spec.block_at region.now blocks.now region.now.inside number) }
{
    match region.inside.find(number) {
        Some(inner) => enter_block(alloc, region, inner),
        None => block_of(alloc, region, blocks, number),
    }
}

// The blocks that the scope keeps.
fn kept_blocks(
    alloc: Global,
    region: &Region,
    blocks: &[SrcBlock],
) -> Result<Items<FlatBlock>, AllocError>
    ensures { IfOk result (λ bs. bs ≡ map (spec.block_at region.now blocks.now region.now.inside) region.now.kept) }
{
    let mut made = Items::new(alloc);
    for number in region.kept.numbers() {
        made.push(block_at(alloc, region, blocks, *number)?)?;
    }
    Ok(made)
}

// What follows an exit of a loop directly inside.
fn pass_block(
    alloc: Global,
    region: &Region,
    exit: u32,
    edge: Edge,
) -> Result<FlatBlock, AllocError>
    ensures { IfOk result (λ b. b ≡ record { cmds = renaming.assume_exit region.now.local exit ∷ []; next = spec.dest_at region.now edge edge.dest }) }
{
    let test = assume_exit(alloc, region.local, exit)?;
    let next = dest_at(alloc, region, edge)?;
    single(alloc, test, next)
}

// What follows each exit of a loop directly inside, behind other blocks.
fn push_exits(
    alloc: Global,
    region: &Region,
    made: &mut Items<FlatBlock>,
    edges: &[Edge],
) -> Result<(), AllocError>
    ensures { OnOk result (made.new ≡ made.old ++ spec.pass_from region.now 0 edges.now) }
{
    for (k, edge) in edges.iter().enumerate() {
        made.push(pass_block(alloc, region, small(k)?, *edge)?)?;
    }
    Ok(())
}

// What follows a loop directly inside, behind other blocks.
fn push_passes(
    alloc: Global,
    region: &Region,
    made: &mut Items<FlatBlock>,
    edges: &[Edge],
) -> Result<(), AllocError>
    ensures { OnOk result (made.new ≡ made.old ++ spec.pass_all region.now edges.now) }
{
    if edges.is_empty() {
        let none = assume_false(alloc)?;
        return made.push(single(alloc, none, FlatNext::Return)?);
    }
    push_exits(alloc, region, made, edges)
}

// What follows the loops directly inside, behind other blocks.
fn push_all_passes(
    alloc: Global,
    region: &Region,
    made: &mut Items<FlatBlock>,
) -> Result<(), AllocError>
    ensures { OnOk result (made.new ≡ made.old ++ flat_map (λ i. spec.pass_all region.now i.exits) region.now.inside) }
{
    for inner in region.inside.inners() {
        push_passes(alloc, region, made, inner.exits.as_slice())?;
    }
    Ok(())
}

// The exits of the scope's loop, behind other blocks.
fn push_leaves(
    alloc: Global,
    region: &Region,
    made: &mut Items<FlatBlock>,
) -> Result<(), AllocError>
    ensures { OnOk result (made.new ≡ made.old ++ spec.leave_from region.now 0 region.now.exits) }
{
    for (k, _edge) in region.exits.as_slice().iter().enumerate() {
        let set = set_exit(alloc, region.local, small(k)?)?;
        made.push(single(alloc, set, FlatNext::Return)?)?;
    }
    Ok(())
}

// The exits of the scope's loop and its further turn, behind other blocks, if it is a loop.
fn push_ends(alloc: Global, region: &Region, made: &mut Items<FlatBlock>) -> Result<(), AllocError>
    ensures { OnOk result (made.new ≡ made.old ++ spec.ends_at region.now region.now.scope) }
{
    match region.scope {
        Scope::Whole => Ok(()),
        Scope::In { .. } => {
            push_leaves(alloc, region, made)?;
            let call = call_of_loop(alloc, region.number, region.by, region.sorts.as_slice())?;
            made.push(single(alloc, call, FlatNext::Return)?)
        }
    }
}

/// The blocks of the flat procedure of a scope.
pub fn blocks_at(
    alloc: Global,
    region: &Region,
    blocks: &[SrcBlock],
) -> Result<Items<FlatBlock>, AllocError>
    ensures { IfOk result (λ bs. bs ≡ spec.blocks_at region.now blocks.now) }
{
    let mut made = kept_blocks(alloc, region, blocks)?;
    push_all_passes(alloc, region, &mut made)?;
    push_ends(alloc, region, &mut made)?;
    Ok(made)
}
