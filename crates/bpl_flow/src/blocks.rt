//! The second pass over a walk: numbers take the place of labels and exits, and the blocks stand by number.
ghost use Rattle.std.specs.Prelude.{◌≡◌, [], map, replicate, OnOk, IfOk};
ghost use Rattle.bpl_flow.specs.Flow.{place_of, block_of_place, target, next_of, blocks_from};
ghost use Rattle.src_prog.specs.declared.block.Next.TheVariants.{Return as Returning};

use crate::exits::Exits;
use crate::places::Places;
use crate::state::{Aim, End, Ended};
use sqlite_items::Items;
use src_prog::{Next, SrcBlock};
use std::alloc::{AllocError, Global};

/// The block of the first place of a label; 0 where it has none.
pub fn label_block(places: &Places, name: &[u8]) -> u32
    ensures { result ≡ block_of_place (place_of name.now places.now) }
{
    match places.find(name) {
        None => 0,
        Some(place) => place.block,
    }
}

/// The block that an edge leads to.
pub fn target_block(places: &Places, exits: &Exits, aim: &Aim) -> u32
    ensures { result ≡ target places.now exits.now aim.now }
{
    match aim {
        Aim::Block { number } => *number,
        Aim::Label { name } => label_block(places, name.as_slice()),
        Aim::Exit { statement } => exits.find(*statement),
    }
}

/// The blocks that edges lead to, in order.
pub fn target_blocks(
    alloc: Global,
    places: &Places,
    exits: &Exits,
    aims: &[Aim],
) -> Result<Items<u32>, AllocError>
    ensures { IfOk result (λ ns. ns ≡ map (target places.now exits.now) aims.now) }
{
    let mut targets = Items::new(alloc);
    for aim in aims {
        targets.push(target_block(places, exits, aim))?;
    }
    Ok(targets)
}

/// How a block ends, by numbers.
pub fn numbered_end(
    alloc: Global,
    places: &Places,
    exits: &Exits,
    end: &End,
) -> Result<Next, AllocError>
    ensures { IfOk result (λ n. n ≡ next_of places.now exits.now end.now) }
{
    match end {
        End::Goes { aims } => {
            let targets = target_blocks(alloc, places, exits, aims.as_slice())?;
            Ok(Next::Goto(targets))
        }
        End::Returns => Ok(Next::Return),
    }
}

/// So many blocks without commands, which return.
pub fn empty_blocks(alloc: Global, count: u32) -> Result<Items<SrcBlock>, AllocError>
    ensures { IfOk result (λ bs. bs ≡ replicate count (record { cmds = []; next = Returning })) }
{
    let mut blocks = Items::new(alloc);
    for _made in 0..count {
        blocks.push(SrcBlock {
            cmds: Items::new(alloc),
            next: Next::Return,
        })?;
    }
    Ok(blocks)
}

/// The blocks by number, of which there are so many.
pub fn blocks_by_number(
    alloc: Global,
    places: &Places,
    exits: &Exits,
    ended: Items<Ended>,
    count: u32,
) -> Result<Items<SrcBlock>, AllocError>
    ensures { IfOk result (λ bs. bs ≡ blocks_from places.now exits.now ended 0 count) }
{
    let mut blocks = empty_blocks(alloc, count)?;
    let mut left = ended;
    while let Some(block) = left.pop() {
        let Ended { number, cmds, end } = block;
        let next = numbered_end(alloc, places, exits, &end)?;
        if (number as usize) < blocks.len() {
            blocks.set(number as usize, SrcBlock { cmds, next });
        }
    }
    Ok(blocks)
}
