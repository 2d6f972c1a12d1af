//! What each block of the flat program comes from.
ghost use Rattle.std.specs.Prelude.{◌≡◌, ◌++◌, map, flat_map, IfOk, OnOk};
ghost use Rattle.flat_prog.specs.Sites.{numbers_from};
ghost use Rattle.extract_def.specs.declared.origin.Origin.TheVariants.{Leave, Pass};
ghost use Rattle.loop_extract.specs.OriginRows as spec;

use crate::inner::Inner;
use crate::numbers::small;
use crate::region::Region;
use crate::spans::Inside;
use extract_def::{Origin, Scope};
use sqlite_items::Items;
use std::alloc::{AllocError, Global};

// What a block that the scope keeps comes from.
fn kept_origin(inside: &Inside, block: u32) -> Origin
    ensures { result ≡ spec.kept_at inside.now block }
{
    match inside.find(block) {
        Some(_) => Origin::Enter { head: block },
        None => Origin::Block(block),
    }
}

// What the blocks that the scope keeps come from.
fn kept_origins(alloc: Global, region: &Region) -> Result<Items<Origin>, AllocError>
    ensures { IfOk result (λ os. os ≡ map (spec.kept_at region.now.inside) region.now.kept) }
{
    let mut origins = Items::new(alloc);
    for block in region.kept.numbers() {
        origins.push(kept_origin(&region.inside, *block))?;
    }
    Ok(origins)
}

// What the blocks for so many exits of the loop of a head come from, behind others.
fn push_passes(origins: &mut Items<Origin>, head: u32, count: usize) -> Result<(), AllocError>
    ensures { OnOk result (origins.new ≡ origins.old ++ map (Pass head) (numbers_from 0 count)) }
{
    for k in 0..count {
        let exit = small(k)?;
        origins.push(Origin::Pass { head, exit })?;
    }
    Ok(())
}

// What the blocks behind the loops directly inside come from, behind others.
fn push_all_passes(origins: &mut Items<Origin>, inside: &[Inner]) -> Result<(), AllocError>
    ensures { OnOk result (origins.new ≡ origins.old ++ flat_map spec.passes_at inside.now) }
{
    for inner in inside {
        push_passes(origins, inner.span.head, inner.exits.len().max(1))?;
    }
    Ok(())
}

// What the blocks for so many exits of the own loop come from, behind others.
fn push_leaves(origins: &mut Items<Origin>, count: usize) -> Result<(), AllocError>
    ensures { OnOk result (origins.new ≡ origins.old ++ map Leave (numbers_from 0 count)) }
{
    for k in 0..count {
        let exit = small(k)?;
        origins.push(Origin::Leave { exit })?;
    }
    Ok(())
}

// What the last blocks of a loop procedure come from, behind others.
fn push_ends(origins: &mut Items<Origin>, region: &Region) -> Result<(), AllocError>
    ensures { OnOk result (origins.new ≡ origins.old ++ spec.ends_at region.now region.now.scope) }
{
    match region.scope {
        Scope::Whole => Ok(()),
        Scope::In { head, exit: _ } => {
            push_leaves(origins, region.exits.len())?;
            origins.push(Origin::Again { head })
        }
    }
}

/// What the blocks of the flat procedure of a scope come from, in order.
pub fn origins_at(alloc: Global, region: &Region) -> Result<Items<Origin>, AllocError>
    ensures { IfOk result (λ os. os ≡ spec.origins_at region.now) }
{
    let mut origins = kept_origins(alloc, region)?;
    push_all_passes(&mut origins, region.inside.inners())?;
    push_ends(&mut origins, region)?;
    Ok(origins)
}
