//! What is made for an event before anything is booked: it may want memory.
ghost use Rattle.std.specs.Prelude.{◌≡◌, ◌+◌, ◌∷◌, ◌++◌, [], IfOk, length, Some, None};
ghost use Rattle.call_tree.specs.declared.piece.Decision2.TheVariants.{Must, Avoid};
ghost use Rattle.piece_core.specs.declared.leaves.Status2.TheVariants.{Live};

use crate::leaves::{Leaf, Status2};
use crate::sights::Sight;
use call_tree::{Decision2, PartTree, SitePath, copy_paths};
use sqlite_items::Items;
use std::alloc::{AllocError, Global};

// What an inlining puts into the leaf and into the journal.
#[derive(Drop)]
pub(crate) struct Growth {
    pub tree: PartTree,
    pub sites: Items<SitePath>,
    pub inlined: u32,
}

pub(crate) fn grow(alloc: Global, sight: &Sight, sites: &[SitePath]) -> Result<Growth, AllocError>
    ensures { IfOk result (λ g. (g.tree ≡ sight.now.tree ++ sites.now) × (g.sites ≡ sites.now) × (g.inlined ≡ sight.now.inlined + length sites.now)) }
{
    let mut tree = sight.tree.copy(alloc)?;
    tree.append(sites)?;
    let copies = copy_paths(alloc, sites)?;
    let inlined = total(sight.inlined, sites.len())?;
    Ok(Growth {
        tree,
        sites: copies,
        inlined,
    })
}

// A sum past the greatest u32 counts as want of memory: so many paths would fill it.
fn total(inlined: u32, more: usize) -> Result<u32, AllocError>
    ensures { IfOk result (λ n. n ≡ inlined + more) }
{
    if more > 0xFFFF_FFFF - inlined as usize {
        return Err(AllocError);
    }
    Ok(inlined + more as u32)
}

// What a split puts into the leaf and into the journal, and the two leaves that it makes.
#[derive(Drop)]
pub(crate) struct Halves {
    pub site: SitePath,
    pub event_site: SitePath,
    pub must: Leaf,
    pub avoid: Leaf,
}

fn half(
    alloc: Global,
    holder: Option<u32>,
    sight: &Sight,
    site: &SitePath,
    way: Decision2,
) -> Result<Leaf, AllocError>
    ensures { IfOk result (λ l. l ≡ record { piece = sight.now.piece ++ (site.now, way) ∷ []; tree = sight.now.tree; inlined = 0; holder = holder; status = Live }) }
{
    let piece = sight.piece.with(alloc, site, way)?;
    let tree = sight.tree.copy(alloc)?;
    Ok(Leaf {
        piece,
        tree,
        inlined: 0,
        holder,
        status: Status2::Live,
    })
}

pub(crate) fn divide(
    alloc: Global,
    worker: u32,
    sight: &Sight,
    site: &SitePath,
) -> Result<Halves, AllocError>
    ensures { IfOk result (λ h. (h.site ≡ site.now) × (h.event_site ≡ site.now)
        × (h.must ≡ record { piece = sight.now.piece ++ (site.now, Must) ∷ []; tree = sight.now.tree; inlined = 0; holder = Some worker; status = Live })
        × (h.avoid ≡ record { piece = sight.now.piece ++ (site.now, Avoid) ∷ []; tree = sight.now.tree; inlined = 0; holder = None; status = Live })) }
{
    let first = site.copy(alloc)?;
    let second = site.copy(alloc)?;
    let must = half(alloc, Some(worker), sight, site, Decision2::Must)?;
    let avoid = half(alloc, None, sight, site, Decision2::Avoid)?;
    Ok(Halves {
        site: first,
        event_site: second,
        must,
        avoid,
    })
}
