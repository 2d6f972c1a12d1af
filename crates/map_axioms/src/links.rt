//! The entries of each map, one after the other.
ghost use Rattle.std.specs.Prelude.{◌≡◌, length, nat_eq, IfOk};
ghost use Rattle.std.specs.Option.{unwrap_or};
ghost use Rattle.indexmap.specs.IndexMap.{get};
ghost use Rattle.map_axioms.specs.Lifting.{FirstsFrom};
ghost use Rattle.map_axioms.specs.Steps.{LinksFrom};

use crate::entry::Entry;
use indexmap::IndexMap;
use sqlite_items::Items;
use std::alloc::{AllocError, Global};

/// Where the entries of each map stand in their list.
#[derive(Drop)]
pub(crate) struct Chains {
    /// For each map that has entries the place of its first one.
    pub firsts: IndexMap<usize, usize>,
    /// For each entry the place of the next one of its map; the count of all entries where there is none.
    pub next: Items<usize>,
}

/// The place that is known for a map; the count of all entries where none is.
pub(crate) fn place_for(places: &IndexMap<usize, usize>, map: usize, count: usize) -> usize
    ensures { result ≡ unwrap_or (get nat_eq places.now map) count }
{
    match places.get(&map) {
        None => count,
        Some(place) => *place,
    }
}

// So many entries with no next one.
fn ends(alloc: Global, count: usize) -> Result<Items<usize>, AllocError>
    ensures { IfOk result (λ ls. length ls ≡ count) }
{
    let mut ends = Items::new(alloc);
    'fill: while ends.len() < count {
        ends.push(count)?;
    }
    Ok(ends)
}

/// Where the entries stand. From the last one on, so that the first one found so far of a map is the next one of an entry
/// before it.
pub(crate) fn linked(alloc: Global, entries: &[Entry]) -> Result<Chains, AllocError>
    ensures next { IfOk result (λ l. LinksFrom entries.now l.next 0) }
    ensures firsts { IfOk result (λ l. FirstsFrom entries.now (get nat_eq l.firsts) 0) }
{
    let count = entries.len();
    let mut next = ends(alloc, count)?;
    let mut firsts = IndexMap::new(alloc);
    let mut left = count;
    'back: while left > 0 {
        left -= 1;
        let map = entries[left].map;
        let later = place_for(&firsts, map, count);
        next.set(left, later);
        firsts.insert(map, left)?;
    }
    Ok(Chains { firsts, next })
}

/// For each entry the place of the next one of its map; the count of all entries where there is none.
pub(crate) fn links(alloc: Global, entries: &[Entry]) -> Result<Items<usize>, AllocError>
    ensures { IfOk result (λ ls. LinksFrom entries.now ls 0) }
{
    let Chains { firsts: _, next } = linked(alloc, entries)?;
    Ok(next)
}
