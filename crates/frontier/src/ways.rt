//! The procedures on the way along a site path.
ghost use Rattle.std.specs.Prelude.{◌≡◌, IfOk};
ghost use Rattle.frontier.specs.Ways.{way_on};
ghost use Rattle.call_tree.specs.Trees.{last_or};

use crate::callees::callee_at;
use sqlite_items::Items;
use std::alloc::{AllocError, Global};

// The procedures along a path from one on, itself first, where these are the callees of all sites.
pub fn way_along(
    alloc: Global,
    lists: &[Items<u32>],
    from: u32,
    path: &[u32],
) -> Result<Vec<u32>, AllocError>
    ensures { IfOk result (λ way. way.items ≡ way_on lists.now from path.now) }
{
    let mut way = Vec::new(alloc);
    let mut at = from;
    for site in path {
        way.push(at)?;
        match callee_at(lists, at, *site) {
            Some(next) => at = next,
            None => return Ok(way),
        }
    }
    way.push(at)?;
    Ok(way)
}

// The last procedure on a way; 0 on none.
pub fn last_on(way: &[u32]) -> u32
    ensures { result ≡ last_or 0 way.now }
{
    match way.last() {
        Some(last) => *last,
        None => 0,
    }
}
