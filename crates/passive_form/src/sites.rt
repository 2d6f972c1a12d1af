//! Lists with marks: what is marked, and what replaces it.
ghost use Rattle.std.specs.Prelude.{◌≡◌, slice_get, IfOk};
ghost use Rattle.passive_form.specs.Local as local;
ghost use Rattle.passive_form.specs.Drafts.{is_marked, replacement};

use hy_val::Sort;
use sqlite_items::{Items, at};
use std::alloc::{AllocError, Global};

// Whether a place is marked.
fn marked(marks: &[bool], place: usize) -> bool
    ensures { result ≡ is_marked (slice_get marks.now place) }
{
    match at(marks, place) {
        Some(mark) => *mark,
        None => false,
    }
}

/// The sorts at the places that are marked.
pub(crate) fn picked(
    alloc: Global,
    marks: &[bool],
    sorts: &[Sort],
) -> Result<Items<Sort>, AllocError>
    ensures { IfOk result (λ ss. ss ≡ local.picked marks.now sorts.now) }
{
    let mut found = Items::new(alloc);
    for (place, sort) in sorts.iter().enumerate() {
        if marked(marks, place) {
            found.push(*sort)?;
        }
    }
    Ok(found)
}

// What replaces the version at a place: the next of the new ones, where it is marked.
fn replacing(marks: &[bool], place: usize, fresh: &[u32], used: usize) -> Option<u32>
    ensures { result ≡ replacement (is_marked (slice_get marks.now place)) (slice_get fresh.now used) }
{
    if marked(marks, place) {
        at(fresh, used).copied()
    } else {
        None
    }
}

/// The versions, those at the marked places replaced by the new ones, in order.
pub(crate) fn replaced(
    alloc: Global,
    marks: &[bool],
    versions: &[u32],
    fresh: &[u32],
) -> Result<Items<u32>, AllocError>
    ensures { IfOk result (λ vs. vs ≡ local.replaced marks.now versions.now fresh.now) }
{
    let mut found = Items::new(alloc);
    let mut used: usize = 0;
    for (place, version) in versions.iter().enumerate() {
        match replacing(marks, place, fresh, used) {
            Some(other) => {
                found.push(other)?;
                used += 1;
            }
            None => found.push(*version)?,
        }
    }
    Ok(found)
}
